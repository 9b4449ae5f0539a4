//! What ends on top of an `@eval` or `eval` that evaluates it, and elsewhere. It computes `closed_evaluated`, `closed_method`,
//! `closed_value` and `closed_set` of specs/Closing of pj_grammar. The prover finds these proofs, with lemmas of proofs/Payloads.
ghost use Rattle.std.specs.Prelude.{◌≡◌, ◌∷◌, ◌+◌, ◌≤◌, IfOk, OnOk, if◌then◌else◌};
ghost use Rattle.pj_grammar.specs.Frames.{at as state_at};
ghost use Rattle.pj_grammar.specs.Closing.{closed_evaluated, closed_line, closed_method, closed_set, closed_value};
ghost use Rattle.pj_grammar.specs.Makers.{assign_of, eval_of, set_evaluated, value_evaluated, value_of};
ghost use Rattle.pj_grammar.specs.Need.{holder_nesting};
ghost use Rattle.pj_read_makers.specs.Bounds.{most_nesting};

use crate::lines::{closed_entry, closed_line};
use pj_base::NoMemory;
use pj_base::release::failed;
use pj_grammar::{Frame, Line, Mode, Node, Operator, Target};
use pj_read_frames::reading::{Answer, at, let_go};
use pj_read_frames::stack::Stack;
use pj_read_frames::view::on_payload;
use pj_read_makers::assignments::assign_of;
use pj_read_makers::bounds::small;
use pj_read_makers::definitions::{
    Evaluated, Method, eval_of, method_evaluated, set_evaluated, value_evaluated,
};
use pj_read_makers::items::method_defined;
use pj_read_makers::statements::value_of;
use pj_read_makers::together::in_box;
use pj_syntax::Spot;
use std::alloc::Global;

/// `@eval` of what is evaluated.
fn eval_line(alloc: Global, owner: Option<Spot>, y: Evaluated) -> Result<Line, NoMemory>
    ensures { IfOk result (λ made. made ≡ eval_of owner y) }
{
    match small(y.nesting()) {
        Ok(()) => eval_of(alloc, owner, y),
        Err(error) => failed(error, (owner, y)),
    }
}

/// What is evaluated ends, behind which two parentheses follow.
fn quoted_end(alloc: Global, line: Line, stack: Stack) -> Answer
    ensures { IfOk result (λ r. r ≡ state_at (Mode.PayloadEnd line) stack) }
{
    match in_box(alloc, line) {
        Ok(line) => Ok(at(Mode::PayloadEnd(line), stack)),
        Err(error) => failed(error, stack),
    }
}

/// What is evaluated ends, and so `@eval`, or two parentheses follow.
fn eval_end(alloc: Global, quoted: bool, line: Line, stack: Stack) -> Answer
    ensures { IfOk result (λ r. r ≡ (if quoted then state_at (Mode.PayloadEnd line) stack else closed_line line stack)) }
{
    if quoted {
        quoted_end(alloc, line, stack)
    } else {
        closed_line(alloc, line, stack)
    }
}

/// What is evaluated ends.
fn evaluated_in(
    alloc: Global,
    owner: Option<Spot>,
    quoted: bool,
    y: Evaluated,
    stack: Stack,
) -> Answer
    ensures { IfOk result (λ r. r ≡ closed_evaluated y (Frame.Payload owner quoted ∷ stack)) }
{
    match eval_line(alloc, owner, y) {
        Ok(line) => eval_end(alloc, quoted, line, stack),
        Err(error) => failed(error, stack),
    }
}

/// What is evaluated ends, on a frame.
fn evaluated_on(alloc: Global, y: Evaluated, frame: Frame, stack: Stack) -> Answer
    ensures { IfOk result (λ r. r ≡ closed_evaluated y (frame ∷ stack)) }
{
    match frame {
        Frame::Payload(owner, quoted) => evaluated_in(alloc, owner, quoted, y, stack),
        other => let_go((other, (y, stack))),
    }
}

/// What is evaluated ends, on top of what asks for it.
pub fn closed_evaluated(alloc: Global, y: Evaluated, mut stack: Stack) -> Answer
    ensures { IfOk result (λ r. r ≡ closed_evaluated y stack) }
{
    match stack.pop() {
        Some(frame) => evaluated_on(alloc, y, frame, stack),
        None => let_go((y, stack)),
    }
}

/// A definition ends.
#[tactic(auto, using(crate::proofs::Payloads::method_on, crate::proofs::Payloads::method_off))]
pub fn closed_method(alloc: Global, method: Method, stack: Stack) -> Answer
    ensures { IfOk result (λ r. r ≡ closed_method method stack) }
{
    if on_payload(stack.layers()) {
        closed_evaluated(alloc, method_evaluated(method), stack)
    } else {
        closed_entry(method_defined(method), stack)
    }
}

/// An expression as what is evaluated.
fn value_in(e: Node) -> Result<Evaluated, NoMemory>
    ensures { IfOk result (λ made. made ≡ value_evaluated e) }
{
    match small(e.nesting) {
        Ok(()) => Ok(value_evaluated(e)),
        Err(error) => failed(error, e),
    }
}

/// An expression ends that is evaluated.
fn value_payload(alloc: Global, e: Node, stack: Stack) -> Answer
    ensures { IfOk result (λ r. r ≡ closed_evaluated (value_evaluated e) stack) }
{
    let y = value_in(e)?;
    closed_evaluated(alloc, y, stack)
}

/// An expression as a statement.
fn value_line(e: Node) -> Result<Line, NoMemory>
    ensures { IfOk result (λ made. made ≡ value_of e) }
{
    match small(e.nesting) {
        Ok(()) => Ok(value_of(e)),
        Err(error) => failed(error, e),
    }
}

/// An expression ends that is a statement.
fn value_statement(alloc: Global, e: Node, stack: Stack) -> Answer
    ensures { IfOk result (λ r. r ≡ closed_line (value_of e) stack) }
{
    let line = value_line(e)?;
    closed_line(alloc, line, stack)
}

/// An expression ends that is a statement, or is evaluated.
#[tactic(auto, using(crate::proofs::Payloads::value_on, crate::proofs::Payloads::value_off))]
pub fn closed_value(alloc: Global, e: Node, stack: Stack) -> Answer
    ensures { IfOk result (λ r. r ≡ closed_value e stack) }
{
    if on_payload(stack.layers()) {
        value_payload(alloc, e, stack)
    } else {
        value_statement(alloc, e, stack)
    }
}

/// Ok where what has the field that is set, and the value, don't nest too deep for a sum.
fn small_assign(target: &Target, nesting: usize) -> Result<(), NoMemory>
    ensures { OnOk result ((1 + holder_nesting target.now ≤ most_nesting) × (nesting ≤ most_nesting)) }
{
    match target {
        Target::Field(holder, _) => small(holder.get().nesting.saturating_add(1).max(nesting)),
        Target::Local(_) | Target::Global(_, _) => small(nesting),
    }
}

/// An assignment as a statement.
fn assign_line(
    alloc: Global,
    target: Target,
    operator: Option<Operator>,
    e: Node,
) -> Result<Line, NoMemory>
    ensures { IfOk result (λ made. made ≡ assign_of target operator e) }
{
    match small_assign(&target, e.nesting) {
        Ok(()) => assign_of(alloc, target, operator, e),
        Err(error) => failed(error, (target, e)),
    }
}

/// An assignment ends as a statement.
fn set_line(
    alloc: Global,
    target: Target,
    operator: Option<Operator>,
    e: Node,
    stack: Stack,
) -> Answer
    ensures { IfOk result (λ r. r ≡ closed_line (assign_of target operator e) stack) }
{
    let line = assign_line(alloc, target, operator, e)?;
    closed_line(alloc, line, stack)
}

/// The assignment of a name as what is evaluated.
fn set_in(name: Spot, e: Node) -> Result<Evaluated, NoMemory>
    ensures { IfOk result (λ made. made ≡ set_evaluated name e) }
{
    match small(e.nesting) {
        Ok(()) => Ok(set_evaluated(name, e)),
        Err(error) => failed(error, (name, e)),
    }
}

/// The assignment of a name ends as what is evaluated.
fn set_payload(alloc: Global, name: Spot, e: Node, stack: Stack) -> Answer
    ensures { IfOk result (λ r. r ≡ closed_evaluated (set_evaluated name e) stack) }
{
    let y = set_in(name, e)?;
    closed_evaluated(alloc, y, stack)
}

/// The assignment of a name ends, as a statement or as what is evaluated.
#[tactic(auto, using(crate::proofs::Payloads::set_on, crate::proofs::Payloads::set_off))]
fn set_local(alloc: Global, name: Spot, operator: Option<Operator>, e: Node, stack: Stack) -> Answer
    ensures { IfOk result (λ r. r ≡ closed_set (Target.Local name) operator e stack) }
{
    if on_payload(stack.layers()) {
        set_payload(alloc, name, e, stack)
    } else {
        set_line(alloc, Target::Local(name), operator, e, stack)
    }
}

/// An assignment ends.
pub fn closed_set(
    alloc: Global,
    target: Target,
    operator: Option<Operator>,
    e: Node,
    stack: Stack,
) -> Answer
    ensures { IfOk result (λ r. r ≡ closed_set target operator e stack) }
{
    match target {
        Target::Local(name) => set_local(alloc, name, operator, e, stack),
        Target::Field(holder, field) => {
            set_line(alloc, Target::Field(holder, field), operator, e, stack)
        }
        Target::Global(place, name) => {
            set_line(alloc, Target::Global(place, name), operator, e, stack)
        }
    }
}
