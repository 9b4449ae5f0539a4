//! How a reader goes on from an operand.
ghost use Rattle.std.specs.Prelude.{◌≡◌, ◌∷◌, ℕ, IfOk, None};
ghost use Rattle.pj_grammar.specs.Frames.{admits, at as state_at, guarded};
ghost use Rattle.pj_grammar.specs.Operands.{ask, extend, have_assign, have_dot, have_paren, open_apart};
ghost use Rattle.pj_read_frames.specs.Tops.{settled_of};
ghost use Rattle.pj_read_operands.specs.Values.{below_value};

use crate::calls::{define, open_direct};
use pj_grammar::{Frame, Head, Level, Mode, Node, Operator, Purpose, Target};
use pj_lex::Sign;
use pj_read_frames::reading::{Answer, Reading, guarded, guarded_over, let_go, over};
use pj_read_frames::settling::Operand;
use pj_read_frames::stack::Stack;
use pj_read_frames::view::{admits, on_payload, takes_directives, takes_lines};
use pj_read_makers::bounds::small;
use pj_read_makers::expressions::{field_of, name_of};
use pj_read_makers::heads::{head_path, node};
use pj_read_makers::modules::ModuleNames;
use pj_read_makers::params::params_of;
use pj_read_makers::tokens::{is_plain, operator_at};
use pj_syntax::{Path, PathList, Spot};
use sqlite_items::Boxed;
use std::alloc::Global;

/// A field's name follows, if the frame on top takes it.
fn field_follows(e: Node, place: bool, stack: Stack) -> Option<Reading>
    ensures { result ≡ guarded (admits stack Level.Postfix) (state_at (Mode.Field e place) stack) }
{
    let holds = admits(stack.layers(), Level::Postfix);
    guarded(holds, Mode::Field(e, place), stack)
}

/// A dot behind a name.
fn dot_of_name(alloc: Global, modules: &ModuleNames, x: Spot, stack: Stack) -> Answer
    ensures { IfOk result (λ r. r ≡ have_dot modules.now (Head.Name x) stack) }
{
    if modules.is_module(x.text.as_str()) {
        let holds = admits(stack.layers(), Level::Named);
        Ok(guarded(holds, Mode::Member(Boxed::new(alloc, x)?), stack))
    } else {
        Ok(field_follows(name_of(Path::Bare(x)), true, stack))
    }
}

/// A dot.
pub fn have_dot(alloc: Global, modules: &ModuleNames, head: Head, stack: Stack) -> Answer
    ensures { IfOk result (λ r. r ≡ have_dot modules.now head stack) }
{
    match head {
        Head::Name(x) => dot_of_name(alloc, modules, x, stack),
        Head::Member(m, x) => Ok(field_follows(name_of(Path::Of(m, x)), true, stack)),
        Head::Place(e, x) => {
            small(e.get().nesting)?;
            Ok(field_follows(field_of(alloc, e.into_inner(), x)?, true, stack))
        }
        other => Ok(field_follows(node(alloc, other)?, false, stack)),
    }
}

/// A parenthesis behind a blank and a name that begins a statement.
fn open_word(x: Spot, stack: Stack) -> Answer
    ensures { IfOk result (λ r. r ≡ open_apart (Head.Name x) (Frame.Hole Purpose.Value ∷ stack)) }
{
    if x.text.as_str() == "eval" {
        let holds = takes_lines(stack.layers());
        return Ok(guarded(holds, Mode::EvalColon, stack));
    }
    let holds = x.text.as_str() == "precompile" && takes_directives(stack.layers());
    guarded_over(holds, Mode::PathStart, Frame::DirectiveFun, stack)
}

/// A parenthesis behind a blank and a name that an expression begins with.
fn open_hole(x: Spot, purpose: Purpose, stack: Stack) -> Answer
    ensures { IfOk result (λ r. r ≡ open_apart (Head.Name x) (Frame.Hole purpose ∷ stack)) }
{
    match purpose {
        Purpose::Value => open_word(x, stack),
        other => let_go(other),
    }
}

/// A parenthesis behind a blank and a name.
fn open_name(x: Spot, mut stack: Stack) -> Answer
    ensures { IfOk result (λ r. r ≡ open_apart (Head.Name x) stack) }
{
    let Some(frame) = stack.pop() else {
        return Ok(None);
    };
    match frame {
        Frame::Hole(purpose) => open_hole(x, purpose, stack),
        other => let_go(other),
    }
}

/// A parenthesis behind a blank, which only `eval` and `precompile` have.
fn open_apart(head: Head, stack: Stack) -> Answer
    ensures { IfOk result (λ r. r ≡ open_apart head stack) }
{
    match head {
        Head::Name(x) => open_name(x, stack),
        other => let_go(other),
    }
}

/// A parenthesis behind an operand.
pub fn have_paren(alloc: Global, head: Head, stack: Stack, blank: bool) -> Answer
    ensures { IfOk result (λ r. r ≡ have_paren head stack blank) }
{
    if blank {
        open_apart(head, stack)
    } else {
        open_direct(alloc, head_path(head), stack)
    }
}

/// A binary operator.
pub fn extend(alloc: Global, level: Level, sign: Sign, start: usize, settled: Operand) -> Answer
    ensures { IfOk result (λ r. r ≡ extend level sign start (settled_of settled)) }
{
    let Operand { head, stack } = settled;
    let holds = admits(stack.layers(), level);
    let operator = Operator { sign, at: start };
    let left = node(alloc, head)?;
    guarded_over(
        holds,
        Mode::Want,
        Frame::Infix(level, left, operator),
        stack,
    )
}

/// `?`
pub fn ask(alloc: Global, settled: Operand) -> Answer
    ensures { IfOk result (λ r. r ≡ ask (settled_of settled)) }
{
    let Operand { head, stack } = settled;
    let holds = admits(stack.layers(), Level::Conditional);
    let condition = node(alloc, head)?;
    guarded_over(holds, Mode::Want, Frame::Then(condition), stack)
}

/// An assignment to a name.
#[tactic(auto, using(crate::proofs::Assigns::name_on, crate::proofs::Assigns::name_off))]
fn assign_name(x: Spot, stack: Stack, start: usize, operator: Option<Sign>) -> Answer
    ensures { IfOk result (λ r. r ≡ have_assign (Head.Name x) (Frame.Hole Purpose.Value ∷ stack) start operator) }
{
    if on_payload(stack.layers()) {
        let frame = Frame::Hole(Purpose::Assign(Target::Local(x), None));
        return guarded_over(is_plain(operator), Mode::Want, frame, stack);
    }
    let purpose = Purpose::Assign(Target::Local(x), operator_at(start, operator));
    over(Mode::Want, Frame::Hole(purpose), stack)
}

/// An assignment to a field.
fn assign_place(
    e: Boxed<Node>,
    x: Spot,
    stack: Stack,
    start: usize,
    operator: Option<Sign>,
) -> Answer
    ensures { IfOk result (λ r. r ≡ have_assign (Head.Place e x) (Frame.Hole Purpose.Value ∷ stack) start operator) }
{
    let holds = takes_lines(stack.layers());
    let purpose = Purpose::Assign(Target::Field(e, x), operator_at(start, operator));
    guarded_over(holds, Mode::Want, Frame::Hole(purpose), stack)
}

/// `=` behind a call, which makes it a definition.
fn assign_call(
    alloc: Global,
    f: Path,
    paths: PathList,
    stack: Stack,
    operator: Option<Sign>,
) -> Answer
    ensures { (start : ℕ) → IfOk result (λ r. r ≡ have_assign (Head.Call f paths) (Frame.Hole Purpose.Value ∷ stack) start operator) }
{
    match operator {
        None => define(f, params_of(alloc, paths)?, stack),
        Some(_) => Ok(None),
    }
}

/// An assignment behind the first operand of a statement or a payload.
fn assign_value(
    alloc: Global,
    head: Head,
    stack: Stack,
    start: usize,
    operator: Option<Sign>,
) -> Answer
    ensures { IfOk result (λ r. r ≡ have_assign head (Frame.Hole Purpose.Value ∷ stack) start operator) }
{
    match head {
        Head::Name(x) => assign_name(x, stack, start, operator),
        Head::Place(e, x) => assign_place(e, x, stack, start, operator),
        Head::Call(f, paths) => assign_call(alloc, f, paths, stack, operator),
        other => let_go(other),
    }
}

/// No frames, where a value is of no more use.
fn no_frames<T: Drop>(_value: T) -> Option<Stack>
    ensures { result ≡ None }
{
    None
}

/// The frames below an expression, if it begins a statement or a payload.
fn below_hole(purpose: Purpose, stack: Stack) -> Option<Stack>
    ensures { result ≡ below_value (Frame.Hole purpose ∷ stack) }
{
    match purpose {
        Purpose::Value => Some(stack),
        other => no_frames(other),
    }
}

/// The frames below what begins a statement or a payload, if it stands on top.
fn below_value(mut stack: Stack) -> Option<Stack>
    ensures { result ≡ below_value stack }
{
    let Some(frame) = stack.pop() else {
        return None;
    };
    match frame {
        Frame::Hole(purpose) => below_hole(purpose, stack),
        other => no_frames(other),
    }
}

/// The sign of an assignment behind an operand.
#[tactic(auto, using(crate::proofs::Assigns::assign_off))]
pub fn have_assign(
    alloc: Global,
    head: Head,
    stack: Stack,
    start: usize,
    operator: Option<Sign>,
) -> Answer
    ensures { IfOk result (λ r. r ≡ have_assign head stack start operator) }
{
    match below_value(stack) {
        Some(below) => assign_value(alloc, head, below, start, operator),
        None => let_go(head),
    }
}
