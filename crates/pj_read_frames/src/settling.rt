//! Ends the operators on top, once the token behind their operand is known to bind more loosely. It computes `settle` of specs/Frames
//! of pj_grammar. The loop's proof is proofs/settling/settle with the lemmas of proofs/Ending; the prover finds the others by itself.
ghost use Rattle.std.specs.Prelude.{◌≡◌, ◌∷◌, IfOk};
ghost use Rattle.pj_grammar.specs.Frames.{node, settle};
ghost use Rattle.pj_grammar.specs.Makers.{conditional_of, infix_of, prefix_of};
ghost use Rattle.pj_grammar.specs.declared.level.Level.{Level};
ghost use Rattle.pj_read_frames.specs.Tops.{ended, ends_top, settled_of};

use crate::stack::Stack;
use crate::view::ends_top;
use pj_base::NoMemory;
use pj_base::release::failed;
use pj_grammar::{Frame, Head, Level, Node, Operator};
use pj_read_makers::bounds::small;
use pj_read_makers::expressions::{conditional_of, infix_of, prefix_of};
use pj_read_makers::heads::node;
use sqlite_items::Boxed;
use std::alloc::Global;

/// An operand over the frames.
#[derive(Drop)]
pub struct Operand {
    pub head: Head,
    pub stack: Stack,
}

/// What a prefix operator makes.
fn prefixed(alloc: Global, operator: Operator, head: Head) -> Result<Node, NoMemory>
    ensures { IfOk result (λ made. made ≡ prefix_of operator (node head)) }
{
    let e = node(alloc, head)?;
    match small(e.nesting) {
        Ok(()) => prefix_of(alloc, operator, e),
        Err(error) => failed(error, e),
    }
}

/// What a binary operator makes of two operands. Operands that nest too deep count as out of memory.
fn infix_small(alloc: Global, left: Node, operator: Operator, right: Node) -> Result<Node, NoMemory>
    ensures { IfOk result (λ made. made ≡ infix_of left operator right) }
{
    match small(left.nesting.max(right.nesting)) {
        Ok(()) => infix_of(alloc, left, operator, right),
        Err(error) => failed(error, (left, right)),
    }
}

/// What a binary operator makes.
fn joined(alloc: Global, left: Node, operator: Operator, head: Head) -> Result<Node, NoMemory>
    ensures { IfOk result (λ made. made ≡ infix_of left operator (node head)) }
{
    match node(alloc, head) {
        Ok(right) => infix_small(alloc, left, operator, right),
        Err(error) => failed(error, left),
    }
}

/// What a condition makes of its parts. Parts that nest too deep count as out of memory.
fn condition_small(
    alloc: Global,
    condition: Node,
    holds: Node,
    fails: Node,
) -> Result<Node, NoMemory>
    ensures { IfOk result (λ made. made ≡ conditional_of condition holds fails) }
{
    match small(condition.nesting.max(holds.nesting.max(fails.nesting))) {
        Ok(()) => conditional_of(alloc, condition, holds, fails),
        Err(error) => failed(error, (condition, (holds, fails))),
    }
}

/// What a condition makes.
fn chosen(alloc: Global, condition: Node, holds: Node, head: Head) -> Result<Node, NoMemory>
    ensures { IfOk result (λ made. made ≡ conditional_of condition holds (node head)) }
{
    match node(alloc, head) {
        Ok(fails) => condition_small(alloc, condition, holds, fails),
        Err(error) => failed(error, (condition, holds)),
    }
}

/// A prefix operator ends.
fn end_prefix(
    alloc: Global,
    operator: Operator,
    head: Head,
    stack: Stack,
) -> Result<Operand, NoMemory>
    ensures { IfOk result (λ o. settled_of o ≡ ended head (Frame.Prefix operator ∷ stack)) }
{
    let head = Head::Plain(prefixed(alloc, operator, head)?);
    Ok(Operand { head, stack })
}

/// A binary operator ends.
fn end_infix(
    alloc: Global,
    level: Level,
    left: Node,
    operator: Operator,
    head: Head,
    stack: Stack,
) -> Result<Operand, NoMemory>
    ensures { IfOk result (λ o. settled_of o ≡ ended head (Frame.Infix level left operator ∷ stack)) }
{
    let head = Head::Plain(joined(alloc, left, operator, head)?);
    Ok(Operand { head, stack })
}

/// A condition ends.
fn end_else(
    alloc: Global,
    condition: Boxed<Node>,
    holds: Boxed<Node>,
    head: Head,
    stack: Stack,
) -> Result<Operand, NoMemory>
    ensures { IfOk result (λ o. settled_of o ≡ ended head (Frame.Else condition holds ∷ stack)) }
{
    let made = chosen(alloc, condition.into_inner(), holds.into_inner(), head)?;
    let head = Head::Plain(made);
    Ok(Operand { head, stack })
}

/// No operator ends, where another frame stands on top.
fn keep(frame: Frame, head: Head, mut stack: Stack) -> Result<Operand, NoMemory>
    ensures { IfOk result (λ o. settled_of o ≡ record { head = head; frames = frame ∷ stack }) }
{
    match stack.push(frame) {
        Ok(()) => Ok(Operand { head, stack }),
        Err(error) => failed(error, (head, stack)),
    }
}

/// The operator of a frame ends, over those below it.
fn end_frame(alloc: Global, frame: Frame, head: Head, stack: Stack) -> Result<Operand, NoMemory>
    ensures { IfOk result (λ o. settled_of o ≡ ended head (frame ∷ stack)) }
{
    match frame {
        Frame::Prefix(operator) => end_prefix(alloc, operator, head, stack),
        Frame::Infix(level, left, operator) => {
            end_infix(alloc, level, left, operator, head, stack)
        }
        Frame::Else(condition, holds) => end_else(alloc, condition, holds, head, stack),
        other => keep(other, head, stack),
    }
}

/// The operator on top ends.
fn end_top(alloc: Global, operand: Operand) -> Result<Operand, NoMemory>
    ensures { IfOk result (λ o. settled_of o ≡ ended operand.head operand.stack) }
{
    let Operand { head, mut stack } = operand;
    match stack.pop() {
        Some(frame) => end_frame(alloc, frame, head, stack),
        None => Ok(Operand { head, stack }),
    }
}

/// Ends the operators that bind so tightly or more tightly.
#[tactic(auto, using(crate::proofs::Ending::settle_off, crate::proofs::Ending::one_ended, crate::proofs::Ending::one_shorter))]
pub fn settle(alloc: Global, level: Level, head: Head, stack: Stack) -> Result<Operand, NoMemory>
    ensures { IfOk result (λ o. settled_of o ≡ settle level head stack) }
{
    let mut operand = Operand { head, stack };
    while ends_top(level, operand.stack.layers()) {
        operand = end_top(alloc, operand)?;
    }
    Ok(operand)
}
