//! Blocks that end with `end`. It computes `close_block` of specs/Closing of pj_grammar. Its proof is proofs/blocks/close_block; the
//! prover finds the others by itself.
ghost use Rattle.std.specs.Prelude.{◌≡◌, ◌∷◌, IfOk};
ghost use Rattle.pj_grammar.specs.Closing.{close_block};
ghost use Rattle.pj_grammar.specs.Makers.{for_of, method_of, while_of};

use crate::evaluated::closed_method;
use crate::lines::{closed_line, if_line};
use pj_base::NoMemory;
use pj_base::release::failed;
use pj_grammar::{Entries, Frame, Line, Lines, Mode, Node, Opener, Root};
use pj_read_frames::reading::{Answer, let_go, over};
use pj_read_frames::stack::Stack;
use pj_read_makers::bounds::small;
use pj_read_makers::definitions::{Method, method_of};
use pj_read_makers::statements::{for_of, no_lines, while_of};
use pj_syntax::{ParamList, Path, Spot};
use sqlite_items::Boxed;
use std::alloc::Global;

/// A `while` with its condition and its statements.
fn while_line(alloc: Global, condition: Node, body: Lines) -> Result<Line, NoMemory>
    ensures { IfOk result (λ made. made ≡ while_of condition body) }
{
    match small(condition.nesting.max(body.nesting)) {
        Ok(()) => while_of(alloc, condition, body),
        Err(error) => failed(error, (condition, body)),
    }
}

/// A `for` with its bounds and its statements.
fn for_line(
    alloc: Global,
    name: Spot,
    first: Node,
    last: Node,
    body: Lines,
) -> Result<Line, NoMemory>
    ensures { IfOk result (λ made. made ≡ for_of name first last body) }
{
    match small(first.nesting.max(last.nesting.max(body.nesting))) {
        Ok(()) => for_of(alloc, name, first, last, body),
        Err(error) => failed(error, (name, (first, (last, body)))),
    }
}

/// A method with its block.
fn method_with(path: Path, params: ParamList, body: Lines) -> Result<Method, NoMemory>
    ensures { IfOk result (λ made. made ≡ method_of path params body) }
{
    match small(body.nesting) {
        Ok(()) => Ok(method_of(path, params, body)),
        Err(error) => failed(error, (path, (params, body))),
    }
}

/// An `if` ends without `else`.
fn end_if(alloc: Global, condition: Boxed<Node>, lines: Lines, stack: Stack) -> Answer
    ensures { IfOk result (λ r. r ≡ close_block (Frame.Block (Opener.If condition) lines ∷ stack)) }
{
    let line = if_line(alloc, condition.into_inner(), lines, no_lines(alloc))?;
    closed_line(alloc, line, stack)
}

/// An `if` ends with `else`.
fn end_else(
    alloc: Global,
    condition: Boxed<Node>,
    before: Lines,
    lines: Lines,
    stack: Stack,
) -> Answer
    ensures { IfOk result (λ r. r ≡ close_block (Frame.Block (Opener.Else condition before) lines ∷ stack)) }
{
    let line = if_line(alloc, condition.into_inner(), before, lines)?;
    closed_line(alloc, line, stack)
}

/// A `while` ends.
fn end_while(alloc: Global, condition: Boxed<Node>, lines: Lines, stack: Stack) -> Answer
    ensures { IfOk result (λ r. r ≡ close_block (Frame.Block (Opener.While condition) lines ∷ stack)) }
{
    let line = while_line(alloc, condition.into_inner(), lines)?;
    closed_line(alloc, line, stack)
}

/// A `for` ends.
fn end_for(
    alloc: Global,
    name: Spot,
    first: Boxed<Node>,
    last: Boxed<Node>,
    lines: Lines,
    stack: Stack,
) -> Answer
    ensures { IfOk result (λ r. r ≡ close_block (Frame.Block (Opener.For name first last) lines ∷ stack)) }
{
    let line = for_line(alloc, name, first.into_inner(), last.into_inner(), lines)?;
    closed_line(alloc, line, stack)
}

/// The definition of a method with a block ends.
fn end_function(alloc: Global, path: Path, params: ParamList, lines: Lines, stack: Stack) -> Answer
    ensures { IfOk result (λ r. r ≡ close_block (Frame.Block (Opener.Function path params) lines ∷ stack)) }
{
    let method = method_with(path, params, lines)?;
    closed_method(alloc, method, stack)
}

/// `end` in a block.
fn end_block(alloc: Global, opener: Opener, lines: Lines, stack: Stack) -> Answer
    ensures { IfOk result (λ r. r ≡ close_block (Frame.Block opener lines ∷ stack)) }
{
    match opener {
        Opener::If(condition) => end_if(alloc, condition, lines, stack),
        Opener::Else(condition, before) => end_else(alloc, condition, before, lines, stack),
        Opener::While(condition) => end_while(alloc, condition, lines, stack),
        Opener::For(name, first, last) => end_for(alloc, name, first, last, lines, stack),
        Opener::Function(path, params) => end_function(alloc, path, params, lines, stack),
    }
}

/// `end` among items.
fn end_items(root: Root, entries: Entries, stack: Stack) -> Answer
    ensures { IfOk result (λ r. r ≡ close_block (Frame.Items root entries ∷ stack)) }
{
    match root {
        Root::Package(name, uses) => {
            let frame = Frame::Items(Root::Package(name, uses), entries);
            over(Mode::PackageEnd, frame, stack)
        }
        other => let_go((other, (entries, stack))),
    }
}

/// `end`
pub fn close_block(alloc: Global, mut stack: Stack) -> Answer
    ensures { IfOk result (λ r. r ≡ close_block stack) }
{
    let Some(frame) = stack.pop() else {
        return Ok(None);
    };
    match frame {
        Frame::Block(opener, lines) => end_block(alloc, opener, lines, stack),
        Frame::Items(root, entries) => end_items(root, entries, stack),
        other => let_go(other),
    }
}
