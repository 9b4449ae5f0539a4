//! Statements and items that end. It computes `closed_line` and `closed_entry` of specs/Closing of pj_grammar; specs/Leaving says how
//! a statement leaves the branches before `elseif` one by one. The proofs are proofs/lines and the lemmas of proofs/Leaving.
ghost use Rattle.std.specs.Prelude.{◌≡◌, ◌∷◌, IfOk, true};
ghost use Rattle.pj_grammar.specs.Closing.{closed_entry, closed_line};
ghost use Rattle.pj_grammar.specs.Makers.{if_of, one_line};
ghost use Rattle.pj_read_closing.specs.Leaving.{Leaves, branch_of, left, placed, within};
ghost use Rattle.pj_read_frames.specs.Tops.{on_branch};

use pj_base::NoMemory;
use pj_base::release::{failed, nothing};
use pj_grammar::{Entries, Frame, Line, Lines, Mode, Node, Opener, Root};
use pj_read_frames::reading::{Answer, let_go, over};
use pj_read_frames::stack::Stack;
use pj_read_frames::view::on_branch;
use pj_read_makers::bounds::small;
use pj_read_makers::items::{Entry, entry_after, run_of};
use pj_read_makers::statements::{if_of, line_after, one_line};
use sqlite_items::Boxed;
use std::alloc::Global;

/// A statement that ends, and the frames around it.
#[derive(Drop)]
pub struct Standing {
    pub line: Line,
    pub stack: Stack,
}

/// A statement ends in a block.
fn line_in_block(opener: Opener, lines: Lines, line: Line, stack: Stack) -> Answer
    ensures { IfOk result (λ r. r ≡ placed line (Frame.Block opener lines ∷ stack)) }
{
    match line_after(lines, line) {
        Ok(lines) => over(Mode::Closed, Frame::Block(opener, lines), stack),
        Err(error) => failed(error, (opener, stack)),
    }
}

/// A statement ends among items.
fn line_in_items(root: Root, entries: Entries, line: Line, stack: Stack) -> Answer
    ensures { IfOk result (λ r. r ≡ placed line (Frame.Items root entries ∷ stack)) }
{
    match entry_after(entries, run_of(line)) {
        Ok(entries) => over(Mode::Closed, Frame::Items(root, entries), stack),
        Err(error) => failed(error, (root, stack)),
    }
}

/// A statement ends where no branch before `elseif` stands on top.
fn place_line(line: Line, mut stack: Stack) -> Answer
    ensures { IfOk result (λ r. r ≡ placed line stack) }
{
    let Some(frame) = stack.pop() else {
        return let_go((line, stack));
    };
    match frame {
        Frame::Block(opener, lines) => line_in_block(opener, lines, line, stack),
        Frame::Items(root, entries) => line_in_items(root, entries, line, stack),
        other => let_go((other, (line, stack))),
    }
}

/// An `if` with its condition and its branches.
pub fn if_line(alloc: Global, condition: Node, holds: Lines, fails: Lines) -> Result<Line, NoMemory>
    ensures { IfOk result (λ made. made ≡ if_of condition holds fails) }
{
    match small(condition.nesting.max(holds.nesting.max(fails.nesting))) {
        Ok(()) => if_of(alloc, condition, holds, fails),
        Err(error) => failed(error, (condition, (holds, fails))),
    }
}

/// The `if` before an `elseif` ends with what stands behind that.
fn end_branch(alloc: Global, condition: Node, before: Lines, line: Line) -> Result<Line, NoMemory>
    ensures { IfOk result (λ made. made ≡ if_of condition before (one_line line)) }
{
    match one_line(alloc, line) {
        Ok(rest) => if_line(alloc, condition, before, rest),
        Err(error) => failed(error, (condition, before)),
    }
}

/// A branch before `elseif`, and the frames below it.
#[derive(Drop)]
pub struct Branching {
    pub condition: Boxed<Node>,
    pub before: Lines,
    pub stack: Stack,
}

/// The branch of a frame, over others.
fn branch_in(frame: Frame, stack: Stack) -> Option<Branching>
    ensures { result ≡ branch_of (frame ∷ stack) }
{
    match frame {
        Frame::Branch(condition, before) => Some(Branching {
            condition,
            before,
            stack,
        }),
        other => nothing((other, stack)),
    }
}

/// The branch on top, if one stands there.
fn branch_of(mut stack: Stack) -> Option<Branching>
    ensures { result ≡ branch_of stack }
{
    match stack.pop() {
        Some(frame) => branch_in(frame, stack),
        None => nothing(stack),
    }
}

/// The `if` of a branch ends.
fn leave(alloc: Global, line: Line, branch: Branching) -> Result<Standing, NoMemory>
    ensures { IfOk result (λ made. within made ≡ left line branch) }
{
    let Branching {
        condition,
        before,
        stack,
    } = branch;
    let line = end_branch(alloc, condition.into_inner(), before, line)?;
    Ok(Standing { line, stack })
}

/// The `if` of the branch on top ends.
#[tactic(auto, using(crate::proofs::Leaving::a_branch_stands))]
fn leave_branch(alloc: Global, standing: Standing) -> Result<Standing, NoMemory>
    requires { on_branch standing.stack ≡ true }
    ensures { IfOk result (λ made. Leaves standing made) }
{
    let Standing { line, stack } = standing;
    match branch_of(stack) {
        Some(branch) => leave(alloc, line, branch),
        None => unreachable!(),
    }
}

/// A statement ends, and each `if` of whose last branch it is the `elseif`.
#[tactic(auto, using(crate::proofs::Leaving::branch_off, crate::proofs::Leaving::one_left, crate::proofs::Leaving::one_shorter))]
pub fn closed_line(alloc: Global, line: Line, stack: Stack) -> Answer
    ensures { IfOk result (λ r. r ≡ closed_line line stack) }
{
    let mut standing = Standing { line, stack };
    while on_branch(standing.stack.layers()) {
        standing = leave_branch(alloc, standing)?;
    }
    let Standing { line, stack } = standing;
    place_line(line, stack)
}

/// An item ends among items.
fn entry_in_items(root: Root, entries: Entries, entry: Entry, stack: Stack) -> Answer
    ensures { IfOk result (λ r. r ≡ closed_entry entry (Frame.Items root entries ∷ stack)) }
{
    match entry_after(entries, entry) {
        Ok(entries) => over(Mode::Closed, Frame::Items(root, entries), stack),
        Err(error) => failed(error, (root, stack)),
    }
}

/// An item ends.
pub fn closed_entry(entry: Entry, mut stack: Stack) -> Answer
    ensures { IfOk result (λ r. r ≡ closed_entry entry stack) }
{
    let Some(frame) = stack.pop() else {
        return let_go((entry, stack));
    };
    match frame {
        Frame::Items(root, entries) => entry_in_items(root, entries, entry, stack),
        other => let_go((other, (entry, stack))),
    }
}
