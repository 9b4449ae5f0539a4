//! `else`, `elseif` and the end of a script. It computes `open_else`, `open_else_if` and `accept_script` of specs/Closing of
//! pj_grammar. Their proofs are in proofs/closing; the prover finds the others by itself.
ghost use Rattle.std.specs.Prelude.{◌≡◌, ◌∷◌, IfOk};
ghost use Rattle.pj_grammar.specs.Closing.{accept_script, open_else, open_else_if};
ghost use Rattle.pj_grammar.specs.Frames.{at as state_at};

use pj_base::release::failed;
use pj_grammar::{Entries, Frame, Lines, Mode, Node, Opener, Purpose, Root};
use pj_read_frames::reading::{Answer, let_go, over};
use pj_read_frames::stack::Stack;
use pj_read_makers::statements::no_lines;
use sqlite_items::Boxed;
use std::alloc::Global;

/// `else` in a block.
fn else_in(alloc: Global, opener: Opener, lines: Lines, stack: Stack) -> Answer
    ensures { IfOk result (λ r. r ≡ open_else (Frame.Block opener lines ∷ stack)) }
{
    match opener {
        Opener::If(condition) => {
            let opener = Opener::Else(condition, lines);
            over(Mode::Line, Frame::Block(opener, no_lines(alloc)), stack)
        }
        other => let_go((other, (lines, stack))),
    }
}

/// `else`
pub fn open_else(alloc: Global, mut stack: Stack) -> Answer
    ensures { IfOk result (λ r. r ≡ open_else stack) }
{
    let Some(frame) = stack.pop() else {
        return Ok(None);
    };
    match frame {
        Frame::Block(opener, lines) => else_in(alloc, opener, lines, stack),
        other => let_go(other),
    }
}

/// A condition begins behind `elseif`, before which a condition and its statements stand.
fn open_branch(condition: Boxed<Node>, lines: Lines, mut stack: Stack) -> Answer
    ensures { IfOk result (λ r. r ≡ state_at Mode.Want (Frame.Hole Purpose.If ∷ Frame.Branch condition lines ∷ stack)) }
{
    match stack.push(Frame::Branch(condition, lines)) {
        Ok(()) => over(Mode::Want, Frame::Hole(Purpose::If), stack),
        Err(error) => failed(error, stack),
    }
}

/// `elseif` in a block.
fn else_if_in(opener: Opener, lines: Lines, stack: Stack) -> Answer
    ensures { IfOk result (λ r. r ≡ open_else_if (Frame.Block opener lines ∷ stack)) }
{
    match opener {
        Opener::If(condition) => open_branch(condition, lines, stack),
        other => let_go((other, (lines, stack))),
    }
}

/// `elseif`
pub fn open_else_if(mut stack: Stack) -> Answer
    ensures { IfOk result (λ r. r ≡ open_else_if stack) }
{
    let Some(frame) = stack.pop() else {
        return Ok(None);
    };
    match frame {
        Frame::Block(opener, lines) => else_if_in(opener, lines, stack),
        other => let_go(other),
    }
}

/// The end of a script among items.
fn accept_in(root: Root, entries: Entries, stack: Stack) -> Answer
    ensures { IfOk result (λ r. r ≡ accept_script (Frame.Items root entries ∷ stack)) }
{
    match root {
        Root::Script => over(Mode::Accepted, Frame::Items(Root::Script, entries), stack),
        other => let_go((other, (entries, stack))),
    }
}

/// The end of a script.
pub fn accept_script(mut stack: Stack) -> Answer
    ensures { IfOk result (λ r. r ≡ accept_script stack) }
{
    let Some(frame) = stack.pop() else {
        return Ok(None);
    };
    match frame {
        Frame::Items(root, entries) => accept_in(root, entries, stack),
        other => let_go(other),
    }
}
