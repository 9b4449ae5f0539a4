//! Where the reader stands: what may come next, over what is begun. Contracts see it as a State of specs/Frames of pj_grammar, whose
//! `at` and `guarded` are computed here. What is of no more use is let go here. The prover finds these proofs by itself.
ghost use Rattle.std.specs.Prelude.{◌≡◌, ◌∷◌, IfOk, None, Ok};
ghost use Rattle.pj_grammar.specs.Frames.{at as state_at, guarded};

use crate::stack::Stack;
use pj_base::NoMemory;
use pj_base::release::{failed, nothing};
use pj_grammar::{Frame, Mode};
use std::marker::Model;

/// Where the reader stands: what may come next, and what is begun.
#[derive(Drop)]
pub struct Reading {
    mode: Mode,
    stack: Stack,
}

impl Model for Reading {
    ghost use Rattle.pj_grammar.specs.Frames.{State};

    ghost Value = { State };

    ghost use Rattle.pj_syntax.specs.contracts.expression.Expr as e;
    ghost use Rattle.pj_syntax.specs.contracts.statement.Stmt as s;
    ghost use Rattle.std.specs.Coded.{codes};

    ghost coded = { Prim.hlevel (codes, e.the_row.coded, s.the_row.coded) };

    ghost view = { λ a. record { mode = a.mode; frames = a.stack } };
}

/// Where the reader stands behind a token, or None where it has no answer to the token.
pub type Answer = Result<Option<Reading>, NoMemory>;

/// The reader at a mode over a stack.
pub fn reading_at(mode: Mode, stack: Stack) -> Reading
    ensures { (result.mode ≡ mode) × (result.frames ≡ stack) }
{
    Reading { mode, stack }
}

/// A mode over a stack.
pub fn at(mode: Mode, stack: Stack) -> Option<Reading>
    ensures { result ≡ state_at mode stack }
{
    Some(Reading { mode, stack })
}

/// A mode over a frame more.
pub fn over(mode: Mode, frame: Frame, mut stack: Stack) -> Answer
    ensures { IfOk result (λ r. r ≡ state_at mode (frame ∷ stack)) }
{
    match stack.push(frame) {
        Ok(()) => Ok(at(mode, stack)),
        Err(error) => failed(error, (mode, stack)),
    }
}

/// A mode over a stack, where something holds.
pub fn guarded(holds: bool, mode: Mode, stack: Stack) -> Option<Reading>
    ensures { result ≡ guarded holds (state_at mode stack) }
{
    if holds {
        at(mode, stack)
    } else {
        gone((mode, stack))
    }
}

/// A mode over a frame more, where something holds.
pub fn guarded_over(holds: bool, mode: Mode, frame: Frame, stack: Stack) -> Answer
    ensures { IfOk result (λ r. r ≡ guarded holds (state_at mode (frame ∷ stack))) }
{
    if holds {
        over(mode, frame, stack)
    } else {
        let_go((mode, (frame, stack)))
    }
}

/// No answer, where a value is of no more use. It is moved here whole, and not dropped where arms join.
pub fn let_go<T: Drop>(_value: T) -> Answer
    ensures { result ≡ Ok None }
{
    Ok(None)
}

/// The same, where no memory is taken.
pub fn gone<T: Drop>(value: T) -> Option<Reading>
    ensures { result ≡ None }
{
    nothing(value)
}

/// Out of memory, in place of a case that never comes.
pub fn spent<T: Drop>(value: T) -> Answer
    ensures { IfOk result (λ _. ⊥) }
{
    failed(NoMemory, value)
}

/// The mode and the stack of an answer, if there is one.
pub fn parts(reading: Reading) -> (Mode, Stack)
    ensures { (result.0 ≡ reading.mode) × (result.1 ≡ reading.frames) }
{
    let Reading { mode, stack } = reading;
    (mode, stack)
}

impl Reading {
    /// What may come next.
    pub fn mode(&self) -> &Mode
        ensures { result.now ≡ self.now.mode }
    {
        &self.mode
    }

    /// What is begun.
    pub fn stack(&self) -> &Stack
        ensures { result.now ≡ self.now.frames }
    {
        &self.stack
    }
}
