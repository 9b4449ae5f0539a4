//! What may follow where a statement, an item, a definition or what is evaluated has ended. It computes `ending`, `after_line` and
//! `after_end` of specs/Closing of pj_grammar. The prover finds these proofs by itself, with two lemmas of proofs/Payloads.
ghost use Rattle.std.specs.Prelude.{◌≡◌, IfOk};
ghost use Rattle.pj_grammar.specs.Closing.{after_end, after_end_at, after_line, ending, is_close};

use crate::blocks::close_block;
use crate::closing::{accept_script, open_else, open_else_if};
use pj_grammar::{Line, Mode};
use pj_lex::{Sign, TokenKind};
use pj_read_frames::reading::{Answer, Reading, at, gone, let_go, parts};
use pj_read_frames::stack::Stack;
use pj_words::Word;
use sqlite_items::Boxed;
use std::alloc::Global;

/// What ends a list of statements or items.
pub fn ending(alloc: Global, stack: Stack, kind: &TokenKind) -> Answer
    ensures { IfOk result (λ r. r ≡ ending stack kind.now) }
{
    match kind {
        TokenKind::Reserved(Word::End) => close_block(alloc, stack),
        TokenKind::Reserved(Word::Else) => open_else(alloc, stack),
        TokenKind::Reserved(Word::ElseIf) => open_else_if(stack),
        TokenKind::Eof => accept_script(stack),
        _ => let_go(stack),
    }
}

/// What follows a statement or an item.
pub fn after_line(alloc: Global, stack: Stack, kind: &TokenKind) -> Answer
    ensures { IfOk result (λ r. r ≡ after_line stack kind.now) }
{
    match kind {
        TokenKind::Separator => Ok(at(Mode::Line, stack)),
        other => ending(alloc, stack, other),
    }
}

/// Whether a token is `)`.
pub fn is_close(kind: &TokenKind) -> bool
    ensures { result ≡ is_close kind.now }
{
    matches!(kind, TokenKind::Sign(Sign::RightParen))
}

/// `)` behind what `eval` evaluates.
#[tactic(auto, using(crate::proofs::Payloads::close_on, crate::proofs::Payloads::close_off))]
fn after_payload(line: Boxed<Line>, stack: Stack, kind: &TokenKind) -> Option<Reading>
    ensures { result ≡ after_end_at (Mode.PayloadEnd line) stack kind.now }
{
    if is_close(kind) {
        at(Mode::EvalEnd(line), stack)
    } else {
        gone((line, stack))
    }
}

/// What follows where a statement or what is evaluated has ended, if it has.
pub fn after_end(alloc: Global, answer: Option<Reading>, kind: &TokenKind) -> Answer
    ensures { IfOk result (λ r. r ≡ after_end answer kind.now) }
{
    let Some(reading) = answer else {
        return Ok(None);
    };
    let (mode, stack) = parts(reading);
    match mode {
        Mode::Closed => after_line(alloc, stack, kind),
        Mode::PayloadEnd(line) => Ok(after_payload(line, stack, kind)),
        other => let_go((other, stack)),
    }
}
