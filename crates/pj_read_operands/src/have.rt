//! What follows an operand.
ghost use Rattle.std.specs.Prelude.{◌≡◌, [], IfOk};
ghost use Rattle.pj_grammar.specs.Frames.{guarded, is_value, settle};
ghost use Rattle.pj_grammar.specs.Levels.{left_of, level_of};
ghost use Rattle.pj_grammar.specs.Operands.{ask, extend, have, have_dot, have_next, next_assignment, next_infix};
ghost use Rattle.pj_grammar.specs.Statements.{assigning};
ghost use Rattle.pj_read_frames.specs.Places.{place_of};

use crate::calls::have_type;
use crate::finishing::have_other;
use crate::operands::{ask, extend, have_assign, have_dot, have_paren};
use pj_grammar::{Head, Level};
use pj_lex::{Sign, TokenKind};
use pj_read_frames::place::Place;
use pj_read_frames::reading::Answer;
use pj_read_frames::settling::settle;
use pj_read_frames::stack::Stack;
use pj_read_makers::heads::is_value;
use pj_read_makers::levels::{left_of, level_of};
use pj_read_makers::modules::ModuleNames;
use pj_read_makers::tokens::assigning;
use std::alloc::Global;

/// A dot behind an operand.
fn dot_behind(alloc: Global, modules: &ModuleNames, head: Head, stack: Stack) -> Answer
    ensures { IfOk result (λ r. r ≡ guarded (is_value head) (have_dot modules.now head stack)) }
{
    if is_value(&head) {
        have_dot(alloc, modules, head, stack)
    } else {
        Ok(None)
    }
}

/// A binary operator behind an operand.
fn infix_behind(
    alloc: Global,
    level: Level,
    sign: Sign,
    head: Head,
    stack: Stack,
    start: usize,
) -> Answer
    ensures { IfOk result (λ r. r ≡ guarded (is_value head) (extend level sign start (settle (left_of level) head stack))) }
{
    if is_value(&head) {
        let settled = settle(alloc, left_of(level), head, stack)?;
        extend(alloc, level, sign, start, settled)
    } else {
        Ok(None)
    }
}

/// `?` behind an operand.
fn question_behind(alloc: Global, head: Head, stack: Stack) -> Answer
    ensures { IfOk result (λ r. r ≡ guarded (is_value head) (ask (settle Level.Disjunction head stack))) }
{
    if is_value(&head) {
        let settled = settle(alloc, Level::Disjunction, head, stack)?;
        ask(alloc, settled)
    } else {
        Ok(None)
    }
}

/// The sign of an assignment behind an operand, or one that doesn't go on with it.
fn assigning_behind(alloc: Global, head: Head, stack: Stack, place: Place, sign: Sign) -> Answer
    ensures { IfOk result (λ r. r ≡ have_next [] head stack (place_of place) (TokenKind.Sign sign) (next_assignment (assigning sign))) }
{
    match assigning(sign) {
        Some(operator) => have_assign(alloc, head, stack, place.start, operator),
        None => have_other(alloc, head, stack, place.start, TokenKind::Sign(sign)),
    }
}

/// A binary operator behind an operand, or another sign.
fn operator_behind(alloc: Global, head: Head, stack: Stack, place: Place, sign: Sign) -> Answer
    ensures { IfOk result (λ r. r ≡ have_next [] head stack (place_of place) (TokenKind.Sign sign) (next_infix sign (level_of sign))) }
{
    match level_of(sign) {
        Some(level) => infix_behind(alloc, level, sign, head, stack, place.start),
        None => assigning_behind(alloc, head, stack, place, sign),
    }
}

/// A sign behind an operand.
fn sign_behind(
    alloc: Global,
    modules: &ModuleNames,
    head: Head,
    stack: Stack,
    place: Place,
    sign: Sign,
) -> Answer
    ensures { IfOk result (λ r. r ≡ have modules.now head stack (place_of place) (TokenKind.Sign sign)) }
{
    match sign {
        Sign::Dot => dot_behind(alloc, modules, head, stack),
        Sign::LeftParen => have_paren(alloc, head, stack, place.blank),
        Sign::Question => question_behind(alloc, head, stack),
        Sign::DoubleColon => have_type(alloc, head, stack),
        _ => operator_behind(alloc, head, stack, place, sign),
    }
}

/// What follows an operand.
pub fn have(
    alloc: Global,
    modules: &ModuleNames,
    head: Head,
    stack: Stack,
    place: Place,
    kind: TokenKind,
) -> Answer
    ensures { IfOk result (λ r. r ≡ have modules.now head stack (place_of place) kind) }
{
    match kind {
        TokenKind::Sign(sign) => sign_behind(alloc, modules, head, stack, place, sign),
        other => have_other(alloc, head, stack, place.start, other),
    }
}
