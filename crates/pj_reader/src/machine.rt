//! One token.
ghost use Rattle.std.specs.Prelude.{◌≡◌, ◌∷◌, [], IfOk, None, true};
ghost use Rattle.pj_grammar.specs.Closing.{closed_line};
ghost use Rattle.pj_grammar.specs.Frames.{at as state_at, guarded};
ghost use Rattle.pj_grammar.specs.Machine.{expect_sign, step, step_at};
ghost use Rattle.pj_grammar.specs.Statements.{begins_bounds};
ghost use Rattle.pj_grammar.specs.Tokens.{spot};
ghost use Rattle.pj_read_frames.specs.Places.{place_of};

use crate::items::{
    after_declared, after_use, directive_end, header, package_end, package_named, package_start,
};
use crate::lines::{after_return, eval_name_then, global_assign, line, payload};
use pj_base::{NoMemory, Text};
use pj_grammar::{Frame, Header, Line, Mode, Purpose};
use pj_lex::{Sign, Token, TokenKind};
use pj_read_closing::ends::{after_line, is_close};
use pj_read_closing::lines::closed_line;
use pj_read_closing::params::start_field;
use pj_read_frames::place::Place;
use pj_read_frames::reading::{Answer, Reading, at, gone, guarded_over, let_go, over, parts};
use pj_read_frames::stack::Stack;
use pj_read_makers::modules::ModuleNames;
use pj_read_makers::tokens::begins_bounds;
use pj_read_operands::begin::{
    argument, base_operator, field_name, member_name, operand, parameter, path_start, short_assign,
    types,
};
use pj_read_operands::have::have;
use pj_syntax::{Path, Spot, SpotList};
use sqlite_items::{Boxed, Items};
use std::alloc::Global;

/// A name at a place.
fn spot(text: Text, place: Place) -> Spot
    ensures { result ≡ spot (place_of place) text }
{
    Spot {
        text,
        at: place.start,
    }
}

/// The name behind `global`.
fn global_name(word: usize, stack: Stack, place: Place, kind: TokenKind) -> Option<Reading>
    ensures { result ≡ step_at [] (Mode.GlobalName word) stack (place_of place) kind }
{
    match kind {
        TokenKind::Name(text) => at(Mode::GlobalAssign(word, spot(text, place)), stack),
        _ => None,
    }
}

/// The name of a constant.
fn const_name(stack: Stack, place: Place, kind: TokenKind) -> Option<Reading>
    ensures { result ≡ step_at [] Mode.ConstName stack (place_of place) kind }
{
    match kind {
        TokenKind::Name(text) => at(Mode::ConstAssign(spot(text, place)), stack),
        _ => None,
    }
}

/// The variable of a loop.
fn loop_name(stack: Stack, place: Place, kind: TokenKind) -> Option<Reading>
    ensures { result ≡ step_at [] Mode.LoopName stack (place_of place) kind }
{
    match kind {
        TokenKind::Name(text) => at(Mode::LoopIn(spot(text, place)), stack),
        _ => None,
    }
}

/// A name behind `using`.
fn using_name(mut names: SpotList, stack: Stack, place: Place, kind: TokenKind) -> Answer
    ensures { IfOk result (λ r. r ≡ step_at [] (Mode.UsingName names) stack (place_of place) kind) }
{
    match kind {
        TokenKind::Name(text) => {
            names.push(spot(text, place))?;
            Ok(at(Mode::UsingMore(names), stack))
        }
        _ => Ok(None),
    }
}

/// The name of an abstract type.
fn abstract_name(stack: Stack, place: Place, kind: TokenKind) -> Option<Reading>
    ensures { result ≡ step_at [] Mode.AbstractName stack (place_of place) kind }
{
    match kind {
        TokenKind::Name(text) => {
            let header = Header::Abstract(spot(text, place));
            at(Mode::Header(header), stack)
        }
        _ => None,
    }
}

/// The name of a type with fields.
fn struct_name(mutable: bool, stack: Stack, place: Place, kind: TokenKind) -> Option<Reading>
    ensures { result ≡ step_at [] (Mode.StructName mutable) stack (place_of place) kind }
{
    match kind {
        TokenKind::Name(text) => {
            let header = Header::Struct(mutable, spot(text, place));
            at(Mode::Header(header), stack)
        }
        _ => None,
    }
}

/// The name of a package.
fn package_name(stack: Stack, place: Place, kind: TokenKind) -> Option<Reading>
    ensures { result ≡ step_at [] Mode.PackageName stack (place_of place) kind }
{
    match kind {
        TokenKind::Name(text) => at(Mode::PackageNamed(spot(text, place)), stack),
        _ => None,
    }
}

/// A token where a form of `eval` goes on.
fn step_eval(
    alloc: Global,
    modules: &ModuleNames,
    mode: Mode,
    stack: Stack,
    place: Place,
    kind: TokenKind,
) -> Answer
    ensures { IfOk result (λ r. r ≡ step_at modules.now mode stack (place_of place) kind) }
{
    match mode {
        Mode::Payload => payload(alloc, modules, stack, place, kind),
        Mode::EvalName(m) => eval_name_then(alloc, modules, m, stack, place, kind),
        Mode::EvalColon => Ok(eval_colon(stack, &kind)),
        Mode::EvalOpen => eval_open(stack, &kind),
        Mode::PayloadEnd(line) => Ok(payload_end(line, stack, &kind)),
        Mode::EvalEnd(line) => eval_end(alloc, line, stack, &kind),
        other => step_set(alloc, modules, other, stack, place, kind),
    }
}

/// A token in an expression.
fn step_expression(
    alloc: Global,
    modules: &ModuleNames,
    mode: Mode,
    stack: Stack,
    place: Place,
    kind: TokenKind,
) -> Answer
    ensures { IfOk result (λ r. r ≡ step_at modules.now mode stack (place_of place) kind) }
{
    match mode {
        Mode::Want => operand(alloc, stack, place, kind),
        Mode::Have(head) => have(alloc, modules, head, stack, place, kind),
        Mode::Field(e, assignable) => field_name(alloc, e, assignable, stack, place, kind),
        Mode::Member(m) => Ok(member_name(m, stack, place, kind)),
        Mode::BaseOperator(m) => base_operator(alloc, m, stack, place, kind),
        other => step_list(alloc, modules, other, stack, place, kind),
    }
}

/// A token where a list or its members begin.
fn step_list(
    alloc: Global,
    modules: &ModuleNames,
    mode: Mode,
    stack: Stack,
    place: Place,
    kind: TokenKind,
) -> Answer
    ensures { IfOk result (λ r. r ≡ step_at modules.now mode stack (place_of place) kind) }
{
    match mode {
        Mode::Arguments => argument(alloc, stack, place, kind),
        Mode::Params => parameter(alloc, stack, place, kind),
        Mode::ShortAssign => short_assign(stack, kind),
        Mode::PathStart => Ok(path_start(stack, place, kind)),
        Mode::Types => Ok(types(stack, place, kind)),
        Mode::Line => line(alloc, stack, place, kind),
        Mode::Closed => after_line(alloc, stack, &kind),
        other => step_eval(alloc, modules, other, stack, place, kind),
    }
}

/// A token in the front of a statement.
fn step_set(
    alloc: Global,
    modules: &ModuleNames,
    mode: Mode,
    stack: Stack,
    place: Place,
    kind: TokenKind,
) -> Answer
    ensures { IfOk result (λ r. r ≡ step_at modules.now mode stack (place_of place) kind) }
{
    match mode {
        Mode::Return(word) => after_return(alloc, word, stack, place, kind),
        Mode::GlobalName(word) => Ok(global_name(word, stack, place, kind)),
        Mode::GlobalAssign(word, x) => global_assign(word, x, stack, place, kind),
        Mode::LoopName => Ok(loop_name(stack, place, kind)),
        Mode::LoopIn(x) => loop_in(x, stack, &kind),
        other => step_item(alloc, modules, other, stack, place, kind),
    }
}

/// A token in the front of an item.
fn step_item(
    alloc: Global,
    modules: &ModuleNames,
    mode: Mode,
    stack: Stack,
    place: Place,
    kind: TokenKind,
) -> Answer
    ensures { IfOk result (λ r. r ≡ step_at modules.now mode stack (place_of place) kind) }
{
    match mode {
        Mode::ConstName => Ok(const_name(stack, place, kind)),
        Mode::ConstAssign(x) => const_assign(x, stack, &kind),
        Mode::UsingName(names) => using_name(names, stack, place, kind),
        Mode::UsingMore(names) => after_use(alloc, names, stack, kind),
        Mode::Declared(x) => after_declared(x, stack, kind),
        other => step_type(alloc, modules, other, stack, place, kind),
    }
}

/// A token in the definition of a type, or in a directive.
fn step_type(
    alloc: Global,
    modules: &ModuleNames,
    mode: Mode,
    stack: Stack,
    place: Place,
    kind: TokenKind,
) -> Answer
    ensures { IfOk result (λ r. r ≡ step_at modules.now mode stack (place_of place) kind) }
{
    match mode {
        Mode::AbstractName => Ok(abstract_name(stack, place, kind)),
        Mode::StructName(mutable) => Ok(struct_name(mutable, stack, place, kind)),
        Mode::Header(h) => header(alloc, h, stack, place, kind),
        Mode::FieldStart => start_field(stack, place.start, kind),
        Mode::TypesOpen(f) => types_open(alloc, f, stack, &kind),
        Mode::DirectiveEnd => directive_end(stack, kind),
        other => step_package(alloc, modules, other, stack, place, kind),
    }
}

/// A token in the frame of a package. All other modes are taken before; one of them would count as want of memory.
fn step_package(
    alloc: Global,
    modules: &ModuleNames,
    mode: Mode,
    stack: Stack,
    place: Place,
    kind: TokenKind,
) -> Answer
    ensures { IfOk result (λ r. r ≡ step_at modules.now mode stack (place_of place) kind) }
{
    match mode {
        Mode::PackageStart => Ok(package_start(stack, kind)),
        Mode::PackageName => Ok(package_name(stack, place, kind)),
        Mode::PackageNamed(x) => package_named(alloc, x, kind),
        Mode::PackageEnd => Ok(package_end(stack, kind)),
        Mode::Accepted => Ok(None),
        _ => Err(NoMemory),
    }
}

/// `:` behind `eval(`.
fn eval_colon(stack: Stack, kind: &TokenKind) -> Option<Reading>
    ensures { result ≡ expect_sign Sign.Colon kind.now (state_at Mode.EvalOpen stack) }
{
    match kind {
        TokenKind::Sign(Sign::Colon) => at(Mode::EvalOpen, stack),
        _ => None,
    }
}

/// `(` behind `eval(:`.
fn eval_open(stack: Stack, kind: &TokenKind) -> Answer
    ensures { IfOk result (λ r. r ≡ expect_sign Sign.LeftParen kind.now (state_at Mode.Payload (Frame.Payload None true ∷ stack))) }
{
    match kind {
        TokenKind::Sign(Sign::LeftParen) => {
            over(Mode::Payload, Frame::Payload(None, true), stack)
        }
        _ => Ok(None),
    }
}

/// The first `)` behind what `eval` evaluates.
#[tactic(auto, using(crate::proofs::Parens::close_on, crate::proofs::Parens::close_off))]
fn payload_end(line: Boxed<Line>, stack: Stack, kind: &TokenKind) -> Option<Reading>
    ensures { result ≡ expect_sign Sign.RightParen kind.now (state_at (Mode.EvalEnd line) stack) }
{
    if is_close(kind) {
        at(Mode::EvalEnd(line), stack)
    } else {
        gone(line)
    }
}

/// The second `)` behind what `eval` evaluates.
#[tactic(auto, using(crate::proofs::Parens::close_on, crate::proofs::Parens::close_off))]
fn eval_end(alloc: Global, line: Boxed<Line>, stack: Stack, kind: &TokenKind) -> Answer
    ensures { IfOk result (λ r. r ≡ expect_sign Sign.RightParen kind.now (closed_line line stack)) }
{
    if is_close(kind) {
        closed_line(alloc, line.into_inner(), stack)
    } else {
        let_go(line)
    }
}

/// `=` behind the name of a constant.
fn const_assign(x: Spot, stack: Stack, kind: &TokenKind) -> Answer
    ensures { IfOk result (λ r. r ≡ expect_sign Sign.Assign kind.now (state_at Mode.Want (Frame.Hole (Purpose.Const x) ∷ stack))) }
{
    match kind {
        TokenKind::Sign(Sign::Assign) => over(Mode::Want, Frame::Hole(Purpose::Const(x)), stack),
        _ => Ok(None),
    }
}

/// `(` before the types of a directive.
fn types_open(alloc: Global, f: Path, stack: Stack, kind: &TokenKind) -> Answer
    ensures { IfOk result (λ r. r ≡ expect_sign Sign.LeftParen kind.now (state_at Mode.Types (Frame.Types f [] ∷ stack))) }
{
    match kind {
        TokenKind::Sign(Sign::LeftParen) => {
            over(Mode::Types, Frame::Types(f, Items::new(alloc)), stack)
        }
        _ => Ok(None),
    }
}

/// The sign before the bounds of a loop.
fn loop_in(x: Spot, stack: Stack, kind: &TokenKind) -> Answer
    ensures { IfOk result (λ r. r ≡ guarded (begins_bounds kind.now) (state_at Mode.Want (Frame.Hole (Purpose.From x) ∷ stack))) }
{
    guarded_over(
        begins_bounds(kind),
        Mode::Want,
        Frame::Hole(Purpose::From(x)),
        stack,
    )
}

/// The state behind one token more, if the machine has an answer to the token.
#[tactic(auto, unfolding(pj_grammar::specs::Machine::step))]
pub fn step(alloc: Global, modules: &ModuleNames, reading: Reading, token: Token) -> Answer
    ensures { IfOk result (λ r. r ≡ step modules.now reading token) }
{
    let (mode, stack) = parts(reading);
    let Token {
        what,
        start,
        end,
        blank,
    } = token;
    let place = Place { start, end, blank };
    step_expression(alloc, modules, mode, stack, place, what)
}
