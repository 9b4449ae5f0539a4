//! How operands, arguments, parameters and names begin.
ghost use Rattle.std.specs.Prelude.{◌≡◌, ◌∷◌, [], ℕ, true, IfOk};
ghost use Rattle.pj_syntax.specs.declared.expression.Path.{Path};
ghost use Rattle.pj_grammar.specs.Frames.{at as state_at};
ghost use Rattle.pj_grammar.specs.Machine.{argument, base_operator, close_types, end_arguments, field_name, member_name, operand, operand_literal, operand_sign, opens_types, parameter, path_start, quote, short_assign, type_argument, types};
ghost use Rattle.pj_read_frames.specs.Places.{place_of};
ghost use Rattle.pj_read_frames.specs.Stacked.{frames_of};
ghost use Rattle.pj_read_frames.specs.Tops.{in_directive};

use crate::calls::{close_call, only_of, type_of_param};
use pj_base::Text;
use pj_grammar::{Form, Frame, Given, Head, Level, Mode, Node, Operator, Purpose};
use pj_lex::{Sign, TokenKind};
use pj_read_closing::params::end_params;
use pj_read_frames::place::Place;
use pj_read_frames::reading::{Answer, Reading, at, gone, guarded, guarded_over, let_go, over};
use pj_read_frames::stack::{Layer, Stack, split_top};
use pj_read_frames::view::{admits, takes_directives, takes_lines};
use pj_read_makers::bounds::small;
use pj_read_makers::expressions::{field_of, leaf, literal_of};
use pj_read_makers::levels::{is_prefix, operator_text};
use pj_read_makers::params::params_of;
use pj_syntax::{Expr, ParamList, Path, PathList, Spot};
use sqlite_items::{Boxed, Items};
use std::alloc::Global;

/// A name was read.
fn named(text: Text, place: Place, stack: Stack) -> Option<Reading>
    ensures { result ≡ state_at (Mode.Have (Head.Name (record { text = text; at = place.start }))) stack }
{
    let at_place = place.start;
    at(Mode::Have(Head::Name(Spot { text, at: at_place })), stack)
}

/// Whether a statement that may be a directive begins below a call.
fn in_directive(layers: &[Layer]) -> bool
    ensures { result ≡ in_directive (frames_of layers.now) }
{
    match split_top(layers) {
        Some((Frame::Hole(Purpose::Value), below)) => takes_directives(below),
        Some((_, _)) => false,
        None => false,
    }
}

/// Whether a group may be the types of a directive.
fn opens_types(layers: &[Layer]) -> bool
    ensures { result ≡ opens_types (frames_of layers.now) }
{
    match split_top(layers) {
        Some((Frame::Call(Path::Bare(f), Given::Paths(paths)), below)) => {
            paths.len() == 1 && f.text.as_str() == "precompile" && in_directive(below)
        }
        Some((_, _)) => false,
        None => false,
    }
}

/// No types, behind the function of a directive and in an expression.
fn no_types_hole(
    alloc: Global,
    start: usize,
    f: Path,
    g: Path,
    purpose: Purpose,
    stack: Stack,
) -> Answer
    ensures { IfOk result (λ r. r ≡ close_types (Frame.Group start true ∷ Frame.Call f (Given.Paths (g ∷ [])) ∷ Frame.Hole purpose ∷ stack)) }
{
    match purpose {
        Purpose::Value => {
            let frame = Frame::Types(g, Items::new(alloc));
            over(Mode::DirectiveEnd, frame, stack)
        }
        other => let_go(other),
    }
}

/// No types, behind the function of a directive.
fn no_types_in(alloc: Global, start: usize, f: Path, g: Path, mut stack: Stack) -> Answer
    ensures { IfOk result (λ r. r ≡ close_types (Frame.Group start true ∷ Frame.Call f (Given.Paths (g ∷ [])) ∷ stack)) }
{
    let Some(frame) = stack.pop() else {
        return Ok(None);
    };
    match frame {
        Frame::Hole(purpose) => no_types_hole(alloc, start, f, g, purpose, stack),
        other => let_go(other),
    }
}

/// No types, behind names.
fn no_types_behind(alloc: Global, start: usize, f: Path, paths: PathList, stack: Stack) -> Answer
    ensures { IfOk result (λ r. r ≡ close_types (Frame.Group start true ∷ Frame.Call f (Given.Paths paths) ∷ stack)) }
{
    match only_of(paths) {
        Some(g) => no_types_in(alloc, start, f, g, stack),
        None => Ok(None),
    }
}

/// No types, behind arguments.
fn no_types_call(alloc: Global, start: usize, f: Path, given: Given, stack: Stack) -> Answer
    ensures { IfOk result (λ r. r ≡ close_types (Frame.Group start true ∷ Frame.Call f given ∷ stack)) }
{
    match given {
        Given::Paths(paths) => no_types_behind(alloc, start, f, paths, stack),
        Given::Mixed(other) => let_go(other),
    }
}

/// No types, in a call.
fn no_types_over(alloc: Global, start: usize, mut stack: Stack) -> Answer
    ensures { IfOk result (λ r. r ≡ close_types (Frame.Group start true ∷ stack)) }
{
    let Some(frame) = stack.pop() else {
        return Ok(None);
    };
    match frame {
        Frame::Call(f, given) => no_types_call(alloc, start, f, given, stack),
        other => let_go(other),
    }
}

/// A group ends that has nothing in it, which only the types of a directive can be.
fn close_group(alloc: Global, start: usize, types: bool, stack: Stack) -> Answer
    ensures { IfOk result (λ r. r ≡ close_types (Frame.Group start types ∷ stack)) }
{
    if types {
        no_types_over(alloc, start, stack)
    } else {
        Ok(None)
    }
}

/// No types of a directive.
fn close_types(alloc: Global, mut stack: Stack) -> Answer
    ensures { IfOk result (λ r. r ≡ close_types stack) }
{
    let Some(frame) = stack.pop() else {
        return Ok(None);
    };
    match frame {
        Frame::Group(start, types) => close_group(alloc, start, types, stack),
        other => let_go(other),
    }
}

/// A sign where an operand may begin.
fn operand_sign(alloc: Global, stack: Stack, start: usize, sign: Sign) -> Answer
    ensures { IfOk result (λ r. r ≡ operand_sign stack start sign) }
{
    match sign {
        Sign::LeftParen => {
            let types = opens_types(stack.layers());
            over(Mode::Want, Frame::Group(start, types), stack)
        }
        Sign::RightParen => close_types(alloc, stack),
        _ => {
            let operator = Operator { sign, at: start };
            guarded_over(is_prefix(sign), Mode::Want, Frame::Prefix(operator), stack)
        }
    }
}

/// A literal, if it is one.
fn operand_literal(stack: Stack, start: usize, tree: Option<Expr>) -> Option<Reading>
    ensures { result ≡ operand_literal stack start tree }
{
    match tree {
        Some(tree) => at(Mode::Have(Head::Plain(leaf(start, tree))), stack),
        None => None,
    }
}

/// An operand begins.
pub fn operand(alloc: Global, stack: Stack, place: Place, kind: TokenKind) -> Answer
    ensures { IfOk result (λ r. r ≡ operand stack (place_of place) kind) }
{
    match kind {
        TokenKind::Name(text) => Ok(named(text, place, stack)),
        TokenKind::Sign(sign) => operand_sign(alloc, stack, place.start, sign),
        other => Ok(operand_literal(stack, place.start, literal_of(other))),
    }
}

/// The arguments end where one may begin.
fn end_arguments(alloc: Global, mut stack: Stack) -> Answer
    ensures { IfOk result (λ r. r ≡ end_arguments stack) }
{
    let Some(frame) = stack.pop() else {
        return Ok(None);
    };
    match frame {
        Frame::Call(f, given) => close_call(alloc, f, given, stack),
        other => let_go(other),
    }
}

/// `::` where an argument may begin, behind names and in an expression.
fn type_in_hole(
    alloc: Global,
    start: usize,
    f: Path,
    paths: PathList,
    purpose: Purpose,
    stack: Stack,
) -> Answer
    ensures { IfOk result (λ r. r ≡ type_argument start (Frame.Call f (Given.Paths paths) ∷ Frame.Hole purpose ∷ stack)) }
{
    match purpose {
        Purpose::Value => {
            let params = params_of(alloc, paths)?;
            type_of_param(None, start, f, params, stack)
        }
        other => let_go(other),
    }
}

/// `::` where an argument may begin, behind names.
fn type_behind(alloc: Global, start: usize, f: Path, paths: PathList, mut stack: Stack) -> Answer
    ensures { IfOk result (λ r. r ≡ type_argument start (Frame.Call f (Given.Paths paths) ∷ stack)) }
{
    let Some(frame) = stack.pop() else {
        return Ok(None);
    };
    match frame {
        Frame::Hole(purpose) => type_in_hole(alloc, start, f, paths, purpose, stack),
        other => let_go(other),
    }
}

/// `::` where an argument may begin, behind arguments.
fn type_in_call(alloc: Global, start: usize, f: Path, given: Given, stack: Stack) -> Answer
    ensures { IfOk result (λ r. r ≡ type_argument start (Frame.Call f given ∷ stack)) }
{
    match given {
        Given::Paths(paths) => type_behind(alloc, start, f, paths, stack),
        Given::Mixed(other) => let_go(other),
    }
}

/// `::` where an argument may begin.
fn type_argument(alloc: Global, start: usize, mut stack: Stack) -> Answer
    ensures { IfOk result (λ r. r ≡ type_argument start stack) }
{
    let Some(frame) = stack.pop() else {
        return Ok(None);
    };
    match frame {
        Frame::Call(f, given) => type_in_call(alloc, start, f, given, stack),
        other => let_go(other),
    }
}

/// `:` behind `eval(` in an expression.
fn quote_hole(f: Spot, purpose: Purpose, stack: Stack) -> Answer
    ensures { IfOk result (λ r. r ≡ quote (Frame.Call (Path.Bare f) (Given.Paths []) ∷ Frame.Hole purpose ∷ stack)) }
{
    match purpose {
        Purpose::Value => {
            let holds = f.text.as_str() == "eval" && takes_lines(stack.layers());
            Ok(guarded(holds, Mode::EvalOpen, stack))
        }
        other => let_go(other),
    }
}

/// `:` behind `eval(` at the front of a statement.
fn quote_in(f: Spot, mut stack: Stack) -> Answer
    ensures { IfOk result (λ r. r ≡ quote (Frame.Call (Path.Bare f) (Given.Paths []) ∷ stack)) }
{
    let Some(frame) = stack.pop() else {
        return Ok(None);
    };
    match frame {
        Frame::Hole(purpose) => quote_hole(f, purpose, stack),
        other => let_go(other),
    }
}

/// `:` behind a name and no arguments.
fn quote_path(f: Path, stack: Stack) -> Answer
    ensures { IfOk result (λ r. r ≡ quote (Frame.Call f (Given.Paths []) ∷ stack)) }
{
    match f {
        Path::Bare(f) => quote_in(f, stack),
        other => let_go(other),
    }
}

/// `:` behind names.
fn quote_over(f: Path, paths: PathList, stack: Stack) -> Answer
    ensures { IfOk result (λ r. r ≡ quote (Frame.Call f (Given.Paths paths) ∷ stack)) }
{
    if paths.is_empty() {
        quote_path(f, stack)
    } else {
        Ok(None)
    }
}

/// `:` behind arguments.
fn quote_call(f: Path, given: Given, stack: Stack) -> Answer
    ensures { IfOk result (λ r. r ≡ quote (Frame.Call f given ∷ stack)) }
{
    match given {
        Given::Paths(paths) => quote_over(f, paths, stack),
        Given::Mixed(other) => let_go(other),
    }
}

/// `:` where an argument may begin.
fn quote(mut stack: Stack) -> Answer
    ensures { IfOk result (λ r. r ≡ quote stack) }
{
    let Some(frame) = stack.pop() else {
        return Ok(None);
    };
    match frame {
        Frame::Call(f, given) => quote_call(f, given, stack),
        other => let_go(other),
    }
}

/// An argument begins, or the arguments end.
pub fn argument(alloc: Global, stack: Stack, place: Place, kind: TokenKind) -> Answer
    ensures { IfOk result (λ r. r ≡ argument stack (place_of place) kind) }
{
    match kind {
        TokenKind::Sign(Sign::RightParen) => end_arguments(alloc, stack),
        TokenKind::Sign(Sign::DoubleColon) => type_argument(alloc, place.start, stack),
        TokenKind::Sign(Sign::Colon) => quote(stack),
        other => operand(alloc, stack, place, other),
    }
}

/// A parameter begins, or the parameters end.
pub fn parameter(alloc: Global, stack: Stack, place: Place, kind: TokenKind) -> Answer
    ensures { IfOk result (λ r. r ≡ parameter stack (place_of place) kind) }
{
    match kind {
        TokenKind::Sign(Sign::RightParen) => end_params(alloc, stack),
        TokenKind::Sign(Sign::DoubleColon) => {
            over(Mode::PathStart, Frame::TypeOf(None, place.start), stack)
        }
        TokenKind::Name(text) => Ok(named(text, place, stack)),
        other => let_go(other),
    }
}

/// What follows the parameters of a short definition.
fn short_body(f: Path, params: ParamList, stack: Stack, kind: TokenKind) -> Answer
    ensures { IfOk result (λ r. r ≡ short_assign (Frame.Signature Form.Short f params ∷ stack) kind) }
{
    match kind {
        TokenKind::Sign(Sign::Assign) => {
            over(Mode::Want, Frame::Hole(Purpose::Short(f, params)), stack)
        }
        other => let_go(other),
    }
}

/// What follows parameters, behind which a body stands.
fn short_in(form: Form, f: Path, params: ParamList, stack: Stack, kind: TokenKind) -> Answer
    ensures { IfOk result (λ r. r ≡ short_assign (Frame.Signature form f params ∷ stack) kind) }
{
    match form {
        Form::Short => short_body(f, params, stack, kind),
        Form::Long => Ok(None),
    }
}

/// `=` behind the parameters of a short definition.
pub fn short_assign(mut stack: Stack, kind: TokenKind) -> Answer
    ensures { IfOk result (λ r. r ≡ short_assign stack kind) }
{
    let Some(frame) = stack.pop() else {
        return Ok(None);
    };
    match frame {
        Frame::Signature(form, f, params) => short_in(form, f, params, stack, kind),
        other => let_go(other),
    }
}

/// A field behind the dot.
fn field_read(alloc: Global, e: Node, assignable: bool, field: Spot, stack: Stack) -> Answer
    ensures { IfOk result (λ r. r ≡ field_name e assignable stack (record { start = field.at; end = 0; blank = true }) (TokenKind.Name field.text)) }
{
    if assignable {
        return Ok(at(Mode::Have(Head::Place(Boxed::new(alloc, e)?, field)), stack));
    }
    small(e.nesting)?;
    let e = field_of(alloc, e, field)?;
    Ok(at(Mode::Have(Head::Plain(e)), stack))
}

/// A field's name behind the dot.
pub fn field_name(
    alloc: Global,
    e: Node,
    assignable: bool,
    stack: Stack,
    place: Place,
    kind: TokenKind,
) -> Answer
    ensures { IfOk result (λ r. r ≡ field_name e assignable stack (place_of place) kind) }
{
    match kind {
        TokenKind::Name(text) => {
            let field = Spot {
                text,
                at: place.start,
            };
            field_read(alloc, e, assignable, field, stack)
        }
        other => let_go(other),
    }
}

/// A name behind a module and its dot, or the colon of `Base.:OP`.
pub fn member_name(m: Boxed<Spot>, stack: Stack, place: Place, kind: TokenKind) -> Option<Reading>
    ensures { result ≡ member_name m stack (place_of place) kind }
{
    match kind {
        TokenKind::Name(text) => {
            let x = Spot {
                text,
                at: place.start,
            };
            at(Mode::Have(Head::Member(m, x)), stack)
        }
        TokenKind::Sign(Sign::Colon) => {
            let holds = m.get().text.as_str() == "Base" && admits(stack.layers(), Level::Callee);
            guarded(holds, Mode::BaseOperator(m), stack)
        }
        other => gone(other),
    }
}

/// The operator of `Base.:OP`.
pub fn base_operator(
    alloc: Global,
    m: Boxed<Spot>,
    stack: Stack,
    place: Place,
    kind: TokenKind,
) -> Answer
    ensures { IfOk result (λ r. r ≡ base_operator m stack (place_of place) kind) }
{
    match kind {
        TokenKind::Sign(sign) => {
            let text = Text::from_str(alloc, operator_text(sign))?;
            let x = Spot {
                text,
                at: place.start,
            };
            Ok(guarded(sign.is_operator(), Mode::Have(Head::Operator(m, x)), stack))
        }
        other => let_go(other),
    }
}

/// A name that may have a module begins.
pub fn path_start(stack: Stack, place: Place, kind: TokenKind) -> Option<Reading>
    ensures { result ≡ path_start stack (place_of place) kind }
{
    match kind {
        TokenKind::Name(text) => named(text, place, stack),
        other => gone(other),
    }
}

/// A type of a directive begins, or the types end.
pub fn types(stack: Stack, place: Place, kind: TokenKind) -> Option<Reading>
    ensures { result ≡ types stack (place_of place) kind }
{
    match kind {
        TokenKind::Sign(Sign::RightParen) => at(Mode::DirectiveEnd, stack),
        TokenKind::Name(text) => named(text, place, stack),
        other => gone(other),
    }
}
