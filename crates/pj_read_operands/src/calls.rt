//! Calls, groups and what may become a definition.
ghost use Rattle.std.specs.Prelude.{◌≡◌, ◌∷◌, [], IfOk, None, Some, true};
ghost use Rattle.pj_grammar.specs.Frames.{admits, at as state_at, guarded};
ghost use Rattle.pj_syntax.specs.declared.expression.Path.{Path};
ghost use Rattle.pj_grammar.specs.Operands.{after_argument, after_group, begin_types, close_call, close_paths, define, have_type, open_call, open_direct, type_of_param, type_path};
ghost use Rattle.pj_read_frames.specs.Tops.{only_of};

use pj_grammar::{Form, Frame, Given, Head, Level, Mode, Purpose};
use pj_lex::{Sign, TokenKind};
use pj_read_frames::reading::{Answer, Reading, at, guarded, guarded_over, let_go, over};
use pj_read_frames::stack::Stack;
use pj_read_frames::view::{admits, takes_definition, takes_short};
use pj_read_makers::bounds::small;
use pj_read_makers::expressions::{call_of, group_of};
use pj_read_makers::heads::node;
use pj_read_makers::params::params_of;
use pj_read_makers::paths::lacks_paths;
use pj_syntax::{ParamList, Path, PathList, Spot};
use sqlite_items::Items;
use std::alloc::Global;

/// The arguments of a call begin, if the frame on top takes it.
fn call_begins(alloc: Global, f: Path, stack: Stack) -> Answer
    ensures { IfOk result (λ r. r ≡ guarded (admits stack Level.Primary) (state_at Mode.Arguments (Frame.Call f (Given.Paths []) ∷ stack))) }
{
    let holds = admits(stack.layers(), Level::Primary);
    let frame = Frame::Call(f, Given::Paths(Items::new(alloc)));
    guarded_over(holds, Mode::Arguments, frame, stack)
}

/// A parenthesis directly behind the name of a function, over a frame.
fn open_over(alloc: Global, f: Path, frame: Frame, mut stack: Stack) -> Answer
    ensures { IfOk result (λ r. r ≡ open_call f (frame ∷ stack)) }
{
    match frame {
        Frame::FunctionName => {
            let frame = Frame::Signature(Form::Long, f, Items::new(alloc));
            over(Mode::Params, frame, stack)
        }
        other => {
            stack.push(other)?;
            call_begins(alloc, f, stack)
        }
    }
}

/// A parenthesis directly behind the name of a function.
pub fn open_call(alloc: Global, f: Path, mut stack: Stack) -> Answer
    ensures { IfOk result (λ r. r ≡ open_call f stack) }
{
    match stack.pop() {
        Some(frame) => open_over(alloc, f, frame, stack),
        None => call_begins(alloc, f, stack),
    }
}

/// A parenthesis directly behind what has a path.
pub fn open_direct(alloc: Global, f: Option<Path>, stack: Stack) -> Answer
    ensures { IfOk result (λ r. r ≡ open_direct f stack) }
{
    match f {
        Some(f) => open_call(alloc, f, stack),
        None => Ok(None),
    }
}

/// A short definition begins its body.
pub fn define(f: Path, params: Option<ParamList>, stack: Stack) -> Answer
    ensures { IfOk result (λ r. r ≡ define f params stack) }
{
    match params {
        Some(params) => {
            let holds = takes_definition(stack.layers());
            let frame = Frame::Hole(Purpose::Short(f, params));
            guarded_over(holds, Mode::Want, frame, stack)
        }
        None => Ok(None),
    }
}

/// The type of a parameter makes a call a definition.
pub fn type_of_param(
    x: Option<Spot>,
    first: usize,
    f: Path,
    params: Option<ParamList>,
    mut stack: Stack,
) -> Answer
    ensures { IfOk result (λ r. r ≡ type_of_param x first f params stack) }
{
    match params {
        Some(params) => {
            if !takes_definition(stack.layers()) {
                return Ok(None);
            }
            stack.push(Frame::Signature(Form::Short, f, params))?;
            over(Mode::PathStart, Frame::TypeOf(x, first), stack)
        }
        None => Ok(None),
    }
}

/// `::` behind a name among the arguments of a call that an expression begins with.
fn type_in_hole(
    alloc: Global,
    x: Spot,
    f: Path,
    paths: PathList,
    purpose: Purpose,
    stack: Stack,
) -> Answer
    ensures { IfOk result (λ r. r ≡ have_type (Head.Name x) (Frame.Call f (Given.Paths paths) ∷ Frame.Hole purpose ∷ stack)) }
{
    match purpose {
        Purpose::Value => {
            let first = x.at;
            let params = params_of(alloc, paths)?;
            type_of_param(Some(x), first, f, params, stack)
        }
        other => let_go(other),
    }
}

/// `::` behind a name that may be a parameter of a call that becomes a definition.
fn type_in_paths(alloc: Global, x: Spot, f: Path, paths: PathList, mut stack: Stack) -> Answer
    ensures { IfOk result (λ r. r ≡ have_type (Head.Name x) (Frame.Call f (Given.Paths paths) ∷ stack)) }
{
    let Some(frame) = stack.pop() else {
        return Ok(None);
    };
    match frame {
        Frame::Hole(purpose) => type_in_hole(alloc, x, f, paths, purpose, stack),
        other => let_go(other),
    }
}

/// `::` behind a name that is an argument.
fn type_in_call(alloc: Global, x: Spot, f: Path, given: Given, stack: Stack) -> Answer
    ensures { IfOk result (λ r. r ≡ have_type (Head.Name x) (Frame.Call f given ∷ stack)) }
{
    match given {
        Given::Paths(paths) => type_in_paths(alloc, x, f, paths, stack),
        Given::Mixed(other) => let_go(other),
    }
}

/// `::` behind a name.
fn type_of_name(alloc: Global, x: Spot, mut stack: Stack) -> Answer
    ensures { IfOk result (λ r. r ≡ have_type (Head.Name x) stack) }
{
    let first = x.at;
    let Some(frame) = stack.pop() else {
        return Ok(None);
    };
    match frame {
        Frame::Signature(form, f, params) => {
            stack.push(Frame::Signature(form, f, params))?;
            over(Mode::PathStart, Frame::TypeOf(Some(x), first), stack)
        }
        Frame::Fields(mutable, s, parent, fields) => {
            stack.push(Frame::Fields(mutable, s, parent, fields))?;
            over(Mode::PathStart, Frame::TypeOf(Some(x), first), stack)
        }
        Frame::Call(f, given) => type_in_call(alloc, x, f, given, stack),
        other => let_go(other),
    }
}

/// `::` behind an operand.
pub fn have_type(alloc: Global, head: Head, stack: Stack) -> Answer
    ensures { IfOk result (λ r. r ≡ have_type head stack) }
{
    match head {
        Head::Name(x) => type_of_name(alloc, x, stack),
        other => let_go(other),
    }
}

/// A call of names ends. `invokelatest()` can only be defined.
fn close_paths(f: Path, paths: PathList, stack: Stack, lacks: bool) -> Option<Reading>
    ensures { result ≡ close_paths f paths stack lacks }
{
    if lacks {
        let holds = takes_short(stack.layers());
        guarded(holds, Mode::Have(Head::Call(f, paths)), stack)
    } else {
        at(Mode::Have(Head::Call(f, paths)), stack)
    }
}

/// A call ends.
pub fn close_call(alloc: Global, f: Path, given: Given, stack: Stack) -> Answer
    ensures { IfOk result (λ r. r ≡ close_call f given stack) }
{
    match given {
        Given::Paths(paths) => {
            let lacks = lacks_paths(&f, &paths);
            Ok(close_paths(f, paths, stack, lacks))
        }
        Given::Mixed(arguments) => {
            small(arguments.nesting)?;
            let call = call_of(alloc, f, arguments)?;
            Ok(at(Mode::Have(Head::Plain(call)), stack))
        }
    }
}

/// What follows an argument.
pub fn after_argument(alloc: Global, f: Path, given: Given, stack: Stack, kind: TokenKind) -> Answer
    ensures { IfOk result (λ r. r ≡ after_argument f given stack kind) }
{
    match kind {
        TokenKind::Sign(Sign::Comma) => over(Mode::Arguments, Frame::Call(f, given), stack),
        TokenKind::Sign(Sign::RightParen) => close_call(alloc, f, given, stack),
        other => let_go(other),
    }
}

/// The path of a list of one path.
pub fn only_of(mut paths: PathList) -> Option<Path>
    ensures { result ≡ only_of paths }
{
    let path = paths.pop()?;
    if paths.is_empty() { Some(path) } else { None }
}

/// The types of a directive begin with a type, behind the directive's function and in an expression.
fn types_in_hole(alloc: Global, t: Path, f: Path, g: Path, purpose: Purpose, stack: Stack) -> Answer
    ensures { IfOk result (λ r. r ≡ begin_types true (Some t) (Frame.Call f (Given.Paths (g ∷ [])) ∷ Frame.Hole purpose ∷ stack)) }
{
    match purpose {
        Purpose::Value => {
            let mut types = Items::new(alloc);
            types.push(t)?;
            over(Mode::Types, Frame::Types(g, types), stack)
        }
        other => let_go(other),
    }
}

/// The types of a directive begin with a type, behind the directive's function.
fn types_in(alloc: Global, t: Path, f: Path, g: Path, mut stack: Stack) -> Answer
    ensures { IfOk result (λ r. r ≡ begin_types true (Some t) (Frame.Call f (Given.Paths (g ∷ [])) ∷ stack)) }
{
    let Some(frame) = stack.pop() else {
        return Ok(None);
    };
    match frame {
        Frame::Hole(purpose) => types_in_hole(alloc, t, f, g, purpose, stack),
        other => let_go(other),
    }
}

/// The types of a directive begin with a type, behind names.
fn types_over(alloc: Global, t: Path, f: Path, paths: PathList, stack: Stack) -> Answer
    ensures { IfOk result (λ r. r ≡ begin_types true (Some t) (Frame.Call f (Given.Paths paths) ∷ stack)) }
{
    match only_of(paths) {
        Some(g) => types_in(alloc, t, f, g, stack),
        None => Ok(None),
    }
}

/// The types of a directive begin with a type, behind arguments.
fn types_behind(alloc: Global, t: Path, f: Path, given: Given, stack: Stack) -> Answer
    ensures { IfOk result (λ r. r ≡ begin_types true (Some t) (Frame.Call f given ∷ stack)) }
{
    match given {
        Given::Paths(paths) => types_over(alloc, t, f, paths, stack),
        Given::Mixed(other) => let_go(other),
    }
}

/// A type of a directive, where a comma follows.
fn types_from(alloc: Global, t: Path, mut stack: Stack) -> Answer
    ensures { IfOk result (λ r. r ≡ begin_types true (Some t) stack) }
{
    let Some(frame) = stack.pop() else {
        return Ok(None);
    };
    match frame {
        Frame::Call(f, given) => types_behind(alloc, t, f, given, stack),
        other => let_go(other),
    }
}

/// The types of a directive begin with a name, if it is a type's.
fn types_begin(alloc: Global, path: Option<Path>, stack: Stack) -> Answer
    ensures { IfOk result (λ r. r ≡ begin_types true path stack) }
{
    match path {
        Some(t) => types_from(alloc, t, stack),
        None => Ok(None),
    }
}

/// A name that a group begins with is a type of a directive where a comma follows.
fn begin_types(alloc: Global, types: bool, path: Option<Path>, stack: Stack) -> Answer
    ensures { IfOk result (λ r. r ≡ begin_types types path stack) }
{
    if types {
        types_begin(alloc, path, stack)
    } else {
        Ok(None)
    }
}

/// No path, where an operand has none.
fn no_path(_head: Head) -> Option<Path>
    ensures { result ≡ None }
{
    None
}

/// A name that can be a type's.
fn type_path(head: Head) -> Option<Path>
    ensures { result ≡ type_path head }
{
    match head {
        Head::Name(x) => Some(Path::Bare(x)),
        Head::Member(m, x) => Some(Path::Of(m, x)),
        other => no_path(other),
    }
}

/// What follows an expression in parentheses.
pub fn after_group(
    alloc: Global,
    start: usize,
    types: bool,
    head: Head,
    stack: Stack,
    kind: TokenKind,
) -> Answer
    ensures { IfOk result (λ r. r ≡ after_group start types head stack kind) }
{
    match kind {
        TokenKind::Sign(Sign::RightParen) => {
            let e = node(alloc, head)?;
            small(e.nesting)?;
            Ok(at(Mode::Have(Head::Plain(group_of(start, e))), stack))
        }
        TokenKind::Sign(Sign::Comma) => begin_types(alloc, types, type_path(head), stack),
        other => let_go(other),
    }
}
