//! Parameters, fields and names of types, and what may follow each. It computes `end_params`, `add_param`, `after_header`,
//! `after_path` and their neighbours of specs/Operands of pj_grammar. The prover finds these proofs by itself.
ghost use Rattle.std.specs.Prelude.{◌≡◌, ◌∷◌, ◌++◌, [], IfOk};
ghost use Rattle.pj_grammar.specs.Frames.{at as state_at};
ghost use Rattle.pj_grammar.specs.Operands.{add_param, after_field, after_function, after_header, after_param, after_path, after_type, end_fields, end_params, start_field};

use crate::lines::closed_entry;
use pj_base::NoMemory;
use pj_base::release::failed;
use pj_grammar::{Form, Frame, Head, Header, Mode, Opener};
use pj_lex::{Sign, TokenKind};
use pj_read_frames::reading::{Answer, at, guarded, let_go, over};
use pj_read_frames::stack::Stack;
use pj_read_frames::view::takes_items;
use pj_read_makers::items::{abstract_of, declared, struct_of};
use pj_read_makers::statements::no_lines;
use pj_read_makers::together::with_last;
use pj_syntax::{Param, ParamList, Path, PathList, Spot};
use pj_words::Word;
use sqlite_items::Items;
use std::alloc::Global;

/// The end of the parameters of a definition.
fn end_signature(alloc: Global, form: Form, f: Path, params: ParamList, stack: Stack) -> Answer
    ensures { IfOk result (λ r. r ≡ end_params (Frame.Signature form f params ∷ stack)) }
{
    match form {
        Form::Long => over(
            Mode::Line,
            Frame::Block(Opener::Function(f, params), no_lines(alloc)),
            stack,
        ),
        Form::Short => over(
            Mode::ShortAssign,
            Frame::Signature(Form::Short, f, params),
            stack,
        ),
    }
}

/// The end of parameters, on a frame.
fn end_params_on(alloc: Global, frame: Frame, stack: Stack) -> Answer
    ensures { IfOk result (λ r. r ≡ end_params (frame ∷ stack)) }
{
    match frame {
        Frame::Signature(form, f, params) => end_signature(alloc, form, f, params, stack),
        other => let_go((other, stack)),
    }
}

/// The end of parameters.
pub fn end_params(alloc: Global, mut stack: Stack) -> Answer
    ensures { IfOk result (λ r. r ≡ end_params stack) }
{
    match stack.pop() {
        Some(frame) => end_params_on(alloc, frame, stack),
        None => let_go(stack),
    }
}

/// What follows a parameter.
pub fn after_param(alloc: Global, stack: Stack, kind: TokenKind) -> Answer
    ensures { IfOk result (λ r. r ≡ after_param stack kind) }
{
    match kind {
        TokenKind::Sign(Sign::Comma) => Ok(at(Mode::Params, stack)),
        TokenKind::Sign(Sign::RightParen) => end_params(alloc, stack),
        other => let_go((other, stack)),
    }
}

/// The end of fields, on a frame.
fn end_fields_on(frame: Frame, stack: Stack) -> Answer
    ensures { IfOk result (λ r. r ≡ end_fields (frame ∷ stack)) }
{
    match frame {
        Frame::Fields(mutable, x, parent, fields) => {
            closed_entry(struct_of(mutable, x, parent, fields), stack)
        }
        other => let_go((other, stack)),
    }
}

/// The end of fields.
pub fn end_fields(mut stack: Stack) -> Answer
    ensures { IfOk result (λ r. r ≡ end_fields stack) }
{
    match stack.pop() {
        Some(frame) => end_fields_on(frame, stack),
        None => let_go(stack),
    }
}

/// What follows a field.
pub fn after_field(stack: Stack, kind: TokenKind) -> Answer
    ensures { IfOk result (λ r. r ≡ after_field stack kind) }
{
    match kind {
        TokenKind::Separator => Ok(at(Mode::FieldStart, stack)),
        TokenKind::Reserved(Word::End) => end_fields(stack),
        other => let_go((other, stack)),
    }
}

/// A field, a separator, or the end of the fields.
pub fn start_field(stack: Stack, start: usize, kind: TokenKind) -> Answer
    ensures { IfOk result (λ r. r ≡ start_field stack start kind) }
{
    match kind {
        TokenKind::Name(text) => Ok(at(Mode::Have(Head::Name(Spot { text, at: start })), stack)),
        other => after_field(stack, other),
    }
}

/// What follows a parameter, on a frame.
fn after_param_on(alloc: Global, frame: Frame, mut stack: Stack, kind: TokenKind) -> Answer
    ensures { IfOk result (λ r. r ≡ after_param (frame ∷ stack) kind) }
{
    match stack.push(frame) {
        Ok(()) => after_param(alloc, stack, kind),
        Err(error) => failed(error, (stack, kind)),
    }
}

/// What follows a field, on a frame.
fn after_field_on(frame: Frame, mut stack: Stack, kind: TokenKind) -> Answer
    ensures { IfOk result (λ r. r ≡ after_field (frame ∷ stack) kind) }
{
    match stack.push(frame) {
        Ok(()) => after_field(stack, kind),
        Err(error) => failed(error, (stack, kind)),
    }
}

/// One more parameter of a definition.
fn signature_with(form: Form, f: Path, params: ParamList, param: Param) -> Result<Frame, NoMemory>
    ensures { IfOk result (λ frame. frame ≡ Frame.Signature form f (params ++ param ∷ [])) }
{
    match with_last(params, param) {
        Ok(params) => Ok(Frame::Signature(form, f, params)),
        Err(error) => failed(error, f),
    }
}

/// One more field of a struct.
fn fields_with(
    mutable: bool,
    x: Spot,
    parent: Option<Path>,
    fields: ParamList,
    field: Param,
) -> Result<Frame, NoMemory>
    ensures { IfOk result (λ frame. frame ≡ Frame.Fields mutable x parent (fields ++ field ∷ [])) }
{
    match with_last(fields, field) {
        Ok(fields) => Ok(Frame::Fields(mutable, x, parent, fields)),
        Err(error) => failed(error, (x, parent)),
    }
}

/// A parameter of a definition ends.
fn add_to_signature(
    alloc: Global,
    form: Form,
    f: Path,
    params: ParamList,
    param: Param,
    stack: Stack,
    kind: TokenKind,
) -> Answer
    ensures { IfOk result (λ r. r ≡ add_param param (Frame.Signature form f params ∷ stack) kind) }
{
    match signature_with(form, f, params, param) {
        Ok(frame) => after_param_on(alloc, frame, stack, kind),
        Err(error) => failed(error, (stack, kind)),
    }
}

/// A field of a struct ends.
fn add_to_fields(
    mutable: bool,
    x: Spot,
    parent: Option<Path>,
    fields: ParamList,
    field: Param,
    stack: Stack,
    kind: TokenKind,
) -> Answer
    ensures { IfOk result (λ r. r ≡ add_param field (Frame.Fields mutable x parent fields ∷ stack) kind) }
{
    match fields_with(mutable, x, parent, fields, field) {
        Ok(frame) => after_field_on(frame, stack, kind),
        Err(error) => failed(error, (stack, kind)),
    }
}

/// A parameter or field ends, on a frame.
fn add_param_on(alloc: Global, param: Param, frame: Frame, stack: Stack, kind: TokenKind) -> Answer
    ensures { IfOk result (λ r. r ≡ add_param param (frame ∷ stack) kind) }
{
    match frame {
        Frame::Signature(form, f, params) => {
            add_to_signature(alloc, form, f, params, param, stack, kind)
        }
        Frame::Fields(mutable, x, parent, fields) => {
            add_to_fields(mutable, x, parent, fields, param, stack, kind)
        }
        other => let_go((other, (param, (stack, kind)))),
    }
}

/// A parameter or field ends.
pub fn add_param(alloc: Global, param: Param, mut stack: Stack, kind: TokenKind) -> Answer
    ensures { IfOk result (λ r. r ≡ add_param param stack kind) }
{
    match stack.pop() {
        Some(frame) => add_param_on(alloc, param, frame, stack, kind),
        None => let_go((param, (stack, kind))),
    }
}

/// What follows the name and the parent of an abstract type.
fn after_abstract(x: Spot, parent: Option<Path>, stack: Stack, kind: TokenKind) -> Answer
    ensures { IfOk result (λ r. r ≡ after_header (Header.Abstract x) parent stack 0 kind) }
{
    match kind {
        TokenKind::Reserved(Word::End) => closed_entry(abstract_of(x, parent), stack),
        other => let_go((other, (x, (parent, stack)))),
    }
}

/// The fields of a struct begin.
fn open_fields(frame: Frame, mut stack: Stack, start: usize, kind: TokenKind) -> Answer
    ensures { IfOk result (λ r. r ≡ start_field (frame ∷ stack) start kind) }
{
    match stack.push(frame) {
        Ok(()) => start_field(stack, start, kind),
        Err(error) => failed(error, (stack, kind)),
    }
}

/// What follows the name and the parent of a type.
pub fn after_header(
    alloc: Global,
    header: Header,
    parent: Option<Path>,
    stack: Stack,
    start: usize,
    kind: TokenKind,
) -> Answer
    ensures { IfOk result (λ r. r ≡ after_header header parent stack start kind) }
{
    match header {
        Header::Abstract(x) => after_abstract(x, parent, stack, kind),
        Header::Struct(mutable, x) => {
            let frame = Frame::Fields(mutable, x, parent, Items::new(alloc));
            open_fields(frame, stack, start, kind)
        }
    }
}

/// What follows `function NAME`, with its name.
fn after_declared_name(x: Spot, stack: Stack, kind: TokenKind) -> Answer
    ensures { IfOk result (λ r. r ≡ after_function (Head.Name x) stack kind) }
{
    match kind {
        TokenKind::Separator => {
            let holds = takes_items(stack.layers());
            Ok(guarded(holds, Mode::Declared(x), stack))
        }
        TokenKind::Reserved(Word::End) => closed_entry(declared(x), stack),
        other => let_go((other, (x, stack))),
    }
}

/// What follows `function NAME`.
pub fn after_function(head: Head, stack: Stack, kind: TokenKind) -> Answer
    ensures { IfOk result (λ r. r ≡ after_function head stack kind) }
{
    match head {
        Head::Name(x) => after_declared_name(x, stack, kind),
        other => let_go((other, (stack, kind))),
    }
}

/// One more type of a directive, and what may come next.
fn add_type(mode: Mode, f: Path, types: PathList, t: Path, stack: Stack) -> Answer
    ensures { IfOk result (λ r. r ≡ state_at mode (Frame.Types f (types ++ t ∷ []) ∷ stack)) }
{
    match with_last(types, t) {
        Ok(types) => over(mode, Frame::Types(f, types), stack),
        Err(error) => failed(error, (mode, (f, stack))),
    }
}

/// The last type of a directive, which has another before it.
fn end_types(f: Path, types: PathList, t: Path, stack: Stack) -> Answer
    ensures { IfOk result (λ r. r ≡ after_type f types t stack (TokenKind.Sign Sign.RightParen)) }
{
    if types.is_empty() {
        let_go((f, (types, (t, stack))))
    } else {
        add_type(Mode::DirectiveEnd, f, types, t, stack)
    }
}

/// What follows a type of a directive.
pub fn after_type(f: Path, types: PathList, t: Path, stack: Stack, kind: TokenKind) -> Answer
    ensures { IfOk result (λ r. r ≡ after_type f types t stack kind) }
{
    match kind {
        TokenKind::Sign(Sign::Comma) => add_type(Mode::Types, f, types, t, stack),
        TokenKind::Sign(Sign::RightParen) => end_types(f, types, t, stack),
        other => let_go((other, (f, (types, (t, stack))))),
    }
}

/// What follows the function of a directive.
fn after_directive_fun(path: Path, stack: Stack, kind: TokenKind) -> Answer
    ensures { IfOk result (λ r. r ≡ after_path Frame.DirectiveFun path stack 0 kind) }
{
    match kind {
        TokenKind::Sign(Sign::Comma) => Ok(at(Mode::TypesOpen(path), stack)),
        other => let_go((other, (path, stack))),
    }
}

/// What follows a type behind `::`.
fn after_type_of(
    alloc: Global,
    name: Option<Spot>,
    first: usize,
    path: Path,
    stack: Stack,
    kind: TokenKind,
) -> Answer
    ensures { IfOk result (λ r. r ≡ after_path (Frame.TypeOf name first) path stack 0 kind) }
{
    let param = Param {
        at: first,
        name,
        declared: Some(path),
    };
    add_param(alloc, param, stack, kind)
}

/// What follows a name in a place that takes no expression.
pub fn after_path(
    alloc: Global,
    frame: Frame,
    path: Path,
    stack: Stack,
    start: usize,
    kind: TokenKind,
) -> Answer
    ensures { IfOk result (λ r. r ≡ after_path frame path stack start kind) }
{
    match frame {
        Frame::TypeOf(name, first) => after_type_of(alloc, name, first, path, stack, kind),
        Frame::Parent(header) => after_header(alloc, header, Some(path), stack, start, kind),
        Frame::DirectiveFun => after_directive_fun(path, stack, kind),
        Frame::Types(f, types) => after_type(f, types, path, stack, kind),
        other => let_go((other, (path, (stack, kind)))),
    }
}
