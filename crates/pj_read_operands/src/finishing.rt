//! Ends of expressions, and what else follows an operand.
ghost use Rattle.std.specs.Prelude.{◌≡◌, ◌∷◌, IfOk};
ghost use Rattle.pj_grammar.specs.Frames.{at as state_at, node as head_node};
ghost use Rattle.pj_grammar.specs.Makers.{no_lines};
ghost use Rattle.pj_grammar.specs.Operands.{add_name, after_purpose, begin_type, finish_at, have_first, have_other, have_path, have_value, is_type_word};
ghost use Rattle.pj_read_frames.specs.Stacked.{frames_of};
ghost use Rattle.pj_read_operands.specs.Wants.{below_top, path_on, wanted_of, wanted_on};

use crate::calls::{after_argument, after_group};
use pj_base::NoMemory;
use pj_grammar::{Frame, Given, Head, Level, Mode, Node, Opener, Operator, Purpose, Target};
use pj_lex::{Sign, TokenKind};
use pj_read_closing::ends::after_end;
use pj_read_closing::evaluated::{closed_method, closed_set, closed_value};
use pj_read_closing::lines::{closed_entry, closed_line};
use pj_read_closing::params::{add_param, after_function, after_path};
use pj_read_frames::reading::{Answer, Reading, at, guarded, let_go, over};
use pj_read_frames::settling::{Operand, settle};
use pj_read_frames::stack::{Layer, Stack, split_top};
use pj_read_frames::view::takes_items;
use pj_read_makers::bounds::small;
use pj_read_makers::definitions::short_method;
use pj_read_makers::heads::{give, head_path, is_value, node};
use pj_read_makers::items::const_of;
use pj_read_makers::params::bare_param;
use pj_read_makers::statements::{no_lines, return_of};
use pj_syntax::{ParamList, Path, Spot};
use pj_words::Word;
use sqlite_items::Boxed;
use std::alloc::Global;

/// The statements of a block begin.
fn open_block(alloc: Global, opener: Opener, stack: Stack) -> Answer
    ensures { IfOk result (λ r. r ≡ state_at Mode.Line (Frame.Block opener no_lines ∷ stack)) }
{
    over(Mode::Line, Frame::Block(opener, no_lines(alloc)), stack)
}

/// The condition of an `if` ends.
fn after_if(alloc: Global, e: Node, stack: Stack, kind: &TokenKind) -> Answer
    ensures { IfOk result (λ r. r ≡ after_purpose Purpose.If e stack kind.now) }
{
    match kind {
        TokenKind::Separator => open_block(alloc, Opener::If(Boxed::new(alloc, e)?), stack),
        _ => Ok(None),
    }
}

/// The condition of a `while` ends.
fn after_while(alloc: Global, e: Node, stack: Stack, kind: &TokenKind) -> Answer
    ensures { IfOk result (λ r. r ≡ after_purpose Purpose.While e stack kind.now) }
{
    match kind {
        TokenKind::Separator => open_block(alloc, Opener::While(Boxed::new(alloc, e)?), stack),
        _ => Ok(None),
    }
}

/// The second bound of a loop ends.
fn after_to(
    alloc: Global,
    x: Spot,
    from: Boxed<Node>,
    e: Node,
    stack: Stack,
    kind: &TokenKind,
) -> Answer
    ensures { IfOk result (λ r. r ≡ after_purpose (Purpose.To x from) e stack kind.now) }
{
    match kind {
        TokenKind::Separator => open_block(
            alloc,
            Opener::For(x, from, Boxed::new(alloc, e)?),
            stack,
        ),
        _ => Ok(None),
    }
}

/// The first bound of a loop ends.
fn after_from(alloc: Global, x: Spot, e: Node, stack: Stack, kind: &TokenKind) -> Answer
    ensures { IfOk result (λ r. r ≡ after_purpose (Purpose.From x) e stack kind.now) }
{
    match kind {
        TokenKind::Sign(Sign::Colon) => over(
            Mode::Want,
            Frame::Hole(Purpose::To(x, Boxed::new(alloc, e)?)),
            stack,
        ),
        _ => Ok(None),
    }
}

/// A statement that is an expression, or such a payload, ends.
fn after_value(alloc: Global, e: Node, stack: Stack, kind: &TokenKind) -> Answer
    ensures { IfOk result (λ r. r ≡ after_purpose Purpose.Value e stack kind.now) }
{
    let closed = closed_value(alloc, e, stack)?;
    after_end(alloc, closed, kind)
}

/// An assignment ends.
fn after_set(
    alloc: Global,
    target: Target,
    operator: Option<Operator>,
    e: Node,
    stack: Stack,
    kind: &TokenKind,
) -> Answer
    ensures { IfOk result (λ r. r ≡ after_purpose (Purpose.Assign target operator) e stack kind.now) }
{
    let closed = closed_set(alloc, target, operator, e, stack)?;
    after_end(alloc, closed, kind)
}

/// `return` with a value ends.
fn after_returned(alloc: Global, word: usize, e: Node, stack: Stack, kind: &TokenKind) -> Answer
    ensures { IfOk result (λ r. r ≡ after_purpose (Purpose.Return word) e stack kind.now) }
{
    small(e.nesting)?;
    let closed = closed_line(alloc, return_of(word, e), stack)?;
    after_end(alloc, closed, kind)
}

/// A constant ends.
fn after_const(alloc: Global, x: Spot, e: Node, stack: Stack, kind: &TokenKind) -> Answer
    ensures { IfOk result (λ r. r ≡ after_purpose (Purpose.Const x) e stack kind.now) }
{
    let closed = closed_entry(const_of(x, e), stack)?;
    after_end(alloc, closed, kind)
}

/// A short definition ends.
fn after_short(
    alloc: Global,
    f: Path,
    params: ParamList,
    e: Node,
    stack: Stack,
    kind: &TokenKind,
) -> Answer
    ensures { IfOk result (λ r. r ≡ after_purpose (Purpose.Short f params) e stack kind.now) }
{
    small(e.nesting)?;
    small(1 + e.nesting)?;
    let method = short_method(alloc, f, params, e)?;
    let closed = closed_method(alloc, method, stack)?;
    after_end(alloc, closed, kind)
}

/// What follows the expression of a statement or an item.
fn after_purpose(alloc: Global, purpose: Purpose, e: Node, stack: Stack, kind: &TokenKind) -> Answer
    ensures { IfOk result (λ r. r ≡ after_purpose purpose e stack kind.now) }
{
    match purpose {
        Purpose::Value => after_value(alloc, e, stack, kind),
        Purpose::Assign(target, operator) => after_set(alloc, target, operator, e, stack, kind),
        Purpose::Return(word) => after_returned(alloc, word, e, stack, kind),
        Purpose::If => after_if(alloc, e, stack, kind),
        Purpose::While => after_while(alloc, e, stack, kind),
        Purpose::From(x) => after_from(alloc, x, e, stack, kind),
        Purpose::To(x, from) => after_to(alloc, x, from, e, stack, kind),
        Purpose::Const(x) => after_const(alloc, x, e, stack, kind),
        Purpose::Short(f, params) => after_short(alloc, f, params, e, stack, kind),
    }
}

/// A condition and its first branch, before the second.
fn else_frame(alloc: Global, c: Node, first: Node) -> Result<Frame, NoMemory>
    ensures { IfOk result (λ made. made ≡ Frame.Else c first) }
{
    let condition = Boxed::new(alloc, c)?;
    let holds = Boxed::new(alloc, first)?;
    Ok(Frame::Else(condition, holds))
}

/// The first branch of a condition ends with `:`.
fn first_ends(alloc: Global, c: Node, head: Head, stack: Stack) -> Answer
    ensures { IfOk result (λ r. r ≡ state_at Mode.Want (Frame.Else c (head_node head) ∷ stack)) }
{
    let first = node(alloc, head)?;
    let frame = else_frame(alloc, c, first)?;
    over(Mode::Want, frame, stack)
}

/// What follows the first branch of a condition.
fn after_then(alloc: Global, c: Node, head: Head, stack: Stack, kind: &TokenKind) -> Answer
    ensures { IfOk result (λ r. r ≡ finish_at head (Frame.Then c ∷ stack) kind.now) }
{
    match kind {
        TokenKind::Sign(Sign::Colon) => first_ends(alloc, c, head, stack),
        _ => let_go((c, (head, stack))),
    }
}

/// An argument ends.
fn after_given(
    alloc: Global,
    f: Path,
    given: Given,
    head: Head,
    stack: Stack,
    kind: TokenKind,
) -> Answer
    ensures { IfOk result (λ r. r ≡ finish_at head (Frame.Call f given ∷ stack) kind) }
{
    let given = give(alloc, given, head)?;
    after_argument(alloc, f, given, stack, kind)
}

/// The expression of a purpose ends.
fn after_hole(alloc: Global, purpose: Purpose, head: Head, stack: Stack, kind: &TokenKind) -> Answer
    ensures { IfOk result (λ r. r ≡ finish_at head (Frame.Hole purpose ∷ stack) kind.now) }
{
    let e = node(alloc, head)?;
    after_purpose(alloc, purpose, e, stack, kind)
}

/// The end of an expression.
fn finish_at(alloc: Global, head: Head, mut stack: Stack, kind: TokenKind) -> Answer
    ensures { IfOk result (λ r. r ≡ finish_at head stack kind) }
{
    let Some(frame) = stack.pop() else {
        return Ok(None);
    };
    match frame {
        Frame::Then(c) => after_then(alloc, c, head, stack, &kind),
        Frame::Group(start, types) => after_group(alloc, start, types, head, stack, kind),
        Frame::Call(f, given) => after_given(alloc, f, given, head, stack, kind),
        Frame::Hole(purpose) => after_hole(alloc, purpose, head, stack, &kind),
        other => let_go(other),
    }
}

/// The end of an expression, once the operators in it have ended.
fn have_value(alloc: Global, head: Head, stack: Stack, kind: TokenKind) -> Answer
    ensures { IfOk result (λ r. r ≡ have_value head stack kind) }
{
    if !is_value(&head) {
        return Ok(None);
    }
    let Operand { head, stack } = settle(alloc, Level::Conditional, head, stack)?;
    finish_at(alloc, head, stack, kind)
}

/// Whether an operand and the word behind it begin a type.
fn is_type_word(head: &Head, kind: &TokenKind) -> bool
    ensures { result ≡ is_type_word head.now kind.now }
{
    let Head::Name(x) = head else {
        return false;
    };
    match kind {
        TokenKind::Name(y) => x.text.as_str() == "abstract" && y.as_str() == "type",
        TokenKind::Reserved(Word::Struct) => x.text.as_str() == "mutable",
        _ => false,
    }
}

/// The definition of a type begins.
fn begin_type(kind: &TokenKind, stack: Stack) -> Option<Reading>
    ensures { result ≡ begin_type kind.now stack }
{
    let holds = takes_items(stack.layers());
    match kind {
        TokenKind::Name(_) => guarded(holds, Mode::AbstractName, stack),
        _ => guarded(holds, Mode::StructName(true), stack),
    }
}

/// The frames below the one on top.
fn below_top(mut stack: Stack) -> Stack
    ensures { result ≡ below_top stack }
{
    let _ = stack.pop();
    stack
}

/// The end of the expression with which a statement or a payload begins, over the frames below its own. No operator is open in it.
#[tactic(auto, unfolding(pj_grammar::specs::Frames::settle))]
fn first_value(alloc: Global, head: Head, stack: Stack, kind: &TokenKind) -> Answer
    ensures { IfOk result (λ r. r ≡ have_value head (Frame.Hole Purpose.Value ∷ stack) kind.now) }
{
    if !is_value(&head) {
        return Ok(None);
    }
    let e = node(alloc, head)?;
    after_value(alloc, e, stack, kind)
}

/// What follows the first operand of a statement or a payload, over the frames below its own.
fn have_first(alloc: Global, head: Head, stack: Stack, kind: TokenKind) -> Answer
    ensures { IfOk result (λ r. r ≡ have_first head stack kind) }
{
    if is_type_word(&head, &kind) {
        return Ok(begin_type(&kind, stack));
    }
    first_value(alloc, head, stack, &kind)
}

/// What follows a name in a place that takes no expression, over the frame of the place.
fn path_over(
    alloc: Global,
    frame: Frame,
    path: Option<Path>,
    stack: Stack,
    start: usize,
    kind: TokenKind,
) -> Answer
    ensures { IfOk result (λ r. r ≡ have_path frame path stack start kind) }
{
    match path {
        Some(path) => after_path(alloc, frame, path, stack, start, kind),
        None => Ok(None),
    }
}

/// What follows a name in a place that takes no expression, whose frame is on top.
fn have_path(alloc: Global, head: Head, mut stack: Stack, start: usize, kind: TokenKind) -> Answer
    ensures { IfOk result (λ r. r ≡ path_on head stack start kind) }
{
    match stack.pop() {
        Some(frame) => path_over(alloc, frame, head_path(head), stack, start, kind),
        None => Ok(None),
    }
}

/// A parameter or field without a type ends.
fn add_name(alloc: Global, head: Head, stack: Stack, kind: TokenKind) -> Answer
    ensures { IfOk result (λ r. r ≡ add_name head stack kind) }
{
    match head {
        Head::Name(x) => add_param(alloc, bare_param(x), stack, kind),
        other => let_go(other),
    }
}

/// What a frame takes behind an operand.
#[derive(Clone, Copy, PartialEq, Eq)]
pub enum Wanted {
    Declared,
    Param,
    Path,
    First,
    Value,
}

/// What a frame takes behind an operand.
fn wanted_by(frame: &Frame) -> Wanted
    ensures { result ≡ wanted_of frame.now }
{
    match frame {
        Frame::FunctionName => Wanted::Declared,
        Frame::Signature(_, _, _) | Frame::Fields(_, _, _, _) => Wanted::Param,
        Frame::TypeOf(_, _) | Frame::Parent(_) | Frame::DirectiveFun | Frame::Types(_, _) => {
            Wanted::Path
        }
        Frame::Hole(Purpose::Value) => Wanted::First,
        Frame::Hole(_)
        | Frame::Prefix(_)
        | Frame::Infix(_, _, _)
        | Frame::Then(_)
        | Frame::Else(_, _)
        | Frame::Group(_, _)
        | Frame::Call(_, _)
        | Frame::Block(_, _)
        | Frame::Branch(_, _)
        | Frame::Payload(_, _)
        | Frame::Items(_, _) => Wanted::Value,
    }
}

/// What the frame on top takes behind an operand. Where there is none, a value follows.
fn wanted_on(layers: &[Layer]) -> Wanted
    ensures { result ≡ wanted_on (frames_of layers.now) }
{
    match split_top(layers) {
        Some((frame, _)) => wanted_by(frame),
        None => Wanted::Value,
    }
}

/// What follows an operand, where no sign goes on with it.
#[tactic(auto, using(crate::proofs::Wants::by_wanted))]
pub fn have_other(alloc: Global, head: Head, stack: Stack, start: usize, kind: TokenKind) -> Answer
    ensures { IfOk result (λ r. r ≡ have_other head stack start kind) }
{
    match wanted_on(stack.layers()) {
        Wanted::Declared => after_function(head, below_top(stack), kind),
        Wanted::Param => add_name(alloc, head, stack, kind),
        Wanted::Path => have_path(alloc, head, stack, start, kind),
        Wanted::First => have_first(alloc, head, below_top(stack), kind),
        Wanted::Value => have_value(alloc, head, stack, kind),
    }
}
