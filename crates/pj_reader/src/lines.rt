//! How statements, items and what is evaluated begin, and how they go on.
ghost use Rattle.std.specs.Prelude.{◌≡◌, ◌∷◌, [], IfOk, List};
ghost use Rattle.pj_grammar.specs.Closing.{after_end, closed_line};
ghost use Rattle.pj_grammar.specs.Frames.{at as state_at, guarded, takes_items, takes_uses};
ghost use Rattle.pj_grammar.specs.Machine.{after_return, eval_name_then, global_assign, line, line_word, operand, payload, reads_name, set_global, with_module};
ghost use Rattle.pj_grammar.specs.Makers.{bare_return};
ghost use Rattle.pj_read_frames.specs.Places.{place_of};
ghost use Rattle.pj_reader.specs.Words.{begins_line};

use pj_base::{NoMemory, Text};
use pj_grammar::{Frame, Head, Mode, Purpose, Target};
use pj_lex::{Sign, TokenKind};
use pj_read_closing::ends::{after_end, ending};
use pj_read_closing::lines::closed_line;
use pj_read_frames::place::Place;
use pj_read_frames::reading::{Answer, Reading, at, guarded, guarded_over, over};
use pj_read_frames::stack::Stack;
use pj_read_frames::view::{takes_items, takes_module, takes_uses};
use pj_read_makers::modules::ModuleNames;
use pj_read_makers::statements::{bare_return, break_of, continue_of};
use pj_read_makers::tokens::{assigning, ends_line, is_dot, is_end, is_paren, operator_at};
use pj_read_operands::begin::operand;
use pj_read_operands::have::have;
use pj_syntax::Spot;
use pj_words::Word;
use sqlite_items::Items;
use std::alloc::Global;

/// A statement begins whose expression is read for a purpose.
fn hole(purpose: Purpose, stack: Stack) -> Answer
    ensures { IfOk result (λ r. r ≡ state_at Mode.Want (Frame.Hole purpose ∷ stack)) }
{
    over(Mode::Want, Frame::Hole(purpose), stack)
}

/// The first operand of a statement or a payload.
fn value(alloc: Global, mut stack: Stack, place: Place, kind: TokenKind) -> Answer
    ensures { IfOk result (λ r. r ≡ operand (Frame.Hole Purpose.Value ∷ stack) (place_of place) kind) }
{
    stack.push(Frame::Hole(Purpose::Value))?;
    operand(alloc, stack, place, kind)
}

/// An item begins whose word is followed by a mode.
fn item(mode: Mode, stack: Stack) -> Option<Reading>
    ensures { result ≡ guarded (takes_items stack) (state_at mode stack) }
{
    let holds = takes_items(stack.layers());
    guarded(holds, mode, stack)
}

/// The definition of a function begins.
fn function(stack: Stack) -> Answer
    ensures { IfOk result (λ r. r ≡ guarded (takes_items stack) (state_at Mode.PathStart (Frame.FunctionName ∷ stack))) }
{
    let holds = takes_items(stack.layers());
    guarded_over(holds, Mode::PathStart, Frame::FunctionName, stack)
}

/// `using` begins.
fn using(alloc: Global, stack: Stack) -> Option<Reading>
    ensures { result ≡ guarded (takes_uses stack) (state_at (Mode.UsingName []) stack) }
{
    let holds = takes_uses(stack.layers());
    guarded(holds, Mode::UsingName(Items::new(alloc)), stack)
}

/// Whether a reserved word begins a statement or an item.
fn begins_line(word: Word) -> bool
    ensures { result ≡ begins_line word }
{
    match word {
        Word::If
        | Word::While
        | Word::For
        | Word::Break
        | Word::Continue
        | Word::Return
        | Word::Global
        | Word::Struct
        | Word::Function
        | Word::Const
        | Word::Using
        | Word::True
        | Word::False
        | Word::Nothing => true,
        _ => false,
    }
}

/// A literal begins a statement. All other words that begin one are taken before; one of them would count as want of memory.
fn literal_word(alloc: Global, stack: Stack, place: Place, word: Word) -> Answer
    ensures { IfOk result (λ r. r ≡ line_word stack (place_of place) word) }
{
    match word {
        Word::True => value(alloc, stack, place, TokenKind::Reserved(Word::True)),
        Word::False => value(alloc, stack, place, TokenKind::Reserved(Word::False)),
        Word::Nothing => value(alloc, stack, place, TokenKind::Reserved(Word::Nothing)),
        _ => Err(NoMemory),
    }
}

/// A word begins an item, or a statement that is a literal.
fn item_word(alloc: Global, stack: Stack, place: Place, word: Word) -> Answer
    ensures { IfOk result (λ r. r ≡ line_word stack (place_of place) word) }
{
    match word {
        Word::Struct => Ok(item(Mode::StructName(false), stack)),
        Word::Function => function(stack),
        Word::Const => Ok(item(Mode::ConstName, stack)),
        Word::Using => Ok(using(alloc, stack)),
        _ => literal_word(alloc, stack, place, word),
    }
}

/// A word is a statement, or begins one that isn't a form with a block, or begins an item.
fn plain_word(alloc: Global, stack: Stack, place: Place, word: Word) -> Answer
    ensures { IfOk result (λ r. r ≡ line_word stack (place_of place) word) }
{
    match word {
        Word::Break => closed_line(alloc, break_of(place.start), stack),
        Word::Continue => closed_line(alloc, continue_of(place.start), stack),
        Word::Return => Ok(at(Mode::Return(place.start), stack)),
        Word::Global => Ok(at(Mode::GlobalName(place.start), stack)),
        _ => item_word(alloc, stack, place, word),
    }
}

/// A word begins a statement or an item.
fn line_begins(alloc: Global, stack: Stack, place: Place, word: Word) -> Answer
    ensures { IfOk result (λ r. r ≡ line_word stack (place_of place) word) }
{
    match word {
        Word::If => hole(Purpose::If, stack),
        Word::While => hole(Purpose::While, stack),
        Word::For => Ok(at(Mode::LoopName, stack)),
        _ => plain_word(alloc, stack, place, word),
    }
}

/// A reserved word begins a statement or an item, or ends a list of them.
#[tactic(auto, using(crate::proofs::Words::word_ends))]
fn line_word(alloc: Global, stack: Stack, place: Place, word: Word) -> Answer
    ensures { IfOk result (λ r. r ≡ line_word stack (place_of place) word) }
{
    if begins_line(word) {
        line_begins(alloc, stack, place, word)
    } else {
        ending(alloc, stack, &TokenKind::Reserved(word))
    }
}

/// A statement or an item begins.
pub fn line(alloc: Global, stack: Stack, place: Place, kind: TokenKind) -> Answer
    ensures { IfOk result (λ r. r ≡ line stack (place_of place) kind) }
{
    match kind {
        TokenKind::Reserved(word) => line_word(alloc, stack, place, word),
        TokenKind::AtEval => over(Mode::Payload, Frame::Payload(None, false), stack),
        TokenKind::Separator => Ok(at(Mode::Line, stack)),
        TokenKind::Eof => ending(alloc, stack, &TokenKind::Eof),
        other => value(alloc, stack, place, other),
    }
}

/// What is evaluated begins with a name.
fn payload_name(
    alloc: Global,
    modules: &ModuleNames,
    stack: Stack,
    place: Place,
    text: Text,
) -> Answer
    ensures { IfOk result (λ r. r ≡ payload modules.now stack (place_of place) (TokenKind.Name text)) }
{
    if takes_module(stack.layers()) && modules.is_module(text.as_str()) {
        let m = Spot {
            text,
            at: place.start,
        };
        Ok(at(Mode::EvalName(m), stack))
    } else {
        value(alloc, stack, place, TokenKind::Name(text))
    }
}

/// What is evaluated begins.
pub fn payload(
    alloc: Global,
    modules: &ModuleNames,
    stack: Stack,
    place: Place,
    kind: TokenKind,
) -> Answer
    ensures { IfOk result (λ r. r ≡ payload modules.now stack (place_of place) kind) }
{
    match kind {
        TokenKind::Reserved(Word::Function) => over(Mode::PathStart, Frame::FunctionName, stack),
        TokenKind::Name(text) => payload_name(alloc, modules, stack, place, text),
        other => value(alloc, stack, place, other),
    }
}

/// The frame of what is evaluated, with a module where it has none yet.
fn payload_with(m: Spot, owner: Option<Spot>, quoted: bool) -> Frame
    ensures { (k : List Frame) → result ∷ k ≡ with_module m (Frame.Payload owner quoted ∷ k) }
{
    match owner {
        Some(owner) => Frame::Payload(Some(owner), quoted),
        None => Frame::Payload(Some(m), quoted),
    }
}

/// The same of any frame: another one stays as it is.
fn frame_with(m: Spot, frame: Frame) -> Frame
    ensures { (k : List Frame) → result ∷ k ≡ with_module m (frame ∷ k) }
{
    match frame {
        Frame::Payload(owner, quoted) => payload_with(m, owner, quoted),
        other => other,
    }
}

/// The module of what is evaluated.
fn with_module(m: Spot, mut stack: Stack) -> Result<Stack, NoMemory>
    ensures { IfOk result (λ k. k ≡ with_module m stack) }
{
    let Some(frame) = stack.pop() else {
        return Ok(stack);
    };
    stack.push(frame_with(m, frame))?;
    Ok(stack)
}

/// Whether a module's name behind `@eval` is a name to read before a token.
fn reads_name(place: Place, kind: &TokenKind) -> bool
    ensures { result ≡ reads_name (place_of place) kind.now }
{
    is_end(kind) || is_dot(kind) || (is_paren(kind) && !place.blank)
}

/// What follows a module's name behind `@eval`.
pub fn eval_name_then(
    alloc: Global,
    modules: &ModuleNames,
    m: Spot,
    mut stack: Stack,
    place: Place,
    kind: TokenKind,
) -> Answer
    ensures { IfOk result (λ r. r ≡ eval_name_then modules.now m stack (place_of place) kind) }
{
    if reads_name(place, &kind) {
        stack.push(Frame::Hole(Purpose::Value))?;
        have(alloc, modules, Head::Name(m), stack, place, kind)
    } else {
        let stack = with_module(m, stack)?;
        payload(alloc, modules, stack, place, kind)
    }
}

/// `return` without a value ends.
fn bare_ends(alloc: Global, word: usize, stack: Stack, kind: &TokenKind) -> Answer
    ensures { IfOk result (λ r. r ≡ after_end (closed_line (bare_return word) stack) kind.now) }
{
    let closed = closed_line(alloc, bare_return(word), stack)?;
    after_end(alloc, closed, kind)
}

/// What follows `return`.
pub fn after_return(
    alloc: Global,
    word: usize,
    mut stack: Stack,
    place: Place,
    kind: TokenKind,
) -> Answer
    ensures { IfOk result (λ r. r ≡ after_return word stack (place_of place) kind) }
{
    if ends_line(&kind) {
        bare_ends(alloc, word, stack, &kind)
    } else {
        stack.push(Frame::Hole(Purpose::Return(word)))?;
        operand(alloc, stack, place, kind)
    }
}

/// The name behind `global` is set.
fn set_global(
    word: usize,
    x: Spot,
    stack: Stack,
    start: usize,
    operator: Option<Option<Sign>>,
) -> Answer
    ensures { IfOk result (λ r. r ≡ set_global word x stack start operator) }
{
    match operator {
        Some(operator) => {
            let target = Target::Global(word, x);
            hole(Purpose::Assign(target, operator_at(start, operator)), stack)
        }
        None => Ok(None),
    }
}

/// What follows the name behind `global`.
pub fn global_assign(word: usize, x: Spot, stack: Stack, place: Place, kind: TokenKind) -> Answer
    ensures { IfOk result (λ r. r ≡ global_assign word x stack (place_of place) kind) }
{
    match kind {
        TokenKind::Sign(sign) => set_global(word, x, stack, place.start, assigning(sign)),
        _ => Ok(None),
    }
}
