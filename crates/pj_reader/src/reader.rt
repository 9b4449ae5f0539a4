//! The reader of texts.
ghost use Rattle.std.specs.Prelude.{◌≡◌, ◌∷◌, [], IfErr, IfOk, Some, None, if◌then◌else◌};
ghost use Rattle.pj_grammar.specs.Machine.{accepted, read_frames, start};
ghost use Rattle.pj_reader.specs.Read.{Accepts, GoesOn, IsFault, IsNextFault, Progress, deep_fault, ends_text, is_accepted, kind_of};

use crate::fault::{ReadFault, TextKind};
use crate::machine::step;
use pj_base::NoMemory;
use pj_grammar::{Entries, Frame, Mode, Parsed, Root};
use pj_lex::{Token, TokenKind, TokenList};
use pj_read_frames::need::need;
use pj_read_frames::reading::{Reading, parts, reading_at};
use pj_read_frames::stack::{Stack, split_top};
use pj_read_makers::copies::copy_token;
use pj_read_makers::items::no_entries;
use pj_read_makers::modules::ModuleNames;
use pj_syntax::{Package, Script};
use std::alloc::Global;

/// How deep a text may nest.
const LIMIT: usize = 128;

/// Where a reader begins.
fn started(alloc: Global, kind: TextKind) -> Result<Reading, NoMemory>
    ensures { IfOk result (λ r. r ≡ start (kind_of kind)) }
{
    let mut stack = Stack::new(alloc);
    match kind {
        TextKind::Script => {
            stack.push(Frame::Items(Root::Script, no_entries(alloc)))?;
            Ok(reading_at(Mode::Line, stack))
        }
        TextKind::Package => Ok(reading_at(Mode::PackageStart, stack)),
    }
}

/// Whether a token is the one behind a text.
fn ends_text(kind: &TokenKind) -> bool
    ensures { result ≡ ends_text kind.now }
{
    matches!(kind, TokenKind::Eof)
}

/// The fault at a token that makes a text nest too deep.
fn deep_fault(last: bool, token: usize, place: usize) -> ReadFault
    ensures { result ≡ deep_fault last token place }
{
    if last {
        ReadFault::Early { token, place }
    } else {
        ReadFault::Deep { token, place }
    }
}

/// One token more, which has this number.
fn next(
    alloc: Global,
    modules: &ModuleNames,
    reading: Reading,
    token: Token,
    number: usize,
) -> Result<Reading, ReadFault>
    ensures ok { IfOk result (GoesOn modules.now reading token) }
    ensures err { IfErr result (IsNextFault modules.now reading token number) }
{
    let place = token.start;
    let last = ends_text(&token.what);
    match step(alloc, modules, reading, token)? {
        Some(next) => {
            if need(&next) <= LIMIT {
                Ok(next)
            } else {
                Err(deep_fault(last, number, place))
            }
        }
        None => Err(ReadFault::Grammar {
            token: number,
            place,
        }),
    }
}

/// All tokens, one by one.
fn read_all(
    alloc: Global,
    modules: &ModuleNames,
    kind: TextKind,
    tokens: &TokenList,
) -> Result<Reading, ReadFault>
    ensures ok { IfOk result (Progress modules.now (kind_of kind) tokens.now []) }
    ensures err { IfErr result (IsFault modules.now (kind_of kind) tokens.now) }
{
    let total = tokens.len();
    let mut reading = started(alloc, kind)?;
    let mut rest = tokens.as_slice();
    while let [first, more @ ..] = rest {
        let number = total - 1 - more.len();
        let token = copy_token(alloc, first)?;
        reading = next(alloc, modules, reading, token, number)?;
        rest = more;
    }
    Ok(reading)
}

/// The tree of what was read, and how deep it nests.
fn tree_of(root: Root, entries: Entries) -> (Parsed, usize)
    ensures { read_frames (Frame.Items root entries ∷ []) ≡ Some result }
{
    let Entries { trees, nesting } = entries;
    match root {
        Root::Script => (Parsed::Script(Script { items: trees }), nesting),
        Root::Package(name, uses) => {
            let package = Package {
                name,
                uses,
                items: trees,
            };
            (Parsed::Package(package), nesting)
        }
    }
}

/// No tree, where a frame holds no text.
fn no_tree(_frame: Frame) -> Option<(Parsed, usize)>
    ensures { result ≡ None }
{
    None
}

/// The tree of a frame that stands alone.
fn read_frame(frame: Frame) -> Option<(Parsed, usize)>
    ensures { result ≡ read_frames (frame ∷ []) }
{
    match frame {
        Frame::Items(root, entries) => Some(tree_of(root, entries)),
        other => no_tree(other),
    }
}

/// The tree of a stack that holds a whole text and nothing else.
#[tactic(auto, using(crate::proofs::Progress::two_frames))]
fn read_frames(mut stack: Stack) -> Option<(Parsed, usize)>
    ensures { result ≡ read_frames stack }
{
    let frame = stack.pop()?;
    match split_top(stack.layers()) {
        None => read_frame(frame),
        Some(_) => no_tree(frame),
    }
}

/// Whether a text has ended.
fn is_accepted(mode: &Mode) -> bool
    ensures { result ≡ is_accepted mode.now }
{
    matches!(mode, Mode::Accepted)
}

/// What is begun where the reader stands.
fn stack_of(reading: Reading) -> Stack
    ensures { result ≡ reading.frames }
{
    let (_mode, stack) = parts(reading);
    stack
}

/// The tree of a stack, where a text has ended.
fn ended(ends: bool, stack: Stack) -> Option<(Parsed, usize)>
    ensures { result ≡ if ends then read_frames stack else None }
{
    if ends { read_frames(stack) } else { None }
}

/// The tree of a text that was read whole, and how deep it nests.
fn accepted(reading: Reading) -> Option<(Parsed, usize)>
    ensures { result ≡ accepted (Some reading) }
{
    let ends = is_accepted(reading.mode());
    ended(ends, stack_of(reading))
}

/// Reads the tokens of a text. The tree is the one with which the grammar's machine accepts them. A fault is at the first token to
/// which the machine has no answer, or none that needs no more than a text may nest.
pub fn read(
    alloc: Global,
    modules: &ModuleNames,
    kind: TextKind,
    tokens: &TokenList,
) -> Result<Parsed, ReadFault>
    ensures read { IfOk result (Accepts modules.now (kind_of kind) tokens.now) }
    ensures fault { IfErr result (IsFault modules.now (kind_of kind) tokens.now) }
{
    let last = read_all(alloc, modules, kind, tokens)?;
    match accepted(last) {
        Some((tree, _)) => Ok(tree),
        None => Err(ReadFault::Endless),
    }
}
