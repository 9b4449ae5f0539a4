//! Items: uses, types, declarations and directives, and the frame of a package.
ghost use Rattle.std.specs.Prelude.{◌≡◌, ◌∷◌, IfOk};
ghost use Rattle.pj_grammar.specs.Machine.{after_declared, after_use, directive_end, end_uses, header, package_end, package_named, package_start};
ghost use Rattle.pj_read_frames.specs.Places.{place_of};

use pj_grammar::{Entries, Frame, Header, Mode, Root};
use pj_lex::{Sign, TokenKind};
use pj_read_closing::ends::after_end;
use pj_read_closing::lines::closed_entry;
use pj_read_closing::params::after_header;
use pj_read_frames::place::Place;
use pj_read_frames::reading::{Answer, Reading, at, let_go, over};
use pj_read_frames::stack::Stack;
use pj_read_makers::items::{declared, directive_of, no_entries, using_of};
use pj_syntax::{Path, PathList, Spot, SpotList};
use pj_words::Word;
use sqlite_items::Items;
use std::alloc::Global;

/// The end of `using` in a script.
fn end_script_uses(
    alloc: Global,
    names: SpotList,
    entries: Entries,
    mut stack: Stack,
    kind: TokenKind,
) -> Answer
    ensures { IfOk result (λ r. r ≡ end_uses names (Frame.Items Root.Script entries ∷ stack) kind) }
{
    stack.push(Frame::Items(Root::Script, entries))?;
    let closed = closed_entry(using_of(names), stack)?;
    after_end(alloc, closed, &kind)
}

/// The end of `using` in a package.
fn end_package_uses(
    names: SpotList,
    x: Spot,
    mut uses: SpotList,
    entries: Entries,
    stack: Stack,
    kind: TokenKind,
) -> Answer
    ensures { IfOk result (λ r. r ≡ end_uses names (Frame.Items (Root.Package x uses) entries ∷ stack) kind) }
{
    match kind {
        TokenKind::Separator => {
            uses.append(names)?;
            over(
                Mode::Line,
                Frame::Items(Root::Package(x, uses), entries),
                stack,
            )
        }
        _ => Ok(None),
    }
}

/// The end of `using` in a text.
fn end_uses_in(
    alloc: Global,
    names: SpotList,
    root: Root,
    entries: Entries,
    stack: Stack,
    kind: TokenKind,
) -> Answer
    ensures { IfOk result (λ r. r ≡ end_uses names (Frame.Items root entries ∷ stack) kind) }
{
    match root {
        Root::Script => end_script_uses(alloc, names, entries, stack, kind),
        Root::Package(x, uses) => end_package_uses(names, x, uses, entries, stack, kind),
    }
}

/// The end of `using`.
fn end_uses(alloc: Global, names: SpotList, mut stack: Stack, kind: TokenKind) -> Answer
    ensures { IfOk result (λ r. r ≡ end_uses names stack kind) }
{
    let Some(frame) = stack.pop() else {
        return Ok(None);
    };
    match frame {
        Frame::Items(root, entries) => end_uses_in(alloc, names, root, entries, stack, kind),
        other => let_go(other),
    }
}

/// What follows a name behind `using`.
pub fn after_use(alloc: Global, names: SpotList, stack: Stack, kind: TokenKind) -> Answer
    ensures { IfOk result (λ r. r ≡ after_use names stack kind) }
{
    match kind {
        TokenKind::Sign(Sign::Comma) => Ok(at(Mode::UsingName(names), stack)),
        other => end_uses(alloc, names, stack, other),
    }
}

/// What follows the name of a type that is defined.
pub fn header(alloc: Global, h: Header, stack: Stack, place: Place, kind: TokenKind) -> Answer
    ensures { IfOk result (λ r. r ≡ header h stack (place_of place) kind) }
{
    match kind {
        TokenKind::Sign(Sign::Below) => over(Mode::PathStart, Frame::Parent(h), stack),
        other => after_header(alloc, h, None, stack, place.start, other),
    }
}

/// What follows `function f` and separators.
pub fn after_declared(x: Spot, stack: Stack, kind: TokenKind) -> Answer
    ensures { IfOk result (λ r. r ≡ after_declared x stack kind) }
{
    match kind {
        TokenKind::Separator => Ok(at(Mode::Declared(x), stack)),
        TokenKind::Reserved(Word::End) => closed_entry(declared(x), stack),
        _ => Ok(None),
    }
}

/// What follows the types of a directive.
fn directive_ends(f: Path, types: PathList, stack: Stack, kind: TokenKind) -> Answer
    ensures { IfOk result (λ r. r ≡ directive_end (Frame.Types f types ∷ stack) kind) }
{
    match kind {
        TokenKind::Sign(Sign::RightParen) => closed_entry(directive_of(f, types), stack),
        _ => Ok(None),
    }
}

/// The last parenthesis of a directive.
pub fn directive_end(mut stack: Stack, kind: TokenKind) -> Answer
    ensures { IfOk result (λ r. r ≡ directive_end stack kind) }
{
    let Some(frame) = stack.pop() else {
        return Ok(None);
    };
    match frame {
        Frame::Types(f, types) => directive_ends(f, types, stack, kind),
        other => let_go(other),
    }
}

/// What stands before a package's name.
pub fn package_start(stack: Stack, kind: TokenKind) -> Option<Reading>
    ensures { result ≡ package_start stack kind }
{
    match kind {
        TokenKind::Separator => at(Mode::PackageStart, stack),
        TokenKind::Reserved(Word::Module) => at(Mode::PackageName, stack),
        _ => None,
    }
}

/// What follows a package's name.
pub fn package_named(alloc: Global, x: Spot, kind: TokenKind) -> Answer
    ensures { IfOk result (λ r. r ≡ package_named x kind) }
{
    match kind {
        TokenKind::Separator => {
            let root = Root::Package(x, Items::new(alloc));
            over(
                Mode::Line,
                Frame::Items(root, no_entries(alloc)),
                Stack::new(alloc),
            )
        }
        _ => Ok(None),
    }
}

/// What follows the end of a package.
pub fn package_end(stack: Stack, kind: TokenKind) -> Option<Reading>
    ensures { result ≡ package_end stack kind }
{
    match kind {
        TokenKind::Separator => at(Mode::PackageEnd, stack),
        TokenKind::Eof => at(Mode::Accepted, stack),
        _ => None,
    }
}
