//! From a package's tree to the bytes of its image.

ghost use Rattle.std.specs.Prelude.{◌≡◌, ◌≤◌, ℕ, List, Ok, IfOk, [], length, map, true};
ghost use Rattle.pj_meaning.specs.Tree.{Text};
ghost use Rattle.pj_meaning.specs.Content.{Content, content_of};
ghost use Rattle.pj_meaning.specs.Outcome.{Outcome};
ghost use Rattle.pj_meaning.specs.Packages.{all_items, pack};
ghost use Rattle.pj_meaning.specs.Values.{Value};
ghost use Rattle.pj_plain.specs.Forms.{package_form, package_items};
ghost use Rattle.pj_plain.specs.Held.{held_item, held_package};
ghost use Rattle.pj_words.specs.Words.{is_package_name};
ghost use Rattle.pj_image.specs.Formed.{IsFileOf};
ghost use Rattle.pj_session.specs.Good.{Good};
ghost use Rattle.pj_session.specs.OwnItems.{known_in};
ghost use Rattle.pj_session.specs.Seen.{events_of, state_seen};
ghost use Rattle.pj_session.specs.States.{run};
ghost use Rattle.pj_session.specs.Uses.{counts_loaded, image_count};
ghost use Rattle.pj_build.specs.Packs.{Built, Packs, PacksAs};
ghost use Rattle.pj_build.specs.Evaluated.{Evaluates, IfMemory, IsLineOf, TellsEnd, kept};

use crate::image::image_of;
use pj_base::{ByteList, NoMemory};
use pj_image::{Image, encode, image_ok};
use pj_session::{End, Session};
use pj_tree::{PackageTree, TopItem};
use std::alloc::Global;

/// Why a package has no image.
#[derive(Drop)]
pub enum BuildFault {
    /// Its statements ended so, which has this line. It is never for want of memory.
    Ended { end: End, line: ByteList },
    /// There was no memory, or the image's parts had no spelling, which no text is known to lead to.
    NoMemory,
}

/// What building a package gives.
#[derive(Drop)]
pub struct Packed {
    /// What its statements printed.
    pub printed: ByteList,
    /// The bytes of its image, or why it has none.
    pub outcome: Result<ByteList, BuildFault>,
}

/// Evaluates items of a package's form up to the first that ends early, with a budget of so many charges.
fn evaluate(alloc: Global, session: &mut Session, items: &[TopItem], steps: u64) -> Result<(), End>
    requires form { package_items (known_in (events_of session.old)) (map held_item items.now) ≡ true }
    requires good { Good session.old.here (events_of session.old) }
    ensures ends { Evaluates (all_items (map held_item items.now) (run (state_seen session.old) steps)) result (state_seen session.new) }
    ensures good { Good session.new.here (events_of session.new) }
    ensures loaded { (other : Text) → counts_loaded session.new.here (events_of session.new) other ≡ counts_loaded session.old.here (events_of session.old) other }
    ensures here { session.new.here ≡ session.old.here }
{
    let mut left = steps;
    for item in items {
        session.top(alloc, item, &mut left)?;
    }
    Ok(())
}

/// The bytes of an image, where it has a spelling that isn't too long.
fn spelled(alloc: Global, image: &Image) -> Result<ByteList, NoMemory>
    ensures file { IfOk result (λ bytes. IsFileOf image.now.head.name bytes image.now) }
    ensures short { IfOk result (λ bytes. length bytes ≤ 67108864) }
{
    if image_ok(alloc, image)? {
        encode(alloc, image)
    } else {
        Err(NoMemory)
    }
}

/// The bytes of the image of what the module that runs has, where no image is loaded.
fn image_bytes(alloc: Global, session: &Session) -> Result<ByteList, NoMemory>
    requires good { Good session.now.here (events_of session.now) }
    requires alone { image_count (events_of session.now) ≡ 0 }
    ensures { IfOk result (Built session.now.here (content_of 1 (state_seen session.now))) }
{
    let things = session.tables.things.as_slice();
    let image = image_of(alloc, session.here.as_str(), &session.tables.own, things)?;
    spelled(alloc, &image)
}

/// The line of an end. There is none for want of memory.
fn line_of(alloc: Global, end: &End) -> Result<ByteList, NoMemory>
    ensures { IfOk result (IsLineOf end.now) }
{
    match end {
        End::Error(told) => told.error_line(alloc),
        End::Steps => {
            let mut line = ByteList::new(alloc);
            line.extend(b"steps\n")?;
            Ok(line)
        }
        End::Trap | End::NoMemory => Err(NoMemory),
    }
}

/// The fault of a package whose statements ended so.
fn fault(alloc: Global, end: End) -> BuildFault
    ensures { TellsEnd end result }
{
    match line_of(alloc, &end) {
        Ok(line) => BuildFault::Ended { end, line },
        Err(_) => BuildFault::NoMemory,
    }
}

/// What a package comes to whose statements ended so: the bytes of its image, or why it has none.
fn outcome(alloc: Global, session: &Session, ended: Result<(), End>) -> Result<ByteList, BuildFault>
    requires good { Good session.now.here (events_of session.now) }
    requires alone { image_count (events_of session.now) ≡ 0 }
    ensures { (given : Outcome Value) → Evaluates given ended (state_seen session.now) → IfMemory result (PacksAs session.now.here (kept given) session.now.printed result) }
{
    match ended {
        Ok(()) => match image_bytes(alloc, session) {
            Ok(bytes) => Ok(bytes),
            Err(_) => Err(BuildFault::NoMemory),
        },
        Err(end) => Err(fault(alloc, end)),
    }
}

/// What was printed, with what the package came to. Without memory nothing is told as printed.
fn with_output(alloc: Global, session: Session, outcome: Result<ByteList, BuildFault>) -> Packed
    ensures { (name : Text) (given : Outcome Content) → IfMemory outcome (PacksAs name given session.printed outcome) → Packs name given result }
{
    match outcome {
        Err(BuildFault::NoMemory) => nothing(alloc),
        outcome => Packed {
            printed: session.printed,
            outcome,
        },
    }
}

/// There was no memory.
fn nothing(alloc: Global) -> Packed
    ensures { (name : Text) (given : Outcome Content) → Packs name given result }
{
    Packed {
        printed: ByteList::new(alloc),
        outcome: Err(BuildFault::NoMemory),
    }
}

/// Evaluates a package's statements over Base with a budget of so many charges, and answers the bytes of its image.
pub fn pack(alloc: Global, tree: &PackageTree, steps: u64) -> Packed
    requires form { package_form (held_package tree.now) ≡ true }
    requires named { is_package_name tree.now.name ≡ true }
    ensures { Packs tree.now.name (pack (held_package tree.now) [] steps) result }
{
    let Ok(mut session) = Session::for_pack(alloc, tree.name.as_str()) else {
        return nothing(alloc);
    };
    let ended = evaluate(alloc, &mut session, tree.items.as_slice(), steps);
    let outcome = outcome(alloc, &session, ended);
    with_output(alloc, session, outcome)
}
