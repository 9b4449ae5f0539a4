//! The sections of a file in order, up to the first that is at fault.

ghost use Rattle.std.specs.Prelude.{◌≡◌, ◌+◌, ◌≤◌, ◌<◌, ◌^◌, IfOk, MatchResult, length, map};
ghost use Rattle.std.specs.List.{list_all};
ghost use Rattle.pj_fields.specs.Fields.{list};
ghost use Rattle.pj_parts.specs.Spelling.{method};
ghost use Rattle.pj_image.specs.File.{is_named, declared_at, bodies_at, ending_at, parts_at};
ghost use Rattle.pj_image.specs.Found.{Finds, or_fault, checked};
ghost use Rattle.pj_image.specs.Names.{all_seen};
ghost use Rattle.pj_image.specs.PlainTrees.{is_plain};
ghost use Rattle.pj_image.specs.Sees.{SeesAt};

use crate::fault::DecodeFault;
use crate::frame::{check, take_section};
use crate::image::Image;
use crate::methods::{entries_placed, methods_fine};
use crate::named::{Named, see_names};
use crate::plain::plain_trees;
use crate::seen::Seen;
use crate::stages::{Bodies, Declared, Ending};
use pj_base::NoMemory;
use pj_parts::{Binding, FunDef, Head, Method, PartFault, ShortText};
use pj_reloc::Entry;
use pj_tree::TreeNode;
use pj_words::is_package_name;
use sqlite_items::Items;
use std::alloc::Global;

/// Whether a head has the asked name, and that is a package's.
fn has_name(name: &str, head: &Head) -> bool
    ensures { result ≡ is_named name.now head.now }
{
    head.name.as_str() == name && is_package_name(head.name.as_str())
}

/// Adds the names of a section to those seen, or tells its fault.
fn see_section<'a, T: Named>(
    alloc: Global,
    section: u32,
    strings: &'a [ShortText],
    all: &[T],
    seen: &mut Seen<'a>,
) -> Result<(), DecodeFault>
    ensures { SeesAt result seen.new (or_fault section (all_seen T.good strings.now seen.old (map T.number_of all.now))) }
{
    match see_names(alloc, strings, all, seen) {
        Ok(()) => Ok(()),
        Err(PartFault::Bad) => Err(DecodeFault::Format { section }),
        Err(PartFault::NoMemory) => Err(DecodeFault::NoMemory),
    }
}

/// Sections 1 to 6 at the front, of an image of this name, and the bytes after them.
#[tactic(auto, unfolding(crate::specs::File::declared_at))]
pub fn take_declared<'a>(
    alloc: Global,
    name: &str,
    bytes: &'a [u8],
) -> Result<(Declared, &'a [u8]), DecodeFault>
    ensures { Finds (λ x. (x.0, x.1.now)) result (declared_at name.now bytes.now) }
{
    let (head, rest) = take_section(alloc, 1, bytes)?;
    check(1, has_name(name, &head))?;
    let (strings, rest) = take_section::<Items<ShortText>>(alloc, 2, rest)?;
    let (types, rest) = take_section(alloc, 3, rest)?;
    let (functions, rest) = take_section::<Items<FunDef>>(alloc, 4, rest)?;
    let mut seen = Seen::new(alloc);
    see_section(
        alloc,
        4,
        strings.as_slice(),
        functions.as_slice(),
        &mut seen,
    )?;
    let (bindings, rest) = take_section::<Items<Binding>>(alloc, 5, rest)?;
    see_section(alloc, 5, strings.as_slice(), bindings.as_slice(), &mut seen)?;
    drop(seen);
    let (objects, rest) = take_section(alloc, 6, rest)?;
    let declared = Declared {
        head,
        strings,
        types,
        functions,
        bindings,
        objects,
    };
    Ok((declared, rest))
}

/// Sections 7 and 8 at the front, in a file whose sections end at `size`, and the bytes after them.
#[tactic(auto, unfolding(crate::specs::File::bodies_at))]
pub fn take_bodies<'a>(
    alloc: Global,
    strings: &[ShortText],
    size: usize,
    bytes: &'a [u8],
) -> Result<(Bodies, &'a [u8]), DecodeFault>
    requires inside { length bytes.now ≤ size }
    requires small { size + 8 < 2 ^ 64 }
    ensures is { Finds (λ x. (x.0, x.1.now)) result (bodies_at strings.now size bytes.now) }
    ensures within { IfOk result (λ x. x.0.place + length (list method x.0.methods) ≤ size) }
{
    let (trees, rest) = take_section::<Items<TreeNode>>(alloc, 7, bytes)?;
    let place = (size - rest.len()) as u64 + 8;
    check(7, all_plain(alloc, strings, trees.as_slice())?)?;
    let (methods, rest) = take_section::<Items<Method>>(alloc, 8, rest)?;
    check(8, methods_fine(trees.as_slice(), methods.as_slice()))?;
    let bodies = Bodies {
        trees,
        place,
        methods,
    };
    Ok((bodies, rest))
}

/// Whether all trees are of the form that is built today.
fn all_plain(alloc: Global, strings: &[ShortText], trees: &[TreeNode]) -> Result<bool, DecodeFault>
    ensures { MatchResult result (λ plain. plain ≡ list_all (is_plain strings.now) trees.now) (λ fault. fault ≡ DecodeFault.NoMemory) }
{
    match plain_trees(alloc, strings, trees) {
        Ok(plain) => Ok(plain),
        Err(NoMemory) => Err(DecodeFault::NoMemory),
    }
}

/// Sections 9 to 12, which the bytes are to their end, where the list of methods stands at this place of the file.
#[tactic(auto, unfolding(crate::specs::File::ending_at))]
pub fn take_ending(
    alloc: Global,
    place: u64,
    methods: &[Method],
    bytes: &[u8],
) -> Result<Ending, DecodeFault>
    requires { place + length (list method methods.now) < 2 ^ 64 }
    ensures { Finds (λ x. x) result (ending_at place methods.now bytes.now) }
{
    let (directives, rest) = take_section(alloc, 9, bytes)?;
    let (records, rest) = take_section(alloc, 10, rest)?;
    let (code, rest) = take_section(alloc, 11, rest)?;
    let (entries, rest) = take_section::<Items<Entry>>(alloc, 12, rest)?;
    let right = entries_placed(place, methods, entries.as_slice()) && rest.is_empty();
    check(12, right)?;
    Ok(Ending {
        directives,
        records,
        code,
        entries,
    })
}

/// All sections, which the bytes are to their end, of an image of this name, in a file in which they end at `size`.
#[tactic(auto, unfolding(crate::specs::File::parts_at))]
pub fn take_parts(
    alloc: Global,
    name: &str,
    size: usize,
    bytes: &[u8],
) -> Result<Image, DecodeFault>
    requires inside { length bytes.now ≤ size }
    requires small { size + 8 < 2 ^ 64 }
    ensures { Finds (λ x. x) result (parts_at name.now size bytes.now) }
{
    let (declared, rest) = take_declared(alloc, name, bytes)?;
    let (bodies, rest) = take_bodies(alloc, declared.strings.as_slice(), size, rest)?;
    let ending = take_ending(alloc, bodies.place, bodies.methods.as_slice(), rest)?;
    Ok(Image {
        head: declared.head,
        strings: declared.strings,
        types: declared.types,
        functions: declared.functions,
        bindings: declared.bindings,
        objects: declared.objects,
        trees: bodies.trees,
        methods: bodies.methods,
        directives: ending.directives,
        records: ending.records,
        code: ending.code,
        entries: ending.entries,
    })
}
