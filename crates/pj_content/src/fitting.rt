//! The first entry of an image that is refused.

ghost use Rattle.std.specs.Prelude.{◌≡◌, ◌<◌, ℕ, List, [], IfOk, IfSome, length};
ghost use Rattle.pj_content.specs.Misfit.{tables, place_for as free_function, methods_misfit as first_misfit, misfit as image_misfit};
ghost use Rattle.pj_content.specs.Marks.{Marks};

use crate::mentions::{own_place, types_misfit};
use pj_base::NoMemory;
use pj_image::Image;
use pj_parts::Method;
use pj_reloc::Entry;
use std::alloc::Global;

/// The place of the function to which a method adds, by its mention: one of the package's own that isn't marked.
fn place_for(entries: &[Entry], marks: &[bool], mention: u32) -> Option<usize>
    ensures is { (places : List ℕ) → Marks marks.now places → result ≡ free_function entries.now (tables (length marks.now)) places mention }
    ensures within { IfSome result (λ place. place < length marks.now) }
{
    let place = own_place(entries, marks.len(), mention)? as usize;
    if marks[place] { None } else { Some(place) }
}

/// The first misfit in methods of an image with so many functions. It marks each function that has a method.
fn methods_misfit(
    alloc: Global,
    entries: &[Entry],
    functions: usize,
    methods: &[Method],
) -> Result<Option<u32>, NoMemory>
    ensures { IfOk result (λ found. found ≡ first_misfit entries.now (tables functions) [] methods.now) }
{
    let mut marks = vec![in alloc; false; functions]?;
    for m in methods {
        let Some(place) = place_for(entries, marks.as_slice(), m.fun) else {
            return Ok(Some(m.fun));
        };
        let wrong = types_misfit(entries, functions, m.types.as_slice());
        if wrong.is_some() {
            return Ok(wrong);
        }
        marks[place] = true;
    }
    Ok(None)
}

/// The lowest number of an entry that is refused, if one is: the entry of the first mention that names nothing of its
/// kind, or a function that the package's methods can't add to, or a type that isn't Base's Int64.
pub fn misfit(alloc: Global, image: &Image) -> Result<Option<u32>, NoMemory>
    ensures { IfOk result (λ found. found ≡ image_misfit image.now) }
{
    methods_misfit(
        alloc,
        image.entries.as_slice(),
        image.functions.len(),
        image.methods.as_slice(),
    )
}
