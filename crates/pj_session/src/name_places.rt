//! In which place an image has a name: those of its functions come first, and behind them those of its consts and globals.

ghost use Rattle.std.specs.Prelude.{◌≡◌, ◌<◌, ◌^◌, IfSome, IsTrue, Some, length, option_map, slice_get};
ghost use Rattle.pj_base.specs.Interned.{found_at};
ghost use Rattle.pj_image.specs.Formed.{Formed};
ghost use Rattle.pj_content.specs.Content.{strings_in};
ghost use Rattle.pj_session.specs.Indexed.{names_in_image};

use pj_base::NoMemory;
use pj_image::Image;
use pj_parts::ShortText;
use sqlite_items::at as item_at;
use std::alloc::Global;
use std::hash::{FoldHasher, Hasher};

/// In how many slots a name is sought.
const TURNS: usize = 16;

/// The string of a number, or the empty text where there is none.
#[tactic(auto, using(crate::proofs::Listed::no_string))]
fn string(strings: &[ShortText], number: u32) -> &str
    ensures { result.now ≡ strings_in strings.now number }
{
    match item_at(strings, number as usize) {
        Some(text) => text.as_str(),
        None => "",
    }
}

/// The name in a place.
fn name_at(image: &Image, place: usize) -> Option<&str>
    ensures { option_map (λ s. s.now) result ≡ slice_get (names_in_image image.now) place }
{
    let strings = image.strings.as_slice();
    let functions = image.functions.as_slice();
    if place < functions.len() {
        return Some(string(strings, functions[place].name));
    }
    let binding = item_at(image.bindings.as_slice(), place - functions.len())?;
    Some(string(strings, binding.name))
}

/// Whether the name in a place is this one.
fn is_named(image: &Image, place: usize, name: &str) -> bool
    ensures yes { IsTrue result → slice_get (names_in_image image.now) place ≡ Some name.now }
    ensures no { slice_get (names_in_image image.now) place ≡ Some name.now → IsTrue result }
{
    match name_at(image, place) {
        Some(found) => found == name,
        None => false,
    }
}

/// Where the slots of a name begin.
fn hash_of(name: &str) -> usize {
    let mut state = FoldHasher::default();
    state.write(name.as_bytes());
    state.finish() as usize
}

/// Notes a place, counted from 1, in the first free slot of its name, if there is one. A free slot has 0.
fn note_place(slots: &mut Vec<u32>, name: &str, place: u32)
    ensures { length slots.new.items ≡ length slots.old.items }
{
    let own = hash_of(name);
    for turn in 0..TURNS {
        let at = own.wrapping_add(turn) % slots.len().max(1);
        if at < slots.len() && slots[at] == 0 {
            slots[at] = place;
            return;
        }
    }
}

/// The place that is noted of a name, where it has the name.
fn noted_place(image: &Image, slots: &[u32], name: &str) -> Option<usize>
    ensures { IfSome result (λ place. slice_get (names_in_image image.now) place ≡ Some name.now) }
{
    let own = hash_of(name);
    for turn in 0..TURNS {
        let at = own.wrapping_add(turn) % slots.len().max(1);
        let place = (*slots.get(at)? as usize).wrapping_sub(1);
        if is_named(image, place, name) {
            return Some(place);
        }
    }
    None
}

/// The first place of a name, sought in all.
fn first_place(image: &Image, name: &str) -> Option<usize>
    requires few { length (names_in_image image.now) < 2 ^ 64 }
    ensures { result ≡ found_at name.now (names_in_image image.now) }
{
    let count = image.functions.len().saturating_add(image.bindings.len());
    for place in 0..count {
        if is_named(image, place, name) {
            return Some(place);
        }
    }
    None
}

/// The places of an image's names, noted for `find_place`.
pub fn place_slots(alloc: Global, image: &Image) -> Result<Vec<u32>, NoMemory> {
    let strings = image.strings.as_slice();
    let functions = image.functions.as_slice();
    let bindings = image.bindings.as_slice();
    let count = functions.len().saturating_add(bindings.len());
    let mut slots = vec![in alloc; 0; count.saturating_mul(2)]?;
    let mut place: u32 = 0;
    for f in functions {
        place = place.wrapping_add(1);
        note_place(&mut slots, string(strings, f.name), place);
    }
    for b in bindings {
        place = place.wrapping_add(1);
        note_place(&mut slots, string(strings, b.name), place);
    }
    Ok(slots)
}

/// The place of a name, by the slots in which places were noted. Where none is noted there that has the name, all names are
/// compared: so the answer doesn't rest on what was noted.
pub fn find_place(image: &Image, slots: &[u32], name: &str) -> Option<usize>
    requires few { length (names_in_image image.now) < 2 ^ 64 }
    ensures { ∥ Formed image.now ∥₁ → result ≡ found_at name.now (names_in_image image.now) }
{
    match noted_place(image, slots, name) {
        Some(place) => Some(place),
        None => first_place(image, name),
    }
}
