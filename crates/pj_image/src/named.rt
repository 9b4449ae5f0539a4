//! The names that an image declares.

ghost use Rattle.std.specs.Prelude.{◌≡◌, ◌≤◌, ◌++◌, ◌∷◌, [], ℕ, Bool, List, Option, Some, map, length, take, drop, option_map, slice_get, OnOk, OnSome};
ghost use Rattle.std.specs.List.{AllByRecursion};
ghost use Rattle.pj_tree.specs.Fits.{SymFits};
ghost use Rattle.pj_image.specs.Names.{text_of as sym_text, all_seen};
ghost use Rattle.pj_image.specs.New.{all_new, name_taken, all_taken};
ghost use Rattle.pj_image.specs.Sees.{Sees, Passes};

use crate::seen::Seen;
use pj_base::NoMemory;
use pj_parts::{Binding, FunDef, PartFault, ShortText};
use pj_tree::Sym;
use pj_words::{is_base_name, is_identifier};
use sqlite_items::at;
use std::alloc::Global;

/// What has a name among an image's strings.
pub trait Named {
    // the number of the name
    ghost number_of: { Self → Option ℕ };

    // what is known of one that has a number
    ghost in_range: { Self → Type 0 };

    // which texts the name may be
    ghost good: { List ℕ → Bool };

    /// The number of the name, where it has one.
    fn name_number(&self) -> Option<u32>
        ensures is { result ≡ number_of self.now }
        ensures range { OnSome result (in_range self.now) };

    /// Whether the name may be this text.
    fn is_good(text: &str) -> bool
        ensures { result ≡ good text.now };
}

impl Named for FunDef {
    ghost use Rattle.std.specs.Prelude.{Some, ⊤};
    ghost use Rattle.pj_image.specs.Names.{bindable};

    ghost number_of = { λ f. Some f.name };

    ghost in_range = { λ f. ⊤ };

    ghost good = { bindable };

    fn name_number(&self) -> Option<u32> {
        Some(self.name)
    }

    fn is_good(text: &str) -> bool {
        is_identifier(text) && !is_base_name(text)
    }
}

impl Named for Binding {
    ghost use Rattle.std.specs.Prelude.{Some, ⊤};
    ghost use Rattle.pj_image.specs.Names.{bindable};

    ghost number_of = { λ b. Some b.name };

    ghost in_range = { λ b. ⊤ };

    ghost good = { bindable };

    fn name_number(&self) -> Option<u32> {
        Some(self.name)
    }

    fn is_good(text: &str) -> bool {
        is_identifier(text) && !is_base_name(text)
    }
}

impl Named for Sym {
    ghost use Rattle.pj_image.specs.Names.{sym_number};
    ghost use Rattle.pj_tree.specs.Fits.{SymFits};
    ghost use Rattle.pj_words.specs.Words.{is_identifier};

    ghost number_of = { sym_number };

    ghost in_range = { SymFits };

    ghost good = { is_identifier };

    fn name_number(&self) -> Option<u32> {
        match self {
            Sym::Number(number) => Some(*number),
            Sym::Text(_) => None,
        }
    }

    fn is_good(text: &str) -> bool {
        is_identifier(text)
    }
}

/// The string of a number.
pub fn string_at(strings: &[ShortText], number: u32) -> Option<&ShortText>
    ensures { option_map (λ s. s.now) result ≡ slice_get strings.now number }
{
    at(strings, number as usize)
}

/// The string that a name is.
pub fn text_of<'a>(strings: &'a [ShortText], name: &Sym) -> Option<&'a str>
    ensures is { option_map (λ s. s.now) result ≡ sym_text strings.now name.now }
    ensures range { OnSome result (SymFits name.now) }
{
    match name {
        Sym::Number(number) => {
            let text = string_at(strings, *number)?;
            Some(text.as_str())
        }
        Sym::Text(_) => None,
    }
}

/// Adds a text to those seen.
fn take_text<'a>(text: &'a ShortText, seen: &mut Seen<'a>) -> Result<(), PartFault>
    ensures { Sees result seen.new (Some (seen.old ++ text.now ∷ [])) }
{
    match seen.add(text) {
        Ok(()) => Ok(()),
        Err(NoMemory) => Err(PartFault::NoMemory),
    }
}

/// Adds a name to those seen, where it is a string of the image that passes.
fn take_name<'a, T: Named>(
    strings: &'a [ShortText],
    named: &T,
    seen: &mut Seen<'a>,
) -> Result<(), PartFault>
    ensures is { Sees result seen.new (name_taken T.good strings.now seen.old (T.number_of named.now)) }
    ensures range { OnOk result (T.in_range named.now) }
{
    let Some(number) = named.name_number() else {
        return Err(PartFault::Bad);
    };
    let Some(text) = string_at(strings, number) else {
        return Err(PartFault::Bad);
    };
    if !T::is_good(text.as_str()) {
        return Err(PartFault::Bad);
    }
    take_text(text, seen)
}

/// Adds names to those seen, where each is a string of the image that passes.
fn take_names<'a, T: Named>(
    strings: &'a [ShortText],
    all: &[T],
    seen: &mut Seen<'a>,
) -> Result<(), PartFault>
    ensures is { Sees result seen.new (all_taken T.good strings.now seen.old (map T.number_of all.now)) }
    ensures range { OnOk result (AllByRecursion T.in_range all.now) }
{
    for named in all {
        take_name(strings, named, seen)?;
    }
    Ok(())
}

/// A fault, unless each name from this place on differs from all before it.
fn check_new(alloc: Global, seen: &Seen, start: usize) -> Result<(), PartFault>
    requires { start ≤ length seen.now }
    ensures { Passes result (all_new (take start seen.now) (drop start seen.now)) }
{
    match seen.differ_from(alloc, start) {
        Ok(true) => Ok(()),
        Ok(false) => Err(PartFault::Bad),
        Err(NoMemory) => Err(PartFault::NoMemory),
    }
}

/// Adds names to those seen, where each is a string of the image that passes, and differs from all before it.
pub fn see_names<'a, T: Named>(
    alloc: Global,
    strings: &'a [ShortText],
    all: &[T],
    seen: &mut Seen<'a>,
) -> Result<(), PartFault>
    ensures is { Sees result seen.new (all_seen T.good strings.now seen.old (map T.number_of all.now)) }
    ensures range { OnOk result (AllByRecursion T.in_range all.now) }
{
    let start = seen.len();
    seen.reserve(all.len())?;
    take_names(strings, all, seen)?;
    check_new(alloc, seen, start)
}
