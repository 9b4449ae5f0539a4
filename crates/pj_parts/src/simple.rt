//! Numbers and texts.

ghost use Rattle.std.specs.Prelude.{◌≡◌, ◌++◌, OnOk, length, option_map, if◌then◌else◌};
ghost use Rattle.std.specs.Str.{is_utf8};
ghost use Rattle.pj_parts.specs.Capped.{capped};
ghost use Rattle.pj_parts.specs.Given.{Gives, Copies};
ghost use Rattle.pj_parts.specs.Reading.{string_at};
ghost use Rattle.pj_parts.specs.Spelling.{text};

use crate::fault::PartFault;
use crate::part::Part;
use crate::short_text::ShortText;
use pj_base::{ByteList, NoMemory};
use pj_fields::{put_number, take_number};
use std::alloc::Global;
use std::str;

impl Part for u32 {
    ghost use Rattle.std.specs.Prelude.{◌^◌, ◌<◌};
    ghost use Rattle.pj_fields.specs.Fields.{number, number_at};

    ghost bytes = { number };

    ghost fits = { λ n. n < 2 ^ 32 };

    ghost at = { number_at };

    fn put(&self, _alloc: Global, out: &mut ByteList) -> Result<(), NoMemory> {
        put_number(*self, out)
    }

    fn take(_alloc: Global, source: &[u8]) -> Result<(u32, &[u8]), PartFault> {
        match take_number(source) {
            Some(found) => Ok(found),
            None => Err(PartFault::Bad),
        }
    }

    #[tactic(auto, using(crate::proofs::Sizes::sizes))]
    fn size(&self) -> u64 {
        4
    }
}

impl Part for ShortText {
    ghost use Rattle.pj_parts.specs.Fits.{TextFits};
    ghost use Rattle.pj_parts.specs.Reading.{text_at};
    ghost use Rattle.pj_parts.specs.Spelling.{text};

    ghost bytes = { text };

    ghost fits = { TextFits };

    ghost at = { text_at };

    fn put(&self, _alloc: Global, out: &mut ByteList) -> Result<(), NoMemory> {
        let bytes = self.as_str().as_bytes();
        put_number(bytes.len() as u32, out)?;
        out.extend(bytes)
    }

    #[tactic(auto, unfolding(crate::specs::Reading::text_at))]
    fn take(alloc: Global, source: &[u8]) -> Result<(ShortText, &[u8]), PartFault> {
        let (count, rest) = u32::take(alloc, source)?;
        string(alloc, count as usize, rest)
    }

    #[tactic(auto, using(crate::proofs::Sizes::sizes))]
    fn size(&self) -> u64 {
        (self.as_str().len() as u64).saturating_add(4)
    }
}

/// Bytes as a text, where they are UTF-8.
#[tactic(auto, using(crate::proofs::Texts::texts))]
fn utf8(bytes: &[u8]) -> Option<&str>
    ensures { option_map (λ s. s.now) result ≡ (if is_utf8 bytes.now then Some bytes.now else None) }
{
    match str::from_utf8(bytes) {
        Ok(found) => Some(found),
        Err(_) => None,
    }
}

/// So many bytes as a text, and the bytes after them.
fn string(alloc: Global, count: usize, source: &[u8]) -> Result<(ShortText, &[u8]), PartFault>
    ensures { Gives (λ x. (x.0, x.1.now)) result (string_at count source.now) }
{
    if source.len() < count {
        return Err(PartFault::Bad);
    }
    let (front, rest) = source.split_at(count);
    match utf8(front) {
        Some(found) => Ok((copied(alloc, found)?, rest)),
        None => Err(PartFault::Bad),
    }
}

/// A copy of a text.
fn copied(alloc: Global, found: &str) -> Result<ShortText, PartFault>
    ensures { Copies result found.now }
{
    match ShortText::from_str(alloc, found) {
        Ok(copy) => Ok(copy),
        Err(NoMemory) => Err(PartFault::NoMemory),
    }
}
