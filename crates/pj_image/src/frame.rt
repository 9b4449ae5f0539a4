//! Sections: their numbers, how many bytes they have, and these.

ghost use Rattle.std.specs.Prelude.{◌≡◌, ◌++◌, ◌<◌, ◌^◌, OnOk, length};
ghost use Rattle.pj_image.specs.Found.{Finds, or_fault, checked};
ghost use Rattle.pj_image.specs.Frames.{section, alone, sized, framed};
ghost use Rattle.pj_parts.specs.Given.{Gives};

use crate::fault::DecodeFault;
use pj_base::{ByteList, NoMemory};
use pj_fields::put_number;
use pj_parts::{Part, PartFault};
use std::alloc::Global;

/// The part that the bytes are, to their end.
fn take_alone<T: Part>(alloc: Global, bytes: &[u8]) -> Result<T, PartFault>
    ensures { Gives (λ x. x) result (alone (T.at bytes.now)) }
{
    let (part, rest) = T::take(alloc, bytes)?;
    if rest.is_empty() {
        Ok(part)
    } else {
        Err(PartFault::Bad)
    }
}

/// The part that the first `size` bytes are, and the bytes behind them, where `found` is the asked number.
fn take_sized<T: Part>(
    alloc: Global,
    asked: u32,
    found: u32,
    size: u32,
    bytes: &[u8],
) -> Result<(T, &[u8]), PartFault>
    ensures { Gives (λ x. (x.0, x.1.now)) result (sized asked T.at found size bytes.now) }
{
    let size = size as usize;
    if found != asked || size > bytes.len() {
        return Err(PartFault::Bad);
    }
    let (payload, rest) = bytes.split_at(size);
    let part = take_alone(alloc, payload)?;
    Ok((part, rest))
}

#[tactic(auto, unfolding(crate::specs::Frames::framed))]
fn take_framed<T: Part>(alloc: Global, asked: u32, bytes: &[u8]) -> Result<(T, &[u8]), PartFault>
    ensures { Gives (λ x. (x.0, x.1.now)) result (framed asked T.at bytes.now) }
{
    let (found, rest) = u32::take(alloc, bytes)?;
    let (size, rest) = u32::take(alloc, rest)?;
    take_sized(alloc, asked, found, size, rest)
}

/// The section with the asked number at the front, and the bytes after it.
pub fn take_section<T: Part>(
    alloc: Global,
    asked: u32,
    bytes: &[u8],
) -> Result<(T, &[u8]), DecodeFault>
    ensures { Finds (λ x. (x.0, x.1.now)) result (or_fault asked (framed asked T.at bytes.now)) }
{
    match take_framed(alloc, asked, bytes) {
        Ok(found) => Ok(found),
        Err(PartFault::Bad) => Err(DecodeFault::Format { section: asked }),
        Err(PartFault::NoMemory) => Err(DecodeFault::NoMemory),
    }
}

/// A fault of the section, unless the test holds.
pub fn check(asked: u32, test: bool) -> Result<(), DecodeFault>
    ensures { Finds (λ x. tt) result (checked asked test) }
{
    if test {
        Ok(())
    } else {
        Err(DecodeFault::Format { section: asked })
    }
}

/// Adds a section: its number, how many bytes its part has, and these.
#[tactic(auto, using(crate::proofs::Joined::joined))]
pub fn put_section<T: Part>(
    alloc: Global,
    asked: u32,
    part: &T,
    out: &mut ByteList,
) -> Result<(), NoMemory>
    requires fits { T.fits part.now }
    requires short { length (T.bytes part.now) < 2 ^ 32 }
    ensures { OnOk result (out.new ≡ out.old ++ section asked (T.bytes part.now)) }
{
    let mut payload = ByteList::new(alloc);
    part.put(alloc, &mut payload)?;
    put_number(asked, out)?;
    put_number(payload.len() as u32, out)?;
    out.extend(payload.as_slice())
}
