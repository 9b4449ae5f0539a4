//! Lists of parts.

ghost use Rattle.std.specs.Prelude.{◌≡◌, ◌++◌, ◌<◌, ◌^◌, ℕ, OnOk, length};
ghost use Rattle.std.specs.List.{AllByRecursion};
ghost use Rattle.pj_fields.specs.Fields.{number, number_at, list, list_at, many};
ghost use Rattle.pj_parts.specs.Capped.{capped};
ghost use Rattle.pj_parts.specs.Given.{Gives};

use crate::fault::PartFault;
use crate::part::Part;
use pj_base::{ByteList, NoMemory};
use pj_fields::put_number;
use pj_tree::with_room;
use sqlite_items::Items;
use std::alloc::Global;

/// How many there are, and each of them.
#[tactic(auto, unfolding(pj_fields::specs::Fields::list))]
fn put_list<T: Part>(alloc: Global, all: &[T], out: &mut ByteList) -> Result<(), NoMemory>
    requires few { length all.now < 2 ^ 32 }
    requires fit { AllByRecursion T.fits all.now }
    ensures { OnOk result (out.new ≡ out.old ++ list T.bytes all.now) }
{
    put_number(all.len() as u32, out)?;
    for part in all {
        part.put(alloc, out)?;
    }
    Ok(())
}

/// So many, one after another, and the bytes after them. Each has at least four bytes, so that a wrong number gets no more room
/// than the bytes could fill.
fn take_many<T: Part>(
    alloc: Global,
    count: u32,
    source: &[u8],
) -> Result<(Items<T>, &[u8]), PartFault>
    ensures { Gives (λ x. (x.0, x.1.now)) result (many T.at count source.now) }
{
    let mut found = with_room(alloc, (count as usize).min(source.len() / 4));
    let mut rest = source;
    for _turn in 0..count {
        let (member, after) = T::take(alloc, rest)?;
        found.push(member)?;
        rest = after;
    }
    Ok((found, rest))
}

/// How many there are and each of them, and the bytes after them.
#[tactic(auto, unfolding(pj_fields::specs::Fields::list_at))]
fn take_list<T: Part>(alloc: Global, source: &[u8]) -> Result<(Items<T>, &[u8]), PartFault>
    ensures { Gives (λ x. (x.0, x.1.now)) result (list_at T.at source.now) }
{
    let (count, rest) = u32::take(alloc, source)?;
    take_many(alloc, count, rest)
}

/// How many bytes a list has, or the greatest u64 where that is less.
#[tactic(auto, using(crate::proofs::Sizes::sizes))]
fn size_list<T: Part>(all: &[T]) -> u64
    ensures { result ≡ capped (length (list T.bytes all.now)) }
{
    let mut total: u64 = 4;
    for part in all {
        total = total.saturating_add(part.size());
    }
    total
}

impl<T: Part> Part for Items<T> {
    ghost use Rattle.pj_fields.specs.Fields.{list, list_at};
    ghost use Rattle.pj_parts.specs.Fits.{ListFits};

    ghost bytes = { list T.bytes };

    ghost fits = { ListFits T.fits };

    ghost at = { list_at T.at };

    fn put(&self, alloc: Global, out: &mut ByteList) -> Result<(), NoMemory> {
        put_list(alloc, self.as_slice(), out)
    }

    fn take(alloc: Global, source: &[u8]) -> Result<(Items<T>, &[u8]), PartFault> {
        take_list(alloc, source)
    }

    fn size(&self) -> u64 {
        size_list(self.as_slice())
    }
}
