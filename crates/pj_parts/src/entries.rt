//! What the mentions name.

ghost use Rattle.std.specs.Prelude.{◌≡◌, ◌++◌, OnOk, length};
ghost use Rattle.pj_parts.specs.Capped.{capped};
ghost use Rattle.pj_parts.specs.Given.{Gives};

use crate::fault::PartFault;
use crate::part::Part;
use pj_base::{ByteList, KindTag, NoMemory};
use pj_fields::put_number;
use pj_reloc::Entry;
use std::alloc::Global;

impl Part for KindTag {
    ghost use Rattle.std.specs.Prelude.{⊤};
    ghost use Rattle.pj_parts.specs.Reading.{kind_at};
    ghost use Rattle.pj_parts.specs.Spelling.{kind};

    ghost bytes = { kind };

    ghost fits = { λ k. ⊤ };

    ghost at = { kind_at };

    fn put(&self, _alloc: Global, out: &mut ByteList) -> Result<(), NoMemory> {
        put_number(self.number(), out)
    }

    #[tactic(auto, unfolding(crate::specs::Reading::kind_at))]
    fn take(alloc: Global, source: &[u8]) -> Result<(KindTag, &[u8]), PartFault> {
        let (number, rest) = u32::take(alloc, source)?;
        match KindTag::of_number(number) {
            Some(kind) => Ok((kind, rest)),
            None => Err(PartFault::Bad),
        }
    }

    #[tactic(auto, using(crate::proofs::Sizes::sizes))]
    fn size(&self) -> u64 {
        4
    }
}

impl Part for Entry {
    ghost use Rattle.pj_parts.specs.Fits.{EntryFits};
    ghost use Rattle.pj_parts.specs.Reading.{entry_at};
    ghost use Rattle.pj_parts.specs.Spelling.{entry};

    ghost bytes = { entry };

    ghost fits = { EntryFits };

    ghost at = { entry_at };

    #[tactic(auto, using(crate::proofs::Joined::joined))]
    fn put(&self, alloc: Global, out: &mut ByteList) -> Result<(), NoMemory> {
        self.place.put(alloc, out)?;
        self.kind.put(alloc, out)?;
        self.dependency.put(alloc, out)?;
        self.ordinal.put(alloc, out)
    }

    #[tactic(auto, unfolding(crate::specs::Reading::entry_at))]
    fn take(alloc: Global, source: &[u8]) -> Result<(Entry, &[u8]), PartFault> {
        let (place, rest) = u32::take(alloc, source)?;
        let (kind, rest) = KindTag::take(alloc, rest)?;
        let (dependency, rest) = u32::take(alloc, rest)?;
        let (ordinal, rest) = u32::take(alloc, rest)?;
        let entry = Entry {
            place,
            kind,
            dependency,
            ordinal,
        };
        Ok((entry, rest))
    }

    #[tactic(auto, using(crate::proofs::Sizes::sizes))]
    fn size(&self) -> u64 {
        16
    }
}
