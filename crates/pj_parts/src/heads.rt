//! The head of an image: the package's name, and its dependencies.

ghost use Rattle.std.specs.Prelude.{◌≡◌, ◌++◌, OnOk, length};
ghost use Rattle.pj_parts.specs.Capped.{capped};
ghost use Rattle.pj_parts.specs.Given.{Gives};

use crate::fault::PartFault;
use crate::part::Part;
use crate::short_text::ShortText;
use crate::types::{Dependency, Head};
use pj_base::{ByteList, NoMemory};
use sqlite_items::Items;
use std::alloc::Global;

impl Part for Dependency {
    ghost use Rattle.pj_parts.specs.Fits.{DependencyFits};
    ghost use Rattle.pj_parts.specs.Reading.{nothing_at};
    ghost use Rattle.pj_parts.specs.Spelling.{dependency};

    ghost bytes = { dependency };

    ghost fits = { DependencyFits };

    ghost at = { nothing_at };

    #[tactic(auto, using(crate::proofs::Joined::joined))]
    fn put(&self, alloc: Global, out: &mut ByteList) -> Result<(), NoMemory> {
        self.name.put(alloc, out)?;
        out.extend(&self.identity)
    }

    #[tactic(auto, unfolding(crate::specs::Reading::nothing_at))]
    fn take(_alloc: Global, _source: &[u8]) -> Result<(Dependency, &[u8]), PartFault> {
        Err(PartFault::Bad)
    }

    #[tactic(auto, using(crate::proofs::Sizes::sizes))]
    fn size(&self) -> u64 {
        self.name.size().saturating_add(32)
    }
}

impl Part for Head {
    ghost use Rattle.pj_parts.specs.Fits.{HeadFits};
    ghost use Rattle.pj_parts.specs.Reading.{head_at};
    ghost use Rattle.pj_parts.specs.Spelling.{head};

    ghost bytes = { head };

    ghost fits = { HeadFits };

    ghost at = { head_at };

    #[tactic(auto, using(crate::proofs::Joined::joined, crate::proofs::NoneYet::no_dependencies))]
    fn put(&self, alloc: Global, out: &mut ByteList) -> Result<(), NoMemory> {
        self.name.put(alloc, out)?;
        self.dependencies.put(alloc, out)
    }

    #[tactic(auto, unfolding(crate::specs::Reading::head_at))]
    fn take(alloc: Global, source: &[u8]) -> Result<(Head, &[u8]), PartFault> {
        let (name, rest) = ShortText::take(alloc, source)?;
        let (dependencies, rest) = Items::take(alloc, rest)?;
        Ok((Head { name, dependencies }, rest))
    }

    #[tactic(auto, using(crate::proofs::Sizes::sizes))]
    fn size(&self) -> u64 {
        self.name.size().saturating_add(self.dependencies.size())
    }
}
