//! A session: what was added to Base, and what was printed.

ghost use Rattle.std.specs.Prelude.{◌≡◌, [], is_some, IfOk};
ghost use Rattle.pj_meaning.specs.Names.{main_name};
ghost use Rattle.pj_session.specs.Places.{image_number};
ghost use Rattle.pj_session.specs.Seen.{events_of};
ghost use Rattle.pj_session.specs.Things.{has_package, image_in};

use crate::state::{Session, Tables};
use pj_base::{ByteList, NoMemory, Text};
use std::alloc::Global;

impl Session {
    /// A session of this module, over Base alone.
    fn over_base(alloc: Global, here: &str) -> Result<Session, NoMemory>
        ensures here { IfOk result (λ s. s.here ≡ here.now) }
        ensures events { IfOk result (λ s. events_of s ≡ []) }
        ensures printed { IfOk result (λ s. s.printed ≡ []) }
    {
        Ok(Session {
            here: Text::from_str(alloc, here)?,
            tables: Tables::new(alloc),
            printed: ByteList::new(alloc),
            spent: false,
        })
    }

    /// A session of a script, over Base alone.
    pub fn new(alloc: Global) -> Result<Session, NoMemory>
        ensures here { IfOk result (λ s. s.here ≡ main_name) }
        ensures events { IfOk result (λ s. events_of s ≡ []) }
        ensures printed { IfOk result (λ s. s.printed ≡ []) }
    {
        Session::over_base(alloc, "Main")
    }

    /// A session in which a package of this name is built, over Base alone.
    pub fn for_pack(alloc: Global, name: &str) -> Result<Session, NoMemory>
        ensures here { IfOk result (λ s. s.here ≡ name.now) }
        ensures events { IfOk result (λ s. events_of s ≡ []) }
        ensures printed { IfOk result (λ s. s.printed ≡ []) }
    {
        Session::over_base(alloc, name)
    }

    /// What was added to Base.
    pub fn tables(&self) -> &Tables
        ensures { result.now ≡ self.now.tables }
    {
        &self.tables
    }

    /// The number of the image of this name: images are counted from 1, in the order in which they were loaded. Base isn't an
    /// image, so it isn't found.
    pub fn loaded(&self, name: &str) -> Option<u32>
        ensures number { result ≡ image_number (events_of self.now) name.now }
        ensures there { is_some result ≡ is_some (image_in (events_of self.now) name.now) }
    {
        let at = self.tables.packages.find(name)?;
        Some(at.0 as u32 + 1)
    }

    /// Whether a module is there: Base, the one that runs, or an image's.
    #[tactic(auto, using(crate::proofs::Ordered::is_found))]
    pub fn has_package(&self, home: &str) -> bool
        ensures { result ≡ has_package self.now.here (events_of self.now) home.now }
    {
        home == "Base" || home == self.here.as_str() || self.tables.package(home).is_some()
    }

    /// What was printed and not yet taken away.
    pub fn printed(&self) -> &[u8]
        ensures { result.now ≡ self.now.printed }
    {
        self.printed.as_slice()
    }

    /// Takes what was printed away.
    pub fn clear_printed(&mut self, alloc: Global)
        ensures printed { self.new.printed ≡ [] }
        ensures events { events_of self.new ≡ events_of self.old }
        ensures here { self.new.here ≡ self.old.here }
        ensures spent { self.new.spent ≡ self.old.spent }
    {
        self.printed = ByteList::new(alloc);
    }
}
