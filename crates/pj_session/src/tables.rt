//! What was added to Base, by name.

ghost use Rattle.std.specs.Prelude.{◌≡◌, ◌<◌, [], ◌∷◌, ◌++◌, None, option_map, OnOk, OnErr};
ghost use Rattle.std.specs.Option.{option_copied};
ghost use Rattle.pj_session.specs.Events.{Loads};
ghost use Rattle.pj_session.specs.Lent.{thing_seen};
ghost use Rattle.pj_session.specs.Merged.{held_of, image_name, own_event, package_content};
ghost use Rattle.pj_session.specs.Seen.{events_in};
ghost use Rattle.pj_session.specs.Things.{image_in, own_in};
ghost use Rattle.pj_session.specs.Uses.{image_count};

use crate::own::{Kind, Own};
use crate::package::Package;
use crate::state::Tables;
use crate::thing::Thing;
use pj_base::{Names, NoMemory};
use sqlite_items::at as item_at;
use std::alloc::Global;

impl Tables {
    /// Nothing was added.
    pub fn new(alloc: Global) -> Tables
        ensures { events_in result ≡ [] }
    {
        Tables {
            own: Names::new(alloc),
            things: Vec::new(alloc),
            packages: Names::new(alloc),
            images: Vec::new(alloc),
            order: Vec::new(alloc),
        }
    }

    /// What a name of the module that runs is.
    pub fn own(&self, name: &str) -> Option<Thing<'_>>
        ensures { option_map thing_seen result ≡ own_in (events_in self.now) name.now }
    {
        let at = self.own.find(name)?;
        let own = item_at(self.things.as_slice(), at.0 as usize)?;
        Some(own.thing())
    }

    /// The image of a package.
    pub fn package(&self, name: &str) -> Option<&Package>
        ensures { option_map package_content (option_copied result) ≡ image_in (events_in self.now) name.now }
    {
        let at = self.packages.find(name)?;
        item_at(self.images.as_slice(), at.0 as usize)
    }

    /// Adds a thing of a new name to the module that runs. Without memory nothing changes.
    pub fn add_own(&mut self, alloc: Global, name: &str, thing: Own) -> Result<(), NoMemory>
        requires new { own_in (events_in self.old) name.now ≡ None }
        ensures added { OnOk result (events_in self.new ≡ events_in self.old ++ own_event name.now thing ∷ []) }
        ensures unchanged { OnErr result (events_in self.new ≡ events_in self.old) }
    {
        self.things.reserve(1)?;
        self.order.reserve(1)?;
        self.own.intern(alloc, name)?;
        self.things.push(thing).unwrap();
        self.order.push(Kind::Own).unwrap();
        Ok(())
    }

    /// Adds an image of a new name, where there is room for one more. Without memory nothing changes.
    pub fn add_image(&mut self, alloc: Global, name: &str, loaded: Package) -> Result<(), NoMemory>
        requires new { image_in (events_in self.old) name.now ≡ None }
        requires called { image_name loaded ≡ name.now }
        requires room { image_count (events_in self.old) < 1024 }
        ensures added { OnOk result (events_in self.new ≡ events_in self.old ++ Loads (held_of loaded) ∷ []) }
        ensures unchanged { OnErr result (events_in self.new ≡ events_in self.old) }
    {
        self.images.reserve(1)?;
        self.order.reserve(1)?;
        self.packages.intern(alloc, name)?;
        self.images.push(loaded).unwrap();
        self.order.push(Kind::Image).unwrap();
        Ok(())
    }
}
