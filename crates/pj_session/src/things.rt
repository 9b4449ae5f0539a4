//! What a name of any module is.

ghost use Rattle.std.specs.Prelude.{◌≡◌, option_map};
ghost use Rattle.pj_session.specs.Lent.{thing_seen};
ghost use Rattle.pj_session.specs.Merged.{package_content};
ghost use Rattle.pj_session.specs.Seen.{events_of};
ghost use Rattle.pj_session.specs.Things.{thing_in, thing_of};

use crate::index::image_thing;
use crate::package::Package;
use crate::state::Session;
use crate::thing::Thing;

impl Package {
    /// What a name of the image is, or none where the image doesn't bind it.
    pub fn thing(&self, name: &str) -> Option<Thing<'_>>
        ensures { option_map thing_seen result ≡ thing_of (package_content self.now) name.now }
    {
        image_thing(
            &self.image,
            self.places.as_slice(),
            self.methods.as_slice(),
            name,
        )
    }
}

impl Session {
    /// What a name of a module other than Base is, or none where the module isn't there or doesn't bind it.
    pub fn thing(&self, home: &str, name: &str) -> Option<Thing<'_>>
        ensures { option_map thing_seen result ≡ thing_in self.now.here (events_of self.now) home.now name.now }
    {
        if self.here.as_str() == home {
            return self.tables.own(name);
        }
        let package = self.tables.package(home)?;
        package.thing(name)
    }
}
