//! Loading an image.

ghost use Rattle.std.specs.Prelude.{◌≡◌, ◌≤◌, ◌∷◌, [], ◌++◌, Ok, None, true, IfOk, IfErr, IsErrOf, OnOk, OnErr, length};
ghost use Rattle.pj_image.specs.File.{file_at};
ghost use Rattle.pj_image.specs.Formed.{Formed, IsFileOf};
ghost use Rattle.pj_content.specs.Misfit.{misfit as image_misfit};
ghost use Rattle.pj_content.specs.Readings.{identity_in};
ghost use Rattle.pj_session.specs.Events.{Loads};
ghost use Rattle.pj_session.specs.Uses.{builds, counts_loaded, no_room};
ghost use Rattle.pj_session.specs.FromFiles.{held_of, why_refused};
ghost use Rattle.pj_session.specs.Seen.{events_of};
ghost use Rattle.pj_session.specs.Loading.{Added, Reads, Refuses, Tells};
ghost use Rattle.pj_session.specs.declared.load.LoadFault.{LoadFault};

use crate::index::method_list;
use crate::name_places::place_slots;
use crate::package::Package;
use crate::state::Session;
use pj_base::NoMemory;
use pj_content::misfit;
use pj_image::{DecodeFault, Image, decode};
use std::alloc::Global;

/// Why an image isn't loaded.
#[derive(Clone, Copy, Debug, PartialEq, Eq)]
pub enum LoadFault {
    /// The first section of the file that is at fault: 0 is what stands before the sections, 13 the identity.
    Format { section: u32 },
    /// An image of the name is loaded, or the package is the one that is built.
    Loaded,
    /// The first entry that is refused.
    Relocation { entry: u32 },
    /// No more images can be loaded.
    Full,
    /// There was no memory.
    NoMemory,
}

/// The image of this name whose file the bytes are.
fn read(alloc: Global, name: &str, bytes: &[u8]) -> Result<Image, LoadFault>
    ensures found { IfOk result (λ i. file_at name.now bytes.now ≡ Ok i) }
    ensures fits { IfOk result (λ i. IsFileOf name.now bytes.now i) }
    ensures bad { IfErr result (λ fault. Reads name.now bytes.now fault) }
{
    match decode(alloc, bytes, name) {
        Ok(image) => Ok(image),
        Err(DecodeFault::Format { section }) => Err(LoadFault::Format { section }),
        Err(DecodeFault::NoMemory) => Err(LoadFault::NoMemory),
    }
}

/// The identity that stands at the end of a file.
fn identity(bytes: &[u8]) -> [u8; 32]
    requires { 32 ≤ length bytes.now }
    ensures { result ≡ identity_in bytes.now }
{
    let (_, last) = bytes.split_at(bytes.len() - 32);
    let mut identity = [0; 32];
    identity.copy_from_slice(last);
    identity
}

/// An image with what is noted of it.
#[tactic(auto, using(crate::proofs::FirstPlaces::few_names))]
fn indexed(alloc: Global, image: Image, identity: [u8; 32]) -> Result<Package, NoMemory>
    requires formed { Formed image }
    requires fits { image_misfit image ≡ None }
    ensures image { IfOk result (λ p. p.image ≡ image) }
    ensures identity { IfOk result (λ p. p.identity ≡ identity) }
{
    let places = place_slots(alloc, &image)?;
    let methods = method_list(alloc, &image)?;
    Ok(Package {
        image,
        identity,
        places,
        methods,
    })
}

impl Session {
    /// Whether the module that runs is a package that is built.
    fn builds(&self) -> bool
        ensures { result ≡ builds self.now.here }
    {
        self.here.as_str() != "Main"
    }

    /// Whether an image of this name is loaded. A package that is built counts as loaded.
    pub(crate) fn counts_loaded(&self, name: &str) -> bool
        ensures { result ≡ counts_loaded self.now.here (events_of self.now) name.now }
    {
        self.tables.package(name).is_some() || (self.builds() && self.here.as_str() == name)
    }

    /// Whether no more images can be loaded. A package that is built counts as one of the 1,024.
    fn has_no_room(&self) -> bool
        ensures { result ≡ no_room self.now.here (events_of self.now) }
    {
        if self.builds() {
            self.tables.images.len() >= 1023
        } else {
            self.tables.images.len() >= 1024
        }
    }

    /// Whether an image of this name may be loaded.
    fn judge(&self, alloc: Global, name: &str, image: &Image) -> Result<(), LoadFault>
        ensures fine { OnOk result (why_refused self.now.here (events_of self.now) name.now (image_misfit image.now) ≡ None) }
        ensures bad { IfErr result (λ fault. Tells fault (why_refused self.now.here (events_of self.now) name.now (image_misfit image.now))) }
    {
        if self.counts_loaded(name) {
            return Err(LoadFault::Loaded);
        }
        match misfit(alloc, image) {
            Ok(None) => {}
            Ok(Some(entry)) => return Err(LoadFault::Relocation { entry }),
            Err(_) => return Err(LoadFault::NoMemory),
        }
        if self.has_no_room() {
            return Err(LoadFault::Full);
        }
        Ok(())
    }

    /// Adds the image of a file, which isn't refused. Without memory nothing changes.
    fn add_file(
        &mut self,
        alloc: Global,
        name: &str,
        bytes: &[u8],
        image: Image,
    ) -> Result<(), NoMemory>
        requires file { IsFileOf name.now bytes.now image }
        requires fine { why_refused self.old.here (events_of self.old) name.now (image_misfit image) ≡ None }
        ensures added { OnOk result (events_of self.new ≡ events_of self.old ++ Loads (held_of bytes.now image) ∷ []) }
        ensures unchanged { OnErr result (events_of self.new ≡ events_of self.old) }
        ensures here { self.new.here ≡ self.old.here }
        ensures printed { self.new.printed ≡ self.old.printed }
        ensures spent { self.new.spent ≡ self.old.spent }
    {
        let package = indexed(alloc, image, identity(bytes))?;
        self.tables.add_image(alloc, name, package)
    }

    /// Loads the image of this name whose file the bytes are, and answers how many images are loaded then. After an
    /// error nothing has changed. A session that ran out of memory has none here either.
    pub fn load(&mut self, alloc: Global, name: &str, bytes: Vec<u8>) -> Result<u32, LoadFault>
        requires { length bytes.items ≤ 67108864 }
        ensures loaded { IfOk result (λ count. Added self.old name.now bytes.items count self.new) }
        ensures refused { IfErr result (λ fault. Refuses self.old name.now bytes.items fault) }
        ensures unchanged { OnErr result (events_of self.new ≡ events_of self.old) }
        ensures here { self.new.here ≡ self.old.here }
        ensures printed { self.new.printed ≡ self.old.printed }
        ensures spent { self.new.spent ≡ self.old.spent }
        ensures none_left { self.old.spent ≡ true → IsErrOf result LoadFault.NoMemory }
    {
        if self.spent {
            return Err(LoadFault::NoMemory);
        }
        let file = bytes.as_slice();
        let image = read(alloc, name, file)?;
        self.judge(alloc, name, &image)?;
        match self.add_file(alloc, name, file, image) {
            Ok(()) => Ok(self.tables.images.len() as u32),
            Err(_) => Err(LoadFault::NoMemory),
        }
    }
}
