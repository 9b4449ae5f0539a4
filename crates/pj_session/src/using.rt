//! `using` of a package over a depot of files.

ghost use Rattle.std.specs.Prelude.{◌≡◌, ◌≤◌, false, true, IfErr, IfOk, IfSome, OnErr, OnOk, length};
ghost use Rattle.std.specs.Str.{bytes_eq};
ghost use Rattle.pj_meaning.specs.Names.{base_name};
ghost use Rattle.pj_meaning.specs.Tree.{Text};
ghost use Rattle.pj_meaning.specs.Using.{image_file as file_name, start_image, use_from};
ghost use Rattle.pj_outside.specs.Stored.{Keeps};
ghost use Rattle.pj_content.specs.Readings.{readings};
ghost use Rattle.pj_session.specs.Fetching.{Fetched, Gained, Unloaded};
ghost use Rattle.pj_session.specs.Good.{Good};
ghost use Rattle.pj_session.specs.OwnItems.{known_in};
ghost use Rattle.pj_session.specs.Seen.{events_of, state_seen};
ghost use Rattle.pj_session.specs.States.{run};
ghost use Rattle.pj_session.specs.Uses.{counts_loaded};
ghost use Rattle.pj_session.specs.Using.{IfDepotFailed, Proper, SpentBehind, UsesAs, UsingCause, lacks_memory};

use crate::end::End;
use crate::load::LoadFault;
use crate::state::Session;
use pj_base::{NoMemory, Text};
use pj_outside::{Depot, ReadAnswer};
use std::alloc::Global;

/// Why `using` a package ended before its end.
#[derive(Drop)]
pub enum UsingFault {
    /// The start of the image ended so. It is never for want of memory.
    Ended(End),
    /// The image in this file was refused. It is never for want of memory, nor because an image of the name is loaded.
    Refused { file: Text, fault: LoadFault },
    /// There is no file of this name.
    Missing { file: Text },
    /// This file has more bytes than an image may have.
    TooLong { file: Text },
    /// The depot failed at this file.
    DepotFailed { file: Text },
    /// There was no memory.
    NoMemory,
}

/// Whether there was no memory.
fn ran_out(answer: &Result<(), UsingFault>) -> bool
    ensures { result ≡ lacks_memory answer.now }
{
    matches!(answer, Err(UsingFault::NoMemory))
}

/// A file of a package's image, by its name, and its bytes.
#[derive(Drop)]
struct ImageFile {
    file: Text,
    bytes: Vec<u8>,
}

/// The name of the file of a package's image.
fn image_file(alloc: Global, name: &str) -> Result<Text, NoMemory>
    ensures { IfOk result (λ file. file ≡ file_name name.now) }
{
    let mut text = String::from_str(alloc, name)?;
    text.push_str(".pimg")?;
    Ok(Text::from_str(alloc, text.as_str())?)
}

/// Reads the file of this name, which is that of a package's image. No file changes.
fn read_file<D: Depot>(
    alloc: Global,
    name: &str,
    file: Text,
    depot: &mut D,
) -> Result<ImageFile, UsingFault>
    requires { file ≡ file_name name.now }
    ensures fetched { IfSome (D.files depot.old) (λ files. Fetched files name.now result) }
    ensures bound { IfOk result (λ found. length found.bytes.items ≤ 67108864) }
    ensures file { IfOk result (λ found. found.file ≡ file_name name.now) }
    ensures same { IfSome (D.files depot.old) (λ files. Keeps files (D.files depot.new)) }
    ensures depot { UsingCause name.now (D.faults depot.old) (D.faults depot.new) result }
    ensures proper { Proper result }
{
    match depot.read(alloc, file.as_str(), 67_108_864) {
        ReadAnswer::Bytes(bytes) => Ok(ImageFile { file, bytes }),
        ReadAnswer::Absent => Err(UsingFault::Missing { file }),
        ReadAnswer::TooLong => Err(UsingFault::TooLong { file }),
        ReadAnswer::Failed => Err(UsingFault::DepotFailed { file }),
        ReadAnswer::NoMemory => Err(UsingFault::NoMemory),
    }
}

/// Reads the file of a package's image. No file changes.
fn fetch<D: Depot>(alloc: Global, name: &str, depot: &mut D) -> Result<ImageFile, UsingFault>
    ensures fetched { IfSome (D.files depot.old) (λ files. Fetched files name.now result) }
    ensures bound { IfOk result (λ found. length found.bytes.items ≤ 67108864) }
    ensures file { IfOk result (λ found. found.file ≡ file_name name.now) }
    ensures same { IfSome (D.files depot.old) (λ files. Keeps files (D.files depot.new)) }
    ensures depot { UsingCause name.now (D.faults depot.old) (D.faults depot.new) result }
    ensures proper { Proper result }
{
    match image_file(alloc, name) {
        Ok(file) => read_file(alloc, name, file, depot),
        Err(_) => Err(UsingFault::NoMemory),
    }
}

impl Session {
    /// Loads the image of this name from its file, where none is loaded. After an error nothing has changed.
    fn gain(&mut self, alloc: Global, name: &str, found: ImageFile) -> Result<(), UsingFault>
        requires free { counts_loaded self.old.here (events_of self.old) name.now ≡ false }
        requires file { found.file ≡ file_name name.now }
        requires bound { length found.bytes.items ≤ 67108864 }
        ensures gained { OnOk result (Gained self.old name.now found.bytes.items self.new) }
        ensures refused { IfErr result (λ fault. Unloaded self.old name.now found.bytes.items fault) }
        ensures unchanged { OnErr result (events_of self.new ≡ events_of self.old) }
        ensures here { self.new.here ≡ self.old.here }
        ensures printed { self.new.printed ≡ self.old.printed }
        ensures spent { self.new.spent ≡ self.old.spent }
        ensures proper { Proper result }
    {
        match self.load(alloc, name, found.bytes) {
            Ok(_) => Ok(()),
            Err(LoadFault::NoMemory) => Err(UsingFault::NoMemory),
            Err(fault) => Err(UsingFault::Refused {
                file: found.file,
                fault,
            }),
        }
    }

    /// Starts the image of this name, which isn't Base's.
    fn start_gained(&mut self, alloc: Global, name: &str, left: &mut u64) -> Result<(), UsingFault>
        ensures uses { bytes_eq base_name name.now ≡ false → Good self.old.here (events_of self.old) → UsesAs (start_image name.now (run (state_seen self.old) left.old)) result (state_seen self.old) (state_seen self.new) left.new }
        ensures read { IfDepotFailed result (λ file. ⊥) }
        ensures events { events_of self.new ≡ events_of self.old }
        ensures here { self.new.here ≡ self.old.here }
        ensures printed { self.new.printed ≡ self.old.printed }
        ensures proper { Proper result }
    {
        match self.start(alloc, name, left) {
            Ok(()) => Ok(()),
            Err(End::NoMemory) => Err(UsingFault::NoMemory),
            Err(end) => Err(UsingFault::Ended(end)),
        }
    }

    /// Loads the image of a package from its file, if none of the name is loaded, and starts it, in a session that isn't
    /// spent. No file changes.
    fn use_package<D: Depot>(
        &mut self,
        alloc: Global,
        name: &str,
        depot: &mut D,
        left: &mut u64,
    ) -> Result<(), UsingFault>
        ensures uses { IfSome (D.files depot.old) (λ files. Good self.old.here (events_of self.old) → UsesAs (use_from (readings files) name.now (run (state_seen self.old) left.old)) result (state_seen self.old) (state_seen self.new) left.new) }
        ensures good { Good self.old.here (events_of self.old) → Good self.new.here (events_of self.new) }
        ensures loaded { OnOk result (counts_loaded self.new.here (events_of self.new) name.now ≡ true) }
        ensures kept { (other : Text) → counts_loaded self.old.here (events_of self.old) other ≡ true → counts_loaded self.new.here (events_of self.new) other ≡ true }
        ensures known { known_in (events_of self.new) ≡ known_in (events_of self.old) }
        ensures here { self.new.here ≡ self.old.here }
        ensures printed { self.new.printed ≡ self.old.printed }
        ensures same { IfSome (D.files depot.old) (λ files. Keeps files (D.files depot.new)) }
        ensures depot { UsingCause name.now (D.faults depot.old) (D.faults depot.new) result }
        ensures proper { Proper result }
    {
        if self.counts_loaded(name) {
            return Ok(());
        }
        let found = fetch(alloc, name, depot)?;
        self.gain(alloc, name, found)?;
        self.start_gained(alloc, name, left)
    }

    /// Loads the image of a package from its file, if none of the name is loaded, and starts it. After an error of the
    /// file nothing has changed. No file changes. A session that has run out of memory has none for any later call.
    pub fn using<D: Depot>(
        &mut self,
        alloc: Global,
        name: &str,
        depot: &mut D,
        left: &mut u64,
    ) -> Result<(), UsingFault>
        ensures uses { IfSome (D.files depot.old) (λ files. Good self.old.here (events_of self.old) → UsesAs (use_from (readings files) name.now (run (state_seen self.old) left.old)) result (state_seen self.old) (state_seen self.new) left.new) }
        ensures good { Good self.old.here (events_of self.old) → Good self.new.here (events_of self.new) }
        ensures loaded { OnOk result (counts_loaded self.new.here (events_of self.new) name.now ≡ true) }
        ensures kept { (other : Text) → counts_loaded self.old.here (events_of self.old) other ≡ true → counts_loaded self.new.here (events_of self.new) other ≡ true }
        ensures known { known_in (events_of self.new) ≡ known_in (events_of self.old) }
        ensures here { self.new.here ≡ self.old.here }
        ensures printed { self.new.printed ≡ self.old.printed }
        ensures same { IfSome (D.files depot.old) (λ files. Keeps files (D.files depot.new)) }
        ensures depot { UsingCause name.now (D.faults depot.old) (D.faults depot.new) result }
        ensures proper { Proper result }
        ensures spent { SpentBehind self.old.spent result self.new.spent }
    {
        if self.spent {
            return Err(UsingFault::NoMemory);
        }
        let answer = self.use_package(alloc, name, depot, left);
        self.spent = ran_out(&answer);
        answer
    }
}
