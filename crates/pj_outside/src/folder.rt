//! A real folder as a depot.
ghost use Rattle.std.specs.Prelude.{◌≡◌, None, IsErrOf};
ghost use Rattle.pj_outside.specs.Faults.{ReadCause, WriteCause, counted_read, counted_error};
ghost use Rattle.pj_outside.specs.Stored.{AtMost};

use crate::answers::{ReadAnswer, WriteFault};
use crate::depot::Depot;
use crate::streams::read_whole;
use std::alloc::Global;
use std::fs;
use std::fs::File;
use std::io::ErrorKind;
use std::rt::Files;

/// The current folder as a depot: a name is a path from there, used as it is. It tells no content.
#[derive(Drop)]
pub struct FolderDepot<'a, R> {
    rt: &'a R,
    faults: u64,
}

impl<'a, R: Files> FolderDepot<'a, R> {
    /// The current folder of this runtime. It takes no memory.
    pub fn new(rt: &'a R) -> FolderDepot<'a, R>
        ensures { result.faults ≡ 0 }
    {
        FolderDepot { rt, faults: 0 }
    }

    /// How many errors of the system were counted.
    pub fn faults(&self) -> u64
        ensures { result ≡ self.now.faults }
    {
        self.faults
    }
}

impl<'a, R: Files> Depot for FolderDepot<'a, R> {
    ghost files = { λ _. None };

    ghost faults = { λ d. d.faults };

    /// Reads a file. It takes no more than one byte past the limit from the system. Each Failed is counted, and nothing else.
    fn read(&mut self, alloc: Global, name: &str, limit: usize) -> ReadAnswer
        ensures bound { AtMost limit result }
        ensures cause { ReadCause self.old.faults self.new.faults result }
        ensures counts { self.new.faults ≡ counted_read result self.old.faults }
    {
        let answer = match File::open(self.rt, name) {
            Ok(mut file) => read_whole(alloc, &mut file, limit),
            Err(error) if error.kind() == ErrorKind::NotFound => ReadAnswer::Absent,
            Err(_) => ReadAnswer::Failed,
        };
        if matches!(&answer, ReadAnswer::Failed) {
            self.faults = self.faults.saturating_add(1);
        }
        answer
    }

    /// Writes a file. Each error is Failed and is counted, and nothing else. It takes no memory.
    fn write(&mut self, _alloc: Global, name: &str, bytes: &[u8]) -> Result<(), WriteFault>
        ensures cause { WriteCause self.old.faults self.new.faults result }
        ensures counts { self.new.faults ≡ counted_error result self.old.faults }
        ensures memory { IsErrOf result WriteFault.NoMemory → ⊥ }
    {
        match fs::write(self.rt, name, bytes) {
            Ok(()) => Ok(()),
            Err(_) => {
                self.faults = self.faults.saturating_add(1);
                Err(WriteFault::Failed)
            }
        }
    }
}
