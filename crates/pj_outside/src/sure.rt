//! A depot and a sink that never fail.
ghost use Rattle.std.specs.Prelude.{◌≡◌, Some, None, IsOk};
ghost use Rattle.pj_outside.specs.Faults.{IfReadFailed, IfWriteFailed};
ghost use Rattle.pj_outside.specs.Stored.{AtMost, Reads, Writes};
ghost use Rattle.pj_outside.specs.Memory.{files_of, stored};

use crate::answers::{ReadAnswer, SinkFault, WriteFault};
use crate::depot::Depot;
use crate::file_map::FileMap;
use crate::sink::Sink;
use std::alloc::Global;

/// A depot in memory that never fails.
#[derive(Drop)]
pub struct SureDepot {
    /// The files.
    pub files: FileMap,
}

impl SureDepot {
    /// A depot of these files. It takes no memory.
    pub fn new(files: FileMap) -> SureDepot
        ensures { result.files ≡ files }
    {
        SureDepot { files }
    }
}

impl Depot for SureDepot {
    ghost files = { λ d. Some (files_of d.files) };

    ghost faults = { λ _. 0 };

    /// Reads a file. It never fails.
    fn read(&mut self, alloc: Global, name: &str, limit: usize) -> ReadAnswer
        ensures bound { AtMost limit result }
        ensures told { Reads (files_of self.old.files) name.now limit result }
        ensures sure { IfReadFailed result ⊥ }
        ensures after { self.new ≡ self.old }
    {
        self.files.read(alloc, name, limit)
    }

    /// Writes a file. It never fails.
    fn write(&mut self, alloc: Global, name: &str, bytes: &[u8]) -> Result<(), WriteFault>
        ensures told { Writes (files_of self.old.files) name.now bytes.now result (Some (files_of self.new.files)) }
        ensures sure { IfWriteFailed result ⊥ }
        ensures after { self.new.files ≡ stored self.old.files name.now bytes.now result }
    {
        self.files.insert(alloc, name, bytes)?;
        Ok(())
    }
}

/// A sink that keeps nothing and tells nothing, and never fails.
#[derive(Clone, Copy, Debug)]
pub struct SureSink;

impl Sink for SureSink {
    ghost written = { λ _. None };

    ghost faults = { λ _. 0 };

    /// Takes the piece and keeps nothing. It never fails.
    fn put(&mut self, _bytes: &[u8]) -> Result<(), SinkFault>
        ensures sure { IsOk result }
    {
        Ok(())
    }
}
