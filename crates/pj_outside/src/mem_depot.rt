//! A depot in memory, whose calls fail where they are told to.
ghost use Rattle.std.specs.Prelude.{◌≡◌, ◌↔◌, Some, IfSome, IsTrue, IsErrOf};
ghost use Rattle.pj_outside.specs.Faults.{ReadCause, WriteCause, next};
ghost use Rattle.pj_outside.specs.Stored.{AtMost, Reads, Keeps, Writes};
ghost use Rattle.pj_outside.specs.Memory.{files_of, has_number};
ghost use Rattle.pj_outside.specs.MemDepots.{after_read, after_write};

use crate::answers::{ReadAnswer, WriteFault};
use crate::depot::Depot;
use crate::file_map::FileMap;
use crate::numbers::NumberList;
use std::alloc::Global;

/// A depot in memory, whose reads and writes fail where they are told to.
#[derive(Drop)]
pub struct MemDepot {
    /// The files.
    pub files: FileMap,
    /// The numbers of the reads that are to fail, counted from 1.
    pub failing_reads: NumberList,
    /// The numbers of the writes that are to fail, counted from 1.
    pub failing_writes: NumberList,
    reads: u64,
    writes: u64,
    faults: u64,
}

impl MemDepot {
    /// A depot of these files, where the lists name the reads and the writes that are to fail. It takes no memory.
    pub fn new(files: FileMap, failing_reads: NumberList, failing_writes: NumberList) -> MemDepot
        ensures { result ≡ record { files = files; failing_reads = failing_reads; failing_writes = failing_writes; reads = 0; writes = 0; faults = 0 } }
    {
        MemDepot {
            files,
            failing_reads,
            failing_writes,
            reads: 0,
            writes: 0,
            faults: 0,
        }
    }

    /// How many faults were counted.
    pub fn faults(&self) -> u64
        ensures { result ≡ self.now.faults }
    {
        self.faults
    }
}

impl Depot for MemDepot {
    ghost files = { λ d. Some (files_of d.files) };

    ghost faults = { λ d. d.faults };

    /// Reads a file. The call fails exactly where `failing_reads` names it.
    fn read(&mut self, alloc: Global, name: &str, limit: usize) -> ReadAnswer
        ensures bound { AtMost limit result }
        ensures told { Reads (files_of self.old.files) name.now limit result }
        ensures same { Keeps (files_of self.old.files) (Some (files_of self.new.files)) }
        ensures cause { ReadCause self.old.faults self.new.faults result }
        ensures fails { result ≡ ReadAnswer.Failed ↔ IsTrue (has_number self.old.failing_reads (next self.old.reads)) }
        ensures after { self.new ≡ after_read self.old }
    {
        self.reads = self.reads.saturating_add(1);
        if self.failing_reads.contains(self.reads) {
            self.faults = self.faults.saturating_add(1);
            return ReadAnswer::Failed;
        }
        self.files.read(alloc, name, limit)
    }

    /// Writes a file. The call fails exactly where `failing_writes` names it, and then leaves the file absent.
    fn write(&mut self, alloc: Global, name: &str, bytes: &[u8]) -> Result<(), WriteFault>
        ensures told { Writes (files_of self.old.files) name.now bytes.now result (Some (files_of self.new.files)) }
        ensures cause { WriteCause self.old.faults self.new.faults result }
        ensures fails { IsErrOf result WriteFault.Failed ↔ IsTrue (has_number self.old.failing_writes (next self.old.writes)) }
        ensures after { self.new ≡ after_write self.old name.now bytes.now result }
    {
        self.writes = self.writes.saturating_add(1);
        if self.failing_writes.contains(self.writes) {
            self.files.remove(name);
            self.faults = self.faults.saturating_add(1);
            return Err(WriteFault::Failed);
        }
        self.files.insert(alloc, name, bytes)?;
        Ok(())
    }
}
