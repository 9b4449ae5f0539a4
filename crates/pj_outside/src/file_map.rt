//! Files in memory.
ghost use Rattle.std.specs.Prelude.{◌≡◌, OnOk, OnErr};
ghost use Rattle.std.specs.Option.{option_copied};
ghost use Rattle.std.specs.FinMap as map;
ghost use Rattle.pj_outside.specs.Faults.{IfReadFailed};
ghost use Rattle.pj_outside.specs.Stored.{AtMost, Reads};
ghost use Rattle.pj_outside.specs.Memory.{files_of};

use crate::answers::ReadAnswer;
use pj_base::NoMemory;
use std::alloc::Global;
use std::collections::BTreeMap;
use std::marker::Model;

/// A map from names to bytes, which contracts see as a finite map of lists of bytes.
#[derive(Drop)]
pub struct FileMap {
    files: BTreeMap<String, Vec<u8>>,
}

impl Model for FileMap {
    ghost use Rattle.std.specs.Coded.{coded_ℕ, coded_list};
    ghost use Rattle.std.specs.FinMap as map;
    ghost use Rattle.pj_outside.specs.Memory.{FileTable, named_bytes};

    ghost Value = { FileTable };

    ghost coded = { map.code (coded_list coded_ℕ) (coded_list coded_ℕ) };

    ghost view = { λ m. map.from_entries (named_bytes m.files.entries) };
}

impl FileMap {
    /// No files. It takes no memory.
    pub fn new(alloc: Global) -> FileMap
        ensures { result ≡ map.empty }
    {
        FileMap {
            files: BTreeMap::new(alloc),
        }
    }

    /// The bytes of a file, or None where there is none of this name.
    pub fn get(&self, name: &str) -> Option<&[u8]>
        ensures { option_copied result ≡ map.get self.now name.now }
    {
        match self.files.get(name) {
            Some(bytes) => Some(bytes.as_slice()),
            None => None,
        }
    }

    /// A copy of the bytes of a file of at most `limit` bytes. It never fails, and tells want of memory.
    pub fn read(&self, alloc: Global, name: &str, limit: usize) -> ReadAnswer
        ensures bound { AtMost limit result }
        ensures answer { Reads (files_of self.now) name.now limit result }
        ensures sure { IfReadFailed result ⊥ }
    {
        let Some(bytes) = self.get(name) else {
            return ReadAnswer::Absent;
        };
        if bytes.len() > limit {
            return ReadAnswer::TooLong;
        }
        match Vec::from_slice(alloc, bytes) {
            Ok(copy) => ReadAnswer::Bytes(copy),
            Err(_) => ReadAnswer::NoMemory,
        }
    }

    /// Puts a copy of these bytes under a name, in place of what was there. Without memory nothing changes.
    pub fn insert(&mut self, alloc: Global, name: &str, bytes: &[u8]) -> Result<(), NoMemory>
        ensures added { OnOk result (self.new ≡ map.insert self.old name.now bytes.now) }
        ensures unchanged { OnErr result (self.new ≡ self.old) }
    {
        let name = String::from_str(alloc, name)?;
        let bytes = Vec::from_slice(alloc, bytes)?;
        self.files.insert(name, bytes)?;
        Ok(())
    }

    /// Takes the file of this name away, if there is one.
    pub fn remove(&mut self, name: &str)
        ensures { self.new ≡ map.remove self.old name.now }
    {
        let _ = self.files.remove(name);
    }
}
