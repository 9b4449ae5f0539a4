//! What the lines of a case act on.

use pj_base::NoMemory;
use pj_outside::{FileMap, FolderDepot, MemDepot, MemSink, NumberList};
use pj_session::Session;
use std::alloc::Global;

/// A depot, a sink and a session in memory, the folder in which the program runs, and what came of the last lines.
#[derive(Drop)]
pub struct World<'a> {
    pub rt: &'a HostRuntime,
    pub depot: MemDepot,
    pub sink: MemSink,
    pub folder: FolderDepot<'a, HostRuntime>,
    pub session: Session,
    /// The number of the last command.
    pub code: u8,
    /// What the last line that asks was answered.
    pub answer: String,
}

impl<'a> World<'a> {
    /// No files, nothing put, nothing loaded.
    pub fn new(rt: &'a HostRuntime) -> Result<World<'a>, NoMemory> {
        let alloc = rt.alloc();
        let none = NumberList::new(alloc);
        Ok(World {
            rt,
            depot: MemDepot::new(FileMap::new(alloc), none, NumberList::new(alloc)),
            sink: MemSink::new(alloc, 4096)?,
            folder: FolderDepot::new(rt),
            session: Session::new(alloc)?,
            code: 0,
            answer: String::new(alloc),
        })
    }

    pub fn alloc(&self) -> Global {
        self.rt.alloc()
    }

    /// Adds these bytes as a file, in place of one of this name.
    pub fn put(&mut self, name: &str, bytes: &[u8]) -> Result<(), NoMemory> {
        let alloc = self.alloc();
        self.depot.files.insert(alloc, name, bytes)
    }
}
