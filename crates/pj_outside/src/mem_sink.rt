//! A sink in memory, whose calls fail where they are told to.
ghost use Rattle.std.specs.Prelude.{◌≡◌, [], Some, IfOk, is_err};
ghost use Rattle.pj_outside.specs.Faults.{PutCause};
ghost use Rattle.pj_outside.specs.Written.{Puts};
ghost use Rattle.pj_outside.specs.MemSinks.{refuses, after_put};

use crate::answers::SinkFault;
use crate::numbers::NumberList;
use crate::room::ByteRoom;
use crate::sink::Sink;
use pj_base::NoMemory;
use std::alloc::Global;

/// A sink in memory, whose puts fail where they are told to or find no room.
#[derive(Drop)]
pub struct MemSink {
    /// What was put, in the room that was reserved.
    pub written: ByteRoom,
    /// The numbers of the puts that are to fail, counted from 1.
    pub failing_puts: NumberList,
    puts: u64,
    faults: u64,
}

impl MemSink {
    /// A sink with room for this many bytes, which are reserved here. No put is to fail by its number.
    pub fn new(alloc: Global, room: usize) -> Result<MemSink, NoMemory>
        ensures { IfOk result (λ s. s ≡ record { written = record { bytes = []; room = room }; failing_puts = []; puts = 0; faults = 0 }) }
    {
        Ok(MemSink {
            written: ByteRoom::new(alloc, room)?,
            failing_puts: NumberList::new(alloc),
            puts: 0,
            faults: 0,
        })
    }

    /// How many faults were counted.
    pub fn faults(&self) -> u64
        ensures { result ≡ self.now.faults }
    {
        self.faults
    }
}

impl Sink for MemSink {
    ghost written = { λ s. Some s.written.bytes };

    ghost faults = { λ s. s.faults };

    /// Puts a piece. The call fails exactly where `failing_puts` names it or the piece goes past the room, and then adds nothing.
    fn put(&mut self, bytes: &[u8]) -> Result<(), SinkFault>
        ensures told { Puts self.old.written.bytes bytes.now result (Some self.new.written.bytes) }
        ensures cause { PutCause self.old.faults self.new.faults result }
        ensures fails { is_err result ≡ refuses self.old bytes.now }
        ensures after { self.new ≡ after_put self.old bytes.now }
    {
        self.puts = self.puts.saturating_add(1);
        if self.failing_puts.contains(self.puts) || !self.written.has_room(bytes.len()) {
            self.faults = self.faults.saturating_add(1);
            return Err(SinkFault);
        }
        self.written.push(bytes);
        Ok(())
    }
}
