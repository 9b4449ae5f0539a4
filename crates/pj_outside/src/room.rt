//! Bytes in a room of fixed size.
ghost use Rattle.std.specs.Prelude.{◌≡◌, ◌≤◌, ◌+◌, ◌++◌, [], length, IfOk, nat_le};
ghost use Rattle.pj_outside.specs.Memory.{BytesInRoom};

use pj_base::NoMemory;
use std::alloc::Global;
use std::marker::Model;

/// A list of bytes in a room that was reserved when it was made. Contracts see the bytes and the room.
#[derive(Drop)]
pub struct ByteRoom {
    bytes: Vec<u8>,
    room: usize,
}

impl Model for ByteRoom {
    ghost use Rattle.std.specs.Prelude.{◌≤◌, length, vec_capacity};
    ghost use Rattle.pj_outside.specs.Memory.{BytesInRoom};

    ghost Value = { BytesInRoom };

    ghost view = { λ r. record { bytes = r.bytes.items; room = r.room } };

    ghost invariant = { λ r. (length r.bytes.items ≤ r.room) × (r.room ≤ vec_capacity r.bytes) };
}

impl ByteRoom {
    /// An empty list with room for this many bytes, all of it reserved.
    pub fn new(alloc: Global, room: usize) -> Result<ByteRoom, NoMemory>
        ensures { IfOk result (λ r. r ≡ record { bytes = []; room = room }) }
    {
        let bytes = Vec::with_capacity(alloc, room)?;
        Ok(ByteRoom { bytes, room })
    }

    /// The bytes, lent.
    pub fn as_slice(&self) -> &[u8]
        ensures { result.now ≡ self.now.bytes }
    {
        self.bytes.as_slice()
    }

    /// How many bytes there are.
    pub fn len(&self) -> usize
        ensures { result ≡ length self.now.bytes }
    {
        self.bytes.len()
    }

    /// How many bytes there is room for, those that are there among them.
    pub fn room(&self) -> usize
        ensures { result ≡ self.now.room }
    {
        self.room
    }

    /// Whether there is room for this many bytes more.
    pub fn has_room(&self, more: usize) -> bool
        ensures { result ≡ nat_le (length self.now.bytes + more) self.now.room }
    {
        more <= self.room.saturating_sub(self.bytes.len())
    }

    /// Adds bytes at the end, for which there has to be room. It takes no memory.
    pub fn push(&mut self, more: &[u8])
        requires { length self.old.bytes + length more.now ≤ self.old.room }
        ensures { self.new ≡ record self.old { bytes = self.old.bytes ++ more.now } }
    {
        let _ = self.bytes.extend_from_slice(more);
    }
}
