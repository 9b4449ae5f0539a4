//! A keeper of files, each of which is read and written as a whole.
ghost use Rattle.std.specs.Prelude.{◌≡◌, ℕ, Option, IfSome};
ghost use Rattle.pj_outside.specs.Faults.{ReadCause, WriteCause};
ghost use Rattle.pj_outside.specs.Stored.{Files, AtMost, Reads, Keeps, Writes};

use crate::answers::{ReadAnswer, WriteFault};
use std::alloc::Global;

/// A keeper of files. It may tell its content, and it counts its faults in a number that never falls.
pub trait Depot {
    // The bytes of each name, or None where the depot does not tell its content.
    ghost files: { Self → Option Files };

    // How many faults were counted.
    ghost faults: { Self → ℕ };

    /// Reads a file of at most `limit` bytes. No file changes.
    /// Failed is answered only where the depot counted a fault in this call.
    fn read(&mut self, alloc: Global, name: &str, limit: usize) -> ReadAnswer
        ensures bound { AtMost limit result }
        ensures told { IfSome (files self.old) (λ old. Reads old name.now limit result) }
        ensures same { IfSome (files self.old) (λ old. Keeps old (files self.new)) }
        ensures cause { ReadCause (faults self.old) (faults self.new) result };

    /// Writes a whole file, in place of what it had. No other file changes.
    /// Failed is answered only where the depot counted a fault in this call, and leaves this file unknown.
    /// After want of memory no file has changed.
    fn write(&mut self, alloc: Global, name: &str, bytes: &[u8]) -> Result<(), WriteFault>
        ensures told { IfSome (files self.old) (λ old. Writes old name.now bytes.now result (files self.new)) }
        ensures cause { WriteCause (faults self.old) (faults self.new) result };
}
