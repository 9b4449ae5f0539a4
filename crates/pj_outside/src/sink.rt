//! An end for output.
ghost use Rattle.std.specs.Prelude.{ℕ, Option, List, IfSome};
ghost use Rattle.pj_outside.specs.Faults.{PutCause};
ghost use Rattle.pj_outside.specs.Written.{Puts};

use crate::answers::SinkFault;

/// Takes bytes in order. It may tell what it has taken, and it counts its faults in a number that never falls.
pub trait Sink {
    // All bytes that were taken, in order, or None where the sink does not tell them.
    ghost written: { Self → Option (List ℕ) };

    // How many faults were counted.
    ghost faults: { Self → ℕ };

    /// Puts a piece behind all that was put before.
    /// After a fault, which is answered only where the sink counted one in this call, a front of the piece stands there.
    fn put(&mut self, bytes: &[u8]) -> Result<(), SinkFault>
        ensures told { IfSome (written self.old) (λ old. Puts old bytes.now result (written self.new)) }
        ensures cause { PutCause (faults self.old) (faults self.new) result };
}
