ghost use Rattle.std.specs.Prelude.{◌≡◌, ◌++◌, List, ℕ, Option, OnOk, length};
ghost use Rattle.pj_parts.specs.Capped.{capped};
ghost use Rattle.pj_parts.specs.Given.{Gives};

use crate::fault::PartFault;
use pj_base::{ByteList, NoMemory};
use std::alloc::Global;

/// What stands in an image's bytes.
pub trait Part: Drop {
    // the bytes of a part
    ghost bytes: { Self → List ℕ };

    // which parts have a spelling today
    ghost fits: { Self → Type 0 };

    // the part at the front, and the bytes after it
    ghost at: { List ℕ → Option (Self × List ℕ) };

    /// Adds the bytes at the end.
    fn put(&self, alloc: Global, out: &mut ByteList) -> Result<(), NoMemory>
        requires { fits self.now }
        ensures { OnOk result (out.new ≡ out.old ++ bytes self.now) };

    /// The part at the front, and the bytes after it.
    fn take(alloc: Global, source: &[u8]) -> Result<(Self, &[u8]), PartFault>
        ensures { Gives (λ x. (x.0, x.1.now)) result (at source.now) };

    /// How many bytes the part has, or the greatest u64 where that is less.
    fn size(&self) -> u64
        ensures { result ≡ capped (length (bytes self.now)) };
}
