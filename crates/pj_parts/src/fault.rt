ghost use Rattle.std.specs.Prelude.{◌≡◌};
ghost use Rattle.pj_parts.specs.declared.fault.PartFault.TheVariants.{NoMemory as WantOfMemory};

use std::alloc::{AllocError, AllocFailed};

/// Why no part was read: no such part's bytes stand there, or want of memory.
#[derive(Clone, Copy, Debug, PartialEq, Eq)]
pub enum PartFault {
    Bad,
    NoMemory,
}

impl From<AllocError> for PartFault {
    ghost from_gives = { λ _ e. e ≡ WantOfMemory };

    fn from(_error: AllocError) -> PartFault {
        PartFault::NoMemory
    }
}

impl<T: Drop> From<AllocFailed<T>> for PartFault {
    ghost from_gives = { λ _ e. e ≡ WantOfMemory };

    fn from(_error: AllocFailed<T>) -> PartFault {
        PartFault::NoMemory
    }
}
