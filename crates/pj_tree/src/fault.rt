ghost use Rattle.std.specs.Prelude.{◌≡◌};
ghost use Rattle.pj_tree.specs.declared.fault.TreeFault.TheVariants.{NoMemory as WantOfMemory};

use std::alloc::{AllocError, AllocFailed};

/// Why no tree was read: no tree's bytes stand there, or want of memory.
#[derive(Clone, Copy, Debug, PartialEq, Eq)]
pub enum TreeFault {
    Bad,
    NoMemory,
}

impl From<AllocError> for TreeFault {
    ghost from_gives = { λ _ e. e ≡ WantOfMemory };

    fn from(_error: AllocError) -> TreeFault {
        TreeFault::NoMemory
    }
}

impl<T: Drop> From<AllocFailed<T>> for TreeFault {
    ghost from_gives = { λ _ e. e ≡ WantOfMemory };

    fn from(_error: AllocFailed<T>) -> TreeFault {
        TreeFault::NoMemory
    }
}
