ghost use Rattle.pj_scopes.specs.declared.fault.ScopeFault.TheVariants.{NoMemory as WantOfMemory};
ghost use Rattle.std.specs.Prelude.{◌≡◌};

use pj_faults::ScopeKind;

/// Why a text has no tree: what is wrong with a name or its place, and at which byte; or want of memory.
#[derive(Clone, Copy, Debug, PartialEq, Eq)]
pub enum ScopeFault {
    Fault { place: usize, kind: ScopeKind },
    NoMemory,
}

impl From<pj_base::NoMemory> for ScopeFault {
    ghost from_gives = { λ _ e. e ≡ WantOfMemory };

    fn from(_error: pj_base::NoMemory) -> ScopeFault {
        ScopeFault::NoMemory
    }
}
