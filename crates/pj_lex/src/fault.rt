ghost use Rattle.pj_lex.specs.declared.fault.SyntaxFault.TheVariants.{NoMemory as WantOfMemory};
ghost use Rattle.std.specs.Prelude.{◌≡◌};

use std::alloc::{AllocError, AllocFailed};

/// What is wrong with a text, in the order in which it is looked for. Those from Many on are looked for together.
#[derive(Clone, Copy, Debug, PartialEq, Eq)]
pub enum SyntaxKind {
    Utf8,
    Token,
    Grammar,
    Deep,
    Many,
    ModuleName,
    Twice,
    LoopName,
    GlobalLocal,
    Outside,
    Reserved,
    Unbuilt,
}

/// Why a text wasn't read: what is wrong, and at which byte of it; or want of memory.
#[derive(Clone, Copy, Debug, PartialEq, Eq)]
pub enum SyntaxFault {
    Syntax { place: usize, kind: SyntaxKind },
    NoMemory,
}

impl From<AllocError> for SyntaxFault {
    ghost from_gives = { λ _ e. e ≡ WantOfMemory };

    fn from(_error: AllocError) -> SyntaxFault {
        SyntaxFault::NoMemory
    }
}

impl<T: Drop> From<AllocFailed<T>> for SyntaxFault {
    ghost from_gives = { λ _ e. e ≡ WantOfMemory };

    fn from(_error: AllocFailed<T>) -> SyntaxFault {
        SyntaxFault::NoMemory
    }
}

impl From<pj_base::NoMemory> for SyntaxFault {
    ghost from_gives = { λ _ e. e ≡ WantOfMemory };

    fn from(_error: pj_base::NoMemory) -> SyntaxFault {
        SyntaxFault::NoMemory
    }
}
