//! How an item ends early.

ghost use Rattle.std.specs.Prelude.{◌≡◌, false};
ghost use Rattle.pj_meaning.specs.Names.{id};
ghost use Rattle.pj_meaning.specs.Outcome.{ModuleNotLoaded, NoMethod, OfFunction, Undefined};
ghost use Rattle.pj_session.specs.Events.{ints};
ghost use Rattle.pj_session.specs.Ending.{Tells};
ghost use Rattle.pj_session.specs.Spent.{spent_behind};

use crate::error::ErrorValue;
use pj_base::Text;
use std::alloc::Global;

/// Why an item, or the start of an image, ended before its end.
#[derive(Drop)]
pub enum End {
    /// By an error that no one caught.
    Error(ErrorValue),
    /// A charge found no budget.
    Steps,
    /// Code ended by a trap. It never comes yet.
    Trap,
    /// There was no memory.
    NoMemory,
}

/// Whether memory has run out.
pub fn lacks_memory(ended: &Result<(), End>) -> bool
    ensures { result ≡ spent_behind ended.now false }
{
    match ended {
        Ok(()) | Err(End::Error(_)) | Err(End::Steps) | Err(End::Trap) => false,
        Err(End::NoMemory) => true,
    }
}

/// The end by a call of a function that has no method for so many integers.
pub fn no_method(alloc: Global, home: &str, name: &str, count: usize) -> End
    ensures { Tells (NoMethod (OfFunction (id home.now name.now)) (ints count)) result }
{
    let Ok(home) = Text::from_str(alloc, home) else {
        return End::NoMemory;
    };
    let Ok(name) = Text::from_str(alloc, name) else {
        return End::NoMemory;
    };
    End::Error(ErrorValue::NoMethod { home, name, count })
}

/// The end by a name that its module doesn't bind.
pub fn undefined(alloc: Global, home: &str, name: &str) -> End
    ensures { Tells (Undefined home.now name.now) result }
{
    let Ok(home) = Text::from_str(alloc, home) else {
        return End::NoMemory;
    };
    let Ok(name) = Text::from_str(alloc, name) else {
        return End::NoMemory;
    };
    End::Error(ErrorValue::Undefined { home, name })
}

/// The end by a module that isn't loaded.
pub fn not_loaded(alloc: Global, home: &str) -> End
    ensures { Tells (ModuleNotLoaded home.now) result }
{
    match Text::from_str(alloc, home) {
        Ok(home) => End::Error(ErrorValue::ModuleNotLoaded { home }),
        Err(_) => End::NoMemory,
    }
}
