//! Values that are of no more use are let go here. What a value's type has to let go is written out once in each function in which
//! it ends; in a function of any type nothing is, and there the proof is short.
ghost use Rattle.std.specs.Prelude.{◌≡◌, Err, None};

use crate::memory::NoMemory;

/// An error, in place of a value that is of no more use.
pub fn failed<T: Drop, U, E>(error: E, _value: T) -> Result<U, E>
    ensures { result ≡ Err error }
{
    Err(error)
}

/// No answer, in place of a value that is of no more use.
pub fn nothing<T: Drop, U>(_value: T) -> Option<U>
    ensures { result ≡ None }
{
    None
}

/// The first of two values; the other one is of no more use.
pub fn kept<T, U: Drop>(value: T, _other: U) -> T
    ensures { result ≡ value }
{
    value
}
