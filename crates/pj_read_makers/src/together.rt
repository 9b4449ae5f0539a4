//! Values of any type that are taken together. Where memory runs out, what is owned is let go here: in a function of any type the
//! letting go is not written out. The prover finds these proofs by itself.
ghost use Rattle.std.specs.Prelude.{◌≡◌, ◌∷◌, ◌++◌, [], IfOk, Ok};

use pj_base::NoMemory;
use sqlite_items::{Boxed, Items};
use std::alloc::Global;

/// Two values, where both are there.
pub fn both<A: Drop, B: Drop>(
    first: Result<A, NoMemory>,
    second: Result<B, NoMemory>,
) -> Result<(A, B), NoMemory>
    ensures { IfOk result (λ p. (first ≡ Ok p.0) × (second ≡ Ok p.1)) }
{
    let first = first?;
    let second = second?;
    Ok((first, second))
}

/// A boxed value.
pub fn in_box<T: Drop>(alloc: Global, value: T) -> Result<Boxed<T>, NoMemory>
    ensures { IfOk result (λ boxed. boxed ≡ value) }
{
    Ok(Boxed::new(alloc, value)?)
}

/// A list of one value.
pub fn list_of<T: Drop>(alloc: Global, value: T) -> Result<Items<T>, NoMemory>
    ensures { IfOk result (λ list. list ≡ value ∷ []) }
{
    with_last(Items::new(alloc), value)
}

/// A list with one more value at its end.
pub fn with_last<T: Drop>(items: Items<T>, value: T) -> Result<Items<T>, NoMemory>
    ensures { IfOk result (λ more. more ≡ items ++ value ∷ []) }
{
    let mut more = items;
    more.push(value)?;
    Ok(more)
}
