//! Whether a number stands twice in a list.

ghost use Rattle.std.specs.Prelude.{◌≡◌, ◌<◌, IfOk, ℕ, length, slice_index, slice_get};
ghost use Rattle.pj_rules.specs.Numbering.{has_twice};

use pj_base::NoMemory;
use std::alloc::Global;

/// Whether a number stands twice. Each is below `count`: memory is taken for that many.
#[tactic(auto, using(crate::proofs::TwiceLaws::twice_rules))]
pub fn stands_twice(alloc: Global, numbers: &[u32], count: usize) -> Result<bool, NoMemory>
    requires { (k : ℕ) → k < length numbers.now → slice_index numbers.now k < count }
    ensures { IfOk result (λ found. found ≡ has_twice numbers.now) }
{
    let mut seen = vec![in alloc; false; count]?;
    let mut found = false;
    for number in numbers {
        let at = *number as usize;
        let before = seen[at];
        found = found || before;
        seen[at] = true;
    }
    Ok(found)
}
