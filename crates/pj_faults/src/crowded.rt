//! Too many names in one body or statement.
ghost use Rattle.std.specs.Prelude.{◌≡◌, ◌≤◌, IfOk, length};
ghost use Rattle.pj_faults.specs.Found.{crowded_first};
ghost use Rattle.pj_faults.specs.Sorted.{sorted};

use crate::fault::{Fault, ScopeKind, when};
use pj_base::NoMemory;
use sqlite_items::{Items, at};
use std::alloc::Global;

/// Numbers in rising order.
fn in_order(alloc: Global, places: &[usize]) -> Result<Items<usize>, NoMemory>
    ensures { IfOk result (λ all. all ≡ sorted places.now) }
{
    let mut all = Vec::from_slice(alloc, places)?;
    all.sort()?;
    Ok(Items::from_vec(all))
}

/// The fault of the 1,025th name, from the places of the tokens that introduce names.
#[tactic(auto, using(crate::proofs::SortLaws::crowded_rules))]
pub fn crowded_fault(alloc: Global, places: &[usize]) -> Result<Option<Fault>, NoMemory>
    ensures { IfOk result (λ found. found ≡ crowded_first places.now) }
{
    if places.len() <= 1024 {
        return Ok(None);
    }
    let all = in_order(alloc, places)?;
    match at(all.as_slice(), 1024) {
        Some(place) => Ok(when(true, ScopeKind::Many, *place)),
        None => Ok(None),
    }
}
