//! Laws on the definitions. There is no product code here.
ghost use Rattle.pj_faults.specs.Counting.{FirstCounts, NoneIsEmpty};

/// The first fault of a list is one of it, and none is before it: none has a lower place, and none at the same place has a kind
/// that comes before. A list without a first fault is empty.
#[tactic(auto, using(crate::proofs::CountingLaws::none_is_empty))]
pub fn first_laws()
    ensures first_counts { FirstCounts }
    ensures none_is_empty { NoneIsEmpty }
{}
