//! How deep the parts of a tree may nest, so that no sum of nestings overflows. The bound is `most_nesting` of specs/Bounds. The prover
//! finds this proof by itself.
ghost use Rattle.std.specs.Prelude.{◌≤◌, OnOk};
ghost use Rattle.pj_read_makers.specs.Bounds.{most_nesting};

use pj_base::NoMemory;

/// The greatest nesting of a part. What a text may nest is far below.
const MOST_NESTING: usize = 65536;

/// Ok where something may be made of a part that nests so deep. More counts as out of memory.
pub fn small(nesting: usize) -> Result<(), NoMemory>
    ensures { OnOk result (nesting ≤ most_nesting) }
{
    if nesting <= MOST_NESTING {
        Ok(())
    } else {
        Err(NoMemory)
    }
}
