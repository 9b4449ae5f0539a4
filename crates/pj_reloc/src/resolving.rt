ghost use Rattle.std.specs.Prelude.{◌≡◌, option_map};
ghost use Rattle.pj_reloc.specs.Resolving.{resolved};

use crate::deps::DepTable;
use crate::entry::Entry;
use pj_base::{Kind, Target};

/// What an entry names, as a thing of kind K. None exactly where its kind isn't K's, its dependency isn't in the table, or
/// its ordinal isn't below that image's count of the kind.
pub fn resolve<K: Kind>(entry: &Entry, deps: &DepTable) -> Option<Target<K>>
    ensures { option_map (λ t. (t.image, t.ordinal)) result ≡ resolved K.kind entry.now deps.now.images }
{
    let asked = K::tag();
    if entry.kind.number() != asked.number() {
        return None;
    }
    let counts = deps.images.get(entry.dependency as usize)?;
    if entry.ordinal >= counts.of(asked) {
        return None;
    }
    Some(Target::new(counts.image, u64::from(entry.ordinal)))
}
