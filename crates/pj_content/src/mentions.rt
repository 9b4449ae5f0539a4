//! What the entries of an image name.

ghost use Rattle.std.specs.Prelude.{◌≡◌, ◌<◌, ℕ, Some, None, IfSome, nat_lt, if◌then◌else◌, slice_get};
ghost use Rattle.pj_base.specs.declared.kinds.KindTag.TheVariants as kinds;
ghost use Rattle.pj_reloc.specs.Resolving.{among};
ghost use Rattle.pj_content.specs.Misfit.{tables, target as named, own_place as place_in, is_int64 as names_int64, types_misfit as first_misfit};

use pj_base::KindTag;
use pj_reloc::Entry;
use sqlite_items::at as item_at;

/// How many things of a kind can be named of Base, whose number is 0, or of an image with so many functions, whose number
/// is 1.
fn count(functions: usize, kind: KindTag, image: u32) -> usize
    ensures { (ordinal : ℕ) → among kind ordinal (slice_get (tables functions) image) ≡ (if nat_lt ordinal result then Some (image, ordinal) else None) }
{
    match (image, kind) {
        (0, KindTag::TypeKind) => 11,
        (0, KindTag::FunKind) => 18,
        (1, KindTag::FunKind) => functions,
        _ => 0,
    }
}

/// What the entry of a mention names as a thing of a kind: the image's number, and the place there.
fn target(entries: &[Entry], functions: usize, kind: KindTag, mention: u32) -> Option<(u32, u32)>
    ensures { result ≡ named entries.now (tables functions) kind mention }
{
    let entry = item_at(entries, mention as usize)?;
    if entry.kind.number() != kind.number() {
        return None;
    }
    if entry.ordinal as usize >= count(functions, kind, entry.dependency) {
        return None;
    }
    Some((entry.dependency, entry.ordinal))
}

/// The place of the package's own function that the entry of a mention names.
pub(crate) fn own_place(entries: &[Entry], functions: usize, mention: u32) -> Option<u32>
    ensures is { result ≡ place_in (named entries.now (tables functions) kinds.FunKind mention) }
    ensures within { IfSome result (λ place. place < functions) }
{
    match target(entries, functions, KindTag::FunKind, mention) {
        Some((1, place)) => Some(place),
        _ => None,
    }
}

/// Whether the entry of a mention names Base's Int64.
fn is_int64(entries: &[Entry], functions: usize, mention: u32) -> bool
    ensures { result ≡ names_int64 (named entries.now (tables functions) kinds.TypeKind mention) }
{
    target(entries, functions, KindTag::TypeKind, mention) == Some((0, 5))
}

/// The first of these mentions whose entry doesn't name Base's Int64.
pub(crate) fn types_misfit(entries: &[Entry], functions: usize, mentions: &[u32]) -> Option<u32>
    ensures { result ≡ first_misfit entries.now (tables functions) mentions.now }
{
    mentions
        .iter()
        .copied()
        .find(|k| !is_int64(entries, functions, *k))
}
