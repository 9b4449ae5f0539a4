//! Whether texts differ, told by their hashes.

ghost use Rattle.std.specs.Prelude.{◌≡◌, ◌==◌, ◌++◌, ◌∷◌, [], ℕ, List, false, length, map, nat_eq, IfOk, IsTrue};
ghost use Rattle.std.specs.List.{IsDistinct, list_any};
ghost use Rattle.std.specs.Str.{bytes_eq};
ghost use Rattle.pj_image.specs.Hashes.{hash_of as text_hash, Spreads, AllStand};

use pj_base::NoMemory;
use pj_parts::ShortText;
use std::alloc::Global;
use std::hash::{FoldHasher, Hasher};

/// Over how many parts hashes are spread.
const PARTS: usize = 1024;

/// The hash of a text.
#[tactic(auto, unfolding(crate::specs::Hashes::hash_of))]
fn hash_of(text: &str) -> u64
    ensures { result ≡ text_hash text.now }
{
    let mut state = FoldHasher::default();
    state.write(text.as_bytes());
    state.finish()
}

/// As many parts as there are, all empty, with room for so many hashes in each.
fn empty_parts(alloc: Global, room: usize) -> Result<Vec<Vec<u64>>, NoMemory>
    ensures { IfOk result (λ parts. Spreads [] (map (λ part. part.items) parts.items)) }
{
    let mut parts = Vec::with_capacity(alloc, PARTS)?;
    for _part in 0..PARTS {
        parts.push(Vec::with_capacity(alloc, room)?)?;
    }
    Ok(parts)
}

/// The hashes of texts, each in its part, so that few texts have to be compared at a time.
fn spread(alloc: Global, texts: &[&ShortText]) -> Result<Vec<Vec<u64>>, NoMemory>
    ensures { IfOk result (λ parts. Spreads (map (λ t. text_hash t.now) texts.now) (map (λ part. part.items) parts.items)) }
{
    let room = texts.len() / PARTS;
    let mut parts = empty_parts(alloc, room + room / 8 + 8)?;
    for text in texts {
        let hash = hash_of(text.as_str());
        parts[(hash % 1024) as usize].push(hash)?;
    }
    Ok(parts)
}

/// How many slots the hashes of a part are put into.
const SLOTS: usize = 16384;

/// In how many slots a hash is sought.
const TURNS: usize = 128;

/// Puts a hash into its first slot that is free, and tells whether it did. It doesn't where the hash stands there already,
/// where no free slot is found, and with 0, which marks a free slot.
fn put(slots: &mut [u64], hash: u64) -> bool
    requires { length slots.old ≡ 16384 }
    ensures many { length slots.new ≡ 16384 }
    ensures new { IsTrue result → (hashes : List ℕ) → AllStand slots.old hashes → list_any (λ h. hash == h) hashes ≡ false }
    ensures stand { IsTrue result → (hashes : List ℕ) → AllStand slots.old hashes → AllStand slots.new (hashes ++ hash ∷ []) }
{
    if hash == 0 {
        return false;
    }
    let own = (hash >> 10) as usize;
    for turn in 0..TURNS {
        let at = (own + turn) % SLOTS;
        let there = slots[at];
        if there == 0 {
            slots[at] = hash;
            return true;
        }
        if there == hash {
            return false;
        }
    }
    false
}

/// Puts hashes into slots up to the first that isn't put, and tells whether there is none.
fn put_all(slots: &mut [u64], part: &[u64]) -> bool
    requires { length slots.old ≡ 16384 }
    ensures { IsTrue result → IsDistinct nat_eq part.now }
{
    for hash in part {
        if !put(slots, *hash) {
            return false;
        }
    }
    true
}

/// Whether the hashes of a part differ. False may also say that they are too many to tell.
fn part_differs(alloc: Global, part: &[u64]) -> Result<bool, NoMemory>
    ensures { IfOk result (λ differ. IsTrue differ → IsDistinct nat_eq part.now) }
{
    let mut slots = vec![in alloc; 0u64; SLOTS]?;
    Ok(put_all(slots.as_mut_slice(), part))
}

/// Whether the hashes of texts differ. Then the texts do.
pub fn hashes_differ(alloc: Global, texts: &[&ShortText]) -> Result<bool, NoMemory>
    ensures { IfOk result (λ differ. IsTrue differ → IsDistinct bytes_eq (map (λ t. t.now) texts.now)) }
{
    let all = spread(alloc, texts)?;
    let parts = all.as_slice();
    for part in parts {
        if !part_differs(alloc, part.as_slice())? {
            return Ok(false);
        }
    }
    Ok(true)
}
