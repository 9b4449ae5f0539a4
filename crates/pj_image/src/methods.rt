//! The rules of methods, and the mentions in them with their entries.

ghost use Rattle.std.specs.Prelude.{◌≡◌, ◌+◌, ◌*◌, ◌<◌, ◌^◌, IfSome, length, map, option_map};
ghost use Rattle.std.specs.List.{flat_map, list_all};
ghost use Rattle.pj_fields.specs.Fields.{list};
ghost use Rattle.pj_parts.specs.Spelling.{method};
ghost use Rattle.pj_image.specs.Pieces.{Piece, Mention, method_pieces, methods_pieces, walk, walk_from, past, is_over, placed, method_fine};

use pj_parts::Method;
use pj_reloc::Entry;
use pj_tree::TreeNode;
use sqlite_items::at as item_at;

/// The entries behind that of the mention which has this number, this place in the file, and holds `number`. None where
/// there is no entry, its place is another, or the mention holds another number.
fn past_mention(number: u32, next: u64, at: u64, left: &[Entry]) -> Option<&[Entry]>
    ensures is { past (Mention number) (walk_from next at left.now) ≡ option_map (λ rest. walk_from (next + 1) (at + 4) rest.now) result }
    ensures one { IfSome result (λ rest. length rest.now + 1 ≡ length left.now) }
{
    let (entry, rest) = left.split_first()?;
    if u64::from(number) == next && u64::from(entry.place) == at {
        Some(rest)
    } else {
        None
    }
}

/// The entries behind those of mentions that hold these numbers and stand one behind another, from the mention `next` on.
fn past_mentions<'a>(numbers: &[u32], next: u64, at: u64, left: &'a [Entry]) -> Option<&'a [Entry]>
    requires places { at + 4 * length numbers.now < 2 ^ 64 }
    requires room { next + length left.now < 2 ^ 64 }
    ensures is { walk (map Mention numbers.now) (walk_from next at left.now) ≡ option_map (λ rest. walk_from (next + length numbers.now) (at + 4 * length numbers.now) rest.now) result }
    ensures each { IfSome result (λ rest. length rest.now + length numbers.now ≡ length left.now) }
{
    let mut rest = left;
    for (i, number) in numbers.iter().enumerate() {
        let passed = i as u64;
        rest = past_mention(*number, next + passed, at + 4 * passed, rest)?;
    }
    Some(rest)
}

/// The entries behind those of a method's mentions, where the method stands at this place and its first mention has this
/// number.
#[tactic(auto, using(crate::proofs::Walking::lengths))]
fn past_method<'a>(m: &Method, next: u64, at: u64, left: &'a [Entry]) -> Option<&'a [Entry]>
    requires places { at + length (method m.now) < 2 ^ 64 }
    requires room { next + length left.now < 2 ^ 64 }
    ensures is { walk (method_pieces m.now) (walk_from next at left.now) ≡ option_map (λ rest. walk_from (next + 1 + length m.now.types) (at + length (method m.now)) rest.now) result }
    ensures each { IfSome result (λ rest. length rest.now + 1 + length m.now.types ≡ length left.now) }
{
    let rest = past_mention(m.fun, next, at, left)?;
    past_mentions(m.types.as_slice(), next + 1, at + 8, rest)
}

/// Whether each mention of the methods holds its number, and there is one entry for each, with its place, where the first
/// method stands at this place.
fn entries_fit(methods: &[Method], at: u64, entries: &[Entry]) -> bool
    requires places { at + length (flat_map method methods.now) < 2 ^ 64 }
    ensures { result ≡ is_over (walk (flat_map method_pieces methods.now) (walk_from 0 at entries.now)) }
{
    let mut rest = entries;
    let mut next: u64 = 0;
    let mut place = at;
    for m in methods {
        let Some(behind) = past_method(m, next, place, rest) else {
            return false;
        };
        let count = m.types.len() as u64;
        rest = behind;
        next += 1 + count;
        place += 12 + 4 * count;
    }
    rest.is_empty()
}

/// Whether each mention holds its number, and there is one entry for each, with its place, where the list of methods
/// stands at this place of the file.
#[tactic(auto, using(crate::proofs::Walking::lists), unfolding(crate::specs::Pieces::walk))]
pub fn entries_placed(at: u64, methods: &[Method], entries: &[Entry]) -> bool
    requires { at + length (list method methods.now) < 2 ^ 64 }
    ensures { result ≡ placed at methods.now entries.now }
{
    entries_fit(methods, at + 4, entries)
}

/// Whether a method has at most 16 parameters, and a body of as many.
fn is_method_fine(trees: &[TreeNode], m: &Method) -> bool
    ensures { result ≡ method_fine trees.now m.now }
{
    if m.types.len() > 16 {
        return false;
    }
    match item_at(trees, m.body as usize) {
        Some(TreeNode::Body(body)) => body.params.len() == m.types.len(),
        _ => false,
    }
}

/// Whether each method has at most 16 parameters, and a body of as many.
pub fn methods_fine(trees: &[TreeNode], methods: &[Method]) -> bool
    ensures { result ≡ list_all (method_fine trees.now) methods.now }
{
    methods.iter().all(|m| is_method_fine(trees, m))
}
