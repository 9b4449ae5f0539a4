//! How the trees of an image name one another.

ghost use Rattle.std.specs.Prelude.{◌≡◌, ◌++◌, IfOk, OnOk};
ghost use Rattle.pj_rules.specs.Numbering.{is_so, names_well, each_names_well, all_name_well, numbers_of, all_numbers, numbered_well};
ghost use Rattle.pj_tree.specs.declared.tree.TreeNode.{out-TreeNode};

use crate::mentions::{Mention, mentions_of};
use crate::twice::stands_twice;
use pj_base::NoMemory;
use pj_tree::TreeNode;
use sqlite_items::Items;
use std::alloc::Global;

/// Whether a tree is of the kind that is named: a payload, or a body with so many parameters.
fn is_of_kind(mention: &Mention, t: &TreeNode) -> bool
    ensures { result ≡ is_so mention.now (out-TreeNode t.now) }
{
    match mention {
        Mention::Payload(_) => match t {
            TreeNode::Body(_) => false,
            TreeNode::Payload(_) => true,
        },
        Mention::Body(_, params) => match t {
            TreeNode::Body(body) => body.params.len() == *params,
            TreeNode::Payload(_) => false,
        },
    }
}

/// Whether the tree with the number `at` may name this one: one behind it that is there and of the kind that is named.
#[tactic(auto, unfolding(crate::specs::Numbering::names_well))]
fn is_named_well(trees: &[TreeNode], at: usize, mention: &Mention) -> bool
    ensures { result ≡ names_well trees.now at mention.now }
{
    let number = mention.number() as usize;
    match trees.get(number) {
        Some(t) => at < number && is_of_kind(mention, t),
        None => false,
    }
}

#[tactic(auto, using(crate::proofs::NumberingLaws::each_rules))]
fn are_named_well(trees: &[TreeNode], at: usize, mentions: &[Mention]) -> bool
    ensures { result ≡ each_names_well trees.now at mentions.now }
{
    let mut so_far = true;
    for mention in mentions {
        let well = is_named_well(trees, at, mention);
        so_far = so_far && well;
    }
    so_far
}

/// Whether each tree names trees as it may.
#[tactic(auto, using(crate::proofs::NumberingLaws::all_rules))]
fn all_name_well_here(alloc: Global, trees: &[TreeNode]) -> Result<bool, NoMemory>
    ensures { IfOk result (λ well. well ≡ all_name_well trees.now 0 trees.now) }
{
    let mut so_far = true;
    for (at, t) in trees.iter().enumerate() {
        let mentions = mentions_of(alloc, t)?;
        let well = are_named_well(trees, at, mentions.as_slice());
        so_far = so_far && well;
    }
    Ok(so_far)
}

/// Adds the numbers of these trees.
#[tactic(auto, unfolding(crate::specs::Numbering::numbers_of))]
fn put_numbers(mentions: &[Mention], out: &mut Items<u32>) -> Result<(), NoMemory>
    ensures { OnOk result (out.new ≡ out.old ++ numbers_of mentions.now) }
{
    for mention in mentions {
        out.push(mention.number())?;
    }
    Ok(())
}

/// The numbers of the trees that trees name, in order.
#[tactic(auto, unfolding(crate::specs::Numbering::all_numbers))]
fn numbers(alloc: Global, trees: &[TreeNode]) -> Result<Items<u32>, NoMemory>
    ensures { IfOk result (λ all. all ≡ all_numbers trees.now) }
{
    let mut out = Items::new(alloc);
    for t in trees {
        let mentions = mentions_of(alloc, t)?;
        put_numbers(mentions.as_slice(), &mut out)?;
    }
    Ok(out)
}

/// Whether the trees of an image, in the order of their numbers, name one another as they may: each names trees behind it
/// alone that are there, a definition a body with as many parameters and an evaluation a payload, and no tree is named
/// twice by trees.
pub fn trees_name_well(alloc: Global, trees: &[TreeNode]) -> Result<bool, NoMemory>
    ensures { IfOk result (λ well. well ≡ numbered_well trees.now) }
{
    if !all_name_well_here(alloc, trees)? {
        return Ok(false);
    }
    let all = numbers(alloc, trees)?;
    let twice = stands_twice(alloc, all.as_slice(), trees.len())?;
    Ok(!twice)
}
