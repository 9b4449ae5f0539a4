//! Whole trees, items, scripts and packages as texts.

ghost use Rattle.std.specs.Prelude.{◌≡◌, IfOk};
ghost use Rattle.pj_outline.specs.Outline.{tree, item, script, package_of};

use crate::items::{put_item, put_items, put_uses};
use crate::names::put;
use crate::statements::put_tree;
use pj_base::{ByteList, NoMemory, Text};
use pj_tree::{PackageTree, ScriptTree, TopItem, TreeNode};
use std::alloc::Global;

/// A tree as a text: one node a line, two blanks further in for each level. A held name is spelled, and a numbered one by
/// the strings; a number without a string is written with a `#`, and a tree that isn't held by its number.
pub fn outline(alloc: Global, strings: &[Text], t: &TreeNode) -> Result<ByteList, NoMemory>
    ensures { IfOk result (λ out. out ≡ tree strings.now t.now 0) }
{
    let mut out = ByteList::new(alloc);
    put_tree(alloc, strings, 0, t, &mut out)?;
    Ok(out)
}

/// An item as a text, as `outline` writes trees.
pub fn outline_item(alloc: Global, strings: &[Text], one: &TopItem) -> Result<ByteList, NoMemory>
    ensures { IfOk result (λ out. out ≡ item strings.now one.now 0) }
{
    let mut out = ByteList::new(alloc);
    put_item(alloc, strings, 0, one, &mut out)?;
    Ok(out)
}

/// A script as a text, its items below its first line.
#[tactic(auto, using(crate::proofs::Texts::appended))]
pub fn outline_script(alloc: Global, strings: &[Text], t: &ScriptTree) -> Result<ByteList, NoMemory>
    ensures { IfOk result (λ out. out ≡ script strings.now t.now) }
{
    let mut out = ByteList::new(alloc);
    put("Script\n", &mut out)?;
    put_items(alloc, strings, 1, t.items.as_slice(), &mut out)?;
    Ok(out)
}

/// A package as a text, its items below its first line.
#[tactic(auto, using(crate::proofs::Texts::appended))]
pub fn outline_package(
    alloc: Global,
    strings: &[Text],
    t: &PackageTree,
) -> Result<ByteList, NoMemory>
    ensures { IfOk result (λ out. out ≡ package_of strings.now t.now) }
{
    let mut out = ByteList::new(alloc);
    put("Package ", &mut out)?;
    put(t.name.as_str(), &mut out)?;
    put_uses(t.uses.as_slice(), &mut out)?;
    put("\n", &mut out)?;
    put_items(alloc, strings, 1, t.items.as_slice(), &mut out)?;
    Ok(out)
}
