//! The bytes and the printed form of trees of every tag, and bytes of none.
ghost use Rattle.std.specs.Prelude.{IfOk};
ghost use Rattle.pj_tree.specs.Fits.{TreeFits};

use crate::tally::Tally;
use anyhow::anyhow;
use pj_base::release::kept;
use pj_base::{ByteList, NoMemory, Text};
use pj_case_lines::halves;
use pj_outline::outline;
use pj_tree::{TreeFault, TreeNode, copy_tree, decode_tree, encode_tree};
use sqlite_items::Items;
use std::alloc::Global;

/// The strings that the trees number: the empty one, four names, a module, an operator, and one with all that is escaped.
const STRINGS: [&str; 8] = ["", "x", "y", "t", "f", "Base", "+", "a\"b\\c\nd\te$"];

pub fn strings(alloc: Global) -> Result<Items<Text>, NoMemory> {
    let mut strings = Items::new(alloc);
    for text in STRINGS {
        strings.push(Text::from_str(alloc, text)?)?;
    }
    Ok(strings)
}

/// The bytes of numbers, which one space separates.
pub fn bytes_of(alloc: Global, numbers: &str) -> anyhow::Result<Vec<u8>> {
    let mut bytes = Vec::new(alloc);
    for number in numbers.split(' ') {
        if !number.is_empty() {
            bytes.extend_from_slice(&number.parse::<u32>()?.to_le_bytes())?;
        }
    }
    Ok(bytes)
}

/// The bytes of a tree, which is let go.
fn spelled(alloc: Global, tree: TreeNode) -> Result<ByteList, NoMemory>
    requires { TreeFits tree }
{
    let mut out = ByteList::new(alloc);
    kept(encode_tree(alloc, &tree, &mut out), tree)?;
    Ok(out)
}

/// The bytes of the tree that stands at a place, and the place behind it, or none.
fn tree_at(alloc: Global, bytes: &[u8], at: usize) -> Result<Option<(ByteList, usize)>, NoMemory> {
    match decode_tree(alloc, bytes, at) {
        Ok((tree, end)) => Ok(Some((spelled(alloc, tree)?, end))),
        Err(TreeFault::Bad) => Ok(None),
        Err(TreeFault::NoMemory) => Err(NoMemory),
    }
}

/// Whether a tree that is all of these bytes has them again.
fn goes_there_and_back(alloc: Global, bytes: &[u8]) -> Result<bool, NoMemory> {
    match tree_at(alloc, bytes, 0)? {
        Some((out, end)) => Ok(end == bytes.len() && out.as_slice() == bytes),
        None => Ok(false),
    }
}

/// Whether a tree stands at the beginning of bytes.
fn is_tree(alloc: Global, bytes: &[u8]) -> Result<bool, NoMemory> {
    Ok(tree_at(alloc, bytes, 0)?.is_some())
}

/// Tries bytes, of which no fewer are a tree.
fn try_fewer(tally: &mut Tally<'_>, row: &str, bytes: &[u8]) -> anyhow::Result<()> {
    for length in 0..bytes.len() {
        let found = is_tree(tally.alloc(), bytes.get(..length).unwrap_or(&[]))?;
        tally.note(!found, row, "a tree of fewer bytes")?;
    }
    Ok(())
}

/// A tree has its bytes again, and no fewer of its bytes are one.
fn try_tree(tally: &mut Tally<'_>, numbers: &str) -> anyhow::Result<()> {
    let bytes = bytes_of(tally.alloc(), numbers)?;
    let same = goes_there_and_back(tally.alloc(), bytes.as_slice())?;
    tally.note(same, numbers, "other bytes, or no tree")?;
    try_fewer(tally, numbers, bytes.as_slice())
}

/// `Nothing` in so many fields, as a payload.
fn nested(alloc: Global, fields: usize) -> Result<Vec<u8>, NoMemory> {
    let mut bytes = Vec::new(alloc);
    bytes.extend_from_slice(&66u32.to_le_bytes())?;
    for _field in 0..fields {
        bytes.extend_from_slice(&7u32.to_le_bytes())?;
    }
    bytes.extend_from_slice(&0u32.to_le_bytes())?;
    for _field in 0..fields {
        bytes.extend_from_slice(&1u32.to_le_bytes())?;
    }
    Ok(bytes)
}

/// Whether a payload of so many fields is a tree.
fn is_nested(alloc: Global, fields: &str) -> anyhow::Result<bool> {
    let bytes = nested(alloc, fields.parse::<usize>()?)?;
    Ok(is_tree(alloc, bytes.as_slice())?)
}

/// Whether these numbers are a tree.
fn are_tree(alloc: Global, numbers: &str) -> anyhow::Result<bool> {
    let bytes = bytes_of(alloc, numbers)?;
    Ok(is_tree(alloc, bytes.as_slice())?)
}

/// The place behind the tree at a place of bytes, or 0.
fn end_at(alloc: Global, bytes: &[u8], at: usize) -> Result<usize, NoMemory> {
    match tree_at(alloc, bytes, at)? {
        Some((_, end)) => Ok(end),
        None => Ok(0),
    }
}

/// Whether this is the place behind the tree at a place of the two trees `66 3 66 0` and `65 7 1`, or 0.
fn ends_at(alloc: Global, places: &str) -> anyhow::Result<bool> {
    let (at, end) = halves(places);
    let (at, end) = (at.parse::<usize>()?, end.parse::<usize>()?);
    let bytes = bytes_of(alloc, "66 3 66 0 65 7 1")?;
    Ok(end_at(alloc, bytes.as_slice(), at)? == end)
}

/// Tries a line on the bytes of trees.
pub fn try_numbers(tally: &mut Tally<'_>, line: &str) -> anyhow::Result<()> {
    let alloc = tally.alloc();
    let (verb, rest) = halves(line);
    let right = match verb {
        "tree" => return try_tree(tally, rest),
        "none" => !are_tree(alloc, rest)?,
        "deep" => is_nested(alloc, rest)?,
        "deeper" => !is_nested(alloc, rest)?,
        _ => ends_at(alloc, rest)?,
    };
    tally.note(right, line, "something else")
}

/// The tree of which these are the bytes.
pub fn tree_of(alloc: Global, bytes: &[u8]) -> anyhow::Result<TreeNode>
    ensures { IfOk result (λ tree. TreeFits tree) }
{
    match decode_tree(alloc, bytes, 0) {
        Ok((tree, _)) => Ok(tree),
        Err(_) => Err(anyhow!("no tree")),
    }
}

/// A copy of that tree.
fn copy_of(alloc: Global, bytes: &[u8]) -> anyhow::Result<TreeNode>
    ensures { IfOk result (λ tree. TreeFits tree) }
{
    let tree = tree_of(alloc, bytes)?;
    Ok(kept(copy_tree(alloc, &tree), tree)?)
}

/// What a tree prints.
fn printed(alloc: Global, tree: &TreeNode) -> Result<ByteList, NoMemory> {
    let strings = strings(alloc)?;
    outline(alloc, strings.as_slice(), tree)
}

/// What a tree prints, which is let go, without the last line end.
fn told(alloc: Global, tree: TreeNode) -> anyhow::Result<String> {
    let out = kept(printed(alloc, &tree), tree)?;
    let text = str::from_utf8(out.as_slice())?;
    Ok(String::from_str(alloc, text.strip_suffix('\n').unwrap_or(text))?)
}

/// Tries what a tree prints.
fn try_printed(
    tally: &mut Tally<'_>,
    row: &str,
    tree: TreeNode,
    wanted: &str,
) -> anyhow::Result<()> {
    let came = told(tally.alloc(), tree)?;
    tally.expect(row, wanted, came.as_str())
}

/// Tries what a tree and its copy print, and the bytes of the copy.
fn try_bytes(tally: &mut Tally<'_>, row: &str, bytes: &[u8], wanted: &str) -> anyhow::Result<()> {
    let alloc = tally.alloc();
    try_printed(tally, row, tree_of(alloc, bytes)?, wanted)?;
    try_printed(tally, row, copy_of(alloc, bytes)?, wanted)?;
    let same = spelled(alloc, copy_of(alloc, bytes)?)?.as_slice() == bytes;
    tally.note(same, row, "other bytes of a copy")
}

/// Tries what a tree and its copy print, and the bytes of the copy.
pub fn try_outline(tally: &mut Tally<'_>, numbers: &str, wanted: &str) -> anyhow::Result<()> {
    let bytes = bytes_of(tally.alloc(), numbers)?;
    try_bytes(tally, numbers, bytes.as_slice(), wanted)
}
