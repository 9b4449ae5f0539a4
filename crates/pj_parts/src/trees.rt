//! Source trees as parts of an image.

ghost use Rattle.std.specs.Prelude.{◌≡◌, ◌++◌, OnOk, length};
ghost use Rattle.pj_tree.specs.Bytes.{tree};
ghost use Rattle.pj_tree.specs.Reading.{tree_at};
ghost use Rattle.pj_parts.specs.Capped.{capped};
ghost use Rattle.pj_parts.specs.Given.{Gives};

use crate::fault::PartFault;
use crate::part::Part;
use crate::tree_size::tree_size;
use pj_base::{ByteList, NoMemory};
use pj_tree::{TreeFault, TreeNode, decode_tree, encode_tree};
use std::alloc::Global;

/// The tree at the front, and the bytes after it.
fn take_tree(alloc: Global, source: &[u8]) -> Result<(TreeNode, &[u8]), PartFault>
    ensures { Gives (λ x. (x.0, x.1.now)) result (tree_at source.now) }
{
    match decode_tree(alloc, source, 0) {
        Ok((found, end)) => {
            let (_, rest) = source.split_at(end);
            Ok((found, rest))
        }
        Err(TreeFault::Bad) => Err(PartFault::Bad),
        Err(TreeFault::NoMemory) => Err(PartFault::NoMemory),
    }
}

impl Part for TreeNode {
    ghost use Rattle.pj_tree.specs.Bytes.{tree};
    ghost use Rattle.pj_tree.specs.Fits.{TreeFits};
    ghost use Rattle.pj_tree.specs.Reading.{tree_at};

    ghost bytes = { tree };

    ghost fits = { TreeFits };

    ghost at = { tree_at };

    fn put(&self, alloc: Global, out: &mut ByteList) -> Result<(), NoMemory> {
        encode_tree(alloc, self, out)
    }

    fn take(alloc: Global, source: &[u8]) -> Result<(TreeNode, &[u8]), PartFault> {
        take_tree(alloc, source)
    }

    fn size(&self) -> u64 {
        tree_size(self)
    }
}
