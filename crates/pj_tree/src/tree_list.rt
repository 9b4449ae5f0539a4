ghost use Rattle.std.specs.Prelude.{◌≡◌, ◌∷◌, ◌++◌, [], OnOk, OnErr, length};

use crate::tree::TreeNode;
use pj_base::NoMemory;
use std::alloc::Global;
use std::marker::Model;

/// A list of trees, which contracts see as the list.
#[derive(Drop)]
pub struct TreeList {
    trees: Vec<TreeNode>,
}

impl Model for TreeList {
    ghost use Rattle.std.specs.Prelude.{List};
    ghost use Rattle.pj_tree.specs.declared.tree.TreeNode.{TreeNode};
    ghost use Rattle.pj_tree.specs.contracts.tree.TreeNode as node;
    ghost use Rattle.std.specs.Coded.{codes};

    ghost Value = { List TreeNode };

    ghost coded = { Prim.hlevel (codes, node.the_row.coded) };

    ghost view = { λ t. t.trees.items };
}

impl TreeList {
    /// The empty list. It takes no memory.
    pub fn new(alloc: Global) -> TreeList
        ensures { result ≡ [] }
    {
        TreeList {
            trees: Vec::new(alloc),
        }
    }

    /// The trees, lent.
    pub fn as_slice(&self) -> &[TreeNode]
        ensures { result.now ≡ self.now }
    {
        self.trees.as_slice()
    }

    /// How many trees there are.
    pub fn len(&self) -> usize
        ensures { result ≡ length self.now }
    {
        self.trees.len()
    }

    /// Adds a tree at the end. Without memory nothing changes.
    pub fn push(&mut self, tree: TreeNode) -> Result<(), NoMemory>
        ensures added { OnOk result (self.new ≡ self.old ++ tree ∷ []) }
        ensures unchanged { OnErr result (self.new ≡ self.old) }
    {
        self.trees.push(tree)?;
        Ok(())
    }

    /// Adds trees at the end. Without memory nothing changes.
    pub fn append(&mut self, more: TreeList) -> Result<(), NoMemory>
        ensures added { OnOk result (self.new ≡ self.old ++ more) }
        ensures unchanged { OnErr result (self.new ≡ self.old) }
    {
        let TreeList { mut trees } = more;
        self.trees.append(&mut trees)?;
        Ok(())
    }
}
