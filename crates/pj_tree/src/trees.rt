//! The trees of a program, by image and number.
ghost use Rattle.std.specs.Prelude.{ℕ, ◌≡◌, ◌≤◌, ◌<◌, ◌+◌, ◌-◌, ◌++◌, ◌∷◌, [], length, slice_get, IfOk, OnOk, OnErr};
ghost use Rattle.std.specs.Option.{option_copied};
ghost use Rattle.pj_tree.specs.Forest.{trees_of, IsThere, put_behind};
ghost use Rattle.pj_tree.specs.Named.{NameLater, named_by_node};
ghost use Rattle.pj_tree.specs.Numbering.{laid_out};
ghost use Rattle.pj_tree.specs.Reads.{Strings, Parts, node_of, parts_of};

use crate::numbering::{Numbering, node};
use crate::tree::TreeNode;
use crate::tree_list::TreeList;
use pj_base::{KTree, MAIN, NoMemory, Target};
use std::alloc::Global;
use std::marker::Model;

/// The bodies and payloads of each image, and those that the run itself adds, each by its place in its list.
#[derive(Drop)]
pub struct Trees {
    images: Vec<TreeList>,
    main: TreeList,
    room: usize,
}

impl Model for Trees {
    ghost use Rattle.std.specs.Prelude.{◌≤◌, ◌+◌, vec_len, vec_capacity};
    ghost use Rattle.std.specs.Coded.{codes};
    ghost use Rattle.pj_tree.specs.Forest.{Forest};
    ghost use Rattle.pj_tree.specs.contracts.tree.TreeNode as node;

    ghost Value = { Forest };

    ghost coded = { Prim.hlevel (codes, node.the_row.coded) };

    ghost view = { λ t. record { images = t.images.items; main = t.main; room = t.room } };

    ghost invariant = { λ t. vec_len t.images + t.room ≤ vec_capacity t.images };
}

impl Trees {
    /// No trees, and no images. It takes no memory.
    pub fn new(alloc: Global) -> Trees
        ensures { result ≡ record { images = []; main = []; room = 0 } }
    {
        Trees {
            images: Vec::new(alloc),
            main: TreeList::new(alloc),
            room: 0,
        }
    }

    /// The trees of an image, or of the run itself. There are none where there is no such image.
    pub fn list(&self, image: u32) -> &[TreeNode]
        ensures { result.now ≡ trees_of self.now image }
    {
        if image == MAIN {
            return self.main.as_slice();
        }
        if image == 0 {
            return &[];
        }
        match self.images.get(image as usize - 1) {
            Some(trees) => trees.as_slice(),
            None => &[],
        }
    }

    /// A tree by its image and its place, or None where there is none.
    pub fn tree(&self, target: Target<KTree>) -> Option<&TreeNode>
        ensures { option_copied result ≡ slice_get (trees_of self.now target.image) target.ordinal }
    {
        self.list(target.image).get(target.ordinal as usize)
    }

    /// Makes room for one more image. Without memory nothing changes.
    pub fn reserve(&mut self) -> Result<(), NoMemory>
        ensures room { OnOk result (self.new ≡ record self.old { room = self.old.room + 1 }) }
        ensures unchanged { OnErr result (self.new ≡ self.old) }
    {
        let more = self.room.checked_add(1).ok_or(NoMemory)?;
        self.images.reserve(more)?;
        self.room = more;
        Ok(())
    }

    /// Adds the trees of the next image, for which there has to be room. It takes no memory.
    pub fn add_image(&mut self, image: u32, trees: TreeList)
        requires next { image ≡ length self.old.images + 1 }
        requires room { 0 < self.old.room }
        ensures { self.new ≡ record self.old { images = self.old.images ++ trees ∷ []; room = self.old.room - 1 } }
    {
        let _number = image;
        let _ = self.images.push(trees);
        self.room -= 1;
    }

    /// Adds a tree, and the trees that it holds, each as a tree of its own that is named by its number. Names and texts stay
    /// as they are. The tree comes first, and a tree before those that it names. Without memory nothing changes; an image
    /// that would have more than 4,294,967,295 trees counts as want of memory.
    pub fn add(
        &mut self,
        alloc: Global,
        image: u32,
        item: &TreeNode,
    ) -> Result<Target<KTree>, NoMemory>
        requires there { IsThere self.old image }
        ensures target { IfOk result (λ h. (h.image ≡ image) × (h.ordinal ≡ length (trees_of self.old image))) }
        ensures added { OnOk result (self.new ≡ put_behind image (laid_out item.now (length (trees_of self.old image))) self.old) }
        ensures unchanged { OnErr result (self.new ≡ self.old) }
        // What the tree meant, its number means now, whatever the strings of the image are.
        ensures means { IfOk result (λ h. named_by_node item.now ≡ [] → (strings : Strings) (parts : Parts) → parts_of strings (trees_of self.new image) h.ordinal ≡ node_of strings parts item.now) }
        // The older trees mean what they did, where each names later ones alone.
        ensures older { OnOk result ((strings : Strings) (k : ℕ) → k < length (trees_of self.old image) → NameLater 0 (length (trees_of self.old image)) (trees_of self.old image) → parts_of strings (trees_of self.new image) k ≡ parts_of strings (trees_of self.old image) k) }
    {
        let place = self.list(image).len();
        let number = number_of(place)?;
        let more = laid(alloc, item, number)?;
        self.put(image, more)?;
        Ok(Target::new(image, place as u64))
    }

    /// Puts trees behind those of an image. Without memory nothing changes.
    fn put(&mut self, image: u32, more: TreeList) -> Result<(), NoMemory>
        requires there { IsThere self.old image }
        ensures added { OnOk result (self.new ≡ put_behind image more self.old) }
        ensures unchanged { OnErr result (self.new ≡ self.old) }
    {
        if image == MAIN {
            self.main.append(more)
        } else {
            self.images[image as usize - 1].append(more)
        }
    }
}

/// The number of a place in a list. A place above 4,294,967,295 counts as want of memory.
fn number_of(place: usize) -> Result<u32, NoMemory>
    ensures { IfOk result (λ n. n ≡ place) }
{
    u32::try_from(place).map_err(|_| NoMemory)
}

/// The trees that a tree becomes, of which the first has this number.
fn laid(alloc: Global, item: &TreeNode, number: u32) -> Result<TreeList, NoMemory>
    ensures { IfOk result (λ ts. ts ≡ laid_out item.now number) }
{
    let mut inner = Numbering {
        next: number.checked_add(1).ok_or(NoMemory)?,
        later: TreeList::new(alloc),
    };
    let first = node(alloc, item, &mut inner)?;
    let mut trees = TreeList::new(alloc);
    trees.push(first)?;
    let Numbering { next: _, later } = inner;
    trees.append(later)?;
    Ok(trees)
}
