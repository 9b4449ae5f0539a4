ghost use Rattle.std.specs.Prelude.{◌≡◌, ◌≤◌, ◌++◌, List, ℕ, IfOk, IsErrOf, drop, length};
ghost use Rattle.pj_tree.specs.Bytes.{tree};
ghost use Rattle.pj_tree.specs.Fits.{TreeFits};
ghost use Rattle.pj_tree.specs.declared.tree.TreeNode.{TreeNode};
ghost use Rattle.pj_tree.specs.declared.fault.TreeFault.TheVariants as faults;

use crate::fault::TreeFault;
use crate::reading::whole::whole;
use crate::tree::TreeNode;
use std::alloc::Global;

/// The tree whose bytes stand at a place, and the place behind them.
pub fn decode_tree(alloc: Global, bytes: &[u8], at: usize) -> Result<(TreeNode, usize), TreeFault>
    // What is read has those bytes, and they end at the place that is answered.
    ensures found { IfOk result (λ r. TreeFits r.0 × (at ≤ r.1) × (drop at bytes.now ≡ tree r.0 ++ drop r.1 bytes.now)) }
    // That place is none behind the end.
    ensures within { IfOk result (λ r. r.1 ≤ length bytes.now) }
    // Bad comes only where no tree's bytes stand at the place.
    ensures bad { IsErrOf result faults.Bad → (t : TreeNode) (rest : List ℕ) → TreeFits t → drop at bytes.now ≡ tree t ++ rest → ⊥ }
    // No other tree's bytes stand there.
    ensures only { IfOk result (λ r. (t : TreeNode) (rest : List ℕ) → TreeFits t → drop at bytes.now ≡ tree t ++ rest → t ≡ r.0) }
{
    if at > bytes.len() {
        return Err(TreeFault::Bad);
    }
    let (_, start) = bytes.split_at(at);
    let (tree, rest) = whole(alloc, start)?;
    Ok((tree, bytes.len() - rest.len()))
}
