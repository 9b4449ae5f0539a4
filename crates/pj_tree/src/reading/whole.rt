ghost use Rattle.std.specs.Prelude.{◌≡◌};
ghost use Rattle.pj_tree.specs.Given.{Gives};
ghost use Rattle.pj_tree.specs.Reading.{tree_at};

use crate::fault::TreeFault;
use crate::reading::expr::expr;
use crate::reading::names::{number, params, part, sym, syms};
use crate::reading::stmt::block;
use crate::tree::{Body, DefTree, Payload, TreeNode};
use std::alloc::Global;

/// The tree that stands at the front, and the bytes after it.
#[tactic(auto, unfolding(crate::specs::Reading::tree_at, crate::specs::Reading::tree_node_at))]
pub(crate) fn whole(alloc: Global, bytes: &[u8]) -> Result<(TreeNode, &[u8]), TreeFault>
    ensures { Gives (λ x. (x.0, x.1.now)) result (tree_at bytes.now) }
{
    let (tag, rest) = number(bytes)?;
    match tag {
        64 => {
            let (module, rest) = sym(rest)?;
            let (fun, rest) = sym(rest)?;
            let (params, rest) = params(alloc, rest)?;
            let (body, rest) = part(rest)?;
            let definition = DefTree {
                module,
                fun,
                params,
                body,
            };
            Ok((TreeNode::Payload(Payload::Def(definition)), rest))
        }
        65 => {
            let (name, rest) = sym(rest)?;
            let (value, rest) = expr(alloc, rest, 127)?;
            Ok((TreeNode::Payload(Payload::SetBinding { name, value }), rest))
        }
        66 => {
            let (value, rest) = expr(alloc, rest, 127)?;
            Ok((TreeNode::Payload(Payload::Value(value)), rest))
        }
        67 => {
            let (params, rest) = syms(alloc, rest)?;
            let (introduced, rest) = syms(alloc, rest)?;
            let (block, rest) = block(alloc, rest, 127)?;
            let body = Body {
                params,
                introduced,
                block,
            };
            Ok((TreeNode::Body(body), rest))
        }
        _ => Err(TreeFault::Bad),
    }
}
