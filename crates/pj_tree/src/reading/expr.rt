ghost use Rattle.std.specs.Prelude.{◌≡◌};
ghost use Rattle.pj_fields.specs.Fields.{list_at, many};
ghost use Rattle.pj_tree.specs.Given.{Gives};
ghost use Rattle.pj_tree.specs.Reading.{expr_at, expr_node_at};

use crate::fault::TreeFault;
use crate::reading::names::{int, number, sym};
use crate::room::with_some_room;
use crate::tree::{Expr, ExprList};
use sqlite_items::Boxed;
use std::alloc::Global;

#[cycle(expression)]
#[tactic(auto, unfolding(crate::specs::Reading::expr_at))]
pub(crate) fn expr(alloc: Global, bytes: &[u8], depth: u32) -> Result<(Expr, &[u8]), TreeFault>
    ensures { Gives (λ x. (x.0, x.1.now)) result (expr_at depth bytes.now) }
{
    if depth == 0 {
        return Err(TreeFault::Bad);
    }
    expr_node(alloc, bytes, depth - 1)
}

#[cycle(expression)]
fn boxed(alloc: Global, bytes: &[u8], below: u32) -> Result<(Boxed<Expr>, &[u8]), TreeFault>
    ensures { Gives (λ x. (x.0, x.1.now)) result (expr_at below bytes.now) }
{
    let (inner, rest) = expr(alloc, bytes, below)?;
    Ok((Boxed::new(alloc, inner)?, rest))
}

#[cycle(expression)]
fn many_exprs(
    alloc: Global,
    count: u32,
    bytes: &[u8],
    below: u32,
) -> Result<(ExprList, &[u8]), TreeFault>
    ensures { Gives (λ x. (x.0, x.1.now)) result (many (expr_at below) count bytes.now) }
{
    let mut list = with_some_room(alloc, count);
    let mut rest = bytes;
    for _turn in 0..count {
        let (member, after) = expr(alloc, rest, below)?;
        list.push(member)?;
        rest = after;
    }
    Ok((list, rest))
}

#[cycle(expression)]
#[tactic(auto, unfolding(pj_fields::specs::Fields::list_at))]
fn exprs(alloc: Global, bytes: &[u8], below: u32) -> Result<(ExprList, &[u8]), TreeFault>
    ensures { Gives (λ x. (x.0, x.1.now)) result (list_at (expr_at below) bytes.now) }
{
    let (count, rest) = number(bytes)?;
    many_exprs(alloc, count, rest, below)
}

#[cycle(expression)]
#[tactic(auto, unfolding(crate::specs::Reading::expr_node_at))]
fn expr_node(alloc: Global, bytes: &[u8], below: u32) -> Result<(Expr, &[u8]), TreeFault>
    ensures { Gives (λ x. (x.0, x.1.now)) result (expr_node_at (expr_at below) bytes.now) }
{
    let (tag, rest) = number(bytes)?;
    match tag {
        0 => Ok((Expr::Nothing, rest)),
        1 => Ok((Expr::False, rest)),
        2 => Ok((Expr::True, rest)),
        3 => {
            let (value, rest) = int(rest)?;
            Ok((Expr::Int(value), rest))
        }
        4 => {
            let (text, rest) = sym(rest)?;
            Ok((Expr::Str(text), rest))
        }
        5 => {
            let (name, rest) = sym(rest)?;
            Ok((Expr::Local(name), rest))
        }
        6 => {
            let (module, rest) = sym(rest)?;
            let (name, rest) = sym(rest)?;
            Ok((Expr::Global(module, name), rest))
        }
        7 => {
            let (of, rest) = boxed(alloc, rest, below)?;
            let (name, rest) = sym(rest)?;
            Ok((Expr::Field(of, name), rest))
        }
        8 => {
            let (module, rest) = sym(rest)?;
            let (name, rest) = sym(rest)?;
            let (args, rest) = exprs(alloc, rest, below)?;
            Ok((Expr::Call(module, name, args), rest))
        }
        9 => {
            let (name, rest) = sym(rest)?;
            let (args, rest) = exprs(alloc, rest, below)?;
            Ok((Expr::CallLocal(name, args), rest))
        }
        10 => {
            let (callee, rest) = boxed(alloc, rest, below)?;
            let (args, rest) = exprs(alloc, rest, below)?;
            Ok((Expr::Latest(callee, args), rest))
        }
        11 => {
            let (left, rest) = boxed(alloc, rest, below)?;
            let (right, rest) = boxed(alloc, rest, below)?;
            Ok((Expr::And(left, right), rest))
        }
        12 => {
            let (left, rest) = boxed(alloc, rest, below)?;
            let (right, rest) = boxed(alloc, rest, below)?;
            Ok((Expr::Or(left, right), rest))
        }
        13 => {
            let (test, rest) = boxed(alloc, rest, below)?;
            let (chosen, rest) = boxed(alloc, rest, below)?;
            let (other, rest) = boxed(alloc, rest, below)?;
            Ok((Expr::Cond(test, chosen, other), rest))
        }
        14 => {
            let (left, rest) = boxed(alloc, rest, below)?;
            let (right, rest) = boxed(alloc, rest, below)?;
            Ok((Expr::Same(left, right), rest))
        }
        _ => Err(TreeFault::Bad),
    }
}
