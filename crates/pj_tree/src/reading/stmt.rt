ghost use Rattle.std.specs.Prelude.{◌≡◌};
ghost use Rattle.pj_fields.specs.Fields.{list_at, many};
ghost use Rattle.pj_tree.specs.Given.{Gives};
ghost use Rattle.pj_tree.specs.Reading.{expr_at, stmt_at, stmt_node_at};

use crate::fault::TreeFault;
use crate::reading::expr::expr;
use crate::reading::names::{number, part, sym, syms};
use crate::room::with_some_room;
use crate::tree::{Block, Stmt};
use std::alloc::Global;

#[cycle(statement)]
#[tactic(auto, unfolding(crate::specs::Reading::stmt_at))]
fn stmt(alloc: Global, bytes: &[u8], depth: u32) -> Result<(Stmt, &[u8]), TreeFault>
    ensures { Gives (λ x. (x.0, x.1.now)) result (stmt_at depth bytes.now) }
{
    if depth == 0 {
        return Err(TreeFault::Bad);
    }
    stmt_node(alloc, bytes, depth - 1)
}

#[cycle(statement)]
fn many_stmts(
    alloc: Global,
    count: u32,
    bytes: &[u8],
    below: u32,
) -> Result<(Block, &[u8]), TreeFault>
    ensures { Gives (λ x. (x.0, x.1.now)) result (many (stmt_at below) count bytes.now) }
{
    let mut list = with_some_room(alloc, count);
    let mut rest = bytes;
    for _turn in 0..count {
        let (member, after) = stmt(alloc, rest, below)?;
        list.push(member)?;
        rest = after;
    }
    Ok((list, rest))
}

#[cycle(statement)]
#[tactic(auto, unfolding(pj_fields::specs::Fields::list_at))]
pub(crate) fn block(alloc: Global, bytes: &[u8], below: u32) -> Result<(Block, &[u8]), TreeFault>
    ensures { Gives (λ x. (x.0, x.1.now)) result (list_at (stmt_at below) bytes.now) }
{
    let (count, rest) = number(bytes)?;
    many_stmts(alloc, count, rest, below)
}

#[cycle(statement)]
#[tactic(auto, unfolding(crate::specs::Reading::stmt_node_at))]
fn stmt_node(alloc: Global, bytes: &[u8], below: u32) -> Result<(Stmt, &[u8]), TreeFault>
    ensures { Gives (λ x. (x.0, x.1.now)) result (stmt_node_at (expr_at below) (stmt_at below) bytes.now) }
{
    let (tag, rest) = number(bytes)?;
    match tag {
        32 => {
            let (value, rest) = expr(alloc, rest, below)?;
            Ok((Stmt::Value(value), rest))
        }
        33 => {
            let (name, rest) = sym(rest)?;
            let (value, rest) = expr(alloc, rest, below)?;
            Ok((Stmt::SetLocal(name, value), rest))
        }
        34 => {
            let (name, rest) = sym(rest)?;
            let (value, rest) = expr(alloc, rest, below)?;
            Ok((Stmt::SetGlobal(name, value), rest))
        }
        35 => {
            let (of, rest) = expr(alloc, rest, below)?;
            let (name, rest) = sym(rest)?;
            let (value, rest) = expr(alloc, rest, below)?;
            Ok((Stmt::SetField(of, name, value), rest))
        }
        36 => {
            let (test, rest) = expr(alloc, rest, below)?;
            let (chosen, rest) = block(alloc, rest, below)?;
            let (other, rest) = block(alloc, rest, below)?;
            Ok((Stmt::If(test, chosen, other), rest))
        }
        37 => {
            let (introduced, rest) = syms(alloc, rest)?;
            let (test, rest) = expr(alloc, rest, below)?;
            let (body, rest) = block(alloc, rest, below)?;
            Ok((Stmt::While(introduced, test, body), rest))
        }
        38 => {
            let (name, rest) = sym(rest)?;
            let (first, rest) = expr(alloc, rest, below)?;
            let (last, rest) = expr(alloc, rest, below)?;
            let (introduced, rest) = syms(alloc, rest)?;
            let (body, rest) = block(alloc, rest, below)?;
            Ok((Stmt::For(name, first, last, introduced, body), rest))
        }
        39 => Ok((Stmt::Break, rest)),
        40 => Ok((Stmt::Continue, rest)),
        41 => {
            let (value, rest) = expr(alloc, rest, below)?;
            Ok((Stmt::Return(value), rest))
        }
        42 => {
            let (module, rest) = sym(rest)?;
            let (tree, rest) = part(rest)?;
            Ok((Stmt::Eval(module, tree), rest))
        }
        _ => Err(TreeFault::Bad),
    }
}
