ghost use Rattle.std.specs.Prelude.{◌≡◌, IfOk};

use crate::expression_copy::{copy_expr, copy_params, copy_sym, copy_syms};
use crate::tree::{Block, Body, DefTree, Part, Payload, Stmt, TreeNode};
use pj_base::NoMemory;
use sqlite_items::{Boxed, Items};
use std::alloc::Global;

/// A copy of a statement.
#[cycle(copy_tree)]
pub fn copy_stmt(alloc: Global, s: &Stmt) -> Result<Stmt, NoMemory>
    ensures { IfOk result (λ copied. copied ≡ s.now) }
{
    match s {
        Stmt::Value(e) => Ok(Stmt::Value(copy_expr(alloc, e)?)),
        Stmt::SetLocal(x, e) => Ok(Stmt::SetLocal(copy_sym(alloc, x)?, copy_expr(alloc, e)?)),
        Stmt::SetGlobal(x, e) => Ok(Stmt::SetGlobal(copy_sym(alloc, x)?, copy_expr(alloc, e)?)),
        Stmt::SetField(a, x, e) => Ok(Stmt::SetField(
            copy_expr(alloc, a)?,
            copy_sym(alloc, x)?,
            copy_expr(alloc, e)?,
        )),
        Stmt::If(c, a, b) => Ok(Stmt::If(
            copy_expr(alloc, c)?,
            copy_block(alloc, a.as_slice())?,
            copy_block(alloc, b.as_slice())?,
        )),
        Stmt::While(names, c, b) => Ok(Stmt::While(
            copy_syms(alloc, names.as_slice())?,
            copy_expr(alloc, c)?,
            copy_block(alloc, b.as_slice())?,
        )),
        Stmt::For(x, from, to, names, b) => Ok(Stmt::For(
            copy_sym(alloc, x)?,
            copy_expr(alloc, from)?,
            copy_expr(alloc, to)?,
            copy_syms(alloc, names.as_slice())?,
            copy_block(alloc, b.as_slice())?,
        )),
        Stmt::Break => Ok(Stmt::Break),
        Stmt::Continue => Ok(Stmt::Continue),
        Stmt::Return(e) => Ok(Stmt::Return(copy_expr(alloc, e)?)),
        Stmt::Eval(m, part) => Ok(Stmt::Eval(copy_sym(alloc, m)?, copy_part(alloc, part)?)),
    }
}

/// A copy of a list of statements.
#[cycle(copy_tree)]
pub fn copy_block(alloc: Global, block: &[Stmt]) -> Result<Block, NoMemory>
    ensures { IfOk result (λ copied. copied ≡ block.now) }
{
    let mut copied = Items::new(alloc);
    for s in block {
        copied.push(copy_stmt(alloc, s)?)?;
    }
    Ok(copied)
}

/// A copy of a tree that another one names.
#[cycle(copy_tree)]
pub fn copy_part(alloc: Global, part: &Part) -> Result<Part, NoMemory>
    ensures { IfOk result (λ copied. copied ≡ part.now) }
{
    match part {
        Part::Held(tree) => {
            let copied = copy_tree(alloc, tree.get())?;
            Ok(Part::Held(Boxed::new(alloc, copied)?))
        }
        Part::Number(number) => Ok(Part::Number(*number)),
    }
}

/// A copy of a tree that is numbered by itself.
#[cycle(copy_tree)]
pub fn copy_tree(alloc: Global, tree: &TreeNode) -> Result<TreeNode, NoMemory>
    ensures { IfOk result (λ copied. copied ≡ tree.now) }
{
    match tree {
        TreeNode::Body(body) => Ok(TreeNode::Body(copy_body(alloc, body)?)),
        TreeNode::Payload(payload) => Ok(TreeNode::Payload(copy_payload(alloc, payload)?)),
    }
}

/// A copy of the body of a method.
#[cycle(copy_tree)]
pub fn copy_body(alloc: Global, body: &Body) -> Result<Body, NoMemory>
    ensures { IfOk result (λ copied. copied ≡ body.now) }
{
    let params = copy_syms(alloc, body.params.as_slice())?;
    let introduced = copy_syms(alloc, body.introduced.as_slice())?;
    let block = copy_block(alloc, body.block.as_slice())?;
    Ok(Body {
        params,
        introduced,
        block,
    })
}

/// A copy of the definition of a method.
#[cycle(copy_tree)]
pub fn copy_def(alloc: Global, def: &DefTree) -> Result<DefTree, NoMemory>
    ensures { IfOk result (λ copied. copied ≡ def.now) }
{
    let module = copy_sym(alloc, &def.module)?;
    let fun = copy_sym(alloc, &def.fun)?;
    let params = copy_params(alloc, def.params.as_slice())?;
    let body = copy_part(alloc, &def.body)?;
    Ok(DefTree {
        module,
        fun,
        params,
        body,
    })
}

/// A copy of what `@eval` evaluates.
#[cycle(copy_tree)]
pub fn copy_payload(alloc: Global, payload: &Payload) -> Result<Payload, NoMemory>
    ensures { IfOk result (λ copied. copied ≡ payload.now) }
{
    match payload {
        Payload::Def(def) => Ok(Payload::Def(copy_def(alloc, def)?)),
        Payload::SetBinding { name, value } => Ok(Payload::SetBinding {
            name: copy_sym(alloc, name)?,
            value: copy_expr(alloc, value)?,
        }),
        Payload::Value(e) => Ok(Payload::Value(copy_expr(alloc, e)?)),
    }
}
