//! Numbers for the trees that a tree holds.
ghost use Rattle.std.specs.Prelude.{◌≡◌, ◌++◌, IfOk, OnOk, map};
ghost use Rattle.pj_tree.specs.Numbering.{all, numbered_part, numbered_payload, numbered_stmt, numbered_node, numbered_body, numbered_def};

use crate::expression_copy::{copy_expr, copy_params, copy_sym, copy_syms};
use crate::tree::{Block, Body, DefTree, Part, Payload, Stmt, TreeNode};
use crate::tree_list::TreeList;
use pj_base::NoMemory;
use sqlite_items::Items;
use std::alloc::Global;

/// The next free number, and the trees that got the numbers before it, in their order.
#[derive(Drop)]
pub struct Numbering {
    pub next: u32,
    pub later: TreeList,
}

/// A statement in which all that is named has a number.
#[cycle(number_tree)]
#[tactic(auto, using(crate::proofs::LaidParts::numbering))]
fn stmt(alloc: Global, s: &Stmt, n: &mut Numbering) -> Result<Stmt, NoMemory>
    ensures laid { IfOk result (λ x. x ≡ (numbered_stmt s.now n.old.next).laid) }
    ensures later { OnOk result (n.new.later ≡ n.old.later ++ (numbered_stmt s.now n.old.next).later) }
    ensures next { OnOk result (n.new.next ≡ (numbered_stmt s.now n.old.next).next) }
{
    match s {
        Stmt::If(c, a, b) => Ok(Stmt::If(
            copy_expr(alloc, c)?,
            block(alloc, a.as_slice(), n)?,
            block(alloc, b.as_slice(), n)?,
        )),
        Stmt::While(names, c, b) => Ok(Stmt::While(
            copy_syms(alloc, names.as_slice())?,
            copy_expr(alloc, c)?,
            block(alloc, b.as_slice(), n)?,
        )),
        Stmt::For(x, from, to, names, b) => Ok(Stmt::For(
            copy_sym(alloc, x)?,
            copy_expr(alloc, from)?,
            copy_expr(alloc, to)?,
            copy_syms(alloc, names.as_slice())?,
            block(alloc, b.as_slice(), n)?,
        )),
        Stmt::Eval(m, p) => Ok(Stmt::Eval(copy_sym(alloc, m)?, part(alloc, p, n)?)),
        Stmt::Value(e) => Ok(Stmt::Value(copy_expr(alloc, e)?)),
        Stmt::SetLocal(x, e) => Ok(Stmt::SetLocal(copy_sym(alloc, x)?, copy_expr(alloc, e)?)),
        Stmt::SetGlobal(x, e) => Ok(Stmt::SetGlobal(copy_sym(alloc, x)?, copy_expr(alloc, e)?)),
        Stmt::SetField(a, x, e) => Ok(Stmt::SetField(
            copy_expr(alloc, a)?,
            copy_sym(alloc, x)?,
            copy_expr(alloc, e)?,
        )),
        Stmt::Break => Ok(Stmt::Break),
        Stmt::Continue => Ok(Stmt::Continue),
        Stmt::Return(e) => Ok(Stmt::Return(copy_expr(alloc, e)?)),
    }
}

#[cycle(number_tree)]
#[tactic(auto, using(crate::proofs::LaidParts::numbering))]
fn block(alloc: Global, stmts: &[Stmt], n: &mut Numbering) -> Result<Block, NoMemory>
    ensures laid { IfOk result (λ x. x ≡ (all (map numbered_stmt stmts.now) n.old.next).laid) }
    ensures later { OnOk result (n.new.later ≡ n.old.later ++ (all (map numbered_stmt stmts.now) n.old.next).later) }
    ensures next { OnOk result (n.new.next ≡ (all (map numbered_stmt stmts.now) n.old.next).next) }
{
    let mut laid = Items::new(alloc);
    for s in stmts {
        laid.push(stmt(alloc, s, n)?)?;
    }
    Ok(laid)
}

/// A tree that is held gets the next number, and what it names the numbers after that.
#[cycle(number_tree)]
#[tactic(auto, using(crate::proofs::LaidParts::numbering))]
fn part(alloc: Global, p: &Part, n: &mut Numbering) -> Result<Part, NoMemory>
    ensures laid { IfOk result (λ x. x ≡ (numbered_part p.now n.old.next).laid) }
    ensures later { OnOk result (n.new.later ≡ n.old.later ++ (numbered_part p.now n.old.next).later) }
    ensures next { OnOk result (n.new.next ≡ (numbered_part p.now n.old.next).next) }
{
    match p {
        Part::Held(tree) => {
            let number = n.next;
            let mut inner = Numbering {
                next: number.checked_add(1).ok_or(NoMemory)?,
                later: TreeList::new(alloc),
            };
            let laid = node(alloc, tree.get(), &mut inner)?;
            let Numbering { next, later } = inner;
            n.next = next;
            n.later.push(laid)?;
            n.later.append(later)?;
            Ok(Part::Number(number))
        }
        Part::Number(number) => Ok(Part::Number(*number)),
    }
}

/// A tree in which all that is named has a number.
#[cycle(number_tree)]
#[tactic(auto, using(crate::proofs::LaidParts::numbering))]
pub fn node(alloc: Global, tree: &TreeNode, n: &mut Numbering) -> Result<TreeNode, NoMemory>
    ensures laid { IfOk result (λ x. x ≡ (numbered_node tree.now n.old.next).laid) }
    ensures later { OnOk result (n.new.later ≡ n.old.later ++ (numbered_node tree.now n.old.next).later) }
    ensures next { OnOk result (n.new.next ≡ (numbered_node tree.now n.old.next).next) }
{
    match tree {
        TreeNode::Body(b) => Ok(TreeNode::Body(body(alloc, b, n)?)),
        TreeNode::Payload(p) => Ok(TreeNode::Payload(payload(alloc, p, n)?)),
    }
}

#[cycle(number_tree)]
#[tactic(auto, using(crate::proofs::LaidParts::numbering))]
fn body(alloc: Global, b: &Body, n: &mut Numbering) -> Result<Body, NoMemory>
    ensures laid { IfOk result (λ x. x ≡ (numbered_body b.now n.old.next).laid) }
    ensures later { OnOk result (n.new.later ≡ n.old.later ++ (numbered_body b.now n.old.next).later) }
    ensures next { OnOk result (n.new.next ≡ (numbered_body b.now n.old.next).next) }
{
    let params = copy_syms(alloc, b.params.as_slice())?;
    let introduced = copy_syms(alloc, b.introduced.as_slice())?;
    let block = block(alloc, b.block.as_slice(), n)?;
    Ok(Body {
        params,
        introduced,
        block,
    })
}

#[cycle(number_tree)]
#[tactic(auto, using(crate::proofs::LaidParts::numbering))]
fn def(alloc: Global, d: &DefTree, n: &mut Numbering) -> Result<DefTree, NoMemory>
    ensures laid { IfOk result (λ x. x ≡ (numbered_def d.now n.old.next).laid) }
    ensures later { OnOk result (n.new.later ≡ n.old.later ++ (numbered_def d.now n.old.next).later) }
    ensures next { OnOk result (n.new.next ≡ (numbered_def d.now n.old.next).next) }
{
    let module = copy_sym(alloc, &d.module)?;
    let fun = copy_sym(alloc, &d.fun)?;
    let params = copy_params(alloc, d.params.as_slice())?;
    let body = part(alloc, &d.body, n)?;
    Ok(DefTree {
        module,
        fun,
        params,
        body,
    })
}

#[cycle(number_tree)]
#[tactic(auto, using(crate::proofs::LaidParts::numbering))]
fn payload(alloc: Global, p: &Payload, n: &mut Numbering) -> Result<Payload, NoMemory>
    ensures laid { IfOk result (λ x. x ≡ (numbered_payload p.now n.old.next).laid) }
    ensures later { OnOk result (n.new.later ≡ n.old.later ++ (numbered_payload p.now n.old.next).later) }
    ensures next { OnOk result (n.new.next ≡ (numbered_payload p.now n.old.next).next) }
{
    match p {
        Payload::Def(d) => Ok(Payload::Def(def(alloc, d, n)?)),
        Payload::SetBinding { name, value } => Ok(Payload::SetBinding {
            name: copy_sym(alloc, name)?,
            value: copy_expr(alloc, value)?,
        }),
        Payload::Value(e) => Ok(Payload::Value(copy_expr(alloc, e)?)),
    }
}
