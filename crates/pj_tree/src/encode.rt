//! Trees to bytes.

ghost use Rattle.std.specs.Prelude.{◌≡◌, ◌++◌, ◌<◌, ◌^◌, OnOk, OnErr, length};
ghost use Rattle.pj_fields.specs.Fields.{list};
ghost use Rattle.pj_tree.specs.Bytes.{sym, syms, param, params, part_bytes, expr, stmt, tree};
ghost use Rattle.pj_tree.specs.Spelled.{payload, body, definition};
ghost use Rattle.pj_tree.specs.Fits.{ListFits, ExprFits, ExprNodeFits, StmtFits, StmtNodeFits, DefNodeFits, PayloadNodeFits, BodyNodeFits, TreeFits};
ghost use Rattle.pj_tree.specs.declared.tree.Expr.{out-Expr};
ghost use Rattle.pj_tree.specs.declared.tree.Stmt.{out-Stmt};
ghost use Rattle.pj_tree.specs.declared.tree.Payload.{out-Payload};
ghost use Rattle.pj_tree.specs.declared.tree.Body.{out-Body};
ghost use Rattle.pj_tree.specs.declared.tree.DefTree.{out-DefTree};

use crate::tree::{Body, DefTree, Expr, Param, Part, Payload, Stmt, Sym, TreeNode};
use pj_base::{ByteList, NoMemory};
use pj_fields::{put_int, put_number};
use std::alloc::Global;

/// A name. A tree that fits has none as a text.
fn put_sym(name: &Sym, out: &mut ByteList) -> Result<(), NoMemory>
    ensures { OnOk result (out.new ≡ out.old ++ sym name.now) }
{
    match name {
        Sym::Number(number) => put_number(*number, out),
        Sym::Text(_) => Ok(()),
    }
}

#[cycle(expr)]
#[tactic(auto, unfolding(crate::specs::Fits::ExprFits))]
fn put_expr(depth: u32, e: &Expr, out: &mut ByteList) -> Result<(), NoMemory>
    requires { ExprFits depth e.now }
    ensures { OnOk result (out.new ≡ out.old ++ expr e.now) }
{
    if depth == 0 {
        return Ok(());
    }
    put_node(depth - 1, e, out)
}

#[cycle(expr)]
#[tactic(auto, using(crate::proofs::Spelling::spelling))]
fn put_node(below: u32, e: &Expr, out: &mut ByteList) -> Result<(), NoMemory>
    requires { ExprNodeFits (ExprFits below) (out-Expr e.now) }
    ensures { OnOk result (out.new ≡ out.old ++ expr e.now) }
{
    match e {
        Expr::Nothing => put_number(0, out),
        Expr::False => put_number(1, out),
        Expr::True => put_number(2, out),
        Expr::Int(value) => {
            put_number(3, out)?;
            put_int(*value, out)
        }
        Expr::Str(text) => {
            put_number(4, out)?;
            put_sym(text, out)
        }
        Expr::Local(name) => {
            put_number(5, out)?;
            put_sym(name, out)
        }
        Expr::Global(owner, name) => {
            put_number(6, out)?;
            put_sym(owner, out)?;
            put_sym(name, out)
        }
        Expr::Field(of, name) => {
            put_number(7, out)?;
            put_expr(below, of.get(), out)?;
            put_sym(name, out)
        }
        Expr::Call(owner, name, arguments) => {
            put_number(8, out)?;
            put_sym(owner, out)?;
            put_sym(name, out)?;
            put_exprs(below, arguments.as_slice(), out)
        }
        Expr::CallLocal(name, arguments) => {
            put_number(9, out)?;
            put_sym(name, out)?;
            put_exprs(below, arguments.as_slice(), out)
        }
        Expr::Latest(callee, arguments) => {
            put_number(10, out)?;
            put_expr(below, callee.get(), out)?;
            put_exprs(below, arguments.as_slice(), out)
        }
        Expr::And(left, right) => {
            put_number(11, out)?;
            put_expr(below, left.get(), out)?;
            put_expr(below, right.get(), out)
        }
        Expr::Or(left, right) => {
            put_number(12, out)?;
            put_expr(below, left.get(), out)?;
            put_expr(below, right.get(), out)
        }
        Expr::Cond(test, chosen, other) => {
            put_number(13, out)?;
            put_expr(below, test.get(), out)?;
            put_expr(below, chosen.get(), out)?;
            put_expr(below, other.get(), out)
        }
        Expr::Same(left, right) => {
            put_number(14, out)?;
            put_expr(below, left.get(), out)?;
            put_expr(below, right.get(), out)
        }
    }
}

/// How many there are, and each of them.
#[cycle(expr)]
#[tactic(auto, unfolding(pj_fields::specs::Fields::list))]
fn put_exprs(below: u32, all: &[Expr], out: &mut ByteList) -> Result<(), NoMemory>
    requires { ListFits (ExprFits below) all.now }
    ensures { OnOk result (out.new ≡ out.old ++ list expr all.now) }
{
    put_number(all.len() as u32, out)?;
    for e in all {
        put_expr(below, e, out)?;
    }
    Ok(())
}

/// Names, with how many there are.
#[tactic(auto, unfolding(crate::specs::Bytes::syms, pj_fields::specs::Fields::list))]
fn put_syms(all: &[Sym], out: &mut ByteList) -> Result<(), NoMemory>
    requires { length all.now < 2 ^ 32 }
    ensures { OnOk result (out.new ≡ out.old ++ syms all.now) }
{
    put_number(all.len() as u32, out)?;
    for name in all {
        put_sym(name, out)?;
    }
    Ok(())
}

fn put_param(p: &Param, out: &mut ByteList) -> Result<(), NoMemory>
    ensures { OnOk result (out.new ≡ out.old ++ param p.now) }
{
    put_sym(&p.name, out)?;
    put_sym(&p.declared.module, out)?;
    put_sym(&p.declared.name, out)
}

/// Parameters, with how many there are.
#[tactic(auto, unfolding(crate::specs::Bytes::params, pj_fields::specs::Fields::list))]
fn put_params(all: &[Param], out: &mut ByteList) -> Result<(), NoMemory>
    requires { length all.now < 2 ^ 32 }
    ensures { OnOk result (out.new ≡ out.old ++ params all.now) }
{
    put_number(all.len() as u32, out)?;
    for p in all {
        put_param(p, out)?;
    }
    Ok(())
}

/// The number of a tree. A tree that fits holds none itself.
#[tactic(auto, using(crate::proofs::TreeSpelling::tree_spelling))]
fn put_part(p: &Part, out: &mut ByteList) -> Result<(), NoMemory>
    ensures { OnOk result (out.new ≡ out.old ++ part_bytes p.now) }
{
    match p {
        Part::Number(number) => put_number(*number, out),
        Part::Held(_) => Ok(()),
    }
}

#[cycle(stmt)]
#[tactic(auto, unfolding(crate::specs::Fits::StmtFits))]
fn put_stmt(depth: u32, s: &Stmt, out: &mut ByteList) -> Result<(), NoMemory>
    requires { StmtFits depth s.now }
    ensures { OnOk result (out.new ≡ out.old ++ stmt s.now) }
{
    if depth == 0 {
        return Ok(());
    }
    put_stmt_node(depth - 1, s, out)
}

#[cycle(stmt)]
#[tactic(auto, using(crate::proofs::TreeSpelling::tree_spelling))]
fn put_stmt_node(below: u32, s: &Stmt, out: &mut ByteList) -> Result<(), NoMemory>
    requires { StmtNodeFits (ExprFits below) (StmtFits below) (out-Stmt s.now) }
    ensures { OnOk result (out.new ≡ out.old ++ stmt s.now) }
{
    match s {
        Stmt::Value(value) => {
            put_number(32, out)?;
            put_expr(below, value, out)
        }
        Stmt::SetLocal(name, value) => {
            put_number(33, out)?;
            put_sym(name, out)?;
            put_expr(below, value, out)
        }
        Stmt::SetGlobal(name, value) => {
            put_number(34, out)?;
            put_sym(name, out)?;
            put_expr(below, value, out)
        }
        Stmt::SetField(of, name, value) => {
            put_number(35, out)?;
            put_expr(below, of, out)?;
            put_sym(name, out)?;
            put_expr(below, value, out)
        }
        Stmt::If(test, chosen, other) => {
            put_number(36, out)?;
            put_expr(below, test, out)?;
            put_block(below, chosen.as_slice(), out)?;
            put_block(below, other.as_slice(), out)
        }
        Stmt::While(introduced, test, block) => {
            put_number(37, out)?;
            put_syms(introduced.as_slice(), out)?;
            put_expr(below, test, out)?;
            put_block(below, block.as_slice(), out)
        }
        Stmt::For(name, first, last, introduced, block) => {
            put_number(38, out)?;
            put_sym(name, out)?;
            put_expr(below, first, out)?;
            put_expr(below, last, out)?;
            put_syms(introduced.as_slice(), out)?;
            put_block(below, block.as_slice(), out)
        }
        Stmt::Break => put_number(39, out),
        Stmt::Continue => put_number(40, out),
        Stmt::Return(value) => {
            put_number(41, out)?;
            put_expr(below, value, out)
        }
        Stmt::Eval(owner, part) => {
            put_number(42, out)?;
            put_sym(owner, out)?;
            put_part(part, out)
        }
    }
}

/// Statements, with how many there are.
#[cycle(stmt)]
#[tactic(auto, unfolding(pj_fields::specs::Fields::list))]
fn put_block(below: u32, all: &[Stmt], out: &mut ByteList) -> Result<(), NoMemory>
    requires { ListFits (StmtFits below) all.now }
    ensures { OnOk result (out.new ≡ out.old ++ list stmt all.now) }
{
    put_number(all.len() as u32, out)?;
    for s in all {
        put_stmt(below, s, out)?;
    }
    Ok(())
}

#[tactic(auto, using(crate::proofs::TreeSpelling::tree_spelling))]
fn put_definition(d: &DefTree, out: &mut ByteList) -> Result<(), NoMemory>
    requires { DefNodeFits (out-DefTree d.now) }
    ensures { OnOk result (out.new ≡ out.old ++ definition d.now) }
{
    put_number(64, out)?;
    put_sym(&d.module, out)?;
    put_sym(&d.fun, out)?;
    put_params(d.params.as_slice(), out)?;
    put_part(&d.body, out)
}

#[tactic(auto, using(crate::proofs::TreeSpelling::tree_spelling))]
fn put_payload(below: u32, p: &Payload, out: &mut ByteList) -> Result<(), NoMemory>
    requires { PayloadNodeFits (ExprFits below) (out-Payload p.now) }
    ensures { OnOk result (out.new ≡ out.old ++ payload p.now) }
{
    match p {
        Payload::Def(d) => put_definition(d, out),
        Payload::SetBinding { name, value } => {
            put_number(65, out)?;
            put_sym(name, out)?;
            put_expr(below, value, out)
        }
        Payload::Value(value) => {
            put_number(66, out)?;
            put_expr(below, value, out)
        }
    }
}

#[tactic(auto, using(crate::proofs::TreeSpelling::tree_spelling))]
fn put_body(below: u32, b: &Body, out: &mut ByteList) -> Result<(), NoMemory>
    requires { BodyNodeFits (StmtFits below) (out-Body b.now) }
    ensures { OnOk result (out.new ≡ out.old ++ body b.now) }
{
    put_number(67, out)?;
    put_syms(b.params.as_slice(), out)?;
    put_syms(b.introduced.as_slice(), out)?;
    put_block(below, b.block.as_slice(), out)
}

#[tactic(auto, using(crate::proofs::TreeSpelling::tree_spelling), unfolding(crate::specs::Fits::TreeFitsBelow))]
fn put_tree(body: &TreeNode, out: &mut ByteList) -> Result<(), NoMemory>
    requires { TreeFits body.now }
    ensures { OnOk result (out.new ≡ out.old ++ tree body.now) }
{
    match body {
        TreeNode::Body(body) => put_body(127, body, out),
        TreeNode::Payload(payload) => put_payload(127, payload, out),
    }
}

/// Adds the bytes of a tree at the end. The tree has numbers for names and for the trees that it names, it nests at most
/// 128 deep, and no list in it has more than 4,294,967,295 members. Without memory nothing changes.
pub fn encode_tree(alloc: Global, body: &TreeNode, out: &mut ByteList) -> Result<(), NoMemory>
    requires fits { TreeFits body.now }
    ensures put { OnOk result (out.new ≡ out.old ++ tree body.now) }
    ensures unchanged { OnErr result (out.new ≡ out.old) }
{
    let mut bytes = ByteList::new(alloc);
    put_tree(body, &mut bytes)?;
    out.extend(bytes.as_slice())
}
