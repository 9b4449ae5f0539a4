//! The lines of statements, and of the trees round them.

ghost use Rattle.std.specs.Prelude.{◌≡◌, ◌++◌, OnOk};
ghost use Rattle.pj_outline.specs.Outline.{stmt, stmts, part, payload, body, definition, tree};

use crate::expressions::put_expr;
use crate::lines::{put_body_line, put_def_line, put_eval_line, put_for_line, put_while_line};
use crate::names::{deeper, put_named, put_plain, put_tree_number};
use pj_base::{ByteList, NoMemory, Text};
use pj_tree::{Body, DefTree, Part, Payload, Stmt, TreeNode};
use std::alloc::Global;

/// Adds a statement at a level.
#[cycle(stmt)]
#[tactic(auto, using(crate::proofs::StmtLines::stmt_lines))]
pub fn put_stmt(
    alloc: Global,
    strings: &[Text],
    level: usize,
    s: &Stmt,
    out: &mut ByteList,
) -> Result<(), NoMemory>
    ensures { OnOk result (out.new ≡ out.old ++ stmt strings.now s.now level) }
{
    match s {
        Stmt::Value(value) => {
            put_plain(level, "Value", out)?;
            put_expr(alloc, strings, deeper(level)?, value, out)
        }
        Stmt::SetLocal(name, value) => {
            put_named(alloc, strings, level, "SetLocal", name, out)?;
            put_expr(alloc, strings, deeper(level)?, value, out)
        }
        Stmt::SetGlobal(name, value) => {
            put_named(alloc, strings, level, "SetGlobal", name, out)?;
            put_expr(alloc, strings, deeper(level)?, value, out)
        }
        Stmt::SetField(of, name, value) => {
            let below = deeper(level)?;
            put_named(alloc, strings, level, "SetField", name, out)?;
            put_expr(alloc, strings, below, of, out)?;
            put_expr(alloc, strings, below, value, out)
        }
        Stmt::If(test, chosen, other) => {
            let below = deeper(level)?;
            let lowest = deeper(below)?;
            put_plain(level, "If", out)?;
            put_expr(alloc, strings, below, test, out)?;
            put_plain(below, "then", out)?;
            put_stmts(alloc, strings, lowest, chosen.as_slice(), out)?;
            put_plain(below, "else", out)?;
            put_stmts(alloc, strings, lowest, other.as_slice(), out)
        }
        Stmt::While(introduced, test, block) => {
            let below = deeper(level)?;
            put_while_line(alloc, strings, level, introduced.as_slice(), out)?;
            put_expr(alloc, strings, below, test, out)?;
            put_stmts(alloc, strings, below, block.as_slice(), out)
        }
        Stmt::For(name, first, last, introduced, block) => {
            let below = deeper(level)?;
            put_for_line(alloc, strings, level, name, introduced.as_slice(), out)?;
            put_expr(alloc, strings, below, first, out)?;
            put_expr(alloc, strings, below, last, out)?;
            put_stmts(alloc, strings, below, block.as_slice(), out)
        }
        Stmt::Break => put_plain(level, "Break", out),
        Stmt::Continue => put_plain(level, "Continue", out),
        Stmt::Return(value) => {
            put_plain(level, "Return", out)?;
            put_expr(alloc, strings, deeper(level)?, value, out)
        }
        Stmt::Eval(owner, payload) => {
            put_eval_line(alloc, strings, level, owner, out)?;
            put_part(alloc, strings, deeper(level)?, payload, out)
        }
    }
}

/// Adds statements one after the other.
#[cycle(stmt)]
#[tactic(auto, using(crate::proofs::Texts::appended), unfolding(crate::specs::Outline::stmts))]
fn put_stmts(
    alloc: Global,
    strings: &[Text],
    level: usize,
    all: &[Stmt],
    out: &mut ByteList,
) -> Result<(), NoMemory>
    ensures { OnOk result (out.new ≡ out.old ++ stmts strings.now all.now level) }
{
    for s in all {
        put_stmt(alloc, strings, level, s, out)?;
    }
    Ok(())
}

/// Adds a tree that is held, or the number of one that isn't.
#[cycle(stmt)]
#[tactic(auto, using(crate::proofs::StmtLines::stmt_lines))]
fn put_part(
    alloc: Global,
    strings: &[Text],
    level: usize,
    p: &Part,
    out: &mut ByteList,
) -> Result<(), NoMemory>
    ensures { OnOk result (out.new ≡ out.old ++ part strings.now p.now level) }
{
    match p {
        Part::Held(held) => put_tree(alloc, strings, level, held.get(), out),
        Part::Number(number) => put_tree_number(alloc, level, *number, out),
    }
}

/// Adds a tree at a level.
#[cycle(stmt)]
#[tactic(auto, using(crate::proofs::StmtLines::stmt_lines))]
pub fn put_tree(
    alloc: Global,
    strings: &[Text],
    level: usize,
    t: &TreeNode,
    out: &mut ByteList,
) -> Result<(), NoMemory>
    ensures { OnOk result (out.new ≡ out.old ++ tree strings.now t.now level) }
{
    match t {
        TreeNode::Body(b) => put_body(alloc, strings, level, b, out),
        TreeNode::Payload(p) => put_payload(alloc, strings, level, p, out),
    }
}

/// Adds a payload at a level.
#[cycle(stmt)]
#[tactic(auto, using(crate::proofs::StmtLines::stmt_lines))]
fn put_payload(
    alloc: Global,
    strings: &[Text],
    level: usize,
    p: &Payload,
    out: &mut ByteList,
) -> Result<(), NoMemory>
    ensures { OnOk result (out.new ≡ out.old ++ payload strings.now p.now level) }
{
    match p {
        Payload::Def(d) => put_def(alloc, strings, level, d, out),
        Payload::SetBinding { name, value } => {
            put_named(alloc, strings, level, "SetBinding", name, out)?;
            put_expr(alloc, strings, deeper(level)?, value, out)
        }
        Payload::Value(value) => {
            put_plain(level, "Value", out)?;
            put_expr(alloc, strings, deeper(level)?, value, out)
        }
    }
}

/// Adds a body at a level.
#[cycle(stmt)]
#[tactic(auto, using(crate::proofs::StmtLines::stmt_lines))]
fn put_body(
    alloc: Global,
    strings: &[Text],
    level: usize,
    b: &Body,
    out: &mut ByteList,
) -> Result<(), NoMemory>
    ensures { OnOk result (out.new ≡ out.old ++ body strings.now b.now level) }
{
    put_body_line(alloc, strings, level, b, out)?;
    put_stmts(alloc, strings, deeper(level)?, b.block.as_slice(), out)
}

/// Adds a definition at a level.
#[cycle(stmt)]
#[tactic(auto, using(crate::proofs::StmtLines::stmt_lines))]
pub fn put_def(
    alloc: Global,
    strings: &[Text],
    level: usize,
    d: &DefTree,
    out: &mut ByteList,
) -> Result<(), NoMemory>
    ensures { OnOk result (out.new ≡ out.old ++ definition strings.now d.now level) }
{
    put_def_line(alloc, strings, level, d, out)?;
    put_part(alloc, strings, deeper(level)?, &d.body, out)
}
