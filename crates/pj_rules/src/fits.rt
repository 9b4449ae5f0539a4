//! Whether a tree has bytes: its names and parts are numbers, its lists aren't too long, and it nests at most 128 deep.

ghost use Rattle.std.specs.Prelude.{◌↔◌, IsTrue};
ghost use Rattle.pj_tree.specs.Fits.{ListFits, SymFits, ParamFits, PartFits, ExprFits, ExprNodeFits, StmtFits, StmtNodeFits, DefNodeFits, BodyNodeFits, PayloadNodeFits, TreeFits};
ghost use Rattle.pj_tree.specs.declared.tree.Expr.{out-Expr};
ghost use Rattle.pj_tree.specs.declared.tree.Stmt.{out-Stmt};
ghost use Rattle.pj_tree.specs.declared.tree.Payload.{out-Payload};
ghost use Rattle.pj_tree.specs.declared.tree.Body.{out-Body};
ghost use Rattle.pj_tree.specs.declared.tree.DefTree.{out-DefTree};

use pj_tree::{Body, DefTree, Expr, Param, Part, Payload, Stmt, Sym, TreeNode};

/// Whether a name is a number.
fn sym_fits(name: &Sym) -> bool
    ensures { IsTrue result ↔ SymFits name.now }
{
    match name {
        Sym::Number(number) => {
            let _in_range = *number;
            true
        }
        Sym::Text(_) => false,
    }
}

fn syms_fit(all: &[Sym]) -> bool
    ensures { IsTrue result ↔ ListFits SymFits all.now }
{
    if all.len() > u32::MAX as usize {
        return false;
    }
    for name in all {
        if !sym_fits(name) {
            return false;
        }
    }
    true
}

fn param_fits(p: &Param) -> bool
    ensures { IsTrue result ↔ ParamFits p.now }
{
    sym_fits(&p.name) && sym_fits(&p.declared.module) && sym_fits(&p.declared.name)
}

fn params_fit(all: &[Param]) -> bool
    ensures { IsTrue result ↔ ListFits ParamFits all.now }
{
    if all.len() > u32::MAX as usize {
        return false;
    }
    for p in all {
        if !param_fits(p) {
            return false;
        }
    }
    true
}

/// Whether a tree that is named is named by its number.
fn part_fits(p: &Part) -> bool
    ensures { IsTrue result ↔ PartFits p.now }
{
    match p {
        Part::Number(number) => {
            let _in_range = *number;
            true
        }
        Part::Held(_) => false,
    }
}

#[cycle(expr)]
#[tactic(auto, unfolding(pj_tree::specs::Fits::ExprFits))]
fn expr_fits(depth: u32, e: &Expr) -> bool
    ensures { IsTrue result ↔ ExprFits depth e.now }
{
    if depth == 0 {
        return false;
    }
    expr_node_fits(depth - 1, e)
}

#[cycle(expr)]
fn expr_node_fits(below: u32, e: &Expr) -> bool
    ensures { IsTrue result ↔ ExprNodeFits (ExprFits below) (out-Expr e.now) }
{
    match e {
        Expr::Nothing | Expr::False | Expr::True => true,
        Expr::Int(value) => {
            let _in_range = *value;
            true
        }
        Expr::Str(text) => sym_fits(text),
        Expr::Local(name) => sym_fits(name),
        Expr::Global(owner, name) => sym_fits(owner) && sym_fits(name),
        Expr::Field(of, name) => expr_fits(below, of.get()) && sym_fits(name),
        Expr::Call(owner, name, arguments) => {
            sym_fits(owner) && sym_fits(name) && exprs_fit(below, arguments.as_slice())
        }
        Expr::CallLocal(name, arguments) => {
            sym_fits(name) && exprs_fit(below, arguments.as_slice())
        }
        Expr::Latest(callee, arguments) => {
            expr_fits(below, callee.get()) && exprs_fit(below, arguments.as_slice())
        }
        Expr::And(left, right) | Expr::Or(left, right) | Expr::Same(left, right) => {
            expr_fits(below, left.get()) && expr_fits(below, right.get())
        }
        Expr::Cond(test, chosen, other) => {
            expr_fits(below, test.get())
                && expr_fits(below, chosen.get())
                && expr_fits(below, other.get())
        }
    }
}

#[cycle(expr)]
fn exprs_fit(below: u32, all: &[Expr]) -> bool
    ensures { IsTrue result ↔ ListFits (ExprFits below) all.now }
{
    if all.len() > u32::MAX as usize {
        return false;
    }
    for e in all {
        if !expr_fits(below, e) {
            return false;
        }
    }
    true
}

#[cycle(stmt)]
#[tactic(auto, unfolding(pj_tree::specs::Fits::StmtFits))]
fn stmt_fits(depth: u32, s: &Stmt) -> bool
    ensures { IsTrue result ↔ StmtFits depth s.now }
{
    if depth == 0 {
        return false;
    }
    stmt_node_fits(depth - 1, s)
}

#[cycle(stmt)]
fn stmt_node_fits(below: u32, s: &Stmt) -> bool
    ensures { IsTrue result ↔ StmtNodeFits (ExprFits below) (StmtFits below) (out-Stmt s.now) }
{
    match s {
        Stmt::Value(value) | Stmt::Return(value) => expr_fits(below, value),
        Stmt::SetLocal(name, value) | Stmt::SetGlobal(name, value) => {
            sym_fits(name) && expr_fits(below, value)
        }
        Stmt::SetField(of, name, value) => {
            expr_fits(below, of) && sym_fits(name) && expr_fits(below, value)
        }
        Stmt::If(test, chosen, other) => {
            expr_fits(below, test)
                && stmts_fit(below, chosen.as_slice())
                && stmts_fit(below, other.as_slice())
        }
        Stmt::While(introduced, test, block) => {
            syms_fit(introduced.as_slice())
                && expr_fits(below, test)
                && stmts_fit(below, block.as_slice())
        }
        Stmt::For(name, first, last, introduced, block) => {
            sym_fits(name)
                && expr_fits(below, first)
                && expr_fits(below, last)
                && syms_fit(introduced.as_slice())
                && stmts_fit(below, block.as_slice())
        }
        Stmt::Break | Stmt::Continue => true,
        Stmt::Eval(owner, part) => sym_fits(owner) && part_fits(part),
    }
}

#[cycle(stmt)]
fn stmts_fit(below: u32, all: &[Stmt]) -> bool
    ensures { IsTrue result ↔ ListFits (StmtFits below) all.now }
{
    if all.len() > u32::MAX as usize {
        return false;
    }
    for s in all {
        if !stmt_fits(below, s) {
            return false;
        }
    }
    true
}

fn def_fits(d: &DefTree) -> bool
    ensures { IsTrue result ↔ DefNodeFits (out-DefTree d.now) }
{
    sym_fits(&d.module) && sym_fits(&d.fun) && params_fit(d.params.as_slice()) && part_fits(&d.body)
}

fn payload_fits(below: u32, p: &Payload) -> bool
    ensures { IsTrue result ↔ PayloadNodeFits (ExprFits below) (out-Payload p.now) }
{
    match p {
        Payload::Def(d) => def_fits(d),
        Payload::SetBinding { name, value } => sym_fits(name) && expr_fits(below, value),
        Payload::Value(value) => expr_fits(below, value),
    }
}

fn body_fits(below: u32, b: &Body) -> bool
    ensures { IsTrue result ↔ BodyNodeFits (StmtFits below) (out-Body b.now) }
{
    syms_fit(b.params.as_slice())
        && syms_fit(b.introduced.as_slice())
        && stmts_fit(below, b.block.as_slice())
}

/// Whether a tree has bytes: each of its names is a number and each tree that it names is named by number, no list in it
/// has more than 4,294,967,295 members, and it nests at most 128 deep, itself counted.
#[tactic(auto, unfolding(pj_tree::specs::Fits::TreeFitsBelow))]
pub fn tree_fits(t: &TreeNode) -> bool
    ensures { IsTrue result ↔ TreeFits t.now }
{
    match t {
        TreeNode::Body(body) => body_fits(127, body),
        TreeNode::Payload(payload) => payload_fits(127, payload),
    }
}
