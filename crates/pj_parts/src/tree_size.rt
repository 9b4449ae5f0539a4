//! How many bytes a tree has. Each of these answers the greatest u64 where that is less.

ghost use Rattle.std.specs.Prelude.{◌≡◌, length};
ghost use Rattle.pj_fields.specs.Fields.{list};
ghost use Rattle.pj_tree.specs.Bytes.{sym, syms, param, params, part_bytes, expr, stmt, tree};
ghost use Rattle.pj_tree.specs.Spelled.{payload, body, definition};
ghost use Rattle.pj_parts.specs.Capped.{capped};

use pj_tree::{Body, DefTree, Expr, Param, Part, Payload, Stmt, Sym, TreeNode};

/// The bytes of a name.
#[tactic(auto, using(crate::proofs::Sizes::sizes))]
fn sym_size(name: &Sym) -> u64
    ensures { result ≡ length (sym name.now) }
{
    match name {
        Sym::Number(_) => 4,
        Sym::Text(_) => 0,
    }
}

#[cycle(expression_sizes)]
#[tactic(auto, using(crate::proofs::TreeSizes::expr_sizes))]
fn expr_size(e: &Expr) -> u64
    ensures { result ≡ capped (length (expr e.now)) }
{
    match e {
        Expr::Nothing | Expr::False | Expr::True => 4,
        Expr::Int(_) => 12,
        Expr::Str(name) | Expr::Local(name) => 4 + sym_size(name),
        Expr::Global(owner, name) => 4 + sym_size(owner) + sym_size(name),
        Expr::Field(of, name) => expr_size(of.get()).saturating_add(4 + sym_size(name)),
        Expr::Call(owner, name, arguments) => {
            exprs_size(arguments.as_slice()).saturating_add(4 + sym_size(owner) + sym_size(name))
        }
        Expr::CallLocal(name, arguments) => {
            exprs_size(arguments.as_slice()).saturating_add(4 + sym_size(name))
        }
        Expr::Latest(callee, arguments) => expr_size(callee.get())
            .saturating_add(exprs_size(arguments.as_slice()))
            .saturating_add(4),
        Expr::And(left, right) | Expr::Or(left, right) | Expr::Same(left, right) => {
            expr_size(left.get())
                .saturating_add(expr_size(right.get()))
                .saturating_add(4)
        }
        Expr::Cond(test, chosen, other) => expr_size(test.get())
            .saturating_add(expr_size(chosen.get()))
            .saturating_add(expr_size(other.get()))
            .saturating_add(4),
    }
}

#[cycle(expression_sizes)]
fn exprs_size(all: &[Expr]) -> u64
    ensures { result ≡ capped (length (list expr all.now)) }
{
    let mut total: u64 = 4;
    for e in all {
        total = total.saturating_add(expr_size(e));
    }
    total
}

fn syms_size(all: &[Sym]) -> u64
    ensures { result ≡ capped (length (syms all.now)) }
{
    let mut total: u64 = 4;
    for name in all {
        total = total.saturating_add(sym_size(name));
    }
    total
}

#[tactic(auto, using(crate::proofs::Sizes::sizes))]
fn param_size(p: &Param) -> u64
    ensures { result ≡ capped (length (param p.now)) }
{
    let declared = sym_size(&p.declared.module) + sym_size(&p.declared.name);
    declared + sym_size(&p.name)
}

fn params_size(all: &[Param]) -> u64
    ensures { result ≡ capped (length (params all.now)) }
{
    let mut total: u64 = 4;
    for p in all {
        total = total.saturating_add(param_size(p));
    }
    total
}

/// A tree that is held and not numbered has no bytes.
#[tactic(auto, using(crate::proofs::TreeSizes::tree_sizes))]
fn part_size(p: &Part) -> u64
    ensures { result ≡ length (part_bytes p.now) }
{
    match p {
        Part::Number(_) => 4,
        Part::Held(_) => 0,
    }
}

#[cycle(statement_sizes)]
#[tactic(auto, using(crate::proofs::TreeSizes::tree_sizes))]
fn stmt_size(s: &Stmt) -> u64
    ensures { result ≡ capped (length (stmt s.now)) }
{
    match s {
        Stmt::Value(value) | Stmt::Return(value) => expr_size(value).saturating_add(4),
        Stmt::SetLocal(name, value) | Stmt::SetGlobal(name, value) => {
            expr_size(value).saturating_add(4 + sym_size(name))
        }
        Stmt::SetField(of, name, value) => {
            expr_size(of)
                .saturating_add(expr_size(value))
                .saturating_add(4 + sym_size(name))
        }
        Stmt::If(test, chosen, other) => expr_size(test)
            .saturating_add(block_size(chosen.as_slice()))
            .saturating_add(block_size(other.as_slice()))
            .saturating_add(4),
        Stmt::While(introduced, test, block) => syms_size(introduced.as_slice())
            .saturating_add(expr_size(test))
            .saturating_add(block_size(block.as_slice()))
            .saturating_add(4),
        Stmt::For(name, first, last, introduced, block) => {
            let bounds = expr_size(first).saturating_add(expr_size(last));
            let turn = syms_size(introduced.as_slice()).saturating_add(block_size(
                block.as_slice(),
            ));
            bounds
                .saturating_add(turn)
                .saturating_add(4 + sym_size(name))
        }
        Stmt::Break | Stmt::Continue => 4,
        Stmt::Eval(owner, part) => part_size(part).saturating_add(4 + sym_size(owner)),
    }
}

#[cycle(statement_sizes)]
fn block_size(all: &[Stmt]) -> u64
    ensures { result ≡ capped (length (list stmt all.now)) }
{
    let mut total: u64 = 4;
    for s in all {
        total = total.saturating_add(stmt_size(s));
    }
    total
}

#[tactic(auto, using(crate::proofs::TreeSizes::tree_sizes))]
fn definition_size(d: &DefTree) -> u64
    ensures { result ≡ capped (length (definition d.now)) }
{
    let names = 4 + sym_size(&d.module) + sym_size(&d.fun);
    params_size(d.params.as_slice())
        .saturating_add(names)
        .saturating_add(part_size(&d.body))
}

#[tactic(auto, using(crate::proofs::TreeSizes::tree_sizes))]
fn payload_size(p: &Payload) -> u64
    ensures { result ≡ capped (length (payload p.now)) }
{
    match p {
        Payload::Def(definition) => definition_size(definition),
        Payload::SetBinding { name, value } => expr_size(value).saturating_add(4 + sym_size(name)),
        Payload::Value(value) => expr_size(value).saturating_add(4),
    }
}

#[tactic(auto, using(crate::proofs::TreeSizes::tree_sizes))]
fn body_size(b: &Body) -> u64
    ensures { result ≡ capped (length (body b.now)) }
{
    let names = syms_size(b.params.as_slice()).saturating_add(syms_size(b.introduced.as_slice()));
    names
        .saturating_add(block_size(b.block.as_slice()))
        .saturating_add(4)
}

/// How many bytes a tree has, or the greatest u64 where that is less.
#[tactic(auto, using(crate::proofs::TreeSizes::tree_sizes))]
pub fn tree_size(of: &TreeNode) -> u64
    ensures { result ≡ capped (length (tree of.now)) }
{
    match of {
        TreeNode::Body(body) => body_size(body),
        TreeNode::Payload(payload) => payload_size(payload),
    }
}
