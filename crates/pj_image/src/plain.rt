//! The trees that are built today: bodies of methods on whole numbers.

ghost use Rattle.std.specs.Prelude.{◌≡◌, IfOk, IsTrue, map, option_and_then};
ghost use Rattle.std.specs.List.{AllByRecursion, list_all};
ghost use Rattle.pj_image.specs.Names.{text_of as sym_text, sym_number, all_seen};
ghost use Rattle.pj_image.specs.PlainTrees.{passes, is_among, is_base, is_operator, plain_pair, plain_node as plain_layer, plain_expr as is_plain_expr, plain_stmt as plain_statement, plain_block as is_plain_block, plain_under, plain_body as is_plain_body, is_plain};
ghost use Rattle.pj_tree.specs.Fits.{SymFits, ListFits, ExprFits, ExprNodeFits, StmtFits, BodyNodeFits, TreeFits};
ghost use Rattle.pj_tree.specs.declared.tree.Expr.{out-Expr};
ghost use Rattle.pj_tree.specs.declared.tree.Stmt.{out-Stmt};
ghost use Rattle.pj_tree.specs.declared.tree.Body.{out-Body};

use crate::named::{see_names, text_of};
use crate::seen::Seen;
use pj_base::NoMemory;
use pj_parts::{PartFault, ShortText};
use pj_tree::{Body, Expr, Stmt, Sym, TreeNode};
use std::alloc::Global;

/// Whether a name is a parameter's.
fn names_parameter(strings: &[ShortText], params: &Seen, name: &Sym) -> bool
    ensures is { result ≡ passes (is_among params.now) (sym_text strings.now name.now) }
    ensures fits { IsTrue result → SymFits name.now }
{
    match text_of(strings, name) {
        Some(text) => params.has(text),
        None => false,
    }
}

/// Whether a name is that of Base.
fn names_base(strings: &[ShortText], name: &Sym) -> bool
    ensures is { result ≡ passes is_base (sym_text strings.now name.now) }
    ensures fits { IsTrue result → SymFits name.now }
{
    match text_of(strings, name) {
        Some(text) => text == "Base",
        None => false,
    }
}

/// Whether a name is that of `+`, `-` or `*`.
fn names_operator(strings: &[ShortText], name: &Sym) -> bool
    ensures is { result ≡ passes is_operator (sym_text strings.now name.now) }
    ensures fits { IsTrue result → SymFits name.now }
{
    match text_of(strings, name) {
        Some(text) => text == "+" || text == "-" || text == "*",
        None => false,
    }
}

/// Whether an expression, which nests at most so deep, is built of integers, parameters, and Base's `+`, `-` and `*` on
/// two arguments.
#[cycle(plain)]
#[tactic(auto, unfolding(crate::specs::PlainTrees::plain_expr, pj_tree::specs::Fits::ExprFits))]
fn plain_expr(depth: u32, strings: &[ShortText], params: &Seen, e: &Expr) -> bool
    ensures is { result ≡ is_plain_expr strings.now params.now depth e.now }
    ensures fits { IsTrue result → ExprFits depth e.now }
{
    if depth == 0 {
        return false;
    }
    plain_node(depth - 1, strings, params, e)
}

#[cycle(plain)]
fn plain_node(below: u32, strings: &[ShortText], params: &Seen, e: &Expr) -> bool
    ensures is { result ≡ plain_layer strings.now params.now (is_plain_expr strings.now params.now below) (out-Expr e.now) }
    ensures fits { IsTrue result → ExprNodeFits (ExprFits below) (out-Expr e.now) }
{
    match e {
        Expr::Int(value) => {
            let _value = *value;
            true
        }
        Expr::Local(name) => names_parameter(strings, params, name),
        Expr::Call(owner, name, arguments) => {
            names_base(strings, owner)
                && names_operator(strings, name)
                && plain_arguments(below, strings, params, arguments.as_slice())
        }
        Expr::Nothing | Expr::False | Expr::True => false,
        Expr::Str(_) | Expr::Global(_, _) | Expr::Field(_, _) => false,
        Expr::CallLocal(_, _) | Expr::Latest(_, _) => false,
        Expr::And(_, _) | Expr::Or(_, _) | Expr::Cond(_, _, _) | Expr::Same(_, _) => false,
    }
}

#[cycle(plain)]
fn plain_arguments(below: u32, strings: &[ShortText], params: &Seen, all: &[Expr]) -> bool
    ensures is { result ≡ plain_pair (is_plain_expr strings.now params.now below) all.now }
    ensures fits { IsTrue result → ListFits (ExprFits below) all.now }
{
    match all {
        [left, right] => {
            plain_expr(below, strings, params, left) && plain_expr(below, strings, params, right)
        }
        _ => false,
    }
}

/// Whether a statement is such an expression.
#[tactic(auto, unfolding(pj_tree::specs::Fits::StmtFits))]
fn plain_stmt(strings: &[ShortText], params: &Seen, s: &Stmt) -> bool
    ensures is { result ≡ plain_statement strings.now params.now (out-Stmt s.now) }
    ensures fits { IsTrue result → StmtFits 127 s.now }
{
    match s {
        Stmt::Value(value) => plain_expr(126, strings, params, value),
        _ => false,
    }
}

/// Whether a block is one such statement.
fn plain_block(strings: &[ShortText], params: &Seen, block: &[Stmt]) -> bool
    ensures is { result ≡ is_plain_block strings.now params.now block.now }
    ensures fits { IsTrue result → ListFits (StmtFits 127) block.now }
{
    match block {
        [s] => plain_stmt(strings, params, s),
        _ => false,
    }
}

/// Whether a body has at most 16 parameters, which are different identifiers, no other names, and one such statement.
fn plain_body(alloc: Global, strings: &[ShortText], b: &Body) -> Result<bool, NoMemory>
    ensures is { IfOk result (λ plain. plain ≡ is_plain_body strings.now (out-Body b.now)) }
    ensures fits { IfOk result (λ plain. IsTrue plain → BodyNodeFits (StmtFits 127) (out-Body b.now)) }
{
    if b.params.len() > 16 || !b.introduced.is_empty() {
        return Ok(false);
    }
    let mut names = Seen::new(alloc);
    match see_names(alloc, strings, b.params.as_slice(), &mut names) {
        Ok(()) => Ok(plain_block(strings, &names, b.block.as_slice())),
        Err(PartFault::Bad) => Ok(false),
        Err(PartFault::NoMemory) => Err(NoMemory),
    }
}

/// Whether a tree is a body of this form. Then it has a spelling.
#[tactic(auto, unfolding(pj_tree::specs::Fits::TreeFitsBelow))]
pub fn plain_tree(alloc: Global, strings: &[ShortText], t: &TreeNode) -> Result<bool, NoMemory>
    ensures is { IfOk result (λ plain. plain ≡ is_plain strings.now t.now) }
    ensures fits { IfOk result (λ plain. IsTrue plain → TreeFits t.now) }
{
    match t {
        TreeNode::Body(body) => plain_body(alloc, strings, body),
        TreeNode::Payload(_) => Ok(false),
    }
}

/// Whether all trees are bodies of this form. Then they have spellings.
pub fn plain_trees(
    alloc: Global,
    strings: &[ShortText],
    trees: &[TreeNode],
) -> Result<bool, NoMemory>
    ensures is { IfOk result (λ plain. plain ≡ list_all (is_plain strings.now) trees.now) }
    ensures fits { IfOk result (λ plain. IsTrue plain → AllByRecursion TreeFits trees.now) }
{
    for t in trees {
        if !plain_tree(alloc, strings, t)? {
            return Ok(false);
        }
    }
    Ok(true)
}
