//! Whether a definition is plain.
ghost use Rattle.std.specs.Prelude.{◌≡◌, ◌&&◌, [], ◌∷◌, map, codes};
ghost use Rattle.std.specs.Str.{bytes_eq};
ghost use Rattle.std.specs.List.{list_all, list_any};
ghost use Rattle.pj_tree.specs.Reads.{as_body, block_of, body_of, part_of, texts_of, type_of};
ghost use Rattle.pj_plain.specs.Held.{held_expr, held_exprs, held_names, held_parts, held_stmt, held_text, no_parts, no_strings};
ghost use Rattle.pj_plain.specs.Names.{all_different, free_name, is_among};
ghost use Rattle.pj_plain.specs.Plain.{is_int64, is_operator, plain_block, plain_body, plain_definition, plain_expr, plain_pair, same_texts};

use crate::held::text;
use pj_tree::tree::Expr as Tree;
use pj_tree::{Body, DefTree, Param, Part, Stmt, Sym, TreeNode, TypeRef};
use pj_words::{is_base_name, is_special};

/// How many parameters a definition has at most.
const MOST: usize = 16;

/// Whether a parameter has this name.
fn any_is_named(params: &[Param], word: &str) -> bool
    ensures { result ≡ list_any (λ p. bytes_eq word.now (held_text p.name)) params.now }
{
    params.iter().any(|param| word == text(&param.name))
}

/// Whether a word is among the names of these parameters.
fn is_parameter(params: &[Param], word: &str) -> bool
    ensures { result ≡ is_among word.now (held_names params.now) }
{
    any_is_named(params, word)
}

/// Whether a function is one of Base's operators.
fn is_operator(owner: &Sym, name: &Sym) -> bool
    ensures { result ≡ (bytes_eq (held_text owner.now) (codes "Base") && is_operator (held_text name.now)) }
{
    let name = text(name);
    text(owner) == "Base" && (name == "+" || name == "-" || name == "*")
}

/// Whether an expression is plain over these parameters.
#[cycle(plain_test)]
#[tactic(auto, using(pj_tree::proofs::ExprReads::expr_reads))]
pub fn is_plain(params: &[Param], e: &Tree) -> bool
    ensures { result ≡ plain_expr (held_names params.now) (held_expr e.now) }
{
    match e {
        Tree::Int(_) => true,
        Tree::Local(name) => is_parameter(params, text(name)),
        Tree::Call(owner, name, arguments) => {
            is_operator(owner, name) && are_two_plain(params, arguments.as_slice())
        }
        Tree::Nothing | Tree::False | Tree::True => false,
        Tree::Str(_) | Tree::Global(_, _) | Tree::Field(_, _) => false,
        Tree::CallLocal(_, _) | Tree::Latest(_, _) => false,
        Tree::And(_, _) | Tree::Or(_, _) | Tree::Cond(_, _, _) | Tree::Same(_, _) => false,
    }
}

/// Whether these are two plain expressions.
#[cycle(plain_test)]
fn are_two_plain(params: &[Param], arguments: &[Tree]) -> bool
    ensures { result ≡ plain_pair (held_names params.now) (held_exprs arguments.now) }
{
    match arguments {
        [] | [_] => false,
        [left, right] => is_plain(params, left) && is_plain(params, right),
        [_, _, _, ..] => false,
    }
}

/// Whether no name stands twice.
fn all_different(params: &[Param]) -> bool
    ensures { result ≡ all_different (held_names params.now) }
{
    let mut rest = params;
    while let [first, more @ ..] = rest {
        if is_parameter(more, text(&first.name)) {
            return false;
        }
        rest = more;
    }
    true
}

/// Whether a type is `Int64`, with no module before it.
fn is_int64(declared: &TypeRef) -> bool
    ensures { result ≡ is_int64 (type_of no_strings declared.now) }
{
    text(&declared.module).is_empty() && text(&declared.name) == "Int64"
}

/// Whether all parameters are `Int64`.
fn all_are_int64(params: &[Param]) -> bool
    ensures { result ≡ list_all (λ p. is_int64 (type_of no_strings p.declared)) params.now }
{
    params.iter().all(|param| is_int64(&param.declared))
}

/// Whether these are the names of the parameters.
#[tactic(auto, using(crate::proofs::Shapes::none_same))]
fn are_names(names: &[Sym], params: &[Param]) -> bool
    ensures { result ≡ same_texts (texts_of no_strings names.now) (held_names params.now) }
{
    let mut left = names;
    let mut right = params;
    while let [first, more @ ..] = left {
        let [param, others @ ..] = right else {
            return false;
        };
        if text(first) != text(&param.name) {
            return false;
        }
        left = more;
        right = others;
    }
    right.is_empty()
}

/// Whether a statement is a plain expression.
#[tactic(auto, using(pj_tree::proofs::TreeReads::tree_reads))]
fn is_plain_statement(params: &[Param], s: &Stmt) -> bool
    ensures { result ≡ plain_block (held_names params.now) (block_of (held_stmt s.now ∷ [])) }
{
    match s {
        Stmt::Value(e) => is_plain(params, e),
        Stmt::SetLocal(_, _) | Stmt::SetGlobal(_, _) | Stmt::SetField(_, _, _) => false,
        Stmt::If(_, _, _) | Stmt::While(_, _, _) | Stmt::For(_, _, _, _, _) => false,
        Stmt::Break | Stmt::Continue | Stmt::Return(_) | Stmt::Eval(_, _) => false,
    }
}

/// Whether a block is one such statement.
#[tactic(auto, using(crate::proofs::Shapes::two_statements))]
fn is_plain_block(params: &[Param], block: &[Stmt]) -> bool
    ensures { result ≡ plain_block (held_names params.now) (block_of (map held_stmt block.now)) }
{
    match block {
        [] => false,
        [s] => is_plain_statement(params, s),
        [_, _, ..] => false,
    }
}

/// Whether a body has these parameters and is plain over them.
#[tactic(auto, using(pj_tree::proofs::TreeReads::tree_reads))]
fn is_plain_body(params: &[Param], body: &Body) -> bool
    ensures { result ≡ plain_body (held_names params.now) (body_of no_strings no_parts body.now) }
{
    body.introduced.is_empty()
        && are_names(body.params.as_slice(), params)
        && is_plain_block(params, body.block.as_slice())
}

/// Whether such a body is held.
#[tactic(auto, using(pj_tree::proofs::TreeReads::tree_reads))]
fn holds_plain_body(params: &[Param], part: &Part) -> bool
    ensures { result ≡ plain_body (held_names params.now) (as_body (part_of no_strings no_parts part.now)) }
{
    match part {
        Part::Held(tree) => match tree.get() {
            TreeNode::Body(body) => is_plain_body(params, body),
            TreeNode::Payload(_) => false,
        },
        Part::Number(_) => false,
    }
}

/// Whether a definition or a constant can be called so.
pub fn is_free(name: &str) -> bool
    ensures { result ≡ free_name name.now }
{
    !(is_base_name(name) || is_special(name) || name == "Base" || name == "Main")
}

/// Whether parameters are different and all `Int64`, and such a body is held.
fn has_plain_parts(params: &[Param], part: &Part) -> bool
    ensures { result ≡ (list_all (λ p. is_int64 (type_of no_strings p.declared)) params.now && (all_different (held_names params.now) && plain_body (held_names params.now) (as_body (part_of no_strings no_parts part.now)))) }
{
    all_are_int64(params) && all_different(params) && holds_plain_body(params, part)
}

/// Whether a definition is plain.
#[tactic(auto, using(crate::proofs::Shapes::plain_parts, crate::proofs::Shapes::empty_at))]
pub fn is_plain_definition(d: &DefTree) -> bool
    ensures { let parts = held_parts d.now in result ≡ plain_definition parts.home parts.fun parts.params parts.code }
{
    text(&d.module).is_empty()
        && is_free(text(&d.fun))
        && d.params.len() <= MOST
        && has_plain_parts(d.params.as_slice(), &d.body)
}
