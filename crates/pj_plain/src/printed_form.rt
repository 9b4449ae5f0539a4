//! What calls of `println` print, and whether that is of the form.
ghost use Rattle.std.specs.Prelude.{◌≡◌, ◌&&◌, false, codes, option_map};
ghost use Rattle.std.specs.List.{list_all};
ghost use Rattle.std.specs.Option.{option_map_or};
ghost use Rattle.std.specs.Str.{bytes_eq};
ghost use Rattle.pj_plain.specs.Forms.{is_used, may_be_constant, may_print, of_used, only, own_call, parameter_count, printed};
ghost use Rattle.pj_plain.specs.Held.{held_expr, held_exprs, held_stmt, held_text};
ghost use Rattle.pj_plain.specs.Names.{is_among};
ghost use Rattle.pj_plain.specs.Plain.{has_count, how_many, is_empty, is_literal, literals_only};

use crate::definition_form::is_plain;
use crate::held::text;
use crate::own_names::OwnNames;
use pj_base::Names;
use pj_tree::tree::Expr as Tree;
use pj_tree::{Stmt, Sym};

/// Whether a name is that of `println`, without a module.
fn is_println(owner: &Sym, name: &Sym) -> bool
    ensures { result ≡ (is_empty (held_text owner.now) && bytes_eq (held_text name.now) (codes "println")) }
{
    text(owner).is_empty() && text(name) == "println"
}

/// The only one of these arguments.
fn only(arguments: &[Tree]) -> Option<&Tree>
    ensures { option_map (λ e. held_expr e.now) result ≡ only (held_exprs arguments.now) }
{
    match arguments {
        [] => None,
        [argument] => Some(argument),
        [_, _, ..] => None,
    }
}

/// What a call of `println` prints that has no module and one argument.
#[tactic(auto, using(pj_tree::proofs::TreeReads::tree_reads, pj_tree::proofs::ExprReads::expr_reads))]
fn printed(s: &Stmt) -> Option<&Tree>
    ensures { option_map (λ e. held_expr e.now) result ≡ printed (held_stmt s.now) }
{
    let Stmt::Value(value) = s else {
        return None;
    };
    let Tree::Call(owner, name, arguments) = value else {
        return None;
    };
    if !is_println(owner, name) {
        return None;
    }
    only(arguments.as_slice())
}

/// Whether an expression is an integer.
#[tactic(auto, using(pj_tree::proofs::ExprReads::expr_reads))]
fn is_integer(e: &Tree) -> bool
    ensures { result ≡ is_literal (held_expr e.now) }
{
    match e {
        Tree::Int(_) => true,
        Tree::Nothing | Tree::False | Tree::True => false,
        Tree::Str(_) | Tree::Local(_) | Tree::Global(_, _) | Tree::Field(_, _) => false,
        Tree::Call(_, _, _) | Tree::CallLocal(_, _) | Tree::Latest(_, _) => false,
        Tree::And(_, _) | Tree::Or(_, _) | Tree::Cond(_, _, _) | Tree::Same(_, _) => false,
    }
}

/// Whether each argument is an integer.
fn each_is_integer(arguments: &[Tree]) -> bool
    ensures { result ≡ list_all (λ e. is_literal (held_expr e)) arguments.now }
{
    arguments.iter().all(|argument| is_integer(argument))
}

/// Whether arguments are integers alone.
fn are_integers(arguments: &[Tree]) -> bool
    ensures { result ≡ literals_only (held_exprs arguments.now) }
{
    each_is_integer(arguments)
}

/// Whether a known function has as many parameters as there are arguments.
fn takes_all(own: &OwnNames, name: &str, arguments: &[Tree]) -> bool
    ensures { result ≡ has_count (how_many (held_exprs arguments.now)) (parameter_count name.now own.now) }
{
    match own.role(name) {
        Some(Some(count)) => arguments.len() == count,
        Some(None) | None => false,
    }
}

/// Whether an expression calls, without a module, a function that is known, with as many integers as it has parameters.
#[tactic(auto, using(pj_tree::proofs::ExprReads::expr_reads))]
fn is_own_call(own: &OwnNames, e: &Tree) -> bool
    ensures { result ≡ own_call own.now (held_expr e.now) }
{
    match e {
        Tree::Call(owner, name, arguments) => {
            let arguments = arguments.as_slice();
            text(owner).is_empty()
                && are_integers(arguments)
                && takes_all(own, text(name), arguments)
        }
        Tree::Nothing | Tree::False | Tree::True | Tree::Int(_) => false,
        Tree::Str(_) | Tree::Local(_) | Tree::Global(_, _) | Tree::Field(_, _) => false,
        Tree::CallLocal(_, _) | Tree::Latest(_, _) => false,
        Tree::And(_, _) | Tree::Or(_, _) | Tree::Cond(_, _, _) | Tree::Same(_, _) => false,
    }
}

/// Whether a name is among these.
fn is_among(names: &Names, name: &str) -> bool
    ensures { result ≡ is_among name.now names.now }
{
    names.find(name).is_some()
}

/// Whether a module is written, and is a package that is used.
fn is_used(used: &Names, home: &Sym) -> bool
    ensures { result ≡ is_used (held_text home.now) used.now }
{
    let home = text(home);
    !home.is_empty() && is_among(used, home)
}

/// Whether an expression is a name of a package that is used, or a call of one with integers.
#[tactic(auto, using(pj_tree::proofs::ExprReads::expr_reads))]
fn is_of_used(used: &Names, e: &Tree) -> bool
    ensures { result ≡ of_used used.now (held_expr e.now) }
{
    match e {
        Tree::Global(owner, _) => is_used(used, owner),
        Tree::Call(owner, _, arguments) => is_used(used, owner)
            && are_integers(arguments.as_slice()),
        Tree::Nothing | Tree::False | Tree::True | Tree::Int(_) => false,
        Tree::Str(_) | Tree::Local(_) | Tree::Field(_, _) => false,
        Tree::CallLocal(_, _) | Tree::Latest(_, _) => false,
        Tree::And(_, _) | Tree::Or(_, _) | Tree::Cond(_, _, _) | Tree::Same(_, _) => false,
    }
}

/// Whether a constant may be this.
pub fn is_constant(own: &OwnNames, e: &Tree) -> bool
    ensures { result ≡ may_be_constant own.now (held_expr e.now) }
{
    is_plain(&[], e) || is_own_call(own, e)
}

/// Whether a statement is a call of `println` that a script may have.
pub fn is_shown(own: &OwnNames, used: &Names, s: &Stmt) -> bool
    ensures { result ≡ option_map_or (may_print own.now used.now) (printed (held_stmt s.now)) false }
{
    match printed(s) {
        Some(e) => is_own_call(own, e) || is_of_used(used, e),
        None => false,
    }
}
