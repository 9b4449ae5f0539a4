//! Expressions that stand in no scope: constants, bindings and evaluated expressions.

ghost use Rattle.std.specs.Prelude.{◌≡◌};
ghost use Rattle.pj_tree.specs.Reads.{Strings};
ghost use Rattle.pj_rules.specs.Names.{scopeless, all_scopeless, expr_is_ok};

use crate::limits::has_few_arguments;
use pj_tree::Expr;

#[cycle(scopeless)]
#[tactic(auto, using(crate::proofs::ScopelessLaws::scopeless_rules))]
fn reads_no_local(e: &Expr) -> bool
    ensures { (strings : Strings) → result ≡ scopeless strings e.now }
{
    match e {
        Expr::Nothing | Expr::False | Expr::True | Expr::Int(_) => true,
        Expr::Str(_) | Expr::Global(_, _) => true,
        Expr::Local(_) | Expr::CallLocal(_, _) => false,
        Expr::Field(of, _) => reads_no_local(of.get()),
        Expr::Call(_, _, arguments) => none_reads_local(arguments.as_slice()),
        Expr::Latest(callee, arguments) => {
            reads_no_local(callee.get()) && none_reads_local(arguments.as_slice())
        }
        Expr::And(left, right) | Expr::Or(left, right) | Expr::Same(left, right) => {
            reads_no_local(left.get()) && reads_no_local(right.get())
        }
        Expr::Cond(test, chosen, other) => {
            reads_no_local(test.get())
                && reads_no_local(chosen.get())
                && reads_no_local(other.get())
        }
    }
}

#[cycle(scopeless)]
#[tactic(auto, using(crate::proofs::ScopelessLaws::scopeless_rules))]
fn none_reads_local(all: &[Expr]) -> bool
    ensures { (strings : Strings) → result ≡ all_scopeless strings all.now }
{
    let mut so_far = true;
    for e in all {
        so_far = so_far && reads_no_local(e);
    }
    so_far
}

/// Whether an expression that stands in no scope keeps the rules: it reads no local, and each call in it has at most 16
/// arguments, whatever the strings that its names number.
#[tactic(auto, using(crate::proofs::ScopelessLaws::scopeless_rules))]
pub fn expr_ok(e: &Expr) -> bool
    ensures { (strings : Strings) → result ≡ expr_is_ok strings e.now }
{
    reads_no_local(e) && has_few_arguments(e)
}
