//! What stands between a call's parentheses.

ghost use Rattle.std.specs.Prelude.{◌≡◌, ◌++◌, IfOk, OnOk, map, option_to_list};
ghost use Rattle.pj_tree.specs.Reads.{exprs_of};
ghost use Rattle.pj_plain.specs.Held.{held_expr};
ghost use Rattle.pj_session.specs.Items.{integers};
ghost use Rattle.pj_session.specs.Counting.{Counts, charged_twice, integer_in};

use crate::number::charge;
use pj_base::NoMemory;
use pj_tree::Expr;
use std::alloc::Global;

/// The integer that an expression is, if it is one.
#[tactic(auto, using(pj_tree::proofs::ExprReads::expr_reads))]
fn integer(e: &Expr) -> Option<i64>
    ensures { result ≡ integer_in (held_expr e.now) }
{
    match e {
        Expr::Int(value) => Some(*value),
        Expr::Nothing | Expr::False | Expr::True => None,
        Expr::Str(_) | Expr::Local(_) | Expr::Global(_, _) | Expr::Field(_, _) => None,
        Expr::Call(_, _, _) | Expr::CallLocal(_, _) | Expr::Latest(_, _) => None,
        Expr::And(_, _) | Expr::Or(_, _) | Expr::Cond(_, _, _) | Expr::Same(_, _) => None,
    }
}

/// Puts the integer that an expression is behind others, if it is one.
fn push_integer(values: &mut Vec<i64>, e: &Expr) -> Result<(), NoMemory>
    ensures { OnOk result (values.new.items ≡ values.old.items ++ option_to_list (integer_in (held_expr e.now))) }
{
    if let Some(value) = integer(e) {
        values.push(value)?;
    }
    Ok(())
}

/// The integers among expressions.
pub fn integers(alloc: Global, es: &[Expr]) -> Result<Vec<i64>, NoMemory>
    ensures { IfOk result (λ values. values.items ≡ integers (exprs_of (map held_expr es.now))) }
{
    let mut values = Vec::new(alloc);
    for e in es {
        push_integer(&mut values, e)?;
    }
    Ok(values)
}

/// Takes the two charges of printing, where they are there.
#[tactic(auto, unfolding(crate::specs::Numbers::charge))]
pub fn charge_print(left: &mut u64) -> Option<()>
    ensures { Counts result left.new (charged_twice left.old) }
{
    charge(left)?;
    charge(left)
}
