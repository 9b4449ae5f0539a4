//! Which expressions call a name that has no module.

ghost use Rattle.std.specs.Prelude.{◌≡◌, [], false, map};
ghost use Rattle.std.specs.Option.{MatchOption};
ghost use Rattle.pj_meaning.specs.Tree.{Call};
ghost use Rattle.pj_tree.specs.Reads.{exprs_of};
ghost use Rattle.pj_plain.specs.Held.{held_expr, held_text};
ghost use Rattle.pj_plain.specs.Plain.{is_empty};
ghost use Rattle.pj_session.specs.OwnItems.{is_own_call};

use pj_plain::held::text;
use pj_tree::{Expr, Sym};

/// A call of a name, without a module.
#[derive(Drop)]
pub struct OwnCall<'a> {
    pub name: &'a str,
    pub arguments: &'a [Expr],
}

/// Whether no module is written.
#[tactic(auto, using(crate::proofs::HeldParts::empty_at))]
pub(crate) fn is_unwritten(owner: &Sym) -> bool
    ensures { result ≡ is_empty (held_text owner.now) }
{
    text(owner).is_empty()
}

/// The call that an expression is of a name without a module.
#[tactic(auto, using(pj_tree::proofs::ExprReads::expr_reads, crate::proofs::HeldParts::is_nothing))]
pub fn called_here(e: &Expr) -> Option<OwnCall<'_>>
    ensures { MatchOption result (is_own_call (held_expr e.now) ≡ false) (λ call. held_expr e.now ≡ Call [] call.name.now (exprs_of (map held_expr call.arguments.now))) }
{
    match e {
        Expr::Call(owner, name, arguments) => {
            if is_unwritten(owner) {
                let name = text(name);
                let arguments = arguments.as_slice();
                Some(OwnCall { name, arguments })
            } else {
                None
            }
        }
        Expr::Nothing | Expr::False | Expr::True | Expr::Int(_) => None,
        Expr::Str(_) | Expr::Local(_) | Expr::Global(_, _) | Expr::Field(_, _) => None,
        Expr::CallLocal(_, _) | Expr::Latest(_, _) => None,
        Expr::And(_, _) | Expr::Or(_, _) | Expr::Cond(_, _, _) | Expr::Same(_, _) => None,
    }
}
