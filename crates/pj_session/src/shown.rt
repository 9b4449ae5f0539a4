//! What a statement prints.

ghost use Rattle.std.specs.Prelude.{◌≡◌, ◌++◌, ◌||◌, [], true, false, None, codes, map};
ghost use Rattle.std.specs.Option.{MatchOption, option_map_or};
ghost use Rattle.pj_meaning.specs.Top.{top};
ghost use Rattle.pj_meaning.specs.Tree.{Call, Run, Text, Value, also, none};
ghost use Rattle.pj_tree.specs.Reads.{exprs_of};
ghost use Rattle.pj_plain.specs.Forms.{only, printed};
ghost use Rattle.pj_plain.specs.Held.{held_expr, held_stmt, held_text};
ghost use Rattle.std.specs.Str.{bytes_eq};
ghost use Rattle.pj_session.specs.Good.{Good};
ghost use Rattle.pj_session.specs.OwnItems.{is_own_call};
ghost use Rattle.pj_session.specs.Seen.{events_of, state_seen};
ghost use Rattle.pj_session.specs.SessionItems.{is_far};
ghost use Rattle.pj_session.specs.States.{run};
ghost use Rattle.pj_session.specs.Tops.{Tops};

use crate::called_here::is_unwritten;
use crate::end::End;
use crate::state::Session;
use pj_plain::held::text;
use pj_tree::{Expr, Stmt, Sym};
use std::alloc::Global;

/// The only one of these.
fn only(arguments: &[Expr]) -> Option<&Expr>
    ensures { MatchOption result (only (exprs_of (map held_expr arguments.now)) ≡ None) (λ e. exprs_of (map held_expr arguments.now) ≡ also (held_expr e.now) none) }
{
    match arguments {
        [] => None,
        [argument] => Some(argument),
        [_, _, ..] => None,
    }
}

/// Whether a name is `println`.
fn is_println(name: &Sym) -> bool
    ensures { result ≡ bytes_eq (held_text name.now) (codes "println") }
{
    text(name) == "println"
}

/// What a statement prints that is a call of `println`, without a module, with one argument.
#[tactic(auto, using(pj_tree::proofs::TreeReads::tree_reads, pj_tree::proofs::ExprReads::expr_reads, crate::proofs::HeldParts::is_nothing, crate::proofs::Texts::same_text))]
pub fn shown(s: &Stmt) -> Option<&Expr>
    ensures { MatchOption result (printed (held_stmt s.now) ≡ None) (λ e. held_stmt s.now ≡ Value (Call [] (codes "println") (also (held_expr e.now) none))) }
{
    let Stmt::Value(value) = s else {
        return None;
    };
    let Expr::Call(owner, name, arguments) = value else {
        return None;
    };
    if !is_unwritten(owner) {
        return None;
    }
    if !is_println(name) {
        return None;
    }
    only(arguments.as_slice())
}

impl Session {
    /// Evaluates a statement that is `println` of a call, without a module, with integers, or of a name or such a call of
    /// a module that is written.
    pub fn show(&mut self, alloc: Global, s: &Stmt, left: &mut u64) -> Result<(), End>
        ensures tops { option_map_or (λ e. is_own_call e || is_far e) (printed (held_stmt s.now)) false ≡ true → Good self.old.here (events_of self.old) → Tops (top (Run (held_stmt s.now)) (run (state_seen self.old) left.old)) result (state_seen self.old) (state_seen self.new) left.new }
        ensures printed { (text : Text) × (self.new.printed ≡ self.old.printed ++ text) }
        ensures events { events_of self.new ≡ events_of self.old }
        ensures here { self.new.here ≡ self.old.here }
        ensures spent { self.new.spent ≡ self.old.spent }
    {
        match shown(s) {
            Some(e) => self.println_expr(alloc, e, left),
            None => Ok(()),
        }
    }
}
