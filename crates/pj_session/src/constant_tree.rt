//! Constants by their trees.

ghost use Rattle.std.specs.Prelude.{◌≡◌, ◌∷◌, ◌++◌, ℤ, [], true, false, None, OnOk, OnErr};
ghost use Rattle.pj_meaning.specs.Tree.{Const};
ghost use Rattle.pj_meaning.specs.Top.{top};
ghost use Rattle.pj_plain.specs.Held.{held_expr};
ghost use Rattle.pj_plain.specs.Plain.{plain_expr};
ghost use Rattle.pj_words.specs.Words.{is_base_name};
ghost use Rattle.pj_session.specs.Ending.{Answers};
ghost use Rattle.pj_session.specs.Events.{Binds};
ghost use Rattle.pj_session.specs.Good.{Good};
ghost use Rattle.pj_session.specs.Items.{got_number};
ghost use Rattle.pj_session.specs.Numbers.{number_in};
ghost use Rattle.pj_session.specs.OwnItems.{is_valued_here};
ghost use Rattle.pj_session.specs.Seen.{events_of, state_seen};
ghost use Rattle.pj_session.specs.States.{run};
ghost use Rattle.pj_session.specs.Things.{own_in};
ghost use Rattle.pj_session.specs.Tops.{Tops};

use crate::called_here::called_here;
use crate::end::End;
use crate::number::number;
use crate::state::Session;
use pj_tree::Expr;
use std::alloc::Global;

/// What an expression without names gives.
#[tactic(auto, using(crate::proofs::HeldParts::same_expr))]
fn value(e: &Expr, left: &mut u64) -> Result<i64, End>
    ensures { Answers (got_number (number_in [] [] (held_expr e.now) left.old)) result left.new }
{
    match number(&[], &[], &[], e, left) {
        Some(value) => Ok(value),
        None => Err(End::Steps),
    }
}

impl Session {
    /// Binds a new name to what an expression without names gives.
    pub fn constant_value(
        &mut self,
        alloc: Global,
        name: &str,
        e: &Expr,
        left: &mut u64,
    ) -> Result<(), End>
        requires new { own_in (events_of self.old) name.now ≡ None }
        ensures tops { plain_expr [] (held_expr e.now) ≡ true → is_base_name name.now ≡ false → Good self.old.here (events_of self.old) → Tops (top (Const name.now (held_expr e.now)) (run (state_seen self.old) left.old)) result (state_seen self.old) (state_seen self.new) left.new }
        ensures good { OnOk result (Good self.old.here (events_of self.old) → is_base_name name.now ≡ false → Good self.new.here (events_of self.new)) }
        ensures added { OnOk result ((value : ℤ) × (events_of self.new ≡ events_of self.old ++ Binds name.now value ∷ [])) }
        ensures unchanged { OnErr result (events_of self.new ≡ events_of self.old) }
        ensures printed { self.new.printed ≡ self.old.printed }
        ensures here { self.new.here ≡ self.old.here }
        ensures spent { self.new.spent ≡ self.old.spent }
    {
        match value(e, left) {
            Ok(value) => self.bind(alloc, name, value),
            Err(end) => Err(end),
        }
    }

    /// Binds a new name to what an expression without names gives, or a call, without a module, with integers.
    pub fn constant_tree(
        &mut self,
        alloc: Global,
        name: &str,
        e: &Expr,
        left: &mut u64,
    ) -> Result<(), End>
        requires new { own_in (events_of self.old) name.now ≡ None }
        ensures tops { is_valued_here (held_expr e.now) ≡ true → is_base_name name.now ≡ false → Good self.old.here (events_of self.old) → Tops (top (Const name.now (held_expr e.now)) (run (state_seen self.old) left.old)) result (state_seen self.old) (state_seen self.new) left.new }
        ensures good { OnOk result (Good self.old.here (events_of self.old) → is_base_name name.now ≡ false → Good self.new.here (events_of self.new)) }
        ensures added { OnOk result ((value : ℤ) × (events_of self.new ≡ events_of self.old ++ Binds name.now value ∷ [])) }
        ensures unchanged { OnErr result (events_of self.new ≡ events_of self.old) }
        ensures printed { self.new.printed ≡ self.old.printed }
        ensures here { self.new.here ≡ self.old.here }
        ensures spent { self.new.spent ≡ self.old.spent }
    {
        match called_here(e) {
            Some(call) => self.constant_call_here(alloc, name, call.name, call.arguments, left),
            None => self.constant_value(alloc, name, e, left),
        }
    }
}
