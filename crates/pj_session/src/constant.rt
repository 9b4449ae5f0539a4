//! Constants of the module that runs.

ghost use Rattle.std.specs.Prelude.{◌≡◌, ◌∷◌, ◌++◌, ℤ, [], true, false, map, None, IfErr, OnOk, OnErr};
ghost use Rattle.pj_meaning.specs.Tree.{Call, Const};
ghost use Rattle.pj_meaning.specs.Top.{top};
ghost use Rattle.pj_tree.specs.Reads.{exprs_of};
ghost use Rattle.pj_plain.specs.Held.{held_expr};
ghost use Rattle.pj_words.specs.Words.{is_base_name};
ghost use Rattle.pj_session.specs.declared.end.End.TheVariants as ends;
ghost use Rattle.pj_session.specs.Events.{Binds};
ghost use Rattle.pj_session.specs.Good.{Good};
ghost use Rattle.pj_session.specs.Items.{is_call};
ghost use Rattle.pj_session.specs.Seen.{events_of, state_seen};
ghost use Rattle.pj_session.specs.States.{run};
ghost use Rattle.pj_session.specs.Things.{own_in};
ghost use Rattle.pj_session.specs.Tops.{Tops};

use crate::arguments::integers;
use crate::end::End;
use crate::own::Own;
use crate::state::Session;
use pj_tree::Expr;
use std::alloc::Global;

impl Session {
    /// Binds a new name to an integer. Without memory nothing changes.
    pub(crate) fn bind(&mut self, alloc: Global, name: &str, value: i64) -> Result<(), End>
        requires new { own_in (events_of self.old) name.now ≡ None }
        ensures added { OnOk result (events_of self.new ≡ events_of self.old ++ Binds name.now value ∷ []) }
        ensures fails { OnErr result (events_of self.new ≡ events_of self.old) }
        ensures only { IfErr result (λ end. end ≡ ends.NoMemory) }
        ensures printed { self.new.printed ≡ self.old.printed }
        ensures here { self.new.here ≡ self.old.here }
        ensures spent { self.new.spent ≡ self.old.spent }
    {
        match self.tables.add_own(alloc, name, Own::Constant(value)) {
            Ok(()) => Ok(()),
            Err(_) => Err(End::NoMemory),
        }
    }

    /// Binds a new name to what a call of a name gives with these expressions, which are integers.
    pub fn constant_call_here(
        &mut self,
        alloc: Global,
        name: &str,
        function: &str,
        arguments: &[Expr],
        left: &mut u64,
    ) -> Result<(), End>
        requires new { own_in (events_of self.old) name.now ≡ None }
        ensures tops { is_call (Call [] function.now (exprs_of (map held_expr arguments.now))) ≡ true → is_base_name name.now ≡ false → Good self.old.here (events_of self.old) → Tops (top (Const name.now (Call [] function.now (exprs_of (map held_expr arguments.now)))) (run (state_seen self.old) left.old)) result (state_seen self.old) (state_seen self.new) left.new }
        ensures good { OnOk result (Good self.old.here (events_of self.old) → is_base_name name.now ≡ false → Good self.new.here (events_of self.new)) }
        ensures added { OnOk result ((value : ℤ) × (events_of self.new ≡ events_of self.old ++ Binds name.now value ∷ [])) }
        ensures unchanged { OnErr result (events_of self.new ≡ events_of self.old) }
        ensures printed { self.new.printed ≡ self.old.printed }
        ensures here { self.new.here ≡ self.old.here }
        ensures spent { self.new.spent ≡ self.old.spent }
    {
        let Ok(values) = integers(alloc, arguments) else {
            return Err(End::NoMemory);
        };
        match self.call_here(alloc, function, values.as_slice(), left) {
            Ok(value) => self.bind(alloc, name, value),
            Err(end) => Err(end),
        }
    }
}
