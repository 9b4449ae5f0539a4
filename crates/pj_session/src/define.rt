//! Definitions in the module that runs.

ghost use Rattle.std.specs.Prelude.{◌≡◌, ◌∷◌, ◌++◌, [], ℕ, false, None, OnOk, OnErr};
ghost use Rattle.pj_meaning.specs.Top.{top};
ghost use Rattle.pj_words.specs.Words.{is_base_name};
ghost use Rattle.pj_session.specs.Events.{Defines};
ghost use Rattle.pj_session.specs.Good.{Good, PlainFunction};
ghost use Rattle.pj_session.specs.Items.{define_item};
ghost use Rattle.pj_session.specs.Merged.{parts_in};
ghost use Rattle.pj_session.specs.Seen.{events_of, state_seen};
ghost use Rattle.pj_session.specs.States.{run};
ghost use Rattle.pj_session.specs.Things.{own_in};
ghost use Rattle.pj_session.specs.Tops.{Tops};

use crate::end::End;
use crate::own::{Definition, Own};
use crate::state::Session;
use std::alloc::Global;

impl Session {
    /// Defines a function of a new name, whose parameters are all Int64. It takes no charge.
    pub fn define(&mut self, alloc: Global, name: &str, definition: Definition) -> Result<(), End>
        requires new { own_in (events_of self.old) name.now ≡ None }
        ensures tops { Good self.old.here (events_of self.old) → is_base_name name.now ≡ false → (left : ℕ) → Tops (top (define_item name.now (parts_in definition)) (run (state_seen self.old) left)) result (state_seen self.old) (state_seen self.new) left }
        ensures good { OnOk result (Good self.old.here (events_of self.old) → PlainFunction name.now (parts_in definition) → Good self.new.here (events_of self.new)) }
        ensures added { OnOk result (events_of self.new ≡ events_of self.old ++ Defines name.now (parts_in definition).0 (parts_in definition).1 ∷ []) }
        ensures unchanged { OnErr result (events_of self.new ≡ events_of self.old) }
        ensures printed { self.new.printed ≡ self.old.printed }
        ensures here { self.new.here ≡ self.old.here }
        ensures spent { self.new.spent ≡ self.old.spent }
    {
        match self.tables.add_own(alloc, name, Own::Function(definition)) {
            Ok(()) => Ok(()),
            Err(_) => Err(End::NoMemory),
        }
    }
}
