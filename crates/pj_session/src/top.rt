//! Items at the top level.

ghost use Rattle.std.specs.Prelude.{◌≡◌, ◌++◌, true, Err, OnOk};
ghost use Rattle.pj_meaning.specs.Tree.{Text};
ghost use Rattle.pj_meaning.specs.Top.{top};
ghost use Rattle.pj_plain.specs.Forms.{known_behind};
ghost use Rattle.pj_plain.specs.Held.{held_item};
ghost use Rattle.pj_session.specs.Good.{Good};
ghost use Rattle.pj_session.specs.OwnItems.{known_in};
ghost use Rattle.pj_session.specs.SessionItems.{a_package_item_is_evaluated, a_script_item_is_evaluated, session_item};
ghost use Rattle.pj_session.specs.Seen.{events_of, state_seen};
ghost use Rattle.pj_session.specs.Spent.{spent_behind};
ghost use Rattle.pj_session.specs.States.{run};
ghost use Rattle.pj_session.specs.declared.end.End.TheVariants as ends;
ghost use Rattle.pj_session.specs.Tops.{Tops};
ghost use Rattle.pj_session.specs.Uses.{counts_loaded};

use crate::end::{End, lacks_memory};
use crate::state::Session;
use pj_plain::held::text;
use pj_tree::TopItem;
use std::alloc::Global;

/// Which items of a text are evaluated so.
pub fn form_laws()
    ensures a_script_item_is_evaluated { a_script_item_is_evaluated }
    ensures a_package_item_is_evaluated { a_package_item_is_evaluated }
{}

impl Session {
    /// Evaluates an item in a session that isn't spent.
    fn evaluate(&mut self, alloc: Global, item: &TopItem, left: &mut u64) -> Result<(), End>
        requires form { session_item (known_in (events_of self.old)) (held_item item.now) ≡ true }
        ensures tops { Good self.old.here (events_of self.old) → Tops (top (held_item item.now) (run (state_seen self.old) left.old)) result (state_seen self.old) (state_seen self.new) left.new }
        ensures good { Good self.old.here (events_of self.old) → Good self.new.here (events_of self.new) }
        ensures known { OnOk result (known_in (events_of self.new) ≡ known_behind (known_in (events_of self.old)) (held_item item.now)) }
        ensures loaded { (other : Text) → counts_loaded self.new.here (events_of self.new) other ≡ counts_loaded self.old.here (events_of self.old) other }
        ensures here { self.new.here ≡ self.old.here }
        ensures printed { (text : Text) × (self.new.printed ≡ self.old.printed ++ text) }
        ensures spent { self.new.spent ≡ self.old.spent }
    {
        match item {
            TopItem::Def(d) => self.define_tree(alloc, d),
            TopItem::Const { name, value } => self.constant_tree(alloc, text(name), value, left),
            TopItem::Run(s) => self.show(alloc, s, left),
            TopItem::Using(_) | TopItem::Declare(_) | TopItem::Directive { .. } => Ok(()),
            TopItem::AbstractDef { .. } | TopItem::StructDef { .. } => Ok(()),
        }
    }

    /// Evaluates an item: a plain definition of a new name, a constant of one, or a line that prints. What is printed
    /// stands behind what was printed before. Want of memory spends the session: it evaluates no item any more.
    pub fn top(&mut self, alloc: Global, item: &TopItem, left: &mut u64) -> Result<(), End>
        requires form { session_item (known_in (events_of self.old)) (held_item item.now) ≡ true }
        ensures tops { Good self.old.here (events_of self.old) → Tops (top (held_item item.now) (run (state_seen self.old) left.old)) result (state_seen self.old) (state_seen self.new) left.new }
        ensures good { Good self.old.here (events_of self.old) → Good self.new.here (events_of self.new) }
        ensures known { OnOk result (known_in (events_of self.new) ≡ known_behind (known_in (events_of self.old)) (held_item item.now)) }
        ensures loaded { (other : Text) → counts_loaded self.new.here (events_of self.new) other ≡ counts_loaded self.old.here (events_of self.old) other }
        ensures here { self.new.here ≡ self.old.here }
        ensures printed { (text : Text) × (self.new.printed ≡ self.old.printed ++ text) }
        ensures spent { self.new.spent ≡ spent_behind result self.old.spent }
        ensures refused { self.old.spent ≡ true → result ≡ Err ends.NoMemory }
    {
        if self.spent {
            return Err(End::NoMemory);
        }
        let result = self.evaluate(alloc, item, left);
        self.spent = lacks_memory(&result);
        result
    }
}
