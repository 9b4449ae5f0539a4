//! The start of an image.

ghost use Rattle.std.specs.Prelude.{◌≡◌, false, true, Err, Some, is_some, option_map};
ghost use Rattle.std.specs.Str.{bytes_eq};
ghost use Rattle.pj_meaning.specs.Names.{base_name};
ghost use Rattle.pj_meaning.specs.Using.{start_image};
ghost use Rattle.pj_session.specs.Good.{Good};
ghost use Rattle.pj_session.specs.Items.{init_name, started};
ghost use Rattle.pj_session.specs.Lent.{thing_seen};
ghost use Rattle.pj_session.specs.Seen.{events_of, state_seen};
ghost use Rattle.pj_session.specs.Spent.{spent_behind};
ghost use Rattle.pj_session.specs.Starting.{Finishes, Starts};
ghost use Rattle.pj_session.specs.States.{run};
ghost use Rattle.pj_session.specs.Things.{method_for, thing_in};
ghost use Rattle.pj_session.specs.declared.end.End.TheVariants as ends;

use crate::call::call;
use crate::end::{End, lacks_memory};
use crate::state::Session;
use crate::thing::Thing;
use std::alloc::Global;

/// Whether a thing is a function that has a method without parameters.
fn takes_nothing(thing: &Thing<'_>) -> bool
    ensures { result ≡ is_some (method_for 0 (Some (thing_seen thing.now))) }
{
    match thing {
        Thing::Calls(Some(code)) => code.params.is_empty(),
        Thing::Calls(None) | Thing::Holds(_) => false,
    }
}

/// Calls a thing of this module, which is its `__init__`, without arguments, if it has a method for that.
fn start_by(alloc: Global, thing: &Thing<'_>, home: &str, left: &mut u64) -> Result<(), End>
    ensures { Finishes (started (method_for 0 (Some (thing_seen thing.now))) left.old) result left.new }
{
    if !takes_nothing(thing) {
        return Ok(());
    }
    match call(alloc, thing, home, "__init__", &[], left) {
        Ok(_) => Ok(()),
        Err(end) => Err(end),
    }
}

impl Session {
    /// Calls the `__init__` of a module other than Base without arguments, if it has a method for that.
    fn call_init(&self, alloc: Global, home: &str, left: &mut u64) -> Result<(), End>
        ensures { Finishes (started (method_for 0 (thing_in self.now.here (events_of self.now) home.now init_name)) left.old) result left.new }
    {
        match self.thing(home, "__init__") {
            Some(thing) => start_by(alloc, &thing, home, left),
            None => Ok(()),
        }
    }

    /// Starts an image of a name other than Base's: calls its `__init__` where it has a method without parameters.
    /// Nothing is defined, loaded or printed by it, whatever it ends in. Want of memory spends the session: it starts no
    /// image any more.
    pub fn start(&mut self, alloc: Global, name: &str, left: &mut u64) -> Result<(), End>
        ensures starts { bytes_eq base_name name.now ≡ false → Good self.old.here (events_of self.old) → Starts (start_image name.now (run (state_seen self.old) left.old)) result (state_seen self.old) (state_seen self.new) left.new }
        ensures events { events_of self.new ≡ events_of self.old }
        ensures here { self.new.here ≡ self.old.here }
        ensures printed { self.new.printed ≡ self.old.printed }
        ensures spent { self.new.spent ≡ spent_behind result self.old.spent }
        ensures refused { self.old.spent ≡ true → result ≡ Err ends.NoMemory }
    {
        if self.spent {
            return Err(End::NoMemory);
        }
        let result = self.call_init(alloc, name, left);
        self.spent = lacks_memory(&result);
        result
    }
}
