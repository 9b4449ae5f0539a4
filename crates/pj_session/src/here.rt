//! Calls of names of the module that runs, written without a module.

ghost use Rattle.std.specs.Prelude.{[]};
ghost use Rattle.pj_session.specs.Ending.{Answers};
ghost use Rattle.pj_session.specs.Items.{called_in};
ghost use Rattle.pj_session.specs.Seen.{events_of};

use crate::call::call;
use crate::end::{End, undefined};
use crate::state::Session;
use std::alloc::Global;

impl Session {
    /// What a call of a name gives for integers.
    pub fn call_here(
        &self,
        alloc: Global,
        name: &str,
        arguments: &[i64],
        left: &mut u64,
    ) -> Result<i64, End>
        ensures { Answers (called_in self.now.here (events_of self.now) [] name.now arguments.now left.old) result left.new }
    {
        let here = self.here.as_str();
        match self.tables.own(name) {
            Some(thing) => call(alloc, &thing, here, name, arguments, left),
            None => Err(undefined(alloc, here, name)),
        }
    }
}
