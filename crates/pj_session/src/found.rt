//! Names of modules that are written: what a read or a call of one gives, and the line that is printed of it.

ghost use Rattle.std.specs.Prelude.{◌≡◌, ◌++◌, ℕ, ℤ, true, option_map};
ghost use Rattle.pj_meaning.specs.Names.{id};
ghost use Rattle.pj_meaning.specs.Top.{top};
ghost use Rattle.pj_meaning.specs.Tree.{Expr, Text};
ghost use Rattle.pj_session.specs.Ending.{Answers, Prints};
ghost use Rattle.pj_session.specs.Good.{Good};
ghost use Rattle.pj_session.specs.Items.{Got, Has, asked, call_of, got_value, is_asked, printed_of, println_item, read_of};
ghost use Rattle.pj_session.specs.Found.{Reads, found_at};
ghost use Rattle.pj_session.specs.Lent.{thing_seen};
ghost use Rattle.pj_session.specs.Seen.{events_of, state_seen};
ghost use Rattle.pj_session.specs.Shown.{value_seen};
ghost use Rattle.pj_session.specs.States.{run};
ghost use Rattle.pj_session.specs.Tops.{Tops};

use crate::arguments::charge_print;
use crate::call::call;
use crate::end::{End, not_loaded, undefined};
use crate::state::Session;
use crate::thing::Thing;
use crate::value::{Value, print, value_of};
use pj_base::ByteList;
use std::alloc::Global;

/// What a call of a name gives for integers, by whether its module is there, and by what the name is in it.
pub fn call_found(
    alloc: Global,
    there: bool,
    thing: Option<Thing<'_>>,
    home: &str,
    name: &str,
    arguments: &[i64],
    left: &mut u64,
) -> Result<i64, End>
    ensures { Answers (call_of (found_at there (option_map thing_seen thing.entry) home.now name.now) (id home.now name.now) arguments.now left.old) result left.new }
{
    if !there {
        return Err(not_loaded(alloc, home));
    }
    match thing {
        Some(thing) => call(alloc, &thing, home, name, arguments, left),
        None => Err(undefined(alloc, home, name)),
    }
}

/// The value of a call's integer.
pub fn whole<'a>(called: Result<i64, End>) -> Result<Value<'a>, End>
    ensures { (got : Got ℤ) (left : ℕ) → Answers got called left → Reads (got_value got) result left }
{
    match called {
        Ok(value) => Ok(Value::Whole(value)),
        Err(end) => Err(end),
    }
}

/// The value as which a name is read, by whether its module is there, and by what the name is in it.
pub fn read_found<'a>(
    alloc: Global,
    there: bool,
    thing: Option<Thing<'_>>,
    home: &'a str,
    name: &'a str,
) -> Result<Value<'a>, End>
    ensures { (left : ℕ) → Reads (read_of (found_at there (option_map thing_seen thing.entry) home.now name.now) (id home.now name.now) left) result left }
{
    if !there {
        return Err(not_loaded(alloc, home));
    }
    match thing {
        Some(thing) => Ok(value_of(&thing, home, name)),
        None => Err(undefined(alloc, home, name)),
    }
}

/// Prints a value, for the charges of printing.
#[tactic(auto, unfolding(crate::specs::Numbers::charge))]
fn print_value(
    alloc: Global,
    value: &Value<'_>,
    printed: &mut ByteList,
    left: &mut u64,
) -> Result<(), End>
    ensures { Prints (printed_of (Has (value_seen value.now) left.old)) result printed.old printed.new left.new }
{
    match charge_print(left) {
        None => Err(End::Steps),
        Some(()) => match print(alloc, value, printed) {
            Ok(()) => Ok(()),
            Err(_) => Err(End::NoMemory),
        },
    }
}

impl Session {
    /// `println` of an expression that gave this value, or ended so.
    pub fn println_answer(
        &mut self,
        alloc: Global,
        answer: Result<Value<'_>, End>,
        left: &mut u64,
    ) -> Result<(), End>
        ensures tops { (e : Expr) (before : ℕ) → is_asked e ≡ true → Good self.old.here (events_of self.old) → Reads (asked self.old.here (events_of self.old) e before) answer.entry left.old → Tops (top (println_item e) (run (state_seen self.old) before)) result (state_seen self.old) (state_seen self.new) left.new }
        ensures printed { (text : Text) × (self.new.printed ≡ self.old.printed ++ text) }
        ensures events { events_of self.new ≡ events_of self.old }
        ensures here { self.new.here ≡ self.old.here }
        ensures spent { self.new.spent ≡ self.old.spent }
    {
        match answer {
            Ok(value) => print_value(alloc, &value, &mut self.printed, left),
            Err(end) => Err(end),
        }
    }
}
