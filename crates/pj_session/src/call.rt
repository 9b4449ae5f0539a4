//! Calls of what a name is, with integers.

ghost use Rattle.std.specs.Prelude.{◌≡◌, ◌==◌, Ok, Some, length};
ghost use Rattle.pj_meaning.specs.Names.{id};
ghost use Rattle.pj_meaning.specs.Lookup.{named_home};
ghost use Rattle.pj_session.specs.Ending.{Answers};
ghost use Rattle.pj_session.specs.Items.{call_of, entered, got_number};
ghost use Rattle.pj_session.specs.Lent.{parts_seen, thing_seen};
ghost use Rattle.pj_session.specs.Numbers.{charge as charged_with, number_in};
ghost use Rattle.pj_session.specs.Things.{Calls, method_for};

use crate::end::{End, no_method};
use crate::error::ErrorValue;
use crate::number::{charge, number};
use crate::thing::{Code, Thing};
use std::alloc::Global;

/// The module of a name: the one that is written before it, or else the module that runs.
pub fn home_of<'a>(here: &'a str, qualifier: &'a str) -> &'a str
    ensures { result.now ≡ named_home here.now qualifier.now }
{
    if qualifier.is_empty() {
        here
    } else {
        qualifier
    }
}

/// What a method's expression gives for the arguments, for a charge and those of its operations.
#[tactic(auto, unfolding(crate::specs::Numbers::charge))]
fn enter(code: &Code<'_>, arguments: &[i64], left: &mut u64) -> Result<i64, End>
    ensures { Answers (got_number (charged_with left.old (number_in (parts_seen code.now).0 arguments.now (parts_seen code.now).1))) result left.new }
{
    match charge(left) {
        None => Err(End::Steps),
        Some(()) => match number(code.strings, code.params, arguments, code.body, left) {
            Some(value) => Ok(value),
            None => Err(End::Steps),
        },
    }
}

/// What a function gives that has this method, for integers.
fn call_code(
    alloc: Global,
    code: &Code<'_>,
    home: &str,
    name: &str,
    arguments: &[i64],
    left: &mut u64,
) -> Result<i64, End>
    ensures { Answers (entered (method_for (length arguments.now) (Some (Calls (Some (parts_seen code.now))))) (id home.now name.now) arguments.now left.old) result left.new }
{
    if code.params.len() == arguments.len() {
        enter(code, arguments, left)
    } else {
        Err(no_method(alloc, home, name, arguments.len()))
    }
}

/// What a call of a thing of this module and name gives for integers.
pub fn call(
    alloc: Global,
    thing: &Thing<'_>,
    home: &str,
    name: &str,
    arguments: &[i64],
    left: &mut u64,
) -> Result<i64, End>
    ensures { Answers (call_of (Ok (thing_seen thing.now)) (id home.now name.now) arguments.now left.old) result left.new }
{
    match thing {
        Thing::Holds(_) => Err(End::Error(ErrorValue::NotCallable)),
        Thing::Calls(Some(code)) => call_code(alloc, code, home, name, arguments, left),
        Thing::Calls(None) => Err(no_method(alloc, home, name, arguments.len())),
    }
}
