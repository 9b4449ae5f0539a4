//! Values that are printed.

ghost use Rattle.std.specs.Prelude.{◌≡◌, ◌++◌, ℕ, Ok, OnOk, OnErr};
ghost use Rattle.pj_meaning.specs.Names.{id};
ghost use Rattle.pj_meaning.specs.Values.{Whole, Function};
ghost use Rattle.pj_session.specs.Items.{Has, line_of, read_of};
ghost use Rattle.pj_session.specs.Lent.{thing_seen};
ghost use Rattle.pj_session.specs.Shown.{value_seen};

use crate::error::put_name;
use crate::thing::Thing;
use pj_base::{ByteList, NoMemory};
use std::alloc::Global;

/// A value: an integer, or a function of a module.
#[derive(Drop)]
pub enum Value<'a> {
    Whole(i64),
    Function { home: &'a str, name: &'a str },
}

/// The value of a thing of this module and name.
pub fn value_of<'a>(thing: &Thing<'_>, home: &'a str, name: &'a str) -> Value<'a>
    ensures { (left : ℕ) → read_of (Ok (thing_seen thing.now)) (id home.now name.now) left ≡ Has (value_seen result) left }
{
    match thing {
        Thing::Calls(_) => Value::Function { home, name },
        Thing::Holds(value) => Value::Whole(*value),
    }
}

/// Prints a number and a line end, or, without memory, nothing.
fn print_number(alloc: Global, value: i64, printed: &mut ByteList) -> Result<(), NoMemory>
    ensures put { OnOk result (printed.new ≡ printed.old ++ line_of (Whole value)) }
    ensures unchanged { OnErr result (printed.new ≡ printed.old) }
{
    match format!(in alloc; "{value}\n") {
        Ok(line) => printed.extend(line.as_bytes()),
        Err(_) => Err(NoMemory),
    }
}

/// Prints a function's name with its module, and a line end, or, without memory, nothing.
fn print_function(
    alloc: Global,
    home: &str,
    name: &str,
    printed: &mut ByteList,
) -> Result<(), NoMemory>
    ensures put { OnOk result (printed.new ≡ printed.old ++ line_of (Function (id home.now name.now))) }
    ensures unchanged { OnErr result (printed.new ≡ printed.old) }
{
    let mut line = ByteList::new(alloc);
    put_name(&mut line, home, name)?;
    line.extend(b"\n")?;
    printed.extend(line.as_slice())
}

/// Prints a value and a line end, or, without memory, nothing.
pub fn print(alloc: Global, value: &Value<'_>, printed: &mut ByteList) -> Result<(), NoMemory>
    ensures put { OnOk result (printed.new ≡ printed.old ++ line_of (value_seen value.now)) }
    ensures unchanged { OnErr result (printed.new ≡ printed.old) }
{
    match value {
        Value::Whole(value) => print_number(alloc, *value, printed),
        Value::Function { home, name } => print_function(alloc, home, name, printed),
    }
}
