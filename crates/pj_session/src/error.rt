//! Errors that end an item, and their lines.

ghost use Rattle.std.specs.Prelude.{◌≡◌, ◌++◌, IfOk, OnOk};
ghost use Rattle.pj_meaning.specs.Names.{id};
ghost use Rattle.pj_meaning.specs.Outcome.{ModuleNotLoaded};
ghost use Rattle.pj_meaning.specs.Printing.{call_text, error_line, error_text, function_text, listed, type_texts};
ghost use Rattle.pj_session.specs.Events.{ints};
ghost use Rattle.pj_session.specs.Spoken.{error_of};

use pj_base::{ByteList, NoMemory, Text};
use std::alloc::Global;

/// An error that no one caught.
#[derive(Drop)]
pub enum ErrorValue {
    /// A call of a function with so many integers, for which it has no method.
    NoMethod {
        home: Text,
        name: Text,
        count: usize,
    },
    /// A call of an integer.
    NotCallable,
    /// A name that its module doesn't bind.
    Undefined {
        home: Text,
        name: Text,
    },
    /// A module that isn't loaded.
    ModuleNotLoaded {
        home: Text,
    },
}

/// Puts a name with its module.
pub fn put_name(line: &mut ByteList, home: &str, name: &str) -> Result<(), NoMemory>
    ensures { OnOk result (line.new ≡ line.old ++ function_text (id home.now name.now)) }
{
    line.extend(home.as_bytes())?;
    line.extend(b".")?;
    line.extend(name.as_bytes())
}

/// Puts Int64 so many times, with a comma and a space between them.
fn put_integers(line: &mut ByteList, count: usize) -> Result<(), NoMemory>
    ensures { OnOk result (line.new ≡ line.old ++ listed (type_texts (ints count))) }
{
    match count {
        0 => Ok(()),
        1 => line.extend(b"Int64"),
        _ => {
            line.extend(b"Int64, ")?;
            put_integers(line, count - 1)
        }
    }
}

/// Puts what a call of a function that has no method for it says.
fn put_call(line: &mut ByteList, home: &str, name: &str, count: usize) -> Result<(), NoMemory>
    ensures { OnOk result (line.new ≡ line.old ++ call_text (function_text (id home.now name.now)) (ints count)) }
{
    put_name(line, home, name)?;
    line.extend(b"(")?;
    put_integers(line, count)?;
    line.extend(b")")
}

/// Puts what a name of a module that isn't loaded says.
fn put_unloaded(line: &mut ByteList, home: &str) -> Result<(), NoMemory>
    ensures { OnOk result (line.new ≡ line.old ++ error_text (ModuleNotLoaded home.now)) }
{
    line.extend(b"UndefVarError: module ")?;
    line.extend(home.as_bytes())?;
    line.extend(b" not loaded")
}

impl ErrorValue {
    /// Puts the text of the error, by itself.
    fn put(&self, line: &mut ByteList) -> Result<(), NoMemory>
        ensures { OnOk result (line.new ≡ line.old ++ error_text (error_of self.now)) }
    {
        match self {
            ErrorValue::NoMethod { home, name, count } => {
                line.extend(b"MethodError: no method matching ")?;
                put_call(line, home.as_str(), name.as_str(), *count)
            }
            ErrorValue::NotCallable => {
                line.extend(b"MethodError: value of type Int64 is not callable")
            }
            ErrorValue::Undefined { home, name } => {
                line.extend(b"UndefVarError: ")?;
                put_name(line, home.as_str(), name.as_str())?;
                line.extend(b" not defined")
            }
            ErrorValue::ModuleNotLoaded { home } => put_unloaded(line, home.as_str()),
        }
    }

    /// The line that is put where no one catches the error.
    pub fn error_line(&self, alloc: Global) -> Result<ByteList, NoMemory>
        ensures { IfOk result (λ line. line ≡ error_line (error_of self.now)) }
    {
        let mut line = ByteList::new(alloc);
        line.extend(b"ERROR: ")?;
        self.put(&mut line)?;
        line.extend(b"\n")?;
        Ok(line)
    }
}
