//! What a session keeps of the module that runs: functions and constants, and the order in which all came.

ghost use Rattle.std.specs.Prelude.{◌≡◌};
ghost use Rattle.pj_session.specs.Merged.{thing_in_own};
ghost use Rattle.pj_session.specs.Lent.{thing_seen};

use crate::thing::{Code, Thing};
use pj_tree::{Expr, SymList};

/// A function: its parameters, and its expression. All names are held.
#[derive(Drop)]
pub struct Definition {
    pub params: SymList,
    pub body: Expr,
}

/// What a name of the module that runs is.
#[derive(Drop)]
pub enum Own {
    Function(Definition),
    Constant(i64),
}

impl Own {
    /// What it is, lent.
    pub fn thing(&self) -> Thing<'_>
        ensures { thing_seen result ≡ thing_in_own self.now }
    {
        match self {
            Own::Function(definition) => Thing::Calls(Some(Code {
                strings: &[],
                params: definition.params.as_slice(),
                body: &definition.body,
            })),
            Own::Constant(value) => Thing::Holds(*value),
        }
    }
}

/// What was added: a function or a constant of the module that runs, or an image.
#[derive(Clone, Copy, Debug, PartialEq, Eq)]
pub enum Kind {
    Own,
    Image,
}
