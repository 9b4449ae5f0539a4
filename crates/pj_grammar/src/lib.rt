//! The grammar of texts, and a machine that reads their tokens.
#![tactic(auto)]

pub mod frame;
pub mod grammar_laws;
pub mod grammar_rows;
pub mod level;
pub mod mode;
pub mod node;

pub use frame::{Form, Frame, Given, Header, Opener, Purpose, Root, Target};
pub use level::{Level, Operator};
pub use mode::{Head, Mode, Parsed};
pub use node::{Arguments, Entries, Line, Lines, Node};
