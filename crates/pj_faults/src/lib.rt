//! The faults of names and scopes in a text: the first is told, with its place.
#![tactic(auto)]

pub mod bound;
pub mod crowded;
pub mod enter;
pub mod expression;
pub mod fault;
pub mod gather;
pub mod item;
pub mod laws;
pub mod names;
pub mod rows;
pub mod statement;
pub mod unit;

pub use enter::enter_block;
pub use fault::{Fault, ScopeKind};
pub use item::{package_fault, script_fault};
pub use names::NameSet;
