//! Trees as texts for people.
#![tactic(auto)]

mod expressions;
mod items;
mod lines;
mod names;
mod statements;
mod whole;

pub use whole::{outline, outline_item, outline_package, outline_script};
