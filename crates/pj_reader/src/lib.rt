//! Reads the tokens of a text into its tree, by the machine of the grammar.
#![tactic(auto)]

pub mod fault;
pub mod items;
pub mod lines;
pub mod machine;
pub mod reader;
