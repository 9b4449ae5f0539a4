//! The trees of texts, in which each name is a local of a scope or a name of a module.
#![tactic(auto)]

pub mod fault;
pub mod introduce;
pub mod item;
pub mod rows;
pub mod statement;
pub mod text;
pub mod value;
pub mod word;

pub use fault::ScopeFault;
pub use text::{package_tree, script_tree};
