//! The entries of an image: what each of its mentions names, and the target that an entry stands for.
#![tactic(auto)]

pub mod deps;
pub mod entry;
pub mod resolving;

pub use deps::{Counts, DepTable};
pub use entry::Entry;
pub use resolving::resolve;
