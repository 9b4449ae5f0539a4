//! How the lines of case files write texts and bytes.
#![tactic(auto)]

pub mod escapes;
pub mod fields;

pub use escapes::{Marked, unescaped};
pub use fields::{add_hex, halves};
