//! Trees from bytes.

pub mod decode;
pub mod expr;
pub mod names;
pub mod stmt;
pub mod whole;
