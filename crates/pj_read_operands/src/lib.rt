//! What the reader does where operands begin, and what follows them.
#![tactic(auto)]

pub mod begin;
pub mod calls;
pub mod finishing;
pub mod have;
pub mod operands;
