//! What the parts of an image mean, and which of its entries is refused.
#![tactic(auto)]

pub mod fitting;
pub mod laws;
pub mod mentions;

pub use fitting::misfit;
