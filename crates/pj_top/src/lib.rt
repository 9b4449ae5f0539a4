//! The top call: all that the program does, from the words of its command line to its status.
#![tactic(auto)]

mod ending;
mod lines;
pub mod position;
mod precompile;
mod putting;
mod run;
mod status;
mod stop;
mod top;
mod words;

pub use status::Status;
pub use top::{drive, one_ending};
