//! The fields of which the files consist: numbers, integers and lists, as bytes and back.
#![tactic(auto)]

pub mod putting;
pub mod taking;

pub use putting::{put_int, put_number};
pub use taking::{take_int, take_number};
