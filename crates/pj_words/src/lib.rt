//! Which texts are words of the language, stated once for all that read or check names.
#![tactic(auto)]

pub mod names;
pub mod word;
pub mod word_rows;

pub use names::{
    continues_name, is_base_name, is_identifier, is_package_name, is_reserved, is_special,
    starts_name,
};
pub use word::{Word, reserved_word};
