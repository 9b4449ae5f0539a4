//! Which scripts and packages are of the form that runs: functions of whole numbers, constants, and what is printed of them.
#![tactic(auto)]

mod definition_form;
pub mod form_rows;
pub mod forms;
pub mod held;
mod own_names;
mod printed_form;

pub use forms::{package_runs, script_runs};
