//! What a session does with plain items and images, and closed forms of what they mean.
#![tactic(auto)]

pub mod arguments;
pub mod asked;
pub mod call;
pub mod called_here;
pub mod constant;
pub mod constant_tree;
pub mod define;
pub mod definition;
pub mod end;
pub mod error;
pub mod file_laws;
pub mod found;
pub mod here;
pub mod index;
pub mod index_laws;
pub mod item_rows;
pub mod load;
pub mod name_places;
pub mod number;
pub mod own;
pub mod package;
pub mod session;
pub mod shown;
pub mod start;
pub mod state;
pub mod tables;
pub mod thing;
pub mod things;
pub mod top;
pub mod using;
pub mod value;

ghost use Rattle.pj_session.specs.Laws.{an_expression_gives_its_number, charges_are_only_taken, an_event_comes_last, events_stay_good, output_stands_beside_events, base_stays_as_it_is, a_name_is_what_the_events_say, no_module_binds_a_name_of_base, an_unqualified_name_of_base_is_bases, a_call_picks_the_only_method, a_module_is_loaded_as_the_events_say, a_line_prints_what_is_asked, a_definition_adds_its_method, a_constant_is_bound_behind_its_value, a_start_calls_init, an_image_is_loaded_once, a_wrong_reading_ends_the_run, a_refused_image_changes_nothing, an_image_is_loaded_and_started, a_build_keeps_its_events};
ghost use Rattle.pj_session.specs.Rows.{these_events_are_good, a_constant_of_a_package, one_charge_prints_nothing, a_call_of_a_package, three_charges_print_nothing, an_own_call, an_own_constant, a_function_is_a_value, a_name_that_a_package_lacks, a_called_constant, too_many_arguments, a_package_that_is_not_loaded, a_constant_from_a_call, a_constant_from_an_expression};

pub use end::End;
pub use error::ErrorValue;
pub use load::LoadFault;
pub use state::{Session, Tables};
pub use using::UsingFault;

/// What a plain expression gives, and how many charges it takes.
pub fn expression_laws()
    ensures an_expression_gives_its_number { an_expression_gives_its_number }
    ensures charges_are_only_taken { charges_are_only_taken }
{}

/// What the state has after events.
pub fn state_laws()
    ensures an_event_comes_last { an_event_comes_last }
    ensures events_stay_good { events_stay_good }
    ensures output_stands_beside_events { output_stands_beside_events }
    ensures base_stays_as_it_is { base_stays_as_it_is }
    ensures a_name_is_what_the_events_say { a_name_is_what_the_events_say }
    ensures no_module_binds_a_name_of_base { no_module_binds_a_name_of_base }
    ensures an_unqualified_name_of_base_is_bases { an_unqualified_name_of_base_is_bases }
    ensures a_call_picks_the_only_method { a_call_picks_the_only_method }
    ensures a_module_is_loaded_as_the_events_say { a_module_is_loaded_as_the_events_say }
{}

/// What items at the top level do.
pub fn item_laws()
    ensures a_line_prints_what_is_asked { a_line_prints_what_is_asked }
    ensures a_definition_adds_its_method { a_definition_adds_its_method }
    ensures a_constant_is_bound_behind_its_value { a_constant_is_bound_behind_its_value }
{}

/// What loading and starting an image does.
pub fn image_laws()
    ensures a_start_calls_init { a_start_calls_init }
    ensures an_image_is_loaded_once { an_image_is_loaded_once }
    ensures a_wrong_reading_ends_the_run { a_wrong_reading_ends_the_run }
    ensures a_refused_image_changes_nothing { a_refused_image_changes_nothing }
    ensures an_image_is_loaded_and_started { an_image_is_loaded_and_started }
{}

/// What building a package keeps.
pub fn build_laws()
    ensures a_build_keeps_its_events { a_build_keeps_its_events }
{}

/// Worked rows over a package and a script.
pub fn rows()
    ensures these_events_are_good { these_events_are_good }
    ensures a_constant_of_a_package { a_constant_of_a_package }
    ensures one_charge_prints_nothing { one_charge_prints_nothing }
    ensures a_call_of_a_package { a_call_of_a_package }
    ensures three_charges_print_nothing { three_charges_print_nothing }
    ensures an_own_call { an_own_call }
    ensures an_own_constant { an_own_constant }
    ensures a_function_is_a_value { a_function_is_a_value }
    ensures a_name_that_a_package_lacks { a_name_that_a_package_lacks }
    ensures a_called_constant { a_called_constant }
    ensures too_many_arguments { too_many_arguments }
    ensures a_package_that_is_not_loaded { a_package_that_is_not_loaded }
    ensures a_constant_from_a_call { a_constant_from_a_call }
    ensures a_constant_from_an_expression { a_constant_from_an_expression }
{}
