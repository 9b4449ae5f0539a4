//! Worked rows on faults, which the checker computes. There is no product code here.

ghost use Rattle.pj_faults.specs.Rows.{a_loops_name_is_not_read_behind_it, a_loops_name_is_not_called_before_it, a_loops_bound_stands_outside, a_loops_condition_stands_outside, a_name_of_the_body_is_read_in_its_loops, a_parameter_is_read_in_loops, a_module_before_a_name_is_no_scope, what_is_evaluated_sees_no_loop, a_global_has_no_parameters_name, a_global_has_no_later_loops_name, a_global_beside_an_assignment_at_top_level, no_local_has_a_modules_name, no_loop_variable_is_reserved, no_payload_binds_a_modules_name, a_method_of_another_module_binds_nothing, no_parameter_stands_twice, no_break_outside_a_loop, no_return_at_top_level, a_payloads_body_may_return, a_payloads_body_is_in_no_loop, sixteen_arguments, no_seventeenth_argument, no_seventeenth_parameter, so_many_names, one_name_too_many, the_lowest_place_counts, at_one_place_the_order_of_kinds_counts};

/// Names of loops, and globals.
#[tactic(auto, unfolding(crate::specs::First::first, crate::specs::First::sooner, crate::specs::First::before, crate::specs::Introduced::is_among, crate::specs::Introduced::with_name, crate::specs::Introduced::with_names, crate::specs::Introduced::new_names, crate::specs::Sorted::sorted, pj_words::specs::Words::is_among, pj_words::specs::Words::special_names))]
pub fn scope_rows()
    ensures a_loops_name_is_not_read_behind_it { a_loops_name_is_not_read_behind_it }
    ensures a_loops_name_is_not_called_before_it { a_loops_name_is_not_called_before_it }
    ensures a_loops_bound_stands_outside { a_loops_bound_stands_outside }
    ensures a_loops_condition_stands_outside { a_loops_condition_stands_outside }
    ensures a_name_of_the_body_is_read_in_its_loops { a_name_of_the_body_is_read_in_its_loops }
    ensures a_parameter_is_read_in_loops { a_parameter_is_read_in_loops }
    ensures a_module_before_a_name_is_no_scope { a_module_before_a_name_is_no_scope }
    ensures what_is_evaluated_sees_no_loop { what_is_evaluated_sees_no_loop }
    ensures a_global_has_no_parameters_name { a_global_has_no_parameters_name }
    ensures a_global_has_no_later_loops_name { a_global_has_no_later_loops_name }
    ensures a_global_beside_an_assignment_at_top_level { a_global_beside_an_assignment_at_top_level }
{}

/// Names that are bound, and words out of their place.
#[tactic(auto, unfolding(crate::specs::First::first, crate::specs::First::sooner, crate::specs::First::before, crate::specs::Introduced::is_among, crate::specs::Introduced::with_name, crate::specs::Introduced::with_names, crate::specs::Introduced::new_names, crate::specs::Sorted::sorted, pj_words::specs::Words::is_among, pj_words::specs::Words::special_names))]
pub fn bound_rows()
    ensures no_local_has_a_modules_name { no_local_has_a_modules_name }
    ensures no_loop_variable_is_reserved { no_loop_variable_is_reserved }
    ensures no_payload_binds_a_modules_name { no_payload_binds_a_modules_name }
    ensures a_method_of_another_module_binds_nothing { a_method_of_another_module_binds_nothing }
    ensures no_parameter_stands_twice { no_parameter_stands_twice }
    ensures no_break_outside_a_loop { no_break_outside_a_loop }
    ensures no_return_at_top_level { no_return_at_top_level }
    ensures a_payloads_body_may_return { a_payloads_body_may_return }
    ensures a_payloads_body_is_in_no_loop { a_payloads_body_is_in_no_loop }
{}

/// Limits, and which fault counts.
#[tactic(auto, unfolding(crate::specs::First::first, crate::specs::First::sooner, crate::specs::First::before, crate::specs::Introduced::is_among, crate::specs::Introduced::with_name, crate::specs::Introduced::with_names, crate::specs::Introduced::new_names, crate::specs::Sorted::sorted, pj_words::specs::Words::is_among, pj_words::specs::Words::special_names))]
pub fn count_rows()
    ensures sixteen_arguments { sixteen_arguments }
    ensures no_seventeenth_argument { no_seventeenth_argument }
    ensures no_seventeenth_parameter { no_seventeenth_parameter }
    ensures so_many_names { so_many_names }
    ensures one_name_too_many { one_name_too_many }
    ensures the_lowest_place_counts { the_lowest_place_counts }
    ensures at_one_place_the_order_of_kinds_counts { at_one_place_the_order_of_kinds_counts }
{}
