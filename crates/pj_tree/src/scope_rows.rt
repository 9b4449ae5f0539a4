//! Worked rows on scopes, which the checker computes. There is no product code here.

ghost use Rattle.pj_tree.specs.RowsScopes.{names_in_order_of_their_first_assignment, a_loops_assignments_are_not_direct, outer_names_are_not_introduced_again, a_later_assignment_is_the_bodys, a_loop_carries_no_name_of_its_body, a_loops_variable_is_not_in_its_list, bounds_stand_outside_the_loop, a_parameter_is_read_as_a_local, a_name_of_a_module_is_none_of_the_scope, a_local_is_called_as_a_local, a_loops_name_is_not_read_outside, a_loops_name_is_not_called_outside, another_name_is_read_outside, a_name_stands_twice, parameters_without_names_are_not_twice, a_field_stands_twice, a_parameter_is_no_global, a_loops_name_is_no_global_before_it, another_name_is_a_global, a_statement_sets_a_global_beside_its_loop, a_statements_loop_sets_no_global_of_its_name, no_break_outside_a_loop, no_continue_after_a_loop, break_within_an_if_within_a_loop, no_return_at_top_level, return_within_a_bodys_loop, sixteen_arguments, no_seventeenth_argument, fifteen_arguments_after_a_function, no_sixteenth_argument_after_a_function, no_seventeenth_parameter, so_many_names, one_name_too_many, an_evaluated_body_has_its_own_scopes, an_evaluated_expression_sees_no_local};

/// What scopes introduce, and what is read from them.
pub fn introduced_rows()
    ensures names_in_order_of_their_first_assignment { names_in_order_of_their_first_assignment }
    ensures a_loops_assignments_are_not_direct { a_loops_assignments_are_not_direct }
    ensures outer_names_are_not_introduced_again { outer_names_are_not_introduced_again }
    ensures a_later_assignment_is_the_bodys { a_later_assignment_is_the_bodys }
    ensures a_loop_carries_no_name_of_its_body { a_loop_carries_no_name_of_its_body }
    ensures a_loops_variable_is_not_in_its_list { a_loops_variable_is_not_in_its_list }
    ensures bounds_stand_outside_the_loop { bounds_stand_outside_the_loop }
    ensures a_parameter_is_read_as_a_local { a_parameter_is_read_as_a_local }
    ensures a_name_of_a_module_is_none_of_the_scope { a_name_of_a_module_is_none_of_the_scope }
    ensures a_local_is_called_as_a_local { a_local_is_called_as_a_local }
{}

/// What is refused of names, of `break`, `continue` and `return`.
pub fn refused_rows()
    ensures a_loops_name_is_not_read_outside { a_loops_name_is_not_read_outside }
    ensures a_loops_name_is_not_called_outside { a_loops_name_is_not_called_outside }
    ensures another_name_is_read_outside { another_name_is_read_outside }
    ensures a_name_stands_twice { a_name_stands_twice }
    ensures parameters_without_names_are_not_twice { parameters_without_names_are_not_twice }
    ensures a_field_stands_twice { a_field_stands_twice }
    ensures a_parameter_is_no_global { a_parameter_is_no_global }
    ensures a_loops_name_is_no_global_before_it { a_loops_name_is_no_global_before_it }
    ensures another_name_is_a_global { another_name_is_a_global }
    ensures a_statement_sets_a_global_beside_its_loop { a_statement_sets_a_global_beside_its_loop }
    ensures a_statements_loop_sets_no_global_of_its_name { a_statements_loop_sets_no_global_of_its_name }
    ensures no_break_outside_a_loop { no_break_outside_a_loop }
    ensures no_continue_after_a_loop { no_continue_after_a_loop }
    ensures break_within_an_if_within_a_loop { break_within_an_if_within_a_loop }
    ensures no_return_at_top_level { no_return_at_top_level }
    ensures return_within_a_bodys_loop { return_within_a_bodys_loop }
{}

/// Limits, and trees that others name.
pub fn limit_rows()
    ensures sixteen_arguments { sixteen_arguments }
    ensures no_seventeenth_argument { no_seventeenth_argument }
    ensures fifteen_arguments_after_a_function { fifteen_arguments_after_a_function }
    ensures no_sixteenth_argument_after_a_function { no_sixteenth_argument_after_a_function }
    ensures no_seventeenth_parameter { no_seventeenth_parameter }
    ensures so_many_names { so_many_names }
    ensures one_name_too_many { one_name_too_many }
    ensures an_evaluated_body_has_its_own_scopes { an_evaluated_body_has_its_own_scopes }
    ensures an_evaluated_expression_sees_no_local { an_evaluated_expression_sees_no_local }
{}
