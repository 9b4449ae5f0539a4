//! What scripts mean, as definitions in `specs/`. There is no product code here.
#![tactic(auto)]

ghost use Rattle.pj_meaning.specs.RowsFirst.{nothing_at_all, four_steps_suffice, three_steps_are_too_few};
ghost use Rattle.pj_meaning.specs.RowsWorlds.{a_running_call_misses_a_new_method, invokelatest_finds_a_new_method, a_running_call_keeps_its_methods, a_statement_keeps_its_world, a_top_level_loop_is_one_statement, the_latest_body_runs_at_the_newest_world, an_evaluated_expression_sees_the_newest_world, a_global_is_read_at_its_newest, a_definition_gives_its_function, a_payload_sees_no_locals, a_declared_function_has_no_method, a_method_can_be_evaluated_in_base, a_name_evaluated_in_base_is_base_s, a_method_evaluates_in_its_own_module, a_script_evaluates_in_a_loaded_package, a_name_is_sought_in_its_module_first, invokelatest_takes_the_world_after_its_arguments};
ghost use Rattle.pj_meaning.specs.RowsDispatch.{the_more_specific_method_is_picked, the_latest_of_equal_signatures_is_picked, crossed_methods_are_ambiguous, a_method_below_both_ends_the_ambiguity, a_method_takes_as_many_arguments, arithmetic_takes_no_bool, a_function_is_of_one_type, a_struct_is_below_its_abstract_types, an_operator_takes_methods, greater_calls_less, a_package_can_make_a_call_ambiguous, least_and_greatest_ask_alike, least_asks_in_one_order, difference_asks_for_equality};
ghost use Rattle.pj_meaning.specs.RowsPrinting.{plain_values, several_values_stand_side_by_side, five_values_are_too_many, a_struct_with_its_fields, a_text_in_a_struct_is_escaped, three_levels_are_shown, a_struct_without_fields, an_object_that_holds_itself, printing_gives_nothing, printing_gives_nothing_over_other_methods, println_prints_by_print};
ghost use Rattle.pj_meaning.specs.RowsNumbers.{sums_wrap, products_wrap, quotients_and_remainders, the_least_by_minus_one, a_quotient_by_zero, a_remainder_by_zero, comparisons, equality_is_of_type_and_contents, least_and_greatest};
ghost use Rattle.pj_meaning.specs.RowsLoops.{eight_steps_for_three_turns, a_step_less_prints_nothing, a_while_is_charged_after_its_condition, a_while_without_a_step_left, no_turn_is_not_charged, an_endless_loop_ends, bounds_are_evaluated_and_then_checked, the_first_bound_is_checked_first, the_second_bound_is_checked, the_greatest_bound_ends, an_assigned_loop_variable_is_set_anew, break_and_continue, break_leaves_the_inner_loop, return_leaves_its_loops, a_loop_gives_nothing, a_loops_name_begins_without_a_value, a_loop_assigns_an_outer_local, a_top_level_if_binds_globals, blocks_have_values, an_inner_loop_variable_is_gone_after_its_loop, a_loop_variable_hides_a_parameter_in_its_loop, a_while_has_names_of_its_own, a_name_of_a_while_begins_without_a_value, a_while_condition_has_to_be_a_bool};
ghost use Rattle.pj_meaning.specs.RowsCharges.{four_calls_take_four_steps, what_was_printed_stays, the_same_in_a_package, a_const_takes_no_step, a_constructor_takes_no_step, invokelatest_takes_only_the_calls_step, a_failed_pick_takes_no_step, steps_are_one_budget_for_all, the_last_open_call, one_open_call_too_many, the_step_comes_before_the_depth, a_constructor_opens_no_call, evaluation_keeps_the_depth};
ghost use Rattle.pj_meaning.specs.RowsStructs.{a_store_is_seen_by_all_names, objects_are_identical_by_identity, structs_are_identical_by_contents, a_struct_holds_an_object_by_identity, a_field_of_its_own_type, a_constructor_converts_nothing, a_constructor_takes_all_its_fields, base_types_construct_nothing, an_abstract_type_constructs_nothing, the_most_parts, an_object_is_one_part};
ghost use Rattle.pj_meaning.specs.RowsErrors.{a_name_that_is_not_bound, a_type_is_no_value, a_name_of_base_is_not_mains, a_module_that_is_not_loaded, a_value_that_is_not_called, a_condition_that_is_no_bool, a_conjunct_that_is_no_bool, a_disjunct_that_is_no_bool, a_field_that_is_not_there, a_store_into_a_struct, a_store_of_another_type, a_store_evaluates_and_then_checks, a_missing_field_comes_before_the_struct, a_raised_text, a_name_of_base_is_not_defined, a_name_of_base_is_not_assigned, int_is_a_name_of_base, a_const_is_bound_once, a_const_is_not_assigned, a_global_is_no_function, a_function_is_not_assigned, a_parent_that_is_not_abstract, a_types_name_is_checked_first, a_parent_is_checked_before_the_fields, fields_are_checked_in_order, no_type_is_its_own_parent, arguments_come_before_the_callee, arguments_come_before_a_local_callee, invokelatest_reads_its_function_first, invokelatest_of_no_function, a_functions_name_is_checked_before_its_parameters, a_function_of_base_that_is_not_there, parameters_are_checked_in_order, a_parameter_is_no_function_of_the_same_definition, the_module_comes_before_the_payload, an_error_ends_the_script};
ghost use Rattle.pj_meaning.specs.RowsPackages.{a_call_through_two_packages, a_call_through_two_packages_takes_eight_steps, seven_steps_print_nothing, an_external_method_is_used_and_constants_stay, a_wider_external_method_is_not_picked, the_package_loaded_last_wins, the_other_order_of_loading, a_constant_is_as_its_build_left_it, using_twice_loads_once, a_dependency_of_a_dependency_is_loaded, methods_loaded_before_are_used_too, arithmetic_in_a_package, two_packages_one_after_the_other, two_packages_lacking_a_step, an_object_is_shared_and_a_builds_writes_are_lost, a_builds_global_of_a_dependency_is_lost, dependencies_are_started_in_recorded_order, building_does_not_start_dependencies, a_start_takes_a_step, an_error_of_a_start_ends_the_script, only_a_method_without_parameters_is_started, a_start_sees_the_newest_methods, six_packages};
ghost use Rattle.pj_meaning.specs.RowsBuilding.{what_a_build_prints_stays_before_its_error, no_method_is_overwritten, no_method_of_its_own_is_overwritten, a_parameter_is_checked_before_overwriting, no_evaluation_in_a_closed_module, a_dependency_does_not_evaluate_in_itself, base_is_closed, a_module_not_loaded_comes_before_a_closed_one, a_package_evaluates_in_itself, only_a_package_of_its_own_text_is_known, a_directives_function_is_checked_first, a_directive_needs_a_function, a_directive_needs_concrete_types, a_directives_types_are_checked_in_order, a_directives_module_is_checked, objects_are_numbered_breadth_first, bindings_stand_in_order_of_binding, types_and_functions_stand_in_order, methods_stand_in_order_also_those_of_other_functions, directives_are_kept, reach_goes_through_own_objects_only, recorded_dependencies_stand_once};
ghost use Rattle.pj_meaning.specs.RowsLoading.{all_is_there, a_missing_image, a_missing_dependency, an_image_that_is_too_long, a_wrong_form_is_told_before_dependencies_are_read, a_dependency_of_a_wrong_form, an_image_of_another_name, a_dependency_that_was_built_again, a_dependency_comes_before_an_entry, an_entry_that_does_not_fit, a_dependencys_own_dependency_is_not_loaded_for_it, the_last_image_that_has_room, an_image_too_many, images_loaded_before_stay, an_image_that_is_loaded, a_package_that_is_built_counts_as_loaded, a_package_that_is_built_has_no_identity, a_package_that_is_built_takes_a_place, an_entry_comes_before_the_room};
ghost use Rattle.pj_meaning.specs.RowsTrees.{a_parameter_without_a_name_introduces_nothing, parameters_without_names};
ghost use Rattle.pj_meaning.specs.RowsReports.{both_are_kept, both_are_dropped, each_directive_once_by_its_first_code, lines_follow_the_end_of_the_budget, nothing_follows_a_missing_image};
ghost use Rattle.pj_meaning.specs.Laws.{what_is_left_never_rises, the_newest_world_never_falls, methods_are_only_added, types_are_only_added, what_is_seen_at_a_world_stays, printed_text_is_only_added, images_are_only_added, the_module_that_runs_stays, no_birth_is_above_the_newest_world, types_functions_and_consts_stay, an_object_stays_of_its_type, a_script_runs_part_by_part, more_fuel_changes_nothing, a_run_stops_without_a_step, what_is_picked_is_applicable, what_is_picked_is_least, nothing_is_found_where_nothing_applies, contents_keep_objects, contents_keep_bindings};

/// A script by itself, and its charges.
pub fn first_rows()
    ensures nothing_at_all { nothing_at_all }
    ensures four_steps_suffice { four_steps_suffice }
    ensures three_steps_are_too_few { three_steps_are_too_few }
{}

/// Worlds: what a running call sees, and what evaluation adds.
pub fn world_rows()
    ensures a_running_call_misses_a_new_method { a_running_call_misses_a_new_method }
    ensures invokelatest_finds_a_new_method { invokelatest_finds_a_new_method }
    ensures a_running_call_keeps_its_methods { a_running_call_keeps_its_methods }
    ensures a_statement_keeps_its_world { a_statement_keeps_its_world }
    ensures a_top_level_loop_is_one_statement { a_top_level_loop_is_one_statement }
    ensures the_latest_body_runs_at_the_newest_world { the_latest_body_runs_at_the_newest_world }
    ensures an_evaluated_expression_sees_the_newest_world { an_evaluated_expression_sees_the_newest_world }
    ensures a_global_is_read_at_its_newest { a_global_is_read_at_its_newest }
    ensures a_definition_gives_its_function { a_definition_gives_its_function }
    ensures a_payload_sees_no_locals { a_payload_sees_no_locals }
    ensures a_declared_function_has_no_method { a_declared_function_has_no_method }
    ensures a_method_can_be_evaluated_in_base { a_method_can_be_evaluated_in_base }
    ensures a_name_evaluated_in_base_is_base_s { a_name_evaluated_in_base_is_base_s }
    ensures a_method_evaluates_in_its_own_module { a_method_evaluates_in_its_own_module }
    ensures a_script_evaluates_in_a_loaded_package { a_script_evaluates_in_a_loaded_package }
    ensures a_name_is_sought_in_its_module_first { a_name_is_sought_in_its_module_first }
    ensures invokelatest_takes_the_world_after_its_arguments { invokelatest_takes_the_world_after_its_arguments }
{}

/// The pick among methods.
pub fn dispatch_rows()
    ensures the_more_specific_method_is_picked { the_more_specific_method_is_picked }
    ensures the_latest_of_equal_signatures_is_picked { the_latest_of_equal_signatures_is_picked }
    ensures crossed_methods_are_ambiguous { crossed_methods_are_ambiguous }
    ensures a_method_below_both_ends_the_ambiguity { a_method_below_both_ends_the_ambiguity }
    ensures a_method_takes_as_many_arguments { a_method_takes_as_many_arguments }
    ensures arithmetic_takes_no_bool { arithmetic_takes_no_bool }
    ensures a_function_is_of_one_type { a_function_is_of_one_type }
    ensures a_struct_is_below_its_abstract_types { a_struct_is_below_its_abstract_types }
    ensures an_operator_takes_methods { an_operator_takes_methods }
    ensures greater_calls_less { greater_calls_less }
    ensures a_package_can_make_a_call_ambiguous { a_package_can_make_a_call_ambiguous }
    ensures least_and_greatest_ask_alike { least_and_greatest_ask_alike }
    ensures least_asks_in_one_order { least_asks_in_one_order }
    ensures difference_asks_for_equality { difference_asks_for_equality }
{}

/// What is printed.
pub fn printing_rows()
    ensures plain_values { plain_values }
    ensures several_values_stand_side_by_side { several_values_stand_side_by_side }
    ensures five_values_are_too_many { five_values_are_too_many }
    ensures a_struct_with_its_fields { a_struct_with_its_fields }
    ensures a_text_in_a_struct_is_escaped { a_text_in_a_struct_is_escaped }
    ensures three_levels_are_shown { three_levels_are_shown }
    ensures a_struct_without_fields { a_struct_without_fields }
    ensures an_object_that_holds_itself { an_object_that_holds_itself }
    ensures printing_gives_nothing { printing_gives_nothing }
    ensures printing_gives_nothing_over_other_methods { printing_gives_nothing_over_other_methods }
    ensures println_prints_by_print { println_prints_by_print }
{}

/// Arithmetic and comparison.
pub fn number_rows()
    ensures sums_wrap { sums_wrap }
    ensures products_wrap { products_wrap }
    ensures quotients_and_remainders { quotients_and_remainders }
    ensures the_least_by_minus_one { the_least_by_minus_one }
    ensures a_quotient_by_zero { a_quotient_by_zero }
    ensures a_remainder_by_zero { a_remainder_by_zero }
    ensures comparisons { comparisons }
    ensures equality_is_of_type_and_contents { equality_is_of_type_and_contents }
    ensures least_and_greatest { least_and_greatest }
{}

/// Loops, their scopes and their charges.
pub fn loop_rows()
    ensures eight_steps_for_three_turns { eight_steps_for_three_turns }
    ensures a_step_less_prints_nothing { a_step_less_prints_nothing }
    ensures a_while_is_charged_after_its_condition { a_while_is_charged_after_its_condition }
    ensures a_while_without_a_step_left { a_while_without_a_step_left }
    ensures no_turn_is_not_charged { no_turn_is_not_charged }
    ensures an_endless_loop_ends { an_endless_loop_ends }
    ensures bounds_are_evaluated_and_then_checked { bounds_are_evaluated_and_then_checked }
    ensures the_first_bound_is_checked_first { the_first_bound_is_checked_first }
    ensures the_second_bound_is_checked { the_second_bound_is_checked }
    ensures the_greatest_bound_ends { the_greatest_bound_ends }
    ensures an_assigned_loop_variable_is_set_anew { an_assigned_loop_variable_is_set_anew }
    ensures break_and_continue { break_and_continue }
    ensures break_leaves_the_inner_loop { break_leaves_the_inner_loop }
    ensures return_leaves_its_loops { return_leaves_its_loops }
    ensures a_loop_gives_nothing { a_loop_gives_nothing }
    ensures a_loops_name_begins_without_a_value { a_loops_name_begins_without_a_value }
    ensures a_loop_assigns_an_outer_local { a_loop_assigns_an_outer_local }
    ensures a_top_level_if_binds_globals { a_top_level_if_binds_globals }
    ensures blocks_have_values { blocks_have_values }
    ensures an_inner_loop_variable_is_gone_after_its_loop { an_inner_loop_variable_is_gone_after_its_loop }
    ensures a_loop_variable_hides_a_parameter_in_its_loop { a_loop_variable_hides_a_parameter_in_its_loop }
    ensures a_while_has_names_of_its_own { a_while_has_names_of_its_own }
    ensures a_name_of_a_while_begins_without_a_value { a_name_of_a_while_begins_without_a_value }
    ensures a_while_condition_has_to_be_a_bool { a_while_condition_has_to_be_a_bool }
{}

/// Charges and the depth of open calls.
pub fn charge_rows()
    ensures four_calls_take_four_steps { four_calls_take_four_steps }
    ensures what_was_printed_stays { what_was_printed_stays }
    ensures the_same_in_a_package { the_same_in_a_package }
    ensures a_const_takes_no_step { a_const_takes_no_step }
    ensures a_constructor_takes_no_step { a_constructor_takes_no_step }
    ensures invokelatest_takes_only_the_calls_step { invokelatest_takes_only_the_calls_step }
    ensures a_failed_pick_takes_no_step { a_failed_pick_takes_no_step }
    ensures steps_are_one_budget_for_all { steps_are_one_budget_for_all }
    ensures the_last_open_call { the_last_open_call }
    ensures one_open_call_too_many { one_open_call_too_many }
    ensures the_step_comes_before_the_depth { the_step_comes_before_the_depth }
    ensures a_constructor_opens_no_call { a_constructor_opens_no_call }
    ensures evaluation_keeps_the_depth { evaluation_keeps_the_depth }
{}

/// Structs, objects and identity.
pub fn struct_rows()
    ensures a_store_is_seen_by_all_names { a_store_is_seen_by_all_names }
    ensures objects_are_identical_by_identity { objects_are_identical_by_identity }
    ensures structs_are_identical_by_contents { structs_are_identical_by_contents }
    ensures a_struct_holds_an_object_by_identity { a_struct_holds_an_object_by_identity }
    ensures a_field_of_its_own_type { a_field_of_its_own_type }
    ensures a_constructor_converts_nothing { a_constructor_converts_nothing }
    ensures a_constructor_takes_all_its_fields { a_constructor_takes_all_its_fields }
    ensures base_types_construct_nothing { base_types_construct_nothing }
    ensures an_abstract_type_constructs_nothing { an_abstract_type_constructs_nothing }
    ensures the_most_parts { the_most_parts }
    ensures an_object_is_one_part { an_object_is_one_part }
{}

/// Errors and the order of checks.
pub fn error_rows()
    ensures a_name_that_is_not_bound { a_name_that_is_not_bound }
    ensures a_type_is_no_value { a_type_is_no_value }
    ensures a_name_of_base_is_not_mains { a_name_of_base_is_not_mains }
    ensures a_module_that_is_not_loaded { a_module_that_is_not_loaded }
    ensures a_value_that_is_not_called { a_value_that_is_not_called }
    ensures a_condition_that_is_no_bool { a_condition_that_is_no_bool }
    ensures a_conjunct_that_is_no_bool { a_conjunct_that_is_no_bool }
    ensures a_disjunct_that_is_no_bool { a_disjunct_that_is_no_bool }
    ensures a_field_that_is_not_there { a_field_that_is_not_there }
    ensures a_store_into_a_struct { a_store_into_a_struct }
    ensures a_store_of_another_type { a_store_of_another_type }
    ensures a_store_evaluates_and_then_checks { a_store_evaluates_and_then_checks }
    ensures a_missing_field_comes_before_the_struct { a_missing_field_comes_before_the_struct }
    ensures a_raised_text { a_raised_text }
    ensures a_name_of_base_is_not_defined { a_name_of_base_is_not_defined }
    ensures a_name_of_base_is_not_assigned { a_name_of_base_is_not_assigned }
    ensures int_is_a_name_of_base { int_is_a_name_of_base }
    ensures a_const_is_bound_once { a_const_is_bound_once }
    ensures a_const_is_not_assigned { a_const_is_not_assigned }
    ensures a_global_is_no_function { a_global_is_no_function }
    ensures a_function_is_not_assigned { a_function_is_not_assigned }
    ensures a_parent_that_is_not_abstract { a_parent_that_is_not_abstract }
    ensures a_types_name_is_checked_first { a_types_name_is_checked_first }
    ensures a_parent_is_checked_before_the_fields { a_parent_is_checked_before_the_fields }
    ensures fields_are_checked_in_order { fields_are_checked_in_order }
    ensures no_type_is_its_own_parent { no_type_is_its_own_parent }
    ensures arguments_come_before_the_callee { arguments_come_before_the_callee }
    ensures arguments_come_before_a_local_callee { arguments_come_before_a_local_callee }
    ensures invokelatest_reads_its_function_first { invokelatest_reads_its_function_first }
    ensures invokelatest_of_no_function { invokelatest_of_no_function }
    ensures a_functions_name_is_checked_before_its_parameters { a_functions_name_is_checked_before_its_parameters }
    ensures a_function_of_base_that_is_not_there { a_function_of_base_that_is_not_there }
    ensures parameters_are_checked_in_order { parameters_are_checked_in_order }
    ensures a_parameter_is_no_function_of_the_same_definition { a_parameter_is_no_function_of_the_same_definition }
    ensures the_module_comes_before_the_payload { the_module_comes_before_the_payload }
    ensures an_error_ends_the_script { an_error_ends_the_script }
{}

/// Scripts over packages: external methods, constants, order of loading, objects and starts.
pub fn package_rows()
    ensures a_call_through_two_packages { a_call_through_two_packages }
    ensures a_call_through_two_packages_takes_eight_steps { a_call_through_two_packages_takes_eight_steps }
    ensures seven_steps_print_nothing { seven_steps_print_nothing }
    ensures an_external_method_is_used_and_constants_stay { an_external_method_is_used_and_constants_stay }
    ensures a_wider_external_method_is_not_picked { a_wider_external_method_is_not_picked }
    ensures the_package_loaded_last_wins { the_package_loaded_last_wins }
    ensures the_other_order_of_loading { the_other_order_of_loading }
    ensures a_constant_is_as_its_build_left_it { a_constant_is_as_its_build_left_it }
    ensures using_twice_loads_once { using_twice_loads_once }
    ensures a_dependency_of_a_dependency_is_loaded { a_dependency_of_a_dependency_is_loaded }
    ensures methods_loaded_before_are_used_too { methods_loaded_before_are_used_too }
    ensures arithmetic_in_a_package { arithmetic_in_a_package }
    ensures two_packages_one_after_the_other { two_packages_one_after_the_other }
    ensures two_packages_lacking_a_step { two_packages_lacking_a_step }
    ensures an_object_is_shared_and_a_builds_writes_are_lost { an_object_is_shared_and_a_builds_writes_are_lost }
    ensures a_builds_global_of_a_dependency_is_lost { a_builds_global_of_a_dependency_is_lost }
    ensures dependencies_are_started_in_recorded_order { dependencies_are_started_in_recorded_order }
    ensures building_does_not_start_dependencies { building_does_not_start_dependencies }
    ensures a_start_takes_a_step { a_start_takes_a_step }
    ensures an_error_of_a_start_ends_the_script { an_error_of_a_start_ends_the_script }
    ensures only_a_method_without_parameters_is_started { only_a_method_without_parameters_is_started }
    ensures a_start_sees_the_newest_methods { a_start_sees_the_newest_methods }
    ensures six_packages { six_packages }
{}

/// Building a package: its errors and what its image holds.
pub fn building_rows()
    ensures what_a_build_prints_stays_before_its_error { what_a_build_prints_stays_before_its_error }
    ensures no_method_is_overwritten { no_method_is_overwritten }
    ensures no_method_of_its_own_is_overwritten { no_method_of_its_own_is_overwritten }
    ensures a_parameter_is_checked_before_overwriting { a_parameter_is_checked_before_overwriting }
    ensures no_evaluation_in_a_closed_module { no_evaluation_in_a_closed_module }
    ensures a_dependency_does_not_evaluate_in_itself { a_dependency_does_not_evaluate_in_itself }
    ensures base_is_closed { base_is_closed }
    ensures a_module_not_loaded_comes_before_a_closed_one { a_module_not_loaded_comes_before_a_closed_one }
    ensures a_package_evaluates_in_itself { a_package_evaluates_in_itself }
    ensures only_a_package_of_its_own_text_is_known { only_a_package_of_its_own_text_is_known }
    ensures a_directives_function_is_checked_first { a_directives_function_is_checked_first }
    ensures a_directive_needs_a_function { a_directive_needs_a_function }
    ensures a_directive_needs_concrete_types { a_directive_needs_concrete_types }
    ensures a_directives_types_are_checked_in_order { a_directives_types_are_checked_in_order }
    ensures a_directives_module_is_checked { a_directives_module_is_checked }
    ensures objects_are_numbered_breadth_first { objects_are_numbered_breadth_first }
    ensures bindings_stand_in_order_of_binding { bindings_stand_in_order_of_binding }
    ensures types_and_functions_stand_in_order { types_and_functions_stand_in_order }
    ensures methods_stand_in_order_also_those_of_other_functions { methods_stand_in_order_also_those_of_other_functions }
    ensures directives_are_kept { directives_are_kept }
    ensures reach_goes_through_own_objects_only { reach_goes_through_own_objects_only }
    ensures recorded_dependencies_stand_once { recorded_dependencies_stand_once }
{}

/// Reads and refusals of images.
pub fn loading_rows()
    ensures all_is_there { all_is_there }
    ensures a_missing_image { a_missing_image }
    ensures a_missing_dependency { a_missing_dependency }
    ensures an_image_that_is_too_long { an_image_that_is_too_long }
    ensures a_wrong_form_is_told_before_dependencies_are_read { a_wrong_form_is_told_before_dependencies_are_read }
    ensures a_dependency_of_a_wrong_form { a_dependency_of_a_wrong_form }
    ensures an_image_of_another_name { an_image_of_another_name }
    ensures a_dependency_that_was_built_again { a_dependency_that_was_built_again }
    ensures a_dependency_comes_before_an_entry { a_dependency_comes_before_an_entry }
    ensures an_entry_that_does_not_fit { an_entry_that_does_not_fit }
    ensures a_dependencys_own_dependency_is_not_loaded_for_it { a_dependencys_own_dependency_is_not_loaded_for_it }
    ensures the_last_image_that_has_room { the_last_image_that_has_room }
    ensures an_image_too_many { an_image_too_many }
    ensures images_loaded_before_stay { images_loaded_before_stay }
    ensures an_image_that_is_loaded { an_image_that_is_loaded }
    ensures a_package_that_is_built_counts_as_loaded { a_package_that_is_built_counts_as_loaded }
    ensures a_package_that_is_built_has_no_identity { a_package_that_is_built_has_no_identity }
    ensures a_package_that_is_built_takes_a_place { a_package_that_is_built_takes_a_place }
    ensures an_entry_comes_before_the_room { an_entry_comes_before_the_room }
{}

/// Trees that no text writes.
pub fn tree_rows()
    ensures a_parameter_without_a_name_introduces_nothing { a_parameter_without_a_name_introduces_nothing }
    ensures parameters_without_names { parameters_without_names }
{}

/// What a report says of compiled code whose validity is given.
pub fn report_rows()
    ensures both_are_kept { both_are_kept }
    ensures both_are_dropped { both_are_dropped }
    ensures each_directive_once_by_its_first_code { each_directive_once_by_its_first_code }
    ensures lines_follow_the_end_of_the_budget { lines_follow_the_end_of_the_budget }
    ensures nothing_follows_a_missing_image { nothing_follows_a_missing_image }
{}

/// Evaluation takes steps, and adds to what there is.
pub fn evaluation_laws()
    ensures what_is_left_never_rises { what_is_left_never_rises }
    ensures the_newest_world_never_falls { the_newest_world_never_falls }
    ensures methods_are_only_added { methods_are_only_added }
    ensures types_are_only_added { types_are_only_added }
    ensures what_is_seen_at_a_world_stays { what_is_seen_at_a_world_stays }
    ensures printed_text_is_only_added { printed_text_is_only_added }
    ensures images_are_only_added { images_are_only_added }
    ensures the_module_that_runs_stays { the_module_that_runs_stays }
    ensures no_birth_is_above_the_newest_world { no_birth_is_above_the_newest_world }
    ensures types_functions_and_consts_stay { types_functions_and_consts_stay }
    ensures an_object_stays_of_its_type { an_object_stays_of_its_type }
    ensures a_script_runs_part_by_part { a_script_runs_part_by_part }
    ensures more_fuel_changes_nothing { more_fuel_changes_nothing }
    ensures a_run_stops_without_a_step { a_run_stops_without_a_step }
{}

/// What is picked, and what contents are added to.
pub fn list_laws()
    ensures what_is_picked_is_applicable { what_is_picked_is_applicable }
    ensures what_is_picked_is_least { what_is_picked_is_least }
    ensures nothing_is_found_where_nothing_applies { nothing_is_found_where_nothing_applies }
    ensures contents_keep_objects { contents_keep_objects }
    ensures contents_keep_bindings { contents_keep_bindings }
{}
