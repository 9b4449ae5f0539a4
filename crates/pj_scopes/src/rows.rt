//! Worked rows on trees, which the checker computes. There is no product code here.

ghost use Rattle.pj_scopes.specs.Rows.{a_name_of_a_scope_is_a_local, another_name_is_of_a_module, a_module_before_a_name_is_kept, a_local_is_called_as_one, a_function_is_called_by_its_name, a_latest_call_has_its_function_first, an_assignment_at_top_level_sets_a_global, a_loop_at_top_level_introduces_a_local, a_global_is_set_from_a_loop, a_loops_variable_is_not_in_its_list, a_bodys_names_stand_in_order, what_is_evaluated_sees_no_local, a_payload_may_set_a_global, a_bare_return_gives_nothing};

/// The trees of some small texts.
#[tactic(auto, unfolding(pj_faults::specs::Introduced::is_among, pj_faults::specs::Introduced::with_name, pj_faults::specs::Introduced::with_names, pj_faults::specs::Introduced::new_names))]
pub fn tree_rows()
    ensures a_name_of_a_scope_is_a_local { a_name_of_a_scope_is_a_local }
    ensures another_name_is_of_a_module { another_name_is_of_a_module }
    ensures a_module_before_a_name_is_kept { a_module_before_a_name_is_kept }
    ensures a_local_is_called_as_one { a_local_is_called_as_one }
    ensures a_function_is_called_by_its_name { a_function_is_called_by_its_name }
    ensures a_latest_call_has_its_function_first { a_latest_call_has_its_function_first }
    ensures an_assignment_at_top_level_sets_a_global { an_assignment_at_top_level_sets_a_global }
    ensures a_loop_at_top_level_introduces_a_local { a_loop_at_top_level_introduces_a_local }
    ensures a_global_is_set_from_a_loop { a_global_is_set_from_a_loop }
    ensures a_loops_variable_is_not_in_its_list { a_loops_variable_is_not_in_its_list }
    ensures a_bodys_names_stand_in_order { a_bodys_names_stand_in_order }
    ensures what_is_evaluated_sees_no_local { what_is_evaluated_sees_no_local }
    ensures a_payload_may_set_a_global { a_payload_may_set_a_global }
    ensures a_bare_return_gives_nothing { a_bare_return_gives_nothing }
{}
