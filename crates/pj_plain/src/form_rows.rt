//! Worked rows on the forms that run, which the checker computes. There is no product code here.

ghost use Rattle.pj_plain.specs.RowsForms.{nothing_runs, what_a_function_gives_is_printed, names_of_used_packages_are_printed, used_packages_are_called_with_any_number_of_integers, a_script_may_define_init, a_name_is_defined_once, an_unknown_function_is_not_printed, a_function_takes_as_many_integers_as_it_has_parameters, a_name_comes_after_its_package, a_call_comes_after_its_package, a_packages_function_takes_integers_alone, a_name_without_a_module_is_not_printed, println_has_no_module, println_has_one_argument, a_script_has_no_constant, an_empty_package_runs, a_constant_is_of_integers, a_constant_is_what_a_function_gives, a_function_comes_before_its_constant, a_constants_call_has_all_arguments, a_constant_is_no_local, a_constant_is_no_other_constant, a_constant_is_not_called, a_constant_has_a_new_name, a_function_has_a_new_name, a_constant_has_no_name_of_base, a_package_does_not_define_init, a_package_has_no_constant_init, a_package_prints_nothing, a_package_has_no_line_of_using, a_package_uses_none};

/// Scripts that run, and scripts that aren't of the form.
#[tactic(auto, unfolding(pj_words::specs::Words::is_among, pj_words::specs::Words::base_names, pj_words::specs::Words::special_names))]
pub fn script_rows()
    ensures nothing_runs { nothing_runs }
    ensures what_a_function_gives_is_printed { what_a_function_gives_is_printed }
    ensures names_of_used_packages_are_printed { names_of_used_packages_are_printed }
    ensures used_packages_are_called_with_any_number_of_integers { used_packages_are_called_with_any_number_of_integers }
    ensures a_script_may_define_init { a_script_may_define_init }
    ensures a_name_is_defined_once { a_name_is_defined_once }
    ensures an_unknown_function_is_not_printed { an_unknown_function_is_not_printed }
    ensures a_function_takes_as_many_integers_as_it_has_parameters { a_function_takes_as_many_integers_as_it_has_parameters }
    ensures a_name_comes_after_its_package { a_name_comes_after_its_package }
    ensures a_call_comes_after_its_package { a_call_comes_after_its_package }
    ensures a_packages_function_takes_integers_alone { a_packages_function_takes_integers_alone }
    ensures a_name_without_a_module_is_not_printed { a_name_without_a_module_is_not_printed }
    ensures println_has_no_module { println_has_no_module }
    ensures println_has_one_argument { println_has_one_argument }
    ensures a_script_has_no_constant { a_script_has_no_constant }
{}

/// The same of packages.
#[tactic(auto, unfolding(pj_words::specs::Words::is_among, pj_words::specs::Words::base_names, pj_words::specs::Words::special_names))]
pub fn package_rows()
    ensures an_empty_package_runs { an_empty_package_runs }
    ensures a_constant_is_of_integers { a_constant_is_of_integers }
    ensures a_constant_is_what_a_function_gives { a_constant_is_what_a_function_gives }
    ensures a_function_comes_before_its_constant { a_function_comes_before_its_constant }
    ensures a_constants_call_has_all_arguments { a_constants_call_has_all_arguments }
    ensures a_constant_is_no_local { a_constant_is_no_local }
    ensures a_constant_is_no_other_constant { a_constant_is_no_other_constant }
    ensures a_constant_is_not_called { a_constant_is_not_called }
    ensures a_constant_has_a_new_name { a_constant_has_a_new_name }
    ensures a_function_has_a_new_name { a_function_has_a_new_name }
    ensures a_constant_has_no_name_of_base { a_constant_has_no_name_of_base }
    ensures a_package_does_not_define_init { a_package_does_not_define_init }
    ensures a_package_has_no_constant_init { a_package_has_no_constant_init }
    ensures a_package_prints_nothing { a_package_prints_nothing }
    ensures a_package_has_no_line_of_using { a_package_has_no_line_of_using }
    ensures a_package_uses_none { a_package_uses_none }
{}
