//! Worked rows on the items that a session evaluates by themselves, which the checker computes. There is no product code here.

ghost use Rattle.pj_session.specs.RowsItems.{an_own_function_is_called, it_is_called_with_its_number_of_integers, a_constant_is_not_called, what_a_package_has_is_printed, a_packages_function_is_called_with_any_integers, and_with_nothing_else, base_is_no_package, a_new_name_is_defined, a_known_name_is_not_defined_again, a_constant_may_be_a_call, a_line_of_using_is_none};

/// Items that are evaluated where a function of one parameter and a constant are known, and items that aren't.
#[tactic(auto, unfolding(pj_words::specs::Words::is_among, pj_words::specs::Words::base_names, pj_words::specs::Words::special_names))]
pub fn item_rows()
    ensures an_own_function_is_called { an_own_function_is_called }
    ensures it_is_called_with_its_number_of_integers { it_is_called_with_its_number_of_integers }
    ensures a_constant_is_not_called { a_constant_is_not_called }
    ensures what_a_package_has_is_printed { what_a_package_has_is_printed }
    ensures a_packages_function_is_called_with_any_integers { a_packages_function_is_called_with_any_integers }
    ensures and_with_nothing_else { and_with_nothing_else }
    ensures base_is_no_package { base_is_no_package }
    ensures a_new_name_is_defined { a_new_name_is_defined }
    ensures a_known_name_is_not_defined_again { a_known_name_is_not_defined_again }
    ensures a_constant_may_be_a_call { a_constant_may_be_a_call }
    ensures a_line_of_using_is_none { a_line_of_using_is_none }
{}
