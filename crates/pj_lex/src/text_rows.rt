//! Worked rows on texts, which the checker computes. There is no product code here.
ghost use Rattle.pj_lex.specs.TextRows.{nothing, a_minus_behind_a_name, a_minus_behind_a_name_and_a_blank, a_minus_in_parentheses, a_minus_of_an_argument, a_minus_behind_a_parenthesis, a_minus_behind_true, a_minus_behind_a_dropped_line_end, a_mark_before_equals, a_mark_of_a_name, an_underscore_between_digits, two_underscores_between_digits, the_greatest_integer, one_more, the_least_integer, no_least_integer_behind_a_name, escapes, another_escape, a_bare_dollar, an_unended_string, a_string_of_two_lines, a_comment_in_a_comment, an_unended_comment, a_comment_that_ends_once, a_comment_with_a_line_end_inside, a_comment_to_the_lines_end, eval_as_a_whole, a_longer_word_than_eval, an_operator_of_base, a_minus_behind_an_operator_of_base, a_minus_in_place_of_an_operator, a_loop, no_loop, line_ends_in_parentheses, a_line_end_behind_parentheses, parentheses_are_never_below_none, a_line_end_behind_a_comma, a_line_end_behind_an_operator_of_base, the_same, not_the_same, below, two_colons, a_letter_of_two_bytes, a_sign_of_two_bytes, half_a_sign};

/// Tokens of names, numbers and strings.
pub fn token_rows()
    ensures nothing { nothing }
    ensures a_minus_behind_a_name { a_minus_behind_a_name }
    ensures a_minus_behind_a_name_and_a_blank { a_minus_behind_a_name_and_a_blank }
    ensures a_minus_in_parentheses { a_minus_in_parentheses }
    ensures a_minus_of_an_argument { a_minus_of_an_argument }
    ensures a_minus_behind_a_parenthesis { a_minus_behind_a_parenthesis }
    ensures a_minus_behind_true { a_minus_behind_true }
    ensures a_minus_behind_a_dropped_line_end { a_minus_behind_a_dropped_line_end }
    ensures a_mark_before_equals { a_mark_before_equals }
    ensures a_mark_of_a_name { a_mark_of_a_name }
    ensures an_underscore_between_digits { an_underscore_between_digits }
    ensures two_underscores_between_digits { two_underscores_between_digits }
    ensures the_greatest_integer { the_greatest_integer }
    ensures the_least_integer { the_least_integer }
    ensures escapes { escapes }
    ensures a_comment_in_a_comment { a_comment_in_a_comment }
    ensures a_comment_with_a_line_end_inside { a_comment_with_a_line_end_inside }
    ensures a_comment_to_the_lines_end { a_comment_to_the_lines_end }
{}

/// Tokens of comments, heads of loops, line ends and signs.
pub fn text_rows()
    ensures eval_as_a_whole { eval_as_a_whole }
    ensures an_operator_of_base { an_operator_of_base }
    ensures a_minus_behind_an_operator_of_base { a_minus_behind_an_operator_of_base }
    ensures a_minus_in_place_of_an_operator { a_minus_in_place_of_an_operator }
    ensures a_loop { a_loop }
    ensures no_loop { no_loop }
    ensures line_ends_in_parentheses { line_ends_in_parentheses }
    ensures a_line_end_behind_parentheses { a_line_end_behind_parentheses }
    ensures parentheses_are_never_below_none { parentheses_are_never_below_none }
    ensures a_line_end_behind_a_comma { a_line_end_behind_a_comma }
    ensures a_line_end_behind_an_operator_of_base { a_line_end_behind_an_operator_of_base }
    ensures the_same { the_same }
    ensures not_the_same { not_the_same }
    ensures below { below }
    ensures two_colons { two_colons }
    ensures a_letter_of_two_bytes { a_letter_of_two_bytes }
    ensures a_sign_of_two_bytes { a_sign_of_two_bytes }
{}

/// Texts that go on with no piece, and from which place.
pub fn fault_rows()
    ensures one_more { one_more }
    ensures no_least_integer_behind_a_name { no_least_integer_behind_a_name }
    ensures another_escape { another_escape }
    ensures a_bare_dollar { a_bare_dollar }
    ensures an_unended_string { an_unended_string }
    ensures a_string_of_two_lines { a_string_of_two_lines }
    ensures an_unended_comment { an_unended_comment }
    ensures a_comment_that_ends_once { a_comment_that_ends_once }
    ensures a_longer_word_than_eval { a_longer_word_than_eval }
    ensures half_a_sign { half_a_sign }
{}
