//! Worked rows on words, which the checker computes. There is no product code here.
ghost use Rattle.pj_words.specs.WordRows.{a_letter, an_underscore, an_accented_letter, a_mark_of_a_function, a_digit_first, nothing_at_all, a_reserved_word, longest, one_byte_too_long, three_bytes_that_start, four_bytes_that_start, a_mark_that_only_continues, such_a_mark_behind_a_letter, a_package, a_small_letter_first, the_longest_package, a_package_too_long, no_package_is_main, an_operator_of_base, another_spelling, no_name_of_base, a_form_of_its_own};

/// Which texts are names.
pub fn word_rows()
    ensures a_letter { a_letter }
    ensures an_underscore { an_underscore }
    ensures an_accented_letter { an_accented_letter }
    ensures a_mark_of_a_function { a_mark_of_a_function }
    ensures a_digit_first { a_digit_first }
    ensures nothing_at_all { nothing_at_all }
    ensures a_reserved_word { a_reserved_word }
    ensures longest { longest }
    ensures one_byte_too_long { one_byte_too_long }
    ensures three_bytes_that_start { three_bytes_that_start }
    ensures four_bytes_that_start { four_bytes_that_start }
    ensures a_mark_that_only_continues { a_mark_that_only_continues }
    ensures such_a_mark_behind_a_letter { such_a_mark_behind_a_letter }
{}

/// Which texts are packages' names, names of Base, or have a form of their own.
pub fn name_rows()
    ensures a_package { a_package }
    ensures a_small_letter_first { a_small_letter_first }
    ensures the_longest_package { the_longest_package }
    ensures a_package_too_long { a_package_too_long }
    ensures no_package_is_main { no_package_is_main }
    ensures an_operator_of_base { an_operator_of_base }
    ensures another_spelling { another_spelling }
    ensures no_name_of_base { no_name_of_base }
    ensures a_form_of_its_own { a_form_of_its_own }
{}
