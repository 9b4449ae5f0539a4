//! What the names of an image, of the module that runs and of the images are, by their places.

ghost use Rattle.pj_session.specs.Indexed.{a_name_of_a_file_is_the_thing_in_its_place, a_name_of_a_file_is_found_by_its_lists, the_names_of_a_file_are_new, an_own_name_is_in_its_place, an_image_is_in_its_place};

/// What is found by the place of a name.
pub fn index_laws()
    ensures a_name_of_a_file_is_the_thing_in_its_place { a_name_of_a_file_is_the_thing_in_its_place }
    ensures a_name_of_a_file_is_found_by_its_lists { a_name_of_a_file_is_found_by_its_lists }
    ensures the_names_of_a_file_are_new { the_names_of_a_file_are_new }
    ensures an_own_name_is_in_its_place { an_own_name_is_in_its_place }
    ensures an_image_is_in_its_place { an_image_is_in_its_place }
{}
