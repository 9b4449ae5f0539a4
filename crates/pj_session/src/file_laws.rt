//! What the file of a package brings to a session.

ghost use Rattle.pj_session.specs.FromFiles.{a_plain_content_is_plain_in_a_session, a_file_without_a_misfit_loads_well, a_file_is_refused_as_the_events_say, what_is_read_and_not_refused_loads_well, the_last_image_has_its_names, a_file_is_loaded_and_started};

/// What holds of the content of a package's file, and of events behind which it is loaded.
pub fn file_laws()
    ensures a_plain_content_is_plain_in_a_session { a_plain_content_is_plain_in_a_session }
    ensures a_file_without_a_misfit_loads_well { a_file_without_a_misfit_loads_well }
    ensures a_file_is_refused_as_the_events_say { a_file_is_refused_as_the_events_say }
    ensures what_is_read_and_not_refused_loads_well { what_is_read_and_not_refused_loads_well }
    ensures the_last_image_has_its_names { the_last_image_has_its_names }
    ensures a_file_is_loaded_and_started { a_file_is_loaded_and_started }
{}
