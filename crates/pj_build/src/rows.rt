//! Rows on what is built.

ghost use Rattle.pj_build.specs.Rows.{its_functions, its_constants, its_method, its_entries, its_bytes};

/// A function and a constant.
pub fn parts_rows()
    ensures its_functions { its_functions }
    ensures its_constants { its_constants }
    ensures its_method { its_method }
    ensures its_entries { its_entries }
{}

/// A package with nothing.
pub fn nothing_rows()
    ensures its_bytes { its_bytes }
{}
