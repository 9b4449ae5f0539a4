//! What a file's content is like.

ghost use Rattle.std.specs.Prelude.{◌≡◌, ◌≤◌, ◌<◌, ◌-◌, ℕ, List, [], length, take, Some, None, Ok, ⊤};
ghost use Rattle.sha2.specs.Sha256.{sha256};
ghost use Rattle.pj_meaning.specs.Using.{Holds, TooMuch};
ghost use Rattle.pj_image.specs.declared.image.Image.{Image};
ghost use Rattle.pj_image.specs.File.{file_at};
ghost use Rattle.pj_image.specs.Formed.{Formed, IsFileOf};
ghost use Rattle.pj_content.specs.Content.{content_of};
ghost use Rattle.pj_content.specs.Misfit.{misfit};
ghost use Rattle.pj_content.specs.Readings.{identity_in, image_of, needs_of, reading_of};
ghost use Rattle.pj_content.specs.Plainly.{Plainly};
ghost use Rattle.pj_content.specs.Right.{RightWhere};
ghost use Rattle.pj_content.specs.Rows.{the_content, no_misfit, a_type_for_a_function, a_function_for_a_type, a_function_of_base, a_function_that_is_not_there, a_second_method_of_a_function, another_type, a_type_of_the_image, a_dependency_that_is_not_there, the_lowest_is_told, a_function_is_told_before_its_types, a_file_that_is_not_there, an_empty_file, a_package_by_its_file, another_package, so_many_types, so_many_functions, a_place_of_a_type, a_place_of_a_function};

/// What holds of the content of each image that has a spelling, and so of each that is decoded.
pub fn content_laws()
    // It is plain where no entry is refused.
    ensures plain { (i : Image) → Formed i → misfit i ≡ None → Plainly (content_of i) }
    ensures decoded { (name bytes : List ℕ) (i : Image) → IsFileOf name bytes i → misfit i ≡ None → Plainly (content_of i) }
{}

/// What a misfit is.
pub fn misfit_laws()
    // Where there is none, each mention names what it may.
    ensures right { (i : Image) → misfit i ≡ None → RightWhere (λ k. ⊤) i }
    // One that is told is refused.
    ensures refused { (i : Image) (k : ℕ) → misfit i ≡ Some k → RightWhere (λ j. j ≡ k) i → ⊥ }
    // And it is the lowest.
    ensures lowest { (i : Image) (k : ℕ) → Formed i → misfit i ≡ Some k → RightWhere (λ j. j < k) i }
    // It is the number of an entry.
    ensures within { (i : Image) (k : ℕ) → Formed i → misfit i ≡ Some k → k < length i.entries }
{}

/// What a read of a package's file gives.
pub fn reading_laws()
    // Its image, with the asked name, and the digest of what stands before the last 32 bytes.
    ensures held { (name bytes : List ℕ) (i : Image) → length bytes ≤ 67108864 → file_at name bytes ≡ Ok i → reading_of name (Some bytes) ≡ Holds (image_of (identity_in bytes) i) }
    ensures called { (name bytes : List ℕ) (i : Image) → IsFileOf name bytes i → (content_of i).name ≡ name }
    ensures identity { (name bytes : List ℕ) (i : Image) → IsFileOf name bytes i → identity_in bytes ≡ sha256 (take (length bytes - 32) bytes) }
    // No images have dependencies yet.
    ensures needs { (i : Image) → Formed i → needs_of i ≡ [] }
    // Nothing is read of a file that is too long.
    ensures long { (name bytes : List ℕ) → 67108864 < length bytes → reading_of name (Some bytes) ≡ TooMuch }
{}

/// What a small image means.
pub fn content_rows()
    ensures the_content { the_content }
{}

/// Which of its entries is refused.
pub fn misfit_rows()
    ensures no_misfit { no_misfit }
    ensures a_type_for_a_function { a_type_for_a_function }
    ensures a_function_for_a_type { a_function_for_a_type }
    ensures a_function_of_base { a_function_of_base }
    ensures a_function_that_is_not_there { a_function_that_is_not_there }
    ensures a_second_method_of_a_function { a_second_method_of_a_function }
    ensures another_type { another_type }
    ensures a_type_of_the_image { a_type_of_the_image }
    ensures a_dependency_that_is_not_there { a_dependency_that_is_not_there }
    ensures the_lowest_is_told { the_lowest_is_told }
    ensures a_function_is_told_before_its_types { a_function_is_told_before_its_types }
{}

/// What Base has, and in which places.
pub fn base_rows()
    ensures so_many_types { so_many_types }
    ensures so_many_functions { so_many_functions }
    ensures a_place_of_a_type { a_place_of_a_type }
    ensures a_place_of_a_function { a_place_of_a_function }
{}

/// What reading gives.
pub fn reading_rows()
    ensures a_file_that_is_not_there { a_file_that_is_not_there }
    ensures an_empty_file { an_empty_file }
    ensures a_package_by_its_file { a_package_by_its_file }
    ensures another_package { another_package }
{}
