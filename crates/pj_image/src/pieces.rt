//! What the walk over mentions says, in words of the file.

ghost use Rattle.std.specs.Prelude.{◌≡◌, ℕ, true, List, length, map};
ghost use Rattle.pj_fields.specs.Fields.{list};
ghost use Rattle.pj_parts.specs.Spelling.{method};
ghost use Rattle.pj_parts.specs.declared.types.Method.{Method};
ghost use Rattle.pj_reloc.specs.declared.entry.Entry.{Entry};
ghost use Rattle.pj_image.specs.Pieces.{bytes_of, methods_pieces, placed};
ghost use Rattle.pj_image.specs.Mentions.{mentions_of, places_from, count_from};

/// The pieces of methods have the methods' bytes. And the entries of a list of methods are right exactly where the k-th
/// mention holds k, and the k-th entry has its byte offset as place.
pub fn piece_laws()
    // The pieces have the bytes.
    ensures bytes { (ms : List Method) → bytes_of (methods_pieces ms) ≡ list method ms }
    // Right entries: as many as mentions, which hold 0, 1 and so on.
    ensures numbers { (at : ℕ) (ms : List Method) (es : List Entry) → placed at ms es ≡ true → mentions_of (methods_pieces ms) ≡ count_from 0 (length es) }
    // Right entries: their places are those of the mentions.
    ensures places { (at : ℕ) (ms : List Method) (es : List Entry) → placed at ms es ≡ true → map (λ e. e.place) es ≡ places_from at (methods_pieces ms) }
    // No others are needed.
    ensures right { (at : ℕ) (ms : List Method) (es : List Entry) → mentions_of (methods_pieces ms) ≡ count_from 0 (length es)
        → map (λ e. e.place) es ≡ places_from at (methods_pieces ms) → placed at ms es ≡ true }
{}
