//! Exact tests of names.
ghost use Rattle.pj_words.specs.Reserved.{is_reserved};
ghost use Rattle.pj_words.specs.Words.{base_names, continues_name, first_is, is_among, is_base_name, is_identifier, is_package_name, is_plain, is_special, special_names, starts_name};
ghost use Rattle.std.specs.Char.{is_ascii_alphanumeric, is_ascii_uppercase};
ghost use Rattle.std.specs.List.{list_all};
ghost use Rattle.std.specs.Str.{chars};
ghost use Rattle.std.specs.Prelude.{◌≡◌, ◌||◌, ◌==◌, ◌∷◌, ℕ, List, map};

use crate::word::reserved_word;
use unicode_ident::{is_xid_continue, is_xid_start};

const LONGEST_NAME: usize = 255;

const LONGEST_PACKAGE_NAME: usize = 64;

const PROGRAMS: [&str; 2] = ["Base", "Main"];

const SPECIAL: [&str; 4] = ["eval", "precompile", "invokelatest", "delete_method"];

/// Whether an identifier may begin with a character: `_`, or one of Unicode's XID_Start.
#[tactic(auto, unfolding(crate::specs::Words::starts_name))]
pub fn starts_name(character: char) -> bool
    ensures { result ≡ starts_name character }
{
    is_xid_start(character) || character == '_'
}

/// Whether a character may stand in an identifier: `!`, or one of Unicode's XID_Continue.
#[tactic(auto, unfolding(crate::specs::Words::continues_name))]
pub fn continues_name(character: char) -> bool
    ensures { result ≡ continues_name character }
{
    is_xid_continue(character) || character == '!'
}

/// Whether a text is a reserved word.
pub fn is_reserved(text: &str) -> bool
    ensures { result ≡ is_reserved text.now }
{
    reserved_word(text).is_some()
}

/// Whether a text is an identifier: it begins as one, goes on as one, has at most 255 bytes, and isn't reserved.
#[tactic(auto, unfolding(crate::specs::Words::is_identifier))]
pub fn is_identifier(text: &str) -> bool
    ensures { result ≡ is_identifier text.now }
{
    begins(text) && goes_on(text) && text.len() <= LONGEST_NAME && !is_reserved(text)
}

fn begins(text: &str) -> bool
    ensures { result ≡ first_is starts_name (chars text.now) }
{
    match text.chars().next() {
        None => false,
        Some(first) => starts_name(first),
    }
}

fn goes_on(text: &str) -> bool
    ensures { result ≡ list_all continues_name (chars text.now) }
{
    are_plain(text.as_bytes()) || all_go_on(text)
}

/// Whether all bytes are ASCII letters, digits, `_` or `!`. Then each is a character that goes on a name.
fn are_plain(bytes: &[u8]) -> bool
    ensures is { result ≡ list_all is_plain bytes.now }
{
    bytes.iter().all(|b| *b < 128 && (b.is_ascii_alphanumeric() || *b == b'_' || *b == b'!'))
}

fn all_go_on(text: &str) -> bool
    ensures { result ≡ list_all continues_name (chars text.now) }
{
    text.chars().all(|character| continues_name(character))
}

/// Whether a text is one of these.
#[tactic(auto, unfolding(crate::specs::Words::is_among))]
fn is_one_of(text: &str, texts: &[&str]) -> bool
    ensures { result ≡ is_among text.now (map (λ t. t.now) texts.now) }
{
    let bytes = text.as_bytes();
    texts.iter().any(|t| bytes == t.as_bytes())
}

/// Whether a text can be a package's name: an ASCII capital, then ASCII letters, digits and `_`, at most 64 bytes, and
/// neither `Base` nor `Main`.
#[tactic(auto, unfolding(crate::specs::Words::is_package_name))]
pub fn is_package_name(text: &str) -> bool
    ensures { result ≡ is_package_name text.now }
{
    begins_with_capital(text.as_bytes())
        && has_plain_letters(text.as_bytes())
        && text.len() <= LONGEST_PACKAGE_NAME
        && !is_one_of(text, &PROGRAMS)
}

fn begins_with_capital(bytes: &[u8]) -> bool
    ensures { result ≡ first_is is_ascii_uppercase bytes.now }
{
    match bytes {
        [] => false,
        [first, ..] => first.is_ascii_uppercase(),
    }
}

fn has_plain_letters(bytes: &[u8]) -> bool
    ensures { result ≡ list_all (λ c. is_ascii_alphanumeric c || (c == 95)) bytes.now }
{
    bytes
        .iter()
        .all(|byte| byte.is_ascii_alphanumeric() || *byte == b'_')
}

/// The names of Base that begin with a byte.
#[tactic(auto, unfolding(crate::specs::Words::base_names, crate::specs::Words::is_among))]
fn base_names_from(first: u8) -> &'static [&'static str]
    ensures { (rest : List ℕ) → is_among (first ∷ rest) (map (λ t. t.now) result.now) ≡ is_base_name (first ∷ rest) }
{
    match first {
        b'A' => &["Any", "AbstractString"],
        b'B' => &["Bool"],
        b'F' => &["Function"],
        b'I' => &["Integer", "Int64", "Int"],
        b'N' => &["Number", "Nothing"],
        b'R' => &["Real"],
        b'S' => &["Signed", "String"],
        b'a' => &["abs"],
        b'd' => &["div"],
        b'e' => &["error"],
        b'm' => &["min", "max"],
        b'p' => &["print", "println"],
        b'r' => &["rem"],
        b'+' => &["+"],
        b'-' => &["-"],
        b'*' => &["*"],
        b'=' => &["=="],
        b'!' => &["!=", "!"],
        b'<' => &["<", "<="],
        b'>' => &[">", ">="],
        _ => &[],
    }
}

/// Whether Base binds a name: a type of Base, `Int` as well as `Int64`, or a function of Base.
#[tactic(auto, unfolding(crate::specs::Words::base_names, crate::specs::Words::is_among))]
pub fn is_base_name(text: &str) -> bool
    ensures { result ≡ is_base_name text.now }
{
    match text.as_bytes() {
        [] => false,
        [first, ..] => is_one_of(text, base_names_from(*first)),
    }
}

/// Whether a name has a form of its own, so that no text binds it.
#[tactic(auto, unfolding(crate::specs::Words::special_names))]
pub fn is_special(text: &str) -> bool
    ensures { result ≡ is_special text.now }
{
    is_one_of(text, &SPECIAL)
}
