ghost use Rattle.pj_lex.specs.Characters.{first_is, is_blank, is_digit, width};
ghost use Rattle.std.specs.Prelude.{◌≡◌, ◌<◌, ◌^◌, ◌==◌, IfOk};
ghost use Rattle.std.specs.Str.{chars};

use pj_base::NoMemory;
use std::alloc::Global;

/// The characters of a text.
pub fn characters(alloc: Global, text: &str) -> Result<Vec<char>, NoMemory>
    ensures { IfOk result (λ all. all.items ≡ chars text.now) }
{
    let all = text.chars().collect::<Vec<char>>(alloc)?;
    Ok(all)
}

/// Whether a character is a space, a tab or a carriage return.
pub fn is_blank(character: char) -> bool
    ensures { result ≡ is_blank character }
{
    character == ' ' || character == '\t' || character == '\r'
}

/// Whether a character is one of the ten digits.
pub fn is_digit(character: char) -> bool
    ensures { result ≡ is_digit character }
{
    character >= '0' && character <= '9'
}

/// Whether a digit stands at the front.
pub fn begins_with_digit(characters: &[char]) -> bool
    ensures { result ≡ first_is is_digit characters.now }
{
    match characters {
        [] => false,
        [first, ..] => is_digit(*first),
    }
}

/// Whether a `=` stands at the front.
pub fn begins_with_equals(characters: &[char]) -> bool
    ensures { result ≡ first_is (λ d. d == 61) characters.now }
{
    match characters {
        [] => false,
        [first, ..] => *first == '=',
    }
}

/// How many bytes characters take.
#[tactic(auto, unfolding(crate::specs::Characters::width))]
pub fn width(characters: &[char]) -> usize
    requires { width characters.now < 2 ^ 64 }
    ensures { result ≡ width characters.now }
{
    let mut bytes = 0;
    let mut rest = characters;
    while let [first, more @ ..] = rest {
        bytes += first.len_utf8();
        rest = more;
    }
    bytes
}
