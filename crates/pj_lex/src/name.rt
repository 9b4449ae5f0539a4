ghost use Rattle.pj_lex.specs.Names.{goes_on, past_name};
ghost use Rattle.std.specs.Prelude.{◌≡◌, ◌≤◌, IfOk, encode_utf8_all, length, string_bytes};

use crate::characters::begins_with_equals;
use pj_base::NoMemory;
use pj_words::continues_name;
use std::alloc::Global;

fn goes_on(character: char, behind: &[char]) -> bool
    ensures { result ≡ goes_on character behind.now }
{
    continues_name(character) && !(character == '!' && begins_with_equals(behind))
}

/// What follows the characters with which a name goes on.
#[tactic(auto, unfolding(crate::specs::Names::past_name))]
pub fn past_name(characters: &[char]) -> &[char]
    ensures past { result.now ≡ past_name characters.now }
    ensures no_longer { length result.now ≤ length characters.now }
{
    let mut rest = characters;
    while let [first, more @ ..] = rest {
        if !goes_on(*first, more) {
            break;
        }
        rest = more;
    }
    rest
}

/// The text of characters.
pub fn text_of(alloc: Global, characters: &[char]) -> Result<String, NoMemory>
    ensures { IfOk result (λ text. string_bytes text ≡ encode_utf8_all characters.now) }
{
    let mut text = String::new(alloc);
    for character in characters {
        text.push(*character)?;
    }
    Ok(text)
}
