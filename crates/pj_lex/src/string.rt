ghost use Rattle.pj_lex.specs.Strings.{escaped, is_escape, quoted};
ghost use Rattle.std.specs.Prelude.{◌≡◌, ◌<◌, IfOk, IfSome, [], false, length, option_map, string_bytes};

use pj_base::NoMemory;
use std::alloc::Global;

fn is_escape(character: char) -> bool
    ensures { result ≡ is_escape character }
{
    character == '\\'
        || character == '"'
        || character == 'n'
        || character == 't'
        || character == '$'
}

fn escaped(character: char) -> char
    ensures { result ≡ escaped character }
{
    match character {
        'n' => '\n',
        't' => '\t',
        itself => itself,
    }
}

/// The value of a string whose opening `"` stands before, and what follows its closing one, or None where it doesn't end on
/// its line, or has another escape or a bare `$`.
#[tactic(auto, unfolding(crate::specs::Strings::quoted))]
pub fn quoted(alloc: Global, characters: &[char]) -> Result<Option<(String, &[char])>, NoMemory>
    ensures found { IfOk result (λ found. option_map (λ f. (string_bytes f.0, f.1.now)) found ≡ quoted [] false characters.now) }
    ensures shorter { IfOk result (λ found. IfSome found (λ f. length f.1.now < length characters.now)) }
{
    let mut value = String::new(alloc);
    let mut behind_escape = false;
    let mut rest = characters;
    while let [first, more @ ..] = rest {
        if behind_escape {
            if !is_escape(*first) {
                return Ok(None);
            }
            value.push(escaped(*first))?;
            behind_escape = false;
        } else if *first == '"' {
            return Ok(Some((value, more)));
        } else if *first == '\n' || *first == '$' {
            return Ok(None);
        } else if *first == '\\' {
            behind_escape = true;
        } else {
            value.push(*first)?;
        }
        rest = more;
    }
    Ok(None)
}
