ghost use Rattle.std.specs.Prelude.{◌≡◌, ℕ, ◌^◌, ◌<◌, [], ◌∷◌, MatchOption, map, string_bytes};
ghost use Rattle.std.specs.List.{list_all};
ghost use Rattle.std.specs.Fmt.{decimal};
ghost use Rattle.pj_top.specs.Commands.{is_file_byte, is_file_name, starts_number};
ghost use Rattle.pj_top.specs.Commands.{Command as Asked};
ghost use Rattle.pj_top.specs.Words.{IsAsked};

use pj_words::is_package_name;

/// Whether a byte may stand in a file's name.
fn is_file_byte(byte: u8) -> bool
    ensures { result ≡ is_file_byte byte }
{
    byte.is_ascii_alphanumeric() || byte == b'_' || byte == b'-' || byte == b'.'
}

/// Whether each byte may stand in a file's name.
fn are_file_bytes(bytes: &[u8]) -> bool
    ensures { result ≡ list_all is_file_byte bytes.now }
{
    bytes.iter().all(|byte| is_file_byte(*byte))
}

/// Whether a word may be the name of a file.
fn is_file_name(word: &str) -> bool
    ensures { result ≡ is_file_name word.now }
{
    let bytes = word.as_bytes();
    match bytes {
        [] | [b'.' | b'-', ..] => false,
        _ => bytes.len() <= 64 && are_file_bytes(bytes),
    }
}

/// Whether a word begins as a number without a leading zero.
fn starts_number(bytes: &[u8]) -> bool
    ensures { result ≡ starts_number bytes.now }
{
    match bytes {
        [] => false,
        [b'0', rest @ ..] => rest.is_empty(),
        [first, ..] => b'1' <= *first && *first <= b'9',
    }
}

/// The number of steps that a word spells, in decimal digits without a leading zero, below 2 ^ 63.
fn step_count(word: &str) -> Option<u64>
    ensures { MatchOption result ((n : ℕ) → n < 2 ^ 63 → word.now ≡ decimal n → ⊥) (λ n. (word.now ≡ decimal n) × (n < 2 ^ 63)) }
{
    if !starts_number(word.as_bytes()) {
        return None;
    }
    match word.parse::<u64>() {
        Ok(n) if n < 1 << 63 => Some(n),
        _ => None,
    }
}

/// A command, with its number of steps.
#[derive(Clone, Copy, Debug)]
pub enum Command<'a> {
    Run { steps: u64, script: &'a str },
    Precompile { steps: u64, name: &'a str },
}

/// The command that three words are, of which the second spells this number of steps, if they are one.
fn command_of<'a>(word: &str, steps: u64, name: &'a str) -> Option<Command<'a>>
    requires { steps < 2 ^ 63 }
    ensures { MatchOption result (Asked (word.now ∷ decimal steps ∷ name.now ∷ []) → ⊥) (IsAsked (word.now ∷ decimal steps ∷ name.now ∷ [])) }
{
    match word {
        "run" if is_file_name(name) => Some(Command::Run {
            steps,
            script: name,
        }),
        "precompile" if is_package_name(name) => Some(Command::Precompile { steps, name }),
        _ => None,
    }
}

/// The command that the words are, if they are one: `run STEPS SCRIPT` or `precompile STEPS NAME`.
pub fn parse_command(words: &[String]) -> Option<Command<'_>>
    ensures { MatchOption result (Asked (map string_bytes words.now) → ⊥) (IsAsked (map string_bytes words.now)) }
{
    if words.len() != 3 {
        return None;
    }
    let steps = step_count(words[1].as_str())?;
    command_of(words[0].as_str(), steps, words[2].as_str())
}
