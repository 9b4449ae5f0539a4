//! Texts as a line writes them.

use pj_base::NoMemory;
use std::alloc::Global;

/// A text, and the byte before which the mark stood that shows a place, if one did.
#[derive(Drop)]
pub struct Marked {
    pub text: String,
    pub place: Option<usize>,
}

/// Where the reading of a line stands: at a character, behind a backslash, or in the number of a character.
#[derive(Clone, Copy)]
enum Reading {
    Plain,
    Escape,
    Number(u32),
}

/// The character that a letter behind a backslash stands for.
fn escaped(letter: char) -> char {
    match letter {
        'n' => '\n',
        't' => '\t',
        'r' => '\r',
        other => other,
    }
}

/// One hexadecimal digit more of a number.
fn with_digit(number: u32, digit: char) -> u32 {
    number
        .wrapping_mul(16)
        .wrapping_add(digit.to_digit(16).unwrap_or(0))
}

/// The text that a line writes: `\n`, `\t`, `\r` and `\u{..}` stand for those characters, a backslash for what follows it, and `‸` for a place.
pub fn unescaped(alloc: Global, line: &str) -> Result<Marked, NoMemory> {
    let mut text = String::new(alloc);
    let mut place = None;
    let mut reading = Reading::Plain;
    for character in line.chars() {
        reading = match (reading, character) {
            (Reading::Plain, '\\') => Reading::Escape,
            (Reading::Plain, '‸') => {
                place = Some(text.len());
                Reading::Plain
            }
            (Reading::Escape, 'u') => Reading::Number(0),
            (Reading::Number(number), '{') => Reading::Number(number),
            (Reading::Number(number), '}') => {
                text.push(char::from_u32(number).unwrap_or('?'))?;
                Reading::Plain
            }
            (Reading::Number(number), digit) => Reading::Number(with_digit(number, digit)),
            (Reading::Escape, letter) => {
                text.push(escaped(letter))?;
                Reading::Plain
            }
            (Reading::Plain, other) => {
                text.push(other)?;
                Reading::Plain
            }
        };
    }
    Ok(Marked { text, place })
}
