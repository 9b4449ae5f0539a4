//! Parts of a line.

use pj_base::NoMemory;

/// What stands before the first space of a text, and what stands behind it.
pub fn halves(text: &str) -> (&str, &str) {
    text.split_once(' ').unwrap_or((text, ""))
}

/// The value of a hexadecimal digit, and 0 for another character.
fn digit(character: char) -> u8 {
    match character.to_digit(16) {
        Some(value) => value.to_le_bytes()[0],
        None => 0,
    }
}

/// Adds the bytes that a text writes as pairs of hexadecimal digits.
pub fn add_hex(text: &str, bytes: &mut Vec<u8>) -> Result<(), NoMemory> {
    let mut high = None;
    for character in text.chars() {
        high = match high {
            None => Some(digit(character)),
            Some(first) => {
                bytes.push((first << 4) | digit(character))?;
                None
            }
        };
    }
    Ok(())
}
