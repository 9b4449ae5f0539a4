//! A text of few bytes, which lie in the value itself.

ghost use Rattle.std.specs.Prelude.{◌≡◌, ◌≤◌, ⊤, IsUtf8, MatchOption, take};

use std::str;

/// How many bytes a short text has at most.
const MOST: usize = 14;

/// A text of at most 14 bytes.
#[derive(Clone, Copy)]
pub struct Short {
    bytes: [u8; 14],
    len: u8,
    ghost within: { len ≤ 14 },
    ghost utf8: { ∥ IsUtf8 (take len bytes) ∥₁ },
}

impl Short {
    /// A copy of a text, where it is short.
    pub fn of(text: &str) -> Option<Short>
        ensures { MatchOption result ⊤ (λ s. take s.len s.bytes ≡ text.now) }
    {
        let given = text.as_bytes();
        if given.len() > MOST {
            return None;
        }
        let mut bytes = [0; MOST];
        bytes[..given.len()].copy_from_slice(given);
        Some(Short {
            bytes,
            len: given.len() as u8,
        })
    }

    /// The text, lent.
    pub fn as_str(&self) -> &str
        ensures { result.now ≡ take self.now.len self.now.bytes }
    {
        unsafe { str::from_utf8_unchecked(&self.bytes[..self.len as usize]) }
    }
}
