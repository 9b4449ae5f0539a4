//! Places of a text as people count them.

ghost use Rattle.std.specs.Prelude.{◌≡◌, ◌<◌, ◌^◌, take};
ghost use Rattle.pj_top.specs.Positions.{past, position_of};

/// A line and a column of a text, both counted from 1. A column is a character.
#[derive(Clone, Copy, Debug, PartialEq, Eq)]
pub struct Position {
    pub line: usize,
    pub column: usize,
}

impl Position {
    /// The position behind a byte.
    fn past(self, byte: u8) -> Position
        requires lines { self.line < 2 ^ 63 }
        requires columns { self.column < 2 ^ 63 }
        ensures { result ≡ past self byte }
    {
        if byte == b'\n' {
            return Position {
                line: self.line + 1,
                column: 1,
            };
        }
        if byte < 128 || byte >= 192 {
            return Position {
                line: self.line,
                column: self.column + 1,
            };
        }
        self
    }
}

/// So many bytes of a text, or all where it has fewer.
#[tactic(auto, using(crate::proofs::Positioning::fronts))]
fn front(bytes: &[u8], count: usize) -> &[u8]
    ensures { result.now ≡ take count bytes.now }
{
    match bytes.get(..count) {
        Some(part) => part,
        None => bytes,
    }
}

/// The position of the byte at a place of a text, or of its end where the place is beyond it.
pub fn position_at(bytes: &[u8], place: usize) -> Position
    ensures { result ≡ position_of bytes.now place }
{
    let mut found = Position { line: 1, column: 1 };
    for byte in front(bytes, place) {
        found = found.past(*byte);
    }
    found
}
