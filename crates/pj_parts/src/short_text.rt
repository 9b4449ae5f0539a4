//! The texts of parts, most of which are short.

ghost use Rattle.std.specs.Prelude.{◌≡◌, IfOk};
ghost use Rattle.pj_parts.specs.Kept.{kept_bytes};

use arrayvec::ArrayString;
use pj_base::NoMemory;
use std::alloc::Global;
use std::marker::Model;

/// Where a text's bytes are: in the value itself, where they are few, else in memory of their own.
#[derive(Drop)]
enum Kept {
    InPlace(ArrayString<15>),
    OnHeap(String),
}

/// A text, which contracts see as the list of its bytes. A short one takes no memory of its own.
#[derive(Drop)]
pub struct ShortText {
    kept: Kept,
}

impl Model for ShortText {
    ghost use Rattle.std.specs.Prelude.{List, ℕ};

    ghost Value = { List ℕ };

    ghost use Rattle.pj_parts.specs.Kept.{kept_bytes};

    ghost view = { λ t. kept_bytes t.kept };
}

/// A copy of a text, in the value itself where it is short.
fn keep(alloc: Global, text: &str) -> Result<Kept, NoMemory>
    ensures { IfOk result (λ k. kept_bytes k ≡ text.now) }
{
    match ArrayString::from(text) {
        Ok(short) => Ok(Kept::InPlace(short)),
        Err(_) => Ok(Kept::OnHeap(String::from_str(alloc, text)?)),
    }
}

impl ShortText {
    /// A copy of a text.
    pub fn from_str(alloc: Global, text: &str) -> Result<ShortText, NoMemory>
        ensures { IfOk result (λ t. t ≡ text.now) }
    {
        let kept = keep(alloc, text)?;
        Ok(ShortText { kept })
    }

    /// The text, lent.
    pub fn as_str(&self) -> &str
        ensures { result.now ≡ self.now }
    {
        match &self.kept {
            Kept::InPlace(short) => short.as_str(),
            Kept::OnHeap(long) => long.as_str(),
        }
    }
}
