ghost use Rattle.std.specs.Prelude.{◌≡◌, IfOk};
ghost use Rattle.pj_base.specs.Kept.{kept_bytes};

use crate::memory::NoMemory;
use crate::short::Short;
use std::alloc::Global;
use std::marker::Model;

/// Where a text's bytes are: in the value itself, where they are few, else in memory of their own.
#[derive(Drop)]
enum Kept {
    InPlace(Short),
    OnHeap(Box<String>),
}

/// A text, which contracts see as the list of its bytes. A short one takes no memory of its own.
#[derive(Drop)]
pub struct Text {
    kept: Kept,
}

impl Model for Text {
    ghost use Rattle.std.specs.Prelude.{List, ℕ};
    ghost use Rattle.pj_base.specs.Kept.{kept_bytes};

    ghost Value = { List ℕ };

    ghost view = { λ t. kept_bytes t.kept };
}

/// A copy of a text, in the value itself where it is short.
fn keep(alloc: Global, text: &str) -> Result<Kept, NoMemory>
    ensures { IfOk result (λ k. kept_bytes k ≡ text.now) }
{
    match Short::of(text) {
        Some(short) => Ok(Kept::InPlace(short)),
        None => {
            let long = String::from_str(alloc, text)?;
            Ok(Kept::OnHeap(Box::new(alloc, long)?))
        }
    }
}

impl Text {
    /// A copy of a text.
    pub fn from_str(alloc: Global, text: &str) -> Result<Text, NoMemory>
        ensures { IfOk result (λ t. t ≡ text.now) }
    {
        let kept = keep(alloc, text)?;
        Ok(Text { kept })
    }

    /// The same text once more. A short one takes no memory.
    pub fn copied(&self, alloc: Global) -> Result<Text, NoMemory>
        ensures { IfOk result (λ t. t ≡ self.now) }
    {
        match &self.kept {
            Kept::InPlace(short) => {
                let kept = Kept::InPlace(*short);
                Ok(Text { kept })
            }
            Kept::OnHeap(long) => Text::from_str(alloc, long.as_str()),
        }
    }

    /// The text, lent.
    pub fn as_str(&self) -> &str
        ensures { result.now ≡ self.now }
    {
        match &self.kept {
            Kept::InPlace(short) => short.as_str(),
            Kept::OnHeap(long) => long.as_str(),
        }
    }
}
