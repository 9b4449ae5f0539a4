//! A set of texts, by their bytes.

ghost use Rattle.std.specs.Prelude.{◌≡◌, ◌++◌, [], ◌∷◌, map, not, if◌then◌else◌, IfOk, OnOk};
ghost use Rattle.pj_base.specs.Interned.{has_text};
ghost use Rattle.pj_image.specs.New.{SameTexts, all_new};

use indexmap::IndexSet;
use pj_base::NoMemory;
use pj_parts::ShortText;
use std::alloc::Global;
use std::hash::{Hash, Hasher};
use std::marker::Model;

/// A text, lent: a set finds it by its bytes.
#[derive(Drop)]
struct Lent<'a> {
    text: &'a ShortText,
}

impl PartialEq for Lent<'_> {
    ghost use Rattle.std.specs.Str.{bytes_eq};
    ghost use Rattle.std.proofs.Common.{rules};
    ghost use Rattle.std.specs.Cmp.Rules.{comparing};

    ghost eq = { λ a b. bytes_eq a.text.now b.text.now };

    ghost laws = { Prim.search (comparing, rules) };

    fn eq(&self, other: &Self) -> bool {
        self.text.as_str() == other.text.as_str()
    }
}

impl Eq for Lent<'_> {
    ghost use Rattle.std.proofs.Common.{rules};
    ghost use Rattle.std.specs.Cmp.Rules.{comparing};

    ghost laws = { Prim.search (comparing, rules) };
}

impl Hash for Lent<'_> {
    ghost use Rattle.std.proofs.Common.{rules};
    ghost use Rattle.std.specs.Hash as fed;
    ghost use Rattle.std.specs.Cmp.Rules.{hashing};

    ghost hash_input = { λ a. fed.str a.text.now };

    ghost respects_eq = { Prim.search (hashing, rules) };

    fn hash<H: Hasher>(&self, state: &mut H) {
        self.text.as_str().hash(state);
    }
}

/// Different texts, in the order in which they were added. Contracts see the list.
#[derive(Drop)]
pub struct Distinct<'a> {
    texts: IndexSet<Lent<'a>>,
}

impl<'a> Model for Distinct<'a> {
    ghost use Rattle.std.specs.Prelude.{List, ℕ, map};

    ghost Value = { List (List ℕ) };

    ghost view = { λ s. map (λ t. t.text.now) s.texts.keys };
}

impl<'a> Distinct<'a> {
    /// No texts, with room for so many at once.
    pub fn with_room(alloc: Global, count: usize) -> Result<Distinct<'a>, NoMemory>
        ensures { IfOk result (λ s. s ≡ []) }
    {
        Ok(Distinct {
            texts: IndexSet::with_capacity(alloc, count)?,
        })
    }

    /// Adds a text last, where it is new, and tells whether it was. Without memory nothing changes.
    pub fn add(&mut self, text: &'a ShortText) -> Result<bool, NoMemory>
        ensures new { IfOk result (λ new. new ≡ not (has_text text.now self.old)) }
        ensures after { IfOk result (λ new. self.new ≡ (if has_text text.now self.old then self.old else self.old ++ text.now ∷ [])) }
    {
        Ok(self.texts.insert(Lent { text })?)
    }

    /// Adds texts, those that are new.
    pub fn add_all(&mut self, texts: &[&'a ShortText]) -> Result<(), NoMemory>
        ensures { OnOk result (SameTexts self.new (self.old ++ map (λ t. t.now) texts.now)) }
    {
        for text in texts {
            self.add(*text)?;
        }
        Ok(())
    }

    /// Adds texts up to the first that isn't new, and tells whether there is none.
    pub fn add_new(&mut self, texts: &[&'a ShortText]) -> Result<bool, NoMemory>
        ensures { IfOk result (λ new. new ≡ all_new self.old (map (λ t. t.now) texts.now)) }
    {
        for text in texts {
            if !self.add(*text)? {
                return Ok(false);
            }
        }
        Ok(true)
    }
}
