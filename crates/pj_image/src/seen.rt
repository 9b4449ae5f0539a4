//! Names that have been seen.

ghost use Rattle.std.specs.Prelude.{◌≡◌, ◌∷◌, [], ◌++◌, ◌≤◌, length, take, drop, map, IfOk, OnOk, OnErr};
ghost use Rattle.pj_base.specs.Interned.{has_text};
ghost use Rattle.pj_image.specs.New.{all_new};

use crate::distinct::Distinct;
use crate::hashes::hashes_differ;
use pj_base::NoMemory;
use pj_parts::ShortText;
use std::alloc::{AllocError, Global};
use std::marker::Model;

/// Up to how many texts each is compared with each.
const FEW: usize = 16;

/// From how many texts on their hashes are compared first.
const MANY: usize = 65_536;

/// Texts of an image in the order in which they were seen. Contracts see the list.
#[derive(Drop)]
pub struct Seen<'a> {
    texts: Vec<&'a ShortText>,
}

impl<'a> Model for Seen<'a> {
    ghost use Rattle.std.specs.Prelude.{List, ℕ, map};

    ghost Value = { List (List ℕ) };

    ghost view = { λ s. map (λ t. t.now) s.texts.items };
}

/// Whether a text is among others.
fn is_among(texts: &[&ShortText], text: &str) -> bool
    ensures { result ≡ has_text text.now (map (λ t. t.now) texts.now) }
{
    texts.iter().any(|t| text == t.as_str())
}

/// Whether each text from this place on differs from all before it, where each is compared with these.
fn each_differs(texts: &[&ShortText], start: usize) -> bool
    requires { start ≤ length texts.now }
    ensures { result ≡ all_new (map (λ t. t.now) (take start texts.now)) (map (λ t. t.now) (drop start texts.now)) }
{
    for at in start..texts.len() {
        let (before, _) = texts.split_at(at);
        if is_among(before, texts[at].as_str()) {
            return false;
        }
    }
    true
}

/// Whether each text from this place on differs from all before it, told by a set.
fn exactly(alloc: Global, texts: &[&ShortText], start: usize) -> Result<bool, NoMemory>
    requires { start ≤ length texts.now }
    ensures { IfOk result (λ differ. differ ≡ all_new (take start (map (λ t. t.now) texts.now)) (drop start (map (λ t. t.now) texts.now))) }
{
    let (before, behind) = texts.split_at(start);
    let mut distinct = Distinct::with_room(alloc, texts.len())?;
    distinct.add_all(before)?;
    distinct.add_new(behind)
}

impl<'a> Seen<'a> {
    /// No texts. It takes no memory.
    pub fn new(alloc: Global) -> Seen<'a>
        ensures { result ≡ [] }
    {
        Seen {
            texts: Vec::new(alloc),
        }
    }

    /// How many texts there are.
    pub fn len(&self) -> usize
        ensures { result ≡ length self.now }
    {
        self.texts.len()
    }

    /// Makes room for so many more texts.
    pub fn reserve(&mut self, count: usize) -> Result<(), AllocError>
        ensures { self.new ≡ self.old }
    {
        self.texts.reserve(count)
    }

    /// Adds a text last. Without memory nothing changes.
    pub fn add(&mut self, text: &'a ShortText) -> Result<(), NoMemory>
        ensures added { OnOk result (self.new ≡ self.old ++ text.now ∷ []) }
        ensures unchanged { OnErr result (self.new ≡ self.old) }
    {
        self.texts.push(text)?;
        Ok(())
    }

    /// Whether a text is there.
    pub fn has(&self, text: &str) -> bool
        ensures { result ≡ has_text text.now self.now }
    {
        is_among(self.texts.as_slice(), text)
    }

    /// Whether each text from this place on differs from all before it. It takes no memory where there are few texts, and tells
    /// this by hashes where there are many and no two hashes are equal.
    pub fn differ_from(&self, alloc: Global, start: usize) -> Result<bool, NoMemory>
        requires { start ≤ length self.now }
        ensures { IfOk result (λ differ. differ ≡ all_new (take start self.now) (drop start self.now)) }
    {
        let texts = self.texts.as_slice();
        if texts.len() <= FEW {
            return Ok(each_differs(texts, start));
        }
        if texts.len() > MANY && hashes_differ(alloc, texts)? {
            return Ok(true);
        }
        exactly(alloc, texts, start)
    }
}
