ghost use Rattle.std.specs.Prelude.{◌≡◌, ◌<◌, [], IfOk, OnErr, length, Some, slice_get, option_map};
ghost use Rattle.pj_base.specs.Interned.{Interns, found_at};

use crate::memory::NoMemory;
use indexmap::IndexSet;
use std::alloc::Global;
use std::marker::Model;

/// The place of a text in a list of names, counted from 0.
#[derive(Clone, Copy, PartialEq, Eq)]
pub struct Name(pub u64);

/// A list of different texts, each numbered by its place. Contracts see the list.
#[derive(Drop)]
pub struct Names {
    texts: IndexSet<String>,
}

impl Model for Names {
    ghost use Rattle.std.specs.Prelude.{List, ℕ, map, string_bytes};

    ghost Value = { List (List ℕ) };

    ghost view = { λ n. map string_bytes n.texts.keys };
}

impl Names {
    /// No names. It takes no memory.
    pub fn new(alloc: Global) -> Names
        ensures { result ≡ [] }
    {
        Names {
            texts: IndexSet::new(alloc),
        }
    }

    /// How many names there are.
    pub fn len(&self) -> usize
        ensures { result ≡ length self.now }
    {
        self.texts.len()
    }

    /// The place of a text, which is added last where it is new. Without memory nothing changes.
    pub fn intern(&mut self, alloc: Global, text: &str) -> Result<Name, NoMemory>
        ensures interned { IfOk result (λ name. Interns text.now self.old name.0 self.new) }
        ensures unchanged { OnErr result (self.new ≡ self.old) }
    {
        if let Some(at) = self.texts.get_index_of(text) {
            return Ok(Name(at as u64));
        }
        let (at, _) = self.texts.insert_full(String::from_str(alloc, text)?)?;
        Ok(Name(at as u64))
    }

    /// The place of a text, where it is there.
    pub fn find(&self, text: &str) -> Option<Name>
        ensures { option_map (λ name. name.0) result ≡ found_at text.now self.now }
    {
        let at = self.texts.get_index_of(text)?;
        Some(Name(at as u64))
    }

    /// The text at a place.
    pub fn text(&self, name: Name) -> &str
        requires { name.0 < length self.now }
        ensures { slice_get self.now name.0 ≡ Some result.now }
    {
        self.texts[name.0 as usize].as_str()
    }
}
