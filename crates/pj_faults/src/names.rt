ghost use Rattle.std.specs.Prelude.{◌≡◌, [], IfOk, OnOk, OnErr, length, not, take, slice_get, option_map};
ghost use Rattle.pj_faults.specs.Introduced.{is_among, with_name};

use indexmap::IndexSet;
use pj_base::NoMemory;
use std::alloc::Global;
use std::marker::Model;

/// Different names, in the order in which they were added, which contracts see as the list.
#[derive(Drop)]
pub struct NameSet {
    texts: IndexSet<String>,
}

impl Model for NameSet {
    ghost use Rattle.std.specs.Prelude.{List, ℕ, map, string_bytes};

    ghost Value = { List (List ℕ) };

    ghost view = { λ n. map string_bytes n.texts.keys };
}

impl NameSet {
    /// No names. It takes no memory.
    pub fn new(alloc: Global) -> NameSet
        ensures { result ≡ [] }
    {
        NameSet {
            texts: IndexSet::new(alloc),
        }
    }

    /// How many names there are.
    pub fn len(&self) -> usize
        ensures { result ≡ length self.now }
    {
        self.texts.len()
    }

    /// Whether a text is one of the names.
    #[tactic(auto, unfolding(crate::specs::Introduced::is_among))]
    pub fn contains(&self, text: &str) -> bool
        ensures { result ≡ is_among text.now self.now }
    {
        self.texts.contains(text)
    }

    /// Adds a text last where it is new, and tells whether it is. Without memory nothing changes.
    #[tactic(auto, unfolding(crate::specs::Introduced::is_among, crate::specs::Introduced::with_name))]
    pub fn add(&mut self, alloc: Global, text: &str) -> Result<bool, NoMemory>
        ensures is_new { IfOk result (λ new. new ≡ not (is_among text.now self.old)) }
        ensures added { OnOk result (self.new ≡ with_name self.old text.now) }
        ensures unchanged { OnErr result (self.new ≡ self.old) }
    {
        if self.contains(text) {
            return Ok(false);
        }
        let _ = self.texts.insert(String::from_str(alloc, text)?)?;
        Ok(true)
    }

    /// Keeps the first names, so many.
    pub fn cut(&mut self, count: usize)
        ensures { self.new ≡ take count self.old }
    {
        self.texts.truncate(count);
    }

    /// The name at a place, or None past the end.
    pub fn get(&self, at: usize) -> Option<&str>
        ensures { option_map (λ x. x.now) result ≡ slice_get self.now at }
    {
        let name = self.texts.get_index(at)?;
        Some(name.as_str())
    }
}
