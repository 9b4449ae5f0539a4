//! Numbers of calls.
ghost use Rattle.std.specs.Prelude.{◌≡◌, []};
ghost use Rattle.pj_outside.specs.Memory.{has_number};

use std::alloc::Global;
use std::marker::Model;

/// A list of numbers, over a `Vec`, which contracts see as the list.
#[derive(Drop)]
pub struct NumberList {
    numbers: Vec<u64>,
}

impl Model for NumberList {
    ghost use Rattle.std.specs.Prelude.{List, ℕ};

    ghost Value = { List ℕ };

    ghost view = { λ n. n.numbers.items };
}

impl NumberList {
    /// The empty list. It takes no memory.
    pub fn new(alloc: Global) -> NumberList
        ensures { result ≡ [] }
    {
        NumberList {
            numbers: Vec::new(alloc),
        }
    }

    /// The numbers of a `Vec`, without taking memory.
    pub fn from_vec(numbers: Vec<u64>) -> NumberList
        ensures { result ≡ numbers.items }
    {
        NumberList { numbers }
    }

    /// The numbers as a `Vec`, without taking memory.
    pub fn into_vec(self) -> Vec<u64>
        ensures { result.items ≡ self }
    {
        let NumberList { numbers } = self;
        numbers
    }

    /// The numbers, lent.
    pub fn as_slice(&self) -> &[u64]
        ensures { result.now ≡ self.now }
    {
        self.numbers.as_slice()
    }

    /// Whether a number is in the list.
    pub fn contains(&self, number: u64) -> bool
        ensures { result ≡ has_number self.now number }
    {
        self.numbers.as_slice().contains(&number)
    }
}
