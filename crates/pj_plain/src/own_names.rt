ghost use Rattle.std.specs.Prelude.{◌≡◌, true, [], ◌∷◌, ◌++◌, OnOk};
ghost use Rattle.pj_plain.specs.Forms.{is_new, role_of};

use pj_base::{Names, NoMemory};
use std::alloc::Global;
use std::marker::Model;

/// A text's own names: functions, each with the number of its parameters, and constants, which have none. Contracts see
/// the list of them.
#[derive(Drop)]
pub struct OwnNames {
    names: Names,
    roles: Vec<Option<usize>>,
}

impl Model for OwnNames {
    ghost use Rattle.std.specs.Prelude.{◌≡◌, List, ℕ, Option, length};
    ghost use Rattle.std.specs.List.{zip};

    ghost Value = { List (List ℕ × Option ℕ) };

    ghost view = { λ o. zip o.names o.roles.items };

    ghost invariant = { λ o. length o.names ≡ length o.roles.items };
}

impl OwnNames {
    /// No names. It takes no memory.
    pub fn new(alloc: Global) -> OwnNames
        ensures { result ≡ [] }
    {
        OwnNames {
            names: Names::new(alloc),
            roles: Vec::new(alloc),
        }
    }

    /// What a name is, where it is known.
    pub fn role(&self, name: &str) -> Option<Option<usize>>
        ensures { result ≡ role_of name.now self.now }
    {
        let at = self.names.find(name)?;
        self.roles.get(at.0 as usize).copied()
    }

    /// Adds a name that is new.
    pub fn add(&mut self, alloc: Global, name: &str, role: Option<usize>) -> Result<(), NoMemory>
        requires { is_new name.now self.old ≡ true }
        ensures { OnOk result (self.new ≡ self.old ++ (name.now, role) ∷ []) }
    {
        self.roles.reserve(1)?;
        self.names.intern(alloc, name)?;
        self.roles.push_reserved(role);
        Ok(())
    }
}
