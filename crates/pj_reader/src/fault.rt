//! What a reader answers where there is no text.
ghost use Rattle.pj_reader.specs.declared.fault.ReadFault.TheVariants.{NoMemory as OutOfMemory};
ghost use Rattle.std.specs.Prelude.{◌≡◌};

/// What a text is.
#[derive(Clone, Copy, Debug, PartialEq, Eq)]
pub enum TextKind {
    Script,
    Package,
}

/// Why tokens are no text. A token is told by its number, from 0 on, and by the byte at which it begins.
#[derive(Clone, Copy, Debug, PartialEq, Eq)]
pub enum ReadFault {
    /// No text of the grammar begins with the tokens up to and with this one, and some begin with those before it.
    Grammar { token: usize, place: usize },
    /// Texts begin so, but all of them nest deeper than a text may.
    Deep { token: usize, place: usize },
    /// The same, where the token is the one behind the text: it ends too early.
    Early { token: usize, place: usize },
    /// All tokens were read, and none of them ends a text.
    Endless,
    /// Memory ran out.
    NoMemory,
}

impl From<pj_base::NoMemory> for ReadFault {
    ghost from_gives = { λ _ e. e ≡ OutOfMemory };

    fn from(_error: pj_base::NoMemory) -> ReadFault {
        ReadFault::NoMemory
    }
}
