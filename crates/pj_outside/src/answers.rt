//! What the outside answers to a call.

use pj_base::NoMemory;
use std::error::Error;
use std::fmt;

/// What a depot answers to a read.
#[derive(Drop)]
pub enum ReadAnswer {
    /// All bytes of the file.
    Bytes(Vec<u8>),
    /// There is no file of this name.
    Absent,
    /// The file has more bytes than the limit that was given.
    TooLong,
    /// The depot failed, and has counted the fault.
    Failed,
    /// There was no memory for the bytes.
    NoMemory,
}

/// Why a depot did not write a file.
#[derive(Clone, Copy, Debug, PartialEq, Eq)]
pub enum WriteFault {
    /// The depot failed, and has counted the fault. What the file holds now is unknown.
    Failed,
    /// There was no memory for the write. Each file is as it was.
    NoMemory,
}

impl fmt::Display for WriteFault {
    ghost use Rattle.std.specs.Prelude.{Some};
    ghost use Rattle.pj_outside.specs.Texts.{write_fault_text};

    ghost output = { λ fault. Some (write_fault_text fault) };

    fn fmt<W: fmt::Write>(&self, f: &mut fmt::Formatter<W>) -> fmt::Result {
        match self {
            WriteFault::Failed => write!(f, "the file was not written"),
            WriteFault::NoMemory => write!(f, "out of memory"),
        }
    }
}

impl Error for WriteFault {}

impl From<NoMemory> for WriteFault {
    ghost use Rattle.std.specs.Prelude.{◌≡◌};
    ghost use Rattle.pj_outside.specs.declared.answers.WriteFault.{WriteFault};

    ghost from_gives = { λ _ fault. fault ≡ WriteFault.NoMemory };

    fn from(_error: NoMemory) -> WriteFault {
        WriteFault::NoMemory
    }
}

/// A sink did not take all bytes of a piece, and has counted the fault.
#[derive(Clone, Copy, Debug, PartialEq, Eq)]
pub struct SinkFault;

impl fmt::Display for SinkFault {
    ghost use Rattle.std.specs.Prelude.{Some, codes};

    ghost output = { λ _. Some (codes "the output was not written") };

    fn fmt<W: fmt::Write>(&self, f: &mut fmt::Formatter<W>) -> fmt::Result {
        write!(f, "the output was not written")
    }
}

impl Error for SinkFault {}
