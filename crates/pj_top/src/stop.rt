//! How the inner calls end and stop.

use crate::position::Position;
use crate::status::Status;
use pj_base::{ByteList, NoMemory, Text};
use pj_parse::SyntaxKind;

/// What is wrong with a text, and where.
#[derive(Clone, Copy, Debug, PartialEq, Eq)]
pub struct Mistake {
    pub at: Position,
    pub kind: SyntaxKind,
}

/// How a command ended whose output stands as it should: the line that is still to be put, which may be empty, and the status.
#[derive(Drop)]
pub struct Ending {
    pub line: ByteList,
    pub status: Status,
}

/// Why a call stopped with its output cut short.
#[derive(Drop)]
pub enum Stop {
    /// The depot failed at this file.
    DepotFailed { file: Text },
    SinkFailed,
    NoMemory,
}

impl From<NoMemory> for Stop {
    ghost use Rattle.std.specs.Prelude.{◌≡◌};
    ghost use Rattle.pj_top.specs.declared.stop.Stop.{Stop};

    ghost from_gives = { λ _ stop. stop ≡ Stop.NoMemory };

    fn from(_error: NoMemory) -> Stop {
        Stop::NoMemory
    }
}
