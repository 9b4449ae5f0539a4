ghost use Rattle.std.specs.Prelude.{◌≡◌};
ghost use Rattle.pj_top.specs.Statuses.{code_of};

/// How a command ended. Each has its number, with which the program exits.
#[derive(Clone, Copy, Debug, PartialEq, Eq)]
pub enum Status {
    /// The text was read to its end and all was done.
    Ok,
    /// An error of the script ended it.
    Error,
    /// The words are no command.
    Usage,
    /// A text that was read is not of the language.
    Syntax,
    /// A load was refused.
    Refused,
    /// A file that was read is not there.
    Missing,
    /// A charge found no budget.
    Steps,
    /// The depot counted a fault.
    DepotFailed,
    /// The sink counted a fault.
    SinkFailed,
    /// Memory ran out.
    NoMemory,
    /// The machine met code that is not right.
    Trap,
    /// A file that was read is longer than its limit.
    TooLong,
    /// Named packages need one another.
    Cycle,
    /// As many images are loaded as there may be.
    Full,
}

impl Status {
    /// The number with which the program exits.
    pub fn code(self) -> u8
        ensures { result ≡ code_of self }
    {
        match self {
            Status::Ok => 0,
            Status::Error => 1,
            Status::Usage => 2,
            Status::Syntax => 3,
            Status::Refused => 4,
            Status::Missing => 5,
            Status::Steps => 6,
            Status::DepotFailed => 7,
            Status::SinkFailed => 8,
            Status::NoMemory => 9,
            Status::Trap => 10,
            Status::TooLong => 11,
            Status::Cycle => 12,
            Status::Full => 13,
        }
    }
}
