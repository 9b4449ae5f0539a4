//! Endings of a script's run, with their lines.

ghost use Rattle.std.specs.Prelude.{◌≡◌, IfOk, IfErr, option_map};
ghost use Rattle.pj_meaning.specs.Script.{Refused};
ghost use Rattle.pj_session.specs.Using.{refusal_of};
ghost use Rattle.pj_top.specs.Endings.{missing_line, syntax_line, too_long_line, unbuilt_line};
ghost use Rattle.pj_top.specs.Running.{StopsBy, Tells, ending_of_end, ending_of_fault};

use crate::lines::{
    format_line, full_line, loaded_line, missing_line, mistake_line, relocation_line, steps_line,
    too_long_line, unbuilt_line,
};
use crate::status::Status;
use crate::stop::{Ending, Mistake, Stop};
use pj_base::{NoMemory, Text};
use pj_session::{End, LoadFault, UsingFault};
use std::alloc::Global;

/// The ending of a script's run whose file isn't there.
pub fn missing(alloc: Global, file: &str) -> Result<Ending, NoMemory>
    ensures line { IfOk result (λ e. e.line ≡ missing_line file.now) }
    ensures status { IfOk result (λ e. e.status ≡ Status.Missing) }
{
    Ok(Ending {
        line: missing_line(alloc, file)?,
        status: Status::Missing,
    })
}

/// The ending of a run whose file is longer than its limit.
pub fn too_long(alloc: Global, file: &str) -> Result<Ending, NoMemory>
    ensures line { IfOk result (λ e. e.line ≡ too_long_line file.now) }
    ensures status { IfOk result (λ e. e.status ≡ Status.TooLong) }
{
    Ok(Ending {
        line: too_long_line(alloc, file)?,
        status: Status::TooLong,
    })
}

/// The ending of a run whose file has a mistake.
pub fn faulty(alloc: Global, file: &str, mistake: Mistake) -> Result<Ending, NoMemory>
    ensures line { IfOk result (λ e. e.line ≡ syntax_line file.now mistake.at mistake.kind) }
    ensures status { IfOk result (λ e. e.status ≡ Status.Syntax) }
{
    Ok(Ending {
        line: mistake_line(alloc, file, mistake)?,
        status: Status::Syntax,
    })
}

/// The ending of a run whose file has a text of another form than runs today.
pub fn unbuilt(alloc: Global, file: &str) -> Result<Ending, NoMemory>
    ensures line { IfOk result (λ e. e.line ≡ unbuilt_line file.now) }
    ensures status { IfOk result (λ e. e.status ≡ Status.Syntax) }
{
    Ok(Ending {
        line: unbuilt_line(alloc, file)?,
        status: Status::Syntax,
    })
}

/// The ending of a run whose item ended so. There is none of a want of memory, nor of a trap, which never comes.
pub fn ending_of_end(alloc: Global, end: End) -> Result<Ending, NoMemory>
    ensures { IfOk result (Tells (ending_of_end end)) }
{
    match end {
        End::Error(told) => Ok(Ending {
            line: told.error_line(alloc)?,
            status: Status::Error,
        }),
        End::Steps => Ok(Ending {
            line: steps_line(alloc)?,
            status: Status::Steps,
        }),
        End::Trap | End::NoMemory => Err(NoMemory),
    }
}

/// The ending of a run at an image that was refused. There is none of a want of memory.
fn refused(alloc: Global, file: &str, fault: LoadFault) -> Result<Ending, NoMemory>
    ensures { IfOk result (Tells (option_map (Refused file.now) (refusal_of fault))) }
{
    let line = match fault {
        LoadFault::Format { section } => format_line(alloc, file, section)?,
        LoadFault::Loaded => loaded_line(alloc, file)?,
        LoadFault::Relocation { entry } => relocation_line(alloc, file, entry)?,
        LoadFault::Full => full_line(alloc, file)?,
        LoadFault::NoMemory => return Err(NoMemory),
    };
    let status = match fault {
        LoadFault::Full => Status::Full,
        _ => Status::Refused,
    };
    Ok(Ending { line, status })
}

/// The ending of a run at a package that isn't loaded, or the stop by a fault of the depot or a want of memory.
pub fn ending_of_fault(alloc: Global, fault: UsingFault) -> Result<Ending, Stop>
    ensures told { IfOk result (Tells (ending_of_fault fault)) }
    ensures stop { IfErr result (StopsBy fault) }
{
    match fault {
        UsingFault::Ended(end) => Ok(ending_of_end(alloc, end)?),
        UsingFault::Refused { file, fault } => Ok(refused(alloc, file.as_str(), fault)?),
        UsingFault::Missing { file } => Ok(missing(alloc, file.as_str())?),
        UsingFault::TooLong { file } => Ok(too_long(alloc, file.as_str())?),
        UsingFault::DepotFailed { file } => Err(Stop::DepotFailed { file }),
        UsingFault::NoMemory => Err(Stop::NoMemory),
    }
}
