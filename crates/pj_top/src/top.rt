//! The top call, from words to a status.

ghost use Rattle.std.specs.Prelude.{◌≡◌, ◌⊎◌, ◌≤◌, IfOk, IfSome, map, string_bytes};
ghost use Rattle.pj_outside.specs.Faults.{Rose};
ghost use Rattle.pj_top.specs.Claims.{Runs, Begins, Reached, TellsUsage, FaultCause, OneEnding, IsToday, Leaves};
ghost use Rattle.pj_top.specs.Stops.{Answers, CameCut, Concludes, Finishes, IsEnding, TellsDepot};

use crate::lines::depot_line;
use crate::precompile::precompile;
use crate::run::run;
use crate::status::Status;
use crate::stop::{Ending, Stop};
use crate::words::{Command, parse_command};
use pj_outside::{Depot, Sink};
use std::alloc::Global;
use std::thread::Threads;

/// The line for words that are no command.
const USAGE: &str =
    "usage: precompile STEPS NAME.. | run STEPS SCRIPT | report STEPS SCRIPT | session STEPS FILE | generate SEED COUNT\n";

/// Puts the last line, where there is one, and answers the status.
fn finish<S: Sink>(line: &[u8], status: Status, out: &mut S) -> Status
    ensures told { IfSome (S.written out.old) (λ old. Finishes old line.now status result (S.written out.new)) }
    ensures status { (result ≡ status) ⊎ (result ≡ Status.SinkFailed) }
    ensures cause { S.faults out.old ≤ S.faults out.new }
    ensures failed { result ≡ Status.SinkFailed → (status ≡ Status.SinkFailed → ⊥) → Rose (S.faults out.old) (S.faults out.new) }
{
    if line.is_empty() {
        return status;
    }
    match out.put(line) {
        Ok(()) => status,
        Err(_) => Status::SinkFailed,
    }
}

/// Puts the line that tells of a depot's fault at a file, and answers the status.
#[tactic(auto, using(crate::proofs::Options::nothing_added))]
fn tell_fault<S: Sink>(alloc: Global, file: &str, out: &mut S) -> Status
    ensures told { IfSome (S.written out.old) (λ old. TellsDepot old file.now result (S.written out.new)) }
    ensures status { (result ≡ Status.DepotFailed) ⊎ ((result ≡ Status.SinkFailed) ⊎ (result ≡ Status.NoMemory)) }
    ensures cause { S.faults out.old ≤ S.faults out.new }
    ensures failed { result ≡ Status.SinkFailed → Rose (S.faults out.old) (S.faults out.new) }
{
    match depot_line(alloc, file) {
        Ok(line) => finish(line.as_slice(), Status::DepotFailed, out),
        Err(_) => Status::NoMemory,
    }
}

/// Puts the line of what a command came to, and answers the status.
#[tactic(auto, using(crate::proofs::Options::nothing_added))]
fn conclude<S: Sink>(alloc: Global, came: Result<Ending, Stop>, out: &mut S) -> Status
    requires ending { IfOk came (λ e. IsEnding e.status) }
    ensures told { IfSome (S.written out.old) (λ old. Concludes old came result (S.written out.new)) }
    ensures status { Answers came result }
    ensures cause { S.faults out.old ≤ S.faults out.new }
    ensures failed { result ≡ Status.SinkFailed → CameCut came ⊎ Rose (S.faults out.old) (S.faults out.new) }
{
    match came {
        Ok(ending) => finish(ending.line.as_slice(), ending.status, out),
        Err(Stop::DepotFailed { file }) => tell_fault(alloc, file.as_str(), out),
        Err(Stop::SinkFailed) => Status::SinkFailed,
        Err(Stop::NoMemory) => Status::NoMemory,
    }
}

/// Does what the words of a command line ask for, over a depot of files and a sink for the output, and answers how it
/// ended. The words `run STEPS SCRIPT` run a script with a budget of so many steps, over the images in the depot; the words
/// `precompile STEPS NAME` write the image of a package there; any other words are answered by a line on their use. What is
/// put is what the script or the package prints and then the line of the status, if it has one.
pub fn drive<Rt: Threads + Sync, D: Depot, S: Sink>(
    _rt: &Rt,
    alloc: Global,
    words: &[String],
    depot: &mut D,
    out: &mut S,
) -> Status
    ensures runs { Runs (map string_bytes words.now) (D.files depot.old) (S.written out.old) (S.written out.new) result }
    ensures begins { Begins (map string_bytes words.now) (D.files depot.old) (S.written out.old) (S.written out.new) (D.faults depot.old) (D.faults depot.new) result }
    ensures ends { Reached (map string_bytes words.now) (D.files depot.old) result }
    ensures usage { TellsUsage (map string_bytes words.now) (S.written out.old) (S.written out.new) result }
    ensures files { IfSome (D.files depot.old) (λ files. Leaves (map string_bytes words.now) files (D.files depot.new) result) }
    ensures depot_failed { FaultCause Status.DepotFailed (D.faults depot.old) (D.faults depot.new) result }
    ensures sink_failed { FaultCause Status.SinkFailed (S.faults out.old) (S.faults out.new) result }
    ensures today { IsToday result }
{
    match parse_command(words) {
        None => finish(USAGE.as_bytes(), Status::Usage, out),
        Some(Command::Run { steps, script }) => {
            let came = run(alloc, script, steps, depot, out);
            conclude(alloc, came, out)
        }
        Some(Command::Precompile { steps, name }) => {
            let came = precompile(alloc, name, steps, depot, out);
            conclude(alloc, came, out)
        }
    }
}

/// Nothing is done: the clause is the law that the words and the files leave a command one ending.
pub fn one_ending()
    ensures { OneEnding }
{}
