//! The building of a package's image.

ghost use Rattle.std.specs.Prelude.{◌≡◌, ◌≤◌, ◌++◌, true, IfErr, IfSome, IfOk, length};
ghost use Rattle.pj_words.specs.Words.{is_package_name};
ghost use Rattle.pj_outside.specs.Stored.{Files, Keeps};
ghost use Rattle.pj_plain.specs.Forms.{package_form};
ghost use Rattle.pj_plain.specs.Held.{held_package};
ghost use Rattle.pj_top.specs.Endings.{PackageEnds, text_file, text_limit};
ghost use Rattle.pj_top.specs.Stops.{AddsSome, Builds, DepotCause, IsEnding, IsOfPackage, Leads, Reaches, SinkCause};
ghost use Rattle.pj_top.specs.Running.{IsNoSink};
ghost use Rattle.pj_top.specs.Building.{Concludes, EndsSo, FoundIn, IsSilent, LacksMemory, OfForm, Serves, Stored, TellsEnding, TreeBuilds, TreeEnds, WritesFile};

use crate::ending::{faulty, missing, too_long, unbuilt};
use crate::position::position_at;
use crate::putting::{TEXT_LIMIT, put_printed};
use crate::status::Status;
use crate::stop::{Ending, Mistake, Stop};
use pj_base::{ByteList, NoMemory, Text};
use pj_build::pack::pack;
use pj_build::{BuildFault, Packed};
use pj_outside::{Depot, ReadAnswer, Sink, WriteFault};
use pj_parse::{SyntaxFault, package};
use pj_plain::package_runs;
use pj_session::End;
use pj_tree::PackageTree;
use std::alloc::Global;

/// What reading the text of a package came to: a tree that can be built, or the end of the command.
#[derive(Drop)]
enum Found {
    Tree(PackageTree),
    Ends(Ending),
}

/// The name of a package's file: the package's name, with what stands behind it.
fn file_name(alloc: Global, name: &str, behind: &str) -> Result<Text, NoMemory>
    ensures { IfOk result (λ file. file ≡ name.now ++ behind.now) }
{
    let mut file = String::from_str(alloc, name)?;
    file.push_str(behind)?;
    Ok(Text::from_str(alloc, file.as_str())?)
}

/// The end of a command, unless there was no memory for its line.
fn told_end(ending: Result<Ending, NoMemory>) -> Result<Found, Stop>
    ensures { TellsEnding ending result }
{
    match ending {
        Ok(ending) => Ok(Found::Ends(ending)),
        Err(_) => Err(Stop::NoMemory),
    }
}

/// The tree of a package, where it is of the form that is built today, and else the end of the command.
fn of_form(alloc: Global, file: &str, tree: PackageTree) -> Result<Found, Stop>
    ensures { OfForm file.now tree result }
{
    match package_runs(alloc, &tree) {
        Ok(true) => Ok(Found::Tree(tree)),
        Ok(false) => told_end(unbuilt(alloc, file)),
        Err(_) => Err(Stop::NoMemory),
    }
}

/// What the text of a package gives.
fn parsed(alloc: Global, name: &str, file: &str, text: &[u8]) -> Result<Found, Stop>
    requires file { file.now ≡ text_file name.now }
    requires short { length text.now ≤ text_limit }
    ensures found { IfOk result (λ found. (files : Files) → files (text_file name.now) ≡ Some text.now → FoundIn files name.now found) }
    ensures named { IfOk result (Serves name.now) }
    ensures memory { LacksMemory result }
{
    match package(alloc, text, name) {
        Ok(tree) => of_form(alloc, file, tree),
        Err(SyntaxFault::Syntax { place, kind }) => {
            let at = position_at(text, place);
            told_end(faulty(alloc, file, Mistake { at, kind }))
        }
        Err(SyntaxFault::NoMemory) => Err(Stop::NoMemory),
    }
}

/// Reads the text of a package. No file changes.
fn read_package<D: Depot>(alloc: Global, name: &str, depot: &mut D) -> Result<Found, Stop>
    ensures found { IfSome (D.files depot.old) (λ files. IfOk result (FoundIn files name.now)) }
    ensures named { IfOk result (Serves name.now) }
    ensures same { IfSome (D.files depot.old) (λ files. Keeps files (D.files depot.new)) }
    ensures depot { DepotCause (IsOfPackage name.now) (D.faults depot.old) (D.faults depot.new) result }
    ensures sink { IfErr result IsNoSink }
{
    let Ok(file) = file_name(alloc, name, ".jl") else {
        return Err(Stop::NoMemory);
    };
    match depot.read(alloc, file.as_str(), TEXT_LIMIT) {
        ReadAnswer::Bytes(bytes) => parsed(alloc, name, file.as_str(), bytes.as_slice()),
        ReadAnswer::Absent => told_end(missing(alloc, file.as_str())),
        ReadAnswer::TooLong => told_end(too_long(alloc, file.as_str())),
        ReadAnswer::Failed => Err(Stop::DepotFailed { file }),
        ReadAnswer::NoMemory => Err(Stop::NoMemory),
    }
}

/// Writes the image of a package. No other file changes.
fn write_image<D: Depot>(
    alloc: Global,
    name: &str,
    image: &[u8],
    depot: &mut D,
) -> Result<Ending, Stop>
    ensures ends { IfOk result IsSilent }
    ensures written { IfSome (D.files depot.old) (λ files. WritesFile files name.now image.now result (D.files depot.new)) }
    ensures depot { DepotCause (IsOfPackage name.now) (D.faults depot.old) (D.faults depot.new) result }
    ensures sink { IfErr result IsNoSink }
{
    let Ok(file) = file_name(alloc, name, ".pimg") else {
        return Err(Stop::NoMemory);
    };
    match depot.write(alloc, file.as_str(), image) {
        Ok(()) => Ok(Ending {
            line: ByteList::new(alloc),
            status: Status::Ok,
        }),
        Err(WriteFault::Failed) => Err(Stop::DepotFailed { file }),
        Err(WriteFault::NoMemory) => Err(Stop::NoMemory),
    }
}

/// The end of a command by the end of a package's statements. They end by no trap, and not for want of memory.
fn statements_end(end: &End, line: ByteList) -> Result<Ending, Stop>
    ensures { EndsSo end.now line result }
{
    match end {
        End::Error(_) => Ok(Ending {
            line,
            status: Status::Error,
        }),
        End::Steps => Ok(Ending {
            line,
            status: Status::Steps,
        }),
        End::Trap | End::NoMemory => Err(Stop::NoMemory),
    }
}

/// Writes the image, where the package has one, and answers the end of the command.
fn conclude<D: Depot>(
    alloc: Global,
    name: &str,
    outcome: Result<ByteList, BuildFault>,
    depot: &mut D,
) -> Result<Ending, Stop>
    ensures ends { Concludes outcome result }
    ensures stored { IfSome (D.files depot.old) (λ files. Stored files name.now outcome result (D.files depot.new)) }
    ensures depot { DepotCause (IsOfPackage name.now) (D.faults depot.old) (D.faults depot.new) result }
    ensures sink { IfErr result IsNoSink }
{
    match outcome {
        Ok(image) => write_image(alloc, name, image.as_slice(), depot),
        Err(BuildFault::Ended { end, line }) => statements_end(&end, line),
        Err(BuildFault::NoMemory) => Err(Stop::NoMemory),
    }
}

/// Evaluates the statements of a package, puts what they print, and writes its image where they end well.
fn build<D: Depot, S: Sink>(
    alloc: Global,
    tree: &PackageTree,
    steps: u64,
    depot: &mut D,
    out: &mut S,
) -> Result<Ending, Stop>
    requires form { package_form (held_package tree.now) ≡ true }
    requires named { is_package_name tree.now.name ≡ true }
    ensures told { IfSome (S.written out.old) (λ old. Leads (TreeEnds tree.now steps) old result (S.written out.new)) }
    ensures ends { Reaches (TreeEnds tree.now steps) result }
    ensures builds { IfSome (D.files depot.old) (λ files. TreeBuilds files tree.now steps result (D.files depot.new)) }
    ensures depot { DepotCause (IsOfPackage tree.now.name) (D.faults depot.old) (D.faults depot.new) result }
    ensures sink { SinkCause (S.faults out.old) (S.faults out.new) result }
{
    let Packed { printed, outcome } = pack(alloc, tree, steps);
    match put_printed(printed.as_slice(), out) {
        Ok(()) => conclude(alloc, tree.name.as_str(), outcome, depot),
        Err(stop) => Err(stop),
    }
}

/// Reads the text of a package, evaluates its statements and writes its image, once it is known that they end well. No other
/// file changes.
pub fn precompile<D: Depot, S: Sink>(
    alloc: Global,
    name: &str,
    steps: u64,
    depot: &mut D,
    out: &mut S,
) -> Result<Ending, Stop>
    requires { is_package_name name.now ≡ true }
    ensures told { IfSome (D.files depot.old) (λ files. IfSome (S.written out.old) (λ old. Leads (PackageEnds files name.now steps) old result (S.written out.new))) }
    ensures ends { IfSome (D.files depot.old) (λ files. Reaches (PackageEnds files name.now steps) result) }
    ensures untold { IfSome (S.written out.old) (λ old. AddsSome old (S.written out.new)) }
    ensures builds { IfSome (D.files depot.old) (λ files. Builds files name.now steps result (D.files depot.new)) }
    ensures depot { DepotCause (IsOfPackage name.now) (D.faults depot.old) (D.faults depot.new) result }
    ensures sink { SinkCause (S.faults out.old) (S.faults out.new) result }
    ensures ending { IfOk result (λ e. IsEnding e.status) }
{
    match read_package(alloc, name, depot) {
        Ok(Found::Tree(tree)) => build(alloc, &tree, steps, depot, out),
        Ok(Found::Ends(ending)) => Ok(ending),
        Err(stop) => Err(stop),
    }
}
