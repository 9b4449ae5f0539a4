//! The run of a script.

ghost use Rattle.std.specs.Prelude.{◌≡◌, ◌⊎◌, ◌≤◌, ℕ, true, List, [], IfSome, IfOk, IfErr, Some, drop, length, map};
ghost use Rattle.pj_meaning.specs.Top.{top};
ghost use Rattle.pj_meaning.specs.Using.{use_from};
ghost use Rattle.pj_meaning.specs.Script.{ended, run_item, use_all};
ghost use Rattle.pj_outside.specs.Stored.{Files, Keeps};
ghost use Rattle.pj_outside.specs.Written.{Puts};
ghost use Rattle.pj_content.specs.Readings.{readings};
ghost use Rattle.pj_plain.specs.Forms.{known_behind, script_form};
ghost use Rattle.pj_plain.specs.Held.{held_item, held_script, held_text};
ghost use Rattle.pj_parse.specs.Texts.{IsScript};
ghost use Rattle.pj_session.specs.Good.{Good};
ghost use Rattle.pj_session.specs.OwnItems.{known_in};
ghost use Rattle.pj_session.specs.Seen.{events_of, state_seen};
ghost use Rattle.pj_session.specs.SessionItems.{all_loaded, is_using, session_item};
ghost use Rattle.pj_session.specs.States.{run as run_in};
ghost use Rattle.pj_session.specs.Uses.{counts_loaded};
ghost use Rattle.pj_top.specs.Endings.{ScriptEnds, meaning, text_limit};
ghost use Rattle.pj_top.specs.Running.{AddsItem, EndsAs, Goes, IfOn, IfOver, IsImage, IsNew, IsNoDepot, IsNoSink, IsOfForm, IsStopAt, OnlyLoads, PutsMore, ReadsAs, StaysGood, TellsCame};
ghost use Rattle.pj_top.specs.Stops.{AddsSome, DepotCause, IsEnding, IsRead, Leads, Reaches, SinkCause};

use crate::ending::{ending_of_end, ending_of_fault, faulty, missing, too_long, unbuilt};
use crate::position::position_at;
use crate::putting::{TEXT_LIMIT, put_printed};
use crate::status::Status;
use crate::stop::{Ending, Mistake, Stop};
use pj_base::{ByteList, NoMemory, Text};
use pj_outside::{Depot, ReadAnswer, Sink};
use pj_parse::{SyntaxFault, script};
use pj_plain::held::text;
use pj_plain::script_runs;
use pj_session::{End, Session};
use pj_tree::{ScriptTree, Sym, TopItem};
use std::alloc::Global;

/// What reading a script came to.
#[derive(Drop)]
enum Reading {
    /// A script of the form that runs today.
    Runs(ScriptTree),
    /// There is none, and the run has ended.
    Ends(Ending),
}

/// The script of this tree, where it is of the form that runs today.
fn judged(alloc: Global, name: &str, tree: ScriptTree) -> Result<Reading, Stop>
    ensures told { (files : Files) (bytes : List ℕ) → files name.now ≡ Some bytes → length bytes ≤ text_limit → IsScript bytes tree → ReadsAs files name.now result }
    ensures form { IsOfForm result }
    ensures stop { IfErr result (λ why. why ≡ Stop.NoMemory) }
{
    if script_runs(alloc, &tree)? {
        Ok(Reading::Runs(tree))
    } else {
        Ok(Reading::Ends(unbuilt(alloc, name)?))
    }
}

/// The script that a text is, or the ending by its mistake.
fn parsed(alloc: Global, name: &str, bytes: &[u8]) -> Result<Reading, Stop>
    ensures told { (files : Files) → files name.now ≡ Some bytes.now → length bytes.now ≤ text_limit → ReadsAs files name.now result }
    ensures form { IsOfForm result }
    ensures stop { IfErr result (λ why. why ≡ Stop.NoMemory) }
{
    match script(alloc, bytes) {
        Ok(tree) => judged(alloc, name, tree),
        Err(SyntaxFault::Syntax { place, kind }) => {
            let at = position_at(bytes, place);
            let mistake = Mistake { at, kind };
            Ok(Reading::Ends(faulty(alloc, name, mistake)?))
        }
        Err(SyntaxFault::NoMemory) => Err(Stop::NoMemory),
    }
}

/// The stop by a fault of the depot at this file.
fn depot_failed(alloc: Global, file: &str) -> Stop
    ensures { IsStopAt file.now result }
{
    match Text::from_str(alloc, file) {
        Ok(file) => Stop::DepotFailed { file },
        Err(NoMemory) => Stop::NoMemory,
    }
}

/// Reads a script. No file changes.
fn read_script<D: Depot>(alloc: Global, name: &str, depot: &mut D) -> Result<Reading, Stop>
    ensures told { IfSome (D.files depot.old) (λ files. ReadsAs files name.now result) }
    ensures form { IsOfForm result }
    ensures same { IfSome (D.files depot.old) (λ files. Keeps files (D.files depot.new)) }
    ensures depot { DepotCause (λ file. file ≡ name.now) (D.faults depot.old) (D.faults depot.new) result }
    ensures sink { IfErr result IsNoSink }
{
    match depot.read(alloc, name, TEXT_LIMIT) {
        ReadAnswer::Bytes(bytes) => parsed(alloc, name, bytes.as_slice()),
        ReadAnswer::Absent => Ok(Reading::Ends(missing(alloc, name)?)),
        ReadAnswer::TooLong => Ok(Reading::Ends(too_long(alloc, name)?)),
        ReadAnswer::Failed => Err(depot_failed(alloc, name)),
        ReadAnswer::NoMemory => Err(Stop::NoMemory),
    }
}

/// Loads the image of a package from its file, if none of the name is loaded, and starts it. Answers the ending, if that ends the run.
fn use_name<D: Depot>(
    alloc: Global,
    session: &mut Session,
    name: &str,
    depot: &mut D,
    left: &mut u64,
) -> Result<Option<Ending>, Stop>
    requires good { Good session.old.here (events_of session.old) }
    ensures goes { IfSome (D.files depot.old) (λ files. Goes (use_from (readings files) name.now (run_in (state_seen session.old) left.old)) result (state_seen session.new) left.new) }
    ensures loads { OnlyLoads session.old session.new }
    ensures loaded { IfOn result (counts_loaded session.new.here (events_of session.new) name.now ≡ true) }
    ensures same { IfSome (D.files depot.old) (λ files. Keeps files (D.files depot.new)) }
    ensures depot { DepotCause IsImage (D.faults depot.old) (D.faults depot.new) result }
    ensures sink { IfErr result IsNoSink }
    ensures ending { IfOver result (λ e. IsEnding e.status) }
{
    match session.using(alloc, name, depot, left) {
        Ok(()) => Ok(None),
        Err(fault) => Ok(Some(ending_of_fault(alloc, fault)?)),
    }
}

/// Does this for each of these packages, in order, until one ends the run.
fn use_names<D: Depot>(
    alloc: Global,
    session: &mut Session,
    names: &[Sym],
    depot: &mut D,
    left: &mut u64,
) -> Result<Option<Ending>, Stop>
    requires good { Good session.old.here (events_of session.old) }
    ensures goes { IfSome (D.files depot.old) (λ files. Goes (use_all (use_from (readings files)) (map held_text names.now) (run_in (state_seen session.old) left.old)) result (state_seen session.new) left.new) }
    ensures loads { OnlyLoads session.old session.new }
    ensures loaded { IfOn result (all_loaded session.new.here (events_of session.new) (map held_text names.now) ≡ true) }
    ensures same { IfSome (D.files depot.old) (λ files. Keeps files (D.files depot.new)) }
    ensures depot { DepotCause IsImage (D.faults depot.old) (D.faults depot.new) result }
    ensures sink { IfErr result IsNoSink }
    ensures ending { IfOver result (λ e. IsEnding e.status) }
{
    for name in names {
        let came = use_name(alloc, session, text(name), depot, left)?;
        if let Some(ending) = came {
            return Ok(Some(ending));
        }
    }
    Ok(None)
}

/// Puts what a session printed more than so many bytes.
fn put_more<S: Sink>(session: &Session, before: usize, out: &mut S) -> Result<(), Stop>
    requires { before ≤ length session.now.printed }
    ensures told { IfSome (S.written out.old) (λ old. Puts old (drop before session.now.printed) result (S.written out.new)) }
    ensures sink { SinkCause (S.faults out.old) (S.faults out.new) result }
    ensures stop { IfErr result (λ why. why ≡ Stop.SinkFailed) }
{
    put_printed(&session.printed()[before..], out)
}

/// The ending of an item that came to this.
fn item_ending(alloc: Global, came: Result<(), End>) -> Result<Option<Ending>, Stop>
    ensures told { TellsCame came result }
    ensures stop { IfErr result (λ why. why ≡ Stop.NoMemory) }
{
    match came {
        Ok(()) => Ok(None),
        Err(end) => Ok(Some(ending_of_end(alloc, end)?)),
    }
}

/// Evaluates an item that is no line of `using`, and puts what it printed, however it ended. Answers the ending, if that ends the run.
fn top_item<S: Sink>(
    alloc: Global,
    session: &mut Session,
    item: &TopItem,
    left: &mut u64,
    out: &mut S,
) -> Result<Option<Ending>, Stop>
    requires good { Good session.old.here (events_of session.old) }
    requires form { session_item (known_in (events_of session.old)) (held_item item.now) ≡ true }
    ensures goes { Goes (ended (top (held_item item.now) (run_in (state_seen session.old) left.old))) result (state_seen session.new) left.new }
    ensures stays { StaysGood session.old session.new }
    ensures known { IfOn result (known_in (events_of session.new) ≡ known_behind (known_in (events_of session.old)) (held_item item.now)) }
    ensures told { IfSome (S.written out.old) (λ old. PutsMore session.old.printed session.new.printed old result (S.written out.new)) }
    ensures sink { SinkCause (S.faults out.old) (S.faults out.new) result }
    ensures depot { IfErr result IsNoDepot }
    ensures ending { IfOver result (λ e. IsEnding e.status) }
{
    let before = session.printed().len();
    let came = session.top(alloc, item, left);
    match put_more(session, before, out) {
        Ok(()) => item_ending(alloc, came),
        Err(stop) => Err(stop),
    }
}

/// Does an item: loads the packages of a line of `using`, or evaluates any other. Answers the ending, if that ends the run.
fn do_item<D: Depot, S: Sink>(
    alloc: Global,
    session: &mut Session,
    item: &TopItem,
    left: &mut u64,
    depot: &mut D,
    out: &mut S,
) -> Result<Option<Ending>, Stop>
    requires good { Good session.old.here (events_of session.old) }
    requires form { (is_using (held_item item.now) ≡ true) ⊎ (session_item (known_in (events_of session.old)) (held_item item.now) ≡ true) }
    ensures goes { IfSome (D.files depot.old) (λ files. Goes (run_item (use_from (readings files)) (held_item item.now) (run_in (state_seen session.old) left.old)) result (state_seen session.new) left.new) }
    ensures stays { StaysGood session.old session.new }
    ensures adds { IfOn result (AddsItem (held_item item.now) session.old session.new) }
    ensures told { IfSome (S.written out.old) (λ old. PutsMore session.old.printed session.new.printed old result (S.written out.new)) }
    ensures same { IfSome (D.files depot.old) (λ files. Keeps files (D.files depot.new)) }
    ensures depot { DepotCause IsImage (D.faults depot.old) (D.faults depot.new) result }
    ensures sink { SinkCause (S.faults out.old) (S.faults out.new) result }
    ensures ending { IfOver result (λ e. IsEnding e.status) }
{
    match item {
        TopItem::Using(names) => use_names(alloc, session, names.as_slice(), depot, left),
        _ => top_item(alloc, session, item, left, out),
    }
}

/// The ending at the text's end, which has no line.
fn at_end(alloc: Global) -> Ending
    ensures line { result.line ≡ [] }
    ensures status { result.status ≡ Status.Ok }
{
    Ending {
        line: ByteList::new(alloc),
        status: Status::Ok,
    }
}

/// Does items in order in a new session, with one budget over all of them, until one ends the run.
fn do_items<D: Depot, S: Sink>(
    alloc: Global,
    session: &mut Session,
    items: &[TopItem],
    steps: u64,
    depot: &mut D,
    out: &mut S,
) -> Result<Ending, Stop>
    requires new { IsNew session.old }
    requires form { script_form (map held_item items.now) ≡ true }
    ensures told { IfSome (D.files depot.old) (λ files. IfSome (S.written out.old) (λ old. Leads (EndsAs (meaning files (map held_item items.now) steps)) old result (S.written out.new))) }
    ensures ends { IfSome (D.files depot.old) (λ files. Reaches (EndsAs (meaning files (map held_item items.now) steps)) result) }
    ensures untold { IfSome (S.written out.old) (λ old. AddsSome old (S.written out.new)) }
    ensures same { IfSome (D.files depot.old) (λ files. Keeps files (D.files depot.new)) }
    ensures depot { DepotCause IsImage (D.faults depot.old) (D.faults depot.new) result }
    ensures sink { SinkCause (S.faults out.old) (S.faults out.new) result }
    ensures ending { IfOk result (λ e. IsEnding e.status) }
{
    let mut left = steps;
    for item in items {
        let came = do_item(alloc, session, item, &mut left, depot, out)?;
        if let Some(ending) = came {
            return Ok(ending);
        }
    }
    Ok(at_end(alloc))
}

/// Runs a script of the form that runs today.
fn run_tree<D: Depot, S: Sink>(
    alloc: Global,
    tree: &ScriptTree,
    steps: u64,
    depot: &mut D,
    out: &mut S,
) -> Result<Ending, Stop>
    requires form { script_form (held_script tree.now) ≡ true }
    ensures told { IfSome (D.files depot.old) (λ files. IfSome (S.written out.old) (λ old. Leads (EndsAs (meaning files (held_script tree.now) steps)) old result (S.written out.new))) }
    ensures ends { IfSome (D.files depot.old) (λ files. Reaches (EndsAs (meaning files (held_script tree.now) steps)) result) }
    ensures untold { IfSome (S.written out.old) (λ old. AddsSome old (S.written out.new)) }
    ensures same { IfSome (D.files depot.old) (λ files. Keeps files (D.files depot.new)) }
    ensures depot { DepotCause IsImage (D.faults depot.old) (D.faults depot.new) result }
    ensures sink { SinkCause (S.faults out.old) (S.faults out.new) result }
    ensures ending { IfOk result (λ e. IsEnding e.status) }
{
    match Session::new(alloc) {
        Ok(mut session) => do_items(
            alloc,
            &mut session,
            tree.items.as_slice(),
            steps,
            depot,
            out,
        ),
        Err(NoMemory) => Err(Stop::NoMemory),
    }
}

/// Reads a script and runs it, over the images in the depot. No file changes. What a statement printed is put when it has ended.
pub fn run<D: Depot, S: Sink>(
    alloc: Global,
    name: &str,
    steps: u64,
    depot: &mut D,
    out: &mut S,
) -> Result<Ending, Stop>
    ensures told { IfSome (D.files depot.old) (λ files. IfSome (S.written out.old) (λ old. Leads (ScriptEnds files name.now steps) old result (S.written out.new))) }
    ensures ends { IfSome (D.files depot.old) (λ files. Reaches (ScriptEnds files name.now steps) result) }
    ensures untold { IfSome (S.written out.old) (λ old. AddsSome old (S.written out.new)) }
    ensures same { IfSome (D.files depot.old) (λ files. Keeps files (D.files depot.new)) }
    ensures depot { DepotCause (IsRead name.now) (D.faults depot.old) (D.faults depot.new) result }
    ensures sink { SinkCause (S.faults out.old) (S.faults out.new) result }
    ensures ending { IfOk result (λ e. IsEnding e.status) }
{
    match read_script(alloc, name, depot) {
        Ok(Reading::Runs(tree)) => run_tree(alloc, &tree, steps, depot, out),
        Ok(Reading::Ends(ending)) => Ok(ending),
        Err(stop) => Err(stop),
    }
}
