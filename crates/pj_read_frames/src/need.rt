//! How deep a text at least nests that goes on from where the reader stands. It computes `need` of specs/Need of pj_grammar. The
//! prover finds these proofs by itself, with two lemmas of proofs/Paths.
ghost use Rattle.std.specs.Prelude.{◌≡◌};
ghost use Rattle.pj_grammar.specs.Frames.{node};
ghost use Rattle.pj_grammar.specs.Need.{argument_nesting, field_nesting, head_nesting, mode_nesting, need, place_nesting};
ghost use Rattle.pj_read_frames.specs.Stacked.{capped, frames_of};

use crate::depth::{greater, plus};
use crate::reading::Reading;
use crate::stack::{Layer, Stack, split_top};
use crate::view::takes_lines;
use pj_grammar::{Frame, Given, Head, Mode, Node, Purpose};
use pj_read_makers::paths::lacks_paths;
use pj_syntax::{Path, PathList};

/// What a field adds to an operand: where it can be assigned, that nests less than its value.
fn place_nesting(e: &Node, layers: &[Layer]) -> usize
    ensures { result ≡ capped (place_nesting e.now (frames_of layers.now)) }
{
    let more = plus(1, e.nesting);
    match split_top(layers) {
        Some((Frame::Hole(Purpose::Value), below)) => {
            if takes_lines(below) { e.nesting } else { more }
        }
        Some((_, _)) => more,
        None => more,
    }
}

/// How deep a call of names nests.
#[tactic(auto, using(crate::proofs::Paths::call_nests_one, crate::proofs::Paths::call_nests_two))]
fn call_nesting(f: &Path, paths: &PathList) -> usize
    ensures { result ≡ (node (Head.Call f.now paths.now)).nesting }
{
    if paths.is_empty() { 1 } else { 2 }
}

/// How deep an operand nests.
#[tactic(auto, unfolding(pj_grammar::specs::Makers::name_of))]
fn head_nesting(head: &Head, layers: &[Layer]) -> usize
    ensures { result ≡ capped (head_nesting head.now (frames_of layers.now)) }
{
    match head {
        Head::Name(_) | Head::Member(_, _) | Head::Operator(_, _) => 1,
        Head::Place(e, _) => place_nesting(e.get(), layers),
        Head::Call(f, paths) => {
            if lacks_paths(f, paths) {
                3
            } else {
                call_nesting(f, paths)
            }
        }
        Head::Plain(e) => e.nesting,
    }
}

/// How deep the arguments of a call at least nest that begin.
fn argument_nesting(layers: &[Layer]) -> usize
    ensures { result ≡ argument_nesting (frames_of layers.now) }
{
    match split_top(layers) {
        Some((Frame::Call(f, Given::Paths(paths)), _)) => {
            if paths.is_empty() && lacks_paths(f, paths) {
                1
            } else {
                0
            }
        }
        Some((_, _)) => 0,
        None => 0,
    }
}

/// How deep what has a field nests with it.
fn field_nesting(e: &Node, assignable: bool, layers: &[Layer]) -> usize
    ensures { result ≡ capped (field_nesting e.now assignable (frames_of layers.now)) }
{
    if assignable {
        place_nesting(e, layers)
    } else {
        plus(1, e.nesting)
    }
}

/// How deep what comes next nests at least.
fn mode_nesting(mode: &Mode, layers: &[Layer]) -> usize
    ensures { result ≡ capped (mode_nesting mode.now (frames_of layers.now)) }
{
    match mode {
        Mode::Have(head) => head_nesting(head, layers),
        Mode::Field(e, assignable) => field_nesting(e, *assignable, layers),
        Mode::Arguments => argument_nesting(layers),
        Mode::Line | Mode::Closed | Mode::Accepted => 0,
        Mode::Payload | Mode::EvalName(_) | Mode::Return(_) => 2,
        Mode::GlobalName(_) | Mode::GlobalAssign(_, _) | Mode::LoopName | Mode::LoopIn(_) => 2,
        Mode::EvalColon | Mode::EvalOpen => 3,
        Mode::PayloadEnd(line) => line.get().nesting,
        Mode::EvalEnd(line) => line.get().nesting,
        _ => 1,
    }
}

/// How deep a text at least nests that goes on so, or the greatest number.
#[tactic(auto, unfolding(pj_grammar::specs::Need::need))]
pub fn need(reading: &Reading) -> usize
    ensures { result ≡ capped (need reading.now) }
{
    let reach = reading.stack().reach();
    let nesting = mode_nesting(reading.mode(), reading.stack().layers());
    greater(8, greater(reach.read, plus(reach.above, nesting)))
}
