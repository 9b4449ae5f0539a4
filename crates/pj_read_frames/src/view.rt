//! Looks at the frames on top: what they want next, and whether the top operator ends. It computes `wants`, `admits` and the `takes_..`
//! of specs/Frames of pj_grammar, and `takes_module` of its specs/Machine. The prover finds these proofs by itself.
ghost use Rattle.std.specs.Prelude.{◌≡◌};
ghost use Rattle.pj_grammar.specs.Frames.{admits, frame_level, purpose_level, takes_definition, takes_directives, takes_items, takes_lines, takes_short, takes_uses, wants};
ghost use Rattle.pj_grammar.specs.Machine.{takes_module};
ghost use Rattle.pj_read_frames.specs.Stacked.{frames_of};
ghost use Rattle.pj_read_frames.specs.Tops.{ends_top, on_branch, on_payload};

use crate::stack::{Layer, split_top};
use pj_grammar::{Frame, Level, Purpose, Root};
use pj_read_makers::levels::{fits, right_of};

/// The level at which the expression of a purpose is read.
fn purpose_level(purpose: &Purpose) -> Level
    ensures { result ≡ purpose_level purpose.now }
{
    match purpose {
        Purpose::From(_) | Purpose::To(_, _) => Level::Sum,
        Purpose::Value
        | Purpose::Assign(_, _)
        | Purpose::Return(_)
        | Purpose::If
        | Purpose::While
        | Purpose::Const(_)
        | Purpose::Short(_, _) => Level::Conditional,
    }
}

/// The level at which the operand of a frame is read.
fn frame_level(frame: &Frame) -> Level
    ensures { result ≡ frame_level frame.now }
{
    match frame {
        Frame::Prefix(_) => Level::Unary,
        Frame::Infix(level, _, _) => right_of(*level),
        Frame::Then(_) | Frame::Else(_, _) | Frame::Group(_, _) | Frame::Call(_, _) => {
            Level::Conditional
        }
        Frame::Hole(purpose) => purpose_level(purpose),
        Frame::FunctionName | Frame::DirectiveFun => Level::Callee,
        Frame::TypeOf(_, _) | Frame::Parent(_) | Frame::Types(_, _) => Level::Named,
        Frame::Signature(_, _, _)
        | Frame::Fields(_, _, _, _)
        | Frame::Block(_, _)
        | Frame::Branch(_, _)
        | Frame::Payload(_, _)
        | Frame::Items(_, _) => Level::Bare,
    }
}

/// The level at which the operand of the top frame is read.
pub fn wants(layers: &[Layer]) -> Level
    ensures { result ≡ wants (frames_of layers.now) }
{
    match split_top(layers) {
        Some((frame, _)) => frame_level(frame),
        None => Level::Bare,
    }
}

/// Whether statements stand on top.
pub fn takes_lines(layers: &[Layer]) -> bool
    ensures { result ≡ takes_lines (frames_of layers.now) }
{
    match split_top(layers) {
        Some((Frame::Block(_, _) | Frame::Items(_, _), _)) => true,
        Some((_, _)) => false,
        None => false,
    }
}

/// Whether items stand on top.
pub fn takes_items(layers: &[Layer]) -> bool
    ensures { result ≡ takes_items (frames_of layers.now) }
{
    match split_top(layers) {
        Some((Frame::Items(_, _), _)) => true,
        Some((_, _)) => false,
        None => false,
    }
}

/// Whether a definition may stand on top.
pub fn takes_definition(layers: &[Layer]) -> bool
    ensures { result ≡ takes_definition (frames_of layers.now) }
{
    match split_top(layers) {
        Some((Frame::Payload(_, _) | Frame::Items(_, _), _)) => true,
        Some((_, _)) => false,
        None => false,
    }
}

/// Whether a directive may stand on top.
pub fn takes_directives(layers: &[Layer]) -> bool
    ensures { result ≡ takes_directives (frames_of layers.now) }
{
    match split_top(layers) {
        Some((Frame::Items(Root::Package(_, _), _), _)) => true,
        Some((_, _)) => false,
        None => false,
    }
}

/// Whether `using` may stand on top.
pub fn takes_uses(layers: &[Layer]) -> bool
    ensures { result ≡ takes_uses (frames_of layers.now) }
{
    match split_top(layers) {
        Some((Frame::Items(Root::Script, _), _)) => true,
        Some((Frame::Items(Root::Package(_, _), entries), _)) => entries.trees.is_empty(),
        Some((_, _)) => false,
        None => false,
    }
}

/// Whether the first operand of a statement or a payload is read that may be a definition.
pub fn takes_short(layers: &[Layer]) -> bool
    ensures { result ≡ takes_short (frames_of layers.now) }
{
    match split_top(layers) {
        Some((Frame::Hole(Purpose::Value), below)) => takes_definition(below),
        Some((_, _)) => false,
        None => false,
    }
}

/// Whether what is evaluated begins, behind `@eval` without a module.
pub fn takes_module(layers: &[Layer]) -> bool
    ensures { result ≡ takes_module (frames_of layers.now) }
{
    match split_top(layers) {
        Some((Frame::Payload(None, false), _)) => true,
        Some((_, _)) => false,
        None => false,
    }
}

/// Whether what is read at a level may stand as the operand of the top frame.
pub fn admits(layers: &[Layer], level: Level) -> bool
    ensures { result ≡ admits (frames_of layers.now) level }
{
    fits(wants(layers), level)
}

/// Whether what `@eval` evaluates stands on top.
pub fn on_payload(layers: &[Layer]) -> bool
    ensures { result ≡ on_payload (frames_of layers.now) }
{
    match split_top(layers) {
        Some((Frame::Payload(_, _), _)) => true,
        Some((_, _)) => false,
        None => false,
    }
}

/// Whether a branch before `elseif` stands on top.
pub fn on_branch(layers: &[Layer]) -> bool
    ensures { result ≡ on_branch (frames_of layers.now) }
{
    match split_top(layers) {
        Some((Frame::Branch(_, _), _)) => true,
        Some((_, _)) => false,
        None => false,
    }
}

/// Whether the operator on top ends, where what follows is read at a level.
pub fn ends_top(level: Level, layers: &[Layer]) -> bool
    ensures { result ≡ ends_top level (frames_of layers.now) }
{
    match split_top(layers) {
        Some((Frame::Prefix(_), _)) => true,
        Some((Frame::Infix(found, _, _), _)) => fits(level, *found),
        Some((Frame::Else(_, _), _)) => fits(level, Level::Conditional),
        Some((_, _)) => false,
        None => false,
    }
}
