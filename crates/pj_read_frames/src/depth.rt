//! How deep what is begun nests, in machine words: a sum greater than the greatest word counts as that. It computes `frame_depth` of
//! specs/Need of pj_grammar, as specs/Stacked caps it. The prover finds these proofs by itself.
ghost use Rattle.std.specs.Prelude.{◌≡◌, ◌+◌, ℕ, max};
ghost use Rattle.pj_grammar.specs.Need.{Depth, assign_depth, deeper, form_nodes, frame_depth, given_nesting, holder_nesting, opener_depth, purpose_depth};
ghost use Rattle.pj_grammar.specs.Makers.{infix_height, target_value};
ghost use Rattle.pj_read_frames.specs.Stacked.{capped, reach_of};

use pj_grammar::{Form, Frame, Given, Lines, Node, Opener, Operator, Purpose, Target};
use pj_lex::Sign;
use sqlite_items::Boxed;

/// What frames add: how many nodes stand above what is read next, and how deep what was read before nests.
#[derive(Clone, Copy)]
pub struct Reach {
    pub above: usize,
    pub read: usize,
}

/// The sum.
pub fn plus(a: usize, b: usize) -> usize
    ensures { result ≡ capped (a + b) }
{
    a.saturating_add(b)
}

/// The greater of two numbers.
pub fn greater(a: usize, b: usize) -> usize
    ensures { result ≡ max a b }
{
    a.max(b)
}

/// One frame more, with so many nodes, and below the first so many a part that nests so deep.
fn deeper(nodes: usize, nesting: usize, reach: Reach) -> Reach
    ensures { (d : Depth) (n : ℕ) → reach ≡ reach_of d → nesting ≡ capped n → result ≡ reach_of (deeper nodes n d) }
{
    Reach {
        above: plus(reach.above, nodes),
        read: greater(reach.read, plus(reach.above, nesting)),
    }
}

/// How deep arguments nest.
pub fn given_nesting(given: &Given) -> usize
    ensures { result ≡ given_nesting given.now }
{
    match given {
        Given::Paths(paths) => { if paths.is_empty() { 0 } else { 1 } }
        Given::Mixed(arguments) => arguments.nesting,
    }
}

/// How deep what an assignment has beside its value nests.
fn holder_nesting(target: &Target) -> usize
    ensures { result ≡ holder_nesting target.now }
{
    match target {
        Target::Field(holder, _) => holder.get().nesting,
        Target::Local(_) | Target::Global(_, _) => 0,
    }
}

/// How deep the value of what is assigned nests.
#[tactic(auto, unfolding(pj_grammar::specs::Makers::name_of, pj_grammar::specs::Makers::field_of))]
fn value_nesting(target: &Target) -> usize
    ensures { result ≡ capped (target_value target.now).nesting }
{
    match target {
        Target::Field(holder, _) => plus(1, holder.get().nesting),
        Target::Local(_) | Target::Global(_, _) => 1,
    }
}

/// How many nodes an operator's expression has above its operands.
pub fn infix_height(sign: Sign) -> usize
    ensures { result ≡ infix_height sign }
{
    if sign == Sign::NotSame { 2 } else { 1 }
}

/// An assignment more.
fn assign_depth(target: &Target, operator: &Option<Operator>, reach: Reach) -> Reach
    ensures { (d : Depth) → reach ≡ reach_of d → result ≡ reach_of (assign_depth target.now operator.now d) }
{
    match operator {
        None => deeper(1, plus(1, holder_nesting(target)), reach),
        Some(_) => deeper(
            2,
            greater(
                plus(1, holder_nesting(target)),
                plus(2, value_nesting(target)),
            ),
            reach,
        ),
    }
}

/// The expression of a purpose more.
fn purpose_depth(purpose: &Purpose, reach: Reach) -> Reach
    ensures { (d : Depth) → reach ≡ reach_of d → result ≡ reach_of (purpose_depth purpose.now d) }
{
    match purpose {
        Purpose::Value | Purpose::Return(_) | Purpose::If | Purpose::While | Purpose::From(_) => {
            deeper(1, 0, reach)
        }
        Purpose::Assign(target, operator) => assign_depth(target, operator, reach),
        Purpose::To(_, from) => deeper(1, plus(1, from.get().nesting), reach),
        Purpose::Const(_) => reach,
        Purpose::Short(_, _) => deeper(3, 0, reach),
    }
}

/// A block more, whose statements nest so deep.
fn opener_depth(opener: &Opener, lines: usize, reach: Reach) -> Reach
    ensures { (d : Depth) → reach ≡ reach_of d → result ≡ reach_of (opener_depth opener.now lines d) }
{
    match opener {
        Opener::If(c) | Opener::While(c) => deeper(
            1,
            plus(1, greater(c.get().nesting, lines)),
            reach,
        ),
        Opener::Else(c, before) => deeper(
            1,
            plus(1, greater(c.get().nesting, greater(before.nesting, lines))),
            reach,
        ),
        Opener::For(_, from, to) => deeper(
            1,
            plus(
                1,
                greater(greater(from.get().nesting, to.get().nesting), lines),
            ),
            reach,
        ),
        Opener::Function(_, _) => deeper(2, plus(2, lines), reach),
    }
}

/// How many nodes the body of a definition has above what it is made of.
fn form_nodes(form: Form) -> usize
    ensures { result ≡ form_nodes form }
{
    match form {
        Form::Short => 3,
        Form::Long => 1,
    }
}

/// A condition more, whose second branch is read next.
fn else_depth(condition: &Boxed<Node>, holds: &Boxed<Node>, reach: Reach) -> Reach
    ensures { (d : Depth) → reach ≡ reach_of d → result ≡ reach_of (frame_depth (Frame.Else condition.now holds.now) d) }
{
    let nesting = greater(condition.get().nesting, holds.get().nesting);
    deeper(1, plus(1, nesting), reach)
}

/// A branch before `elseif` more.
fn branch_depth(condition: &Boxed<Node>, lines: &Lines, reach: Reach) -> Reach
    ensures { (d : Depth) → reach ≡ reach_of d → result ≡ reach_of (frame_depth (Frame.Branch condition.now lines.now) d) }
{
    let nesting = greater(condition.get().nesting, lines.nesting);
    deeper(1, plus(1, nesting), reach)
}

/// A frame more.
pub fn frame_depth(frame: &Frame, reach: Reach) -> Reach
    ensures { (d : Depth) → reach ≡ reach_of d → result ≡ reach_of (frame_depth frame.now d) }
{
    match frame {
        Frame::Prefix(_) | Frame::Group(_, _) | Frame::FunctionName | Frame::Payload(_, _) => {
            deeper(1, 0, reach)
        }
        Frame::Infix(_, left, operator) => {
            let height = infix_height(operator.sign);
            deeper(height, plus(height, left.nesting), reach)
        }
        Frame::Then(c) => deeper(1, plus(1, c.nesting), reach),
        Frame::Else(c, first) => else_depth(c, first, reach),
        Frame::Call(_, given) => deeper(1, plus(1, given_nesting(given)), reach),
        Frame::Signature(form, _, _) => deeper(form_nodes(*form), 0, reach),
        Frame::TypeOf(_, _)
        | Frame::Parent(_)
        | Frame::Fields(_, _, _, _)
        | Frame::DirectiveFun
        | Frame::Types(_, _) => reach,
        Frame::Hole(purpose) => purpose_depth(purpose, reach),
        Frame::Block(opener, lines) => opener_depth(opener, lines.nesting, reach),
        Frame::Branch(c, lines) => branch_depth(c, lines, reach),
        Frame::Items(_, entries) => deeper(0, entries.nesting, reach),
    }
}
