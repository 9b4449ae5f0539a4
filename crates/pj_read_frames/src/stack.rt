//! The stack of what is begun and not ended: innermost last in memory, and innermost first in contracts. Each layer keeps what the
//! frames up to it add, which is `depth` of specs/Need of pj_grammar. The proofs are proofs/stack and the lemmas of proofs/Stacking.
ghost use Rattle.std.specs.Prelude.{◌≡◌, ◌∷◌, [], MatchOption, OnOk};
ghost use Rattle.pj_grammar.specs.Need.{depth};
ghost use Rattle.pj_read_frames.specs.Stacked.{frames_of, reach_of};

use crate::depth::{Reach, frame_depth};
use pj_base::NoMemory;
use pj_grammar::Frame;
use sqlite_items::Items;
use std::alloc::Global;
use std::marker::Model;

/// A frame, and what all frames up to it add.
#[derive(Drop)]
pub struct Layer {
    pub frame: Frame,
    pub reach: Reach,
}

/// The frames of the machine. Contracts see them as a list, the innermost first.
#[derive(Drop)]
pub struct Stack {
    layers: Items<Layer>,
}

impl Model for Stack {
    ghost use Rattle.std.specs.Prelude.{◌≡◌, true, List};
    ghost use Rattle.pj_grammar.specs.declared.frame.Frame.{Frame};

    ghost Value = { List Frame };

    ghost use Rattle.pj_syntax.specs.contracts.expression.Expr as e;
    ghost use Rattle.pj_syntax.specs.contracts.statement.Stmt as s;
    ghost use Rattle.std.specs.Coded.{codes};

    ghost coded = { Prim.hlevel (codes, e.the_row.coded, s.the_row.coded) };

    ghost use Rattle.pj_read_frames.specs.Stacked.{frames_of, keeps};

    ghost view = { λ a. frames_of a.layers };

    ghost invariant = { λ a. keeps a.layers ≡ true };
}

/// The innermost of some frames, and those below it.
#[tactic(auto, using(crate::proofs::Stacking::innermost_last))]
pub fn split_top(layers: &[Layer]) -> Option<(&Frame, &[Layer])>
    ensures { MatchOption result (frames_of layers.now ≡ []) (λ p. frames_of layers.now ≡ p.0.now ∷ frames_of p.1.now) }
{
    match layers.split_last() {
        Some((last, below)) => Some((&last.frame, below)),
        None => None,
    }
}

impl Stack {
    /// No frames.
    pub fn new(alloc: Global) -> Stack
        ensures { result ≡ [] }
    {
        Stack {
            layers: Items::new(alloc),
        }
    }

    /// The frames, the innermost last.
    pub fn layers(&self) -> &[Layer]
        ensures { frames_of result.now ≡ self.now }
    {
        self.layers.as_slice()
    }

    /// What all frames add.
    pub fn reach(&self) -> Reach
        ensures { result ≡ reach_of (depth self.now) }
    {
        match self.layers.as_slice().split_last() {
            Some((last, _)) => last.reach,
            None => Reach { above: 0, read: 0 },
        }
    }

    /// Begins a frame.
    #[tactic(auto, using(crate::proofs::Stacking::innermost_last, crate::proofs::Stacking::more_keeps))]
    pub fn push(&mut self, frame: Frame) -> Result<(), NoMemory>
        ensures { OnOk result (self.new ≡ frame ∷ self.old) }
    {
        let reach = frame_depth(&frame, self.reach());
        self.layers.push(Layer { frame, reach })?;
        Ok(())
    }

    /// Ends the innermost frame.
    #[tactic(auto, using(crate::proofs::Stacking::innermost_last, crate::proofs::Stacking::fewer_keep))]
    pub fn pop(&mut self) -> Option<Frame>
        ensures { MatchOption result ((self.old ≡ []) × (self.new ≡ [])) (λ f. self.old ≡ f ∷ self.new) }
    {
        let layer = self.layers.pop()?;
        let Layer { frame, reach: _ } = layer;
        Some(frame)
    }
}
