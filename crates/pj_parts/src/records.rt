//! Records of compiled code.

ghost use Rattle.std.specs.Prelude.{◌≡◌, ◌++◌, OnOk, length};
ghost use Rattle.pj_parts.specs.Capped.{capped};
ghost use Rattle.pj_fields.specs.Fields.{list, number};
ghost use Rattle.pj_parts.specs.Fits.{EdgeFits, ListFits, NumberFits};
ghost use Rattle.pj_parts.specs.Given.{Gives};
ghost use Rattle.pj_parts.specs.Spelling.{edge};

use crate::fault::PartFault;
use crate::part::Part;
use crate::types::{CodeRecord, CodeWord, Edge, Element, Outcome};
use pj_base::{ByteList, NoMemory};
use pj_fields::put_number;
use std::alloc::Global;

impl Part for Element {
    ghost use Rattle.pj_parts.specs.Fits.{ElementFits};
    ghost use Rattle.pj_parts.specs.Reading.{nothing_at};
    ghost use Rattle.pj_parts.specs.Spelling.{element};

    ghost bytes = { element };

    ghost fits = { ElementFits };

    ghost at = { nothing_at };

    #[tactic(auto, using(crate::proofs::Joined::joined))]
    fn put(&self, alloc: Global, out: &mut ByteList) -> Result<(), NoMemory> {
        match self {
            Element::Bottom => put_number(0, out),
            Element::OneOf(types) => {
                put_number(1, out)?;
                types.put(alloc, out)
            }
            Element::Below(above) => {
                put_number(2, out)?;
                put_number(*above, out)
            }
            Element::Any => put_number(3, out),
        }
    }

    #[tactic(auto, unfolding(crate::specs::Reading::nothing_at))]
    fn take(_alloc: Global, _source: &[u8]) -> Result<(Element, &[u8]), PartFault> {
        Err(PartFault::Bad)
    }

    #[tactic(auto, using(crate::proofs::Forms::forms))]
    fn size(&self) -> u64 {
        match self {
            Element::Bottom | Element::Any => 4,
            Element::OneOf(types) => types.size().saturating_add(4),
            Element::Below(_) => 8,
        }
    }
}

impl Part for Outcome {
    ghost use Rattle.std.specs.Prelude.{⊤};
    ghost use Rattle.pj_parts.specs.Reading.{nothing_at};
    ghost use Rattle.pj_parts.specs.Spelling.{outcome};

    ghost bytes = { outcome };

    ghost fits = { λ o. ⊤ };

    ghost at = { nothing_at };

    #[tactic(auto, using(crate::proofs::Joined::joined))]
    fn put(&self, _alloc: Global, out: &mut ByteList) -> Result<(), NoMemory> {
        match self {
            Outcome::One(method) => {
                put_number(0, out)?;
                put_number(*method, out)
            }
            Outcome::NoneMatch => put_number(1, out),
            Outcome::Ambiguous => put_number(2, out),
        }
    }

    #[tactic(auto, unfolding(crate::specs::Reading::nothing_at))]
    fn take(_alloc: Global, _source: &[u8]) -> Result<(Outcome, &[u8]), PartFault> {
        Err(PartFault::Bad)
    }

    #[tactic(auto, using(crate::proofs::Forms::forms))]
    fn size(&self) -> u64 {
        match self {
            Outcome::One(_) => 8,
            Outcome::NoneMatch | Outcome::Ambiguous => 4,
        }
    }
}

impl Part for Edge {
    ghost use Rattle.pj_parts.specs.Fits.{EdgeFits};
    ghost use Rattle.pj_parts.specs.Reading.{nothing_at};
    ghost use Rattle.pj_parts.specs.Spelling.{edge};

    ghost bytes = { edge };

    ghost fits = { EdgeFits };

    ghost at = { nothing_at };

    #[tactic(auto, using(crate::proofs::Joined::joined))]
    fn put(&self, alloc: Global, out: &mut ByteList) -> Result<(), NoMemory> {
        match self {
            Edge::Call {
                fun,
                types,
                outcome,
            } => {
                put_number(0, out)?;
                put_number(*fun, out)?;
                types.put(alloc, out)?;
                outcome.put(alloc, out)
            }
            Edge::Meets {
                fun,
                elements,
                methods,
            } => {
                put_number(1, out)?;
                put_number(*fun, out)?;
                elements.put(alloc, out)?;
                methods.put(alloc, out)
            }
        }
    }

    #[tactic(auto, unfolding(crate::specs::Reading::nothing_at))]
    fn take(_alloc: Global, _source: &[u8]) -> Result<(Edge, &[u8]), PartFault> {
        Err(PartFault::Bad)
    }

    #[tactic(auto, using(crate::proofs::Forms::forms))]
    fn size(&self) -> u64 {
        match self {
            Edge::Call { types, outcome, .. } => types
                .size()
                .saturating_add(outcome.size())
                .saturating_add(8),
            Edge::Meets {
                elements,
                methods,
                ..
            } => {
                elements
                    .size()
                    .saturating_add(methods.size())
                    .saturating_add(8)
            }
        }
    }
}

/// Adds what a record has behind its elements.
#[tactic(auto, using(crate::proofs::Joined::joined))]
fn put_rest(alloc: Global, code: &CodeRecord, out: &mut ByteList) -> Result<(), NoMemory>
    requires edges { ListFits EdgeFits code.now.edges }
    requires links { ListFits NumberFits code.now.links }
    ensures { OnOk result (out.new ≡ out.old ++ (list edge code.now.edges ++ (list number code.now.links ++ (number code.now.registers ++ number code.now.instructions)))) }
{
    code.edges.put(alloc, out)?;
    code.links.put(alloc, out)?;
    put_number(code.registers, out)?;
    put_number(code.instructions, out)
}

impl Part for CodeRecord {
    ghost use Rattle.pj_parts.specs.Fits.{CodeRecordFits};
    ghost use Rattle.pj_parts.specs.Reading.{nothing_at};
    ghost use Rattle.pj_parts.specs.Spelling.{code_record};

    ghost bytes = { code_record };

    ghost fits = { CodeRecordFits };

    ghost at = { nothing_at };

    #[tactic(auto, using(crate::proofs::Joined::joined))]
    fn put(&self, alloc: Global, out: &mut ByteList) -> Result<(), NoMemory> {
        put_number(self.method, out)?;
        self.params.put(alloc, out)?;
        self.outcome.put(alloc, out)?;
        put_rest(alloc, self, out)
    }

    #[tactic(auto, unfolding(crate::specs::Reading::nothing_at))]
    fn take(_alloc: Global, _source: &[u8]) -> Result<(CodeRecord, &[u8]), PartFault> {
        Err(PartFault::Bad)
    }

    #[tactic(auto, using(crate::proofs::Sizes::sizes))]
    fn size(&self) -> u64 {
        let elements = self.params.size().saturating_add(self.outcome.size());
        let tied = self.edges.size().saturating_add(self.links.size());
        elements.saturating_add(tied).saturating_add(12)
    }
}

impl Part for CodeWord {
    ghost use Rattle.std.specs.Prelude.{⊤};
    ghost use Rattle.pj_parts.specs.Reading.{nothing_at};
    ghost use Rattle.pj_parts.specs.Spelling.{code_word};

    ghost bytes = { code_word };

    ghost fits = { λ w. ⊤ };

    ghost at = { nothing_at };

    #[tactic(auto, using(crate::proofs::Joined::joined))]
    fn put(&self, _alloc: Global, out: &mut ByteList) -> Result<(), NoMemory> {
        put_number(self.0, out)
    }

    #[tactic(auto, unfolding(crate::specs::Reading::nothing_at))]
    fn take(_alloc: Global, _source: &[u8]) -> Result<(CodeWord, &[u8]), PartFault> {
        Err(PartFault::Bad)
    }

    #[tactic(auto, using(crate::proofs::Sizes::sizes))]
    fn size(&self) -> u64 {
        4
    }
}
