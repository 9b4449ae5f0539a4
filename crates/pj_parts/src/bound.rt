//! Values, and the names that a package binds to them.

ghost use Rattle.std.specs.Prelude.{◌≡◌, ◌++◌, OnOk, length};
ghost use Rattle.pj_fields.specs.Fields.{number, int, int_at, list};
ghost use Rattle.pj_parts.specs.Capped.{capped};
ghost use Rattle.pj_parts.specs.Given.{Gives};
ghost use Rattle.pj_parts.specs.Spelling.{value};

use crate::fault::PartFault;
use crate::part::Part;
use crate::types::{Binding, BindingForm, Value};
use pj_base::{ByteList, NoMemory};
use pj_fields::{put_int, put_number, take_int};
use std::alloc::Global;

impl Part for BindingForm {
    ghost use Rattle.std.specs.Prelude.{⊤};
    ghost use Rattle.pj_parts.specs.Reading.{binding_form_at};
    ghost use Rattle.pj_parts.specs.Spelling.{binding_form};

    ghost bytes = { binding_form };

    ghost fits = { λ form. ⊤ };

    ghost at = { binding_form_at };

    fn put(&self, _alloc: Global, out: &mut ByteList) -> Result<(), NoMemory> {
        match self {
            BindingForm::Const => put_number(0, out),
            BindingForm::Global => put_number(1, out),
        }
    }

    #[tactic(auto, unfolding(crate::specs::Reading::binding_form_at))]
    fn take(alloc: Global, source: &[u8]) -> Result<(BindingForm, &[u8]), PartFault> {
        let (tag, rest) = u32::take(alloc, source)?;
        match tag {
            0 => Ok((BindingForm::Const, rest)),
            1 => Ok((BindingForm::Global, rest)),
            _ => Err(PartFault::Bad),
        }
    }

    #[tactic(auto, using(crate::proofs::Forms::forms))]
    fn size(&self) -> u64 {
        4
    }
}

/// How many bytes a value has, or the greatest u64 where that is less.
#[cycle(values)]
#[tactic(auto, using(crate::proofs::Values::value_sizes))]
fn value_size(of: &Value) -> u64
    ensures { result ≡ capped (length (value of.now)) }
{
    match of {
        Value::Nothing | Value::False | Value::True => 4,
        Value::Int(_) => 12,
        Value::Str(_) | Value::Fun(_) | Value::Object(_) => 8,
        Value::Struct(_, fields) => values_size(fields.as_slice()).saturating_add(8),
    }
}

/// How many bytes a list of values has, or the greatest u64 where that is less.
#[cycle(values)]
#[tactic(auto, using(crate::proofs::Sizes::sizes))]
fn values_size(all: &[Value]) -> u64
    ensures { result ≡ capped (length (list value all.now)) }
{
    let mut total: u64 = 4;
    for of in all {
        total = total.saturating_add(value_size(of));
    }
    total
}

/// An integer. A value that fits is one.
fn put_integer(of: i64, out: &mut ByteList) -> Result<(), NoMemory>
    ensures { OnOk result (out.new ≡ out.old ++ (number 3 ++ int of)) }
{
    put_number(3, out)?;
    put_int(of, out)
}

/// The integer at the front, and the bytes after it.
fn take_integer(source: &[u8]) -> Result<(i64, &[u8]), PartFault>
    ensures { Gives (λ x. (x.0, x.1.now)) result (int_at source.now) }
{
    match take_int(source) {
        Some(found) => Ok(found),
        None => Err(PartFault::Bad),
    }
}

impl Part for Value {
    ghost use Rattle.pj_parts.specs.Fits.{ValueFits};
    ghost use Rattle.pj_parts.specs.Reading.{value_at};
    ghost use Rattle.pj_parts.specs.Spelling.{value};

    ghost bytes = { value };

    ghost fits = { ValueFits };

    ghost at = { value_at };

    #[tactic(auto, using(crate::proofs::Values::value_spelling))]
    fn put(&self, _alloc: Global, out: &mut ByteList) -> Result<(), NoMemory> {
        match self {
            Value::Int(of) => put_integer(*of, out),
            Value::Nothing => Ok(()),
            Value::False => Ok(()),
            Value::True => Ok(()),
            Value::Str(_) => Ok(()),
            Value::Fun(_) => Ok(()),
            Value::Object(_) => Ok(()),
            Value::Struct(_, _) => Ok(()),
        }
    }

    #[tactic(auto, unfolding(crate::specs::Reading::value_at))]
    fn take(alloc: Global, source: &[u8]) -> Result<(Value, &[u8]), PartFault> {
        let (tag, rest) = u32::take(alloc, source)?;
        match tag {
            3 => {
                let (of, rest) = take_integer(rest)?;
                Ok((Value::Int(of), rest))
            }
            _ => Err(PartFault::Bad),
        }
    }

    fn size(&self) -> u64 {
        value_size(self)
    }
}

impl Part for Binding {
    ghost use Rattle.pj_parts.specs.Fits.{BindingFits};
    ghost use Rattle.pj_parts.specs.Reading.{binding_at};
    ghost use Rattle.pj_parts.specs.Spelling.{binding};

    ghost bytes = { binding };

    ghost fits = { BindingFits };

    ghost at = { binding_at };

    #[tactic(auto, using(crate::proofs::Joined::joined))]
    fn put(&self, alloc: Global, out: &mut ByteList) -> Result<(), NoMemory> {
        self.name.put(alloc, out)?;
        self.form.put(alloc, out)?;
        self.value.put(alloc, out)
    }

    #[tactic(auto, unfolding(crate::specs::Reading::binding_at))]
    fn take(alloc: Global, source: &[u8]) -> Result<(Binding, &[u8]), PartFault> {
        let (name, rest) = u32::take(alloc, source)?;
        let (form, rest) = BindingForm::take(alloc, rest)?;
        let (value, rest) = Value::take(alloc, rest)?;
        Ok((Binding { name, form, value }, rest))
    }

    #[tactic(auto, using(crate::proofs::Sizes::sizes))]
    fn size(&self) -> u64 {
        self.form
            .size()
            .saturating_add(self.value.size())
            .saturating_add(4)
    }
}
