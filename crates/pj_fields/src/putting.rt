ghost use Rattle.std.specs.Prelude.{◌≡◌, ◌++◌, OnOk, OnErr};
ghost use Rattle.pj_fields.specs.Fields.{number, int};

use pj_base::{ByteList, NoMemory};

/// Adds a number at the end. Without memory nothing changes.
#[tactic(auto, unfolding(crate::specs::Fields::number))]
pub fn put_number(value: u32, out: &mut ByteList) -> Result<(), NoMemory>
    ensures put { OnOk result (out.new ≡ out.old ++ number value) }
    ensures unchanged { OnErr result (out.new ≡ out.old) }
{
    out.extend(&value.to_le_bytes())
}

/// Adds an integer at the end. Without memory nothing changes.
#[tactic(auto, unfolding(crate::specs::Fields::int))]
pub fn put_int(value: i64, out: &mut ByteList) -> Result<(), NoMemory>
    ensures put { OnOk result (out.new ≡ out.old ++ int value) }
    ensures unchanged { OnErr result (out.new ≡ out.old) }
{
    out.extend(&value.to_le_bytes())
}
