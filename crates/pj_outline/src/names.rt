//! Names, numbers and whole lines.

ghost use Rattle.std.specs.Prelude.{◌≡◌, ◌++◌, suc, IfOk, OnOk, codes};
ghost use Rattle.std.specs.Fmt.{decimal, signed_decimal};
ghost use Rattle.pj_meaning.specs.Printing.{escaped};
ghost use Rattle.pj_outline.specs.Outline.{margin, name, pointed, owned_name, behind_blank, plain, named, owned, integer, quoted};

use pj_base::{ByteList, NoMemory, Text};
use pj_tree::Sym;
use std::alloc::Global;

/// The level below a level. One that no number tells would be wider than memory.
pub fn deeper(level: usize) -> Result<usize, NoMemory>
    ensures { IfOk result (λ below. below ≡ suc level) }
{
    level.checked_add(1).ok_or(NoMemory)
}

/// Adds a text.
pub fn put(text: &str, out: &mut ByteList) -> Result<(), NoMemory>
    ensures { OnOk result (out.new ≡ out.old ++ text.now) }
{
    out.extend(text.as_bytes())
}

/// Adds two blanks for each level.
#[tactic(auto, unfolding(crate::specs::Outline::margin))]
pub fn put_margin(level: usize, out: &mut ByteList) -> Result<(), NoMemory>
    ensures { OnOk result (out.new ≡ out.old ++ margin level) }
{
    for _each in 0..level {
        put("  ", out)?;
    }
    Ok(())
}

/// Adds the decimal digits of a number.
pub fn put_decimal(alloc: Global, number: u32, out: &mut ByteList) -> Result<(), NoMemory>
    ensures { OnOk result (out.new ≡ out.old ++ decimal number) }
{
    let digits = number.to_string(alloc)?;
    put(digits.as_str(), out)
}

/// Adds a name as it is spelled, or its number where there is no such string.
#[tactic(auto, using(crate::proofs::Texts::appended), unfolding(crate::specs::Outline::name))]
pub fn put_name(
    alloc: Global,
    strings: &[Text],
    sym: &Sym,
    out: &mut ByteList,
) -> Result<(), NoMemory>
    ensures { OnOk result (out.new ≡ out.old ++ name strings.now sym.now) }
{
    match sym {
        Sym::Text(text) => put(text.as_str(), out),
        Sym::Number(number) => match strings.get(*number as usize) {
            Some(text) => put(text.as_str(), out),
            None => {
                put("#", out)?;
                put_decimal(alloc, *number, out)
            }
        },
    }
}

/// Adds a line of a word alone.
#[tactic(auto, using(crate::proofs::Texts::appended), unfolding(crate::specs::Outline::plain))]
pub fn put_plain(level: usize, word: &str, out: &mut ByteList) -> Result<(), NoMemory>
    ensures { OnOk result (out.new ≡ out.old ++ plain level word.now) }
{
    put_margin(level, out)?;
    put(word, out)?;
    put("\n", out)
}

/// Adds a line of a word and a name.
#[tactic(auto, using(crate::proofs::Texts::appended), unfolding(crate::specs::Outline::named))]
pub fn put_named(
    alloc: Global,
    strings: &[Text],
    level: usize,
    word: &str,
    sym: &Sym,
    out: &mut ByteList,
) -> Result<(), NoMemory>
    ensures { OnOk result (out.new ≡ out.old ++ named strings.now level word.now sym.now) }
{
    put_margin(level, out)?;
    put(word, out)?;
    put(" ", out)?;
    put_name(alloc, strings, sym, out)?;
    put("\n", out)
}

/// Adds the line of an integer.
#[tactic(auto, using(crate::proofs::Texts::appended), unfolding(crate::specs::Outline::integer))]
pub fn put_integer(
    alloc: Global,
    level: usize,
    value: i64,
    out: &mut ByteList,
) -> Result<(), NoMemory>
    ensures { OnOk result (out.new ≡ out.old ++ integer level value) }
{
    let digits = value.to_string(alloc)?;
    put_margin(level, out)?;
    put("Int ", out)?;
    put(digits.as_str(), out)?;
    put("\n", out)
}

/// Adds the line that names a tree by its number.
#[tactic(auto, using(crate::proofs::Texts::appended), unfolding(crate::specs::Outline::plain))]
pub fn put_tree_number(
    alloc: Global,
    level: usize,
    number: u32,
    out: &mut ByteList,
) -> Result<(), NoMemory>
    ensures { OnOk result (out.new ≡ out.old ++ plain level (codes "tree " ++ decimal number)) }
{
    put_margin(level, out)?;
    put("tree ", out)?;
    put_decimal(alloc, number, out)?;
    put("\n", out)
}
