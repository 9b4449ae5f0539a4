//! Methods, and the entries of their mentions.

ghost use Rattle.std.specs.Prelude.{◌≡◌, ◌+◌, ◌*◌, ◌∷◌, [], ◌++◌, ℕ, List, OnOk, IfOk, length};
ghost use Rattle.pj_image.specs.Mentions.{count_from};
ghost use Rattle.pj_build.specs.Own.{count_in, counts_in};
ghost use Rattle.pj_build.specs.Wired.{Wires, Continues};
ghost use Rattle.pj_build.specs.Wiring.{entry_at, int_entries, all_methods, all_entries};

use pj_base::{KindTag, NoMemory};
use pj_parts::Method;
use pj_reloc::Entry;
use pj_session::own::Own;
use sqlite_items::Items;
use std::alloc::Global;

/// The methods so far, the entries of their mentions, and where in the file stands what comes next.
#[derive(Drop)]
pub struct Wiring {
    pub methods: Items<Method>,
    pub entries: Items<Entry>,
    pub at: u32,
}

/// The number of the next mention, which gets an entry. What comes next stands behind the mention.
fn mention(w: &mut Wiring, kind: KindTag, dependency: u32, ordinal: u32) -> Result<u32, NoMemory>
    ensures number { IfOk result (λ n. n ≡ length w.old.entries) }
    ensures entries { OnOk result (w.new.entries ≡ w.old.entries ++ entry_at w.old.at kind dependency ordinal ∷ []) }
    ensures at { OnOk result (w.new.at ≡ w.old.at + 4) }
    ensures methods { w.new.methods ≡ w.old.methods }
{
    let Ok(number) = u32::try_from(w.entries.len()) else {
        return Err(NoMemory);
    };
    let place = w.at;
    let Some(behind) = place.checked_add(4) else {
        return Err(NoMemory);
    };
    w.entries.push(Entry {
        place,
        kind,
        dependency,
        ordinal,
    })?;
    w.at = behind;
    Ok(number)
}

/// What comes next stands four bytes later.
fn skip(w: &mut Wiring) -> Result<(), NoMemory>
    ensures at { OnOk result (w.new.at ≡ w.old.at + 4) }
    ensures entries { w.new.entries ≡ w.old.entries }
    ensures methods { w.new.methods ≡ w.old.methods }
{
    let Some(behind) = w.at.checked_add(4) else {
        return Err(NoMemory);
    };
    w.at = behind;
    Ok(())
}

/// Mentions of Int64, so many.
#[tactic(auto, using(crate::proofs::Wires::one_by_one))]
fn types(alloc: Global, w: &mut Wiring, count: usize) -> Result<Items<u32>, NoMemory>
    ensures numbers { IfOk result (λ ts. ts ≡ count_from (length w.old.entries) count) }
    ensures entries { OnOk result (w.new.entries ≡ w.old.entries ++ int_entries w.old.at count) }
    ensures at { OnOk result (w.new.at ≡ w.old.at + 4 * count) }
    ensures methods { w.new.methods ≡ w.old.methods }
{
    let mut types = Items::new(alloc);
    for _turn in 0..count {
        types.push(mention(w, KindTag::TypeKind, 0, 5)?)?;
    }
    Ok(types)
}

/// One more method, of so many parameters, which belongs to the function of the same number.
fn method(alloc: Global, w: &mut Wiring, count: usize) -> Result<(), NoMemory>
    ensures { OnOk result (Wires w.old count w.new) }
{
    let Ok(ordinal) = u32::try_from(w.methods.len()) else {
        return Err(NoMemory);
    };
    let fun = mention(w, KindTag::FunKind, 1, ordinal)?;
    skip(w)?;
    let types = types(alloc, w, count)?;
    skip(w)?;
    w.methods.push(Method {
        fun,
        types,
        body: ordinal,
    })?;
    Ok(())
}

/// One more method, if the thing is a function.
#[tactic(auto, using(crate::proofs::Wires::wires))]
fn wire(alloc: Global, w: &mut Wiring, thing: &Own) -> Result<(), NoMemory>
    ensures { OnOk result (Continues w.old (count_in thing.now) w.new) }
{
    match thing {
        Own::Function(d) => method(alloc, w, d.params.len()),
        Own::Constant(_) => Ok(()),
    }
}

/// The methods of all functions in order, where the first stands at this place of the file, with the entries of their
/// mentions.
#[tactic(auto, using(crate::proofs::Wires::wires))]
pub fn wired(alloc: Global, place: u32, things: &[Own]) -> Result<Wiring, NoMemory>
    ensures methods { IfOk result (λ w. w.methods ≡ all_methods 0 0 (counts_in things.now)) }
    ensures entries { IfOk result (λ w. w.entries ≡ all_entries place 0 (counts_in things.now)) }
{
    let mut w = Wiring {
        methods: Items::new(alloc),
        entries: Items::new(alloc),
        at: place,
    };
    for thing in things {
        wire(alloc, &mut w, thing)?;
    }
    Ok(w)
}
