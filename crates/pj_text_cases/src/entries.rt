//! What entries name over Base and an image with one function.

use crate::tally::Tally;
use anyhow::anyhow;
use pj_base::{KFun, KTree, KType, Kind, KindTag, NoMemory};
use pj_case_lines::halves;
use pj_reloc::{Counts, DepTable, Entry, resolve};
use sqlite_items::Items;
use std::alloc::Global;

/// Base's counts, and those of an image with one function.
fn table(alloc: Global) -> Result<DepTable, NoMemory> {
    let base = Counts {
        image: 0,
        types: 11,
        funs: 18,
        methods: 26,
        bindings: 0,
        objects: 0,
        records: 0,
        trees: 0,
    };
    let own = Counts {
        image: 3,
        types: 0,
        funs: 1,
        methods: 1,
        bindings: 1,
        objects: 0,
        records: 0,
        trees: 1,
    };
    let mut images = Items::new(alloc);
    images.push(base)?;
    images.push(own)?;
    Ok(DepTable { images })
}

/// Of the asked kind, what an entry names, as the image's number and the ordinal.
fn named<K: Kind>(alloc: Global, entry: &Entry) -> anyhow::Result<String> {
    match resolve::<K>(entry, &table(alloc)?) {
        Some(target) => Ok(format!(in alloc; "{} {}", target.image, target.ordinal)?),
        None => Ok(String::from_str(alloc, "none")?),
    }
}

/// The entry of three words: the number of its kind, its dependency and its ordinal; and what stands behind them.
fn entry_of(words: &str) -> anyhow::Result<(Entry, &str)> {
    let (kind, rest) = halves(words);
    let (dependency, rest) = halves(rest);
    let (ordinal, rest) = halves(rest);
    let Some(kind) = KindTag::of_number(kind.parse::<u32>()?) else {
        return Err(anyhow!("no kind"));
    };
    let entry = Entry {
        place: 0,
        kind,
        dependency: dependency.parse::<u32>()?,
        ordinal: ordinal.parse::<u32>()?,
    };
    Ok((entry, rest))
}

/// What an entry names of the asked kind.
fn named_as(alloc: Global, asked: &str, entry: &Entry) -> anyhow::Result<String> {
    match asked {
        "type" => named::<KType>(alloc, entry),
        "fun" => named::<KFun>(alloc, entry),
        _ => named::<KTree>(alloc, entry),
    }
}

/// Tries an entry.
pub fn try_entry(tally: &mut Tally<'_>, line: &str) -> anyhow::Result<()> {
    let (asked, rest) = halves(line);
    let (entry, wanted) = entry_of(rest)?;
    let found = named_as(tally.alloc(), asked, &entry)?;
    tally.expect(line, wanted, found.as_str())
}
