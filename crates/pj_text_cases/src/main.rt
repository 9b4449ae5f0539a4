//! Reads the rows of files on tokens, trees, texts and image files, tries them, and tells which of them came out otherwise.
#![tactic(auto)]

mod damages;
mod entries;
mod fields;
mod files;
mod images;
mod items;
mod limits;
mod reading;
mod tally;
mod texts;
mod tokens;
mod trees;

use crate::limits::{counts, depths, names};
use crate::reading::{Lines, Pairs, Whole, read_lines, read_package, read_pairs, read_whole};
use crate::tally::Tally;
use crate::texts::{Form, made};
use crate::tokens::long_names;
use anyhow::anyhow;

/// Tokens and their faults.
fn try_tokens(tally: &mut Tally<'_>) -> anyhow::Result<()> {
    read_pairs(tally, "tokens.txt", Pairs::Tokens)?;
    read_pairs(tally, "tokens.txt", Pairs::Shorter)?;
    read_lines(tally, "token-faults.txt", Lines::TokenFaults)?;
    read_lines(tally, "no-texts.txt", Lines::NoTexts)?;
    read_lines(tally, "line-ends.txt", Lines::LineEnds)?;
    long_names(tally)
}

/// Texts with their faults and trees.
fn try_texts(tally: &mut Tally<'_>) -> anyhow::Result<()> {
    read_lines(tally, "faults.txt", Lines::Faults(Form::Script))?;
    read_lines(tally, "package-faults.txt", Lines::Faults(Form::Package))?;
    read_pairs(tally, "trees.txt", Pairs::Trees(Form::Script))?;
    read_pairs(tally, "package-trees.txt", Pairs::Trees(Form::Package))
}

/// Texts at the limits of the language.
fn try_limits(tally: &mut Tally<'_>) -> anyhow::Result<()> {
    let alloc = tally.alloc();
    made(tally, "depths", depths(alloc)?.as_slice())?;
    made(tally, "counts", counts(alloc)?.as_slice())?;
    made(tally, "names", names(alloc)?.as_slice())
}

/// Fields, the bytes of trees, and trees as texts.
fn try_trees(tally: &mut Tally<'_>) -> anyhow::Result<()> {
    read_lines(tally, "fields.txt", Lines::Fields)?;
    read_lines(tally, "tree-numbers.txt", Lines::Trees)?;
    read_pairs(tally, "outlines.txt", Pairs::Outlines)?;
    read_whole(tally, "items.txt", Whole::Items)
}

/// Files of images.
fn try_images(tally: &mut Tally<'_>) -> anyhow::Result<()> {
    read_whole(tally, "module-q.txt", Whole::ModuleQ)?;
    read_whole(tally, "package.txt", Whole::Package)?;
    read_package(tally, "package.txt", "damages.txt")?;
    read_lines(tally, "entries.txt", Lines::Entries)
}

/// Tries all rows.
fn try_all(tally: &mut Tally<'_>) -> anyhow::Result<()> {
    try_tokens(tally)?;
    try_texts(tally)?;
    try_limits(tally)?;
    try_trees(tally)?;
    try_images(tally)
}

fn main(rt: HostRuntime) -> anyhow::Result<()> {
    let mut tally = Tally::new(&rt);
    try_all(&mut tally)?;
    let (rows, wrong) = (tally.rows, tally.wrong);
    println!(rt; "{rows} rows, {wrong} wrong")?;
    if wrong > 0 {
        return Err(anyhow!("a row is wrong"));
    }
    Ok(())
}
