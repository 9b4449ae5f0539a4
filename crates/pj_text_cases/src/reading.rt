//! Files whose rows are tried.

use crate::damages::{headers, nesting, try_damage};
use crate::entries::try_entry;
use crate::fields::try_field;
use crate::files::{Package, parts};
use crate::images::{module_q, package};
use crate::items::items;
use crate::tally::Tally;
use crate::texts::{Form, try_fault, try_tree};
use crate::tokens::{try_line_end, try_no_text, try_shorter, try_token_fault, try_tokens};
use crate::trees::{try_numbers, try_outline};
use pj_base::release::kept;
use std::fs;

/// What each line of a file is.
#[derive(Clone, Copy)]
pub enum Lines {
    TokenFaults,
    NoTexts,
    LineEnds,
    Faults(Form),
    Fields,
    Trees,
    Entries,
}

/// What stands behind `>` and below it.
#[derive(Clone, Copy)]
pub enum Pairs {
    Tokens,
    Shorter,
    Trees(Form),
    Outlines,
}

/// What a whole file describes.
#[derive(Clone, Copy)]
pub enum Whole {
    Items,
    ModuleQ,
    Package,
}

/// Tries a line.
fn try_line(tally: &mut Tally<'_>, lines: Lines, line: &str) -> anyhow::Result<()> {
    match lines {
        Lines::TokenFaults => try_token_fault(tally, line),
        Lines::NoTexts => try_no_text(tally, line),
        Lines::LineEnds => try_line_end(tally, line),
        Lines::Faults(form) => try_fault(tally, form, line),
        Lines::Fields => try_field(tally, line),
        Lines::Trees => try_numbers(tally, line),
        Lines::Entries => try_entry(tally, line),
    }
}

/// Tries each line of a text that begins no group.
fn try_lines(tally: &mut Tally<'_>, lines: Lines, all: &str) -> anyhow::Result<()> {
    for line in all.lines() {
        if !line.starts_with("== ") {
            try_line(tally, lines, line)?;
        }
    }
    Ok(())
}

/// Tries the lines of a file.
pub fn read_lines(tally: &mut Tally<'_>, file: &str, lines: Lines) -> anyhow::Result<()> {
    let all = fs::read_to_string(tally.rt, file)?;
    let done = try_lines(tally, lines, all.as_str());
    kept(done, all)?;
    tally.end(file)
}

/// The text behind `>` with which a piece of a file begins, and what stands below it.
fn stated(piece: &str) -> (&str, &str) {
    let row = piece.split("\n== ").next().unwrap_or("");
    let (text, below) = row.split_once('\n').unwrap_or((row, ""));
    (
        text.strip_prefix(' ').unwrap_or(text),
        below.strip_suffix('\n').unwrap_or(below),
    )
}

/// Tries what stands behind `>` and below it.
fn try_pair(tally: &mut Tally<'_>, pairs: Pairs, text: &str, below: &str) -> anyhow::Result<()> {
    match pairs {
        Pairs::Tokens => try_tokens(tally, text, below),
        Pairs::Shorter => try_shorter(tally, text),
        Pairs::Trees(form) => try_tree(tally, form, text, below),
        Pairs::Outlines => try_outline(tally, text, below),
    }
}

/// Tries each `>` of a text.
fn try_pairs(tally: &mut Tally<'_>, pairs: Pairs, all: &str) -> anyhow::Result<()> {
    for piece in all.split("\n>").skip(1) {
        let (text, below) = stated(piece);
        try_pair(tally, pairs, text, below)?;
    }
    Ok(())
}

/// Tries each `>` of a file.
pub fn read_pairs(tally: &mut Tally<'_>, file: &str, pairs: Pairs) -> anyhow::Result<()> {
    let all = fs::read_to_string(tally.rt, file)?;
    let done = try_pairs(tally, pairs, all.as_str());
    kept(done, all)?;
    tally.end(file)
}

/// Tries what a text describes.
fn try_whole(tally: &mut Tally<'_>, whole: Whole, all: &str) -> anyhow::Result<()> {
    match whole {
        Whole::Items => items(tally, all),
        Whole::ModuleQ => module_q(tally, all),
        Whole::Package => package(tally, all),
    }
}

/// Tries what a file describes.
pub fn read_whole(tally: &mut Tally<'_>, file: &str, whole: Whole) -> anyhow::Result<()> {
    let all = fs::read_to_string(tally.rt, file)?;
    let done = try_whole(tally, whole, all.as_str());
    kept(done, all)?;
    tally.end(file)
}

/// Tries each damage of a text, done to a package.
fn try_damages(tally: &mut Tally<'_>, package: Package<'_>, all: &str) -> anyhow::Result<()> {
    for line in all.lines() {
        if !line.starts_with("== ") && !line.starts_with('#') {
            try_damage(tally, package, line)?;
        }
    }
    Ok(())
}

/// Tries the damages that a file lists, done to a package.
fn damages(tally: &mut Tally<'_>, package: Package<'_>, file: &str) -> anyhow::Result<()> {
    let all = fs::read_to_string(tally.rt, file)?;
    let done = try_damages(tally, package, all.as_str());
    kept(done, all)?;
    tally.end(file)
}

/// Tries what is done to a package that a text describes.
fn try_done(tally: &mut Tally<'_>, all: &str, list: &str) -> anyhow::Result<()> {
    let (package, _) = parts(all)?;
    damages(tally, package, list)?;
    headers(tally, package)?;
    nesting(tally, package)
}

/// Tries what is done to a package that a file describes.
pub fn read_package(tally: &mut Tally<'_>, file: &str, list: &str) -> anyhow::Result<()> {
    let all = fs::read_to_string(tally.rt, file)?;
    let done = try_done(tally, all.as_str(), list);
    kept(done, all)
}
