//! Texts of the whole language, with their faults or trees.

use crate::limits::Case;
use crate::tally::Tally;
use anyhow::anyhow;
use pj_base::ByteList;
use pj_base::release::kept;
use pj_case_lines::{halves, unescaped};
use pj_lex::SyntaxFault;
use pj_outline::{outline_package, outline_script};
use pj_parse::{package, script};
use std::alloc::Global;

/// What a text is read as.
#[derive(Clone, Copy)]
pub enum Form {
    Script,
    Package,
}

/// The outline of a text, or its fault. A package is asked for as `P`.
fn read(alloc: Global, form: Form, text: &str) -> anyhow::Result<Result<ByteList, SyntaxFault>> {
    match form {
        Form::Script => match script(alloc, text.as_bytes()) {
            Ok(tree) => Ok(Ok(kept(outline_script(alloc, &[], &tree), tree)?)),
            Err(fault) => Ok(Err(fault)),
        },
        Form::Package => match package(alloc, text.as_bytes(), "P") {
            Ok(tree) => Ok(Ok(kept(outline_package(alloc, &[], &tree), tree)?)),
            Err(fault) => Ok(Err(fault)),
        },
    }
}

/// The fault of a text, as a line states it: its kind, and the byte of its place.
fn fault_of(alloc: Global, form: Form, text: &str) -> anyhow::Result<String> {
    match read(alloc, form, text)? {
        Ok(_) => Ok(String::from_str(alloc, "none at 0")?),
        Err(SyntaxFault::Syntax { place, kind }) => Ok(format!(in alloc; "{kind:?} at {place}")?),
        Err(SyntaxFault::NoMemory) => Err(anyhow!("no memory")),
    }
}

/// Tries a text for which this fault should come.
fn expect_fault(
    tally: &mut Tally<'_>,
    form: Form,
    row: &str,
    text: &str,
    wanted: &str,
) -> anyhow::Result<()> {
    let found = fault_of(tally.alloc(), form, text)?;
    tally.expect(row, wanted, found.as_str())
}

/// Tries a text with its fault.
pub fn try_fault(tally: &mut Tally<'_>, form: Form, line: &str) -> anyhow::Result<()> {
    let (kind, text) = halves(line);
    let marked = unescaped(tally.alloc(), text)?;
    let place = marked.place.unwrap_or(0);
    let wanted = format!(in tally.alloc(); "{kind} at {place}")?;
    expect_fault(tally, form, line, marked.text.as_str(), wanted.as_str())
}

/// The outline of a text without the line `Script`, and with items at its left.
fn tree_of(alloc: Global, form: Form, text: &str) -> anyhow::Result<String> {
    let outline = match read(alloc, form, text)? {
        Ok(outline) => outline,
        Err(_) => return Ok(String::from_str(alloc, "none")?),
    };
    let mut tree = String::new(alloc);
    for line in str::from_utf8(outline.as_slice())?.lines() {
        if line != "Script" {
            if !tree.is_empty() {
                tree.push('\n')?;
            }
            tree.push_str(line.strip_prefix("  ").unwrap_or(line))?;
        }
    }
    Ok(tree)
}

/// Tries a text with its tree.
pub fn try_tree(tally: &mut Tally<'_>, form: Form, text: &str, wanted: &str) -> anyhow::Result<()> {
    let marked = unescaped(tally.alloc(), text)?;
    let found = tree_of(tally.alloc(), form, marked.text.as_str())?;
    tally.expect(text, wanted, found.as_str())
}

/// Tries a script that was made.
fn try_made(tally: &mut Tally<'_>, case: &Case) -> anyhow::Result<()> {
    let (text, wanted) = (case.text.as_str(), case.stated.as_str());
    expect_fault(tally, Form::Script, case.what, text, wanted)
}

/// Tries scripts that were made.
pub fn made(tally: &mut Tally<'_>, what: &str, cases: &[Case]) -> anyhow::Result<()> {
    for case in cases {
        try_made(tally, case)?;
    }
    tally.end(what)
}
