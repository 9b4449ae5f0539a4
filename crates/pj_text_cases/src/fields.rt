//! The fields of which files consist.

use crate::tally::Tally;
use pj_base::{ByteList, NoMemory};
use pj_case_lines::{add_hex, halves};
use pj_fields::{put_number, take_number};
use std::alloc::Global;

/// The list of the one text `ab` as it is put.
fn put(alloc: Global) -> Result<ByteList, NoMemory> {
    let mut bytes = ByteList::new(alloc);
    put_number(1, &mut bytes)?;
    put_number(2, &mut bytes)?;
    bytes.extend(b"ab")?;
    Ok(bytes)
}

/// Whether the list of the one text `ab` is taken from bytes.
fn is_taken(bytes: &[u8]) -> bool {
    let Some((count, rest)) = take_number(bytes) else {
        return false;
    };
    let Some((length, text)) = take_number(rest) else {
        return false;
    };
    count == 1 && length == 2 && text == b"ab".as_slice()
}

/// Tries the list of the one text `ab`.
pub fn try_field(tally: &mut Tally<'_>, line: &str) -> anyhow::Result<()> {
    let (verb, digits) = halves(line);
    let mut bytes = Vec::new(tally.alloc());
    add_hex(digits, &mut bytes)?;
    let right = match verb {
        "put" => put(tally.alloc())?.as_slice() == bytes.as_slice(),
        _ => is_taken(bytes.as_slice()),
    };
    tally.note(right, line, "other bytes")
}
