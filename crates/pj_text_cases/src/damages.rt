//! Files of a package that are damaged, each with the section at fault.

use crate::files::{Damage, Package, body, fault, file};
use crate::tally::Tally;
use pj_case_lines::halves;
use std::alloc::Global;

/// The section at fault in the file of a package with a damage.
fn fault_with(alloc: Global, package: Package<'_>, damage: Damage<'_>) -> anyhow::Result<u32> {
    let bytes = file(alloc, package, Some(damage))?;
    fault(alloc, bytes.as_slice(), "Q")
}

/// The section at fault where the digest is of zeros.
fn fault_unsealed(alloc: Global, package: Package<'_>, damage: Damage<'_>) -> anyhow::Result<u32> {
    let mut bytes = body(alloc, package, Some(damage))?;
    bytes.extend_from_slice(&[0; 32])?;
    fault(alloc, bytes.as_slice(), "Q")
}

/// Tries a damage alone, before no entries, and before a wrong digest.
pub fn try_damage(tally: &mut Tally<'_>, package: Package<'_>, line: &str) -> anyhow::Result<()> {
    let alloc = tally.alloc();
    let (wanted, rest) = halves(line);
    let (section, fields) = halves(rest);
    let wanted = wanted.parse::<u32>()?;
    let section = section.parse::<u32>()?;
    let damage = Damage::of(section, fields);
    tally.number(line, wanted, fault_with(alloc, package, damage)?)?;
    if section < 12 {
        let bare = Package {
            sections: package.sections,
            entries: "0",
        };
        tally.number(line, wanted.min(12), fault_with(alloc, bare, damage)?)?;
    }
    tally.number(line, 13, fault_unsealed(alloc, package, damage)?)
}

/// Tries a section with another length, twice, and with another number.
fn try_header(
    tally: &mut Tally<'_>,
    package: Package<'_>,
    section: u32,
    fields: &str,
) -> anyhow::Result<()> {
    let alloc = tally.alloc();
    let whole = Damage::of(section, fields);
    for longer in [1, 4_294_967_280] {
        let mut damage = whole;
        damage.longer = longer;
        tally.number(
            "a longer section",
            section,
            fault_with(alloc, package, damage)?,
        )?;
    }
    let mut damage = whole;
    damage.number = section ^ 16;
    tally.number(
        "another number",
        section,
        fault_with(alloc, package, damage)?,
    )
}

/// Tries the last section with another length, and with another number.
fn try_last_header(tally: &mut Tally<'_>, package: Package<'_>) -> anyhow::Result<()> {
    let alloc = tally.alloc();
    let mut longer = Damage::of(12, package.entries);
    longer.longer = 1;
    tally.number("longer entries", 12, fault_with(alloc, package, longer)?)?;
    let mut numbered = Damage::of(12, package.entries);
    numbered.number = 13;
    tally.number("entries as 13", 12, fault_with(alloc, package, numbered)?)
}

/// Tries the headers of the sections of a package.
pub fn headers(tally: &mut Tally<'_>, package: Package<'_>) -> anyhow::Result<()> {
    let mut section = 0u32;
    for line in package.sections.lines() {
        if let Some(fields) = line.strip_prefix("section ") {
            section = section.wrapping_add(1);
            try_header(tally, package, section, fields)?;
        }
    }
    try_last_header(tally, package)?;
    tally.end("headers of sections")
}

/// A body whose expression nests so many calls.
fn nested(alloc: Global, calls: u32) -> anyhow::Result<String> {
    let mut fields = String::from_str(alloc, "1 67 1 1 0 1 32")?;
    for _call in 0..calls {
        fields.push_str(" 8 2 3 2 5 1")?;
    }
    fields.push_str(" 5 1")?;
    Ok(fields)
}

/// The section at fault in a package with that body. Its methods stand seven numbers before those of the file, and six
/// numbers later for each call.
fn nested_fault(alloc: Global, package: Package<'_>, calls: u32) -> anyhow::Result<u32> {
    let fields = nested(alloc, calls)?;
    let place = calls.wrapping_mul(24).wrapping_add(229);
    let second = place.wrapping_add(8);
    let entries = format!(in alloc; "2 {place} 1 1 0 {second} 0 0 5")?;
    let moved = Package {
        sections: package.sections,
        entries: entries.as_str(),
    };
    fault_with(alloc, moved, Damage::of(7, fields.as_str()))
}

/// Tries bodies that nest calls.
pub fn nesting(tally: &mut Tally<'_>, package: Package<'_>) -> anyhow::Result<()> {
    for (calls, wanted) in [(0, 99), (1, 99), (125, 99), (126, 7), (1000, 7)] {
        let found = nested_fault(tally.alloc(), package, calls)?;
        tally.number("nested calls", wanted, found)?;
    }
    tally.end("nested calls")
}
