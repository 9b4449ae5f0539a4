//! Files of images made of fields by the format, apart from the code that is tested.
//!
//! A field is a word: a number, an integer behind `i`, a text behind `t`, or bytes as they are, in hexadecimal digits, behind
//! `x`.

use anyhow::anyhow;
use pj_base::NoMemory;
use pj_base::release::kept;
use pj_case_lines::add_hex;
use pj_image::{DecodeFault, decode};
use sha2::{Digest, Sha256};
use std::alloc::Global;

/// A package: the lines of its sections but the last, and the fields of the last.
#[derive(Clone, Copy)]
pub struct Package<'a> {
    pub sections: &'a str,
    pub entries: &'a str,
}

/// A section whose number, length or bytes aren't those of the file: its place among the sections from 1, the number that
/// stands there, how much more its length says, and its fields.
#[derive(Clone, Copy)]
pub struct Damage<'a> {
    pub section: u32,
    pub number: u32,
    pub longer: u32,
    pub fields: &'a str,
}

impl<'a> Damage<'a> {
    /// Other bytes, with their number and length.
    pub fn of(section: u32, fields: &'a str) -> Damage<'a> {
        Damage {
            section,
            number: section,
            longer: 0,
            fields,
        }
    }
}

/// Adds a number of four bytes, the lowest first.
fn put_number(number: usize, out: &mut Vec<u8>) -> Result<(), NoMemory> {
    let [a, b, c, d, ..] = number.to_le_bytes();
    out.extend_from_slice(&[a, b, c, d])?;
    Ok(())
}

/// Adds a field.
fn put_field(word: &str, out: &mut Vec<u8>) -> anyhow::Result<()> {
    if let Some(text) = word.strip_prefix('t') {
        put_number(text.len(), out)?;
        out.extend_from_slice(text.as_bytes())?;
    } else if let Some(digits) = word.strip_prefix('x') {
        add_hex(digits, out)?;
    } else if let Some(integer) = word.strip_prefix('i') {
        out.extend_from_slice(&integer.parse::<i64>()?.to_le_bytes())?;
    } else if !word.is_empty() {
        out.extend_from_slice(&word.parse::<u32>()?.to_le_bytes())?;
    }
    Ok(())
}

/// Adds a section.
fn put_section(alloc: Global, damage: Damage<'_>, out: &mut Vec<u8>) -> anyhow::Result<()> {
    let mut payload = Vec::new(alloc);
    for word in damage.fields.split(' ') {
        put_field(word, &mut payload)?;
    }
    let count = payload.len().wrapping_add(damage.longer as usize);
    out.extend_from_slice(&damage.number.to_le_bytes())?;
    put_number(count, out)?;
    out.extend_from_slice(payload.as_slice())?;
    Ok(())
}

/// Adds a section, or what stands in its place.
fn put_either(
    alloc: Global,
    whole: Damage<'_>,
    damage: Option<Damage<'_>>,
    out: &mut Vec<u8>,
) -> anyhow::Result<()> {
    match damage {
        Some(other) if other.section == whole.section => put_section(alloc, other, out),
        _ => put_section(alloc, whole, out),
    }
}

/// What stands before the identity, of a file of this package, of which one section may be damaged.
pub fn body(
    alloc: Global,
    package: Package<'_>,
    damage: Option<Damage<'_>>,
) -> anyhow::Result<Vec<u8>> {
    let mut out = Vec::new(alloc);
    out.extend_from_slice(b"PJIMAGE1\x01\x00\x00\x00")?;
    let mut section = 0u32;
    for line in package.sections.lines() {
        if let Some(fields) = line.strip_prefix("section ") {
            section = section.wrapping_add(1);
            put_either(alloc, Damage::of(section, fields), damage, &mut out)?;
        }
    }
    put_either(alloc, Damage::of(12, package.entries), damage, &mut out)?;
    Ok(out)
}

/// The bytes, and their digest.
pub fn sealed(mut bytes: Vec<u8>) -> Result<Vec<u8>, NoMemory> {
    let digest = Sha256::digest(bytes.as_slice());
    bytes.extend_from_slice(&digest)?;
    Ok(bytes)
}

/// The file of a package, of which one section may be damaged.
pub fn file(
    alloc: Global,
    package: Package<'_>,
    damage: Option<Damage<'_>>,
) -> anyhow::Result<Vec<u8>> {
    Ok(sealed(body(alloc, package, damage)?)?)
}

/// The section at fault of a file that is read as the image of a package of this name, or 99 where none is.
pub fn fault(alloc: Global, bytes: &[u8], name: &str) -> anyhow::Result<u32> {
    match decode(alloc, bytes, name) {
        Ok(image) => Ok(kept(99, image)),
        Err(DecodeFault::Format { section }) => Ok(section),
        Err(DecodeFault::NoMemory) => Err(anyhow!("no memory")),
    }
}

/// The parts of a file that describes a package: it, and its digest.
pub fn parts(text: &str) -> anyhow::Result<(Package<'_>, &str)> {
    let Some((sections, rest)) = text.split_once("\nentries ") else {
        return Err(anyhow!("no entries"));
    };
    let Some((entries, digest)) = rest.split_once("\ndigest ") else {
        return Err(anyhow!("no digest"));
    };
    Ok((Package { sections, entries }, digest.trim_end()))
}
