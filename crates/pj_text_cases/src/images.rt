//! Two files of images that are decoded, and one of them with bytes cut, added and changed.
use crate::files::{fault, file, parts, sealed};
use crate::tally::Tally;
use anyhow::anyhow;
use pj_base::NoMemory;
use pj_base::release::kept;
use pj_case_lines::add_hex;
use pj_image::{Image, decode, encode, identity, image_ok, length};
use std::alloc::Global;

/// Whether an image fits, and its file has these bytes.
fn is_same(alloc: Global, bytes: &[u8], image: &Image) -> Result<bool, NoMemory> {
    if !image_ok(alloc, image)? {
        return Ok(false);
    }
    Ok(encode(alloc, image)?.as_slice() == bytes)
}

/// What is told of an image, whose file these bytes are.
fn told_of(alloc: Global, bytes: &[u8], image: &Image) -> anyhow::Result<String> {
    let name = image.head.name.as_str();
    let strings = image.strings.len();
    let functions = image.functions.len();
    let bindings = image.bindings.len();
    let entries = image.entries.len();
    let length = length(image);
    let same = is_same(alloc, bytes, image)?;
    Ok(format!(in alloc;
        "{name}: {strings} strings, {functions} functions, {bindings} bindings, {entries} entries, {length} bytes, the same: {same}"
    )?)
}

/// What is told of the image of Q whose file these bytes are.
fn told(alloc: Global, bytes: &[u8]) -> anyhow::Result<String> {
    match decode(alloc, bytes, "Q") {
        Ok(image) => kept(told_of(alloc, bytes, &image), image),
        Err(_) => Err(anyhow!("no image")),
    }
}

/// Tries what is told of the image of Q whose file these bytes are.
fn expect_told(tally: &mut Tally<'_>, row: &str, bytes: &[u8], wanted: &str) -> anyhow::Result<()> {
    let came = told(tally.alloc(), bytes)?;
    tally.expect(row, wanted, came.as_str())
}

/// The bytes of lines of hexadecimal digits.
fn bytes_in(alloc: Global, all: &str) -> Result<Vec<u8>, NoMemory> {
    let mut bytes = Vec::new(alloc);
    for line in all.lines() {
        if !line.starts_with("==") {
            add_hex(line, &mut bytes)?;
        }
    }
    Ok(bytes)
}

/// The first of these bytes, so many at most.
fn first(alloc: Global, bytes: &[u8], count: usize) -> Result<Vec<u8>, NoMemory> {
    Ok(bytes.get(..count).unwrap_or(bytes).to_vec(alloc)?)
}

/// The bytes, the one at a place one more.
fn changed(alloc: Global, bytes: &[u8], at: usize) -> Result<Vec<u8>, NoMemory> {
    let mut changed = first(alloc, bytes, bytes.len())?;
    if let Some(byte) = changed.get_mut(at) {
        *byte = byte.wrapping_add(1);
    }
    Ok(changed)
}

/// The bytes, and one more.
fn longer(alloc: Global, bytes: &[u8]) -> Result<Vec<u8>, NoMemory> {
    let mut longer = first(alloc, bytes, bytes.len())?;
    longer.push(0)?;
    Ok(longer)
}

/// Tries bytes of which this section should be at fault.
fn expect_fault(tally: &mut Tally<'_>, row: &str, bytes: &[u8], wanted: u32) -> anyhow::Result<()> {
    let found = fault(tally.alloc(), bytes, "Q")?;
    tally.number(row, wanted, found)
}

/// Tries the file of module Q with one byte more, before the digest.
fn try_within(tally: &mut Tally<'_>, bytes: &[u8]) -> anyhow::Result<()> {
    let within = longer(tally.alloc(), bytes.get(..161).unwrap_or(&[]))?;
    let within = sealed(within)?;
    expect_fault(tally, "a byte before the digest", within.as_slice(), 12)
}

/// Tries the file of module Q with one byte more, behind it and before the digest, and for a package of another name.
fn try_longer(tally: &mut Tally<'_>, bytes: &[u8]) -> anyhow::Result<()> {
    let longer = longer(tally.alloc(), bytes)?;
    expect_fault(tally, "a byte behind", longer.as_slice(), 13)?;
    try_within(tally, bytes)?;
    let found = fault(tally.alloc(), bytes, "R")?;
    tally.number("another name", 1, found)
}

/// Tries the file of module Q cut at each place.
fn try_cuts(tally: &mut Tally<'_>, bytes: &[u8]) -> anyhow::Result<()> {
    for count in 0..bytes.len() {
        let cut = bytes.get(..count).unwrap_or(&[]);
        expect_fault(tally, "bytes cut", cut, if count < 44 { 0 } else { 13 })?;
    }
    Ok(())
}

/// Tries the file of module Q with a byte changed and a fresh identity.
fn try_fresh(tally: &mut Tally<'_>, bytes: Vec<u8>) -> anyhow::Result<()> {
    let fresh = sealed(bytes)?;
    let found = fault(tally.alloc(), fresh.as_slice(), "Q")?;
    tally.note(
        found != 99,
        "a byte changed, with a fresh identity",
        "no fault",
    )
}

/// Tries the file of module Q with each byte changed, without a fresh identity and with one.
fn try_changes(tally: &mut Tally<'_>, bytes: &[u8]) -> anyhow::Result<()> {
    for at in 0..bytes.len() {
        let mut other = changed(tally.alloc(), bytes, at)?;
        let wanted = if at < 12 { 0 } else { 13 };
        expect_fault(tally, "a byte changed", other.as_slice(), wanted)?;
        if at < 161 {
            other.truncate(161);
            try_fresh(tally, other)?;
        }
    }
    Ok(())
}

/// Whether bytes end in the identity of those before.
fn is_sealed(bytes: &[u8]) -> bool {
    if bytes.len() < 32 {
        return false;
    }
    let place = bytes.len() - 32;
    bytes.get(place..) == Some(identity(bytes).as_slice())
}

/// Tries the bytes of the file of module Q.
fn try_module_q(tally: &mut Tally<'_>, bytes: &[u8]) -> anyhow::Result<()> {
    let wanted = "Q: 0 strings, 0 functions, 0 bindings, 0 entries, 193 bytes, the same: true";
    expect_told(tally, "module Q", bytes, wanted)?;
    tally.note(is_sealed(bytes), "its identity", "another one")?;
    try_longer(tally, bytes)?;
    try_cuts(tally, bytes)?;
    try_changes(tally, bytes)
}

/// Tries the file of module Q, whose bytes a text has.
pub fn module_q(tally: &mut Tally<'_>, all: &str) -> anyhow::Result<()> {
    let bytes = bytes_in(tally.alloc(), all)?;
    try_module_q(tally, bytes.as_slice())
}

/// Whether bytes are those of hexadecimal digits.
fn are(alloc: Global, bytes: &[u8], digits: &str) -> Result<bool, NoMemory> {
    let mut wanted = Vec::new(alloc);
    add_hex(digits, &mut wanted)?;
    Ok(wanted.as_slice() == bytes)
}

/// Tries the bytes of the file of a package, which has this digest.
fn try_package(tally: &mut Tally<'_>, bytes: &[u8], digest: &str) -> anyhow::Result<()> {
    let wanted = "Q: 10 strings, 1 functions, 1 bindings, 2 entries, 385 bytes, the same: true";
    expect_told(tally, "a package", bytes, wanted)?;
    tally.note(bytes.len() == 385, "its length", "another one")?;
    let right = are(tally.alloc(), bytes.get(353..).unwrap_or(&[]), digest)?;
    tally.note(right, "its digest", "another one")
}

/// Tries the file of a package, which a text describes.
pub fn package(tally: &mut Tally<'_>, all: &str) -> anyhow::Result<()> {
    let (package, digest) = parts(all)?;
    let bytes = file(tally.alloc(), package, None)?;
    try_package(tally, bytes.as_slice(), digest)
}
