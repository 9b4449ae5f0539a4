//! Files that a case is given, and what it does to them.

use crate::world::World;
use anyhow::anyhow;
use pj_case_lines::{add_hex, halves};

/// A copy of the bytes of a file.
pub fn bytes_of(world: &World<'_>, name: &str) -> anyhow::Result<Vec<u8>> {
    match world.depot.files.get(name) {
        Some(bytes) => Ok(Vec::from_slice(world.alloc(), bytes)?),
        None => Err(anyhow!("no file {name}")),
    }
}

/// Adds bytes in hexadecimal digits behind those of a file.
fn extend(world: &mut World<'_>, name: &str, digits: &str) -> anyhow::Result<()> {
    let mut bytes = bytes_of(world, name)?;
    add_hex(digits, &mut bytes)?;
    world.put(name, bytes.as_slice())?;
    Ok(())
}

/// Leaves so many bytes of a file.
fn cut(world: &mut World<'_>, name: &str, length: usize) -> anyhow::Result<()> {
    let mut bytes = bytes_of(world, name)?;
    bytes.truncate(length);
    world.put(name, bytes.as_slice())?;
    Ok(())
}

/// Changes the lowest bit of a byte of a file.
fn change(world: &mut World<'_>, name: &str, place: usize) -> anyhow::Result<()> {
    let mut bytes = bytes_of(world, name)?;
    if let Some(byte) = bytes.get_mut(place) {
        *byte ^= 1;
    }
    world.put(name, bytes.as_slice())?;
    Ok(())
}

/// Gives a file another name.
fn rename(world: &mut World<'_>, name: &str, newer: &str) -> anyhow::Result<()> {
    let bytes = bytes_of(world, name)?;
    world.depot.files.remove(name);
    world.put(newer, bytes.as_slice())?;
    Ok(())
}

/// Makes a file of so many spaces.
fn spaces(world: &mut World<'_>, name: &str, count: usize) -> anyhow::Result<()> {
    let bytes = vec![in world.alloc(); b' '; count]?;
    world.put(name, bytes.as_slice())?;
    Ok(())
}

/// Makes a script that uses so many of those packages.
fn uses(world: &mut World<'_>, name: &str, count: u32) -> anyhow::Result<()> {
    let mut script = String::new(world.alloc());
    for number in 0..count {
        let line = format!(in world.alloc(); "using Q{number}\n")?;
        script.push_str(line.as_str())?;
    }
    world.put(name, script.as_bytes())?;
    Ok(())
}

/// Whether two files are there and have the same bytes.
fn same(world: &mut World<'_>, name: &str, second: &str) -> anyhow::Result<()> {
    let same = bytes_of(world, name)?.as_slice() == bytes_of(world, second)?.as_slice();
    world.answer = format!(in world.alloc(); "{same}")?;
    Ok(())
}

/// How many bytes a file has, or that there is none.
fn length(world: &mut World<'_>, name: &str) -> anyhow::Result<()> {
    world.answer = match world.depot.files.get(name) {
        Some(bytes) => format!(in world.rt.alloc(); "{}", bytes.len())?,
        None => String::from_str(world.rt.alloc(), "none")?,
    };
    Ok(())
}

/// Whether a file is there and has bytes.
fn filled(world: &mut World<'_>, name: &str) -> anyhow::Result<()> {
    let filled = !bytes_of(world, name)?.is_empty();
    world.answer = format!(in world.alloc(); "{filled}")?;
    Ok(())
}

/// Does a line that gives, changes or compares files.
pub fn do_files(world: &mut World<'_>, verb: &str, rest: &str) -> anyhow::Result<()> {
    let (name, more) = halves(rest);
    match verb {
        "file" => Ok(world.put(name, more.as_bytes())?),
        "bytes" => extend(world, name, more),
        "cut" => cut(world, name, more.parse::<usize>()?),
        "change" => change(world, name, more.parse::<usize>()?),
        "rename" => rename(world, name, more),
        "spaces" => spaces(world, name, more.parse::<usize>()?),
        "uses" => uses(world, name, more.parse::<u32>()?),
        "same" => same(world, name, more),
        "length" => length(world, name),
        "filled" => filled(world, name),
        _ => Err(anyhow!("no line begins with {verb}")),
    }
}
