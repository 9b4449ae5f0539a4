//! What a session answers.

use crate::files::bytes_of;
use crate::world::World;
use anyhow::anyhow;
use pj_case_lines::halves;
use pj_session::LoadFault;

/// What loading the image of a package answers.
fn load(world: &mut World<'_>, name: &str) -> anyhow::Result<Result<u32, LoadFault>> {
    let file = format!(in world.alloc(); "{name}.pimg")?;
    let image = bytes_of(world, file.as_str())?;
    if image.len() > 67_108_864 {
        return Err(anyhow!("{name} is longer than an image may be"));
    }
    let alloc = world.alloc();
    Ok(world.session.load(alloc, name, image))
}

/// Loads the image of a package: how many are loaded then, or the fault.
fn ask_load(world: &mut World<'_>, name: &str) -> anyhow::Result<()> {
    world.answer = match load(world, name)? {
        Ok(count) => format!(in world.rt.alloc(); "{count}")?,
        Err(fault) => format!(in world.rt.alloc(); "{fault:?}")?,
    };
    Ok(())
}

/// Loads the images of the packages Q0, Q1 and so on, so many: how many were loaded.
fn ask_loads(world: &mut World<'_>, count: u32) -> anyhow::Result<()> {
    let mut loaded: u32 = 0;
    for number in 0..count {
        let name = format!(in world.alloc(); "Q{number}")?;
        if load(world, name.as_str())?.is_ok() {
            loaded = loaded.saturating_add(1);
        }
    }
    world.answer = format!(in world.alloc(); "{loaded}")?;
    Ok(())
}

/// The number of the image of a package.
fn ask_loaded(world: &mut World<'_>, name: &str) -> anyhow::Result<()> {
    world.answer = match world.session.loaded(name) {
        Some(number) => format!(in world.rt.alloc(); "{number}")?,
        None => String::from_str(world.rt.alloc(), "none")?,
    };
    Ok(())
}

/// Starts an image with so many steps: whether it comes to its end, and how many are left.
fn ask_start(world: &mut World<'_>, name: &str, steps: u64) -> anyhow::Result<()> {
    let alloc = world.alloc();
    let mut left = steps;
    let ended = world.session.start(alloc, name, &mut left).is_ok();
    world.answer = format!(in alloc; "{ended} {left}")?;
    Ok(())
}

/// Does a line on the session of a case.
pub fn ask_session(world: &mut World<'_>, verb: &str, rest: &str) -> anyhow::Result<()> {
    let (name, more) = halves(rest);
    match verb {
        "load" => ask_load(world, name),
        "loads" => ask_loads(world, name.parse::<u32>()?),
        "loaded" => ask_loaded(world, name),
        "start" => ask_start(world, name, more.parse::<u64>()?),
        _ => {
            let count = world.session.tables().images.len();
            world.answer = format!(in world.alloc(); "{count}")?;
            Ok(())
        }
    }
}
