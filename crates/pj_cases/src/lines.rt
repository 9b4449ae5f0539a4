//! The lines of a case.

use crate::commands::{do_command, fault, packages};
use crate::files::do_files;
use crate::outside::ask_outside;
use crate::sessions::ask_session;
use crate::world::World;
use pj_case_lines::{halves, unescaped};
use std::thread::Threads;

/// What came of the last command, as a line states it: its number, and all that was put.
fn came(world: &World<'_>) -> anyhow::Result<String> {
    let code = world.code;
    let written = str::from_utf8(world.sink.written.as_slice())?;
    Ok(format!(in world.alloc(); "{code} {written}")?)
}

/// Where two texts differ, the second.
fn other(wanted: &str, came: String) -> Option<String> {
    if wanted == came.as_str() {
        None
    } else {
        Some(came)
    }
}

/// What came where a line states something else.
fn compare(world: &World<'_>, verb: &str, stated: &str) -> anyhow::Result<Option<String>> {
    if verb == "gives" {
        let answer = String::from_str(world.alloc(), world.answer.as_str())?;
        return Ok(other(stated, answer));
    }
    let (code, text) = halves(stated);
    let wanted = format!(in world.alloc(); "{code} {text}")?;
    Ok(other(wanted.as_str(), came(world)?))
}

/// Does a line that states nothing.
fn act<T: Threads + Sync>(
    threads: &T,
    world: &mut World<'_>,
    verb: &str,
    rest: &str,
) -> anyhow::Result<()> {
    match verb {
        "do" => do_command(threads, world, rest),
        "packages" => packages(threads, world, rest.parse::<u32>()?),
        "fault" => fault(world, rest),
        "load" | "loads" | "loaded" | "images" | "start" => ask_session(world, verb, rest),
        "sink" | "read" | "write" | "put" | "faults" | "folder" | "sure" | "print" => {
            ask_outside(world, verb, rest)
        }
        _ => do_files(world, verb, rest),
    }
}

/// Does a line of a case. For one that states something this is what came, where it is something else.
pub fn do_line<T: Threads + Sync>(
    threads: &T,
    world: &mut World<'_>,
    line: &str,
) -> anyhow::Result<Option<Option<String>>> {
    let marked = unescaped(world.alloc(), line)?;
    let (verb, rest) = halves(marked.text.as_str());
    match verb {
        "" | "#" => Ok(None),
        "is" | "gives" => Ok(Some(compare(world, verb, rest)?)),
        _ => {
            act(threads, world, verb, rest)?;
            Ok(None)
        }
    }
}
