//! What depots and sinks answer.

use crate::world::World;
use anyhow::anyhow;
use pj_case_lines::halves;
use pj_outside::{
    Depot, FileMap, MemSink, ReadAnswer, Sink, StdoutSink, SureDepot, SureSink, WriteFault,
};
use std::alloc::Global;
use std::fs;

/// What a depot answers to a read: the bytes, or why there are none.
fn read<D: Depot>(
    alloc: Global,
    depot: &mut D,
    name: &str,
    limit: usize,
) -> anyhow::Result<String> {
    let answer = match depot.read(alloc, name, limit) {
        ReadAnswer::Bytes(bytes) => {
            let text = str::from_utf8(bytes.as_slice())?;
            return Ok(format!(in alloc; "bytes {text}")?);
        }
        ReadAnswer::Absent => "absent",
        ReadAnswer::TooLong => "too long",
        ReadAnswer::Failed => "failed",
        ReadAnswer::NoMemory => return Err(anyhow!("no memory")),
    };
    Ok(String::from_str(alloc, answer)?)
}

/// What a depot answers to a write.
fn write<D: Depot>(alloc: Global, depot: &mut D, name: &str, text: &str) -> anyhow::Result<String> {
    let answer = match depot.write(alloc, name, text.as_bytes()) {
        Ok(()) => "written",
        Err(WriteFault::Failed) => "failed",
        Err(WriteFault::NoMemory) => return Err(anyhow!("no memory")),
    };
    Ok(String::from_str(alloc, answer)?)
}

/// What a sink answers to a put.
fn put<S: Sink>(alloc: Global, sink: &mut S, text: &str) -> anyhow::Result<String> {
    let answer = match sink.put(text.as_bytes()) {
        Ok(()) => "taken",
        Err(_) => "failed",
    };
    Ok(String::from_str(alloc, answer)?)
}

/// Whether a file is written, read back and put.
fn copy_through<D: Depot, S: Sink>(alloc: Global, depot: &mut D, out: &mut S) -> bool {
    if depot.write(alloc, "copy", b"four").is_err() {
        return false;
    }
    match depot.read(alloc, "copy", 4) {
        ReadAnswer::Bytes(bytes) => {
            bytes.as_slice() == b"four".as_slice() && out.put(bytes.as_slice()).is_ok()
        }
        _ => false,
    }
}

/// Whether a file is copied through the depot and the sink that never fail, and what is read when it is taken away.
fn ask_sure(alloc: Global) -> anyhow::Result<String> {
    let mut depot = SureDepot::new(FileMap::new(alloc));
    let copied = copy_through(alloc, &mut depot, &mut SureSink);
    depot.files.remove("copy");
    let again = read(alloc, &mut depot, "copy", 4)?;
    Ok(format!(in alloc; "{copied}, {again}")?)
}

/// What standard output answers to a piece.
fn ask_print(rt: &HostRuntime, text: &str) -> anyhow::Result<String> {
    let mut sink = StdoutSink::new(rt);
    let told = put(rt.alloc(), &mut sink, text)?;
    let faults = sink.faults();
    Ok(format!(in rt.alloc(); "{told}, {faults} faults")?)
}

/// Whether a file of the folder has so many bytes of 7, and all of them are read.
fn ask_sevens(world: &mut World<'_>, name: &str, count: usize) -> anyhow::Result<String> {
    let alloc = world.alloc();
    let sevens = vec![in alloc; 7; count]?;
    let read = match world.folder.read(alloc, name, count) {
        ReadAnswer::Bytes(bytes) => bytes.as_slice() == sevens.as_slice(),
        _ => false,
    };
    Ok(format!(in alloc; "{read}")?)
}

/// Makes a file of so many bytes of 7 in the folder.
fn make_sevens(rt: &HostRuntime, name: &str, count: usize) -> anyhow::Result<String> {
    let sevens = vec![in rt.alloc(); 7; count]?;
    fs::write(rt, name, sevens.as_slice())?;
    Ok(String::new(rt.alloc()))
}

/// Whether a file is copied through the folder.
fn ask_copy(world: &mut World<'_>) -> anyhow::Result<String> {
    let alloc = world.alloc();
    let copied = copy_through(alloc, &mut world.folder, &mut SureSink);
    Ok(format!(in alloc; "{copied}")?)
}

/// What the folder in which the program runs answers, or is given.
fn ask_folder(world: &mut World<'_>, rest: &str) -> anyhow::Result<String> {
    let alloc = world.alloc();
    let (verb, rest) = halves(rest);
    let (name, more) = halves(rest);
    match verb {
        "read" => read(alloc, &mut world.folder, name, more.parse::<usize>()?),
        "write" => write(alloc, &mut world.folder, name, more),
        "copy" => ask_copy(world),
        "make" => make_sevens(world.rt, name, more.parse::<usize>()?),
        "sevens" => ask_sevens(world, name, more.parse::<usize>()?),
        "folder" => {
            fs::create_dir(world.rt, name)?;
            Ok(String::new(alloc))
        }
        _ => Ok(format!(in alloc; "{}", world.folder.faults())?),
    }
}

/// How many faults the depot and the sink in memory have counted.
fn ask_faults(world: &World<'_>) -> anyhow::Result<String> {
    let depot = world.depot.faults();
    let sink = world.sink.faults();
    Ok(format!(in world.alloc(); "{depot} {sink}")?)
}

/// Puts a sink with this room in place of that of the case.
fn new_sink(world: &mut World<'_>, room: usize) -> anyhow::Result<String> {
    world.sink = MemSink::new(world.alloc(), room)?;
    Ok(String::new(world.alloc()))
}

/// Does a line on depots and sinks.
pub fn ask_outside(world: &mut World<'_>, verb: &str, rest: &str) -> anyhow::Result<()> {
    let alloc = world.alloc();
    let (name, more) = halves(rest);
    world.answer = match verb {
        "sink" => new_sink(world, name.parse::<usize>()?)?,
        "read" => read(alloc, &mut world.depot, name, more.parse::<usize>()?)?,
        "write" => write(alloc, &mut world.depot, name, more)?,
        "put" => put(alloc, &mut world.sink, rest)?,
        "faults" => ask_faults(world)?,
        "folder" => ask_folder(world, rest)?,
        "print" => ask_print(world.rt, rest)?,
        _ => ask_sure(alloc)?,
    };
    Ok(())
}
