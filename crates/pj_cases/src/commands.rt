//! Commands, and the calls that fail.

use crate::world::World;
use anyhow::anyhow;
use pj_base::NoMemory;
use pj_case_lines::halves;
use pj_outside::NumberList;
use pj_top::drive;
use std::alloc::Global;
use std::mem;
use std::thread::Threads;

/// The words of a line, which are separated by one space.
fn words_of(alloc: Global, line: &str) -> Result<Vec<String>, NoMemory> {
    let mut words = Vec::new(alloc);
    if !line.is_empty() {
        for word in line.split(' ') {
            words.push(String::from_str(alloc, word)?)?;
        }
    }
    Ok(words)
}

/// Does the command of these words.
pub fn do_command<T: Threads + Sync>(
    threads: &T,
    world: &mut World<'_>,
    line: &str,
) -> anyhow::Result<()> {
    let alloc = world.alloc();
    let words = words_of(alloc, line)?;
    let status = drive(
        threads,
        alloc,
        words.as_slice(),
        &mut world.depot,
        &mut world.sink,
    );
    world.code = status.code();
    Ok(())
}

/// Makes the packages Q0, Q1 and so on, so many, and their images.
pub fn packages<T: Threads + Sync>(
    threads: &T,
    world: &mut World<'_>,
    count: u32,
) -> anyhow::Result<()> {
    for number in 0..count {
        let file = format!(in world.alloc(); "Q{number}.jl")?;
        let text = format!(in world.alloc(); "module Q{number}\nend\n")?;
        let line = format!(in world.alloc(); "precompile 100 Q{number}")?;
        world.put(file.as_str(), text.as_bytes())?;
        do_command(threads, world, line.as_str())?;
        if world.code != 0 {
            return Err(anyhow!("no image of Q{number}"));
        }
    }
    Ok(())
}

/// Adds a number to a list.
fn add(alloc: Global, list: &mut NumberList, number: u64) -> Result<(), NoMemory> {
    let mut numbers = mem::replace(list, NumberList::new(alloc)).into_vec();
    numbers.push(number)?;
    *list = NumberList::from_vec(numbers);
    Ok(())
}

/// Lets a call of the depot or the sink fail: `read 2` is the second read.
pub fn fault(world: &mut World<'_>, rest: &str) -> anyhow::Result<()> {
    let alloc = world.alloc();
    let (call, number) = halves(rest);
    let number = number.parse::<u64>()?;
    match call {
        "read" => add(alloc, &mut world.depot.failing_reads, number)?,
        "write" => add(alloc, &mut world.depot.failing_writes, number)?,
        "put" => add(alloc, &mut world.sink.failing_puts, number)?,
        _ => return Err(anyhow!("no call {call}")),
    }
    Ok(())
}
