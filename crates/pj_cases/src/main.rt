//! Reads rows from files, does what they say, and tells which of them came out otherwise.
#![tactic(auto)]

mod commands;
mod files;
mod lines;
mod outside;
mod sessions;
mod world;

use crate::lines::do_line;
use crate::world::World;
use anyhow::anyhow;
use pj_base::release::kept;
use std::fs;
use std::thread::Threads;

/// How many rows were tried, and how many came out otherwise.
#[derive(Clone, Copy)]
struct Total {
    rows: usize,
    wrong: usize,
}

/// Does a line of a case, and counts it where it states something.
fn try_line<T: Threads + Sync>(
    threads: &T,
    world: &mut World<'_>,
    case: &str,
    line: &str,
    total: &mut Total,
) -> anyhow::Result<()> {
    let rt = world.rt;
    let Some(found) = do_line(threads, world, line)? else {
        return Ok(());
    };
    total.rows = total.rows.saturating_add(1);
    if let Some(came) = found {
        total.wrong = total.wrong.saturating_add(1);
        let name = case.lines().next().unwrap_or("");
        println!(rt; "{name}: wanted: {line}: came: {came:?}")?;
    }
    Ok(())
}

/// Does the lines of a case, behind those with which each case of its group begins. The first line of both is a name.
fn do_lines<T: Threads + Sync>(
    threads: &T,
    world: &mut World<'_>,
    begin: &str,
    case: &str,
    total: &mut Total,
) -> anyhow::Result<()> {
    for line in begin.lines().skip(1) {
        try_line(threads, world, case, line, total)?;
    }
    for line in case.lines().skip(1) {
        try_line(threads, world, case, line, total)?;
    }
    Ok(())
}

/// Does a case over a world of its own.
fn do_case<T: Threads + Sync>(
    threads: &T,
    rt: &HostRuntime,
    begin: &str,
    case: &str,
    total: &mut Total,
) -> anyhow::Result<()> {
    let mut world = World::new(rt)?;
    let done = do_lines(threads, &mut world, begin, case, total);
    kept(done, world)
}

/// Does the cases of a group, and tells how many rows they have. Its first line is its name.
fn do_group<T: Threads + Sync>(
    threads: &T,
    rt: &HostRuntime,
    group: &str,
    total: &mut Total,
) -> anyhow::Result<()> {
    let before = total.rows;
    let mut cases = group.split("\ncase ");
    let begin = cases.next().unwrap_or("");
    for case in cases {
        do_case(threads, rt, begin, case, total)?;
    }
    let name = begin.lines().next().unwrap_or("");
    let rows = total.rows.saturating_sub(before);
    println!(rt; "{name}: {rows} rows")?;
    Ok(())
}

fn main(rt: HostRuntime) -> anyhow::Result<()> {
    let mut total = Total { rows: 0, wrong: 0 };
    for file in ["scripts.txt", "packages.txt", "sessions.txt", "outside.txt"] {
        let all = fs::read_to_string(&rt, file)?;
        for group in all.as_str().split("\n== ").skip(1) {
            do_group(&rt, &rt, group, &mut total)?;
        }
    }
    let Total { rows, wrong } = total;
    println!(rt; "{rows} rows, {wrong} wrong")?;
    if wrong > 0 {
        return Err(anyhow!("a row is wrong"));
    }
    Ok(())
}
