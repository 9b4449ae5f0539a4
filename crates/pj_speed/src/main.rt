//! Reads and writes one large tree, or decodes one image file, for measuring. Each word asks for one of them.
//!
//! `tree:NODES` and `tree:NODES:FILE`: the tree is a body of statements of four nodes each, as many as make up that many nodes.
//! Its bytes are spelled first, read, and what was read is spelled again. The program prints how many nodes and bytes there are
//! and whether both spellings are the same, and writes the bytes to FILE where one is named.
//!
//! `image:NAME:FILE`: prints how many functions the image of this name has, or the section that is at fault.
#![tactic(auto)]

use anyhow::anyhow;
use pj_base::release::kept;
use pj_base::{ByteList, NoMemory};
use pj_fields::{put_int, put_number};
use pj_image::{DecodeFault, decode};
use pj_tree::{TreeFault, decode_tree, encode_tree};
use std::alloc::Global;
use std::{env, fs};

/// Adds the bytes of `x = +(y, number)`, four nodes.
fn put_statement(number: u32, out: &mut ByteList) -> Result<(), NoMemory> {
    for field in [33, 1, 8, 0, 2, 2, 5, 3, 3] {
        put_number(field, out)?;
    }
    put_int(i64::from(number), out)
}

/// The bytes of a body of so many statements, which introduces `x` and has the parameter `y`.
fn spelled(alloc: Global, statements: u32) -> Result<ByteList, NoMemory> {
    let mut out = ByteList::new(alloc);
    for field in [67, 1, 3, 1, 1, statements] {
        put_number(field, &mut out)?;
    }
    for number in 0..statements {
        put_statement(number, &mut out)?;
    }
    Ok(out)
}

/// The bytes of the tree that these bytes spell.
fn spelled_again(alloc: Global, bytes: &[u8]) -> Result<ByteList, TreeFault> {
    let (tree, _end) = decode_tree(alloc, bytes, 0)?;
    let mut out = ByteList::new(alloc);
    match kept(encode_tree(alloc, &tree, &mut out), tree) {
        Ok(()) => Ok(out),
        Err(NoMemory) => Err(TreeFault::NoMemory),
    }
}

/// Reads and writes a tree of so many nodes, and writes its bytes to a file where one is named.
fn do_tree(rt: &HostRuntime, nodes: &str, file: Option<&str>) -> anyhow::Result<()> {
    let statements = nodes.parse::<u32>()? / 4;
    let bytes = spelled(rt.alloc(), statements)?;
    let Ok(again) = spelled_again(rt.alloc(), bytes.as_slice()) else {
        return Err(anyhow!("no memory, or no tree"));
    };
    let same = bytes.as_slice() == again.as_slice();
    let nodes = u64::from(statements) * 4 + 1;
    let length = bytes.len();
    println!(rt; "{nodes} nodes, {length} bytes, the same: {same}")?;
    if let Some(name) = file {
        fs::write(rt, name, bytes.as_slice())?;
    }
    Ok(())
}

/// Decodes the image of this name from a file.
fn do_image(rt: &HostRuntime, name: &str, file: &str) -> anyhow::Result<()> {
    let bytes = fs::read(rt, file)?;
    match decode(rt.alloc(), bytes.as_slice(), name) {
        Ok(image) => {
            let count = kept(image.functions.len(), image);
            println!(rt; "{count} functions")?;
            Ok(())
        }
        Err(DecodeFault::Format { section }) => {
            println!(rt; "section {section}")?;
            Ok(())
        }
        Err(DecodeFault::NoMemory) => Err(anyhow!("no memory")),
    }
}

/// Does what a word asks for.
fn do_word(rt: &HostRuntime, word: &str) -> anyhow::Result<()> {
    let Some((verb, rest)) = word.split_once(':') else {
        return Err(anyhow!("tree:NODES, tree:NODES:FILE or image:NAME:FILE"));
    };
    match (verb, rest.split_once(':')) {
        ("tree", None) => do_tree(rt, rest, None),
        ("tree", Some((nodes, file))) => do_tree(rt, nodes, Some(file)),
        ("image", Some((name, file))) => do_image(rt, name, file),
        _ => Err(anyhow!("tree:NODES, tree:NODES:FILE or image:NAME:FILE")),
    }
}

fn main(rt: HostRuntime) -> anyhow::Result<()> {
    let words: Vec<String> = env::args(&rt)?.skip(1).collect(rt.alloc())?;
    for word in words.as_slice() {
        do_word(&rt, word.as_str())?;
    }
    Ok(())
}
