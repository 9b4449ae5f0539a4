//! Lists of names, and the lines of nodes that have them.

ghost use Rattle.std.specs.Prelude.{◌≡◌, ◌++◌, OnOk, flat_map};
ghost use Rattle.pj_outline.specs.Outline.{escape, pointed, owned_name, behind_blank, names, commas, type_name, param, params, introduces, introducing, owned, quoted, eval_line, while_line, for_line, body_line, def_line};

use crate::names::{put, put_margin, put_name};
use pj_base::{ByteList, NoMemory, Text};
use pj_tree::{Body, DefTree, Param, Sym, TypeRef};
use std::alloc::Global;

/// Adds a byte, after a backslash where it is a backslash, a quote, a line feed, a tab or a dollar.
#[tactic(auto, unfolding(crate::specs::Outline::escape))]
fn put_byte(byte: u8, out: &mut ByteList) -> Result<(), NoMemory>
    ensures { OnOk result (out.new ≡ out.old ++ escape byte) }
{
    match byte {
        b'\\' => put("\\\\", out),
        b'"' => put("\\\"", out),
        b'\n' => put("\\n", out),
        b'\t' => put("\\t", out),
        b'$' => put("\\$", out),
        other => out.extend(&[other]),
    }
}

/// Adds a text with a backslash before each backslash, quote, line feed, tab and dollar.
#[tactic(auto, using(crate::proofs::Texts::appended))]
fn put_escaped(text: &[u8], out: &mut ByteList) -> Result<(), NoMemory>
    ensures { OnOk result (out.new ≡ out.old ++ flat_map escape text.now) }
{
    for byte in text {
        put_byte(*byte, out)?;
    }
    Ok(())
}

/// Adds the line of a string.
#[tactic(auto, using(crate::proofs::Texts::appended), unfolding(crate::specs::Outline::quoted))]
pub fn put_quoted(
    alloc: Global,
    strings: &[Text],
    level: usize,
    sym: &Sym,
    out: &mut ByteList,
) -> Result<(), NoMemory>
    ensures { OnOk result (out.new ≡ out.old ++ quoted strings.now level sym.now) }
{
    let mut text = ByteList::new(alloc);
    put_name(alloc, strings, sym, &mut text)?;
    put_margin(level, out)?;
    put("Str \"", out)?;
    put_escaped(text.as_slice(), out)?;
    put("\"\n", out)
}

/// Adds a module and the point behind it, or nothing where the module is empty.
fn put_pointed(owner: &[u8], out: &mut ByteList) -> Result<(), NoMemory>
    ensures { OnOk result (out.new ≡ out.old ++ pointed owner.now) }
{
    match owner {
        [] => Ok(()),
        [_, ..] => {
            out.extend(owner)?;
            put(".", out)
        }
    }
}

/// Adds a name with the module that is written before it.
#[tactic(auto, using(crate::proofs::Texts::appended), unfolding(crate::specs::Outline::owned_name))]
pub fn put_owned_name(
    alloc: Global,
    strings: &[Text],
    owner: &Sym,
    sym: &Sym,
    out: &mut ByteList,
) -> Result<(), NoMemory>
    ensures { OnOk result (out.new ≡ out.old ++ owned_name strings.now owner.now sym.now) }
{
    let mut text = ByteList::new(alloc);
    put_name(alloc, strings, owner, &mut text)?;
    put_pointed(text.as_slice(), out)?;
    put_name(alloc, strings, sym, out)
}

/// Adds a line of a word and a name with its module.
#[tactic(auto, using(crate::proofs::Texts::appended), unfolding(crate::specs::Outline::owned))]
pub fn put_owned(
    alloc: Global,
    strings: &[Text],
    level: usize,
    word: &str,
    owner: &Sym,
    sym: &Sym,
    out: &mut ByteList,
) -> Result<(), NoMemory>
    ensures { OnOk result (out.new ≡ out.old ++ owned strings.now level word.now owner.now sym.now) }
{
    put_margin(level, out)?;
    put(word, out)?;
    put(" ", out)?;
    put_owned_name(alloc, strings, owner, sym, out)?;
    put("\n", out)
}

/// Adds names with a comma and a blank between them.
#[tactic(auto, using(crate::proofs::Texts::appended), unfolding(crate::specs::Outline::commas))]
pub fn put_names(
    alloc: Global,
    strings: &[Text],
    all: &[Sym],
    out: &mut ByteList,
) -> Result<(), NoMemory>
    ensures { OnOk result (out.new ≡ out.old ++ names strings.now all.now) }
{
    let [first, rest @ ..] = all else {
        return Ok(());
    };
    put_name(alloc, strings, first, out)?;
    for sym in rest {
        put(", ", out)?;
        put_name(alloc, strings, sym, out)?;
    }
    Ok(())
}

/// Adds a type as a text names it.
#[tactic(auto, unfolding(crate::specs::Outline::type_name))]
pub fn put_type(
    alloc: Global,
    strings: &[Text],
    named: &TypeRef,
    out: &mut ByteList,
) -> Result<(), NoMemory>
    ensures { OnOk result (out.new ≡ out.old ++ type_name strings.now named.now) }
{
    put_owned_name(alloc, strings, &named.module, &named.name, out)
}

/// Adds types with a comma and a blank between them.
#[tactic(auto, using(crate::proofs::Texts::appended), unfolding(crate::specs::Outline::commas))]
pub fn put_types(
    alloc: Global,
    strings: &[Text],
    all: &[TypeRef],
    out: &mut ByteList,
) -> Result<(), NoMemory>
    ensures { OnOk result (out.new ≡ out.old ++ commas (type_name strings.now) all.now) }
{
    let [first, rest @ ..] = all else {
        return Ok(());
    };
    put_type(alloc, strings, first, out)?;
    for named in rest {
        put(", ", out)?;
        put_type(alloc, strings, named, out)?;
    }
    Ok(())
}

/// Adds a parameter or a field with its type.
#[tactic(auto, using(crate::proofs::Texts::appended), unfolding(crate::specs::Outline::param))]
fn put_param(
    alloc: Global,
    strings: &[Text],
    one: &Param,
    out: &mut ByteList,
) -> Result<(), NoMemory>
    ensures { OnOk result (out.new ≡ out.old ++ param strings.now one.now) }
{
    put_name(alloc, strings, &one.name, out)?;
    put("::", out)?;
    put_type(alloc, strings, &one.declared, out)
}

/// Adds parameters or fields with a comma and a blank between them.
#[tactic(auto, using(crate::proofs::Texts::appended), unfolding(crate::specs::Outline::commas))]
pub fn put_params(
    alloc: Global,
    strings: &[Text],
    all: &[Param],
    out: &mut ByteList,
) -> Result<(), NoMemory>
    ensures { OnOk result (out.new ≡ out.old ++ params strings.now all.now) }
{
    let [first, rest @ ..] = all else {
        return Ok(());
    };
    put_param(alloc, strings, first, out)?;
    for one in rest {
        put(", ", out)?;
        put_param(alloc, strings, one, out)?;
    }
    Ok(())
}

#[tactic(auto, unfolding(crate::specs::Outline::introduces))]
fn put_introduces(out: &mut ByteList) -> Result<(), NoMemory>
    ensures { OnOk result (out.new ≡ out.old ++ introduces) }
{
    put(" introduces ", out)
}

/// Adds what a scope introduces.
#[tactic(auto, using(crate::proofs::Texts::appended))]
fn put_some_introduced(
    alloc: Global,
    strings: &[Text],
    all: &[Sym],
    out: &mut ByteList,
) -> Result<(), NoMemory>
    ensures { OnOk result (out.new ≡ out.old ++ (introduces ++ names strings.now all.now)) }
{
    put_introduces(out)?;
    put_names(alloc, strings, all, out)
}

/// Adds what a scope introduces, or nothing where it introduces nothing.
#[tactic(auto, using(crate::proofs::Texts::appended), unfolding(crate::specs::Outline::introducing))]
fn put_introduced(
    alloc: Global,
    strings: &[Text],
    all: &[Sym],
    out: &mut ByteList,
) -> Result<(), NoMemory>
    ensures { OnOk result (out.new ≡ out.old ++ introducing strings.now all.now) }
{
    match all {
        [] => Ok(()),
        [_, ..] => put_some_introduced(alloc, strings, all, out),
    }
}

/// Adds the line of a While, without what stands below it.
#[tactic(auto, using(crate::proofs::Texts::appended), unfolding(crate::specs::Outline::while_line))]
pub fn put_while_line(
    alloc: Global,
    strings: &[Text],
    level: usize,
    introduced: &[Sym],
    out: &mut ByteList,
) -> Result<(), NoMemory>
    ensures { OnOk result (out.new ≡ out.old ++ while_line strings.now level introduced.now) }
{
    put_margin(level, out)?;
    put("While", out)?;
    put_introduced(alloc, strings, introduced, out)?;
    put("\n", out)
}

/// Adds the line of a For, without what stands below it.
#[tactic(auto, using(crate::proofs::Texts::appended), unfolding(crate::specs::Outline::for_line))]
pub fn put_for_line(
    alloc: Global,
    strings: &[Text],
    level: usize,
    sym: &Sym,
    introduced: &[Sym],
    out: &mut ByteList,
) -> Result<(), NoMemory>
    ensures { OnOk result (out.new ≡ out.old ++ for_line strings.now level sym.now introduced.now) }
{
    put_margin(level, out)?;
    put("For ", out)?;
    put_name(alloc, strings, sym, out)?;
    put_introduced(alloc, strings, introduced, out)?;
    put("\n", out)
}

/// Adds a module behind a blank, or nothing where the module is empty.
#[tactic(auto, using(crate::proofs::Texts::appended))]
fn put_behind_blank(owner: &[u8], out: &mut ByteList) -> Result<(), NoMemory>
    ensures { OnOk result (out.new ≡ out.old ++ behind_blank owner.now) }
{
    match owner {
        [] => Ok(()),
        [_, ..] => {
            put(" ", out)?;
            out.extend(owner)
        }
    }
}

/// Adds the line of an Eval, without what stands below it.
#[tactic(auto, using(crate::proofs::Texts::appended), unfolding(crate::specs::Outline::eval_line))]
pub fn put_eval_line(
    alloc: Global,
    strings: &[Text],
    level: usize,
    owner: &Sym,
    out: &mut ByteList,
) -> Result<(), NoMemory>
    ensures { OnOk result (out.new ≡ out.old ++ eval_line strings.now level owner.now) }
{
    let mut text = ByteList::new(alloc);
    put_name(alloc, strings, owner, &mut text)?;
    put_margin(level, out)?;
    put("Eval", out)?;
    put_behind_blank(text.as_slice(), out)?;
    put("\n", out)
}

/// Adds the line of a Body, without what stands below it.
#[tactic(auto, using(crate::proofs::Texts::appended), unfolding(crate::specs::Outline::body_line))]
pub fn put_body_line(
    alloc: Global,
    strings: &[Text],
    level: usize,
    body: &Body,
    out: &mut ByteList,
) -> Result<(), NoMemory>
    ensures { OnOk result (out.new ≡ out.old ++ body_line strings.now level body.now.params body.now.introduced) }
{
    put_margin(level, out)?;
    put("Body (", out)?;
    put_names(alloc, strings, body.params.as_slice(), out)?;
    put(")", out)?;
    put_introduced(alloc, strings, body.introduced.as_slice(), out)?;
    put("\n", out)
}

/// Adds the line of a definition, without its body.
#[tactic(auto, using(crate::proofs::Texts::appended), unfolding(crate::specs::Outline::def_line))]
pub fn put_def_line(
    alloc: Global,
    strings: &[Text],
    level: usize,
    defined: &DefTree,
    out: &mut ByteList,
) -> Result<(), NoMemory>
    ensures { OnOk result (out.new ≡ out.old ++ def_line strings.now level defined.now.«module» defined.now.fun defined.now.params) }
{
    put_margin(level, out)?;
    put("Def ", out)?;
    put_owned_name(alloc, strings, &defined.module, &defined.fun, out)?;
    put(" (", out)?;
    put_params(alloc, strings, defined.params.as_slice(), out)?;
    put(")\n", out)
}
