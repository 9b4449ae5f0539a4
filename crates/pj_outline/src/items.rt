//! The lines of items, and of whole scripts and packages.

ghost use Rattle.std.specs.Prelude.{◌≡◌, ◌++◌, OnOk, codes};
ghost use Rattle.pj_outline.specs.Outline.{if_mutable, using_line, abstract_start, abstract_line, struct_line, directive_line, item, items, uses, commas};

use crate::expressions::put_expr;
use crate::lines::{put_names, put_owned_name, put_params, put_type, put_types};
use crate::names::{deeper, put, put_margin, put_name, put_named, put_plain};
use crate::statements::{put_def, put_stmt};
use pj_base::{ByteList, NoMemory, Text};
use pj_tree::{Param, Sym, TopItem, TypeRef};
use std::alloc::Global;

#[tactic(auto, using(crate::proofs::Texts::appended), unfolding(crate::specs::Outline::using_line))]
fn put_using(
    alloc: Global,
    strings: &[Text],
    level: usize,
    used: &[Sym],
    out: &mut ByteList,
) -> Result<(), NoMemory>
    ensures { OnOk result (out.new ≡ out.old ++ using_line strings.now level used.now) }
{
    put_margin(level, out)?;
    put("Using ", out)?;
    put_names(alloc, strings, used, out)?;
    put("\n", out)
}

#[tactic(auto, using(crate::proofs::Texts::appended), unfolding(crate::specs::Outline::abstract_start))]
fn start_abstract(level: usize, out: &mut ByteList) -> Result<(), NoMemory>
    ensures { OnOk result (out.new ≡ out.old ++ abstract_start level) }
{
    put_margin(level, out)?;
    put("AbstractDef ", out)
}

#[tactic(auto, using(crate::proofs::Texts::appended), unfolding(crate::specs::Outline::abstract_line))]
fn put_abstract(
    alloc: Global,
    strings: &[Text],
    level: usize,
    sym: &Sym,
    parent: &TypeRef,
    out: &mut ByteList,
) -> Result<(), NoMemory>
    ensures { OnOk result (out.new ≡ out.old ++ abstract_line strings.now level sym.now parent.now) }
{
    start_abstract(level, out)?;
    put_name(alloc, strings, sym, out)?;
    put(" <: ", out)?;
    put_type(alloc, strings, parent, out)?;
    put("\n", out)
}

fn put_if_mutable(mutable: bool, out: &mut ByteList) -> Result<(), NoMemory>
    ensures { OnOk result (out.new ≡ out.old ++ if_mutable mutable) }
{
    if mutable {
        put("mutable ", out)
    } else {
        Ok(())
    }
}

#[tactic(auto, using(crate::proofs::Texts::appended), unfolding(crate::specs::Outline::struct_line))]
fn put_struct(
    alloc: Global,
    strings: &[Text],
    level: usize,
    mutable: bool,
    sym: &Sym,
    parent: &TypeRef,
    fields: &[Param],
    out: &mut ByteList,
) -> Result<(), NoMemory>
    ensures { OnOk result (out.new ≡ out.old ++ struct_line strings.now level mutable sym.now parent.now fields.now) }
{
    put_margin(level, out)?;
    put("StructDef ", out)?;
    put_if_mutable(mutable, out)?;
    put_name(alloc, strings, sym, out)?;
    put(" <: ", out)?;
    put_type(alloc, strings, parent, out)?;
    put(" (", out)?;
    put_params(alloc, strings, fields, out)?;
    put(")\n", out)
}

#[tactic(auto, using(crate::proofs::Texts::appended), unfolding(crate::specs::Outline::directive_line))]
fn put_directive(
    alloc: Global,
    strings: &[Text],
    level: usize,
    owner: &Sym,
    fun: &Sym,
    types: &[TypeRef],
    out: &mut ByteList,
) -> Result<(), NoMemory>
    ensures { OnOk result (out.new ≡ out.old ++ directive_line strings.now level owner.now fun.now types.now) }
{
    put_margin(level, out)?;
    put("Directive ", out)?;
    put_owned_name(alloc, strings, owner, fun, out)?;
    put(" (", out)?;
    put_types(alloc, strings, types, out)?;
    put(")\n", out)
}

/// Adds an item at a level.
#[tactic(auto, using(crate::proofs::Texts::appended), unfolding(crate::specs::Outline::item))]
pub fn put_item(
    alloc: Global,
    strings: &[Text],
    level: usize,
    one: &TopItem,
    out: &mut ByteList,
) -> Result<(), NoMemory>
    ensures { OnOk result (out.new ≡ out.old ++ item strings.now one.now level) }
{
    match one {
        TopItem::Using(used) => put_using(alloc, strings, level, used.as_slice(), out),
        TopItem::AbstractDef { name, parent } => {
            put_abstract(alloc, strings, level, name, parent, out)
        }
        TopItem::StructDef {
            mutable,
            name,
            parent,
            fields,
        } => put_struct(
            alloc,
            strings,
            level,
            *mutable,
            name,
            parent,
            fields.as_slice(),
            out,
        ),
        TopItem::Def(d) => put_def(alloc, strings, level, d, out),
        TopItem::Declare(fun) => put_named(alloc, strings, level, "Declare", fun, out),
        TopItem::Const { name, value } => {
            put_named(alloc, strings, level, "Const", name, out)?;
            put_expr(alloc, strings, deeper(level)?, value, out)
        }
        TopItem::Directive { module, fun, types } => put_directive(
            alloc,
            strings,
            level,
            module,
            fun,
            types.as_slice(),
            out,
        ),
        TopItem::Run(statement) => {
            put_plain(level, "Run", out)?;
            put_stmt(alloc, strings, deeper(level)?, statement, out)
        }
    }
}

/// Adds items one after the other.
#[tactic(auto, using(crate::proofs::Texts::appended), unfolding(crate::specs::Outline::items))]
pub fn put_items(
    alloc: Global,
    strings: &[Text],
    level: usize,
    all: &[TopItem],
    out: &mut ByteList,
) -> Result<(), NoMemory>
    ensures { OnOk result (out.new ≡ out.old ++ items strings.now all.now level) }
{
    for one in all {
        put_item(alloc, strings, level, one, out)?;
    }
    Ok(())
}

/// Adds texts with a comma and a blank between them.
#[tactic(auto, using(crate::proofs::Texts::appended), unfolding(crate::specs::Outline::commas))]
fn put_texts(all: &[Text], out: &mut ByteList) -> Result<(), NoMemory>
    ensures { OnOk result (out.new ≡ out.old ++ commas (λ text. text) all.now) }
{
    let [first, rest @ ..] = all else {
        return Ok(());
    };
    put(first.as_str(), out)?;
    for one in rest {
        put(", ", out)?;
        put(one.as_str(), out)?;
    }
    Ok(())
}

#[tactic(auto, using(crate::proofs::Texts::appended))]
fn put_some_uses(all: &[Text], out: &mut ByteList) -> Result<(), NoMemory>
    ensures { OnOk result (out.new ≡ out.old ++ (codes " using " ++ commas (λ text. text) all.now)) }
{
    put(" using ", out)?;
    put_texts(all, out)
}

/// Adds the packages that a package uses, or nothing where it uses none.
#[tactic(auto, using(crate::proofs::Texts::appended), unfolding(crate::specs::Outline::uses))]
pub fn put_uses(all: &[Text], out: &mut ByteList) -> Result<(), NoMemory>
    ensures { OnOk result (out.new ≡ out.old ++ uses all.now) }
{
    match all {
        [] => Ok(()),
        [_, ..] => put_some_uses(all, out),
    }
}
