//! Items of each kind, as texts, and their copies.

use crate::tally::Tally;
use crate::trees::{bytes_of, strings, tree_of};
use pj_base::release::kept;
use pj_base::{ByteList, NoMemory, Text};
use pj_outline::{outline_item, outline_package, outline_script};
use pj_tree::{
    DefTree, Expr, ItemList, PackageTree, Param, ParamList, Part, ScriptTree, Stmt, Sym, TextList,
    TopItem, TypeRef, copy_item, copy_items,
};
use sqlite_items::{Boxed, Items};
use std::alloc::Global;

/// The tree of these numbers, held.
fn held(alloc: Global, numbers: &str) -> anyhow::Result<Part> {
    let bytes = bytes_of(alloc, numbers)?;
    let tree = tree_of(alloc, bytes.as_slice())?;
    Ok(Part::Held(Boxed::new(alloc, tree)?))
}

fn named(owner: u32, name: u32) -> TypeRef {
    TypeRef {
        module: Sym::Number(owner),
        name: Sym::Number(name),
    }
}

fn fields(alloc: Global) -> Result<ParamList, NoMemory> {
    let mut fields = Items::new(alloc);
    fields.push(Param {
        name: Sym::Number(1),
        declared: named(0, 2),
    })?;
    Ok(fields)
}

/// A struct `t` below `f`.
fn struct_item(alloc: Global, mutable: bool) -> Result<TopItem, NoMemory> {
    Ok(TopItem::StructDef {
        mutable,
        name: Sym::Number(3),
        parent: named(0, 4),
        fields: fields(alloc)?,
    })
}

/// A use of two packages.
fn using_item(alloc: Global) -> Result<TopItem, NoMemory> {
    let used = vec![in alloc; Sym::Number(1), Sym::Number(2)]?;
    Ok(TopItem::Using(Items::from_vec(used)))
}

/// A method of `f`, whose tree is held.
fn def_item(alloc: Global) -> anyhow::Result<TopItem> {
    let body = held(alloc, "67 1 1 0 1 41 5 1")?;
    Ok(TopItem::Def(DefTree {
        module: Sym::Number(0),
        fun: Sym::Number(4),
        params: fields(alloc)?,
        body,
    }))
}

/// A directive with two types.
fn directive_item(alloc: Global) -> Result<TopItem, NoMemory> {
    let types = vec![in alloc; named(0, 2), named(5, 3)]?;
    Ok(TopItem::Directive {
        module: Sym::Number(0),
        fun: Sym::Number(4),
        types: Items::from_vec(types),
    })
}

/// A constant that is a number, and an evaluation whose tree is held.
fn push_last(alloc: Global, list: &mut ItemList) -> anyhow::Result<()> {
    list.push(TopItem::Const {
        name: Sym::Number(1),
        value: Expr::Int(-5),
    })?;
    list.push(directive_item(alloc)?)?;
    let payload = held(alloc, "66 4 7")?;
    list.push(TopItem::Run(Stmt::Eval(Sym::Number(0), payload)))?;
    Ok(())
}

/// An item of each kind, with trees that are held, and a text that is.
fn all_items(alloc: Global) -> anyhow::Result<ItemList> {
    let mut list = Items::new(alloc);
    list.push(using_item(alloc)?)?;
    list.push(TopItem::AbstractDef {
        name: Sym::Number(1),
        parent: named(5, 2),
    })?;
    list.push(struct_item(alloc, true)?)?;
    list.push(struct_item(alloc, false)?)?;
    list.push(def_item(alloc)?)?;
    list.push(TopItem::Declare(Sym::Text(Text::from_str(alloc, "g")?)))?;
    push_last(alloc, &mut list)?;
    Ok(list)
}

/// Counts a row on a text, for which these lines should come.
fn expect(tally: &mut Tally<'_>, row: &str, wanted: &str, came: &ByteList) -> anyhow::Result<()> {
    let text = str::from_utf8(came.as_slice())?;
    tally.expect(row, wanted, text)
}

/// The texts of these names.
fn names(alloc: Global, list: &[&str]) -> Result<TextList, NoMemory> {
    let mut names = Items::new(alloc);
    for name in list {
        names.push(Text::from_str(alloc, name)?)?;
    }
    Ok(names)
}

/// What a script prints.
fn script_text(alloc: Global, script: &ScriptTree) -> Result<ByteList, NoMemory> {
    let strings = strings(alloc)?;
    outline_script(alloc, strings.as_slice(), script)
}

/// What a script of items prints, which are let go.
fn script_of(alloc: Global, items: ItemList) -> Result<ByteList, NoMemory> {
    let script = ScriptTree { items };
    kept(script_text(alloc, &script), script)
}

/// What a package prints.
fn package_text(alloc: Global, package: &PackageTree) -> Result<ByteList, NoMemory> {
    let strings = strings(alloc)?;
    outline_package(alloc, strings.as_slice(), package)
}

/// What a package of items prints that uses others; all of it is let go.
fn package_of(
    alloc: Global,
    name: Text,
    uses: TextList,
    items: ItemList,
) -> Result<ByteList, NoMemory> {
    let package = PackageTree { name, uses, items };
    kept(package_text(alloc, &package), package)
}

/// What a package of a copy of each item prints.
fn whole_package(alloc: Global) -> anyhow::Result<ByteList> {
    let name = Text::from_str(alloc, "P")?;
    let uses = names(alloc, &["A", "B"])?;
    let items = copies(alloc)?;
    Ok(package_of(alloc, name, uses, items)?)
}

/// What a package without items prints.
fn bare_package(alloc: Global) -> Result<ByteList, NoMemory> {
    let name = Text::from_str(alloc, "P")?;
    package_of(alloc, name, Items::new(alloc), Items::new(alloc))
}

/// What an item prints.
fn item_text(alloc: Global, item: &TopItem) -> Result<ByteList, NoMemory> {
    let strings = strings(alloc)?;
    outline_item(alloc, strings.as_slice(), item)
}

/// What a copy of an item prints that declares a name which is no string.
fn declared(alloc: Global) -> Result<ByteList, NoMemory> {
    let item = TopItem::Declare(Sym::Number(9));
    let copy = kept(copy_item(alloc, &item), item)?;
    kept(item_text(alloc, &copy), copy)
}

/// A copy of an item of each kind.
fn copies(alloc: Global) -> anyhow::Result<ItemList> {
    let list = all_items(alloc)?;
    Ok(kept(copy_items(alloc, list.as_slice()), list)?)
}

/// Tries what items and their copies print as those of a script.
fn try_script(tally: &mut Tally<'_>, listed: &str) -> anyhow::Result<()> {
    let alloc = tally.alloc();
    let wanted = format!(in alloc; "Script\n{listed}")?;
    let wanted = wanted.as_str();
    expect(
        tally,
        "items",
        wanted,
        &script_of(alloc, all_items(alloc)?)?,
    )?;
    expect(tally, "copies", wanted, &script_of(alloc, copies(alloc)?)?)
}

/// Tries what copies of items print as those of a package.
fn try_package(tally: &mut Tally<'_>, listed: &str) -> anyhow::Result<()> {
    let wanted = format!(in tally.alloc(); "Package P using A, B\n{listed}")?;
    let came = whole_package(tally.alloc())?;
    expect(tally, "a package", wanted.as_str(), &came)
}

/// Tries what is printed of no items, and of a name that is no string.
fn try_short(tally: &mut Tally<'_>) -> anyhow::Result<()> {
    let alloc = tally.alloc();
    expect(
        tally,
        "a bare package",
        "Package P\n",
        &bare_package(alloc)?,
    )?;
    expect(tally, "a number", "Declare #9\n", &declared(alloc)?)
}

/// Tries what items print, as those of a script and of a package, and what their copies print.
pub fn items(tally: &mut Tally<'_>, listed: &str) -> anyhow::Result<()> {
    try_script(tally, listed)?;
    try_package(tally, listed)?;
    try_short(tally)
}
