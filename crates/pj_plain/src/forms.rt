//! Which scripts and which packages run.
ghost use Rattle.std.specs.Prelude.{◌≡◌, ◌&&◌, ◌++◌, [], true, not, map, IfOk, OnOk};
ghost use Rattle.pj_tree.specs.Reads.{texts_of};
ghost use Rattle.pj_plain.specs.Forms.{is_new, is_start, known_behind, may_be_constant, package_form, package_item, package_items, script_form, script_item, script_items, used_behind};
ghost use Rattle.pj_plain.specs.Held.{held_def, held_expr, held_item, held_package, held_parts, held_script, no_strings};
ghost use Rattle.pj_plain.specs.Members.{SameMembers};
ghost use Rattle.pj_plain.specs.Names.{free_name};

use crate::definition_form::{is_free, is_plain_definition};
use crate::held::text;
use crate::own_names::OwnNames;
use crate::printed_form::{is_constant, is_shown};
use pj_base::{Names, NoMemory};
use pj_tree::tree::Expr as Tree;
use pj_tree::{DefTree, PackageTree, ScriptTree, Sym, TopItem};
use std::alloc::Global;

/// Whether a name is not known.
fn is_new(own: &OwnNames, name: &str) -> bool
    ensures { result ≡ is_new name.now own.now }
{
    own.role(name).is_none()
}

/// Whether an item is of a script's form, where these names are known and these packages are used.
fn is_script_item(own: &OwnNames, used: &Names, item: &TopItem) -> bool
    ensures { result ≡ script_item own.now used.now (held_item item.now) }
{
    match item {
        TopItem::Using(_) => true,
        TopItem::Def(d) => is_new(own, text(&d.fun)) && is_plain_definition(d),
        TopItem::Run(s) => is_shown(own, used, s),
        TopItem::Declare(_) | TopItem::AbstractDef { .. } | TopItem::StructDef { .. } => false,
        TopItem::Const { .. } | TopItem::Directive { .. } => false,
    }
}

/// Whether an item is of a package's form, where these names are known.
fn is_package_item(own: &OwnNames, item: &TopItem) -> bool
    ensures { result ≡ package_item own.now (held_item item.now) }
{
    match item {
        TopItem::Def(d) => {
            let name = text(&d.fun);
            is_new(own, name) && name != "__init__" && is_plain_definition(d)
        }
        TopItem::Const { name, value } => is_new_constant(own, text(name), value),
        TopItem::Using(_) | TopItem::Run(_) | TopItem::Declare(_) => false,
        TopItem::AbstractDef { .. } | TopItem::StructDef { .. } => false,
        TopItem::Directive { .. } => false,
    }
}

/// Whether a constant has a new name that is free, and may be this.
fn is_new_constant(own: &OwnNames, name: &str, value: &Tree) -> bool
    ensures { result ≡ (is_new name.now own.now && (not (is_start name.now) && (free_name name.now && may_be_constant own.now (held_expr value.now)))) }
{
    is_new(own, name) && name != "__init__" && is_free(name) && is_constant(own, value)
}

/// Adds a function that is new.
fn add_definition(alloc: Global, own: &mut OwnNames, d: &DefTree) -> Result<(), NoMemory>
    requires { is_new (held_parts d.now).fun own.old ≡ true }
    ensures { OnOk result (own.new ≡ known_behind own.old (held_def d.now)) }
{
    own.add(alloc, text(&d.fun), Some(d.params.len()))
}

/// Adds packages to those that are used.
fn add_packages(alloc: Global, used: &mut Names, names: &[Sym]) -> Result<(), NoMemory>
    ensures { OnOk result (SameMembers used.new (used.old ++ texts_of no_strings names.now)) }
{
    for name in names {
        used.intern(alloc, text(name))?;
    }
    Ok(())
}

/// Adds what an item of a script's form defines or uses.
fn add_script_item(
    alloc: Global,
    own: &mut OwnNames,
    used: &mut Names,
    item: &TopItem,
) -> Result<(), NoMemory>
    requires { script_item own.old used.old (held_item item.now) ≡ true }
    ensures known { OnOk result (own.new ≡ known_behind own.old (held_item item.now)) }
    ensures used { OnOk result (SameMembers used.new (used_behind used.old (held_item item.now))) }
{
    match item {
        TopItem::Using(names) => add_packages(alloc, used, names.as_slice()),
        TopItem::Def(d) => add_definition(alloc, own, d),
        TopItem::Run(_) => Ok(()),
        TopItem::Declare(_) | TopItem::AbstractDef { .. } | TopItem::StructDef { .. } => Ok(()),
        TopItem::Const { .. } | TopItem::Directive { .. } => Ok(()),
    }
}

/// Adds what an item of a package's form defines.
fn add_package_item(alloc: Global, own: &mut OwnNames, item: &TopItem) -> Result<(), NoMemory>
    requires { package_item own.old (held_item item.now) ≡ true }
    ensures { OnOk result (own.new ≡ known_behind own.old (held_item item.now)) }
{
    match item {
        TopItem::Def(d) => add_definition(alloc, own, d),
        TopItem::Const { name, value: _ } => own.add(alloc, text(name), None),
        TopItem::Using(_) | TopItem::Run(_) | TopItem::Declare(_) => Ok(()),
        TopItem::AbstractDef { .. } | TopItem::StructDef { .. } => Ok(()),
        TopItem::Directive { .. } => Ok(()),
    }
}

/// Whether items are of a script's form.
fn are_script_items(alloc: Global, items: &[TopItem]) -> Result<bool, NoMemory>
    ensures { IfOk result (λ b. b ≡ script_items [] [] (map held_item items.now)) }
{
    let mut own = OwnNames::new(alloc);
    let mut used = Names::new(alloc);
    for item in items {
        if !is_script_item(&own, &used, item) {
            return Ok(false);
        }
        add_script_item(alloc, &mut own, &mut used, item)?;
    }
    Ok(true)
}

/// Whether items are of a package's form.
fn are_package_items(alloc: Global, items: &[TopItem]) -> Result<bool, NoMemory>
    ensures { IfOk result (λ b. b ≡ package_items [] (map held_item items.now)) }
{
    let mut own = OwnNames::new(alloc);
    for item in items {
        if !is_package_item(&own, item) {
            return Ok(false);
        }
        add_package_item(alloc, &mut own, item)?;
    }
    Ok(true)
}

/// Whether a script is of the form that runs: lines of `using`, functions of whole numbers, and calls of `println` with
/// what these or used packages give.
pub fn script_runs(alloc: Global, tree: &ScriptTree) -> Result<bool, NoMemory>
    ensures { IfOk result (λ b. b ≡ script_form (held_script tree.now)) }
{
    are_script_items(alloc, tree.items.as_slice())
}

/// Whether a package is of the form that runs: it uses none, and has functions of whole numbers and constants.
pub fn package_runs(alloc: Global, tree: &PackageTree) -> Result<bool, NoMemory>
    ensures { IfOk result (λ b. b ≡ package_form (held_package tree.now)) }
{
    if !tree.uses.is_empty() {
        return Ok(false);
    }
    are_package_items(alloc, tree.items.as_slice())
}
