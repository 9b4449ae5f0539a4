//! The sections of an image that name things: functions, constants and trees.

ghost use Rattle.std.specs.Prelude.{◌≡◌, ◌∷◌, [], ◌++◌, List, OnOk, IfOk, length};
ghost use Rattle.std.specs.List.{zip};
ghost use Rattle.pj_session.specs.declared.own.Own.{Own};
ghost use Rattle.pj_build.specs.Own.{Named};
ghost use Rattle.pj_build.specs.Strings.{Grown};
ghost use Rattle.pj_build.specs.Sections.{KeptFunctions, KeptBindings, KeptBody, KeptTrees};

use crate::numbering::{number, numbered, numbered_syms};
use pj_base::{Name, Names, NoMemory};
use pj_parts::{Binding, BindingForm, FunDef, Value};
use pj_session::own::{Definition, Own};
use pj_tree::{Body, Stmt, TreeNode};
use sqlite_items::Items;
use std::alloc::Global;

/// Adds a function's name.
#[tactic(auto, using(crate::proofs::Kept::functions))]
fn add_function(
    alloc: Global,
    strings: &mut Names,
    name: &str,
    thing: &Own,
    functions: &mut Items<FunDef>,
) -> Result<(), NoMemory>
    ensures is { OnOk result ((named : Named) → KeptFunctions strings.old named functions.old → KeptFunctions strings.new (named ++ (name.now, thing.now) ∷ []) functions.new) }
    ensures grown { Grown strings.old strings.new }
{
    match thing {
        Own::Function(_) => {
            let name = number(alloc, strings, name)?;
            functions.push(FunDef { name })?;
            Ok(())
        }
        Own::Constant(_) => Ok(()),
    }
}

/// The functions that a package binds, in order.
#[tactic(auto, using(crate::proofs::Kept::functions))]
pub fn functions(
    alloc: Global,
    strings: &mut Names,
    names: &Names,
    things: &[Own],
) -> Result<Items<FunDef>, NoMemory>
    requires { length names.now ≡ length things.now }
    ensures is { IfOk result (λ fs. KeptFunctions strings.new (zip names.now things.now) fs) }
    ensures grown { Grown strings.old strings.new }
{
    let mut fs = Items::new(alloc);
    for (place, thing) in things.iter().enumerate() {
        let name = names.text(Name(place as u64));
        add_function(alloc, strings, name, thing, &mut fs)?;
    }
    Ok(fs)
}

/// Adds a constant.
#[tactic(auto, using(crate::proofs::Kept::bindings))]
fn add_binding(
    alloc: Global,
    strings: &mut Names,
    name: &str,
    thing: &Own,
    bindings: &mut Items<Binding>,
) -> Result<(), NoMemory>
    ensures is { OnOk result ((named : Named) → KeptBindings strings.old named bindings.old → KeptBindings strings.new (named ++ (name.now, thing.now) ∷ []) bindings.new) }
    ensures grown { Grown strings.old strings.new }
{
    match thing {
        Own::Function(_) => Ok(()),
        Own::Constant(z) => {
            let name = number(alloc, strings, name)?;
            bindings.push(Binding {
                name,
                form: BindingForm::Const,
                value: Value::Int(*z),
            })?;
            Ok(())
        }
    }
}

/// The constants that a package binds, in order.
#[tactic(auto, using(crate::proofs::Kept::bindings))]
pub fn bindings(
    alloc: Global,
    strings: &mut Names,
    names: &Names,
    things: &[Own],
) -> Result<Items<Binding>, NoMemory>
    requires { length names.now ≡ length things.now }
    ensures is { IfOk result (λ bs. KeptBindings strings.new (zip names.now things.now) bs) }
    ensures grown { Grown strings.old strings.new }
{
    let mut bs = Items::new(alloc);
    for (place, thing) in things.iter().enumerate() {
        let name = names.text(Name(place as u64));
        add_binding(alloc, strings, name, thing, &mut bs)?;
    }
    Ok(bs)
}

/// The tree of a function: its parameters, and its only statement.
#[tactic(auto, using(crate::proofs::Kept::bodies))]
fn body(alloc: Global, strings: &mut Names, d: &Definition) -> Result<TreeNode, NoMemory>
    ensures is { IfOk result (λ t. KeptBody strings.new d.now t) }
    ensures grown { Grown strings.old strings.new }
{
    let params = numbered_syms(alloc, strings, d.params.as_slice())?;
    let value = numbered(alloc, strings, &d.body)?;
    let mut block = Items::new(alloc);
    block.push(Stmt::Value(value))?;
    let introduced = Items::new(alloc);
    Ok(TreeNode::Body(Body {
        params,
        introduced,
        block,
    }))
}

/// Adds a function's tree.
#[tactic(auto, using(crate::proofs::Kept::trees))]
fn add_tree(
    alloc: Global,
    strings: &mut Names,
    thing: &Own,
    trees: &mut Items<TreeNode>,
) -> Result<(), NoMemory>
    ensures is { OnOk result ((things : List Own) → KeptTrees strings.old things trees.old → KeptTrees strings.new (things ++ thing.now ∷ []) trees.new) }
    ensures grown { Grown strings.old strings.new }
{
    match thing {
        Own::Function(d) => {
            let tree = body(alloc, strings, d)?;
            trees.push(tree)?;
            Ok(())
        }
        Own::Constant(_) => Ok(()),
    }
}

/// The trees of a package's functions, in order.
#[tactic(auto, using(crate::proofs::Kept::trees))]
pub fn trees(
    alloc: Global,
    strings: &mut Names,
    things: &[Own],
) -> Result<Items<TreeNode>, NoMemory>
    ensures is { IfOk result (λ ts. KeptTrees strings.new things.now ts) }
    ensures grown { Grown strings.old strings.new }
{
    let mut ts = Items::new(alloc);
    for thing in things {
        add_tree(alloc, strings, thing, &mut ts)?;
    }
    Ok(ts)
}
