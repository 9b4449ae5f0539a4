//! Items, scripts and packages.
ghost use Rattle.std.specs.Prelude.{◌≡◌, ◌∷◌, ◌++◌, [], map, true, IfOk, OnOk};
ghost use Rattle.pj_scopes.specs.Made.{statement_tree};
ghost use Rattle.pj_scopes.specs.Resolved.{item, package_tree, script, spelling};

use crate::statement::{method, statement};
use crate::value::{alone, value};
use crate::word::{
    all_params, maybe_type, path_home, path_name, path_types, spot_word, spot_words,
};
use pj_base::{NoMemory, Text};
use pj_faults::NameSet;
use pj_syntax::{Item, Package, Script, Spot, Stmt};
use pj_tree::{ItemList, PackageTree, ScriptTree, Stmt as Tree, TextList, TopItem};
use sqlite_items::Items;
use std::alloc::Global;

/// The tree of a statement at top level.
fn run(alloc: Global, s: &Stmt) -> Result<Tree, NoMemory>
    ensures { IfOk result (λ t. t ≡ statement_tree true [] s.now) }
{
    let mut names = NameSet::new(alloc);
    statement(alloc, true, &mut names, s)
}

/// The tree of an item.
#[tactic(auto, using(crate::proofs::ItemTrees::item_trees))]
fn one_item(alloc: Global, given: &Item) -> Result<TopItem, NoMemory>
    ensures { IfOk result (λ t. t ≡ item given.now) }
{
    match given {
        Item::Using(names) => Ok(TopItem::Using(spot_words(alloc, names.as_slice())?)),
        Item::Abstract { name, parent } => Ok(TopItem::AbstractDef {
            name: spot_word(alloc, name)?,
            parent: maybe_type(alloc, parent)?,
        }),
        Item::Struct {
            mutable,
            name,
            parent,
            fields,
        } => Ok(TopItem::StructDef {
            mutable: *mutable,
            name: spot_word(alloc, name)?,
            parent: maybe_type(alloc, parent)?,
            fields: all_params(alloc, fields.as_slice())?,
        }),
        Item::Def(f) => Ok(TopItem::Def(method(alloc, f)?)),
        Item::Declare(f) => Ok(TopItem::Declare(spot_word(alloc, f)?)),
        Item::Const { name, value } => Ok(TopItem::Const {
            name: spot_word(alloc, name)?,
            value: alone(alloc, value)?,
        }),
        Item::Directive { fun, types } => Ok(TopItem::Directive {
            module: path_home(alloc, fun)?,
            fun: path_name(alloc, fun)?,
            types: path_types(alloc, types.as_slice())?,
        }),
        Item::Run(s) => Ok(TopItem::Run(run(alloc, s)?)),
    }
}

/// Adds the tree of an item to a list. Most statements at top level are expressions, which see no locals, as `none` has no names.
#[tactic(auto, using(crate::proofs::ItemTrees::plain_items))]
fn add_item(
    alloc: Global,
    none: &NameSet,
    all: &mut Vec<TopItem>,
    given: &Item,
) -> Result<(), NoMemory>
    requires { none.now ≡ [] }
    ensures { OnOk result (all.new.items ≡ all.old.items ++ item given.now ∷ []) }
{
    match given {
        Item::Run(Stmt::Value(e)) => all.push(TopItem::Run(Tree::Value(value(alloc, none, e)?)))?,
        other => all.push(one_item(alloc, other)?)?,
    }
    Ok(())
}

/// The trees of some items, in a list that is made as long as they are at once.
fn all_items(alloc: Global, given: &[Item]) -> Result<ItemList, NoMemory>
    ensures { IfOk result (λ ts. ts ≡ map item given.now) }
{
    let none = NameSet::new(alloc);
    let mut all = Vec::with_capacity(alloc, given.len())?;
    for one in given {
        add_item(alloc, &none, &mut all, one)?;
    }
    Ok(Items::from_vec(all))
}

fn spellings(alloc: Global, names: &[Spot]) -> Result<TextList, NoMemory>
    ensures { IfOk result (λ ts. ts ≡ map spelling names.now) }
{
    let mut all = Items::new(alloc);
    for x in names {
        all.push(Text::from_str(alloc, x.text.as_str())?)?;
    }
    Ok(all)
}

/// The tree of a script, whether it has faults or not.
pub fn resolved_script(alloc: Global, text: &Script) -> Result<ScriptTree, NoMemory>
    ensures { IfOk result (λ t. t ≡ script text.now) }
{
    Ok(ScriptTree {
        items: all_items(alloc, text.items.as_slice())?,
    })
}

/// The tree of a package, whether it has faults or not.
pub fn resolved_package(alloc: Global, text: &Package) -> Result<PackageTree, NoMemory>
    ensures { IfOk result (λ t. t ≡ package_tree text.now) }
{
    Ok(PackageTree {
        name: Text::from_str(alloc, text.name.text.as_str())?,
        uses: spellings(alloc, text.uses.as_slice())?,
        items: all_items(alloc, text.items.as_slice())?,
    })
}
