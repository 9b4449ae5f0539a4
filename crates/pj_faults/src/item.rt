//! Faults of items, scripts and packages.
ghost use Rattle.std.specs.Prelude.{◌≡◌, ◌||◌, [], not, codes, IfOk};
ghost use Rattle.std.specs.Str.{bytes_eq};
ghost use Rattle.pj_faults.specs.Faults.{path_at};
ghost use Rattle.pj_faults.specs.Found.{distinct, item_first, items_first, many_types, package_first, script_first, used_first};

use crate::bound::{bound_fault, list_fault};
use crate::fault::{Fault, ScopeKind, sooner, when};
use crate::names::NameSet;
use crate::statement::{alone_fault, method_fault, run_fault};
use pj_base::{NoMemory, Text};
use pj_syntax::{Item, Package, Path, Script, Spot};
use sqlite_items::at;
use std::alloc::Global;

/// Whether a text names a module that is no package.
fn is_no_package(text: &str) -> bool
    ensures { result ≡ bytes_eq text.now (codes "Base") || bytes_eq text.now (codes "Main") }
{
    text == "Base" || text == "Main"
}

/// The fault that counts of the names after `using`, which are those of packages.
#[tactic(auto, using(crate::proofs::ItemLaws::item_rules))]
fn used_fault(names: &[Spot]) -> Option<Fault>
    ensures { result ≡ used_first names.now }
{
    let mut found = None;
    for x in names {
        let used = when(is_no_package(x.text.as_str()), ScopeKind::ModuleName, x.at);
        found = sooner(found, used);
    }
    found
}

fn path_place(path: &Path) -> usize
    ensures { result ≡ path_at path.now }
{
    match path {
        Path::Bare(x) => x.at,
        Path::Of(module, _) => module.get().at,
    }
}

/// The fault of a directive with more than 16 types.
#[tactic(auto, using(crate::proofs::ItemLaws::item_rules))]
fn types_fault(types: &[Path]) -> Option<Fault>
    ensures { result ≡ many_types types.now }
{
    match at(types, 16) {
        Some(path) => when(true, ScopeKind::Many, path_place(path)),
        None => None,
    }
}

#[tactic(auto, using(crate::proofs::ItemLaws::item_rules))]
fn item_fault(
    alloc: Global,
    modules: &NameSet,
    none: &NameSet,
    item: &Item,
) -> Result<Option<Fault>, NoMemory>
    requires { none.now ≡ [] }
    ensures { IfOk result (λ found. found ≡ item_first modules.now item.now) }
{
    match item {
        Item::Using(names) => Ok(used_fault(names.as_slice())),
        Item::Abstract { name, .. } => Ok(bound_fault(modules, name)),
        Item::Struct { name, fields, .. } => {
            let list = list_fault(alloc, fields.as_slice())?;
            Ok(sooner(bound_fault(modules, name), list))
        }
        Item::Def(f) => method_fault(alloc, modules, f),
        Item::Declare(f) => Ok(bound_fault(modules, f)),
        Item::Const { name, value } => {
            Ok(sooner(bound_fault(modules, name), alone_fault(alloc, value)))
        }
        Item::Directive { types, .. } => Ok(types_fault(types.as_slice())),
        Item::Run(s) => run_fault(alloc, modules, none, s),
    }
}

#[tactic(auto, using(crate::proofs::ItemLaws::item_rules))]
fn items_fault(alloc: Global, modules: &NameSet, items: &[Item]) -> Result<Option<Fault>, NoMemory>
    ensures { IfOk result (λ found. found ≡ items_first modules.now items.now) }
{
    let none = NameSet::new(alloc);
    let mut found = None;
    for item in items {
        found = sooner(found, item_fault(alloc, modules, &none, item)?);
    }
    Ok(found)
}

/// The names of modules as a set.
#[tactic(auto, using(crate::proofs::ItemLaws::item_rules))]
fn module_names(alloc: Global, modules: &[Text]) -> Result<NameSet, NoMemory>
    ensures { IfOk result (λ names. names ≡ distinct [] modules.now) }
{
    let mut names = NameSet::new(alloc);
    for module in modules {
        let _ = names.add(alloc, module.as_str())?;
    }
    Ok(names)
}

/// The fault of a script that counts, or None where it has none. `modules` are the names of its modules.
#[tactic(auto, using(crate::proofs::ItemLaws::item_rules))]
pub fn script_fault(
    alloc: Global,
    modules: &[Text],
    script: &Script,
) -> Result<Option<Fault>, NoMemory>
    ensures { IfOk result (λ found. found ≡ script_first modules.now script.now) }
{
    let names = module_names(alloc, modules)?;
    items_fault(alloc, &names, script.items.as_slice())
}

/// Whether a package has another name than the one that is asked for.
fn is_another(text: &str, asked: &str) -> bool
    ensures { result ≡ not (bytes_eq text.now asked.now) }
{
    text != asked
}

/// The fault of a package that counts, or None where it has none. `modules` are the names of its modules, and `asked` is the name
/// that is asked for.
#[tactic(auto, using(crate::proofs::ItemLaws::item_rules))]
pub fn package_fault(
    alloc: Global,
    modules: &[Text],
    asked: &str,
    tree: &Package,
) -> Result<Option<Fault>, NoMemory>
    ensures { IfOk result (λ found. found ≡ package_first modules.now asked.now tree.now) }
{
    let names = module_names(alloc, modules)?;
    let items = items_fault(alloc, &names, tree.items.as_slice())?;
    let name = when(
        is_another(tree.name.text.as_str(), asked),
        ScopeKind::ModuleName,
        tree.name.at,
    );
    Ok(sooner(name, sooner(used_fault(tree.uses.as_slice()), items)))
}
