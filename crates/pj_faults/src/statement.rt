//! Faults of statements and methods.
ghost use Rattle.std.specs.Prelude.{◌≡◌, ◌||◌, not, true, [], IfOk, OnOk};
ghost use Rattle.pj_faults.specs.declared.fault.ScopeKind.TheVariants.{Outside};
ghost use Rattle.pj_faults.specs.First.{sooner, when};
ghost use Rattle.pj_faults.specs.Introduced.{is_among, with_name};
ghost use Rattle.pj_faults.specs.Found.{block_first, bound_first, evaluated_first, grown, head_first, method_first, returned_first, run_first, shadowed_first, statement_first, value_first};

use crate::bound::{bound_fault, bound_path_fault, list_fault, params_bound_fault};
use crate::crowded::crowded_fault;
use crate::enter::enter_block;
use crate::expression::value_fault;
use crate::fault::{Fault, ScopeKind, sooner, when};
use crate::names::NameSet;
use crate::unit::{unit_of_body, unit_of_run};
use pj_base::NoMemory;
use pj_syntax::{Expr, Function, Payload, Spot, Stmt};
use std::alloc::Global;

/// Whether a statement stands in the body of a method, and whether in a loop.
#[derive(Clone, Copy)]
pub struct Within {
    pub in_body: bool,
    pub in_loop: bool,
}

fn is_introduced(names: &NameSet, loops: &NameSet, text: &str) -> bool
    ensures { result ≡ is_among text.now names.now || is_among text.now loops.now }
{
    names.contains(text) || loops.contains(text)
}

/// The fault of a global that has the name of a local, with the place of the word `global`.
#[tactic(auto, using(crate::proofs::StatementLaws::small_rules))]
fn shadowed_fault(names: &NameSet, loops: &NameSet, place: usize, x: &Spot) -> Option<Fault>
    ensures { result ≡ shadowed_first names.now loops.now place x.now }
{
    when(
        is_introduced(names, loops, x.text.as_str()),
        ScopeKind::GlobalLocal,
        place,
    )
}

#[tactic(auto, using(crate::proofs::StatementLaws::small_rules))]
fn returned_fault(names: &NameSet, loops: &NameSet, value: &Option<Expr>) -> Option<Fault>
    ensures { result ≡ returned_first names.now loops.now value.now }
{
    match value {
        Some(e) => value_fault(names, loops, e),
        None => None,
    }
}

fn two_faults(names: &NameSet, loops: &NameSet, a: &Expr, b: &Expr) -> Option<Fault>
    ensures { result ≡ sooner (value_first names.now loops.now a.now) (value_first names.now loops.now b.now) }
{
    sooner(value_fault(names, loops, a), value_fault(names, loops, b))
}

fn global_fault(
    modules: &NameSet,
    names: &NameSet,
    loops: &NameSet,
    place: usize,
    x: &Spot,
    e: &Expr,
) -> Option<Fault>
    ensures { result ≡ sooner (bound_first modules.now x.now) (sooner (shadowed_first names.now loops.now place x.now) (value_first names.now loops.now e.now)) }
{
    let shadowed = shadowed_fault(names, loops, place, x);
    let inner = sooner(shadowed, value_fault(names, loops, e));
    sooner(bound_fault(modules, x), inner)
}

fn return_fault(
    names: &NameSet,
    loops: &NameSet,
    in_body: bool,
    place: usize,
    value: &Option<Expr>,
) -> Option<Fault>
    ensures { result ≡ sooner (when (not in_body) Outside place) (returned_first names.now loops.now value.now) }
{
    let outside = when(!in_body, ScopeKind::Outside, place);
    sooner(outside, returned_fault(names, loops, value))
}

#[cycle(statement)]
#[tactic(auto, using(crate::proofs::StatementLaws::statement_rules))]
fn while_fault(
    alloc: Global,
    modules: &NameSet,
    loops: &NameSet,
    within: Within,
    names: &mut NameSet,
    block: &[Stmt],
) -> Result<Option<Fault>, NoMemory>
    ensures names { OnOk result (names.new ≡ names.old) }
    ensures found { IfOk result (λ found. found ≡ block_first modules.now loops.now (record { in_body = within.in_body; in_loop = true }) (grown names.old block.now) block.now) }
{
    let count = names.len();
    enter_block(alloc, names, block)?;
    let within = Within {
        in_body: within.in_body,
        in_loop: true,
    };
    let inner = block_fault(alloc, modules, loops, within, names, block)?;
    names.cut(count);
    Ok(inner)
}

#[cycle(statement)]
#[tactic(auto, using(crate::proofs::StatementLaws::statement_rules))]
fn for_fault(
    alloc: Global,
    modules: &NameSet,
    loops: &NameSet,
    within: Within,
    names: &mut NameSet,
    x: &Spot,
    block: &[Stmt],
) -> Result<Option<Fault>, NoMemory>
    ensures names { OnOk result (names.new ≡ names.old) }
    ensures found { IfOk result (λ found. found ≡ block_first modules.now loops.now (record { in_body = within.in_body; in_loop = true }) (grown (with_name names.old x.now.text) block.now) block.now) }
{
    let count = names.len();
    let _ = names.add(alloc, x.text.as_str())?;
    enter_block(alloc, names, block)?;
    let within = Within {
        in_body: within.in_body,
        in_loop: true,
    };
    let inner = block_fault(alloc, modules, loops, within, names, block)?;
    names.cut(count);
    Ok(inner)
}

/// The fault that counts in a statement, where enclosing scopes introduce `names`, and loops of the same body or statement introduce
/// `loops`. After an `Err` the names are of no more use.
#[cycle(statement)]
#[tactic(auto, using(crate::proofs::StatementLaws::statement_rules))]
fn statement_fault(
    alloc: Global,
    modules: &NameSet,
    loops: &NameSet,
    within: Within,
    names: &mut NameSet,
    s: &Stmt,
) -> Result<Option<Fault>, NoMemory>
    ensures names { OnOk result (names.new ≡ names.old) }
    ensures found { IfOk result (λ found. found ≡ statement_first modules.now loops.now within names.old s.now) }
{
    match s {
        Stmt::Value(e) => Ok(value_fault(names, loops, e)),
        Stmt::Set(x, e) => Ok(sooner(bound_fault(modules, x), value_fault(names, loops, e))),
        Stmt::SetField(of, _, e) => Ok(two_faults(names, loops, of.get(), e.get())),
        Stmt::Global(place, x, e) => Ok(global_fault(modules, names, loops, *place, x, e.get())),
        Stmt::Return(place, value) => {
            Ok(return_fault(names, loops, within.in_body, *place, value))
        }
        Stmt::Break(place) => Ok(when(!within.in_loop, ScopeKind::Outside, *place)),
        Stmt::Continue(place) => Ok(when(!within.in_loop, ScopeKind::Outside, *place)),
        Stmt::If(test, chosen, other) => {
            let test = value_fault(names, loops, test.get());
            let chosen = block_fault(alloc, modules, loops, within, names, chosen.as_slice())?;
            let other = block_fault(alloc, modules, loops, within, names, other.as_slice())?;
            Ok(sooner(test, sooner(chosen, other)))
        }
        Stmt::While(test, block) => {
            let test = value_fault(names, loops, test.get());
            let block = block.as_slice();
            let inner = while_fault(alloc, modules, loops, within, names, block)?;
            Ok(sooner(test, inner))
        }
        Stmt::For(x, first, last, block) => {
            let bounds = two_faults(names, loops, first.get(), last.get());
            let block = block.as_slice();
            let inner = for_fault(alloc, modules, loops, within, names, x, block)?;
            Ok(sooner(sooner(bound_fault(modules, x), bounds), inner))
        }
        Stmt::Eval(_, payload) => evaluated_fault(alloc, modules, payload.get()),
    }
}

#[cycle(statement)]
#[tactic(auto, using(crate::proofs::StatementLaws::statement_rules))]
fn block_fault(
    alloc: Global,
    modules: &NameSet,
    loops: &NameSet,
    within: Within,
    names: &mut NameSet,
    block: &[Stmt],
) -> Result<Option<Fault>, NoMemory>
    ensures names { OnOk result (names.new ≡ names.old) }
    ensures found { IfOk result (λ found. found ≡ block_first modules.now loops.now within names.old block.now) }
{
    let mut found = None;
    for s in block {
        found = sooner(
            found,
            statement_fault(alloc, modules, loops, within, names, s)?,
        );
    }
    Ok(found)
}

/// The fault that counts in what is evaluated, which is a text of its own.
#[cycle(statement)]
#[tactic(auto, using(crate::proofs::StatementLaws::statement_rules))]
fn evaluated_fault(
    alloc: Global,
    modules: &NameSet,
    payload: &Payload,
) -> Result<Option<Fault>, NoMemory>
    ensures { IfOk result (λ found. found ≡ evaluated_first modules.now payload.now) }
{
    match payload {
        Payload::Def(f) => method_fault(alloc, modules, f),
        Payload::Set(x, e) => Ok(sooner(bound_fault(modules, x), alone_fault(alloc, e))),
        Payload::Value(e) => Ok(alone_fault(alloc, e)),
    }
}

/// The fault that counts in an expression that stands in no scope.
pub fn alone_fault(alloc: Global, e: &Expr) -> Option<Fault>
    ensures { result ≡ value_first [] [] e.now }
{
    let none = NameSet::new(alloc);
    bare_fault(&none, e)
}

/// The same, with a set that has no names.
fn bare_fault(none: &NameSet, e: &Expr) -> Option<Fault>
    requires { none.now ≡ [] }
    ensures { result ≡ value_first [] [] e.now }
{
    value_fault(none, none, e)
}

#[tactic(auto, using(crate::proofs::StatementLaws::small_rules))]
fn head_fault(alloc: Global, modules: &NameSet, f: &Function) -> Result<Option<Fault>, NoMemory>
    ensures { IfOk result (λ found. found ≡ head_first modules.now f.now) }
{
    let list = list_fault(alloc, f.params.as_slice())?;
    let bound = params_bound_fault(modules, f.params.as_slice());
    Ok(sooner(bound_path_fault(modules, &f.path), sooner(list, bound)))
}

/// The fault that counts in the definition of a method.
#[cycle(statement)]
#[tactic(auto, using(crate::proofs::StatementLaws::statement_rules))]
pub fn method_fault(
    alloc: Global,
    modules: &NameSet,
    f: &Function,
) -> Result<Option<Fault>, NoMemory>
    ensures { IfOk result (λ found. found ≡ method_first modules.now f.now) }
{
    let head = head_fault(alloc, modules, f)?;
    let mut unit = unit_of_body(alloc, f.params.as_slice(), f.block.as_slice())?;
    let crowded = crowded_fault(alloc, unit.inner.places.as_slice())?;
    let within = Within {
        in_body: true,
        in_loop: false,
    };
    let inner = block_fault(
        alloc,
        modules,
        &unit.inner.names,
        within,
        &mut unit.names,
        f.block.as_slice(),
    )?;
    Ok(sooner(head, sooner(crowded, inner)))
}

/// The fault that counts in a statement at top level, which may introduce names.
#[tactic(auto, using(crate::proofs::StatementLaws::statement_rules))]
fn unit_fault(alloc: Global, modules: &NameSet, s: &Stmt) -> Result<Option<Fault>, NoMemory>
    ensures { IfOk result (λ found. found ≡ run_first modules.now s.now) }
{
    let mut unit = unit_of_run(alloc, s)?;
    let crowded = crowded_fault(alloc, unit.inner.places.as_slice())?;
    let within = Within {
        in_body: false,
        in_loop: false,
    };
    let inner = statement_fault(
        alloc,
        modules,
        &unit.inner.names,
        within,
        &mut unit.names,
        s,
    )?;
    Ok(sooner(crowded, inner))
}

/// The fault that counts in a statement at top level. Most are expressions and assignments, which introduce no names, as `none`
/// has none.
#[tactic(auto, using(crate::proofs::StatementLaws::plain_runs))]
pub fn run_fault(
    alloc: Global,
    modules: &NameSet,
    none: &NameSet,
    s: &Stmt,
) -> Result<Option<Fault>, NoMemory>
    requires { none.now ≡ [] }
    ensures { IfOk result (λ found. found ≡ run_first modules.now s.now) }
{
    match s {
        Stmt::Value(e) => Ok(bare_fault(none, e)),
        Stmt::Set(x, e) => Ok(sooner(bound_fault(modules, x), bare_fault(none, e))),
        _ => unit_fault(alloc, modules, s),
    }
}
