//! The names that a scope introduces, as its tree carries them.
ghost use Rattle.std.specs.Prelude.{◌≡◌, ◌∷◌, [], ◌++◌, OnOk};
ghost use Rattle.pj_faults.specs.Introduced.{new_names, with_name};
ghost use Rattle.pj_faults.specs.Found.{grown, grown_by, new_by, new_in, seen_after};
ghost use Rattle.pj_scopes.specs.Resolved.{words};

use crate::word::spot_word;
use pj_base::NoMemory;
use pj_faults::NameSet;
use pj_syntax::{Param, Spot, Stmt};
use pj_tree::SymList;
use std::alloc::Global;

/// Adds a name, also to the list where it is new. After an `Err` neither is of more use.
#[tactic(auto, using(crate::proofs::Introducing::introduced))]
fn introduce_name(
    alloc: Global,
    names: &mut NameSet,
    out: &mut SymList,
    x: &Spot,
) -> Result<(), NoMemory>
    ensures names { OnOk result (names.new ≡ with_name names.old x.now.text) }
    ensures out { OnOk result (out.new ≡ out.old ++ words (new_names names.old (x.now ∷ []))) }
{
    if names.add(alloc, x.text.as_str())? {
        out.push(spot_word(alloc, x)?)?;
        return Ok(());
    }
    Ok(())
}

#[cycle(introduce)]
#[tactic(auto, using(crate::proofs::Introducing::introduced))]
fn introduce_stmt(
    alloc: Global,
    names: &mut NameSet,
    out: &mut SymList,
    s: &Stmt,
) -> Result<(), NoMemory>
    ensures names { OnOk result (names.new ≡ grown_by names.old s.now) }
    ensures out { OnOk result (out.new ≡ out.old ++ words (new_by names.old s.now)) }
{
    match s {
        Stmt::Set(x, _) => introduce_name(alloc, names, out, x),
        Stmt::If(_, chosen, other) => {
            introduce(alloc, names, out, chosen.as_slice())?;
            introduce(alloc, names, out, other.as_slice())
        }
        Stmt::Value(_) | Stmt::SetField(_, _, _) | Stmt::Global(_, _, _) => Ok(()),
        Stmt::Return(_, _) | Stmt::Break(_) | Stmt::Continue(_) => Ok(()),
        Stmt::While(_, _) | Stmt::For(_, _, _, _) | Stmt::Eval(_, _) => Ok(()),
    }
}

/// Adds the names that a block assigns directly in its scope, and those that are new to the list. After an `Err` neither is of
/// more use.
#[cycle(introduce)]
#[tactic(auto, using(crate::proofs::Introducing::introduced))]
pub fn introduce(
    alloc: Global,
    names: &mut NameSet,
    out: &mut SymList,
    block: &[Stmt],
) -> Result<(), NoMemory>
    ensures names { OnOk result (names.new ≡ grown names.old block.now) }
    ensures out { OnOk result (out.new ≡ out.old ++ words (new_in names.old block.now)) }
{
    for s in block {
        introduce_stmt(alloc, names, out, s)?;
    }
    Ok(())
}

#[tactic(auto, using(crate::proofs::Introducing::params_seen))]
fn enter_param(alloc: Global, names: &mut NameSet, param: &Param) -> Result<(), NoMemory>
    ensures { OnOk result (names.new ≡ seen_after names.old (param.now ∷ [])) }
{
    match &param.name {
        Some(x) => {
            let _ = names.add(alloc, x.text.as_str())?;
            Ok(())
        }
        None => Ok(()),
    }
}

/// Adds the names of parameters. After an `Err` the names are of no more use.
#[tactic(auto, using(crate::proofs::Introducing::params_seen))]
pub fn enter_params(alloc: Global, names: &mut NameSet, params: &[Param]) -> Result<(), NoMemory>
    ensures { OnOk result (names.new ≡ seen_after names.old params.now) }
{
    for param in params {
        enter_param(alloc, names, param)?;
    }
    Ok(())
}
