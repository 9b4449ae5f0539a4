//! What the scopes of a body, or of a statement at top level, introduce.
ghost use Rattle.std.specs.Prelude.{◌≡◌, ◌∷◌, [], IfOk, OnOk};
ghost use Rattle.pj_faults.specs.Found.{body_unit, gathered, new_params, run_unit, seen_after};

use crate::gather::{Gathered, gather, gather_stmt, put_block, put_new};
use crate::names::NameSet;
use pj_base::NoMemory;
use pj_syntax::{Param, Stmt};
use std::alloc::Global;

/// The names that the outermost scope introduces, the places of all tokens that introduce names, and the names that loops introduce.
#[derive(Drop)]
pub struct Unit {
    pub names: NameSet,
    pub inner: Gathered,
}

#[tactic(auto, using(crate::proofs::UnitLaws::param_rules))]
fn put_param(
    alloc: Global,
    names: &mut NameSet,
    out: &mut Gathered,
    param: &Param,
) -> Result<(), NoMemory>
    ensures names { OnOk result (names.new ≡ seen_after names.old (param.now ∷ [])) }
    ensures out { OnOk result (out.new ≡ gathered out.old (new_params names.old (param.now ∷ []))) }
{
    match &param.name {
        Some(x) => put_new(alloc, names, out, x),
        None => Ok(()),
    }
}

/// Adds the names of parameters, and gathers the tokens of the new ones. After an `Err` neither is of more use.
#[tactic(auto, using(crate::proofs::UnitLaws::param_rules))]
fn put_params(
    alloc: Global,
    names: &mut NameSet,
    out: &mut Gathered,
    params: &[Param],
) -> Result<(), NoMemory>
    ensures names { OnOk result (names.new ≡ seen_after names.old params.now) }
    ensures out { OnOk result (out.new ≡ gathered out.old (new_params names.old params.now)) }
{
    for param in params {
        put_param(alloc, names, out, param)?;
    }
    Ok(())
}

/// What the scopes of a body introduce.
#[tactic(auto, using(crate::proofs::UnitLaws::unit_rules))]
pub fn unit_of_body(alloc: Global, params: &[Param], block: &[Stmt]) -> Result<Unit, NoMemory>
    ensures { IfOk result (λ unit. unit ≡ body_unit params.now block.now) }
{
    let mut names = NameSet::new(alloc);
    let mut own = Gathered::new(alloc);
    put_params(alloc, &mut names, &mut own, params)?;
    put_block(alloc, &mut names, &mut own, block)?;
    let mut inner = Gathered {
        places: own.places,
        names: NameSet::new(alloc),
    };
    gather(alloc, &mut names, &mut inner, block)?;
    Ok(Unit { names, inner })
}

/// What the loops of a statement at top level introduce.
#[tactic(auto, using(crate::proofs::UnitLaws::unit_rules))]
pub fn unit_of_run(alloc: Global, s: &Stmt) -> Result<Unit, NoMemory>
    ensures { IfOk result (λ unit. unit ≡ run_unit s.now) }
{
    let mut names = NameSet::new(alloc);
    let mut inner = Gathered::new(alloc);
    gather_stmt(alloc, &mut names, &mut inner, s)?;
    Ok(Unit { names, inner })
}
