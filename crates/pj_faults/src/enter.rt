//! The names that a scope introduces.
ghost use Rattle.std.specs.Prelude.{◌≡◌, OnOk};
ghost use Rattle.pj_faults.specs.Found.{grown, grown_by};

use crate::names::NameSet;
use pj_base::NoMemory;
use pj_syntax::Stmt;
use std::alloc::Global;

/// Adds the names that a statement assigns directly in its scope. Names that answered an `Err` are of no more use.
#[cycle(enter)]
#[tactic(auto, using(crate::proofs::ScopeLaws::enter_rules))]
fn enter_stmt(alloc: Global, names: &mut NameSet, s: &Stmt) -> Result<(), NoMemory>
    ensures { OnOk result (names.new ≡ grown_by names.old s.now) }
{
    match s {
        Stmt::Set(x, _) => {
            let _ = names.add(alloc, x.text.as_str())?;
            Ok(())
        }
        Stmt::If(_, chosen, other) => {
            enter_block(alloc, names, chosen.as_slice())?;
            enter_block(alloc, names, other.as_slice())
        }
        Stmt::Value(_) | Stmt::SetField(_, _, _) | Stmt::Global(_, _, _) => Ok(()),
        Stmt::Return(_, _) | Stmt::Break(_) | Stmt::Continue(_) => Ok(()),
        Stmt::While(_, _) | Stmt::For(_, _, _, _) | Stmt::Eval(_, _) => Ok(()),
    }
}

/// Adds the names that a block assigns directly in its scope. Names that answered an `Err` are of no more use.
#[cycle(enter)]
#[tactic(auto, using(crate::proofs::ScopeLaws::enter_rules))]
pub fn enter_block(alloc: Global, names: &mut NameSet, block: &[Stmt]) -> Result<(), NoMemory>
    ensures { OnOk result (names.new ≡ grown names.old block.now) }
{
    for s in block {
        enter_stmt(alloc, names, s)?;
    }
    Ok(())
}
