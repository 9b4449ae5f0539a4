//! The tokens that introduce names, and those names.
ghost use Rattle.std.specs.Prelude.{◌≡◌, ◌∷◌, [], OnOk};
ghost use Rattle.pj_faults.specs.Found.{gathered, grown, grown_by, looped_in, looped_stmt, new_by, new_in};
ghost use Rattle.pj_faults.specs.Introduced.{new_names, with_name};

use crate::names::NameSet;
use pj_base::NoMemory;
use pj_syntax::{Spot, Stmt};
use sqlite_items::Items;
use std::alloc::Global;

/// The places of tokens that introduce names, and the names.
#[derive(Drop)]
pub struct Gathered {
    pub places: Items<usize>,
    pub names: NameSet,
}

impl Gathered {
    /// Nothing. It takes no memory.
    pub fn new(alloc: Global) -> Gathered
        ensures places { result.places ≡ [] }
        ensures names { result.names ≡ [] }
    {
        Gathered {
            places: Items::new(alloc),
            names: NameSet::new(alloc),
        }
    }

    /// Adds a token. After an `Err` what was gathered is of no more use.
    #[tactic(auto, using(crate::proofs::ScopeLaws::gather_rules))]
    pub fn put(&mut self, alloc: Global, x: &Spot) -> Result<(), NoMemory>
        ensures { OnOk result (self.new ≡ gathered self.old (x.now ∷ [])) }
    {
        self.places.push(x.at)?;
        let _ = self.names.add(alloc, x.text.as_str())?;
        Ok(())
    }
}

/// Adds a name to those of a scope, and its token to what is gathered where the name is new. After an `Err` neither is of more use.
#[tactic(auto, using(crate::proofs::ScopeLaws::gather_rules))]
pub fn put_new(
    alloc: Global,
    names: &mut NameSet,
    out: &mut Gathered,
    x: &Spot,
) -> Result<(), NoMemory>
    ensures names { OnOk result (names.new ≡ with_name names.old x.now.text) }
    ensures out { OnOk result (out.new ≡ gathered out.old (new_names names.old (x.now ∷ []))) }
{
    if names.add(alloc, x.text.as_str())? {
        return out.put(alloc, x);
    }
    Ok(())
}

#[cycle(put)]
#[tactic(auto, using(crate::proofs::ScopeLaws::gather_rules))]
fn put_stmt(
    alloc: Global,
    names: &mut NameSet,
    out: &mut Gathered,
    s: &Stmt,
) -> Result<(), NoMemory>
    ensures names { OnOk result (names.new ≡ grown_by names.old s.now) }
    ensures out { OnOk result (out.new ≡ gathered out.old (new_by names.old s.now)) }
{
    match s {
        Stmt::Set(x, _) => put_new(alloc, names, out, x),
        Stmt::If(_, chosen, other) => {
            put_block(alloc, names, out, chosen.as_slice())?;
            put_block(alloc, names, out, other.as_slice())
        }
        Stmt::Value(_) | Stmt::SetField(_, _, _) | Stmt::Global(_, _, _) => Ok(()),
        Stmt::Return(_, _) | Stmt::Break(_) | Stmt::Continue(_) => Ok(()),
        Stmt::While(_, _) | Stmt::For(_, _, _, _) | Stmt::Eval(_, _) => Ok(()),
    }
}

/// Adds the names that a block assigns directly in its scope, and gathers the tokens of the new ones. After an `Err` neither is of
/// more use.
#[cycle(put)]
#[tactic(auto, using(crate::proofs::ScopeLaws::gather_rules))]
pub fn put_block(
    alloc: Global,
    names: &mut NameSet,
    out: &mut Gathered,
    block: &[Stmt],
) -> Result<(), NoMemory>
    ensures names { OnOk result (names.new ≡ grown names.old block.now) }
    ensures out { OnOk result (out.new ≡ gathered out.old (new_in names.old block.now)) }
{
    for s in block {
        put_stmt(alloc, names, out, s)?;
    }
    Ok(())
}

#[cycle(gather)]
#[tactic(auto, using(crate::proofs::ScopeLaws::gather_rules))]
fn gather_while(
    alloc: Global,
    names: &mut NameSet,
    out: &mut Gathered,
    block: &[Stmt],
) -> Result<(), NoMemory>
    ensures names { OnOk result (names.new ≡ names.old) }
    ensures out { OnOk result (out.new ≡ gathered (gathered out.old (new_in names.old block.now)) (looped_in (grown names.old block.now) block.now)) }
{
    let count = names.len();
    put_block(alloc, names, out, block)?;
    gather(alloc, names, out, block)?;
    names.cut(count);
    Ok(())
}

#[cycle(gather)]
#[tactic(auto, using(crate::proofs::ScopeLaws::gather_rules))]
fn gather_for(
    alloc: Global,
    names: &mut NameSet,
    out: &mut Gathered,
    x: &Spot,
    block: &[Stmt],
) -> Result<(), NoMemory>
    ensures names { OnOk result (names.new ≡ names.old) }
    ensures out { OnOk result (out.new ≡ gathered (gathered (gathered out.old (x.now ∷ [])) (new_in (with_name names.old x.now.text) block.now)) (looped_in (grown (with_name names.old x.now.text) block.now) block.now)) }
{
    let count = names.len();
    let _ = names.add(alloc, x.text.as_str())?;
    out.put(alloc, x)?;
    put_block(alloc, names, out, block)?;
    gather(alloc, names, out, block)?;
    names.cut(count);
    Ok(())
}

/// Gathers what the loops of a statement introduce, where enclosing scopes introduce `names`. After an `Err` neither is of more use.
#[cycle(gather)]
#[tactic(auto, using(crate::proofs::ScopeLaws::gather_rules))]
pub fn gather_stmt(
    alloc: Global,
    names: &mut NameSet,
    out: &mut Gathered,
    s: &Stmt,
) -> Result<(), NoMemory>
    ensures names { OnOk result (names.new ≡ names.old) }
    ensures out { OnOk result (out.new ≡ gathered out.old (looped_stmt names.old s.now)) }
{
    match s {
        Stmt::If(_, chosen, other) => {
            gather(alloc, names, out, chosen.as_slice())?;
            gather(alloc, names, out, other.as_slice())
        }
        Stmt::While(_, block) => gather_while(alloc, names, out, block.as_slice()),
        Stmt::For(x, _, _, block) => gather_for(alloc, names, out, x, block.as_slice()),
        Stmt::Value(_) | Stmt::Set(_, _) | Stmt::SetField(_, _, _) => Ok(()),
        Stmt::Global(_, _, _) | Stmt::Return(_, _) => Ok(()),
        Stmt::Break(_) | Stmt::Continue(_) | Stmt::Eval(_, _) => Ok(()),
    }
}

/// Gathers what the loops of a block introduce, where enclosing scopes introduce `names`. After an `Err` neither is of more use.
#[cycle(gather)]
#[tactic(auto, using(crate::proofs::ScopeLaws::gather_rules))]
pub fn gather(
    alloc: Global,
    names: &mut NameSet,
    out: &mut Gathered,
    block: &[Stmt],
) -> Result<(), NoMemory>
    ensures names { OnOk result (names.new ≡ names.old) }
    ensures out { OnOk result (out.new ≡ gathered out.old (looped_in names.old block.now)) }
{
    for s in block {
        gather_stmt(alloc, names, out, s)?;
    }
    Ok(())
}
