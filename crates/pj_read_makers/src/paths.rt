//! Names, with or without modules, that were read as arguments. It computes `paths_given` and `lacks` of specs/Makers of pj_grammar.
//! The proofs of the two loops are in proofs/paths, with the lemmas of proofs/Turning.
ghost use Rattle.std.specs.Prelude.{◌≡◌, IfOk, reverse};
ghost use Rattle.pj_grammar.specs.Makers.{lacks, paths_given};

use crate::expressions::{argument_after, is_latest, name_of, no_arguments};
use pj_base::NoMemory;
use pj_grammar::Arguments;
use pj_syntax::{Path, PathList};
use sqlite_items::Items;
use std::alloc::Global;

/// The paths, the last first.
pub fn reversed(alloc: Global, paths: PathList) -> Result<PathList, NoMemory>
    ensures { IfOk result (λ turned. turned ≡ reverse paths) }
{
    let mut rest = paths;
    let mut turned = Items::new(alloc);
    while let Some(path) = rest.pop() {
        turned.push(path)?;
    }
    Ok(turned)
}

/// Paths as arguments.
pub fn paths_given(alloc: Global, paths: PathList) -> Result<Arguments, NoMemory>
    ensures { IfOk result (λ made. made ≡ paths_given paths) }
{
    let mut rest = reversed(alloc, paths)?;
    let mut given = no_arguments(alloc);
    while let Some(path) = rest.pop() {
        given = argument_after(given, name_of(path))?;
    }
    Ok(given)
}

/// Whether a call of a path on paths lacks an argument that it has to have.
#[tactic(auto, unfolding(pj_grammar::specs::Makers::lacks, pj_grammar::specs::Makers::paths_given, pj_grammar::specs::Makers::no_arguments, pj_grammar::specs::Makers::argument_before))]
pub fn lacks_paths(path: &Path, paths: &PathList) -> bool
    ensures { result ≡ lacks path.now (paths_given paths.now) }
{
    match paths.as_slice() {
        [] => is_latest(path),
        [_first, _more @ ..] => false,
    }
}
