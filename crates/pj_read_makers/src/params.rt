//! Parameters that were read as the arguments of a call. It computes `params_of` of specs/Frames of pj_grammar. The loop's invariant is
//! in proofs/params/params_of, with a lemma of proofs/Turning; the prover finds the rest by itself.
ghost use Rattle.std.specs.Prelude.{◌≡◌, IfOk, None, Some};
ghost use Rattle.pj_grammar.specs.Frames.{params_of};

use crate::paths::reversed;
use pj_base::NoMemory;
use pj_base::release::nothing;
use pj_syntax::{Param, ParamList, Path, PathList, Spot};
use sqlite_items::Items;
use std::alloc::Global;

/// A parameter or a field without a type.
pub fn bare_param(name: Spot) -> Param
    ensures { result ≡ record { at = name.at; name = Some name; declared = None } }
{
    Param {
        at: name.at,
        name: Some(name),
        declared: None,
    }
}

/// The parameters that paths are, where none has a module.
pub fn params_of(alloc: Global, paths: PathList) -> Result<Option<ParamList>, NoMemory>
    ensures { IfOk result (λ made. made ≡ params_of paths) }
{
    let mut rest = reversed(alloc, paths)?;
    let mut made = Items::new(alloc);
    while let Some(path) = rest.pop() {
        match path {
            Path::Bare(name) => {
                made.push(bare_param(name))?;
            }
            other => return Ok(nothing((other, (rest, made)))),
        }
    }
    Ok(Some(made))
}
