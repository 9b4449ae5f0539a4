//! Operands that were read: as paths, as values and as arguments. It computes `head_path`, `node`, `is_value` and `give` of
//! specs/Frames of pj_grammar. The prover finds these proofs by itself.
ghost use Rattle.std.specs.Prelude.{◌≡◌, ◌∷◌, ◌++◌, [], IfOk, MatchResult, None, Some};
ghost use Rattle.pj_grammar.specs.Makers.{call_of, paths_given};
ghost use Rattle.pj_grammar.specs.Frames.{give, head_path, is_value, node};

use crate::bounds::small;
use crate::expressions::{argument_after, call_of, field_of, name_of};
use crate::paths::{lacks_paths, paths_given};
use crate::together::with_last;
use pj_base::NoMemory;
use pj_base::release::{failed, nothing};
use pj_grammar::{Arguments, Given, Head, Node};
use pj_syntax::{Path, PathList, Spot};
use std::alloc::Global;

/// The path that an operand is, or the operand.
pub fn path_or_head(head: Head) -> Result<Path, Head>
    ensures { MatchResult result (λ path. head_path head ≡ Some path) (λ same. (same ≡ head) × (head_path head ≡ None)) }
{
    match head {
        Head::Name(name) => Ok(Path::Bare(name)),
        Head::Member(owner, name) => Ok(Path::Of(owner, name)),
        Head::Operator(owner, name) => Ok(Path::Of(owner, name)),
        Head::Place(e, field) => Err(Head::Place(e, field)),
        Head::Call(path, paths) => Err(Head::Call(path, paths)),
        Head::Plain(e) => Err(Head::Plain(e)),
    }
}

/// The path that an operand is.
pub fn head_path(head: Head) -> Option<Path>
    ensures { result ≡ head_path head }
{
    match path_or_head(head) {
        Ok(path) => Some(path),
        Err(other) => nothing(other),
    }
}

/// A field that can be assigned, as a value. A value that nests too deep counts as out of memory.
fn place_node(alloc: Global, e: Node, field: Spot) -> Result<Node, NoMemory>
    ensures { IfOk result (λ made. made ≡ node (Head.Place e field)) }
{
    match small(e.nesting) {
        Ok(()) => field_of(alloc, e, field),
        Err(error) => failed(error, (e, field)),
    }
}

/// A call. Arguments that nest too deep count as out of memory.
fn call_small(alloc: Global, path: Path, given: Arguments) -> Result<Node, NoMemory>
    ensures { IfOk result (λ made. made ≡ call_of path given) }
{
    match small(given.nesting) {
        Ok(()) => call_of(alloc, path, given),
        Err(error) => failed(error, (path, given)),
    }
}

/// A call on paths. Arguments that nest too deep count as out of memory.
fn call_node(alloc: Global, path: Path, paths: PathList) -> Result<Node, NoMemory>
    ensures { IfOk result (λ made. made ≡ node (Head.Call path paths)) }
{
    match paths_given(alloc, paths) {
        Ok(given) => call_small(alloc, path, given),
        Err(error) => failed(error, path),
    }
}

/// An operand as a value. One whose parts nest too deep for a sum counts as out of memory.
pub fn node(alloc: Global, head: Head) -> Result<Node, NoMemory>
    ensures { IfOk result (λ made. made ≡ node head) }
{
    match head {
        Head::Name(name) => Ok(name_of(Path::Bare(name))),
        Head::Member(owner, name) => Ok(name_of(Path::Of(owner, name))),
        Head::Operator(owner, name) => Ok(name_of(Path::Of(owner, name))),
        Head::Place(e, field) => place_node(alloc, e.into_inner(), field),
        Head::Call(path, paths) => call_node(alloc, path, paths),
        Head::Plain(e) => Ok(e),
    }
}

/// Whether an operand can be more than the head of a definition.
pub fn is_value(head: &Head) -> bool
    ensures { result ≡ is_value head.now }
{
    match head {
        Head::Call(path, paths) => !lacks_paths(path, paths),
        Head::Name(_)
        | Head::Member(_, _)
        | Head::Operator(_, _)
        | Head::Place(_, _)
        | Head::Plain(_) => true,
    }
}

/// One more argument that is a path, behind paths.
fn give_path(paths: PathList, path: Path) -> Result<Given, NoMemory>
    ensures { IfOk result (λ more. more ≡ Given.Paths (paths ++ path ∷ [])) }
{
    let more = with_last(paths, path)?;
    Ok(Given::Paths(more))
}

/// One more argument behind arguments.
fn give_mixed(alloc: Global, before: Arguments, head: Head) -> Result<Given, NoMemory>
    ensures { IfOk result (λ more. more ≡ give (Given.Mixed before) head) }
{
    match node(alloc, head) {
        Ok(e) => Ok(Given::Mixed(argument_after(before, e)?)),
        Err(error) => failed(error, before),
    }
}

/// One more argument that is no path, behind paths.
fn mix_paths(alloc: Global, paths: PathList, head: Head) -> Result<Given, NoMemory>
    ensures { IfOk result (λ more. more ≡ give (Given.Mixed (paths_given paths)) head) }
{
    match paths_given(alloc, paths) {
        Ok(before) => give_mixed(alloc, before, head),
        Err(error) => failed(error, head),
    }
}

/// One more argument behind paths.
fn give_paths(alloc: Global, paths: PathList, head: Head) -> Result<Given, NoMemory>
    ensures { IfOk result (λ given. given ≡ give (Given.Paths paths) head) }
{
    match path_or_head(head) {
        Ok(path) => give_path(paths, path),
        Err(head) => mix_paths(alloc, paths, head),
    }
}

/// One more argument. One whose parts nest too deep for a sum counts as out of memory.
pub fn give(alloc: Global, given: Given, head: Head) -> Result<Given, NoMemory>
    ensures { IfOk result (λ more. more ≡ give given head) }
{
    match given {
        Given::Paths(paths) => give_paths(alloc, paths, head),
        Given::Mixed(before) => give_mixed(alloc, before, head),
    }
}
