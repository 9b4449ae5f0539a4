//! Expressions.
ghost use Rattle.std.specs.Prelude.{◌≡◌, [], IfOk};
ghost use Rattle.pj_scopes.specs.Made.{returned_tree, value_tree, values_tree};
ghost use Rattle.pj_scopes.specs.Resolved.{called, latest, read};

use crate::word::{no_word, spot_word, text_word};
use pj_base::NoMemory;
use pj_faults::NameSet;
use pj_syntax::{Argument, Expr, Path};
use pj_tree::{Expr as Tree, ExprList};
use sqlite_items::{Boxed, Items};
use std::alloc::Global;

/// A name that is read.
fn read_tree(alloc: Global, names: &NameSet, path: &Path) -> Result<Tree, NoMemory>
    ensures { IfOk result (λ t. t ≡ read names.now path.now) }
{
    match path {
        Path::Bare(x) => {
            let word = spot_word(alloc, x)?;
            if names.contains(x.text.as_str()) {
                return Ok(Tree::Local(word));
            }
            Ok(Tree::Global(no_word(alloc)?, word))
        }
        Path::Of(module, x) => {
            let module = spot_word(alloc, module.get())?;
            Ok(Tree::Global(module, spot_word(alloc, x)?))
        }
    }
}

/// A name that is called.
fn called_tree(
    alloc: Global,
    names: &NameSet,
    path: &Path,
    arguments: ExprList,
) -> Result<Tree, NoMemory>
    ensures { IfOk result (λ t. t ≡ called names.now path.now arguments) }
{
    match path {
        Path::Bare(x) => {
            let word = spot_word(alloc, x)?;
            if names.contains(x.text.as_str()) {
                return Ok(Tree::CallLocal(word, arguments));
            }
            Ok(Tree::Call(no_word(alloc)?, word, arguments))
        }
        Path::Of(module, x) => {
            let module = spot_word(alloc, module.get())?;
            let word = spot_word(alloc, x)?;
            Ok(Tree::Call(module, word, arguments))
        }
    }
}

/// A call of `invokelatest`, whose function is the first argument.
#[tactic(auto, using(crate::proofs::ValueTrees::latest_rules))]
fn latest_tree(alloc: Global, arguments: ExprList) -> Result<Tree, NoMemory>
    ensures { IfOk result (λ t. t ≡ latest arguments) }
{
    if arguments.is_empty() {
        return Ok(Tree::Latest(Boxed::new(alloc, Tree::Nothing)?, Items::new(alloc)));
    }
    let mut rest = arguments;
    let callee = rest.remove(0);
    Ok(Tree::Latest(Boxed::new(alloc, callee)?, rest))
}

#[cycle(value)]
fn boxed(alloc: Global, names: &NameSet, e: &Expr) -> Result<Boxed<Tree>, NoMemory>
    ensures { IfOk result (λ t. t ≡ value_tree names.now e.now) }
{
    Ok(Boxed::new(alloc, value(alloc, names, e)?)?)
}

/// The tree of an expression, where enclosing scopes introduce `names`.
#[cycle(value)]
#[tactic(auto, using(crate::proofs::ValueTrees::value_trees))]
pub fn value(alloc: Global, names: &NameSet, e: &Expr) -> Result<Tree, NoMemory>
    ensures { IfOk result (λ t. t ≡ value_tree names.now e.now) }
{
    match e {
        Expr::Nothing => Ok(Tree::Nothing),
        Expr::False => Ok(Tree::False),
        Expr::True => Ok(Tree::True),
        Expr::Int(number) => Ok(Tree::Int(*number)),
        Expr::Str(text) => Ok(Tree::Str(text_word(alloc, text.as_str())?)),
        Expr::Name(path) => read_tree(alloc, names, path),
        Expr::Field(of, x) => {
            let of = boxed(alloc, names, of.get())?;
            Ok(Tree::Field(of, spot_word(alloc, x)?))
        }
        Expr::Call(path, arguments) => {
            let arguments = values(alloc, names, arguments.as_slice())?;
            called_tree(alloc, names, path.get(), arguments)
        }
        Expr::Latest(arguments) => latest_tree(alloc, values(alloc, names, arguments.as_slice())?),
        Expr::And(left, right) => {
            let left = boxed(alloc, names, left.get())?;
            Ok(Tree::And(left, boxed(alloc, names, right.get())?))
        }
        Expr::Or(left, right) => {
            let left = boxed(alloc, names, left.get())?;
            Ok(Tree::Or(left, boxed(alloc, names, right.get())?))
        }
        Expr::Cond(test, chosen, other) => {
            let test = boxed(alloc, names, test.get())?;
            let chosen = boxed(alloc, names, chosen.get())?;
            Ok(Tree::Cond(test, chosen, boxed(alloc, names, other.get())?))
        }
        Expr::Same(left, right) => {
            let left = boxed(alloc, names, left.get())?;
            Ok(Tree::Same(left, boxed(alloc, names, right.get())?))
        }
    }
}

#[cycle(value)]
#[tactic(auto, using(crate::proofs::ValueTrees::value_trees))]
fn values(alloc: Global, names: &NameSet, arguments: &[Argument]) -> Result<ExprList, NoMemory>
    ensures { IfOk result (λ ts. ts ≡ values_tree names.now arguments.now) }
{
    let mut all = Items::new(alloc);
    for argument in arguments {
        all.push(value(alloc, names, &argument.value)?)?;
    }
    Ok(all)
}

/// The tree of what is returned.
#[tactic(auto, using(crate::proofs::ValueTrees::value_trees))]
pub fn returned(alloc: Global, names: &NameSet, e: &Option<Expr>) -> Result<Tree, NoMemory>
    ensures { IfOk result (λ t. t ≡ returned_tree names.now e.now) }
{
    match e {
        Some(e) => value(alloc, names, e),
        None => Ok(Tree::Nothing),
    }
}

/// The tree of an expression that stands in no scope.
pub fn alone(alloc: Global, e: &Expr) -> Result<Tree, NoMemory>
    ensures { IfOk result (λ t. t ≡ value_tree [] e.now) }
{
    let none = NameSet::new(alloc);
    value(alloc, &none, e)
}
