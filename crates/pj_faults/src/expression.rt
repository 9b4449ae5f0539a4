//! Faults of expressions: too many arguments, and names of loops that are read outside of them.
ghost use Rattle.std.specs.Prelude.{◌≡◌, ◌&&◌, not};
ghost use Rattle.pj_faults.specs.Introduced.{is_among};
ghost use Rattle.pj_faults.specs.Found.{read_first, many_arguments, value_first, arguments_first};

use crate::fault::{Fault, ScopeKind, sooner, when};
use crate::names::NameSet;
use pj_syntax::{Argument, Expr, Path};
use sqlite_items::at;

/// Whether a loop introduces a name, and no enclosing scope does.
fn is_unseen(names: &NameSet, loops: &NameSet, text: &str) -> bool
    ensures { result ≡ not (is_among text.now names.now) && is_among text.now loops.now }
{
    if loops.len() == 0 {
        return false;
    }
    !names.contains(text) && loops.contains(text)
}

/// The fault of a name that is read where enclosing scopes introduce `names`, beside loops that introduce `loops`.
#[tactic(auto, using(crate::proofs::ValueLaws::read_rules))]
fn read_fault(names: &NameSet, loops: &NameSet, path: &Path) -> Option<Fault>
    ensures { result ≡ read_first names.now loops.now path.now }
{
    match path {
        Path::Bare(x) => when(
            is_unseen(names, loops, x.text.as_str()),
            ScopeKind::LoopName,
            x.at,
        ),
        Path::Of(_, _) => None,
    }
}

/// The fault of a call with more than 16 arguments.
#[tactic(auto, using(crate::proofs::ValueLaws::read_rules))]
fn many_fault(arguments: &[Argument]) -> Option<Fault>
    ensures { result ≡ many_arguments arguments.now }
{
    match at(arguments, 16) {
        Some(argument) => when(true, ScopeKind::Many, argument.at),
        None => None,
    }
}

/// The fault that counts in an expression. Enclosing scopes introduce `names`, and loops of the same body or statement introduce
/// `loops`.
#[cycle(value)]
#[tactic(auto, using(crate::proofs::ValueLaws::value_rules))]
pub fn value_fault(names: &NameSet, loops: &NameSet, e: &Expr) -> Option<Fault>
    ensures { result ≡ value_first names.now loops.now e.now }
{
    match e {
        Expr::Nothing | Expr::False | Expr::True | Expr::Int(_) | Expr::Str(_) => None,
        Expr::Name(path) => read_fault(names, loops, path),
        Expr::Field(of, _) => value_fault(names, loops, of.get()),
        Expr::Call(path, arguments) => {
            let read = read_fault(names, loops, path.get());
            let inner = arguments_fault(names, loops, arguments.as_slice());
            sooner(read, sooner(many_fault(arguments.as_slice()), inner))
        }
        Expr::Latest(arguments) => {
            let inner = arguments_fault(names, loops, arguments.as_slice());
            sooner(many_fault(arguments.as_slice()), inner)
        }
        Expr::And(left, right) | Expr::Or(left, right) | Expr::Same(left, right) => {
            let left = value_fault(names, loops, left.get());
            sooner(left, value_fault(names, loops, right.get()))
        }
        Expr::Cond(test, chosen, other) => {
            let test = value_fault(names, loops, test.get());
            let chosen = value_fault(names, loops, chosen.get());
            let other = value_fault(names, loops, other.get());
            sooner(test, sooner(chosen, other))
        }
    }
}

#[cycle(value)]
#[tactic(auto, using(crate::proofs::ValueLaws::value_rules))]
fn arguments_fault(names: &NameSet, loops: &NameSet, arguments: &[Argument]) -> Option<Fault>
    ensures { result ≡ arguments_first names.now loops.now arguments.now }
{
    let mut found = None;
    for argument in arguments {
        found = sooner(found, value_fault(names, loops, &argument.value));
    }
    found
}
