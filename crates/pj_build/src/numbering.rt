//! Names by their numbers among an image's strings.

ghost use Rattle.std.specs.Prelude.{◌≡◌, ◌<◌, ◌^◌, IfOk, OnOk, Some, slice_get};
ghost use Rattle.pj_build.specs.Strings.{Grown};
ghost use Rattle.pj_build.specs.Numbered.{NumberedSym, NumberedSyms, NumberedExpr, NumberedExprs};

use pj_base::{Name, Names, NoMemory};
use pj_plain::held::text;
use pj_tree::{Expr, ExprList, Sym, SymList};
use sqlite_items::{Boxed, Items};
use std::alloc::Global;

/// The number of a text among the strings, which get it as their last where it is new. Without memory, or where the
/// number isn't below 4,294,967,296, the strings have grown at most.
#[tactic(auto, using(crate::proofs::Interning::interning))]
pub fn number(alloc: Global, strings: &mut Names, text: &str) -> Result<u32, NoMemory>
    ensures is { IfOk result (λ n. slice_get strings.new n ≡ Some text.now) }
    ensures four_bytes { IfOk result (λ n. n < 2 ^ 32) }
    ensures grown { Grown strings.old strings.new }
{
    let name = strings.intern(alloc, text)?;
    match u32::try_from(name.0) {
        Ok(number) => Ok(number),
        Err(_) => Err(NoMemory),
    }
}

/// A name that is held, as its number.
#[tactic(auto, using(crate::proofs::Growing::growing))]
fn sym(alloc: Global, strings: &mut Names, name: &Sym) -> Result<Sym, NoMemory>
    ensures is { IfOk result (λ x. NumberedSym strings.new name.now x) }
    ensures grown { Grown strings.old strings.new }
{
    let number = number(alloc, strings, text(name))?;
    Ok(Sym::Number(number))
}

/// Names that are held, as their numbers.
#[tactic(auto, using(crate::proofs::Growing::growing))]
pub fn numbered_syms(alloc: Global, strings: &mut Names, names: &[Sym]) -> Result<SymList, NoMemory>
    ensures is { IfOk result (λ xs. NumberedSyms strings.new names.now xs) }
    ensures grown { Grown strings.old strings.new }
{
    let mut xs = Items::new(alloc);
    for name in names {
        xs.push(sym(alloc, strings, name)?)?;
    }
    Ok(xs)
}

#[cycle(numbered)]
#[tactic(auto, using(crate::proofs::Growing::growing))]
fn boxed(alloc: Global, strings: &mut Names, e: &Expr) -> Result<Boxed<Expr>, NoMemory>
    ensures is { IfOk result (λ x. NumberedExpr strings.new e.now x) }
    ensures grown { Grown strings.old strings.new }
{
    Ok(Boxed::new(alloc, numbered(alloc, strings, e)?)?)
}

/// The expression with each name as its number among the strings, which get each new name in the order of first use: a
/// module before the name behind it, and then the arguments. After an error the strings have grown at most.
#[cycle(numbered)]
#[tactic(auto, using(crate::proofs::Variants::variants))]
pub fn numbered(alloc: Global, strings: &mut Names, e: &Expr) -> Result<Expr, NoMemory>
    ensures is { IfOk result (λ x. NumberedExpr strings.new e.now x) }
    ensures grown { Grown strings.old strings.new }
{
    match e {
        Expr::Nothing => Ok(Expr::Nothing),
        Expr::False => Ok(Expr::False),
        Expr::True => Ok(Expr::True),
        Expr::Int(n) => Ok(Expr::Int(*n)),
        Expr::Str(s) => Ok(Expr::Str(sym(alloc, strings, s)?)),
        Expr::Local(x) => Ok(Expr::Local(sym(alloc, strings, x)?)),
        Expr::Global(m, x) => {
            let owner = sym(alloc, strings, m)?;
            let name = sym(alloc, strings, x)?;
            Ok(Expr::Global(owner, name))
        }
        Expr::Field(a, x) => {
            let of = boxed(alloc, strings, a.get())?;
            let name = sym(alloc, strings, x)?;
            Ok(Expr::Field(of, name))
        }
        Expr::Call(m, f, es) => {
            let owner = sym(alloc, strings, m)?;
            let name = sym(alloc, strings, f)?;
            let args = all_numbered(alloc, strings, es.as_slice())?;
            Ok(Expr::Call(owner, name, args))
        }
        Expr::CallLocal(x, es) => {
            let name = sym(alloc, strings, x)?;
            let args = all_numbered(alloc, strings, es.as_slice())?;
            Ok(Expr::CallLocal(name, args))
        }
        Expr::Latest(f, es) => {
            let callee = boxed(alloc, strings, f.get())?;
            let args = all_numbered(alloc, strings, es.as_slice())?;
            Ok(Expr::Latest(callee, args))
        }
        Expr::And(a, b) => {
            let left = boxed(alloc, strings, a.get())?;
            let right = boxed(alloc, strings, b.get())?;
            Ok(Expr::And(left, right))
        }
        Expr::Or(a, b) => {
            let left = boxed(alloc, strings, a.get())?;
            let right = boxed(alloc, strings, b.get())?;
            Ok(Expr::Or(left, right))
        }
        Expr::Cond(c, a, b) => {
            let test = boxed(alloc, strings, c.get())?;
            let chosen = boxed(alloc, strings, a.get())?;
            let other = boxed(alloc, strings, b.get())?;
            Ok(Expr::Cond(test, chosen, other))
        }
        Expr::Same(a, b) => {
            let left = boxed(alloc, strings, a.get())?;
            let right = boxed(alloc, strings, b.get())?;
            Ok(Expr::Same(left, right))
        }
    }
}

#[cycle(numbered)]
#[tactic(auto, using(crate::proofs::Growing::growing))]
fn all_numbered(alloc: Global, strings: &mut Names, es: &[Expr]) -> Result<ExprList, NoMemory>
    ensures is { IfOk result (λ xs. NumberedExprs strings.new es.now xs) }
    ensures grown { Grown strings.old strings.new }
{
    let mut xs = Items::new(alloc);
    for e in es {
        xs.push(numbered(alloc, strings, e)?)?;
    }
    Ok(xs)
}
