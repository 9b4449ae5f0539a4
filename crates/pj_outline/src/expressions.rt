//! The lines of expressions.

ghost use Rattle.std.specs.Prelude.{◌≡◌, ◌++◌, OnOk};
ghost use Rattle.pj_outline.specs.Outline.{expr, exprs};

use crate::lines::{put_owned, put_quoted};
use crate::names::{deeper, put_integer, put_named, put_plain};
use pj_base::{ByteList, NoMemory, Text};
use pj_tree::Expr;
use std::alloc::Global;

/// Adds an expression at a level.
#[cycle(expr)]
#[tactic(auto, using(crate::proofs::ExprLines::expr_lines))]
pub fn put_expr(
    alloc: Global,
    strings: &[Text],
    level: usize,
    e: &Expr,
    out: &mut ByteList,
) -> Result<(), NoMemory>
    ensures { OnOk result (out.new ≡ out.old ++ expr strings.now e.now level) }
{
    match e {
        Expr::Nothing => put_plain(level, "Nothing", out),
        Expr::False => put_plain(level, "False", out),
        Expr::True => put_plain(level, "True", out),
        Expr::Int(value) => put_integer(alloc, level, *value, out),
        Expr::Str(text) => put_quoted(alloc, strings, level, text, out),
        Expr::Local(name) => put_named(alloc, strings, level, "Local", name, out),
        Expr::Global(owner, name) => put_owned(alloc, strings, level, "Global", owner, name, out),
        Expr::Field(of, name) => {
            put_named(alloc, strings, level, "Field", name, out)?;
            put_expr(alloc, strings, deeper(level)?, of.get(), out)
        }
        Expr::Call(owner, name, arguments) => {
            put_owned(alloc, strings, level, "Call", owner, name, out)?;
            put_exprs(alloc, strings, deeper(level)?, arguments.as_slice(), out)
        }
        Expr::CallLocal(name, arguments) => {
            put_named(alloc, strings, level, "CallLocal", name, out)?;
            put_exprs(alloc, strings, deeper(level)?, arguments.as_slice(), out)
        }
        Expr::Latest(callee, arguments) => {
            let below = deeper(level)?;
            put_plain(level, "Latest", out)?;
            put_expr(alloc, strings, below, callee.get(), out)?;
            put_exprs(alloc, strings, below, arguments.as_slice(), out)
        }
        Expr::And(left, right) => {
            let below = deeper(level)?;
            put_plain(level, "And", out)?;
            put_expr(alloc, strings, below, left.get(), out)?;
            put_expr(alloc, strings, below, right.get(), out)
        }
        Expr::Or(left, right) => {
            let below = deeper(level)?;
            put_plain(level, "Or", out)?;
            put_expr(alloc, strings, below, left.get(), out)?;
            put_expr(alloc, strings, below, right.get(), out)
        }
        Expr::Cond(test, chosen, other) => {
            let below = deeper(level)?;
            put_plain(level, "Cond", out)?;
            put_expr(alloc, strings, below, test.get(), out)?;
            put_expr(alloc, strings, below, chosen.get(), out)?;
            put_expr(alloc, strings, below, other.get(), out)
        }
        Expr::Same(left, right) => {
            let below = deeper(level)?;
            put_plain(level, "Same", out)?;
            put_expr(alloc, strings, below, left.get(), out)?;
            put_expr(alloc, strings, below, right.get(), out)
        }
    }
}

/// Adds expressions one after the other.
#[cycle(expr)]
#[tactic(auto, using(crate::proofs::Texts::appended), unfolding(crate::specs::Outline::exprs))]
fn put_exprs(
    alloc: Global,
    strings: &[Text],
    level: usize,
    all: &[Expr],
    out: &mut ByteList,
) -> Result<(), NoMemory>
    ensures { OnOk result (out.new ≡ out.old ++ exprs strings.now all.now level) }
{
    for e in all {
        put_expr(alloc, strings, level, e, out)?;
    }
    Ok(())
}
