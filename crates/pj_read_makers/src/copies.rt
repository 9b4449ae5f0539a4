//! Copies of tokens, names and expressions, each equal to what it copies. An assignment with an operator needs one: it has what it
//! sets in two places. The invariant of the loop over arguments is in proofs/copies/+copy_expr; the prover finds the rest by itself.
ghost use Rattle.std.specs.Prelude.{◌≡◌, Err, IfOk, MatchResult, Ok};

use crate::expressions::path_of;
use crate::together::{both, in_box};
use pj_base::NoMemory;
use pj_lex::{Token, TokenKind};
use pj_syntax::{Argument, ArgumentList, Expr, Path, Spot};
use sqlite_items::{Boxed, Items};
use std::alloc::Global;

/// A copy of a name with its place.
pub fn copy_spot(alloc: Global, spot: &Spot) -> Result<Spot, NoMemory>
    ensures { IfOk result (λ copied. copied ≡ spot.now) }
{
    let text = spot.text.copied(alloc)?;
    Ok(Spot { text, at: spot.at })
}

/// A copy of what a token is.
fn copy_kind(alloc: Global, kind: &TokenKind) -> Result<TokenKind, NoMemory>
    ensures { IfOk result (λ copied. copied ≡ kind.now) }
{
    match kind {
        TokenKind::Name(text) => Ok(TokenKind::Name(text.copied(alloc)?)),
        TokenKind::Str(text) => Ok(TokenKind::Str(text.copied(alloc)?)),
        TokenKind::Integer(value) => Ok(TokenKind::Integer(*value)),
        TokenKind::Reserved(word) => Ok(TokenKind::Reserved(*word)),
        TokenKind::Sign(sign) => Ok(TokenKind::Sign(*sign)),
        TokenKind::AtEval => Ok(TokenKind::AtEval),
        TokenKind::Separator => Ok(TokenKind::Separator),
        TokenKind::Eof => Ok(TokenKind::Eof),
    }
}

/// A copy of a token.
pub fn copy_token(alloc: Global, token: &Token) -> Result<Token, NoMemory>
    ensures { IfOk result (λ copied. copied ≡ token.now) }
{
    let what = copy_kind(alloc, &token.what)?;
    Ok(Token {
        what,
        start: token.start,
        end: token.end,
        blank: token.blank,
    })
}

/// A copy of a name with its module.
pub fn copy_path(alloc: Global, path: &Path) -> Result<Path, NoMemory>
    ensures { IfOk result (λ copied. copied ≡ path.now) }
{
    match path {
        Path::Bare(name) => Ok(Path::Bare(copy_spot(alloc, name)?)),
        Path::Of(owner, name) => {
            let (owner, name) = both(copy_spot(alloc, owner.get()), copy_spot(alloc, name))?;
            path_of(alloc, owner, name)
        }
    }
}

/// A boxed copy of a name with its module.
fn boxed_path(alloc: Global, path: &Path) -> Result<Boxed<Path>, NoMemory>
    ensures { IfOk result (λ copied. copied ≡ path.now) }
{
    let path = copy_path(alloc, path)?;
    in_box(alloc, path)
}

/// Two operands, where memory was there for both.
type Operands = Result<(Boxed<Expr>, Boxed<Expr>), NoMemory>;

/// `&&` between operands.
fn and_of(operands: Operands) -> Result<Expr, NoMemory>
    ensures { MatchResult operands (λ p. result ≡ Ok (Expr.And p.0 p.1)) (λ error. result ≡ Err error) }
{
    let (a, b) = operands?;
    Ok(Expr::And(a, b))
}

/// `||` between operands.
fn or_of(operands: Operands) -> Result<Expr, NoMemory>
    ensures { MatchResult operands (λ p. result ≡ Ok (Expr.Or p.0 p.1)) (λ error. result ≡ Err error) }
{
    let (a, b) = operands?;
    Ok(Expr::Or(a, b))
}

/// `===` between operands.
fn same_of(operands: Operands) -> Result<Expr, NoMemory>
    ensures { MatchResult operands (λ p. result ≡ Ok (Expr.Same p.0 p.1)) (λ error. result ≡ Err error) }
{
    let (a, b) = operands?;
    Ok(Expr::Same(a, b))
}

/// A condition with its branches.
fn condition_of(
    parts: Result<(Boxed<Expr>, (Boxed<Expr>, Boxed<Expr>)), NoMemory>,
) -> Result<Expr, NoMemory>
    ensures { MatchResult parts (λ p. result ≡ Ok (Expr.Cond p.0 p.1.0 p.1.1)) (λ error. result ≡ Err error) }
{
    let (c, (a, b)) = parts?;
    Ok(Expr::Cond(c, a, b))
}

/// A boxed copy.
#[cycle(copy_expr)]
fn boxed(alloc: Global, e: &Expr) -> Result<Boxed<Expr>, NoMemory>
    ensures { IfOk result (λ copied. copied ≡ e.now) }
{
    let copied = copy_expr(alloc, e)?;
    in_box(alloc, copied)
}

/// A copy of a field of a value.
#[cycle(copy_expr)]
fn field_copied(alloc: Global, a: &Expr, x: &Spot) -> Result<Expr, NoMemory>
    ensures { IfOk result (λ copied. copied ≡ Expr.Field a.now x.now) }
{
    let (a, x) = both(boxed(alloc, a), copy_spot(alloc, x))?;
    Ok(Expr::Field(a, x))
}

/// A copy of a call.
#[cycle(copy_expr)]
fn call_copied(alloc: Global, f: &Path, es: &[Argument]) -> Result<Expr, NoMemory>
    ensures { IfOk result (λ copied. copied ≡ Expr.Call f.now es.now) }
{
    let (f, es) = both(boxed_path(alloc, f), copy_arguments(alloc, es))?;
    Ok(Expr::Call(f, es))
}

/// A copy of an expression.
#[cycle(copy_expr)]
pub fn copy_expr(alloc: Global, e: &Expr) -> Result<Expr, NoMemory>
    ensures { IfOk result (λ copied. copied ≡ e.now) }
{
    match e {
        Expr::Nothing => Ok(Expr::Nothing),
        Expr::False => Ok(Expr::False),
        Expr::True => Ok(Expr::True),
        Expr::Int(n) => Ok(Expr::Int(*n)),
        Expr::Str(s) => Ok(Expr::Str(s.copied(alloc)?)),
        Expr::Name(path) => Ok(Expr::Name(copy_path(alloc, path)?)),
        Expr::Field(a, x) => field_copied(alloc, a.get(), x),
        Expr::Call(f, es) => call_copied(alloc, f.get(), es.as_slice()),
        Expr::Latest(es) => Ok(Expr::Latest(copy_arguments(alloc, es.as_slice())?)),
        Expr::And(a, b) => and_of(both(boxed(alloc, a.get()), boxed(alloc, b.get()))),
        Expr::Or(a, b) => or_of(both(boxed(alloc, a.get()), boxed(alloc, b.get()))),
        Expr::Cond(c, a, b) => condition_of(both(
            boxed(alloc, c.get()),
            both(boxed(alloc, a.get()), boxed(alloc, b.get())),
        )),
        Expr::Same(a, b) => same_of(both(boxed(alloc, a.get()), boxed(alloc, b.get()))),
    }
}

#[cycle(copy_expr)]
fn copy_argument(alloc: Global, argument: &Argument) -> Result<Argument, NoMemory>
    ensures { IfOk result (λ copied. copied ≡ argument.now) }
{
    let value = copy_expr(alloc, &argument.value)?;
    Ok(Argument {
        at: argument.at,
        value,
    })
}

/// A copy of arguments.
#[cycle(copy_expr)]
pub fn copy_arguments(alloc: Global, es: &[Argument]) -> Result<ArgumentList, NoMemory>
    ensures { IfOk result (λ copied. copied ≡ es.now) }
{
    let mut copied = Items::new(alloc);
    for e in es {
        copied.push(copy_argument(alloc, e)?)?;
    }
    Ok(copied)
}
