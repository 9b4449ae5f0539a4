ghost use Rattle.std.specs.Prelude.{◌≡◌, IfOk};

use crate::tree::{Expr, ExprList, Param, ParamList, Sym, SymList, TypeRef};
use pj_base::{NoMemory, Text};
use sqlite_items::{Boxed, Items};
use std::alloc::Global;

/// A copy of a name or a string.
pub fn copy_sym(alloc: Global, sym: &Sym) -> Result<Sym, NoMemory>
    ensures { IfOk result (λ copied. copied ≡ sym.now) }
{
    match sym {
        Sym::Text(text) => Ok(Sym::Text(Text::from_str(alloc, text.as_str())?)),
        Sym::Number(number) => Ok(Sym::Number(*number)),
    }
}

/// A copy of a list of names.
pub fn copy_syms(alloc: Global, syms: &[Sym]) -> Result<SymList, NoMemory>
    ensures { IfOk result (λ copied. copied ≡ syms.now) }
{
    let mut copied = Items::new(alloc);
    for sym in syms {
        copied.push(copy_sym(alloc, sym)?)?;
    }
    Ok(copied)
}

/// A copy of a type's name.
pub fn copy_type(alloc: Global, named: &TypeRef) -> Result<TypeRef, NoMemory>
    ensures { IfOk result (λ copied. copied ≡ named.now) }
{
    let module = copy_sym(alloc, &named.module)?;
    let name = copy_sym(alloc, &named.name)?;
    Ok(TypeRef { module, name })
}

/// A copy of a parameter or a field.
pub fn copy_param(alloc: Global, param: &Param) -> Result<Param, NoMemory>
    ensures { IfOk result (λ copied. copied ≡ param.now) }
{
    let name = copy_sym(alloc, &param.name)?;
    let declared = copy_type(alloc, &param.declared)?;
    Ok(Param { name, declared })
}

/// A copy of a list of parameters or fields.
pub fn copy_params(alloc: Global, params: &[Param]) -> Result<ParamList, NoMemory>
    ensures { IfOk result (λ copied. copied ≡ params.now) }
{
    let mut copied = Items::new(alloc);
    for param in params {
        copied.push(copy_param(alloc, param)?)?;
    }
    Ok(copied)
}

#[cycle(copy_expr)]
fn boxed(alloc: Global, e: &Expr) -> Result<Boxed<Expr>, NoMemory>
    ensures { IfOk result (λ copied. copied ≡ e.now) }
{
    Ok(Boxed::new(alloc, copy_expr(alloc, e)?)?)
}

/// A copy of an expression.
#[cycle(copy_expr)]
pub fn copy_expr(alloc: Global, e: &Expr) -> Result<Expr, NoMemory>
    ensures { IfOk result (λ copied. copied ≡ e.now) }
{
    match e {
        Expr::Nothing => Ok(Expr::Nothing),
        Expr::False => Ok(Expr::False),
        Expr::True => Ok(Expr::True),
        Expr::Int(n) => Ok(Expr::Int(*n)),
        Expr::Str(s) => Ok(Expr::Str(copy_sym(alloc, s)?)),
        Expr::Local(x) => Ok(Expr::Local(copy_sym(alloc, x)?)),
        Expr::Global(m, x) => Ok(Expr::Global(copy_sym(alloc, m)?, copy_sym(alloc, x)?)),
        Expr::Field(a, x) => Ok(Expr::Field(boxed(alloc, a.get())?, copy_sym(alloc, x)?)),
        Expr::Call(m, f, es) => Ok(Expr::Call(
            copy_sym(alloc, m)?,
            copy_sym(alloc, f)?,
            copy_exprs(alloc, es.as_slice())?,
        )),
        Expr::CallLocal(x, es) => Ok(Expr::CallLocal(
            copy_sym(alloc, x)?,
            copy_exprs(alloc, es.as_slice())?,
        )),
        Expr::Latest(f, es) => Ok(Expr::Latest(
            boxed(alloc, f.get())?,
            copy_exprs(alloc, es.as_slice())?,
        )),
        Expr::And(a, b) => Ok(Expr::And(boxed(alloc, a.get())?, boxed(alloc, b.get())?)),
        Expr::Or(a, b) => Ok(Expr::Or(boxed(alloc, a.get())?, boxed(alloc, b.get())?)),
        Expr::Cond(c, a, b) => Ok(Expr::Cond(
            boxed(alloc, c.get())?,
            boxed(alloc, a.get())?,
            boxed(alloc, b.get())?,
        )),
        Expr::Same(a, b) => Ok(Expr::Same(boxed(alloc, a.get())?, boxed(alloc, b.get())?)),
    }
}

/// A copy of a list of expressions.
#[cycle(copy_expr)]
pub fn copy_exprs(alloc: Global, es: &[Expr]) -> Result<ExprList, NoMemory>
    ensures { IfOk result (λ copied. copied ≡ es.now) }
{
    let mut copied = Items::new(alloc);
    for e in es {
        copied.push(copy_expr(alloc, e)?)?;
    }
    Ok(copied)
}
