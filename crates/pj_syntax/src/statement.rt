use crate::expression::{Expr, Path, Spot};
use sqlite_items::{Boxed, Items};

/// A parameter or a field: the place of its first byte, its name and its type. A field has a name.
#[derive(Drop)]
pub struct Param {
    pub at: usize,
    pub name: Option<Spot>,
    pub declared: Option<Path>,
}

pub type ParamList = Items<Param>;

pub type Block = Items<Stmt>;

/// A statement. `x op= e` is `x = x op e`, and `p.f op= e` is `p.f = p.f op e`. The place of `global`, `return`, `break` and
/// `continue` is that of the word. `elseif` is an `if` in the other branch, and a branch that isn't written is empty. What two
/// expressions make is boxed, so that a statement takes little room.
#[cycle(statement)]
#[derive(Drop)]
pub enum Stmt {
    Value(Expr),
    Set(Spot, Expr),
    SetField(Boxed<Expr>, Spot, Boxed<Expr>),
    Global(usize, Spot, Boxed<Expr>),
    Return(usize, Option<Expr>),
    Break(usize),
    Continue(usize),
    If(Boxed<Expr>, Block, Block),
    While(Boxed<Expr>, Block),
    For(Spot, Boxed<Expr>, Boxed<Expr>, Block),
    Eval(Option<Spot>, Boxed<Payload>),
}

/// The definition of a method. A short one has its expression as its only statement.
#[cycle(statement)]
#[derive(Drop)]
pub struct Function {
    pub path: Path,
    pub params: ParamList,
    pub block: Block,
}

/// What `@eval` evaluates.
#[cycle(statement)]
#[derive(Drop)]
pub enum Payload {
    Def(Function),
    Set(Spot, Expr),
    Value(Expr),
}
