use pj_base::Text;
use sqlite_items::{Boxed, Items};

/// A name of a text, and the place of its first byte.
#[derive(Drop)]
pub struct Spot {
    pub text: Text,
    pub at: usize,
}

pub type SpotList = Items<Spot>;

/// A name, with the module that is written before it. An operator is a name of the module `Base`.
#[derive(Drop)]
pub enum Path {
    Bare(Spot),
    Of(Boxed<Spot>, Spot),
}

pub type PathList = Items<Path>;

/// An argument, and the place of its first byte.
#[cycle(expression)]
#[derive(Drop)]
pub struct Argument {
    pub at: usize,
    pub value: Expr,
}

pub type ArgumentList = Items<Argument>;

/// An expression. An operator is a call of Base's function, but for `===`, `&&`, `||` and `?`, which have forms of their own,
/// and `x !== y`, which is `x === y ? false : true`. `Latest` is a call of `invokelatest`, with the function as its first
/// argument.
#[cycle(expression)]
#[derive(Drop)]
pub enum Expr {
    Nothing,
    False,
    True,
    Int(i64),
    Str(Text),
    Name(Path),
    Field(Boxed<Expr>, Spot),
    Call(Boxed<Path>, ArgumentList),
    Latest(ArgumentList),
    And(Boxed<Expr>, Boxed<Expr>),
    Or(Boxed<Expr>, Boxed<Expr>),
    Cond(Boxed<Expr>, Boxed<Expr>, Boxed<Expr>),
    Same(Boxed<Expr>, Boxed<Expr>),
}
