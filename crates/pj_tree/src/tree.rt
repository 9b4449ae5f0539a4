use pj_base::Text;
use sqlite_items::{Boxed, Items};

/// A name or a string: the text itself, or its number among the strings of an image.
#[derive(Drop)]
pub enum Sym {
    Text(Text),
    Number(u32),
}

pub type SymList = Items<Sym>;

pub type ExprList = Items<Expr>;

/// An expression. The first name of a Global or a Call is the module before the name, or empty.
#[derive(Drop)]
pub enum Expr {
    Nothing,
    False,
    True,
    Int(i64),
    Str(Sym),
    Local(Sym),
    Global(Sym, Sym),
    Field(Boxed<Expr>, Sym),
    Call(Sym, Sym, ExprList),
    CallLocal(Sym, ExprList),
    Latest(Boxed<Expr>, ExprList),
    And(Boxed<Expr>, Boxed<Expr>),
    Or(Boxed<Expr>, Boxed<Expr>),
    Cond(Boxed<Expr>, Boxed<Expr>, Boxed<Expr>),
    Same(Boxed<Expr>, Boxed<Expr>),
}

/// A type as a text names it. The module is empty where none is written.
#[derive(Drop)]
pub struct TypeRef {
    pub module: Sym,
    pub name: Sym,
}

/// A parameter or a field.
#[derive(Drop)]
pub struct Param {
    pub name: Sym,
    pub declared: TypeRef,
}

pub type ParamList = Items<Param>;

pub type Block = Items<Stmt>;

/// A statement. While and For carry the names that their scope introduces.
#[cycle(tree)]
#[derive(Drop)]
pub enum Stmt {
    Value(Expr),
    SetLocal(Sym, Expr),
    SetGlobal(Sym, Expr),
    SetField(Expr, Sym, Expr),
    If(Expr, Block, Block),
    While(SymList, Expr, Block),
    For(Sym, Expr, Expr, SymList, Block),
    Break,
    Continue,
    Return(Expr),
    Eval(Sym, Part),
}

/// A tree that another one names: the tree itself, or its number among the trees of an image.
#[cycle(tree)]
#[derive(Drop)]
pub enum Part {
    Held(Boxed<TreeNode>),
    Number(u32),
}

/// A tree that is numbered by itself.
#[cycle(tree)]
#[derive(Drop)]
pub enum TreeNode {
    Body(Body),
    Payload(Payload),
}

/// The body of a method: its parameters' names, the names that it introduces besides, and its statements.
#[cycle(tree)]
#[derive(Drop)]
pub struct Body {
    pub params: SymList,
    pub introduced: SymList,
    pub block: Block,
}

/// The definition of a method.
#[cycle(tree)]
#[derive(Drop)]
pub struct DefTree {
    pub module: Sym,
    pub fun: Sym,
    pub params: ParamList,
    pub body: Part,
}

/// What `@eval` evaluates.
#[cycle(tree)]
#[derive(Drop)]
pub enum Payload {
    Def(DefTree),
    SetBinding { name: Sym, value: Expr },
    Value(Expr),
}
