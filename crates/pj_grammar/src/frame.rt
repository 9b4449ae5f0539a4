use crate::level::{Level, Operator};
use crate::node::{Arguments, Entries, Lines, Node};
use pj_syntax::{ParamList, Path, PathList, Spot, SpotList};
use sqlite_items::Boxed;

/// What an assignment sets: a name, a field of a value, or a global behind the word `global` at a place.
#[derive(Drop)]
pub enum Target {
    Local(Spot),
    Field(Boxed<Node>, Spot),
    Global(usize, Spot),
}

/// What an expression is read for.
#[derive(Drop)]
pub enum Purpose {
    /// a statement or a payload, which may still become an assignment or a definition
    Value,
    /// `x = ..`; with an operator, `x += ..`
    Assign(Target, Option<Operator>),
    Return(usize),
    If,
    While,
    From(Spot),
    To(Spot, Boxed<Node>),
    Const(Spot),
    /// the body of a short definition
    Short(Path, ParamList),
}

/// Whether a definition is short, `f(x) = ..`, or long, `function f(x) .. end`.
#[derive(Clone, Copy, PartialEq, Eq)]
pub enum Form {
    Short,
    Long,
}

/// What a block of statements is for. `Else` has the statements of the other branch.
#[derive(Drop)]
pub enum Opener {
    If(Boxed<Node>),
    Else(Boxed<Node>, Lines),
    While(Boxed<Node>),
    For(Spot, Boxed<Node>, Boxed<Node>),
    Function(Path, ParamList),
}

/// The arguments of a call so far. While all are names with or without modules, the call may still be a definition or a
/// directive.
#[derive(Drop)]
pub enum Given {
    Paths(PathList),
    Mixed(Arguments),
}

/// The type whose definition is read.
#[derive(Drop)]
pub enum Header {
    Abstract(Spot),
    Struct(bool, Spot),
}

/// The text that is read.
#[derive(Drop)]
pub enum Root {
    Script,
    Package(Spot, SpotList),
}

/// What is begun and not yet ended: the stack of the machine has one frame for each.
#[derive(Drop)]
pub enum Frame {
    /// a prefix operator, before its operand
    Prefix(Operator),
    /// a binary operator, before its right operand
    Infix(Level, Node, Operator),
    /// `c ?`, before the first branch
    Then(Node),
    /// `c ? a :`, before the second branch
    Else(Boxed<Node>, Boxed<Node>),
    /// `(` at a place. The flag says that it may open the types of a directive.
    Group(usize, bool),
    /// a call, at an argument
    Call(Path, Given),
    /// a definition, at a parameter
    Signature(Form, Path, ParamList),
    /// the type of a parameter or field, its name if any and its first byte
    TypeOf(Option<Spot>, usize),
    /// the name behind `function`
    FunctionName,
    /// the type behind `<:`
    Parent(Header),
    /// a struct's fields
    Fields(bool, Spot, Option<Path>, ParamList),
    /// the function of a directive
    DirectiveFun,
    /// the types of a directive
    Types(Path, PathList),
    /// an expression
    Hole(Purpose),
    /// the statements of a block
    Block(Opener, Lines),
    /// the condition and the statements of a branch before `elseif`
    Branch(Boxed<Node>, Lines),
    /// what `@eval`, with or without a module, or `eval(:(`, with the flag, evaluates
    Payload(Option<Spot>, bool),
    /// the items of a text
    Items(Root, Entries),
}
