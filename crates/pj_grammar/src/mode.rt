use crate::frame::Header;
use crate::node::{Line, Node};
use pj_syntax::{Package, Path, PathList, Script, Spot, SpotList};
use sqlite_items::Boxed;

/// An operand that was read, and how it may go on: only some can be called, assigned or defined.
#[derive(Drop)]
pub enum Head {
    Name(Spot),
    /// `M.x`, of a module
    Member(Boxed<Spot>, Spot),
    /// `Base.:OP`
    Operator(Boxed<Spot>, Spot),
    /// a field that can be assigned
    Place(Boxed<Node>, Spot),
    /// a call whose arguments are names, with or without modules
    Call(Path, PathList),
    Plain(Node),
}

/// A text that was read whole.
#[derive(Drop)]
pub enum Parsed {
    Script(Script),
    Package(Package),
}

/// What may come next, beside what the frames say.
#[derive(Drop)]
pub enum Mode {
    /// an operand
    Want,
    /// what follows an operand
    Have(Head),
    /// a field's name behind the dot. The flag says whether the field can be assigned.
    Field(Node, bool),
    /// a name behind a module and its dot, or the colon of `Base.:OP`
    Member(Boxed<Spot>),
    /// the operator of `Base.:OP`
    BaseOperator(Boxed<Spot>),
    /// an argument, or the end of the arguments
    Arguments,
    /// a parameter, or the end of the parameters
    Params,
    /// `=` behind the parameters of a short definition
    ShortAssign,
    /// a name that may have a module
    PathStart,
    /// a statement, an item, a separator, or the end of these
    Line,
    /// what follows a statement or an item
    Closed,
    /// what is to be evaluated, or a module before it
    Payload,
    /// what follows a module's name behind `@eval`
    EvalName(Spot),
    /// `:`, then `(`, behind `eval(`
    EvalColon,
    EvalOpen,
    /// the first and the second `)` behind what `eval` evaluates
    PayloadEnd(Boxed<Line>),
    EvalEnd(Boxed<Line>),
    /// what follows `return` at a place
    Return(usize),
    GlobalName(usize),
    GlobalAssign(usize, Spot),
    ConstName,
    ConstAssign(Spot),
    LoopName,
    LoopIn(Spot),
    UsingName(SpotList),
    UsingMore(SpotList),
    AbstractName,
    StructName(bool),
    /// what follows the name of a type that is defined
    Header(Header),
    /// a field, a separator, or the end of the fields
    FieldStart,
    /// `end` behind `function f` and separators
    Declared(Spot),
    /// `,`, then `(`, behind the function of a directive
    TypesOpen(Path),
    /// a type, or the end of the types
    Types,
    /// the last `)` of a directive
    DirectiveEnd,
    PackageStart,
    PackageName,
    PackageNamed(Spot),
    /// what follows the `end` of a package
    PackageEnd,
    Accepted,
}
