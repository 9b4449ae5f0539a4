use pj_lex::Sign;

/// How tightly an expression is read, the loosest first. `Callee` is a function's name, with or without a module or `Base.:OP`,
/// `Named` a type's name, and `Bare` a name alone.
#[derive(Clone, Copy, PartialEq, Eq)]
pub enum Level {
    Conditional,
    Disjunction,
    Conjunction,
    Comparison,
    Sum,
    Product,
    Unary,
    Postfix,
    Primary,
    Callee,
    Named,
    Bare,
}

/// An operator, and the place of its first byte.
#[derive(Clone, Copy, PartialEq, Eq)]
pub struct Operator {
    pub sign: Sign,
    pub at: usize,
}
