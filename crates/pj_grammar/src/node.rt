use pj_syntax::{ArgumentList, Block, Expr, ItemList, Stmt};

/// An expression that was read: its tree, how deep it nests, and the place of its first byte. Each pair of parentheses round an
/// expression counts one, and leaves no tree.
#[derive(Drop)]
pub struct Node {
    pub tree: Expr,
    pub nesting: usize,
    pub at: usize,
}

/// Arguments, and how deep the deepest nests.
#[derive(Drop)]
pub struct Arguments {
    pub trees: ArgumentList,
    pub nesting: usize,
}

/// A statement that was read, and how deep it nests.
#[derive(Drop)]
pub struct Line {
    pub tree: Stmt,
    pub nesting: usize,
}

/// Statements, and how deep the deepest nests.
#[derive(Drop)]
pub struct Lines {
    pub trees: Block,
    pub nesting: usize,
}

/// Items, and how deep the deepest nests.
#[derive(Drop)]
pub struct Entries {
    pub trees: ItemList,
    pub nesting: usize,
}
