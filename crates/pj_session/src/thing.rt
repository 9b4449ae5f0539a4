//! What a name is.

use pj_parts::ShortText;
use pj_tree::{Expr, Sym};

/// A method's expression over its parameters, where they stand. Names are held, or are numbers of these strings.
#[derive(Drop)]
pub struct Code<'a> {
    pub strings: &'a [ShortText],
    pub params: &'a [Sym],
    pub body: &'a Expr,
}

/// A function, with its only method if it has one, or a number.
#[derive(Drop)]
pub enum Thing<'a> {
    Calls(Option<Code<'a>>),
    Holds(i64),
}
