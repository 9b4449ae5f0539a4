//! Syntax trees: what a text says, with the places of its names, before scopes decide what each name means.
#![tactic(auto)]

pub mod expression;
pub mod item;
pub mod statement;

pub use expression::{Argument, ArgumentList, Expr, Path, PathList, Spot, SpotList};
pub use item::{Item, ItemList, Package, Script};
pub use statement::{Block, Function, Param, ParamList, Payload, Stmt};
