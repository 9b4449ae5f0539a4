//! What the reader of texts makes: trees from the forms of the grammar, and small tests of tokens. Each function computes one
//! definition of specs of pj_grammar, mostly of its file Makers.
#![tactic(auto)]

pub mod assignments;
pub mod bounds;
pub mod copies;
pub mod definitions;
pub mod expressions;
pub mod heads;
pub mod items;
pub mod levels;
pub mod modules;
pub mod params;
pub mod paths;
pub mod statements;
pub mod together;
pub mod tokens;
