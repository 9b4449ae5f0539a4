//! What the reader of texts does where statements, items, definitions and parameters end. The definitions are specs/Closing and
//! specs/Operands of pj_grammar; each function computes one of them, or a case of one.
#![tactic(auto)]

pub mod blocks;
pub mod closing;
pub mod ends;
pub mod evaluated;
pub mod lines;
pub mod params;
