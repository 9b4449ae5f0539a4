//! What the reader of texts keeps between tokens: the stack of what is begun, how deep that nests, and where the reader stands. It
//! also ends operators whose operand is complete. The definitions are in specs of pj_grammar: Frames, Need and Machine.
#![tactic(auto)]

pub mod depth;
pub mod need;
pub mod place;
pub mod reading;
pub mod settling;
pub mod stack;
pub mod view;
