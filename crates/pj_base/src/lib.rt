//! What every crate of the product shares: want of memory, texts, lists of bytes, numbered names, and the
//! numbers by which parts name one another.
#![tactic(auto)]

pub mod bytes;
pub mod kinds;
pub mod memory;
pub mod names;
pub mod numbers;
pub mod release;
mod short;
pub mod text;

pub use bytes::ByteList;
pub use kinds::{
    KBinding, KFun, KMethod, KObject, KRecord, KTree, KType, Kind, KindTag, MAIN, Target,
};
pub use memory::NoMemory;
pub use names::{Name, Names};
pub use numbers::{FunId, MethodId, RecordId, TypeId, World};
pub use text::Text;
