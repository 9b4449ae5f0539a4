//! The parts of an image: their types, their bytes both ways, and how many bytes they have.
#![tactic(auto)]

pub mod bound;
pub mod declared;
pub mod entries;
pub mod fault;
pub mod heads;
pub mod list;
pub mod methods;
pub mod part;
pub mod records;
pub mod short_text;
pub mod simple;
pub mod tested;
pub mod tree_size;
pub mod trees;
pub mod types;

pub use fault::PartFault;
pub use part::Part;
pub use short_text::ShortText;
pub use tested::Tested;
pub use types::{
    Binding, BindingForm, CodeRecord, CodeWord, Dependency, Directive, Edge, Element, FieldDef,
    FunDef, Head, Method, Object, Outcome, TypeDef, TypeForm, Value,
};
