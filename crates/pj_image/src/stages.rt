//! The parts of an image as they are read, some sections at a time.

use pj_parts::{
    Binding, CodeRecord, CodeWord, Directive, FunDef, Head, Method, Object, ShortText, TypeDef,
};
use pj_reloc::Entry;
use pj_tree::TreeNode;
use sqlite_items::Items;

/// Sections 1 to 6: what the package is and declares.
#[derive(Drop)]
pub struct Declared {
    pub head: Head,
    pub strings: Items<ShortText>,
    pub types: Items<TypeDef>,
    pub functions: Items<FunDef>,
    pub bindings: Items<Binding>,
    pub objects: Items<Object>,
}

/// Sections 7 and 8: trees and methods, and the byte offset of the list of methods in the file.
#[derive(Drop)]
pub struct Bodies {
    pub trees: Items<TreeNode>,
    pub place: u64,
    pub methods: Items<Method>,
}

/// Sections 9 to 12: what is compiled, and what the mentions name.
#[derive(Drop)]
pub struct Ending {
    pub directives: Items<Directive>,
    pub records: Items<CodeRecord>,
    pub code: Items<CodeWord>,
    pub entries: Items<Entry>,
}
