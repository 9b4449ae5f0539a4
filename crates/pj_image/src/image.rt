use pj_parts::{
    Binding, CodeRecord, CodeWord, Directive, FunDef, Head, Method, Object, ShortText, TypeDef,
};
use pj_reloc::Entry;
use pj_tree::TreeNode;
use sqlite_items::Items;

/// An image: a field for each of the twelve sections of its file.
#[derive(Drop)]
pub struct Image {
    pub head: Head,
    pub strings: Items<ShortText>,
    pub types: Items<TypeDef>,
    pub functions: Items<FunDef>,
    pub bindings: Items<Binding>,
    pub objects: Items<Object>,
    pub trees: Items<TreeNode>,
    pub methods: Items<Method>,
    pub directives: Items<Directive>,
    pub records: Items<CodeRecord>,
    pub code: Items<CodeWord>,
    pub entries: Items<Entry>,
}
