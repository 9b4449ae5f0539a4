use crate::tree::{DefTree, Expr, ParamList, Stmt, Sym, SymList, TypeRef};
use pj_base::Text;
use sqlite_items::Items;

pub type TypeRefList = Items<TypeRef>;

pub type TextList = Items<Text>;

pub type ItemList = Items<TopItem>;

/// One item at the top level of a script or a package.
#[derive(Drop)]
pub enum TopItem {
    Using(SymList),
    AbstractDef {
        name: Sym,
        parent: TypeRef,
    },
    StructDef {
        mutable: bool,
        name: Sym,
        parent: TypeRef,
        fields: ParamList,
    },
    Def(DefTree),
    Declare(Sym),
    Const {
        name: Sym,
        value: Expr,
    },
    Directive {
        module: Sym,
        fun: Sym,
        types: TypeRefList,
    },
    Run(Stmt),
}

/// The text of a package.
#[derive(Drop)]
pub struct PackageTree {
    pub name: Text,
    pub uses: TextList,
    pub items: ItemList,
}

/// The text of a script.
#[derive(Drop)]
pub struct ScriptTree {
    pub items: ItemList,
}
