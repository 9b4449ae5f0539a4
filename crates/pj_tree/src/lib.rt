//! Source trees: their types, their bytes, and their meaning.
#![tactic(auto)]

pub mod encode;
pub mod expression_copy;
pub mod fault;
pub mod item;
pub mod item_copy;
pub mod numbering;
mod reading;
pub mod reading_laws;
pub mod room;
pub mod scope_rows;
pub mod tree;
pub mod tree_copy;
pub mod tree_list;
pub mod trees;

pub use encode::encode_tree;
pub use expression_copy::{
    copy_expr, copy_exprs, copy_param, copy_params, copy_sym, copy_syms, copy_type,
};
pub use fault::TreeFault;
pub use item::{ItemList, PackageTree, ScriptTree, TextList, TopItem, TypeRefList};
pub use item_copy::{copy_item, copy_items, copy_types};
pub use reading::decode::decode_tree;
pub use room::with_room;
pub use tree::{
    Block, Body, DefTree, Expr, ExprList, Param, ParamList, Part, Payload, Stmt, Sym, SymList,
    TreeNode, TypeRef,
};
pub use tree_copy::{
    copy_block, copy_body, copy_def, copy_part, copy_payload, copy_stmt, copy_tree,
};
pub use tree_list::TreeList;
pub use trees::Trees;
