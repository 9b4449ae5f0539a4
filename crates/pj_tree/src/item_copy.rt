ghost use Rattle.std.specs.Prelude.{◌≡◌, IfOk};

use crate::expression_copy::{copy_expr, copy_params, copy_sym, copy_syms, copy_type};
use crate::item::{ItemList, TopItem, TypeRefList};
use crate::tree::TypeRef;
use crate::tree_copy::{copy_def, copy_stmt};
use pj_base::NoMemory;
use sqlite_items::Items;
use std::alloc::Global;

/// A copy of a list of types' names.
pub fn copy_types(alloc: Global, types: &[TypeRef]) -> Result<TypeRefList, NoMemory>
    ensures { IfOk result (λ copied. copied ≡ types.now) }
{
    let mut copied = Items::new(alloc);
    for named in types {
        copied.push(copy_type(alloc, named)?)?;
    }
    Ok(copied)
}

/// A copy of an item.
pub fn copy_item(alloc: Global, item: &TopItem) -> Result<TopItem, NoMemory>
    ensures { IfOk result (λ copied. copied ≡ item.now) }
{
    match item {
        TopItem::Using(names) => Ok(TopItem::Using(copy_syms(alloc, names.as_slice())?)),
        TopItem::AbstractDef { name, parent } => Ok(TopItem::AbstractDef {
            name: copy_sym(alloc, name)?,
            parent: copy_type(alloc, parent)?,
        }),
        TopItem::StructDef {
            mutable,
            name,
            parent,
            fields,
        } => Ok(TopItem::StructDef {
            mutable: *mutable,
            name: copy_sym(alloc, name)?,
            parent: copy_type(alloc, parent)?,
            fields: copy_params(alloc, fields.as_slice())?,
        }),
        TopItem::Def(def) => Ok(TopItem::Def(copy_def(alloc, def)?)),
        TopItem::Declare(f) => Ok(TopItem::Declare(copy_sym(alloc, f)?)),
        TopItem::Const { name, value } => Ok(TopItem::Const {
            name: copy_sym(alloc, name)?,
            value: copy_expr(alloc, value)?,
        }),
        TopItem::Directive { module, fun, types } => Ok(TopItem::Directive {
            module: copy_sym(alloc, module)?,
            fun: copy_sym(alloc, fun)?,
            types: copy_types(alloc, types.as_slice())?,
        }),
        TopItem::Run(s) => Ok(TopItem::Run(copy_stmt(alloc, s)?)),
    }
}

/// A copy of a list of items.
pub fn copy_items(alloc: Global, items: &[TopItem]) -> Result<ItemList, NoMemory>
    ensures { IfOk result (λ copied. copied ≡ items.now) }
{
    let mut copied = Items::new(alloc);
    for item in items {
        copied.push(copy_item(alloc, item)?)?;
    }
    Ok(copied)
}
