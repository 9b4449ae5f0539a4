//! What is noted of an image that is loaded: in slots the places of its names, and for each function where its method stands.

ghost use Rattle.std.specs.Prelude.{◌≡◌, ◌<◌, ◌^◌, ℕ, List, Some, None, IfOk, length, option_map, option_and_then, slice_get, slice_index_or};
ghost use Rattle.pj_parts.specs.declared.types.Value.{out-Value};
ghost use Rattle.pj_image.specs.Formed.{Formed};
ghost use Rattle.pj_base.specs.Interned.{found_at};
ghost use Rattle.pj_content.specs.Content.{strings_in, content_of};
ghost use Rattle.pj_content.specs.Misfit.{misfit};
ghost use Rattle.pj_session.specs.Things.{Calls, thing_of};
ghost use Rattle.pj_session.specs.Lent.{parts_seen, thing_seen};
ghost use Rattle.pj_tree.specs.declared.tree.Sym.{Sym};
ghost use Rattle.pj_tree.specs.Reads.{Strings, texts_of, expr_of};
ghost use Rattle.pj_tree.specs.declared.tree.Stmt.{out-Stmt};
ghost use Rattle.pj_tree.specs.declared.tree.TreeNode.{out-TreeNode};
ghost use Rattle.pj_session.specs.Indexed.{statement_parts, block_parts, node_parts, is_of_place, parts_at, whole_of, noted, MethodList, names_in_image, thing_by_list};

use crate::name_places::find_place;
use crate::thing::{Code, Thing};
use pj_base::NoMemory;
use pj_image::Image;
use pj_parts::Value;
use pj_reloc::Entry;
use pj_tree::{Expr, Stmt, Sym, TreeNode};
use sqlite_items::at as item_at;
use std::alloc::Global;

/// The expression that a statement consists of.
fn statement_code(statement: &Stmt) -> Option<&Expr>
    ensures { (strings : Strings) (params : List Sym) → option_map (λ e. (texts_of strings params, expr_of strings e.now)) result ≡ statement_parts strings params (out-Stmt statement.now) }
{
    match statement {
        Stmt::Value(e) => Some(e),
        Stmt::SetLocal(_, _) | Stmt::SetGlobal(_, _) | Stmt::SetField(_, _, _) => None,
        Stmt::If(_, _, _) | Stmt::While(_, _, _) | Stmt::For(_, _, _, _, _) => None,
        Stmt::Break | Stmt::Continue | Stmt::Return(_) | Stmt::Eval(_, _) => None,
    }
}

/// The expression that a block consists of.
fn block_code(block: &[Stmt]) -> Option<&Expr>
    ensures { (strings : Strings) (params : List Sym) → option_map (λ e. (texts_of strings params, expr_of strings e.now)) result ≡ block_parts strings params block.now }
{
    match block {
        [statement] => statement_code(statement),
        _ => None,
    }
}

/// The parameters and the expression of a tree that is a body of one expression.
pub fn tree_code(tree: &TreeNode) -> Option<(&[Sym], &Expr)>
    ensures { (strings : Strings) → option_map (λ c. (texts_of strings c.0.now, expr_of strings c.1.now)) result ≡ node_parts strings (out-TreeNode tree.now) }
{
    match tree {
        TreeNode::Body(body) => {
            let value = block_code(body.block.as_slice())?;
            Some((body.params.as_slice(), value))
        }
        TreeNode::Payload(_) => None,
    }
}

/// The parameters and the expression of the method in a place, if one stands there.
pub fn method_code(image: &Image, place: usize) -> Option<(&[Sym], &Expr)>
    ensures { option_map (λ c. (texts_of (strings_in image.now.strings) c.0.now, expr_of (strings_in image.now.strings) c.1.now)) result ≡ parts_at image.now (Some place) }
{
    let method = item_at(image.methods.as_slice(), place)?;
    let tree = item_at(image.trees.as_slice(), method.body as usize)?;
    tree_code(tree)
}

/// The integer that a value is. Another value, which no file has, counts as 0.
#[tactic(auto, using(pj_parts::proofs::Values::value_layers))]
fn whole(value: &Value) -> i64
    ensures { result ≡ whole_of (out-Value value.now) }
{
    match value {
        Value::Int(number) => *number,
        Value::Nothing | Value::False | Value::True => 0,
        Value::Str(_) | Value::Fun(_) | Value::Object(_) | Value::Struct(_, _) => 0,
    }
}

/// The integer of the const or the global in a place, if one stands there.
pub fn whole_at(image: &Image, place: usize) -> Option<i64>
    ensures { result ≡ option_map (λ b. whole_of (out-Value b.value)) (slice_get image.now.bindings place) }
{
    let binding = item_at(image.bindings.as_slice(), place)?;
    Some(whole(&binding.value))
}

/// Notes where a method stands, in the place that its mention's entry names, where nothing is noted yet.
fn note(list: &mut Vec<Option<usize>>, entries: &[Entry], mention: u32, at: usize)
    ensures many { length list.new.items ≡ length list.old.items }
    ensures each { (place : ℕ) → place < length list.old.items → slice_index_or list.new.items place None ≡ noted at (is_of_place place (slice_get entries.now mention)) (slice_index_or list.old.items place None) }
{
    let Some(entry) = item_at(entries, mention as usize) else {
        return;
    };
    let place = entry.ordinal as usize;
    if place < list.len() && list[place].is_none() {
        list[place] = Some(at);
    }
}

/// For each function, the place of the first method that adds to it, if one does.
pub fn method_list(alloc: Global, image: &Image) -> Result<Vec<Option<usize>>, NoMemory>
    ensures { IfOk result (λ list. MethodList image.now list.items) }
{
    let mut list = vec![in alloc; None; image.functions.len()]?;
    let entries = image.entries.as_slice();
    let methods = image.methods.as_slice();
    for at in 0..methods.len() {
        note(&mut list, entries, methods[at].fun, at);
    }
    Ok(list)
}

/// The place of a method that is listed for a function, or none behind the end.
#[tactic(auto, using(crate::proofs::Listed::past_end))]
fn listed(methods: &[Option<usize>], place: usize) -> Option<usize>
    ensures { result ≡ slice_index_or methods.now place None }
{
    if place < methods.len() {
        methods[place]
    } else {
        None
    }
}

/// The method in a place, lent.
fn code(image: &Image, place: usize) -> Option<Code<'_>>
    ensures { option_map parts_seen result ≡ parts_at image.now (Some place) }
{
    let (params, body) = method_code(image, place)?;
    let strings = image.strings.as_slice();
    Some(Code {
        strings,
        params,
        body,
    })
}

/// What the function in a place is, lent.
fn function<'a>(image: &'a Image, methods: &[Option<usize>], place: usize) -> Thing<'a>
    ensures { thing_seen result ≡ Calls (parts_at image.now (slice_index_or methods.now place None)) }
{
    match listed(methods, place) {
        Some(at) => Thing::Calls(code(image, at)),
        None => Thing::Calls(None),
    }
}

/// What has the name in a place, lent.
fn thing_at<'a>(image: &'a Image, methods: &[Option<usize>], place: usize) -> Option<Thing<'a>>
    ensures { option_map thing_seen result ≡ thing_by_list image.now methods.now place }
{
    if place < image.functions.len() {
        return Some(function(image, methods, place));
    }
    let value = whole_at(image, place - image.functions.len())?;
    Some(Thing::Holds(value))
}

/// What a name is, by these lists.
fn found<'a>(
    image: &'a Image,
    places: &[u32],
    methods: &[Option<usize>],
    name: &str,
) -> Option<Thing<'a>>
    requires few { length (names_in_image image.now) < 2 ^ 64 }
    ensures { ∥ Formed image.now ∥₁ → option_map thing_seen result ≡ option_and_then (thing_by_list image.now methods.now) (found_at name.now (names_in_image image.now)) }
{
    let place = find_place(image, places, name)?;
    thing_at(image, methods, place)
}

/// What a name of an image is, where this is the list of its methods. The places are where names are looked for first.
pub fn image_thing<'a>(
    image: &'a Image,
    places: &[u32],
    methods: &[Option<usize>],
    name: &str,
) -> Option<Thing<'a>>
    requires few { length (names_in_image image.now) < 2 ^ 64 }
    ensures { MethodList image.now methods.now → ∥ Formed image.now ∥₁ → misfit image.now ≡ None → option_map thing_seen result ≡ thing_of (content_of image.now) name.now }
{
    found(image, places, methods, name)
}
