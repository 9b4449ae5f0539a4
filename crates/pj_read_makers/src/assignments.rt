//! Makes assignments: of a name, a field or a global, with or without an operator. It computes `assign_of` of specs/Makers of
//! pj_grammar. The prover finds these proofs by itself.
ghost use Rattle.std.specs.Prelude.{◌≡◌, ◌+◌, ◌≤◌, IfOk, None, max};
ghost use Rattle.pj_grammar.specs.Makers.{assign_of, target_value};
ghost use Rattle.pj_grammar.specs.Need.{holder_nesting};
ghost use Rattle.pj_read_makers.specs.Bounds.{most_nesting};

use crate::copies::{copy_expr, copy_spot};
use crate::expressions::{boxed, field_of, infix_of, name_of};
use crate::together::both;
use pj_base::NoMemory;
use pj_base::release::failed;
use pj_grammar::{Line, Node, Operator, Target};
use pj_syntax::{Path, Spot, Stmt};
use std::alloc::Global;

/// A name as an expression, copied.
fn name_copied(alloc: Global, name: &Spot) -> Result<Node, NoMemory>
    ensures made { IfOk result (λ made. made ≡ target_value (Target.Local name.now)) }
    ensures nests { IfOk result (λ made. made.nesting ≡ 1) }
{
    let name = copy_spot(alloc, name)?;
    Ok(name_of(Path::Bare(name)))
}

/// An expression that was read, copied.
fn node_copied(alloc: Global, e: &Node) -> Result<Node, NoMemory>
    ensures { IfOk result (λ copied. copied ≡ e.now) }
{
    let tree = copy_expr(alloc, &e.tree)?;
    Ok(Node {
        tree,
        nesting: e.nesting,
        at: e.at,
    })
}

/// A field as an expression, copied.
fn field_copied(alloc: Global, e: &Node, field: &Spot) -> Result<Node, NoMemory>
    requires { e.now.nesting ≤ most_nesting }
    ensures made { IfOk result (λ made. made ≡ target_value (Target.Field e.now field.now)) }
    ensures nests { IfOk result (λ made. made.nesting ≡ 1 + e.now.nesting) }
{
    let (e, field) = both(node_copied(alloc, e), copy_spot(alloc, field))?;
    field_of(alloc, e, field)
}

/// What an assignment with an operator computes from: a copy of what it sets.
pub fn target_value(alloc: Global, target: &Target) -> Result<Node, NoMemory>
    requires { holder_nesting target.now ≤ most_nesting }
    ensures made { IfOk result (λ made. made ≡ target_value target.now) }
    ensures nests { IfOk result (λ made. made.nesting ≤ 1 + holder_nesting target.now) }
{
    match target {
        Target::Local(name) => name_copied(alloc, name),
        Target::Field(e, field) => field_copied(alloc, e.get(), field),
        Target::Global(_, name) => name_copied(alloc, name),
    }
}

/// An assignment of a name, without an operator.
#[tactic(auto, unfolding(pj_grammar::specs::Makers::assign_of))]
fn local_set(name: Spot, e: Node) -> Line
    requires { e.nesting ≤ 3 + most_nesting }
    ensures made { result ≡ assign_of (Target.Local name) None e }
    ensures nests { result.nesting ≡ 1 + e.nesting }
{
    let nesting = 1 + e.nesting;
    Line {
        tree: Stmt::Set(name, e.tree),
        nesting,
    }
}

/// An assignment of a global, without an operator.
#[tactic(auto, unfolding(pj_grammar::specs::Makers::assign_of))]
fn global_set(alloc: Global, at: usize, name: Spot, e: Node) -> Result<Line, NoMemory>
    requires { e.nesting ≤ 3 + most_nesting }
    ensures made { IfOk result (λ made. made ≡ assign_of (Target.Global at name) None e) }
    ensures nests { IfOk result (λ made. made.nesting ≡ 1 + e.nesting) }
{
    let nesting = 1 + e.nesting;
    let tree = Stmt::Global(at, name, boxed(alloc, e)?);
    Ok(Line { tree, nesting })
}

/// The statement that sets a field.
fn field_stmt(alloc: Global, holder: Node, field: Spot, e: Node) -> Result<Stmt, NoMemory>
    ensures { IfOk result (λ tree. tree ≡ Stmt.SetField holder.tree field e.tree) }
{
    match both(boxed(alloc, holder), boxed(alloc, e)) {
        Ok((holder, value)) => Ok(Stmt::SetField(holder, field, value)),
        Err(error) => failed(error, field),
    }
}

/// An assignment of a field, without an operator.
#[tactic(auto, unfolding(pj_grammar::specs::Makers::assign_of))]
fn field_set(alloc: Global, holder: Node, field: Spot, e: Node) -> Result<Line, NoMemory>
    requires holder { holder.nesting ≤ most_nesting }
    requires value { e.nesting ≤ 3 + most_nesting }
    ensures made { IfOk result (λ made. made ≡ assign_of (Target.Field holder field) None e) }
    ensures nests { IfOk result (λ made. made.nesting ≡ 1 + max holder.nesting e.nesting) }
{
    let nesting = 1 + holder.nesting.max(e.nesting);
    let tree = field_stmt(alloc, holder, field, e)?;
    Ok(Line { tree, nesting })
}

/// An assignment without an operator.
fn set_of(alloc: Global, target: Target, e: Node) -> Result<Line, NoMemory>
    requires holder { holder_nesting target ≤ most_nesting }
    requires value { e.nesting ≤ 3 + most_nesting }
    ensures made { IfOk result (λ made. made ≡ assign_of target None e) }
    ensures nests { IfOk result (λ made. made.nesting ≡ 1 + max (holder_nesting target) e.nesting) }
{
    match target {
        Target::Local(name) => Ok(local_set(name, e)),
        Target::Field(holder, field) => field_set(alloc, holder.into_inner(), field, e),
        Target::Global(at, name) => global_set(alloc, at, name, e),
    }
}

/// What an assignment sets its target to: a value, or with an operator what it computes from the target and the value.
#[tactic(auto, unfolding(pj_grammar::specs::Makers::assign_of))]
fn assigned(
    alloc: Global,
    target: &Target,
    operator: Option<Operator>,
    e: Node,
) -> Result<Node, NoMemory>
    requires holder { 1 + holder_nesting target.now ≤ most_nesting }
    requires value { e.nesting ≤ most_nesting }
    ensures made { IfOk result (λ made. assign_of target.now None made ≡ assign_of target.now operator e) }
    ensures nests { IfOk result (λ made. made.nesting ≤ 3 + max (holder_nesting target.now) e.nesting) }
{
    match operator {
        None => Ok(e),
        Some(operator) => match target_value(alloc, target) {
            Ok(value) => infix_of(alloc, value, operator, e),
            Err(error) => failed(error, e),
        },
    }
}

/// An assignment, with or without an operator.
pub fn assign_of(
    alloc: Global,
    target: Target,
    operator: Option<Operator>,
    e: Node,
) -> Result<Line, NoMemory>
    requires holder { 1 + holder_nesting target ≤ most_nesting }
    requires value { e.nesting ≤ most_nesting }
    ensures made { IfOk result (λ made. made ≡ assign_of target operator e) }
    ensures nests { IfOk result (λ made. made.nesting ≤ 4 + max (holder_nesting target) e.nesting) }
{
    match assigned(alloc, &target, operator, e) {
        Ok(value) => set_of(alloc, target, value),
        Err(error) => failed(error, target),
    }
}
