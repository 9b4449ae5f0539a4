//! Statements and methods.
ghost use Rattle.std.specs.Prelude.{◌≡◌, ◌++◌, false, IfOk, OnOk};
ghost use Rattle.pj_tree.specs.declared.tree.Stmt.TheVariants as trees;
ghost use Rattle.pj_faults.specs.Introduced.{with_name};
ghost use Rattle.pj_faults.specs.Found.{grown, new_in};
ghost use Rattle.pj_tree.specs.declared.tree.Part.TheVariants as parts;
ghost use Rattle.pj_tree.specs.declared.tree.TreeNode.TheVariants as nodes;
ghost use Rattle.pj_scopes.specs.Made.{block_tree, defined_with, evaluated_tree, method_tree, statement_tree, value_tree};
ghost use Rattle.pj_scopes.specs.Resolved.{given_name, set, word, words};

use crate::introduce::{enter_params, introduce};
use crate::value::{alone, returned, value};
use crate::word::{all_params, maybe_word, param_names, path_home, path_name, spot_word};
use pj_base::NoMemory;
use pj_faults::NameSet;
use pj_syntax::{Expr as Value, Function, Payload, Spot, Stmt};
use pj_tree::{
    Block, Body, DefTree, Expr, Part, Payload as Evaluated, Stmt as Tree, SymList, TreeNode,
};
use sqlite_items::{Boxed, Items};
use std::alloc::Global;

/// An assignment: of a global at top level, else of a local.
fn set_tree(alloc: Global, top: bool, x: &Spot, value: Expr) -> Result<Tree, NoMemory>
    ensures { IfOk result (λ t. t ≡ set top x.now value) }
{
    let word = spot_word(alloc, x)?;
    if top {
        return Ok(Tree::SetGlobal(word, value));
    }
    Ok(Tree::SetLocal(word, value))
}

/// A store to a field.
fn field_tree(
    alloc: Global,
    names: &NameSet,
    of: &Value,
    x: &Spot,
    e: &Value,
) -> Result<Tree, NoMemory>
    ensures { IfOk result (λ t. t ≡ trees.SetField (value_tree names.now of.now) (word x.now) (value_tree names.now e.now)) }
{
    let of = value(alloc, names, of)?;
    let word = spot_word(alloc, x)?;
    let stored = value(alloc, names, e)?;
    Ok(Tree::SetField(of, word, stored))
}

/// What `global` sets.
fn global_tree(alloc: Global, names: &NameSet, x: &Spot, e: &Value) -> Result<Tree, NoMemory>
    ensures { IfOk result (λ t. t ≡ trees.SetGlobal (word x.now) (value_tree names.now e.now)) }
{
    let word = spot_word(alloc, x)?;
    let set = value(alloc, names, e)?;
    Ok(Tree::SetGlobal(word, set))
}

/// A condition over its branches.
fn if_tree(
    alloc: Global,
    names: &NameSet,
    test: &Value,
    chosen: Block,
    other: Block,
) -> Result<Tree, NoMemory>
    ensures { IfOk result (λ t. t ≡ trees.If (value_tree names.now test.now) chosen other) }
{
    let test = value(alloc, names, test)?;
    Ok(Tree::If(test, chosen, other))
}

/// A loop with a condition, which stands outside the loop's scope.
fn while_tree(
    alloc: Global,
    names: &NameSet,
    test: &Value,
    introduced: SymList,
    block: Block,
) -> Result<Tree, NoMemory>
    ensures { IfOk result (λ t. t ≡ trees.While introduced (value_tree names.now test.now) block) }
{
    let test = value(alloc, names, test)?;
    Ok(Tree::While(introduced, test, block))
}

/// A loop with bounds, which stand outside the loop's scope.
fn for_tree(
    alloc: Global,
    names: &NameSet,
    x: &Spot,
    first: &Value,
    last: &Value,
    introduced: SymList,
    block: Block,
) -> Result<Tree, NoMemory>
    ensures { IfOk result (λ t. t ≡ trees.For (word x.now) (value_tree names.now first.now) (value_tree names.now last.now) introduced block) }
{
    let variable = spot_word(alloc, x)?;
    let first = value(alloc, names, first)?;
    let last = value(alloc, names, last)?;
    Ok(Tree::For(variable, first, last, introduced, block))
}

/// A body, and the definition that holds it.
fn definition(
    alloc: Global,
    f: &Function,
    introduced: SymList,
    block: Block,
) -> Result<DefTree, NoMemory>
    ensures { IfOk result (λ d. d ≡ defined_with f.now introduced block) }
{
    let params = param_names(alloc, f.params.as_slice())?;
    let node = TreeNode::Body(Body {
        params,
        introduced,
        block,
    });
    let body = Part::Held(Boxed::new(alloc, node)?);
    let module = path_home(alloc, &f.path)?;
    let fun = path_name(alloc, &f.path)?;
    let params = all_params(alloc, f.params.as_slice())?;
    Ok(DefTree {
        module,
        fun,
        params,
        body,
    })
}

/// The block of a scope, and the names that it introduces, which are added to the list and to those of the scopes round it. After an
/// `Err` none of these is of more use.
#[cycle(statement)]
#[tactic(auto, using(crate::proofs::StatementTrees::statement_trees))]
fn scope_block(
    alloc: Global,
    names: &mut NameSet,
    introduced: &mut SymList,
    block: &[Stmt],
) -> Result<Block, NoMemory>
    ensures names { OnOk result (names.new ≡ grown names.old block.now) }
    ensures introduced { OnOk result (introduced.new ≡ introduced.old ++ words (new_in names.old block.now)) }
    ensures block { IfOk result (λ b. b ≡ block_tree false (grown names.old block.now) block.now) }
{
    introduce(alloc, names, introduced, block)?;
    block_of(alloc, false, names, block)
}

/// What a scope introduces, and its block. The names are as before.
#[cycle(statement)]
#[tactic(auto, using(crate::proofs::StatementTrees::statement_trees))]
fn scoped(alloc: Global, names: &mut NameSet, block: &[Stmt]) -> Result<(SymList, Block), NoMemory>
    ensures names { OnOk result (names.new ≡ names.old) }
    ensures introduced { IfOk result (λ p. p.0 ≡ words (new_in names.old block.now)) }
    ensures block { IfOk result (λ p. p.1 ≡ block_tree false (grown names.old block.now) block.now) }
{
    let count = names.len();
    let mut introduced = Items::new(alloc);
    let inner = scope_block(alloc, names, &mut introduced, block)?;
    names.cut(count);
    Ok((introduced, inner))
}

/// What the scope of a loop with a variable introduces beside it, and its block. The names are as before.
#[cycle(statement)]
#[tactic(auto, using(crate::proofs::StatementTrees::statement_trees))]
fn loop_scoped(
    alloc: Global,
    names: &mut NameSet,
    x: &Spot,
    block: &[Stmt],
) -> Result<(SymList, Block), NoMemory>
    ensures names { OnOk result (names.new ≡ names.old) }
    ensures introduced { IfOk result (λ p. p.0 ≡ words (new_in (with_name names.old x.now.text) block.now)) }
    ensures block { IfOk result (λ p. p.1 ≡ block_tree false (grown (with_name names.old x.now.text) block.now) block.now) }
{
    let count = names.len();
    let _ = names.add(alloc, x.text.as_str())?;
    let mut introduced = Items::new(alloc);
    let inner = scope_block(alloc, names, &mut introduced, block)?;
    names.cut(count);
    Ok((introduced, inner))
}

#[cycle(statement)]
#[tactic(auto, using(crate::proofs::StatementTrees::statement_trees))]
fn eval_tree(alloc: Global, home: &Option<Spot>, payload: &Payload) -> Result<Tree, NoMemory>
    ensures { IfOk result (λ t. t ≡ trees.Eval (given_name home.now) (parts.Held (nodes.Payload (evaluated_tree payload.now)))) }
{
    let inner = evaluated(alloc, payload)?;
    let node = TreeNode::Payload(inner);
    let part = Part::Held(Boxed::new(alloc, node)?);
    Ok(Tree::Eval(maybe_word(alloc, home)?, part))
}

/// The tree of a statement, where enclosing scopes introduce `names`, and assignments set globals at top level. After an `Err` the
/// names are of no more use.
#[cycle(statement)]
#[tactic(auto, using(crate::proofs::StatementTrees::statement_trees))]
pub fn statement(alloc: Global, top: bool, names: &mut NameSet, s: &Stmt) -> Result<Tree, NoMemory>
    ensures names { OnOk result (names.new ≡ names.old) }
    ensures tree { IfOk result (λ t. t ≡ statement_tree top names.old s.now) }
{
    match s {
        Stmt::Value(e) => Ok(Tree::Value(value(alloc, names, e)?)),
        Stmt::Set(x, e) => set_tree(alloc, top, x, value(alloc, names, e)?),
        Stmt::SetField(of, x, e) => field_tree(alloc, names, of.get(), x, e.get()),
        Stmt::Global(_, x, e) => global_tree(alloc, names, x, e.get()),
        Stmt::Return(_, e) => Ok(Tree::Return(returned(alloc, names, e)?)),
        Stmt::Break(_) => Ok(Tree::Break),
        Stmt::Continue(_) => Ok(Tree::Continue),
        Stmt::If(test, chosen, other) => {
            let chosen = block_of(alloc, top, names, chosen.as_slice())?;
            let other = block_of(alloc, top, names, other.as_slice())?;
            if_tree(alloc, names, test.get(), chosen, other)
        }
        Stmt::While(test, block) => {
            let (introduced, inner) = scoped(alloc, names, block.as_slice())?;
            while_tree(alloc, names, test.get(), introduced, inner)
        }
        Stmt::For(x, first, last, block) => {
            let (introduced, inner) = loop_scoped(alloc, names, x, block.as_slice())?;
            let (first, last) = (first.get(), last.get());
            for_tree(alloc, names, x, first, last, introduced, inner)
        }
        Stmt::Eval(module, payload) => eval_tree(alloc, module, payload.get()),
    }
}

#[cycle(statement)]
#[tactic(auto, using(crate::proofs::StatementTrees::statement_trees))]
fn block_of(
    alloc: Global,
    top: bool,
    names: &mut NameSet,
    block: &[Stmt],
) -> Result<Block, NoMemory>
    ensures names { OnOk result (names.new ≡ names.old) }
    ensures block { IfOk result (λ b. b ≡ block_tree top names.old block.now) }
{
    let mut all = Items::new(alloc);
    for s in block {
        all.push(statement(alloc, top, names, s)?)?;
    }
    Ok(all)
}

/// The tree of what is evaluated, which sees no locals.
#[cycle(statement)]
#[tactic(auto, using(crate::proofs::StatementTrees::statement_trees))]
fn evaluated(alloc: Global, payload: &Payload) -> Result<Evaluated, NoMemory>
    ensures { IfOk result (λ p. p ≡ evaluated_tree payload.now) }
{
    match payload {
        Payload::Def(f) => Ok(Evaluated::Def(method(alloc, f)?)),
        Payload::Set(x, e) => {
            let name = spot_word(alloc, x)?;
            let value = alone(alloc, e)?;
            Ok(Evaluated::SetBinding { name, value })
        }
        Payload::Value(e) => Ok(Evaluated::Value(alone(alloc, e)?)),
    }
}

/// The tree of the definition of a method.
#[cycle(statement)]
#[tactic(auto, using(crate::proofs::StatementTrees::statement_trees))]
pub fn method(alloc: Global, f: &Function) -> Result<DefTree, NoMemory>
    ensures { IfOk result (λ d. d ≡ method_tree f.now) }
{
    let mut names = NameSet::new(alloc);
    enter_params(alloc, &mut names, f.params.as_slice())?;
    let mut introduced = Items::new(alloc);
    let block = scope_block(alloc, &mut names, &mut introduced, f.block.as_slice())?;
    definition(alloc, f, introduced, block)
}
