//! Makes items: statements, methods, declarations, constants, types, uses and directives. It computes `entry_after` and the makers of
//! items of specs/Makers of pj_grammar. The prover finds these proofs by itself.
ghost use Rattle.std.specs.Prelude.{◌≡◌, IfOk, max};
ghost use Rattle.pj_grammar.specs.Makers.{abstract_of, const_of, declared, directive_of, entry_after, method_defined, no_entries, run_of, struct_of, using_of};

use crate::definitions::Method;
use pj_base::NoMemory;
use pj_grammar::{Entries, Line, Node};
use pj_syntax::{Item, ParamList, Path, PathList, Spot, SpotList};
use sqlite_items::Items;
use std::alloc::Global;
use std::marker::Model;

/// An item, and how deep it nests.
#[derive(Drop)]
pub struct Entry {
    tree: Item,
    nesting: usize,
}

impl Model for Entry {
    ghost use Rattle.pj_grammar.specs.Makers.{Entry as EntryMade};

    ghost Value = { EntryMade };

    ghost use Rattle.pj_syntax.specs.contracts.expression.Expr as e;
    ghost use Rattle.pj_syntax.specs.contracts.statement.Stmt as s;
    ghost use Rattle.std.specs.Coded.{codes};

    ghost coded = { Prim.hlevel (codes, e.the_row.coded, s.the_row.coded) };

    ghost view = { λ i. record { tree = i.tree; nesting = i.nesting } };
}

/// No items. It takes no memory.
#[tactic(auto, unfolding(pj_grammar::specs::Makers::no_entries))]
pub fn no_entries(alloc: Global) -> Entries
    ensures { result ≡ no_entries }
{
    Entries {
        trees: Items::new(alloc),
        nesting: 0,
    }
}

/// One more item, at the end.
#[tactic(auto, unfolding(pj_grammar::specs::Makers::entry_after))]
pub fn entry_after(entries: Entries, entry: Entry) -> Result<Entries, NoMemory>
    ensures made { IfOk result (λ made. made ≡ entry_after entries entry) }
    ensures nests { IfOk result (λ made. made.nesting ≡ max entries.nesting entry.nesting) }
{
    let Entries { mut trees, nesting } = entries;
    let nesting = nesting.max(entry.nesting);
    trees.push(entry.tree)?;
    Ok(Entries { trees, nesting })
}

/// A statement as an item.
#[tactic(auto, unfolding(pj_grammar::specs::Makers::run_of))]
pub fn run_of(line: Line) -> Entry
    ensures made { result ≡ run_of line }
    ensures nests { result.nesting ≡ line.nesting }
{
    let nesting = line.nesting;
    Entry {
        tree: Item::Run(line.tree),
        nesting,
    }
}

/// The definition of a method as an item.
#[tactic(auto, unfolding(pj_grammar::specs::Makers::method_defined))]
pub fn method_defined(method: Method) -> Entry
    ensures made { result ≡ method_defined method }
    ensures nests { result.nesting ≡ method.nesting }
{
    let (tree, nesting) = method.parts();
    Entry {
        tree: Item::Def(tree),
        nesting,
    }
}

/// The declaration of a function.
#[tactic(auto, unfolding(pj_grammar::specs::Makers::declared))]
pub fn declared(name: Spot) -> Entry
    ensures made { result ≡ declared name }
    ensures nests { result.nesting ≡ 0 }
{
    Entry {
        tree: Item::Declare(name),
        nesting: 0,
    }
}

/// The definition of a constant.
#[tactic(auto, unfolding(pj_grammar::specs::Makers::const_of))]
pub fn const_of(name: Spot, e: Node) -> Entry
    ensures made { result ≡ const_of name e }
    ensures nests { result.nesting ≡ e.nesting }
{
    let nesting = e.nesting;
    Entry {
        tree: Item::Const {
            name,
            value: e.tree,
        },
        nesting,
    }
}

/// `using` with its names.
#[tactic(auto, unfolding(pj_grammar::specs::Makers::using_of))]
pub fn using_of(names: SpotList) -> Entry
    ensures made { result ≡ using_of names }
    ensures nests { result.nesting ≡ 0 }
{
    Entry {
        tree: Item::Using(names),
        nesting: 0,
    }
}

/// The definition of an abstract type.
#[tactic(auto, unfolding(pj_grammar::specs::Makers::abstract_of))]
pub fn abstract_of(name: Spot, parent: Option<Path>) -> Entry
    ensures made { result ≡ abstract_of name parent }
    ensures nests { result.nesting ≡ 0 }
{
    Entry {
        tree: Item::Abstract { name, parent },
        nesting: 0,
    }
}

/// The definition of a struct.
#[tactic(auto, unfolding(pj_grammar::specs::Makers::struct_of))]
pub fn struct_of(mutable: bool, name: Spot, parent: Option<Path>, fields: ParamList) -> Entry
    ensures made { result ≡ struct_of mutable name parent fields }
    ensures nests { result.nesting ≡ 0 }
{
    Entry {
        tree: Item::Struct {
            mutable,
            name,
            parent,
            fields,
        },
        nesting: 0,
    }
}

/// A directive with its function and its types.
#[tactic(auto, unfolding(pj_grammar::specs::Makers::directive_of))]
pub fn directive_of(path: Path, types: PathList) -> Entry
    ensures made { result ≡ directive_of path types }
    ensures nests { result.nesting ≡ 0 }
{
    Entry {
        tree: Item::Directive { fun: path, types },
        nesting: 0,
    }
}
