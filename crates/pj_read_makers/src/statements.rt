//! Makes statements and lists of them: values, jumps, branches and loops. It computes `line_after`, `if_of`, `while_of`, `for_of` and
//! their neighbours of specs/Makers of pj_grammar. The prover finds these proofs by itself.
ghost use Rattle.std.specs.Prelude.{◌≡◌, ◌+◌, ◌≤◌, IfOk, max};
ghost use Rattle.pj_grammar.specs.Makers.{bare_return, break_of, continue_of, for_of, if_of, line_after, no_lines, one_line, return_of, value_of, while_of};
ghost use Rattle.pj_read_makers.specs.Bounds.{most_nesting};

use crate::expressions::boxed;
use crate::together::both;
use pj_base::NoMemory;
use pj_base::release::failed;
use pj_grammar::{Line, Lines, Node};
use pj_syntax::{Block, Spot, Stmt};
use sqlite_items::Items;
use std::alloc::Global;

/// No statements. It takes no memory.
#[tactic(auto, unfolding(pj_grammar::specs::Makers::no_lines))]
pub fn no_lines(alloc: Global) -> Lines
    ensures { result ≡ no_lines }
{
    Lines {
        trees: Items::new(alloc),
        nesting: 0,
    }
}

/// One more statement, at the end.
#[tactic(auto, unfolding(pj_grammar::specs::Makers::line_after))]
pub fn line_after(lines: Lines, line: Line) -> Result<Lines, NoMemory>
    ensures made { IfOk result (λ made. made ≡ line_after lines line) }
    ensures nests { IfOk result (λ made. made.nesting ≡ max lines.nesting line.nesting) }
{
    let Lines { mut trees, nesting } = lines;
    let nesting = nesting.max(line.nesting);
    trees.push(line.tree)?;
    Ok(Lines { trees, nesting })
}

/// One statement alone.
#[tactic(auto, unfolding(pj_grammar::specs::Makers::line_before, pj_grammar::specs::Makers::no_lines))]
pub fn one_line(alloc: Global, line: Line) -> Result<Lines, NoMemory>
    ensures made { IfOk result (λ made. made ≡ one_line line) }
    ensures nests { IfOk result (λ made. made.nesting ≡ line.nesting) }
{
    let Line { tree, nesting } = line;
    let mut trees = Items::new(alloc);
    trees.push(tree)?;
    Ok(Lines { trees, nesting })
}

/// An expression as a statement.
#[tactic(auto, unfolding(pj_grammar::specs::Makers::value_of))]
pub fn value_of(e: Node) -> Line
    requires { e.nesting ≤ most_nesting }
    ensures made { result ≡ value_of e }
    ensures nests { result.nesting ≡ 1 + e.nesting }
{
    let nesting = 1 + e.nesting;
    Line {
        tree: Stmt::Value(e.tree),
        nesting,
    }
}

/// `return` at a place, with a value.
#[tactic(auto, unfolding(pj_grammar::specs::Makers::return_of))]
pub fn return_of(at: usize, e: Node) -> Line
    requires { e.nesting ≤ most_nesting }
    ensures made { result ≡ return_of at e }
    ensures nests { result.nesting ≡ 1 + e.nesting }
{
    let nesting = 1 + e.nesting;
    Line {
        tree: Stmt::Return(at, Some(e.tree)),
        nesting,
    }
}

/// `return` at a place, without a value.
#[tactic(auto, unfolding(pj_grammar::specs::Makers::bare_return))]
pub fn bare_return(at: usize) -> Line
    ensures made { result ≡ bare_return at }
    ensures nests { result.nesting ≡ 2 }
{
    Line {
        tree: Stmt::Return(at, None),
        nesting: 2,
    }
}

/// `break` at a place.
#[tactic(auto, unfolding(pj_grammar::specs::Makers::break_of))]
pub fn break_of(at: usize) -> Line
    ensures made { result ≡ break_of at }
    ensures nests { result.nesting ≡ 1 }
{
    Line {
        tree: Stmt::Break(at),
        nesting: 1,
    }
}

/// `continue` at a place.
#[tactic(auto, unfolding(pj_grammar::specs::Makers::continue_of))]
pub fn continue_of(at: usize) -> Line
    ensures made { result ≡ continue_of at }
    ensures nests { result.nesting ≡ 1 }
{
    Line {
        tree: Stmt::Continue(at),
        nesting: 1,
    }
}

/// `if` with its branches.
#[tactic(auto, unfolding(pj_grammar::specs::Makers::if_of))]
pub fn if_of(alloc: Global, condition: Node, holds: Lines, fails: Lines) -> Result<Line, NoMemory>
    requires condition { condition.nesting ≤ most_nesting }
    requires holds { holds.nesting ≤ most_nesting }
    requires fails { fails.nesting ≤ most_nesting }
    ensures made { IfOk result (λ made. made ≡ if_of condition holds fails) }
    ensures nests { IfOk result (λ made. made.nesting ≡ 1 + max condition.nesting (max holds.nesting fails.nesting)) }
{
    let nesting = 1 + condition.nesting.max(holds.nesting.max(fails.nesting));
    let tree = Stmt::If(boxed(alloc, condition)?, holds.trees, fails.trees);
    Ok(Line { tree, nesting })
}

/// `while` with its body.
#[tactic(auto, unfolding(pj_grammar::specs::Makers::while_of))]
pub fn while_of(alloc: Global, condition: Node, body: Lines) -> Result<Line, NoMemory>
    requires condition { condition.nesting ≤ most_nesting }
    requires body { body.nesting ≤ most_nesting }
    ensures made { IfOk result (λ made. made ≡ while_of condition body) }
    ensures nests { IfOk result (λ made. made.nesting ≡ 1 + max condition.nesting body.nesting) }
{
    let nesting = 1 + condition.nesting.max(body.nesting);
    let tree = Stmt::While(boxed(alloc, condition)?, body.trees);
    Ok(Line { tree, nesting })
}

/// The statement that is a `for`.
fn for_stmt(
    alloc: Global,
    name: Spot,
    first: Node,
    last: Node,
    block: Block,
) -> Result<Stmt, NoMemory>
    ensures { IfOk result (λ tree. tree ≡ Stmt.For name first.tree last.tree block) }
{
    match both(boxed(alloc, first), boxed(alloc, last)) {
        Ok((first, last)) => Ok(Stmt::For(name, first, last, block)),
        Err(error) => failed(error, (name, block)),
    }
}

/// `for` over whole numbers between two bounds.
#[tactic(auto, unfolding(pj_grammar::specs::Makers::for_of))]
pub fn for_of(
    alloc: Global,
    name: Spot,
    first: Node,
    last: Node,
    body: Lines,
) -> Result<Line, NoMemory>
    requires first { first.nesting ≤ most_nesting }
    requires last { last.nesting ≤ most_nesting }
    requires body { body.nesting ≤ most_nesting }
    ensures made { IfOk result (λ made. made ≡ for_of name first last body) }
    ensures nests { IfOk result (λ made. made.nesting ≡ 1 + max (max first.nesting last.nesting) body.nesting) }
{
    let nesting = 1 + first.nesting.max(last.nesting).max(body.nesting);
    let tree = for_stmt(alloc, name, first, last, body.trees)?;
    Ok(Line { tree, nesting })
}
