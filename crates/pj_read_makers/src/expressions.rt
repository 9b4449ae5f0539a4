//! Makes expressions: names, fields, operators, conditions and calls. It computes `prefix_of`, `infix_of`, `conditional_of`, `call_of`
//! and their neighbours of specs/Makers of pj_grammar. The prover finds these proofs by itself.
ghost use Rattle.std.specs.Prelude.{◌≡◌, ◌+◌, ◌≤◌, ◌∷◌, [], IfOk, max};
ghost use Rattle.pj_grammar.specs.Makers.{argument_after, call_of, conditional_of, field_of, group_of, infix_height, infix_of, lacks, leaf, literal_of, name_of, no_arguments, operator_path, path_at, prefix_of};
ghost use Rattle.pj_read_makers.specs.Bounds.{most_nesting};

use crate::levels::operator_text;
use crate::together::{both, in_box, list_of, with_last};
use pj_base::release::failed;
use pj_base::{NoMemory, Text};
use pj_grammar::{Arguments, Node, Operator};
use pj_lex::{Sign, TokenKind};
use pj_syntax::{Argument, ArgumentList, Expr, Path, Spot};
use pj_words::Word;
use sqlite_items::{Boxed, Items};
use std::alloc::Global;

/// The place of a path's first byte.
pub fn path_at(path: &Path) -> usize
    ensures { result ≡ path_at path.now }
{
    match path {
        Path::Bare(name) => name.at,
        Path::Of(owner, _) => owner.get().at,
    }
}

/// A name in a module.
pub(crate) fn path_of(alloc: Global, owner: Spot, name: Spot) -> Result<Path, NoMemory>
    ensures { IfOk result (λ path. path ≡ Path.Of owner name) }
{
    match in_box(alloc, owner) {
        Ok(owner) => Ok(Path::Of(owner, name)),
        Err(error) => failed(error, name),
    }
}

/// The function of Base that an operator calls, at the operator's place.
pub fn operator_path(alloc: Global, operator: Operator) -> Result<Path, NoMemory>
    ensures { IfOk result (λ path. path ≡ operator_path operator) }
{
    let owner = Text::from_str(alloc, "Base");
    let name = Text::from_str(alloc, operator_text(operator.sign));
    let (owner, name) = both(owner, name)?;
    let at = operator.at;
    path_of(alloc, Spot { text: owner, at }, Spot { text: name, at })
}

/// The literal that a reserved word is.
fn literal_word(word: Word) -> Option<Expr>
    ensures { result ≡ literal_of (TokenKind.Reserved word) }
{
    match word {
        Word::True => Some(Expr::True),
        Word::False => Some(Expr::False),
        Word::Nothing => Some(Expr::Nothing),
        _ => None,
    }
}

/// The literal that a token is.
pub fn literal_of(kind: TokenKind) -> Option<Expr>
    ensures { result ≡ literal_of kind }
{
    match kind {
        TokenKind::Integer(value) => Some(Expr::Int(value)),
        TokenKind::Str(text) => Some(Expr::Str(text)),
        TokenKind::Reserved(word) => literal_word(word),
        _ => None,
    }
}

/// A literal at a place.
#[tactic(auto, unfolding(pj_grammar::specs::Makers::leaf))]
pub fn leaf(at: usize, tree: Expr) -> Node
    ensures made { result ≡ leaf at tree }
    ensures nests { result.nesting ≡ 1 }
{
    Node {
        tree,
        nesting: 1,
        at,
    }
}

/// A name as an expression.
#[tactic(auto, unfolding(pj_grammar::specs::Makers::name_of))]
pub fn name_of(path: Path) -> Node
    ensures made { result ≡ name_of path }
    ensures nests { result.nesting ≡ 1 }
{
    let at = path_at(&path);
    Node {
        tree: Expr::Name(path),
        nesting: 1,
        at,
    }
}

/// A boxed tree.
pub fn boxed(alloc: Global, e: Node) -> Result<Boxed<Expr>, NoMemory>
    ensures { IfOk result (λ tree. tree ≡ e.tree) }
{
    let Node {
        tree,
        nesting: _,
        at: _,
    } = e;
    Ok(Boxed::new(alloc, tree)?)
}

/// A field of a value.
#[tactic(auto, unfolding(pj_grammar::specs::Makers::field_of))]
pub fn field_of(alloc: Global, e: Node, field: Spot) -> Result<Node, NoMemory>
    requires { e.nesting ≤ most_nesting }
    ensures made { IfOk result (λ made. made ≡ field_of e field) }
    ensures nests { IfOk result (λ made. made.nesting ≡ 1 + e.nesting) }
{
    let nesting = 1 + e.nesting;
    let at = e.at;
    Ok(Node {
        tree: Expr::Field(boxed(alloc, e)?, field),
        nesting,
        at,
    })
}

/// An expression in parentheses that begin at a place.
#[tactic(auto, unfolding(pj_grammar::specs::Makers::group_of))]
pub fn group_of(at: usize, e: Node) -> Node
    requires { e.nesting ≤ most_nesting }
    ensures made { result ≡ group_of at e }
    ensures nests { result.nesting ≡ 1 + e.nesting }
{
    let nesting = 1 + e.nesting;
    Node {
        tree: e.tree,
        nesting,
        at,
    }
}

/// An expression as an argument.
fn argument(e: Node) -> Argument
    ensures at { result.at ≡ e.at }
    ensures value { result.value ≡ e.tree }
{
    Argument {
        at: e.at,
        value: e.tree,
    }
}

/// Two expressions as arguments.
fn two_arguments(alloc: Global, left: Node, right: Node) -> Result<ArgumentList, NoMemory>
    ensures { IfOk result (λ arguments. arguments ≡ record { at = left.at; value = left.tree } ∷ record { at = right.at; value = right.tree } ∷ []) }
{
    match list_of(alloc, argument(left)) {
        Ok(first) => with_last(first, argument(right)),
        Err(error) => failed(error, right),
    }
}

/// The call of a function on arguments.
fn call_on(alloc: Global, path: Path, arguments: ArgumentList) -> Result<Expr, NoMemory>
    ensures { IfOk result (λ tree. tree ≡ Expr.Call path arguments) }
{
    match in_box(alloc, path) {
        Ok(path) => Ok(Expr::Call(path, arguments)),
        Err(error) => failed(error, arguments),
    }
}

/// The call of an operator's function on arguments.
fn operator_call(
    alloc: Global,
    operator: Operator,
    arguments: ArgumentList,
) -> Result<Expr, NoMemory>
    ensures { IfOk result (λ tree. tree ≡ Expr.Call (operator_path operator) arguments) }
{
    match operator_path(alloc, operator) {
        Ok(path) => call_on(alloc, path, arguments),
        Err(error) => failed(error, arguments),
    }
}

/// An operator before its operand.
#[tactic(auto, unfolding(pj_grammar::specs::Makers::prefix_of))]
pub fn prefix_of(alloc: Global, operator: Operator, e: Node) -> Result<Node, NoMemory>
    requires { e.nesting ≤ most_nesting }
    ensures made { IfOk result (λ made. made ≡ prefix_of operator e) }
    ensures nests { IfOk result (λ made. made.nesting ≡ 1 + e.nesting) }
{
    let nesting = 1 + e.nesting;
    let arguments = list_of(alloc, argument(e))?;
    let tree = operator_call(alloc, operator, arguments)?;
    Ok(Node {
        tree,
        nesting,
        at: operator.at,
    })
}

/// How many nodes the expression of an operator has above its operands.
pub fn infix_height(sign: Sign) -> usize
    ensures height { result ≡ infix_height sign }
    ensures small { result ≤ 2 }
{
    match sign {
        Sign::NotSame => 2,
        _ => 1,
    }
}

/// `===` between its operands.
fn same_tree(alloc: Global, left: Node, right: Node) -> Result<Expr, NoMemory>
    ensures { IfOk result (λ tree. tree ≡ Expr.Same left.tree right.tree) }
{
    let (left, right) = both(boxed(alloc, left), boxed(alloc, right))?;
    Ok(Expr::Same(left, right))
}

/// `!==` between its operands.
fn not_same_tree(alloc: Global, left: Node, right: Node) -> Result<Expr, NoMemory>
    ensures { IfOk result (λ tree. tree ≡ Expr.Cond (Expr.Same left.tree right.tree) Expr.False Expr.True) }
{
    let same = same_tree(alloc, left, right)?;
    let branches = both(in_box(alloc, Expr::False), in_box(alloc, Expr::True));
    let (same, (holds, fails)) = both(in_box(alloc, same), branches)?;
    Ok(Expr::Cond(same, holds, fails))
}

/// `&&` between its operands.
fn and_tree(alloc: Global, left: Node, right: Node) -> Result<Expr, NoMemory>
    ensures { IfOk result (λ tree. tree ≡ Expr.And left.tree right.tree) }
{
    let (left, right) = both(boxed(alloc, left), boxed(alloc, right))?;
    Ok(Expr::And(left, right))
}

/// `||` between its operands.
fn or_tree(alloc: Global, left: Node, right: Node) -> Result<Expr, NoMemory>
    ensures { IfOk result (λ tree. tree ≡ Expr.Or left.tree right.tree) }
{
    let (left, right) = both(boxed(alloc, left), boxed(alloc, right))?;
    Ok(Expr::Or(left, right))
}

/// The call of an operator's function on two operands.
fn call_tree(alloc: Global, operator: Operator, left: Node, right: Node) -> Result<Expr, NoMemory>
    ensures { IfOk result (λ tree. tree ≡ Expr.Call (operator_path operator) (record { at = left.at; value = left.tree } ∷ record { at = right.at; value = right.tree } ∷ [])) }
{
    let arguments = two_arguments(alloc, left, right)?;
    operator_call(alloc, operator, arguments)
}

/// The tree of an operator between its operands.
#[tactic(auto, unfolding(pj_grammar::specs::Makers::infix_of))]
fn infix_tree(alloc: Global, operator: Operator, left: Node, right: Node) -> Result<Expr, NoMemory>
    ensures { IfOk result (λ tree. tree ≡ (infix_of left operator right).tree) }
{
    match operator.sign {
        Sign::Same => same_tree(alloc, left, right),
        Sign::NotSame => not_same_tree(alloc, left, right),
        Sign::And => and_tree(alloc, left, right),
        Sign::Or => or_tree(alloc, left, right),
        _ => call_tree(alloc, operator, left, right),
    }
}

/// An operator between its operands.
#[tactic(auto, unfolding(pj_grammar::specs::Makers::infix_of))]
pub fn infix_of(
    alloc: Global,
    left: Node,
    operator: Operator,
    right: Node,
) -> Result<Node, NoMemory>
    requires left { left.nesting ≤ most_nesting }
    requires right { right.nesting ≤ most_nesting }
    ensures made { IfOk result (λ made. made ≡ infix_of left operator right) }
    ensures nests { IfOk result (λ made. made.nesting ≡ infix_height operator.sign + max left.nesting right.nesting) }
{
    let nesting = infix_height(operator.sign) + left.nesting.max(right.nesting);
    let at = left.at;
    let tree = infix_tree(alloc, operator, left, right)?;
    Ok(Node { tree, nesting, at })
}

/// The tree of a condition with its branches.
fn condition_tree(
    alloc: Global,
    condition: Node,
    holds: Node,
    fails: Node,
) -> Result<Expr, NoMemory>
    ensures { IfOk result (λ tree. tree ≡ Expr.Cond condition.tree holds.tree fails.tree) }
{
    let branches = both(boxed(alloc, holds), boxed(alloc, fails));
    let (condition, (holds, fails)) = both(boxed(alloc, condition), branches)?;
    Ok(Expr::Cond(condition, holds, fails))
}

/// A condition with its branches.
#[tactic(auto, unfolding(pj_grammar::specs::Makers::conditional_of))]
pub fn conditional_of(
    alloc: Global,
    condition: Node,
    holds: Node,
    fails: Node,
) -> Result<Node, NoMemory>
    requires condition { condition.nesting ≤ most_nesting }
    requires holds { holds.nesting ≤ most_nesting }
    requires fails { fails.nesting ≤ most_nesting }
    ensures made { IfOk result (λ made. made ≡ conditional_of condition holds fails) }
    ensures nests { IfOk result (λ made. made.nesting ≡ 1 + max condition.nesting (max holds.nesting fails.nesting)) }
{
    let nesting = 1 + condition.nesting.max(holds.nesting.max(fails.nesting));
    let at = condition.at;
    let tree = condition_tree(alloc, condition, holds, fails)?;
    Ok(Node { tree, nesting, at })
}

/// No arguments. It takes no memory.
#[tactic(auto, unfolding(pj_grammar::specs::Makers::no_arguments))]
pub fn no_arguments(alloc: Global) -> Arguments
    ensures { result ≡ no_arguments }
{
    Arguments {
        trees: Items::new(alloc),
        nesting: 0,
    }
}

/// One more argument, at the end.
#[tactic(auto, unfolding(pj_grammar::specs::Makers::argument_after))]
pub fn argument_after(given: Arguments, e: Node) -> Result<Arguments, NoMemory>
    ensures made { IfOk result (λ made. made ≡ argument_after given e) }
    ensures nests { IfOk result (λ made. made.nesting ≡ max given.nesting e.nesting) }
{
    let Arguments { mut trees, nesting } = given;
    let nesting = nesting.max(e.nesting);
    trees.push(argument(e))?;
    Ok(Arguments { trees, nesting })
}

/// Whether a path names the function that calls another in the latest world.
#[tactic(auto, unfolding(pj_grammar::specs::Makers::lacks, pj_grammar::specs::Makers::no_arguments))]
pub fn is_latest(path: &Path) -> bool
    ensures { result ≡ lacks path.now no_arguments }
{
    match path {
        Path::Bare(name) => name.text.as_str() == "invokelatest",
        Path::Of(owner, name) => {
            owner.get().text.as_str() == "Base" && name.text.as_str() == "invokelatest"
        }
    }
}

/// Whether a call lacks an argument that it has to have.
#[tactic(auto, unfolding(pj_grammar::specs::Makers::lacks, pj_grammar::specs::Makers::no_arguments))]
pub fn lacks(path: &Path, given: &Arguments) -> bool
    ensures { result ≡ lacks path.now given.now }
{
    given.trees.is_empty() && is_latest(path)
}

/// A call.
#[tactic(auto, unfolding(pj_grammar::specs::Makers::call_of, pj_grammar::specs::Makers::lacks, pj_grammar::specs::Makers::no_arguments))]
pub fn call_of(alloc: Global, path: Path, given: Arguments) -> Result<Node, NoMemory>
    requires { given.nesting ≤ most_nesting }
    ensures made { IfOk result (λ made. made ≡ call_of path given) }
    ensures nests { IfOk result (λ made. made.nesting ≡ 1 + given.nesting) }
{
    let at = path_at(&path);
    let nesting = 1 + given.nesting;
    let tree = if is_latest(&path) {
        Expr::Latest(given.trees)
    } else {
        Expr::Call(Boxed::new(alloc, path)?, given.trees)
    };
    Ok(Node { tree, nesting, at })
}
