//! Makes definitions of methods, and what `@eval` evaluates. It computes `method_of`, `short_method`, `eval_of` and the `.._evaluated`
//! of specs/Makers of pj_grammar. The prover finds these proofs by itself.
ghost use Rattle.std.specs.Prelude.{◌≡◌, ◌+◌, ◌≤◌, IfOk};
ghost use Rattle.pj_grammar.specs.Makers.{eval_of, method_evaluated, method_of, set_evaluated, short_method, value_evaluated};
ghost use Rattle.pj_read_makers.specs.Bounds.{most_nesting};

use crate::statements::{one_line, value_of};
use pj_base::NoMemory;
use pj_grammar::{Line, Lines, Node};
use pj_syntax::{Function, ParamList, Path, Payload, Spot, Stmt};
use sqlite_items::Boxed;
use std::alloc::Global;
use std::marker::Model;

/// A method, and how deep it nests.
#[derive(Drop)]
pub struct Method {
    tree: Function,
    nesting: usize,
}

impl Model for Method {
    ghost use Rattle.pj_grammar.specs.Makers.{Method as MethodMade};

    ghost Value = { MethodMade };

    ghost use Rattle.pj_syntax.specs.contracts.expression.Expr as e;
    ghost use Rattle.pj_syntax.specs.contracts.statement.Stmt as s;
    ghost use Rattle.std.specs.Coded.{codes};

    ghost coded = { Prim.hlevel (codes, e.the_row.coded, s.the_row.coded) };

    ghost view = { λ m. record { tree = m.tree; nesting = m.nesting } };
}

/// What `@eval` evaluates, and how deep it nests.
#[derive(Drop)]
pub struct Evaluated {
    tree: Payload,
    nesting: usize,
}

impl Model for Evaluated {
    ghost use Rattle.pj_grammar.specs.Makers.{Evaluated as EvaluatedMade};

    ghost Value = { EvaluatedMade };

    ghost use Rattle.pj_syntax.specs.contracts.expression.Expr as e;
    ghost use Rattle.pj_syntax.specs.contracts.statement.Stmt as s;
    ghost use Rattle.pj_syntax.specs.contracts.statement.Payload as p;
    ghost use Rattle.std.specs.Coded.{codes};

    ghost coded = { Prim.hlevel (codes, e.the_row.coded, s.the_row.coded, p.the_row.coded) };

    ghost view = { λ y. record { tree = y.tree; nesting = y.nesting } };
}

impl Method {
    /// Its tree, and how deep it nests.
    pub(crate) fn parts(self) -> (Function, usize)
        ensures tree { result.0 ≡ self.tree }
        ensures nests { result.1 ≡ self.nesting }
    {
        let Method { tree, nesting } = self;
        (tree, nesting)
    }
}

impl Evaluated {
    /// How deep it nests.
    pub fn nesting(&self) -> usize
        ensures { result ≡ self.now.nesting }
    {
        self.nesting
    }
}

/// The definition of a method with a block.
#[tactic(auto, unfolding(pj_grammar::specs::Makers::method_of))]
pub fn method_of(path: Path, params: ParamList, body: Lines) -> Method
    requires { body.nesting ≤ most_nesting }
    ensures made { result ≡ method_of path params body }
    ensures nests { result.nesting ≡ 2 + body.nesting }
{
    let nesting = 2 + body.nesting;
    Method {
        tree: Function {
            path,
            params,
            block: body.trees,
        },
        nesting,
    }
}

/// The definition of a method with an expression.
pub fn short_method(
    alloc: Global,
    path: Path,
    params: ParamList,
    e: Node,
) -> Result<Method, NoMemory>
    requires { 1 + e.nesting ≤ most_nesting }
    ensures made { IfOk result (λ made. made ≡ short_method path params e) }
    ensures nests { IfOk result (λ made. made.nesting ≡ 3 + e.nesting) }
{
    let body = one_line(alloc, value_of(e))?;
    Ok(method_of(path, params, body))
}

/// A definition as what is evaluated.
#[tactic(auto, unfolding(pj_grammar::specs::Makers::method_evaluated))]
pub fn method_evaluated(method: Method) -> Evaluated
    ensures made { result ≡ method_evaluated method }
    ensures nests { result.nesting ≡ method.nesting }
{
    let (tree, nesting) = method.parts();
    Evaluated {
        tree: Payload::Def(tree),
        nesting,
    }
}

/// The assignment of a name as what is evaluated.
#[tactic(auto, unfolding(pj_grammar::specs::Makers::set_evaluated))]
pub fn set_evaluated(name: Spot, e: Node) -> Evaluated
    requires { e.nesting ≤ most_nesting }
    ensures made { result ≡ set_evaluated name e }
    ensures nests { result.nesting ≡ 1 + e.nesting }
{
    let nesting = 1 + e.nesting;
    Evaluated {
        tree: Payload::Set(name, e.tree),
        nesting,
    }
}

/// An expression as what is evaluated.
#[tactic(auto, unfolding(pj_grammar::specs::Makers::value_evaluated))]
pub fn value_evaluated(e: Node) -> Evaluated
    requires { e.nesting ≤ most_nesting }
    ensures made { result ≡ value_evaluated e }
    ensures nests { result.nesting ≡ 1 + e.nesting }
{
    let nesting = 1 + e.nesting;
    Evaluated {
        tree: Payload::Value(e.tree),
        nesting,
    }
}

/// `@eval`, with or without a module.
#[tactic(auto, unfolding(pj_grammar::specs::Makers::eval_of))]
pub fn eval_of(alloc: Global, owner: Option<Spot>, y: Evaluated) -> Result<Line, NoMemory>
    requires { y.nesting ≤ most_nesting }
    ensures made { IfOk result (λ made. made ≡ eval_of owner y) }
    ensures nests { IfOk result (λ made. made.nesting ≡ 1 + y.nesting) }
{
    let Evaluated { tree, nesting } = y;
    let nesting = 1 + nesting;
    let tree = Stmt::Eval(owner, Boxed::new(alloc, tree)?);
    Ok(Line { tree, nesting })
}
