//! The limit of 16 arguments, and what stands outside its place.

ghost use Rattle.std.specs.Prelude.{◌≡◌};
ghost use Rattle.pj_tree.specs.Reads.{Strings, Parts};
ghost use Rattle.pj_rules.specs.Limits.{few, all_few, stmt_few, block_few, stray, block_stray};

use pj_tree::{Expr, Stmt};

/// Whether each call in an expression has at most 16 arguments, the function of an `invokelatest` counted among them.
#[cycle(few)]
#[tactic(auto, using(crate::proofs::LimitLaws::few_rules))]
pub fn has_few_arguments(e: &Expr) -> bool
    ensures { (strings : Strings) → result ≡ few strings e.now }
{
    match e {
        Expr::Nothing | Expr::False | Expr::True | Expr::Int(_) => true,
        Expr::Str(_) | Expr::Local(_) | Expr::Global(_, _) => true,
        Expr::Field(of, _) => has_few_arguments(of.get()),
        Expr::Call(_, _, arguments) | Expr::CallLocal(_, arguments) => {
            arguments.len() <= 16 && all_have_few(arguments.as_slice())
        }
        Expr::Latest(callee, arguments) => {
            arguments.len() < 16
                && has_few_arguments(callee.get())
                && all_have_few(arguments.as_slice())
        }
        Expr::And(left, right) | Expr::Or(left, right) | Expr::Same(left, right) => {
            has_few_arguments(left.get()) && has_few_arguments(right.get())
        }
        Expr::Cond(test, chosen, other) => {
            has_few_arguments(test.get())
                && has_few_arguments(chosen.get())
                && has_few_arguments(other.get())
        }
    }
}

#[cycle(few)]
#[tactic(auto, using(crate::proofs::LimitLaws::few_rules))]
fn all_have_few(all: &[Expr]) -> bool
    ensures { (strings : Strings) → result ≡ all_few strings all.now }
{
    let mut so_far = true;
    for e in all {
        so_far = so_far && has_few_arguments(e);
    }
    so_far
}

/// Whether each call in a statement has at most 16 arguments. A tree that it names is left aside.
#[cycle(stmt)]
#[tactic(auto, using(crate::proofs::LimitLaws::stmt_few_rules))]
pub fn stmt_has_few_arguments(s: &Stmt) -> bool
    ensures { (strings : Strings) (parts : Parts) → result ≡ stmt_few strings parts s.now }
{
    match s {
        Stmt::Value(value) | Stmt::Return(value) => has_few_arguments(value),
        Stmt::SetLocal(_, value) | Stmt::SetGlobal(_, value) => has_few_arguments(value),
        Stmt::SetField(of, _, value) => has_few_arguments(of) && has_few_arguments(value),
        Stmt::If(test, chosen, other) => {
            has_few_arguments(test)
                && block_has_few_arguments(chosen.as_slice())
                && block_has_few_arguments(other.as_slice())
        }
        Stmt::While(_, test, block) => {
            has_few_arguments(test) && block_has_few_arguments(block.as_slice())
        }
        Stmt::For(_, first, last, _, block) => {
            has_few_arguments(first)
                && has_few_arguments(last)
                && block_has_few_arguments(block.as_slice())
        }
        Stmt::Break | Stmt::Continue | Stmt::Eval(_, _) => true,
    }
}

/// Whether each call in a block has at most 16 arguments. A tree that it names is left aside.
#[cycle(stmt)]
#[tactic(auto, using(crate::proofs::LimitLaws::stmt_few_rules))]
pub fn block_has_few_arguments(block: &[Stmt]) -> bool
    ensures { (strings : Strings) (parts : Parts) → result ≡ block_few strings parts block.now }
{
    let mut so_far = true;
    for s in block {
        so_far = so_far && stmt_has_few_arguments(s);
    }
    so_far
}

/// Whether a statement has a `break` or `continue` outside a loop, or a `return` outside a method's body, where it stands
/// in a body or not, and in a loop or not. A tree that it names is left aside.
#[cycle(stray)]
#[tactic(auto, using(crate::proofs::LimitLaws::stray_rules))]
pub fn stmt_is_outside(in_body: bool, in_loop: bool, s: &Stmt) -> bool
    ensures { (strings : Strings) (parts : Parts) → result ≡ stray strings parts in_body in_loop s.now }
{
    match s {
        Stmt::Value(_) | Stmt::SetLocal(_, _) | Stmt::SetGlobal(_, _) => false,
        Stmt::SetField(_, _, _) | Stmt::Eval(_, _) => false,
        Stmt::If(_, chosen, other) => {
            block_is_outside(in_body, in_loop, chosen.as_slice())
                || block_is_outside(in_body, in_loop, other.as_slice())
        }
        Stmt::While(_, _, block) | Stmt::For(_, _, _, _, block) => {
            block_is_outside(in_body, true, block.as_slice())
        }
        Stmt::Break | Stmt::Continue => !in_loop,
        Stmt::Return(_) => !in_body,
    }
}

/// Whether a statement of a block is so outside its place.
#[cycle(stray)]
#[tactic(auto, using(crate::proofs::LimitLaws::stray_rules))]
pub fn block_is_outside(in_body: bool, in_loop: bool, block: &[Stmt]) -> bool
    ensures { (strings : Strings) (parts : Parts) → result ≡ block_stray strings parts in_body in_loop block.now }
{
    let mut so_far = false;
    for s in block {
        so_far = so_far || stmt_is_outside(in_body, in_loop, s);
    }
    so_far
}
