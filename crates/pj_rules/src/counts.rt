//! How many names the scopes of a body introduce.

ghost use Rattle.std.specs.Prelude.{◌≡◌};
ghost use Rattle.pj_tree.specs.Reads.{Strings, Parts};
ghost use Rattle.pj_rules.specs.Counts.{capped, names_in, names_in_block, named_params, body_has_few_names};

use crate::params::spelled;
use pj_base::Text;
use pj_tree::{Body, Stmt, Sym};

/// The names that the loops of a statement introduce, each counted once for each of its loops.
#[cycle(names)]
#[tactic(auto, using(crate::proofs::CountLaws::count_rules))]
fn stmt_names(s: &Stmt) -> usize
    ensures { (strings : Strings) (parts : Parts) → result ≡ capped (names_in strings parts s.now) }
{
    match s {
        Stmt::Value(_) | Stmt::SetLocal(_, _) | Stmt::SetGlobal(_, _) => 0,
        Stmt::SetField(_, _, _) | Stmt::Break | Stmt::Continue => 0,
        Stmt::Return(_) | Stmt::Eval(_, _) => 0,
        Stmt::If(_, chosen, other) => {
            block_names(chosen.as_slice()).saturating_add(block_names(other.as_slice()))
        }
        Stmt::While(introduced, _, block) => {
            introduced
                .len()
                .saturating_add(block_names(block.as_slice()))
        }
        Stmt::For(_, _, _, introduced, block) => introduced
            .len()
            .saturating_add(block_names(block.as_slice()))
            .saturating_add(1),
    }
}

#[cycle(names)]
#[tactic(auto, using(crate::proofs::CountLaws::count_rules))]
fn block_names(block: &[Stmt]) -> usize
    ensures { (strings : Strings) (parts : Parts) → result ≡ capped (names_in_block strings parts block.now) }
{
    let mut count: usize = 0;
    for s in block {
        count = count.saturating_add(stmt_names(s));
    }
    count
}

/// How many of the parameters have a name.
#[tactic(auto, using(crate::proofs::CountLaws::count_rules))]
fn names_of_params(strings: &[Text], params: &[Sym]) -> usize
    ensures { result ≡ capped (named_params strings.now params.now) }
{
    let mut count: usize = 0;
    for param in params {
        let text = spelled(strings, param);
        let more = count.saturating_add(1);
        if !text.is_empty() {
            count = more;
        }
    }
    count
}

/// Whether the scopes of a body introduce at most 1,024 names, each counted once for each of its scopes: its parameters
/// with a name, the names that it carries, and those of its loops. A tree that it names is left aside.
#[tactic(auto, using(crate::proofs::CountLaws::count_rules))]
pub fn has_few_names(strings: &[Text], body: &Body) -> bool
    ensures { (parts : Parts) → result ≡ body_has_few_names strings.now parts body.now }
{
    let own = body.introduced.len();
    let inner = own.saturating_add(block_names(body.block.as_slice()));
    names_of_params(strings, body.params.as_slice()).saturating_add(inner) <= 1024
}
