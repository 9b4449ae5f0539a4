//! Definitions by their trees.

ghost use Rattle.std.specs.Prelude.{◌≡◌, ◌∷◌, ◌++◌, ℕ, [], true, None, IfOk, OnOk, OnErr};
ghost use Rattle.pj_meaning.specs.Tree.{Nothing};
ghost use Rattle.pj_meaning.specs.Top.{top};
ghost use Rattle.pj_tree.specs.Reads.{as_body, body_of, part_of, texts_of};
ghost use Rattle.pj_plain.specs.Held.{held_def, held_expr, held_parts, no_parts, no_strings};
ghost use Rattle.pj_plain.specs.Plain.{plain_definition};
ghost use Rattle.pj_session.specs.Events.{Defines, parts_of};
ghost use Rattle.pj_session.specs.Good.{Good};
ghost use Rattle.pj_session.specs.Items.{define_item};
ghost use Rattle.pj_session.specs.Merged.{parts_in};
ghost use Rattle.pj_session.specs.Seen.{events_of, state_seen};
ghost use Rattle.pj_session.specs.States.{run};
ghost use Rattle.pj_session.specs.Things.{own_in};
ghost use Rattle.pj_session.specs.Tops.{Tops};

use crate::end::End;
use crate::own::Definition;
use crate::state::Session;
use pj_base::NoMemory;
use pj_plain::held::text;
use pj_tree::{Body, DefTree, Expr, Part, Stmt, Sym, TreeNode, copy_expr, copy_syms};
use sqlite_items::Items;
use std::alloc::Global;

/// A definition of nothing, without parameters.
fn nothing(alloc: Global) -> Definition
    ensures { parts_in result ≡ ([], Nothing) }
{
    Definition {
        params: Items::new(alloc),
        body: Expr::Nothing,
    }
}

/// A definition of a copy of an expression over copies of parameters.
fn copied(alloc: Global, params: &[Sym], e: &Expr) -> Result<Definition, NoMemory>
    ensures { IfOk result (λ definition. parts_in definition ≡ (texts_of no_strings params.now, held_expr e.now)) }
{
    let params = copy_syms(alloc, params)?;
    let body = copy_expr(alloc, e)?;
    Ok(Definition { params, body })
}

/// The definition of a body that begins with an expression; any other gives nothing.
#[tactic(auto, using(pj_tree::proofs::TreeReads::tree_reads))]
fn of_body(alloc: Global, body: &Body) -> Result<Definition, NoMemory>
    ensures { IfOk result (λ definition. parts_in definition ≡ parts_of (body_of no_strings no_parts body.now)) }
{
    let Some(first) = body.block.as_slice().first() else {
        return Ok(nothing(alloc));
    };
    match first {
        Stmt::Value(e) => copied(alloc, body.params.as_slice(), e),
        Stmt::SetLocal(_, _) | Stmt::SetGlobal(_, _) => Ok(nothing(alloc)),
        Stmt::SetField(_, _, _) | Stmt::If(_, _, _) => Ok(nothing(alloc)),
        Stmt::While(_, _, _) | Stmt::For(_, _, _, _, _) => Ok(nothing(alloc)),
        Stmt::Break | Stmt::Continue => Ok(nothing(alloc)),
        Stmt::Return(_) | Stmt::Eval(_, _) => Ok(nothing(alloc)),
    }
}

/// The definition of such a body that is held.
#[tactic(auto, using(pj_tree::proofs::TreeReads::tree_reads))]
fn of_part(alloc: Global, part: &Part) -> Result<Definition, NoMemory>
    ensures { IfOk result (λ definition. parts_in definition ≡ parts_of (as_body (part_of no_strings no_parts part.now))) }
{
    match part {
        Part::Held(tree) => match tree.get() {
            TreeNode::Body(body) => of_body(alloc, body),
            TreeNode::Payload(_) => Ok(nothing(alloc)),
        },
        Part::Number(_) => Ok(nothing(alloc)),
    }
}

/// The parameters and the expression of a definition, copied. A body that doesn't begin with an expression gives nothing.
#[tactic(auto, using(pj_tree::proofs::TreeReads::tree_reads))]
pub fn definition_of(alloc: Global, d: &DefTree) -> Result<Definition, NoMemory>
    ensures parts { IfOk result (λ definition. parts_in definition ≡ parts_of (held_parts d.now).code) }
    ensures item { IfOk result (λ definition. let parts = held_parts d.now in plain_definition parts.home parts.fun parts.params parts.code ≡ true → held_def d.now ≡ define_item parts.fun (parts_in definition)) }
{
    of_part(alloc, &d.body)
}

impl Session {
    /// Defines a function of a new name by its tree. It takes no charge. Without memory nothing changes.
    pub fn define_tree(&mut self, alloc: Global, d: &DefTree) -> Result<(), End>
        requires new { own_in (events_of self.old) (held_parts d.now).fun ≡ None }
        ensures tops { let parts = held_parts d.now in plain_definition parts.home parts.fun parts.params parts.code ≡ true → Good self.old.here (events_of self.old) → (left : ℕ) → Tops (top (held_def d.now) (run (state_seen self.old) left)) result (state_seen self.old) (state_seen self.new) left }
        ensures good { OnOk result (let parts = held_parts d.now in plain_definition parts.home parts.fun parts.params parts.code ≡ true → Good self.old.here (events_of self.old) → Good self.new.here (events_of self.new)) }
        ensures added { OnOk result (let parts = parts_of (held_parts d.now).code in events_of self.new ≡ events_of self.old ++ Defines (held_parts d.now).fun parts.0 parts.1 ∷ []) }
        ensures unchanged { OnErr result (events_of self.new ≡ events_of self.old) }
        ensures printed { self.new.printed ≡ self.old.printed }
        ensures here { self.new.here ≡ self.old.here }
        ensures spent { self.new.spent ≡ self.old.spent }
    {
        match definition_of(alloc, d) {
            Ok(definition) => self.define(alloc, text(&d.fun), definition),
            Err(_) => Err(End::NoMemory),
        }
    }
}
