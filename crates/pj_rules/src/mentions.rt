//! The trees that a tree names.

ghost use Rattle.std.specs.Prelude.{◌≡◌, ◌++◌, IfOk, OnOk};
ghost use Rattle.pj_rules.specs.Numbering.{by_stmt, by_block, by_part, by_payload, by_body, by_def, by_tree, named, mention_of};

use pj_base::NoMemory;
use pj_tree::{Body, DefTree, Part, Payload, Stmt, TreeNode};
use sqlite_items::Items;
use std::alloc::Global;

/// A tree that another one names by its number: a payload that is evaluated, or the body of a method with so many parameters.
#[derive(Clone, Copy, PartialEq, Eq)]
pub enum Mention {
    Payload(u32),
    Body(u32, usize),
}

impl Mention {
    /// The number that is named.
    pub fn number(&self) -> u32
        ensures { result ≡ named self.now }
    {
        match self {
            Mention::Payload(number) => *number,
            Mention::Body(number, _) => *number,
        }
    }
}

fn of_kind(params: Option<usize>, number: u32) -> Mention
    ensures { result ≡ mention_of params number }
{
    match params {
        None => Mention::Payload(number),
        Some(params) => Mention::Body(number, params),
    }
}

#[cycle(mentions)]
#[tactic(auto, using(crate::proofs::MentionLaws::mention_rules))]
fn put_part(p: &Part, params: Option<usize>, out: &mut Items<Mention>) -> Result<(), NoMemory>
    ensures { OnOk result (out.new ≡ out.old ++ by_part p.now params) }
{
    match p {
        Part::Held(t) => put_tree(t.get(), out),
        Part::Number(number) => {
            out.push(of_kind(params, *number))?;
            Ok(())
        }
    }
}

#[cycle(mentions)]
#[tactic(auto, using(crate::proofs::MentionLaws::mention_rules))]
fn put_stmt(s: &Stmt, out: &mut Items<Mention>) -> Result<(), NoMemory>
    ensures { OnOk result (out.new ≡ out.old ++ by_stmt s.now) }
{
    match s {
        Stmt::Value(_) | Stmt::SetLocal(_, _) | Stmt::SetGlobal(_, _) => Ok(()),
        Stmt::SetField(_, _, _) | Stmt::Break | Stmt::Continue | Stmt::Return(_) => Ok(()),
        Stmt::If(_, chosen, other) => {
            put_block(chosen.as_slice(), out)?;
            put_block(other.as_slice(), out)
        }
        Stmt::While(_, _, block) => put_block(block.as_slice(), out),
        Stmt::For(_, _, _, _, block) => put_block(block.as_slice(), out),
        Stmt::Eval(_, part) => put_part(part, None, out),
    }
}

#[cycle(mentions)]
#[tactic(auto, using(crate::proofs::MentionLaws::mention_rules), unfolding(crate::specs::Numbering::by_block))]
fn put_block(block: &[Stmt], out: &mut Items<Mention>) -> Result<(), NoMemory>
    ensures { OnOk result (out.new ≡ out.old ++ by_block block.now) }
{
    for s in block {
        put_stmt(s, out)?;
    }
    Ok(())
}

#[cycle(mentions)]
#[tactic(auto, using(crate::proofs::MentionLaws::mention_rules))]
fn put_payload(p: &Payload, out: &mut Items<Mention>) -> Result<(), NoMemory>
    ensures { OnOk result (out.new ≡ out.old ++ by_payload p.now) }
{
    match p {
        Payload::Def(d) => put_def(d, out),
        Payload::SetBinding { .. } | Payload::Value(_) => Ok(()),
    }
}

#[cycle(mentions)]
#[tactic(auto, using(crate::proofs::MentionLaws::mention_rules))]
fn put_def(d: &DefTree, out: &mut Items<Mention>) -> Result<(), NoMemory>
    ensures { OnOk result (out.new ≡ out.old ++ by_def d.now) }
{
    put_part(&d.body, Some(d.params.len()), out)
}

#[cycle(mentions)]
#[tactic(auto, using(crate::proofs::MentionLaws::mention_rules))]
fn put_body(b: &Body, out: &mut Items<Mention>) -> Result<(), NoMemory>
    ensures { OnOk result (out.new ≡ out.old ++ by_body b.now) }
{
    put_block(b.block.as_slice(), out)
}

#[cycle(mentions)]
#[tactic(auto, using(crate::proofs::MentionLaws::mention_rules))]
fn put_tree(t: &TreeNode, out: &mut Items<Mention>) -> Result<(), NoMemory>
    ensures { OnOk result (out.new ≡ out.old ++ by_tree t.now) }
{
    match t {
        TreeNode::Body(b) => put_body(b, out),
        TreeNode::Payload(p) => put_payload(p, out),
    }
}

/// The trees that a tree names, in order.
pub fn mentions_of(alloc: Global, t: &TreeNode) -> Result<Items<Mention>, NoMemory>
    ensures { IfOk result (λ all. all ≡ by_tree t.now) }
{
    let mut out = Items::new(alloc);
    put_tree(t, &mut out)?;
    Ok(out)
}
