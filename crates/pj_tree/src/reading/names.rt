ghost use Rattle.std.specs.Prelude.{◌≡◌};
ghost use Rattle.pj_fields.specs.Fields.{number_at, int_at, list_at, many};
ghost use Rattle.pj_tree.specs.Given.{Gives};
ghost use Rattle.pj_tree.specs.Reading.{sym_at, syms_at, part_at, param_at};

use crate::fault::TreeFault;
use crate::room::with_some_room;
use crate::tree::{Param, ParamList, Part, Sym, SymList, TypeRef};
use pj_fields::{take_int, take_number};
use std::alloc::Global;

pub(crate) fn number(bytes: &[u8]) -> Result<(u32, &[u8]), TreeFault>
    ensures { Gives (λ x. (x.0, x.1.now)) result (number_at bytes.now) }
{
    match take_number(bytes) {
        Some(found) => Ok(found),
        None => Err(TreeFault::Bad),
    }
}

pub(crate) fn int(bytes: &[u8]) -> Result<(i64, &[u8]), TreeFault>
    ensures { Gives (λ x. (x.0, x.1.now)) result (int_at bytes.now) }
{
    match take_int(bytes) {
        Some(found) => Ok(found),
        None => Err(TreeFault::Bad),
    }
}

pub(crate) fn sym(bytes: &[u8]) -> Result<(Sym, &[u8]), TreeFault>
    ensures { Gives (λ x. (x.0, x.1.now)) result (sym_at bytes.now) }
{
    let (name, rest) = number(bytes)?;
    Ok((Sym::Number(name), rest))
}

pub(crate) fn part(bytes: &[u8]) -> Result<(Part, &[u8]), TreeFault>
    ensures { Gives (λ x. (x.0, x.1.now)) result (part_at bytes.now) }
{
    let (tree, rest) = number(bytes)?;
    Ok((Part::Number(tree), rest))
}

fn param(bytes: &[u8]) -> Result<(Param, &[u8]), TreeFault>
    ensures { Gives (λ x. (x.0, x.1.now)) result (param_at bytes.now) }
{
    let (name, rest) = sym(bytes)?;
    let (module, rest) = sym(rest)?;
    let (declared, rest) = sym(rest)?;
    let declared = TypeRef {
        module,
        name: declared,
    };
    Ok((Param { name, declared }, rest))
}

fn many_syms(alloc: Global, count: u32, bytes: &[u8]) -> Result<(SymList, &[u8]), TreeFault>
    ensures { Gives (λ x. (x.0, x.1.now)) result (many sym_at count bytes.now) }
{
    let mut list = with_some_room(alloc, count);
    let mut rest = bytes;
    for _turn in 0..count {
        let (member, after) = sym(rest)?;
        list.push(member)?;
        rest = after;
    }
    Ok((list, rest))
}

#[tactic(auto, unfolding(pj_fields::specs::Fields::list_at))]
pub(crate) fn syms(alloc: Global, bytes: &[u8]) -> Result<(SymList, &[u8]), TreeFault>
    ensures { Gives (λ x. (x.0, x.1.now)) result (syms_at bytes.now) }
{
    let (count, rest) = number(bytes)?;
    many_syms(alloc, count, rest)
}

fn many_params(alloc: Global, count: u32, bytes: &[u8]) -> Result<(ParamList, &[u8]), TreeFault>
    ensures { Gives (λ x. (x.0, x.1.now)) result (many param_at count bytes.now) }
{
    let mut list = with_some_room(alloc, count);
    let mut rest = bytes;
    for _turn in 0..count {
        let (member, after) = param(rest)?;
        list.push(member)?;
        rest = after;
    }
    Ok((list, rest))
}

#[tactic(auto, unfolding(pj_fields::specs::Fields::list_at))]
pub(crate) fn params(alloc: Global, bytes: &[u8]) -> Result<(ParamList, &[u8]), TreeFault>
    ensures { Gives (λ x. (x.0, x.1.now)) result (list_at param_at bytes.now) }
{
    let (count, rest) = number(bytes)?;
    many_params(alloc, count, rest)
}
