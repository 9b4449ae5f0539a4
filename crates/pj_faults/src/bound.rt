//! Faults of names that are bound, and of lists of parameters and fields.
ghost use Rattle.std.specs.Prelude.{◌≡◌, ◌∷◌, [], IfOk, OnOk};
ghost use Rattle.pj_faults.specs.Found.{bound_first, bound_path_first, params_bound, seen_after, params_repeated, many_params, list_first};

use crate::fault::{Fault, ScopeKind, sooner, when};
use crate::names::NameSet;
use pj_base::NoMemory;
use pj_syntax::{Param, Path, Spot};
use pj_words::is_special;
use sqlite_items::at;
use std::alloc::Global;

/// The fault of a name that is bound: one of a module, or one with a form of its own.
#[tactic(auto, using(crate::proofs::BoundLaws::bound_rules))]
pub fn bound_fault(modules: &NameSet, x: &Spot) -> Option<Fault>
    ensures { result ≡ bound_first modules.now x.now }
{
    let text = x.text.as_str();
    let of_module = when(modules.contains(text), ScopeKind::ModuleName, x.at);
    sooner(of_module, when(is_special(text), ScopeKind::Reserved, x.at))
}

/// The fault of the name of a method, which is bound where no module stands before it.
#[tactic(auto, using(crate::proofs::BoundLaws::bound_rules))]
pub fn bound_path_fault(modules: &NameSet, path: &Path) -> Option<Fault>
    ensures { result ≡ bound_path_first modules.now path.now }
{
    match path {
        Path::Bare(x) => bound_fault(modules, x),
        Path::Of(_, _) => None,
    }
}

#[tactic(auto, using(crate::proofs::BoundLaws::bound_rules))]
fn param_bound(modules: &NameSet, param: &Param) -> Option<Fault>
    ensures { result ≡ params_bound modules.now (param.now ∷ []) }
{
    match &param.name {
        Some(x) => bound_fault(modules, x),
        None => None,
    }
}

/// The fault that counts of the names of parameters.
#[tactic(auto, using(crate::proofs::BoundLaws::bound_rules))]
pub fn params_bound_fault(modules: &NameSet, params: &[Param]) -> Option<Fault>
    ensures { result ≡ params_bound modules.now params.now }
{
    let mut found = None;
    for param in params {
        found = sooner(found, param_bound(modules, param));
    }
    found
}

/// The fault of a name that stands among those before it, to which it is added.
#[tactic(auto, using(crate::proofs::BoundLaws::bound_rules))]
fn param_repeated(
    alloc: Global,
    seen: &mut NameSet,
    param: &Param,
) -> Result<Option<Fault>, NoMemory>
    ensures found { IfOk result (λ found. found ≡ params_repeated seen.old (param.now ∷ [])) }
    ensures seen { OnOk result (seen.new ≡ seen_after seen.old (param.now ∷ [])) }
{
    match &param.name {
        Some(x) => {
            let is_new = seen.add(alloc, x.text.as_str())?;
            Ok(when(!is_new, ScopeKind::Twice, x.at))
        }
        None => Ok(None),
    }
}

#[tactic(auto, using(crate::proofs::BoundLaws::bound_rules))]
fn params_repeated_fault(alloc: Global, params: &[Param]) -> Result<Option<Fault>, NoMemory>
    ensures { IfOk result (λ found. found ≡ params_repeated [] params.now) }
{
    let mut seen = NameSet::new(alloc);
    let mut found = None;
    for param in params {
        found = sooner(found, param_repeated(alloc, &mut seen, param)?);
    }
    Ok(found)
}

#[tactic(auto, using(crate::proofs::BoundLaws::bound_rules))]
fn many_params_fault(params: &[Param]) -> Option<Fault>
    ensures { result ≡ many_params params.now }
{
    match at(params, 16) {
        Some(param) => when(true, ScopeKind::Many, param.at),
        None => None,
    }
}

/// The fault that counts of a list of parameters or fields: more than 16, or one that has the name of one before it.
#[tactic(auto, using(crate::proofs::BoundLaws::bound_rules))]
pub fn list_fault(alloc: Global, params: &[Param]) -> Result<Option<Fault>, NoMemory>
    ensures { IfOk result (λ found. found ≡ list_first params.now) }
{
    let twice = params_repeated_fault(alloc, params)?;
    Ok(sooner(many_params_fault(params), twice))
}
