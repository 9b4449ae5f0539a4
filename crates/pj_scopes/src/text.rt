//! The trees of whole texts, or the fault that counts.
ghost use Rattle.std.specs.Prelude.{◌≡◌, [], IfOk};
ghost use Rattle.pj_faults.specs.Counting.{Counts};
ghost use Rattle.pj_scopes.specs.Resolved.{package_tree, script};
ghost use Rattle.pj_scopes.specs.Told.{IfFault, faults_of_package, faults_of_script};

use crate::fault::ScopeFault;
use crate::item::{resolved_package, resolved_script};
use pj_base::Text;
use pj_faults::{Fault, package_fault, script_fault};
use pj_syntax::{Package, Script};
use pj_tree::{PackageTree, ScriptTree};
use std::alloc::Global;

/// The tree of a script, exactly where it has no fault of names and scopes; else the fault that counts. `modules` are the names of
/// its modules: `Base`, `Main` and each name behind `using`.
#[tactic(auto, using(crate::proofs::Telling::telling))]
pub fn script_tree(alloc: Global, modules: &[Text], text: &Script) -> Result<ScriptTree, ScopeFault>
    ensures tree { IfOk result (λ t. t ≡ script text.now) }
    ensures faultless { IfOk result (λ _. faults_of_script modules.now text.now ≡ []) }
    ensures fault { IfFault result (λ f. Counts f (faults_of_script modules.now text.now)) }
{
    match script_fault(alloc, modules, text)? {
        Some(Fault { place, kind }) => Err(ScopeFault::Fault { place, kind }),
        None => Ok(resolved_script(alloc, text)?),
    }
}

/// The tree of a package, exactly where it has no fault of names and scopes; else the fault that counts. `modules` are the names of
/// its modules: `Base`, its own and each name behind `using`. `asked` is the name that is asked for.
#[tactic(auto, using(crate::proofs::Telling::telling))]
pub fn package_tree(
    alloc: Global,
    modules: &[Text],
    asked: &str,
    text: &Package,
) -> Result<PackageTree, ScopeFault>
    ensures tree { IfOk result (λ t. t ≡ package_tree text.now) }
    ensures faultless { IfOk result (λ _. faults_of_package modules.now asked.now text.now ≡ []) }
    ensures fault { IfFault result (λ f. Counts f (faults_of_package modules.now asked.now text.now)) }
{
    match package_fault(alloc, modules, asked, text)? {
        Some(Fault { place, kind }) => Err(ScopeFault::Fault { place, kind }),
        None => Ok(resolved_package(alloc, text)?),
    }
}
