//! Reads texts of the language into their trees.
#![tactic(auto)]

ghost use Rattle.pj_grammar.specs.Texts.{script, «package»};
ghost use Rattle.pj_lex.specs.Lexed.{IsSyntax};
ghost use Rattle.pj_parse.specs.Answers.{Refuses};
ghost use Rattle.pj_parse.specs.Texts.{IsPackage, IsScript};
ghost use Rattle.pj_tree.specs.declared.item.PackageTree.{PackageTree};
ghost use Rattle.pj_tree.specs.declared.item.ScriptTree.{ScriptTree};
ghost use Rattle.std.specs.Prelude.{◌≡◌, IfErr, IfOk, codes};

pub mod laws;
mod syntax;

pub use pj_lex::{SyntaxFault, SyntaxKind};
use pj_scopes::item::{resolved_package, resolved_script};
use pj_tree::{PackageTree, ScriptTree};
use std::alloc::Global;
use syntax::{package_syntax, script_syntax};

/// The tree of a script, which is the only one that the text has. A text that is no script has a fault, at the byte of its place: the
/// first byte that is no UTF-8; or else the first piece that is no token; or else the first token with which no text of the
/// grammar begins, or only one that nests more than 128 deep; or else the first name, list or word that breaks a rule of scopes.
pub fn script(alloc: Global, bytes: &[u8]) -> Result<ScriptTree, SyntaxFault>
    ensures tree { IfOk result (IsScript bytes.now) }
    ensures only { IfOk result (λ tree. (other : ScriptTree) → IsScript bytes.now other → other ≡ tree) }
    ensures fault { IfErr result (Refuses script (codes "Main") bytes.now) }
    ensures refused { IfErr result (λ e. IsSyntax e → (other : ScriptTree) → ¬ (IsScript bytes.now other)) }
{
    let syntax = script_syntax(alloc, bytes)?;
    Ok(resolved_script(alloc, &syntax)?)
}

/// The tree of the package of a name, which is the only one that the text has. A text that is no such package has a fault, as a
/// text that is no script has; the package's name is one of the names that rules are on.
pub fn package(alloc: Global, bytes: &[u8], name: &str) -> Result<PackageTree, SyntaxFault>
    ensures tree { IfOk result (IsPackage name.now bytes.now) }
    ensures only { IfOk result (λ tree. (other : PackageTree) → IsPackage name.now bytes.now other → other ≡ tree) }
    ensures fault { IfErr result (Refuses «package» name.now bytes.now) }
    ensures refused { IfErr result (λ e. IsSyntax e → (other : PackageTree) → ¬ (IsPackage name.now bytes.now other)) }
{
    let syntax = package_syntax(alloc, bytes, name)?;
    Ok(resolved_package(alloc, &syntax)?)
}
