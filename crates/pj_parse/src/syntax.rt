//! Tokens of a text as its syntax tree, and the fault of a text that has none.
ghost use Rattle.pj_grammar.specs.Texts.{script, «package»};
ghost use Rattle.pj_grammar.specs.declared.mode.Parsed.TheVariants as parsed;
ghost use Rattle.pj_parse.specs.Answers.{HasBase, OutOfScope, Refuses, Stops, told};
ghost use Rattle.pj_reader.specs.Read.{Accepts};
ghost use Rattle.pj_parse.specs.Scoped.{kind_of, scope_fault};
ghost use Rattle.pj_parse.specs.Texts.{IsSyntax};
ghost use Rattle.std.specs.Prelude.{◌≡◌, None, codes, IfErr, IfOk};

use pj_faults::{Fault, ScopeKind, package_fault, script_fault};
use pj_grammar::Parsed;
use pj_lex::{SyntaxFault, SyntaxKind, TokenList, tokens};
use pj_read_makers::modules::{ModuleNames, modules_of};
use pj_reader::fault::{ReadFault, TextKind};
use pj_reader::reader::read;
use pj_syntax::{Package, Script};
use std::alloc::Global;

/// The kind of a fault of scopes.
fn kind_of(kind: ScopeKind) -> SyntaxKind
    ensures { result ≡ kind_of kind }
{
    match kind {
        ScopeKind::Many => SyntaxKind::Many,
        ScopeKind::ModuleName => SyntaxKind::ModuleName,
        ScopeKind::Twice => SyntaxKind::Twice,
        ScopeKind::LoopName => SyntaxKind::LoopName,
        ScopeKind::GlobalLocal => SyntaxKind::GlobalLocal,
        ScopeKind::Outside => SyntaxKind::Outside,
        ScopeKind::Reserved => SyntaxKind::Reserved,
    }
}

/// The fault of a text whose tokens are none of the grammar.
fn told(fault: ReadFault) -> SyntaxFault
    ensures { result ≡ told fault }
{
    match fault {
        ReadFault::Grammar { place, .. } | ReadFault::Early { place, .. } => early(place),
        ReadFault::Deep { place, .. } => SyntaxFault::Syntax {
            place,
            kind: SyntaxKind::Deep,
        },
        ReadFault::Endless => early(0),
        ReadFault::NoMemory => SyntaxFault::NoMemory,
    }
}

/// The fault of a text that goes on, or ends, where none of the grammar does.
fn early(place: usize) -> SyntaxFault
    ensures { result ≡ SyntaxFault.Syntax place SyntaxKind.Grammar }
{
    SyntaxFault::Syntax {
        place,
        kind: SyntaxKind::Grammar,
    }
}

/// The fault of a text that breaks a rule of scopes.
fn out_of_scope(fault: Fault) -> SyntaxFault
    ensures { result ≡ SyntaxFault.Syntax fault.place (kind_of fault.kind) }
{
    SyntaxFault::Syntax {
        place: fault.place,
        kind: kind_of(fault.kind),
    }
}

/// Tokens as a script, before scopes are asked. `Base` is among the modules.
fn script_of(
    alloc: Global,
    modules: &ModuleNames,
    tokens: &TokenList,
) -> Result<Script, SyntaxFault>
    requires base { HasBase modules.now }
    ensures read { IfOk result (λ s. Accepts modules.now script tokens.now (parsed.Script s)) }
    ensures fault { IfErr result (Stops modules.now script tokens.now) }
{
    let read = match read(alloc, modules, TextKind::Script, tokens) {
        Ok(read) => read,
        Err(fault) => return Err(told(fault)),
    };
    match read {
        Parsed::Script(script) => Ok(script),
        Parsed::Package(_) => unreachable!(),
    }
}

/// A script whose names keep the rules of scopes.
fn scoped_script(alloc: Global, modules: &ModuleNames, read: Script) -> Result<Script, SyntaxFault>
    ensures kept { IfOk result (λ s. (s ≡ read) × (scope_fault (codes "Main") modules.now (parsed.Script read) ≡ None)) }
    ensures fault { IfErr result (OutOfScope (scope_fault (codes "Main") modules.now (parsed.Script read))) }
{
    match script_fault(alloc, modules.listed(), &read)? {
        None => Ok(read),
        Some(fault) => Err(out_of_scope(fault)),
    }
}

/// The syntax tree of a script, and the fault of a text that is none.
pub fn script_syntax(alloc: Global, bytes: &[u8]) -> Result<Script, SyntaxFault>
    ensures syntax { IfOk result (λ s. IsSyntax script (codes "Main") bytes.now (parsed.Script s)) }
    ensures fault { IfErr result (Refuses script (codes "Main") bytes.now) }
{
    let tokens = tokens(alloc, bytes)?;
    let modules = modules_of(alloc, "Main", tokens.as_slice())?;
    let read = script_of(alloc, &modules, &tokens)?;
    scoped_script(alloc, &modules, read)
}

/// Tokens as a package, before scopes are asked. `Base` is among the modules.
fn package_of(
    alloc: Global,
    modules: &ModuleNames,
    tokens: &TokenList,
) -> Result<Package, SyntaxFault>
    requires base { HasBase modules.now }
    ensures read { IfOk result (λ s. Accepts modules.now «package» tokens.now (parsed.Package s)) }
    ensures fault { IfErr result (Stops modules.now «package» tokens.now) }
{
    let read = match read(alloc, modules, TextKind::Package, tokens) {
        Ok(read) => read,
        Err(fault) => return Err(told(fault)),
    };
    match read {
        Parsed::Package(package) => Ok(package),
        Parsed::Script(_) => unreachable!(),
    }
}

/// A package that has the name which is asked for, and whose names keep the rules of scopes.
fn scoped_package(
    alloc: Global,
    modules: &ModuleNames,
    name: &str,
    read: Package,
) -> Result<Package, SyntaxFault>
    ensures kept { IfOk result (λ s. (s ≡ read) × (scope_fault name.now modules.now (parsed.Package read) ≡ None)) }
    ensures fault { IfErr result (OutOfScope (scope_fault name.now modules.now (parsed.Package read))) }
{
    match package_fault(alloc, modules.listed(), name, &read)? {
        None => Ok(read),
        Some(fault) => Err(out_of_scope(fault)),
    }
}

/// The syntax tree of the package of a name, and the fault of a text that is none.
pub fn package_syntax(alloc: Global, bytes: &[u8], name: &str) -> Result<Package, SyntaxFault>
    ensures syntax { IfOk result (λ s. IsSyntax «package» name.now bytes.now (parsed.Package s)) }
    ensures fault { IfErr result (Refuses «package» name.now bytes.now) }
{
    let tokens = tokens(alloc, bytes)?;
    let modules = modules_of(alloc, name, tokens.as_slice())?;
    let read = package_of(alloc, &modules, &tokens)?;
    scoped_package(alloc, &modules, name, read)
}
