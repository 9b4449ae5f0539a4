//! The names of the modules of a text. It computes specs/Modules of pj_grammar. The proofs are in proofs/modules, with the lemmas of
//! proofs/Known (a table finds what the list has) and proofs/Used (the loop over the tokens).
ghost use Rattle.std.specs.Prelude.{◌≡◌, ◌∷◌, ◌++◌, [], IfOk, MatchOption};
ghost use Rattle.pj_grammar.specs.Modules.{is_module, modules_of, name_in_run, run_after};
ghost use Rattle.pj_read_makers.specs.Known.{with_text};
ghost use Rattle.pj_read_makers.specs.Runs.{run_of};

use crate::together::{both, with_last};
use pj_base::release::failed;
use pj_base::{Names, NoMemory, Text};
use pj_lex::{Sign, Token, TokenKind};
use pj_words::Word;
use sqlite_items::Items;
use std::alloc::Global;
use std::marker::Model;

/// The names of the modules of a text: each that is listed, and a table of them in which one is found in constant time.
#[derive(Drop)]
pub struct ModuleNames {
    listed: Items<Text>,
    known: Names,
}

impl Model for ModuleNames {
    ghost use Rattle.std.specs.Prelude.{◌≡◌, List, ℕ};
    ghost use Rattle.pj_read_makers.specs.Known.{distinct};

    ghost Value = { List (List ℕ) };

    ghost view = { λ m. m.listed };

    ghost invariant = { λ m. m.known ≡ distinct m.listed };
}

/// A list of names and one more.
fn more_listed(alloc: Global, listed: Items<Text>, name: &str) -> Result<Items<Text>, NoMemory>
    ensures { IfOk result (λ more. more ≡ listed ++ name.now ∷ []) }
{
    match Text::from_str(alloc, name) {
        Ok(text) => with_last(listed, text),
        Err(error) => failed(error, listed),
    }
}

/// A table of names and one more, where it is new.
fn more_known(alloc: Global, known: Names, name: &str) -> Result<Names, NoMemory>
    ensures { IfOk result (λ more. more ≡ with_text known name.now) }
{
    let mut known = known;
    match known.intern(alloc, name) {
        Ok(_) => Ok(known),
        Err(error) => failed(error, known),
    }
}

impl ModuleNames {
    /// No names. It takes no memory.
    pub fn new(alloc: Global) -> ModuleNames
        ensures { result ≡ [] }
    {
        ModuleNames {
            listed: Items::new(alloc),
            known: Names::new(alloc),
        }
    }

    /// These names and one more.
    #[tactic(auto, using(crate::proofs::Known::known_after))]
    pub fn with(self, alloc: Global, name: &str) -> Result<ModuleNames, NoMemory>
        ensures { IfOk result (λ more. more ≡ self ++ name.now ∷ []) }
    {
        let ModuleNames { listed, known } = self;
        let listed = more_listed(alloc, listed, name);
        let (listed, known) = both(listed, more_known(alloc, known, name))?;
        Ok(ModuleNames { listed, known })
    }

    /// The names as a list, one as often as it was added.
    pub fn listed(&self) -> &[Text]
        ensures { result.now ≡ self.now }
    {
        self.listed.as_slice()
    }

    /// Whether a name is a module's.
    pub fn is_module(&self, name: &str) -> bool
        ensures { result ≡ is_module self.now name.now }
    {
        self.known.find(name).is_some()
    }
}

/// How much of `using NAME , NAME ..` stands directly before.
#[derive(Clone, Copy, PartialEq, Eq)]
pub enum UsingRun {
    Outside,
    WantsName,
    HasName,
}

/// How much of it stands before what follows a token.
fn run_after(run: UsingRun, kind: &TokenKind) -> UsingRun
    ensures { run_of result ≡ run_after (run_of run) kind.now }
{
    match kind {
        TokenKind::Reserved(Word::Using) => UsingRun::WantsName,
        TokenKind::Name(_) => match run {
            UsingRun::WantsName => UsingRun::HasName,
            UsingRun::Outside | UsingRun::HasName => UsingRun::Outside,
        },
        TokenKind::Sign(Sign::Comma) => match run {
            UsingRun::HasName => UsingRun::WantsName,
            UsingRun::Outside | UsingRun::WantsName => UsingRun::Outside,
        },
        _ => UsingRun::Outside,
    }
}

/// The name that a token adds.
fn name_in_run(run: UsingRun, kind: &TokenKind) -> Option<&str>
    ensures { MatchOption result (name_in_run (run_of run) kind.now ≡ []) (λ name. name_in_run (run_of run) kind.now ≡ name.now ∷ []) }
{
    match run {
        UsingRun::WantsName => match kind {
            TokenKind::Name(text) => Some(text.as_str()),
            _ => None,
        },
        UsingRun::Outside | UsingRun::HasName => None,
    }
}

/// The names of the modules of a text: `Base`, the text's own name, and each that is used, wherever `using` stands.
pub fn modules_of(alloc: Global, own: &str, tokens: &[Token]) -> Result<ModuleNames, NoMemory>
    ensures { IfOk result (λ modules. modules ≡ modules_of own.now tokens.now) }
{
    let mut modules = ModuleNames::new(alloc)
        .with(alloc, "Base")?
        .with(alloc, own)?;
    let mut run = UsingRun::Outside;
    for token in tokens {
        if let Some(name) = name_in_run(run, &token.what) {
            modules = modules.with(alloc, name)?;
        }
        run = run_after(run, &token.what);
    }
    Ok(modules)
}
