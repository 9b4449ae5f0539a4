//! Names, types and parameters.
ghost use Rattle.std.specs.Prelude.{◌≡◌, map, IfOk};
ghost use Rattle.pj_tree.specs.declared.tree.Sym.TheVariants.{Text as Written};
ghost use Rattle.pj_scopes.specs.Resolved.{declared_of, given_name, home_of, names_of, own_of, param_of, params_of, type_of, unwritten, word, words};

use pj_base::{NoMemory, Text};
use pj_syntax::{Param as Parameter, Path, Spot};
use pj_tree::{Param, ParamList, Sym, SymList, TypeRef, TypeRefList};
use sqlite_items::Items;
use std::alloc::Global;

/// A text as a name or a string.
pub fn text_word(alloc: Global, text: &str) -> Result<Sym, NoMemory>
    ensures { IfOk result (λ w. w ≡ Written text.now) }
{
    Ok(Sym::Text(Text::from_str(alloc, text)?))
}

/// A name.
pub fn spot_word(alloc: Global, x: &Spot) -> Result<Sym, NoMemory>
    ensures { IfOk result (λ w. w ≡ word x.now) }
{
    Ok(Sym::Text(x.text.copied(alloc)?))
}

/// The empty text.
pub fn no_word(alloc: Global) -> Result<Sym, NoMemory>
    ensures { IfOk result (λ w. w ≡ unwritten) }
{
    text_word(alloc, "")
}

/// Names.
pub fn spot_words(alloc: Global, all: &[Spot]) -> Result<SymList, NoMemory>
    ensures { IfOk result (λ ws. ws ≡ words all.now) }
{
    let mut words = Items::new(alloc);
    for x in all {
        words.push(spot_word(alloc, x)?)?;
    }
    Ok(words)
}

/// A name, or the empty text where there is none.
pub fn maybe_word(alloc: Global, x: &Option<Spot>) -> Result<Sym, NoMemory>
    ensures { IfOk result (λ w. w ≡ given_name x.now) }
{
    match x {
        Some(x) => spot_word(alloc, x),
        None => no_word(alloc),
    }
}

/// The module before a name, or the empty text.
pub fn path_home(alloc: Global, path: &Path) -> Result<Sym, NoMemory>
    ensures { IfOk result (λ w. w ≡ home_of path.now) }
{
    match path {
        Path::Bare(_) => no_word(alloc),
        Path::Of(module, _) => spot_word(alloc, module.get()),
    }
}

/// A name without the module before it.
pub fn path_name(alloc: Global, path: &Path) -> Result<Sym, NoMemory>
    ensures { IfOk result (λ w. w ≡ own_of path.now) }
{
    match path {
        Path::Bare(x) => spot_word(alloc, x),
        Path::Of(_, x) => spot_word(alloc, x),
    }
}

/// A type.
pub fn path_type(alloc: Global, path: &Path) -> Result<TypeRef, NoMemory>
    ensures { IfOk result (λ t. t ≡ type_of path.now) }
{
    let module = path_home(alloc, path)?;
    let name = path_name(alloc, path)?;
    Ok(TypeRef { module, name })
}

/// A type, or Any where none is written.
pub fn maybe_type(alloc: Global, path: &Option<Path>) -> Result<TypeRef, NoMemory>
    ensures { IfOk result (λ t. t ≡ declared_of path.now) }
{
    match path {
        Some(path) => path_type(alloc, path),
        None => {
            let module = no_word(alloc)?;
            let name = text_word(alloc, "Any")?;
            Ok(TypeRef { module, name })
        }
    }
}

/// Types.
pub fn path_types(alloc: Global, types: &[Path]) -> Result<TypeRefList, NoMemory>
    ensures { IfOk result (λ ts. ts ≡ map type_of types.now) }
{
    let mut all = Items::new(alloc);
    for path in types {
        all.push(path_type(alloc, path)?)?;
    }
    Ok(all)
}

fn one_param(alloc: Global, param: &Parameter) -> Result<Param, NoMemory>
    ensures { IfOk result (λ p. p ≡ param_of param.now) }
{
    let name = maybe_word(alloc, &param.name)?;
    let declared = maybe_type(alloc, &param.declared)?;
    Ok(Param { name, declared })
}

/// Parameters or fields.
pub fn all_params(alloc: Global, params: &[Parameter]) -> Result<ParamList, NoMemory>
    ensures { IfOk result (λ ps. ps ≡ params_of params.now) }
{
    let mut all = Items::new(alloc);
    for param in params {
        all.push(one_param(alloc, param)?)?;
    }
    Ok(all)
}

/// The names of parameters, the empty text where a parameter has none.
pub fn param_names(alloc: Global, params: &[Parameter]) -> Result<SymList, NoMemory>
    ensures { IfOk result (λ ws. ws ≡ names_of params.now) }
{
    let mut all = Items::new(alloc);
    for param in params {
        all.push(maybe_word(alloc, &param.name)?)?;
    }
    Ok(all)
}
