//! The image of a package.

ghost use Rattle.std.specs.Prelude.{◌≡◌, ◌+◌, true, [], IfOk, None, is_some, length};
ghost use Rattle.pj_image.specs.Formed.{names_of};
ghost use Rattle.std.specs.List.{list_all, AllByRecursion};
ghost use Rattle.pj_words.specs.Words.{is_package_name};
ghost use Rattle.pj_tree.specs.Fits.{TreeFits};
ghost use Rattle.pj_parts.specs.Fits.{HeadFits, FunDefFits, BindingFits};
ghost use Rattle.pj_image.specs.PlainTrees.{is_plain};
ghost use Rattle.pj_image.specs.Pieces.{placed, method_fine};
ghost use Rattle.pj_image.specs.Spelled.{methods_place};
ghost use Rattle.pj_content.specs.Content.{content_of};
ghost use Rattle.pj_content.specs.Misfit.{misfit};
ghost use Rattle.pj_session.specs.Good.{Good};
ghost use Rattle.pj_build.specs.Own.{own_events};
ghost use Rattle.pj_build.specs.Read.{PackageRead};
ghost use Rattle.pj_build.specs.Built.{Keeps, Declares, with_methods};

use crate::sections::{bindings, functions, trees};
use crate::wiring::{Wiring, wired};
use pj_base::{Name, Names, NoMemory};
use pj_image::Image;
use pj_image::measure::declared_size;
use pj_parts::{Head, Part, ShortText};
use pj_session::own::Own;
use sqlite_items::Items;
use std::alloc::Global;

/// The strings as an image holds them.
fn texts(alloc: Global, strings: &Names) -> Result<Items<ShortText>, NoMemory>
    ensures { IfOk result (λ texts. texts ≡ strings.now) }
{
    let mut texts = Items::new(alloc);
    for place in 0..strings.len() {
        let text = strings.text(Name(place as u64));
        texts.push(ShortText::from_str(alloc, text)?)?;
    }
    Ok(texts)
}

/// The head of a package's image, which has no dependencies.
fn head(alloc: Global, name: &str) -> Result<Head, NoMemory>
    ensures { IfOk result (λ h. h ≡ record { name = name.now; dependencies = [] }) }
{
    let name = ShortText::from_str(alloc, name)?;
    let dependencies = Items::new(alloc);
    Ok(Head { name, dependencies })
}

/// Where the first method stands in an image's file, behind how many there are.
#[tactic(auto, using(pj_image::proofs::Lengths::placing))]
fn first_method(image: &Image) -> Result<u32, NoMemory>
    ensures { IfOk result (λ at. at ≡ methods_place image.now + 4) }
{
    let size = declared_size(image)
        .saturating_add(image.trees.size())
        .saturating_add(32);
    match u32::try_from(size) {
        Ok(at) => Ok(at),
        Err(_) => Err(NoMemory),
    }
}

/// The image without its methods.
fn declared(alloc: Global, name: &str, names: &Names, things: &[Own]) -> Result<Image, NoMemory>
    requires { length names.now ≡ length things.now }
    ensures { IfOk result (Declares name.now names.now things.now) }
{
    let mut strings = Names::new(alloc);
    let functions = functions(alloc, &mut strings, names, things)?;
    let bindings = bindings(alloc, &mut strings, names, things)?;
    let trees = trees(alloc, &mut strings, things)?;
    let strings = texts(alloc, &strings)?;
    let head = head(alloc, name)?;
    Ok(Image {
        head,
        strings,
        types: Items::new(alloc),
        functions,
        bindings,
        objects: Items::new(alloc),
        trees,
        methods: Items::new(alloc),
        directives: Items::new(alloc),
        records: Items::new(alloc),
        code: Items::new(alloc),
        entries: Items::new(alloc),
    })
}

/// The image with these methods and entries.
fn put_methods(image: Image, w: Wiring) -> Image
    ensures { result ≡ with_methods image w.methods w.entries }
{
    let Wiring {
        methods,
        entries,
        at: _,
    } = w;
    let mut image = image;
    image.methods = methods;
    image.entries = entries;
    image
}

/// The image of a package that has these things of its own, each under the name in its place.
pub fn image_of(alloc: Global, name: &str, names: &Names, things: &[Own]) -> Result<Image, NoMemory>
    requires each { length names.now ≡ length things.now }
    requires good { Good name.now (own_events names.now things.now) }
    // It is the package's, and has no dependencies.
    ensures called { IfOk result (λ i. i.head.name ≡ name.now) }
    ensures alone { IfOk result (λ i. i.head.dependencies ≡ []) }
    // Its content is what the state holds of the package once its statements are evaluated.
    ensures content { IfOk result (λ i. Keeps name.now names.now things.now (content_of i)) }
    // No entry is refused.
    ensures no_misfit { IfOk result (λ i. misfit i ≡ None) }
    // Each mention holds its number, and has the one entry with its place.
    ensures right { IfOk result (λ i. placed (methods_place i) i.methods i.entries ≡ true) }
    // Its functions and its bindings have spellings; and so has its head, whose name is one of packages, where all this was
    // read from a text.
    ensures named { IfOk result (λ i. PackageRead name.now names.now things.now → is_package_name i.head.name ≡ true) }
    ensures head { IfOk result (λ i. PackageRead name.now names.now things.now → HeadFits i.head) }
    ensures functions { IfOk result (λ i. AllByRecursion FunDefFits i.functions) }
    ensures bindings { IfOk result (λ i. AllByRecursion BindingFits i.bindings) }
    // Where it was, the names that it declares may all be bound, and are different.
    ensures names { IfOk result (λ i. PackageRead name.now names.now things.now → is_some (names_of i) ≡ true) }
    // Where it was, its trees are plain, and have spellings; and each method has one as its body.
    ensures plain { IfOk result (λ i. PackageRead name.now names.now things.now → list_all (is_plain i.strings) i.trees ≡ true) }
    ensures trees { IfOk result (λ i. PackageRead name.now names.now things.now → AllByRecursion TreeFits i.trees) }
    ensures fine { IfOk result (λ i. PackageRead name.now names.now things.now → list_all (method_fine i.trees) i.methods ≡ true) }
{
    let image = declared(alloc, name, names, things)?;
    let place = first_method(&image)?;
    let w = wired(alloc, place, things)?;
    Ok(put_methods(image, w))
}
