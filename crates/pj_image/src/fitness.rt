//! Whether an image has a spelling.

ghost use Rattle.std.specs.Prelude.{◌≡◌, ◌+◌, ◌↔◌, ◌≤◌, IfOk, IsTrue, is_some, length as list_length};
ghost use Rattle.pj_fields.specs.Fields.{list};
ghost use Rattle.pj_tree.specs.Bytes.{tree};
ghost use Rattle.pj_image.specs.Fitting.{DeclaredFit, OthersFit, TreesFit, MethodsRight};
ghost use Rattle.pj_image.specs.Formed.{ImageOk, names_of};
ghost use Rattle.pj_image.specs.Spelled.{spelled, methods_place};

use crate::image::Image;
use crate::measure::{declared_size, length};
use crate::methods::{entries_placed, methods_fine};
use crate::named::see_names;
use crate::plain::plain_trees;
use crate::seen::Seen;
use pj_base::NoMemory;
use pj_parts::{Part, PartFault, Tested};
use pj_words::is_package_name;
use std::alloc::Global;

/// The greatest number of bytes that an image may have.
pub const LONGEST: u64 = 67_108_864;

/// Whether an image isn't too long.
fn is_short(image: &Image) -> bool
    ensures { IsTrue result ↔ (list_length (spelled image.now) ≤ 67108864) }
{
    length(image) <= LONGEST
}

/// Whether the parts of sections 1 to 6 have spellings.
fn declared_fit(image: &Image) -> bool
    ensures { IsTrue result ↔ DeclaredFit image.now }
{
    image.head.is_fit()
        && image.strings.is_fit()
        && image.types.is_fit()
        && image.functions.is_fit()
        && image.bindings.is_fit()
        && image.objects.is_fit()
}

/// Whether the parts of sections 8 to 12 have spellings.
fn others_fit(image: &Image) -> bool
    ensures { IsTrue result ↔ OthersFit image.now }
{
    image.methods.is_fit()
        && image.directives.is_fit()
        && image.records.is_fit()
        && image.code.is_fit()
        && image.entries.is_fit()
}

/// Whether the names of functions and bindings are strings of the image that may be names, and differ.
fn names_fine(alloc: Global, image: &Image) -> Result<bool, NoMemory>
    ensures { IfOk result (λ fine. fine ≡ is_some (names_of image.now)) }
{
    let mut seen = Seen::new(alloc);
    match see_names(
        alloc,
        image.strings.as_slice(),
        image.functions.as_slice(),
        &mut seen,
    ) {
        Ok(()) => {}
        Err(PartFault::Bad) => return Ok(false),
        Err(PartFault::NoMemory) => return Err(NoMemory),
    }
    match see_names(
        alloc,
        image.strings.as_slice(),
        image.bindings.as_slice(),
        &mut seen,
    ) {
        Ok(()) => Ok(true),
        Err(PartFault::Bad) => Ok(false),
        Err(PartFault::NoMemory) => Err(NoMemory),
    }
}

/// Whether the trees are of the form that is built today, and not too many to be counted.
fn trees_fine(alloc: Global, image: &Image) -> Result<bool, NoMemory>
    ensures { IfOk result (λ fine. IsTrue fine ↔ TreesFit image.now) }
{
    if image.trees.len() > 4_294_967_295 {
        return Ok(false);
    }
    plain_trees(alloc, image.strings.as_slice(), image.trees.as_slice())
}

/// The byte offset of the list of methods in the file of an image that isn't too long.
#[tactic(auto, using(crate::proofs::Lengths::placing))]
fn place_of_methods(image: &Image) -> u64
    requires { list_length (spelled image.now) ≤ 67108864 }
    ensures { result ≡ methods_place image.now }
{
    28 + declared_size(image) + image.trees.size()
}

/// Whether the methods of an image that isn't too long are fine, and its entries are right.
fn methods_right(image: &Image) -> bool
    requires { list_length (spelled image.now) ≤ 67108864 }
    ensures { IsTrue result ↔ MethodsRight image.now }
{
    methods_fine(image.trees.as_slice(), image.methods.as_slice())
        && entries_placed(
            place_of_methods(image),
            image.methods.as_slice(),
            image.entries.as_slice(),
        )
}

/// Whether an image has a spelling of at most 67,108,864 bytes.
pub fn image_ok(alloc: Global, image: &Image) -> Result<bool, NoMemory>
    ensures { IfOk result (λ ok. IsTrue ok ↔ ImageOk image.now) }
{
    if !is_short(image) || !declared_fit(image) || !others_fit(image) {
        return Ok(false);
    }
    if !is_package_name(image.head.name.as_str()) || !methods_right(image) {
        return Ok(false);
    }
    if !names_fine(alloc, image)? {
        return Ok(false);
    }
    trees_fine(alloc, image)
}
