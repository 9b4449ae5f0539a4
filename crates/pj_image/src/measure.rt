//! How many bytes an image has. Each of these answers the greatest u64 where that is less.

ghost use Rattle.std.specs.Prelude.{◌≡◌, ◌+◌, length as list_length};
ghost use Rattle.pj_parts.specs.Capped.{capped};
ghost use Rattle.pj_image.specs.Spelled.{declared_sections, body_sections, ending_sections, spelled};

use crate::image::Image;
use pj_parts::Part;

/// The bytes of two parts.
fn two<A: Part, B: Part>(first: &A, second: &B) -> u64
    ensures { result ≡ capped (list_length (A.bytes first.now) + list_length (B.bytes second.now)) }
{
    first.size().saturating_add(second.size())
}

/// The bytes of sections 1 to 6.
#[tactic(auto, using(crate::proofs::Lengths::declared))]
pub fn declared_size(image: &Image) -> u64
    ensures { result ≡ capped (list_length (declared_sections image.now)) }
{
    two(&image.head, &image.strings)
        .saturating_add(two(&image.types, &image.functions))
        .saturating_add(two(&image.bindings, &image.objects))
        .saturating_add(48)
}

/// The bytes of sections 7 and 8.
#[tactic(auto, using(crate::proofs::Lengths::bodies))]
fn bodies_size(image: &Image) -> u64
    ensures { result ≡ capped (list_length (body_sections image.now)) }
{
    two(&image.trees, &image.methods).saturating_add(16)
}

/// The bytes of sections 9 to 12.
#[tactic(auto, using(crate::proofs::Lengths::ending))]
fn ending_size(image: &Image) -> u64
    ensures { result ≡ capped (list_length (ending_sections image.now)) }
{
    two(&image.directives, &image.records)
        .saturating_add(two(&image.code, &image.entries))
        .saturating_add(32)
}

/// How many bytes the file of an image has, or 18,446,744,073,709,551,615 where that is less.
#[tactic(auto, using(crate::proofs::Lengths::whole))]
pub fn length(image: &Image) -> u64
    ensures { result ≡ capped (list_length (spelled image.now)) }
{
    declared_size(image)
        .saturating_add(bodies_size(image))
        .saturating_add(ending_size(image))
        .saturating_add(44)
}
