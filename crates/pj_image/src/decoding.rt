//! From the bytes of a file to an image.

ghost use Rattle.std.specs.Prelude.{◌≡◌, ℕ, Err, IfOk, ◌+◌, ◌-◌, ◌≤◌, ◌<◌, ◌^◌, length, take};
ghost use Rattle.std.specs.Str.{bytes_eq};
ghost use Rattle.sha2.specs.Sha256.{sha256};
ghost use Rattle.pj_image.specs.File.{front, sealed_at, file_at};
ghost use Rattle.pj_image.specs.Formed.{Formed, IsFileOf};
ghost use Rattle.pj_image.specs.Found.{Finds};
ghost use Rattle.pj_image.specs.Spelled.{spelled};
ghost use Rattle.pj_image.specs.declared.image.Image.{Image};

use crate::fault::DecodeFault;
use crate::image::Image;
use crate::sections::take_parts;
use sha2::{Digest, Sha256};
use std::alloc::Global;

/// What every file begins with: eight letters, and the version.
pub(crate) const FRONT: [u8; 12] = *b"PJIMAGE1\x01\x00\x00\x00";

/// The digest of the bytes.
pub(crate) fn digest(bytes: &[u8]) -> [u8; 32]
    ensures { result ≡ sha256 bytes.now }
{
    Sha256::digest(bytes)
}

/// The identity of an image: the digest of all its bytes before the last 32.
pub fn identity(bytes: &[u8]) -> [u8; 32]
    requires { 32 ≤ length bytes.now }
    ensures { result ≡ sha256 (take (length bytes.now - 32) bytes.now) }
{
    let (body, _) = bytes.split_at(bytes.len() - 32);
    digest(body)
}

/// Whether a file begins as every file does.
#[tactic(auto, unfolding(crate::specs::File::front, pj_fields::specs::Fields::number))]
fn has_front(bytes: &[u8]) -> bool
    ensures { result ≡ bytes_eq bytes.now front }
{
    bytes == FRONT.as_slice()
}

/// The image of this name whose bytes before the identity are `body`, with this identity.
fn take_sealed(alloc: Global, name: &str, body: &[u8], seal: &[u8]) -> Result<Image, DecodeFault>
    requires front { 12 ≤ length body.now }
    requires small { length body.now + 8 < 2 ^ 64 }
    ensures { Finds (λ x. x) result (sealed_at name.now body.now seal.now) }
{
    let (beginning, sections) = body.split_at(12);
    if !has_front(beginning) {
        return Err(DecodeFault::Format { section: 0 });
    }
    if seal != digest(body).as_slice() {
        return Err(DecodeFault::Format { section: 13 });
    }
    take_parts(alloc, name, body.len(), sections)
}

/// The image of this name whose file the bytes are, or the first section at fault.
#[tactic(auto, unfolding(crate::specs::File::file_at))]
fn take_file(alloc: Global, bytes: &[u8], name: &str) -> Result<Image, DecodeFault>
    ensures { Finds (λ x. x) result (file_at name.now bytes.now) }
{
    if bytes.len() < 44 {
        return Err(DecodeFault::Format { section: 0 });
    }
    let (body, seal) = bytes.split_at(bytes.len() - 32);
    take_sealed(alloc, name, body, seal)
}

/// The image of this name whose file the bytes are. A fault is the first section that is at fault: 0 where what stands
/// before the sections is, then 13 where the identity is, then 1 to 12. Another name is a fault of section 1.
pub fn decode(alloc: Global, bytes: &[u8], name: &str) -> Result<Image, DecodeFault>
    // The parts, or the first section at fault.
    ensures exact { Finds (λ x. x) result (file_at name.now bytes.now) }
    // What is read has a spelling and the asked name, and the bytes are its spelling.
    ensures found { IfOk result (λ i. IsFileOf name.now bytes.now i) }
    // They are the spelling of no other image.
    ensures only { IfOk result (λ i. (j : Image) → Formed j → bytes.now ≡ spelled j → j ≡ i) }
    // A fault comes only where they are the spelling of no image of this name.
    ensures bad { (k : ℕ) → result ≡ Err (DecodeFault.Format k) → (j : Image) → IsFileOf name.now bytes.now j → ⊥ }
{
    take_file(alloc, bytes, name)
}
