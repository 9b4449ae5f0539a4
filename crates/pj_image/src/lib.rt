//! Image files: a package's parts in bytes, and back, with the first section that is at fault.
#![tactic(auto)]

pub mod decoding;
pub mod distinct;
pub mod encoding;
pub mod fault;
pub mod fitness;
pub mod frame;
pub mod hashes;
pub mod image;
pub mod measure;
pub mod methods;
pub mod named;
pub mod pieces;
pub mod plain;
pub mod sections;
pub mod seen;
pub mod stages;

pub use decoding::{decode, identity};
pub use encoding::encode;
pub use fault::DecodeFault;
pub use fitness::image_ok;
pub use image::Image;
pub use measure::length;
