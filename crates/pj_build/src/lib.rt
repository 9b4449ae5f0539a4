//! The image of a package, from what its statements left.
#![tactic(auto)]

pub mod image;
pub mod numbering;
pub mod pack;
pub mod rows;
pub mod sections;
pub mod wiring;

pub use image::image_of;
pub use numbering::numbered;
pub use pack::{BuildFault, Packed};
