//! What a session holds.

ghost use Rattle.std.specs.Prelude.{◌≡◌, ◌≤◌, length, true, map};
ghost use Rattle.pj_session.specs.Merged.{image_name, is_ordered};

use crate::own::{Kind, Own};
use crate::package::Package;
use pj_base::{ByteList, Names, Text};

/// What a session added to Base: functions and constants of the module that runs, images, and the order in which all came.
/// Each own thing has its name in the same place of `own`, and each image in `packages`. There are 1,024 images at most.
#[derive(Drop)]
pub struct Tables {
    pub own: Names,
    pub things: Vec<Own>,
    pub packages: Names,
    pub images: Vec<Package>,
    pub order: Vec<Kind>,
    ghost ordered: { is_ordered order.items own things.items images.items ≡ true },
    ghost named: { packages ≡ map image_name images.items },
    ghost few: { length images.items ≤ 1024 },
}

/// The state of a run: the module that runs, what was added to Base, what was printed, and whether memory has run out.
#[derive(Drop)]
pub struct Session {
    pub here: Text,
    pub tables: Tables,
    pub printed: ByteList,
    pub spent: bool,
}
