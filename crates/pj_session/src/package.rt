//! An image that was loaded.

ghost use Rattle.std.specs.Prelude.{◌≡◌, ◌<◌, ◌^◌, None, length};
ghost use Rattle.pj_image.specs.Formed.{Formed};
ghost use Rattle.pj_content.specs.Misfit.{misfit};
ghost use Rattle.pj_session.specs.Indexed.{MethodList, names_in_image};

use pj_image::Image;

/// An image that was loaded, and its identity; the places of the names of its functions, and behind them of its consts and globals,
/// each in a slot that its text tells; and for each function where its method stands.
#[derive(Drop)]
pub struct Package {
    pub image: Image,
    pub identity: [u8; 32],
    pub places: Vec<u32>,
    pub methods: Vec<Option<usize>>,
    ghost formed: { ∥ Formed image ∥₁ },
    ghost fits: { misfit image ≡ None },
    ghost few: { length (names_in_image image) < 2 ^ 64 },
    ghost listed: { MethodList image methods.items },
}
