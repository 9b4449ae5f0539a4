//! Names that a tree holds.
ghost use Rattle.std.specs.Prelude.{◌≡◌};
ghost use Rattle.pj_plain.specs.Held.{held_text};

use pj_tree::Sym;

/// The text of a name that is held. One that is numbered counts as the empty text.
pub fn text(name: &Sym) -> &str
    ensures { result.now ≡ held_text name.now }
{
    match name {
        Sym::Text(text) => text.as_str(),
        Sym::Number(_) => "",
    }
}
