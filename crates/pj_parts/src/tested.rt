//! Whether parts have a spelling today.

ghost use Rattle.std.specs.Prelude.{◌↔◌, IsTrue};
ghost use Rattle.std.specs.List.{AllByRecursion};

use crate::short_text::ShortText;
use crate::types::{
    Binding, CodeRecord, CodeWord, Dependency, Directive, FunDef, Head, Method, Object, TypeDef,
    Value,
};
use pj_reloc::Entry;
use pj_tree::Sym;
use sqlite_items::Items;

/// What can be asked whether it has a spelling.
pub trait Tested {
    // which values have one
    ghost fits: { Self → Type 0 };

    /// Whether the value has a spelling.
    fn is_fit(&self) -> bool
        ensures { IsTrue result ↔ fits self.now };
}

/// Whether each of them has a spelling.
fn all_fit<T: Tested>(all: &[T]) -> bool
    ensures { IsTrue result ↔ AllByRecursion T.fits all.now }
{
    for one in all {
        if !one.is_fit() {
            return false;
        }
    }
    true
}

impl<T: Tested> Tested for Items<T> {
    ghost use Rattle.pj_parts.specs.Fits.{ListFits};

    ghost fits = { ListFits T.fits };

    fn is_fit(&self) -> bool {
        self.len() <= 4_294_967_295 && all_fit(self.as_slice())
    }
}

impl Tested for u32 {
    ghost use Rattle.pj_parts.specs.Fits.{NumberFits};

    ghost fits = { NumberFits };

    fn is_fit(&self) -> bool {
        let _number = *self;
        true
    }
}

impl Tested for Sym {
    ghost use Rattle.pj_tree.specs.Fits.{SymFits};

    ghost fits = { SymFits };

    fn is_fit(&self) -> bool {
        match self {
            Sym::Number(number) => number.is_fit(),
            Sym::Text(_) => false,
        }
    }
}

impl Tested for ShortText {
    ghost use Rattle.pj_parts.specs.Fits.{TextFits};

    ghost fits = { TextFits };

    #[tactic(auto, using(crate::proofs::Texts::texts))]
    fn is_fit(&self) -> bool {
        self.as_str().len() <= 4_294_967_295
    }
}

impl Tested for Dependency {
    ghost use Rattle.pj_parts.specs.Fits.{NoneYet};

    ghost fits = { NoneYet };

    fn is_fit(&self) -> bool {
        false
    }
}

impl Tested for TypeDef {
    ghost use Rattle.pj_parts.specs.Fits.{NoneYet};

    ghost fits = { NoneYet };

    fn is_fit(&self) -> bool {
        false
    }
}

impl Tested for Object {
    ghost use Rattle.pj_parts.specs.Fits.{NoneYet};

    ghost fits = { NoneYet };

    fn is_fit(&self) -> bool {
        false
    }
}

impl Tested for Directive {
    ghost use Rattle.pj_parts.specs.Fits.{NoneYet};

    ghost fits = { NoneYet };

    fn is_fit(&self) -> bool {
        false
    }
}

impl Tested for CodeRecord {
    ghost use Rattle.pj_parts.specs.Fits.{NoneYet};

    ghost fits = { NoneYet };

    fn is_fit(&self) -> bool {
        false
    }
}

impl Tested for Head {
    ghost use Rattle.pj_parts.specs.Fits.{HeadFits};

    ghost fits = { HeadFits };

    fn is_fit(&self) -> bool {
        self.name.is_fit() && self.dependencies.is_fit()
    }
}

impl Tested for FunDef {
    ghost use Rattle.pj_parts.specs.Fits.{FunDefFits};

    ghost fits = { FunDefFits };

    fn is_fit(&self) -> bool {
        self.name.is_fit()
    }
}

impl Tested for Binding {
    ghost use Rattle.pj_parts.specs.Fits.{BindingFits};

    ghost fits = { BindingFits };

    fn is_fit(&self) -> bool {
        self.name.is_fit() && self.value.is_fit()
    }
}

impl Tested for Method {
    ghost use Rattle.pj_parts.specs.Fits.{MethodFits};

    ghost fits = { MethodFits };

    fn is_fit(&self) -> bool {
        self.fun.is_fit() && self.types.is_fit() && self.body.is_fit()
    }
}

impl Tested for Entry {
    ghost use Rattle.pj_parts.specs.Fits.{EntryFits};

    ghost fits = { EntryFits };

    fn is_fit(&self) -> bool {
        self.place.is_fit() && self.dependency.is_fit() && self.ordinal.is_fit()
    }
}

impl Tested for Value {
    ghost use Rattle.pj_parts.specs.Fits.{ValueFits};

    ghost fits = { ValueFits };

    #[tactic(auto, using(crate::proofs::Values::value_layers))]
    fn is_fit(&self) -> bool {
        match self {
            Value::Int(of) => {
                let _of = *of;
                true
            }
            Value::Nothing | Value::False | Value::True => false,
            Value::Str(_) | Value::Fun(_) | Value::Object(_) | Value::Struct(_, _) => false,
        }
    }
}

impl Tested for CodeWord {
    ghost use Rattle.pj_parts.specs.Fits.{NoneYet};

    ghost fits = { NoneYet };

    fn is_fit(&self) -> bool {
        false
    }
}
