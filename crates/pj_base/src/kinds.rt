//! What an image's entries name: a kind, an image, and a place among what that image has of the kind.
ghost use Rattle.std.specs.Prelude.{◌≡◌, ℕ};
ghost use Rattle.pj_base.specs.declared.kinds.KindTag.{KindTag};
ghost use Rattle.pj_base.specs.declared.kinds.KindTag.TheVariants as kinds;
ghost use Rattle.pj_base.specs.Kinds.{kind_number, kind_of};

use std::marker::PhantomData;

/// A kind of thing that an image has and that another part names.
#[derive(Clone, Copy, Debug, PartialEq, Eq)]
pub enum KindTag {
    TypeKind,
    FunKind,
    MethodKind,
    BindingKind,
    ObjectKind,
    RecordKind,
    TreeKind,
}

impl KindTag {
    /// The number of a kind in an image's bytes, from 0 to 6.
    pub fn number(self) -> u32
        ensures { result ≡ kind_number self }
    {
        match self {
            KindTag::TypeKind => 0,
            KindTag::FunKind => 1,
            KindTag::MethodKind => 2,
            KindTag::BindingKind => 3,
            KindTag::ObjectKind => 4,
            KindTag::RecordKind => 5,
            KindTag::TreeKind => 6,
        }
    }

    /// The kind of a number, or None above 6.
    pub fn of_number(number: u32) -> Option<KindTag>
        ensures { result ≡ kind_of number }
    {
        match number {
            0 => Some(KindTag::TypeKind),
            1 => Some(KindTag::FunKind),
            2 => Some(KindTag::MethodKind),
            3 => Some(KindTag::BindingKind),
            4 => Some(KindTag::ObjectKind),
            5 => Some(KindTag::RecordKind),
            6 => Some(KindTag::TreeKind),
            _ => None,
        }
    }
}

/// A kind as a type, so that a target of one kind isn't taken for one of another.
pub trait Kind {
    // the kind
    ghost kind: { KindTag };

    /// The kind as a value.
    fn tag() -> KindTag
        ensures { result ≡ kind };
}

/// Types.
#[derive(Clone, Copy, PartialEq, Eq)]
pub struct KType;

impl Kind for KType {
    ghost kind = { kinds.TypeKind };

    fn tag() -> KindTag {
        KindTag::TypeKind
    }
}

/// Functions.
#[derive(Clone, Copy, PartialEq, Eq)]
pub struct KFun;

impl Kind for KFun {
    ghost kind = { kinds.FunKind };

    fn tag() -> KindTag {
        KindTag::FunKind
    }
}

/// Methods.
#[derive(Clone, Copy, PartialEq, Eq)]
pub struct KMethod;

impl Kind for KMethod {
    ghost kind = { kinds.MethodKind };

    fn tag() -> KindTag {
        KindTag::MethodKind
    }
}

/// Consts and globals.
#[derive(Clone, Copy, PartialEq, Eq)]
pub struct KBinding;

impl Kind for KBinding {
    ghost kind = { kinds.BindingKind };

    fn tag() -> KindTag {
        KindTag::BindingKind
    }
}

/// Mutable objects.
#[derive(Clone, Copy, PartialEq, Eq)]
pub struct KObject;

impl Kind for KObject {
    ghost kind = { kinds.ObjectKind };

    fn tag() -> KindTag {
        KindTag::ObjectKind
    }
}

/// Records of compiled code.
#[derive(Clone, Copy, PartialEq, Eq)]
pub struct KRecord;

impl Kind for KRecord {
    ghost kind = { kinds.RecordKind };

    fn tag() -> KindTag {
        KindTag::RecordKind
    }
}

/// Source trees.
#[derive(Clone, Copy, PartialEq, Eq)]
pub struct KTree;

impl Kind for KTree {
    ghost kind = { kinds.TreeKind };

    fn tag() -> KindTag {
        KindTag::TreeKind
    }
}

/// The number of what a session itself makes, in the place of an image's number. Images count from 1 in load order, and
/// 0 is Base.
pub const MAIN: u32 = 4_294_967_295;

/// A thing of one kind: the number of its image, and its place among what that image has of the kind, from 0.
#[derive(Clone, Copy, PartialEq, Eq)]
pub struct Target<K: Kind> {
    pub image: u32,
    pub ordinal: u64,
    pub kind: PhantomData<K>,
}

impl<K: Kind> Target<K> {
    /// The target of an image's number and a place.
    pub fn new(image: u32, ordinal: u64) -> Target<K>
        ensures image { result.image ≡ image }
        ensures ordinal { result.ordinal ≡ ordinal }
    {
        Target {
            image,
            ordinal,
            kind: PhantomData,
        }
    }
}
