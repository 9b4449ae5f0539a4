ghost use Rattle.std.specs.Prelude.{◌≡◌};
ghost use Rattle.pj_reloc.specs.Resolving.{count_of};

use pj_base::KindTag;
use sqlite_items::Items;

/// An image's number in the session, and how many it has of each kind.
#[derive(Clone, Copy, PartialEq, Eq)]
pub struct Counts {
    pub image: u32,
    pub types: u32,
    pub funs: u32,
    pub methods: u32,
    pub bindings: u32,
    pub objects: u32,
    pub records: u32,
    pub trees: u32,
}

impl Counts {
    /// How many the image has of a kind.
    pub fn of(&self, kind: KindTag) -> u32
        ensures { result ≡ count_of kind self.now }
    {
        match kind {
            KindTag::TypeKind => self.types,
            KindTag::FunKind => self.funs,
            KindTag::MethodKind => self.methods,
            KindTag::BindingKind => self.bindings,
            KindTag::ObjectKind => self.objects,
            KindTag::RecordKind => self.records,
            KindTag::TreeKind => self.trees,
        }
    }
}

/// The images that an image's entries may name, by dependency number: Base, its dependencies in order, and itself.
#[derive(Drop)]
pub struct DepTable {
    pub images: Items<Counts>,
}
