use crate::expression::{Expr, Path, PathList, Spot, SpotList};
use crate::statement::{Function, ParamList, Stmt};
use sqlite_items::Items;

pub type ItemList = Items<Item>;

/// One item at the top level of a script or a package.
#[derive(Drop)]
pub enum Item {
    Using(SpotList),
    Abstract {
        name: Spot,
        parent: Option<Path>,
    },
    Struct {
        mutable: bool,
        name: Spot,
        parent: Option<Path>,
        fields: ParamList,
    },
    Def(Function),
    Declare(Spot),
    Const {
        name: Spot,
        value: Expr,
    },
    Directive {
        fun: Path,
        types: PathList,
    },
    Run(Stmt),
}

/// The text of a package.
#[derive(Drop)]
pub struct Package {
    pub name: Spot,
    pub uses: SpotList,
    pub items: ItemList,
}

/// The text of a script.
#[derive(Drop)]
pub struct Script {
    pub items: ItemList,
}
