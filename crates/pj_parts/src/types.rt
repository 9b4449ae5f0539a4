//! The parts of which an image consists. A name or a string is its number among the image's strings. A mention of a type,
//! a function, a method, a binding, an object, a record or a tree is a plain number here: the k-th mention of the file, in
//! the order of bytes and from 0, holds k, and the k-th entry says what it names.

ghost use Rattle.std.specs.Prelude.{◌≡◌};
ghost use Rattle.pj_parts.specs.Spelling.{form_number};

use crate::short_text::ShortText;
use sqlite_items::Items;

/// Another package whose image this one was built over.
#[derive(Drop)]
pub struct Dependency {
    pub name: ShortText,
    pub identity: [u8; 32],
}

/// The package's name, and its dependencies in order.
#[derive(Drop)]
pub struct Head {
    pub name: ShortText,
    pub dependencies: Items<Dependency>,
}

/// What a type is: abstract, or a struct whose values can't or can be changed.
#[derive(Clone, Copy, PartialEq, Eq)]
pub enum TypeForm {
    Abstract,
    Immutable,
    Mutable,
}

impl TypeForm {
    /// The number of a form in an image's bytes.
    pub fn number(self) -> u32
        ensures { result ≡ form_number self }
    {
        match self {
            TypeForm::Abstract => 0,
            TypeForm::Immutable => 1,
            TypeForm::Mutable => 2,
        }
    }
}

/// A field of a struct: its name, and a mention of its type.
#[derive(Clone, Copy, PartialEq, Eq)]
pub struct FieldDef {
    pub name: u32,
    pub declared: u32,
}

/// A type: its name, its form, a mention of its parent, and its fields.
#[derive(Drop)]
pub struct TypeDef {
    pub name: u32,
    pub form: TypeForm,
    pub parent: u32,
    pub fields: Items<FieldDef>,
}

/// A function that the package binds: its name.
#[derive(Clone, Copy, PartialEq, Eq)]
pub struct FunDef {
    pub name: u32,
}

/// Whether a binding is a constant or a global.
#[derive(Clone, Copy, PartialEq, Eq)]
pub enum BindingForm {
    Const,
    Global,
}

/// A value. A function, an object and a struct's type are mentions.
#[derive(Drop)]
pub enum Value {
    Nothing,
    False,
    True,
    Int(i64),
    Str(u32),
    Fun(u32),
    Object(u32),
    Struct(u32, Items<Value>),
}

/// A name that the package binds to a value.
#[derive(Drop)]
pub struct Binding {
    pub name: u32,
    pub form: BindingForm,
    pub value: Value,
}

/// A mutable object: a mention of its type, and the values of its fields.
#[derive(Drop)]
pub struct Object {
    pub declared: u32,
    pub values: Items<Value>,
}

/// A method: a mention of its function, mentions of its parameters' types, and the number of the tree of its body.
#[derive(Drop)]
pub struct Method {
    pub fun: u32,
    pub types: Items<u32>,
    pub body: u32,
}

/// A request to compile: a mention of a function, and mentions of the arguments' types.
#[derive(Drop)]
pub struct Directive {
    pub fun: u32,
    pub types: Items<u32>,
}

/// What is known of a value's type: that there is no value, that the type is one of one to four, that it is below an
/// abstract one, or nothing.
#[derive(Drop)]
pub enum Element {
    Bottom,
    OneOf(Items<u32>),
    Below(u32),
    Any,
}

/// What a call picked when the record was made: a method, none, or none of several.
#[derive(Clone, Copy, PartialEq, Eq)]
pub enum Outcome {
    One(u32),
    NoneMatch,
    Ambiguous,
}

/// What a record depends on: that a call of a function with arguments of these types picks this, or that calls with
/// arguments of these elements can pick these methods.
#[derive(Drop)]
pub enum Edge {
    Call {
        fun: u32,
        types: Items<u32>,
        outcome: Outcome,
    },
    Meets {
        fun: u32,
        elements: Items<Element>,
        methods: Items<u32>,
    },
}

/// A method compiled for parameters of these elements: the result's element, what it depends on, the records that its
/// code enters, how many registers it has, and how many instructions.
#[derive(Drop)]
pub struct CodeRecord {
    pub method: u32,
    pub params: Items<Element>,
    pub outcome: Element,
    pub edges: Items<Edge>,
    pub links: Items<u32>,
    pub registers: u32,
    pub instructions: u32,
}

/// One word of a record's code.
#[derive(Clone, Copy, PartialEq, Eq)]
pub struct CodeWord(pub u32);
