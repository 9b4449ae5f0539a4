//! The numbers by which the parts of a program name one another.

/// A world of the method list: how many times methods were inserted. It is a sum of lengths of lists, so it never runs out.
#[derive(Clone, Copy, PartialEq, Eq)]
pub struct World(pub u128);

/// The place of a type in the list of types.
#[derive(Clone, Copy, PartialEq, Eq)]
pub struct TypeId(pub u64);

/// The place of a function among all functions, in the order in which they were bound.
#[derive(Clone, Copy, PartialEq, Eq)]
pub struct FunId(pub u64);

/// The place of a method in the list of methods.
#[derive(Clone, Copy, PartialEq, Eq)]
pub struct MethodId(pub u64);

/// The place of a record in the list of records.
#[derive(Clone, Copy, PartialEq, Eq)]
pub struct RecordId(pub u64);
