//! Types and constants.
use crate::names::NameId;

/// A type.
#[derive(Debug, PartialEq, Eq, Drop)]
pub enum Ty {
    /// `iN`, an integer of 1 to 64 bits.
    Int(u8),
    /// `ptr`
    Ptr,
    /// `void`
    Void,
    /// `[n x T]`: that many elements of one type.
    Array(u64, Box<Ty>),
    /// `{..}`, or packed `<{..}>`: the fields, and whether they are packed.
    Struct(Vec<Ty>, bool),
    /// A named type.
    Named(NameId),
}

/// A constant.
#[cycle(constant)]
#[derive(Debug, PartialEq, Eq, Drop)]
pub enum Const {
    /// An integer as it was written, whatever its width.
    Int(i128),
    /// `true` or `false`
    Bool(bool),
    /// `null`
    Null,
    /// `undef`
    Undef,
    /// `poison`
    Poison,
    /// `zeroinitializer`
    Zero,
    /// `c".."`, a string of bytes.
    Text(Vec<u8>),
    /// `[..]`
    Array(Vec<Typed>),
    /// `{..}`, or packed `<{..}>`: the fields, and whether they are packed.
    Struct(Vec<Typed>, bool),
    /// The address of a global or a function.
    Global(NameId),
    /// `getelementptr`: whether it is `inbounds`, the type that is stepped through, the pointer and the
    /// indices.
    Gep(bool, Ty, Box<Typed>, Vec<Typed>),
}

/// A constant with its type.
#[cycle(constant)]
#[derive(Debug, PartialEq, Eq, Drop)]
pub struct Typed {
    /// The type.
    pub ty: Ty,
    /// The constant.
    pub value: Const,
}
