// What values are: scalars and kinds, and the shapes that types have.

/// A scalar type (`BaseType` 1 to 12 of reflection.fbs).
#[derive(Clone, Copy, Debug, PartialEq, Eq)]
pub enum Scalar {
    UType,
    Bool,
    Byte,
    UByte,
    Short,
    UShort,
    Int,
    UInt,
    Long,
    ULong,
    Float,
    Double,
}

/// What a field of a table, or a member of a union, holds.
///
/// The number of a `Struct`, `Table`, `Structs` or `Tables` is that of an object, and of a `Union` or `Unions` that of
/// an enum.
#[derive(Clone, Copy, Debug, PartialEq, Eq)]
pub enum Kind {
    Scalar(Scalar),
    Text,
    Struct(u32),
    Table(u32),
    Union(u32),
    Scalars(Scalar),
    Texts,
    Structs(u32),
    Tables(u32),
    Unions(u32),
}

/// What one value is, before it is known which object or enum is meant.
#[derive(Clone, Copy)]
pub enum Element {
    Scalar(Scalar),
    Text,
    Object,
    Union,
}

/// What a type holds: one value, a vector of them, or an array of a fixed number.
#[derive(Clone, Copy)]
pub enum Shape {
    One(Element),
    Vector(Element),
    Array(Element),
}

/// What holds the types of a union's value, and of a vector of these: one type byte, or a vector of type bytes.
#[derive(Clone, Copy)]
pub enum TypeField {
    ForUnion,
    ForUnions,
}
