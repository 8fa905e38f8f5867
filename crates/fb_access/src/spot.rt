// What is at the end of a path, and where it stands.

use fb_schema::Scalar;

/// What the steps of a path lead to. A position is that of the value itself, where a `uoffset` leads to it behind
/// that word (FlatBuffers Internals: offsets count from their own place).
#[derive(Clone, Copy)]
pub enum Spot {
    /// A table: its object's number, and its position.
    AtTable(u32, u64),
    /// A scalar, and its position.
    AtInline(Scalar, u64),
    /// A struct: its object's number, and its position.
    AtStruct(u32, u64),
    /// A string, at the position of its count.
    AtText(u64),
    /// A vector of scalars, at the position of its count, as every vector.
    AtScalars(Scalar, u64),
    /// A vector of structs: their object's number, and its position.
    AtStructs(u32, u64),
    /// An array of scalars in a struct: how many, and the position of the first.
    AtScalarArray(Scalar, u16, u64),
    /// An array of structs in a struct: their object's number, how many, and the position of the first.
    AtStructArray(u32, u16, u64),
    /// A vector of strings, and its position.
    AtTexts(u64),
    /// A vector of tables: their object's number, and its position.
    AtTables(u32, u64),
    /// A vector of unions: their enum's number, the position of the first type, and its own position.
    AtUnions(u32, u64, u64),
    /// A union: its enum's number, its type, and the position of its `uoffset`.
    AtUnion(u32, u8, u64),
    /// An absent scalar, and its field's default: of a Float or Double the bits of a double, as the row has it.
    AtDefault(Scalar, i64),
    /// Nothing: the field is absent, or a field on the way here is.
    AtAbsent,
    /// Nothing: the vector, or one on the way here, has no such element.
    AtNoElement,
    /// Nothing: the union, or one on the way here, has another type.
    AtOtherMember,
}
