// What stands at the end of a path.

/// The value at the end of a path. What it lends lives as long as the bytes that were handed to `Meter::new`.
#[derive(Clone, Copy, Debug, PartialEq, Eq, Drop)]
pub enum Answer<'b> {
    /// The field is absent and has no default, or a field on the way is absent.
    Absent,
    /// The vector has fewer elements.
    NoElement,
    /// The union has another type.
    OtherMember,
    /// A Bool: false where its byte is 0.
    Bool(bool),
    /// A Byte, Short, Int or Long.
    Int(i64),
    /// A UType, UByte, UShort, UInt or ULong.
    UInt(u64),
    /// A Float or Double: its 4 or 8 bytes as they stand in the buffer, the lowest first (FlatBuffers Internals).
    Float(&'b [u8]),
    /// An absent Float, by the bits of its default: the schema's double, rounded to the nearest single. Every NaN is
    /// the quiet one, 0x7fc00000.
    DefaultFloat(u32),
    /// An absent Double, by the bits of its default.
    DefaultDouble(u64),
    /// A string: its bytes without the terminator.
    Text(&'b [u8]),
    /// A struct: its bytes as they stand in the buffer, padding included.
    Struct(&'b [u8]),
    /// A vector, and the number of its elements.
    Vector(u32),
    /// A table.
    Table,
    /// A union, and its type: 0 where it has none.
    Union(u8),
}
