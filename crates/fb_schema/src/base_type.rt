//! The base types of reflection.fbs (enum `BaseType`), by their names there.
//!
//! [`TypeRow`](crate::TypeRow) has them as numbers, since a row may come from a stranger and have any number.

/// No type: that of an enum's value, and of the member `NONE` of a union.
pub const NONE: i8 = 0;

/// The type of a union's value: the value of its member, in one byte.
pub const UTYPE: i8 = 1;

/// One byte, which is 0 or 1.
pub const BOOL: i8 = 2;

/// A signed number of one byte (`int8`).
pub const BYTE: i8 = 3;

/// An unsigned number of one byte (`uint8`).
pub const UBYTE: i8 = 4;

/// A signed number of 2 bytes (`int16`).
pub const SHORT: i8 = 5;

/// An unsigned number of 2 bytes (`uint16`).
pub const USHORT: i8 = 6;

/// A signed number of 4 bytes (`int32`).
pub const INT: i8 = 7;

/// An unsigned number of 4 bytes (`uint32`).
pub const UINT: i8 = 8;

/// A signed number of 8 bytes (`int64`).
pub const LONG: i8 = 9;

/// An unsigned number of 8 bytes (`uint64`).
pub const ULONG: i8 = 10;

/// A float of 4 bytes (`float32`).
pub const FLOAT: i8 = 11;

/// A float of 8 bytes (`float64`).
pub const DOUBLE: i8 = 12;

/// A string: a vector of bytes with a 0 behind it.
pub const STRING: i8 = 13;

/// A vector of what the type's `element` says.
pub const VECTOR: i8 = 14;

/// A table or a struct: the object of the type's `index`.
pub const OBJ: i8 = 15;

/// A union: the enum of the type's `index`.
pub const UNION: i8 = 16;

/// An array of a fixed number of what the type's `element` says; it stands in structs alone.
pub const ARRAY: i8 = 17;

/// A vector behind a 64-bit offset, which no legal schema has.
pub const VECTOR64: i8 = 18;
