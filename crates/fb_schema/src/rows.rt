// The rows of a schema, as `reflection.fbs` has them.

/// The type of a field or member (table `Type` of reflection.fbs).
///
/// `base` and `element` are numbers of `BaseType`. `element` counts only where `base` is a vector or an array, and
/// `index` only where the type or its element is an object or a union: it is the number of that object or enum.
/// `fixed_length` is the number of elements of an array.
#[derive(Clone, Copy, Debug, PartialEq, Eq)]
pub struct TypeRow {
    pub base: i8,
    pub element: i8,
    pub index: i32,
    pub fixed_length: u16,
}

/// A field of a table or struct (table `Field` of reflection.fbs).
///
/// In a table `slot` is the field's place in a vtable, in bytes; in a struct it is the field's place in the struct, in
/// bytes. `default` is the default of a scalar: of a Float or Double the bits of a double, as `f64::to_bits` gives them
/// (`default_real` of reflection.fbs; 0 is 0.0), and of others the number (`default_integer`). `deprecated` has no
/// meaning in a struct.
#[derive(Clone, Copy, Debug)]
pub struct FieldRow<'n> {
    pub name: &'n [u8],
    pub ty: TypeRow,
    pub slot: u16,
    pub default: i64,
    pub deprecated: bool,
    pub required: bool,
    pub optional: bool,
    pub offset64: bool,
}

/// A table or struct (table `Object` of reflection.fbs).
///
/// `minalign` and `bytesize` count bytes and mean something only where `is_struct` is set.
#[derive(Debug, Drop)]
pub struct ObjectRow<'n> {
    pub name: &'n [u8],
    pub fields: Vec<FieldRow<'n>>,
    pub is_struct: bool,
    pub minalign: i32,
    pub bytesize: i32,
}

/// A value of an enum or a member of a union (table `EnumVal` of reflection.fbs; `ty` is its `union_type`).
#[derive(Clone, Copy, Debug)]
pub struct MemberRow<'n> {
    pub name: &'n [u8],
    pub value: i64,
    pub ty: TypeRow,
}

/// An enum or union (table `Enum` of reflection.fbs).
#[derive(Debug, Drop)]
pub struct EnumRow<'n> {
    pub name: &'n [u8],
    pub members: Vec<MemberRow<'n>>,
    pub is_union: bool,
}
