//! Rows in few words, for who makes a schema by hand: types, fields, objects, members and enums, with everything off
//! that isn't named, as the defaults of reflection.fbs have it.

ghost use Rattle.std.specs.Prelude.{◌≡◌, map, length, vec_len, IfOk};
ghost use Rattle.fb_schema.specs.Rows.{field_of, member_of_row, object_of, enum_of};
ghost use Rattle.fb_schema.specs.Builders.{type_of_one, type_of_vector, type_of_array, plain_field, plain_table, struct_of, plain_member, union_of, enum_of_values};

use crate::base_type::{ARRAY, NONE, VECTOR};
use crate::rows::{EnumRow, FieldRow, MemberRow, ObjectRow, TypeRow};
use std::alloc::{AllocError, Global};

/// The `index` of a type that names no object and no enum, as reflection.fbs has it by default.
const NO_INDEX: i32 = -1;

/// The type of one value of this base type (table `Type` of reflection.fbs). Follow it by [`TypeRow::naming`] where it
/// is an object or a union.
pub fn one(base: i8) -> TypeRow
    ensures { result ≡ type_of_one base }
{
    TypeRow {
        base,
        element: NONE,
        index: NO_INDEX,
        fixed_length: 0,
    }
}

/// The type of a vector of values of this base type. Follow it by [`TypeRow::naming`] where these are objects or
/// unions.
pub fn vector(element: i8) -> TypeRow
    ensures { result ≡ type_of_vector element }
{
    TypeRow {
        base: VECTOR,
        element,
        index: NO_INDEX,
        fixed_length: 0,
    }
}

/// The type of an array of so many values of this base type. Follow it by [`TypeRow::naming`] where these are structs.
pub fn array(element: i8, fixed_length: u16) -> TypeRow
    ensures { result ≡ type_of_array element fixed_length }
{
    TypeRow {
        base: ARRAY,
        element,
        index: NO_INDEX,
        fixed_length,
    }
}

impl TypeRow {
    /// This type, but of the object or enum of this number: its place in the list of objects or enums of the schema.
    pub fn naming(self, index: i32) -> TypeRow
        ensures { result ≡ record self { index = index } }
    {
        TypeRow { index, ..self }
    }
}

/// A field that is live and may be absent, without a default (table `Field` of reflection.fbs). `slot` is its place, in
/// bytes, in a vtable or in a struct.
pub fn field<'n>(name: &'n [u8], slot: u16, ty: TypeRow) -> FieldRow<'n>
    ensures { field_of result ≡ plain_field name.now slot ty }
{
    FieldRow {
        name,
        ty,
        slot,
        default: 0,
        deprecated: false,
        required: false,
        optional: false,
        offset64: false,
    }
}

/// A table of these fields, which are copied (table `Object` of reflection.fbs). An error comes only where memory was
/// refused.
pub fn table<'n>(
    alloc: Global,
    name: &'n [u8],
    fields: &[FieldRow<'n>],
) -> Result<ObjectRow<'n>, AllocError>
    ensures row { IfOk result (λ o. object_of o ≡ plain_table name.now (map field_of fields.now)) }
    ensures count { IfOk result (λ o. vec_len o.fields ≡ length fields.now) }
{
    Ok(ObjectRow {
        name,
        fields: fields.to_vec(alloc)?,
        is_struct: false,
        minalign: 1,
        bytesize: 0,
    })
}

/// A struct of so many bytes, aligned to so many, of these fields, which are copied (table `Object` of reflection.fbs).
/// An error comes only where memory was refused.
pub fn structure<'n>(
    alloc: Global,
    name: &'n [u8],
    bytesize: i32,
    minalign: i32,
    fields: &[FieldRow<'n>],
) -> Result<ObjectRow<'n>, AllocError>
    ensures row { IfOk result (λ o. object_of o ≡ struct_of name.now bytesize minalign (map field_of fields.now)) }
    ensures count { IfOk result (λ o. vec_len o.fields ≡ length fields.now) }
{
    Ok(ObjectRow {
        name,
        fields: fields.to_vec(alloc)?,
        is_struct: true,
        minalign,
        bytesize,
    })
}

/// A member of a union, or a value of an enum, of which the type is `one(NONE)` (table `EnumVal` of reflection.fbs).
pub fn member<'n>(name: &'n [u8], value: i64, ty: TypeRow) -> MemberRow<'n>
    ensures { member_of_row result ≡ plain_member name.now value ty }
{
    MemberRow { name, value, ty }
}

/// A union of these members, which are copied (table `Enum` of reflection.fbs). An error comes only where memory was
/// refused.
pub fn union<'n>(
    alloc: Global,
    name: &'n [u8],
    members: &[MemberRow<'n>],
) -> Result<EnumRow<'n>, AllocError>
    ensures row { IfOk result (λ e. enum_of e ≡ union_of name.now (map member_of_row members.now)) }
    ensures count { IfOk result (λ e. vec_len e.members ≡ length members.now) }
{
    Ok(EnumRow {
        name,
        members: members.to_vec(alloc)?,
        is_union: true,
    })
}

/// An enum that is no union, of these values, which are copied (table `Enum` of reflection.fbs). An error comes only
/// where memory was refused.
pub fn plain_enum<'n>(
    alloc: Global,
    name: &'n [u8],
    values: &[MemberRow<'n>],
) -> Result<EnumRow<'n>, AllocError>
    ensures row { IfOk result (λ e. enum_of e ≡ enum_of_values name.now (map member_of_row values.now)) }
    ensures count { IfOk result (λ e. vec_len e.members ≡ length values.now) }
{
    Ok(EnumRow {
        name,
        members: values.to_vec(alloc)?,
        is_union: false,
    })
}
