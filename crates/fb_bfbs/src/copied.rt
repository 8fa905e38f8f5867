// The tables of a schema file that are copied whole: each a row.
#![tactic(auto, using(crate::proofs::FixedFields::always), unfolding(crate::proofs::FixedFields::computing))]

ghost use Rattle.std.specs.Prelude.{vec_len};
ghost use Rattle.fb_schema.specs.Rows.{field_of, object_of, member_of_row, enum_of};
ghost use Rattle.fb_access.specs.declared.step.Step.TheVariants.{Field as ToField};
ghost use Rattle.fb_bfbs.specs.{Says.after, Seen.seen, Seen.IsAt};
ghost use Rattle.fb_bfbs.specs.Describes.{IsTypeRow, IsTypeOrNone, IsFieldRow, IsObjectRow, IsMemberRow, IsEnumRow, IsDefault, is_float};

use crate::lists::{FromTable, rows_in};
use crate::values::{
    bool_in, byte_in, double_in, go_to, int_in, long_in, table_or_none, text_in, ushort_in,
};
use fb_access::Place;
use fb_schema::base_type::{DOUBLE, FLOAT};
use fb_schema::{EnumRow, FieldRow, Kind, MemberRow, ObjectRow, TypeRow};
use std::alloc::{AllocError, Global};

/// A table Type.
fn type_row(place: &Place) -> TypeRow
    requires { IsAt place.now (Kind.Table 0) }
    ensures { IsTypeRow (seen place.now) result }
{
    TypeRow {
        base: byte_in(place, 0),
        element: byte_in(place, 1),
        index: int_in(place, 2, -1),
        fixed_length: ushort_in(place, 3),
    }
}

/// The type of a member; where it is absent, no base type.
fn union_type(place: &Place) -> TypeRow
    requires { IsAt place.now (Kind.Table 2) }
    ensures { IsTypeOrNone (after (seen place.now) (ToField 3)) result }
{
    match table_or_none(place, 3, 0) {
        Some(ty) => type_row(&ty),
        None => TypeRow {
            base: 0,
            element: 0,
            index: -1,
            fixed_length: 0,
        },
    }
}

/// The default of a field of this base type: of a Float or Double the bits of its real one, of others its integer.
fn default_in(place: &Place, base: i8) -> i64
    requires { IsAt place.now (Kind.Table 4) }
    ensures { IsDefault (seen place.now) (is_float base) result }
{
    if base == FLOAT || base == DOUBLE {
        double_in(place, 5).cast_signed()
    } else {
        long_in(place, 4)
    }
}

/// A table Field.
impl<'b> FromTable<'b> for FieldRow<'b> {
    ghost number = { 4 };

    ghost is_row = { λ D row. IsFieldRow D (field_of row) };

    ghost listed = { λ row. 0 };

    fn from_table(_alloc: Global, place: &Place<'_, 'b, '_, '_>) -> Result<Self, AllocError> {
        let type_place = go_to(place, 1, Kind::Table(0), 0);
        let ty = type_row(&type_place);
        Ok(FieldRow {
            name: text_in(place, 0),
            ty,
            slot: ushort_in(place, 3),
            default: default_in(place, ty.base),
            deprecated: bool_in(place, 6),
            required: bool_in(place, 7),
            optional: bool_in(place, 11),
            offset64: bool_in(place, 13),
        })
    }
}

/// A table Object.
impl<'b> FromTable<'b> for ObjectRow<'b> {
    ghost number = { 5 };

    ghost is_row = { λ D row. IsObjectRow D (object_of row) };

    ghost listed = { λ row. vec_len row.fields };

    fn from_table(alloc: Global, place: &Place<'_, 'b, '_, '_>) -> Result<Self, AllocError> {
        let fields = rows_in(alloc, place, 1, 4)?;
        Ok(ObjectRow {
            name: text_in(place, 0),
            fields,
            is_struct: bool_in(place, 2),
            minalign: int_in(place, 3, 0),
            bytesize: int_in(place, 4, 0),
        })
    }
}

/// A table EnumVal.
impl<'b> FromTable<'b> for MemberRow<'b> {
    ghost number = { 2 };

    ghost is_row = { λ D row. IsMemberRow D (member_of_row row) };

    ghost listed = { λ row. 0 };

    fn from_table(_alloc: Global, place: &Place<'_, 'b, '_, '_>) -> Result<Self, AllocError> {
        Ok(MemberRow {
            name: text_in(place, 0),
            value: long_in(place, 1),
            ty: union_type(place),
        })
    }
}

/// A table Enum.
impl<'b> FromTable<'b> for EnumRow<'b> {
    ghost number = { 3 };

    ghost is_row = { λ D row. IsEnumRow D (enum_of row) };

    ghost listed = { λ row. vec_len row.members };

    fn from_table(alloc: Global, place: &Place<'_, 'b, '_, '_>) -> Result<Self, AllocError> {
        let members = rows_in(alloc, place, 1, 2)?;
        Ok(EnumRow {
            name: text_in(place, 0),
            members,
            is_union: bool_in(place, 2),
        })
    }
}
