// What is demanded of each row, asked in the order of the definition's lists.

ghost use Rattle.std.specs.Prelude.{◌≡◌, List};
ghost use Rattle.fb_schema.specs.{declared.rows.FieldRow.FieldRow, FlatRows.object_in, FlatRows.borrowed_rows, Rows.field_of, Rows.member_of_row, Kinds.shape_of};
ghost use Rattle.fb_schema.specs.Demands.{first_code, is_alignment, passes_end, lacks_type_field, object_demands, struct_field_demands, table_field_demands, member_demands};

use crate::fault::Code;
use crate::flat::{ObjectPart, RowLists};
use crate::kinds::{Element, Shape};
use crate::rows::{FieldRow, MemberRow};
use crate::types::{is_for_member, is_inline, is_supported, shape_of};

/// Whether a struct may have this alignment: a power of two from 1 to 256.
fn is_alignment(minalign: i32) -> bool
    ensures { result ≡ is_alignment minalign }
{
    match minalign {
        1 | 2 | 4 | 8 | 16 | 32 | 64 | 128 | 256 => true,
        _ => false,
    }
}

/// The code of the first demand that an object breaks before its list.
pub fn object_fault(object: &ObjectPart, named: bool) -> Option<Code>
    ensures { (fields : List FieldRow) → result ≡ first_code (object_demands (object_in fields object.now) named) }
{
    if named {
        Some(Code::NameTwice)
    } else if object.is_struct && (object.bytesize < 1 || !is_alignment(object.minalign)) {
        Some(Code::BadStruct)
    } else {
        None
    }
}

/// Whether a field ends past the end of its struct.
fn passes_end(rows: &RowLists, object: &ObjectPart, field: &FieldRow) -> bool
    ensures { result ≡ passes_end (borrowed_rows rows.now) object.now.bytesize (field_of field.now) }
{
    let room = i64::from(object.bytesize) - i64::from(field.slot);
    room < rows.inline_bytes(field.ty)
}

/// The code of the first demand that a field of a struct breaks.
pub fn struct_field_fault(
    rows: &RowLists,
    object: &ObjectPart,
    field: &FieldRow,
    named: bool,
) -> Option<Code>
    ensures { result ≡ first_code (struct_field_demands (borrowed_rows rows.now) object.now.bytesize (field_of field.now) named) }
{
    if named {
        Some(Code::NameTwice)
    } else if !is_inline(shape_of(field.ty)) {
        Some(Code::BadStruct)
    } else if rows.names_no_object(field.ty) {
        Some(Code::NoSuchObject)
    } else if rows.names_table(field.ty) {
        Some(Code::BadStruct)
    } else if passes_end(rows, object, field) {
        Some(Code::BadStruct)
    } else {
        None
    }
}

/// Whether a union lacks its type byte, or a vector of unions its vector of type bytes.
fn lacks_type_field(shape: Option<Shape>, byte: bool, vector: bool) -> bool
    ensures { result ≡ lacks_type_field shape byte vector }
{
    match shape {
        Some(Shape::One(Element::Union)) => !byte,
        Some(Shape::Vector(Element::Union)) => !vector,
        _ => false,
    }
}

/// What a field of a table is asked beside its own row: whether an earlier field has its name, or its slot, and whether
/// a type byte, or a vector of type bytes, stands in the slot two below.
#[derive(Clone, Copy)]
pub struct Beside {
    pub named: bool,
    pub taken: bool,
    pub byte: bool,
    pub vector: bool,
}

/// The code of the first demand that a field of a table breaks.
pub fn table_field_fault(rows: &RowLists, field: &FieldRow, beside: &Beside) -> Option<Code>
    ensures { result ≡ first_code (table_field_demands (borrowed_rows rows.now) (field_of field.now) beside.now.named beside.now.taken beside.now.byte beside.now.vector) }
{
    let slot = field.slot;
    if beside.named {
        Some(Code::NameTwice)
    } else if slot % 2 != 0 || slot < 4 || beside.taken {
        Some(Code::BadSlot)
    } else if field.deprecated {
        None
    } else if field.offset64 || !is_supported(shape_of(field.ty)) {
        Some(Code::Unsupported)
    } else if rows.names_no_object(field.ty) {
        Some(Code::NoSuchObject)
    } else if rows.names_no_union(field.ty) {
        Some(Code::NoSuchEnum)
    } else if lacks_type_field(shape_of(field.ty), beside.byte, beside.vector) {
        Some(Code::NoTypeField)
    } else {
        None
    }
}

/// The code of the first demand that a union's member breaks, where an earlier one has its value or not, and its name
/// or not.
pub fn member_fault(rows: &RowLists, member: &MemberRow, taken: bool, named: bool) -> Option<Code>
    ensures { result ≡ first_code (member_demands (borrowed_rows rows.now) (member_of_row member.now) taken named) }
{
    if member.value < 0 || member.value > 255 || taken {
        Some(Code::BadMember)
    } else if named {
        Some(Code::NameTwice)
    } else if member.value == 0 {
        None
    } else if !is_for_member(shape_of(member.ty)) {
        Some(Code::BadMember)
    } else if rows.names_no_object(member.ty) {
        Some(Code::NoSuchObject)
    } else {
        None
    }
}
