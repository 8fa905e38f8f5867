// The walk over the rows in the order of their demands.

ghost use Rattle.std.specs.Prelude.{◌≡◌, ◌<◌, ◌^◌, pos, not, ◌&&◌, map, length, IfOk};
ghost use Rattle.std.specs.Ordering.{int_eq, nat_cmp};
ghost use Rattle.fb_schema.specs.{Sorting.IsFirstAgain, Sorting.AreTypeSlots, Sorting.name_cmp, Sorting.field_name, Sorting.field_slot, Rows.field_of, Rows.member_of_row};
ghost use Rattle.fb_schema.specs.{declared.kinds.TypeField.TheVariants.ForUnion, declared.kinds.TypeField.TheVariants.ForUnions, FlatRows.borrowed_rows, Demands.is_at};
ghost use Rattle.fb_schema.specs.Demands.{IsFirstOf, struct_asked, table_asked, members_asked};

use crate::demands::{Beside, member_fault, object_fault, struct_field_fault, table_field_fault};
use crate::fault::Code;
use crate::flat::{ObjectPart, RowLists};
use crate::keys::again_of;
use crate::kinds::TypeField;
use crate::rows::{FieldRow, MemberRow};
use crate::type_fields::{stands_below, type_slots};
use std::alloc::{AllocError, Allocator};

/// The first demand that a part breaks, with the part's place. An error comes only where memory was refused.
pub type FirstFault = Result<Option<(Code, u32)>, AllocError>;

pub fn is_at(again: Option<u32>, place: usize) -> bool
    ensures { result ≡ is_at again place }
{
    match again {
        Some(first) => first as usize == place,
        None => false,
    }
}

/// The first demand that a field of a struct breaks, with the field's place.
pub fn struct_fields_fault<A: Allocator + Copy>(
    alloc: A,
    rows: &RowLists,
    object: &ObjectPart,
    fields: &[FieldRow],
) -> FirstFault
    requires { length fields.now < 2 ^ 31 }
    ensures { IfOk result (λ first. IsFirstOf (struct_asked (borrowed_rows rows.now) object.now.bytesize (map field_of fields.now)) first) }
{
    let again = again_of::<FieldRow, &[u8], A>(alloc, fields)?;
    for (p, field) in fields.iter().enumerate() {
        let named = is_at(again, p);
        if let Some(code) = struct_field_fault(rows, object, field, named) {
            return Ok(Some((code, p as u32)));
        }
    }
    Ok(None)
}

/// The first demand that a field of a table breaks, by what repeats among its fields and the slots of its type fields.
#[tactic(auto, using(crate::proofs::WalkLemmas::past_table))]
fn first_table_fault(
    rows: &RowLists,
    fields: &[FieldRow],
    name_again: Option<u32>,
    slot_again: Option<u32>,
    bytes: &[u16],
    vectors: &[u16],
) -> Option<(Code, u32)>
    requires few { length fields.now < 2 ^ 31 }
    requires names { IsFirstAgain name_cmp (map field_name fields.now) name_again }
    requires slots { IsFirstAgain nat_cmp (map field_slot fields.now) slot_again }
    requires bytes { AreTypeSlots ForUnion (map field_of fields.now) bytes.now }
    requires vectors { AreTypeSlots ForUnions (map field_of fields.now) vectors.now }
    ensures { IsFirstOf (table_asked (borrowed_rows rows.now) (map field_of fields.now)) result }
{
    for (p, field) in fields.iter().enumerate() {
        let beside = Beside {
            named: is_at(name_again, p),
            taken: is_at(slot_again, p),
            byte: stands_below(bytes, field.slot),
            vector: stands_below(vectors, field.slot),
        };
        if let Some(code) = table_field_fault(rows, field, &beside) {
            return Some((code, p as u32));
        }
    }
    None
}

/// The first demand that a field of a table breaks, with the field's place.
pub fn table_fields_fault<A: Allocator + Copy>(
    alloc: A,
    rows: &RowLists,
    fields: &[FieldRow],
) -> FirstFault
    requires { length fields.now < 2 ^ 31 }
    ensures { IfOk result (λ first. IsFirstOf (table_asked (borrowed_rows rows.now) (map field_of fields.now)) first) }
{
    let name_again = again_of::<FieldRow, &[u8], A>(alloc, fields)?;
    let slot_again = again_of::<FieldRow, u16, A>(alloc, fields)?;
    let bytes = type_slots(alloc, TypeField::ForUnion, fields)?;
    let vectors = type_slots(alloc, TypeField::ForUnions, fields)?;
    Ok(first_table_fault(rows, fields, name_again, slot_again, &bytes, &vectors))
}

/// Whether an earlier member has the name of this one, which isn't the union without a value.
fn is_named(member: &MemberRow, again: Option<u32>, place: usize) -> bool
    ensures { result ≡ (not (int_eq member.now.value (pos 0)) && is_at again place) }
{
    member.value != 0 && is_at(again, place)
}

/// The first demand that a member of a union breaks, with the member's place.
pub fn members_fault<A: Allocator + Copy>(
    alloc: A,
    rows: &RowLists,
    members: &[MemberRow],
) -> FirstFault
    requires { length members.now < 2 ^ 31 }
    ensures { IfOk result (λ first. IsFirstOf (members_asked (borrowed_rows rows.now) (map member_of_row members.now)) first) }
{
    let value_again = again_of::<MemberRow, i64, A>(alloc, members)?;
    let name_again = again_of::<MemberRow, (bool, &[u8]), A>(alloc, members)?;
    for (p, member) in members.iter().enumerate() {
        let taken = is_at(value_again, p);
        let named = is_named(member, name_again, p);
        if let Some(code) = member_fault(rows, member, taken, named) {
            return Ok(Some((code, p as u32)));
        }
    }
    Ok(None)
}
