// Rows are refused by the first demand that they break.

ghost use Rattle.std.specs.Prelude.{◌≡◌, ◌<◌, ◌^◌, map, length, IfOk, OnOk, IfErr, All};
ghost use Rattle.fb_schema.specs.{Sorting.IsOrderOf, Sorting.IsFirstAgain, Sorting.name_cmp, Sorting.object_name, Flat.IsPart, FlatRows.object_in, FlatRows.enum_in};
ghost use Rattle.fb_schema.specs.{FlatRows.borrowed_rows, FlatRows.AreParts, Demands.IsLegal, Demands.AreClear, Demands.Refuses, Demands.IsFirstOf, Demands.demands_of_field};
ghost use Rattle.fb_schema.specs.Demands.{demands_of_union};

use crate::demands::object_fault;
use crate::fault::{Code, SchemaFault};
use crate::first_fault::{
    FirstFault, is_at, members_fault, struct_fields_fault, table_fields_fault,
};
use crate::flat::{EnumPart, ObjectPart, RowLists, part};
use crate::sorting::first_again;
use std::alloc::Allocator;

/// The first demand that a field of an object breaks, with the field's place.
fn fields_fault<A: Allocator + Copy>(alloc: A, rows: &RowLists, object: &ObjectPart) -> FirstFault
    requires { IsPart (length rows.now.fields.now) object.now.fields }
    ensures { IfOk result (λ first. IsFirstOf (demands_of_field (borrowed_rows rows.now) (object_in rows.now.fields.now object.now)) first) }
{
    let fields = part(rows.fields, object.fields);
    if object.is_struct {
        struct_fields_fault(alloc, rows, object, fields)
    } else {
        table_fields_fault(alloc, rows, fields)
    }
}

/// The first demand that a member of an enum breaks, with the member's place. An enum that is no union is asked
/// nothing.
fn union_fault<A: Allocator + Copy>(alloc: A, rows: &RowLists, row: &EnumPart) -> FirstFault
    requires { IsPart (length rows.now.members.now) row.now.members }
    ensures { IfOk result (λ first. IsFirstOf (demands_of_union (borrowed_rows rows.now) (enum_in rows.now.members.now row.now)) first) }
{
    if row.is_union {
        members_fault(alloc, rows, part(rows.members, row.members))
    } else {
        Ok(None)
    }
}

/// The fault of the owner of this number, or of a part of it.
fn fault_of(code: Code, owner: usize, part: Option<u32>) -> SchemaFault
    requires { owner < 2 ^ 31 }
    ensures { result ≡ record { code = code; owner = owner; part = part } }
{
    SchemaFault {
        code,
        owner: owner as u32,
        part,
    }
}

/// Refuses objects by the first demand that one of them breaks. `again` is the first object whose name stood before.
fn objects_legal<A: Allocator + Copy>(
    alloc: A,
    rows: &RowLists,
    again: Option<u32>,
) -> Result<(), SchemaFault>
    requires few { length rows.now.objects.now < 2 ^ 31 }
    requires parts { All (λ o. IsPart (length rows.now.fields.now) o.fields) rows.now.objects.now }
    requires again { IsFirstAgain name_cmp (map object_name rows.now.objects.now) again }
    ensures clear { OnOk result (AreClear (borrowed_rows rows.now) 0) }
    ensures refused { IfErr result (Refuses (borrowed_rows rows.now)) }
{
    for (n, object) in rows.objects.iter().enumerate() {
        if let Some(code) = object_fault(object, is_at(again, n)) {
            return Err(fault_of(code, n, None));
        }
        let fault = fields_fault(alloc, rows, object)?;
        if let Some((code, p)) = fault {
            return Err(fault_of(code, n, Some(p)));
        }
    }
    Ok(())
}

/// Refuses unions by the first demand that one of their members breaks.
fn unions_legal<A: Allocator + Copy>(alloc: A, rows: &RowLists) -> Result<(), SchemaFault>
    requires few { length rows.now.enums.now < 2 ^ 31 }
    requires parts { All (λ e. IsPart (length rows.now.members.now) e.members) rows.now.enums.now }
    requires objects { AreClear (borrowed_rows rows.now) 0 }
    ensures clear { OnOk result (AreClear (borrowed_rows rows.now) 1) }
    ensures refused { IfErr result (Refuses (borrowed_rows rows.now)) }
{
    for (n, row) in rows.enums.iter().enumerate() {
        let fault = union_fault(alloc, rows, row)?;
        if let Some((code, p)) = fault {
            return Err(fault_of(code, n, Some(p)));
        }
    }
    Ok(())
}

/// Refuses rows by the first demand that they break. The order is that of the objects' names.
pub fn legal<A: Allocator + Copy>(
    alloc: A,
    rows: &RowLists,
    order: &[(&[u8], u32)],
) -> Result<(), SchemaFault>
    requires parts { AreParts rows.now.objects.now rows.now.fields.now rows.now.enums.now rows.now.members.now }
    requires order { IsOrderOf name_cmp (map object_name rows.now.objects.now) order.now }
    ensures legal { OnOk result (IsLegal (borrowed_rows rows.now)) }
    ensures refused { IfErr result (Refuses (borrowed_rows rows.now)) }
{
    objects_legal(alloc, rows, first_again(order))?;
    unions_legal(alloc, rows)
}
