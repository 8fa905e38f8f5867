// The live fields of tables in rising slot.

ghost use Rattle.std.specs.Prelude.{◌≡◌, ◌<◌, ◌^◌, ◌+◌, ◌==◌, filter, map, filter_map, position, length, IfOk, false, ◌≤◌};
ghost use Rattle.fb_schema.specs.{Rows.field_of, Flat.part, Flat.IsPart, FlatRows.object_in, FlatRows.borrowed_rows};
ghost use Rattle.fb_schema.specs.Live.{is_live, by_slot, live_as, live_of, live_of_view, live_in, AreApart, AreRising, AreKinded, AreSpaced};

use crate::flat::{ObjectPart, RowLists, part};
use crate::kinds::Kind;
use crate::rows::FieldRow;
use crate::views::FieldView;
use std::alloc::{AllocError, Allocator};

fn slot_of(field: &FieldRow) -> u16
    ensures { result ≡ field.now.slot }
{
    field.slot
}

/// The rows of live fields in rising slot.
fn live_rows<'n, A: Allocator>(
    alloc: A,
    fields: &[FieldRow<'n>],
) -> Result<Vec<FieldRow<'n>, A>, AllocError>
    requires { AreApart (map field_of fields.now) }
    ensures value { IfOk result (λ live. map field_of live.items ≡ by_slot (filter is_live (map field_of fields.now))) }
    ensures rising { IfOk result (λ live. AreRising live.items) }
    ensures fewer { IfOk result (λ live. length live.items ≤ length fields.now) }
{
    let mut live = Vec::new(alloc);
    for field in fields {
        if !field.deprecated {
            live.push(*field)?;
        }
    }
    live.sort_unstable_by_key(slot_of);
    Ok(live)
}

/// The place of the field in the slot two below.
fn place_below(live: &[FieldRow], slot: u16) -> Option<u32>
    requires few { length live.now < 2 ^ 31 }
    requires rising { AreRising live.now }
    ensures { result ≡ position (λ g. g.slot + 2 == slot) (map field_of live.now) }
{
    if slot < 2 {
        return None;
    }
    match live.binary_search_by_key(&(slot - 2), slot_of) {
        Ok(at) => Some(at as u32),
        Err(_) => None,
    }
}

/// A field of this kind among the live fields of its table.
fn view_of<'n>(
    rows: &RowLists,
    live: &[FieldRow<'n>],
    field: &FieldRow<'n>,
    kind: Kind,
) -> FieldView<'n>
    requires few { length live.now < 2 ^ 31 }
    requires rising { AreRising live.now }
    ensures value { live_of_view result ≡ live_as (borrowed_rows rows.now) (map field_of live.now) (field_of field.now) kind }
    ensures slot { field.now.slot < 2 ^ 16 }
{
    let layout = rows.layout_of(kind);
    FieldView {
        number: field.slot.saturating_sub(4) / 2,
        slot: field.slot,
        name: field.name,
        kind,
        default: field.default,
        required: field.required,
        optional: field.optional,
        size: layout.size,
        align: layout.align,
        companion: match kind {
            Kind::Union(_) | Kind::Unions(_) => place_below(live, field.slot),
            _ => None,
        },
    }
}

/// The views of the live fields of a table.
fn views<'n, A: Allocator>(
    alloc: A,
    rows: &RowLists,
    live: &[FieldRow<'n>],
) -> Result<Vec<FieldView<'n>, A>, AllocError>
    requires few { length live.now < 2 ^ 31 }
    requires rising { AreRising live.now }
    requires kinds { AreKinded (borrowed_rows rows.now) (map field_of live.now) }
    requires spaced { AreSpaced (map field_of live.now) }
    ensures value { IfOk result (λ views. map live_of_view views.items ≡ filter_map (live_of (borrowed_rows rows.now) (map field_of live.now)) (map field_of live.now)) }
    ensures few { IfOk result (λ views. length views.items ≤ 32766) }
{
    let mut views = Vec::new(alloc);
    for field in live {
        let kind = rows.kind_of(field.ty).unwrap();
        views.push(view_of(rows, live, field, kind))?;
    }
    Ok(views)
}

/// The live fields of an object, none where it is a struct.
pub fn table_views<'n, A: Allocator + Copy>(
    alloc: A,
    rows: &RowLists<'_, 'n>,
    object: &ObjectPart<'n>,
) -> Result<Vec<FieldView<'n>, A>, AllocError>
    requires part { IsPart (length rows.now.fields.now) object.now.fields }
    requires apart { object.now.is_struct ≡ false → AreApart (map field_of (part rows.now.fields.now object.now.fields)) }
    requires kinds { object.now.is_struct ≡ false → AreKinded (borrowed_rows rows.now) (by_slot (filter is_live (map field_of (part rows.now.fields.now object.now.fields)))) }
    requires spaced { object.now.is_struct ≡ false → AreSpaced (by_slot (filter is_live (map field_of (part rows.now.fields.now object.now.fields)))) }
    ensures value { IfOk result (λ views. map live_of_view views.items ≡ live_in (borrowed_rows rows.now) (Some (object_in rows.now.fields.now object.now))) }
    // A slot is a number of 16 bits.
    ensures few { IfOk result (λ views. length views.items ≤ 32766) }
{
    if object.is_struct {
        return Ok(Vec::new(alloc));
    }
    let live = live_rows(alloc, part(rows.fields, object.fields))?;
    views(alloc, rows, &live)
}
