// Fields of bytes, and whether a schema file says what each of them holds.

ghost use Rattle.std.specs.Prelude.{ℕ, IfNone, IfOk, IfSome, IsSorted, ◌≡◌, map};
ghost use Rattle.fb_schema.specs.Live.{Live, live_of_view};
ghost use Rattle.fb_bfbs.specs.{Marks.marked, ByteFields.IsField, ByteFields.IsUnmarked, ByteFields.are_written, ByteFields.is_at, ByteFields.is_bytes, MarkedSlots.AreSlots};
ghost use Rattle.fb_bfbs.specs.MarkedSlots.{has_slot, is_slotless, slot_cmp};

use crate::marks::{Builtins, Mark, Marks};
use fb_schema::{FieldView, Kind, Scalar, Schema};
use std::alloc::{AllocError, Global};

/// A live field of a table that is a vector of `ubyte`, with the number of the table.
#[derive(Clone, Copy)]
pub struct ByteField<'n> {
    pub table: u32,
    pub field: FieldView<'n>,
}

/// Whether a field of this kind is of bytes.
fn is_bytes(kind: Kind) -> bool
    ensures { result ≡ is_bytes kind }
{
    matches!(kind, Kind::Scalars(Scalar::UByte))
}

/// Whether a file shows that built-in attributes were written.
fn are_written(builtins: Builtins) -> bool
    ensures { result ≡ are_written builtins }
{
    matches!(builtins, Builtins::Written)
}

/// The slot of a field.
fn slot_of(field: &FieldView) -> u16
    ensures { result ≡ field.now.slot }
{
    field.slot
}

/// The field of bytes in this slot of a table.
pub fn bytes_at<'n>(schema: &Schema<'n>, table: u32, slot: u16) -> Option<ByteField<'n>>
    ensures some { IfSome result (λ b. IsField schema.now table (is_at slot) (live_of_view b.field) × (b.table ≡ table)) }
    ensures none { IfNone result ((f : Live) → IsField schema.now table (is_at slot) f → ⊥) }
{
    schema.lawful();
    if !schema.is_table(table) {
        return None;
    }
    let fields = schema.fields_of(table);
    let Ok(place) = fields.binary_search_by_key(&slot, slot_of) else {
        return None;
    };
    let field = schema.field_at(table, place as u32);
    if !is_bytes(field.kind) {
        return None;
    }
    Some(ByteField { table, field })
}

/// The slots of marks, each behind the number of its object, in order.
fn slots_of(alloc: Global, marks: &[Mark<'_>]) -> Result<Vec<(u32, u16)>, AllocError>
    ensures { IfOk result (λ slots. AreSlots (map marked marks.now) slots.items) }
{
    let mut slots = Vec::new(alloc);
    for mark in marks {
        slots.push((mark.object, mark.slot))?;
    }
    slots.sort_unstable();
    Ok(slots)
}

/// Whether one of these slots, which are in order, is this one of an object.
fn has_slot(slots: &[(u32, u16)], object: u32, slot: u16) -> bool
    requires { IsSorted slot_cmp slots.now }
    ensures { result ≡ has_slot slots.now object slot }
{
    slots.binary_search(&(object, slot)).is_ok()
}

/// Whether a live field of a table is of bytes and has none of these slots, which are in order.
fn is_slotless(slots: &[(u32, u16)], table: u32, field: &FieldView<'_>) -> bool
    requires { IsSorted slot_cmp slots.now }
    ensures { result ≡ is_slotless slots.now table (live_of_view field.now) }
{
    is_bytes(field.kind) && !has_slot(slots, table, field.slot)
}

/// The first such field of an object, none where it is a struct.
fn slotless_in<'n>(schema: &Schema<'n>, slots: &[(u32, u16)], object: u32) -> Option<ByteField<'n>>
    requires { IsSorted slot_cmp slots.now }
    ensures some { IfSome result (λ b. IsField schema.now b.table (is_slotless slots.now b.table) (live_of_view b.field)) }
    ensures none { IfNone result ((f : Live) → IsField schema.now object (is_slotless slots.now object) f → ⊥) }
{
    if !schema.is_table(object) {
        return None;
    }
    for place in 0..schema.field_count(object) {
        let field = schema.field_at(object, place);
        if is_slotless(slots, object, &field) {
            return Some(ByteField {
                table: object,
                field,
            });
        }
    }
    None
}

/// The first such field of all tables.
fn find_slotless<'n>(schema: &Schema<'n>, slots: &[(u32, u16)]) -> Option<ByteField<'n>>
    requires { IsSorted slot_cmp slots.now }
    ensures some { IfSome result (λ b. IsField schema.now b.table (is_slotless slots.now b.table) (live_of_view b.field)) }
    ensures none { IfNone result ((object : ℕ) (f : Live) → IsField schema.now object (is_slotless slots.now object) f → ⊥) }
{
    for object in 0..schema.object_count() {
        if let Some(found) = slotless_in(schema, slots, object) {
            return Some(found);
        }
    }
    None
}

/// A field of bytes without a mark, of which the schema file doesn't show that it would have one. Where there is none,
/// the marks say what each field of bytes holds.
///
/// A mark of another field shows nothing: where a schema declares the attributes of one kind itself, `flatc` writes
/// these and leaves those of the other kind out.
///
/// # Errors
///
/// Memory was refused.
pub fn find_unmarked<'n>(
    alloc: Global,
    schema: &Schema<'n>,
    marks: &Marks<'_>,
) -> Result<Option<ByteField<'n>>, AllocError>
    ensures { IfOk result (IsUnmarked schema.now (map marked marks.now.fields.items) marks.now.builtins) }
{
    if are_written(marks.builtins) {
        return Ok(None);
    }
    let slots = slots_of(alloc, marks.fields.as_slice())?;
    Ok(find_slotless(schema, &slots))
}
