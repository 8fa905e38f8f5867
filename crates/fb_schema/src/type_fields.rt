// The type fields of a table, by whose slots unions are found to have one.

ghost use Rattle.std.specs.Prelude.{◌≡◌, List, map, IfOk};
ghost use Rattle.fb_schema.specs.{Rows.Field, Rows.field_of, Demands.stands_below, Sorting.AreTypeSlots, declared.kinds.TypeField.TypeField};

use crate::kinds::TypeField;
use crate::rows::FieldRow;
use crate::types::{is_type_field, shape_of};
use std::alloc::{AllocError, Allocator};

/// The slots of the live type fields, in order.
pub fn type_slots<A: Allocator>(
    alloc: A,
    wanted: TypeField,
    fields: &[FieldRow],
) -> Result<Vec<u16, A>, AllocError>
    ensures { IfOk result (λ slots. AreTypeSlots wanted (map field_of fields.now) slots.items) }
{
    let mut slots = Vec::new(alloc);
    for field in fields {
        if !field.deprecated && is_type_field(wanted, shape_of(field.ty)) {
            slots.push(field.slot)?;
        }
    }
    slots.sort_unstable();
    Ok(slots)
}

/// Whether a live type field has the slot two below.
pub fn stands_below(slots: &[u16], slot: u16) -> bool
    ensures { (wanted : TypeField) (fields : List Field) → AreTypeSlots wanted fields slots.now → result ≡ stands_below wanted fields slot }
{
    slot >= 2 && slots.binary_search(&(slot - 2)).is_ok()
}
