// The attributes of a field.
#![tactic(auto, using(crate::proofs::FixedFields::always, crate::proofs::FixedFields::maybe), unfolding(crate::proofs::FixedFields::computing))]

ghost use Rattle.std.specs.Prelude.{◌≡◌, map, option_map, IfOk};
ghost use Rattle.fb_access.specs.declared.step.Step.TheVariants.{Field as ToField};
ghost use Rattle.fb_bfbs.specs.{Says.after, Seen.seen, Seen.IsAt, Seen.MayHaveField, Marks.IsTextOrEmpty, Marks.IsAttribute, Marks.AreAttributes, Marks.value_of};
ghost use Rattle.fb_bfbs.specs.Tags.{attribute_of};

use crate::lists::{FromTable, rows_at};
use crate::values::{tables_or_none, text_or_none};
use fb_access::Place;
use fb_schema::Kind;
use std::alloc::{AllocError, Global};

/// An attribute: its key and its value, of no bytes where they are absent.
#[derive(Clone, Copy)]
pub struct AttributeRow<'b> {
    pub key: &'b [u8],
    pub value: &'b [u8],
}

/// A text, of no bytes where it is absent.
fn text_or_empty<'b>(place: &Place<'_, 'b, '_, '_>, number: u16) -> &'b [u8]
    requires { MayHaveField place.now number Kind.Text }
    ensures { IsTextOrEmpty (after (seen place.now) (ToField number)) result.now }
{
    match text_or_none(place, number) {
        Some(text) => text,
        None => b"",
    }
}

/// A table KeyValue.
impl<'b> FromTable<'b> for AttributeRow<'b> {
    ghost number = { 1 };

    ghost is_row = { λ D row. IsAttribute D (attribute_of row) };

    ghost listed = { λ row. 0 };

    fn from_table(_alloc: Global, place: &Place<'_, 'b, '_, '_>) -> Result<Self, AllocError> {
        Ok(AttributeRow {
            key: text_or_empty(place, 0),
            value: text_or_empty(place, 1),
        })
    }
}

/// The attributes of a field.
pub fn attributes_in<'b>(
    alloc: Global,
    place: &Place<'_, 'b, '_, '_>,
) -> Result<Vec<AttributeRow<'b>>, AllocError>
    requires { IsAt place.now (Kind.Table 4) }
    ensures { IfOk result (λ v. AreAttributes (after (seen place.now) (ToField 9)) (map attribute_of v.items)) }
{
    match tables_or_none(place, 9, 1) {
        Some(list) => {
            let rows = rows_at(alloc, &list)?;
            Ok(rows)
        }
        None => Ok(Vec::new(alloc)),
    }
}

/// The value of the first attribute with this key.
pub fn value_of<'b>(attributes: &[AttributeRow<'b>], key: &[u8]) -> Option<&'b [u8]>
    ensures { option_map (λ s. s.now) result ≡ value_of key.now (map attribute_of attributes.now) }
{
    for attribute in attributes {
        if attribute.key == key {
            return Some(attribute.value);
        }
    }
    None
}
