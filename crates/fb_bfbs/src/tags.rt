// The fields of a schema file, by what their attributes say.
#![tactic(auto, using(crate::proofs::FixedFields::always), unfolding(crate::proofs::FixedFields::computing))]

ghost use Rattle.std.specs.Prelude.{◌≡◌, map, option_map, codes, vec_len, if◌then◌else◌, None};
ghost use Rattle.fb_bfbs.specs.Marks.{IsTagged, AreTagged, value_of, held_by, held_of, told_by_flag};
ghost use Rattle.fb_bfbs.specs.Tags.{attribute_of, tagged_of, fields_of};

use crate::attributes::{AttributeRow, attributes_in, value_of};
use crate::lists::{FromTable, rows_in};
use crate::marks::{Builtins, Content, beside};
use crate::values::{bool_in, ushort_in};
use fb_access::Place;
use std::alloc::{AllocError, Global};

/// A field by what its attributes say: its slot, what its bytes hold, and what it tells of built-in attributes.
#[derive(Clone, Copy)]
pub struct TaggedRow<'b> {
    pub slot: u16,
    pub content: Option<Content<'b>>,
    pub builtins: Builtins,
}

/// An object by its fields.
#[derive(Drop)]
pub struct TaggedObject<'b> {
    pub fields: Vec<TaggedRow<'b>>,
}

/// What the bytes of a field with these attributes hold; of a deprecated one nothing is said.
fn content_of<'b>(deprecated: bool, attributes: &[AttributeRow<'b>]) -> Option<Content<'b>>
    ensures { let rows = map attribute_of attributes.now in
        option_map held_of result ≡ (if deprecated then None else held_by (value_of (codes "nested_flatbuffer") rows) (value_of (codes "flexbuffer") rows)) }
{
    if deprecated {
        return None;
    }
    if let Some(name) = value_of(attributes, b"nested_flatbuffer") {
        return Some(Content::Buffer(name));
    }
    match value_of(attributes, b"flexbuffer") {
        Some(_) => Some(Content::Flex),
        None => None,
    }
}

/// What a flag tells of the built-in attribute that sets it.
fn told_by_flag(flag: bool, key: &[u8], attributes: &[AttributeRow]) -> Builtins
    ensures { result ≡ told_by_flag flag key.now (map attribute_of attributes.now) }
{
    if !flag {
        return Builtins::Untold;
    }
    match value_of(attributes, key) {
        Some(_) => Builtins::Written,
        None => Builtins::LeftOut,
    }
}

/// A table Field.
impl<'b> FromTable<'b> for TaggedRow<'b> {
    ghost number = { 4 };

    ghost is_row = { λ D row. IsTagged D (tagged_of row) };

    ghost listed = { λ row. 0 };

    fn from_table(alloc: Global, place: &Place<'_, 'b, '_, '_>) -> Result<Self, AllocError> {
        let attributes = attributes_in(alloc, place)?;
        let attributes = attributes.as_slice();
        let deprecated = bool_in(place, 6);
        let required = told_by_flag(bool_in(place, 7), b"required", attributes);
        let old = told_by_flag(deprecated, b"deprecated", attributes);
        let key = told_by_flag(bool_in(place, 8), b"key", attributes);
        Ok(TaggedRow {
            slot: ushort_in(place, 3),
            content: content_of(deprecated, attributes),
            builtins: beside(required, beside(old, key)),
        })
    }
}

/// A table Object.
impl<'b> FromTable<'b> for TaggedObject<'b> {
    ghost number = { 5 };

    ghost is_row = { λ D row. AreTagged D (fields_of row) };

    ghost listed = { λ row. vec_len row.fields };

    fn from_table(alloc: Global, place: &Place<'_, 'b, '_, '_>) -> Result<Self, AllocError> {
        let fields = rows_in(alloc, place, 1, 4)?;
        Ok(TaggedObject { fields })
    }
}
