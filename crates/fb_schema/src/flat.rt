// The rows of a schema, flat: all fields of all objects in one vector, and all members of all enums in another.

ghost use Rattle.std.specs.Prelude.{◌≡◌, ◌<◌, ◌^◌, ℕ, List, [], map, length, IfOk, OnOk, All, vec_len, slice_get, Some};
ghost use Rattle.fb_schema.specs.{declared.flat.EnumPart.EnumPart, Parts.parts_of, Flat.part, Flat.IsPart, Rows.AreFew, Rows.Object, Rows.Enum, Rows.field_of, Rows.object_of};
ghost use Rattle.fb_schema.specs.{Rows.enum_of, Rows.rows_of, FlatRows.object_with, FlatRows.enum_with, FlatRows.flat_rows, FlatRows.AreParts};

use crate::rows::{EnumRow, FieldRow, MemberRow, ObjectRow};
use std::alloc::{AllocError, Allocator};

/// An object, with the range of its fields among those of all objects.
#[derive(Clone, Copy)]
pub struct ObjectPart<'n> {
    pub name: &'n [u8],
    pub fields: (usize, usize),
    pub is_struct: bool,
    pub minalign: i32,
    pub bytesize: i32,
}

/// An enum, with the range of its members among those of all enums.
#[derive(Clone, Copy)]
pub struct EnumPart<'n> {
    pub name: &'n [u8],
    pub members: (usize, usize),
    pub is_union: bool,
}

/// The rows of a schema.
#[derive(Drop)]
pub struct FlatRows<'n, A: Allocator> {
    pub objects: Vec<ObjectPart<'n>, A>,
    pub fields: Vec<FieldRow<'n>, A>,
    pub enums: Vec<EnumPart<'n>, A>,
    pub members: Vec<MemberRow<'n>, A>,
}

/// The same, lent.
#[derive(Clone, Copy)]
pub struct RowLists<'r, 'n> {
    pub objects: &'r [ObjectPart<'n>],
    pub fields: &'r [FieldRow<'n>],
    pub enums: &'r [EnumPart<'n>],
    pub members: &'r [MemberRow<'n>],
}

/// The rows in a range.
pub fn part<T>(rows: &[T], range: (usize, usize)) -> &[T]
    requires { IsPart (length rows.now) range }
    ensures value { result.now ≡ part rows.now range }
    ensures few { length result.now < 2 ^ 31 }
{
    let (start, end) = range;
    &rows[start..end]
}

/// A row that owns others, and what is kept of it where those stand flat: a part, with a range in their place.
pub trait Owner {
    type Row: Copy;

    type Part: Copy;

    ghost Whole: { Type 0 };

    ghost whole: { Self → Whole };

    ghost rows_of: { Self → List Self.Row };

    ghost count: { Self → ℕ };

    ghost range_of: { Self.Part → ℕ × ℕ };

    ghost with_rows: { Self.Part → List Self.Row → Whole };

    /// The rows that it owns.
    fn rows(&self) -> &[Self::Row]
        ensures value { result.now ≡ rows_of self.now }
        ensures count { length result.now ≡ count self.now };

    /// The part with this range.
    fn part(&self, range: (usize, usize)) -> Self::Part
        ensures range { range_of result ≡ range }
        ensures same { with_rows result (rows_of self.now) ≡ whole self.now };
}

impl<'n> Owner for ObjectRow<'n> {
    type Row = FieldRow<'n>;

    type Part = ObjectPart<'n>;

    ghost Whole = { Object };

    ghost whole = { object_of };

    ghost rows_of = { λ o. o.fields.items };

    ghost count = { λ o. vec_len o.fields };

    ghost range_of = { λ p. p.fields };

    ghost with_rows = { object_with };

    fn rows(&self) -> &[FieldRow<'n>] {
        &self.fields
    }

    fn part(&self, range: (usize, usize)) -> ObjectPart<'n> {
        ObjectPart {
            name: self.name,
            fields: range,
            is_struct: self.is_struct,
            minalign: self.minalign,
            bytesize: self.bytesize,
        }
    }
}

impl<'n> Owner for EnumRow<'n> {
    type Row = MemberRow<'n>;

    type Part = EnumPart<'n>;

    ghost Whole = { Enum };

    ghost whole = { enum_of };

    ghost rows_of = { λ e. e.members.items };

    ghost count = { λ e. vec_len e.members };

    ghost range_of = { λ p. p.members };

    ghost with_rows = { enum_with };

    fn rows(&self) -> &[MemberRow<'n>] {
        &self.members
    }

    fn part(&self, range: (usize, usize)) -> EnumPart<'n> {
        EnumPart {
            name: self.name,
            members: range,
            is_union: self.is_union,
        }
    }
}

/// How many rows these own: the room that is asked for them.
fn count_rows<O: Owner>(owners: &[O]) -> usize {
    let mut count: usize = 0;
    for owner in owners {
        count = count.saturating_add(owner.rows().len());
    }
    count
}

/// Puts the parts of these owners, and their rows one after another, where none are yet.
fn put<O: Owner, A: Allocator>(
    owners: &[O],
    parts: &mut Vec<O::Part, A>,
    rows: &mut Vec<O::Row, A>,
) -> Result<(), AllocError>
    requires few { All (λ o. O.count o < 2 ^ 31) owners.now }
    requires none { parts.old.items ≡ [] }
    ensures value { OnOk result (map (λ p. O.with_rows p (part rows.new.items (O.range_of p))) parts.new.items ≡ map O.whole owners.now) }
    ensures parts { OnOk result (All (λ p. IsPart (length rows.new.items) (O.range_of p)) parts.new.items) }
{
    parts.reserve_exact(owners.len())?;
    rows.reserve_exact(count_rows(owners))?;
    for owner in owners {
        let start = rows.len();
        rows.extend_from_slice(owner.rows())?;
        parts.push(owner.part((start, rows.len())))?;
    }
    Ok(())
}

impl<'n, A: Allocator + Copy> FlatRows<'n, A> {
    /// These rows, which are dropped once they stand flat.
    pub fn new(
        alloc: A,
        objects: Vec<ObjectRow<'n>>,
        enums: Vec<EnumRow<'n>>,
    ) -> Result<FlatRows<'n, A>, AllocError>
        requires { AreFew objects.items enums.items }
        ensures value { IfOk result (λ flat. flat_rows flat ≡ rows_of objects.entry.items enums.entry.items) }
        ensures parts { IfOk result (λ flat. AreParts flat.objects.items flat.fields.items flat.enums.items flat.members.items) }
    {
        let mut flat = FlatRows {
            objects: Vec::new(alloc),
            fields: Vec::new(alloc),
            enums: Vec::new(alloc),
            members: Vec::new(alloc),
        };
        flat.put(&objects, &enums)?;
        Ok(flat)
    }

    /// Puts these rows where none are yet.
    fn put(&mut self, objects: &[ObjectRow<'n>], enums: &[EnumRow<'n>]) -> Result<(), AllocError>
        requires few { AreFew objects.now enums.now }
        requires no_objects { self.old.objects.items ≡ [] }
        requires no_enums { self.old.enums.items ≡ [] }
        ensures value { OnOk result (flat_rows self.new ≡ rows_of objects.now enums.now) }
        ensures parts { OnOk result (AreParts self.new.objects.items self.new.fields.items self.new.enums.items self.new.members.items) }
    {
        put(objects, &mut self.objects, &mut self.fields)?;
        put(enums, &mut self.enums, &mut self.members)
    }

    /// The fields of the struct with this number, none where it is no struct.
    pub fn parts_of(&self, k: usize) -> &[FieldRow<'n>]
        requires parts { All (λ o. IsPart (length self.now.fields.items) o.fields) self.now.objects.items }
        ensures value { map field_of result.now ≡ parts_of (flat_rows self.now) k }
        ensures few { length result.now < 2 ^ 31 }
    {
        let range = match self.objects.get(k) {
            Some(object) if object.is_struct => object.fields,
            _ => (0, 0),
        };
        part(&self.fields, range)
    }

    /// The members of the enum with this number.
    pub fn members_at(&self, e: usize) -> &[MemberRow<'n>]
        requires here { e < length self.now.enums.items }
        requires parts { All (λ e. IsPart (length self.now.members.items) e.members) self.now.enums.items }
        ensures { (row : EnumPart) → slice_get self.now.enums.items e ≡ Some row → result.now ≡ part self.now.members.items row.members }
    {
        part(&self.members, self.enums[e].members)
    }

    /// These rows, lent.
    pub fn lists(&self) -> RowLists<'_, 'n>
        ensures objects { result.objects.now ≡ self.now.objects.items }
        ensures fields { result.fields.now ≡ self.now.fields.items }
        ensures enums { result.enums.now ≡ self.now.enums.items }
        ensures members { result.members.now ≡ self.now.members.items }
    {
        RowLists {
            objects: &self.objects,
            fields: &self.fields,
            enums: &self.enums,
            members: &self.members,
        }
    }
}
