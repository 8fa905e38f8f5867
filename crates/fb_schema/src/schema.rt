// A legal schema.

ghost use Rattle.std.specs.Prelude.{◌≡◌, ◌<◌, map, length, IfOk, OnOk, IfErr, IfSome, IsTrue, option_map, slice_get, Some};
ghost use Rattle.std.specs.Prelude.{position, ℕ, ◌≤◌, ◌^◌, find, pos};
ghost use Rattle.std.specs.{Ordering.int_eq, Str.bytes_eq};
ghost use Rattle.fb_schema.specs.{declared.rows.FieldRow.FieldRow, Rows.AreFew, Rows.rows_of, Rows.is_table, Rows.is_union, Rows.table_named, Rows.field_of, Rows.member_of_row};
ghost use Rattle.fb_schema.specs.{Heads.head_of, Heads.head_of_view, Members.member_of, Members.member_named, Members.member_name, Demands.IsLegal, Demands.Refuses, Parts.part_at};
ghost use Rattle.fb_schema.specs.{Parts.part_named, Parts.parts_of, Served.IsServed, Served.HaveKinds, Steps.is_plain, Steps.is_small, Steps.step_of, Steps.chain_of, Targets.target_at, Targets.target_of};
ghost use Rattle.fb_schema.specs.Live.{live_fields, live_of_view, field_named, next_required, widest};

use crate::fault::SchemaFault;
use crate::flat::FlatRows;
use crate::index::Index;
use crate::kinds::Kind;
use crate::rows::{EnumRow, FieldRow, MemberRow, ObjectRow};
use crate::sorting::place_of;
use crate::targets::Targets;
use crate::views::{FieldView, ObjectView, PartView, Step};
use std::alloc::{Allocator, Global};
use std::marker::Model;

/// Rows that are legal, with an index by which look-ups answer. Contracts see the rows that were handed in.
///
/// Both are in the memory of the allocator which `build` was given.
#[derive(Drop)]
pub struct Schema<'n, A: Allocator = Global> {
    rows: FlatRows<'n, A>,
    index: Index<'n, A>,
}

impl<'n, A: Allocator> Model for Schema<'n, A> {
    ghost use Rattle.fb_schema.specs.Rows.{Rows};
    ghost use Rattle.fb_schema.specs.FlatRows.{flat_rows};
    ghost use Rattle.fb_schema.specs.Indexed.{IsIndexed};

    ghost Value = { Rows };

    ghost view = { λ s. flat_rows s.rows };

    ghost invariant = { λ s. IsIndexed s.rows s.index };
}

impl<'n, A: Allocator + Copy> Schema<'n, A> {
    /// Takes rows that are legal, and refuses others by the first demand that they break (C1 to C8). C9 is answered
    /// only where a growth was refused. What was handed in is dropped once it stands flat.
    pub fn build(
        alloc: A,
        objects: Vec<ObjectRow<'n>>,
        enums: Vec<EnumRow<'n>>,
    ) -> Result<Schema<'n, A>, SchemaFault>
        requires { AreFew objects.items enums.items }
        ensures legal { OnOk result (IsLegal (rows_of objects.entry.items enums.entry.items)) }
        ensures rows { IfOk result (λ s. s ≡ rows_of objects.entry.items enums.entry.items) }
        ensures refused { IfErr result (Refuses (rows_of objects.entry.items enums.entry.items)) }
    {
        let rows = FlatRows::new(alloc, objects, enums)?;
        let index = Index::of(alloc, &rows.lists())?;
        Ok(Schema { rows, index })
    }

    /// The rows of a schema are legal, and serve a reader of buffers: each live field has a kind, what kinds name is
    /// there, a union's type field stands before it, and the fields of a struct lie in it. The call does nothing: its
    /// contract is what it is for.
    pub fn lawful(&self)
        ensures legal { IsLegal self.now }
        ensures served { IsServed self.now }
        ensures kinds { HaveKinds self.now }
    {
        let _rows = &self.rows;
    }

    /// How many objects there are.
    pub fn object_count(&self) -> u32
        ensures { result ≡ length self.now.objects }
    {
        self.rows.objects.len() as u32
    }

    /// Whether the object of this number is a table.
    pub fn is_table(&self, n: u32) -> bool
        ensures { result ≡ is_table self.now n }
    {
        match self.rows.objects.get(n as usize) {
            Some(object) => !object.is_struct,
            None => false,
        }
    }

    /// Whether the enum of this number is a union.
    pub fn is_union(&self, e: u32) -> bool
        ensures { result ≡ is_union self.now e }
    {
        match self.rows.enums.get(e as usize) {
            Some(row) => row.is_union,
            None => false,
        }
    }

    /// An object without its fields.
    pub fn object(&self, n: u32) -> ObjectView<'n>
        requires { n < length self.now.objects }
        ensures { option_map head_of (slice_get self.now.objects n) ≡ Some (head_of_view result) }
    {
        let object = &self.rows.objects[n as usize];
        ObjectView {
            name: object.name,
            is_struct: object.is_struct,
            minalign: object.minalign,
            bytesize: object.bytesize,
        }
    }

    /// The live fields of a table in rising slot.
    pub fn fields_of(&self, n: u32) -> &[FieldView<'n>]
        requires { IsTrue (is_table self.now n) }
        ensures value { map live_of_view result.now ≡ live_fields self.now n }
        ensures within { length result.now ≤ widest self.now }
        ensures few { length result.now < 2 ^ 32 }
    {
        self.index.live.fields.get(n as usize)
    }

    /// The steps of a table's live fields: one for each, in rising slot; and [`Step::END`] behind them.
    #[inline(always)]
    pub fn chain_of(&self, n: u32) -> &[Step]
        requires { IsTrue (is_table self.now n) }
        ensures value { result.now ≡ chain_of (live_fields self.now n) }
        ensures few { length result.now ≤ 2 ^ 32 }
    {
        self.index.live.steps.get(n as usize)
    }

    /// The steps of a table's live fields.
    #[inline(always)]
    pub fn steps_of(&self, n: u32) -> &[Step]
        requires { IsTrue (is_table self.now n) }
        ensures value { result.now ≡ map step_of (live_fields self.now n) }
        ensures few { length result.now < 2 ^ 32 }
    {
        let chain = self.chain_of(n);
        &chain[..chain.len() - 1]
    }

    /// The object of this name.
    pub fn object_named(&self, name: &[u8]) -> Option<u32>
        ensures { result ≡ position (λ o. bytes_eq o.name name.now) self.now.objects }
    {
        place_of(&self.index.order, &name)
    }

    /// The number of the table of this name, none where the object of this name is a struct or isn't there.
    #[tactic(auto, unfolding(crate::specs::Rows::table_named))]
    pub fn table_named(&self, name: &[u8]) -> Option<u32>
        ensures number { result ≡ table_named self.now name.now }
        ensures table { IfSome result (λ n. IsTrue (is_table self.now n)) }
    {
        match self.object_named(name) {
            Some(n) if self.is_table(n) => Some(n),
            _ => None,
        }
    }

    /// The place of the live field of this name, among the live fields of a table in rising slot.
    pub fn field_named(&self, n: u32, name: &[u8]) -> Option<u32>
        requires { IsTrue (is_table self.now n) }
        ensures { result ≡ field_named self.now n name.now }
    {
        place_of(self.index.live.names.get(n as usize), &name)
    }

    /// The fields of a struct in the order of the rows, none where the object is no struct.
    pub fn parts_of(&self, n: u32) -> &[FieldRow<'n>]
        ensures value { map field_of result.now ≡ parts_of self.now n }
        ensures few { length result.now < 2 ^ 31 }
    {
        self.rows.parts_of(n as usize)
    }

    /// The place of the field of this name among the fields of a struct, in the order of the rows.
    pub fn part_named(&self, n: u32, name: &[u8]) -> Option<u32>
        ensures { result ≡ part_named self.now n name.now }
    {
        let fields = self.parts_of(n);
        for (place, field) in fields.iter().enumerate() {
            if field.name == name {
                return Some(place as u32);
            }
        }
        None
    }

    /// The i-th field of a struct, in the order of the rows.
    pub fn part_at(&self, n: u32, i: u32) -> Option<PartView>
        ensures { result ≡ part_at self.now n i }
    {
        match self.parts_of(n).get(i as usize) {
            Some(field) => self.rows.lists().part_of(field),
            None => None,
        }
    }

    /// How many live fields a table has.
    pub fn field_count(&self, n: u32) -> u32
        requires { IsTrue (is_table self.now n) }
        ensures { result ≡ length (live_fields self.now n) }
    {
        self.fields_of(n).len() as u32
    }

    /// The i-th live field of a table in rising slot.
    pub fn field_at(&self, n: u32, i: u32) -> FieldView<'n>
        requires table { IsTrue (is_table self.now n) }
        requires field { i < length (live_fields self.now n) }
        ensures { slice_get (live_fields self.now n) i ≡ Some (live_of_view result) }
    {
        self.fields_of(n)[i as usize]
    }

    /// Whether no live field of a table leads to a table, or to more than one string.
    #[inline(always)]
    pub fn is_plain(&self, n: u32) -> bool
        requires { IsTrue (is_table self.now n) }
        ensures { result ≡ is_plain self.now n }
    {
        self.index.live.sorts[n as usize].plain
    }

    /// Whether all live fields of a table are scalars and structs of one, two, four or eight bytes, aligned to as many,
    /// that may be absent.
    #[inline(always)]
    pub fn is_small(&self, n: u32) -> bool
        requires { IsTrue (is_table self.now n) }
        ensures { result ≡ is_small self.now n }
    {
        self.index.live.sorts[n as usize].small
    }

    /// The place of the next live field of a table that is required, from place `i` on, none where none is: so fields
    /// that may be absent are passed at once.
    #[inline(always)]
    pub fn next_required(&self, n: u32, i: u32) -> Option<u32>
        requires { IsTrue (is_table self.now n) }
        ensures { result ≡ next_required self.now n i }
    {
        let places = self.index.live.next_required.get(n as usize);
        match places.get(i as usize) {
            Some(place) if (*place as usize) < places.len() => Some(*place),
            _ => None,
        }
    }

    /// The kind of the member of a union with this value, none where no member has it. The value 0 is the union without
    /// a value.
    pub fn member_of(&self, e: u32, value: u8) -> Option<Kind>
        requires { IsTrue (is_union self.now e) }
        ensures { result ≡ member_of self.now e value }
    {
        self.lawful();
        self.targets_of(e).get(value).kind()
    }

    /// What the `uoffset`s of a union lead to, by their types: for whoever looks up many of them.
    #[inline(always)]
    pub fn targets_of(&self, e: u32) -> Targets<'_>
        requires { IsTrue (is_union self.now e) }
        ensures { (value : ℕ) → value < 256 → target_at result.places.now result.targets.now value ≡ target_of self.now (member_of self.now e value) }
    {
        Targets {
            places: self.index.members.places.get(e as usize),
            targets: self.index.members.targets.get(e as usize),
        }
    }

    /// The value, from 1 to 255, of the member of a union with this name.
    pub fn member_named(&self, e: u32, name: &[u8]) -> Option<u8>
        requires { IsTrue (is_union self.now e) }
        ensures { result ≡ member_named self.now e name.now }
    {
        let names = self.index.members.names.get(e as usize);
        match place_of(names, &(false, name)) {
            Some(place) => {
                let value = self.rows.members_at(e as usize)[place as usize].value;
                Some(value.unsigned_abs() as u8)
            }
            None => None,
        }
    }

    /// The name of the member of a union with this value, from 1 to 255, none where no member has it.
    pub fn member_name(&self, e: u32, value: u8) -> Option<&'n [u8]>
        ensures { option_map (λ n. n.now) result ≡ member_name self.now e value }
    {
        if value == 0 || !self.is_union(e) {
            return None;
        }
        name_of(self.rows.members_at(e as usize), value)
    }

    /// The greatest number of live fields of a table, 0 without tables.
    #[tactic(auto, unfolding(crate::specs::Live::widest))]
    pub fn widest(&self) -> u32
        ensures { result ≡ widest self.now }
    {
        self.index.live.widest
    }
}

/// The name of the member with this value.
fn name_of<'n>(members: &[MemberRow<'n>], value: u8) -> Option<&'n [u8]>
    ensures { option_map (λ n. n.now) result ≡ option_map (λ m. m.name) (find (λ m. int_eq m.value (pos value)) (map member_of_row members.now)) }
{
    for member in members {
        if member.value == i64::from(value) {
            return Some(member.name);
        }
    }
    None
}
