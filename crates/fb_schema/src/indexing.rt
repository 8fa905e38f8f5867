// How the index of legal rows is made.

ghost use Rattle.std.specs.Prelude.{◌≡◌, ◌<◌, ◌≤◌, ◌^◌, ◌+◌, ℕ, List, [], ◌∷◌, ◌++◌, map, length, take, IfOk, OnOk, IfErr, All, Some, None, true};
ghost use Rattle.fb_schema.specs.{declared.flat.RowLists.RowLists, declared.rows.MemberRow.MemberRow, Flat.IsPart, FlatRows.borrowed_rows, FlatRows.AreParts, Rows.Rows};
ghost use Rattle.fb_schema.specs.{Rows.Object, Rows.member_of_row, Kinds.kind_of, Indexed.IsBlank, Indexed.AreIndexed, Demands.IsLegal, Demands.Refuses, Demands.first_code};
ghost use Rattle.fb_schema.specs.{Demands.members_asked, Targets.AreTargets, Sorting.IsOrderOf, Sorting.name_cmp, Sorting.object_name, Live.live_of_view, Live.live_in};
ghost use Rattle.fb_schema.specs.{Live.live_rows, Index.kept_members, Index.AreNextRequired, Index.IsLiveIndex, Index.IsMemberIndex};

use crate::fault::SchemaFault;
use crate::flat::{RowLists, part};
use crate::index::{Index, LiveIndex, MemberIndex};
use crate::keys::in_order;
use crate::kinds::Kind;
use crate::legal::legal;
use crate::lists::Lists;
use crate::live::table_views;
use crate::rows::MemberRow;
use crate::steps::{field_steps, sorts_of};
use crate::targets::{ByValue, put_targets};
use crate::views::FieldView;
use std::alloc::{AllocError, Allocator};

/// At each field the place of the next required one, at its place or behind it; how many fields there are where none
/// is.
fn next_required<A: Allocator>(alloc: A, fields: &[FieldView]) -> Result<Vec<u32, A>, AllocError>
    requires { length fields.now < 2 ^ 31 }
    ensures { IfOk result (λ places. AreNextRequired (map live_of_view fields.now) places.items) }
{
    let mut places = vec![in alloc; 0; fields.len()]?;
    let mut next = fields.len() as u32;
    for i in (0..fields.len()).rev() {
        if fields[i].required {
            next = i as u32;
        }
        places[i] = next;
    }
    Ok(places)
}

/// The kinds of members, none for a type that no union holds.
fn member_kinds<A: Allocator>(
    alloc: A,
    rows: &RowLists,
    members: &[MemberRow],
) -> Result<Vec<Option<Kind>, A>, AllocError>
    ensures { IfOk result (λ kinds. kinds.items ≡ map (λ m. kind_of (borrowed_rows rows.now) (member_of_row m).ty) members.now) }
{
    let mut kinds = Vec::new(alloc);
    for member in members {
        kinds.push(rows.kind_of(member.ty))?;
    }
    Ok(kinds)
}

/// The members of a union; none of an enum that isn't one.
fn kept_members<'r, 'n>(is_union: bool, members: &'r [MemberRow<'n>]) -> &'r [MemberRow<'n>]
    requires { length members.now < 2 ^ 31 }
    ensures value { result.now ≡ kept_members is_union members.now }
    ensures few { length result.now < 2 ^ 31 }
{
    if is_union { members } else { &[] }
}

impl<'n, A: Allocator + Copy> LiveIndex<'n, A> {
    /// No objects.
    fn new(alloc: A) -> LiveIndex<'n, A>
        ensures { (rows : Rows) → IsLiveIndex rows [] result }
    {
        LiveIndex {
            fields: Lists::new(alloc),
            names: Lists::new(alloc),
            steps: Lists::new(alloc),
            sorts: Vec::new(alloc),
            next_required: Lists::new(alloc),
            widest: 0,
        }
    }

    /// Makes room for so many objects, with so many fields in all.
    fn reserve(&mut self, objects: usize, fields: usize) -> Result<(), AllocError>
        ensures { OnOk result ((rows : Rows) → IsLiveIndex rows [] self.old → IsLiveIndex rows [] self.new) }
    {
        self.fields.reserve(objects, fields)?;
        self.names.reserve(objects, fields)?;
        self.steps.reserve(objects, fields.saturating_add(objects))?;
        self.sorts.reserve_exact(objects)?;
        self.next_required.reserve(objects, fields)
    }

    /// Adds what is kept of an object with these live fields, behind those before it.
    fn push(&mut self, alloc: A, fields: &[FieldView<'n>]) -> Result<(), AllocError>
        requires { length fields.now ≤ 32766 }
        ensures { (rows : Rows) (all : List Object) (o : Object) → IsLiveIndex rows all self.old → map live_of_view fields.now ≡ live_in rows (Some o)
            → length fields.now ≡ length (live_rows o) → OnOk result (IsLiveIndex rows (all ++ o ∷ []) self.new) }
    {
        self.widest = self.widest.max(fields.len() as u32);
        self.sorts.push(sorts_of(fields))?;
        self.names.push_made(in_order(alloc, fields))?;
        self.steps.push_made(field_steps(alloc, fields))?;
        self.next_required.push_made(next_required(alloc, fields))?;
        self.fields.push(fields)
    }

    /// Adds what is kept of the object with this number, behind those before it.
    fn add(&mut self, alloc: A, rows: &RowLists<'_, 'n>, n: usize) -> Result<(), AllocError>
        requires legal { IsLegal (borrowed_rows rows.now) }
        requires parts { All (λ o. IsPart (length rows.now.fields.now) o.fields) rows.now.objects.now }
        requires here { n < length rows.now.objects.now }
        requires before { IsLiveIndex (borrowed_rows rows.now) (take n (borrowed_rows rows.now).objects) self.old }
        ensures { OnOk result (IsLiveIndex (borrowed_rows rows.now) (take (n + 1) (borrowed_rows rows.now).objects) self.new) }
    {
        let fields = table_views(alloc, rows, &rows.objects[n])?;
        self.push(alloc, &fields)
    }

    /// Adds what is kept of each object, where nothing is yet.
    fn fill(&mut self, alloc: A, rows: &RowLists<'_, 'n>) -> Result<(), AllocError>
        requires legal { IsLegal (borrowed_rows rows.now) }
        requires parts { All (λ o. IsPart (length rows.now.fields.now) o.fields) rows.now.objects.now }
        requires none { IsLiveIndex (borrowed_rows rows.now) [] self.old }
        ensures { OnOk result (IsLiveIndex (borrowed_rows rows.now) (borrowed_rows rows.now).objects self.new) }
    {
        self.reserve(rows.objects.len(), rows.fields.len())?;
        for n in 0..rows.objects.len() {
            self.add(alloc, rows, n)?;
        }
        Ok(())
    }
}

/// What the types of an enum with these members lead to, none where it is no union.
fn member_targets<A: Allocator + Copy>(
    alloc: A,
    rows: &RowLists,
    is_union: bool,
    members: &[MemberRow],
) -> Result<ByValue<A>, AllocError>
    requires { length members.now < 2 ^ 31 }
    ensures { IfOk result (λ found. is_union ≡ true → ((q : ℕ) → first_code (members_asked (borrowed_rows rows.now) (map member_of_row members.now) q) ≡ None)
        → AreTargets (borrowed_rows rows.now) (map member_of_row members.now) found.places.items found.targets.items) }
{
    let kinds = member_kinds(alloc, rows, members)?;
    let values = in_order(alloc, members)?;
    let mut found = ByValue {
        places: Vec::new(alloc),
        targets: Vec::new(alloc),
    };
    if is_union {
        put_targets(rows, &values, &kinds, &mut found.places, &mut found.targets)?;
    }
    Ok(found)
}

impl<'n, A: Allocator + Copy> MemberIndex<'n, A> {
    /// No enums.
    fn new(alloc: A) -> MemberIndex<'n, A>
        ensures { (rows : Rows) (members : List MemberRow) → IsMemberIndex rows members [] result }
    {
        MemberIndex {
            places: Lists::new(alloc),
            targets: Lists::new(alloc),
            names: Lists::new(alloc),
        }
    }

    /// Makes room for so many enums, with so many members in all.
    fn reserve(&mut self, enums: usize, members: usize) -> Result<(), AllocError>
        ensures { OnOk result ((rows : Rows) (all : List MemberRow) → IsMemberIndex rows all [] self.old → IsMemberIndex rows all [] self.new) }
    {
        self.places.reserve(enums, members)?;
        self.targets.reserve(enums, members)?;
        self.names.reserve(enums, members)
    }

    /// Adds what is kept of the enum with this number, behind those before it.
    fn add(&mut self, alloc: A, rows: &RowLists<'_, 'n>, n: usize) -> Result<(), AllocError>
        requires legal { IsLegal (borrowed_rows rows.now) }
        requires parts { All (λ e. IsPart (length rows.now.members.now) e.members) rows.now.enums.now }
        requires here { n < length rows.now.enums.now }
        requires before { IsMemberIndex (borrowed_rows rows.now) rows.now.members.now (take n rows.now.enums.now) self.old }
        ensures { OnOk result (IsMemberIndex (borrowed_rows rows.now) rows.now.members.now (take (n + 1) rows.now.enums.now) self.new) }
    {
        let row = &rows.enums[n];
        let members = kept_members(row.is_union, part(rows.members, row.members));
        self.names.push_made(in_order(alloc, members))?;
        let found = member_targets(alloc, rows, row.is_union, members)?;
        self.places.push(&found.places)?;
        self.targets.push(&found.targets)
    }

    /// Adds what is kept of each enum, where nothing is yet.
    fn fill(&mut self, alloc: A, rows: &RowLists<'_, 'n>) -> Result<(), AllocError>
        requires legal { IsLegal (borrowed_rows rows.now) }
        requires parts { All (λ e. IsPart (length rows.now.members.now) e.members) rows.now.enums.now }
        requires none { IsMemberIndex (borrowed_rows rows.now) rows.now.members.now [] self.old }
        ensures { OnOk result (IsMemberIndex (borrowed_rows rows.now) rows.now.members.now rows.now.enums.now self.new) }
    {
        self.reserve(rows.enums.len(), rows.members.len())?;
        for n in 0..rows.enums.len() {
            self.add(alloc, rows, n)?;
        }
        Ok(())
    }
}

impl<'n, A: Allocator + Copy> Index<'n, A> {
    /// With this order of the objects' names, and nothing else yet.
    fn new(alloc: A, order: Vec<(&'n [u8], u32), A>) -> Index<'n, A>
        ensures { (rows : RowLists) → IsOrderOf name_cmp (map object_name rows.objects.now) order.entry.items → IsBlank rows result }
    {
        Index {
            order,
            live: LiveIndex::new(alloc),
            members: MemberIndex::new(alloc),
        }
    }

    /// Adds the rest, or refuses rows by the first demand that they break.
    fn fill(&mut self, alloc: A, rows: &RowLists<'_, 'n>) -> Result<(), SchemaFault>
        requires parts { AreParts rows.now.objects.now rows.now.fields.now rows.now.enums.now rows.now.members.now }
        requires blank { IsBlank rows.now self.old }
        ensures made { OnOk result (AreIndexed rows.now self.new) }
        ensures refused { IfErr result (Refuses (borrowed_rows rows.now)) }
    {
        legal(alloc, rows, &self.order)?;
        self.live.fill(alloc, rows)?;
        self.members.fill(alloc, rows)?;
        Ok(())
    }

    /// What is kept of rows that are legal. Others are refused by the first demand that they break.
    pub fn of(alloc: A, rows: &RowLists<'_, 'n>) -> Result<Index<'n, A>, SchemaFault>
        requires { AreParts rows.now.objects.now rows.now.fields.now rows.now.enums.now rows.now.members.now }
        ensures made { IfOk result (AreIndexed rows.now) }
        ensures refused { IfErr result (Refuses (borrowed_rows rows.now)) }
    {
        let order = in_order(alloc, rows.objects)?;
        let mut index = Index::new(alloc, order);
        index.fill(alloc, rows)?;
        Ok(index)
    }
}
