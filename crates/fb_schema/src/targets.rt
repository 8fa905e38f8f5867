// What the `uoffset`s of a union lead to, found by their types without a search.

ghost use Rattle.std.specs.Prelude.{◌≡◌, ◌+◌, ℕ, List, [], map, OnOk};
ghost use Rattle.fb_schema.specs.{FlatRows.borrowed_rows, Rows.Rows, Rows.member_of_row, Targets.nothing, Targets.kind_to, Targets.target_of, Targets.target_at};
ghost use Rattle.fb_schema.specs.Targets.{place_among, kind_among, AreTargets, AreSorted, EndsValues, LeadBelow};
ghost use Rattle.fb_schema.specs.declared.{views.Target.Target, rows.MemberRow.MemberRow};

use crate::flat::RowLists;
use crate::kinds::Kind;
use crate::sorting::place_of;
use crate::views::{Goal, Target};
use std::alloc::{AllocError, Allocator};

/// Where the type of a `uoffset` has no member.
const NOTHING: Target = Target {
    goal: Goal::Nothing,
    object: 0,
    size: 0,
    align: 0,
};

/// What the `uoffset`s of a union lead to, by their types.
///
/// `places` has the values of the union's members in rising order, and `targets` what each of them leads to: 17 bytes a
/// member, whatever their values. Where these are 0 to n, as `flatc` gives them, each is found at once, as the value v
/// stands at place v. It never stands behind that place, so where values are skipped it is sought from there on down.
#[derive(Clone, Copy)]
pub struct Targets<'s> {
    pub places: &'s [u8],
    pub targets: &'s [Target],
}

impl Targets<'_> {
    /// What a `uoffset` of this type leads to.
    #[inline(always)]
    pub fn get(&self, value: u8) -> Target
        ensures { result ≡ target_at (self.now).places.now (self.now).targets.now value }
    {
        let place = match self.places.get(value as usize) {
            Some(found) if *found == value => value as usize,
            _ => sought(self.places, value),
        };
        match self.targets.get(place) {
            Some(target) => *target,
            None => NOTHING,
        }
    }
}

/// The place of this value among rising ones of which some may be skipped; their end where it isn't among them.
#[cold]
#[inline(never)]
fn sought(values: &[u8], value: u8) -> usize
    ensures { result ≡ place_among values.now value }
{
    for place in (0..values.len().min(value as usize + 1)).rev() {
        let found = values[place];
        if found == value {
            return place;
        }
        if found < value {
            return values.len();
        }
    }
    values.len()
}

impl Target {
    /// The kind of the member that leads there, none where there is none.
    pub fn kind(self) -> Option<Kind>
        ensures { result ≡ kind_to self }
    {
        match self.goal {
            Goal::Nothing => None,
            Goal::Text => Some(Kind::Text),
            Goal::Table => Some(Kind::Table(self.object)),
            Goal::Struct => Some(Kind::Struct(self.object)),
        }
    }
}

/// The same while it is made.
#[derive(Drop)]
pub struct ByValue<A: Allocator> {
    pub places: Vec<u8, A>,
    pub targets: Vec<Target, A>,
}

/// The kind of the member with this value, by the values in order and the kinds of members.
pub fn kind_at(values: &[(i64, u32)], kinds: &[Option<Kind>], value: u8) -> Option<Kind>
    ensures { (rows : Rows) (members : List MemberRow) → AreSorted rows members values.now kinds.now → result ≡ kind_among rows (map member_of_row members) value }
{
    if value == 0 {
        return None;
    }
    match place_of(values, &i64::from(value)) {
        Some(place) => match kinds.get(place as usize) {
            Some(kind) => *kind,
            None => None,
        },
        None => None,
    }
}

/// What a `uoffset` leads to whose type has a member of this kind.
fn target_of(rows: &RowLists, kind: Kind) -> Target
    ensures { result ≡ target_of (borrowed_rows rows.now) (Some kind) }
{
    match kind {
        Kind::Table(object) => Target {
            goal: Goal::Table,
            object,
            ..NOTHING
        },
        Kind::Struct(object) => {
            let layout = rows.layout_of(kind);
            Target {
                goal: Goal::Struct,
                object,
                size: layout.size,
                align: layout.align,
            }
        }
        Kind::Text => Target {
            goal: Goal::Text,
            ..NOTHING
        },
        _ => NOTHING,
    }
}

/// Adds what the type of this value leads to, behind those of lower values, where a member of this kind has it.
fn add_target<A: Allocator>(
    rows: &RowLists,
    value: u8,
    kind: Option<Kind>,
    places: &mut Vec<u8, A>,
    targets: &mut Vec<Target, A>,
) -> Result<(), AllocError>
    ensures { (wanted : ℕ → Target) → wanted value ≡ target_of (borrowed_rows rows.now) kind → LeadBelow wanted value places.old.items targets.old.items
        → OnOk result (LeadBelow wanted (value + 1) places.new.items targets.new.items) }
{
    if let Some(kind) = kind {
        places.push(value)?;
        targets.push(target_of(rows, kind))?;
    }
    Ok(())
}

/// Begins with the type 0, where it is one of these values: it leads to nothing.
fn put_none<A: Allocator>(
    values: &[(i64, u32)],
    places: &mut Vec<u8, A>,
    targets: &mut Vec<Target, A>,
) -> Result<(), AllocError>
    requires places { places.old.items ≡ [] }
    requires targets { targets.old.items ≡ [] }
    ensures { (wanted : ℕ → Target) → wanted 0 ≡ nothing → OnOk result (LeadBelow wanted 1 places.new.items targets.new.items) }
{
    if place_of(values, &0).is_some() {
        places.push(0)?;
        targets.push(NOTHING)?;
    }
    Ok(())
}

/// Behind the greatest of these values that a type can be, and 1 at least.
fn end_of(values: &[(i64, u32)]) -> u64
    ensures { EndsValues values.now result }
{
    let mut end = 1;
    for (value, _) in values {
        let size = value.unsigned_abs();
        if size >= end && size < 256 {
            end = size + 1;
        }
    }
    end
}

/// Puts the targets of a union's members where none are yet, by the values in order and the kinds of these.
pub fn put_targets<A: Allocator>(
    rows: &RowLists,
    values: &[(i64, u32)],
    kinds: &[Option<Kind>],
    places: &mut Vec<u8, A>,
    targets: &mut Vec<Target, A>,
) -> Result<(), AllocError>
    requires places { places.old.items ≡ [] }
    requires targets { targets.old.items ≡ [] }
    ensures { OnOk result ((members : List MemberRow) → AreSorted (borrowed_rows rows.now) members values.now kinds.now
        → AreTargets (borrowed_rows rows.now) (map member_of_row members) places.new.items targets.new.items) }
{
    put_none(values, places, targets)?;
    for value in 1..end_of(values) {
        let kind = kind_at(values, kinds, value as u8);
        add_target(rows, value as u8, kind, places, targets)?;
    }
    Ok(())
}
