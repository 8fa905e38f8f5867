//! The tests of unions, by reads that are counted: what the walk left unasked.

ghost use Rattle.std.specs.Prelude.{◌≡◌, ◌≢◌, ℕ, ◌+◌, ◌^◌, ◌<◌, ◌≤◌, length, Some, None, IsTrue, IsSome};
ghost use Rattle.std.specs.Option.{is_some};
ghost use Rattle.fb_bytes.specs.Word.{word};
ghost use Rattle.fb_schema.specs.{Rows.is_union, Members.member_of, Targets.kind_to};
ghost use Rattle.fb_rules.specs.{Places.target, Fields.union_type, Plain.IsTested, Plain.place_from, Plain.tested_by, OffsetRows.AreUnionTargets, Told.IsVtable, Order.after, Cost.reads_if_present};
ghost use Rattle.fb_strict.specs.InOrder.{length_failure, inside_failure, union_failure, union_reads, member_at};
ghost use Rattle.fb_strict.specs.InOrder.{together_failure, flex_failure, element_failure, element_reads, places_reads, where_asked};
ghost use Rattle.fb_strict.specs.Leaves.{ArePlaces};

use fb_bytes::Reads;
use fb_rules::checks::Checks;
use fb_rules::fault::Reason;
use fb_rules::plain::{fails, slot_at, test_offset};
use fb_rules::table::Table;
use fb_schema::{Goal, Schema, Target, Targets};

/// The fewest bytes of a buffer, its prefix included, that generated code takes: a `uoffset`, a table's first word,
/// and the two words of a vtable.
const LEAST: u64 = 12;

/// Where the type field of a union, or of a vector of unions, and its value stand: at the table's own position where
/// they are absent.
#[derive(Clone, Copy)]
pub struct Places {
    pub types: u64,
    pub value: u64,
}

/// What leads to nothing.
pub const NO_TARGET: Target = Target {
    goal: Goal::Nothing,
    object: 0,
    size: 0,
    align: 0,
};

/// Tests that a buffer isn't shorter than generated code takes. It fails at the buffer's end.
pub fn test_length(reads: &Reads<'_>) -> Option<Reason>
    ensures { tested_by (length reads.now.bytes) reads.now.count result ≡ after reads.now.count (length_failure reads.now.bytes) }
{
    if reads.len() < LEAST {
        return fails(Reason::OutOfBuffer);
    }
    None
}

/// Tests a `uoffset` that leads to what nobody knows: inside the buffer. It goes on there.
#[inline(always)]
#[tactic(auto, unfolding(crate::specs::InOrder::inside_failure))]
pub fn test_inside(reads: &mut Reads<'_>, checks: Checks, at: &mut u64) -> Option<Reason>
    requires few { reads.old.count < reads.old.base + 2 ^ 61 }
    requires near { at.old < 2 ^ 35 }
    ensures { IsTested reads.old reads.new at.new (inside_failure checks reads.old.bytes at.old) 1 result }
{
    if let Some(reason) = test_offset(reads, checks, at) {
        return Some(reason);
    }
    if !reads.fits(*at, 1) {
        return fails(Reason::OutOfBuffer);
    }
    None
}

/// Reads where the union, or vector of unions, with this slot stands in a table, and then where its types do.
#[inline(always)]
pub fn read_places(reads: &mut Reads<'_>, table: Table, slot: u16) -> Places
    requires few { reads.old.count < reads.old.base + 2 ^ 58 }
    requires near { table.at < 2 ^ 33 }
    requires head { IsVtable reads.old.bytes table.at table.head }
    requires slot { 2 ≤ slot }
    ensures places { ArePlaces reads.old.bytes table.at slot result }
    ensures counted { reads.new ≡ record reads.old { count = reads.old.count + places_reads reads.old.bytes table.at slot } }
{
    let value = slot_at(reads, table.at, table.head, slot);
    let types = slot_at(reads, table.at, table.head, slot - 2);
    Places { types, value }
}

/// Reads the type of a union whose type field stands at this place: 0 where that is the table's own position.
#[inline(always)]
fn type_at(reads: &mut Reads<'_>, table: u64, types: u64) -> u8
    requires few { reads.old.count < reads.old.base + 2 ^ 60 }
    requires typed { types ≢ table → types + 1 ≤ length reads.old.bytes }
    ensures { (result ≡ union_type reads.old.bytes (place_from table types))
        × (reads.new ≡ record reads.old { count = reads.old.count + reads_if_present 1 (place_from table types) }) }
{
    if types == table {
        return 0;
    }
    reads.u8_at(types)
}

/// What a `uoffset` of this type leads to, by these targets of a union. Only the contract speaks of the schema and
/// of the union.
#[inline(always)]
fn target_of(targets: Targets<'_>, schema: &Schema<'_>, union: u32, value: u8) -> Target
    requires targets { AreUnionTargets schema.now targets union }
    ensures { kind_to result ≡ member_of schema.now union value }
{
    let _union = union;
    schema.lawful();
    targets.get(value)
}

/// Whether a `uoffset` leads to a member.
#[inline(always)]
fn is_member(target: Target) -> bool
    ensures { result ≡ is_some (kind_to target) }
{
    !matches!(target.goal, Goal::Nothing)
}

/// Reads the type of a union in the table at this position, and tests the union where it is asked. It goes on to the
/// value, or, where the type has no member, to where that leads; and tells the member, none where the value is absent.
#[inline(always)]
pub fn test_union(
    reads: &mut Reads<'_>,
    asked: bool,
    checks: Checks,
    schema: &Schema<'_>,
    table: u64,
    union: u32,
    places: Places,
    at: &mut u64,
    target: &mut Target,
) -> Option<Reason>
    requires union { IsTrue (is_union schema.now union) }
    requires few { reads.old.count < reads.old.base + 2 ^ 60 }
    requires near { places.value < 2 ^ 34 }
    requires typed { places.types ≢ table → places.types + 1 ≤ length reads.old.bytes }
    ensures tested { IsTested reads.old reads.new at.new
        (where_asked asked (union_failure checks reads.old.bytes schema.now union table (place_from table places.types) (place_from table places.value)))
        (union_reads asked reads.old.bytes schema.now union (place_from table places.types) (place_from table places.value)) result }
    ensures member { result ≡ None → kind_to target.new ≡ member_at reads.old.bytes schema.now union (place_from table places.types) (place_from table places.value) }
    ensures place { result ≡ None → IsSome (kind_to target.new) → at.new ≡ places.value }
{
    let value = type_at(reads, table, places.types);
    *at = places.value;
    *target = NO_TARGET;
    if places.value == table {
        if asked && value != 0 {
            return fails(Reason::MissingRequired);
        }
        return None;
    }
    *target = target_of(schema.targets_of(union), schema, union, value);
    if !asked || is_member(*target) {
        return None;
    }
    test_inside(reads, checks, at)
}

/// Tests that a vector of unions is there with that of its types, or neither, where that is asked. It fails at the one
/// that is there.
pub fn test_together(asked: bool, table: u64, places: Places, at: &mut u64) -> Option<Reason>
    ensures { (n : ℕ) → tested_by at.new n result ≡ after n (where_asked asked (together_failure (place_from table places.types) (place_from table places.value))) }
{
    *at = if places.types == table {
        places.value
    } else {
        places.types
    };
    if asked && (places.types == table) != (places.value == table) {
        return fails(Reason::LengthsDiffer);
    }
    None
}

/// Tests that a field whose bytes hold a flexbuffer, in the table at this position, is absent. It fails where it
/// stands.
pub fn test_flex(table: u64, at: u64) -> Option<Reason>
    ensures { (n : ℕ) → tested_by at n result ≡ after n (flex_failure (place_from table at)) }
{
    if at != table {
        return fails(Reason::FlexContent);
    }
    None
}

/// Reads the type at a position, of a `uoffset` in a vector of unions, and tests the word where it is asked: where
/// the type isn't 0 and has no member, it goes on where the word leads. It tells what the type leads to, of which these
/// are the union's. Only the contract speaks of the schema and of the union.
#[inline(always)]
#[tactic(auto, unfolding(crate::specs::InOrder::element_failure, crate::specs::InOrder::element_reads))]
pub fn test_element(
    reads: &mut Reads<'_>,
    asked: bool,
    checks: Checks,
    schema: &Schema<'_>,
    union: u32,
    targets: Targets<'_>,
    types: u64,
    at: &mut u64,
    target: &mut Target,
) -> Option<Reason>
    requires union { IsTrue (is_union schema.now union) }
    requires targets { AreUnionTargets schema.now targets union }
    requires few { reads.old.count < reads.old.base + 2 ^ 60 }
    requires near { at.old < 2 ^ 35 }
    requires typed { types + 1 ≤ length reads.old.bytes }
    ensures tested { IsTested reads.old reads.new at.new (where_asked asked (element_failure checks reads.old.bytes schema.now union types at.old))
        (element_reads asked reads.old.bytes schema.now union types) result }
    ensures member { result ≡ None → kind_to target.new ≡ member_of schema.now union (word reads.old.bytes types 1) }
    ensures place { result ≡ None → IsSome (kind_to target.new) → at.new ≡ at.old }
{
    let value = reads.u8_at(types);
    *target = target_of(targets, schema, union, value);
    if !asked || value == 0 || is_member(*target) {
        return None;
    }
    test_inside(reads, checks, at)
}
