// Fields that lead on by a `uoffset`: what their types tell, and the words, put into a row.

ghost use Rattle.std.specs.Prelude.{◌≡◌, ◌+◌, ◌*◌, ◌^◌, ◌<◌, ◌≤◌, length, IsTrue, None, nat_lt};
ghost use Rattle.fb_bytes.specs.Word.{word};
ghost use Rattle.fb_schema.specs.{Rows.is_union, Members.member_of, Served.IsServed};
ghost use Rattle.fb_rules.specs.{Places.has_slot, Places.target, Plain.tested_by, Plain.IsTested, Told.IsPlaced, Told.IsVtable};
ghost use Rattle.fb_rules.specs.Fields.{type_place, type_count, types_begin, union_entry};
ghost use Rattle.fb_rules.specs.OffsetRows.{AreAll, LeavesRow, PutsWords, type_of_slot, type_reads, types_reads, TypeFits, TypesFit};
ghost use Rattle.fb_rules.specs.Order.{after, table_failure, union_field_failure, unions_field_failure, vector_field_failure};
ghost use Rattle.fb_rules.specs.declared.offset_row.Leads.TheVariants.{All, ByType};

use crate::checks::Checks;
use crate::fault::Reason;
use crate::offset_row::{Leads, Referent, Row, referent_among};
use crate::plain::{distance_of, fails, test_end, test_vector_field};
use crate::table::Table;
use fb_bytes::Reads;
use fb_schema::Schema;

/// Reads the type of a union again, whose field has this slot: 0 where its type field is absent.
#[inline(always)]
fn type_of(reads: &mut Reads<'_>, table: Table, slot: u16) -> u8
    requires few { reads.old.count < reads.old.base + 2 ^ 60 }
    requires near { table.at < 2 ^ 33 }
    requires head { IsVtable reads.old.bytes table.at table.head }
    requires present { IsTrue (has_slot reads.old.bytes table.at slot) }
    requires typed { TypeFits reads.old.bytes table.at slot }
    ensures { (result ≡ type_of_slot reads.old.bytes table.at slot)
        × (reads.new ≡ record reads.old { count = reads.old.count + type_reads reads.old.bytes table.at slot }) }
{
    match distance_of(reads, table.at, table.head, slot - 2) {
        0 => 0,
        distance => reads.u8_at(table.at + distance),
    }
}

/// Reads again where the types of a vector of unions begin, whose field has this slot, and how many they are: none
/// where their field is absent.
#[inline(always)]
fn types_of(reads: &mut Reads<'_>, table: Table, slot: u16) -> (u64, u32)
    requires few { reads.old.count < reads.old.base + 2 ^ 60 }
    requires near { table.at < 2 ^ 33 }
    requires head { IsVtable reads.old.bytes table.at table.head }
    requires present { IsTrue (has_slot reads.old.bytes table.at slot) }
    requires typed { TypesFit reads.old.bytes table.at slot }
    ensures { (result.0 ≡ types_begin reads.old.bytes (type_place reads.old.bytes table.at slot))
        × (result.1 ≡ type_count reads.old.bytes (type_place reads.old.bytes table.at slot))
        × (result.0 + result.1 ≤ length reads.old.bytes) × (result.0 + result.1 < 2 ^ 36)
        × (reads.new ≡ record reads.old { count = reads.old.count + types_reads reads.old.bytes table.at slot }) }
{
    match distance_of(reads, table.at, table.head, slot - 2) {
        0 => (0, 0),
        distance => {
            let place = table.at + distance;
            let at = place + u64::from(reads.u32_at(place));
            let count = reads.u32_at(at);
            (at + 4, count)
        }
    }
}

/// Tests a present field by itself that is a single `uoffset`, and puts that.
#[inline(always)]
pub fn put_word(
    reads: &Reads<'_>,
    checks: Checks,
    table: Table,
    at: u64,
    referent: Referent,
    row: &mut Row,
) -> Option<Reason>
    requires placed { IsPlaced checks reads.now.bytes table.at table.head at }
    ensures told { tested_by at reads.now.count result ≡ after reads.now.count (table_failure checks reads.now.bytes table.at at 4) }
    ensures row { result ≡ None → row.new ≡ record { leads = All referent; place = at; left = 1 } }
{
    let end = test_end(reads, checks, table, at, 4);
    if end.is_none() {
        *row = Row::one(referent, at);
    }
    end
}

/// Tests a present vector of `uoffset`s by itself that all refer to the same, and puts these, if there are any.
#[inline(always)]
#[tactic(auto, using(crate::proofs::Alignments::four))]
pub fn put_words(
    reads: &mut Reads<'_>,
    checks: Checks,
    table: Table,
    at: &mut u64,
    referent: Referent,
    row: &mut Row,
) -> Option<Reason>
    requires few { reads.old.count < reads.old.base + 2 ^ 58 }
    requires placed { IsPlaced checks reads.old.bytes table.at table.head at.old }
    ensures tested { IsTested reads.old reads.new at.new (vector_field_failure checks reads.old.bytes table.at at.old 4 4) 2 result }
    ensures words { result ≡ None → PutsWords reads.old.bytes at.old (All referent) row.old row.new }
{
    let mut count = 0;
    let failed = test_vector_field(reads, checks, table, at, 4, 4, &mut count);
    if failed.is_none() && count != 0 {
        *row = Row {
            leads: Leads::All(referent),
            place: *at,
            left: count,
        };
    }
    failed
}

/// Tests a present union by itself, and puts its `uoffset`, if its type has a member.
#[inline(always)]
pub fn put_union(
    reads: &mut Reads<'_>,
    checks: Checks,
    schema: &Schema<'_>,
    table: Table,
    at: u64,
    slot: u16,
    union: u32,
    row: &mut Row,
) -> Option<Reason>
    requires served { IsServed schema.now }
    requires union { IsTrue (is_union schema.now union) }
    requires present { IsTrue (has_slot reads.old.bytes table.at slot) }
    requires typed { TypeFits reads.old.bytes table.at slot }
    requires few { reads.old.count < reads.old.base + 2 ^ 58 }
    requires placed { IsPlaced checks reads.old.bytes table.at table.head at }
    requires rests { row.old.left ≡ 0 }
    ensures tested { IsTested reads.old reads.new at
        (after (type_reads reads.old.bytes table.at slot) (union_field_failure checks reads.old.bytes table.at at (member_of schema.now union (type_of_slot reads.old.bytes table.at slot))))
        (type_reads reads.old.bytes table.at slot) result }
    ensures one { result ≡ None → 0 < row.new.left → (row.new.left ≡ 1) × AreAll row.new.leads }
    ensures leads { result ≡ None → LeavesRow reads.old.bytes schema.now
        (union_entry schema.now at (member_of schema.now union (type_of_slot reads.old.bytes table.at slot))) row.old row.new (nat_lt 0 row.new.left) }
{
    schema.lawful();
    let value = type_of(reads, table, slot);
    let referent = referent_among(schema.targets_of(union), schema, union, value);
    if let Referent::Nothing = referent {
        return None;
    }
    put_word(reads, checks, table, at, referent, row)
}

/// Tests a present vector of unions by itself, and puts its `uoffset`s, if there are any: what they are comes in one
/// clause, which is proved once for each way out.
#[inline(always)]
#[tactic(auto, using(crate::proofs::Alignments::four))]
fn put_typed(
    reads: &mut Reads<'_>,
    checks: Checks,
    table: Table,
    at: &mut u64,
    slot: u16,
    union: u32,
    row: &mut Row,
) -> Option<Reason>
    requires { IsTrue (has_slot reads.old.bytes table.at slot) × TypesFit reads.old.bytes table.at slot
        × (reads.old.count < reads.old.base + 2 ^ 58) × IsPlaced checks reads.old.bytes table.at table.head at.old }
    ensures { IsTested reads.old reads.new at.new
        (after (types_reads reads.old.bytes table.at slot) (unions_field_failure checks reads.old.bytes table.at at.old (type_place reads.old.bytes table.at slot)))
        (types_reads reads.old.bytes table.at slot + 2) result
        × (result ≡ None → PutsWords reads.old.bytes at.old (ByType union (types_begin reads.old.bytes (type_place reads.old.bytes table.at slot))) row.old row.new
        × (types_begin reads.old.bytes (type_place reads.old.bytes table.at slot) + word reads.old.bytes (target reads.old.bytes at.old) 4 ≤ length reads.old.bytes)
        × (types_begin reads.old.bytes (type_place reads.old.bytes table.at slot) + word reads.old.bytes (target reads.old.bytes at.old) 4 < 2 ^ 36)) }
{
    let (types, many) = types_of(reads, table, slot);
    let mut count = 0;
    if let Some(reason) = test_vector_field(reads, checks, table, at, 4, 4, &mut count) {
        return Some(reason);
    }
    if count != many {
        *at -= 4;
        return fails(Reason::LengthsDiffer);
    }
    if count != 0 {
        *row = Row {
            leads: Leads::ByType(union, types),
            place: *at,
            left: count,
        };
    }
    None
}

/// Tests a present vector of unions by itself, and puts its `uoffset`s, if there are any.
#[inline(always)]
pub fn put_unions(
    reads: &mut Reads<'_>,
    checks: Checks,
    table: Table,
    at: &mut u64,
    slot: u16,
    union: u32,
    row: &mut Row,
) -> Option<Reason>
    requires present { IsTrue (has_slot reads.old.bytes table.at slot) }
    requires typed { TypesFit reads.old.bytes table.at slot }
    requires few { reads.old.count < reads.old.base + 2 ^ 58 }
    requires placed { IsPlaced checks reads.old.bytes table.at table.head at.old }
    ensures tested { IsTested reads.old reads.new at.new
        (after (types_reads reads.old.bytes table.at slot) (unions_field_failure checks reads.old.bytes table.at at.old (type_place reads.old.bytes table.at slot)))
        (types_reads reads.old.bytes table.at slot + 2) result }
    ensures words { result ≡ None → PutsWords reads.old.bytes at.old (ByType union (types_begin reads.old.bytes (type_place reads.old.bytes table.at slot))) row.old row.new }
    ensures types { result ≡ None → types_begin reads.old.bytes (type_place reads.old.bytes table.at slot) + word reads.old.bytes (target reads.old.bytes at.old) 4 ≤ length reads.old.bytes }
    ensures types_near { result ≡ None → types_begin reads.old.bytes (type_place reads.old.bytes table.at slot) + word reads.old.bytes (target reads.old.bytes at.old) 4 < 2 ^ 36 }
{
    put_typed(reads, checks, table, at, slot, union, row)
}
