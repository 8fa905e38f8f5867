// The rules of the format for tables, strings and vectors, by reads that are counted in a register, and how a field is
// passed by its step. Those of unions stand in `leads.rt`, those of the start in `begin.rt`.

ghost use Rattle.std.specs.Prelude.{◌≡◌, ℕ, ◌+◌, ◌*◌, ◌^◌, ◌<◌, ◌≤◌, ◌%◌, ◌==◌, length, Some, None, IfSome, MatchOption, IsTrue, false};
ghost use Rattle.fb_bytes.specs.Word.{word};
ghost use Rattle.fb_schema.specs.Served.{IsAlignment};
ghost use Rattle.fb_rules.specs.{Places.fits, Places.target, Places.has_slot, Places.vtable, Places.field_place, Cost.head_reads, Cost.slot_reads, Cost.lead_reads};
ghost use Rattle.fb_rules.specs.{Fields.to_string, OffsetRows.lead_to, OffsetRows.IsSized, Told.IsVtable, Told.IsHead, Told.IsPlaced};
ghost use Rattle.fb_rules.specs.declared.{offset_row.Referent.TheVariants.Table as ATable, plain.Came.TheVariants.Past, plain.Came.TheVariants.ToFault};
ghost use Rattle.fb_rules.specs.{declared.fault.Reason.TheVariants.OutOfBuffer, declared.fault.Reason.TheVariants.Misaligned, Order.after, Order.head_failure, Order.table_failure};
ghost use Rattle.fb_rules.specs.Order.{offset_failure, string_failure, vector_failure, inline_failure, inline_field_failure, vector_field_failure, lead_failure};
ghost use Rattle.fb_rules.specs.{declared.plain.Standing.TheVariants.Known, Plain.StandsAt, Plain.tested_by, Plain.vtable_failure, Plain.vtable_reads, Plain.FindsVtable};
ghost use Rattle.fb_rules.specs.Plain.{IsTested, IsSmall, place_from, IsStep, HasBit, IsCame, Filled, Stepped};
ghost use Rattle.fb_rules.specs.{Alike.IsSmallStep, declared.plain.Came.TheVariants.ToEnd, declared.plain.Came.TheVariants.ToField};

use crate::checks::Checks;
use crate::fault::Reason;
use crate::offset_row::Referent;
use crate::site::is_aligned;
use crate::table::{Head, Table};
use fb_bytes::Reads;
use fb_schema::Step;

/// A test that fails for this reason. It stands apart, so that what holds is passed without a thought of it.
#[cold]
#[inline(never)]
pub fn fails(reason: Reason) -> Option<Reason>
    ensures { result ≡ Some reason }
{
    Some(reason)
}

/// Whether `n` bytes at a position are in the buffer. Neither is so great that their sum could be.
#[inline(always)]
fn is_inside(reads: &Reads<'_>, at: u64, n: u64) -> bool
    requires near { at < 2 ^ 40 }
    requires small { n < 2 ^ 40 }
    ensures value { result ≡ fits reads.now.bytes at n }
    ensures short { length reads.now.bytes < 2 ^ 31 }
{
    at + n <= reads.len()
}

/// Tests that a scalar or struct of this size and alignment stands at a position.
#[inline(always)]
#[tactic(auto, unfolding(crate::specs::Order::inline_failure))]
pub fn test_inline(
    reads: &Reads<'_>,
    checks: Checks,
    at: u64,
    size: u32,
    align: u32,
) -> Option<Reason>
    requires near { at < 2 ^ 35 }
    requires align { IsAlignment align }
    ensures told { tested_by at reads.now.count result ≡ after reads.now.count (inline_failure checks reads.now.bytes at size align) }
    ensures near { result ≡ None → at + size < 2 ^ 31 }
{
    if !is_inside(reads, at, u64::from(size)) {
        return fails(Reason::OutOfBuffer);
    }
    if !is_aligned(checks, at, align) {
        return fails(Reason::Misaligned);
    }
    None
}

/// Tests the `uoffset` at a position, and goes on where it leads.
#[inline(always)]
#[tactic(auto, using(crate::proofs::Alignments::four), unfolding(crate::specs::Order::offset_failure, crate::specs::Order::inline_failure))]
pub fn test_offset(reads: &mut Reads<'_>, checks: Checks, at: &mut u64) -> Option<Reason>
    requires few { reads.old.count < reads.old.base + 2 ^ 62 }
    requires near { at.old < 2 ^ 35 }
    ensures tested { IsTested reads.old reads.new at.new (offset_failure checks reads.old.bytes at.old) 1 result }
    ensures value { result ≡ None → at.new ≡ target reads.old.bytes at.old }
    ensures near { result ≡ None → at.new < 2 ^ 33 }
{
    if let Some(reason) = test_inline(reads, checks, *at, 4, 4) {
        return Some(reason);
    }
    let offset = u64::from(reads.u32_at(*at));
    if offset == 0 {
        return fails(Reason::ZeroOffset);
    }
    *at += offset;
    None
}

/// Goes where the `uoffset` at a position leads, which is known to stand there, so that only its value is tested. Of
/// the checks the contract alone speaks.
#[inline(always)]
#[tactic(auto, unfolding(crate::specs::Order::offset_failure))]
pub fn follow(reads: &mut Reads<'_>, checks: Checks, at: &mut u64) -> Option<Reason>
    requires few { reads.old.count < reads.old.base + 2 ^ 62 }
    requires stands { StandsAt checks reads.old.bytes at.old }
    ensures tested { IsTested reads.old reads.new at.new (offset_failure checks reads.old.bytes at.old) 1 result }
    ensures value { result ≡ None → at.new ≡ target reads.old.bytes at.old }
    ensures near { result ≡ None → at.new < 2 ^ 33 }
{
    let _checks = checks;
    match reads.u32_at(*at) {
        0 => fails(Reason::ZeroOffset),
        offset => {
            *at += u64::from(offset);
            None
        }
    }
}

/// Tests the string at a position: its count, so many bytes, and a byte 0. It goes on to that byte.
#[inline(always)]
#[tactic(auto, using(crate::proofs::Alignments::four), unfolding(crate::specs::Order::string_failure, crate::specs::Order::inline_failure))]
fn test_string(reads: &mut Reads<'_>, checks: Checks, at: &mut u64) -> Option<Reason>
    requires few { reads.old.count < reads.old.base + 2 ^ 62 }
    requires near { at.old < 2 ^ 35 }
    ensures { IsTested reads.old reads.new at.new (string_failure checks reads.old.bytes at.old) 2 result }
{
    if let Some(reason) = test_inline(reads, checks, *at, 4, 4) {
        return Some(reason);
    }
    let count = u64::from(reads.u32_at(*at));
    *at += 4;
    if !is_inside(reads, *at, count + 1) {
        return fails(Reason::OutOfBuffer);
    }
    *at += count;
    if reads.u8_at(*at) != 0 {
        return fails(Reason::NoTerminator);
    }
    None
}

/// Tests the vector at a position, of elements of this size and alignment, puts their number, and goes on to the first.
#[inline(always)]
#[tactic(auto, using(crate::proofs::Alignments::four), unfolding(crate::specs::Order::vector_failure, crate::specs::Order::inline_failure))]
fn test_vector(
    reads: &mut Reads<'_>,
    checks: Checks,
    at: &mut u64,
    size: u32,
    align: u32,
    many: &mut u32,
) -> Option<Reason>
    requires few { reads.old.count < reads.old.base + 2 ^ 62 }
    requires near { at.old < 2 ^ 35 }
    requires align { IsAlignment align }
    ensures { IsTested reads.old reads.new at.new (vector_failure checks reads.old.bytes at.old size align) 1 result
        × (result ≡ None → (at.new ≡ at.old + 4) × (many.new ≡ word reads.old.bytes at.old 4) × (at.new + many.new * size < 2 ^ 31)) }
{
    if let Some(reason) = test_inline(reads, checks, *at, 4, 4) {
        return Some(reason);
    }
    let count = reads.u32_at(*at);
    *at += 4;
    if !reads.fits(*at, u64::from(count) * u64::from(size)) {
        return fails(Reason::OutOfBuffer);
    }
    if count != 0 && !is_aligned(checks, *at, align) {
        return fails(Reason::Misaligned);
    }
    *many = count;
    None
}

/// Tests the first word of the table at a position, and reads where its vtable stands.
#[inline(always)]
#[tactic(auto, using(crate::proofs::Alignments::four), unfolding(crate::specs::Plain::first_word_failure, crate::specs::Order::inline_failure, crate::specs::Places::has_vtable, crate::specs::Places::vtable))]
pub fn test_first_word(reads: &mut Reads<'_>, checks: Checks, at: u64) -> Result<u64, Reason>
    requires few { reads.old.count < reads.old.base + 2 ^ 61 }
    requires near { at < 2 ^ 33 }
    ensures { FindsVtable checks reads.old reads.new at result }
{
    if let Some(reason) = test_inline(reads, checks, at, 4, 4) {
        return Err(reason);
    }
    let place = at as i64 - i64::from(reads.i32_at(at));
    if place < 0 {
        return Err(Reason::OutOfBuffer);
    }
    Ok(place as u64)
}

/// Tests the vtable, at this place, of the table at a position, and writes the table's head. Where it fails, the
/// position is moved to where it does.
#[inline(always)]
pub fn test_vtable(
    reads: &mut Reads<'_>,
    checks: Checks,
    place: u64,
    at: &mut u64,
    head: &mut Head,
) -> Option<Reason>
    requires few { reads.old.count < reads.old.base + 2 ^ 61 }
    requires near { place < 2 ^ 32 }
    requires its { place ≡ vtable reads.old.bytes at.old }
    ensures tested { IsTested reads.old reads.new at.new (vtable_failure checks reads.old.bytes at.old) (vtable_reads checks) result }
    ensures head { result ≡ None → IsHead checks reads.old.bytes at.old head.new }
    ensures same { result ≡ None → at.new ≡ at.old }
{
    vtable_by(reads, checks, place, at, head)
}

/// The same, told in one clause, which is proved once for each way out.
#[inline(always)]
#[tactic(auto, using(crate::proofs::Alignments::two), unfolding(crate::specs::Plain::vtable_failure))]
fn vtable_by(
    reads: &mut Reads<'_>,
    checks: Checks,
    place: u64,
    at: &mut u64,
    head: &mut Head,
) -> Option<Reason>
    requires { (reads.old.count < reads.old.base + 2 ^ 61) × (place < 2 ^ 32) × (place ≡ vtable reads.old.bytes at.old) }
    ensures { IsTested reads.old reads.new at.new (vtable_failure checks reads.old.bytes at.old) (vtable_reads checks) result
        × (result ≡ None → IsHead checks reads.old.bytes at.old head.new × (at.new ≡ at.old)) }
{
    if !reads.fits(place, 2) {
        return fails(Reason::OutOfBuffer);
    }
    if !is_aligned(checks, place, 2) {
        *at = place;
        return fails(Reason::Misaligned);
    }
    let size = reads.u16_at(place);
    if size % 2 != 0 || size < 4 {
        *at = place;
        return fails(Reason::BadVtable);
    }
    if !reads.fits(place, u64::from(size)) {
        *at = place;
        return fails(Reason::OutOfBuffer);
    }
    let inline = if checks.inline_size {
        reads.u16_at(place + 2)
    } else {
        0
    };
    *head = Head {
        vtable: place,
        size,
        inline,
    };
    None
}

/// Tests the head of the table at a position, and writes it. Where it fails, the position is moved to where it does.
#[inline(always)]
#[tactic(auto, unfolding(crate::specs::Order::head_failure, crate::specs::Plain::first_word_failure, crate::specs::Plain::vtable_failure))]
pub fn test_head(
    reads: &mut Reads<'_>,
    checks: Checks,
    at: &mut u64,
    head: &mut Head,
) -> Option<Reason>
    requires few { reads.old.count < reads.old.base + 2 ^ 60 }
    requires near { at.old < 2 ^ 33 }
    ensures tested { IsTested reads.old reads.new at.new (head_failure checks reads.old.bytes at.old) (head_reads checks) result }
    ensures head { result ≡ None → IsHead checks reads.old.bytes at.old head.new }
    ensures same { result ≡ None → at.new ≡ at.old }
{
    match test_first_word(reads, checks, *at) {
        Ok(vtable) => test_vtable(reads, checks, vtable, at, head),
        Err(reason) => Some(reason),
    }
}

/// Reads the distance of the field with this slot from its table, 0 where it is absent.
#[inline(always)]
#[tactic(auto, using(std::proofs::lemmas::Bool::Decides::nat_tests), unfolding(crate::specs::Places::field_place))]
pub fn distance_of(reads: &mut Reads<'_>, at: u64, head: Head, slot: u16) -> u64
    requires few { reads.old.count < reads.old.base + 2 ^ 60 }
    requires near { at < 2 ^ 33 }
    requires head { IsVtable reads.old.bytes at head }
    ensures { (place_from at (at + result) ≡ field_place reads.old.bytes at slot)
        × IfSome (place_from at (at + result)) (λ _. IsTrue (has_slot reads.old.bytes at slot)) × (result < 2 ^ 16)
        × (reads.new ≡ record reads.old { count = reads.old.count + slot_reads reads.old.bytes at slot }) }
{
    if head.ends_before(slot) {
        return 0;
    }
    u64::from(reads.u16_at(head.vtable + u64::from(slot)))
}

/// Reads where the field with this slot stands, the table's own position where it is absent.
#[inline(always)]
pub fn slot_at(reads: &mut Reads<'_>, at: u64, head: Head, slot: u16) -> u64
    requires few { reads.old.count < reads.old.base + 2 ^ 60 }
    requires near { at < 2 ^ 33 }
    requires head { IsVtable reads.old.bytes at head }
    ensures value { place_from at result ≡ field_place reads.old.bytes at slot }
    ensures within { IfSome (place_from at result) (λ _. IsTrue (has_slot reads.old.bytes at slot)) }
    ensures near { result < 2 ^ 34 }
    ensures counted { reads.new ≡ record reads.old { count = reads.old.count + slot_reads reads.old.bytes at slot } }
{
    at + distance_of(reads, at, head, slot)
}

/// Tests that what stands inline for a field ends within the inline size of its table, where that is checked.
#[inline(always)]
#[tactic(auto, unfolding(crate::specs::Order::table_failure, crate::specs::Places::ends_in_table))]
pub fn test_end(
    reads: &Reads<'_>,
    checks: Checks,
    table: Table,
    place: u64,
    size: u32,
) -> Option<Reason>
    requires placed { IsPlaced checks reads.now.bytes table.at table.head place }
    ensures told { tested_by place reads.now.count result ≡ after reads.now.count (table_failure checks reads.now.bytes table.at place size) }
{
    if checks.inline_size && place + u64::from(size) > table.at + u64::from(table.head.inline) {
        return fails(Reason::PastTable);
    }
    None
}

/// Tests a field that is a scalar or struct of this size and alignment.
#[inline(always)]
pub fn test_inline_field(
    reads: &Reads<'_>,
    checks: Checks,
    table: Table,
    place: u64,
    size: u32,
    align: u32,
) -> Option<Reason>
    requires placed { IsPlaced checks reads.now.bytes table.at table.head place }
    requires align { IsAlignment align }
    ensures told { tested_by place reads.now.count result ≡ after reads.now.count (inline_field_failure checks reads.now.bytes table.at place size align) }
{
    if let Some(reason) = test_end(reads, checks, table, place, size) {
        return Some(reason);
    }
    test_inline(reads, checks, place, size, align)
}

/// Tests a field that holds a `uoffset` to a vector of elements of this size and alignment, with that vector, puts
/// the number of its elements, and goes on to the first.
#[inline(always)]
pub fn test_vector_field(
    reads: &mut Reads<'_>,
    checks: Checks,
    table: Table,
    at: &mut u64,
    size: u32,
    align: u32,
    many: &mut u32,
) -> Option<Reason>
    requires few { reads.old.count < reads.old.base + 2 ^ 60 }
    requires placed { IsPlaced checks reads.old.bytes table.at table.head at.old }
    requires align { IsAlignment align }
    ensures tested { IsTested reads.old reads.new at.new (vector_field_failure checks reads.old.bytes table.at at.old size align) 2 result }
    ensures first { result ≡ None → at.new ≡ target reads.old.bytes at.old + 4 }
    ensures many { result ≡ None → many.new ≡ word reads.old.bytes (target reads.old.bytes at.old) 4 }
    ensures within { result ≡ None → at.new + many.new * size < 2 ^ 31 }
{
    vector_field_by(reads, checks, table, at, size, align, many)
}

/// The same, told in one clause.
#[inline(always)]
fn vector_field_by(
    reads: &mut Reads<'_>,
    checks: Checks,
    table: Table,
    at: &mut u64,
    size: u32,
    align: u32,
    many: &mut u32,
) -> Option<Reason>
    requires { (reads.old.count < reads.old.base + 2 ^ 60) × IsPlaced checks reads.old.bytes table.at table.head at.old × IsAlignment align }
    ensures { IsTested reads.old reads.new at.new (vector_field_failure checks reads.old.bytes table.at at.old size align) 2 result
        × (result ≡ None → (at.new ≡ target reads.old.bytes at.old + 4) × (many.new ≡ word reads.old.bytes (target reads.old.bytes at.old) 4) × (at.new + many.new * size < 2 ^ 31)) }
{
    if let Some(reason) = test_end(reads, checks, table, *at, 4) {
        return Some(reason);
    }
    if let Some(reason) = test_offset(reads, checks, at) {
        return Some(reason);
    }
    test_vector(reads, checks, at, size, align, many)
}

/// Tests the `uoffset` at a position, with the string that it leads to.
#[inline(always)]
fn test_text(reads: &mut Reads<'_>, checks: Checks, at: &mut u64) -> Option<Reason>
    requires few { reads.old.count < reads.old.base + 2 ^ 61 }
    requires near { at.old < 2 ^ 35 }
    ensures { IsTested reads.old reads.new at.new (lead_failure checks reads.old.bytes at.old to_string) 3 result }
{
    if let Some(reason) = test_offset(reads, checks, at) {
        return Some(reason);
    }
    test_string(reads, checks, at)
}

/// Whether a `uoffset` is known to stand where it is read.
#[derive(Clone, Copy)]
pub enum Standing {
    /// It is.
    Known,
    /// It may not.
    Unknown,
}

/// Tests the `uoffset` at a position, where it isn't known to stand there, and goes on where it leads.
#[inline(always)]
fn test_word(
    reads: &mut Reads<'_>,
    checks: Checks,
    at: &mut u64,
    standing: Standing,
) -> Option<Reason>
    requires few { reads.old.count < reads.old.base + 2 ^ 61 }
    requires near { at.old < 2 ^ 35 }
    requires stands { standing ≡ Known → StandsAt checks reads.old.bytes at.old }
    ensures tested { IsTested reads.old reads.new at.new (offset_failure checks reads.old.bytes at.old) 1 result }
    ensures value { result ≡ None → at.new ≡ target reads.old.bytes at.old }
    ensures near { result ≡ None → at.new < 2 ^ 33 }
{
    match standing {
        Standing::Known => follow(reads, checks, at),
        Standing::Unknown => test_offset(reads, checks, at),
    }
}

/// Tests the `uoffset` at a position, with the string or struct that it leads to; where it leads to a table, it goes
/// on there.
#[inline(always)]
pub fn test_lead(
    reads: &mut Reads<'_>,
    checks: Checks,
    at: &mut u64,
    referent: Referent,
    standing: Standing,
) -> Option<Reason>
    requires few { reads.old.count < reads.old.base + 2 ^ 60 }
    requires near { at.old < 2 ^ 35 }
    requires stands { standing ≡ Known → StandsAt checks reads.old.bytes at.old }
    requires align { IsSized referent }
    ensures told { tested_by at.new reads.new.count result ≡ after reads.old.count (lead_failure checks reads.old.bytes at.old (lead_to referent)) }
    ensures value { result ≡ None → (object : ℕ) → referent ≡ ATable object → at.new ≡ target reads.old.bytes at.old }
    ensures near { result ≡ None → (object : ℕ) → referent ≡ ATable object → at.new < 2 ^ 33 }
    ensures counted { result ≡ None → reads.new.count ≡ reads.old.count + lead_reads (lead_to referent) }
    ensures bytes { reads.new.bytes ≡ reads.old.bytes }
    ensures base { reads.new.base ≡ reads.old.base }
{
    led_by(reads, checks, at, referent, standing)
}

/// The same, told in one clause.
#[inline(always)]
fn led_by(
    reads: &mut Reads<'_>,
    checks: Checks,
    at: &mut u64,
    referent: Referent,
    standing: Standing,
) -> Option<Reason>
    requires { (reads.old.count < reads.old.base + 2 ^ 60) × (at.old < 2 ^ 35) × IsSized referent × (standing ≡ Known → StandsAt checks reads.old.bytes at.old) }
    ensures { (tested_by at.new reads.new.count result ≡ after reads.old.count (lead_failure checks reads.old.bytes at.old (lead_to referent)))
        × (result ≡ None → ((object : ℕ) → referent ≡ ATable object → (at.new ≡ target reads.old.bytes at.old) × (at.new < 2 ^ 33))
        × (reads.new.count ≡ reads.old.count + lead_reads (lead_to referent)))
        × (reads.new.bytes ≡ reads.old.bytes) × (reads.new.base ≡ reads.old.base) }
{
    match referent {
        Referent::Nothing => None,
        Referent::Text => {
            if let Some(reason) = test_word(reads, checks, at, standing) {
                return Some(reason);
            }
            test_string(reads, checks, at)
        }
        Referent::Table(_) => test_word(reads, checks, at, standing),
        Referent::Struct(size, align) => {
            if let Some(reason) = test_word(reads, checks, at, standing) {
                return Some(reason);
            }
            test_inline(reads, checks, *at, size, align)
        }
    }
}

/// To where fields were passed by their steps.
#[derive(Clone, Copy)]
pub enum Came {
    /// Past a field.
    Past,
    /// To the end of the vtable, or to that of the steps.
    ToEnd,
    /// To a field that stands there and may lead to a table.
    ToField,
    /// To a test that fails for this reason.
    ToFault(Reason),
}

/// Goes past a field, unless a test of it failed.
#[inline(always)]
fn past(failed: Option<Reason>) -> Came
    ensures { MatchOption failed (result ≡ Past) (λ reason. result ≡ ToFault reason) }
{
    match failed {
        None => Came::Past,
        Some(reason) => Came::ToFault(reason),
    }
}

/// Passes the field of a step that stands at a position, with the string or vector that it may lead to, unless it may
/// lead to a table. Where a test fails, the position is moved to where. The bits of the step are asked one by one: a
/// jump by its act couldn't be foretold.
#[inline(always)]
#[tactic(auto, using(crate::proofs::Alignments::small))]
fn pass_field(
    reads: &mut Reads<'_>,
    checks: Checks,
    table: Table,
    step: &Step,
    at: &mut u64,
) -> Came
    requires step { IsStep step.now (step.now).act }
    requires bit { HasBit step.now (step.now).act }
    requires placed { (reads.old.count < reads.old.base + 2 ^ 60) × IsPlaced checks reads.old.bytes table.at table.head at.old }
    ensures { Filled checks reads.old reads.new table.at step.now at.old at.new result }
{
    let bit = step.bit;
    if bit & Step::SMALL != 0 {
        return past(test_inline_field(reads, checks, table, *at, bit, bit));
    }
    if bit & Step::TEXT != 0 {
        if let Some(reason) = test_end(reads, checks, table, *at, 4) {
            return Came::ToFault(reason);
        }
        return past(test_text(reads, checks, at));
    }
    if bit & Step::LEADS_ON != 0 {
        return Came::ToField;
    }
    let size = step.size;
    let align = step.align;
    if bit & Step::VECTOR != 0 {
        let mut many = 0;
        return past(test_vector_field(reads, checks, table, at, size, align, &mut many));
    }
    past(test_inline_field(reads, checks, table, *at, size, align))
}

/// Why a scalar or struct is refused of which a test failed at this position: it isn't in the buffer, or is misaligned.
/// At no distance from its table it is absent, and isn't refused.
#[cold]
#[inline(never)]
fn small_failure(length: u64, place: u64, size: u32, distance: u64) -> Option<Reason>
    requires near { place < 2 ^ 34 }
    ensures { (distance ≡ 0 → result ≡ None) × (0 < distance → length < place + size → result ≡ Some OutOfBuffer)
        × (0 < distance → place + size ≤ length → result ≡ Some Misaligned) }
{
    if distance == 0 {
        return None;
    }
    if place + u64::from(size) > length {
        return Some(Reason::OutOfBuffer);
    }
    Some(Reason::Misaligned)
}

/// Passes a scalar or struct of one, two, four or eight bytes, aligned to as many, that stands at this distance from
/// its table, or is absent. Where it is absent the tests are made all the same, of the table's own position, since
/// processors can't predict a jump by whether a field is there; that is asked only where a test fails.
#[inline(always)]
#[tactic(auto, using(crate::proofs::Alignments::small), unfolding(crate::specs::Order::inline_failure, crate::specs::Order::table_failure, crate::specs::Places::ends_in_table))]
fn pass_small(
    reads: &Reads<'_>,
    checks: Checks,
    table: Table,
    place: u64,
    size: u32,
    distance: u64,
) -> Came
    requires placed { IsPlaced checks reads.now.bytes table.at table.head place }
    requires small { IsSmall size }
    requires cut { checks.inline_size ≡ false }
    ensures { (distance ≡ 0 → result ≡ Past)
        × (0 < distance → IsCame place reads.now.count (inline_field_failure checks reads.now.bytes table.at place size size) result) }
{
    let is_held = is_inside(reads, place, u64::from(size));
    if !is_held || !is_aligned(checks, place, size) {
        return past(small_failure(reads.len(), place, size, distance));
    }
    Came::Past
}

/// Passes a field of a table by its step, unless it stands there and may lead to a table, or its slot lies behind the
/// vtable. The position is moved to where it stands, or to where a test of it fails.
#[inline(always)]
#[tactic(auto, using(std::proofs::lemmas::Bool::Decides::nat_tests), unfolding(crate::specs::Plain::plain_failure, crate::specs::Plain::plain_reads, crate::specs::Places::field_place))]
pub fn pass_step(
    reads: &mut Reads<'_>,
    checks: Checks,
    table: Table,
    step: &Step,
    at: &mut u64,
) -> Came
    requires few { reads.old.count < reads.old.base + 2 ^ 59 }
    requires step { IsStep step.now (step.now).act }
    requires bit { HasBit step.now (step.now).act }
    requires even { (step.now).slot % 2 ≡ 0 }
    requires near { table.at < 2 ^ 33 }
    requires head { IsHead checks reads.old.bytes table.at table.head }
    ensures { Stepped checks reads.old reads.new table.at step.now at.new result }
{
    *at = table.at;
    // Both are even, so that this says that a slot of two bytes isn't inside.
    if step.slot >= table.head.size {
        return Came::ToEnd;
    }
    let distance = u64::from(reads.u16_at(table.head.vtable + u64::from(step.slot)));
    // A scalar or struct of one, two, four or eight bytes that may be absent, and whose end isn't checked.
    if step.bit & Step::SMALL != 0 && !checks.inline_size {
        *at += distance;
        return pass_small(reads, checks, table, *at, step.bit, distance);
    }
    if distance == 0 {
        if step.required {
            return Came::ToFault(Reason::MissingRequired);
        }
        return Came::Past;
    }
    *at += distance;
    pass_field(reads, checks, table, step, at)
}

/// The same of a field that is small, where the end of its table isn't checked, so that nothing more is asked of the
/// step than its size. Behind the vtable lies also the step behind a table's last one.
#[inline(always)]
#[tactic(auto, using(std::proofs::lemmas::Bool::Decides::nat_tests), unfolding(crate::specs::Plain::plain_failure, crate::specs::Plain::plain_reads, crate::specs::Places::field_place))]
pub fn pass_small_step(
    reads: &mut Reads<'_>,
    checks: Checks,
    table: Table,
    step: &Step,
    at: &mut u64,
) -> Came
    requires few { reads.old.count < reads.old.base + 2 ^ 59 }
    requires small { IsSmallStep step.now }
    requires step { IsStep step.now (step.now).act }
    requires bit { HasBit step.now (step.now).act }
    requires even { (step.now).slot % 2 ≡ 0 }
    requires near { table.at < 2 ^ 33 }
    requires head { IsHead checks reads.old.bytes table.at table.head }
    requires cut { checks.inline_size ≡ false }
    ensures stepped { Stepped checks reads.old reads.new table.at step.now at.new result }
    ensures ends { (step.now).slot ≡ 65534 → result ≡ ToEnd }
    ensures leads { result ≡ ToField → ⊥ }
{
    *at = table.at;
    if step.slot >= table.head.size {
        return Came::ToEnd;
    }
    let distance = u64::from(reads.u16_at(table.head.vtable + u64::from(step.slot)));
    *at += distance;
    pass_small(reads, checks, table, *at, step.bit, distance)
}
