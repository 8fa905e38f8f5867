// Tables as they are opened: their heads, and their slots, where these are asked.

ghost use Rattle.std.specs.Prelude.{◌≡◌, ◌+◌, ◌^◌, ◌<◌, ◌≤◌, ◌==◌, ◌||◌, length, map, slice_get, true, false, IfOk, IsTrue, Some, None};
ghost use Rattle.fb_bytes.specs.Word.{word};
ghost use Rattle.fb_schema.specs.{Live.live_of_view, Rows.is_table};
ghost use Rattle.fb_rules.specs.declared.fault.Reason.TheVariants.{UnknownField};
ghost use Rattle.fb_rules.specs.{Cost.head_reads, Facts.IsTable, Order.check, Places.vtable, Told.IsAskedAt, Told.IsHead, Told.IsVtable};
ghost use Rattle.fb_strict.specs.{Passing.IsPassing, Passing.IsRoom, Passing.Opens, Passing.SlotsPassed, Passing.opened, Leaves.is_next_slot};

use crate::pass::Pass;
use crate::room::Frame;
use fb_bytes::Reads;
use fb_rules::checks::Checks;
use fb_rules::fault::Reason;
use fb_rules::plain::fails;
use fb_rules::site::{Site, Stop};
use fb_rules::table::{Child, Head, Table};
use fb_schema::FieldView;
use std::alloc::Allocator;

/// Reads where the vtable of a table stands that was verified.
#[inline(always)]
#[tactic(auto, unfolding(fb_rules::specs::Places::has_vtable, fb_rules::specs::Places::vtable))]
fn read_vtable(reads: &mut Reads<'_>, checks: Checks, at: u64) -> u64
    requires few { reads.old.count < reads.old.base + 2 ^ 60 }
    requires table { IsTable checks reads.old.bytes at }
    requires short { length reads.old.bytes < 2 ^ 31 }
    ensures value { result ≡ vtable reads.old.bytes at }
    ensures counted { reads.new ≡ record reads.old { count = reads.old.count + 1 } }
{
    let _checks = checks;
    (at as i64 - i64::from(reads.i32_at(at))) as u64
}

/// Reads the head of a table that was verified.
#[inline(always)]
fn read_head(reads: &mut Reads<'_>, checks: Checks, at: u64) -> Head
    requires few { reads.old.count < reads.old.base + 2 ^ 59 }
    requires table { IsTable checks reads.old.bytes at }
    requires short { length reads.old.bytes < 2 ^ 31 }
    ensures head { IsHead checks reads.old.bytes at result }
    ensures counted { reads.new ≡ record reads.old { count = reads.old.count + head_reads checks } }
{
    let vtable = read_vtable(reads, checks, at);
    let size = reads.u16_at(vtable);
    let inline = if checks.inline_size {
        reads.u16_at(vtable + 2)
    } else {
        0
    };
    Head {
        vtable,
        size,
        inline,
    }
}

/// Tests a slot that has this value, and is one of a live field or isn't.
#[inline(always)]
fn test_slot(place: u16, live: bool) -> Option<Reason>
    ensures known { (place == 0 || live) ≡ true → result ≡ None }
    ensures unknown { (place == 0 || live) ≡ false → result ≡ Some UnknownField }
{
    if place == 0 || live {
        return None;
    }
    fails(Reason::UnknownField)
}

/// Whether there is a field at this place, and it has this slot.
#[inline(always)]
fn has_slot(fields: &[FieldView<'_>], next: usize, slot: u16) -> bool
    ensures { result ≡ is_next_slot (slice_get (map live_of_view fields.now) next) slot }
{
    match fields.get(next) {
        Some(field) => field.slot == slot,
        None => false,
    }
}

impl<'p, 's, 'n, A: Allocator> Pass<'p, 's, 'n, A> {
    /// Asks a slot at this position of the vtable of an open table, which is one of a live field or isn't.
    #[inline(always)]
    fn pass_slot(
        &self,
        reads: &mut Reads<'_>,
        room: u64,
        site: Site,
        table: u64,
        at: u64,
        live: bool,
    ) -> Result<(), Stop>
        requires room { IsRoom self.now.limits reads.old.base room }
        requires few { reads.old.count < reads.old.base + 2 ^ 60 }
        requires within { at + 2 ≤ length reads.old.bytes }
        ensures { IsAskedAt site self.now.limits reads.old reads.new (check (word reads.old.bytes at 2 == 0 || live) UnknownField at 1 None) 1 table result }
    {
        let place = reads.u16_at(at);
        let failed = test_slot(place, live);
        self.answer(reads, room, site, failed, at, table)
    }

    /// Asks the slots of a table that is opened, where they are asked: each beside the next live field, since these are
    /// in rising slot.
    fn pass_slots(
        &self,
        reads: &mut Reads<'_>,
        room: u64,
        site: Site,
        child: Child,
        head: Head,
    ) -> Result<(), Stop>
        requires passing { IsPassing self.now reads.old.bytes }
        requires room { IsRoom self.now.limits reads.old.base room }
        requires few { reads.old.count < reads.old.base + 2 ^ 59 + 3 }
        requires head { IsVtable reads.old.bytes child.at head }
        requires object { IsTrue (is_table self.now.rows child.object) }
        requires site { site ≡ record { object = child.object; field = None } }
        ensures { SlotsPassed self.now reads.old reads.new child result }
    {
        if !self.plan.demands().known_fields {
            return Ok(());
        }
        let fields = self.schema.fields_of(child.object);
        let count = head.size.saturating_sub(4) / 2;
        let mut next = 0;
        for passed in 0..count {
            let slot = 4 + 2 * passed;
            let live = has_slot(fields, next, slot);
            let at = head.vtable + u64::from(slot);
            if let Err(stop) = self.pass_slot(reads, room, site, child.at, at, live) {
                return Err(stop);
            }
            if live {
                next += 1;
            }
        }
        Ok(())
    }

    /// Opens a table of this object that was verified, asks the budget, and then its slots, where they are asked.
    #[inline(always)]
    pub fn open(
        &self,
        reads: &mut Reads<'_>,
        room: u64,
        child: Child,
        frame: &mut Frame,
    ) -> Result<(), Stop>
        requires passing { IsPassing self.now reads.old.bytes }
        requires room { IsRoom self.now.limits reads.old.base room }
        requires few { reads.old.count < reads.old.base + 2 ^ 59 }
        requires table { IsTable self.now.checks reads.old.bytes child.at }
        requires object { IsTrue (is_table self.now.rows child.object) }
        ensures opens { Opens self.now reads.old reads.new child result }
        ensures head { IfOk result (λ _. IsHead self.now.checks reads.old.bytes child.at ((frame.new).table).head) }
        ensures frame { IfOk result (λ _. frame.new ≡ opened (record { object = child.object; at = child.at; head = ((frame.new).table).head })) }
    {
        let site = Site {
            object: child.object,
            field: None,
        };
        let head = read_head(reads, self.checks, child.at);
        if let Err(stop) = self.answer(reads, room, site, None, child.at, child.at) {
            return Err(stop);
        }
        if let Err(stop) = self.pass_slots(reads, room, site, child, head) {
            return Err(stop);
        }
        *frame = Frame::opened(Table {
            head,
            object: child.object,
            at: child.at,
        });
        Ok(())
    }
}
