// Fields passed by their steps, and tables of which none leads to a table passed whole, by reads that are counted in a
// register.

ghost use Rattle.std.specs.Prelude.{◌≡◌, ◌+◌, ◌-◌, ◌*◌, ◌^◌, ◌<◌, ◌≤◌, length, map, IsTrue, None, true, false};
ghost use Rattle.fb_schema.specs.{Rows.is_table, Live.live_fields, Steps.is_plain, Steps.is_small, Steps.step_of, Steps.chain_of};
ghost use Rattle.fb_rules.specs.{Alike.IsKept, Cost.head_reads, OffsetRows.AreTargetsOf, Order.head_failure, Plain.IsTested, Plain.StandsAt, Told.IsHead};
ghost use Rattle.fb_rules.specs.declared.{passed.Sizes.TheVariants.Small, offset_row.Leads.TheVariants.ByType, site.LastLink.TheVariants.Behind, site.LastLink.TheVariants.InField};
ghost use Rattle.fb_rules.specs.declared.plain.{Standing.TheVariants.Known, Came.TheVariants.ToField};
ghost use Rattle.fb_verify.specs.{Stack.opened, Stack.Waiting, StopsAt.IsStopAt, Flat.in_head, Flat.frame_at, Flat.Going, Flat.MayPass, Flat.PassesFlat};
ghost use Rattle.fb_verify.specs.PassesOn.{IsBetween, HasRoom, Passage, PassesOn, CameTo, steps_left};
ghost use Rattle.fb_verify.specs.Turns.{HasWord, IsAtMember, IsBrim, IsAtMembers, IsAtFlats, FitsWhole, MemberTurned, RowTurned};
ghost use Rattle.fb_verify.specs.declared.{stack.Turn.TheVariants.Halt as Halted, flat.Extent.TheVariants.Whole, flat.Extent.TheVariants.Part};

use crate::leaves::{first_referent, stands, stop_at_word, targets_of};
use crate::scratch::Frame;
use crate::stack::{Turn, Walk};
use fb_bytes::Reads;
use fb_rules::checks::{Checks, PUBLISHED, are_published};
use fb_rules::fault::Reason;
use fb_rules::limits::{short_of, tables_of};
use fb_rules::offset_row::{Leads, Referent, Row};
use fb_rules::passed::{Passed, Sizes};
use fb_rules::plain::{
    Came, Standing, follow, pass_small_step, pass_step, test_first_word, test_head, test_lead,
    test_vtable,
};
use fb_rules::site::LastLink;
use fb_rules::table::{Child, NO_HEAD, Table};
use fb_schema::{Schema, Step, Targets};

/// The number of no field: the head of a table is under check.
pub const IN_HEAD: u32 = 4_294_967_295;

/// Passes fields of the top table by their steps, from its next field on, until one is there that may lead to a table,
/// or is behind the vtable, or fails; the position is then moved to where it stands, or to where it fails. So many are
/// left, with that one. The budget allows whatever the fields cost. There is one way back to the loop's head: with
/// more, the compiler nests loops.
#[inline(always)]
fn pass_by(
    reads: &mut Reads<'_>,
    checks: Checks,
    table: Table,
    steps: &[Step],
    left: &mut usize,
    at: &mut u64,
) -> Came
    ghost of: { Passage }
    requires between { IsBetween of.walk reads.old of.under of.top }
    requires room { HasRoom of.walk reads.old of.top }
    requires same { checks ≡ of.walk.checks }
    requires table { table ≡ of.top.table }
    requires steps { steps.now ≡ steps_left of.walk.schema.now of.top }
    ensures left { left.new ≤ length steps.now }
    ensures came { CameTo of.walk reads.old reads.new of.under of.top (record of.top { next = length (live_fields of.walk.schema.now (of.top.table).object) - left.new }) at.new result }
{
    let mut rest = steps;
    while let Some((step, more)) = rest.split_first() {
        let mut tested = 0;
        match pass_step(reads, checks, table, step, &mut tested) {
            Came::Past => rest = more,
            came => {
                *at = tested;
                *left = rest.len();
                return came;
            }
        }
    }
    *left = 0;
    Came::ToEnd
}

/// Passes fields of the top table by their steps, from the next one on, until one is there that may lead to a table,
/// and answers whether one is; the position is then moved to where it stands. Where a test fails, that is the next
/// field, and the position is moved to where it fails. The budget allows whatever the fields cost. Of the walk under
/// way, of the frames that wait in it and of its top the contract alone speaks.
#[inline(always)]
pub fn pass_steps(
    reads: &mut Reads<'_>,
    checks: Checks,
    schema: &Schema<'_>,
    table: Table,
    steps: &[Step],
    next: &mut u32,
    at: &mut u64,
) -> Result<bool, Reason>
    ghost of: { Passage }
    requires between { IsBetween of.walk reads.old of.under of.top }
    requires room { HasRoom of.walk reads.old of.top }
    requires same { checks ≡ of.walk.checks }
    requires schema { schema.now ≡ of.walk.schema.now }
    requires table { table ≡ of.top.table }
    requires next { next.old ≡ of.top.next }
    requires steps { steps.now ≡ map step_of (live_fields of.walk.schema.now table.object) }
    requires few { length steps.now < 2 ^ 32 }
    ensures { PassesOn of.walk reads.old reads.new of.under of.top (record of.top { next = next.new }) at.new result }
{
    let mut left = 0;
    let came = pass_by(
        reads,
        checks,
        table,
        &steps[*next as usize..],
        &mut left,
        at,
    );
    *next = (steps.len() - left) as u32;
    match came {
        Came::ToField => Ok(true),
        Came::ToFault(reason) => Err(reason),
        _ => {
            if left == 0 {
                return Ok(false);
            }
            let Some(needed) = schema.next_required(table.object, *next) else {
                *next = steps.len() as u32;
                return Ok(false);
            };
            *next = needed;
            *at = table.at;
            Err(Reason::MissingRequired)
        }
    }
}

/// Does what [`pass_steps`] does, where all fields are small, so that none is required or leads on. Behind the last one
/// stands a step whose slot no vtable has, so that the loop has no other end.
#[inline(always)]
fn pass_small_steps(
    reads: &mut Reads<'_>,
    checks: Checks,
    table: Table,
    chain: &[Step],
    next: &mut u32,
    at: &mut u64,
) -> Result<bool, Reason>
    ghost of: { Passage }
    requires between { IsBetween of.walk reads.old of.under of.top }
    requires room { HasRoom of.walk reads.old of.top }
    requires same { checks ≡ of.walk.checks }
    requires cut { checks.inline_size ≡ false }
    requires table { table ≡ of.top.table }
    requires next { next.old ≡ of.top.next }
    requires chain { chain.now ≡ chain_of (live_fields of.walk.schema.now table.object) }
    requires few { length chain.now ≤ 2 ^ 32 }
    requires small { is_small of.walk.schema.now table.object ≡ true }
    ensures { PassesOn of.walk reads.old reads.new of.under of.top (record of.top { next = next.new }) at.new result }
{
    let mut here = *next as usize;
    loop {
        let mut tested = 0;
        match pass_small_step(reads, checks, table, &chain[here], &mut tested) {
            Came::Past => here += 1,
            Came::ToFault(reason) => {
                *at = tested;
                *next = here as u32;
                return Err(reason);
            }
            _ => {
                *next = (chain.len() - 1) as u32;
                return Ok(false);
            }
        }
    }
}

/// Does what [`pass_steps`] does by the published checks, over bytes that are lent on: apart, since its callers would
/// grow so large with it that they wouldn't be put in place themselves.
#[inline(never)]
fn pass_steps_by_published(
    reads: &mut Reads<'_>,
    schema: &Schema<'_>,
    table: Table,
    steps: &[Step],
    next: &mut u32,
    at: &mut u64,
) -> Result<bool, Reason>
    ghost of: { Passage }
    requires between { IsBetween of.walk reads.old of.under of.top }
    requires room { HasRoom of.walk reads.old of.top }
    requires same { record { alignment = true; inline_size = false } ≡ of.walk.checks }
    requires schema { schema.now ≡ of.walk.schema.now }
    requires table { table ≡ of.top.table }
    requires next { next.old ≡ of.top.next }
    requires steps { steps.now ≡ map step_of (live_fields of.walk.schema.now table.object) }
    requires few { length steps.now < 2 ^ 32 }
    ensures { PassesOn of.walk reads.old reads.new of.under of.top (record of.top { next = next.new }) at.new result }
{
    let mut own = reads.lend();
    let passed = pass_steps(&mut own, PUBLISHED, schema, table, steps, next, at);
    reads.settle(own);
    passed
}

/// The same, in the loop for small fields where all are.
#[inline(always)]
pub fn pass_by_sizes(
    reads: &mut Reads<'_>,
    schema: &Schema<'_>,
    table: Table,
    steps: &[Step],
    next: &mut u32,
    at: &mut u64,
) -> Result<bool, Reason>
    ghost of: { Passage }
    requires between { IsBetween of.walk reads.old of.under of.top }
    requires room { HasRoom of.walk reads.old of.top }
    requires same { record { alignment = true; inline_size = false } ≡ of.walk.checks }
    requires schema { schema.now ≡ of.walk.schema.now }
    requires table { table ≡ of.top.table }
    requires next { next.old ≡ of.top.next }
    requires steps { steps.now ≡ map step_of (live_fields of.walk.schema.now table.object) }
    requires few { length steps.now < 2 ^ 32 }
    ensures { PassesOn of.walk reads.old reads.new of.under of.top (record of.top { next = next.new }) at.new result }
{
    if schema.is_small(table.object) {
        let chain = schema.chain_of(table.object);
        return pass_small_steps(reads, PUBLISHED, table, chain, next, at);
    }
    pass_steps_by_published(reads, schema, table, steps, next, at)
}

/// Passes the table at a position, of an object whose fields lead to no table: its head, and its fields by their steps.
/// Where one fails, the position is moved to where it does, and its number is written, or that of the head. The budget
/// allows whatever the table may cost.
#[inline(always)]
fn pass_flat(
    walk: &Walk<'_, '_>,
    above: &Frame,
    row: Row,
    reads: &mut Reads<'_>,
    checks: Checks,
    object: u32,
    steps: &[Step],
    schema: &Schema<'_>,
    next: &mut u32,
    at: &mut u64,
) -> Option<Reason>
    ghost going: { Going }
    requires { MayPass going reads.old checks schema.now object at.old steps.now }
    ensures { PassesFlat going.walk reads.old reads.new going.under object at.old next.new at.new result }
{
    // Of the walk, and of the frame above with what is left of its row, a caller's ghost is made.
    let _walk = walk;
    let _above = above;
    let _row = row;
    let mut head = NO_HEAD;
    let mut tested = *at;
    let failed = test_head(reads, checks, &mut tested, &mut head);
    if let Some(reason) = failed {
        *next = IN_HEAD;
        *at = tested;
        return Some(reason);
    }
    let table = Table {
        head,
        object,
        at: *at,
    };
    *next = 0;
    match pass_steps(reads, checks, schema, table, steps, next, at) {
        Ok(_) => None,
        Err(reason) => Some(reason),
    }
}

/// The same of the next table of a row. Where the one that was passed before tells that it holds, no more than its
/// first word is read, and its other reads are counted again.
#[inline(always)]
fn pass_alike(
    walk: &Walk<'_, '_>,
    above: &Frame,
    row: Row,
    reads: &mut Reads<'_>,
    checks: Checks,
    object: u32,
    steps: &[Step],
    schema: &Schema<'_>,
    passed: &mut Passed,
    next: &mut u32,
    at: &mut u64,
) -> Option<Reason>
    ghost going: { Going }
    requires may { MayPass going reads.old checks schema.now object at.old steps.now }
    requires kept { IsKept checks reads.old.bytes steps.now passed.old }
    ensures passes { PassesFlat going.walk reads.old reads.new going.under object at.old next.new at.new result }
    ensures kept { result ≡ None → IsKept checks reads.old.bytes steps.now passed.new }
{
    // Of the walk, and of the frame above with what is left of its row, a caller's ghost is made.
    let _walk = walk;
    let _above = above;
    let _row = row;
    let vtable = match test_first_word(reads, checks, *at) {
        Ok(vtable) => vtable,
        Err(reason) => {
            *next = IN_HEAD;
            return Some(reason);
        }
    };
    if passed.tells_of(*at, vtable) {
        reads.count_again(passed.reads);
        return None;
    }
    let begun = reads.count();
    let mut head = NO_HEAD;
    let mut tested = *at;
    let failed = test_vtable(reads, checks, vtable, &mut tested, &mut head);
    if let Some(reason) = failed {
        *next = IN_HEAD;
        *at = tested;
        return Some(reason);
    }
    let table = Table {
        head,
        object,
        at: *at,
    };
    *next = 0;
    match pass_steps(reads, checks, schema, table, steps, next, at) {
        Ok(_) => {
            passed.at = table.at;
            passed.vtable = vtable;
            passed.reads = reads.count() - begun;
            None
        }
        Err(reason) => Some(reason),
    }
}

/// Opens the frame of the table at a position, of this object, if its head holds; else the position is moved to where
/// that fails.
#[inline(always)]
pub fn open_frame(
    reads: &mut Reads<'_>,
    checks: Checks,
    object: u32,
    at: &mut u64,
    frame: &mut Frame,
) -> Option<Reason>
    requires few { reads.old.count < reads.old.base + 2 ^ 60 }
    requires near { at.old < 2 ^ 33 }
    ensures tested { IsTested reads.old reads.new at.new (head_failure checks reads.old.bytes at.old) (head_reads checks) result }
    ensures head { result ≡ None → IsHead checks reads.old.bytes at.old (frame.new.table).head }
    ensures opened { result ≡ None → frame.new ≡ opened (record { object = object; at = at.old; head = (frame.new.table).head }) }
{
    let mut head = NO_HEAD;
    let failed = test_head(reads, checks, at, &mut head);
    if failed.is_none() {
        *frame = Frame::opened(Table {
            head,
            object,
            at: *at,
        });
    }
    failed
}

/// How many words of a row the limits are known to allow, whatever these may cost.
#[derive(Clone, Copy)]
enum Extent {
    /// All that are left.
    Whole,
    /// Maybe not all, so that the limits are asked at each.
    Part,
}

/// Whether a word is left of a row, and the limits allow it: where they may not allow all, more words than so many are
/// left, and there were fewer reads than these.
#[inline(always)]
fn has_next(reads: &Reads<'_>, row: Row, extent: Extent, rest: u32, brim: u64) -> bool
    requires few { reads.now.count < 2 ^ 57 }
    ensures more { result ≡ true → 0 < row.left }
    ensures allowed { result ≡ true → extent ≡ Part → (rest < row.left) × (reads.now.count < brim) }
{
    match extent {
        Extent::Whole => row.left > 0,
        Extent::Part => row.left > rest && reads.count() < brim,
    }
}

impl<'s, 'n> Walk<'s, 'n> {
    /// Whether a `uoffset` is left of a row, and the limits allow to pass it and to open one more table behind it,
    /// for so many reads at most.
    #[inline(always)]
    fn has_word(&self, reads: &Reads<'_>, row: Row, cost: u64, room: u64) -> bool
        requires cost { cost < 2 ^ 40 }
        requires few { reads.now.count < 2 ^ 57 }
        ensures { result ≡ true → HasWord self.now reads.now row cost room }
    {
        row.left > 0 && self.tables < tables_of(self.limits) && reads.count() + cost <= room
    }

    /// Passes `uoffset`s that are left of the top table's field, each with the table to which it leads, whose fields
    /// lead to no table: as many as the limits allow to open, so that the budget allows whatever each may cost. So many
    /// frames wait below the top.
    #[inline(always)]
    fn pass_flats(
        &mut self,
        checks: Checks,
        reads: &mut Reads<'_>,
        waiting: u32,
        object: u32,
        sizes: Sizes,
        extent: Extent,
        top: &mut Frame,
    ) -> Turn
        ghost under: { Waiting }
        requires flats { IsAtFlats self.old reads.old under waiting top.old object }
        requires same { checks ≡ self.old.checks }
        requires small { sizes ≡ Small → is_small self.old.schema.now object ≡ true }
        requires whole { extent ≡ Whole → FitsWhole self.old reads.old top.old.row (length (live_fields self.old.schema.now object)) }
        ensures { (child : Child) → RowTurned self.old self.new reads.old reads.new under top.old top.new child result }
    {
        let schema = self.schema;
        let steps = schema.steps_of(object);
        // The same words, of which it is known here what they lead to.
        let mut row = Row {
            leads: Leads::All(Referent::Table(object)),
            place: top.row.place,
            left: top.row.left,
        };
        if !stands(reads, checks, row) {
            return Turn::Slowly;
        }
        let brim = self.brim_for(8 + 6 * steps.len() as u64);
        let rest = row
            .left
            .saturating_sub(tables_of(self.limits) - self.tables);
        let mut passed = Passed::none(sizes);
        while has_next(reads, row, extent, rest, brim) {
            let mut at = row.place;
            let failed = follow(reads, checks, &mut at);
            if let Some(reason) = failed {
                let stop = stop_at_word(top, row, at, reason);
                return self.stop(stop, waiting + 1, LastLink::Behind);
            }
            row.advance_all();
            let mut next = 0;
            let came = pass_alike(
                self,
                top,
                row,
                reads,
                checks,
                object,
                steps,
                schema,
                &mut passed,
                &mut next,
                &mut at,
            );
            if let Some(reason) = came {
                top.row = row;
                return self.stop_in_flat(object, next, at, reason, waiting + 1);
            }
        }
        self.count_tables(waiting + 2, top.row.left - row.left);
        top.row = row;
        if row.left == 0 {
            Turn::Up
        } else {
            Turn::Slowly
        }
    }

    /// The same by the published checks, which are constants then, over bytes that are lent on.
    #[inline(never)]
    fn pass_flats_by_published(
        &mut self,
        reads: &mut Reads<'_>,
        waiting: u32,
        object: u32,
        top: &mut Frame,
    ) -> Turn
        ghost under: { Waiting }
        requires flats { IsAtFlats self.old reads.old under waiting top.old object }
        requires same { record { alignment = true; inline_size = false } ≡ self.old.checks }
        requires whole { FitsWhole self.old reads.old top.old.row (length (live_fields self.old.schema.now object)) }
        ensures { (child : Child) → RowTurned self.old self.new reads.old reads.new under top.old top.new child result }
    {
        let mut own = reads.lend();
        let turn = self.pass_flats(
            PUBLISHED,
            &mut own,
            waiting,
            object,
            Sizes::Any,
            Extent::Whole,
            top,
        );
        reads.settle(own);
        turn
    }

    /// The same where each of the tables has small fields alone.
    #[inline(never)]
    fn pass_small_by_published(
        &mut self,
        reads: &mut Reads<'_>,
        waiting: u32,
        object: u32,
        top: &mut Frame,
    ) -> Turn
        ghost under: { Waiting }
        requires flats { IsAtFlats self.old reads.old under waiting top.old object }
        requires same { record { alignment = true; inline_size = false } ≡ self.old.checks }
        requires small { is_small self.old.schema.now object ≡ true }
        requires whole { FitsWhole self.old reads.old top.old.row (length (live_fields self.old.schema.now object)) }
        ensures { (child : Child) → RowTurned self.old self.new reads.old reads.new under top.old top.new child result }
    {
        let mut own = reads.lend();
        let turn = self.pass_flats(
            PUBLISHED,
            &mut own,
            waiting,
            object,
            Sizes::Small,
            Extent::Whole,
            top,
        );
        reads.settle(own);
        turn
    }

    /// The same, whatever the checks are.
    #[cold]
    #[inline(never)]
    fn pass_flats_by_checks(
        &mut self,
        reads: &mut Reads<'_>,
        waiting: u32,
        object: u32,
        top: &mut Frame,
    ) -> Turn
        ghost under: { Waiting }
        requires { IsAtFlats self.old reads.old under waiting top.old object }
        ensures { (child : Child) → RowTurned self.old self.new reads.old reads.new under top.old top.new child result }
    {
        self.pass_flats(
            self.checks,
            reads,
            waiting,
            object,
            Sizes::Any,
            Extent::Part,
            top,
        )
    }

    /// Whether the limits allow all words of a row to be passed with the tables of this object to which they lead.
    #[inline(always)]
    fn fits_whole(&self, reads: &Reads<'_>, row: Row, object: u32) -> bool
        requires table { IsTrue (is_table self.now.schema.now object) }
        requires fields { length (live_fields self.now.schema.now object) ≤ 32766 }
        requires tables { self.now.tables ≤ (self.now.limits).tables }
        requires few { reads.now.count < 2 ^ 57 }
        ensures { result ≡ true → FitsWhole self.now reads.now row (length (live_fields self.now.schema.now object)) }
    {
        let cost = 8 + 6 * self.schema.steps_of(object).len() as u32;
        let most = u64::from(row.left) * u64::from(cost);
        row.left <= tables_of(self.limits) - self.tables
            && most < short_of(self.limits).saturating_sub(reads.count())
    }

    /// The same, by the function for the walk's checks.
    #[inline(always)]
    pub fn pass_flats_on(
        &mut self,
        checks: Checks,
        reads: &mut Reads<'_>,
        waiting: u32,
        object: u32,
        top: &mut Frame,
    ) -> Turn
        ghost under: { Waiting }
        requires flats { IsAtFlats self.old reads.old under waiting top.old object }
        requires same { checks ≡ self.old.checks }
        ensures { (child : Child) → RowTurned self.old self.new reads.old reads.new under top.old top.new child result }
    {
        if are_published(checks) && self.fits_whole(reads, top.row, object) {
            if top.row.left > 1 && self.schema.is_small(object) {
                return self.pass_small_by_published(reads, waiting, object, top);
            }
            return self.pass_flats_by_published(reads, waiting, object, top);
        }
        self.pass_flats_by_checks(reads, waiting, object, top)
    }

    /// Passes the first `uoffset` of a row, with what it leads to, and answers `Up`; unless that is a table of which
    /// a field may lead on, or to which the walk comes at the brim: such a table is to be opened. The top is left with the row past that word, if it is to be opened or the walk stops. So many frames wait below it.
    #[inline(always)]
    pub fn pass_member(
        &mut self,
        checks: Checks,
        reads: &mut Reads<'_>,
        waiting: u32,
        brim: u64,
        standing: Standing,
        targets: Targets<'_>,
        row: &mut Row,
        top: &mut Frame,
        child: &mut Child,
    ) -> Turn
        ghost under: { Waiting }
        requires member { IsAtMember self.old reads.old under waiting top.old row.old }
        requires brim { IsBrim self.old brim }
        requires stands { standing ≡ Known → StandsAt checks reads.old.bytes row.old.place }
        requires targets { AreTargetsOf self.old.schema.now targets row.old.leads }
        requires same { checks ≡ self.old.checks }
        ensures { MemberTurned self.old self.new reads.old reads.new under top.old top.new row.old row.new child.new result }
    {
        let schema = self.schema;
        let referent = first_referent(reads, targets, schema, *row);
        let mut at = row.place;
        let failed = test_lead(reads, checks, &mut at, referent, standing);
        if let Some(reason) = failed {
            let stop = stop_at_word(top, *row, at, reason);
            return self.stop(stop, waiting + 1, LastLink::Behind);
        }
        row.advance();
        if let Referent::Table(object) = referent {
            self.count_table(waiting + 2);
            let steps = schema.steps_of(object);
            if !schema.is_plain(object) || reads.count() >= brim {
                top.row = *row;
                child.object = object;
                child.at = at;
                return Turn::Down;
            }
            let mut next = 0;
            let came = pass_flat(
                self, top, *row, reads, checks, object, steps, schema, &mut next, &mut at,
            );
            if let Some(reason) = came {
                top.row = *row;
                return self.stop_in_flat(object, next, at, reason, waiting + 1);
            }
        }
        Turn::Up
    }

    /// Passes `uoffset`s that are left of the top table's field, each with what it leads to by these types of a
    /// union, until one leads to a table of which a field may lead on, which is to be opened. So many frames wait below
    /// the top.
    #[inline(always)]
    fn pass_members(
        &mut self,
        checks: Checks,
        reads: &mut Reads<'_>,
        waiting: u32,
        union: u32,
        types: u64,
        top: &mut Frame,
        child: &mut Child,
    ) -> Turn
        ghost under: { Waiting }
        requires members { IsAtMembers self.old reads.old under waiting top.old }
        requires leads { (top.old.row).leads ≡ ByType union types }
        requires same { checks ≡ self.old.checks }
        ensures { RowTurned self.old self.new reads.old reads.new under top.old top.new child.new result }
    {
        let schema = self.schema;
        if !stands(reads, checks, top.row) {
            return Turn::Slowly;
        }
        let room = short_of(self.limits);
        let brim = self.brim();
        // The same words, whose types are known at each turn of the loop then.
        let leads = Leads::ByType(union, types);
        let targets = targets_of(schema, leads);
        let mut row = Row {
            leads,
            place: top.row.place,
            left: top.row.left,
        };
        while self.has_word(reads, row, 8, room) {
            match self.pass_member(
                checks,
                reads,
                waiting,
                brim,
                Standing::Known,
                targets,
                &mut row,
                top,
                child,
            ) {
                Turn::Up => {}
                turn => return turn,
            }
        }
        top.row = row;
        if row.left == 0 {
            Turn::Up
        } else {
            Turn::Slowly
        }
    }

    /// The same by the published checks, which are constants then, over bytes that are lent on.
    #[inline(never)]
    fn pass_members_by_published(
        &mut self,
        reads: &mut Reads<'_>,
        waiting: u32,
        union: u32,
        types: u64,
        top: &mut Frame,
        child: &mut Child,
    ) -> Turn
        ghost under: { Waiting }
        requires members { IsAtMembers self.old reads.old under waiting top.old }
        requires leads { (top.old.row).leads ≡ ByType union types }
        requires same { record { alignment = true; inline_size = false } ≡ self.old.checks }
        ensures { RowTurned self.old self.new reads.old reads.new under top.old top.new child.new result }
    {
        let mut own = reads.lend();
        let turn = self.pass_members(PUBLISHED, &mut own, waiting, union, types, top, child);
        reads.settle(own);
        turn
    }

    /// The same, whatever the checks are.
    #[cold]
    #[inline(never)]
    fn pass_members_by_checks(
        &mut self,
        reads: &mut Reads<'_>,
        waiting: u32,
        union: u32,
        types: u64,
        top: &mut Frame,
        child: &mut Child,
    ) -> Turn
        ghost under: { Waiting }
        requires members { IsAtMembers self.old reads.old under waiting top.old }
        requires leads { (top.old.row).leads ≡ ByType union types }
        ensures { RowTurned self.old self.new reads.old reads.new under top.old top.new child.new result }
    {
        self.pass_members(self.checks, reads, waiting, union, types, top, child)
    }

    /// The same, by the function for the walk's checks.
    #[inline(always)]
    pub fn pass_members_on(
        &mut self,
        checks: Checks,
        reads: &mut Reads<'_>,
        waiting: u32,
        union: u32,
        types: u64,
        top: &mut Frame,
        child: &mut Child,
    ) -> Turn
        ghost under: { Waiting }
        requires members { IsAtMembers self.old reads.old under waiting top.old }
        requires leads { (top.old.row).leads ≡ ByType union types }
        requires same { checks ≡ self.old.checks }
        ensures { RowTurned self.old self.new reads.old reads.new under top.old top.new child.new result }
    {
        if are_published(checks) {
            return self.pass_members_by_published(reads, waiting, union, types, top, child);
        }
        self.pass_members_by_checks(reads, waiting, union, types, top, child)
    }

    /// Stops in a table of this object whose fields lead on nowhere: at its head, or at its next field.
    #[cold]
    #[inline(never)]
    fn stop_in_flat(&mut self, object: u32, next: u32, at: u64, reason: Reason, links: u32) -> Turn
        requires table { IsTrue (is_table self.old.schema.now object) }
        requires next { (next ≡ in_head → ⊥) → next < length (live_fields self.old.schema.now object) }
        ensures turn { result ≡ Halted }
        ensures same { self.new ≡ record self.old { halt = self.new.halt } }
        ensures links { (self.new.halt).links ≡ links }
        ensures head { next ≡ in_head → self.new.halt
            ≡ record { stop = record { refusal = record { at = at; reason = reason }; site = record { object = object; field = None } }; links = links; last = Behind } }
        ensures field { (next ≡ in_head → ⊥) → IsStopAt self.old.schema.now (frame_at object next) at reason self.new.halt.stop × ((self.new.halt).last ≡ InField) }
    {
        if next == IN_HEAD {
            return self.stop_in_head(object, at, reason, links);
        }
        self.stop_in_field(object, next, at, reason, links)
    }
}
