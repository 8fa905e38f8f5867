// The walk: a loop over the frames of the open tables, by reads that are lent once.

ghost use Rattle.std.specs.Prelude.{[], ◌≡◌, ◌+◌, ◌*◌, ◌^◌, ◌<◌, ◌≤◌, max, min, length, map, take, slice_get, slice_index_or, IsTrue, Some, None, true};
ghost use Rattle.fb_schema.specs.{Rows.is_table, Live.Live, Live.live_fields, Steps.is_plain, Steps.step_of, Served.IsServed};
ghost use Rattle.fb_rules.specs.{Bounds.AreAllowed, Told.way_at, declared.offset_row.Leads.TheVariants.All};
ghost use Rattle.fb_rules.specs.declared.site.LastLink.TheVariants.{Behind, InField};
ghost use Rattle.fb_verify.specs.{Flat.Going, PassesOn.IsBetween, PassesOn.HasRoom, PassesOn.Passage, PassesOn.PassesOn};
ghost use Rattle.fb_verify.specs.Stack.{blank, Origin, Waiting, IsWalking, opened};
ghost use Rattle.fb_verify.specs.Turns.{IsShort, IsAtChild, IsAtStep, IsAtTableField, AllowsTable, IsAtWord, IsBrim, IsBrimFor, IsInRow, with_tables, HasRoomToGo, RowTurned, FieldTurned};
ghost use Rattle.fb_verify.specs.{Turns.Turned, Turns.Opened, Turns.FramesTurned, Turns.RootTurned, Turns.Walked, Turns.Ran, declared.stack.Turn.TheVariants.Halt as Halted};

use crate::flat::{open_frame, pass_by_sizes, pass_steps};
use crate::scratch::Frame;
use fb_bytes::{Loan, Reads};
use fb_rules::checks::{Checks, PUBLISHED, are_published};
use fb_rules::fault::Reason;
use fb_rules::limits::{Limits, allows_short, short_of, tables_of};
use fb_rules::offset_row::{Leads, Referent, Row};
use fb_rules::plain::{test_end, test_offset};
use fb_rules::site::{Halt, LastLink, Refusal, Site, Stop};
use fb_rules::table::{Child, NO_CHILD, Table};
use fb_schema::{Schema, Step};

/// How a walk goes on, once it was a while in the top table.
#[derive(Clone, Copy)]
pub enum Turn {
    /// In a table below, which is to be opened.
    Down,
    /// In the table above: the top is passed to its end. In a row, with the next field; at one of its words, with the
    /// next one.
    Up,
    /// By single units, since a limit may be met in the next one.
    Slowly,
    /// Not at all: it stops.
    Halt,
}

/// What a walk carries: what it is asked, the tables that it opened, the greatest number of them that were open at
/// once, and where it stops, once it does.
#[derive(Drop)]
pub struct Walk<'s, 'n> {
    pub schema: &'s Schema<'n>,
    pub limits: Limits,
    pub checks: Checks,
    pub tables: u32,
    pub deepest: u32,
    pub halt: Halt,
}

/// Whether there is a frame for a table below the top, below which so many wait, or the depth allows none there.
#[inline(always)]
fn has_frame_below(frames: &[Frame], depth: usize, waiting: u32) -> bool
    requires { waiting < 4294967295 }
    ensures { result ≡ true → min depth (waiting + 2) ≤ length frames.now }
{
    waiting as usize + 1 < frames.len() || depth <= frames.len()
}

/// Where a walk by this schema stops at the next field of a table of this object.
#[cold]
#[inline(never)]
fn stop_by(schema: &Schema<'_>, object: u32, next: u32, at: u64, reason: Reason) -> Stop
    requires table { IsTrue (is_table schema.now object) }
    requires next { next < length (live_fields schema.now object) }
    ensures refusal { result.refusal ≡ record { at = at; reason = reason } }
    ensures object { (result.site).object ≡ object }
    ensures field { (f : Live) → slice_get (live_fields schema.now object) next ≡ Some f → (result.site).field ≡ Some f.number }
{
    let field = schema.field_at(object, next);
    Stop {
        refusal: Refusal { at, reason },
        site: Site {
            object,
            field: Some(field.number),
        },
    }
}

impl<'s, 'n> Walk<'s, 'n> {
    /// Stops there, where the words of so many frames lead.
    #[cold]
    #[inline(never)]
    pub fn stop(&mut self, stop: Stop, links: u32, last: LastLink) -> Turn
        ensures turn { result ≡ Halted }
        ensures halt { self.new ≡ record self.old { halt = record { stop = stop; links = links; last = last } } }
    {
        self.halt = stop.halt(links, last);
        Turn::Halt
    }

    /// Stops at the head of a table of this object.
    #[cold]
    #[inline(never)]
    pub fn stop_in_head(&mut self, object: u32, at: u64, reason: Reason, links: u32) -> Turn
        ensures turn { result ≡ Halted }
        ensures halt { self.new ≡ record self.old {
          halt = record { stop = record { refusal = record { at = at; reason = reason }; site = record { object = object; field = None } }; links = links; last = Behind };
        } }
    {
        let site = Site {
            object,
            field: None,
        };
        let refusal = Refusal { at, reason };
        self.stop(Stop { refusal, site }, links, LastLink::Behind)
    }

    /// Stops at the next field of a table of this object.
    #[cold]
    #[inline(never)]
    pub fn stop_in_field(
        &mut self,
        object: u32,
        next: u32,
        at: u64,
        reason: Reason,
        links: u32,
    ) -> Turn
        requires table { IsTrue (is_table self.old.schema.now object) }
        requires next { next < length (live_fields self.old.schema.now object) }
        ensures turn { result ≡ Halted }
        ensures same { self.new ≡ record self.old { halt = self.new.halt } }
        ensures refusal { (self.new.halt.stop).refusal ≡ record { at = at; reason = reason } }
        ensures object { ((self.new.halt.stop).site).object ≡ object }
        ensures field { (f : Live) → slice_get (live_fields self.old.schema.now object) next ≡ Some f → ((self.new.halt.stop).site).field ≡ Some f.number }
        ensures links { (self.new.halt).links ≡ links }
        ensures last { (self.new.halt).last ≡ InField }
    {
        let _schema = self.schema;
        let stop = self.stop_at(object, next, at, reason);
        self.stop(stop, links, LastLink::InField)
    }

    /// Where the walk stops at the next field of a table of this object.
    #[cold]
    #[inline(never)]
    pub fn stop_at(&self, object: u32, next: u32, at: u64, reason: Reason) -> Stop
        requires table { IsTrue (is_table self.now.schema.now object) }
        requires next { next < length (live_fields self.now.schema.now object) }
        ensures refusal { result.refusal ≡ record { at = at; reason = reason } }
        ensures object { (result.site).object ≡ object }
        ensures field { (f : Live) → slice_get (live_fields self.now.schema.now object) next ≡ Some f → (result.site).field ≡ Some f.number }
    {
        stop_by(self.schema, object, next, at, reason)
    }

    /// How many reads there may be so that the budget allows so many more.
    #[inline(always)]
    pub fn brim_for(&self, most: u64) -> u64
        ensures { IsBrimFor self.now most result }
    {
        short_of(self.limits).saturating_sub(most)
    }

    /// How many reads there may be so that the budget allows whatever the fields of any table may cost: it is asked of
    /// the fields that are left only from there on.
    #[inline(always)]
    pub fn brim(&self) -> u64
        ensures { IsBrim self.now result }
    {
        let most = 7 + 6 * u64::from(self.schema.widest());
        short_of(self.limits).saturating_sub(most)
    }

    /// Whether the budget allows whatever the other fields of the top table may cost by themselves, with the strings
    /// that they may lead to: six reads each, and eight for what the last of them may lead to.
    #[inline(always)]
    #[tactic(auto, using(fb_rules::proofs::Budgets::fewer_reads, fb_schema::proofs::LookLemmas::within_widest))]
    fn has_room(&self, reads: &Reads<'_>, brim: u64, top: &Frame) -> bool
        requires table { IsTrue (is_table self.now.schema.now (top.now.table).object) }
        requires next { top.now.next ≤ length (live_fields self.now.schema.now (top.now.table).object) }
        requires few { IsShort reads.now.count }
        requires brim { IsBrim self.now brim }
        ensures { result ≡ true → HasRoomToGo self.now reads.now top.now }
    {
        reads.count() < brim || self.has_room_left(reads, top)
    }

    /// The same by the fields that are left.
    #[cold]
    #[inline(never)]
    fn has_room_left(&self, reads: &Reads<'_>, top: &Frame) -> bool
        requires table { IsTrue (is_table self.now.schema.now (top.now.table).object) }
        requires next { top.now.next ≤ length (live_fields self.now.schema.now (top.now.table).object) }
        requires few { IsShort reads.now.count }
        ensures { result ≡ true → HasRoomToGo self.now reads.now top.now }
    {
        let left = self.schema.steps_of(top.table.object).len() as u64 - u64::from(top.next);
        reads.count() + 8 + 6 * left <= short_of(self.limits)
    }

    /// Whether one more table may be opened, where so many are open, and so many reads may be counted with it, up to
    /// so many in all.
    #[inline(always)]
    pub fn may_open(&self, reads: &Reads<'_>, links: u32, cost: u64, room: u64) -> bool
        requires cost { cost < 2 ^ 40 }
        requires few { IsShort reads.now.count }
        ensures limits { result ≡ true → AllowsTable self.now links }
        ensures room { result ≡ true → reads.now.count + cost ≤ room }
    {
        self.allows_table(links) && reads.count() + cost <= room
    }

    /// The same, but for the reads.
    #[inline(always)]
    pub fn allows_table(&self, links: u32) -> bool
        ensures { result ≡ true → AllowsTable self.now links }
    {
        links < self.limits.depth() && self.tables < tables_of(self.limits)
    }

    /// Counts a table that is opened, with which so many are open.
    #[inline(always)]
    pub fn count_table(&mut self, links: u32)
        requires few { self.old.tables < 4294967295 }
        ensures { self.new ≡ record self.old { tables = self.old.tables + 1; deepest = max self.old.deepest links } }
    {
        self.tables += 1;
        if self.deepest < links {
            self.deepest = links;
        }
    }

    /// Counts so many tables that were opened, with each of which so many were open.
    #[inline(always)]
    pub fn count_tables(&mut self, links: u32, n: u32)
        requires few { self.old.tables + n < 2 ^ 32 }
        ensures { self.new ≡ with_tables self.old links n }
    {
        if n > 0 {
            self.tables += n;
            self.deepest = self.deepest.max(links);
        }
    }

    /// Comes to the table to which the first word of a row leads, and leaves the top with the row past that word. The
    /// limits allow it.
    #[inline(always)]
    fn take_word(
        &mut self,
        checks: Checks,
        reads: &mut Reads<'_>,
        waiting: u32,
        object: u32,
        row: Row,
        top: &mut Frame,
        child: &mut Child,
    ) -> Turn
        ghost under: { Waiting }
        requires word { IsAtWord self.old reads.old under waiting top.old row object }
        requires limits { AllowsTable self.old (waiting + 1) }
        requires room { AreAllowed (self.old.limits).reads (reads.old.count + 4) }
        requires short { IsShort (reads.old.count + 4) }
        requires same { checks ≡ self.old.checks }
        ensures { RowTurned self.old self.new reads.old reads.new under (record top.old { row = row }) top.new child.new result }
    {
        let mut at = row.place;
        // No call is handed the row, so that it needs no place in memory.
        let failed = test_offset(reads, checks, &mut at);
        top.row = row;
        top.row.advance_all();
        if let Some(reason) = failed {
            let refusal = Refusal { at, reason };
            let site = top.site();
            return self.stop(Stop { refusal, site }, waiting + 1, LastLink::Behind);
        }
        self.count_table(waiting + 2);
        child.object = object;
        child.at = at;
        Turn::Down
    }

    /// Comes to the table to which the first word of a row leads, and leaves the top with the row past that word; where
    /// a limit may be met, with the row as it is.
    #[inline(always)]
    fn next_table(
        &mut self,
        checks: Checks,
        reads: &mut Reads<'_>,
        waiting: u32,
        object: u32,
        row: Row,
        top: &mut Frame,
        child: &mut Child,
    ) -> Turn
        ghost under: { Waiting }
        requires word { IsAtWord self.old reads.old under waiting top.old row object }
        requires same { checks ≡ self.old.checks }
        ensures { RowTurned self.old self.new reads.old reads.new under (record top.old { row = row }) top.new child.new result }
    {
        let _schema = self.schema;
        if !self.may_open(reads, waiting + 1, 8, short_of(self.limits)) {
            top.row = row;
            return Turn::Slowly;
        }
        self.take_word(checks, reads, waiting, object, row, top, child)
    }

    /// Passes the words of the top's row until one leads to a table that is to be opened.
    #[inline(always)]
    pub fn pass_row_by(
        &mut self,
        checks: Checks,
        reads: &mut Reads<'_>,
        waiting: u32,
        top: &mut Frame,
        child: &mut Child,
    ) -> Turn
        ghost under: { Waiting }
        requires row { IsInRow self.old reads.old under waiting top.old }
        requires same { checks ≡ self.old.checks }
        ensures { RowTurned self.old self.new reads.old reads.new under top.old top.new child.new result }
    {
        let is_deepest = waiting + 1 >= self.limits.depth();
        // Unions come behind tables, so that the loops over them lie well, which bench/jumps tells of.
        match top.row.leads {
            Leads::All(Referent::Table(object)) => {
                if !self.schema.is_plain(object) {
                    return self.next_table(checks, reads, waiting, object, top.row, top, child);
                }
                if is_deepest {
                    return Turn::Slowly;
                }
                self.pass_flats_on(checks, reads, waiting, object, top)
            }
            Leads::ByType(union, types) => {
                if is_deepest {
                    return Turn::Slowly;
                }
                self.pass_members_on(checks, reads, waiting, union, types, top, child)
            }
            Leads::All(referent) => self.pass_words(checks, reads, waiting, referent, top),
        }
    }

    /// The same, whatever the checks are.
    #[cold]
    #[inline(never)]
    fn pass_row_by_checks(
        &mut self,
        reads: &mut Reads<'_>,
        waiting: u32,
        top: &mut Frame,
        child: &mut Child,
    ) -> Turn
        ghost under: { Waiting }
        requires { IsInRow self.old reads.old under waiting top.old }
        ensures { RowTurned self.old self.new reads.old reads.new under top.old top.new child.new result }
    {
        self.pass_row_by(self.checks, reads, waiting, top, child)
    }

    /// The same, quickly where the checks are the published ones, which are constants then.
    #[inline(never)]
    pub fn pass_row(
        &mut self,
        reads: &mut Reads<'_>,
        waiting: u32,
        top: &mut Frame,
        child: &mut Child,
    ) -> Turn
        ghost under: { Waiting }
        requires { IsInRow self.old reads.old under waiting top.old }
        ensures { RowTurned self.old self.new reads.old reads.new under top.old top.new child.new result }
    {
        if !are_published(self.checks) {
            return self.pass_row_by_checks(reads, waiting, top, child);
        }
        self.pass_row_by(PUBLISHED, reads, waiting, top, child)
    }

    /// Goes into the top's next field, which stands there and leads to one table of this object.
    #[inline(always)]
    fn go_to_table(
        &mut self,
        checks: Checks,
        reads: &mut Reads<'_>,
        waiting: u32,
        at: u64,
        step: &Step,
        top: &mut Frame,
        child: &mut Child,
    ) -> Turn
        ghost under: { Waiting }
        requires field { IsAtTableField self.old reads.old under waiting top.old at (step.now).slot (step.now).size }
        requires same { checks ≡ self.old.checks }
        ensures { FieldTurned self.old self.new reads.old reads.new under top.old top.new child.new result }
    {
        let _schema = self.schema;
        let failed = test_end(reads, checks, top.table, at, 4);
        if let Some(reason) = failed {
            return self.stop_in_field(top.table.object, top.next, at, reason, waiting);
        }
        top.next += 1;
        top.number = (step.slot - 4) / 2;
        let row = Row::one(Referent::Table(step.size), at);
        // The budget was asked with the fields.
        if !self.allows_table(waiting + 1) {
            top.row = row;
            return Turn::Slowly;
        }
        self.take_word(checks, reads, waiting, step.size, row, top, child)
    }

    /// Goes into the top's next field, which stands there and may lead on.
    #[inline(always)]
    fn go_into(
        &mut self,
        checks: Checks,
        reads: &mut Reads<'_>,
        waiting: u32,
        at: u64,
        step: &Step,
        top: &mut Frame,
        child: &mut Child,
    ) -> Turn
        ghost under: { Waiting }
        requires field { IsAtStep self.old reads.old under waiting top.old at step.now }
        requires same { checks ≡ self.old.checks }
        ensures { FieldTurned self.old self.new reads.old reads.new under top.old top.new child.new result }
    {
        if step.bit & Step::TO_TABLE != 0 {
            return self.go_to_table(checks, reads, waiting, at, step, top, child);
        }
        self.go_far(reads, waiting, at, top, child)
    }

    /// Goes on with the fields of the top table until one leads to a table that is to be opened.
    #[inline(always)]
    fn pass_fields(
        &mut self,
        checks: Checks,
        reads: &mut Reads<'_>,
        brim: u64,
        waiting: u32,
        top: &mut Frame,
        child: &mut Child,
    ) -> Turn
        ghost under: { Waiting }
        requires waiting { waiting ≡ length under.frames }
        requires between { IsBetween self.old reads.old under top.old }
        requires short { IsShort reads.old.count }
        requires brim { IsBrim self.old brim }
        requires same { checks ≡ self.old.checks }
        ensures { Turned self.old self.new reads.old reads.new under top.old top.new child.new result }
    {
        let steps = self.schema.steps_of(top.table.object);
        let mut at = 0;
        while self.has_room(reads, brim, top) {
            match self.pass_plain(checks, reads, steps, top, &mut at) {
                Ok(true) => {}
                Ok(false) => return Turn::Up,
                Err(reason) => {
                    return self.stop_in_field(top.table.object, top.next, at, reason, waiting);
                }
            }
            let step = &steps[top.next as usize];
            match self.go_into(checks, reads, waiting, at, step, top, child) {
                Turn::Up => {}
                turn => return turn,
            }
        }
        Turn::Slowly
    }

    /// Goes on with the row and the fields of the top table until one leads to a table that is to be opened.
    #[inline(always)]
    fn pass_top(
        &mut self,
        checks: Checks,
        reads: &mut Reads<'_>,
        brim: u64,
        waiting: u32,
        top: &mut Frame,
        child: &mut Child,
    ) -> Turn
        ghost under: { Waiting }
        requires waiting { waiting ≡ length under.frames }
        requires walking { IsWalking self.old reads.old under.start under.frames top.old }
        requires short { IsShort reads.old.count }
        requires brim { IsBrim self.old brim }
        requires same { checks ≡ self.old.checks }
        ensures { Turned self.old self.new reads.old reads.new under top.old top.new child.new result }
    {
        if top.row.left > 0 {
            match self.pass_row(reads, waiting, top, child) {
                Turn::Up => {}
                turn => return turn,
            }
        }
        self.pass_fields(checks, reads, brim, waiting, top, child)
    }

    /// Opens the frame of a table that was counted, below a frame that waits for it, and so many in all.
    #[inline(always)]
    fn open_child(
        &mut self,
        checks: Checks,
        reads: &mut Reads<'_>,
        links: u32,
        above: &Frame,
        child: Child,
        below: &mut Frame,
    ) -> Turn
        ghost under: { Waiting }
        requires links { links ≡ length under.frames }
        requires child { IsAtChild self.old reads.old under.start under.frames child }
        requires short { IsShort (reads.old.count + 3) }
        requires same { checks ≡ self.old.checks }
        ensures { Opened self.old self.new reads.old reads.new under below.new child result }
    {
        // Only the contract speaks of the frame above.
        let _above = above;
        let mut at = child.at;
        let failed = open_frame(reads, checks, child.object, &mut at, below);
        if let Some(reason) = failed {
            return self.stop_in_head(child.object, at, reason, links);
        }
        Turn::Down
    }

    /// One turn of the walk: goes on in the top table to a table below it, which is opened, or to its end, so that the
    /// table above it becomes the top, if there is one. So many frames wait below the top.
    #[inline(always)]
    fn turn(
        &mut self,
        checks: Checks,
        reads: &mut Reads<'_>,
        brim: u64,
        frames: &mut [Frame],
        waiting: u32,
        child: &mut Child,
    ) -> Turn
        ghost under: { Waiting }
        requires under { under.frames ≡ take waiting frames.old }
        requires walking { IsWalking self.old reads.old under.start under.frames (slice_index_or frames.old waiting blank) }
        requires room { min (self.old.limits).depth (waiting + 2) ≤ length frames.old }
        requires top { waiting < length frames.old }
        requires short { IsShort reads.old.count }
        requires brim { IsBrim self.old brim }
        requires same { checks ≡ self.old.checks }
        ensures { FramesTurned self.old self.new reads.old reads.new under.start frames.old frames.new waiting result }
    {
        let at = waiting as usize;
        let (low, room) = frames.split_at_mut(at + 1);
        let top = &mut low[at];
        match self.pass_top(checks, reads, brim, waiting, top, child) {
            Turn::Down => self.open_child(checks, reads, waiting + 1, top, *child, &mut room[0]),
            turn => turn,
        }
    }

    /// Goes on with the frames of which so many wait below the top, until the first is closed, or until there is no
    /// frame for a table below.
    #[inline(always)]
    fn walk_by(
        &mut self,
        checks: Checks,
        reads: &mut Reads<'_>,
        frames: &mut [Frame],
        waiting: &mut u32,
    ) -> Turn
        ghost start: { Origin }
        requires walking { IsWalking self.old reads.old start (take waiting.old frames.old) (slice_index_or frames.old waiting.old blank) }
        requires top { waiting.old < length frames.old }
        requires short { IsShort reads.old.count }
        requires same { checks ≡ self.old.checks }
        ensures { Walked self.old self.new reads.old reads.new start frames.old waiting.old frames.new waiting.new result }
    {
        let _schema = self.schema;
        let depth = self.limits.depth() as usize;
        let brim = self.brim();
        let mut child = NO_CHILD;
        let mut at = *waiting;
        let mut has_below = has_frame_below(frames, depth, at);
        while has_below {
            match self.turn(checks, reads, brim, frames, at, &mut child) {
                Turn::Down => {
                    at += 1;
                    has_below = has_frame_below(frames, depth, at);
                }
                Turn::Up => {
                    if at == 0 {
                        return Turn::Up;
                    }
                    at -= 1;
                }
                turn => {
                    *waiting = at;
                    return turn;
                }
            }
        }
        *waiting = at;
        Turn::Slowly
    }

    /// The same, whatever the checks are.
    #[cold]
    #[inline(never)]
    fn walk_by_checks(
        &mut self,
        reads: &mut Reads<'_>,
        frames: &mut [Frame],
        waiting: &mut u32,
    ) -> Turn
        ghost start: { Origin }
        requires walking { IsWalking self.old reads.old start (take waiting.old frames.old) (slice_index_or frames.old waiting.old blank) }
        requires top { waiting.old < length frames.old }
        requires short { IsShort reads.old.count }
        ensures { Walked self.old self.new reads.old reads.new start frames.old waiting.old frames.new waiting.new result }
    {
        self.walk_by(self.checks, reads, frames, waiting)
    }

    /// Goes on quickly as long as no limit may be met, by bytes that are lent once: by the published checks as
    /// constants where these are made.
    #[inline(never)]
    pub fn walk_on(&mut self, loan: &mut Loan<'_>, frames: &mut [Frame], waiting: &mut u32) -> Turn
        ghost start: { Origin }
        requires walking { IsWalking self.old loan.old start (take waiting.old frames.old) (slice_index_or frames.old waiting.old blank) }
        requires top { waiting.old < length frames.old }
        ensures { Walked self.old self.new loan.old loan.new start frames.old waiting.old frames.new waiting.new result }
    {
        if !allows_short(self.limits, loan.reads()) {
            return Turn::Slowly;
        }
        let mut reads = loan.lend();
        let turn = if are_published(self.checks) {
            self.walk_by(PUBLISHED, &mut reads, frames, waiting)
        } else {
            self.walk_by_checks(&mut reads, frames, waiting)
        };
        loan.settle(reads);
        turn
    }

    /// Passes fields of the top table until one is there that may lead to a table, and answers whether one is; the
    /// position is then moved to where it stands. Where a test fails, that is the next field, and the position is moved
    /// to where it fails. The budget allows whatever the fields cost. These are the walk's own checks, which a caller
    /// may know as constants.
    #[inline(always)]
    fn pass_plain(
        &self,
        checks: Checks,
        reads: &mut Reads<'_>,
        steps: &[Step],
        top: &mut Frame,
        at: &mut u64,
    ) -> Result<bool, Reason>
        ghost of: { Passage }
        requires steps { steps.now ≡ map step_of (live_fields self.now.schema.now (top.old.table).object) }
        requires walk { of.walk ≡ self.now }
        requires top { of.top ≡ top.old }
        requires between { IsBetween self.now reads.old of.under top.old }
        requires room { HasRoom self.now reads.old top.old }
        requires same { checks ≡ self.now.checks }
        ensures { PassesOn self.now reads.old reads.new of.under top.old top.new at.new result }
    {
        let mut next = top.next;
        let answer = pass_steps(reads, checks, self.schema, top.table, steps, &mut next, at);
        top.next = next;
        answer
    }

    /// Passes the fields of an opened root table of which none leads on, quickly by the published checks where the
    /// budget allows whatever they may cost.
    #[inline(always)]
    fn pass_root(&mut self, loan: &mut Loan<'_>, table: Table) -> Turn
        ghost going: { Going }
        requires walk { going.walk ≡ self.old }
        requires walking { IsWalking self.old loan.old going.under.start [] (opened table) }
        requires root { going.under.frames ≡ [] }
        requires plain { is_plain self.old.schema.now table.object ≡ true }
        ensures { RootTurned self.old self.new loan.old loan.new going.under.start result }
    {
        let schema = self.schema;
        let steps = schema.steps_of(table.object);
        let brim = self.brim_for(6 * steps.len() as u64 + 1);
        if !are_published(self.checks) || loan.reads() >= u128::from(brim) {
            return Turn::Slowly;
        }
        let mut next = 0;
        let mut at = 0;
        let mut reads = loan.lend();
        let passed = pass_by_sizes(&mut reads, schema, table, steps, &mut next, &mut at);
        loan.settle(reads);
        match passed {
            Ok(_) => Turn::Up,
            Err(reason) => {
                let stop = stop_by(schema, table.object, next, at, reason);
                self.halt = stop.halt(0, LastLink::InField);
                Turn::Halt
            }
        }
    }

    /// The same walk, in a place of its own.
    #[inline(always)]
    fn again(&self) -> Walk<'s, 'n>
        ensures { result ≡ self.now }
    {
        Walk {
            schema: self.schema,
            limits: self.limits,
            checks: self.checks,
            tables: self.tables,
            deepest: self.deepest,
            halt: self.halt,
        }
    }

    /// Walks a table and all below it, over these frames, and over 64 of its own where it needs more than these.
    #[inline(always)]
    pub fn run(
        &mut self,
        loan: &mut Loan<'_>,
        frames: &mut [Frame],
        site: Site,
        root: Child,
    ) -> Result<(), Halt>
        ghost start: { Origin }
        requires here { start ≡ record { object = root.object; position = root.at; way = way_at 0 self.old.tables self.old.deepest loan.old.count site } }
        requires served { IsServed self.old.schema.now }
        requires table { IsTrue (is_table self.old.schema.now root.object) }
        requires near { root.at < 2 ^ 33 }
        requires some { min (self.old.limits).depth 1 ≤ length frames.old }
        requires room { (self.old.limits).depth ≤ max 64 (length frames.old) }
        requires within { self.old.tables ≤ (self.old.limits).tables }
        requires shallow { self.old.deepest ≤ (self.old.limits).depth }
        requires reads { AreAllowed (self.old.limits).reads loan.old.count }
        requires few { loan.old.count < 2 ^ 90 }
        ensures { Ran self.old self.new loan.old loan.new start frames.new result }
    {
        let table = match self.open_table(loan, 0, site, root) {
            Ok(table) => table,
            Err(stop) => return Err(stop.halt(0, LastLink::Behind)),
        };
        if self.schema.is_plain(root.object) {
            // A table of its own, so that the other one needs no place in memory.
            let plain = Table {
                head: table.head,
                object: table.object,
                at: table.at,
            };
            match self.pass_root(loan, plain) {
                Turn::Up => return Ok(()),
                Turn::Halt => return Err(self.halt),
                _ => {}
            }
        }
        frames[0] = Frame::opened(table);
        // A walk and a loan of their own, so that a plain root needs no place in memory for them.
        let mut walk = self.again();
        let mut rest = loan.hand_on();
        let answer = match walk.go_on(&mut rest, frames, 0) {
            Ok(None) => Ok(()),
            Ok(Some(waiting)) => walk.go_deeper(&mut rest, frames, waiting),
            Err(halt) => Err(halt),
        };
        *loan = rest;
        *self = walk;
        answer
    }
}
