// The walk by single units, each with a question after it whether the budget allows its reads: it serves where a limit
// may be met.

ghost use Rattle.std.specs.Prelude.{◌≡◌, ◌+◌, ◌-◌, ◌^◌, ◌<◌, ◌≤◌, max, min, length, take, slice_index_or, IfOk, Some, None, true, false};
ghost use Rattle.fb_schema.specs.{Live.live_of_view, Served.IsServed};
ghost use Rattle.fb_rules.specs.{Cost.head_reads, Cost.own_reads, Fields.entries, Order.head_failure, Order.own_failure, OffsetRows.IsAskable, OffsetRows.LeavesRow, OffsetRows.IsRow};
ghost use Rattle.fb_rules.specs.Told.{IsAskedAt, IsHead};
ghost use Rattle.fb_verify.specs.{PassesOn.IsBetween, Units.PassesFields, Units.TableOpened, Units.ElementPassed, Units.WordPassed, Units.UnitTurned};
ghost use Rattle.fb_verify.specs.Stack.{blank, Waiting, opened, IsWalking};

use crate::leaves::{first_referent, targets_of};
use crate::scratch::Frame;
use crate::stack::Walk;
use fb_bytes::Loan;
use fb_rules::budget::{answer, ask_reads, tell};
use fb_rules::fault::Reason;
use fb_rules::limits::tables_of;
use fb_rules::offset_row::{Referent, Row};
use fb_rules::plain::{Standing, slot_at, test_head, test_lead};
use fb_rules::site::{Halt, LastLink, Refusal, Site, Stop};
use fb_rules::table::{Child, Head, NO_HEAD, Table};
use fb_schema::FieldView;

impl<'s, 'n> Walk<'s, 'n> {
    /// Reads the head of the table at a position, of this object, and asks the budget. What fails does so in this
    /// table, before its first field.
    #[inline(always)]
    fn read_head(&self, loan: &mut Loan<'_>, object: u32, at: u64) -> Result<Head, Stop>
        requires few { loan.old.count < 2 ^ 98 }
        requires near { at < 2 ^ 33 }
        ensures asked { IsAskedAt (record { object = object; field = None }) self.now.limits loan.old loan.new (head_failure self.now.checks loan.old.bytes at) (head_reads self.now.checks) at result }
        ensures head { IfOk result (λ h. IsHead self.now.checks loan.old.bytes at h) }
    {
        let site = Site {
            object,
            field: None,
        };
        let mut head = NO_HEAD;
        let mut tested = at;
        let mut reads = loan.lend();
        let failed = test_head(&mut reads, self.checks, &mut tested, &mut head);
        answer(loan, reads, self.limits, site, failed, tested, at)?;
        Ok(head)
    }

    /// Opens a table, if the limits allow it, and reads its head. So many tables are open before.
    #[inline(always)]
    pub fn open_table(
        &mut self,
        loan: &mut Loan<'_>,
        links: u32,
        site: Site,
        child: Child,
    ) -> Result<Table, Stop>
        requires few { loan.old.count < 2 ^ 97 }
        requires near { child.at < 2 ^ 33 }
        ensures { TableOpened self.old self.new loan.old loan.new links site child result }
    {
        if links >= self.limits.depth() {
            let refusal = Refusal {
                at: child.at,
                reason: Reason::TooDeep,
            };
            return Err(Stop { site, refusal });
        }
        if self.tables >= tables_of(self.limits) {
            let refusal = Refusal {
                at: child.at,
                reason: Reason::TooManyTables,
            };
            return Err(Stop { site, refusal });
        }
        self.tables += 1;
        self.deepest = self.deepest.max(links + 1);
        match self.read_head(loan, child.object, child.at) {
            Ok(head) => Ok(Table {
                object: child.object,
                at: child.at,
                head,
            }),
            Err(stop) => Err(stop),
        }
    }

    /// Checks a field of a table by itself, asks the budget, and answers whether the field leads on, and then by which
    /// `uoffset`s. What fails does so at this field.
    fn pass_field(
        &self,
        loan: &mut Loan<'_>,
        table: Table,
        field: &FieldView<'_>,
        row: &mut Row,
    ) -> Result<bool, Stop>
        requires askable { IsAskable loan.old.bytes self.now.schema.now table.at (live_of_view field.now) (field.now).kind }
        requires few { loan.old.count < 2 ^ 96 + 2 ^ 95 }
        requires near { table.at < 2 ^ 33 }
        requires head { IsHead self.now.checks loan.old.bytes table.at table.head }
        requires rests { row.old.left ≡ 0 }
        ensures asked { IsAskedAt (record { object = table.object; field = Some (field.now).number }) self.now.limits loan.old loan.new
            (own_failure self.now.checks loan.old.bytes self.now.schema.now table.at (live_of_view field.now)) (own_reads loan.old.bytes table.at (live_of_view field.now)) table.at result }
        ensures leads { IfOk result (λ more. LeavesRow loan.old.bytes self.now.schema.now (entries loan.old.bytes self.now.schema.now table.at (live_of_view field.now)) row.old row.new more) }
    {
        let site = Site {
            object: table.object,
            field: Some(field.number),
        };
        let mut reads = loan.lend();
        let mut at = slot_at(&mut reads, table.at, table.head, field.slot);
        let failed = self.put_field(&mut reads, table, field, &mut at, row);
        answer(loan, reads, self.limits, site, failed, at, table.at)?;
        Ok(row.left > 0)
    }

    /// Passes fields of the top table one by one until one leads on, and answers whether one does. It serves where the
    /// budget may end in this table, since it asks the budget after each field.
    fn pass_each(&self, loan: &mut Loan<'_>, top: &mut Frame) -> Result<bool, Stop>
        ghost under: { Waiting }
        requires between { IsBetween self.now loan.old under top.old }
        requires few { loan.old.count < 2 ^ 96 }
        ensures { PassesFields self.now loan.old loan.new under top.old top.new result }
    {
        let fields = self.schema.fields_of(top.table.object);
        while let Some(field) = fields.get(top.next as usize) {
            if top.table.head.ends_before(field.slot) {
                let Some(needed) = self.schema.next_required(top.table.object, top.next) else {
                    top.next = fields.len() as u32;
                    return Ok(false);
                };
                let reason = Reason::MissingRequired;
                return Err(self.stop_at(top.table.object, needed, top.table.at, reason));
            }
            top.next += 1;
            if self.pass_field(loan, top.table, field, &mut top.row)? {
                top.number = field.number;
                return Ok(true);
            }
        }
        Ok(false)
    }

    /// Checks the first `uoffset` of a row, and answers the table to which it leads, if it does; else the budget is
    /// asked. What fails does so at this site.
    fn pass_element(&self, loan: &mut Loan<'_>, site: Site, row: Row) -> Result<Option<Child>, Stop>
        requires served { IsServed self.now.schema.now }
        requires more { 0 < row.left }
        requires row { IsRow loan.old.bytes self.now.schema.now row }
        requires few { loan.old.count < 2 ^ 96 }
        ensures { ElementPassed self.now loan.old loan.new site row result }
    {
        let mut reads = loan.lend();
        let targets = targets_of(self.schema, row.leads);
        let referent = first_referent(&mut reads, targets, self.schema, row);
        let mut at = row.place;
        let failed = test_lead(
            &mut reads,
            self.checks,
            &mut at,
            referent,
            Standing::Unknown,
        );
        loan.settle(reads);
        if let Err(stop) = tell(site, failed, at) {
            return Err(stop);
        }
        if let Referent::Table(object) = referent {
            return Ok(Some(Child { object, at }));
        }
        match ask_reads(loan, self.limits, site, row.place) {
            Ok(()) => Ok(None),
            Err(unpaid) => Err(unpaid),
        }
    }

    /// Passes the first `uoffset` that is left of the top table's field, and answers whether it leads to a table,
    /// which is opened: its frame is the first of the room then. So many frames wait below the top.
    fn pass_one(
        &mut self,
        loan: &mut Loan<'_>,
        waiting: u32,
        top: &mut Frame,
        room: &mut [Frame],
    ) -> Result<bool, Stop>
        ghost under: { Waiting }
        requires waiting { waiting ≡ length under.frames }
        requires walking { IsWalking self.old loan.old under.start under.frames top.old }
        requires leads { 0 < (top.old.row).left }
        requires room { min (self.old.limits).depth (waiting + 2) ≤ waiting + 1 + length room.old }
        requires few { loan.old.count < 2 ^ 96 }
        ensures { WordPassed self.old self.new loan.old loan.new under top.old top.new (slice_index_or room.new 0 blank) result }
    {
        let _schema = self.schema;
        let site = top.site();
        let row = top.row;
        top.row.advance();
        let child = match self.pass_element(loan, site, row) {
            Ok(Some(child)) => child,
            Ok(None) => return Ok(false),
            Err(stop) => return Err(stop),
        };
        match self.open_table(loan, waiting + 1, site, child) {
            Ok(table) => {
                room[0] = Frame::opened(table);
                Ok(true)
            }
            Err(stop) => Err(stop),
        }
    }

    /// One step of the walk: passes the next `uoffset` of the top table's field, behind which a table becomes the
    /// top; or where none is left, the fields up to one that leads on, or to the end, where the table above becomes the
    /// top. So many frames wait below the top, and the answer says how many do after; none where the first table is
    /// closed.
    #[cold]
    #[inline(never)]
    pub fn turn_by_units(
        &mut self,
        loan: &mut Loan<'_>,
        frames: &mut [Frame],
        waiting: u32,
    ) -> Result<Option<u32>, Halt>
        ghost under: { Waiting }
        requires under { under.frames ≡ take waiting frames.old }
        requires walking { IsWalking self.old loan.old under.start under.frames (slice_index_or frames.old waiting blank) }
        requires room { min (self.old.limits).depth (waiting + 2) ≤ length frames.old }
        requires few { loan.old.count < 2 ^ 96 }
        ensures { UnitTurned self.old self.new loan.old loan.new under.start frames.old waiting frames.new result }
    {
        let _schema = self.schema;
        let at = waiting as usize;
        let (low, room) = frames.split_at_mut(at + 1);
        let top = &mut low[at];
        if top.row.left > 0 {
            return match self.pass_one(loan, waiting, top, room) {
                Ok(true) => Ok(Some(waiting + 1)),
                Ok(false) => Ok(Some(waiting)),
                Err(stop) => Err(stop.halt(waiting + 1, LastLink::Behind)),
            };
        }
        match self.pass_each(loan, top) {
            Ok(true) => Ok(Some(waiting)),
            Ok(false) => {
                if waiting == 0 {
                    return Ok(None);
                }
                Ok(Some(waiting - 1))
            }
            Err(stop) => Err(stop.halt(waiting, LastLink::InField)),
        }
    }
}
