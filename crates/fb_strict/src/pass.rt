// The pass over a buffer that unfolds: the tables of its tree that are asked, in the order of the walk's visits.

ghost use Rattle.std.specs.Prelude.{◌≡◌, ◌+◌, ◌^◌, ◌<◌, ◌≤◌, ℕ, List, [], Option, length, IfOk, IfErr, Ok, Err, Some, None, IsTrue};
ghost use Rattle.fb_bytes.specs.Word.{Lent, word};
ghost use Rattle.fb_rules.specs.{declared.link.Link.Link, declared.offset_row.Leads.TheVariants.ByType, Bounds.AreAllowed, Order.Failure, Places.target, Places.field_place};
ghost use Rattle.fb_rules.specs.{Plain.IsTested, Told.IsAskedAt, Told.IsVtable};
ghost use Rattle.fb_schema.specs.{Rows.is_union, Targets.kind_to};
ghost use Rattle.fb_strict.specs.declared.tasks.{Ask.Ask, Held.TheVariants.Buffer, Held.TheVariants.Flex, Ask.TheVariants.Union as AskUnion, Ask.TheVariants.Unions as AskUnions};
ghost use Rattle.fb_strict.specs.{declared.tasks.Ask.TheVariants.Bytes as AskBytes, Asked.Demand, Asked.asked_referent, Asked.demands_reads, Passing.wants_of, Passing.IsPassing};
ghost use Rattle.fb_strict.specs.Passing.{IsRoom, IsTaskable, IsOne, IsEach, CountStands, IsAskedRow, word_row, TaskPassed, TaskDone, IsLeft, IsNext, AreLeft, IsStanding, Stepped};
ghost use Rattle.fb_strict.specs.Passing.{HasTurned, WentOn, Begins, Went};

use crate::inner::Inner;
use crate::plan::Plan;
use crate::room::Frame;
use crate::tasks::{Ask, Held, Task};
use crate::unions::{NO_TARGET, read_places, test_flex, test_together, test_union};
use fb_bytes::{Loan, Reads};
use fb_rules::checks::Checks;
use fb_rules::fault::Reason;
use fb_rules::limits::Limits;
use fb_rules::offset_row::{Leads, Referent, Row};
use fb_rules::plain::slot_at;
use fb_rules::site::{Halt, LastLink, Refusal, Site, Stop};
use fb_rules::table::{Child, NO_CHILD, Table};
use fb_schema::{Goal, Schema, Target};
use std::alloc::Allocator;
use std::marker::Model;

/// How a pass goes on, once it did a step in the top table.
#[derive(Clone, Copy)]
pub enum Turn {
    /// In the same table.
    Here,
    /// In the table above: nothing is left of the top.
    Up,
    /// In a table below, which is to be opened.
    Down,
    /// In a buffer that lies in a field of the top's table.
    In(Inner),
}

/// What a turn comes to.
#[derive(Clone, Copy)]
pub enum Turned {
    /// So many frames are open.
    Open(u32),
    /// A buffer that lies in a field of the top's table is next.
    Inside(Inner),
}

/// What a pass carries: what it asks, by which rows, checks and limits.
#[derive(Drop)]
pub struct Pass<'p, 's, 'n, A: Allocator> {
    pub plan: &'p Plan<A>,
    pub schema: &'s Schema<'n>,
    pub limits: Limits,
    pub checks: Checks,
}

impl<'p, 's, 'n, A: Allocator> Model for Pass<'p, 's, 'n, A> {
    ghost use Rattle.fb_strict.specs.Passing.{Passing};

    ghost Value = { Passing };

    ghost view = { λ p. record { plan = p.plan.now; rows = p.schema.now; limits = p.limits; checks = p.checks } };
}

/// What a task answers whose field holds no buffer.
#[inline(always)]
fn holding_none(passed: Result<(), Stop>) -> Result<Option<Inner>, Stop>
    ensures yes { IfOk passed (λ _. result ≡ Ok None) }
    ensures no { IfErr passed (λ s. result ≡ Err s) }
{
    match passed {
        Ok(()) => Ok(None),
        Err(stop) => Err(stop),
    }
}

/// After so many reads the count of 64 bits begins again.
const LONG: u64 = 1 << 58;

/// How many reads a count of 64 bits may come to, where so many were counted before it began.
fn room_of(limits: Limits, base: u128) -> u64
    requires { AreAllowed limits.reads base }
    ensures { IsRoom limits base result }
{
    match limits.reads() {
        None => u64::MAX,
        Some(most) => (u128::from(most) - base) as u64,
    }
}

/// Lends the bytes under a count in 64 bits, and tells how many reads that may come to.
#[inline(always)]
fn lend<'b>(loan: &mut Loan<'b>, limits: Limits) -> (Reads<'b>, u64)
    requires allowed { AreAllowed limits.reads loan.old.count }
    requires few { loan.old.count ≤ 2 ^ 120 }
    ensures lent { result.0 ≡ record loan.old { base = result.0.base } }
    ensures few { loan.old.count < result.0.base + 2 ^ 57 }
    ensures bare { loan.new ≡ record loan.old { bytes = [] } }
    ensures room { IsRoom limits result.0.base result.1 }
{
    let count = loan.reads();
    let reads = loan.lend();
    let room = room_of(limits, count - u128::from(reads.count()));
    (reads, room)
}

/// Puts the `uoffset` at a place that leads to this, if it is anything that is asked.
#[inline(always)]
fn put_word(referent: Referent, at: u64, row: &mut Row)
    ensures { row.new ≡ word_row at referent row.old }
{
    match referent {
        Referent::Nothing => {}
        _ => *row = Row::one(referent, at),
    }
}

impl<'p, 's, 'n, A: Allocator> Pass<'p, 's, 'n, A> {
    /// Answers whether the limits allow the reads counted so far, where no test failed. A test that failed is told
    /// where it did, and too many reads at the position of what was asked.
    #[inline(always)]
    pub fn answer(
        &self,
        reads: &Reads<'_>,
        room: u64,
        site: Site,
        failed: Option<Reason>,
        tested: u64,
        at: u64,
    ) -> Result<(), Stop>
        requires room { IsRoom self.now.limits reads.now.base room }
        ensures { (m : Lent) (chain : Option Failure) (n : ℕ) → IsTested m reads.now tested chain n failed → IsAskedAt site self.now.limits m reads.now chain n at result }
    {
        if let Some(reason) = failed {
            let refusal = Refusal { at: tested, reason };
            return Err(Stop { refusal, site });
        }
        if reads.count() <= room {
            return Ok(());
        }
        let reason = Reason::TooManyReads;
        let refusal = Refusal { at, reason };
        Err(Stop { refusal, site })
    }

    /// Passes a field of which nothing is asked but what its `uoffset` leads to, and puts that, if it is there.
    #[inline(always)]
    fn pass_one(
        &self,
        reads: &mut Reads<'_>,
        room: u64,
        table: Table,
        site: Site,
        slot: u16,
        referent: Referent,
        row: &mut Row,
    ) -> Result<(), Stop>
        requires room { IsRoom self.now.limits reads.old.base room }
        requires few { reads.old.count < reads.old.base + 2 ^ 58 }
        requires near { table.at < 2 ^ 33 }
        requires head { IsVtable reads.old.bytes table.at table.head }
        ensures { (ask : Ask) → IsOne ask referent → TaskPassed self.now reads.old reads.new table.at site slot ask row.old row.new result }
    {
        let at = slot_at(reads, table.at, table.head, slot);
        self.answer(reads, room, site, None, table.at, table.at)?;
        if at != table.at {
            *row = Row::one(referent, at);
        }
        Ok(())
    }

    /// What the member of a union that leads there refers to, if that is asked.
    #[inline(always)]
    pub fn asked_referent(&self, target: Target) -> Referent
        ensures { result ≡ asked_referent (wants_of self.now) (kind_to target) }
    {
        match target.goal {
            Goal::Text if self.plan.demands().utf8 => Referent::Text,
            Goal::Table if self.plan.asks(target.object) => Referent::Table(target.object),
            _ => Referent::Nothing,
        }
    }

    /// Passes a union with this number, and puts its `uoffset`, if what that leads to is asked.
    #[inline(always)]
    fn pass_union(
        &self,
        reads: &mut Reads<'_>,
        room: u64,
        table: Table,
        site: Site,
        slot: u16,
        union: u32,
        row: &mut Row,
    ) -> Result<(), Stop>
        requires room { IsRoom self.now.limits reads.old.base room }
        requires few { reads.old.count < reads.old.base + 2 ^ 58 }
        requires near { table.at < 2 ^ 33 }
        requires head { IsVtable reads.old.bytes table.at table.head }
        requires taskable { IsTaskable reads.old.bytes self.now.rows table.at slot (field_place reads.old.bytes table.at slot) (AskUnion union) }
        ensures { TaskPassed self.now reads.old reads.new table.at site slot (AskUnion union) row.old row.new result }
    {
        let asked = self.plan.demands().unions;
        let places = read_places(reads, table, slot);
        let mut at = table.at;
        let mut target = NO_TARGET;
        let failed = test_union(
            reads,
            asked,
            self.checks,
            self.schema,
            table.at,
            union,
            places,
            &mut at,
            &mut target,
        );
        self.answer(reads, room, site, failed, at, table.at)?;
        put_word(self.asked_referent(target), at, row);
        Ok(())
    }

    /// Reads where a vector begins, to which the `uoffset` at a position leads, and how many elements it has.
    #[inline(always)]
    fn read_row(&self, reads: &mut Reads<'_>, leads: Leads, place: u64) -> Row
        requires few { reads.old.count < reads.old.base + 2 ^ 60 }
        requires stands { CountStands reads.old.bytes place }
        requires short { length reads.old.bytes < 2 ^ 31 }
        ensures row { result ≡ record { leads = leads; place = target reads.old.bytes place + 4; left = word reads.old.bytes (target reads.old.bytes place) 4 } }
        ensures counted { reads.new ≡ record reads.old { count = reads.old.count + 2 } }
    {
        let at = place + u64::from(reads.u32_at(place));
        Row {
            leads,
            place: at + 4,
            left: reads.u32_at(at),
        }
    }

    /// Passes a field of which nothing is asked but what the `uoffset`s of its vector lead to, and puts these.
    #[inline(always)]
    fn pass_each(
        &self,
        reads: &mut Reads<'_>,
        room: u64,
        table: Table,
        site: Site,
        slot: u16,
        referent: Referent,
        row: &mut Row,
    ) -> Result<(), Stop>
        requires room { IsRoom self.now.limits reads.old.base room }
        requires few { reads.old.count < reads.old.base + 2 ^ 58 }
        requires near { table.at < 2 ^ 33 }
        requires head { IsVtable reads.old.bytes table.at table.head }
        requires stands { (p : ℕ) → field_place reads.old.bytes table.at slot ≡ Some p → CountStands reads.old.bytes p }
        requires short { length reads.old.bytes < 2 ^ 31 }
        ensures { (ask : Ask) → IsEach ask referent → TaskPassed self.now reads.old reads.new table.at site slot ask row.old row.new result }
    {
        let at = slot_at(reads, table.at, table.head, slot);
        if at == table.at {
            return self.answer(reads, room, site, None, table.at, table.at);
        }
        let words = self.read_row(reads, Leads::All(referent), at);
        self.answer(reads, room, site, None, table.at, table.at)?;
        *row = words;
        Ok(())
    }

    /// Passes a vector of unions with this number, and puts its `uoffset`s. Where unions are asked, it has its types.
    #[inline(always)]
    fn pass_unions(
        &self,
        reads: &mut Reads<'_>,
        room: u64,
        table: Table,
        site: Site,
        slot: u16,
        union: u32,
        row: &mut Row,
    ) -> Result<(), Stop>
        requires room { IsRoom self.now.limits reads.old.base room }
        requires few { reads.old.count < reads.old.base + 2 ^ 58 }
        requires near { table.at < 2 ^ 33 }
        requires head { IsVtable reads.old.bytes table.at table.head }
        requires taskable { IsTaskable reads.old.bytes self.now.rows table.at slot (field_place reads.old.bytes table.at slot) (AskUnions union) }
        requires short { length reads.old.bytes < 2 ^ 31 }
        ensures { TaskPassed self.now reads.old reads.new table.at site slot (AskUnions union) row.old row.new result }
    {
        let asked = self.plan.demands().unions;
        let places = read_places(reads, table, slot);
        let mut at = table.at;
        let failed = test_together(asked, table.at, places, &mut at);
        if failed.is_some() {
            return self.answer(reads, room, site, failed, at, table.at);
        }
        if places.value == table.at {
            return self.answer(reads, room, site, None, table.at, table.at);
        }
        if places.types == table.at {
            return self.answer(reads, room, site, None, table.at, table.at);
        }
        let types = places.types + u64::from(reads.u32_at(places.types)) + 4;
        let words = self.read_row(reads, Leads::ByType(union, types), places.value);
        self.answer(reads, room, site, None, table.at, table.at)?;
        *row = words;
        Ok(())
    }

    /// Passes a field whose bytes hold a buffer with a root table of this object, and tells where that lies.
    #[inline(always)]
    fn pass_buffer(
        &self,
        reads: &mut Reads<'_>,
        room: u64,
        table: Table,
        site: Site,
        slot: u16,
        root: u32,
    ) -> Result<Option<Inner>, Stop>
        requires room { IsRoom self.now.limits reads.old.base room }
        requires few { reads.old.count < reads.old.base + 2 ^ 58 }
        requires near { table.at < 2 ^ 33 }
        requires head { IsVtable reads.old.bytes table.at table.head }
        requires taskable { IsTaskable reads.old.bytes self.now.rows table.at slot (field_place reads.old.bytes table.at slot) (AskBytes (Buffer root)) }
        requires short { length reads.old.bytes < 2 ^ 31 }
        ensures { (row : Row) → TaskDone self.now reads.old reads.new table.at site slot (AskBytes (Buffer root)) row row result }
    {
        let at = slot_at(reads, table.at, table.head, slot);
        if at == table.at {
            self.answer(reads, room, site, None, table.at, table.at)?;
            return Ok(None);
        }
        let bytes = self.read_row(reads, Leads::All(Referent::Nothing), at);
        self.answer(reads, room, site, None, table.at, table.at)?;
        Ok(Some(Inner {
            at: bytes.place,
            size: u64::from(bytes.left),
            root,
        }))
    }

    /// Asks a field whose bytes hold a flexbuffer whether it is absent.
    #[inline(always)]
    fn pass_flex(
        &self,
        reads: &mut Reads<'_>,
        room: u64,
        table: Table,
        site: Site,
        slot: u16,
    ) -> Result<(), Stop>
        requires room { IsRoom self.now.limits reads.old.base room }
        requires few { reads.old.count < reads.old.base + 2 ^ 58 }
        requires near { table.at < 2 ^ 33 }
        requires head { IsVtable reads.old.bytes table.at table.head }
        ensures { (row : Row) → TaskPassed self.now reads.old reads.new table.at site slot (AskBytes Flex) row row result }
    {
        let at = slot_at(reads, table.at, table.head, slot);
        let failed = test_flex(table.at, at);
        self.answer(reads, room, site, failed, at, table.at)
    }

    /// Passes a field whose bytes hold this, and tells where a buffer in them lies.
    #[inline(always)]
    fn pass_bytes(
        &self,
        reads: &mut Reads<'_>,
        room: u64,
        table: Table,
        site: Site,
        slot: u16,
        held: Held,
    ) -> Result<Option<Inner>, Stop>
        requires room { IsRoom self.now.limits reads.old.base room }
        requires few { reads.old.count < reads.old.base + 2 ^ 58 }
        requires near { table.at < 2 ^ 33 }
        requires head { IsVtable reads.old.bytes table.at table.head }
        requires taskable { IsTaskable reads.old.bytes self.now.rows table.at slot (field_place reads.old.bytes table.at slot) (AskBytes held) }
        requires short { length reads.old.bytes < 2 ^ 31 }
        ensures { (row : Row) → TaskDone self.now reads.old reads.new table.at site slot (AskBytes held) row row result }
    {
        match held {
            Held::Buffer(root) => self.pass_buffer(reads, room, table, site, slot, root),
            Held::Flex => holding_none(self.pass_flex(reads, room, table, site, slot)),
        }
    }

    /// Does a task of an open table, and puts the `uoffset`s by which its field leads on, or tells the buffer that
    /// its bytes hold.
    #[inline(always)]
    fn pass_task(
        &self,
        reads: &mut Reads<'_>,
        room: u64,
        table: Table,
        site: Site,
        task: Task,
        row: &mut Row,
    ) -> Result<Option<Inner>, Stop>
        requires room { IsRoom self.now.limits reads.old.base room }
        requires few { reads.old.count < reads.old.base + 2 ^ 58 }
        requires near { table.at < 2 ^ 33 }
        requires head { IsVtable reads.old.bytes table.at table.head }
        requires taskable { IsTaskable reads.old.bytes self.now.rows table.at task.slot (field_place reads.old.bytes table.at task.slot) task.ask }
        requires short { length reads.old.bytes < 2 ^ 31 }
        ensures { TaskDone self.now reads.old reads.new table.at site task.slot task.ask row.old row.new result }
    {
        let slot = task.slot;
        match task.ask {
            Ask::Text => holding_none(self.pass_one(
                reads,
                room,
                table,
                site,
                slot,
                Referent::Text,
                row,
            )),
            Ask::Texts => holding_none(self.pass_each(
                reads,
                room,
                table,
                site,
                slot,
                Referent::Text,
                row,
            )),
            Ask::Table(object) => {
                let referent = Referent::Table(object);
                holding_none(self.pass_one(reads, room, table, site, slot, referent, row))
            }
            Ask::Tables(object) => {
                let referent = Referent::Table(object);
                holding_none(self.pass_each(reads, room, table, site, slot, referent, row))
            }
            Ask::Union(union) => {
                holding_none(self.pass_union(reads, room, table, site, slot, union, row))
            }
            Ask::Unions(union) => {
                holding_none(self.pass_unions(reads, room, table, site, slot, union, row))
            }
            Ask::Bytes(held) => self.pass_bytes(reads, room, table, site, slot, held),
        }
    }

    /// One step in the top table, where so many frames are open: its next `uoffset`, or else its next task.
    #[inline(always)]
    fn step(
        &self,
        reads: &mut Reads<'_>,
        room: u64,
        many: u32,
        top: &mut Frame,
        child: &mut Child,
    ) -> Result<Turn, Halt>
        requires passing { IsPassing self.now reads.old.bytes }
        requires room { IsRoom self.now.limits reads.old.base room }
        requires few { reads.old.count < reads.old.base + 2 ^ 58 }
        requires some { 0 < many }
        requires left { (deep : ℕ) × (via : List Link) × (ds : List Demand) × IsLeft self.now reads.old.bytes deep via top.old ds }
        ensures { (deep : ℕ) (via : List Link) (ds : List Demand) → IsLeft self.now reads.old.bytes deep via top.old ds
            → Stepped self.now reads.old reads.new deep via many ds top.old top.new child.new result }
    {
        if top.row.left > 0 {
            return self.pass_word(reads, room, many, top, child);
        }
        let tasks = self.plan.tasks_of(top.table.object);
        let Some(task) = tasks.get(top.next as usize) else {
            return Ok(Turn::Up);
        };
        top.next += 1;
        top.number = task.number;
        let site = top.site();
        match self.pass_task(reads, room, top.table, site, *task, &mut top.row) {
            Ok(None) => Ok(Turn::Here),
            Ok(Some(inner)) => Ok(Turn::In(inner)),
            Err(stop) => Err(stop.halt(many - 1, LastLink::InField)),
        }
    }

    /// One turn over frames of which so many are open: a step in the last of them, behind which a table below it is
    /// opened or it is closed. Answers how many are open then, or comes to a buffer inside.
    #[inline(always)]
    fn turn(
        &self,
        reads: &mut Reads<'_>,
        room: u64,
        frames: &mut [Frame],
        many: u32,
    ) -> Result<Turned, Halt>
        requires passing { IsPassing self.now reads.old.bytes }
        requires room { IsRoom self.now.limits reads.old.base room }
        requires few { reads.old.count < reads.old.base + 2 ^ 58 }
        requires some { 0 < many }
        requires within { many ≤ length frames.old }
        requires small { length frames.old ≤ 4096 }
        requires left { (ds : List Demand) × AreLeft self.now reads.old.bytes frames.old many ds }
        ensures { (ds : List Demand) → AreLeft self.now reads.old.bytes frames.old many ds → HasTurned self.now reads.old reads.new ds frames.old many frames.new result }
    {
        let at = many as usize - 1;
        let mut child = NO_CHILD;
        match self.step(reads, room, many, &mut frames[at], &mut child) {
            Ok(Turn::Here) => Ok(Turned::Open(many)),
            Ok(Turn::Up) => Ok(Turned::Open(many - 1)),
            Ok(Turn::Down) => match self.open(reads, room, child, &mut frames[at + 1]) {
                Ok(()) => Ok(Turned::Open(many + 1)),
                Err(stop) => Err(stop.halt(many, LastLink::Behind)),
            },
            Ok(Turn::In(inner)) => Ok(Turned::Inside(inner)),
            Err(halt) => Err(halt),
        }
    }

    /// Takes turns over frames of which so many are open until none is, or until it comes to a buffer inside; or until
    /// so many reads were counted that the count of 64 bits is to begin again.
    fn take_turns(
        &self,
        reads: &mut Reads<'_>,
        room: u64,
        frames: &mut [Frame],
        many: &mut u32,
    ) -> Result<Option<Inner>, Halt>
        requires passing { IsPassing self.now reads.old.bytes }
        requires room { IsRoom self.now.limits reads.old.base room }
        requires some { 0 < many.old }
        requires few { reads.old.count < reads.old.base + 2 ^ 57 }
        requires stands { IsStanding self.now reads.old frames.old many.old }
        ensures { (ds : List Demand) → AreLeft self.now reads.old.bytes frames.old many.old ds → WentOn self.now reads.old reads.new ds frames.old many.old frames.new many.new result }
    {
        let mut open = *many;
        while open > 0 && reads.count() < LONG {
            match self.turn(reads, room, frames, open) {
                Ok(Turned::Open(then)) => open = then,
                Ok(Turned::Inside(inner)) => {
                    *many = open;
                    return Ok(Some(inner));
                }
                Err(halt) => return Err(halt),
            }
        }
        *many = open;
        Ok(None)
    }

    /// Opens the table of a root that is asked, as the first of the frames, and asks the budget.
    pub fn begin(&self, loan: &mut Loan<'_>, frames: &mut [Frame], root: Child) -> Result<(), Halt>
        requires passing { IsPassing self.now loan.old.bytes }
        requires allowed { AreAllowed self.now.limits.reads loan.old.count }
        requires small { length frames.old ≤ 4096 }
        requires next { (ds : List Demand) × IsNext self.now loan.old.bytes (length frames.old) [] root ds × (loan.old.count + demands_reads ds ≤ 2 ^ 112) }
        ensures begins { (ds : List Demand) → IsNext self.now loan.old.bytes (length frames.old) [] root ds → Begins self.now loan.old loan.new ds frames.new result }
        ensures stands { IfOk result (λ _. IsStanding self.now loan.new frames.new 1) }
    {
        let (mut reads, room) = lend(loan, self.limits);
        let opened = self.open(&mut reads, room, root, &mut frames[0]);
        loan.settle(reads);
        match opened {
            Ok(()) => Ok(()),
            Err(stop) => Err(stop.halt(0, LastLink::Behind)),
        }
    }

    /// Takes turns over frames of which so many are open, while one count of 64 bits lasts.
    fn go_far(
        &self,
        loan: &mut Loan<'_>,
        frames: &mut [Frame],
        many: &mut u32,
    ) -> Result<Option<Inner>, Halt>
        requires passing { IsPassing self.now loan.old.bytes }
        requires some { 0 < many.old }
        requires stands { IsStanding self.now loan.old frames.old many.old }
        ensures { (ds : List Demand) → AreLeft self.now loan.old.bytes frames.old many.old ds → WentOn self.now loan.old loan.new ds frames.old many.old frames.new many.new result }
    {
        let (mut reads, room) = lend(loan, self.limits);
        let answer = self.take_turns(&mut reads, room, frames, many);
        loan.settle(reads);
        answer
    }

    /// Goes on with frames of which so many are open until none is, or until it has passed a field whose bytes hold a
    /// buffer: that is told, and the pass can go on behind it. Where it stops, the links of the frames that are open
    /// lead there.
    pub fn go_on(
        &self,
        loan: &mut Loan<'_>,
        frames: &mut [Frame],
        many: &mut u32,
    ) -> Result<Option<Inner>, Halt>
        requires passing { IsPassing self.now loan.old.bytes }
        requires stands { IsStanding self.now loan.old frames.old many.old }
        ensures went { (ds : List Demand) → AreLeft self.now loan.old.bytes frames.old many.old ds → Went self.now loan.old loan.new ds frames.new many.new result }
        ensures stands { IfOk result (λ _. IsStanding self.now loan.new frames.new many.new) }
    {
        while *many > 0 {
            match self.go_far(loan, frames, many) {
                Ok(None) => {}
                Ok(Some(inner)) => return Ok(Some(inner)),
                Err(halt) => return Err(halt),
            }
        }
        Ok(None)
    }
}
