// The buffers that are open while a buffer is asked with those inside it: a stack of them, and no recursion.

ghost use Rattle.std.specs.Prelude.{◌≡◌, ◌+◌, ◌-◌, ◌*◌, ◌^◌, ◌<◌, ◌≤◌, ℕ, List, length, take, IfOk, IfErr, Some, None, Ok, IsTrue};
ghost use Rattle.fb_schema.specs.Rows.{is_table};
ghost use Rattle.fb_rules.specs.{Bounds.AreAllowed, Tree.Tree};
ghost use Rattle.fb_strict.specs.{Planned.IsPlan, Asked.Demand, Asked.demands_of, Asked.demands_reads, Passing.wants_of, Passing.IsPassing, Passing.IsRooted, Nested.limits_inside};
ghost use Rattle.fb_strict.specs.Levels.{IsOpened, Legged, unmet_by, fault_of, bytes_of, asked_from, resting, passing_of, IsAsking, Begun, RootBegun, IsWalkedAt, WalkStops};
ghost use Rattle.fb_strict.specs.{Levels.HasEntered, Levels.IsUnderWay, Levels.IsAtInner, Levels.EndsAlong, Levels.AreEnough, Levels.turns_left, Passing.IsInner, Nested.EndsWith};

use crate::inner::Inner;
use crate::pass::Pass;
use crate::plan::Plan;
use crate::room::Frame;
use crate::strictly::{left_of, refuse_short, root_of, walk};
use fb_bytes::{Loan, Meter, Window};
use fb_rules::checks::Checks;
use fb_rules::fault::{Fault, Report};
use fb_rules::limits::{Limits, tables_of};
use fb_rules::link::Link;
use fb_rules::site::{Halt, LastLink, Site, Stop};
use fb_rules::start::{Ident, Start};
use fb_rules::table::Child;
use fb_schema::Schema;
use fb_verify::{Frame as WalkFrame, Located, Question};
use std::alloc::Allocator;
use std::marker::Model;

/// An open buffer: where its bytes begin in the whole, and how many they are; how many tables are open above its root,
/// and how many of its own.
#[derive(Clone, Copy)]
pub struct Level {
    pub begin: u64,
    pub size: u64,
    pub above: u32,
    pub many: u32,
}

/// What no buffer has written.
pub const NO_LEVEL: Level = Level {
    begin: 0,
    size: 0,
    above: 0,
    many: 0,
};

/// What is asked of all of them: the whole buffer, the plan, and the question. Only contracts speak of the start and
/// the identifier.
#[derive(Drop)]
pub struct Asking<'w, 'b, 'p, 's, 'n, A: Allocator> {
    pub window: &'w Window<'b>,
    pub plan: &'p Plan<A>,
    pub schema: &'s Schema<'n>,
    pub root: u32,
    pub start: Start,
    pub ident: Ident,
    pub limits: Limits,
    pub checks: Checks,
}

impl<'w, 'b, 'p, 's, 'n, A: Allocator> Model for Asking<'w, 'b, 'p, 's, 'n, A> {
    ghost use Rattle.fb_rules.specs.Question.{question};
    ghost use Rattle.fb_strict.specs.Levels.{Whole};

    ghost Value = { Whole };

    ghost view = { λ a. record { plan = a.plan.now; question = question a.schema.now a.root a.start a.ident a.limits a.checks; bytes = a.window.now } };
}

/// How the way to what isn't met goes on from the tables that are open around its buffer.
#[derive(Clone, Copy)]
pub enum Rest {
    /// By the links of so many of the buffer's own tables, and by what these leave.
    Tables(u32, LastLink),
    /// By so many links, which the buffer's walk put.
    Walked(u32),
}

/// What isn't met in an open buffer, after so many reads: the fault in that buffer, the buffer, and how the way goes
/// on.
#[derive(Clone, Copy)]
pub struct Unmet {
    pub fault: Fault,
    pub level: Level,
    pub rest: Rest,
}

/// What isn't met in the whole, in a buffer that lies in so many others.
#[derive(Clone, Copy)]
pub struct Missed {
    pub unmet: Unmet,
    pub levels: u32,
}

impl Missed {
    /// The fault in the whole.
    pub fn fault(self) -> Fault
        ensures { result ≡ fault_of self.unmet }
    {
        let Unmet { fault, level, .. } = self.unmet;
        Fault {
            at: level.begin.saturating_add(fault.at),
            ..fault
        }
    }
}

/// What isn't met where a pass over an open buffer halts, after so many reads.
fn told(level: Level, halt: Halt, reads: u128) -> Unmet
    ensures { result ≡ unmet_by level halt reads }
{
    let stop = halt.stop;
    let fault = Fault {
        at: stop.refusal.at,
        object: stop.site.object,
        field: stop.site.field,
        reads,
        reason: stop.refusal.reason,
    };
    let rest = Rest::Tables(halt.links, halt.last);
    Unmet { fault, level, rest }
}

/// Asks a buffer's length, and opens its root table where anything is asked of that. Answers how many tables are open.
fn begin_buffer<A: Allocator>(
    pass: &Pass<'_, '_, '_, A>,
    loan: &mut Loan<'_>,
    frames: &mut [Frame],
    root: Child,
) -> Result<u32, Halt>
    requires passing { IsPassing pass.now loan.old.bytes }
    requires allowed { AreAllowed pass.now.limits.reads loan.old.count }
    requires small { length frames.old ≤ 4096 }
    requires tree { (y : Tree) × IsRooted pass.now loan.old.bytes (length frames.old) root y
        × (loan.old.count + demands_reads (demands_of (wants_of pass.now) pass.now.checks loan.old.bytes pass.now.rows root.object y) ≤ 2 ^ 112) }
    ensures { (y : Tree) → IsRooted pass.now loan.old.bytes (length frames.old) root y
        → RootBegun pass.now loan.old loan.new (demands_of (wants_of pass.now) pass.now.checks loan.old.bytes pass.now.rows root.object y) frames.new result }
{
    if let Some(refusal) = refuse_short(pass.plan.demands().unions, loan) {
        let site = Site {
            object: root.object,
            field: None,
        };
        let stop = Stop { refusal, site };
        return Err(stop.halt(0, LastLink::Behind));
    }
    if !pass.plan.asks(root.object) {
        return Ok(0);
    }
    match pass.begin(loan, frames, root) {
        Ok(()) => Ok(1),
        Err(halt) => Err(halt),
    }
}

impl<'w, 'b, 'p, 's, 'n, A: Allocator> Asking<'w, 'b, 'p, 's, 'n, A> {
    /// What is left of the limits where so many tables are open, once so much is spent.
    fn limits_inside(&self, above: u32, spent: Report) -> Limits
        requires deep { above ≤ (self.now.question).limits.depth }
        requires many { spent.tables ≤ (self.now.question).limits.tables }
        requires allowed { AreAllowed (self.now.question).limits.reads spent.reads }
        ensures { result ≡ limits_inside (self.now.question).limits above spent }
    {
        let tables = tables_of(self.limits) - spent.tables;
        let Ok(limits) = Limits::new(self.limits.depth() - above, tables) else {
            unreachable!()
        };
        match self.limits.reads() {
            None => limits,
            Some(most) => limits.with_reads((u128::from(most) - spent.reads) as u64),
        }
    }

    /// The bytes of an open buffer.
    pub(crate) fn bytes_of(&self, level: &Level) -> &'b [u8]
        requires { (level.now).begin + (level.now).size ≤ length self.now.bytes }
        ensures { result.now ≡ bytes_of self.now level.now }
    {
        self.window.bytes(level.begin, level.size)
    }

    /// The pass over an open buffer, within what is left of the budget.
    fn pass(&self, spent: Report) -> Pass<'p, 's, 'n, A>
        requires allowed { AreAllowed (self.now.question).limits.reads spent.reads }
        ensures { result ≡ passing_of self.now spent }
    {
        Pass {
            plan: self.plan,
            schema: self.schema,
            limits: left_of(self.limits, spent.reads),
            checks: self.checks,
        }
    }

    /// Goes on in an open buffer until all of it is met, or to a buffer inside it.
    fn leg(
        &self,
        level: &mut Level,
        frames: &mut [Frame],
        spent: &mut Report,
    ) -> Result<Option<Inner>, Unmet>
        requires asking { IsAsking self.now }
        requires opened { (ds : List Demand) × IsOpened self.now frames.old level.old ds }
        requires small { length frames.old ≤ 4096 }
        requires allowed { AreAllowed (self.now.question).limits.reads (spent.old).reads }
        requires few { (spent.old).reads ≤ 2 ^ 120 }
        ensures went { (ds : List Demand) → IsOpened self.now frames.old level.old ds → Legged self.now spent.old spent.new frames.new level.new ds result }
        ensures level { level.new ≡ record level.old { many = (level.new).many } }
        ensures spent { spent.new ≡ record spent.old { reads = (spent.new).reads } }
        ensures below { take (level.old).above frames.new ≡ take (level.old).above frames.old }
    {
        let Ok(mut meter) = Meter::new(self.bytes_of(level)) else {
            unreachable!()
        };
        let mut loan = meter.lend();
        let (_, own) = frames.split_at_mut(level.above as usize);
        let answer = self.pass(*spent).go_on(&mut loan, own, &mut level.many);
        spent.reads += loan.reads();
        match answer {
            Ok(inner) => Ok(inner),
            Err(halt) => Err(told(*level, halt, spent.reads)),
        }
    }

    /// Opens a buffer whose bytes unfold from this root table, above which so many tables are open as the level says.
    pub fn begin(
        &self,
        level: Level,
        root: Child,
        frames: &mut [Frame],
        spent: &mut Report,
    ) -> Result<Level, Unmet>
        requires asking { IsAsking self.now }
        requires within { level.begin + level.size ≤ length self.now.bytes }
        requires tree { (y : Tree) × IsRooted (resting self.now) (bytes_of self.now level) (length frames.old - level.above) root y × (demands_reads (asked_from self.now level root y) ≤ 2 ^ 112) }
        requires small { length frames.old ≤ 4096 }
        requires above { level.above ≤ length frames.old }
        requires allowed { AreAllowed (self.now.question).limits.reads (spent.old).reads }
        requires few { (spent.old).reads ≤ 2 ^ 120 }
        ensures begun { (y : Tree) → IsRooted (resting self.now) (bytes_of self.now level) (length frames.old - level.above) root y → demands_reads (asked_from self.now level root y) ≤ 2 ^ 112
            → Begun self.now spent.old spent.new frames.new level (asked_from self.now level root y) result }
        ensures spent { spent.new ≡ record spent.old { reads = (spent.new).reads } }
        ensures below { take level.above frames.new ≡ take level.above frames.old }
    {
        let Ok(mut meter) = Meter::new(self.bytes_of(&level)) else {
            unreachable!()
        };
        let mut loan = meter.lend();
        let (_, own) = frames.split_at_mut(level.above as usize);
        let answer = begin_buffer(&self.pass(*spent), &mut loan, own, root);
        spent.reads += loan.reads();
        match answer {
            Ok(many) => Ok(Level { many, ..level }),
            Err(halt) => Err(told(level, halt, spent.reads)),
        }
    }

    /// Walks a buffer inside, above which so many tables are open as the level says, and tells where its root table of
    /// this object stands. The links to a fault are put behind as many others.
    fn walk(
        &self,
        lent: &mut [WalkFrame],
        level: &Level,
        root: u32,
        links: &mut [Link],
        spent: &mut Report,
    ) -> Result<Child, Located>
        requires asking { IsAsking self.now }
        requires within { (level.now).begin + (level.now).size ≤ length self.now.bytes }
        requires table { IsTrue (is_table (self.now.question).rows root) }
        requires deep { (level.now).above ≤ (self.now.question).limits.depth }
        requires lent { AreEnough (self.now.question).limits.depth (length lent.old) (length links.old) }
        requires many { (spent.old).tables ≤ (self.now.question).limits.tables }
        requires allowed { AreAllowed (self.now.question).limits.reads (spent.old).reads }
        requires few { (spent.old).reads ≤ 2 ^ 119 }
        requires low { (spent.old).depth ≤ 4096 }
        ensures yes { IfOk result (λ child. (y : Tree) × IsWalkedAt self.now level.now root spent.old spent.new child y) }
        ensures no { IfErr result (λ l. WalkStops self.now spent.old links.new level.now root l.fault l.links) }
    {
        let Ok(meter) = Meter::new(self.bytes_of(level)) else {
            unreachable!()
        };
        let _bounds = (tables_of(self.limits), self.schema.widest());
        let limits = self.limits_inside(level.above, *spent);
        let question = Question {
            schema: self.schema,
            root,
            start: Start::Bare,
            ident: Ident::Any,
            limits,
            checks: self.checks,
        };
        let around = (level.above as usize).min(links.len());
        let (_, own) = links.split_at_mut(around);
        match walk(meter, &question, lent, own) {
            Ok(verified) => {
                let report = verified.report();
                let at = root_of(verified.window(), Start::Bare);
                *spent = Report {
                    tables: spent.tables + report.tables,
                    depth: spent.depth.max(level.above + report.depth),
                    reads: spent.reads + report.reads,
                };
                Ok(Child { object: root, at })
            }
            Err(located) => {
                let fault = Fault {
                    reads: spent.reads + located.fault.reads,
                    ..located.fault
                };
                Err(Located { fault, ..located })
            }
        }
    }

    /// Enters a buffer that lies in this one: walks it, and opens it.
    fn enter(
        &self,
        lent: &mut [WalkFrame],
        around: Level,
        inner: Inner,
        frames: &mut [Frame],
        links: &mut [Link],
        spent: &mut Report,
    ) -> Result<Level, Unmet>
        requires asking { IsAsking self.now }
        requires inner { IsInner (resting self.now) (bytes_of self.now around) inner }
        requires within { around.begin + around.size ≤ length self.now.bytes }
        requires deep { around.above + around.many ≤ (self.now.question).limits.depth }
        requires frames { (self.now.question).limits.depth ≡ length frames.old }
        requires lent { AreEnough (self.now.question).limits.depth (length lent.old) (length links.old) }
        requires many { (spent.old).tables ≤ (self.now.question).limits.tables }
        requires allowed { AreAllowed (self.now.question).limits.reads (spent.old).reads }
        requires few { (spent.old).reads ≤ 2 ^ 119 }
        requires low { (spent.old).depth ≤ 4096 }
        ensures entered { HasEntered self.now spent.old spent.new frames.new links.new around inner result }
        ensures below { take (around.above + around.many) frames.new ≡ take (around.above + around.many) frames.old }
    {
        let level = Level {
            begin: around.begin + inner.at,
            size: inner.size,
            above: around.above + around.many,
            many: 0,
        };
        match self.walk(lent, &level, inner.root, links, spent) {
            Ok(root) => self.begin(level, root, frames, spent),
            Err(Located { fault, links }) => {
                let rest = Rest::Walked(links);
                Err(Unmet { fault, level, rest })
            }
        }
    }

    /// Enters a buffer that lies in the innermost of those that are open, behind so many others. Answers how many are
    /// open then.
    fn go_in(
        &self,
        lent: &mut [WalkFrame],
        level: Level,
        inner: Inner,
        frames: &mut [Frame],
        levels: &mut [Level],
        others: u32,
        links: &mut [Link],
        spent: &mut Report,
    ) -> Result<u32, Missed>
        requires asking { IsAsking self.now }
        requires reached { IsAtInner self.now spent.old frames.old levels.old others level inner }
        requires frames { (self.now.question).limits.depth ≡ length frames.old }
        requires levels { (self.now.question).limits.depth ≤ length levels.old }
        requires lent { AreEnough (self.now.question).limits.depth (length lent.old) (length links.old) }
        ensures on { IfOk result (λ then. IsUnderWay self.now spent.new frames.new levels.new then) }
        ensures falls { IfOk result (λ then. turns_left self.now spent.new then < turns_left self.now spent.old (others + 1)) }
        ensures no { IfErr result (λ m. EndsAlong self.now frames.new levels.new links.new m) }
    {
        let at = others as usize;
        levels[at] = level;
        match self.enter(lent, level, inner, frames, links, spent) {
            Ok(inside) => {
                levels[at + 1] = inside;
                Ok(others + 2)
            }
            Err(unmet) => Err(Missed {
                unmet,
                levels: others + 1,
            }),
        }
    }

    /// One leg in the innermost of so many open buffers, behind which a buffer inside it is entered, or it is closed.
    /// Answers how many are open then.
    fn turn(
        &self,
        lent: &mut [WalkFrame],
        frames: &mut [Frame],
        levels: &mut [Level],
        many: u32,
        links: &mut [Link],
        spent: &mut Report,
    ) -> Result<u32, Missed>
        requires asking { IsAsking self.now }
        requires under { IsUnderWay self.now spent.old frames.old levels.old many }
        requires some { 0 < many }
        requires frames { (self.now.question).limits.depth ≡ length frames.old }
        requires levels { (self.now.question).limits.depth ≤ length levels.old }
        requires lent { AreEnough (self.now.question).limits.depth (length lent.old) (length links.old) }
        ensures on { IfOk result (λ then. IsUnderWay self.now spent.new frames.new levels.new then) }
        ensures falls { IfOk result (λ then. turns_left self.now spent.new then < turns_left self.now spent.old many) }
        ensures no { IfErr result (λ m. EndsAlong self.now frames.new levels.new links.new m) }
    {
        let others = many - 1;
        let mut level = levels[others as usize];
        match self.leg(&mut level, frames, spent) {
            Ok(None) => Ok(others),
            Ok(Some(inner)) => self.go_in(lent, level, inner, frames, levels, others, links, spent),
            Err(unmet) => Err(Missed {
                unmet,
                levels: others,
            }),
        }
    }

    /// Asks all that is left of the whole buffer, of which the first level is open.
    pub fn run(
        &self,
        lent: &mut [WalkFrame],
        frames: &mut [Frame],
        levels: &mut [Level],
        links: &mut [Link],
        spent: &mut Report,
    ) -> Result<(), Missed>
        requires asking { IsAsking self.now }
        requires under { IsUnderWay self.now spent.old frames.old levels.old 1 }
        requires frames { (self.now.question).limits.depth ≡ length frames.old }
        requires levels { (self.now.question).limits.depth ≤ length levels.old }
        requires lent { AreEnough (self.now.question).limits.depth (length lent.old) (length links.old) }
        ensures yes { IfOk result (λ _. EndsWith (self.now).plan (self.now).question (self.now).bytes (Ok spent.new)) }
        ensures no { IfErr result (λ m. EndsAlong self.now frames.new levels.new links.new m) }
    {
        let mut many = 1;
        while many > 0 {
            match self.turn(lent, frames, levels, many, links, spent) {
                Ok(then) => many = then,
                Err(missed) => return Err(missed),
            }
        }
        Ok(())
    }
}
