// A whole buffer is asked, with those inside it.

ghost use Rattle.std.specs.Prelude.{◌≡◌, ℕ, ◌^◌, ◌<◌, ◌≤◌, length, take, IfOk, IfErr, Err, IsTrue};
ghost use Rattle.fb_schema.specs.Rows.{is_table};
ghost use Rattle.fb_rules.specs.{Tree.Tree, Verdict.Reports};
ghost use Rattle.fb_strict.specs.{Planned.IsPlan, Nested.IsGood, Nested.IsBad, Nested.EndsWith, Levels.IsAsking, Levels.IsWalkedWhole, Levels.EndsAlong, Levels.AreEnough};

use crate::levels::{Asking, Level, Missed, NO_LEVEL};
use crate::plan::Plan;
use crate::room::{BLANK, Frame, Room};
use crate::strictly::root_of;
use fb_bytes::Window;
use fb_rules::fault::Report;
use fb_rules::limits::tables_of;
use fb_rules::link::Link;
use fb_rules::table::Child;
use fb_verify::{Frame as WalkFrame, Located, Question};
use std::alloc::Allocator;

/// Room for the open tables of a pass, and for the buffers in which they lie.
pub trait Space {
    /// How many tables may be open in it at once.
    ghost room: { Self → ℕ };

    /// Asks a whole buffer of which a walk made this report, with those inside it, and answers what all of them spend.
    /// These are walked in the frames that are lent. Where something isn't met, and there is room for as many links as
    /// the depth limit says, those that lead there are put at the front of `links`.
    fn ask<A: Allocator>(
        &mut self,
        asking: &Asking<'_, '_, '_, '_, '_, A>,
        walked: Report,
        lent: &mut [WalkFrame],
        links: &mut [Link],
    ) -> Result<Report, Located>
        requires asking { IsAsking asking.now }
        requires table { IsTrue (is_table (asking.now.question).rows (asking.now.question).root) }
        requires reports { Reports asking.now.question asking.now.bytes walked }
        requires lent { AreEnough (asking.now.question).limits.depth (length lent.old) (length links.old) }
        requires room { (asking.now.question).limits.depth ≤ room self.old }
        requires short_row { length links.old ≤ 4096 }
        ensures yes { IfOk result (λ r. IsGood asking.now.plan asking.now.question asking.now.bytes r) }
        ensures no { IfErr result (λ l. IsBad asking.now.plan asking.now.question asking.now.bytes l.fault) }
        ensures along { IfErr result (λ l. (asking.now.question).limits.depth ≤ length links.old
            → EndsWith asking.now.plan asking.now.question asking.now.bytes (Err (record { fault = l.fault; links = take l.links links.new }))) }
        ensures within { IfErr result (λ l. l.links ≤ length links.new) }
        ensures same { room self.new ≡ room self.old };
}

impl<B: Allocator> Space for Room<B> {
    ghost room = { λ r. r };

    fn ask<A: Allocator>(
        &mut self,
        asking: &Asking<'_, '_, '_, '_, '_, A>,
        walked: Report,
        lent: &mut [WalkFrame],
        links: &mut [Link],
    ) -> Result<Report, Located> {
        asking.whole(walked, lent, &mut self.frames, &mut self.levels, links)
    }
}

/// Room for 64 tables on a call's own stack.
#[derive(Drop)]
pub struct OnStack;

impl Space for OnStack {
    ghost room = { λ _. 64 };

    fn ask<A: Allocator>(
        &mut self,
        asking: &Asking<'_, '_, '_, '_, '_, A>,
        walked: Report,
        lent: &mut [WalkFrame],
        links: &mut [Link],
    ) -> Result<Report, Located> {
        let mut frames = [BLANK; 64];
        let mut levels = [NO_LEVEL; 64];
        asking.whole(walked, lent, &mut frames, &mut levels, links)
    }
}

/// What is asked of these bytes, of which a walk by this question made a report, and of the buffers inside.
pub(crate) fn asking_of<'w, 'b, 'p, 's, 'n, A: Allocator>(
    window: &'w Window<'b>,
    question: &Question<'s, 'n>,
    plan: &'p Plan<A>,
) -> Asking<'w, 'b, 'p, 's, 'n, A>
    requires plan { IsPlan question.now.rows (plan.now).demands plan.now }
    requires short { length window.now < 2 ^ 31 }
    ensures value { result ≡ record { plan = plan.now; question = question.now; bytes = window.now } }
    ensures asking { IsAsking result }
{
    let schema = question.schema;
    let limits = question.limits;
    schema.lawful();
    let _bounds = (tables_of(limits), schema.widest(), limits.depth());
    Asking {
        window,
        plan,
        schema,
        root: question.root,
        start: question.start,
        ident: question.ident,
        limits,
        checks: question.checks,
    }
}

impl<'w, 'b, 'p, 's, 'n, A: Allocator> Asking<'w, 'b, 'p, 's, 'n, A> {
    /// Asks the whole buffer, whose root table stands there and whose walk spent so much, with those inside it.
    fn ask(
        &self,
        root: Child,
        lent: &mut [WalkFrame],
        frames: &mut [Frame],
        levels: &mut [Level],
        links: &mut [Link],
        spent: &mut Report,
    ) -> Result<(), Missed>
        requires asking { IsAsking self.now }
        requires walked { (y : Tree) × IsWalkedWhole self.now spent.old root y }
        requires frames { (self.now.question).limits.depth ≡ length frames.old }
        requires levels { (self.now.question).limits.depth ≤ length levels.old }
        requires lent { AreEnough (self.now.question).limits.depth (length lent.old) (length links.old) }
        ensures yes { IfOk result (λ _. IsGood (self.now).plan (self.now).question (self.now).bytes spent.new) }
        ensures no { IfErr result (λ m. EndsAlong self.now frames.new levels.new links.new m) }
    {
        let level = Level {
            begin: 0,
            size: self.window.len(),
            above: 0,
            many: 0,
        };
        match self.begin(level, root, frames, spent) {
            Ok(first) => levels[0] = first,
            Err(unmet) => return Err(Missed { unmet, levels: 0 }),
        }
        self.run(lent, frames, levels, links, spent)
    }

    /// The same from the report of its walk on, in as many frames and levels as the depth limit says or more.
    fn whole(
        &self,
        walked: Report,
        lent: &mut [WalkFrame],
        frames: &mut [Frame],
        levels: &mut [Level],
        links: &mut [Link],
    ) -> Result<Report, Located>
        requires asking { IsAsking self.now }
        requires table { IsTrue (is_table (self.now.question).rows (self.now.question).root) }
        requires reports { Reports self.now.question self.now.bytes walked }
        requires lent { AreEnough (self.now.question).limits.depth (length lent.old) (length links.old) }
        requires frames { (self.now.question).limits.depth ≤ length frames.old }
        requires levels { (self.now.question).limits.depth ≤ length levels.old }
        requires short_row { length links.old ≤ 4096 }
        ensures yes { IfOk result (λ r. IsGood self.now.plan self.now.question self.now.bytes r) }
        ensures no { IfErr result (λ l. IsBad self.now.plan self.now.question self.now.bytes l.fault) }
        ensures along { IfErr result (λ l. (self.now.question).limits.depth ≤ length links.old
            → EndsWith self.now.plan self.now.question self.now.bytes (Err (record { fault = l.fault; links = take l.links links.new }))) }
        ensures within { IfErr result (λ l. l.links ≤ length links.new) }
    {
        let mut spent = walked;
        let root = Child {
            object: self.root,
            at: root_of(self.window, self.start),
        };
        let (open, _) = frames.split_at_mut(self.limits.depth() as usize);
        match self.ask(root, lent, open, levels, links, &mut spent) {
            Ok(()) => Ok(spent),
            Err(missed) => Err(Located {
                fault: missed.fault(),
                links: self.put_way(&missed, open, levels, links),
            }),
        }
    }
}
