// The `uoffset`s of a field that are passed, and what they lead to.

ghost use Rattle.std.specs.Prelude.{◌≡◌, ◌+◌, ◌^◌, ◌<◌, ◌≤◌, ℕ, List, length, IfOk, None, IsTrue};
ghost use Rattle.fb_schema.specs.Rows.{is_union};
ghost use Rattle.fb_rules.specs.{declared.link.Link.Link, declared.offset_row.Leads.TheVariants.ByType, OffsetRows.AreUnionTargets, Places.target, Told.IsAskedAt};
ghost use Rattle.fb_strict.specs.{Asked.Demand, Passing.IsPassing, Passing.IsRoom, Passing.FirstPassed, Passing.WordsPassed, Passing.TextStands, Passing.TextPassed};
ghost use Rattle.fb_strict.specs.Passing.{ReferentStands, ReferentPassed, IsLeft, Stepped};

use crate::pass::{Pass, Turn};
use crate::room::Frame;
use crate::texts::{read_text, wrong_from};
use crate::unions::{NO_TARGET, test_element};
use fb_bytes::Reads;
use fb_rules::fault::Reason;
use fb_rules::offset_row::{Leads, Referent};
use fb_rules::site::{Halt, LastLink, Refusal, Site, Stop};
use fb_rules::table::Child;
use fb_schema::Targets;
use std::alloc::Allocator;

impl<'p, 's, 'n, A: Allocator> Pass<'p, 's, 'n, A> {
    /// Reads where the `uoffset` at a position leads, and asks the budget.
    #[inline(always)]
    fn follow(&self, reads: &mut Reads<'_>, room: u64, site: Site, place: u64) -> Result<u64, Stop>
        requires room { IsRoom self.now.limits reads.old.base room }
        requires few { reads.old.count < reads.old.base + 2 ^ 60 }
        requires within { place + 4 ≤ length reads.old.bytes }
        requires near { place < 2 ^ 32 }
        ensures asked { IsAskedAt site self.now.limits reads.old reads.new None 1 place result }
        ensures value { IfOk result (λ at. at ≡ target reads.old.bytes place) }
        ensures near { IfOk result (λ at. at < 2 ^ 33) }
        ensures same { reads.new ≡ record reads.old { count = reads.old.count + 1 } }
    {
        let at = place + u64::from(reads.u32_at(place));
        self.answer(reads, room, site, None, place, place)?;
        Ok(at)
    }

    /// Asks a `uoffset` at a place by its type at a position, and tells what it leads to by these targets of its
    /// union, if that is asked.
    #[inline(always)]
    fn pass_typed(
        &self,
        reads: &mut Reads<'_>,
        room: u64,
        site: Site,
        union: u32,
        targets: Targets<'_>,
        types: u64,
        place: u64,
    ) -> Result<Referent, Stop>
        requires room { IsRoom self.now.limits reads.old.base room }
        requires few { reads.old.count < reads.old.base + 2 ^ 59 }
        requires union { IsTrue (is_union self.now.rows union) }
        requires targets { AreUnionTargets self.now.rows targets union }
        requires typed { types + 1 ≤ length reads.old.bytes }
        requires near { place < 2 ^ 35 }
        ensures { FirstPassed self.now reads.old reads.new site place (ByType union types) result }
    {
        let asked = self.plan.demands().unions;
        let mut at = place;
        let mut target = NO_TARGET;
        let failed = test_element(
            reads,
            asked,
            self.checks,
            self.schema,
            union,
            targets,
            types,
            &mut at,
            &mut target,
        );
        self.answer(reads, room, site, failed, at, place)?;
        Ok(self.asked_referent(target))
    }

    /// Asks `uoffset`s of the top's field by their types, which begin at a position, up to the first that leads to
    /// what is asked, and tells what that is: nothing where none is left.
    #[inline(always)]
    fn pass_types(
        &self,
        reads: &mut Reads<'_>,
        room: u64,
        union: u32,
        first: u64,
        top: &mut Frame,
    ) -> Result<Referent, Stop>
        requires passing { IsPassing self.now reads.old.bytes }
        requires room { IsRoom self.now.limits reads.old.base room }
        requires few { reads.old.count < reads.old.base + 2 ^ 58 }
        requires typed { (top.old.row).leads ≡ ByType union first }
        requires more { 0 < (top.old.row).left }
        requires left { (deep : ℕ) × (via : List Link) × (ds : List Demand) × IsLeft self.now reads.old.bytes deep via top.old ds }
        ensures { (deep : ℕ) (via : List Link) (ds : List Demand) → IsLeft self.now reads.old.bytes deep via top.old ds → WordsPassed self.now reads.old reads.new deep via ds top.old top.new result }
    {
        let targets = self.schema.targets_of(union);
        let site = top.site();
        let mut row = top.row;
        let mut types = first;
        while row.left > 0 {
            let passed = self.pass_typed(reads, room, site, union, targets, types, row.place);
            row.advance();
            types += 1;
            match passed {
                Ok(referent) => match referent {
                    Referent::Nothing => {}
                    _ => {
                        top.row = row;
                        return Ok(referent);
                    }
                },
                Err(stop) => {
                    top.row = row;
                    return Err(stop);
                }
            }
        }
        top.row = row;
        Ok(Referent::Nothing)
    }

    /// Reads the text to which the `uoffset` at a place leads, asks the budget, and then whether it is UTF-8.
    #[inline(always)]
    fn pass_text(
        &self,
        reads: &mut Reads<'_>,
        room: u64,
        site: Site,
        place: u64,
    ) -> Result<(), Stop>
        requires room { IsRoom self.now.limits reads.old.base room }
        requires few { reads.old.count < reads.old.base + 2 ^ 59 }
        requires stands { TextStands reads.old.bytes place }
        requires short { length reads.old.bytes < 2 ^ 31 }
        ensures { TextPassed self.now reads.old reads.new site place result }
    {
        let at = place + u64::from(reads.u32_at(place));
        let text = read_text(reads, at);
        if let Err(stop) = self.answer(reads, room, site, None, place, place) {
            return Err(stop);
        }
        let Some(front) = wrong_from(text) else {
            return Ok(());
        };
        let refusal = Refusal {
            at: at + 4 + front,
            reason: Reason::NotUtf8,
        };
        Err(Stop { refusal, site })
    }

    /// Asks what a `uoffset` at a place leads to, where so many frames are open: it comes to a table.
    #[inline(always)]
    fn pass_referent(
        &self,
        reads: &mut Reads<'_>,
        room: u64,
        many: u32,
        site: Site,
        place: u64,
        referent: Referent,
        child: &mut Child,
    ) -> Result<Turn, Halt>
        requires room { IsRoom self.now.limits reads.old.base room }
        requires few { reads.old.count < reads.old.base + 2 ^ 59 }
        requires stands { ReferentStands reads.old.bytes place referent }
        requires short { length reads.old.bytes < 2 ^ 31 }
        ensures { ReferentPassed self.now reads.old reads.new site place many child.new referent result }
    {
        let object = match referent {
            Referent::Table(object) => object,
            Referent::Text => match self.pass_text(reads, room, site, place) {
                Ok(()) => return Ok(Turn::Here),
                Err(stop) => return Err(stop.halt(many, LastLink::Behind)),
            },
            _ => return Ok(Turn::Here),
        };
        match self.follow(reads, room, site, place) {
            Ok(at) => {
                child.object = object;
                child.at = at;
                Ok(Turn::Down)
            }
            Err(stop) => Err(stop.halt(many, LastLink::Behind)),
        }
    }

    /// Passes `uoffset`s that are left of the top's field, where so many frames are open: the first, or, where types
    /// tell what they lead to, all up to one that leads to what is asked. That is asked then: it comes to a table.
    #[inline(always)]
    pub fn pass_word(
        &self,
        reads: &mut Reads<'_>,
        room: u64,
        many: u32,
        top: &mut Frame,
        child: &mut Child,
    ) -> Result<Turn, Halt>
        requires passing { IsPassing self.now reads.old.bytes }
        requires room { IsRoom self.now.limits reads.old.base room }
        requires few { reads.old.count < reads.old.base + 2 ^ 58 }
        requires more { 0 < (top.old.row).left }
        requires left { (deep : ℕ) × (via : List Link) × (ds : List Demand) × IsLeft self.now reads.old.bytes deep via top.old ds }
        ensures { (deep : ℕ) (via : List Link) (ds : List Demand) → IsLeft self.now reads.old.bytes deep via top.old ds
            → Stepped self.now reads.old reads.new deep via many ds top.old top.new child.new result }
    {
        let site = top.site();
        match top.row.leads {
            Leads::All(referent) => {
                let place = top.row.place;
                top.row.advance_all();
                self.pass_referent(reads, room, many, site, place, referent, child)
            }
            Leads::ByType(union, first) => {
                let referent = match self.pass_types(reads, room, union, first, top) {
                    Ok(referent) => referent,
                    Err(stop) => return Err(stop.halt(many, LastLink::Behind)),
                };
                match referent {
                    Referent::Nothing => Ok(Turn::Here),
                    _ => {
                        let place = top.row.place - 4;
                        self.pass_referent(reads, room, many, site, place, referent, child)
                    }
                }
            }
        }
    }
}
