//! The way to what isn't met in a whole buffer, link by link.

ghost use Rattle.std.specs.Prelude.{◌≡◌, ℕ, ◌<◌, ◌≤◌, length, take, Err};
ghost use Rattle.fb_verify.specs.Stack.{last_link, links_left};
ghost use Rattle.fb_strict.specs.Levels.{resting, IsAsking, AreOpen, IsPassed, EndsAlong, fault_of, links_of, way_to, above_next};
ghost use Rattle.fb_strict.specs.Nested.{EndsWith};

use crate::levels::{Asking, Level, Missed, Rest};
use crate::pass::Pass;
use crate::room::Frame;
use fb_bytes::Meter;
use fb_rules::fault::Fault;
use fb_rules::link::Link;
use fb_rules::site::LastLink;
use std::alloc::Allocator;

/// Puts what tables leave of the links to a fault, and answers how many these are.
fn put_last(last: LastLink, fault: Fault, links: &mut [Link]) -> u32
    requires room { links_left last ≤ length links.old }
    ensures within { result ≤ links_left last }
    ensures links { take result links.new ≡ last_link last fault }
{
    match (last, fault.field) {
        (LastLink::InField, Some(field)) => {
            links[0] = Link {
                object: fault.object,
                field,
                element: None,
                member: None,
            };
            1
        }
        _ => 0,
    }
}

impl<'w, 'b, 'p, 's, 'n, A: Allocator> Asking<'w, 'b, 'p, 's, 'n, A> {
    /// The pass over an open buffer, by all limits.
    fn resting(&self) -> Pass<'p, 's, 'n, A>
        ensures { result ≡ resting self.now }
    {
        Pass {
            plan: self.plan,
            schema: self.schema,
            limits: self.limits,
            checks: self.checks,
        }
    }

    /// Puts the links of as many tables of an open buffer as the row is long.
    fn put_tables(&self, level: &Level, frames: &[Frame], links: &mut [Link])
        requires asking { IsAsking self.now }
        requires tables { AreOpen self.now frames.now level.now (length links.old) }
        ensures { links.new ≡ links_of self.now frames.now level.now (length links.old) }
    {
        let Ok(meter) = Meter::new(self.bytes_of(level)) else {
            unreachable!()
        };
        let window = meter.seal();
        let (_, own) = frames.split_at(level.above as usize);
        self.resting().put_links(&window, own, links);
    }

    /// Puts the links of the tables that are open in so many levels, which fill the row.
    fn put_levels(&self, levels: &[Level], many: u32, frames: &[Frame], links: &mut [Link])
        requires asking { IsAsking self.now }
        requires passed { (k : ℕ) → k < many → IsPassed self.now frames.now levels.now k }
        requires levels { many ≤ length levels.now }
        requires room { length links.old ≡ above_next levels.now many }
        ensures { links.new ≡ way_to self.now frames.now levels.now many }
    {
        let mut passed = 0;
        while passed < many {
            let level = &levels[passed as usize];
            let (_, behind) = links.split_at_mut(level.above as usize);
            let (own, _) = behind.split_at_mut(level.many as usize);
            self.put_tables(level, frames, own);
            passed += 1;
        }
    }

    /// Puts the way to what isn't met at the front of `links`, where there is room for as many as the depth limit says,
    /// and answers how many links it has.
    pub fn put_way(
        &self,
        missed: &Missed,
        frames: &[Frame],
        levels: &[Level],
        links: &mut [Link],
    ) -> u32
        requires asking { IsAsking self.now }
        requires ends { EndsAlong self.now frames.now levels.now links.old missed.now }
        requires frames { (self.now.question).limits.depth ≡ length frames.now }
        requires levels { (self.now.question).limits.depth ≤ length levels.now }
        requires short { length links.old ≤ 4096 }
        ensures along { (self.now.question).limits.depth ≤ length links.old
            → EndsWith self.now.plan self.now.question self.now.bytes (Err (record { fault = fault_of (missed.now).unmet; links = take result links.new })) }
        ensures within { result ≤ length links.new }
    {
        if links.len() < self.limits.depth() as usize {
            return 0;
        }
        let Missed {
            unmet,
            levels: around,
        } = *missed;
        let (front, own) = links.split_at_mut(unmet.level.above as usize);
        self.put_levels(levels, around, frames, front);
        match unmet.rest {
            Rest::Walked(many) => unmet.level.above + many,
            Rest::Tables(many, last) => {
                let (tables, left) = own.split_at_mut(many as usize);
                self.put_tables(&unmet.level, frames, tables);
                unmet.level.above + many + put_last(last, unmet.fault, left)
            }
        }
    }
}
