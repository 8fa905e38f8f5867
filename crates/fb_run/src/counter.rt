//! Counts verdicts.

ghost use Rattle.std.specs.Prelude.{Ok, ◌≡◌, ◌+◌, ◌<◌, ◌^◌, length};
ghost use Rattle.fb_run.specs.{Job.brief_verdict, Job.verdict_of, Spot.spot_of, Sums.no_tally, Sums.tally_with};

use crate::checker::{Found, Wrong};
use crate::spot::Spot;
use crate::tally::{Tally, count_place};
use fb_verify::Report;
use std::marker::Model;

/// What a run came to so far. No sum is more than so many messages can have.
#[derive(Drop)]
pub struct Counter {
    tally: Tally,
}

impl Model for Counter {
    ghost use Rattle.fb_run.specs.Sums.{IsBounded};
    ghost use Rattle.fb_run.specs.declared.tally.Tally.{Tally};

    ghost Value = { Tally };

    ghost view = { λ c. c.tally };

    ghost invariant = { λ c. IsBounded c.tally };
}

impl Counter {
    /// Nothing is counted.
    #[tactic(auto, using(crate::proofs::SumsLemmas::nothing_bounded))]
    pub fn new() -> Counter
        ensures { result ≡ no_tally }
    {
        Counter {
            tally: Tally::new(),
        }
    }

    /// What was counted.
    pub fn tally(&self) -> Tally
        ensures { result ≡ self.now }
    {
        self.tally
    }

    /// How many messages were counted.
    pub fn messages(&self) -> u64
        requires { self.now.yes + self.now.no < 2 ^ 63 }
        ensures { result ≡ self.now.yes + self.now.no }
    {
        self.tally.yes + self.tally.no
    }

    /// How many of them were bad.
    pub fn bad(&self) -> u64
        ensures { result ≡ self.now.no }
    {
        self.tally.no
    }

    /// Where this message stands, the next one, where so many bytes stand before the first.
    pub fn spot(&self, begin: u64, message: &[u8]) -> Spot
        requires few { self.now.yes + self.now.no < 2 ^ 63 }
        ensures { result ≡ spot_of (record { messages = self.now.yes + self.now.no; bad = self.now.no; bytes = begin + self.now.bytes }) message.now }
    {
        Spot {
            number: 1 + self.messages(),
            begin: u128::from(begin) + self.tally.bytes,
            bytes: message.len() as u64,
        }
    }

    /// Counts a message with this report, of which no more is asked.
    #[inline(always)]
    pub fn count_yes(&mut self, message: &[u8], report: &Report)
        requires few { self.old.yes + self.old.no < 2 ^ 63 }
        requires short { length message.now < 2 ^ 31 }
        ensures { self.new ≡ tally_with message.now (brief_verdict (Ok report.now)) self.old }
    {
        let tally = &mut self.tally;
        tally.bytes += message.len() as u128;
        tally.yes += 1;
        tally.tables += u128::from(report.tables);
        tally.reads = tally.reads.saturating_add(report.reads);
    }

    /// Counts a message with this verdict.
    #[tactic(auto, using(crate::proofs::SumsLemmas::one_no_more, crate::proofs::SumsLemmas::count_at))]
    pub fn count(&mut self, message: &[u8], verdict: &Result<Found<'_>, Wrong<'_>>)
        requires few { self.old.yes + self.old.no < 2 ^ 63 }
        requires short { length message.now < 2 ^ 31 }
        ensures { self.new ≡ tally_with message.now (verdict_of verdict.now) self.old }
    {
        match verdict {
            Ok(found) => self.count_yes(message, &found.report),
            Err(Wrong { fault, .. }) => {
                let tally = &mut self.tally;
                tally.bytes += message.len() as u128;
                tally.no += 1;
                tally.reasons[count_place(fault.reason)] += 1;
                tally.reads = tally.reads.saturating_add(fault.reads);
            }
        }
    }
}
