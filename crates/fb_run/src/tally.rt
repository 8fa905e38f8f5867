//! What a run comes to, in numbers.

ghost use Rattle.std.specs.Prelude.{◌≡◌, ◌<◌};
ghost use Rattle.fb_rules.specs.Reasons.{reason_count};
ghost use Rattle.fb_run.specs.Sums.{no_tally, count_place};

use fb_verify::{REASONS, Reason};

/// How many buffers had a yes and how many a no, and what was counted in them.
#[derive(Clone, Copy)]
pub struct Tally {
    pub yes: u64,
    pub no: u64,
    /// How many had a no for each reason, V1 first.
    pub reasons: [u64; REASONS],
    /// The bytes of all, prefixes included.
    pub bytes: u128,
    /// The visits of tables in those with a yes.
    pub tables: u128,
    /// The counted reads of all, or 2^128 - 1 where they are more. Within a budget of reads they never are.
    pub reads: u128,
}

impl Tally {
    /// That of no buffers.
    pub fn new() -> Tally
        ensures { result ≡ no_tally }
    {
        Tally {
            yes: 0,
            no: 0,
            reasons: [0; REASONS],
            bytes: 0,
            tables: 0,
            reads: 0,
        }
    }
}

/// Where a reason's count stands among those of all reasons.
pub fn count_place(reason: Reason) -> usize
    ensures place { result ≡ count_place reason }
    ensures within { result < reason_count }
{
    reason as usize
}
