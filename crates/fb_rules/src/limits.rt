// How deep tables may lie in one another, how many may be opened, and how many reads may be counted.

ghost use Rattle.std.specs.Prelude.{◌≡◌, ◌^◌, ◌<◌, ◌≤◌, MatchResult, Some, None, true};
ghost use Rattle.fb_rules.specs.Bounds.{AreAllowed, allowed, limits_of_length};

use std::marker::Model;

/// The greatest depth limit.
const DEEPEST: u32 = 4096;

/// How many bytes count beside a buffer's own, for the reads that its length allows.
const FREE_BYTES: u64 = 64;

/// More reads than any walk counts. In place of a budget, so that with and without one a walk makes the same test.
const NO_BUDGET: u128 = u128::MAX;

/// The greatest budget.
const MOST: u128 = 0xFFFF_FFFF_FFFF_FFFF;

/// Fewer reads than this may be counted in 64 bits: no field or row costs so many that they would be too few.
const SHORT: u64 = 1 << 56;

/// How many tables may be open at once, 0 to 4,096, how many may be opened in all, and how many reads may be counted,
/// if these are bounded. A table that is visited again counts again, with its reads.
#[derive(Clone, Copy, Debug, PartialEq, Eq)]
pub struct Limits {
    depth: u32,
    tables: u32,
    /// The budget of reads, `NO_BUDGET` where there is none.
    most: u128,
    /// The budget where a count of 64 bits holds it with room to spare, else as much as it does.
    short: u64,
}

impl Model for Limits {
    ghost use Rattle.std.specs.Prelude.{◌≡◌, ◌≤◌, min};
    ghost use Rattle.fb_rules.specs.Bounds.{Bounds, budget_of, most_of};

    ghost Value = { Bounds };

    ghost view = { λ l. record { depth = l.depth; tables = l.tables; reads = budget_of l.most } };

    ghost inverse = { λ v. record { depth = v.depth; tables = v.tables; most = most_of v.reads; short = min (most_of v.reads) 72057594037927936 } };

    ghost inverse_ok = { λ l h i. record { depth = l.depth; tables = l.tables; most = h.1.0 i; short = h.1.1 i } };

    ghost invariant = { λ l. (l.depth ≤ 4096) × ((most_of (budget_of l.most) ≡ l.most) × (min (most_of (budget_of l.most)) 72057594037927936 ≡ l.short)) };
}

/// A depth limit above 4,096.
#[derive(Clone, Copy, Debug, PartialEq, Eq)]
pub struct LimitOutOfRange;

impl Limits {
    /// Limits of so many tables open at once, at most 4,096, and so many opened in all. Reads aren't bounded.
    ///
    /// # Errors
    ///
    /// `LimitOutOfRange` where `depth` is above 4,096, and only then.
    pub fn new(depth: u32, tables: u32) -> Result<Self, LimitOutOfRange>
        ensures { MatchResult result
            (λ l. (l ≡ record { depth = depth; tables = tables; reads = None }) × (depth ≤ 4096))
            (λ _. 4096 < depth) }
    {
        if depth <= DEEPEST {
            Ok(Limits {
                depth,
                tables,
                most: NO_BUDGET,
                short: SHORT,
            })
        } else {
            Err(LimitOutOfRange)
        }
    }

    /// The limits of FlatBuffers' own verifier for C++: depth 64, and 1,000,000 tables. Reads aren't bounded.
    pub fn published() -> Self
        ensures { result ≡ record { depth = 64; tables = 1000000; reads = None } }
    {
        Limits {
            depth: 64,
            tables: 1_000_000,
            most: NO_BUDGET,
            short: SHORT,
        }
    }

    /// The same limits with a budget of so many counted reads: the time of a verification is bounded by them, which
    /// depth and tables don't do, as each visit of a table may walk the same long vector again.
    pub fn with_reads(self, most: u64) -> Self
        ensures { result ≡ record self { reads = Some most } }
    {
        Limits {
            most: u128::from(most),
            short: most.min(SHORT),
            ..self
        }
    }

    /// These limits for one buffer of so many bytes, which may take no more than `reads_per_byte` counted reads for
    /// each of them and for 64 more. What a builder writes is read about once, and only what is shared is read again,
    /// so a short buffer can't ask for the time of a long one.
    pub fn of_length(self, reads_per_byte: u32, length: u64) -> Self
        requires short { length < 2 ^ 31 }
        ensures { result ≡ limits_of_length self reads_per_byte length }
    {
        let fair = u64::from(reads_per_byte) * (length + FREE_BYTES);
        Limits {
            most: self.most.min(u128::from(fair)),
            short: self.short.min(fair),
            ..self
        }
    }

    /// How many tables may be open at once.
    pub fn depth(&self) -> u32
        ensures value { result ≡ self.now.depth }
        ensures in_range { result ≤ 4096 }
    {
        self.depth
    }

    /// How many reads may be counted, none where these aren't bounded.
    pub fn reads(&self) -> Option<u64>
        ensures { result ≡ self.now.reads }
    {
        if self.most <= MOST {
            Some(self.most as u64)
        } else {
            None
        }
    }
}

// What only a walk asks. These are functions and no methods, so that whoever is handed limits sees none of them.

/// How many tables may be opened in all.
pub fn tables_of(limits: Limits) -> u32
    ensures { result ≡ limits.tables }
{
    limits.tables
}

/// Whether so many reads may be counted, and a count of 64 bits holds them with room to spare.
pub fn allows_short(limits: Limits, reads: u128) -> bool
    ensures allowed { result ≡ true → AreAllowed limits.reads reads }
    ensures short { result ≡ true → reads < 2 ^ 56 }
{
    reads < u128::from(SHORT) && allows(limits, reads)
}

/// So many reads may be counted, and a count of 64 bits holds them with room to spare: the budget where it is short.
pub fn short_of(limits: Limits) -> u64
    ensures allowed { AreAllowed limits.reads result }
    ensures short { result ≤ 2 ^ 56 }
{
    limits.short
}

/// Whether so many reads may be counted.
pub fn allows(limits: Limits, reads: u128) -> bool
    ensures { result ≡ allowed limits.reads reads }
{
    reads <= limits.most
}
