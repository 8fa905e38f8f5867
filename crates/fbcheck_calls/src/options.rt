//! What a caller in C asks of a buffer.

ghost use Rattle.std.specs.Prelude.{◌≡◌, ◌≤◌, IsTrue, ◌↔◌, MatchResult};
ghost use Rattle.fb_schema.specs.Rows.{is_table};
ghost use Rattle.std.specs.Prelude.{IfSome};
ghost use Rattle.fbcheck_calls.specs.Asked.{AreKnown, HasLimits, LimitsFail, asks_marks, checks_asked, demands_of, ident_asked, if_table, known_demands, limits_of, published, root_asked, start_asked};

use crate::outcome::Outcome;
use fb_bfbs::{Loaded, own_ident};
use fb_schema::Schema;
use fb_strict::Demands;
use fb_verify::{Checks, Ident, Limits, Start};

/// The version of the options that this library knows.
const VERSION: u32 = 1;

/// The demand of strict checks that bytes are taken for plain. Those below it come in any set.
const PLAIN_BYTES: u32 = 8;

/// The most levels that there may be room for.
pub const DEEPEST: u32 = 4096;

/// The longest buffer, in bytes.
pub const LONGEST: u64 = 0x7FFF_FFFF;

/// The number of no object: the schema's own root table is asked for.
pub const OWN_ROOT: u32 = 0xFFFF_FFFF;

/// The number that stands for a table that isn't there.
pub const NO_TABLE: u32 = 0xFFFF_FFFE;

/// What a caller asks (`fbcheck_options`).
///
/// Of a schema file only the limits are asked. A flag is off where it is 0, and on at every other value.
#[repr(C)]
#[derive(Clone, Copy)]
pub struct Options {
    /// Which fields the caller knows: 1 for those that are here.
    pub version: u32,
    /// The number of the root table's object; 2^32 - 1 for the schema's own root, and 2^32 - 2 for none.
    pub root: u32,
    /// How many reads may be counted.
    pub max_reads: u64,
    /// How many tables may be open at once, at most 4,096.
    pub max_depth: u32,
    /// How many tables may be opened in all.
    pub max_tables: u32,
    /// How many reads a buffer may take for each of its bytes, and for 64 more.
    pub reads_per_byte: u32,
    /// The four bytes of the identifier that a buffer must have, where `ident_from` is 1.
    pub ident: [u8; 4],
    /// Which identifier a buffer must have: 0 for any, 1 for `ident`, 2 for the schema's own.
    pub ident_from: u8,
    /// Whether a buffer begins with its size.
    pub prefixed: u8,
    /// Whether positions need not be aligned.
    pub no_alignment: u8,
    /// Whether a field must end within the inline size of its table.
    pub inline_size: u8,
    /// What is demanded beside the rules: 0 for nothing; else the sum of 1 for strict checks, 2 for known fields, 4 for
    /// texts of UTF-8, and, beside 1, 8 for bytes that are plain.
    pub demands: u32,
    /// Room for what later versions ask. Version 1 doesn't read it.
    pub reserved: [u32; 6],
}

/// A number that is a table's.
fn if_table(schema: &Schema<'_>, number: Option<u32>) -> Option<u32>
    ensures value { result ≡ if_table schema.now number }
    ensures table { IfSome result (λ n. IsTrue (is_table schema.now n)) }
{
    match number {
        Some(n) if schema.is_table(n) => Some(n),
        _ => None,
    }
}

/// Whether this library knows these demands.
fn are_known(demands: u32) -> bool
    ensures { result ≡ known_demands demands }
{
    demands < PLAIN_BYTES || (demands < 2 * PLAIN_BYTES && demands % 2 == 1)
}

/// Whether the marks of a schema file are asked by these demands: by strict checks, in which bytes aren't plain.
pub fn asks_marks(demands: u32) -> bool
    ensures { result ≡ asks_marks demands }
{
    demands % 2 == 1 && demands < PLAIN_BYTES
}

/// What is demanded of buffers by these.
pub fn demands_of(demands: u32) -> Demands
    ensures { result ≡ demands_of demands }
{
    Demands {
        unions: demands % 2 == 1,
        nested: asks_marks(demands),
        known_fields: demands / 2 % 2 == 1,
        utf8: demands / 4 % 2 == 1,
    }
}

impl Options {
    /// The published limits and checks with a budget of 100,000,000 reads, and of 64 a byte, for a bare buffer with any
    /// identifier.
    pub fn published() -> Self
        ensures { result ≡ published }
    {
        Options {
            version: VERSION,
            root: OWN_ROOT,
            max_reads: 100_000_000,
            max_depth: 64,
            max_tables: 1_000_000,
            reads_per_byte: 64,
            ident: [0; 4],
            ident_from: 0,
            prefixed: 0,
            no_alignment: 0,
            inline_size: 0,
            demands: 0,
            reserved: [0; 6],
        }
    }

    /// Whether this library knows the options.
    pub fn are_known(&self) -> bool
        ensures { IsTrue result ↔ AreKnown self.now }
    {
        self.version == VERSION && self.ident_from <= 2 && are_known(self.demands)
    }

    /// Whether this library knows the options, and they ask for no more than 4,096 levels and these.
    pub fn have_limits(&self, levels: u32) -> bool
        ensures { IsTrue result ↔ HasLimits self.now levels }
    {
        self.are_known() && self.max_depth <= levels && self.max_depth <= DEEPEST
    }

    /// Whether they ask the published tests, and have no demands, as most do.
    pub fn ask_published_tests(&self) -> bool
        ensures { IsTrue result → self.now.demands ≡ 0 }
    {
        self.demands == 0 && self.no_alignment == 0 && self.inline_size == 0
    }

    /// The limits that are asked of so many bytes.
    pub fn limits_of(&self, length: u64) -> Limits
        requires { self.now.max_depth ≤ 4096 }
        ensures { result ≡ limits_of self.now length }
    {
        let Ok(limits) = Limits::new(self.max_depth, self.max_tables) else {
            unreachable!()
        };
        let limits = limits.with_reads(self.max_reads);
        limits.of_length(self.reads_per_byte, length.min(LONGEST))
    }

    /// The limits that are asked of so many bytes, in room for so many levels.
    ///
    /// # Errors
    ///
    /// `UnknownOptions` where the version is another than 1, the identifier's source above 2, or the demands unknown;
    /// then `OutOfRange` where the depth is above 4,096 or above these levels.
    pub fn limits(&self, levels: u32, length: u64) -> Result<Limits, Outcome>
        ensures { MatchResult result (λ l. HasLimits self.now levels × (l ≡ limits_of self.now length)) (LimitsFail self.now levels) }
    {
        if self.have_limits(levels) {
            return Ok(self.limits_of(length));
        }
        if self.are_known() {
            Err(Outcome::OutOfRange)
        } else {
            Err(Outcome::UnknownOptions)
        }
    }

    /// The root table that is asked of a schema, if there is one.
    pub fn root(&self, loaded: &Loaded<'_>) -> Option<u32>
        ensures root { result ≡ root_asked loaded.now self.now }
        ensures table { IfSome result (λ n. IsTrue (is_table loaded.now.schema n)) }
    {
        match self.root {
            OWN_ROOT => if_table(&loaded.schema, loaded.root),
            NO_TABLE => None,
            number => if_table(&loaded.schema, Some(number)),
        }
    }

    /// The identifier that a buffer must have by a schema, if any; none where the schema's own is asked, and hasn't
    /// four bytes.
    pub fn ident(&self, loaded: &Loaded<'_>) -> Option<Ident>
        ensures { result ≡ ident_asked loaded.now self.now }
    {
        match self.ident_from {
            0 => Some(Ident::Any),
            1 => Some(Ident::Want(self.ident)),
            _ => own_ident(loaded.ident),
        }
    }

    /// How a buffer begins.
    pub fn start(&self) -> Start
        ensures { result ≡ start_asked self.now }
    {
        if self.prefixed == 0 {
            Start::Bare
        } else {
            Start::Prefixed
        }
    }

    /// Which tests are made.
    pub fn checks(&self) -> Checks
        ensures { result ≡ checks_asked self.now }
    {
        Checks {
            alignment: self.no_alignment == 0,
            inline_size: self.inline_size != 0,
        }
    }
}
