//! What a call answers, and how it is told in numbers.

ghost use Rattle.std.specs.Prelude.{◌≡◌, min};
ghost use Rattle.fb_rules.specs.Reasons.{reason_number};
ghost use Rattle.fbcheck_calls.specs.declared.outcome.Outcome.TheVariants.{Bad, Good};
ghost use Rattle.fbcheck_calls.specs.Told.{blank, code_number, fault_told, field_number, field_told, load_told, low, misplaced, path_told, stream_status, told};

use crate::status::Status;
use fb_access::PathFault;
use fb_bfbs::LoadFault;
use fb_bytes::StreamFault;
use fb_schema::{Code, SchemaFault};
use fb_verify::{Fault, Reason, Report};

/// The number of no field, and of no part of an object.
const NONE: u32 = 0xFFFF_FFFF;

/// What a call answers.
#[derive(Clone, Copy)]
pub enum Outcome {
    /// 0: it was done.
    Done,
    /// 0: the buffer is good, with these counts.
    Good(Report),
    /// 1: the buffer has this fault.
    Bad(Fault),
    /// 3: the options have another version than 1, an unknown source of the identifier, or unknown demands.
    UnknownOptions,
    /// 4: a limit of depth is above the room for open tables, or the room above 4,096 levels.
    OutOfRange,
    /// 5: the schema's own identifier is asked for, and has neither no bytes nor four.
    NoIdent,
    /// 6: the schema has no root table of its own, or the number that is asked is no table's.
    NoRoot,
    /// 7: the buffer has 2^31 bytes or more.
    TooLong,
    /// 7 to 11 and 20: the schema file gives no schema.
    NoSchema(LoadFault),
    /// 12: the span doesn't lie in the block.
    NoSpan,
    /// 11 and 17: the text is no path of the schema.
    BadPath(PathFault),
    /// 18: there are more steps than there is room for.
    NoRoom,
    /// 19: the path at this place, from 0, is the first that doesn't fit the schema from the root table.
    Misfit(u64),
    /// 11 and 14 to 16: the stream of a framer isn't one of messages within its limit.
    BadStream(StreamFault),
    /// 21: the options have demands, and the schema was made with others.
    NotPlanned,
    /// 22: the schema file doesn't show what this field of bytes holds.
    UnmarkedBytes(FieldAt),
    /// 23: the schema file marks this field of bytes as a nested buffer, and the mark names no table for its root.
    NoSuchTable(FieldAt),
    /// 24: the bytes aren't those of a good buffer, as the path at this place, from 0, shows.
    Changed(u64),
}

/// A live field of a table, by the table's number and its own.
#[derive(Clone, Copy)]
pub struct FieldAt {
    pub object: u32,
    pub field: u16,
}

/// What is told of an answer in numbers (`fbcheck_verdict`).
#[repr(C)]
#[derive(Clone, Copy, Default)]
pub struct Verdict {
    /// The number of the answer, which the call returns too.
    pub status: u32,
    /// The reason's number where a buffer or a schema file is refused; where its rows are no schema, their code's; else 0.
    pub reason: u32,
    /// With a reason, the number of the object (or the enum, where a member is at fault), and that of the table whose
    /// field keeps demands from being asked; else 0.
    pub object: u32,
    /// The number of the field of that object; the place of the field or member of rows that are no schema; 2^32 - 1
    /// for none.
    pub field: u32,
    /// Of a good buffer, the tables that were visited, else 0.
    pub tables: u32,
    /// Of a good buffer, the most tables that were open at once, else 0.
    pub depth: u32,
    /// With a reason, the position in bytes from the buffer's first; of a text that is no path, the place in it or the
    /// number of the step; of paths, the place of the first that doesn't fit, or shows that bytes changed; else 0.
    pub at: u64,
    /// The counted reads, of a buffer or of a schema file that isn't well formed; 2^64 - 1 stands for more too.
    pub reads: u64,
    /// Room for what later versions tell: 0.
    pub reserved: [u64; 3],
}

/// The number of a reason, that of its code.
fn reason_number(reason: Reason) -> u32
    ensures { result ≡ reason_number reason }
{
    reason as u32 + 1
}

/// The number of what is wrong with rows.
fn code_number(code: Code) -> u32
    ensures { result ≡ code_number code }
{
    code as u32 + 1
}

/// The number of a field, if there is one.
fn field_number(field: Option<u16>) -> u32
    ensures { result ≡ field_number field }
{
    match field {
        Some(field) => u32::from(field),
        None => NONE,
    }
}

/// So many reads, or the greatest number that there is room for.
pub fn low(reads: u128) -> u64
    ensures { result ≡ low reads }
{
    reads.min(u128::from(u64::MAX)) as u64
}

/// What is told where there is no more to tell.
fn blank(status: Status) -> Verdict
    ensures { result ≡ blank status }
{
    Verdict {
        status: status.number(),
        field: NONE,
        ..Verdict::default()
    }
}

/// The counts of a good buffer.
fn good_told(report: Report) -> Verdict
    ensures { result ≡ told (Good report) }
{
    Verdict {
        tables: report.tables,
        depth: report.depth,
        reads: low(report.reads),
        ..blank(Status::Done)
    }
}

/// A fault of the verifier.
fn fault_told(status: Status, fault: Fault) -> Verdict
    ensures { result ≡ fault_told status fault }
{
    Verdict {
        reason: reason_number(fault.reason),
        object: fault.object,
        field: field_number(fault.field),
        at: fault.at,
        reads: low(fault.reads),
        ..blank(status)
    }
}

/// Why a schema file gives no schema.
fn load_told(fault: LoadFault) -> Verdict
    ensures { result ≡ load_told fault }
{
    match fault {
        LoadFault::TooLong => blank(Status::TooLong),
        LoadFault::NotWellFormed(first) => fault_told(Status::NotWellFormed, first),
        LoadFault::BadSchema(SchemaFault { code, owner, part }) => Verdict {
            reason: code_number(code),
            object: owner,
            field: part.unwrap_or(NONE),
            ..blank(Status::BadSchema)
        },
        LoadFault::RootNotListed => blank(Status::RootNotListed),
        LoadFault::OutOfMemory => blank(Status::OutOfMemory),
        LoadFault::TooMuchShared => blank(Status::TooMuchShared),
    }
}

/// A fault of a path, by the number of its code and its place.
fn misplaced(reason: u32, at: u64) -> Verdict
    ensures { result ≡ misplaced reason at }
{
    Verdict {
        reason,
        at,
        ..blank(Status::BadPath)
    }
}

/// Why a text is no path.
fn path_told(fault: PathFault) -> Verdict
    ensures { result ≡ path_told fault }
{
    match fault {
        PathFault::BadText { at } => misplaced(1, at),
        PathFault::NoSuchField { step } => misplaced(2, step),
        PathFault::NotIndexable { step } => misplaced(3, step),
        PathFault::NotAUnion { step } => misplaced(4, step),
        PathFault::NoSuchMember { step } => misplaced(5, step),
        PathFault::NotATable { step } => misplaced(6, step),
        PathFault::OutOfMemory => blank(Status::OutOfMemory),
    }
}

/// A field that keeps demands from being asked.
fn field_told(status: Status, field: FieldAt) -> Verdict
    ensures { result ≡ field_told status field }
{
    Verdict {
        object: field.object,
        field: u32::from(field.field),
        ..blank(status)
    }
}

/// The status of what is wrong with a stream.
fn stream_status(fault: StreamFault) -> Status
    ensures { result ≡ stream_status fault }
{
    match fault {
        StreamFault::OutOfMemory => Status::OutOfMemory,
        StreamFault::Oversize { .. } => Status::Oversize,
        StreamFault::Truncated { .. } => Status::Truncated,
        StreamFault::Failed => Status::Failed,
    }
}

/// Writes what is told of a good buffer, and answers the status.
#[inline(always)]
pub fn tell_good(report: Report, verdict: &mut Verdict) -> u32
    ensures told { verdict.new ≡ told (Good report) }
    ensures status { result ≡ verdict.new.status }
{
    *verdict = good_told(report);
    Status::Done.number()
}

/// Writes what is told of a bad buffer, and answers the status. It and the next stand apart, so that a good buffer pays
/// nothing for them.
#[cold]
#[inline(never)]
pub fn tell_bad(fault: Fault, verdict: &mut Verdict) -> u32
    ensures told { verdict.new ≡ told (Bad fault) }
    ensures status { result ≡ verdict.new.status }
{
    *verdict = fault_told(Status::Bad, fault);
    Status::Bad.number()
}

/// Writes a status with nothing more to tell, and answers it.
#[cold]
#[inline(never)]
pub fn tell_blank(status: Status, verdict: &mut Verdict) -> u32
    ensures told { verdict.new ≡ blank status }
    ensures status { result ≡ verdict.new.status }
{
    *verdict = blank(status);
    status.number()
}

impl Outcome {
    /// The answer in numbers.
    #[inline(always)]
    pub fn told(self) -> Verdict
        ensures { result ≡ told self }
    {
        match self {
            Outcome::Done => blank(Status::Done),
            Outcome::Good(report) => good_told(report),
            Outcome::Bad(fault) => fault_told(Status::Bad, fault),
            Outcome::UnknownOptions => blank(Status::UnknownOptions),
            Outcome::OutOfRange => blank(Status::OutOfRange),
            Outcome::NoIdent => blank(Status::NoIdent),
            Outcome::NoRoot => blank(Status::NoRoot),
            Outcome::TooLong => blank(Status::TooLong),
            Outcome::NoSchema(fault) => load_told(fault),
            Outcome::NoSpan => blank(Status::NoSpan),
            Outcome::BadPath(fault) => path_told(fault),
            Outcome::NoRoom => blank(Status::NoRoom),
            Outcome::Misfit(at) => Verdict {
                at,
                ..blank(Status::Misfit)
            },
            Outcome::BadStream(fault) => blank(stream_status(fault)),
            Outcome::NotPlanned => blank(Status::NotPlanned),
            Outcome::UnmarkedBytes(field) => field_told(Status::UnmarkedBytes, field),
            Outcome::NoSuchTable(field) => field_told(Status::NoSuchTable, field),
            Outcome::Changed(at) => Verdict {
                at,
                ..blank(Status::Changed)
            },
        }
    }

    /// Writes the answer in numbers, and answers the first of these.
    #[inline(always)]
    pub fn tell(self, verdict: &mut Verdict) -> u32
        ensures told { verdict.new ≡ told self }
        ensures status { result ≡ verdict.new.status }
    {
        let told = self.told();
        *verdict = told;
        told.status
    }
}
