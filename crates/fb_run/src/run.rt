//! A run over an input, by a schema.

ghost use Rattle.std.specs.Prelude.{◌≡◌, length, ◌+◌, ◌<◌, ◌≤◌, ◌^◌};
ghost use Rattle.fb_rules.specs.Reasons.{reason_count};
ghost use Rattle.fb_run.specs.{Faults.EndsBeside, Faults.end_of, Job.Serves, Job.job_of, Prompt.IsPrompt, Run.IsRun, Run.IsRunBeside, Run.answer_by, Sums.no_tally};
ghost use Rattle.fb_run.specs.Leave.{HasLeave, all_ends, ends_of, noteless};

use crate::checker::Checker;
use crate::fault::RunFault;
use crate::input::Input;
use crate::options::Options;
use crate::reading::{MOST_TURNS, read_buffer};
use crate::stream::Carried;
use crate::tally::Tally;
use crate::writing::Nowhere;
use fb_bytes::Sink;
use fb_schema::Schema;
use std::alloc::Allocator;

/// What a run came to: what was counted in it, and how it ended.
#[derive(Clone, Copy)]
pub struct Ran {
    pub tally: Tally,
    pub end: Result<(), RunFault>,
}

impl Ran {
    /// That of a run that ended with this fault before it counted anything.
    pub fn none(fault: RunFault) -> Ran
        ensures { result ≡ record { tally = no_tally; end = Err fault } }
    {
        Ran {
            tally: Tally::new(),
            end: Err(fault),
        }
    }

    /// What was counted, where the run ended well, or else the fault.
    pub fn answer(&self) -> Result<Tally, RunFault>
        ensures { result ≡ answer_by self.now.tally self.now.end }
    {
        match self.end {
            Ok(()) => Ok(self.tally),
            Err(fault) => Err(fault),
        }
    }
}

/// Checks the buffers of an input by a schema, and writes what the mode of the options tells of each, with at most
/// `turns` reads. Where the options have paths, the line of a yes ends with the values there; where they have a plan,
/// a buffer has a yes only if it is strict.
///
/// The input is a stream of size-prefixed buffers (FlatBuffers Internals), or of bare ones behind their lengths by
/// `prefix` of the options, or with `bare` one bare buffer. What is told of all messages that are whole is written
/// before the next read, and before any answer: first to the writer, then to the notes, then to the rejects. A reader
/// that may be asked for more only where this is so can be run over (`leave`). Where bad buffers are to be kept, the
/// rejects get each of them as it came, prefix included.
///
/// # Ends
///
/// What a run comes to is that of the messages that are told, or in a write that failed were to be. It ends well at the
/// end of the input, or over a stream behind as many messages, or bad ones, as are told at most: no read is made then,
/// and what else was read is dropped. Or it ends for one of these:
///
/// - `ReadFault` where the reader failed, `TooManyTurns` where `turns` reads were made and a further one is needed, and
/// `Stream` where a prefix declares too much or the stream ends in mid-message: what is told of all whole messages that
/// were read is written, of a bare input nothing.
/// - `WriteFault` where the writer failed or took nothing: it took `written` bytes, a front of what is told.
/// `NoteFault` is the same of the notes, and `RejectFault` of the rejects.
/// - `OutOfMemory` where memory was refused: what is told of the first messages is written, of a bare input nothing.
/// - `BareTooLong` where more than `max_bytes` bytes of a bare input were read: nothing is written.
/// - `SkipPastEnd` where the input ended within the bytes that are left out: nothing is written.
pub fn run_keeping<A: Allocator, S: Input<K, N>, K: Sink, N: Sink, R: Sink>(
    alloc: A,
    reader: &mut S,
    writer: &mut K,
    notes: &mut N,
    rejects: &mut R,
    schema: &Schema<'_>,
    options: &Options,
    turns: u64,
) -> Ran
    requires serves { Serves schema.now options.now }
    requires turns { turns ≤ MOST_TURNS }
    requires few { S.calls reader.old < 2 ^ 64 }
    requires leave { HasLeave S.Input (all_ends S.Input K.Sink N.Sink R.Sink reader.old writer.old notes.old rejects.old) (IsPrompt (job_of schema.now options.now)) }

    ensures run { IsRunBeside (job_of schema.now options.now) (all_ends S.Input K.Sink N.Sink R.Sink reader.old writer.old notes.old rejects.old)
        (all_ends S.Input K.Sink N.Sink R.Sink reader.new writer.new notes.new rejects.new) result.tally result.end }
    ensures end { EndsBeside (all_ends S.Input K.Sink N.Sink R.Sink reader.old writer.old notes.old rejects.old)
        (all_ends S.Input K.Sink N.Sink R.Sink reader.new writer.new notes.new rejects.new) turns result.end }
    ensures places { length result.tally.reasons ≡ reason_count }
    ensures turns { S.calls reader.new ≤ S.calls reader.old + turns }
{
    let checker = Checker::new(schema, options);
    let Ok(mut piece) = read_buffer(&alloc) else {
        return Ran::none(RunFault::OutOfMemory);
    };
    let Ok(mut carried) = Carried::new(&alloc, &checker) else {
        return Ran::none(RunFault::OutOfMemory);
    };
    if checker.terms().bare {
        let end = carried.pass_bare(
            &alloc, &mut piece, reader, writer, notes, rejects, &checker, turns,
        );
        let tally = carried.output.tally();
        return Ran { tally, end };
    }
    let end = carried.pass_all(&mut piece, reader, writer, notes, rejects, &checker, turns);
    let tally = carried.output.tally();
    Ran { tally, end }
}

/// The same without rejects: bad buffers that are to be kept are dropped.
pub fn run_beside<A: Allocator, S: Input<K, N>, K: Sink, N: Sink>(
    alloc: A,
    reader: &mut S,
    writer: &mut K,
    notes: &mut N,
    schema: &Schema<'_>,
    options: &Options,
    turns: u64,
) -> Ran
    requires serves { Serves schema.now options.now }
    requires turns { turns ≤ MOST_TURNS }
    requires few { S.calls reader.old < 2 ^ 64 }
    requires leave { HasLeave S.Input (ends_of S.Input K.Sink N.Sink reader.old writer.old notes.old) (IsPrompt (job_of schema.now options.now)) }

    ensures run { IsRunBeside (job_of schema.now options.now) (ends_of S.Input K.Sink N.Sink reader.old writer.old notes.old)
        (ends_of S.Input K.Sink N.Sink reader.new writer.new notes.new) result.tally result.end }
    ensures end { EndsBeside (ends_of S.Input K.Sink N.Sink reader.old writer.old notes.old) (ends_of S.Input K.Sink N.Sink reader.new writer.new notes.new) turns result.end }
    ensures places { length result.tally.reasons ≡ reason_count }
    ensures turns { S.calls reader.new ≤ S.calls reader.old + turns }
{
    let mut rejects = Nowhere::new();
    run_keeping(
        alloc,
        reader,
        writer,
        notes,
        &mut rejects,
        schema,
        options,
        turns,
    )
}

/// The same without notes too: what would be noted is dropped, and only [`Filter`](crate::Mode::Filter) and
/// [`Csv`](crate::Mode::Csv) note anything.
pub fn run_within<A: Allocator, S: Input<K, Nowhere>, K: Sink>(
    alloc: A,
    reader: &mut S,
    writer: &mut K,
    schema: &Schema<'_>,
    options: &Options,
    turns: u64,
) -> Result<Tally, RunFault>
    requires serves { Serves schema.now options.now }
    requires turns { turns ≤ MOST_TURNS }
    requires few { S.calls reader.old < 2 ^ 64 }
    requires leave { HasLeave S.Input (noteless S.Input K.Sink reader.old writer.old) (IsPrompt (job_of schema.now options.now)) }

    ensures run { IsRun (job_of schema.now options.now) (noteless S.Input K.Sink reader.old writer.old) (noteless S.Input K.Sink reader.new writer.new) result }
    ensures end { EndsBeside (noteless S.Input K.Sink reader.old writer.old) (noteless S.Input K.Sink reader.new writer.new) turns (end_of result) }
    ensures turns { S.calls reader.new ≤ S.calls reader.old + turns }
{
    let mut notes = Nowhere::new();
    run_beside(alloc, reader, writer, &mut notes, schema, options, turns).answer()
}

/// The same without notes, with at most 2^32 reads.
#[tactic(auto, using(std::proofs::lemmas::Grind::common_steps))]
pub fn run<A: Allocator, S: Input<K, Nowhere>, K: Sink>(
    alloc: A,
    reader: &mut S,
    writer: &mut K,
    schema: &Schema<'_>,
    options: &Options,
) -> Result<Tally, RunFault>
    requires serves { Serves schema.now options.now }
    requires few { S.calls reader.old < 2 ^ 64 }
    requires leave { HasLeave S.Input (noteless S.Input K.Sink reader.old writer.old) (IsPrompt (job_of schema.now options.now)) }

    ensures run { IsRun (job_of schema.now options.now) (noteless S.Input K.Sink reader.old writer.old) (noteless S.Input K.Sink reader.new writer.new) result }
    ensures end { EndsBeside (noteless S.Input K.Sink reader.old writer.old) (noteless S.Input K.Sink reader.new writer.new) MOST_TURNS (end_of result) }
    ensures turns { S.calls reader.new ≤ S.calls reader.old + MOST_TURNS }
{
    run_within(alloc, reader, writer, schema, options, MOST_TURNS)
}
