//! A run over a stream of size-prefixed buffers.

ghost use Rattle.std.specs.Prelude.{IfOk, ◌≡◌, ◌+◌, ◌<◌, ◌≤◌, ◌^◌, length, false};
ghost use Rattle.fb_run.specs.{Leave.HasLeave, Leave.all_ends, Prompt.IsStreamPrompt, Puts.AreOpen, Puts.queues_of, Run.Runs, Spot.IsDue, Spot.past_all, Sums.count_of};
ghost use Rattle.fb_run.specs.Pieces.{IsFirst, IsReady, PassesAllBy, PassesBy, carry_of};

use crate::checker::Checker;
use crate::fault::RunFault;
use crate::front::front_message;
use crate::input::Input;
use crate::output::Output;
use crate::reading::{MOST_TURNS, PIECE, pull_piece};
use crate::room::Workspace;
use crate::skip::Skip;
use fb_bytes::{Framer, Sink};
use std::alloc::{AllocError, Allocator};

/// What a run carries: over a stream from piece to piece, over one bare input from its start to its end.
#[derive(Drop)]
pub struct Carried<A: Allocator> {
    pub room: Workspace<A>,
    pub framer: Framer<A>,
    pub output: Output<A>,
}

impl<'a, A: Allocator> Carried<&'a A> {
    /// What is carried at first: nothing is told, and nothing is held.
    pub fn new(alloc: &'a A, checker: &Checker<'_, '_, '_>) -> Result<Self, AllocError>
        ensures ready { IfOk result (λ carried. IsReady checker.now carried.framer carried.room) }
        ensures first { IfOk result IsFirst }
    {
        let room = checker.room(alloc)?;
        let Ok(framer) = Framer::of(alloc, checker.cut()) else {
            unreachable!()
        };
        let output = Output::new(alloc);
        Ok(Carried {
            room,
            framer,
            output,
        })
    }
}

impl<A: Allocator> Carried<A> {
    /// Checks the buffers of a stream from its start, each of at most `max_bytes` of the options, behind the bytes that
    /// are left out, and writes what the mode tells of each. It comes in pieces through the read buffer, with at most
    /// `turns` reads, and none once a bound of the options is reached.
    ///
    /// What is told of all messages that are whole is written before the next read (`leave`), and before any answer. On
    /// a fault that of all whole messages that were read is written, but for `OutOfMemory`, where it is that of the first
    /// ones, and for `WriteFault` and `NoteFault`, where `written` bytes of it are. What was counted is that of the
    /// messages that are told, or in a write that failed were to be.
    pub fn pass_all<B: Allocator, S: Input<K, N>, K: Sink, N: Sink, R: Sink>(
        &mut self,
        piece: &mut Vec<u8, B>,
        reader: &mut S,
        writer: &mut K,
        notes: &mut N,
        rejects: &mut R,
        checker: &Checker<'_, '_, '_>,
        turns: u64,
    ) -> Result<(), RunFault>
        requires room { length piece.old.items ≡ PIECE }
        requires ready { IsReady checker.now self.old.framer self.old.room }
        requires first { IsFirst self.old }
        requires turns { turns ≤ MOST_TURNS }
        requires few { S.calls reader.old < 2 ^ 64 }
        requires leave { HasLeave S.Input (all_ends S.Input K.Sink N.Sink R.Sink reader.old writer.old notes.old rejects.old) (IsStreamPrompt checker.now) }

        ensures { Runs false checker.now (all_ends S.Input K.Sink N.Sink R.Sink reader.old writer.old notes.old rejects.old)
            (all_ends S.Input K.Sink N.Sink R.Sink reader.new writer.new notes.new rejects.new) turns self.new.output.counter result }
    {
        let mut skip = Skip::new(checker.terms().skip);
        let mut left = turns;
        while left > 0 {
            left -= 1;
            let read = match pull_piece(reader, piece, writer, notes) {
                Ok(0) => {
                    skip.end()?;
                    self.framer.finish()?;
                    return Ok(());
                }
                Ok(read) => read,
                Err(_) => return Err(RunFault::ReadFault),
            };
            let more = skip.behind(&piece.as_slice()[..read]);
            let passed = self.pass_messages(checker, more, writer, notes, rejects);
            self.output.flush(writer, notes, rejects)?;
            passed?;
            if self.output.due(checker, 0) == 0 {
                return Ok(());
            }
        }
        Err(RunFault::TooManyTurns)
    }

    /// Passes a whole piece, or the messages of it up to a bound of the options, and adds what is told of those that end
    /// in it.
    fn pass_messages<K: Sink, N: Sink, R: Sink>(
        &mut self,
        checker: &Checker<'_, '_, '_>,
        piece: &[u8],
        writer: &mut K,
        notes: &mut N,
        rejects: &mut R,
    ) -> Result<(), RunFault>
        requires ready { IsReady checker.now self.old.framer self.old.room }
        requires unfailed { AreOpen (queues_of K.Sink N.Sink R.Sink self.old.output writer.old notes.old rejects.old) }
        requires piece { length piece.now ≤ PIECE }
        requires few { count_of self.old.output.counter < 2 ^ 62 }
        ensures { PassesAllBy checker.now piece.now (carry_of K.Sink N.Sink R.Sink self.old writer.old notes.old rejects.old)
            (carry_of K.Sink N.Sink R.Sink self.new writer.new notes.new rejects.new) result }
    {
        let mut rest = piece;
        let mut due = 0;
        while !rest.is_empty() {
            due = self.output.due(checker, due);
            if due == 0 {
                return Ok(());
            }
            due -= 1;
            let used = self.pass_some(checker, rest, writer, notes, rejects)?;
            rest = &rest[used..];
        }
        Ok(())
    }

    /// Passes bytes from the front of the rest of a piece, up to the end of a message, and adds what is told of it.
    /// Answers how many bytes that were. A message that stands whole there is checked where it stands; of others the
    /// framer holds what came.
    #[tactic(auto, using(std::proofs::lemmas::Grind::common_steps))]
    fn pass_some<K: Sink, N: Sink, R: Sink>(
        &mut self,
        checker: &Checker<'_, '_, '_>,
        rest: &[u8],
        writer: &mut K,
        notes: &mut N,
        rejects: &mut R,
    ) -> Result<usize, RunFault>
        requires rest { 0 < length rest.now }
        requires ready { IsReady checker.now self.old.framer self.old.room }
        requires unfailed { AreOpen (queues_of K.Sink N.Sink R.Sink self.old.output writer.old notes.old rejects.old) }
        requires few { count_of self.old.output.counter < 2 ^ 63 }
        requires due { IsDue checker.now (past_all checker.now self.old.output.counter) }

        ensures { PassesBy checker.now rest.now (carry_of K.Sink N.Sink R.Sink self.old writer.old notes.old rejects.old)
            (carry_of K.Sink N.Sink R.Sink self.new writer.new notes.new rejects.new) result }
    {
        if self.framer.held() == 0 {
            if let Some(message) = front_message(rest, checker.cut()) {
                self.output
                    .add(checker, &mut self.room, message, writer, notes, rejects)?;
                return Ok(message.len());
            }
        }
        let taken = self.framer.feed(rest)?;
        let Some(message) = self.framer.message() else {
            return Ok(taken.used);
        };
        self.output
            .add(checker, &mut self.room, message, writer, notes, rejects)?;
        self.framer.next();
        Ok(taken.used)
    }
}
