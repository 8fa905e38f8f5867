//! A run over one bare input.

ghost use Rattle.std.specs.Prelude.{◌≡◌, ◌+◌, ◌<◌, ◌^◌, length, true};
ghost use Rattle.fb_run.specs.{Leave.HasLeave, Leave.all_ends, Pieces.IsFirst, Pieces.IsReady, Prompt.IsBarePrompt, Run.Runs};

use crate::checker::Checker;
use crate::fault::RunFault;
use crate::input::Input;
use crate::reading::{PIECE, read_whole};
use crate::stream::Carried;
use fb_bytes::Sink;
use std::alloc::Allocator;

impl<A: Allocator> Carried<A> {
    /// Reads the whole input, writes what is told of the buffer behind the bytes that are left out, and counts its
    /// verdict.
    pub fn pass_bare<B: Allocator, C: Allocator, S: Input<K, N>, K: Sink, N: Sink, R: Sink>(
        &mut self,
        alloc: B,
        piece: &mut Vec<u8, C>,
        reader: &mut S,
        writer: &mut K,
        notes: &mut N,
        rejects: &mut R,
        checker: &Checker<'_, '_, '_>,
        turns: u64,
    ) -> Result<(), RunFault>
        requires room { length piece.old.items ≡ PIECE }
        requires ready { IsReady checker.now self.old.framer self.old.room }
        requires first { IsFirst self.old }
        requires reads { S.calls reader.old + turns < 2 ^ 100 }
        requires leave { HasLeave S.Input (all_ends S.Input K.Sink N.Sink R.Sink reader.old writer.old notes.old rejects.old) (IsBarePrompt checker.now) }
        ensures { Runs true checker.now (all_ends S.Input K.Sink N.Sink R.Sink reader.old writer.old notes.old rejects.old)
            (all_ends S.Input K.Sink N.Sink R.Sink reader.new writer.new notes.new rejects.new) turns self.new.output.counter result }
    {
        let whole = read_whole(alloc, reader, piece, writer, notes, checker, turns)?;
        self.output.add(
            checker,
            &mut self.room,
            whole.as_slice(),
            writer,
            notes,
            rejects,
        )?;
        self.output.flush(writer, notes, rejects)
    }
}
