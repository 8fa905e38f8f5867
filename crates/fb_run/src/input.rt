//! The input of a run, which is asked for more beside the run's outputs.

ghost use Rattle.std.specs.Prelude.{◌≡◌, ◌+◌, ◌<◌, ◌^◌, ℕ, Bool, List, Option, ⊤};
ghost use Rattle.std.specs.{Io.ReadsAtMost, Io.KnownBytes.ReadConsumes};
ghost use Rattle.fb_bytes.specs.Ends.{failed, told_end};

use fb_bytes::{Sink, Source};
use std::io;

/// A reader that is asked for more beside a writer and notes of these types, to which what was read is told.
///
/// It is read by [`ask`](Input::ask) alone, and each call has to prove the leave for it. So a run that may ask only
/// where this has been written and that noted has written and noted it by every read; and one that may ask only where
/// no call failed and no end was told asks no more after either. The outputs' types belong to the trait: of a method
/// that took any, a run could show other outputs than its own.
///
/// `remaining`, `calls`, `failures` and `ended` are those of a [`Source`], and each source is an input that may always
/// be asked.
pub trait Input<K: Sink, N: Sink> {
    ghost remaining: { Self → Option (List ℕ) };

    ghost calls: { Self → ℕ };

    ghost failures: { Self → ℕ };

    ghost ended: { Self → Bool };

    /// The leave to ask, with these bytes left to read, those that the writer has, and those that the notes have, by
    /// the calls that were made and those that failed, and whether the end was told.
    ghost may_ask: { Option (List ℕ) → Option (List ℕ) → Option (List ℕ) → ℕ → ℕ → Bool → Type 0 };

    /// Reads into the front of the piece and answers how many bytes came, as [`Source::pull`] does. The outputs are
    /// only shown.
    fn ask(&mut self, piece: &mut [u8], writer: &K, notes: &N) -> io::Result<usize>
        requires few { calls self.old < 2 ^ 100 }
        requires leave { may_ask (remaining self.old) (K.contents writer.now) (N.contents notes.now)
            (calls self.old) (failures self.old) (ended self.old) }
        ensures bound { ReadsAtMost result piece.new }
        ensures bytes { ReadConsumes (remaining self.old) (remaining self.new) result piece.new }
        ensures counted { calls self.new ≡ calls self.old + 1 }
        ensures failure { failures self.new ≡ failures self.old + failed result }
        ensures end { ended self.new ≡ told_end (ended self.old) result piece.new };
}

impl<S: Source, K: Sink, N: Sink> Input<K, N> for S {
    ghost remaining = { S.Source.remaining };

    ghost calls = { S.Source.calls };

    ghost failures = { S.Source.failures };

    ghost ended = { S.Source.ended };

    ghost may_ask = { λ _ _ _ _ _ _. ⊤ };

    fn ask(&mut self, piece: &mut [u8], _writer: &K, _notes: &N) -> io::Result<usize> {
        self.pull(piece)
    }
}
