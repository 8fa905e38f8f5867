//! Readers and writers that tell what was made of them.

ghost use Rattle.std.specs.Prelude.{◌≡◌, ◌+◌, ◌<◌, ◌^◌, ℕ, Bool, List, Option};
ghost use Rattle.std.specs.{Io.ReadsAtMost, Io.WritesAtMost, Io.KnownBytes.ReadConsumes, Io.KnownBytes.WriteAppends};
ghost use Rattle.fb_bytes.specs.Ends.{failed, failed_more, one_more, told_end};

use std::io;

/// A reader that counts its calls and tells its end.
///
/// `remaining` is what is left to read, where that is known (of bytes in memory), and `None` where it
/// isn't (of a file or a pipe): the counts are known of every source.
pub trait Source {
    ghost remaining: { Self → Option (List ℕ) };

    ghost calls: { Self → ℕ };

    ghost failures: { Self → ℕ };

    ghost ended: { Self → Bool };

    /// Reads into the front of the piece and answers how many bytes came, as [`std::io::Read::read`] does.
    /// An error is the reader's own, and counts as a failure.
    fn pull(&mut self, piece: &mut [u8]) -> io::Result<usize>
        requires { calls self.old < 2 ^ 100 }
        ensures bound { ReadsAtMost result piece.new }
        ensures bytes { ReadConsumes (remaining self.old) (remaining self.new) result piece.new }
        ensures counted { calls self.new ≡ calls self.old + 1 }
        ensures failure { failures self.new ≡ failures self.old + failed result }
        ensures end { ended self.new ≡ told_end (ended self.old) result piece.new };

    /// How many calls of `pull` were made.
    fn calls(&self) -> u128
        ensures { result ≡ calls self.now };

    /// How many of them answered an error.
    fn failures(&self) -> u128
        ensures { result ≡ failures self.now };

    /// Whether the last `pull` into a nonempty piece answered that the input has ended.
    fn ended(&self) -> bool
        ensures { result ≡ ended self.now };
}

/// A writer that counts its calls. A count that would be more than 2^128 - 1 stays there.
///
/// `contents` is all that was written, where that is known (into memory), and `None` where it isn't.
pub trait Sink {
    ghost contents: { Self → Option (List ℕ) };

    ghost calls: { Self → ℕ };

    ghost failures: { Self → ℕ };

    /// Writes bytes from the front of the piece and answers how many were taken, as
    /// [`std::io::Write::write`] does. An error is the writer's own. An error counts as a failure, and so
    /// does taking nothing of a nonempty piece.
    fn push(&mut self, piece: &[u8]) -> io::Result<usize>
        ensures bound { WritesAtMost result piece.now }
        ensures bytes { WriteAppends (contents self.old) (contents self.new) result piece.now }
        ensures counted { calls self.new ≡ one_more (calls self.old) }
        ensures failure { failures self.new ≡ failed_more result piece.now (failures self.old) };

    /// How many calls of `push` were made.
    fn calls(&self) -> u128
        ensures { result ≡ calls self.now };

    /// How many of them failed.
    fn failures(&self) -> u128
        ensures { result ≡ failures self.now };
}
