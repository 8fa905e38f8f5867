//! A reader or writer of std with its counts.

ghost use Rattle.std.specs.Prelude.{◌≡◌, ◌+◌, ◌<◌, ◌≤◌, ◌^◌, false};

use crate::ends::{Sink, Source};
use std::io;
use std::io::{Read, Write};
use std::marker::Model;

/// A reader or writer of std with the counts that [`Source`] and [`Sink`] tell, beginning at none.
///
/// Each call is passed on once, and its answer is handed back unchanged. Where the answer is an error, no contract says
/// that the call was passed on: std's clauses hold of every error, whoever made it. A test counts the calls that the
/// reader or writer saw.
#[derive(Drop)]
pub struct Counted<I> {
    inner: I,
    calls: u128,
    failures: u128,
    ended: bool,
}

impl<I> Model for Counted<I> {
    ghost use Rattle.std.specs.Prelude.{◌≤◌};
    ghost use Rattle.fb_bytes.specs.Ends.{Counts};

    ghost Value = { Counts I };

    ghost view = { λ c. record { inner = c.inner; calls = c.calls; failures = c.failures; ended = c.ended } };

    ghost invariant = { λ c. c.failures ≤ c.calls };
}

impl<I> Counted<I> {
    /// Counts the calls of this reader or writer from now on.
    pub fn new(inner: I) -> Counted<I>
        ensures { result ≡ record { inner = inner; calls = 0; failures = 0; ended = false } }
    {
        Counted {
            inner,
            calls: 0,
            failures: 0,
            ended: false,
        }
    }

    /// The reader or writer, to look at.
    pub fn get_ref(&self) -> &I
        ensures { result.now ≡ self.now.inner }
    {
        &self.inner
    }

    /// The reader or writer, without its counts.
    pub fn into_inner(self) -> I
        ensures { result ≡ self.inner }
    {
        self.inner
    }
}

impl<I: Read> Source for Counted<I> {
    ghost remaining = { λ s. I.remaining s.inner };

    ghost calls = { λ s. s.calls };

    ghost failures = { λ s. s.failures };

    ghost ended = { λ s. s.ended };

    fn pull(&mut self, piece: &mut [u8]) -> io::Result<usize> {
        let answer = self.inner.read(piece);
        self.calls += 1;
        if answer.is_err() {
            self.failures += 1;
        }
        self.ended = if piece.is_empty() {
            self.ended
        } else {
            matches!(answer, Ok(0))
        };
        answer
    }

    fn calls(&self) -> u128 {
        self.calls
    }

    fn failures(&self) -> u128 {
        self.failures
    }

    fn ended(&self) -> bool {
        self.ended
    }
}

impl<I: Write> Sink for Counted<I> {
    ghost contents = { λ s. I.contents s.inner };

    ghost calls = { λ s. s.calls };

    ghost failures = { λ s. s.failures };

    fn push(&mut self, piece: &[u8]) -> io::Result<usize> {
        let answer = self.inner.write(piece);
        self.calls = self.calls.saturating_add(1);
        if answer.is_err() || (matches!(answer, Ok(0)) && !piece.is_empty()) {
            self.failures = self.failures.saturating_add(1);
        }
        answer
    }

    fn calls(&self) -> u128 {
        self.calls
    }

    fn failures(&self) -> u128 {
        self.failures
    }
}
