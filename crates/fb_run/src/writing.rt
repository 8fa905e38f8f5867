//! Writing to a sink that may take a text in parts, and a sink that keeps nothing.

ghost use Rattle.std.specs.Prelude.{OnErr, OnOk, ◌≡◌, ◌++◌, ◌<◌, ◌≤◌, [], None, false, length, take};
ghost use Rattle.std.specs.Io.KnownBytes.{Appends};
ghost use Rattle.fb_bytes.specs.Ends.{one_more};
ghost use Rattle.fb_run.specs.{Ends.writer_of, Puts.Puts, Puts.PutsAs, Puts.behind, Puts.queue_of};

use fb_bytes::Sink;
use std::alloc::{AllocError, Allocator};
use std::io;

/// Writes the text, and answers how many of its bytes were taken: fewer only where the writer failed or took
/// nothing.
pub fn push_all<K: Sink>(sink: &mut K, text: &[u8]) -> usize
    ensures within { result ≤ length text.now }
    ensures bytes { Appends (K.contents sink.old) (K.contents sink.new) (take result text.now) }
    ensures failed { result < length text.now → K.failures sink.new ≡ one_more (K.failures sink.old) }
    ensures unfailed { result ≡ length text.now → K.failures sink.new ≡ K.failures sink.old }
{
    let mut rest = text;
    while !rest.is_empty() {
        match sink.push(rest) {
            Ok(0) | Err(_) => break,
            Ok(taken) => rest = &rest[taken..],
        }
    }
    text.len() - rest.len()
}

/// How many bytes a sink took, as far as they can be counted, and whether a write to it failed or took nothing.
#[derive(Clone, Copy)]
pub struct Written {
    pub bytes: u128,
    pub failed: bool,
}

/// Writes the text to a sink that has these bytes before, unless a write to it has failed.
fn write_all<K: Sink>(sink: &mut K, text: &[u8], before: Written) -> Written
    ensures puts { PutsAs before.failed result.failed text.now (behind [] before (writer_of K.Sink sink.old)) (behind [] result (writer_of K.Sink sink.new)) }
{
    if before.failed {
        return before;
    }
    let taken = push_all(sink, text);
    Written {
        bytes: before.bytes.saturating_add(taken as u128),
        failed: taken < text.len(),
    }
}

/// Where as many bytes wait, they are written.
pub const MOST_WAITING: usize = 65_536;

/// Adds a text to what waits. For one that is much by itself there is no memory.
#[inline(always)]
pub fn hold<A: Allocator>(bytes: &mut Vec<u8, A>, text: &[u8]) -> Result<(), AllocError>
    ensures ok { OnOk result (bytes.new.items ≡ bytes.old.items ++ text.now) }
    ensures err { OnErr result (bytes.new.items ≡ bytes.old.items) }
{
    if text.len() >= MOST_WAITING {
        return Err(AllocError);
    }
    bytes.extend_from_slice(text)
}

/// Bytes that wait to be written to one sink, and what was written to it before. Once a write has failed, nothing more
/// is written.
#[derive(Drop)]
pub struct Pending<A: Allocator> {
    pub bytes: Vec<u8, A>,
    pub written: Written,
}

impl<'a, A: Allocator> Pending<&'a A> {
    /// Nothing waits, and nothing was written.
    pub fn new(alloc: &'a A) -> Self
        ensures bytes { result.bytes.items ≡ [] }
        ensures written { result.written ≡ record { bytes = 0; failed = false } }
    {
        Pending {
            bytes: Vec::new(alloc),
            written: Written {
                bytes: 0,
                failed: false,
            },
        }
    }
}

impl<A: Allocator> Pending<A> {
    /// Writes the bytes that wait.
    pub fn flush<K: Sink>(&mut self, sink: &mut K)
        ensures puts { Puts [] (queue_of K.Sink self.old sink.old) (queue_of K.Sink self.new sink.new) }
        ensures empty { self.new.bytes.items ≡ [] }
    {
        self.written = write_all(sink, self.bytes.as_slice(), self.written);
        self.bytes.clear();
    }

    /// Puts a text behind what waits. Where much waits by then, it is written; a text that is much by itself is written
    /// as it is, and so is one for which memory is refused.
    #[inline(always)]
    pub fn put<K: Sink>(&mut self, sink: &mut K, text: &[u8])
        ensures puts { Puts text.now (queue_of K.Sink self.old sink.old) (queue_of K.Sink self.new sink.new) }
        ensures little { length self.new.bytes.items < 65536 }
    {
        let added = hold(&mut self.bytes, text);
        if added.is_ok() && self.bytes.len() < MOST_WAITING {
            return;
        }
        self.write_through(sink, text, added);
    }

    /// Writes what waits, and behind it this text where it wasn't added.
    #[inline(never)]
    fn write_through<K: Sink>(&mut self, sink: &mut K, text: &[u8], added: Result<(), AllocError>)
        ensures ok { OnOk added (Puts [] (queue_of K.Sink self.old sink.old) (queue_of K.Sink self.new sink.new)) }
        ensures err { OnErr added (Puts text.now (queue_of K.Sink self.old sink.old) (queue_of K.Sink self.new sink.new)) }
        ensures empty { self.new.bytes.items ≡ [] }
    {
        self.flush(sink);
        if added.is_err() {
            self.written = write_all(sink, text, self.written);
        }
    }
}

/// A sink that takes all bytes and keeps none.
#[derive(Drop)]
pub struct Nowhere {
    calls: u128,
}

impl Nowhere {
    /// Nothing was written to it.
    pub fn new() -> Nowhere
        ensures { result.calls ≡ 0 }
    {
        Nowhere { calls: 0 }
    }
}

impl Sink for Nowhere {
    ghost contents = { λ _. None };

    ghost calls = { λ s. s.calls };

    ghost failures = { λ _. 0 };

    fn push(&mut self, piece: &[u8]) -> io::Result<usize> {
        self.calls = self.calls.saturating_add(1);
        Ok(piece.len())
    }

    fn calls(&self) -> u128 {
        self.calls
    }

    fn failures(&self) -> u128 {
        0
    }
}
