//! Reading from a source, a piece at a time.

ghost use Rattle.std.specs.Prelude.{IfOk, OnErr, OnOk, ◌≡◌, ◌+◌, ◌++◌, ◌<◌, ◌≤◌, ◌^◌, length, take, true, false};
ghost use Rattle.std.specs.Io.KnownBytes.{Consumes, Keeps};
ghost use Rattle.fb_bytes.specs.Ends.{failed};
ghost use Rattle.fb_run.specs.{Leave.HasLeave, Leave.MayAsk, Leave.ends_of, Leave.reader_of, Prompt.IsBarePrompt, Whole.ReadsBy};

use crate::checker::Checker;
use crate::fault::RunFault;
use crate::input::Input;
use crate::skip::Skip;
use fb_bytes::Sink;
use std::alloc::{AllocError, Allocator};
use std::io;

/// The most reads of one run.
pub const MOST_TURNS: u64 = 0x1_0000_0000;

/// The length of the read buffer, in bytes.
pub const PIECE: usize = 65_536;

/// A read buffer.
pub fn read_buffer<A: Allocator>(alloc: A) -> Result<Vec<u8, A>, AllocError>
    ensures { IfOk result (λ piece. length piece.items ≡ PIECE) }
{
    let mut piece = Vec::new(alloc);
    piece.resize(PIECE, 0)?;
    Ok(piece)
}

/// One read into the read buffer, beside these outputs, and how many bytes came: none only at the end of the input.
#[tactic(auto, using(std::proofs::lemmas::Grind::common_steps))]
pub fn pull_piece<A: Allocator, S: Input<K, N>, K: Sink, N: Sink>(
    source: &mut S,
    piece: &mut Vec<u8, A>,
    writer: &K,
    notes: &N,
) -> io::Result<usize>
    requires room { 0 < length piece.old.items }
    requires calls { S.calls source.old < 2 ^ 100 }
    requires leave { MayAsk S.Input (ends_of S.Input K.Sink N.Sink source.old writer.now notes.now) }
    ensures room { length piece.new.items ≡ length piece.old.items }
    ensures fits { IfOk result (λ n. n ≤ length piece.new.items) }
    ensures ok { IfOk result (λ n. Consumes (S.remaining source.old) (S.remaining source.new) (take n piece.new.items)) }
    ensures err { OnErr result (Keeps (S.remaining source.old) (S.remaining source.new)) }
    ensures end { IfOk result (λ n. n ≡ 0 → S.ended source.new ≡ true) }
    ensures unended { IfOk result (λ n. 0 < n → S.ended source.new ≡ false) }
    ensures counted { S.calls source.new ≡ S.calls source.old + 1 }
    ensures failure { S.failures source.new ≡ S.failures source.old + failed result }
{
    source.ask(piece.as_mut_slice(), writer, notes)
}

/// Adds a piece to what was read. Where the first one is full, there is room at once for more behind it, so that it isn't
/// copied from where it stood.
fn add_piece<A: Allocator>(whole: &mut Vec<u8, A>, more: &[u8]) -> Result<(), AllocError>
    ensures ok { OnOk result (whole.new.items ≡ whole.old.items ++ more.now) }
    ensures err { OnErr result (whole.new.items ≡ whole.old.items) }
{
    if whole.is_empty() && more.len() == PIECE {
        whole.reserve(4 * PIECE)?;
    }
    whole.extend_from_slice(more)
}

/// Reads the whole input, in at most `turns` reads, beside these outputs, and answers what stands behind the bytes that
/// are left out: at most as many bytes as a buffer may have. Whatever the outputs hold, they keep.
#[tactic(auto, using(std::proofs::lemmas::Grind::common_steps))]
pub fn read_whole<A: Allocator, B: Allocator, S: Input<K, N>, K: Sink, N: Sink>(
    alloc: A,
    source: &mut S,
    piece: &mut Vec<u8, B>,
    writer: &K,
    notes: &N,
    checker: &Checker<'_, '_, '_>,
    turns: u64,
) -> Result<Vec<u8, A>, RunFault>
    requires room { length piece.old.items ≡ PIECE }
    requires calls { S.calls source.old + turns < 2 ^ 100 }
    requires leave { HasLeave S.Input (ends_of S.Input K.Sink N.Sink source.old writer.now notes.now) (IsBarePrompt checker.now) }
    ensures reads { ReadsBy checker.now turns (reader_of S.Input source.old) (reader_of S.Input source.new) result }
    ensures turns { S.calls source.new ≤ S.calls source.old + turns }
    ensures short { IfOk result (λ whole. length whole.items < 2 ^ 31) }
{
    let limit = checker.terms().max_bytes;
    let mut whole = Vec::new(alloc);
    let mut skip = Skip::new(checker.terms().skip);
    let mut left = turns;
    while left > 0 {
        left -= 1;
        let read = match pull_piece(source, piece, writer, notes) {
            Ok(0) => {
                skip.end()?;
                return Ok(whole);
            }
            Ok(read) => read,
            Err(_) => return Err(RunFault::ReadFault),
        };
        let more = skip.behind(&piece.as_slice()[..read]);
        if more.len() > limit as usize - whole.len() {
            return Err(RunFault::BareTooLong { limit });
        }
        let Ok(()) = add_piece(&mut whole, more) else {
            return Err(RunFault::OutOfMemory);
        };
    }
    Err(RunFault::TooManyTurns)
}
