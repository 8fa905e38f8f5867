//! A framer holds the message that is coming, however the stream is cut into pieces.

ghost use Rattle.std.specs.Prelude.{IfOk, IfErr, MatchResult, IfSome, IsSome, OnOk, OnErr, IsOk, IsTrue, IsErrOf, Ok, Err, ◌≡◌};
ghost use Rattle.std.specs.Prelude.{◌↔◌, ◌⊎◌, ◌+◌, ◌-◌, ◌<◌, ◌≤◌, ℕ, true, false, [], ◌++◌, length, take, drop, min};
ghost use Rattle.fb_bytes.specs.Messages.{declared, little, IsMessage, IsOversize};
ghost use Rattle.fb_bytes.specs.Framing.{Framing, IsHeld, Feeds, FeedFails, held_bytes};

use super::cut::{Cut, Endian};
use super::stream_fault::{LimitOutOfRange, StreamFault};
use std::alloc::{AllocError, Allocator};
use std::marker::Model;

const LEAST_LIMIT: u32 = 8;

const MOST_LIMIT: u32 = 2_147_483_647;

/// What a framer took of a piece.
#[derive(Clone, Copy, Debug, PartialEq, Eq)]
pub struct Taken {
    /// How many bytes, from the front of the piece.
    pub used: usize,
    /// Whether a whole message is held now.
    pub whole: bool,
}

/// At most one message of a stream of size-prefixed buffers, which comes in pieces of any size.
///
/// A message is a `u32` and as many bytes as that number says (FlatBuffers Internals, "size
/// prefixed buffers"); the number is little-endian, or as the framer is told. The memory of one
/// message serves the next.
#[derive(Drop)]
pub struct Framer<A: Allocator> {
    cut: Cut,
    filled: usize,
    prefix: [u8; 4],
    body: Vec<u8, A>,
    failed: bool,
}

impl<A: Allocator> Model for Framer<A> {
    ghost use Rattle.fb_bytes.specs.Framing.{Framing, IsFramed, held_bytes};

    ghost Value = { Framing };

    ghost view = { λ f. record { cut = f.cut; held = held_bytes f.prefix f.filled f.body.items; failed = f.failed } };

    ghost invariant = { λ f. IsFramed f.cut f.filled f.prefix f.body.items f.failed };
}

impl<A: Allocator> Framer<A> {
    /// A framer that holds nothing, for messages of at most `limit` bytes, prefix included.
    ///
    /// The limit is 8 to 2,147,483,647. No memory is taken yet.
    pub fn new(alloc: A, limit: u32) -> Result<Framer<A>, LimitOutOfRange>
        ensures range { IsOk result ↔ ((8 ≤ limit) × (limit ≤ 2147483647)) }
        ensures empty { IfOk result (λ f. f ≡ record { cut = little limit; held = []; failed = false }) }
    {
        Framer::of(
            alloc,
            Cut {
                limit,
                order: Endian::Little,
            },
        )
    }

    /// The same for a stream that is cut so: its limit is that of messages, prefix included.
    pub fn of(alloc: A, cut: Cut) -> Result<Framer<A>, LimitOutOfRange>
        ensures range { IsOk result ↔ ((8 ≤ cut.limit) × (cut.limit ≤ 2147483647)) }
        ensures empty { IfOk result (λ f. f ≡ record { cut = cut; held = []; failed = false }) }
    {
        if cut.limit < LEAST_LIMIT || cut.limit > MOST_LIMIT {
            return Err(LimitOutOfRange);
        }
        Ok(Framer {
            cut,
            filled: 0,
            prefix: [0; 4],
            body: Vec::new(alloc),
            failed: false,
        })
    }

    /// Takes bytes from the front of the piece, up to the end of one message.
    ///
    /// Where a whole message is held already, it takes none. S1 comes with the fourth byte of a
    /// prefix that tells too much, before memory is asked for; S3 where memory is refused to a
    /// message within the limit; S4 where this framer has failed before.
    pub fn feed(&mut self, piece: &[u8]) -> Result<Taken, StreamFault>
        ensures ok { IfOk result (λ t. Feeds self.old self.new piece.now t.used t.whole) }
        ensures fault { IfErr result (λ e. self.old.failed ≡ false → FeedFails self.old self.new piece.now e) }
        ensures oversize { self.old.failed ≡ false → IsOversize self.old.cut (self.old.held ++ piece.now)
            → IsErrOf result (StreamFault.Oversize (declared self.old.cut.order (self.old.held ++ piece.now))) }
        ensures failed { self.old.failed ≡ true → (self.new ≡ self.old) × IsErrOf result StreamFault.Failed }
    {
        if self.failed {
            return Err(StreamFault::Failed);
        }
        let used = fill_prefix(&mut self.prefix, self.filled, piece);
        self.filled += used;
        if self.filled < 4 {
            return Ok(Taken { used, whole: false });
        }
        let declared = self.cut.order.number_in(self.prefix);
        if declared > self.cut.limit - 4 {
            self.failed = true;
            return Err(StreamFault::Oversize { declared });
        }
        match grow(&mut self.body, &self.prefix, declared, piece, used) {
            Ok(more) => Ok(Taken {
                used: used + more.used,
                whole: more.whole,
            }),
            Err(_) => {
                self.failed = true;
                Err(StreamFault::OutOfMemory)
            }
        }
    }

    /// The whole message that is held, with its prefix.
    pub fn message(&self) -> Option<&[u8]>
        ensures whole { IsSome result ↔ ((self.now.failed ≡ false) × IsMessage self.now.cut self.now.held) }
        ensures bytes { IfSome result (λ m. m.now ≡ self.now.held) }
    {
        if self.is_whole() {
            Some(self.bytes())
        } else {
            None
        }
    }

    /// Gives up the whole message that is held; where none is, nothing changes.
    pub fn next(&mut self)
        ensures whole { (self.old.failed ≡ false) × IsMessage self.old.cut self.old.held
            → self.new ≡ record self.old { held = [] } }
        ensures other { ((self.old.failed ≡ false) × IsMessage self.old.cut self.old.held → ⊥)
            → self.new ≡ self.old }
    {
        if self.is_whole() {
            self.filled = 0;
            self.body.clear();
        }
    }

    /// Says that the stream has ended: Ok where no byte or a whole message is held.
    ///
    /// S2 where a part of a message is held, S4 where this framer has failed before.
    pub fn finish(&mut self) -> Result<(), StreamFault>
        ensures ok { OnOk result ((self.old.failed ≡ false) × (self.new ≡ self.old)
            × ((self.old.held ≡ []) ⊎ IsMessage self.old.cut self.old.held)) }
        ensures truncated { self.old.failed ≡ false → OnErr result ((self.new ≡ record self.old { failed = true })
            × (0 < length self.old.held) × (IsMessage self.old.cut self.old.held → ⊥)
            × IsErrOf result (StreamFault.Truncated (length self.old.held))) }
        ensures failed { self.old.failed ≡ true → (self.new ≡ self.old) × IsErrOf result StreamFault.Failed }
    {
        if self.failed {
            return Err(StreamFault::Failed);
        }
        let held = self.held();
        if held == 0 || self.is_whole() {
            return Ok(());
        }
        self.failed = true;
        Err(StreamFault::Truncated { held })
    }

    /// How many bytes are held, which is never more than the limit.
    pub fn held(&self) -> u64
        ensures value { result ≡ length self.now.held }
        ensures within { result ≤ self.now.cut.limit }
        ensures sound { self.now.failed ≡ false → IsHeld self.now.cut self.now.held }
    {
        self.bytes().len() as u64
    }

    #[tactic(auto, using(crate::proofs::MessageLemmas::declared_front))]
    fn bytes(&self) -> &[u8]
        ensures value { result.now ≡ self.now.held }
        ensures within { length self.now.held ≤ self.now.cut.limit }
        ensures sound { self.now.failed ≡ false → IsHeld self.now.cut self.now.held }
    {
        if self.body.is_empty() {
            &self.prefix[..self.filled]
        } else {
            self.body.as_slice()
        }
    }

    #[tactic(auto, using(crate::proofs::MessageLemmas::declared_front))]
    fn is_whole(&self) -> bool
        ensures { IsTrue result ↔ ((self.now.failed ≡ false) × IsMessage self.now.cut self.now.held) }
    {
        if self.failed || self.filled < 4 {
            return false;
        }
        self.bytes().len() == self.cut.order.number_in(self.prefix) as usize + 4
    }
}

/// Copies what the prefix lacks from the front of the piece, and answers how many bytes that were.
fn fill_prefix(prefix: &mut [u8], filled: usize, piece: &[u8]) -> usize
    requires four { length prefix.old ≡ 4 }
    requires part { filled ≤ 4 }
    ensures count { result ≡ min (4 - filled) (length piece.now) }
    ensures bytes { take (filled + result) prefix.new ≡ take filled prefix.old ++ take result piece.now }
{
    if filled == 0 && piece.len() >= 4 {
        prefix.copy_from_slice(&piece[..4]);
        return 4;
    }
    let used = piece.len().min(4 - filled);
    prefix[filled..filled + used].copy_from_slice(&piece[..used]);
    used
}

/// Adds bytes of the piece from `at` on to a message within the limit, up to its end.
#[tactic(auto, using(crate::proofs::FramingLemmas::drop_take))]
fn grow<A: Allocator>(
    body: &mut Vec<u8, A>,
    prefix: &[u8],
    declared: u32,
    piece: &[u8],
    at: usize,
) -> Result<Taken, AllocError>
    requires four { length prefix.now ≡ 4 }
    requires fits { length (held_bytes prefix.now 4 body.old.items) ≤ 4 + declared }
    requires within { at ≤ length piece.now }
    requires front { at ≡ 4 → take 4 piece.now ≡ prefix.now }
    ensures used { IfOk result (λ t. t.used ≡ min (4 + declared - length (held_bytes prefix.now 4 body.old.items)) (length piece.now - at)) }
    ensures held { IfOk result (λ t. held_bytes prefix.now 4 body.new.items
        ≡ held_bytes prefix.now 4 body.old.items ++ take t.used (drop at piece.now)) }
    ensures fits { IfOk result (λ t. length (held_bytes prefix.now 4 body.new.items) ≤ 4 + declared) }
    ensures whole { IfOk result (λ t. IsTrue t.whole ↔ (length (held_bytes prefix.now 4 body.new.items) ≡ 4 + declared)) }
    ensures err { OnErr result (held_bytes prefix.now 4 body.new.items ≡ held_bytes prefix.now 4 body.old.items) }
    ensures short { OnErr result (length (held_bytes prefix.now 4 body.old.items) < 4 + declared) }
{
    let total = declared as usize + 4;
    let before = if body.is_empty() { 4 } else { body.len() };
    let left = total - before;
    let used = (piece.len() - at).min(left);
    append(body, prefix, total, &piece[..at + used], at)?;
    Ok(Taken {
        used,
        whole: used == left,
    })
}

/// Adds the bytes from `at` on to a message; the first of them ask for room for the whole message.
#[tactic(auto, using(crate::proofs::FramingLemmas::front_rest))]
fn append<A: Allocator>(
    body: &mut Vec<u8, A>,
    prefix: &[u8],
    total: usize,
    bytes: &[u8],
    at: usize,
) -> Result<(), AllocError>
    requires four { length prefix.now ≡ 4 }
    requires within { at ≤ length bytes.now }
    requires front { at ≡ 4 → take 4 bytes.now ≡ prefix.now }
    ensures { MatchResult result
        (λ _. held_bytes prefix.now 4 body.new.items ≡ held_bytes prefix.now 4 body.old.items ++ drop at bytes.now)
        (λ _. (held_bytes prefix.now 4 body.new.items ≡ held_bytes prefix.now 4 body.old.items) × (at < length bytes.now)) }
{
    if at == bytes.len() {
        return Ok(());
    }
    if !body.is_empty() {
        return body.extend_from_slice(&bytes[at..]);
    }
    body.reserve(total)?;
    if at == 4 {
        return body.extend_from_slice(bytes);
    }
    body.extend_from_slice(prefix)?;
    body.extend_from_slice(&bytes[at..])
}
