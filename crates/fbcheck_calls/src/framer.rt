//! The messages of a stream that comes in pieces, each in room that the caller gives.

ghost use Rattle.std.specs.Prelude.{◌≡◌, ◌+◌, ◌↔◌, ◌≤◌, ◌<◌, ◌^◌, IsTrue, length};
ghost use Rattle.fb_bytes.specs.{Messages.IsMessage, Messages.declared, Messages.little, declared.cut.Endian.TheVariants.Little};
ghost use Rattle.fbcheck_calls.specs.Framers.{IsFed, IsFilled, IsFinished, IsKept, IsNext, IsRoom, KeepsNumber, framing};

use crate::outcome::Outcome;
use fb_bytes::{Meter, StreamFault, Taken};

/// The least room that a message may have.
const LEAST: usize = 8;

/// The most room that a message may have.
const MOST: usize = 0x7FFF_FFFF;

/// How much is held of the message that is coming (`fbcheck_framer`). Its bytes stand at the front of room that the
/// caller gives to each call; a message may have as many as the room, its prefix included.
///
/// A message is a little-endian `u32` and as many bytes as that number says (FlatBuffers Internals, "size prefixed
/// buffers").
#[repr(C)]
#[derive(Clone, Copy)]
pub struct Framer {
    /// How many bytes are held.
    pub held: usize,
    /// 0 while the framer goes on, else it has failed.
    pub failed: u32,
    /// How many bytes the prefix declared that failed it, where one did.
    pub declared: u32,
}

/// Whether a message may have so much room.
fn is_room(size: usize) -> bool
    ensures { IsTrue result ↔ IsRoom size }
{
    (LEAST..=MOST).contains(&size)
}

/// The number in the first four bytes.
fn declared(room: &[u8]) -> u32
    requires four { 4 ≤ length room.now }
    requires short { length room.now < 2 ^ 31 }
    ensures { result ≡ declared Little room.now }
{
    let Ok(meter) = Meter::new(room) else {
        unreachable!()
    };
    meter.seal().u32_at(0)
}

/// Copies bytes from the front of a piece behind the first `held` of the room, until these are `goal`, as far as the
/// piece goes. How many.
fn fill(room: &mut [u8], held: usize, goal: usize, piece: &[u8]) -> usize
    requires held { held ≤ length room.old }
    requires goal { goal ≤ length room.old }
    ensures filled { IsFilled room.old room.new piece.now held goal result }
    ensures size { length room.new ≡ length room.old }
    ensures within { held + result ≤ length room.new }
{
    let count = goal.saturating_sub(held).min(piece.len());
    room[held..held + count].copy_from_slice(&piece[..count]);
    count
}

impl Framer {
    /// Takes bytes from the front of a piece, up to the end of one message. Where a whole message is held already, it
    /// takes none.
    ///
    /// # Errors
    ///
    /// `OutOfRange` where a message may not have so much room; `BadStream` with S1 once the fourth byte of a prefix
    /// came that declares more than there is room for, and with S4 where this framer has failed before.
    pub fn feed(&mut self, room: &mut [u8], piece: &[u8]) -> Result<Taken, Outcome>
        ensures fed { IsFed room.old self.old piece.now room.new self.new result }
        ensures number { KeepsNumber self.old self.new result }
        ensures kept { IsKept room.old self.old → IsKept room.new self.new }
    {
        if !is_room(room.len()) {
            return Err(Outcome::OutOfRange);
        }
        if self.failed != 0 || self.held > room.len() {
            return Err(Outcome::BadStream(StreamFault::Failed));
        }
        let used = fill(room, self.held, 4, piece);
        self.held += used;
        if self.held < 4 {
            return Ok(Taken { used, whole: false });
        }
        let declared = declared(room);
        if declared as usize > room.len() - 4 {
            self.failed = 1;
            self.declared = declared;
            return Err(Outcome::BadStream(StreamFault::Oversize { declared }));
        }
        let goal = declared as usize + 4;
        let more = fill(room, self.held, goal, &piece[used..]);
        self.held += more;
        Ok(Taken {
            used: used + more,
            whole: self.held == goal,
        })
    }

    /// Whether a whole message is held, where the framer hasn't failed.
    fn is_whole(&self, room: &[u8]) -> bool
        requires { IsRoom (length room.now) }
        ensures { IsKept room.now self.now → IsTrue result ↔ ((self.now.failed ≡ 0) × IsMessage (little (length room.now)) (framing room.now self.now).held) }
    {
        if self.failed != 0 || self.held < 4 || self.held > room.len() {
            return false;
        }
        self.held - 4 == declared(room) as usize
    }

    /// Gives up the whole message that is held; where none is, nothing changes.
    ///
    /// `Done`, or `OutOfRange` as [`Framer::feed`] has it.
    pub fn next(&mut self, room: &[u8]) -> Outcome
        ensures next { IsNext room.now self.old self.new result }
        ensures number { self.new.declared ≡ self.old.declared }
        ensures kept { IsKept room.now self.old → IsKept room.now self.new }
    {
        if !is_room(room.len()) {
            return Outcome::OutOfRange;
        }
        if self.is_whole(room) {
            self.held = 0;
        }
        Outcome::Done
    }

    /// Says that the stream has ended: `Done` where no byte or a whole message is held.
    ///
    /// `OutOfRange` as [`Framer::feed`] has it; `BadStream` with S2 where a part of a message is held, and with S4
    /// where this framer has failed before.
    pub fn finish(&mut self, room: &[u8]) -> Outcome
        ensures finished { IsFinished room.now self.old self.new result }
        ensures number { self.new.declared ≡ self.old.declared }
        ensures kept { IsKept room.now self.old → IsKept room.now self.new }
    {
        if !is_room(room.len()) {
            return Outcome::OutOfRange;
        }
        if self.failed != 0 {
            return Outcome::BadStream(StreamFault::Failed);
        }
        if self.held == 0 || self.is_whole(room) {
            return Outcome::Done;
        }
        self.failed = 1;
        let held = self.held as u64;
        Outcome::BadStream(StreamFault::Truncated { held })
    }
}
