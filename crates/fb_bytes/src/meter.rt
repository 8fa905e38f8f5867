//! A buffer whose reads are counted.

ghost use Rattle.std.specs.Prelude.{◌≡◌, ◌+◌, ◌^◌, ◌<◌, ◌≤◌, length, IfOk, IsErr, IsTrue, ◌↔◌};
ghost use Rattle.fb_bytes.specs.Word.{word, signed_word, while_lent};

use crate::loan::Loan;
use crate::window::Window;
use std::marker::Model;

/// The buffer has 2^31 bytes or more, so that positions in it are no FlatBuffers offsets.
#[derive(Clone, Copy, Debug, PartialEq, Eq)]
pub struct TooLong;

/// A borrowed buffer of fewer than 2^31 bytes, and the number of reads that were counted.
///
/// A contract sees it as its bytes, its count and its mark. A read is the little-endian number at a position
/// (FlatBuffers Internals: scalars are little-endian) and counts one, whatever its width. What only
/// compares lengths, as [`Meter::fits`], counts nothing. While the bytes are lent the count is one that no reads come
/// to (`while_lent`): such a meter is neither read nor lent nor sealed before the reads are settled. No call changes the
/// mark, and none says which a new meter has: whoever must leave the mark that it found must leave that very meter, so
/// it neither seals it nor puts another in its place.
#[derive(Drop)]
pub struct Meter<'a> {
    window: Window<'a>,
    count: u128,
    mark: u8,
}

impl<'a> Model for Meter<'a> {
    ghost use Rattle.fb_bytes.specs.Word.{Metered};

    ghost Value = { Metered };

    ghost view = { λ m. record { bytes = m.window; count = m.count; mark = m.mark } };
}

/// The longest buffer, in bytes.
const LONGEST: usize = 0x7FFF_FFFF;

/// The count while the bytes are lent.
const WHILE_LENT: u128 = u128::MAX;

impl<'a> Meter<'a> {
    /// A meter over these bytes, of which no read was counted. `TooLong` comes for 2^31 bytes or more, and
    /// only then.
    pub fn new(bytes: &'a [u8]) -> Result<Self, TooLong>
        ensures meter { IfOk result (λ meter. (meter.bytes ≡ bytes.now) × (meter.count ≡ 0)) }
        ensures too_long { IsErr result ↔ 2 ^ 31 ≤ length bytes.now }
    {
        if bytes.len() > LONGEST {
            return Err(TooLong);
        }
        Ok(Meter {
            window: Window::over(bytes),
            count: 0,
            mark: 0,
        })
    }

    /// How many bytes there are.
    pub fn len(&self) -> u64
        ensures len { result ≡ length self.now.bytes }
        ensures short { length self.now.bytes < 2 ^ 31 }
    {
        self.window.len()
    }

    /// Whether the `n` bytes at `at` are in the buffer, for every `at` and `n`.
    pub fn fits(&self, at: u64, n: u64) -> bool
        ensures fits { IsTrue result ↔ at + n ≤ length self.now.bytes }
        ensures short { length self.now.bytes < 2 ^ 31 }
    {
        self.window.fits(at, n)
    }

    /// How many reads were counted.
    pub fn reads(&self) -> u128
        ensures { result ≡ self.now.count }
    {
        self.count
    }

    /// Reads the byte at `at`.
    pub fn u8_at(&mut self, at: u64) -> u8
        requires fits { at + 1 ≤ length self.old.bytes }
        requires few { self.old.count < 2 ^ 100 }
        ensures number { result ≡ word self.old.bytes at 1 }
        ensures counted { self.new ≡ record self.old { count = self.old.count + 1 } }
    {
        self.count += 1;
        self.window.u8_at(at)
    }

    /// Reads the two bytes at `at`, as a `voffset` or a vtable's size is read.
    pub fn u16_at(&mut self, at: u64) -> u16
        requires fits { at + 2 ≤ length self.old.bytes }
        requires few { self.old.count < 2 ^ 100 }
        ensures number { result ≡ word self.old.bytes at 2 }
        ensures counted { self.new ≡ record self.old { count = self.old.count + 1 } }
    {
        self.count += 1;
        self.window.u16_at(at)
    }

    /// Reads the four bytes at `at`, as a `uoffset` or a count is read.
    pub fn u32_at(&mut self, at: u64) -> u32
        requires fits { at + 4 ≤ length self.old.bytes }
        requires few { self.old.count < 2 ^ 100 }
        ensures number { result ≡ word self.old.bytes at 4 }
        ensures counted { self.new ≡ record self.old { count = self.old.count + 1 } }
    {
        self.count += 1;
        self.window.u32_at(at)
    }

    /// Reads the four bytes at `at` in two's complement, as an `soffset` is read.
    pub fn i32_at(&mut self, at: u64) -> i32
        requires fits { at + 4 ≤ length self.old.bytes }
        requires few { self.old.count < 2 ^ 100 }
        ensures number { result ≡ signed_word self.old.bytes at }
        ensures counted { self.new ≡ record self.old { count = self.old.count + 1 } }
    {
        self.count += 1;
        self.window.i32_at(at)
    }

    /// Lends the bytes to a walk, under a count that goes on from this one. Until [`Meter::settle`] takes that count,
    /// nothing is told of the reads, so that no walk is made beside it that nobody counts.
    #[inline(always)]
    pub fn lend(&mut self) -> Loan<'a>
        requires few { self.old.count < 2 ^ 100 }
        ensures lent { result ≡ record { bytes = self.old.bytes; count = self.old.count; base = 0 } }
        ensures untold { self.new ≡ record self.old { count = while_lent } }
    {
        let loan = Loan::over(self.window.again(), self.count);
        self.count = WHILE_LENT;
        loan
    }

    /// Takes the count of a loan of these bytes, which were lent.
    #[inline(always)]
    pub fn settle(&mut self, loan: Loan<'a>)
        requires same { loan.bytes ≡ self.old.bytes }
        requires lent { self.old.count ≡ while_lent }
        ensures count { self.new ≡ record self.old { count = loan.entry.count } }
        ensures settled { self.new.count < while_lent }
    {
        self.count = loan.reads();
    }

    /// The same bytes behind a [`Window`], whose reads aren't counted. Nothing makes a meter of a window.
    pub fn seal(self) -> Window<'a>
        requires settled { self.count < while_lent }
        ensures bytes { result ≡ self.entry.bytes }
        ensures short { length self.entry.bytes < 2 ^ 31 }
    {
        self.window
    }
}
