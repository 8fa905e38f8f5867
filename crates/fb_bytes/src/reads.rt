//! A loan's bytes, lent out to be read under a short count.

ghost use Rattle.std.specs.Prelude.{◌≡◌, ◌+◌, ◌^◌, ◌<◌, ◌≤◌, [], length, take, drop, IsTrue, ◌↔◌};
ghost use Rattle.fb_bytes.specs.Word.{word, signed_word};

use crate::window::Window;
use std::marker::Model;
use std::mem;

/// The bytes of a [`crate::Loan`] under its count, which goes on in 64 bits: a loop keeps those in a register.
///
/// A contract sees it as its bytes, all reads that were counted, and how many of these were counted before the count
/// in 64 bits began. There is no way to the bytes but by counted reads: nothing seals them. The count goes with the
/// bytes, so that whichever loan takes them back has every read that was made of them, and those that were counted
/// without being made. [`crate::Loan::lend`] makes one, and [`crate::Loan::settle`] takes it back.
#[derive(Drop)]
pub struct Reads<'a> {
    window: Window<'a>,
    count: u64,
    base: u128,
}

impl<'a> Model for Reads<'a> {
    ghost use Rattle.std.specs.Prelude.{◌+◌, ◌^◌, ◌<◌, ◌≤◌};
    ghost use Rattle.fb_bytes.specs.Word.{Lent};

    ghost Value = { Lent };

    ghost view = { λ r. record { bytes = r.window; count = r.base + r.count; base = r.base } };

    ghost invariant = { λ r. (r.base ≤ 2 ^ 120) × (0 < r.base → 2 ^ 57 ≤ r.base) };
}

impl<'a> Reads<'a> {
    /// A window of which so many reads were counted, and so many more in the count of 64 bits.
    #[inline(always)]
    pub(crate) fn over(window: Window<'a>, base: u128, count: u64) -> Self
        requires few { base ≤ 2 ^ 120 }
        requires many { 0 < base → 2 ^ 57 ≤ base }
        ensures { result ≡ record { bytes = window.entry; count = base + count; base = base } }
    {
        Reads {
            window,
            count,
            base,
        }
    }

    /// The window, and all reads that were counted.
    #[inline(always)]
    pub(crate) fn into_parts(self) -> (Window<'a>, u128)
        ensures window { result.0 ≡ self.entry.bytes }
        ensures count { result.1 ≡ self.entry.count }
        ensures few { result.1 ≤ 2 ^ 121 }
    {
        (self.window, self.base + u128::from(self.count))
    }

    /// Lends the bytes on under the same count. Until [`Reads::settle`] takes them back, there are none here.
    #[inline(always)]
    pub fn lend(&mut self) -> Reads<'a>
        ensures lent { result ≡ self.old }
        ensures bare { self.new ≡ record self.old { bytes = [] } }
    {
        let window = mem::replace(&mut self.window, Window::over(&[]));
        Reads::over(window, self.base, self.count)
    }

    /// Takes bytes back, with the count of all their reads.
    #[inline(always)]
    pub fn settle(&mut self, reads: Reads<'a>)
        ensures { self.new ≡ reads.entry }
    {
        *self = reads;
    }

    /// How many reads were counted since the count in 64 bits began: all of them, where they are fewer than 2^57.
    #[inline(always)]
    pub fn count(&self) -> u64
        ensures since { self.now.count ≡ self.now.base + result }
        ensures all { self.now.count < 2 ^ 57 → result ≡ self.now.count }
    {
        self.count
    }

    /// Counts `n` reads more of bytes that were read before, and reads none.
    #[inline(always)]
    pub fn count_again(&mut self, n: u64)
        requires few { self.old.count + n < self.old.base + 2 ^ 63 }
        ensures { self.new ≡ record self.old { count = self.old.count + n } }
    {
        self.count += n;
    }

    /// Reads the `n` bytes at `at`, each of which counts.
    #[inline(always)]
    pub fn bytes_at(&mut self, at: u64, n: u64) -> &'a [u8]
        requires fits { at + n ≤ length self.old.bytes }
        requires few { self.old.count + n < self.old.base + 2 ^ 63 }
        ensures bytes { result.now ≡ take n (drop at self.old.bytes) }
        ensures counted { self.new ≡ record self.old { count = self.old.count + n } }
    {
        self.count_again(n);
        self.window.bytes(at, n)
    }

    /// How many bytes there are.
    #[inline(always)]
    pub fn len(&self) -> u64
        ensures len { result ≡ length self.now.bytes }
        ensures short { length self.now.bytes < 2 ^ 31 }
    {
        self.window.len()
    }

    /// Whether the `n` bytes at `at` are in the buffer, for every `at` and `n`.
    #[inline(always)]
    pub fn fits(&self, at: u64, n: u64) -> bool
        ensures fits { IsTrue result ↔ at + n ≤ length self.now.bytes }
        ensures short { length self.now.bytes < 2 ^ 31 }
    {
        self.window.fits(at, n)
    }

    /// Reads the byte at `at`.
    #[inline(always)]
    pub fn u8_at(&mut self, at: u64) -> u8
        requires fits { at + 1 ≤ length self.old.bytes }
        requires few { self.old.count < self.old.base + 2 ^ 63 }
        ensures number { result ≡ word self.old.bytes at 1 }
        ensures counted { self.new ≡ record self.old { count = self.old.count + 1 } }
    {
        self.count += 1;
        self.window.u8_at(at)
    }

    /// Reads the two bytes at `at`, as a `voffset` or a vtable's size is read.
    #[inline(always)]
    pub fn u16_at(&mut self, at: u64) -> u16
        requires fits { at + 2 ≤ length self.old.bytes }
        requires few { self.old.count < self.old.base + 2 ^ 63 }
        ensures number { result ≡ word self.old.bytes at 2 }
        ensures counted { self.new ≡ record self.old { count = self.old.count + 1 } }
    {
        self.count += 1;
        self.window.u16_at(at)
    }

    /// Reads the four bytes at `at`, as a `uoffset` or a count is read.
    #[inline(always)]
    pub fn u32_at(&mut self, at: u64) -> u32
        requires fits { at + 4 ≤ length self.old.bytes }
        requires few { self.old.count < self.old.base + 2 ^ 63 }
        ensures number { result ≡ word self.old.bytes at 4 }
        ensures counted { self.new ≡ record self.old { count = self.old.count + 1 } }
    {
        self.count += 1;
        self.window.u32_at(at)
    }

    /// Reads the four bytes at `at` in two's complement, as an `soffset` is read.
    #[inline(always)]
    pub fn i32_at(&mut self, at: u64) -> i32
        requires fits { at + 4 ≤ length self.old.bytes }
        requires few { self.old.count < self.old.base + 2 ^ 63 }
        ensures number { result ≡ signed_word self.old.bytes at }
        ensures counted { self.new ≡ record self.old { count = self.old.count + 1 } }
    {
        self.count += 1;
        self.window.i32_at(at)
    }
}
