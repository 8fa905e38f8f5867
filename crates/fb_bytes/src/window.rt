//! A buffer that was looked at in full, and may now be read freely.

ghost use Rattle.std.specs.Prelude.{◌≡◌, ◌+◌, ◌^◌, ◌<◌, ◌≤◌, length, take, drop, IsTrue, ◌↔◌};
ghost use Rattle.fb_bytes.specs.Word.{word, signed_word};

use byteorder::{ByteOrder, LittleEndian};
use std::marker::Model;

/// A borrowed buffer of fewer than 2^31 bytes, whose reads aren't counted.
///
/// A contract sees it as its bytes. Outside this crate one is had by [`crate::Meter::seal`] alone, and what it
/// lends lives as long as the bytes that were handed to [`crate::Meter::new`].
#[derive(Drop)]
pub struct Window<'a> {
    bytes: &'a [u8],
}

impl<'a> Model for Window<'a> {
    ghost use Rattle.std.specs.Prelude.{ℕ, List, ◌<◌, ◌^◌, length};

    ghost Value = { List ℕ };

    ghost view = { λ w. w.bytes.now };

    ghost invariant = { λ w. length w.bytes.now < 2 ^ 31 };
}

impl<'a> Window<'a> {
    /// A window over these bytes.
    pub(crate) fn over(bytes: &'a [u8]) -> Self
        requires { length bytes.now < 2 ^ 31 }
        ensures { result ≡ bytes.now }
    {
        Window { bytes }
    }

    /// Another window over the same bytes.
    #[inline(always)]
    pub(crate) fn again(&self) -> Self
        ensures { result ≡ self.now }
    {
        Window { bytes: self.bytes }
    }

    /// How many bytes there are.
    pub fn len(&self) -> u64
        ensures len { result ≡ length self.now }
        ensures short { length self.now < 2 ^ 31 }
    {
        self.bytes.len() as u64
    }

    /// Whether the `n` bytes at `at` are in the buffer, for every `at` and `n`.
    pub fn fits(&self, at: u64, n: u64) -> bool
        ensures fits { IsTrue result ↔ at + n ≤ length self.now }
        ensures short { length self.now < 2 ^ 31 }
    {
        let len = self.len();
        at <= len && n <= len - at
    }

    /// The byte at `at`.
    #[tactic(auto, using(crate::proofs::Words::word_byte))]
    pub fn u8_at(&self, at: u64) -> u8
        requires { at + 1 ≤ length self.now }
        ensures { result ≡ word self.now at 1 }
    {
        self.bytes[at as usize]
    }

    /// The number in the two bytes at `at`.
    #[tactic(auto, using(crate::proofs::Words::word_rest_2))]
    pub fn u16_at(&self, at: u64) -> u16
        requires { at + 2 ≤ length self.now }
        ensures { result ≡ word self.now at 2 }
    {
        LittleEndian::read_u16(&self.bytes[at as usize..])
    }

    /// The number in the four bytes at `at`.
    #[tactic(auto, using(crate::proofs::Words::word_rest_4))]
    pub fn u32_at(&self, at: u64) -> u32
        requires { at + 4 ≤ length self.now }
        ensures { result ≡ word self.now at 4 }
    {
        LittleEndian::read_u32(&self.bytes[at as usize..])
    }

    /// The number in the four bytes at `at`, in two's complement.
    pub fn i32_at(&self, at: u64) -> i32
        requires { at + 4 ≤ length self.now }
        ensures { result ≡ signed_word self.now at }
    {
        self.u32_at(at).cast_signed()
    }

    /// The number in the eight bytes at `at`.
    #[tactic(auto, using(crate::proofs::Words::word_rest_8))]
    pub fn u64_at(&self, at: u64) -> u64
        requires { at + 8 ≤ length self.now }
        ensures { result ≡ word self.now at 8 }
    {
        LittleEndian::read_u64(&self.bytes[at as usize..])
    }

    /// The `n` bytes at `at`, for as long as the buffer lives.
    pub fn bytes(&self, at: u64, n: u64) -> &'a [u8]
        requires { at + n ≤ length self.now }
        ensures { result.now ≡ take n (drop at self.now) }
    {
        let bytes = self.bytes;
        &bytes[at as usize..(at + n) as usize]
    }
}
