//! A buffer's bytes under count, as a walk holds them.

ghost use Rattle.std.specs.Prelude.{◌≡◌, ◌+◌, ◌^◌, ◌<◌, ◌≤◌, []};

use crate::reads::Reads;
use crate::window::Window;
use std::marker::Model;
use std::mem;

/// A count of so many reads, 2^57, isn't carried into one of 64 bits, which begins with none then.
const LONG: u128 = 1 << 57;

/// The bytes of a [`crate::Meter`] under count, as a walk holds them: they are read through the [`Reads`] that it
/// lends, and each read counts.
///
/// A contract sees it as its bytes and its count, in 128 bits, which no walk fills. Nothing seals it and nothing of its
/// bytes is lent uncounted, so what holds no more than a loan reads nothing uncounted. [`crate::Meter::lend`] makes
/// one, and [`crate::Meter::settle`] takes its count, but no bytes: no way leads from a loan to a meter.
#[derive(Drop)]
pub struct Loan<'a> {
    window: Window<'a>,
    count: u128,
}

impl<'a> Model for Loan<'a> {
    ghost use Rattle.std.specs.Prelude.{◌^◌, ◌≤◌};
    ghost use Rattle.fb_bytes.specs.Word.{Lent};

    ghost Value = { Lent };

    ghost view = { λ t. record { bytes = t.window; count = t.count; base = 0 } };

    ghost invariant = { λ t. t.count ≤ 2 ^ 121 };
}

impl<'a> Loan<'a> {
    /// A loan over this window that begins at this count.
    #[inline(always)]
    pub(crate) fn over(window: Window<'a>, count: u128) -> Self
        requires few { count ≤ 2 ^ 120 }
        ensures { result ≡ record { bytes = window.entry; count = count; base = 0 } }
    {
        Loan { window, count }
    }

    /// How many reads were counted.
    #[inline(always)]
    pub fn reads(&self) -> u128
        ensures count { result ≡ self.now.count }
        ensures few { result ≤ 2 ^ 121 }
    {
        self.count
    }

    /// Lends the bytes to be read under a count in 64 bits, which goes on from this one below 2^57, and else begins
    /// with none. Until [`Loan::settle`] takes them back, the loan has no bytes.
    #[inline(always)]
    pub fn lend(&mut self) -> Reads<'a>
        requires few { self.old.count ≤ 2 ^ 120 }
        ensures lent { result ≡ record self.old { base = result.base } }
        ensures short { self.old.count < 2 ^ 57 → result ≡ self.old }
        ensures few { self.old.count < result.base + 2 ^ 57 }
        ensures bare { self.new ≡ record self.old { bytes = [] } }
    {
        let window = mem::replace(&mut self.window, Window::over(&[]));
        if self.count < LONG {
            Reads::over(window, 0, self.count as u64)
        } else {
            Reads::over(window, self.count, 0)
        }
    }

    /// Hands the loan on: the bytes, under a count that goes on from this one. This one has no bytes then.
    #[inline(always)]
    pub fn hand_on(&mut self) -> Loan<'a>
        ensures same { result ≡ self.old }
        ensures bare { self.new ≡ record self.old { bytes = [] } }
    {
        let window = mem::replace(&mut self.window, Window::over(&[]));
        Loan {
            window,
            count: self.count,
        }
    }

    /// Takes bytes back, with the count of all their reads.
    #[inline(always)]
    pub fn settle(&mut self, reads: Reads<'a>)
        ensures { self.new ≡ record self.old { bytes = reads.entry.bytes; count = reads.entry.count } }
    {
        let (window, count) = reads.into_parts();
        self.window = window;
        self.count = count;
    }
}
