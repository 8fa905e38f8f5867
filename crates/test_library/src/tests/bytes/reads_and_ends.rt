//! What no contract says: that calls succeed, on bytes and answers known from outside.

ghost use Rattle.std.specs.Prelude.{◌≤◌, IfOk};

use crate::tests::compare::same;
use fb_bytes::{Counted, Loan, Meter, Sink, Source};
use std::io;
use std::io::{ErrorKind, Read, Write};

/// Four bytes whose order shows in each number, and four of which a sign shows.
static NUMBERS: [u8; 8] = [0x01, 0x02, 0x03, 0x84, 0xff, 0xff, 0xff, 0xff];

/// Ranges, with whether they lie in eight bytes.
static RANGES: [(u64, u64, bool); 9] = [
    (0, 8, true),
    (8, 0, true),
    (7, 1, true),
    (9, 0, false),
    (0, 9, false),
    (4, 5, false),
    (u64::MAX, 1, false),
    (1, u64::MAX, false),
    (u64::MAX, u64::MAX, false),
];

/// A reader or writer of which the first call moves a byte at most, the next two and the sixth fail, and others move
/// nothing.
#[derive(Drop)]
struct Falters {
    calls: u32,
}

impl Falters {
    fn moved(&mut self, most: usize) -> io::Result<usize>
        ensures { IfOk result (λ n. n ≤ most) }
    {
        self.calls = self.calls.saturating_add(1);
        match self.calls {
            1 => Ok(most.min(1)),
            2 | 3 | 6 => Err(io::Error::from(ErrorKind::Other)),
            _ => Ok(0),
        }
    }
}

impl Read for Falters {
    fn read(&mut self, buf: &mut [u8]) -> io::Result<usize> {
        self.moved(buf.len())
    }
}

impl Write for Falters {
    fn write(&mut self, buf: &[u8]) -> io::Result<usize> {
        self.moved(buf.len())
    }

    fn flush(&mut self) -> io::Result<()> {
        Ok(())
    }
}

#[test]
fn a_meter_reads_little_endian_and_counts(rt: HostRuntime) {
    let mut meter = Meter::new(&NUMBERS).unwrap();
    let told = (
        meter.u8_at(3),
        meter.u16_at(1),
        meter.u32_at(0),
        meter.i32_at(0),
        meter.i32_at(4),
    );
    let want = (0x84, 0x0302, 0x8403_0201, -2_080_177_663, -1);
    same(&rt, told, want);
    for (at, n, want) in &RANGES {
        same(&rt, (*at, *n, meter.fits(*at, *n)), (*at, *n, *want));
    }
    same(&rt, (meter.len(), meter.reads()), (8, 5));
}

#[test]
fn what_is_lent_is_gone_until_it_is_settled(rt: HostRuntime) {
    let mut meter = Meter::new(&NUMBERS).unwrap();
    let mut loan: Loan = meter.lend();
    let mut reads = loan.lend();
    let mut on = reads.lend();
    let numbers = (on.u8_at(3), on.u16_at(1), on.u32_at(0), on.i32_at(0));
    let lent = (on.fits(4, 4), on.fits(5, 4), reads.len(), loan.lend().len());
    reads.settle(on);
    let settled = (reads.len(), reads.count());
    loan.settle(reads);
    let at_last = (loan.reads(), meter.reads());
    meter.settle(loan);
    let told = (numbers, lent, settled, at_last, meter.reads());
    let numbers = (0x84, 0x0302, 0x8403_0201, -2_080_177_663);
    let want = (numbers, (true, false, 0, 0), (8, 4), (4, u128::MAX), 4);
    same(&rt, told, want);
}

#[test]
fn a_window_lends_what_its_meter_read(rt: HostRuntime) {
    let window = Meter::new(&NUMBERS).unwrap().seal();
    let numbers = (
        window.u8_at(3),
        window.u16_at(1),
        window.u32_at(0),
        window.i32_at(4),
        window.u64_at(0),
    );
    let fits = (window.fits(6, 2), window.fits(7, 2), window.len());
    let told = (numbers, fits, window.bytes(1, 2));
    let numbers = (0x84, 0x0302, 0x8403_0201, -1, 0xffff_ffff_8403_0201);
    let want = (numbers, (true, false, 8), b"\x02\x03".as_slice());
    same(&rt, told, want);
}

#[test]
fn reads_are_counted_whoever_takes_them_back(rt: HostRuntime) {
    let mut loan = Meter::new(&NUMBERS).unwrap().lend();
    let mut passer = Meter::new(&[]).unwrap().lend();
    let mut reads = loan.lend();
    let first = reads.u8_at(3);
    passer.settle(reads);
    let mut again = passer.lend();
    let second = again.u8_at(3);
    loan.settle(again);
    let told = (first, second, loan.reads(), passer.reads());
    same(&rt, told, (0x84, 0x84, 2, 1));
}

#[test]
fn a_source_tells_calls_failures_and_end(rt: HostRuntime) {
    let mut source = Counted::new(Falters { calls: 0 });
    let mut piece = [0u8; 4];
    let pulled = [
        source.pull(&mut piece).ok(),
        source.pull(&mut piece).ok(),
        source.pull(&mut piece).ok(),
        source.pull(&mut []).ok(),
    ];
    let before = (Source::failures(&source), source.ended());
    let last = source.pull(&mut piece).ok();
    let after = (Source::failures(&source), source.ended());
    let failed = source.pull(&mut piece).ok();
    let at_last = (Source::failures(&source), source.ended());
    let calls = (Source::calls(&source), source.get_ref().calls);
    let pulls = (pulled, last, failed);
    let want = ([Some(1), None, None, Some(0)], Some(0), None);
    let told = (pulls, before, after, at_last, calls);
    same(&rt, told, (want, (2, false), (2, true), (3, false), (6, 6)));
}

#[test]
fn a_sink_that_takes_nothing_has_failed(rt: HostRuntime) {
    let mut sink = Counted::new(Falters { calls: 0 });
    let pushed = [
        sink.push(b"ab").ok(),
        sink.push(b"b").ok(),
        sink.push(b"b").ok(),
        sink.push(b"").ok(),
    ];
    let before = Sink::failures(&sink);
    let last = sink.push(b"b").ok();
    let after = (Sink::failures(&sink), Sink::calls(&sink));
    let want = [Some(1), None, None, Some(0)];
    let told = (pushed, before, last, after, sink.into_inner().calls);
    same(&rt, told, (want, 2, Some(0), (3, 5), 5));
}
