//! The line of a verdict.

ghost use Rattle.std.specs.Prelude.{Ok, ◌≡◌, ◌+◌, ◌≤◌, ◌++◌, [], drop, length, decimal};
ghost use Rattle.fb_run.specs.{Job.brief_verdict, Job.verdict_of, Line.field_text, Line.no_text, Line.numbers_text, Line.short_line, Line.verdict_line, Line.yes_text};

use crate::checker::{Found, Wrong};
use fb_verify::{Fault, Report};
use itoa::{Buffer, write_digits};
use std::fmt;
use std::marker::Model;

/// More bytes than the longest line has, but for a value, and more than the summary.
const ROOM: usize = 768;

/// The line of one verdict but for values or a place in words, or of a summary, written from its end to its front. It
/// takes no memory.
#[derive(Drop)]
pub struct Line {
    room: [u8; ROOM],
    start: usize,
}

impl Model for Line {
    ghost use Rattle.std.specs.Prelude.{◌≡◌, ◌≤◌, ℕ, List, drop, length};

    ghost Value = { List ℕ };

    ghost view = { λ l. drop l.start l.room };

    ghost invariant = { λ l. (length l.room ≡ 768) × (l.start ≤ 768) };
}

impl fmt::Display for Line {
    fn fmt<W: fmt::Write>(&self, f: &mut fmt::Formatter<W>) -> fmt::Result {
        match str::from_utf8(self.bytes()) {
            Ok(text) => f.write_str(text),
            Err(_) => Err(fmt::Error),
        }
    }
}

impl Line {
    /// An empty line.
    pub fn new() -> Line
        ensures { result ≡ [] }
    {
        Line {
            room: [0; ROOM],
            start: ROOM,
        }
    }

    /// The line of this text.
    pub fn of(text: &str) -> Line
        requires { length text.now ≤ ROOM }
        ensures { result ≡ text.now }
    {
        let mut line = Line::new();
        line.put_text(text);
        line
    }

    /// The bytes of the line.
    pub fn bytes(&self) -> &[u8]
        ensures { result.now ≡ self.now }
    {
        &self.room[self.start..]
    }

    /// Makes it the line of message number `number` but for what was asked for, whatever it was before.
    pub fn set(&mut self, number: u64, verdict: &Result<Found<'_>, Wrong<'_>>)
        ensures { self.new ≡ short_line number (verdict_of verdict.now) }
    {
        self.clear();
        match verdict {
            Ok(found) => self.put_yes(&found.report),
            Err(wrong) => self.put_no(&wrong.fault),
        }
        self.put_number(number);
    }

    /// Makes it the whole line of message number `number` with this report and no value, whatever it was before.
    #[inline(always)]
    pub fn set_yes(&mut self, number: u64, report: &Report)
        ensures { self.new ≡ verdict_line number (brief_verdict (Ok report.now)) }
    {
        let room = &mut self.room;
        let mut start = put_bytes(room, ROOM, b"\n");
        start = put_reads(room, start, report.reads);
        start = put_bytes(room, start, b" reads=");
        start = put_digits(room, start, u64::from(report.depth));
        start = put_bytes(room, start, b" depth=");
        start = put_digits(room, start, u64::from(report.tables));
        start = put_bytes(room, start, b" ok tables=");
        self.start = put_digits(room, start, number);
    }

    fn clear(&mut self)
        ensures { self.new ≡ [] }
    {
        self.start = ROOM;
    }

    /// What a yes has behind its number.
    fn put_yes(&mut self, report: &Report)
        requires empty { self.old ≡ [] }
        ensures text { self.new ≡ yes_text report.now }
        ensures short { length self.new ≤ 150 }
    {
        self.put_wide(report.reads);
        self.put_text(" reads=");
        self.put_number(u64::from(report.depth));
        self.put_text(" depth=");
        self.put_number(u64::from(report.tables));
        self.put_text(" ok tables=");
    }

    /// What a no has behind its number.
    fn put_no(&mut self, fault: &Fault)
        requires empty { self.old ≡ [] }
        ensures text { self.new ≡ no_text fault.now }
        ensures short { length self.new ≤ 150 }
    {
        self.put_place(fault);
        self.put_number(fault.at);
        self.put_text(" at=");
        self.put_text(fault.reason.text());
        self.put_text(" bad ");
    }

    /// Where in the schema a no is, and its reads.
    pub fn put_place(&mut self, fault: &Fault)
        requires empty { self.old ≡ [] }
        ensures text { self.new ≡ numbers_text fault.now }
        ensures short { length self.new ≤ 103 }
    {
        self.put_wide(fault.reads);
        self.put_text(" reads=");
        self.put_field(fault.field);
        self.put_text(" field=");
        self.put_number(u64::from(fault.object));
        self.put_text(" object=");
    }

    /// Puts a text in front.
    #[inline]
    pub fn put_text(&mut self, text: &str)
        requires room { length text.now + length self.old ≤ ROOM }
        ensures text { self.new ≡ text.now ++ self.old }
        ensures length { length self.new ≡ length text.now + length self.old }
    {
        self.start = put(&mut self.room, self.start, text);
    }

    /// Puts a number in front.
    #[tactic(auto, using(crate::proofs::LineLemmas::digits_more))]
    #[inline]
    pub fn put_number(&mut self, number: u64)
        requires room { length self.old + 20 ≤ ROOM }
        ensures text { self.new ≡ decimal number ++ self.old }
        ensures length { length self.new ≤ length self.old + 20 }
    {
        self.start = put_digits(&mut self.room, self.start, number);
    }

    /// Puts a number in front that may have up to 128 bits.
    #[inline]
    pub fn put_wide(&mut self, number: u128)
        requires room { length self.old + 40 ≤ ROOM }
        ensures text { self.new ≡ decimal number ++ self.old }
        ensures length { length self.new ≤ length self.old + 40 }
    {
        self.start = put_reads(&mut self.room, self.start, number);
    }

    fn put_field(&mut self, field: Option<u16>)
        requires room { length self.old + 20 ≤ ROOM }
        ensures text { self.new ≡ field_text field ++ self.old }
        ensures length { length self.new ≤ length self.old + 20 }
    {
        match field {
            Some(number) => self.put_number(u64::from(number)),
            None => self.put_text("-"),
        }
    }
}

/// Puts a text in front of what starts at `end`, and answers where it starts.
#[inline(always)]
fn put(room: &mut [u8; ROOM], end: usize, text: &str) -> usize
    requires fits { length text.now ≤ end }
    requires end { end ≤ ROOM }
    ensures start { result + length text.now ≡ end }
    ensures long { length room.new ≡ ROOM }
    ensures text { drop result room.new ≡ text.now ++ drop end room.old }
{
    let start = end - text.len();
    room[start..end].copy_from_slice(text.as_bytes());
    start
}

/// The same of a text whose length the compiler knows: it puts several bytes at a time.
#[inline(always)]
fn put_bytes<const N: usize>(room: &mut [u8; ROOM], end: usize, text: &[u8; N]) -> usize
    requires fits { N ≤ end }
    requires end { end ≤ ROOM }
    ensures start { result + N ≡ end }
    ensures long { length room.new ≡ ROOM }
    ensures text { drop result room.new ≡ text.now ++ drop end room.old }
{
    let mut start = end;
    let mut left = N;
    while left > 0 {
        left -= 1;
        start -= 1;
        room[start] = text[left];
    }
    start
}

/// Puts a number in front of what starts at `end`, and answers where it starts. One digit is put at once.
#[inline(always)]
#[tactic(auto, using(crate::proofs::LineLemmas::digit_before))]
fn put_digits(room: &mut [u8; ROOM], end: usize, number: u64) -> usize
    requires fits { 20 ≤ end }
    requires end { end ≤ ROOM }
    ensures start { result ≤ end }
    ensures short { end ≤ result + 20 }
    ensures long { length room.new ≡ ROOM }
    ensures text { drop result room.new ≡ decimal number ++ drop end room.old }
{
    if number < 10 {
        room[end - 1] = b'0' + number as u8;
        return end - 1;
    }
    put_many_digits(room, end, number)
}

/// The same of any number.
#[inline(never)]
#[tactic(auto, using(crate::proofs::LineLemmas::digits_few))]
fn put_many_digits(room: &mut [u8; ROOM], end: usize, number: u64) -> usize
    requires fits { 20 ≤ end }
    requires end { end ≤ ROOM }
    ensures start { result ≤ end }
    ensures short { end ≤ result + 20 }
    ensures long { length room.new ≡ ROOM }
    ensures text { drop result room.new ≡ decimal number ++ drop end room.old }
{
    write_digits(number, room, end)
}

/// Puts a number of up to 128 bits in front of what starts at `end`, and answers where it starts.
#[inline(always)]
fn put_reads(room: &mut [u8; ROOM], end: usize, number: u128) -> usize
    requires fits { 40 ≤ end }
    requires end { end ≤ ROOM }
    ensures start { result ≤ end }
    ensures short { end ≤ result + 40 }
    ensures long { length room.new ≡ ROOM }
    ensures text { drop result room.new ≡ decimal number ++ drop end room.old }
{
    match u64::try_from(number) {
        Ok(number) => put_digits(room, end, number),
        Err(_) => put_wide_digits(room, end, number),
    }
}

/// The same of any number.
#[cold]
#[inline(never)]
fn put_wide_digits(room: &mut [u8; ROOM], end: usize, number: u128) -> usize
    requires fits { 40 ≤ end }
    requires end { end ≤ ROOM }
    ensures start { result ≤ end }
    ensures short { end ≤ result + 40 }
    ensures long { length room.new ≡ ROOM }
    ensures text { drop result room.new ≡ decimal number ++ drop end room.old }
{
    put(room, end, Buffer::new().format(number))
}
