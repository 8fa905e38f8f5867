//! What a run tells: counted, and put behind what waits to be written.

ghost use Rattle.std.specs.Prelude.{Err, Ok, OnOk, OnErr, IsTrue, ◌≡◌, ◌+◌, ◌<◌, ◌^◌, ◌++◌, [], false, length};
ghost use Rattle.fb_run.specs.{AnswerText.label_text, Ends.outs_of, Job.HasRoom, Job.IsVerdict, Job.brief_verdict, Job.buffer_in, Job.is_brief, Job.verdict_of, Line.IsLine, Line.front_in, Line.rejected};
ghost use Rattle.fb_run.specs.{Spot.HasDue, Spot.IsFull, Spot.past_all, Sums.count_of, Sums.no_tally, Texts.silent, Texts.to_rejects};
ghost use Rattle.fb_run.specs.Puts.{AddsBy, AreOpen, AreSo, AreSound, IsUnused, PutsAll, PutsTold, Says, queue_of, queues_of};
ghost use Rattle.fb_run.specs.declared.options.Rejects.{Rejects};

use crate::checker::{Checker, Course, Found, Wrong};
use crate::counter::Counter;
use crate::csv::put_row;
use crate::fault::RunFault;
use crate::line::Line;
use crate::options::{LineForm, Mode, Rejects};
use crate::room::Workspace;
use crate::spot::Spot;
use crate::tally::Tally;
use crate::value_text::put_words;
use crate::values::put_values;
use crate::writing::{MOST_WAITING, Pending, hold};
use fb_bytes::Sink;
use fb_verify::{Fault, Report};
use std::alloc::{AllocError, Allocator};

/// What a run has told so far: the verdicts, and what waits to be written to the writer, to the notes and to the rejects.
#[derive(Drop)]
pub struct Output<A: Allocator> {
    pub counter: Counter,
    /// Lines, rows, or whole messages that are passed on.
    pub out: Pending<A>,
    /// Whole lines.
    pub notes: Pending<A>,
    /// Whole bad messages.
    pub rejects: Pending<A>,
    /// A plain line that is being made, but for what it begins with, values, and a place in words.
    line: Line,
    /// A line up to its values, where it has some.
    made: Vec<u8, A>,
}

impl<'a, A: Allocator> Output<&'a A> {
    /// Nothing is told.
    pub fn new(alloc: &'a A) -> Self
        ensures unused { IsUnused result }
        ensures counted { result.counter ≡ no_tally }
    {
        Output {
            counter: Counter::new(),
            out: Pending::new(alloc),
            notes: Pending::new(alloc),
            rejects: Pending::new(alloc),
            line: Line::new(),
            made: Vec::new(alloc),
        }
    }
}

impl<A: Allocator> Output<A> {
    /// Adds what is told of the next message, and counts its verdict. Where much waits by then, it is written; a long
    /// value is written while its line is made, and a long bad message as it is. Where memory is refused, nothing is told
    /// of the message, nor is it counted; where a write fails, it is counted too.
    #[inline(always)]
    pub fn add<B: Allocator, K: Sink, N: Sink, R: Sink>(
        &mut self,
        checker: &Checker<'_, '_, '_>,
        room: &mut Workspace<B>,
        message: &[u8],
        writer: &mut K,
        notes: &mut N,
        rejects: &mut R,
    ) -> Result<(), RunFault>
        requires room { HasRoom checker.now room.old }
        requires few { count_of self.old.counter < 2 ^ 63 }
        requires short { length message.now < 2 ^ 31 }
        requires unfailed { AreOpen (queues_of K.Sink N.Sink R.Sink self.old writer.old notes.old rejects.old) }
        ensures told { AddsBy checker.now (past_all checker.now self.old.counter) message.now (queues_of K.Sink N.Sink R.Sink self.old writer.old notes.old rejects.old)
            (queues_of K.Sink N.Sink R.Sink self.new writer.new notes.new rejects.new) self.old.counter self.new.counter result }
        ensures room { HasRoom checker.now room.new }
    {
        if let Course::Brief = checker.course() {
            let report = checker.report(room, &mut checker.metered(message));
            return self.add_briefly(checker, message, report, writer, notes, rejects);
        }
        self.add_otherwise(checker, room, message, writer, notes, rejects)
    }

    /// The same where there is a plan or more is asked.
    #[inline(never)]
    fn add_otherwise<B: Allocator, K: Sink, N: Sink, R: Sink>(
        &mut self,
        checker: &Checker<'_, '_, '_>,
        room: &mut Workspace<B>,
        message: &[u8],
        writer: &mut K,
        notes: &mut N,
        rejects: &mut R,
    ) -> Result<(), RunFault>
        requires room { HasRoom checker.now room.old }
        requires few { count_of self.old.counter < 2 ^ 63 }
        requires short { length message.now < 2 ^ 31 }
        requires unfailed { AreOpen (queues_of K.Sink N.Sink R.Sink self.old writer.old notes.old rejects.old) }
        ensures told { AddsBy checker.now (past_all checker.now self.old.counter) message.now (queues_of K.Sink N.Sink R.Sink self.old writer.old notes.old rejects.old)
            (queues_of K.Sink N.Sink R.Sink self.new writer.new notes.new rejects.new) self.old.counter self.new.counter result }
        ensures room { HasRoom checker.now room.new }
    {
        if let Course::BriefStrictly = checker.course() {
            let report = checker.report_strictly(room, checker.metered(message));
            return self.add_briefly(checker, message, report, writer, notes, rejects);
        }
        let verdict = checker.verdict(room, message)?;
        let (verdict, begin) = checker.told(room, verdict);
        let spot = self.counter.spot(checker.terms().skip, message);
        self.say(checker, begin, &spot, message, &verdict, writer)?;
        self.counter.count(message, &verdict);
        self.keep(checker.rejects(), message, &verdict, writer, notes, rejects)
    }

    /// Adds what is told of the next message with this report, or this fault, where no more is asked, and counts it.
    #[inline(always)]
    fn add_briefly<K: Sink, N: Sink, R: Sink>(
        &mut self,
        checker: &Checker<'_, '_, '_>,
        message: &[u8],
        report: Result<Report, Fault>,
        writer: &mut K,
        notes: &mut N,
        rejects: &mut R,
    ) -> Result<(), RunFault>
        requires brief { IsTrue (is_brief checker.now) }
        requires verdict { IsVerdict checker.now (buffer_in checker.now message.now) (brief_verdict report) }
        requires few { count_of self.old.counter < 2 ^ 63 }
        requires short { length message.now < 2 ^ 31 }
        requires unfailed { AreOpen (queues_of K.Sink N.Sink R.Sink self.old writer.old notes.old rejects.old) }
        ensures told { AddsBy checker.now (past_all checker.now self.old.counter) message.now (queues_of K.Sink N.Sink R.Sink self.old writer.old notes.old rejects.old)
            (queues_of K.Sink N.Sink R.Sink self.new writer.new notes.new rejects.new) self.old.counter self.new.counter result }
    {
        let report = match report {
            Ok(report) => report,
            Err(fault) => return self.add_no(checker, message, fault, writer, notes, rejects),
        };
        match checker.terms().mode {
            Mode::Lines | Mode::Csv => {
                self.line.set_yes(1 + self.counter.messages(), &report);
                self.out.put(writer, self.line.bytes());
            }
            Mode::BadLines => {}
            Mode::Filter => self.out.put(writer, message),
        }
        self.counter.count_yes(message, &report);
        self.settle(writer, notes, rejects)
    }

    /// Adds what is told of the next message with this fault, where no more is asked, and counts it.
    #[inline(never)]
    fn add_no<K: Sink, N: Sink, R: Sink>(
        &mut self,
        checker: &Checker<'_, '_, '_>,
        message: &[u8],
        fault: Fault,
        writer: &mut K,
        notes: &mut N,
        rejects: &mut R,
    ) -> Result<(), RunFault>
        requires brief { IsTrue (is_brief checker.now) }
        requires verdict { IsVerdict checker.now (buffer_in checker.now message.now) (brief_verdict (Err fault)) }
        requires few { count_of self.old.counter < 2 ^ 63 }
        requires short { length message.now < 2 ^ 31 }
        requires unfailed { AreOpen (queues_of K.Sink N.Sink R.Sink self.old writer.old notes.old rejects.old) }
        ensures told { AddsBy checker.now (past_all checker.now self.old.counter) message.now (queues_of K.Sink N.Sink R.Sink self.old writer.old notes.old rejects.old)
            (queues_of K.Sink N.Sink R.Sink self.new writer.new notes.new rejects.new) self.old.counter self.new.counter result }
    {
        let verdict = Err(Wrong { fault, place: None });
        let spot = self.counter.spot(checker.terms().skip, message);
        self.say(checker, b"", &spot, message, &verdict, writer)?;
        self.counter.count(message, &verdict);
        self.keep(checker.rejects(), message, &verdict, writer, notes, rejects)
    }

    /// Puts what is said of the message there by this verdict, where plain lines begin so. Of the notes nothing is
    /// written.
    fn say<K: Sink>(
        &mut self,
        checker: &Checker<'_, '_, '_>,
        begin: &[u8],
        spot: &Spot,
        message: &[u8],
        verdict: &Result<Found<'_>, Wrong<'_>>,
        writer: &mut K,
    ) -> Result<(), AllocError>
        requires begin { begin.now ≡ label_text checker.now.label }
        ensures ok { OnOk result (Says checker.now.terms.mode (IsLine checker.now spot.now (verdict_of verdict.now)) message.now (verdict_of verdict.now)
            (queue_of K.Sink self.old.out writer.old) (queue_of K.Sink self.new.out writer.new) self.old.notes.bytes.items self.new.notes.bytes.items) }
        ensures err { OnErr result (queue_of K.Sink self.new.out writer.new ≡ queue_of K.Sink self.old.out writer.old) }
        ensures err_noted { OnErr result (self.new.notes.bytes.items ≡ self.old.notes.bytes.items) }
        ensures noted { self.new.notes.written ≡ self.old.notes.written }
        ensures rejects { self.new.rejects ≡ self.old.rejects }
        ensures counted { self.new.counter ≡ self.old.counter }
    {
        let terms = checker.terms();
        match verdict {
            Ok(found) => {
                let answers = found.answers.as_slice();
                match terms.mode {
                    Mode::Lines => {
                        self.make_front(checker, begin, spot, verdict)?;
                        self.out.put(writer, self.made.as_slice());
                        put_values(&mut self.out, writer, terms.form, checker.paths(), answers);
                        Ok(())
                    }
                    Mode::BadLines => Ok(()),
                    Mode::Filter => {
                        self.out.put(writer, message);
                        Ok(())
                    }
                    Mode::Csv => {
                        put_row(&mut self.out, writer, checker.label(), answers);
                        Ok(())
                    }
                }
            }
            Err(_) => {
                self.make_front(checker, begin, spot, verdict)?;
                match terms.mode {
                    Mode::Lines | Mode::BadLines => {
                        self.out.put(writer, self.made.as_slice());
                        Ok(())
                    }
                    Mode::Filter | Mode::Csv => {
                        self.notes.bytes.extend_from_slice(self.made.as_slice())?;
                        Ok(())
                    }
                }
            }
        }
    }

    /// Makes what the line of this verdict on the message there has before its values, which is all of the line of a no.
    /// Plain ones begin so.
    fn make_front(
        &mut self,
        checker: &Checker<'_, '_, '_>,
        begin: &[u8],
        spot: &Spot,
        verdict: &Result<Found<'_>, Wrong<'_>>,
    ) -> Result<(), AllocError>
        requires begin { begin.now ≡ label_text checker.now.label }
        ensures front { OnOk result (self.new.made.items ≡ front_in checker.now.terms.form checker.now spot.now (verdict_of verdict.now)) }
        ensures out { self.new.out ≡ self.old.out }
        ensures notes { self.new.notes ≡ self.old.notes }
        ensures rejects { self.new.rejects ≡ self.old.rejects }
        ensures counted { self.new.counter ≡ self.old.counter }
    {
        self.made.clear();
        match checker.terms().form {
            LineForm::Plain => {
                self.line.set(spot.number, verdict);
                self.made.extend_from_slice(begin)?;
                self.made.extend_from_slice(self.line.bytes())?;
                match verdict {
                    Ok(_) => Ok(()),
                    Err(wrong) => put_words(&mut self.made, wrong.place),
                }
            }
            LineForm::Json => checker.put_json(&mut self.made, spot, verdict),
        }
    }

    /// Puts a bad message behind what waits for the rejects, where bad ones are kept. Where much waits, it is written, as
    /// `settle` does.
    #[inline(always)]
    fn keep<K: Sink, N: Sink, R: Sink>(
        &mut self,
        keeps: Rejects,
        message: &[u8],
        verdict: &Result<Found<'_>, Wrong<'_>>,
        writer: &mut K,
        notes: &mut N,
        rejects: &mut R,
    ) -> Result<(), RunFault>
        requires unfailed { self.old.notes.written.failed ≡ false }
        requires unfailed_rejects { self.old.rejects.written.failed ≡ false }
        ensures puts { PutsTold (to_rejects (rejected (verdict_of verdict.now) keeps message.now))
            (queues_of K.Sink N.Sink R.Sink self.old writer.old notes.old rejects.old) (queues_of K.Sink N.Sink R.Sink self.new writer.new notes.new rejects.new) }
        ensures so { AreSo (queues_of K.Sink N.Sink R.Sink self.new writer.new notes.new rejects.new) result }
        ensures little { OnOk result (length self.new.notes.bytes.items < 65536) }
        ensures few { OnOk result (length self.new.rejects.bytes.items < 65536) }
        ensures counted { self.new.counter ≡ self.old.counter }
    {
        match (verdict, keeps) {
            (Err(_), Rejects::Kept) => self.keep_bad(message, writer, notes, rejects),
            _ => self.settle(writer, notes, rejects),
        }
    }

    /// Puts a bad message behind what waits for the rejects. One that is much by itself is written as it is, behind all
    /// that waits, and so is one for which memory is refused.
    #[inline(never)]
    fn keep_bad<K: Sink, N: Sink, R: Sink>(
        &mut self,
        message: &[u8],
        writer: &mut K,
        notes: &mut N,
        rejects: &mut R,
    ) -> Result<(), RunFault>
        requires unfailed { self.old.notes.written.failed ≡ false }
        requires unfailed_rejects { self.old.rejects.written.failed ≡ false }
        ensures puts { PutsTold (to_rejects message.now)
            (queues_of K.Sink N.Sink R.Sink self.old writer.old notes.old rejects.old) (queues_of K.Sink N.Sink R.Sink self.new writer.new notes.new rejects.new) }
        ensures so { AreSo (queues_of K.Sink N.Sink R.Sink self.new writer.new notes.new rejects.new) result }
        ensures little { OnOk result (length self.new.notes.bytes.items < 65536) }
        ensures few { OnOk result (length self.new.rejects.bytes.items < 65536) }
        ensures counted { self.new.counter ≡ self.old.counter }
    {
        if let Ok(()) = hold(&mut self.rejects.bytes, message) {
            return self.settle(writer, notes, rejects);
        }
        self.flush(writer, notes, rejects)?;
        self.rejects.put(rejects, message);
        self.flush(writer, notes, rejects)
    }

    /// Writes what waits where a message is told and much waits for the notes or the rejects: first for the writer. A write
    /// that failed is answered.
    #[inline(always)]
    fn settle<K: Sink, N: Sink, R: Sink>(
        &mut self,
        writer: &mut K,
        notes: &mut N,
        rejects: &mut R,
    ) -> Result<(), RunFault>
        requires unfailed { self.old.notes.written.failed ≡ false }
        requires unfailed_rejects { self.old.rejects.written.failed ≡ false }
        ensures puts { PutsAll silent (queues_of K.Sink N.Sink R.Sink self.old writer.old notes.old rejects.old) (queues_of K.Sink N.Sink R.Sink self.new writer.new notes.new rejects.new) }
        ensures so { AreSo (queues_of K.Sink N.Sink R.Sink self.new writer.new notes.new rejects.new) result }
        ensures little { OnOk result (length self.new.notes.bytes.items < 65536) }
        ensures few { OnOk result (length self.new.rejects.bytes.items < 65536) }
        ensures counted { self.new.counter ≡ self.old.counter }
    {
        let much = self.notes.bytes.len() >= MOST_WAITING
            || self.rejects.bytes.len() >= MOST_WAITING;
        if self.out.written.failed || much {
            return self.flush(writer, notes, rejects);
        }
        Ok(())
    }

    /// Writes what waits, first for the writer, then for the notes, and then for the rejects.
    pub fn flush<K: Sink, N: Sink, R: Sink>(
        &mut self,
        writer: &mut K,
        notes: &mut N,
        rejects: &mut R,
    ) -> Result<(), RunFault>
        requires sound { AreSound (queues_of K.Sink N.Sink R.Sink self.old writer.old notes.old rejects.old) }
        ensures puts { PutsAll silent (queues_of K.Sink N.Sink R.Sink self.old writer.old notes.old rejects.old) (queues_of K.Sink N.Sink R.Sink self.new writer.new notes.new rejects.new) }
        ensures so { AreSo (queues_of K.Sink N.Sink R.Sink self.new writer.new notes.new rejects.new) result }
        ensures written { OnOk result (self.new.out.bytes.items ≡ []) }
        ensures noted { OnOk result (self.new.notes.bytes.items ≡ []) }
        ensures kept { OnOk result (self.new.rejects.bytes.items ≡ []) }
        ensures counted { self.new.counter ≡ self.old.counter }
    {
        self.out.flush(writer);
        if self.out.written.failed {
            let written = self.out.written.bytes;
            return Err(RunFault::WriteFault { written });
        }
        self.notes.flush(notes);
        if self.notes.written.failed {
            let written = self.notes.written.bytes;
            return Err(RunFault::NoteFault { written });
        }
        self.rejects.flush(rejects);
        if self.rejects.written.failed {
            let written = self.rejects.written.bytes;
            return Err(RunFault::RejectFault { written });
        }
        Ok(())
    }

    /// How many messages more are told whatever their verdicts: so many, which are known, or where these are none, as
    /// many as are. None are where the bounds of the options are reached.
    #[inline(always)]
    pub fn due(&self, checker: &Checker<'_, '_, '_>, sure: u64) -> u64
        requires few { count_of self.now.counter < 2 ^ 63 }
        requires sure { HasDue checker.now (past_all checker.now self.now.counter) sure }
        ensures due { HasDue checker.now (past_all checker.now self.now.counter) result }
        ensures full { result ≡ 0 → IsFull checker.now (past_all checker.now self.now.counter) }
    {
        if sure > 0 {
            return sure;
        }
        self.count_due(checker)
    }

    /// How many messages more are told whatever their verdicts.
    #[inline(never)]
    fn count_due(&self, checker: &Checker<'_, '_, '_>) -> u64
        requires few { count_of self.now.counter < 2 ^ 63 }
        ensures due { HasDue checker.now (past_all checker.now self.now.counter) result }
        ensures full { result ≡ 0 → IsFull checker.now (past_all checker.now self.now.counter) }
    {
        let terms = checker.terms();
        let messages = terms.most_messages.saturating_sub(self.counter.messages());
        let bad = terms.most_bad.saturating_sub(self.counter.bad());
        messages.min(bad)
    }

    /// What was counted so far.
    pub fn tally(&self) -> Tally
        ensures { result ≡ self.now.counter }
    {
        self.counter.tally()
    }
}
