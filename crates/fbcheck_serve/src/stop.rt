//! How the program comes to its end: well, or for a cause.

ghost use Rattle.std.specs.Prelude.{Err, IfSome, List, None, ℕ, ◌≡◌, ◌++◌, ◌+◌, ◌<◌, ◌≤◌, ◌^◌, codes, length};
ghost use Rattle.fb_rules.specs.Reasons.{reason_count};
ghost use Rattle.fb_run.specs.Ends.{writer_of};
ghost use Rattle.fbcheck_texts.specs.Hints.{IsHint};
ghost use Rattle.fbcheck_texts.specs.declared.choices.SettingsFault.TheVariants as refusal;
ghost use Rattle.fbcheck_serve.specs.{Inputs.IsNoted, Serving.Complains, Serving.IsBehindEnding, Serving.IsBehindStop, Serving.IsHintBehind, Serving.IsStopTold, Serving.IsEndLine};
ghost use Rattle.fbcheck_serve.specs.Serving.{SumsUp, exit_status, is_quiet, is_unwritten, stop_status, stop_text, unbegun_stop};
ghost use Rattle.fbcheck_serve.specs.declared.stop.Ending.TheVariants.{Helped};
ghost use Rattle.fbcheck_serve.specs.declared.stop.EarlyEnd.TheVariants as stop;

use crate::check::Unbegun;
use crate::inputs::Course;
use fb_bytes::Sink;
use fb_run::summary::summary;
use fb_run::{Line, LineForm, RunFault, Tally, push_all, status};
use fbcheck_texts::causes::Causes;
use fbcheck_texts::choices::SettingsFault;
use fbcheck_texts::fault::{FileFault, WordsFault};
use fbcheck_texts::fault_json::{fault_object, hint_object};
use fbcheck_texts::framing::{By, Manner, by_hint, end_hint, run_hint};
use fbcheck_texts::hint::{Hint, Unasked};
use fbcheck_texts::texts::{
    ask_text, failed_write, file_text, list_text, run_text, stopped_text, unkept_text, unmade_text,
    unsummed_text, words_text,
};
use std::alloc::{AllocError, Global};
use std::io::ErrorKind;

/// How a line begins that tells why the program comes to rest.
const NAME: &str = "fbcheck: ";

/// The numbers that are told at the end, and how their line is written.
#[derive(Clone, Copy)]
pub struct Sums {
    /// How the line is written.
    pub form: LineForm,
    /// What the run came to.
    pub tally: Tally,
}

/// How the program ends well.
#[derive(Clone, Copy)]
pub enum Ending {
    /// Help was asked for, and written.
    Helped,
    /// The buffers of the input were checked, in this manner.
    Checked(Tally, Manner),
    /// The files were gone through, and the faults of those that have any are told. They were checked by this.
    Passed(Course, By),
}

/// Why the program comes to rest before that.
#[derive(Drop)]
pub enum EarlyEnd {
    /// The words can't be read, and this is told behind the cause.
    Words(WordsFault, Hint),
    /// `clap` refuses the words, by this text.
    Usage(String),
    /// The words give no settings for another cause.
    Settings(SettingsFault),
    /// Help was asked for, and the writer took only its first `written` bytes.
    CutOff {
        written: usize,
    },
    /// The rejects took only their first `written` bytes, for this cause where it is known.
    Unkept {
        written: u128,
        cause: Option<ErrorKind>,
    },
    /// The file for the rejects can't be made.
    Unmade(ErrorKind),
    /// The run came to its end, and of its summary only the first `written` bytes were taken.
    Unsummed {
        written: usize,
    },
    /// The schema file can't be read, and this is told behind the cause.
    File(FileFault, Hint),
    /// The list of names can't be read, and this is told behind the cause.
    List(FileFault, Hint),
    /// There was nothing to check by.
    Ask(Unasked),
    /// The run came to rest, with these counts, over an input that was checked in this manner.
    Run(RunFault, Tally, Manner),
    /// The run over a file came to rest for what ends the whole call, or wasn't begun.
    Halted(RunFault),
}

impl Ending {
    /// What is told of it, behind the program's name.
    fn hint(&self) -> Option<&'static [u8]>
        ensures line { IfSome result (λ h. IsHint h.now) }
        ensures none { self.now ≡ Helped → result ≡ None }
    {
        match self {
            Ending::Helped => None,
            Ending::Checked(tally, manner) => end_hint(manner.by, manner.framing, tally),
            Ending::Passed(course, by) => by_hint(*by, &course.tally),
        }
    }

    /// Notes that the input ended behind as many bad messages as there may be, where it did.
    fn tell_stop<N: Sink>(&self, alloc: Global, form: LineForm, notes: &mut N)
        ensures { IsStopTold form self.now (writer_of N.Sink notes.old) (writer_of N.Sink notes.new) }
    {
        if let Ending::Checked(tally, manner) = self {
            if tally.no >= manner.most_bad {
                note_end(alloc, form, stopped_text(manner.most_bad).bytes(), notes);
            }
        }
    }

    /// Notes a hint, where there is one.
    fn tell_hint<N: Sink>(&self, alloc: Global, form: LineForm, notes: &mut N)
        ensures { IsHintBehind form self.now (writer_of N.Sink notes.old) (writer_of N.Sink notes.new) }
    {
        if let Some(hint) = self.hint() {
            note_end(alloc, form, hint, notes);
        }
    }

    /// Notes both in this form. What can't be written is left.
    fn tell<N: Sink>(&self, alloc: Global, form: LineForm, notes: &mut N)
        ensures { IsBehindEnding form self.now (writer_of N.Sink notes.old) (writer_of N.Sink notes.new) }
    {
        self.tell_stop(alloc, form, notes);
        self.tell_hint(alloc, form, notes);
    }
}

impl From<AllocError> for EarlyEnd {
    ghost from_gives = { λ _ s. s ≡ stop.Settings refusal.OutOfMemory };

    fn from(_: AllocError) -> Self {
        Self::Settings(SettingsFault::OutOfMemory)
    }
}

impl From<Unbegun> for EarlyEnd {
    ghost from_gives = { λ unbegun s. s ≡ unbegun_stop unbegun };

    fn from(unbegun: Unbegun) -> Self {
        match unbegun {
            Unbegun::Ask(unasked) => Self::Ask(unasked),
            Unbegun::Unmade(cause) => Self::Unmade(cause),
        }
    }
}

impl EarlyEnd {
    /// The exit status: 2 where the words, the schema file, the list of names, the root, the path or the schema's own identifier are
    /// wrong, and 3 after any other fault.
    fn status(&self) -> u8
        ensures { result ≡ stop_status self.now }
    {
        match self {
            EarlyEnd::Words(WordsFault::NotText(_), _) | EarlyEnd::Usage(_) => 2,
            EarlyEnd::Words(WordsFault::OutOfMemory, _) => 3,
            EarlyEnd::File(FileFault::Unreadable(_), _)
            | EarlyEnd::List(FileFault::Unreadable(_), _) => 2,
            EarlyEnd::File(FileFault::OutOfMemory, _) | EarlyEnd::List(FileFault::OutOfMemory, _) =>
                3,
            EarlyEnd::CutOff { .. } | EarlyEnd::Unsummed { .. } => 3,
            EarlyEnd::Unkept { .. } | EarlyEnd::Unmade(_) => 3,
            EarlyEnd::Settings(fault) => fault.status(),
            EarlyEnd::Ask(unasked) => unasked.fault.status(),
            EarlyEnd::Run(fault, ..) | EarlyEnd::Halted(fault) => status(&Err(*fault)),
        }
    }

    /// What stands behind its text, to the end of the line.
    fn behind(&self) -> &[u8]
        ensures { IsBehindStop self.now result.now }
    {
        match self {
            EarlyEnd::Words(_, hint) | EarlyEnd::File(_, hint) | EarlyEnd::List(_, hint) =>
                hint.bytes(),
            EarlyEnd::Ask(unasked) => unasked.hint(),
            EarlyEnd::Run(fault, tally, manner) => run_hint(manner.framing, fault, tally),
            EarlyEnd::Usage(_) | EarlyEnd::Settings(_) | EarlyEnd::Halted(_) => b"\n",
            EarlyEnd::CutOff { .. } | EarlyEnd::Unsummed { .. } => b"\n",
            EarlyEnd::Unkept { .. } | EarlyEnd::Unmade(_) => b"\n",
        }
    }

    /// Its text, but for that of `clap`, where this is why a read of standard input or a write failed, if one did.
    fn text(&self, causes: Causes) -> Line
        ensures text { result ≡ stop_text causes self.now }
        ensures short { length result ≤ 200 }
    {
        match self {
            EarlyEnd::Words(fault, _) => words_text(fault),
            EarlyEnd::Usage(_) => Line::new(),
            EarlyEnd::Settings(fault) => Line::of(fault.text()),
            EarlyEnd::CutOff { written } => failed_write(*written as u128, causes.write),
            EarlyEnd::Unsummed { written } => unsummed_text(*written),
            EarlyEnd::Unkept { written, cause } => unkept_text(*written, *cause),
            EarlyEnd::Unmade(cause) => unmade_text(*cause),
            EarlyEnd::File(fault, _) => file_text(fault),
            EarlyEnd::List(fault, _) => list_text(fault),
            EarlyEnd::Ask(unasked) => ask_text(&unasked.fault),
            EarlyEnd::Run(fault, ..) | EarlyEnd::Halted(fault) => run_text(fault, causes),
        }
    }

    /// Whether it is a failed write to the output.
    fn is_unwritten(&self) -> bool
        ensures { result ≡ is_unwritten self.now }
    {
        match self {
            EarlyEnd::CutOff { .. } => true,
            EarlyEnd::Run(RunFault::WriteFault { .. }, ..) => true,
            EarlyEnd::Halted(RunFault::WriteFault { .. }) => true,
            _ => false,
        }
    }

    /// Whether it is one that failed since nobody reads the output any more, of which nothing is told.
    fn is_quiet(&self, causes: Causes) -> bool
        ensures { result ≡ is_quiet causes self.now }
    {
        self.is_unwritten() && causes.is_unread()
    }

    /// Writes the text of `clap`, or else a line in this form, where this is why a read of standard input or a write
    /// failed, if one did; nothing where nobody reads the output any more. What can't be written is left.
    fn tell<N: Sink>(&self, alloc: Global, form: LineForm, causes: Causes, notes: &mut N)
        ensures { Complains form causes (Err self.now) (writer_of N.Sink notes.old) (writer_of N.Sink notes.new) }
    {
        if self.is_quiet(causes) {
            return;
        }
        if let EarlyEnd::Usage(text) = self {
            note(notes, text.as_bytes());
            return;
        }
        let text = self.text(causes);
        let behind = self.behind();
        match fault_object(alloc, form, None, text.bytes(), behind, self.status()) {
            Some(line) => note(notes, line.as_slice()),
            None => note_plain(notes, text, behind),
        }
    }
}

/// Notes this text. What can't be written is left.
pub fn note<N: Sink>(notes: &mut N, text: &[u8])
    ensures { IsNoted text.now (writer_of N.Sink notes.old) (writer_of N.Sink notes.new) }
{
    push_all(notes, text);
}

/// The same of two texts, one behind the other.
fn note_both<N: Sink>(notes: &mut N, text: &[u8], behind: &[u8])
    ensures { IsNoted (text.now ++ behind.now) (writer_of N.Sink notes.old) (writer_of N.Sink notes.new) }
{
    if push_all(notes, text) == text.len() {
        push_all(notes, behind);
    }
}

/// Notes what is told of a good end in this form: an object, or a line behind the program's name.
fn note_end<N: Sink>(alloc: Global, form: LineForm, told: &[u8], notes: &mut N)
    ensures { (line : List ℕ) × IsEndLine form told.now line × IsNoted line (writer_of N.Sink notes.old) (writer_of N.Sink notes.new) }
{
    match hint_object(alloc, form, None, told) {
        Some(line) => note(notes, line.as_slice()),
        None => note_both(notes, NAME.as_bytes(), told),
    }
}

/// Notes a fault's text behind the program's name, and a hint behind that.
fn note_plain<N: Sink>(notes: &mut N, text: Line, behind: &[u8])
    requires short { length text ≤ 200 }
    ensures { IsNoted ((codes "fbcheck: " ++ text) ++ behind.now) (writer_of N.Sink notes.old) (writer_of N.Sink notes.new) }
{
    let mut line = text;
    line.put_text(NAME);
    note_both(notes, line.bytes(), behind);
}

/// Notes a summary of these numbers, where there are some, and answers how the program ends with that.
pub fn sum_up<N: Sink>(
    outcome: Result<Ending, EarlyEnd>,
    sums: &Option<Sums>,
    notes: &mut N,
) -> Result<Ending, EarlyEnd>
    requires places { IfSome sums.now (λ sums. length sums.tally.reasons ≡ reason_count) }
    ensures { SumsUp sums.now (writer_of N.Sink notes.old) (writer_of N.Sink notes.new) outcome result }
{
    let Some(told) = sums else {
        return outcome;
    };
    let line = summary(told.form, &told.tally);
    let text = line.bytes();
    let written = push_all(notes, text);
    if written == text.len() {
        return outcome;
    }
    match outcome {
        Ok(Ending::Checked(..) | Ending::Passed(..)) => Err(EarlyEnd::Unsummed { written }),
        _ => outcome,
    }
}

/// Tells on standard error, in this form, why the program came to rest, if it did, or what there is to be told of its
/// end. This is why a read of standard input or a write failed, if one did.
pub fn tell<N: Sink>(
    alloc: Global,
    form: LineForm,
    outcome: &Result<Ending, EarlyEnd>,
    causes: Causes,
    notes: &mut N,
)
    ensures { Complains form causes outcome.now (writer_of N.Sink notes.old) (writer_of N.Sink notes.new) }
{
    match outcome {
        Ok(ending) => ending.tell(alloc, form, notes),
        Err(stop) => stop.tell(alloc, form, causes, notes),
    }
}

/// The program's exit status: 0 where every buffer had a yes or help was written, 1 where a buffer had a no, 2 where
/// the words, the schema file, the root, the path or the schema's own identifier are wrong, and 3 for every other
/// fault.
pub fn exit_status(outcome: &Result<Ending, EarlyEnd>) -> u8
    ensures { result ≡ exit_status outcome.now }
{
    match outcome {
        Ok(Ending::Helped) => 0,
        Ok(Ending::Checked(tally, _)) => status(&Ok(*tally)),
        Ok(Ending::Passed(course, _)) => course.status,
        Err(stop) => stop.status(),
    }
}
