//! Files as inputs, one behind another.

ghost use Rattle.std.specs.Prelude.{Err, IfOk, IfSome, OnErr, OnOk, true, false, ◌≡◌, ◌≢◌, ◌⊎◌, ◌+◌, ◌<◌, ◌≤◌, ◌^◌, length, map, option_map, string_bytes, vec_items};
ghost use Rattle.fb_rules.specs.Reasons.{reason_count};
ghost use Rattle.fb_run.specs.{Ends.all_outs, Ends.writer_of, Job.Serves, Job.job_of, Leave.HasLeave, Leave.all_ends, Prompt.IsPrompt};
ghost use Rattle.fbcheck_texts.specs.Hints.{IsHint};
ghost use Rattle.fbcheck_serve.specs.Inputs.{ComesOf, IsBehind, IsBehindEnd, IsBehindRun, IsFaultLine, IsHintLine, IsStopOf, IsPromptAmong, MayRead, MayReadEach, ServesEach, TellsFault};
ghost use Rattle.fbcheck_serve.specs.Inputs.{Tries, at_first, course_with, fault_line, no_course, folder_of, is_final, all_seen, label_of, stand, standard_after, sum_of, sums, are_named};
ghost use Rattle.fbcheck_serve.specs.Names.{is_standard};
ghost use Rattle.fbcheck_serve.specs.declared.inputs.Standard.TheVariants.{Unread, Spent};

use crate::files::Files;
use crate::names::{Misnomer, Name};
use crate::stop::note;
use fb_bytes::Sink;
use fb_run::{
    Input, LineForm, MOST_TURNS, Options, Ran, RunFault, Tally, push_all, put_bytes, run_keeping,
    status,
};
use fb_schema::Schema;
use fb_verify::REASONS;
use fbcheck_texts::causes::{Causes, Explains, reason};
use fbcheck_texts::fault::FileFault;
use fbcheck_texts::fault_json::{fault_object, hint_object};
use fbcheck_texts::framing::{By, Framing, end_hint, run_hint};
use fbcheck_texts::texts::{run_text, stopped_text};
use std::alloc::{AllocError, Global};
use std::io::ErrorKind;

/// The exit status where a file isn't checked to its end.
const UNCHECKED: u8 = 3;

/// Whether standard input was among the files.
#[derive(Clone, Copy)]
pub enum Standard {
    /// It wasn't.
    Unread,
    /// It was, and isn't read again.
    Spent,
}

/// Why there is no run over a file.
#[derive(Clone, Copy)]
pub enum Missed {
    /// It can't be opened.
    File(FileFault),
    /// It is standard input, which was among the files before.
    Again,
    /// Its name is that of no file.
    Name(Misnomer),
}

/// What one file came to, and why a read of it failed, where one did.
#[derive(Clone, Copy)]
struct Came {
    what: Result<Ran, Missed>,
    cause: Option<ErrorKind>,
}

/// What files came to.
#[derive(Clone, Copy)]
pub struct Course {
    /// The sums of their numbers.
    pub tally: Tally,
    /// The greatest of their statuses.
    pub status: u8,
    /// Whether standard input was among them.
    pub standard: Standard,
}

/// What the files of a call came to, and how that ended.
#[derive(Clone, Copy)]
pub struct Passed {
    /// What they came to.
    pub course: Course,
    /// Whether all were gone through, or what ended it.
    pub end: Result<(), RunFault>,
}

impl Passed {
    /// None of the files was begun, for this fault.
    pub fn none(fault: RunFault) -> Passed
        ensures course { result.course ≡ no_course }
        ensures end { result.end ≡ Err fault }
    {
        Passed {
            course: Course::new(),
            end: Err(fault),
        }
    }
}

/// Checks the buffers of files, one behind another, and writes what is told of each, as
/// [`run_keeping`](fb_run::run_keeping) does. Where they are several, or the options have a label, each line begins with
/// the name of its file. `-` is standard input, which the reader is, and is read once.
///
/// A file that can't be read to its end is told with its name on the notes, and the next one is gone on with.
///
/// # Ends
///
/// It ends well behind the last file, or for one of these: `WriteFault`, `NoteFault` and `RejectFault` where a write, a note
/// or a reject failed, and `OutOfMemory` where memory was refused.
pub fn pass_files<F: Files<K, N>, S: Input<K, N> + Explains, K: Sink, N: Sink, R: Sink>(
    alloc: Global,
    files: &F,
    names: &[Name],
    schema: &Schema<'_>,
    options: &mut Options,
    reader: &mut S,
    writer: &mut K,
    notes: &mut N,
    rejects: &mut R,
) -> Passed
    requires serves { Serves schema.now options.old }
    requires few { S.calls reader.old < 2 ^ 64 }
    requires leave { HasLeave S.Input (all_ends S.Input K.Sink N.Sink R.Sink reader.old writer.old notes.old rejects.old)
        (IsPromptAmong (folder_of F.Files F.Opened.Input F.Opened.Explains files.now) (job_of schema.now options.old) names.now) }
    requires files { MayReadEach (folder_of F.Files F.Opened.Input F.Opened.Explains files.now) (job_of schema.now options.old) names.now
        (all_ends S.Input K.Sink N.Sink R.Sink reader.old writer.old notes.old rejects.old) }

    ensures serves { ServesEach (folder_of F.Files F.Opened.Input F.Opened.Explains files.now) (job_of schema.now options.old) names.now
        (at_first (all_seen S.Input S.Explains K.Sink N.Sink R.Sink reader.old writer.old notes.old rejects.old))
        (stand (all_seen S.Input S.Explains K.Sink N.Sink R.Sink reader.new writer.new notes.new rejects.new) result.course) result.end }
    ensures places { length result.course.tally.reasons ≡ reason_count }
    ensures turns { S.calls reader.new ≤ S.calls reader.old + MOST_TURNS }
{
    let named = are_named(options, names);
    let mut course = Course::new();
    for name in names {
        let Ok(label) = label(alloc, named, name.bytes()) else {
            return Passed {
                course,
                end: Err(RunFault::OutOfMemory),
            };
        };
        options.label = label;
        let passed = pass_file(
            alloc,
            files,
            name,
            schema,
            options,
            &mut course,
            reader,
            writer,
            notes,
            rejects,
        );
        if let Err(fault) = passed {
            return Passed {
                course,
                end: Err(fault),
            };
        }
    }
    Passed {
        course,
        end: Ok(()),
    }
}

/// Whether lines tell of which file they are: where there are several, or lines of standard input do by themselves.
pub fn are_named(options: &Options, names: &[Name]) -> bool
    ensures { result ≡ are_named (option_map vec_items options.now.label) names.now }
{
    options.label.is_some() || names.len() > 1
}

/// The name that each line begins with, where lines tell it.
pub fn label(alloc: Global, named: bool, name: &[u8]) -> Result<Option<Vec<u8>>, AllocError>
    ensures { IfOk result (λ label. option_map vec_items label ≡ label_of named name.now) }
{
    if !named {
        return Ok(None);
    }
    let mut label = Vec::new(alloc);
    label.extend_from_slice(name)?;
    Ok(Some(label))
}

/// Goes through one file.
fn pass_file<F: Files<K, N>, S: Input<K, N> + Explains, K: Sink, N: Sink, R: Sink>(
    alloc: Global,
    files: &F,
    name: &Name,
    schema: &Schema<'_>,
    options: &Options,
    course: &mut Course,
    reader: &mut S,
    writer: &mut K,
    notes: &mut N,
    rejects: &mut R,
) -> Result<(), RunFault>
    requires serves { Serves schema.now options.now }
    requires places { length course.old.tally.reasons ≡ reason_count }
    requires reads { course.old.standard ≡ Unread → S.calls reader.old < 2 ^ 64 }
    requires leave { is_standard name.now ≡ true → course.old.standard ≡ Unread
        → HasLeave S.Input (all_ends S.Input K.Sink N.Sink R.Sink reader.old writer.old notes.old rejects.old) (IsPrompt (job_of schema.now options.now)) }
    requires files { is_standard name.now ≡ false
        → MayRead (folder_of F.Files F.Opened.Input F.Opened.Explains files.now) (job_of schema.now options.now) name.now (all_outs K.Sink N.Sink R.Sink writer.old notes.old rejects.old) }

    ensures tries { Tries (folder_of F.Files F.Opened.Input F.Opened.Explains files.now) (job_of schema.now options.now) name.now
        (stand (all_seen S.Input S.Explains K.Sink N.Sink R.Sink reader.old writer.old notes.old rejects.old) course.old)
        (stand (all_seen S.Input S.Explains K.Sink N.Sink R.Sink reader.new writer.new notes.new rejects.new) course.new) result }
    ensures turns { S.calls reader.new ≤ S.calls reader.old + MOST_TURNS }
    ensures places { length course.new.tally.reasons ≡ reason_count }
    ensures spent { course.old.standard ≡ Spent → (course.new.standard ≡ Spent) × (reader.new ≡ reader.old) }
    ensures unread { course.new.standard ≡ Unread → (course.old.standard ≡ Unread) × (reader.new ≡ reader.old) }
{
    let standard = course.standard;
    let came = run_file(
        alloc, files, name, schema, options, standard, reader, writer, notes, rejects,
    );
    *course = course.with(name, &came.what);
    let framing = Framing::of(options.terms.bare, options.terms.prefix);
    tell_behind(
        alloc,
        options.terms.form,
        name.bytes(),
        framing,
        options.terms.most_bad,
        &came,
        notes,
    )
}

/// Runs over one file, where it can be read.
fn run_file<F: Files<K, N>, S: Input<K, N> + Explains, K: Sink, N: Sink, R: Sink>(
    alloc: Global,
    files: &F,
    name: &Name,
    schema: &Schema<'_>,
    options: &Options,
    standard: Standard,
    reader: &mut S,
    writer: &mut K,
    notes: &mut N,
    rejects: &mut R,
) -> Came
    requires serves { Serves schema.now options.now }
    requires reads { standard ≡ Unread → S.calls reader.old < 2 ^ 64 }
    requires leave { is_standard name.now ≡ true → standard ≡ Unread
        → HasLeave S.Input (all_ends S.Input K.Sink N.Sink R.Sink reader.old writer.old notes.old rejects.old) (IsPrompt (job_of schema.now options.now)) }
    requires files { is_standard name.now ≡ false
        → MayRead (folder_of F.Files F.Opened.Input F.Opened.Explains files.now) (job_of schema.now options.now) name.now (all_outs K.Sink N.Sink R.Sink writer.old notes.old rejects.old) }

    ensures comes { ComesOf (folder_of F.Files F.Opened.Input F.Opened.Explains files.now) (job_of schema.now options.now) name.now standard
        (all_seen S.Input S.Explains K.Sink N.Sink R.Sink reader.old writer.old notes.old rejects.old)
        (all_seen S.Input S.Explains K.Sink N.Sink R.Sink reader.new writer.new notes.new rejects.new) result.what result.cause }
    ensures turns { S.calls reader.new ≤ S.calls reader.old + MOST_TURNS }
    ensures places { IfOk result.what (λ ran. length ran.tally.reasons ≡ reason_count) }
    ensures apart { is_standard name.now ≡ false → reader.new ≡ reader.old }
    ensures spent { standard ≡ Spent → reader.new ≡ reader.old }
{
    if name.is_standard() {
        return match standard {
            Standard::Unread => {
                let ran = run_keeping(
                    alloc, reader, writer, notes, rejects, schema, options, MOST_TURNS,
                );
                Came::by(ran, reader)
            }
            Standard::Spent => Came::missed(Missed::Again),
        };
    }
    let text = match name.text() {
        Ok(text) => text,
        Err(why) => return Came::missed(Missed::Name(why)),
    };
    match files.open(text) {
        Ok(mut file) => {
            let ran = run_keeping(
                alloc, &mut file, writer, notes, rejects, schema, options, MOST_TURNS,
            );
            Came::by(ran, &file)
        }
        Err(fault) => Came::missed(Missed::File(fault)),
    }
}

impl Came {
    /// What this run over a reader came to.
    fn by<S: Explains>(ran: Ran, reader: &S) -> Came
        ensures what { result.what ≡ Ok ran }
        ensures cause { result.cause ≡ S.cause reader.now }
    {
        Came {
            what: Ok(ran),
            cause: reader.cause(),
        }
    }

    /// No run.
    fn missed(missed: Missed) -> Came
        ensures { result.what ≡ Err missed }
    {
        Came {
            what: Err(missed),
            cause: None,
        }
    }
}

impl Course {
    /// That of no files.
    fn new() -> Course
        ensures { result ≡ no_course }
    {
        Course {
            tally: Tally::new(),
            status: 0,
            standard: Standard::Unread,
        }
    }

    /// With what this file came to.
    fn with(self, name: &Name, came: &Result<Ran, Missed>) -> Course
        requires places { length self.tally.reasons ≡ reason_count }
        requires more { IfOk came.now (λ ran. length ran.tally.reasons ≡ reason_count) }
        ensures course { result ≡ course_with name.now came.now self }
        ensures unread { result.standard ≡ Unread → (is_standard name.now ≡ false) × (self.standard ≡ Unread) }
        ensures spent { self.standard ≡ Spent → result.standard ≡ Spent }
        ensures places { length result.tally.reasons ≡ reason_count }
    {
        let standard = standard_after(name, self.standard);
        match came {
            Ok(ran) => Course {
                tally: sum_of(&self.tally, &ran.tally),
                status: self.status.max(status(&ran.answer())),
                standard,
            },
            Err(_) => Course {
                tally: self.tally,
                status: self.status.max(UNCHECKED),
                standard,
            },
        }
    }
}

/// Standard input once this file was gone through.
fn standard_after(name: &Name, standard: Standard) -> Standard
    ensures after { result ≡ standard_after (is_standard name.now) standard }
    ensures unread { result ≡ Unread → (is_standard name.now ≡ false) × (standard ≡ Unread) }
    ensures spent { standard ≡ Spent → result ≡ Spent }
{
    if name.is_standard() {
        Standard::Spent
    } else {
        standard
    }
}

/// What two inputs come to. A sum that is too great is told as the most that can be.
fn sum_of(some: &Tally, more: &Tally) -> Tally
    requires some { length some.now.reasons ≡ reason_count }
    requires more { length more.now.reasons ≡ reason_count }
    ensures sum { result ≡ sum_of some.now more.now }
    ensures places { length result.reasons ≡ reason_count }
{
    Tally {
        yes: some.yes.saturating_add(more.yes),
        no: some.no.saturating_add(more.no),
        reasons: sums(&some.reasons, &more.reasons),
        bytes: some.bytes.saturating_add(more.bytes),
        tables: some.tables.saturating_add(more.tables),
        reads: some.reads.saturating_add(more.reads),
    }
}

/// The sums of how often each reason was given.
fn sums(some: &[u64; REASONS], more: &[u64; REASONS]) -> [u64; REASONS]
    requires some { length some.now ≡ reason_count }
    requires more { length more.now ≡ reason_count }
    ensures sums { result ≡ sums some.now more.now }
    ensures places { length result ≡ reason_count }
{
    let mut counts = *some;
    for place in 0..REASONS {
        counts[place] = counts[place].saturating_add(more[place]);
    }
    counts
}

/// Notes why a file wasn't checked to its end, where it wasn't; what ends it all is answered.
fn tell_behind<N: Sink>(
    alloc: Global,
    form: LineForm,
    name: &[u8],
    framing: Framing,
    most_bad: u64,
    came: &Came,
    notes: &mut N,
) -> Result<(), RunFault>
    ensures { IsBehind form most_bad name.now came.now.what came.now.cause (writer_of N.Sink notes.old) (writer_of N.Sink notes.new) result }
{
    match &came.what {
        Ok(ran) => tell_run(alloc, form, name, framing, most_bad, ran, came.cause, notes),
        Err(Missed::File(FileFault::OutOfMemory)) => Err(RunFault::OutOfMemory),
        Err(Missed::File(FileFault::Unreadable(cause))) => {
            tell_fault(alloc, form, name, reason(*cause).as_bytes(), b"\n", notes)
        }
        Err(Missed::Name(wrong)) => {
            tell_fault(alloc, form, name, wrong.why().as_bytes(), b"\n", notes)
        }
        Err(Missed::Again) => {
            let why = b"standard input was read before";
            tell_fault(alloc, form, name, why, b"\n", notes)
        }
    }
}

/// The same behind a run; or what there is to be told of its end.
fn tell_run<N: Sink>(
    alloc: Global,
    form: LineForm,
    name: &[u8],
    framing: Framing,
    most_bad: u64,
    ran: &Ran,
    cause: Option<ErrorKind>,
    notes: &mut N,
) -> Result<(), RunFault>
    ensures { IsBehindRun form most_bad name.now ran.now cause (writer_of N.Sink notes.old) (writer_of N.Sink notes.new) result }
{
    let Err(fault) = &ran.end else {
        tell_stop(alloc, form, name, most_bad, &ran.tally, notes)?;
        let hint = end_hint(By::Named, framing, &ran.tally);
        return tell_end(alloc, form, name, hint, notes);
    };
    if is_final(fault) {
        return Err(*fault);
    }
    let behind = run_hint(framing, fault, &ran.tally);
    let why = run_text(fault, Causes::of_read(cause));
    tell_fault(alloc, form, name, why.bytes(), behind, notes)
}

/// Notes that a file's run ended behind as many bad messages as there may be, where it did. What can't be written is
/// left.
fn tell_stop<N: Sink>(
    alloc: Global,
    form: LineForm,
    name: &[u8],
    most_bad: u64,
    tally: &Tally,
    notes: &mut N,
) -> Result<(), AllocError>
    ensures told { OnOk result (IsStopOf form most_bad name.now tally.now (writer_of N.Sink notes.old) (writer_of N.Sink notes.new)) }
    ensures refused { OnErr result (notes.new ≡ notes.old) }
{
    if tally.no < most_bad {
        return Ok(());
    }
    let why = stopped_text(most_bad);
    let line = hint_line(alloc, form, name, why.bytes())?;
    note(notes, line.as_slice());
    Ok(())
}

/// Notes what is told of an end, where there is something. What can't be written is left.
fn tell_end<N: Sink>(
    alloc: Global,
    form: LineForm,
    name: &[u8],
    hint: Option<&[u8]>,
    notes: &mut N,
) -> Result<(), RunFault>
    requires line { IfSome hint (λ h. IsHint h.now) }
    ensures { IsBehindEnd form name.now (writer_of N.Sink notes.old) (writer_of N.Sink notes.new) result }
{
    let Some(hint) = hint else {
        return Ok(());
    };
    let line = hint_line(alloc, form, name, hint)?;
    note(notes, line.as_slice());
    Ok(())
}

/// Whether a fault ends it all: a failed write, note or reject, or want of memory.
fn is_final(fault: &RunFault) -> bool
    ensures { result ≡ is_final fault.now }
{
    match fault {
        RunFault::WriteFault { .. } | RunFault::NoteFault { .. } => true,
        RunFault::RejectFault { .. } | RunFault::OutOfMemory => true,
        _ => false,
    }
}

/// Notes why a file wasn't checked to its end, with what stands behind that.
fn tell_fault<N: Sink>(
    alloc: Global,
    form: LineForm,
    name: &[u8],
    why: &[u8],
    behind: &[u8],
    notes: &mut N,
) -> Result<(), RunFault>
    ensures { TellsFault form name.now why.now behind.now (writer_of N.Sink notes.old) (writer_of N.Sink notes.new) result }
{
    let line = told_line(alloc, form, name, why, behind)?;
    let written = push_all(notes, line.as_slice());
    if written < line.len() {
        return Err(RunFault::NoteFault {
            written: written as u128,
        });
    }
    Ok(())
}

/// The line that tells it, by the form of lines. Where there is no memory for an object, it is the plain one.
fn told_line(
    alloc: Global,
    form: LineForm,
    name: &[u8],
    why: &[u8],
    behind: &[u8],
) -> Result<Vec<u8>, AllocError>
    ensures { IfOk result (λ line. IsFaultLine form name.now why.now behind.now line.items) }
{
    match fault_object(alloc, form, Some(name), why, behind, UNCHECKED) {
        Some(line) => Ok(line),
        None => fault_line(alloc, name, why, behind),
    }
}

/// The same of a hint.
fn hint_line(alloc: Global, form: LineForm, name: &[u8], hint: &[u8]) -> Result<Vec<u8>, AllocError>
    ensures { IfOk result (λ line. IsHintLine form name.now hint.now line.items) }
{
    match hint_object(alloc, form, Some(name), hint) {
        Some(line) => Ok(line),
        None => fault_line(alloc, name, hint, b""),
    }
}

/// The plain line.
fn fault_line(alloc: Global, name: &[u8], why: &[u8], behind: &[u8]) -> Result<Vec<u8>, AllocError>
    ensures { IfOk result (λ line. line.items ≡ fault_line name.now why.now behind.now) }
{
    let mut line = Vec::new(alloc);
    line.extend_from_slice(b"fbcheck: ")?;
    put_bytes(&mut line, name)?;
    line.extend_from_slice(b": ")?;
    line.extend_from_slice(why)?;
    line.extend_from_slice(behind)?;
    Ok(line)
}
