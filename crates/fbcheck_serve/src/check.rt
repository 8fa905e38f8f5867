//! A run by a schema file, as the settings of the command line ask.

ghost use Rattle.std.specs.Prelude.{Err, IfErr, IfOk, OnErr, [], length, ◌≡◌, ◌⊎◌, ◌+◌, ◌<◌, ◌≤◌, ◌^◌};
ghost use Rattle.fb_rules.specs.Reasons.{reason_count};
ghost use Rattle.fbcheck_texts.specs.Ranges.{AreInRange};
ghost use Rattle.fbcheck_serve.specs.{Checking.EndsChecked, Checking.IsChecked, Checking.IsCheckedBeside, Checking.IsPromptAmongAsked};
ghost use Rattle.fbcheck_serve.specs.Checking.{IsPromptAmongHeaded, IsPromptAsAsked, IsPromptHeaded, IsUnasked, MayReadHeaded, MayReadNamed};
ghost use Rattle.fbcheck_serve.specs.{Heads.RunsBehindHead, Heads.ServesBehindHead, Heads.head_of, Keeping.IsCheckedKeeping, Keeping.IsServedKeeping, Keeping.maker_of};
ghost use Rattle.fbcheck_serve.specs.{Inputs.all_seen, Inputs.folder_of, Inputs.seen_of, declared.check.Unbegun.TheVariants.Ask};
ghost use Rattle.fb_run.specs.{Faults.EndsBeside, Job.Serves, Job.job_of, Leave.HasLeave, Leave.all_ends, Leave.ends_of, Leave.noteless};
ghost use Rattle.fb_run.specs.declared.fault.RunFault.TheVariants.{TooManyTurns};

use crate::asked::{Asked, asked_of};
use crate::files::{Files, Makes};
use crate::head::{with_head, write_head};
use crate::inputs::{Passed, pass_files};
use crate::names::Name;
use fb_bytes::Sink;
use fb_run::{Input, MOST_TURNS, Nowhere, Ran, Tally, run_keeping};
use fbcheck_texts::causes::Explains;
use fbcheck_texts::choices::Settings;
use fbcheck_texts::fault::CheckFault;
use fbcheck_texts::hint::Unasked;
use std::alloc::Global;
use std::io::ErrorKind;

/// Checks the buffers of an input by the schema of a schema file (`.bfbs`), as the settings ask; without a file they
/// are checked as schema files themselves, by the fixed table.
///
/// The schema file is verified under the published limits and checks, and within 100,000,000 counted reads, and 64
/// for each byte and for 64 more, whatever the settings say; these are for the buffers. The root is the table of the
/// settings' name, or else that of the schema file, or `reflection.Schema` without one.
///
/// # Errors
///
/// `Load` where the schema file gives no schema, then `NoRoot` where there is no root table, then `Path` where the path
/// isn't one from there, then `NoIdent` where the schema's own identifier is asked for and has neither no bytes nor
/// four, then, where strict checks are asked for by a schema file and bytes aren't plain, `UnmarkedBytes` where it has
/// a field of bytes without a mark and doesn't show that it would mark it, and `NoSuchTable` where it marks one as a
/// nested buffer of no table; all before anything is read of the input, and `OutOfMemory` in place of any where memory
/// was refused. Each with what is told behind it. A run ends as [`run_beside`](fb_run::run_beside) says, with at most
/// 2^32 reads. Where rows are asked for, their head is written before anything is read, and `WriteFault` counts its bytes
/// too.
pub fn check_beside<S: Input<K, N>, K: Sink, N: Sink>(
    alloc: Global,
    schema_bytes: Option<&[u8]>,
    settings: &Settings,
    reader: &mut S,
    writer: &mut K,
    notes: &mut N,
) -> Result<Ran, Unasked>
    requires ranges { AreInRange settings.now }
    requires few { S.calls reader.old < 2 ^ 64 }
    requires leave { HasLeave S.Input (ends_of S.Input K.Sink N.Sink reader.old writer.old notes.old) (IsPromptAsAsked schema_bytes settings.now) }

    ensures run { IsCheckedBeside schema_bytes.entry settings.now (ends_of S.Input K.Sink N.Sink reader.old writer.old notes.old)
        (ends_of S.Input K.Sink N.Sink reader.new writer.new notes.new) result }
    ensures places { IfOk result (λ ran. length ran.tally.reasons ≡ reason_count) }
    ensures unread { OnErr result (reader.new ≡ reader.old) }
    ensures unwritten { OnErr result (writer.new ≡ writer.old) }
    ensures unnoted { OnErr result (notes.new ≡ notes.old) }
    ensures end { IfOk result (λ ran. EndsBeside (ends_of S.Input K.Sink N.Sink reader.old writer.old notes.old)
        (ends_of S.Input K.Sink N.Sink reader.new writer.new notes.new) MOST_TURNS ran.end) }
    ensures turns { S.calls reader.new ≤ S.calls reader.old + MOST_TURNS }
{
    let asked = asked_of(alloc, schema_bytes, settings, &[])?;
    let mut rejects = Nowhere::new();
    Ok(run_asked(alloc, &asked, reader, writer, notes, &mut rejects))
}

/// Runs over an input by what is asked, behind its head.
fn run_asked<S: Input<K, N>, K: Sink, N: Sink, R: Sink>(
    alloc: Global,
    asked: &Asked<'_>,
    reader: &mut S,
    writer: &mut K,
    notes: &mut N,
    rejects: &mut R,
) -> Ran
    requires serves { Serves asked.now.schema asked.now.options }
    requires few { S.calls reader.old < 2 ^ 64 }
    requires head { asked.now.head.items ≡ head_of (job_of asked.now.schema asked.now.options) [] }
    requires leave { HasLeave S.Input (all_ends S.Input K.Sink N.Sink R.Sink reader.old writer.old notes.old rejects.old) (IsPromptHeaded (job_of asked.now.schema asked.now.options)) }

    ensures run { RunsBehindHead (job_of asked.now.schema asked.now.options) (all_ends S.Input K.Sink N.Sink R.Sink reader.old writer.old notes.old rejects.old)
        (all_ends S.Input K.Sink N.Sink R.Sink reader.new writer.new notes.new rejects.new) result.tally result.end }
    ensures places { length result.tally.reasons ≡ reason_count }
    ensures end { EndsBeside (all_ends S.Input K.Sink N.Sink R.Sink reader.old writer.old notes.old rejects.old)
        (all_ends S.Input K.Sink N.Sink R.Sink reader.new writer.new notes.new rejects.new) MOST_TURNS result.end }
    ensures turns { S.calls reader.new ≤ S.calls reader.old + MOST_TURNS }
{
    let head = asked.head.as_slice();
    if let Err(fault) = write_head(writer, head) {
        return Ran::none(fault);
    }
    let ran = run_keeping(
        alloc,
        reader,
        writer,
        notes,
        rejects,
        &asked.schema,
        &asked.options,
        MOST_TURNS,
    );
    Ran {
        tally: ran.tally,
        end: with_head(head.len(), ran.end),
    }
}

/// What a call came to, and why a write of the rejects failed, where one did.
#[derive(Clone, Copy)]
pub struct Kept<T> {
    pub what: T,
    pub cause: Option<ErrorKind>,
}

/// Why a call isn't begun.
#[derive(Drop)]
pub enum Unbegun {
    /// There was nothing to check by.
    Ask(Unasked),
    /// The file for the rejects can't be made.
    Unmade(ErrorKind),
}

impl From<Unasked> for Unbegun {
    ghost from_gives = { λ unasked unbegun. unbegun ≡ Ask unasked };

    fn from(unasked: Unasked) -> Self {
        Self::Ask(unasked)
    }
}

/// The same where bad buffers go to a file, if the settings name one: it is made once it is known by what buffers are
/// checked, and before anything is read or written.
pub fn check_keeping<F: Makes, S: Input<K, N>, K: Sink, N: Sink>(
    alloc: Global,
    files: &F,
    schema_bytes: Option<&[u8]>,
    settings: &Settings,
    reader: &mut S,
    writer: &mut K,
    notes: &mut N,
) -> Result<Kept<Ran>, Unbegun>
    requires ranges { AreInRange settings.now }
    requires few { S.calls reader.old < 2 ^ 64 }
    requires leave { HasLeave S.Input (ends_of S.Input K.Sink N.Sink reader.old writer.old notes.old) (IsPromptAsAsked schema_bytes settings.now) }

    ensures run { IsCheckedKeeping (maker_of F.Makes F.Made.Sink files.now) schema_bytes.entry settings.now (ends_of S.Input K.Sink N.Sink reader.old writer.old notes.old)
        (ends_of S.Input K.Sink N.Sink reader.new writer.new notes.new) result }
    ensures places { IfOk result (λ kept. length kept.what.tally.reasons ≡ reason_count) }
    ensures unread { OnErr result (reader.new ≡ reader.old) }
    ensures unwritten { OnErr result (writer.new ≡ writer.old) }
    ensures unnoted { OnErr result (notes.new ≡ notes.old) }
    ensures turns { S.calls reader.new ≤ S.calls reader.old + MOST_TURNS }
{
    let asked = asked_of(alloc, schema_bytes, settings, &[])?;
    match &settings.rejects {
        None => {
            let mut rejects = Nowhere::new();
            let what = run_asked(alloc, &asked, reader, writer, notes, &mut rejects);
            Ok(Kept { what, cause: None })
        }
        Some(name) => {
            let mut rejects = match files.make(name.as_str()) {
                Ok(file) => file,
                Err(cause) => return Err(Unbegun::Unmade(cause)),
            };
            let what = run_asked(alloc, &asked, reader, writer, notes, &mut rejects);
            let cause = rejects.cause();
            Ok(Kept { what, cause })
        }
    }
}

/// The same of the files of these names, one behind another, as [`pass_files`] says.
pub fn check_files<F: Files<K, N> + Makes, S: Input<K, N> + Explains, K: Sink, N: Sink>(
    alloc: Global,
    files: &F,
    schema_bytes: Option<&[u8]>,
    settings: &Settings,
    names: &[Name],
    reader: &mut S,
    writer: &mut K,
    notes: &mut N,
) -> Result<Kept<Passed>, Unbegun>
    requires ranges { AreInRange settings.now }
    requires few { S.calls reader.old < 2 ^ 64 }
    requires leave { HasLeave S.Input (ends_of S.Input K.Sink N.Sink reader.old writer.old notes.old)
        (IsPromptAmongAsked (folder_of F.Files F.Opened.Input F.Opened.Explains files.now) schema_bytes settings.now names.now) }
    requires files { MayReadNamed (folder_of F.Files F.Opened.Input F.Opened.Explains files.now) schema_bytes settings.now names.now (ends_of S.Input K.Sink N.Sink reader.old writer.old notes.old) }

    ensures served { IsServedKeeping (maker_of F.Makes F.Made.Sink files.now) (folder_of F.Files F.Opened.Input F.Opened.Explains files.now) schema_bytes.entry settings.now names.now
        (seen_of S.Input S.Explains K.Sink N.Sink reader.old writer.old notes.old)
        (seen_of S.Input S.Explains K.Sink N.Sink reader.new writer.new notes.new) result }
    ensures places { IfOk result (λ kept. length kept.what.course.tally.reasons ≡ reason_count) }
    ensures unread { OnErr result (reader.new ≡ reader.old) }
    ensures unwritten { OnErr result (writer.new ≡ writer.old) }
    ensures unnoted { OnErr result (notes.new ≡ notes.old) }
    ensures turns { S.calls reader.new ≤ S.calls reader.old + MOST_TURNS }
{
    let mut asked = asked_of(alloc, schema_bytes, settings, names)?;
    match &settings.rejects {
        None => {
            let mut rejects = Nowhere::new();
            let what = pass_asked(
                alloc,
                files,
                names,
                &mut asked,
                reader,
                writer,
                notes,
                &mut rejects,
            );
            Ok(Kept { what, cause: None })
        }
        Some(name) => {
            let mut rejects = match files.make(name.as_str()) {
                Ok(file) => file,
                Err(cause) => return Err(Unbegun::Unmade(cause)),
            };
            let what = pass_asked(
                alloc,
                files,
                names,
                &mut asked,
                reader,
                writer,
                notes,
                &mut rejects,
            );
            let cause = rejects.cause();
            Ok(Kept { what, cause })
        }
    }
}

/// Goes through files by what is asked, behind its head.
fn pass_asked<F: Files<K, N>, S: Input<K, N> + Explains, K: Sink, N: Sink, R: Sink>(
    alloc: Global,
    files: &F,
    names: &[Name],
    asked: &mut Asked<'_>,
    reader: &mut S,
    writer: &mut K,
    notes: &mut N,
    rejects: &mut R,
) -> Passed
    requires serves { Serves asked.old.schema asked.old.options }
    requires few { S.calls reader.old < 2 ^ 64 }
    requires head { asked.old.head.items ≡ head_of (job_of asked.old.schema asked.old.options) names.now }
    requires leave { HasLeave S.Input (all_ends S.Input K.Sink N.Sink R.Sink reader.old writer.old notes.old rejects.old)
        (IsPromptAmongHeaded (folder_of F.Files F.Opened.Input F.Opened.Explains files.now) (job_of asked.old.schema asked.old.options) names.now) }
    requires files { MayReadHeaded (folder_of F.Files F.Opened.Input F.Opened.Explains files.now) (job_of asked.old.schema asked.old.options) names.now
        (all_ends S.Input K.Sink N.Sink R.Sink reader.old writer.old notes.old rejects.old) }

    ensures served { ServesBehindHead (folder_of F.Files F.Opened.Input F.Opened.Explains files.now) (job_of asked.old.schema asked.old.options) names.now
        (all_seen S.Input S.Explains K.Sink N.Sink R.Sink reader.old writer.old notes.old rejects.old)
        (all_seen S.Input S.Explains K.Sink N.Sink R.Sink reader.new writer.new notes.new rejects.new) result.course result.end }
    ensures places { length result.course.tally.reasons ≡ reason_count }
    ensures turns { S.calls reader.new ≤ S.calls reader.old + MOST_TURNS }
{
    if let Err(fault) = write_head(writer, asked.head.as_slice()) {
        return Passed::none(fault);
    }
    pass_files(
        alloc,
        files,
        names,
        &asked.schema,
        &mut asked.options,
        reader,
        writer,
        notes,
        rejects,
    )
}

/// The same without notes: what would be noted is dropped, and only where messages are filtered or rows are asked for is
/// anything noted.
pub fn check<S: Input<K, Nowhere>, K: Sink>(
    alloc: Global,
    schema_bytes: Option<&[u8]>,
    settings: &Settings,
    reader: &mut S,
    writer: &mut K,
) -> Result<Tally, CheckFault>
    requires ranges { AreInRange settings.now }
    requires few { S.calls reader.old < 2 ^ 64 }
    requires leave { HasLeave S.Input (noteless S.Input K.Sink reader.old writer.old) (IsPromptAsAsked schema_bytes settings.now) }

    ensures run { IsChecked schema_bytes.entry settings.now (noteless S.Input K.Sink reader.old writer.old) (noteless S.Input K.Sink reader.new writer.new) result }
    ensures unread { IfErr result (λ fault. IsUnasked fault → reader.new ≡ reader.old) }
    ensures unwritten { IfErr result (λ fault. IsUnasked fault → writer.new ≡ writer.old) }
    ensures end { EndsChecked (noteless S.Input K.Sink reader.old writer.old) (noteless S.Input K.Sink reader.new writer.new) MOST_TURNS result }
    ensures turns { S.calls reader.new ≤ S.calls reader.old + MOST_TURNS }
{
    let mut notes = Nowhere::new();
    match check_beside(alloc, schema_bytes, settings, reader, writer, &mut notes) {
        Ok(Ran { tally, end: Ok(()) }) => Ok(tally),
        Ok(
            Ran {
                end: Err(fault),
                ..
            },
        ) => Err(CheckFault::Run(fault)),
        Err(unasked) => Err(CheckFault::Ask(unasked.fault)),
    }
}
