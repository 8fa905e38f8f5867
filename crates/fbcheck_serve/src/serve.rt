//! What the program does, from its words to its exit status.

ghost use Rattle.std.specs.Prelude.{IfErr, IfOk, Some, true, false, ◌≡◌, ◌+◌, ◌<◌, ◌≤◌, ◌^◌, ℕ, string_len};
ghost use Rattle.fb_run.specs.{Ends.Reader, Ends.Writer, Ends.beside, Ends.nowhere, Ends.writer_of, Leave.HasLeave, Leave.ends_of};
ghost use Rattle.fbcheck_serve.specs.{Inputs.folder_of, Inputs.seen_of, Keeping.maker_of, Lists.AreNamed, Serving.IsAlone, Serving.IsNameless, Serving.ComesTo, Serving.EndsFiles};
ghost use Rattle.fbcheck_serve.specs.Serving.{EndsRun, EndsSo, IsPromptAsGiven, IsServed, MayReadAsGiven, Rests, TellsAsGiven, Unserved, summed, words_of};

use crate::asked::{by, manner};
use crate::check::{Kept, Unbegun, check_files, check_keeping};
use crate::files::{Files, Makes, read_list, read_schema};
use crate::inputs::Passed;
use crate::names::{Name, listed_names, word_names};
use crate::stop::{EarlyEnd, Ending, Sums, exit_status, sum_up, tell};
use clap::Error;
use fb_bytes::Sink;
use fb_run::{Input, LineForm, MOST_TURNS, Ran, RunFault, Tally, push_all};
use fbcheck_texts::causes::{Causes, Explains};
use fbcheck_texts::choices::{Settings, SettingsFault};
use fbcheck_texts::fault::WordsFault;
use fbcheck_texts::hint::{file_hint, words_hint};
use fbcheck_texts::words::settings;
use std::alloc::{AllocError, Global};

/// Does what the words ask, the program's name first, and answers the exit status: reads the schema file that they
/// name, checks the buffers of the reader by it, and tells of them as [`check_beside`](crate::check::check_beside)
/// does; or writes help, where it is asked for. Behind what they have the notes get a line of what was counted, where
/// the words ask for it, and then why it came to rest before the end.
pub fn serve<F: Files<K, N> + Makes, S: Input<K, N> + Explains, K: Sink + Explains, N: Sink>(
    alloc: Global,
    words: Result<Vec<String>, WordsFault>,
    files: &F,
    reader: &mut S,
    writer: &mut K,
    notes: &mut N,
) -> u8
    requires few { S.calls reader.old < 2 ^ 64 }
    requires leave { HasLeave S.Input (ends_of S.Input K.Sink N.Sink reader.old writer.old notes.old)
        (IsPromptAsGiven (folder_of F.Files F.Opened.Input F.Opened.Explains files.now) (words_of words)) }
    requires files { MayReadAsGiven (folder_of F.Files F.Opened.Input F.Opened.Explains files.now) (words_of words) (ends_of S.Input K.Sink N.Sink reader.old writer.old notes.old) }

    ensures served { IsServed (maker_of F.Makes F.Made.Sink files.now) (folder_of F.Files F.Opened.Input F.Opened.Explains files.now)
        (words_of words) (seen_of S.Input S.Explains K.Sink N.Sink reader.old writer.old notes.old)
        (seen_of S.Input S.Explains K.Sink N.Sink reader.new writer.new notes.new) (K.Explains.cause writer.new) MOST_TURNS result }
    ensures turns { S.calls reader.new ≤ S.calls reader.old + MOST_TURNS }
{
    let mut sums = None;
    let mut form = LineForm::Plain;
    let outcome = come_to(
        alloc, words, files, reader, writer, notes, &mut sums, &mut form,
    );
    let ending = sum_up(outcome, &sums, notes);
    let causes = Causes {
        read: reader.cause(),
        write: writer.cause(),
    };
    tell(alloc, form, &ending, causes, notes);
    exit_status(&ending)
}

/// What the program comes to, the numbers of the run, where these are to be told, and the form in which faults are.
fn come_to<F: Files<K, N> + Makes, S: Input<K, N> + Explains, K: Sink, N: Sink>(
    alloc: Global,
    words: Result<Vec<String>, WordsFault>,
    files: &F,
    reader: &mut S,
    writer: &mut K,
    notes: &mut N,
    sums: &mut Option<Sums>,
    told: &mut LineForm,
) -> Result<Ending, EarlyEnd>
    requires few { S.calls reader.old < 2 ^ 64 }
    requires leave { HasLeave S.Input (ends_of S.Input K.Sink N.Sink reader.old writer.old notes.old)
        (IsPromptAsGiven (folder_of F.Files F.Opened.Input F.Opened.Explains files.now) (words_of words)) }
    requires files { MayReadAsGiven (folder_of F.Files F.Opened.Input F.Opened.Explains files.now) (words_of words) (ends_of S.Input K.Sink N.Sink reader.old writer.old notes.old) }

    ensures form { TellsAsGiven (words_of words) result told.new }
    ensures comes { ComesTo (maker_of F.Makes F.Made.Sink files.now) (folder_of F.Files F.Opened.Input F.Opened.Explains files.now)
        (words_of words) (seen_of S.Input S.Explains K.Sink N.Sink reader.old writer.old notes.old)
        (seen_of S.Input S.Explains K.Sink N.Sink reader.new writer.new notes.new) sums.new result
        × Rests (ends_of S.Input K.Sink N.Sink reader.old writer.old notes.old) (ends_of S.Input K.Sink N.Sink reader.new writer.new notes.new) sums.new result }
{
    *sums = None;
    *told = LineForm::Plain;
    let words = match words {
        Ok(words) => words,
        Err(fault) => {
            let hint = words_hint(alloc, &fault)?;
            return Err(EarlyEnd::Words(fault, hint));
        }
    };
    let settings = match settings(alloc, words.as_slice()) {
        Ok(settings) => settings,
        Err(fault) => return without_settings(alloc, fault, writer),
    };
    *told = settings.terms.form;
    let file = match read_schema(files, &settings.schema) {
        Ok(file) => file,
        Err(fault) => {
            let hint = file_hint(alloc, fault, &settings.schema)?;
            return Err(EarlyEnd::File(fault, hint));
        }
    };
    let bytes = file.as_deref();
    if is_alone(&settings) {
        let ran = check_keeping(alloc, files, bytes, &settings, reader, writer, notes);
        return run_ending(&settings, ran, sums);
    }
    let names = names_of(alloc, files, &settings)?;
    let passed = check_files(
        alloc,
        files,
        bytes,
        &settings,
        names.as_slice(),
        reader,
        writer,
        notes,
    );
    files_ending(&settings, passed, sums)
}

/// Whether the settings name no files, and no list of names: so standard input is all.
fn is_alone(settings: &Settings) -> bool
    ensures alone { result ≡ true → IsAlone settings.now }
    ensures others { result ≡ false → IsAlone settings.now → ⊥ }
{
    match &settings.names_file {
        Some(_) => false,
        None => settings.files.as_slice().is_empty(),
    }
}

/// The names of the files that the settings ask for: those in the list that they name, or else their own.
fn names_of<F: Files<K, N>, K: Sink, N: Sink>(
    alloc: Global,
    files: &F,
    settings: &Settings,
) -> Result<Vec<Name>, EarlyEnd>
    requires some { IsAlone settings.now → ⊥ }
    ensures names { IfOk result (λ names. AreNamed (F.gives files.now) settings.now (Some names.items)) }
    ensures none { IfErr result (IsNameless (F.gives files.now) settings.now) }
{
    let Some(list) = &settings.names_file else {
        return Ok(word_names(alloc, settings.files.as_slice())?);
    };
    match read_list(files, list.as_str()) {
        Ok(bytes) => Ok(listed_names(alloc, bytes.as_slice())?),
        Err(fault) => {
            let hint = file_hint(alloc, fault, &settings.names_file)?;
            Err(EarlyEnd::List(fault, hint))
        }
    }
}

/// How the program ends by what a run over an input came to, and the numbers that are told then.
fn run_ending(
    settings: &Settings,
    ran: Result<Kept<Ran>, Unbegun>,
    sums: &mut Option<Sums>,
) -> Result<Ending, EarlyEnd>
    ensures { EndsRun settings.now ran sums.new result }
{
    *sums = None;
    let Kept { what: ran, cause } = match ran {
        Ok(kept) => kept,
        Err(unbegun) => return Err(EarlyEnd::from(unbegun)),
    };
    *sums = summed(settings, ran.tally);
    let manner = manner(settings);
    match ran.end {
        Ok(()) => Ok(Ending::Checked(ran.tally, manner)),
        Err(RunFault::RejectFault { written }) => Err(EarlyEnd::Unkept { written, cause }),
        Err(fault) => Err(EarlyEnd::Run(fault, ran.tally, manner)),
    }
}

/// The same by what files came to.
fn files_ending(
    settings: &Settings,
    passed: Result<Kept<Passed>, Unbegun>,
    sums: &mut Option<Sums>,
) -> Result<Ending, EarlyEnd>
    ensures { EndsFiles settings.now passed sums.new result }
{
    *sums = None;
    let Kept {
        what: passed,
        cause,
    } = match passed {
        Ok(kept) => kept,
        Err(unbegun) => return Err(EarlyEnd::from(unbegun)),
    };
    *sums = summed(settings, passed.course.tally);
    match passed.end {
        Ok(()) => Ok(Ending::Passed(passed.course, by(settings))),
        Err(RunFault::RejectFault { written }) => Err(EarlyEnd::Unkept { written, cause }),
        Err(fault) => Err(EarlyEnd::Halted(fault)),
    }
}

/// The numbers that are told where the settings ask for them, and how.
fn summed(settings: &Settings, tally: Tally) -> Option<Sums>
    ensures { result ≡ summed settings.now tally }
{
    if !settings.summary {
        return None;
    }
    Some(Sums {
        form: settings.terms.form,
        tally,
    })
}

/// The text of an error of `clap`. No contract says that there is one: the program's name stands for it where not.
fn text_of(alloc: Global, error: &Error) -> Result<String, AllocError>
    ensures { IfOk result (λ text. 0 < string_len text) }
{
    let text = format!(in alloc; "{error}")?;
    if text.is_empty() {
        return String::from_str(alloc, "fbcheck\n");
    }
    Ok(text)
}

/// What the program comes to where the words give no settings: help is written where they ask for it.
fn without_settings<K: Sink>(
    alloc: Global,
    fault: SettingsFault,
    writer: &mut K,
) -> Result<Ending, EarlyEnd>
    ensures { Unserved fault (writer_of K.Sink writer.old) (writer_of K.Sink writer.new) result
        × ((reader : Reader) (notes : Writer) (turns : ℕ) → EndsSo (beside reader (record { writer = writer_of K.Sink writer.old; notes = notes; rejects = nowhere }))
        (beside reader (record { writer = writer_of K.Sink writer.new; notes = notes; rejects = nowhere })) turns result) }
{
    let status = fault.status();
    let SettingsFault::Usage(error) = &fault else {
        return Err(EarlyEnd::Settings(fault));
    };
    let text = text_of(alloc, error)?;
    if status != 0 {
        return Err(EarlyEnd::Usage(text));
    }
    let written = push_all(writer, text.as_bytes());
    if written < text.len() {
        return Err(EarlyEnd::CutOff { written });
    }
    Ok(Ending::Helped)
}
