//! The text of each fault, as it stands behind the program's name. It takes no memory.

ghost use Rattle.std.specs.Prelude.{◌≡◌, ◌≤◌, ◌++◌, codes, decimal, length};
ghost use Rattle.fb_run.specs.{FaultText.fault_text, Line.field_text, declared.fault.RunFault.TheVariants.WriteFault};
ghost use Rattle.fbcheck_texts.specs.Texts.{ask_text, cause_text, file_text, ill_text, list_text, load_text, path_text, rows_text, run_text, step_text, stopped_text, unkept_text};
ghost use Rattle.fbcheck_texts.specs.Texts.{unmade_text, unsummed_text, word_text, words_text};

use crate::causes::{Causes, known_reason};
use crate::fault::{AskFault, FileFault, WordsFault};
use fb_access::PathFault;
use fb_bfbs::{LoadFault, code_text};
use fb_run::{Line, RunFault};
use fb_schema::SchemaFault;
use fb_verify::Fault;
use std::io::ErrorKind;

/// Why a run came to rest, with the reason of a failed read or write, where it is known.
pub fn run_text(fault: &RunFault, causes: Causes) -> Line
    ensures text { result ≡ run_text causes fault.now }
    ensures short { length result ≤ 200 }
{
    match fault {
        RunFault::ReadFault => failed_read(causes.read),
        RunFault::WriteFault { written } => failed_write(*written, causes.write),
        _ => fault.text(),
    }
}

/// That a read failed, and why.
fn failed_read(cause: Option<ErrorKind>) -> Line
    ensures text { result ≡ codes "read failed" ++ cause_text cause }
    ensures short { length result ≤ 200 }
{
    let mut line = cause_text(cause);
    line.put_text("read failed");
    line
}

/// That a write failed after so many bytes, and why.
pub fn failed_write(written: u128, cause: Option<ErrorKind>) -> Line
    ensures text { result ≡ fault_text (WriteFault written) ++ cause_text cause }
    ensures short { length result ≤ 200 }
{
    let mut line = cause_text(cause);
    line.put_text(" bytes");
    line.put_wide(written);
    line.put_text("write failed after ");
    line
}

/// That a write of rejects failed after so many bytes, and why.
pub fn unkept_text(written: u128, cause: Option<ErrorKind>) -> Line
    ensures text { result ≡ unkept_text written cause }
    ensures short { length result ≤ 200 }
{
    let mut line = cause_text(cause);
    line.put_text(" bytes");
    line.put_wide(written);
    line.put_text("write of rejects failed after ");
    line
}

/// That the file for them can't be made, and why.
pub fn unmade_text(cause: ErrorKind) -> Line
    ensures text { result ≡ unmade_text cause }
    ensures short { length result ≤ 200 }
{
    let mut line = cause_text(Some(cause));
    line.put_text("cannot write rejects");
    line
}

/// Why it did, where that is known.
fn cause_text(cause: Option<ErrorKind>) -> Line
    ensures text { result ≡ cause_text cause }
    ensures short { length result ≤ 100 }
{
    let Some(cause) = cause else {
        return Line::new();
    };
    match known_reason(cause) {
        Some(reason) => behind(": ", reason),
        None => Line::new(),
    }
}

/// One text behind another.
fn behind(first: &str, text: &str) -> Line
    requires first { length first.now ≤ 40 }
    requires text { length text.now ≤ 60 }
    ensures text { result ≡ first.now ++ text.now }
    ensures short { length result ≤ 100 }
{
    let mut line = Line::of(text);
    line.put_text(first);
    line
}

/// A number behind a text.
fn numbered(first: &str, number: u64) -> Line
    requires { length first.now ≤ 40 }
    ensures text { result ≡ first.now ++ decimal number }
    ensures short { length result ≤ 60 }
{
    let mut line = Line::new();
    line.put_number(number);
    line.put_text(first);
    line
}

/// Why the summary isn't whole.
pub fn unsummed_text(written: usize) -> Line
    ensures text { result ≡ unsummed_text written }
    ensures short { length result ≤ 200 }
{
    let mut line = Line::of(" bytes of the summary");
    line.put_number(written as u64);
    line.put_text("write to standard error failed after ");
    line
}

/// The line that tells that an input ended behind so many bad messages, as many as there may be.
pub fn stopped_text(bad: u64) -> Line
    ensures text { result ≡ stopped_text bad }
    ensures short { length result ≤ 100 }
{
    let mut line = Line::of("\n");
    line.put_number(bad);
    line.put_text("stopped at bad message ");
    line
}

/// Why a text is no path.
#[tactic(auto, using(crate::proofs::TextLemmas::path_short))]
fn path_text(fault: &PathFault) -> Line
    ensures text { result ≡ path_text fault.now }
    ensures short { length result ≤ 100 }
{
    let mut line = step_text(fault);
    line.put_text(fault.text());
    line
}

/// Where it doesn't fit.
fn step_text(fault: &PathFault) -> Line
    ensures text { result ≡ step_text fault.now }
    ensures short { length result ≤ 60 }
{
    match fault {
        PathFault::BadText { at } => numbered(" at=", *at),
        PathFault::NoSuchField { step }
        | PathFault::NotIndexable { step }
        | PathFault::NotAUnion { step }
        | PathFault::NoSuchMember { step }
        | PathFault::NotATable { step } => numbered(" step=", *step),
        PathFault::OutOfMemory => Line::new(),
    }
}

/// Why a file gives no schema.
fn load_text(fault: &LoadFault) -> Line
    ensures text { result ≡ load_text fault.now }
    ensures short { length result ≤ 180 }
{
    match fault {
        LoadFault::NotWellFormed(fault) => ill_text(fault),
        LoadFault::BadSchema(fault) => rows_text(fault),
        LoadFault::RootNotListed => Line::of("L3 RootNotListed"),
        LoadFault::OutOfMemory => Line::of("L4 OutOfMemory"),
        LoadFault::TooLong => Line::of("L5 TooLong"),
        LoadFault::TooMuchShared => Line::of("L6 TooMuchShared"),
    }
}

/// The first fault of a schema file that isn't well formed.
fn ill_text(fault: &Fault) -> Line
    ensures text { result ≡ ill_text fault.now }
    ensures short { length result ≤ 180 }
{
    let mut line = Line::new();
    line.put_place(fault);
    line.put_number(fault.at);
    line.put_text(" at=");
    line.put_text(fault.reason.text());
    line.put_text("L1 ");
    line
}

/// What is wrong with the rows of one.
#[tactic(auto, using(crate::proofs::TextLemmas::code_short))]
fn rows_text(fault: &SchemaFault) -> Line
    ensures text { result ≡ rows_text fault.now }
    ensures short { length result ≤ 180 }
{
    let mut line = part_text(fault.part);
    line.put_text(" part=");
    line.put_number(u64::from(fault.owner));
    line.put_text(" owner=");
    line.put_text(code_text(fault.code));
    line.put_text("L2 ");
    line
}

/// The number of a part, where there is one.
fn part_text(part: Option<u32>) -> Line
    ensures text { result ≡ field_text part }
    ensures short { length result ≤ 60 }
{
    match part {
        Some(number) => numbered("", u64::from(number)),
        None => Line::of("-"),
    }
}

/// A line with this in front.
fn headed(head: &str, text: Line) -> Line
    requires head { length head.now ≤ 20 }
    requires text { length text ≤ 180 }
    ensures text { result ≡ head.now ++ text }
    ensures short { length result ≤ 200 }
{
    let mut line = text;
    line.put_text(head);
    line
}

/// Why there is nothing to check by.
pub fn ask_text(fault: &AskFault) -> Line
    ensures text { result ≡ ask_text fault.now }
    ensures short { length result ≤ 200 }
{
    match fault {
        AskFault::Load(cause) => headed("schema: ", load_text(cause)),
        AskFault::NoRoot => Line::of("no root table"),
        AskFault::Path(cause) => headed("path: ", path_text(cause)),
        AskFault::NoIdent => Line::of("the schema's identifier isn't four bytes"),
        AskFault::UnmarkedBytes => Line::of(
            "strict can't tell which bytes are nested buffers or flexbuffers",
        ),
        AskFault::NoSuchTable => Line::of("strict can't find the table of a nested buffer"),
        AskFault::OutOfMemory => Line::of("out of memory"),
    }
}

/// Why a schema file can't be read.
pub fn file_text(fault: &FileFault) -> Line
    ensures text { result ≡ file_text fault.now }
    ensures short { length result ≤ 200 }
{
    match fault {
        FileFault::Unreadable(_) => Line::of("cannot read schema"),
        FileFault::OutOfMemory => Line::of("out of memory"),
    }
}

/// Why a list of names can't be read.
pub fn list_text(fault: &FileFault) -> Line
    ensures text { result ≡ list_text fault.now }
    ensures short { length result ≤ 200 }
{
    match fault {
        FileFault::Unreadable(_) => Line::of("cannot read names"),
        FileFault::OutOfMemory => Line::of("out of memory"),
    }
}

/// Which word isn't a text: the program's name is none that anybody counts.
fn word_text(number: usize) -> Line
    ensures text { result ≡ word_text number }
    ensures short { length result ≤ 60 }
{
    match number {
        0 => Line::of("the program's own name is not UTF-8"),
        _ => numbered("a word is not UTF-8: number ", number as u64),
    }
}

/// Why the words can't be read.
pub fn words_text(fault: &WordsFault) -> Line
    ensures text { result ≡ words_text fault.now }
    ensures short { length result ≤ 200 }
{
    match fault {
        WordsFault::NotText(word) => word_text(word.number),
        WordsFault::OutOfMemory => Line::of("out of memory"),
    }
}
