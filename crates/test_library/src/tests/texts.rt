//! Texts of faults as `Display` writes them, also of those that no schema file has within the published limits. Others
//! are asked from outside too (`tests/test_loading.py`, `tests/test_demands.py`, `tests/test_path_texts.py`).

use crate::tests::compare::same;
use fb_access::PathFault;
use fb_bfbs::LoadFault;
use fb_bytes::StreamFault;
use fb_run::{Line, RunFault};
use fb_verify::{Fault, Reason};
use fbcheck_serve::{
    AskFault, CheckFault, FileFault, SettingsFault, Unasked, WordsFault, WrongWord, settings,
};
use std::alloc::Global;
use std::error::Error;
use std::fmt::Display;
use std::io::ErrorKind;
use std::process::Abort;

/// The faults of schema files but for those of rows.
const OF_FILES: [(LoadFault, &str); 4] = [
    (
        LoadFault::NotWellFormed(Fault {
            at: 31,
            object: 4,
            field: Some(1),
            reason: Reason::UnknownField,
            reads: 8,
        }),
        "L1 V16 UnknownField at=31 object=4 field=1 reads=8",
    ),
    (LoadFault::OutOfMemory, "L4 OutOfMemory"),
    (LoadFault::TooLong, "L5 TooLong"),
    (LoadFault::TooMuchShared, "L6 TooMuchShared"),
];

/// The faults of paths. Which paths have them is asked from outside (`tests/test_path_texts.py`).
const OF_PATHS: [(PathFault, &str); 6] = [
    (PathFault::BadText { at: 12 }, "P1 BadText at=12"),
    (PathFault::NoSuchField { step: 0 }, "P2 NoSuchField step=0"),
    (
        PathFault::NotIndexable { step: 1 },
        "P3 NotIndexable step=1",
    ),
    (PathFault::NotAUnion { step: 1 }, "P4 NotAUnion step=1"),
    (
        PathFault::NoSuchMember { step: 1 },
        "P5 NoSuchMember step=1",
    ),
    (PathFault::NotATable { step: 2 }, "P6 NotATable step=2"),
];

/// The faults of streams.
const OF_STREAMS: [(StreamFault, &str); 4] = [
    (
        StreamFault::Oversize { declared: 65 },
        "S1 Oversize declared=65",
    ),
    (StreamFault::Truncated { held: 31 }, "S2 Truncated held=31"),
    (StreamFault::OutOfMemory, "S3 OutOfMemory"),
    (StreamFault::Failed, "S4 Failed"),
];

/// Why runs come to rest.
const OF_RUNS: [(RunFault, &str); 9] = [
    (RunFault::ReadFault, "read failed"),
    (
        RunFault::WriteFault { written: 31 },
        "write failed after 31 bytes",
    ),
    (
        RunFault::NoteFault { written: 0 },
        "write to standard error failed after 0 bytes",
    ),
    (
        RunFault::RejectFault { written: 7 },
        "write of rejects failed after 7 bytes",
    ),
    (
        RunFault::Stream(StreamFault::Truncated { held: 31 }),
        "stream: S2 Truncated held=31",
    ),
    (RunFault::TooManyTurns, "too many reads"),
    (RunFault::OutOfMemory, "out of memory"),
    (
        RunFault::BareTooLong { limit: 64 },
        "input longer than 64 bytes",
    ),
    (
        RunFault::SkipPastEnd { skip: 64 },
        "the input ends before its first 64 bytes are skipped",
    ),
];

/// Why nothing can be asked of buffers.
const OF_ASKING: [(AskFault, &str); 7] = [
    (
        AskFault::Load(LoadFault::RootNotListed),
        "schema: L3 RootNotListed",
    ),
    (AskFault::NoRoot, "no root table"),
    (
        AskFault::Path(PathFault::NotATable { step: 2 }),
        "path: P6 NotATable step=2",
    ),
    (
        AskFault::NoIdent,
        "the schema's identifier isn't four bytes",
    ),
    (
        AskFault::UnmarkedBytes,
        "strict can't tell which bytes are nested buffers or flexbuffers",
    ),
    (
        AskFault::NoSuchTable,
        "strict can't find the table of a nested buffer",
    ),
    (AskFault::OutOfMemory, "out of memory"),
];

/// Why checks come to rest.
const OF_CHECKS: [(CheckFault, &str); 2] = [
    (CheckFault::Ask(AskFault::NoRoot), "no root table"),
    (CheckFault::Run(RunFault::ReadFault), "read failed"),
];

/// Why schema files can't be read.
const OF_READING: [(FileFault, &str); 2] = [
    (
        FileFault::Unreadable(ErrorKind::NotFound),
        "cannot read schema",
    ),
    (FileFault::OutOfMemory, "out of memory"),
];

/// Asserts the text of this.
fn told<T: Display>(rt: &impl Abort, alloc: Global, fault: &T, want: &str) {
    let told = format!(in alloc; "{fault}").expect(rt, "memory");
    same(rt, told.as_str(), want);
}

/// Asserts the text of each of these faults.
fn all_told<T: Error>(rt: &impl Abort, alloc: Global, cases: &[(T, &str)]) {
    for (fault, want) in cases {
        told(rt, alloc, fault, want);
    }
}

#[test]
fn each_fault_has_its_text(rt: HostRuntime) {
    all_told(&rt, rt.alloc(), &OF_FILES);
    all_told(&rt, rt.alloc(), &OF_PATHS);
    all_told(&rt, rt.alloc(), &OF_STREAMS);
}

#[test]
fn each_fault_of_the_program_has_its_text(rt: HostRuntime) {
    let alloc = rt.alloc();
    all_told(&rt, alloc, &OF_RUNS);
    all_told(&rt, alloc, &OF_ASKING);
    all_told(&rt, alloc, &OF_CHECKS);
    all_told(&rt, alloc, &OF_READING);
    let unasked = [(Unasked::plain(AskFault::NoRoot), "no root table")];
    all_told(&rt, alloc, &unasked);
    let refused = [(SettingsFault::BadIdent, "ident must be four bytes")];
    all_told(&rt, alloc, &refused);
    told(&rt, alloc, &Line::of("a line"), "a line");
}

#[test]
fn a_wrong_word_is_told_by_its_number(rt: HostRuntime) {
    let word = WrongWord {
        number: 2,
        bytes: Vec::new(rt.alloc()),
    };
    let cases = [
        (WordsFault::NotText(word), "a word is not UTF-8: number 2"),
        (WordsFault::OutOfMemory, "out of memory"),
    ];
    all_told(&rt, rt.alloc(), &cases);
}

#[test]
fn words_that_clap_refuses_are_told_by_its_text(rt: HostRuntime) {
    let alloc = rt.alloc();
    let program = String::from_str(alloc, "fbcheck").expect(&rt, "memory");
    let wrong = String::from_str(alloc, "--no-such-option").expect(&rt, "memory");
    let Err(fault) = settings(alloc, &[program, wrong]) else {
        panic!(rt; "settings of a wrong word")
    };
    let SettingsFault::Usage(error) = &fault else {
        panic!(rt; "another fault than that of a wrong word")
    };
    let want = format!(in alloc; "{error}").expect(&rt, "memory");
    assert!(rt; !want.is_empty());
    told(&rt, alloc, &fault, want.as_str());
}
