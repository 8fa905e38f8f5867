//! `fbcheck` checks FlatBuffers by a binary schema: it reads streams of size-prefixed buffers, or bare buffers, from
//! files or standard input and writes a line for each to standard output. Without a schema file it checks schema files.
//!
//! The words of the command line are read first, then the schema file, then the input; help goes to standard output.
//! Faults go to standard error, and the first ends the program, but for one of a file among files. The exit status is 0
//! where every buffer had a yes or help was given, 1 where a buffer had a no, 2 where the words, the schema file, the
//! root, the path or the schema's own identifier are wrong, and 3 for every other fault.
#![tactic(auto)]

ghost use Rattle.std.specs.Prelude.{⊤};

use fb_bytes::{Counted, Sink};
use fbcheck_serve::serve::serve;
use fbcheck_serve::{Explained, FileFault, Files, Makes, WordsFault, WrongWord};
use std::alloc::AllocError;
use std::env::Env;
use std::fs::{File, OpenOptions};
use std::io;
use std::io::{ErrorKind, Read};
use std::process::ExitCode;
use std::str::from_utf8;

/// The most bytes that are read of a schema file; a file that has as many is too long for a buffer.
const SCHEMA_BYTES: u64 = 0x8000_0000;

/// The most bytes of a word.
const LONGEST_WORD: usize = 131_072;

/// The words of the command line, the program's name first.
fn read_words(rt: &HostRuntime) -> io::Result<Vec<String>> {
    let words = std::env::args(rt)?;
    Ok(words.collect::<Vec<String>>(rt.alloc())?)
}

/// The first word that isn't a text; the system hands in no longer ones. Where there is none, an empty one. Its room
/// would be on the stack of every run, were it part of `main`.
#[inline(never)]
fn wrong_word(rt: &HostRuntime) -> Result<WrongWord, AllocError> {
    let mut room = [0; LONGEST_WORD];
    for number in 0..usize::MAX {
        let Ok(length) = rt.arg(number, &mut room) else {
            break;
        };
        if from_utf8(&room[..length]).is_err() {
            let bytes = room[..length].to_vec(rt.alloc())?;
            return Ok(WrongWord { number, bytes });
        }
    }
    let bytes = Vec::new(rt.alloc());
    Ok(WrongWord { number: 0, bytes })
}

/// The bytes of a file, at most [`SCHEMA_BYTES`] of them.
fn read_file(rt: &HostRuntime, name: &str) -> io::Result<Vec<u8>> {
    let mut file = File::open(rt, name)?;
    let mut bytes = Vec::new(rt.alloc());
    file.by_ref().take(SCHEMA_BYTES).read_to_end(&mut bytes)?;
    Ok(bytes)
}

/// A file to be read. A folder is refused here, before a read of it fails.
fn open_file(rt: &HostRuntime, name: &str) -> io::Result<File> {
    let file = File::open(rt, name)?;
    if file.metadata()?.is_dir() {
        return Err(io::Error::from(ErrorKind::IsADirectory));
    }
    Ok(file)
}

/// A file to be written, made or emptied.
fn make_file(rt: &HostRuntime, name: &str) -> io::Result<File> {
    OpenOptions::new()
        .write(true)
        .create(true)
        .truncate(true)
        .open(rt, name)
}

/// The files of the system: what they have isn't known.
#[derive(Drop)]
struct Disk<'a> {
    rt: &'a HostRuntime,
}

impl<K: Sink, N: Sink> Files<K, N> for Disk<'_> {
    type Opened = Explained<File>;

    ghost gives = { λ _ _ _. ⊤ };

    ghost opens = { λ _ _ _. ⊤ };

    fn read(&self, name: &str) -> Result<Vec<u8>, FileFault> {
        read_file(self.rt, name).map_err(FileFault::of)
    }

    fn open(&self, name: &str) -> Result<Explained<File>, FileFault> {
        match open_file(self.rt, name) {
            Ok(file) => Ok(Explained::new(file)),
            Err(error) => Err(FileFault::of(error)),
        }
    }
}

impl Makes for Disk<'_> {
    type Made = Explained<File>;

    ghost makes = { λ _ _ _. ⊤ };

    fn make(&self, name: &str) -> Result<Explained<File>, ErrorKind> {
        match make_file(self.rt, name) {
            Ok(file) => Ok(Explained::new(file)),
            Err(error) => Err(error.kind()),
        }
    }
}

fn main(rt: HostRuntime) -> io::Result<ExitCode> {
    let words = match read_words(&rt) {
        Ok(words) => Ok(words),
        Err(error) => Err(WordsFault::of(error, wrong_word(&rt))),
    };
    let mut reader = Explained::new(rt.stdin());
    let mut writer = Explained::new(rt.stdout());
    let mut notes = Counted::new(rt.stderr());
    let files = Disk { rt: &rt };
    let status = serve(
        rt.alloc(),
        words,
        &files,
        &mut reader,
        &mut writer,
        &mut notes,
    );
    Ok(ExitCode::from(status))
}
