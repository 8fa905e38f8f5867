//! `test_probe` reads a schema file from standard input, and tells what the libraries answer: a listing of what `load`
//! gives or of the table that is built in, the marks of a file, or the answer of each call that takes memory.
//!
//! The tests from outside ask it: `list`, `built-in`, `marks` or `calls` is its first word. The exit status is 0 where it came
//! to its end, whatever was answered, 2 for other words, and 3 where its own reading failed.
#![tactic(auto)]

mod calls;
mod hand;
mod listing;
mod marking;
mod mode;

use calls::make_calls;
use listing::{load_file, make_built_in};
use marking::tell_marks;
use mode::{Mode, mode_of};
use std::io;
use std::io::{ErrorKind, Read};
use std::process::ExitCode;

/// The mode that the only word of the command line names.
fn read_mode(rt: HostRuntime) -> io::Result<Option<Mode>> {
    let mut words = std::env::args(&rt)?.skip(1);
    let mode = match words.next() {
        Some(word) => mode_of(word.as_str()),
        None => None,
    };
    match words.next() {
        Some(_) => Ok(None),
        None => Ok(mode),
    }
}

/// The whole of standard input.
fn read_input(rt: HostRuntime) -> io::Result<Vec<u8>> {
    let mut bytes = Vec::new(rt.alloc());
    rt.stdin().read_to_end(&mut bytes)?;
    Ok(bytes)
}

/// Does what the word asks for; answers the exit status.
fn start(rt: HostRuntime) -> io::Result<u8> {
    let Some(mode) = read_mode(rt)? else {
        eprintln!(rt; "usage: test_probe list|built-in|marks|calls <FILE.bfbs")?;
        return Ok(2);
    };
    let bytes = read_input(rt)?;
    match mode {
        Mode::List => load_file(rt, &bytes, true)?,
        Mode::BuiltIn => make_built_in(rt, true)?,
        Mode::Marks => tell_marks(rt, &bytes, true)?,
        Mode::Calls => make_calls(rt, &bytes)?,
    }
    Ok(0)
}

fn main(rt: HostRuntime) -> io::Result<ExitCode> {
    let status = match start(rt) {
        Ok(status) => status,
        Err(error) => {
            let _ = match error.kind() {
                ErrorKind::OutOfMemory => eprintln!(rt; "test_probe: out of memory"),
                _ => eprintln!(rt; "test_probe: cannot read"),
            };
            3
        }
    };
    Ok(ExitCode::from(status))
}
