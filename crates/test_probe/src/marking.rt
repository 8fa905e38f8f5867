//! What is told of the marks of a schema file: each of them, or only that they were read.

use fb_bfbs::{Content, Mark, Marks, load_marks};
use fb_verify::Limits;
use std::io;

/// A line for a mark.
fn list_mark(rt: HostRuntime, mark: &Mark<'_>) -> io::Result<()> {
    match mark.content {
        Content::Buffer(name) => {
            println!(rt;
                "mark object={} slot={} buffer={name:?}",
                mark.object, mark.slot
            )
        }
        Content::Flex => println!(rt; "mark object={} slot={} flex", mark.object, mark.slot),
    }
}

/// Tells of marks that they were read, or what the file shows of built-in attributes, and then each mark.
fn list(rt: HostRuntime, marks: &Marks<'_>, whole: bool) -> io::Result<()> {
    if !whole {
        return println!(rt; "marks: ok");
    }
    println!(rt; "builtins={:?}", marks.builtins)?;
    for mark in marks.fields.iter() {
        list_mark(rt, mark)?;
    }
    Ok(())
}

/// The longest buffer, in bytes.
const LONGEST: u64 = 0x7FFF_FFFF;

/// Reads the marks of a schema file and tells of them, or why they aren't read. The limits are the published ones with
/// a budget of 64 reads for each byte and for 64 more.
pub fn tell_marks(rt: HostRuntime, bytes: &[u8], whole: bool) -> io::Result<()> {
    let length = bytes.len() as u64;
    let limits = Limits::published().of_length(64, length.min(LONGEST));
    match load_marks(rt.alloc(), bytes, limits) {
        Ok(marks) => list(rt, &marks, whole),
        Err(fault) => println!(rt; "fault {fault}"),
    }
}
