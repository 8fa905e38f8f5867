//! Reads a string out of buffers from strangers.
#![tactic(auto)]

use fb_access::{Answer, Path, get};
use fb_bfbs::load;
use fb_bytes::Meter;
use fb_verify::{Checks, Ident, Limits, Question, Scratch, Start, verify};
use std::alloc::Global;

/// The string at `to.name`, if the buffer is good and has one.
pub fn name_in<'b>(alloc: Global, schema_file: &[u8], buffer: &'b [u8]) -> Option<&'b [u8]> {
    // To be done once: schema, root table, path, and room for a walk.
    let limits = Limits::published().with_reads(100_000_000);
    let loaded = load(alloc, schema_file, limits).ok()?;
    let root = loaded.root?;
    let path = Path::resolve(alloc, &loaded.schema, root, b"to.name").ok()?;
    let mut scratch = Scratch::new(alloc, limits.depth()).ok()?;

    // For each buffer; this takes no memory and copies nothing.
    let meter = Meter::new(buffer).ok()?;
    let question = Question {
        schema: &loaded.schema,
        root,
        start: Start::Bare,
        ident: Ident::Any,
        limits: limits.of_length(64, meter.len()),
        checks: Checks::published(),
    };
    let verified = verify(meter, &question, scratch.lend()).ok()?;
    match get(&verified, &path) {
        Answer::Text(text) => Some(text),
        _ => None,
    }
}
