//! The calls that take memory, one after another, and the answer of each.
//!
//! Each answer is written before the next call is made, so it is known which call met a request that was refused.

use crate::hand::{NODE, hand_rows};
use crate::listing::{load_file, make_built_in};
use crate::marking::tell_marks;
use fb_access::Path;
use fb_bytes::Framer;
use fb_schema::Schema;
use fb_verify::Scratch;
use std::alloc::Global;
use std::io;

/// Paths of one growth of their steps, and one of more.
static PATHS: [&str; 5] = [
    "any@Node.size",
    "many[0]@Text",
    "many_type[0]",
    "many",
    "next.next.next.next.next.next.next.next.name",
];

/// Depths of scratches, of which the first takes no memory, and the last is too deep.
static DEPTHS: [u32; 5] = [0, 1, 64, 4096, 4097];

fn call_scratch(rt: HostRuntime, depth: u32) -> io::Result<()> {
    match Scratch::new(rt.alloc(), depth) {
        Ok(scratch) => println!(rt; "scratch {depth}: ok, {} levels", scratch.depth()),
        Err(fault) => println!(rt; "scratch {depth}: {fault:?}"),
    }
}

/// A message in two pieces, of which the first takes memory, and the end: what fails stays failed.
fn call_framer(rt: HostRuntime) -> io::Result<()> {
    let mut framer = Framer::new(rt.alloc(), 64).unwrap();
    let first = framer.feed(b"\x02\0\0\0h");
    let second = framer.feed(b"i");
    let end = framer.finish();
    let message = framer.message();
    println!(rt; "framer: {first:?}, {second:?}, {end:?}, {message:?}")
}

fn call_resolve(rt: HostRuntime, schema: &Schema<'_>, text: &str) -> io::Result<()> {
    if !schema.is_table(NODE) {
        return println!(rt; "no table");
    }
    match Path::resolve(rt.alloc(), schema, NODE, text.as_bytes()) {
        Ok(path) => println!(rt; "resolve {text}: ok, {} steps", path.steps().len()),
        Err(fault) => println!(rt; "resolve {text}: {fault}"),
    }
}

fn call_paths(rt: HostRuntime, schema: &Schema<'_>) -> io::Result<()> {
    println!(rt; "build: ok, {} objects", schema.object_count())?;
    for text in &PATHS {
        call_resolve(rt, schema, text)?;
    }
    Ok(())
}

fn call_build(rt: HostRuntime, alloc: Global) -> io::Result<()> {
    let Ok(rows) = hand_rows(alloc) else {
        return println!(rt; "rows: out of memory");
    };
    println!(rt; "rows: ok")?;
    match Schema::build(alloc, rows.objects, rows.enums) {
        Ok(schema) => call_paths(rt, &schema),
        Err(fault) => println!(rt; "build: {fault:?}"),
    }
}

/// Makes each call, and writes its answer: `reflection`, `load` and `load_marks` of these bytes, `Scratch::new`, a framer's, and over a
/// schema made by hand `Schema::build` and `Path::resolve`.
pub fn make_calls(rt: HostRuntime, bytes: &[u8]) -> io::Result<()> {
    println!(rt; "input: {} bytes", bytes.len())?;
    make_built_in(rt, false)?;
    load_file(rt, bytes, false)?;
    tell_marks(rt, bytes, false)?;
    for depth in &DEPTHS {
        call_scratch(rt, *depth)?;
    }
    call_framer(rt)?;
    call_build(rt, rt.alloc())
}
