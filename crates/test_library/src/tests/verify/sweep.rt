//! A buffer cut off everywhere, also within small limits, and with each byte changed to each other value, under every
//! choice of the checks: the engine answers as the naive checker does, in every number and in the way to a fault.
//!
//! The naive checker's answers stand here as one number for each choice. `tests/test_digests.py` works them out, and
//! `tests/test_sweeps.py` asks the same of ten buffers from outside.

mod digest;
mod engine;

use crate::tests::compare::same;
use crate::tests::reader::{DELIVERY, SCHEMA};
use digest::Digest;
use engine::{Engine, Question};
use fb_bfbs::load;
use fb_verify::{Checks, Ident, Limits};
use std::process::Abort;

/// What the naive checker's answers make: with alignment, with the inline size too, without both, and with the inline
/// size alone.
const DIGESTS: [u64; 4] = [
    0xf703_e936_5c8c_7953,
    0x0be1_a484_19be_accf,
    0xa1b7_9794_cc6e_d021,
    0x040b_b419_12c7_98bc,
];

/// Depth, tables, reads and identifier, of which each ends a walk in another place.
static LIMITS: [(u32, u32, Option<u64>, Ident); 11] = [
    (64, 1_000_000, None, Ident::Want(*b"BFBS")),
    (64, 1_000_000, Some(0), Ident::Want(*b"BFBS")),
    (64, 1_000_000, Some(1), Ident::Any),
    (64, 1_000_000, Some(5), Ident::Any),
    (64, 1_000_000, Some(12), Ident::Any),
    (0, 0, None, Ident::Any),
    (1, 1_000_000, None, Ident::Any),
    (2, 2, None, Ident::Any),
    (3, 6, None, Ident::Any),
    (64, 3, Some(8), Ident::Any),
    (64, 0, Some(3), Ident::Any),
];

/// Asks of the first bytes of a buffer, within all limits.
fn ask_prefix(
    rt: &impl Abort,
    engine: &mut Engine<'_>,
    digest: &mut Digest,
    question: &Question,
    prefix: &[u8],
) {
    engine.answer(rt, question, prefix, digest);
    for limits in &LIMITS {
        let (depth, tables, reads, ident) = *limits;
        let limited = Question {
            depth,
            tables,
            reads,
            ident,
            ..*question
        };
        engine.answer(rt, &limited, prefix, digest);
    }
}

/// Changes those bits of a byte that another has.
fn change(bytes: &mut [u8], at: usize, bits: u8) {
    if let Some(place) = bytes.get_mut(at) {
        *place ^= bits;
    }
}

/// Asks of a buffer with the byte at this place changed to each value, and puts the byte back.
fn each_change(
    rt: &impl Abort,
    engine: &mut Engine<'_>,
    digest: &mut Digest,
    question: &Question,
    bytes: &mut [u8],
    at: usize,
) {
    for bits in 1..=255u8 {
        change(bytes, at, bits);
        engine.answer(rt, question, bytes, digest);
        change(bytes, at, bits);
    }
}

/// The sweep over one buffer under some checks: what its answers make.
fn sweep(rt: &impl Abort, engine: &mut Engine<'_>, question: &Question, bytes: &mut [u8]) -> u64 {
    let mut digest = Digest::new();
    ask_prefix(rt, engine, &mut digest, question, bytes);
    for at in 0..bytes.len() {
        ask_prefix(
            rt,
            engine,
            &mut digest,
            question,
            bytes.get(..at).unwrap_or(&[]),
        );
        each_change(rt, engine, &mut digest, question, bytes, at);
    }
    digest.value
}

/// The whole buffer, with any identifier and within the published limits, under these checks.
fn question(checks: Checks) -> Question {
    Question {
        ident: Ident::Any,
        depth: 64,
        tables: 1_000_000,
        reads: None,
        checks,
    }
}

/// Asserts what the sweeps make, under each choice of the checks.
fn sweeps_make_these(rt: &impl Abort, engine: &mut Engine<'_>) {
    for (place, want) in DIGESTS.iter().enumerate() {
        let checks = Checks {
            alignment: place < 2,
            inline_size: place % 2 == 1,
        };
        let mut bytes = DELIVERY;
        let made = sweep(rt, engine, &question(checks), &mut bytes);
        same(rt, (place, made), (place, *want));
    }
}

#[test]
fn a_buffer_that_is_damaged_is_answered_alike(rt: HostRuntime) {
    let loaded = load(rt.alloc(), SCHEMA, Limits::published()).expect(&rt, "a schema");
    let root = loaded.root.expect(&rt, "a root");
    let mut engine = Engine::new(&rt, rt.alloc(), &loaded.schema, root);
    sweeps_make_these(&rt, &mut engine);
}
