//! What `verify` answers, in few words.

use fb_bytes::Meter;
use fb_schema::Schema;
use fb_verify::{Checks, Ident, Limits, Question, Scratch, Start, Verified, verify};
use std::alloc::Global;
use std::process::Abort;

/// A buffer of this table that was verified within the published limits, with any identifier.
pub fn verified<'b, 's, 'n>(
    rt: &impl Abort,
    alloc: Global,
    bytes: &'b [u8],
    schema: &'s Schema<'n>,
    root: u32,
    start: Start,
    checks: Checks,
) -> Verified<'b, 's, 'n> {
    let meter = Meter::new(bytes).expect(rt, "a short buffer");
    let mut scratch = Scratch::new(alloc, 64).expect(rt, "memory");
    assert!(rt; schema.is_table(root));
    let question = Question {
        schema,
        root,
        start,
        ident: Ident::Any,
        limits: Limits::published(),
        checks,
    };
    let answer = verify(meter, &question, scratch.lend());
    answer.expect(rt, "a yes")
}
