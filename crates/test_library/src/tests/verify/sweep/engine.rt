//! The engine, asked of one buffer after another.

use super::digest::Digest;
use fb_bytes::Meter;
use fb_schema::Schema;
use fb_verify::{Checks, Ident, Limits, Link, Scratch, Start, verify_and_locate};
use std::alloc::Global;
use std::process::Abort;

/// What is asked of a buffer.
#[derive(Clone, Copy)]
pub struct Question {
    pub ident: Ident,
    pub depth: u32,
    pub tables: u32,
    /// The budget: the most counted reads, where there is a most.
    pub reads: Option<u64>,
    pub checks: Checks,
}

/// The engine with what it needs for one buffer after another.
#[derive(Drop)]
pub struct Engine<'s> {
    schema: &'s Schema<'static>,
    root: u32,
    scratch: Scratch,
    links: Vec<Link>,
}

/// The greatest depth limit that is asked, which is the published one.
const DEPTH: u32 = 64;

/// What no fault has left.
const BLANK: Link = Link {
    object: 0,
    field: 0,
    element: None,
    member: None,
};

impl<'s> Engine<'s> {
    /// An engine for depth limits up to the published one.
    pub fn new(rt: &impl Abort, alloc: Global, schema: &'s Schema<'static>, root: u32) -> Self {
        Engine {
            schema,
            root,
            scratch: Scratch::new(alloc, DEPTH).expect(rt, "memory"),
            links: vec![in alloc; BLANK; DEPTH as usize].expect(rt, "memory"),
        }
    }

    /// Adds what `verify_and_locate` answers, with the way to a fault.
    pub fn answer(
        &mut self,
        rt: &impl Abort,
        question: &Question,
        bytes: &[u8],
        digest: &mut Digest,
    ) {
        let meter = Meter::new(bytes).ok().expect(rt, "a short buffer");
        let limits = limits_of(rt, question);
        assert!(rt; self.schema.is_table(self.root));
        assert!(rt; limits.depth() <= self.scratch.depth());
        assert!(rt; limits.depth() as usize <= self.links.len());
        let whole = fb_verify::Question {
            schema: self.schema,
            root: self.root,
            start: Start::Bare,
            ident: question.ident,
            limits,
            checks: question.checks,
        };
        let answer = verify_and_locate(meter, &whole, self.scratch.lend(), &mut self.links);
        match answer {
            Ok(verified) => digest.add_report(verified.report()),
            Err(located) => {
                let way = self.links.get(..located.links as usize).unwrap_or(&[]);
                digest.add_fault(located.fault, way);
            }
        }
    }
}

/// The limits that a question has.
fn limits_of(rt: &impl Abort, question: &Question) -> Limits {
    let limits = Limits::new(question.depth, question.tables).expect(rt, "a depth in range");
    match question.reads {
        Some(most) => limits.with_reads(most),
        None => limits,
    }
}
