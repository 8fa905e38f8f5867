//! What is told of a buffer that was verified; which steps are allowed there, and what those lead to that no path has.
//! What paths lead to is asked from outside (`tests/test_worked_cases.py`).

use crate::tests::compare::same;
use crate::tests::unions::{Q, R, unions};
use crate::tests::verify::question::verified;
use fb_access::step::Step;
use fb_access::step::Step::{Element, Field, Member};
use fb_access::{Answer, at_root};
use fb_schema::Schema;
use fb_verify::{Checks, Report, Start, Verified};
use std::alloc::Global;
use std::process::Abort;

/// From `R`: a table whose vtable has no slot.
const EMPTY: &[u8] = b"\x08\0\0\0\x04\0\x04\0\x04\0\0\0";

/// From `R`: its type byte 1 at 20, its `uoffset` at 16, the table with a 5 at 32.
const PICKED: &[u8] = b"\
    \x0c\0\0\0\x08\0\x0c\0\x08\0\x04\0\x08\0\0\0\x10\0\0\0\x01\0\0\0\
    \x06\0\x08\0\x04\0\0\0\x08\0\0\0\x05\0\0\0\
";

/// A union of a table from `R`, behind its size.
const SIZED: &[u8] = b"\
    \x28\0\0\0\x0c\0\0\0\x08\0\x0c\0\x08\0\x04\0\x08\0\0\0\x10\0\0\0\x01\0\0\0\
    \x06\0\x08\0\x04\0\0\0\x08\0\0\0\x05\0\0\0\
";

/// From `Q`: the text `hi` and nothing; the types' vector at 24, the values' at 32.
const HI: &[u8] = b"\
    \x0c\0\0\0\x08\0\x0c\0\x04\0\x08\0\x08\0\0\0\x08\0\0\0\x0c\0\0\0\
    \x02\0\0\0\x03\0\0\0\x02\0\0\0\x08\0\0\0\0\0\0\0\x02\0\0\0hi\0\0\
";

/// The root, the buffer, and steps with what they lead to; none where one of them isn't allowed.
type Case = (u32, &'static [u8], &'static [Step], Option<Answer<'static>>);

static ALLOWED: [Case; 17] = [
    (R, EMPTY, &[], Some(Answer::Table)),
    (
        R,
        EMPTY,
        &[Field(1), Field(7), Element(9), Member(0)],
        Some(Answer::Absent),
    ),
    (R, PICKED, &[Field(1)], Some(Answer::Union(1))),
    (R, PICKED, &[Field(2)], None),
    (R, PICKED, &[Element(0)], None),
    (R, PICKED, &[Member(1)], None),
    (R, PICKED, &[Field(1), Member(3)], Some(Answer::OtherMember)),
    (R, PICKED, &[Field(1), Member(0)], None),
    (R, PICKED, &[Field(1), Member(9)], None),
    (R, PICKED, &[Field(1), Field(0)], None),
    (R, PICKED, &[Field(0)], Some(Answer::UInt(1))),
    (R, PICKED, &[Field(0), Element(0)], None),
    (
        R,
        PICKED,
        &[Field(1), Member(3), Field(9)],
        Some(Answer::OtherMember),
    ),
    (
        Q,
        HI,
        &[Field(1), Element(u32::MAX)],
        Some(Answer::NoElement),
    ),
    (Q, HI, &[Field(1), Member(1)], None),
    (
        Q,
        HI,
        &[Field(1), Element(0), Member(3)],
        Some(Answer::Text(b"hi")),
    ),
    (Q, HI, &[Field(1), Element(0), Member(3), Element(0)], None),
];

/// What the steps lead to from the root; none where one of them isn't allowed. An answer, and a text in it, outlives
/// all but the bytes: schema, verification and places.
fn answer_in<'b>(verified: &Verified<'b, '_, '_>, steps: &[Step]) -> Option<Answer<'b>> {
    let mut place = at_root(verified);
    for step in steps {
        if !place.allows(*step) {
            return None;
        }
        place = place.go(*step);
    }
    Some(place.answer())
}

/// Asserts what is told of a buffer that was verified.
fn all_is_told(rt: &impl Abort, alloc: Global, schema: &Schema<'_>) {
    let checks = Checks {
        alignment: true,
        inline_size: true,
    };
    let verified = verified(rt, alloc, SIZED, schema, R, Start::Prefixed, checks);
    let report = Report {
        tables: 2,
        depth: 2,
        reads: 14,
    };
    let objects = verified.schema().object_count();
    let told = (verified.report(), verified.window().len(), objects);
    same(rt, told, (report, 44, 4));
    let told = (verified.root(), verified.start(), verified.checks());
    same(rt, told, (R, Start::Prefixed, checks));
}

/// Asserts what the steps of a case lead to.
fn leads_so(rt: &impl Abort, alloc: Global, schema: &Schema<'_>, case: Case) {
    let (root, bytes, steps, want) = case;
    let checks = Checks::published();
    let verified = verified(rt, alloc, bytes, schema, root, Start::Bare, checks);
    same(rt, (steps, answer_in(&verified, steps)), (steps, want));
}

/// Asserts that of each case.
fn all_lead_so(rt: &impl Abort, alloc: Global, schema: &Schema<'_>) {
    for case in &ALLOWED {
        leads_so(rt, alloc, schema, *case);
    }
}

#[test]
fn what_was_verified_is_told_and_allows_its_own_steps_alone(rt: HostRuntime) {
    let schema = unions(&rt, rt.alloc());
    all_is_told(&rt, rt.alloc(), &schema);
    all_lead_so(&rt, rt.alloc(), &schema);
}
