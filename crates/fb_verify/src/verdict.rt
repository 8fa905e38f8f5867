// The verdict on a buffer.

ghost use Rattle.std.specs.Prelude.{◌≡◌, ◌+◌, ◌<◌, ◌≤◌, max, min, length, take, IfOk, IfErr, IsTrue};
ghost use Rattle.fb_bytes.specs.Word.{while_lent};
ghost use Rattle.fb_schema.specs.Rows.{is_table};
ghost use Rattle.fb_rules.specs.{MostReads.most_reads, Stops.Stops, Told.stopped, Verdict.Reports, Verdict.HasNone};
ghost use Rattle.fb_verify.specs.Stack.{HaltsAlong, links_left};

use crate::scratch::Frame;
use crate::stack::Walk;
use fb_bytes::{Loan, Meter};
use fb_rules::begin::{base_of, test_start};
use fb_rules::budget::answer;
use fb_rules::fault::{Fault, Report};
use fb_rules::question::Question;
use fb_rules::site::{Halt, LastLink, NO_HALT, Site};
use fb_rules::table::Child;

/// Checks a buffer of which nothing was read yet, as the question says: from its start, and from its root table on
/// (FlatBuffers Internals). The walk begins in the frames that are lent, which serve again after every answer. There
/// must be as many as the depth limit says; up to a limit of 64 fewer serve too, but not none, as a walk that needs more
/// goes on in 64 of its own.
///
/// The report counts the visits of tables, the greatest number of tables open at once, and the reads.
///
/// # Errors
///
/// The first condition that fails, with the reads counted up to it. Afterwards the meter has the same bytes, and its
/// count is the number of reads that the report or the fault tells.
#[inline(always)]
pub fn walk(
    meter: &mut Meter<'_>,
    question: &Question<'_, '_>,
    frames: &mut [Frame],
) -> Result<Report, Fault>
    requires fresh { meter.old.count ≡ 0 }
    requires table { IsTrue (is_table question.now.rows question.now.root) }
    requires some { min question.now.limits.depth 1 ≤ length frames.old }
    requires room { question.now.limits.depth ≤ max 64 (length frames.old) }
    // A yes: a tree is well formed and within the limits, and the report counts it.
    ensures yes { IfOk result (λ r. Reports question.now meter.old.bytes r) }
    // A no: no tree is, and the fault is the first condition that fails.
    ensures none { IfErr result (λ _. HasNone question.now meter.old.bytes) }
    ensures no { IfErr result (λ f. Stops question.now meter.old.bytes f) }
    // The price.
    ensures price { meter.new.count ≤ most_reads question.now.rows question.now.limits (length meter.old.bytes) }
    ensures read { IfOk result (λ r. meter.new.count ≡ r.reads) }
    ensures stopped { IfErr result (λ f. meter.new.count ≡ f.reads) }
    ensures bytes { meter.new.bytes ≡ meter.old.bytes }
    ensures same { meter.new.mark ≡ meter.old.mark }
    ensures settled { meter.new.count < while_lent }
{
    let mut loan = meter.lend();
    let answer = trace(&mut loan, question, frames);
    meter.settle(loan);
    match answer {
        Ok(report) => Ok(report),
        Err(halt) => Err(halt.stop.fault(meter)),
    }
}

/// The same over these frames, and where it needs more than these over 64 of its own, by a loan, which can only read
/// and count: from here on nothing seals the bytes. Where there is a fault, and these were enough for the depth limit,
/// those are left whose links lead to it.
#[inline(always)]
pub(crate) fn trace(
    loan: &mut Loan<'_>,
    question: &Question<'_, '_>,
    frames: &mut [Frame],
) -> Result<Report, Halt>
    requires fresh { loan.old.count ≡ 0 }
    requires table { IsTrue (is_table question.now.rows question.now.root) }
    requires some { min question.now.limits.depth 1 ≤ length frames.old }
    requires room { question.now.limits.depth ≤ max 64 (length frames.old) }
    ensures yes { IfOk result (λ r. Reports question.now loan.old.bytes r) }
    ensures none { IfErr result (λ _. HasNone question.now loan.old.bytes) }
    ensures deep { IfErr result (λ h. h.links + links_left h.last ≤ question.now.limits.depth) }
    ensures no { IfErr result (λ h. Stops question.now loan.old.bytes (stopped h.stop loan.new.count)) }
    ensures along { IfErr result (λ h. question.now.limits.depth ≤ length frames.new
        → HaltsAlong question.now loan.old.bytes (take h.links frames.new) h.last (stopped h.stop loan.new.count)) }
    ensures price { loan.new.count ≤ most_reads question.now.rows question.now.limits (length loan.old.bytes) }
    ensures read { IfOk result (λ r. loan.new.count ≡ r.reads) }
    ensures bytes { loan.new.bytes ≡ loan.old.bytes }
{
    question.schema.lawful();
    let site = Site {
        object: question.root,
        field: None,
    };
    let base = base_of(question.start);
    let mut at = 0;
    let mut reads = loan.lend();
    let failed = test_start(
        &mut reads,
        question.checks,
        question.start,
        question.ident,
        &mut at,
    );
    match answer(loan, reads, question.limits, site, failed, at, base) {
        Ok(()) => {}
        Err(stop) => return Err(stop.halt(0, LastLink::Behind)),
    }
    let mut walk = Walk {
        schema: question.schema,
        limits: question.limits,
        checks: question.checks,
        tables: 0,
        deepest: 0,
        halt: NO_HALT,
    };
    let root = Child {
        object: question.root,
        at,
    };
    match walk.run(loan, frames, site, root) {
        Ok(()) => Ok(Report {
            tables: walk.tables,
            depth: walk.deepest,
            reads: loan.reads(),
        }),
        Err(halt) => Err(halt),
    }
}
