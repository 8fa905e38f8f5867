// The strict verdict on a buffer.

ghost use Rattle.std.specs.Prelude.{◌≡◌, ◌+◌, ◌^◌, ◌<◌, ◌≤◌, length, max, min, take, IfOk, IfErr, IfSome, Some, None, IsTrue};
ghost use Rattle.fb_schema.specs.Rows.{is_table};
ghost use Rattle.fb_rules.specs.{Bounds.AreAllowed, Links.StopsAlong, MostReads.most_reads, Order.after, Places.target, Plain.tested_by, Stops.Stops, Verdict.Reports};
ghost use Rattle.fb_rules.specs.WellFormed.{base};
ghost use Rattle.fb_verify.specs.Sealed.{sealed_by};
ghost use Rattle.fb_strict.specs.{InOrder.where_asked, InOrder.length_failure, Levels.AreEnough, Planned.IsPlan, MostReads.most_reads_strictly, Nested.limits_left};
ghost use Rattle.fb_strict.specs.Strictly.{ReportsStrictly, HasNoneStrictly, StopsStrictly, StopsAlongStrictly};

use crate::plan::Plan;
use crate::unions::test_length;
use crate::whole::{Space, asking_of};
use fb_bytes::{Loan, Meter, Window};
use fb_rules::fault::{Fault, Report};
use fb_rules::limits::Limits;
use fb_rules::link::Link;
use fb_rules::site::Refusal;
use fb_rules::start::Start;
use fb_verify::{Frame, Located, Question, Verified, verify, verify_and_locate};
use std::alloc::Allocator;

/// A buffer that was verified and is strict, and what was counted, with the reads of the pass.
#[derive(Drop)]
pub struct VerifiedStrictly<'b, 's, 'n> {
    pub verified: Verified<'b, 's, 'n>,
    pub report: Report,
}

/// Where the root table of a buffer stands that begins so.
pub(crate) fn root_of(window: &Window<'_>, start: Start) -> u64
    requires offset { base start + 4 ≤ length window.now }
    ensures value { result ≡ target window.now (base start) }
    ensures near { result < 2 ^ 33 }
{
    let at = match start {
        Start::Bare => 0,
        Start::Prefixed => 4,
    };
    at + u64::from(window.u32_at(at))
}

/// Why a buffer is refused that is shorter than generated code takes, if it is and that is asked: at its end.
pub(crate) fn refuse_short(asked: bool, loan: &mut Loan<'_>) -> Option<Refusal>
    requires few { loan.old.count ≤ 2 ^ 120 }
    ensures none { result ≡ None → where_asked asked (length_failure loan.old.bytes) ≡ None }
    ensures some { IfSome result (λ e. (e.at ≡ length loan.old.bytes)
        × (tested_by (length loan.old.bytes) loan.old.count (Some e.reason) ≡ after loan.old.count (where_asked asked (length_failure loan.old.bytes)))) }
    ensures same { loan.new ≡ loan.old }
{
    if !asked {
        return None;
    }
    let reads = loan.lend();
    let failed = test_length(&reads);
    let at = reads.len();
    loan.settle(reads);
    match failed {
        Some(reason) => Some(Refusal { at, reason }),
        None => None,
    }
}

/// What is left of these limits after so many reads.
pub(crate) fn left_of(limits: Limits, walked: u128) -> Limits
    requires { AreAllowed limits.reads walked }
    ensures { result ≡ limits_left limits walked }
{
    match limits.reads() {
        None => limits,
        Some(most) => limits.with_reads((u128::from(most) - walked) as u64),
    }
}

/// Checks a buffer as [`verify`] does. Where there is a fault, and room for as many links as the depth limit says, those
/// that lead to it are put at the front of `links`.
pub(crate) fn walk<'b, 's, 'n>(
    meter: Meter<'b>,
    question: &Question<'s, 'n>,
    lent: &mut [Frame],
    links: &mut [Link],
) -> Result<Verified<'b, 's, 'n>, Located>
    requires fresh { meter.count ≡ 0 }
    requires table { IsTrue (is_table question.now.rows question.now.root) }
    requires lent { AreEnough question.now.limits.depth (length lent.old) (length links.old) }
    ensures yes { IfOk result (λ v. Reports question.now meter.entry.bytes v.report) }
    ensures kept { IfOk result (λ v. v ≡ sealed_by question.now meter.entry.bytes v.report) }
    ensures no { IfErr result (λ l. Stops question.now meter.entry.bytes l.fault) }
    ensures along { IfErr result (λ l. question.now.limits.depth ≤ length links.old → StopsAlong question.now meter.entry.bytes l.fault (take l.links links.new)) }
    ensures within { IfErr result (λ l. l.links ≤ length links.new) }
    ensures few { IfErr result (λ l. (l.fault).reads ≤ most_reads question.now.rows question.now.limits (length meter.entry.bytes)) }
{
    if links.len() < question.limits.depth() as usize {
        return match verify(meter, question, lent) {
            Ok(verified) => Ok(verified),
            Err(fault) => Err(Located { fault, links: 0 }),
        };
    }
    verify_and_locate(meter, question, lent, links)
}

/// The strict verdict, with the links that lead to a fault, where there is room for as many as the depth limit says.
fn verdict<'b, 's, 'n, A: Allocator, S: Space>(
    meter: Meter<'b>,
    question: &Question<'s, 'n>,
    plan: &Plan<A>,
    lent: &mut [Frame],
    room: &mut S,
    links: &mut [Link],
) -> Result<VerifiedStrictly<'b, 's, 'n>, Located>
    requires fresh { meter.count ≡ 0 }
    requires table { IsTrue (is_table question.now.rows question.now.root) }
    requires plan { IsPlan question.now.rows (plan.now).demands plan.now }
    requires lent { AreEnough question.now.limits.depth (length lent.old) (length links.old) }
    requires room { question.now.limits.depth ≤ S.room room.old }
    requires short_row { length links.old ≤ 4096 }
    ensures yes { IfOk result (λ v. ReportsStrictly plan.now question.now meter.entry.bytes v.report) }
    ensures walked { IfOk result (λ v. Reports question.now meter.entry.bytes (v.verified).report) }
    ensures kept { IfOk result (λ v. v.verified ≡ sealed_by question.now meter.entry.bytes (v.verified).report) }
    ensures no { IfErr result (λ l. StopsStrictly plan.now question.now meter.entry.bytes l.fault) }
    ensures along { IfErr result (λ l. question.now.limits.depth ≤ length links.old → StopsAlongStrictly plan.now question.now meter.entry.bytes l.fault (take l.links links.new)) }
    ensures few { IfErr result (λ l. l.links ≤ length links.new) }
    ensures room { S.room room.new ≡ S.room room.old }
{
    let verified = match walk(meter, question, lent, links) {
        Ok(verified) => verified,
        Err(located) => return Err(located),
    };
    let asking = asking_of(verified.window(), question, plan);
    match room.ask(&asking, verified.report(), lent, links) {
        Ok(report) => Ok(VerifiedStrictly { verified, report }),
        Err(located) => Err(located),
    }
}

/// Checks a buffer as [`verify`] does, and then asks what the plan of the schema demands of it, and of each buffer that
/// its fields hold by the marks: such a buffer is checked by itself, and asked likewise. Tables, depth and reads are
/// counted on within the same limits, for a text as many reads as it has bytes. The room must have as many levels as
/// the depth limit says, and serves again after every answer.
///
/// # Errors
///
/// The fault that `verify` answers, or else the first demand that isn't met, in the order of the visits of tables.
pub fn verify_strictly<'b, 's, 'n, A: Allocator, S: Space>(
    meter: Meter<'b>,
    question: &Question<'s, 'n>,
    plan: &Plan<A>,
    lent: &mut [Frame],
    room: &mut S,
) -> Result<VerifiedStrictly<'b, 's, 'n>, Fault>
    requires fresh { meter.count ≡ 0 }
    requires table { IsTrue (is_table question.now.rows question.now.root) }
    requires plan { IsPlan question.now.rows (plan.now).demands plan.now }
    requires some { min question.now.limits.depth 1 ≤ length lent.old }
    requires lent { question.now.limits.depth ≤ max 64 (length lent.old) }
    requires room { question.now.limits.depth ≤ S.room room.old }
    // A yes: a tree is well formed, strict and within the limits, and the report counts it.
    ensures yes { IfOk result (λ v. ReportsStrictly plan.now question.now meter.entry.bytes v.report) }
    ensures walked { IfOk result (λ v. Reports question.now meter.entry.bytes (v.verified).report) }
    ensures kept { IfOk result (λ v. v.verified ≡ sealed_by question.now meter.entry.bytes (v.verified).report) }
    // A no: no tree is, and the fault is the first condition that fails, or else the first demand that isn't met.
    ensures none { IfErr result (λ _. HasNoneStrictly plan.now question.now meter.entry.bytes) }
    ensures no { IfErr result (λ f. StopsStrictly plan.now question.now meter.entry.bytes f) }
    // The price.
    ensures price_of_yes { IfOk result (λ v. (v.report).reads ≤ most_reads_strictly question.now.rows question.now.limits (length meter.entry.bytes)) }
    ensures price_of_no { IfErr result (λ f. f.reads ≤ most_reads_strictly question.now.rows question.now.limits (length meter.entry.bytes)) }
    ensures room { S.room room.new ≡ S.room room.old }
{
    match verdict(meter, question, plan, lent, room, &mut []) {
        Ok(strict) => Ok(strict),
        Err(located) => Err(located.fault),
    }
}

/// Checks a buffer as [`verify_strictly`] does, and where there is a fault, the links that lead to it are put at the
/// front of `links`, the root's first: to a fault in a buffer inside lead those of the buffers around it, and then its
/// own. There must be room for as many as the depth limit says, and as many frames. No link leads to a fault at the
/// start of the whole buffer, at its end where it is too short, or at the head of its root table. For each link at most
/// six numbers are read again, which the fault's reads don't count.
///
/// # Errors
///
/// The fault that `verify_strictly` answers, with the number of these links.
pub fn verify_strictly_and_locate<'b, 's, 'n, A: Allocator, S: Space>(
    meter: Meter<'b>,
    question: &Question<'s, 'n>,
    plan: &Plan<A>,
    lent: &mut [Frame],
    room: &mut S,
    links: &mut [Link],
) -> Result<VerifiedStrictly<'b, 's, 'n>, Located>
    requires fresh { meter.count ≡ 0 }
    requires table { IsTrue (is_table question.now.rows question.now.root) }
    requires plan { IsPlan question.now.rows (plan.now).demands plan.now }
    requires lent { question.now.limits.depth ≤ length lent.old }
    requires room { question.now.limits.depth ≤ S.room room.old }
    requires links { question.now.limits.depth ≤ length links.old }
    ensures yes { IfOk result (λ v. ReportsStrictly plan.now question.now meter.entry.bytes v.report) }
    ensures walked { IfOk result (λ v. Reports question.now meter.entry.bytes (v.verified).report) }
    ensures kept { IfOk result (λ v. v.verified ≡ sealed_by question.now meter.entry.bytes (v.verified).report) }
    ensures none { IfErr result (λ _. HasNoneStrictly plan.now question.now meter.entry.bytes) }
    ensures no { IfErr result (λ l. StopsStrictly plan.now question.now meter.entry.bytes l.fault) }
    // The way to the fault, link by link.
    ensures along { IfErr result (λ l. StopsAlongStrictly plan.now question.now meter.entry.bytes l.fault (take l.links links.new)) }
    ensures few { IfErr result (λ l. l.links ≤ length links.new) }
    // The price.
    ensures price_of_yes { IfOk result (λ v. (v.report).reads ≤ most_reads_strictly question.now.rows question.now.limits (length meter.entry.bytes)) }
    ensures price_of_no { IfErr result (λ l. (l.fault).reads ≤ most_reads_strictly question.now.rows question.now.limits (length meter.entry.bytes)) }
    ensures room { S.room room.new ≡ S.room room.old }
    ensures long { length links.new ≡ length links.old }
{
    let (way, _) = links.split_at_mut(question.limits.depth() as usize);
    verdict(meter, question, plan, lent, room, way)
}
