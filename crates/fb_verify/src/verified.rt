// A buffer that was verified, with its schema.

ghost use Rattle.std.specs.Prelude.{◌≡◌, ◌+◌, ◌<◌, ◌≤◌, ◌++◌, length, map, max, min, take, IfOk, IfErr, IsTrue};
ghost use Rattle.fb_schema.specs.Rows.{is_table};
ghost use Rattle.fb_rules.specs.{Links.StopsAlong, MostReads.most_reads, Stops.Stops, Verdict.Reports, Verdict.HasNone, Told.stopped};
ghost use Rattle.std.specs.List.{All};
ghost use Rattle.fb_bytes.specs.Word.{while_lent};
ghost use Rattle.fb_verify.specs.{Sealed.IsUnfolded, Sealed.sealed_by, Stack.IsLinked, Stack.frame_link, Stack.last_link, Stack.links_left};

use crate::links::{Located, put_links};
use crate::scratch::Frame;
use crate::verdict::{trace, walk};
use fb_bytes::{Meter, Window};
use fb_rules::checks::Checks;
use fb_rules::fault::{Fault, Report};
use fb_rules::link::Link;
use fb_rules::question::Question;
use fb_rules::site::Halt;
use fb_rules::start::Start;
use fb_schema::Schema;
use std::marker::Model;

/// A buffer that unfolds by the schema from the root. It borrows the bytes and the schema.
#[derive(Drop)]
pub struct Verified<'b, 's, 'n> {
    window: Window<'b>,
    schema: &'s Schema<'n>,
    root: u32,
    start: Start,
    checks: Checks,
    report: Report,
}

impl<'b, 's, 'n> Model for Verified<'b, 's, 'n> {
    ghost use Rattle.fb_verify.specs.Sealed.{Sealed, IsUnfolded};

    ghost Value = { Sealed };

    ghost view = { λ v. record { bytes = v.window; schema = v.schema.now; root = v.root; start = v.start; checks = v.checks; report = v.report } };

    ghost invariant = { λ v. IsUnfolded (record { bytes = v.window; schema = v.schema.now; root = v.root; start = v.start; checks = v.checks; report = v.report }) };
}

impl<'b, 's, 'n> Verified<'b, 's, 'n> {
    /// Seals a buffer of which a walk has made this report.
    #[inline(always)]
    fn of(meter: Meter<'b>, question: &Question<'s, 'n>, report: Report) -> Self
        requires settled { meter.count < while_lent }
        requires table { IsTrue (is_table question.now.rows question.now.root) }
        requires reports { Reports question.now meter.bytes report }
        ensures { result ≡ sealed_by question.now meter.entry.bytes report }
    {
        Verified {
            window: meter.seal(),
            schema: question.schema,
            root: question.root,
            start: question.start,
            checks: question.checks,
            report,
        }
    }

    /// What was counted.
    pub fn report(&self) -> Report
        ensures value { result ≡ (self.now).report }
        ensures unfolds { IsUnfolded self.now }
    {
        self.report
    }

    /// The bytes, which may now be read freely.
    pub fn window(&self) -> &Window<'b>
        ensures value { result.now ≡ (self.now).bytes }
        ensures unfolds { IsUnfolded self.now }
    {
        &self.window
    }

    /// The schema by which they were verified.
    pub fn schema(&self) -> &'s Schema<'n>
        ensures value { result.now ≡ (self.now).schema }
        ensures unfolds { IsUnfolded self.now }
    {
        self.schema
    }

    /// The number of the root table's object.
    pub fn root(&self) -> u32
        ensures value { result ≡ (self.now).root }
        ensures unfolds { IsUnfolded self.now }
    {
        self.root
    }

    /// How the buffer begins.
    pub fn start(&self) -> Start
        ensures value { result ≡ (self.now).start }
        ensures unfolds { IsUnfolded self.now }
    {
        self.start
    }

    /// The checks that were made.
    pub fn checks(&self) -> Checks
        ensures value { result ≡ (self.now).checks }
        ensures unfolds { IsUnfolded self.now }
    {
        self.checks
    }
}

/// Checks a buffer as [`walk`] does, and then seals it.
///
/// # Errors
///
/// The fault that `walk` answers.
pub fn verify<'b, 's, 'n>(
    meter: Meter<'b>,
    question: &Question<'s, 'n>,
    frames: &mut [Frame],
) -> Result<Verified<'b, 's, 'n>, Fault>
    requires fresh { meter.count ≡ 0 }
    requires table { IsTrue (is_table question.now.rows question.now.root) }
    requires some { min question.now.limits.depth 1 ≤ length frames.old }
    requires room { question.now.limits.depth ≤ max 64 (length frames.old) }
    // A yes: a tree is well formed and within the limits, and the report counts it.
    ensures yes { IfOk result (λ v. Reports question.now meter.entry.bytes v.report) }
    ensures kept { IfOk result (λ v. v ≡ sealed_by question.now meter.entry.bytes v.report) }
    // A no: no tree is, and the fault is the first condition that fails.
    ensures none { IfErr result (λ _. HasNone question.now meter.entry.bytes) }
    ensures no { IfErr result (λ f. Stops question.now meter.entry.bytes f) }
    // The price.
    ensures price_of_yes { IfOk result (λ v. (v.report).reads ≤ most_reads question.now.rows question.now.limits (length meter.entry.bytes)) }
    ensures price_of_no { IfErr result (λ f. f.reads ≤ most_reads question.now.rows question.now.limits (length meter.entry.bytes)) }
{
    let mut meter = meter;
    match walk(&mut meter, question, frames) {
        Ok(report) => Ok(Verified::of(meter, question, report)),
        Err(fault) => Err(fault),
    }
}

/// The same, and where there is a fault, the links that lead to it are put at the front of `links`, the root's first.
/// There must be room for as many as the depth limit says, and as many frames. No link leads to a fault at the start of
/// a buffer or at the head of its root table. For each link at most six numbers are read again, which the fault's reads
/// don't count.
///
/// # Errors
///
/// The fault that [`verify`] answers, with the number of these links.
pub fn verify_and_locate<'b, 's, 'n>(
    meter: Meter<'b>,
    question: &Question<'s, 'n>,
    frames: &mut [Frame],
    links: &mut [Link],
) -> Result<Verified<'b, 's, 'n>, Located>
    requires fresh { meter.count ≡ 0 }
    requires table { IsTrue (is_table question.now.rows question.now.root) }
    requires room { question.now.limits.depth ≤ length frames.old }
    requires links { question.now.limits.depth ≤ length links.old }
    ensures yes { IfOk result (λ v. Reports question.now meter.entry.bytes v.report) }
    ensures kept { IfOk result (λ v. v ≡ sealed_by question.now meter.entry.bytes v.report) }
    ensures none { IfErr result (λ _. HasNone question.now meter.entry.bytes) }
    ensures no { IfErr result (λ l. Stops question.now meter.entry.bytes l.fault) }
    ensures along { IfErr result (λ l. StopsAlong question.now meter.entry.bytes l.fault (take l.links links.new)) }
    ensures few { IfErr result (λ l. l.links ≤ length links.new) }
    ensures price_of_yes { IfOk result (λ v. (v.report).reads ≤ most_reads question.now.rows question.now.limits (length meter.entry.bytes)) }
    ensures price_of_no { IfErr result (λ l. (l.fault).reads ≤ most_reads question.now.rows question.now.limits (length meter.entry.bytes)) }
    ensures room { length links.new ≡ length links.old }
{
    let mut meter = meter;
    let mut loan = meter.lend();
    let answer = trace(&mut loan, question, frames);
    meter.settle(loan);
    match answer {
        Ok(report) => Ok(Verified::of(meter, question, report)),
        Err(halt) => Err(located(meter, question, frames, halt, links)),
    }
}

/// The fault where a walk stopped, and the links of the frames that lead to it.
#[inline(always)]
fn located(
    meter: Meter<'_>,
    question: &Question<'_, '_>,
    frames: &[Frame],
    halt: Halt,
    links: &mut [Link],
) -> Located
    requires settled { meter.count < while_lent }
    requires linked { All (IsLinked question.now.checks meter.bytes question.now.rows) (take halt.links frames.now) }
    requires deep { halt.links + links_left halt.last ≤ question.now.limits.depth }
    requires frames { question.now.limits.depth ≤ length frames.now }
    requires room { question.now.limits.depth ≤ length links.old }
    ensures fault { result.fault ≡ stopped halt.stop meter.entry.count }
    ensures links { take result.links links.new ≡ map (frame_link meter.entry.bytes question.now.rows) (take halt.links frames.now) ++ last_link halt.last result.fault }
    ensures within { result.links ≤ length links.new }
{
    let fault = halt.stop.fault(&meter);
    let window = meter.seal();
    let frames = &frames[..halt.links as usize];
    let (schema, checks) = (question.schema, question.checks);
    let _deepest = question.limits.depth();
    let links = put_links(&window, schema, checks, frames, halt.last, &fault, links);
    Located { fault, links }
}
