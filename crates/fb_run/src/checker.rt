//! The verifier, with what a run hands it for every buffer.

ghost use Rattle.std.specs.Prelude.{IfOk, IfErr, IfSome, None, OnOk, IsTrue, ◌≡◌, ◌++◌, ◌<◌, ◌≤◌, ◌^◌, length, map, option_map, take, vec_items};
ghost use Rattle.fb_access.specs.Denotes.{shown};
ghost use Rattle.fb_run.specs.declared.{options.Places.TheVariants.Words, checker.Course.TheVariants.Brief, checker.Course.TheVariants.BriefStrictly};
ghost use Rattle.fb_run.specs.Job.{AreAnswers, HasRoom, IsChecked, IsVerdict, PathsFit, Serves, Verdict, VerifiesBy, asked_of, brief_verdict, buffer_in, course_by, course_of};
ghost use Rattle.fb_run.specs.{Job.cut_of, Job.is_brief, Job.job_of, Job.order_of, Job.place_told, Job.skip_of, Job.start_of, Job.verdict_beside, Job.verdict_of, Line.front_in};
ghost use Rattle.fb_run.specs.{Spot.IsDue, Spot.at_first, declared.options.LineForm.TheVariants.Json};
ghost use Rattle.fb_strict.specs.AsAsked.{StopsBy, StopsAlongBy};
ghost use Rattle.fb_schema.specs.Rows.{Rows, is_table};

use crate::answers::{Answers, MOST_PATHS};
use crate::json_line::{put_no, put_yes};
use crate::options::{AskedPath, LineForm, Mode, Options, Places, Prefix, Rejects, Terms};
use crate::room::Workspace;
use crate::spot::Spot;
use fb_access::{get, place_of, put_location};
use fb_bytes::{Cut, Endian, Meter};
use fb_schema::Schema;
use fb_strict::{Room as PassRoom, VerifiedStrictly, verify_strictly, verify_strictly_and_locate};
use fb_verify::{
    Fault, Link, Located, Question, Report, Scratch, Start, Verified, verify, verify_and_locate,
    walk,
};
use std::alloc::{AllocError, Allocator};
use std::marker::Model;

/// How many bytes a message's prefix has.
const PREFIX: usize = 4;

/// By which course a message is checked and told.
#[derive(Clone, Copy)]
pub enum Course {
    /// No more is asked of a buffer than a report, or a fault by its numbers.
    Brief,
    /// The same, and there is a plan.
    BriefStrictly,
    /// Values, words or a name are asked, JSON, or rows.
    AtLength,
}

/// A buffer that is well formed, and strict where there is a plan, and what was counted.
#[derive(Drop)]
pub struct Checked<'b, 's, 'n> {
    pub verified: Verified<'b, 's, 'n>,
    pub report: Report,
}

impl<'b, 's, 'n> Checked<'b, 's, 'n> {
    /// A buffer of which a walk alone was made.
    fn of(verified: Verified<'b, 's, 'n>) -> Self
        ensures verified { result.verified ≡ verified.entry }
        ensures report { result.report ≡ verified.entry.report }
    {
        let report = verified.report();
        Checked { verified, report }
    }
}

/// What is found in a buffer that is well formed.
#[derive(Drop)]
pub struct Found<'b> {
    /// What was counted.
    pub report: Report,
    /// The values at the ends of the paths of the options.
    pub answers: Answers<'b>,
}

/// What is wrong in a buffer.
#[derive(Clone, Copy)]
pub struct Wrong<'t> {
    /// The first fault.
    pub fault: Fault,
    /// Where it is in words, where the options ask for these.
    pub place: Option<&'t [u8]>,
}

/// A schema and the options by which a run checks its buffers: the root is a table, and the paths fit from there. A
/// clause sees the job that they make.
#[derive(Drop)]
pub struct Checker<'s, 'n, 'o> {
    schema: &'s Schema<'n>,
    options: &'o Options,
    /// What the options say for every buffer, asked once: how a stream is cut into messages, how a buffer begins, how
    /// many bytes of its message stand before it, and by which course it is checked.
    cut: Cut,
    start: Start,
    skip: usize,
    course: Course,
}

impl<'s, 'n, 'o> Model for Checker<'s, 'n, 'o> {
    ghost use Rattle.std.specs.Prelude.{◌≡◌};
    ghost use Rattle.fb_run.specs.Job.{Job, Serves, course_of, cut_of, job_of, skip_of, start_of};

    ghost Value = { Job };

    ghost view = { λ c. job_of c.schema.now c.options.now };

    ghost invariant = { λ c. Serves c.schema.now c.options.now × (c.start ≡ start_of c.options.now.terms.bare c.options.now.terms.prefix)
        × (c.skip ≡ skip_of c.options.now.terms.bare c.options.now.terms.prefix) × (c.course ≡ course_of (job_of c.schema.now c.options.now))
        × (c.cut ≡ cut_of (job_of c.schema.now c.options.now)) };
}

impl<'s, 'n, 'o> Checker<'s, 'n, 'o> {
    /// The checker by this schema and these options.
    pub fn new(schema: &'s Schema<'n>, options: &'o Options) -> Checker<'s, 'n, 'o>
        requires { Serves schema.now options.now }
        ensures { result ≡ job_of schema.now options.now }
    {
        Checker {
            schema,
            options,
            cut: Cut {
                limit: options.terms.max_bytes,
                order: order(options),
            },
            start: start(options),
            skip: skip(options),
            course: course_by(options),
        }
    }

    /// What is asked of every run alike. The first message behind the bytes that are left out is told.
    pub fn terms(&self) -> &Terms
        ensures value { result.now ≡ self.now.terms }
        ensures least { 8 ≤ self.now.terms.max_bytes }
        ensures most { self.now.terms.max_bytes < 2 ^ 31 }
        ensures due { IsDue self.now (at_first self.now) }
    {
        &self.options.terms
    }

    /// How a stream is cut into messages.
    pub fn cut(&self) -> Cut
        ensures value { result ≡ cut_of self.now }
        ensures least { 8 ≤ self.now.terms.max_bytes }
        ensures most { self.now.terms.max_bytes < 2 ^ 31 }
    {
        self.cut
    }

    /// Whether bad buffers are kept.
    pub fn rejects(&self) -> Rejects
        ensures { result ≡ self.now.rejects }
    {
        self.options.rejects
    }

    /// The name of the input, where lines and rows tell it.
    pub fn label(&self) -> &Option<Vec<u8>>
        ensures { option_map vec_items result.now ≡ self.now.label }
    {
        &self.options.label
    }

    /// The paths to the values that are asked for.
    pub fn paths(&self) -> &[AskedPath]
        ensures { result.now ≡ self.now.paths }
    {
        self.options.paths.as_slice()
    }

    /// Adds what the line of this verdict on the message there has before its values as JSON, which is all of the line
    /// of a no.
    pub fn put_json<A: Allocator>(
        &self,
        text: &mut Vec<u8, A>,
        spot: &Spot,
        verdict: &Result<Found<'_>, Wrong<'_>>,
    ) -> Result<(), AllocError>
        ensures { OnOk result (text.new.items ≡ text.old.items ++ front_in Json self.now spot.now (verdict_of verdict.now)) }
    {
        let label = &self.options.label;
        match verdict {
            Ok(found) => put_yes(text, label, spot, &found.report),
            Err(wrong) => put_no(text, label, spot, self.schema, &wrong.fault, wrong.place),
        }
    }

    /// Room for as many open tables as the limits allow, for as many of a pass where there is a plan, and for as many
    /// links where words are asked for.
    pub fn room<'a, A: Allocator>(&self, alloc: &'a A) -> Result<Workspace<&'a A>, AllocError>
        ensures { IfOk result (HasRoom self.now) }
    {
        Workspace::new(alloc, self.options)
    }

    /// The verdict on the buffer in a message: what is found in it, with the values at the ends of the paths, or the
    /// fault, whose place in words is left in the room where the options ask for it.
    ///
    /// # Errors
    ///
    /// `AllocError` where there was no memory for these words, and only where they are asked for.
    pub fn verdict<'b, A: Allocator>(
        &self,
        room: &mut Workspace<A>,
        message: &'b [u8],
    ) -> Result<Result<Found<'b>, Fault>, AllocError>
        requires room { HasRoom self.now room.old }
        requires short { length message.now < 2 ^ 31 }
        ensures verdict { IfOk result (λ verdict. IsVerdict self.now (buffer_in self.now message.now) (verdict_beside self.now room.new.text verdict)) }
        ensures refused { IfErr result (λ _. (verdict : Verdict) × IsVerdict self.now (buffer_in self.now message.now) verdict) }
        ensures asked { IfErr result (λ _. self.now.terms.names ≡ Words) }
        ensures room { HasRoom self.now room.new }
    {
        match self.verified(room, self.metered(message))? {
            Ok(Checked { verified, report }) => {
                let answers = answers_in(&verified, self.options.paths.as_slice());
                Ok(Ok(Found { report, answers }))
            }
            Err(fault) => Ok(Err(fault)),
        }
    }

    /// By which course messages are checked.
    #[inline(always)]
    pub fn course(&self) -> Course
        ensures value { result ≡ course_of self.now }
        ensures brief { result ≡ Brief → IsTrue (is_brief self.now) }
        ensures lenient { result ≡ Brief → self.now.plan ≡ None }
        ensures strict { result ≡ BriefStrictly → IsTrue (is_brief self.now) }
    {
        self.course
    }

    /// The verdict on a buffer of which nothing was read yet, where no more is asked and there is no plan: the report,
    /// or the fault. Afterwards the meter has counted the reads that it tells.
    #[inline(always)]
    pub fn report<A: Allocator>(
        &self,
        room: &mut Workspace<A>,
        meter: &mut Meter<'_>,
    ) -> Result<Report, Fault>
        requires brief { IsTrue (is_brief self.now) }
        requires lenient { self.now.plan ≡ None }
        requires room { HasRoom self.now room.old }
        requires fresh { meter.old.count ≡ 0 }
        ensures verdict { IsVerdict self.now meter.old.bytes (brief_verdict result) }
        ensures read { IfOk result (λ r. meter.new.count ≡ r.reads) }
        ensures stopped { IfErr result (λ f. meter.new.count ≡ f.reads) }
        ensures bytes { meter.new.bytes ≡ meter.old.bytes }
        ensures same { meter.new.mark ≡ meter.old.mark }
        ensures room { HasRoom self.now room.new }
    {
        let question = self.question(meter);
        walk(meter, &question, room.scratch.lend())
    }

    /// The verdict on a buffer of which nothing was read yet, where no more is asked: the report, with the reads of the
    /// pass where there is a plan, or the fault.
    pub fn report_strictly<A: Allocator>(
        &self,
        room: &mut Workspace<A>,
        meter: Meter<'_>,
    ) -> Result<Report, Fault>
        requires brief { IsTrue (is_brief self.now) }
        requires room { HasRoom self.now room.old }
        requires fresh { meter.count ≡ 0 }
        ensures verdict { IsVerdict self.now meter.entry.bytes (brief_verdict result) }
        ensures room { HasRoom self.now room.new }
    {
        match self.checked(room, meter) {
            Ok(checked) => Ok(checked.report),
            Err(fault) => Err(fault),
        }
    }

    /// The buffer in a message, of which nothing was read yet: all of it, or what stands behind a prefix that is no part
    /// of it.
    #[inline(always)]
    pub(crate) fn metered<'b>(&self, message: &'b [u8]) -> Meter<'b>
        requires short { length message.now < 2 ^ 31 }
        ensures bytes { result.bytes ≡ buffer_in self.now message.now }
        ensures fresh { result.count ≡ 0 }
    {
        let bytes = if self.skip <= message.len() {
            &message[self.skip..]
        } else {
            &[]
        };
        match Meter::new(bytes) {
            Ok(meter) => meter,
            Err(_) => unreachable!(),
        }
    }

    /// What is asked of a buffer, within limits by its length.
    fn question(&self, meter: &Meter<'_>) -> Question<'s, 'n>
        ensures asks { result ≡ asked_of self.now meter.now.bytes }
        ensures table { IsTrue (is_table result.rows result.root) }
    {
        let options = self.options;
        let terms = options.terms;
        Question {
            schema: self.schema,
            root: options.root,
            start: self.start,
            ident: options.ident,
            limits: terms.limits.of_length(terms.reads_per_byte, meter.len()),
            checks: terms.checks,
        }
    }

    /// The buffer, where it is well formed, and strict where there is a plan, or its fault, whose place in words is
    /// left in the room where the options ask for it.
    #[tactic(auto, using(std::proofs::lemmas::Grind::common_steps))]
    fn verified<'b, A: Allocator>(
        &self,
        room: &mut Workspace<A>,
        meter: Meter<'b>,
    ) -> Result<Result<Checked<'b, 's, 'n>, Fault>, AllocError>
        requires room { HasRoom self.now room.old }
        requires fresh { meter.count ≡ 0 }
        ensures verdict { VerifiesBy self.now meter.entry.bytes room.new.text result }
        ensures room { HasRoom self.now room.new }
    {
        let schema = self.schema;
        let scratch = &mut room.scratch;
        let pass = &mut room.pass;
        let links = &mut room.links;
        match self.options.terms.names {
            Places::Numbers => Ok(self.checked(room, meter)),
            Places::Words => match self.located(meter, scratch, pass, links) {
                Ok(checked) => Ok(Ok(checked)),
                Err(Located { fault, links }) => {
                    room.text.clear();
                    let links = &room.links[..links as usize];
                    match put_place(
                        &mut room.text,
                        self.options.terms.form,
                        schema,
                        &fault,
                        links,
                    ) {
                        Ok(()) => Ok(Err(fault)),
                        Err(refused) => Err(refused),
                    }
                }
            },
        }
    }

    /// The buffer, where it is well formed, and strict where there is a plan, or its fault.
    fn checked<'b, A: Allocator>(
        &self,
        room: &mut Workspace<A>,
        meter: Meter<'b>,
    ) -> Result<Checked<'b, 's, 'n>, Fault>
        requires room { HasRoom self.now room.old }
        requires fresh { meter.count ≡ 0 }
        ensures yes { IfOk result (IsChecked self.now meter.entry.bytes) }
        ensures no { IfErr result (StopsBy self.now.plan (asked_of self.now meter.entry.bytes) meter.entry.bytes) }
        ensures room { room.new ≡ room.old }
    {
        let question = self.question(&meter);
        let scratch = &mut room.scratch;
        let pass = &mut room.pass;
        let plan = &self.options.plan;
        match plan {
            None => match verify(meter, &question, scratch.lend()) {
                Ok(verified) => Ok(Checked::of(verified)),
                Err(fault) => Err(fault),
            },
            Some(plan) => match verify_strictly(meter, &question, plan, scratch.lend(), pass) {
                Ok(VerifiedStrictly { verified, report }) => Ok(Checked { verified, report }),
                Err(fault) => Err(fault),
            },
        }
    }

    /// The same, and where there is a fault, the links that lead to it are put at the front of `links`.
    fn located<'b, A: Allocator>(
        &self,
        meter: Meter<'b>,
        scratch: &mut Scratch<A>,
        pass: &mut PassRoom<A>,
        links: &mut [Link],
    ) -> Result<Checked<'b, 's, 'n>, Located>
        requires fresh { meter.count ≡ 0 }
        requires scratch { self.now.terms.limits.depth ≤ scratch.old }
        requires pass { IfSome self.now.plan (λ _. self.now.terms.limits.depth ≤ pass.old) }
        requires links { self.now.terms.limits.depth ≤ length links.old }
        ensures yes { IfOk result (IsChecked self.now meter.entry.bytes) }
        ensures no { IfErr result (λ l. StopsBy self.now.plan (asked_of self.now meter.entry.bytes) meter.entry.bytes l.fault) }
        ensures along { IfErr result (λ l. StopsAlongBy self.now.plan (asked_of self.now meter.entry.bytes) meter.entry.bytes l.fault (take l.links links.new)) }
        ensures few { IfErr result (λ l. l.links ≤ length links.new) }
        ensures scratch { scratch.new ≡ scratch.old }
        ensures pass { pass.new ≡ pass.old }
        ensures long { length links.new ≡ length links.old }
    {
        let question = self.question(&meter);
        let lent = scratch.lend();
        match &self.options.plan {
            None => match verify_and_locate(meter, &question, lent, links) {
                Ok(verified) => Ok(Checked::of(verified)),
                Err(located) => Err(located),
            },
            Some(plan) => match verify_strictly_and_locate(
                meter, &question, plan, lent, pass, links,
            ) {
                Ok(VerifiedStrictly { verified, report }) => Ok(Checked { verified, report }),
                Err(located) => Err(located),
            },
        }
    }

    /// The verdict, where a fault has its place in words from the room if the options ask for them, and what its line
    /// begins with.
    pub fn told<'b, 't, A: Allocator>(
        &self,
        room: &'t Workspace<A>,
        verdict: Result<Found<'b>, Fault>,
    ) -> (Result<Found<'b>, Wrong<'t>>, &'t [u8])
        ensures verdict { verdict_of result.0 ≡ verdict_beside self.now room.now.text verdict.entry }
        ensures begin { result.1.now ≡ room.now.label }
    {
        let begin = room.label.as_slice();
        match verdict {
            Ok(found) => (Ok(found), begin),
            Err(fault) => {
                let place = match self.options.terms.names {
                    Places::Numbers => None,
                    Places::Words => Some(room.text.as_slice()),
                };
                (Err(Wrong { fault, place }), begin)
            }
        }
    }
}

/// How each buffer begins.
fn start(options: &Options) -> Start
    ensures { result ≡ start_of options.now.terms.bare options.now.terms.prefix }
{
    match options.terms.prefix {
        Prefix::Part if !options.terms.bare => Start::Prefixed,
        _ => Start::Bare,
    }
}

/// How many bytes of a message stand before the buffer.
#[tactic(auto, using(std::proofs::lemmas::Grind::common_steps))]
fn skip(options: &Options) -> usize
    ensures { result ≡ skip_of options.now.terms.bare options.now.terms.prefix }
{
    match options.terms.prefix {
        Prefix::Apart(_) if !options.terms.bare => PREFIX,
        _ => 0,
    }
}

/// In which order the bytes of a message's length stand.
fn order(options: &Options) -> Endian
    ensures { result ≡ order_of options.now.terms.prefix }
{
    match options.terms.prefix {
        Prefix::Apart(order) => order,
        Prefix::Part => Endian::Little,
    }
}

/// Whether no more is asked of a buffer than a report, or a fault by its numbers: neither values, nor words, nor a
/// name, nor JSON, nor rows.
fn is_brief(options: &Options) -> bool
    ensures { (rows : Rows) → result ≡ is_brief (job_of rows options.now) }
{
    let Terms {
        names,
        form,
        mode,
        ..
    } = options.terms;
    match (names, form, mode) {
        (_, _, Mode::Csv) => false,
        (Places::Numbers, LineForm::Plain, _) => {
            options.paths.is_empty() && options.label.is_none()
        }
        _ => false,
    }
}

/// By which course messages are checked.
fn course_by(options: &Options) -> Course
    ensures { (rows : Rows) → result ≡ course_of (job_of rows options.now) }
{
    match (is_brief(options), &options.plan) {
        (true, None) => Course::Brief,
        (true, Some(_)) => Course::BriefStrictly,
        (false, _) => Course::AtLength,
    }
}

/// Adds the place of a fault in words.
fn put_place<A: Allocator>(
    text: &mut Vec<u8, A>,
    form: LineForm,
    schema: &Schema<'_>,
    fault: &Fault,
    links: &[Link],
) -> Result<(), AllocError>
    ensures ok { OnOk result (text.new.items ≡ text.old.items ++ place_told form schema.now fault.now links.now) }
{
    match form {
        LineForm::Plain => put_location(text, schema, fault, links),
        LineForm::Json => text.extend_from_slice(place_of(schema, links).as_slice()),
    }
}

/// The values at the ends of the paths.
fn answers_in<'b>(verified: &Verified<'b, '_, '_>, paths: &[AskedPath]) -> Answers<'b>
    requires fit { PathsFit (verified.now).schema (verified.now).root paths.now }
    requires few { length paths.now ≤ MOST_PATHS }
    ensures { AreAnswers (verified.now).bytes (verified.now).schema (verified.now).start (verified.now).root paths.now (map shown result) }
{
    let mut answers = Answers::new();
    for asked in paths {
        answers.push(get(verified, asked.path()));
    }
    answers
}
