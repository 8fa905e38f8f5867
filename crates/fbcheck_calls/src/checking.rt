//! The checks of buffers by a schema.

ghost use Rattle.std.specs.Prelude.{◌≡◌, ◌<◌, ◌≤◌, ◌^◌, IfOk, IfSome, MatchOption, MatchResult, length};
ghost use Rattle.fb_rules.specs.{Question.Question, declared.fault.Fault.Fault, declared.fault.Report.Report};
ghost use Rattle.fb_verify.specs.Sealed.{Sealed};
ghost use Rattle.fbcheck_calls.specs.Answered.{Begins, CanBegin, IfSchema, IsChecked, IsPriced, IsTold, IsUnchecked, IsUnserved, Starts, levels};
ghost use Rattle.fbcheck_calls.specs.{Steps.AllFit, Told.found_by, Told.told, Values.AreValues, Reached.IsRead, Reached.IsReadBy, Reached.IsUnread, Reached.StartsRead};
ghost use Rattle.fbcheck_calls.specs.declared.outcome.Outcome.{Outcome};

use crate::again::tell_values;
use crate::basis::Basis;
use crate::fits::first_misfit;
use crate::handle::Handle;
use crate::held::{Held, Room};
use crate::options::{DEEPEST, LONGEST, Options};
use crate::outcome::{Outcome, Verdict, low, tell_bad, tell_blank, tell_good};
use crate::status::Status;
use crate::steps::PlainPath;
use crate::strict::{read_in_strictly, read_shallow_strictly};
use crate::values::Value;
use fb_bfbs::Loaded;
use fb_bytes::Meter;
use fb_strict::most_reads_strictly;
use fb_verify::{BLANK, Fault, Question, Report, Verified, most_reads, verify, walk};
use std::alloc::Global;

/// The levels for which a call has room on its own stack.
pub const SHALLOW: u32 = 64;

/// What a check of so many bytes by these options begins with, in room for so many levels; none where it can't. So
/// whatever keeps it from beginning is one way out, and [`refuse`] looks for the reason.
#[inline(always)]
fn begin<'h>(
    basis: &'h Basis,
    levels: u32,
    options: &Options,
    length: u64,
) -> Option<Question<'h, 'static>>
    ensures begins { MatchOption result (CanBegin basis.now levels options.now → ⊥) (Begins basis.now levels options.now length) }
    ensures depth { IfSome result (λ (begun : Question). begun.limits.depth ≤ levels) }
{
    if !options.have_limits(levels) {
        return None;
    }
    if !basis.serves(options) {
        return None;
    }
    let root = basis.root(options)?;
    let ident = options.ident(basis.loaded())?;
    Some(Question {
        schema: &basis.loaded().schema,
        root,
        start: options.start(),
        ident,
        limits: options.limits_of(length),
        checks: options.checks(),
    })
}

/// Why no check can begin by these options, in room for so many levels.
fn why_unserved(basis: &Basis, levels: u32, options: &Options) -> Outcome
    requires { CanBegin basis.now levels options.now → ⊥ }
    ensures { IsUnserved basis.now levels options.now result }
{
    if !options.are_known() {
        return Outcome::UnknownOptions;
    }
    if !options.have_limits(levels) {
        return Outcome::OutOfRange;
    }
    if !basis.serves(options) {
        return Outcome::NotPlanned;
    }
    if basis.root(options).is_none() {
        return Outcome::NoRoot;
    }
    Outcome::NoIdent
}

/// Writes why no check can begin by these options, in room for so many levels, and answers the status.
#[cold]
#[inline(never)]
fn refuse(basis: &Basis, levels: u32, options: &Options, verdict: &mut Verdict) -> u32
    requires { CanBegin basis.now levels options.now → ⊥ }
    ensures { IsTold verdict.new (IsUnserved basis.now levels options.now) result }
{
    why_unserved(basis, levels, options).tell(verdict)
}

/// What a check of a buffer by these options begins with, in room for so many levels. Where it can't begin, or the
/// buffer is too long, the verdict says why.
///
/// # Errors
///
/// The status of that verdict.
#[inline(always)]
pub fn prepare<'h>(
    basis: &'h Basis,
    levels: u32,
    options: &Options,
    buffer: &[u8],
    verdict: &mut Verdict,
) -> Result<Question<'h, 'static>, u32>
    ensures starts { MatchResult result (Starts basis.now levels options.now buffer.now) (IsTold verdict.new (IsUnchecked basis.now levels options.now buffer.now)) }
    ensures depth { IfOk result (λ (begun : Question). begun.limits.depth ≤ levels) }
{
    let length = buffer.len() as u64;
    let Some(begun) = begin(basis, levels, options, length) else {
        return Err(refuse(basis, levels, options, verdict));
    };
    if length > LONGEST {
        return Err(tell_blank(Status::TooLong, verdict));
    }
    Ok(begun)
}

/// A buffer that isn't too long, with its reads.
#[inline(always)]
pub fn metered(buffer: &[u8]) -> Meter<'_>
    requires { length buffer.now < 2 ^ 31 }
    ensures bytes { result.bytes ≡ buffer.now }
    ensures fresh { result.count ≡ 0 }
{
    match Meter::new(buffer) {
        Ok(meter) => meter,
        Err(_) => unreachable!(),
    }
}

/// Writes what a check found, and answers the status.
#[inline(always)]
fn tell_found(found: Result<Report, Fault>, verdict: &mut Verdict) -> u32
    ensures told { verdict.new ≡ told (found_by (λ (r : Report). r) (λ (f : Fault). f) found) }
    ensures status { result ≡ verdict.new.status }
{
    match found {
        Ok(report) => tell_good(report, verdict),
        Err(fault) => tell_bad(fault, verdict),
    }
}

/// Checks a buffer by no plan, in room on the call's own stack. Writes the verdict, and answers its status.
#[inline(always)]
fn walk_alone(basis: &Basis, verdict: &mut Verdict, options: &Options, buffer: &[u8]) -> u32
    requires plain { options.now.demands ≡ 0 }
    ensures told { (a : Outcome) × (verdict.new ≡ told a) × IsChecked basis.now 64 options.now buffer.now a }
    ensures status { result ≡ verdict.new.status }
{
    let begun = match prepare(basis, SHALLOW, options, buffer, verdict) {
        Ok(begun) => begun,
        Err(status) => return status,
    };
    let found = walk(&mut metered(buffer), &begun, &mut [BLANK; 5]);
    tell_found(found, verdict)
}

/// The same in the room that is given.
#[inline(always)]
fn walk_within(
    basis: &Basis,
    room: &mut Room,
    verdict: &mut Verdict,
    options: &Options,
    buffer: &[u8],
) -> u32
    requires plain { options.now.demands ≡ 0 }
    ensures told { (a : Outcome) × (verdict.new ≡ told a) × IsChecked basis.now room.old options.now buffer.now a }
    ensures status { result ≡ verdict.new.status }
    ensures kept { room.new ≡ room.old }
{
    let begun = match prepare(basis, room.levels(), options, buffer, verdict) {
        Ok(begun) => begun,
        Err(status) => return status,
    };
    let found = walk(&mut metered(buffer), &begun, room.scratch.lend());
    tell_found(found, verdict)
}

/// Checks a buffer by a schema as the options ask, in room on the call's own stack. Writes the verdict, and answers its
/// status.
#[inline(never)]
pub fn check_alone(held: &Held, verdict: &mut Verdict, options: &Options, buffer: &[u8]) -> u32
    ensures told { (a : Outcome) × (verdict.new ≡ told a) × IfSchema held.now a (λ s. IsChecked s 64 options.now buffer.now a) }
    ensures status { result ≡ verdict.new.status }
{
    let Held::Schema(basis) = held else {
        return tell_blank(Status::NoRoot, verdict);
    };
    if !options.ask_published_tests() {
        return read_shallow(basis, verdict, options, buffer, &[], &mut []);
    }
    walk_alone(basis, verdict, options, buffer)
}

/// The same in the room that is given.
#[inline(always)]
fn check_within(
    held: &Held,
    room: &mut Room,
    verdict: &mut Verdict,
    options: &Options,
    buffer: &[u8],
) -> u32
    ensures told { (a : Outcome) × (verdict.new ≡ told a) × IfSchema held.now a (λ s. IsChecked s room.old options.now buffer.now a) }
    ensures status { result ≡ verdict.new.status }
    ensures kept { room.new ≡ room.old }
{
    let Held::Schema(basis) = held else {
        return tell_blank(Status::NoRoot, verdict);
    };
    if !options.ask_published_tests() {
        return read_in(basis, room, verdict, options, buffer, &[], &mut []);
    }
    walk_within(basis, room, verdict, options, buffer)
}

/// Checks a buffer by a schema: in the room of a handle, or on the call's own stack where it holds none. Writes the
/// verdict, and answers its status.
#[inline(never)]
pub fn check(
    alloc: Global,
    held: &Held,
    handle: &mut Handle,
    options: &Options,
    buffer: &[u8],
    verdict: &mut Verdict,
) -> u32
    ensures told { (a : Outcome) × (verdict.new ≡ told a) × IfSchema held.now a (λ s. IsChecked s (levels handle.old.inside) options.now buffer.now a) }
    ensures status { result ≡ verdict.new.status }
    ensures kept { handle.new.inside ≡ handle.old.inside }
{
    let Some(mut taken) = handle.take(alloc) else {
        return check_alone(held, verdict, options, buffer);
    };
    let inside = &mut *taken;
    let status = match inside {
        Held::Room(room) => check_within(held, room, verdict, options, buffer),
        Held::Schema(_) => check_alone(held, verdict, options, buffer),
    };
    handle.put(taken);
    status
}

/// What a check begins with that tells values at the ends of these paths, as [`prepare`] has it. `Misfit` of the first
/// that doesn't fit the schema from the root table, whatever the buffer is.
///
/// # Errors
///
/// The status of the verdict that says why it can't begin.
#[inline(always)]
pub fn prepare_read<'h>(
    basis: &'h Basis,
    levels: u32,
    options: &Options,
    buffer: &[u8],
    paths: &[PlainPath],
    verdict: &mut Verdict,
) -> Result<Question<'h, 'static>, u32>
    ensures starts { MatchResult result (StartsRead basis.now levels options.now buffer.now paths.now) (IsTold verdict.new (IsUnread basis.now levels options.now buffer.now paths.now)) }
    ensures depth { IfOk result (λ (begun : Question). begun.limits.depth ≤ levels) }
{
    let length = buffer.len() as u64;
    let Some(begun) = begin(basis, levels, options, length) else {
        return Err(refuse(basis, levels, options, verdict));
    };
    if let Some(place) = first_misfit(&basis.loaded().schema, begun.root, paths) {
        return Err(Outcome::Misfit(place).tell(verdict));
    }
    if length > LONGEST {
        return Err(tell_blank(Status::TooLong, verdict));
    }
    Ok(begun)
}

/// Writes what a check found, with the values at the ends of these paths in a good buffer, and answers the status.
#[inline(always)]
fn tell_read(
    found: &Result<Verified<'_, '_, '_>, Fault>,
    paths: &[PlainPath],
    values: &mut [Value],
    verdict: &mut Verdict,
) -> u32
    requires { IfOk found.now (λ (v : Sealed). AllFit v.schema v.root paths.now) }
    ensures told { verdict.new ≡ told (found_by (λ (v : Sealed). v.report) (λ (f : Fault). f) found.now) }
    ensures values { MatchResult found.now (λ (v : Sealed). AreValues v.bytes v.schema v.start v.root paths.now values.new) (λ _. values.new ≡ values.old) }
    ensures status { result ≡ verdict.new.status }
{
    match found {
        Ok(verified) => {
            tell_values(verified, paths, values);
            tell_good(verified.report(), verdict)
        }
        Err(fault) => tell_bad(*fault, verdict),
    }
}

/// Checks a buffer in room on the call's own stack, and tells of a good one the values at the ends of these paths. It and
/// the next also make all checks without paths but those by the published tests, which so are constants where they are
/// made.
#[inline(never)]
fn read_shallow(
    basis: &Basis,
    verdict: &mut Verdict,
    options: &Options,
    buffer: &[u8],
    paths: &[PlainPath],
    values: &mut [Value],
) -> u32
    ensures told { (a : Outcome) × (verdict.new ≡ told a) × IsRead basis.now 64 options.now buffer.now paths.now values.old values.new a }
    ensures status { result ≡ verdict.new.status }
{
    if options.demands != 0 {
        return read_shallow_strictly(basis, verdict, options, buffer, paths, values);
    }
    let begun = match prepare_read(basis, SHALLOW, options, buffer, paths, verdict) {
        Ok(begun) => begun,
        Err(status) => return status,
    };
    let found = verify(metered(buffer), &begun, &mut [BLANK; 5]);
    tell_read(&found, paths, values, verdict)
}

/// The same in the room that is given.
#[inline(never)]
fn read_in(
    basis: &Basis,
    room: &mut Room,
    verdict: &mut Verdict,
    options: &Options,
    buffer: &[u8],
    paths: &[PlainPath],
    values: &mut [Value],
) -> u32
    ensures told { (a : Outcome) × (verdict.new ≡ told a) × IsRead basis.now room.old options.now buffer.now paths.now values.old values.new a }
    ensures status { result ≡ verdict.new.status }
    ensures kept { room.new ≡ room.old }
{
    if options.demands != 0 {
        return read_in_strictly(basis, room, verdict, options, buffer, paths, values);
    }
    let begun = match prepare_read(basis, room.levels(), options, buffer, paths, verdict) {
        Ok(begun) => begun,
        Err(status) => return status,
    };
    let found = verify(metered(buffer), &begun, room.scratch.lend());
    tell_read(&found, paths, values, verdict)
}

/// Checks a buffer as [`check`] does, and tells of a good one the values at the ends of these paths.
pub fn read(
    alloc: Global,
    held: &Held,
    handle: &mut Handle,
    verdict: &mut Verdict,
    options: &Options,
    buffer: &[u8],
    paths: &[PlainPath],
    values: &mut [Value],
) -> u32
    ensures told { (a : Outcome) × (verdict.new ≡ told a) × IsReadBy held.now (levels handle.old.inside) options.now buffer.now paths.now values.old values.new a }
    ensures status { result ≡ verdict.new.status }
    ensures kept { handle.new.inside ≡ handle.old.inside }
{
    let Held::Schema(basis) = held else {
        return tell_blank(Status::NoRoot, verdict);
    };
    let Some(mut taken) = handle.take(alloc) else {
        return read_shallow(basis, verdict, options, buffer, paths, values);
    };
    let inside = &mut *taken;
    let status = match inside {
        Held::Room(room) => read_in(basis, room, verdict, options, buffer, paths, values),
        Held::Schema(_) => read_shallow(basis, verdict, options, buffer, paths, values),
    };
    handle.put(taken);
    status
}

/// How many reads a check of so many bytes makes at most, with those of the pass where the options have demands.
///
/// # Errors
///
/// As [`Options::limits`] has it for 4,096 levels; then `NotPlanned`.
pub fn price(held: &Held, options: &Options, length: u64) -> Result<u64, Outcome>
    ensures { IsPriced held.now options.now length result }
{
    let Held::Schema(basis) = held else {
        return Err(Outcome::NoRoot);
    };
    let limits = options.limits(DEEPEST, length)?;
    if !basis.serves(options) {
        return Err(Outcome::NotPlanned);
    }
    let schema = &basis.loaded().schema;
    if options.demands == 0 {
        return Ok(low(most_reads(schema, limits, length)));
    }
    Ok(low(most_reads_strictly(schema, limits, length)))
}
