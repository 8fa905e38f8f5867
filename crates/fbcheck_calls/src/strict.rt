//! Checks of buffers by a plan. They stand apart, so that a check without demands pays one test for them.

ghost use Rattle.std.specs.Prelude.{◌≡◌, ◌≢◌, ◌≤◌, IfErr, IfOk, IsSome, MatchResult, Some, length, take};
ghost use Rattle.fb_access.specs.Location.{location_text};
ghost use Rattle.fb_rules.specs.declared.fault.Fault.{Fault};
ghost use Rattle.fb_strict.specs.{Planned.IsPlan, declared.strictly.VerifiedStrictly.VerifiedStrictly};
ghost use Rattle.fb_verify.specs.declared.links.Located.{Located};
ghost use Rattle.fbcheck_calls.specs.{Asked.plan_asked, Reached.IsRead, Steps.AllFit, Told.found_by, Told.told, Values.AreValues, Placed.IsLocated, Placed.IsTextTold};
ghost use Rattle.fbcheck_calls.specs.{Placed.IsUntold, declared.outcome.Outcome.Outcome};

use crate::again::tell_values;
use crate::basis::Basis;
use crate::checking::{SHALLOW, metered, prepare, prepare_read};
use crate::held::{NO_LINK, Room};
use crate::options::Options;
use crate::outcome::{Verdict, tell_bad, tell_good};
use crate::place::write_place;
use crate::steps::PlainPath;
use crate::values::Value;
use fb_schema::Schema;
use fb_strict::{OnStack, Plan, VerifiedStrictly, verify_strictly, verify_strictly_and_locate};
use fb_verify::{BLANK, Fault, Link, Located};

/// The plan by which the options ask, of a schema that was made with their demands.
fn plan_of<'h>(basis: &'h Basis, options: &Options) -> &'h Plan
    requires demands { options.now.demands ≢ 0 }
    requires planned { IsSome (plan_asked basis.now options.now) }
    ensures plan { plan_asked basis.now options.now ≡ Some (Some result.now) }
    ensures fits { IsPlan basis.now.loaded.schema (result.now).demands result.now }
{
    let Some(plan) = basis.plan_for(options.demands) else {
        unreachable!()
    };
    plan
}

/// Writes what a check found, with the values at the ends of these paths in a good buffer, and answers the status.
fn tell_read(
    found: &Result<VerifiedStrictly<'_, '_, '_>, Fault>,
    paths: &[PlainPath],
    values: &mut [Value],
    verdict: &mut Verdict,
) -> u32
    requires { IfOk found.now (λ (v : VerifiedStrictly). AllFit (v.verified).schema (v.verified).root paths.now) }
    ensures told { verdict.new ≡ told (found_by (λ (v : VerifiedStrictly). v.report) (λ (f : Fault). f) found.now) }
    ensures values { MatchResult found.now
        (λ (v : VerifiedStrictly). AreValues (v.verified).bytes (v.verified).schema (v.verified).start (v.verified).root paths.now values.new) (λ _. values.new ≡ values.old) }
    ensures status { result ≡ verdict.new.status }
{
    match found {
        Ok(strict) => {
            tell_values(&strict.verified, paths, values);
            tell_good(strict.report, verdict)
        }
        Err(fault) => tell_bad(*fault, verdict),
    }
}

/// Checks a buffer by the plan in room on the call's own stack, and tells of a good one the values at the ends of these
/// paths.
#[inline(never)]
pub fn read_shallow_strictly(
    basis: &Basis,
    verdict: &mut Verdict,
    options: &Options,
    buffer: &[u8],
    paths: &[PlainPath],
    values: &mut [Value],
) -> u32
    requires demands { options.now.demands ≢ 0 }
    ensures told { (a : Outcome) × (verdict.new ≡ told a) × IsRead basis.now 64 options.now buffer.now paths.now values.old values.new a }
    ensures status { result ≡ verdict.new.status }
{
    let begun = match prepare_read(basis, SHALLOW, options, buffer, paths, verdict) {
        Ok(begun) => begun,
        Err(status) => return status,
    };
    let found = verify_strictly(
        metered(buffer),
        &begun,
        plan_of(basis, options),
        &mut [BLANK; 3],
        &mut OnStack,
    );
    tell_read(&found, paths, values, verdict)
}

/// The same in the room that is given.
#[inline(never)]
pub fn read_in_strictly(
    basis: &Basis,
    room: &mut Room,
    verdict: &mut Verdict,
    options: &Options,
    buffer: &[u8],
    paths: &[PlainPath],
    values: &mut [Value],
) -> u32
    requires demands { options.now.demands ≢ 0 }
    ensures told { (a : Outcome) × (verdict.new ≡ told a) × IsRead basis.now room.old options.now buffer.now paths.now values.old values.new a }
    ensures status { result ≡ verdict.new.status }
    ensures kept { room.new ≡ room.old }
{
    let begun = match prepare_read(basis, room.levels(), options, buffer, paths, verdict) {
        Ok(begun) => begun,
        Err(status) => return status,
    };
    let found = verify_strictly(
        metered(buffer),
        &begun,
        plan_of(basis, options),
        room.scratch.lend(),
        &mut room.pass,
    );
    tell_read(&found, paths, values, verdict)
}

/// Writes what a check found, with where the fault of a bad buffer is, and answers the status.
fn tell_located(
    found: &Result<VerifiedStrictly<'_, '_, '_>, Located>,
    schema: &Schema<'_>,
    links: &[Link],
    text: &mut [u8],
    written: &mut usize,
    verdict: &mut Verdict,
) -> u32
    requires { IfErr found.now (λ (e : Located). e.links ≤ length links.now) }
    ensures told { verdict.new ≡ told (found_by (λ (v : VerifiedStrictly). v.report) (λ (e : Located). e.fault) found.now) }
    ensures text { MatchResult found.now (λ _. IsUntold text.old text.new written.old written.new)
        (λ (e : Located). IsTextTold (location_text schema.now e.fault (take e.links links.now)) text.old text.new written.new) }
    ensures status { result ≡ verdict.new.status }
{
    match found {
        Ok(strict) => tell_good(strict.report, verdict),
        Err(located) => {
            let way = &links[..located.links as usize];
            *written = write_place(schema, &located.fault, way, text);
            tell_bad(located.fault, verdict)
        }
    }
}

/// Checks a buffer by the plan, in room on the call's own stack, and writes where the fault of a bad one is. Writes the
/// verdict too, and answers its status.
#[inline(never)]
pub fn locate_shallow_strictly(
    basis: &Basis,
    verdict: &mut Verdict,
    options: &Options,
    buffer: &[u8],
    text: &mut [u8],
    written: &mut usize,
) -> u32
    requires demands { options.now.demands ≢ 0 }
    ensures told { (a : Outcome) × (verdict.new ≡ told a) × IsLocated basis.now 64 options.now buffer.now text.old text.new written.old written.new a }
    ensures status { result ≡ verdict.new.status }
{
    let begun = match prepare(basis, SHALLOW, options, buffer, verdict) {
        Ok(begun) => begun,
        Err(status) => return status,
    };
    let schema = &basis.loaded().schema;
    let mut links = [NO_LINK; 64];
    let found = verify_strictly_and_locate(
        metered(buffer),
        &begun,
        plan_of(basis, options),
        &mut [BLANK; 64],
        &mut OnStack,
        &mut links,
    );
    tell_located(&found, schema, &links, text, written, verdict)
}

/// The same in the room that is given.
#[inline(never)]
pub fn locate_in_strictly(
    basis: &Basis,
    room: &mut Room,
    verdict: &mut Verdict,
    options: &Options,
    buffer: &[u8],
    text: &mut [u8],
    written: &mut usize,
) -> u32
    requires demands { options.now.demands ≢ 0 }
    ensures told { (a : Outcome) × (verdict.new ≡ told a) × IsLocated basis.now room.old options.now buffer.now text.old text.new written.old written.new a }
    ensures status { result ≡ verdict.new.status }
    ensures kept { room.new ≡ room.old }
{
    let begun = match prepare(basis, room.levels(), options, buffer, verdict) {
        Ok(begun) => begun,
        Err(status) => return status,
    };
    let schema = &basis.loaded().schema;
    let links = room.links.as_mut_slice();
    let found = verify_strictly_and_locate(
        metered(buffer),
        &begun,
        plan_of(basis, options),
        room.scratch.lend(),
        &mut room.pass,
        links,
    );
    tell_located(&found, schema, links, text, written, verdict)
}
