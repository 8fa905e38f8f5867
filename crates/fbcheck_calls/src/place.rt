//! The place of a fault in words.

ghost use Rattle.std.specs.Prelude.{◌≡◌, ◌≤◌, IfErr, MatchResult, length, take};
ghost use Rattle.fb_access.specs.Location.{location_text};
ghost use Rattle.fb_verify.specs.{Sealed.Sealed, declared.links.Located.Located};
ghost use Rattle.fbcheck_calls.specs.{Answered.levels, Told.found_by, Told.told, Placed.IsLocated, Placed.IsLocatedBy, Placed.IsTextTold, Placed.IsUntold, Placed.cut_to};
ghost use Rattle.fbcheck_calls.specs.declared.outcome.Outcome.{Outcome};

use crate::basis::Basis;
use crate::checking::{SHALLOW, metered, prepare};
use crate::handle::Handle;
use crate::held::{Held, NO_LINK, Room};
use crate::options::Options;
use crate::outcome::{Verdict, tell_bad, tell_blank, tell_good};
use crate::status::Status;
use crate::strict::{locate_in_strictly, locate_shallow_strictly};
use fb_access::{LocationText, write_location};
use fb_schema::Schema;
use fb_verify::{BLANK, Fault, Link, Located, Verified, verify_and_locate};
use std::alloc::Global;

/// Copies as much of a text as there is room for, and tells its whole length.
pub fn cut_into(text: &[u8], room: &mut [u8]) -> usize
    ensures length { result ≡ length text.now }
    ensures room { room.new ≡ cut_to text.now room.old }
{
    let n = text.len().min(room.len());
    room[..n].copy_from_slice(&text[..n]);
    text.len()
}

/// Writes where a fault is, to which these links lead, as much of it as there is room for. How long the whole is. It
/// stands apart, so that a good buffer pays nothing for the text.
#[inline(never)]
pub fn write_place(schema: &Schema<'_>, fault: &Fault, links: &[Link], text: &mut [u8]) -> usize
    ensures { IsTextTold (location_text schema.now fault.now links.now) text.old text.new result }
{
    let mut place = LocationText::new();
    write_location(&mut place, schema, fault, links);
    cut_into(place.as_slice(), text)
}

/// Writes what a check found, with where the fault of a bad buffer is, and answers the status.
#[inline(always)]
fn tell_located(
    found: &Result<Verified<'_, '_, '_>, Located>,
    schema: &Schema<'_>,
    links: &[Link],
    text: &mut [u8],
    written: &mut usize,
    verdict: &mut Verdict,
) -> u32
    requires { IfErr found.now (λ (e : Located). e.links ≤ length links.now) }
    ensures told { verdict.new ≡ told (found_by (λ (v : Sealed). v.report) (λ (e : Located). e.fault) found.now) }
    ensures text { MatchResult found.now (λ _. IsUntold text.old text.new written.old written.new)
        (λ (e : Located). IsTextTold (location_text schema.now e.fault (take e.links links.now)) text.old text.new written.new) }
    ensures status { result ≡ verdict.new.status }
{
    match found {
        Ok(verified) => tell_good(verified.report(), verdict),
        Err(located) => {
            let way = &links[..located.links as usize];
            *written = write_place(schema, &located.fault, way, text);
            tell_bad(located.fault, verdict)
        }
    }
}

/// Checks a buffer as the options ask, in room on the call's own stack, and writes where the fault of a bad one is.
/// Writes the verdict too, and answers its status.
fn locate_shallow(
    basis: &Basis,
    verdict: &mut Verdict,
    options: &Options,
    buffer: &[u8],
    text: &mut [u8],
    written: &mut usize,
) -> u32
    ensures told { (a : Outcome) × (verdict.new ≡ told a) × IsLocated basis.now 64 options.now buffer.now text.old text.new written.old written.new a }
    ensures status { result ≡ verdict.new.status }
{
    if options.demands != 0 {
        return locate_shallow_strictly(basis, verdict, options, buffer, text, written);
    }
    let begun = match prepare(basis, SHALLOW, options, buffer, verdict) {
        Ok(begun) => begun,
        Err(status) => return status,
    };
    let schema = &basis.loaded().schema;
    let mut links = [NO_LINK; 64];
    let found = verify_and_locate(metered(buffer), &begun, &mut [BLANK; 64], &mut links);
    tell_located(&found, schema, &links, text, written, verdict)
}

/// The same in the room that is given.
fn locate_in(
    basis: &Basis,
    room: &mut Room,
    verdict: &mut Verdict,
    options: &Options,
    buffer: &[u8],
    text: &mut [u8],
    written: &mut usize,
) -> u32
    ensures told { (a : Outcome) × (verdict.new ≡ told a) × IsLocated basis.now room.old options.now buffer.now text.old text.new written.old written.new a }
    ensures status { result ≡ verdict.new.status }
    ensures kept { room.new ≡ room.old }
{
    if options.demands != 0 {
        return locate_in_strictly(basis, room, verdict, options, buffer, text, written);
    }
    let begun = match prepare(basis, room.levels(), options, buffer, verdict) {
        Ok(begun) => begun,
        Err(status) => return status,
    };
    let schema = &basis.loaded().schema;
    let links = room.links.as_mut_slice();
    let found = verify_and_locate(metered(buffer), &begun, room.scratch.lend(), links);
    tell_located(&found, schema, links, text, written, verdict)
}

/// Checks a buffer by a schema as [`check`](crate::checking::check) does, and writes where the fault of a bad one is,
/// as much of it as there is room for. How long the whole is, 0 with any other answer than `Bad`.
pub fn locate(
    alloc: Global,
    held: &Held,
    handle: &mut Handle,
    verdict: &mut Verdict,
    options: &Options,
    buffer: &[u8],
    text: &mut [u8],
    written: &mut usize,
) -> u32
    ensures told { (a : Outcome) × (verdict.new ≡ told a) × IsLocatedBy held.now (levels handle.old.inside) options.now buffer.now text.old text.new written.new a }
    ensures status { result ≡ verdict.new.status }
    ensures kept { handle.new.inside ≡ handle.old.inside }
{
    *written = 0;
    let Held::Schema(basis) = held else {
        return tell_blank(Status::NoRoot, verdict);
    };
    let Some(mut taken) = handle.take(alloc) else {
        return locate_shallow(basis, verdict, options, buffer, text, written);
    };
    let inside = &mut *taken;
    let status = match inside {
        Held::Room(room) => locate_in(basis, room, verdict, options, buffer, text, written),
        Held::Schema(_) => locate_shallow(basis, verdict, options, buffer, text, written),
    };
    handle.put(taken);
    status
}
