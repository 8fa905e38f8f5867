//! Lines of JSON.

ghost use Rattle.std.specs.Prelude.{OnOk, ◌≡◌, ◌++◌, option_map};
ghost use Rattle.json.specs.Json.{string};
ghost use Rattle.fb_run.specs.Json.{begin_part, code_of, counts_part, digits_json, end_part, following, json_no, json_text, labelled, name_json, name_of};
ghost use Rattle.fb_run.specs.Json.{names_part, place_member, reason_part, spot_part, text_json};

use crate::spot::Spot;
use crate::tally::count_place;
use crate::value_text::{Spelling, put_hex, put_number, put_spelled};
use fb_access::{field_of, object_name};
use fb_schema::Schema;
use fb_verify::{Fault, Reason, Report};
use std::alloc::{AllocError, Allocator};

/// Adds what the line of a yes on the message there begins with, up to its values.
pub fn put_yes<A: Allocator>(
    text: &mut Vec<u8, A>,
    file: &Option<Vec<u8>>,
    spot: &Spot,
    report: &Report,
) -> Result<(), AllocError>
    ensures { OnOk result (text.new.items ≡ text.old.items ++ (begin_part (option_map (λ f. f.items) file.now) spot.now ++ counts_part report.now)) }
{
    put_begin(text, file, spot)?;
    put_counts(text, report)
}

/// Adds the line of a no on the message there, with the names that the schema has of its fault, and its place in
/// words where there is one.
pub fn put_no<A: Allocator>(
    text: &mut Vec<u8, A>,
    file: &Option<Vec<u8>>,
    spot: &Spot,
    schema: &Schema<'_>,
    fault: &Fault,
    place: Option<&[u8]>,
) -> Result<(), AllocError>
    ensures { OnOk result (text.new.items ≡ text.old.items ++ json_no (option_map (λ f. f.items) file.now) spot.now schema.now fault.now
        (option_map (λ p. p.now) place.entry)) }
{
    put_begin(text, file, spot)?;
    put_reason(text, fault.reason)?;
    put_number(text, b",\"at\":", fault.at)?;
    put_names(text, schema, fault)?;
    put_end(text, fault.reads, place)?;
    put(text, b"\n")
}

/// Adds what every line begins with.
fn put_begin<A: Allocator>(
    text: &mut Vec<u8, A>,
    file: &Option<Vec<u8>>,
    spot: &Spot,
) -> Result<(), AllocError>
    ensures { OnOk result (text.new.items ≡ text.old.items ++ begin_part (option_map (λ f. f.items) file.now) spot.now) }
{
    match file {
        Some(file) => {
            put(text, b"{\"file\":")?;
            put_text(text, file)?;
            put_spot(text, b",\"message\":", spot)
        }
        None => put_spot(text, b"{\"message\":", spot),
    }
}

/// Adds a label and where a message stands.
fn put_spot<A: Allocator>(
    text: &mut Vec<u8, A>,
    label: &[u8],
    spot: &Spot,
) -> Result<(), AllocError>
    ensures { OnOk result (text.new.items ≡ text.old.items ++ (label.now ++ spot_part spot.now)) }
{
    put_number(text, label, spot.number)?;
    put_number(text, b",\"begin\":", spot.begin)?;
    put_number(text, b",\"bytes\":", spot.bytes)
}

/// Adds what a yes counted.
fn put_counts<A: Allocator>(text: &mut Vec<u8, A>, report: &Report) -> Result<(), AllocError>
    ensures { OnOk result (text.new.items ≡ text.old.items ++ counts_part report.now) }
{
    put_number(text, b",\"ok\":true,\"tables\":", report.tables)?;
    put_number(text, b",\"depth\":", report.depth)?;
    put_number(text, b",\"reads\":", report.reads)
}

/// Adds the reason of a no.
fn put_reason<A: Allocator>(text: &mut Vec<u8, A>, reason: Reason) -> Result<(), AllocError>
    ensures { OnOk result (text.new.items ≡ text.old.items ++ reason_part reason) }
{
    let (code, name) = code_and_name(reason);
    put(text, b",\"ok\":false,\"code\":")?;
    put_string(text, code)?;
    put(text, b",\"reason\":")?;
    put_string(text, name)
}

/// The code of a reason, and its name.
fn code_and_name(reason: Reason) -> (&'static [u8], &'static [u8])
    ensures code { result.0.now ≡ code_of reason }
    ensures name { result.1.now ≡ name_of reason }
{
    let text = reason.text().as_bytes();
    let end = if count_place(reason) < 9 { 2 } else { 3 };
    (&text[..end], &text[end + 1..])
}

/// Adds the names of a fault's object and field.
fn put_names<A: Allocator>(
    text: &mut Vec<u8, A>,
    schema: &Schema<'_>,
    fault: &Fault,
) -> Result<(), AllocError>
    ensures { OnOk result (text.new.items ≡ text.old.items ++ names_part schema.now fault.now) }
{
    put(text, b",\"object\":")?;
    put_name(text, object_name(schema, fault.object))?;
    put(text, b",\"field\":")?;
    put_name(text, field_of(schema, fault))
}

/// Adds a name, or null where there is none.
#[tactic(auto, using(crate::proofs::JsonLemmas::fixed_texts))]
fn put_name<A: Allocator>(text: &mut Vec<u8, A>, name: Option<&[u8]>) -> Result<(), AllocError>
    ensures { OnOk result (text.new.items ≡ text.old.items ++ json_text (name_json (option_map (λ n. n.now) name.entry))) }
{
    match name {
        Some(name) => put_text(text, name),
        None => put(text, b"null"),
    }
}

/// Adds the reads of a no and its place in words, where there is one, and closes the line's object.
fn put_end<A: Allocator>(
    text: &mut Vec<u8, A>,
    reads: u128,
    place: Option<&[u8]>,
) -> Result<(), AllocError>
    ensures { OnOk result (text.new.items ≡ text.old.items ++ end_part reads (option_map (λ p. p.now) place.entry)) }
{
    put_number(text, b",\"reads\":", reads)?;
    put_place(text, place)
}

/// Adds the place in words, where there is one, and closes the line's object.
#[tactic(auto, using(crate::proofs::JsonLemmas::no_more))]
fn put_place<A: Allocator>(text: &mut Vec<u8, A>, place: Option<&[u8]>) -> Result<(), AllocError>
    ensures { OnOk result (text.new.items ≡ text.old.items ++ following (place_member (option_map (λ p. p.now) place.entry))) }
{
    match place {
        Some(place) => {
            put(text, b",\"place\":")?;
            put_text(text, place)?;
            put(text, b"}")
        }
        None => put(text, b"}"),
    }
}

/// Adds an object of one member, bytes as hexadecimal digits.
fn put_digits<A: Allocator>(
    text: &mut Vec<u8, A>,
    label: &[u8],
    bytes: &[u8],
) -> Result<(), AllocError>
    ensures { OnOk result (text.new.items ≡ text.old.items ++ json_text (labelled label.now (digits_json bytes.now))) }
{
    put(text, b"{")?;
    put_string(text, label)?;
    put_hex(text, b":\"", bytes)?;
    put(text, b"\"}")
}

/// Adds a text: a string where it is UTF-8, and its bytes where it isn't.
#[tactic(auto, using(crate::proofs::JsonLemmas::text_is_string, crate::proofs::JsonLemmas::text_is_bytes))]
pub fn put_text<A: Allocator>(text: &mut Vec<u8, A>, bytes: &[u8]) -> Result<(), AllocError>
    ensures { OnOk result (text.new.items ≡ text.old.items ++ json_text (text_json bytes.now)) }
{
    match std::str::from_utf8(bytes) {
        Ok(_) => put_string(text, bytes),
        Err(_) => put_digits(text, b"bytes", bytes),
    }
}

/// Adds a string of these bytes.
fn put_string<A: Allocator>(text: &mut Vec<u8, A>, bytes: &[u8]) -> Result<(), AllocError>
    ensures { OnOk result (text.new.items ≡ text.old.items ++ json_text (string bytes.now)) }
{
    put(text, b"\"")?;
    put_spelled(text, bytes, Spelling::Json)?;
    put(text, b"\"")
}

/// Adds these bytes.
fn put<A: Allocator>(text: &mut Vec<u8, A>, bytes: &[u8]) -> Result<(), AllocError>
    ensures { OnOk result (text.new.items ≡ text.old.items ++ bytes.now) }
{
    text.extend_from_slice(bytes)
}
