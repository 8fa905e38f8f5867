//! The field of a schema file for which the file is refused as unsupported, by the file's own names, and why it is.

use fb_access::{Answer, Path, get};
use fb_bfbs::reflection;
use fb_bytes::Meter;
use fb_verify::{Checks, Ident, Limits, Question, Scratch, Start, Verified, verify};
use std::alloc::Global;

/// The number of an array in reflection.fbs.
const ARRAY: i64 = 17;

/// A field that is refused.
#[derive(Clone, Copy)]
pub struct Refused<'b> {
    /// The name of its table.
    pub table: &'b [u8],
    /// Its own.
    pub name: &'b [u8],
    /// Why it is refused: what is said behind these.
    pub why: &'static [u8],
}

/// Why a field is refused that has a 64-bit offset or hasn't, and is of this base type.
fn why(far: Answer<'_>, base_type: Answer<'_>) -> &'static [u8] {
    match (far, base_type) {
        (Answer::Bool(true), _) => b"has a 64-bit offset",
        (_, Answer::Int(ARRAY)) => b"is an array, which only structs have",
        _ => b"has a type that no table's field can have",
    }
}

/// What is at the path that a text names in a verified file; none where it names none, or for want of memory.
fn at<'b>(alloc: Global, file: &Verified<'b, '_, '_>, text: &str) -> Option<Answer<'b>> {
    let path = Path::resolve(alloc, file.schema(), file.root(), text.as_bytes()).ok()?;
    Some(get(file, &path))
}

/// The same of a text there.
fn text_at<'b>(alloc: Global, file: &Verified<'b, '_, '_>, text: &str) -> Option<&'b [u8]> {
    match at(alloc, file, text)? {
        Answer::Text(text) => Some(text),
        _ => None,
    }
}

/// The field at this place of the object with that number in a verified schema file, as one that is refused.
fn field_in<'b>(
    alloc: Global,
    file: &Verified<'b, '_, '_>,
    object: u32,
    field: u32,
) -> Option<Refused<'b>> {
    let of_table = format!(in alloc; "objects[{object}].name").ok()?;
    let of_name = format!(in alloc; "objects[{object}].fields[{field}].name").ok()?;
    let of_offset = format!(in alloc; "objects[{object}].fields[{field}].offset64").ok()?;
    let of_type = format!(in alloc; "objects[{object}].fields[{field}].type.base_type").ok()?;
    Some(Refused {
        table: text_at(alloc, file, of_table.as_str())?,
        name: text_at(alloc, file, of_name.as_str())?,
        why: why(
            at(alloc, file, of_offset.as_str())?,
            at(alloc, file, of_type.as_str())?,
        ),
    })
}

/// The field at this place of the object with that number in a well-formed schema file, which is refused as
/// unsupported; none where there is no such field, or no memory to find it.
pub fn refused_field<'b>(
    alloc: Global,
    file: &'b [u8],
    object: u32,
    field: u32,
) -> Option<Refused<'b>> {
    let schema = reflection(alloc).ok()?;
    let root = schema.table_named(b"reflection.Schema")?;
    let limits = Limits::published();
    let mut scratch = Scratch::new(alloc, limits.depth()).ok()?;
    let question = Question {
        schema: &schema,
        root,
        start: Start::Bare,
        ident: Ident::Any,
        limits,
        checks: Checks::published(),
    };
    let verified = verify(Meter::new(file).ok()?, &question, scratch.lend()).ok()?;
    field_in(alloc, &verified, object, field)
}
