// The marks of a schema file: which fields hold buffers in their bytes.

ghost use Rattle.std.specs.Prelude.{◌≡◌, ◌<◌, ◌≤◌, ◌^◌, ◌*◌, ◌++◌, map, length, IfOk, IfErr, IfSome};
ghost use Rattle.fb_access.specs.Denotes.{Denotes};
ghost use Rattle.fb_bfbs.specs.{Fixed.fixed, Seen.seen, Seen.IsAt, Marks.marked, Marks.marks_in, Marks.marks_from, Marks.beside, Marks.told_in, Marks.together, Marks.AreMarks};
ghost use Rattle.fb_bfbs.specs.{Marks.IsMarksFault, Tags.tagged_of, Tags.fields_of, Tags.AreToldMarks, Tags.IsToldPaid, Tags.AreMarksRead};

use crate::counted::has_few_rows;
use crate::file::{ROW_BYTES, ROWS};
use crate::fixed::reflection;
use crate::lists::rows_in;
use crate::load_fault::LoadFault;
use crate::loading::{paying, verified_by};
use crate::tags::{TaggedObject, TaggedRow};
use fb_access::{Place, at_root};
use fb_bytes::Meter;
use fb_schema::{Kind, Schema};
use fb_verify::{Limits, Verified};
use std::alloc::{AllocError, Global};

/// What the bytes of a field hold.
#[derive(Clone, Copy, Debug)]
pub enum Content<'b> {
    /// A bare buffer whose root is the table of this name, as the value of the attribute `nested_flatbuffer` writes it:
    /// it may be a part of the table's whole name. It has no bytes where the attribute has no value.
    Buffer(&'b [u8]),
    /// A flexbuffer (`flexbuffer`).
    Flex,
}

/// A field whose bytes hold something.
#[derive(Clone, Copy, Debug)]
pub struct Mark<'b> {
    /// The number of its object.
    pub object: u32,
    /// Its slot: the offset of its word in a vtable, of a struct's field that of the field in the struct.
    pub slot: u16,
    /// What its bytes hold.
    pub content: Content<'b>,
}

/// Whether a schema file shows that the built-in attributes were written, of which `nested_flatbuffer` and `flexbuffer`
/// are two: `flatc` leaves them out unless it is called with `--bfbs-builtins`. `required`, `deprecated` and `key` are
/// others, which set flags of a field that are always written.
#[derive(Clone, Copy, Debug, PartialEq, Eq)]
pub enum Builtins {
    /// Some field has such a flag and its attribute.
    Written,
    /// Some field has such a flag, and none the attribute of its flag.
    LeftOut,
    /// No field has such a flag.
    Untold,
}

/// The marks of a schema file.
#[derive(Drop)]
pub struct Marks<'b> {
    /// Those of all fields that aren't deprecated, in the order of objects and of their fields in the file.
    pub fields: Vec<Mark<'b>>,
    /// Whether there could be any.
    pub builtins: Builtins,
}

/// What is told together.
pub fn beside(first: Builtins, second: Builtins) -> Builtins
    ensures { result ≡ beside first second }
{
    match (first, second) {
        (Builtins::Untold, told) => told,
        (Builtins::LeftOut, Builtins::Written) => second,
        _ => first,
    }
}

/// Adds the marks of an object's fields.
fn put_marks<'b>(
    marks: &mut Vec<Mark<'b>>,
    object: u32,
    fields: &[TaggedRow<'b>],
) -> Result<(), AllocError>
    ensures { IfOk result (λ _. map marked marks.new.items ≡ map marked marks.old.items ++ marks_in object (map tagged_of fields.now)) }
{
    for field in fields {
        if let Some(content) = field.content {
            marks.push(Mark {
                object,
                slot: field.slot,
                content,
            })?;
        }
    }
    Ok(())
}

/// The marks of all fields.
fn marks_of<'b>(alloc: Global, objects: &[TaggedObject<'b>]) -> Result<Vec<Mark<'b>>, AllocError>
    requires { length objects.now < 2 ^ 31 }
    ensures { IfOk result (λ v. map marked v.items ≡ marks_from 0 (map fields_of objects.now)) }
{
    let mut marks = Vec::new(alloc);
    let mut number = 0;
    for object in objects {
        put_marks(&mut marks, number, object.fields.as_slice())?;
        number += 1;
    }
    Ok(marks)
}

/// What an object's fields tell of built-in attributes.
#[tactic(auto, using(crate::proofs::Together::beside_assoc, crate::proofs::Together::beside_untold))]
fn told_in(fields: &[TaggedRow]) -> Builtins
    ensures { result ≡ told_in (map tagged_of fields.now) }
{
    let mut told = Builtins::Untold;
    for field in fields {
        told = beside(told, field.builtins);
    }
    told
}

/// What all fields tell of them.
#[tactic(auto, using(crate::proofs::Together::beside_assoc, crate::proofs::Together::beside_untold))]
fn told_of(objects: &[TaggedObject]) -> Builtins
    ensures { result ≡ together (map told_in (map fields_of objects.now)) }
{
    let mut told = Builtins::Untold;
    for object in objects {
        told = beside(told, told_in(object.fields.as_slice()));
    }
    told
}

/// A table Schema.
#[tactic(auto, using(crate::proofs::FixedFields::always), unfolding(crate::proofs::FixedFields::computing))]
fn marks_at<'b>(alloc: Global, place: &Place<'_, 'b, '_, '_>) -> Result<Marks<'b>, AllocError>
    requires at { IsAt place.now (Kind.Table 9) }
    requires short { length ((place.now).sealed).bytes < 2 ^ 31 }
    ensures { IfOk result (AreToldMarks (seen place.now)) }
{
    let objects: Vec<TaggedObject<'b>> = rows_in(alloc, place, 0, 5)?;
    let objects = objects.as_slice();
    Ok(Marks {
        fields: marks_of(alloc, objects)?,
        builtins: told_of(objects),
    })
}

/// Whether so many bytes pay for the rows of a table Schema, where there is such a bound.
fn is_paid(place: &Place, paying: Option<u64>) -> bool
    requires at { IsAt place.now (Kind.Table 9) }
    requires len { IfSome paying (λ len. len < 2 ^ 31) }
    ensures { IsToldPaid (seen place.now) paying result }
{
    match paying {
        Some(len) => has_few_rows(place, len / ROW_BYTES + ROWS),
        None => true,
    }
}

/// The marks of a schema file that was verified by the fixed table, none where so many bytes don't pay for its rows.
fn file_marks<'b>(
    alloc: Global,
    verified: &Verified<'b, '_, '_>,
    paying: Option<u64>,
) -> Result<Option<Marks<'b>>, AllocError>
    requires by_fixed { (verified.now).schema ≡ fixed }
    requires root { (verified.now).root ≡ 9 }
    requires short { length (verified.now).bytes < 2 ^ 31 }
    requires len { IfSome paying (λ len. len < 2 ^ 31) }
    ensures { IfOk result (AreMarksRead (Denotes (verified.now).bytes (verified.now).schema (verified.now).start (verified.now).root) paying) }
{
    let place = at_root(verified);
    if !is_paid(&place, paying) {
        return Ok(None);
    }
    Ok(Some(marks_at(alloc, &place)?))
}

/// Reads the marks by a table that is made.
fn marks_by<'b>(
    alloc: Global,
    table: &Schema<'static>,
    meter: Meter<'b>,
    limits: Limits,
) -> Result<Marks<'b>, LoadFault>
    requires table { table.now ≡ fixed }
    requires unread { meter.count ≡ 0 }
    requires short { length meter.bytes < 2 ^ 31 }
    ensures yes { IfOk result (AreMarks meter.entry.bytes limits) }
    ensures no { IfErr result (λ fault. IsMarksFault meter.entry.bytes limits fault) }
{
    let paying = paying(limits, meter.len());
    let verified = verified_by(alloc, table, meter, limits)?;
    match file_marks(alloc, &verified, paying)? {
        Some(marks) => Ok(marks),
        None => Err(LoadFault::TooMuchShared),
    }
}

/// Reads the marks of a schema file: which fields hold buffers of their own, or flexbuffers, and whether it shows that
/// such attributes were written at all. It is for whoever checks these too; [`crate::load`] doesn't look at attributes.
///
/// The file is verified as `load` does. It isn't asked whether its rows are a schema, so load it first; objects have the
/// numbers that they have there. Names are lent by the bytes.
///
/// # Errors
///
/// L5 where there are 2^31 bytes or more; then L1 where the verifier says no; then, where the limits have a budget of
/// reads, L6 where the file has more rows than its length pays for. L4 may come in place of any but L5, and L2 and L3
/// never come.
pub fn load_marks<'b>(
    alloc: Global,
    bytes: &'b [u8],
    limits: Limits,
) -> Result<Marks<'b>, LoadFault>
    ensures yes { IfOk result (AreMarks bytes.now limits) }
    ensures no { IfErr result (λ fault. IsMarksFault bytes.now limits fault) }
{
    let Ok(meter) = Meter::new(bytes) else {
        return Err(LoadFault::TooLong);
    };
    let Ok(fixed) = reflection(alloc) else {
        return Err(LoadFault::OutOfMemory);
    };
    marks_by(alloc, &fixed, meter, limits)
}
