// What a schema file says.
#![tactic(auto, using(crate::proofs::FixedFields::always, crate::proofs::FixedFields::maybe), unfolding(crate::proofs::FixedFields::computing))]

ghost use Rattle.std.specs.Prelude.{◌≡◌, ◌<◌, ◌^◌, length, Some, IfOk, IfSome};
ghost use Rattle.fb_access.specs.Denotes.{Denotes};
ghost use Rattle.fb_bfbs.specs.{Fixed.fixed, Seen.seen, Seen.IsAt, Describes.IsRootName, FileRows.IsTold, FileRows.AreRead};

use crate::counted::has_few_rows;
use crate::lists::rows_in;
use crate::taking::is_enough_for;
use crate::values::{table_or_none, text_in, text_or_none};
use fb_access::{Place, at_root};
use fb_schema::{EnumRow, Kind, ObjectRow};
use fb_verify::Verified;
use std::alloc::{AllocError, Global};

/// What is read of a schema file: its rows, the name of its root table, and the identifier of its buffers.
#[derive(Drop)]
pub struct FileRows<'b> {
    pub objects: Vec<ObjectRow<'b>>,
    pub enums: Vec<EnumRow<'b>>,
    pub root: Option<&'b [u8]>,
    pub ident: Option<&'b [u8]>,
}

/// The name of the root table, if there is one.
fn root_name<'b>(place: &Place<'_, 'b, '_, '_>) -> Option<&'b [u8]>
    requires { IsAt place.now (Kind.Table 9) }
    ensures { IsRootName (seen place.now) result }
{
    match table_or_none(place, 4, 5) {
        Some(object) => Some(text_in(&object, 0)),
        None => None,
    }
}

/// A table Schema.
fn schema_rows<'b>(alloc: Global, place: &Place<'_, 'b, '_, '_>) -> Result<FileRows<'b>, AllocError>
    requires at { IsAt place.now (Kind.Table 9) }
    requires short { length ((place.now).sealed).bytes < 2 ^ 31 }
    ensures { IfOk result (IsTold (seen place.now)) }
{
    let objects = rows_in(alloc, place, 0, 5)?;
    let enums = rows_in(alloc, place, 1, 3)?;
    Ok(FileRows {
        objects,
        enums,
        root: root_name(place),
        ident: text_or_none(place, 2),
    })
}

/// So many rows are read of a file of any length.
pub const ROWS: u64 = 0x4000;

/// And one more for each so many bytes: a row's offset and table take these, even if its name and type are shared.
pub const ROW_BYTES: u64 = 20;

/// So many bytes of names are read of a file of any length, and 16 more for each byte.
const NAMES: u64 = 0x10_0000;

/// A table Schema as far as so many bytes pay for its rows and their names: none where they don't.
fn paid_rows<'b>(
    alloc: Global,
    place: &Place<'_, 'b, '_, '_>,
    len: u64,
) -> Result<Option<FileRows<'b>>, AllocError>
    requires at { IsAt place.now (Kind.Table 9) }
    requires short { length ((place.now).sealed).bytes < 2 ^ 31 }
    requires len { len < 2 ^ 31 }
    ensures { IfOk result (AreRead (seen place.now) (Some len)) }
{
    if !has_few_rows(place, len / ROW_BYTES + ROWS) {
        return Ok(None);
    }
    let rows = schema_rows(alloc, place)?;
    if !is_enough_for(
        16 * len + NAMES,
        rows.objects.as_slice(),
        rows.enums.as_slice(),
    ) {
        return Ok(None);
    }
    Ok(Some(rows))
}

/// The rows of a schema file that was verified by the fixed table: all of them, or as far as so many bytes pay for them
/// and their names, none where they don't.
pub fn file_rows<'b>(
    alloc: Global,
    verified: &Verified<'b, '_, '_>,
    paying: Option<u64>,
) -> Result<Option<FileRows<'b>>, AllocError>
    requires by_fixed { (verified.now).schema ≡ fixed }
    requires root { (verified.now).root ≡ 9 }
    requires short { length (verified.now).bytes < 2 ^ 31 }
    requires len { IfSome paying (λ len. len < 2 ^ 31) }
    ensures { IfOk result (AreRead (Denotes (verified.now).bytes (verified.now).schema (verified.now).start (verified.now).root) paying) }
{
    let place = at_root(verified);
    match paying {
        Some(len) => paid_rows(alloc, &place, len),
        None => Ok(Some(schema_rows(alloc, &place)?)),
    }
}
