// A schema out of its file.

ghost use Rattle.std.specs.Prelude.{◌≡◌, ◌<◌, ◌≤◌, ◌^◌, length, option_map, IfOk, IfErr};
ghost use Rattle.fb_bfbs.specs.{Fixed.fixed, FileRows.IsReadFile, FileRows.IsVerifiedFile, FileRows.IsVerifyFault, LoadLaws.ident_bytes, LoadLaws.own_ident};
ghost use Rattle.fb_bfbs.specs.Loads.{HasTableForRoot, IsLoaded, IsLoadFault};

use crate::file::{FileRows, file_rows};
use crate::fixed::reflection;
use crate::load_fault::LoadFault;
use fb_bytes::Meter;
use fb_schema::Schema;
use fb_verify::{Checks, Ident, Limits, Question, Scratch, ScratchFault, Start, Verified, verify};
use std::alloc::{AllocError, Global};

/// The number of the table Schema in the fixed table.
const SCHEMA: u32 = 9;

/// The schema that a schema file (`.bfbs`) describes.
#[derive(Drop)]
pub struct Loaded<'b> {
    /// Its rows. Their names are the file's bytes, not copies.
    pub schema: Schema<'b>,
    /// The number of the root table's object, none where the file has no root table. As [`load`] gives it, it is a
    /// table of the schema.
    pub root: Option<u32>,
    /// The identifier of its buffers, none where the file has none. It may have any length.
    pub ident: Option<&'b [u8]>,
}

/// The identifier that a schema's own asks for: any where it declares none, which `flatc` writes as one of no bytes,
/// and none where it hasn't four.
pub fn own_ident(own: Option<&[u8]>) -> Option<Ident>
    ensures { result ≡ own_ident (ident_bytes own.entry) }
{
    match own {
        None | Some(&[]) => Some(Ident::Any),
        Some(&[a, b, c, d]) => Some(Ident::Want([a, b, c, d])),
        Some(_) => None,
    }
}

/// Room for as many open tables as the limits allow.
#[tactic(auto, using(std::proofs::lemmas::Grind::common_steps))]
fn scratch_of(alloc: Global, limits: Limits) -> Result<Scratch, AllocError>
    ensures { IfOk result (λ s. s ≡ limits.depth) }
{
    match Scratch::new(alloc, limits.depth()) {
        Ok(scratch) => Ok(scratch),
        Err(ScratchFault::OutOfMemory) => Err(AllocError),
        Err(ScratchFault::LimitOutOfRange) => unreachable!(),
    }
}

/// How many bytes pay for the rows of a file of this length, none where the limits have no budget of reads and the rows
/// no bound.
#[tactic(auto, using(std::proofs::lemmas::Grind::common_steps))]
pub fn paying(limits: Limits, len: u64) -> Option<u64>
    ensures { result ≡ option_map (λ _. len) limits.reads }
{
    match limits.reads() {
        Some(_) => Some(len),
        None => None,
    }
}

/// Verifies the bytes by the fixed table, and reads the rows.
fn read<'b>(alloc: Global, bytes: &'b [u8], limits: Limits) -> Result<FileRows<'b>, LoadFault>
    ensures yes { IfOk result (IsReadFile bytes.now limits) }
    ensures no { IfErr result (λ fault. IsLoadFault bytes.now limits fault) }
{
    let Ok(meter) = Meter::new(bytes) else {
        return Err(LoadFault::TooLong);
    };
    let Ok(fixed) = reflection(alloc) else {
        return Err(LoadFault::OutOfMemory);
    };
    read_by(alloc, &fixed, meter, limits)
}

/// Verifies them by a table that is made.
pub fn verified_by<'b, 's>(
    alloc: Global,
    table: &'s Schema<'static>,
    meter: Meter<'b>,
    limits: Limits,
) -> Result<Verified<'b, 's, 'static>, LoadFault>
    requires table { table.now ≡ fixed }
    requires unread { meter.count ≡ 0 }
    requires short { length meter.bytes < 2 ^ 31 }
    ensures yes { IfOk result (IsVerifiedFile meter.entry.bytes limits) }
    ensures no { IfErr result (λ fault. IsVerifyFault meter.entry.bytes limits fault) }
{
    let mut scratch = scratch_of(alloc, limits)?;
    let question = Question {
        schema: table,
        root: SCHEMA,
        start: Start::Bare,
        ident: Ident::Want(*b"BFBS"),
        limits,
        checks: Checks::published(),
    };
    let verified = verify(meter, &question, scratch.lend())?;
    Ok(verified)
}

/// The same by a table that is made.
fn read_by<'b>(
    alloc: Global,
    table: &Schema<'static>,
    meter: Meter<'b>,
    limits: Limits,
) -> Result<FileRows<'b>, LoadFault>
    requires table { table.now ≡ fixed }
    requires unread { meter.count ≡ 0 }
    requires short { length meter.bytes < 2 ^ 31 }
    ensures yes { IfOk result (IsReadFile meter.entry.bytes limits) }
    ensures no { IfErr result (λ fault. IsLoadFault meter.entry.bytes limits fault) }
{
    let paying = paying(limits, meter.len());
    let verified = verified_by(alloc, table, meter, limits)?;
    match file_rows(alloc, &verified, paying)? {
        Some(rows) => Ok(rows),
        None => Err(LoadFault::TooMuchShared),
    }
}

/// Loads a schema file: verifies it by the fixed table ([`reflection`]) as a bare buffer with the identifier `BFBS`,
/// within these limits and with the checks of the published verifier, takes its rows by the paths of reflection.fbs,
/// and builds them.
///
/// The names in the schema, and the identifier, are lent by the bytes.
///
/// # Errors
///
/// L5 where there are 2^31 bytes or more; then L1 where the verifier says no; then, where the limits have a budget of
/// reads, L6 where the file has more rows, or longer names, than its length pays for; then L2 where the rows that the
/// file describes are no schema; then L3 where the file has a root table and no listed table has its name. L4 may come
/// in place of any but L5.
pub fn load<'b>(alloc: Global, bytes: &'b [u8], limits: Limits) -> Result<Loaded<'b>, LoadFault>
    ensures yes { IfOk result (λ loaded. IsLoaded bytes.now limits loaded) }
    ensures root { IfOk result (λ loaded. HasTableForRoot loaded) }
    ensures no { IfErr result (λ fault. IsLoadFault bytes.now limits fault) }
{
    let rows = read(alloc, bytes, limits)?;
    let schema = match Schema::build(alloc, rows.objects, rows.enums) {
        Ok(schema) => schema,
        Err(fault) => return Err(LoadFault::from(fault)),
    };
    match rows.root {
        None => Ok(Loaded {
            schema,
            root: None,
            ident: rows.ident,
        }),
        Some(name) => match schema.table_named(name) {
            None => Err(LoadFault::RootNotListed),
            Some(root) => Ok(Loaded {
                schema,
                root: Some(root),
                ident: rows.ident,
            }),
        },
    }
}
