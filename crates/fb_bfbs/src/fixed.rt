// The fixed table as a schema.

ghost use Rattle.std.specs.Prelude.{◌≡◌, map, IfOk};
ghost use Rattle.fb_schema.specs.{Rows.field_of, Rows.object_of, Builders.plain_table};
ghost use Rattle.fb_bfbs.specs.Fixed.{fixed};

use crate::tables::{TABLES, Table};
use fb_schema::builders::table;
use fb_schema::{Code, ObjectRow, Schema};
use std::alloc::{AllocError, Global};

/// These tables.
fn made(alloc: Global, tables: &[Table]) -> Result<Vec<ObjectRow<'static>>, AllocError>
    ensures { IfOk result (λ v. map object_of v.items ≡ map (λ t. plain_table t.0.now (map field_of t.1.now)) tables.now) }
{
    let mut rows = Vec::with_capacity(alloc, tables.len())?;
    for &(name, fields) in tables {
        rows.push(table(alloc, name, fields)?)?;
    }
    Ok(rows)
}

/// The ten tables in the order of their numbers.
#[tactic(auto, unfolding(crate::specs::Fixed::fixed))]
pub fn objects(alloc: Global) -> Result<Vec<ObjectRow<'static>>, AllocError>
    ensures { IfOk result (λ v. map object_of v.items ≡ fixed.objects) }
{
    made(alloc, &TABLES)
}

/// The fixed table: what a schema file (`.bfbs`) is verified and read by.
///
/// It has the ten tables of reflection.fbs under their own names, `reflection.Schema` among them, and no enums. It
/// demands of a file less than reflection.fbs does: only what a reader of rows needs is required.
///
/// # Errors
///
/// Where a growth was refused, and only there: its rows are legal.
pub fn reflection(alloc: Global) -> Result<Schema<'static>, AllocError>
    ensures { IfOk result (λ s. s ≡ fixed) }
{
    let objects = objects(alloc)?;
    match Schema::build(alloc, objects, Vec::new(alloc)) {
        Ok(schema) => Ok(schema),
        Err(fault) => match fault.code {
            Code::OutOfMemory => Err(AllocError),
            _ => unreachable!(),
        },
    }
}
