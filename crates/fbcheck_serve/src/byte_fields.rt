//! Fields of bytes, and what is told where a schema file doesn't say what each of them holds.

ghost use Rattle.std.specs.Prelude.{IfErr, OnOk, true, ◌≡◌, ◌⊎◌, ◌<◌, length, map};
ghost use Rattle.fb_bfbs.specs.{ByteFields.HasUnmarked, Marks.marked};
ghost use Rattle.fb_strict.specs.Holding.{has_bytes};
ghost use Rattle.fbcheck_texts.specs.{declared.fault.AskFault.TheVariants.NoSuchTable, declared.fault.AskFault.TheVariants.OutOfMemory};
ghost use Rattle.fbcheck_serve.specs.ByteFields.{Misses};

use fb_bfbs::{ByteField, Marks, bytes_at, find_unmarked};
use fb_schema::Schema;
use fbcheck_texts::fault::AskFault;
use fbcheck_texts::hint::{Unasked, bytes_hint};
use std::alloc::Global;

/// A fault with the names of a field of bytes and of its table.
fn unasked(alloc: Global, schema: &Schema<'_>, fault: AskFault, found: &ByteField<'_>) -> Unasked
    requires { found.now.table < length schema.now.objects }
    ensures { (result.fault ≡ fault) ⊎ (result.fault ≡ OutOfMemory) }
{
    let table = schema.object(found.table).name;
    Unasked::new(fault, bytes_hint(alloc, fault, table, found.field.name))
}

/// Why nested buffers can't be asked where a mark of this field of bytes names no table.
pub fn lost(alloc: Global, schema: &Schema<'_>, table: u32, slot: u16) -> Unasked
    requires { has_bytes schema.now table slot ≡ true }
    ensures { (result.fault ≡ NoSuchTable) ⊎ (result.fault ≡ OutOfMemory) }
{
    let Some(found) = bytes_at(schema, table, slot) else {
        unreachable!()
    };
    unasked(alloc, schema, AskFault::NoSuchTable, &found)
}

/// Whether the marks of a schema file say what each field of bytes holds, or else why not, with a field that is the
/// cause.
///
/// # Errors
///
/// `UnmarkedBytes` where a field of bytes has no mark and the file doesn't show that it would have one; `OutOfMemory`
/// in its place where memory was refused.
pub fn test_marks(alloc: Global, schema: &Schema<'_>, marks: &Marks<'_>) -> Result<(), Unasked>
    ensures ok { OnOk result (HasUnmarked schema.now (map marked marks.now.fields.items) marks.now.builtins → ⊥) }
    ensures no { IfErr result (λ u. Misses schema.now (map marked marks.now.fields.items) marks.now.builtins u.fault) }
{
    match find_unmarked(alloc, schema, marks) {
        Ok(None) => Ok(()),
        Ok(Some(found)) => Err(unasked(alloc, schema, AskFault::UnmarkedBytes, &found)),
        Err(_) => Err(Unasked::plain(AskFault::OutOfMemory)),
    }
}
