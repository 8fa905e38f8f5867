// The lists of a schema file: one reader for all of them.

ghost use Rattle.std.specs.Prelude.{ℕ, ◌≡◌, ◌≤◌, ◌*◌, length, All, vec_len, IfOk};
ghost use Rattle.fb_access.specs.declared.step.Step.TheVariants.{Field as ToField};
ghost use Rattle.fb_bfbs.specs.{Says.Says, Says.after, Says.AreRows, Seen.seen, Seen.IsAt, Seen.HasField, Seen.IsRowAt, Seen.AreRowsAt};

use crate::values::{count_at, go_to};
use fb_access::{Place, Step};
use fb_schema::Kind;
use std::alloc::{AllocError, Global};

/// A row as which a table of a schema file is read.
///
/// `number` is the table's in the fixed table, `is_row` what the file says where it has such a row, and `listed` how
/// many rows the row itself lists.
pub trait FromTable<'b>: Drop {
    ghost number: { ℕ };

    ghost is_row: { Says → Self → Type 0 };

    ghost listed: { Self → ℕ };

    /// Reads the table that is here.
    fn from_table(alloc: Global, place: &Place<'_, 'b, '_, '_>) -> Result<Self, AllocError>
        requires { IsAt place.now (Kind.Table number) }
        ensures row { IfOk result (λ r. IsRowAt is_row place.now r) }
        ensures few { IfOk result (λ r. 4 * listed r ≤ length ((place.now).sealed).bytes) };
}

/// The rows in a vector of tables, one after another.
pub fn rows_at<'b, R: FromTable<'b>>(
    alloc: Global,
    place: &Place<'_, 'b, '_, '_>,
) -> Result<Vec<R>, AllocError>
    requires { IsAt place.now (Kind.Tables R.number) }
    ensures rows { IfOk result (λ v. AreRowsAt R.is_row place.now v.items) }
    ensures few { IfOk result (λ v. 4 * vec_len v ≤ length ((place.now).sealed).bytes) }
    ensures few_listed { IfOk result (λ v. All (λ r. 4 * R.listed r ≤ length ((place.now).sealed).bytes) v.items) }
{
    let count = count_at(place);
    let mut rows = Vec::with_capacity(alloc, count as usize)?;
    for j in 0..count {
        let element = place.go(Step::Element(j));
        let row = R::from_table(alloc, &element)?;
        rows.push(row)?;
    }
    Ok(rows)
}

/// The rows in a field that is a vector of tables of this object and always there.
pub fn rows_in<'b, R: FromTable<'b>>(
    alloc: Global,
    place: &Place<'_, 'b, '_, '_>,
    number: u16,
    object: u32,
) -> Result<Vec<R>, AllocError>
    requires field { HasField place.now number (Kind.Tables object) }
    requires object { object ≡ R.number }
    ensures rows { IfOk result (λ v. AreRows R.is_row (after (seen place.now) (ToField number)) v.items) }
    ensures few { IfOk result (λ v. 4 * vec_len v ≤ length ((place.now).sealed).bytes) }
    ensures few_listed { IfOk result (λ v. All (λ r. 4 * R.listed r ≤ length ((place.now).sealed).bytes) v.items) }
{
    let list = go_to(place, number, Kind::Tables(object), 0);
    let rows = rows_at(alloc, &list)?;
    Ok(rows)
}
