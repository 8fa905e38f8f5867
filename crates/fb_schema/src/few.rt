//! The test of what `Schema::build` requires.

ghost use Rattle.std.specs.Prelude.{◌↔◌, ◌<◌, ◌^◌, IsTrue, All};
ghost use Rattle.fb_schema.specs.Rows.{AreFew};

use crate::flat::Owner;
use crate::rows::{EnumRow, ObjectRow};

/// 2^31: each list of a schema has fewer items.
const MANY: usize = 0x8000_0000;

/// Whether each of these owns few rows.
fn own_few<O: Owner>(owners: &[O]) -> bool
    ensures { IsTrue result ↔ All (λ o. O.count o < 2 ^ 31) owners.now }
{
    for owner in owners {
        if owner.rows().len() >= MANY {
            return false;
        }
    }
    true
}

/// Whether there are fewer than 2^31 objects and enums, and each has fewer than 2^31 fields or members: what
/// [`Schema::build`](crate::Schema::build) requires.
///
/// Rows that come out of a FlatBuffer are always few, since a vector there counts its items in bytes of a buffer below
/// 2^31 bytes.
pub fn are_few(objects: &[ObjectRow], enums: &[EnumRow]) -> bool
    ensures { IsTrue result ↔ AreFew objects.now enums.now }
{
    objects.len() < MANY && enums.len() < MANY && own_few(objects) && own_few(enums)
}
