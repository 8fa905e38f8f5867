// The price of a strict verdict, in advance.

ghost use Rattle.std.specs.Prelude.{◌≡◌, ◌-◌, ◌^◌, min};
ghost use Rattle.fb_strict.specs.MostReads.{most_reads_strictly};

use fb_rules::limits::{Limits, tables_of};
use fb_schema::Schema;

/// How many reads a strict verdict on so many bytes counts at most, by this schema and within these limits: 8; for each
/// table 11 and as many as there are bytes; and for each of its fields 8 and as many as there are bytes, and the square
/// of that; with a budget of reads no more than that, 7 and as many as there are bytes. It stops at what 128 bits hold,
/// which is more than any count comes to.
pub fn most_reads_strictly(schema: &Schema<'_>, limits: Limits, len: u64) -> u128
    ensures { result ≡ min (most_reads_strictly schema.now limits len) (2 ^ 128 - 1) }
{
    let len = u128::from(len);
    let fields = u128::from(schema.widest());
    let tables = u128::from(tables_of(limits));
    let starts = 4 * (2 + tables);
    let walks = starts.saturating_add(tables * (4 + fields * (8 + len)));
    let square = (8 + len).saturating_mul(8 + len);
    let passes = tables.saturating_mul(fields.saturating_mul(square).saturating_add(3 + len));
    let most = walks.saturating_add(passes);
    match limits.reads() {
        None => most,
        Some(budget) => most.min(u128::from(budget) + 7 + len),
    }
}
