// The price of a verdict, in advance.

ghost use Rattle.std.specs.Prelude.{◌≡◌};
ghost use Rattle.fb_rules.specs.MostReads.{most_reads};

use crate::limits::{Limits, tables_of};
use fb_schema::Schema;

/// How many reads a verification of so many bytes counts at most, by this schema and within these limits: 4 for the
/// start, and for each table 4, and for each of its fields 8 and as many as there are bytes; with a budget of reads no
/// more than that and 7.
#[tactic(auto, unfolding(crate::specs::MostReads::most_reads))]
pub fn most_reads(schema: &Schema<'_>, limits: Limits, len: u64) -> u128
    ensures { result ≡ most_reads schema.now limits len }
{
    let a_field = 8 + u128::from(len);
    let a_table = 4 + u128::from(schema.widest()) * a_field;
    let most = 4 + u128::from(tables_of(limits)) * a_table;
    match limits.reads() {
        None => most,
        Some(budget) => most.min(u128::from(budget) + 7),
    }
}
