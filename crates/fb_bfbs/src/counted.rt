// How many rows a schema file has, by the lengths of its vectors.

ghost use Rattle.std.specs.Prelude.{ℕ, List, ◌≡◌, sum_by};
ghost use Rattle.fb_bfbs.specs.{Seen.seen, Seen.IsAt, Seen.IsListOfLists, Seen.AreRowsAt, Sums.Lists, Sums.listed_rows, Sums.IsToldFew};

use crate::values::{count_at, go_to};
use fb_access::{Place, Step};
use fb_schema::Kind;

/// How many rows the tables of a vector are, each with those of this object that it lists.
fn rows_listed(place: &Place, object: u32) -> u64
    requires { IsListOfLists place.now object }
    ensures { (counts : List ℕ) × AreRowsAt Lists place.now counts × (result ≡ sum_by listed_rows counts) }
{
    let count = count_at(place);
    let mut rows = 0;
    for j in 0..count {
        let element = place.go(Step::Element(j));
        let listed = go_to(&element, 1, Kind::Tables(object), 0);
        rows += 1 + u64::from(count_at(&listed));
    }
    rows
}

/// Whether a schema file has so many rows at most.
#[tactic(auto, using(crate::proofs::FixedFields::always), unfolding(crate::proofs::FixedFields::computing))]
pub fn has_few_rows(place: &Place, most: u64) -> bool
    requires { IsAt place.now (Kind.Table 9) }
    ensures { IsToldFew (seen place.now) most result }
{
    let objects = rows_listed(&go_to(place, 0, Kind::Tables(5), 0), 4);
    let enums = rows_listed(&go_to(place, 1, Kind::Tables(3), 0), 2);
    if objects > most {
        return false;
    }
    enums <= most - objects
}
