// Keys in order, each with its place, by which repeated ones are found without comparing each with all others.

ghost use Rattle.std.specs.Prelude.{◌≡◌, List, MatchOption, min};
ghost use Rattle.fb_schema.specs.Sorting.{IsOrderOf, IsFirstAgain, IsPlaceOf};

fn least(best: Option<u32>, place: u32) -> u32
    ensures { MatchOption best (result ≡ place) (λ b. result ≡ min b place) }
{
    match best {
        Some(b) if b < place => b,
        _ => place,
    }
}

/// The first place with a key like one before it: the least place that comes second among neighbours of one key.
pub fn first_again<K: Ord>(order: &[(K, u32)]) -> Option<u32>
    ensures { (keys : List K) → IsOrderOf K.cmp keys order.now → IsFirstAgain K.cmp keys result }
{
    let mut first: Option<u32> = None;
    for i in 1..order.len() {
        let earlier = &order[i - 1];
        let later = &order[i];
        if earlier.0 == later.0 {
            first = Some(least(first, later.1));
        }
    }
    first
}

fn key_of<K: Copy>(entry: &(K, u32)) -> K
    ensures { result ≡ entry.now.0 }
{
    entry.0
}

/// The place of a key.
pub fn place_of<K: Ord + Copy>(order: &[(K, u32)], key: &K) -> Option<u32>
    ensures { (keys : List K) → IsOrderOf K.cmp keys order.now → IsPlaceOf K.cmp keys key.now result }
{
    match order.binary_search_by_key(key, key_of) {
        Ok(at) => Some(order[at].1),
        Err(_) => None,
    }
}
