// Names that are nearly alike.

/// Whether two texts are equal but for the case of ASCII letters; or, where the first has three bytes at least, but for
/// one byte that is another, or that one of them has more.
pub fn is_alike(some: &[u8], other: &[u8]) -> bool {
    (some.len() >= 3 && is_near(some, other)) || some.eq_ignore_ascii_case(other)
}

/// Whether two texts are equal but for one byte.
fn is_near(some: &[u8], other: &[u8]) -> bool {
    for place in 0..some.len().min(other.len()) {
        if some[place] != other[place] {
            let (shorter, less) = (&some[place + 1..], &other[place + 1..]);
            return shorter == less || shorter == &other[place..] || &some[place..] == less;
        }
    }
    some.len().abs_diff(other.len()) <= 1
}
