//! What the builders of types make, beside the same rows in full. The rows of all other tests are made by builders.

use crate::tests::compare::same;
use fb_schema::TypeRow;
use fb_schema::base_type::{INT, LONG, OBJ, UNION};
use fb_schema::builders::{array, one, vector};

/// A row by its base, element, index and length.
macro_rules! row {
    ($base:literal, $element:literal, $index:expr, $fixed_length:literal) => {
        TypeRow {
            base: $base,
            element: $element,
            index: $index,
            fixed_length: $fixed_length,
        }
    };
}

#[test]
fn types_in_few_words_are_these_rows(rt: HostRuntime) {
    let made = (
        one(INT),
        one(UNION).naming(3),
        vector(LONG),
        array(OBJ, 65_535).naming(1),
    );
    let want = (
        row!(7, 0, -1, 0),
        row!(16, 0, 3, 0),
        row!(14, 9, -1, 0),
        row!(17, 15, 1, 65_535),
    );
    same(&rt, made, want);
}
