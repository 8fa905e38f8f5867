// A field of whose row a reader knows what it takes to follow it, so that nothing of it is looked up.

use fb_schema::Kind;

/// What is known of a live field of a table: its number and slot, its kind, and what it is where it's absent.
#[derive(Clone, Copy)]
pub struct KnownField {
    pub number: u16,
    pub slot: u16,
    pub kind: Kind,
    pub default: i64,
    pub optional: bool,
}
