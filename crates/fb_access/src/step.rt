// One step of a path.

/// One step of a path: to a field of a table or struct, to an element of a vector or array, or to the member of a
/// union.
#[derive(Clone, Copy, Debug, PartialEq, Eq)]
pub enum Step {
    /// The live field of a table with this number (its slot is twice that and four), or the field of a struct with this
    /// place among its fields, in the order of the schema file.
    Field(u16),
    /// The element with this number, from 0 on.
    Element(u32),
    /// The member with this value, from 1 to 255.
    Member(u8),
}
