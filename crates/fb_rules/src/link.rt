// A step of the way to a fault.

/// A link of the way from the root table to a fault: a field of a table, and of a field that leads on the `uoffset`
/// by which the way goes on, or that is under check with what it leads to.
#[derive(Clone, Copy, Debug, PartialEq, Eq)]
pub struct Link {
    /// The number of the table's object.
    pub object: u32,
    /// The number of the field.
    pub field: u16,
    /// The number of the element, from 0 on, where the way goes by one of a vector.
    pub element: Option<u32>,
    /// The type of the union, where the way goes by the value of one.
    pub member: Option<u8>,
}
