// What is demanded of a buffer beside the rules of the format.

/// What is demanded of the buffers of a schema, beside the rules of the format.
#[derive(Clone, Copy, Debug, PartialEq, Eq)]
pub struct Demands {
    /// A union whose type isn't 0 has its value, and a vector of unions is there if and only if that of its types is; a
    /// value of unknown type points into the buffer, which has at least 12 bytes.
    pub unions: bool,
    /// A `[ubyte]` field that is marked as a nested buffer holds one, which meets all of these demands too; a field that
    /// is marked as a flexbuffer is absent. Without marks nothing is demanded by this.
    pub nested: bool,
    /// Each slot of a vtable that isn't 0 is that of a live field.
    pub known_fields: bool,
    /// Each string is UTF-8.
    pub utf8: bool,
}
