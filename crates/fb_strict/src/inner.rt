// Buffers that lie in others.

/// A bare buffer in the bytes of a field: where they begin in the buffer around it, how many they are, and the object
/// of its root table.
#[derive(Clone, Copy)]
pub struct Inner {
    pub at: u64,
    pub size: u64,
    pub root: u32,
}
