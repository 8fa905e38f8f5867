//! Where a message stands in the input of a run.

/// Where a message stands in the input: lines of JSON tell all of it, plain ones its number.
#[derive(Clone, Copy)]
pub struct Spot {
    /// The message's number, from 1 on.
    pub number: u64,
    /// The position of its first byte in the input, that of its prefix where it has one. The input's first byte is at 0.
    pub begin: u128,
    /// Its length in bytes, prefix included.
    pub bytes: u64,
}
