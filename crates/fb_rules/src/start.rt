// How a buffer begins.

/// Whether a buffer begins with its size.
#[derive(Clone, Copy, Debug, PartialEq, Eq)]
pub enum Start {
    /// The root offset stands at byte 0.
    Bare,
    /// A u32 stands at byte 0 that counts the bytes after it, and the root offset at byte 4 (a size-prefixed buffer).
    /// Positions and alignments count from byte 0, prefix included.
    Prefixed,
}

/// The file identifier, the four bytes after the root offset.
#[derive(Clone, Copy, Debug, PartialEq, Eq)]
pub enum Ident {
    /// Any four bytes, or none at all: they aren't read.
    Any,
    /// These four bytes.
    Want([u8; 4]),
}
