//! How a stream is cut into messages.

ghost use Rattle.std.specs.Prelude.{◌≡◌};
ghost use Rattle.fb_bytes.specs.Messages.{declared};

/// In which order the four bytes of a message's length stand.
#[derive(Clone, Copy, Debug, PartialEq, Eq)]
pub enum Endian {
    /// The lowest first, as in FlatBuffers.
    Little,
    /// The highest first, as Java and network protocols write it.
    Big,
}

impl Endian {
    /// The number that a prefix tells.
    #[tactic(auto, using(crate::proofs::MessageLemmas::declared_le_bytes, crate::proofs::MessageLemmas::declared_be_bytes))]
    pub fn number_in(self, prefix: [u8; 4]) -> u32
        ensures { result ≡ declared self prefix }
    {
        match self {
            Endian::Little => u32::from_le_bytes(prefix),
            Endian::Big => u32::from_be_bytes(prefix),
        }
    }
}

/// How long the messages of a stream may be, and how their lengths are written.
#[derive(Clone, Copy, Debug, PartialEq, Eq)]
pub struct Cut {
    /// The most bytes of a message, its prefix included.
    pub limit: u32,
    /// The order of the bytes in a prefix.
    pub order: Endian,
}
