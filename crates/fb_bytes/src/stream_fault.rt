//! What may be wrong with a stream of messages, and with a framer's limit.

use std::error::Error;
use std::fmt;

/// What is wrong with a stream of size-prefixed messages.
///
/// After any of these the framer that answered it has failed.
#[derive(Clone, Copy, Debug, PartialEq, Eq)]
pub enum StreamFault {
    /// S1: the prefix declares `declared` bytes, and with its own four that is above the limit.
    Oversize { declared: u32 },
    /// S2: the stream ends where `held` bytes of a message have come, and more were to come.
    Truncated { held: u64 },
    /// S3: no memory was to be had for a message within the limit.
    OutOfMemory,
    /// S4: this framer has failed before.
    Failed,
}

impl fmt::Display for StreamFault {
    fn fmt<W: fmt::Write>(&self, f: &mut fmt::Formatter<W>) -> fmt::Result {
        match self {
            StreamFault::Oversize { declared } => write!(f, "S1 Oversize declared={declared}"),
            StreamFault::Truncated { held } => write!(f, "S2 Truncated held={held}"),
            StreamFault::OutOfMemory => write!(f, "S3 OutOfMemory"),
            StreamFault::Failed => write!(f, "S4 Failed"),
        }
    }
}

impl Error for StreamFault {}

/// The limit of a framer is below 8 or above 2,147,483,647.
#[derive(Clone, Copy, Debug, PartialEq, Eq)]
pub struct LimitOutOfRange;
