//! Why a run comes to rest before its end, and the program's exit status.

ghost use Rattle.std.specs.Prelude.{◌≡◌, ◌+◌, ◌≤◌, ◌++◌, decimal, length};
ghost use Rattle.fb_run.specs.{Faults.feed_fault, Faults.status_of, FaultText.fault_text, FaultText.stream_text, declared.fault.RunFault.TheVariants.OutOfMemory};

use crate::line::Line;
use crate::tally::Tally;
use fb_bytes::StreamFault;
use std::alloc::AllocError;
use thiserror::Error;

/// Why a run came to rest before its end.
#[derive(Clone, Copy, Debug, Error)]
#[error("{text}", text = self.text())]
pub enum RunFault {
    /// The reader failed.
    ReadFault,
    /// The writer failed, or took nothing. `written` counts the bytes that it took in this run.
    WriteFault { written: u128 },
    /// The notes failed, or took nothing. `written` counts the bytes that they took in this run.
    NoteFault { written: u128 },
    /// The rejects failed, or took nothing. `written` counts the bytes that they took in this run.
    RejectFault { written: u128 },
    /// The stream declares too much, or ends in mid-message.
    Stream(StreamFault),
    /// After 2^32 reads the input had not ended.
    TooManyTurns,
    /// Memory was refused.
    OutOfMemory,
    /// A bare input has more than `limit` bytes.
    BareTooLong { limit: u32 },
    /// The input ended within its first `skip` bytes, which are left out.
    SkipPastEnd { skip: u64 },
}

impl From<AllocError> for RunFault {
    ghost from_gives = { λ _ fault. fault ≡ OutOfMemory };

    fn from(_: AllocError) -> Self {
        Self::OutOfMemory
    }
}

impl From<StreamFault> for RunFault {
    ghost from_gives = { λ cause fault. fault ≡ feed_fault cause };

    fn from(cause: StreamFault) -> Self {
        match cause {
            StreamFault::OutOfMemory => Self::OutOfMemory,
            _ => Self::Stream(cause),
        }
    }
}

impl RunFault {
    /// Its text.
    pub fn text(&self) -> Line
        ensures text { result ≡ fault_text self.now }
        ensures short { length result ≤ 100 }
    {
        match self {
            RunFault::ReadFault => Line::of("read failed"),
            RunFault::WriteFault { written } => {
                numbered("write failed after ", *written, " bytes")
            }
            RunFault::NoteFault { written } => {
                numbered("write to standard error failed after ", *written, " bytes")
            }
            RunFault::RejectFault { written } => {
                numbered("write of rejects failed after ", *written, " bytes")
            }
            RunFault::Stream(cause) => {
                let mut line = stream_text(cause);
                line.put_text("stream: ");
                line
            }
            RunFault::TooManyTurns => Line::of("too many reads"),
            RunFault::OutOfMemory => Line::of("out of memory"),
            RunFault::BareTooLong { limit } => {
                numbered("input longer than ", u128::from(*limit), " bytes")
            }
            RunFault::SkipPastEnd { skip } => numbered(
                "the input ends before its first ",
                u128::from(*skip),
                " bytes are skipped",
            ),
        }
    }
}

/// The text of what is wrong with a stream.
fn stream_text(cause: &StreamFault) -> Line
    ensures text { result ≡ stream_text cause.now }
    ensures short { length result ≤ 70 }
{
    match cause {
        StreamFault::Oversize { declared } => {
            numbered("S1 Oversize declared=", u128::from(*declared), "")
        }
        StreamFault::Truncated { held } => numbered("S2 Truncated held=", u128::from(*held), ""),
        StreamFault::OutOfMemory => Line::of("S3 OutOfMemory"),
        StreamFault::Failed => Line::of("S4 Failed"),
    }
}

/// A number between two texts.
fn numbered(before: &str, number: u128, behind: &str) -> Line
    requires before { length before.now ≤ 40 }
    requires behind { length behind.now ≤ 20 }
    ensures text { result ≡ before.now ++ (decimal number ++ behind.now) }
    ensures short { length result ≤ length before.now + 40 + length behind.now }
{
    let mut line = Line::of(behind);
    line.put_wide(number);
    line.put_text(before);
    line
}

/// The program's exit status after a run: 0 where every buffer had a yes, 1 where one had a no, 3 after a fault.
pub fn status(answer: &Result<Tally, RunFault>) -> u8
    ensures { result ≡ status_of answer.now }
{
    match answer {
        Ok(Tally { no: 0, .. }) => 0,
        Ok(_) => 1,
        Err(_) => 3,
    }
}
