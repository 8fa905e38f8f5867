//! The statuses that calls return.

ghost use Rattle.std.specs.Prelude.{◌≡◌};
ghost use Rattle.fbcheck_calls.specs.Told.{number};

/// What a call returns, by its number in `include/fbcheck.h` (`fbcheck_status`).
#[derive(Clone, Copy)]
pub enum Status {
    /// It was done, and a buffer is good.
    Done = 0,
    Bad = 1,
    /// A pointer is null: told in C.
    Null = 2,
    UnknownOptions = 3,
    OutOfRange = 4,
    NoIdent = 5,
    NoRoot = 6,
    TooLong = 7,
    NotWellFormed = 8,
    BadSchema = 9,
    RootNotListed = 10,
    OutOfMemory = 11,
    NoSpan = 12,
    /// A message of a stream goes on.
    More = 13,
    Oversize = 14,
    Truncated = 15,
    /// A stream has failed before.
    Failed = 16,
    BadPath = 17,
    NoRoom = 18,
    Misfit = 19,
    TooMuchShared = 20,
    NotPlanned = 21,
    UnmarkedBytes = 22,
    NoSuchTable = 23,
    Changed = 24,
}

impl Status {
    /// Its number.
    #[inline(always)]
    pub fn number(self) -> u32
        ensures { result ≡ number self }
    {
        self as u32
    }
}
