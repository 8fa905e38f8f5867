//! Why buffers aren't checked, or not all of them, and why words and files aren't read.

ghost use Rattle.std.specs.Prelude.{◌≡◌};
ghost use Rattle.std.specs.IoError.{error_kind};
ghost use Rattle.fbcheck_texts.specs.Faults.{ask_status, file_fault, load_fault, path_fault, words_fault};
ghost use Rattle.fbcheck_texts.specs.declared.fault.AskFault.TheVariants.{OutOfMemory};

use crate::texts::{ask_text, file_text, words_text};
use fb_access::PathFault;
use fb_bfbs::LoadFault;
use fb_run::RunFault;
use std::alloc::AllocError;
use std::io;
use std::io::ErrorKind;
use thiserror::Error;

/// Why there is nothing to check buffers by.
#[derive(Clone, Copy, Debug, Error)]
#[error("{text}", text = ask_text(self))]
pub enum AskFault {
    /// The schema file gives no schema. It is never that fault's own `OutOfMemory`, which is told as this type's.
    Load(LoadFault),
    /// The schema has no table of the root's name, or no root was given and the schema file has none.
    NoRoot,
    /// The path isn't one from the root table. It is never that fault's own `OutOfMemory`, which is told as this
    /// type's.
    Path(PathFault),
    /// The schema's own identifier is asked for, and it has neither no bytes nor four.
    NoIdent,
    /// Strict checks are asked for, and the schema file has a field of bytes without a mark, and doesn't show that one
    /// which holds a buffer or a flexbuffer would have a mark.
    UnmarkedBytes,
    /// Strict checks are asked for, and the schema file marks a field of bytes as a nested buffer of no table.
    NoSuchTable,
    /// Memory was refused.
    OutOfMemory,
}

/// Why a check came to rest before its end.
#[derive(Clone, Copy, Debug, Error)]
#[error(transparent)]
pub enum CheckFault {
    /// There was nothing to check by.
    Ask(AskFault),
    /// The run came to rest.
    Run(RunFault),
}

impl From<AllocError> for AskFault {
    ghost from_gives = { λ _ fault. fault ≡ OutOfMemory };

    fn from(_: AllocError) -> Self {
        Self::OutOfMemory
    }
}

impl From<LoadFault> for AskFault {
    ghost from_gives = { λ cause fault. fault ≡ load_fault cause };

    fn from(cause: LoadFault) -> Self {
        match cause {
            LoadFault::OutOfMemory => Self::OutOfMemory,
            _ => Self::Load(cause),
        }
    }
}

impl From<PathFault> for AskFault {
    ghost from_gives = { λ cause fault. fault ≡ path_fault cause };

    fn from(cause: PathFault) -> Self {
        match cause {
            PathFault::OutOfMemory => Self::OutOfMemory,
            _ => Self::Path(cause),
        }
    }
}

impl AskFault {
    /// The exit status: 2 where the schema file, the root, the path or the identifier is wrong, or strict checks can't
    /// be made by the schema file, 3 for want of memory.
    pub fn status(&self) -> u8
        ensures { result ≡ ask_status self.now }
    {
        match self {
            AskFault::OutOfMemory => 3,
            _ => 2,
        }
    }
}

/// Why a file can't be read.
#[derive(Clone, Copy, Debug, Error)]
#[error("{text}", text = file_text(self))]
pub enum FileFault {
    /// It isn't there, or a read of it failed, for this cause.
    Unreadable(ErrorKind),
    /// Memory was refused.
    OutOfMemory,
}

impl FileFault {
    /// What an error means that came while a file was read.
    pub fn of(error: io::Error) -> FileFault
        ensures { result ≡ file_fault (error_kind error) }
    {
        match error.kind() {
            ErrorKind::OutOfMemory => FileFault::OutOfMemory,
            cause => FileFault::Unreadable(cause),
        }
    }
}

/// A word of the command line that isn't a text, by its number, the program's name being 0.
#[derive(Debug, Drop)]
pub struct WrongWord {
    /// Its number.
    pub number: usize,
    /// Its bytes.
    pub bytes: Vec<u8>,
}

/// Why the words of the command line can't be read.
#[derive(Debug, Drop, Error)]
#[error("{text}", text = words_text(self))]
pub enum WordsFault {
    /// A word isn't a text: the first such one.
    NotText(WrongWord),
    /// Memory was refused.
    OutOfMemory,
}

impl WordsFault {
    /// What an error means that came while the words were read, where this is the first that isn't a text, or there was
    /// no memory for it.
    pub fn of(error: io::Error, word: Result<WrongWord, AllocError>) -> WordsFault
        ensures { result ≡ words_fault (error_kind error) word }
    {
        match (error.kind(), word) {
            (ErrorKind::OutOfMemory, _) | (_, Err(_)) => WordsFault::OutOfMemory,
            (_, Ok(word)) => WordsFault::NotText(word),
        }
    }
}
