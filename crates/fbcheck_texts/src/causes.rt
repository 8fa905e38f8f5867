//! Why a call failed, in words; and readers and writers that keep it.

ghost use Rattle.std.specs.Prelude.{◌≡◌, ◌+◌, ◌<◌, ◌≤◌, ◌^◌, IfErr, IfSome, OnOk, Option, None, Some, false, length, option_map};
ghost use Rattle.std.specs.{Io.ReadsAtMost, Io.WritesAtMost, Io.KnownBytes.ReadConsumes, Io.KnownBytes.WriteAppends, IoError.error_kind, declared.io.ErrorKind.ErrorKind};
ghost use Rattle.fb_bytes.specs.Ends.{failed, failed_more, one_more, told_end};
ghost use Rattle.fbcheck_texts.specs.{Causes.is_unread, Causes.known_reason, Causes.reason_text, Texts.of_read};

use fb_bytes::{Counted, Sink, Source};
use std::io;
use std::io::{ErrorKind, Read, Write};

/// Why the system refuses an open or a read, by the words that are told.
pub fn known_reason(cause: ErrorKind) -> Option<&'static str>
    ensures text { option_map (λ t. t.now) result ≡ known_reason cause }
    ensures short { IfSome result (λ t. length t.now ≤ 60) }
{
    let text = match cause {
        ErrorKind::NotFound => "no such file",
        ErrorKind::PermissionDenied => "permission denied",
        ErrorKind::IsADirectory => "is a directory",
        ErrorKind::NotADirectory => "not a directory",
        ErrorKind::InvalidFilename => "invalid file name",
        ErrorKind::FilesystemLoop => "too many links",
        ErrorKind::WouldBlock => "operation would block",
        ErrorKind::Interrupted => "operation interrupted",
        ErrorKind::InvalidInput => "invalid input parameter",
        ErrorKind::Unsupported => "unsupported",
        ErrorKind::ResourceBusy => "resource busy",
        ErrorKind::OutOfMemory => "out of memory",
        ErrorKind::StaleNetworkFileHandle => "stale network file handle",
        ErrorKind::TimedOut => "timed out",
        ErrorKind::NotConnected => "not connected",
        ErrorKind::ConnectionReset => "connection reset",
        ErrorKind::ConnectionRefused => "connection refused",
        ErrorKind::ConnectionAborted => "connection aborted",
        ErrorKind::HostUnreachable => "host unreachable",
        ErrorKind::NetworkUnreachable => "network unreachable",
        ErrorKind::NetworkDown => "network down",
        ErrorKind::AddrInUse => "address in use",
        ErrorKind::AddrNotAvailable => "address not available",
        ErrorKind::BrokenPipe => "broken pipe",
        ErrorKind::AlreadyExists => "entity already exists",
        ErrorKind::DirectoryNotEmpty => "directory not empty",
        ErrorKind::ReadOnlyFilesystem => "read-only filesystem or storage medium",
        ErrorKind::InvalidData => "invalid data",
        ErrorKind::WriteZero => "write zero",
        ErrorKind::StorageFull => "no storage space",
        ErrorKind::NotSeekable => "seek on unseekable file",
        ErrorKind::QuotaExceeded => "quota exceeded",
        ErrorKind::FileTooLarge => "file too large",
        ErrorKind::ExecutableFileBusy => "executable file busy",
        ErrorKind::Deadlock => "deadlock",
        ErrorKind::CrossesDevices => "cross-device link or rename",
        ErrorKind::TooManyLinks => "too many links",
        ErrorKind::ArgumentListTooLong => "argument list too long",
        ErrorKind::UnexpectedEof => "unexpected end of file",
        ErrorKind::InProgress => "in progress",
        ErrorKind::Other => "other error",
        ErrorKind::Uncategorized => return None,
    };
    Some(text)
}

/// Why the system gives no file.
pub fn reason(cause: ErrorKind) -> &'static str
    ensures { result.now ≡ reason_text cause }
{
    match known_reason(cause) {
        Some(text) => text,
        None => "an open or a read failed",
    }
}

/// Why the last read of an input failed, and the last write of the output, where one did.
#[derive(Clone, Copy)]
pub struct Causes {
    /// That of the read.
    pub read: Option<ErrorKind>,
    /// That of the write.
    pub write: Option<ErrorKind>,
}

impl Causes {
    /// That of a read alone.
    pub fn of_read(cause: Option<ErrorKind>) -> Causes
        ensures { result ≡ of_read cause }
    {
        Causes {
            read: cause,
            write: None,
        }
    }

    /// Whether the write failed since nobody reads the output any more.
    pub fn is_unread(self) -> bool
        ensures { result ≡ is_unread self.write }
    {
        match self.write {
            Some(ErrorKind::BrokenPipe) => true,
            _ => false,
        }
    }
}

/// A reader or writer that knows why a call failed.
pub trait Explains {
    ghost cause: { Self → Option ErrorKind };

    /// Why the last call that failed did so, none where none did for a known cause.
    fn cause(&self) -> Option<ErrorKind>
        ensures { result ≡ cause self.now };
}

/// A reader or writer of std with its counts, and with the cause of its last failure.
#[derive(Drop)]
pub struct Explained<I> {
    counted: Counted<I>,
    cause: Option<ErrorKind>,
}

impl<I> Explained<I> {
    /// Counts the calls of this reader or writer from now on.
    pub fn new(inner: I) -> Explained<I>
        ensures { result ≡ record { counted = record { inner = inner; calls = 0; failures = 0; ended = false }; cause = None } }
    {
        Explained {
            counted: Counted::new(inner),
            cause: None,
        }
    }
}

impl<I> Explains for Explained<I> {
    ghost cause = { λ r. r.cause };

    fn cause(&self) -> Option<ErrorKind> {
        self.cause
    }
}

/// Keeps the cause of a failure, and leaves the last one where there is none.
fn keep(cause: &mut Option<ErrorKind>, answer: &io::Result<usize>)
    ensures failed { IfErr answer.now (λ error. cause.new ≡ Some (error_kind error)) }
    ensures kept { OnOk answer.now (cause.new ≡ cause.old) }
{
    if let Err(error) = answer {
        *cause = Some(error.kind());
    }
}

impl<I: Write> Sink for Explained<I> {
    ghost contents = { λ w. I.contents w.counted.inner };

    ghost calls = { λ w. w.counted.calls };

    ghost failures = { λ w. w.counted.failures };

    fn push(&mut self, piece: &[u8]) -> io::Result<usize>
        ensures bound { WritesAtMost result piece.now }
        ensures bytes { WriteAppends (I.contents self.old.counted.inner) (I.contents self.new.counted.inner) result piece.now }
        ensures counted { self.new.counted.calls ≡ one_more self.old.counted.calls }
        ensures failure { self.new.counted.failures ≡ failed_more result piece.now self.old.counted.failures }
        ensures cause { IfErr result (λ error. self.new.cause ≡ Some (error_kind error)) }
        ensures kept { OnOk result (self.new.cause ≡ self.old.cause) }
    {
        let answer = self.counted.push(piece);
        keep(&mut self.cause, &answer);
        answer
    }

    fn calls(&self) -> u128 {
        self.counted.calls()
    }

    fn failures(&self) -> u128 {
        self.counted.failures()
    }
}

impl<I: Read> Source for Explained<I> {
    ghost remaining = { λ r. I.remaining r.counted.inner };

    ghost calls = { λ r. r.counted.calls };

    ghost failures = { λ r. r.counted.failures };

    ghost ended = { λ r. r.counted.ended };

    fn pull(&mut self, piece: &mut [u8]) -> io::Result<usize>
        requires { self.old.counted.calls < 2 ^ 100 }
        ensures bound { ReadsAtMost result piece.new }
        ensures bytes { ReadConsumes (I.remaining self.old.counted.inner) (I.remaining self.new.counted.inner) result piece.new }
        ensures counted { self.new.counted.calls ≡ self.old.counted.calls + 1 }
        ensures failure { self.new.counted.failures ≡ self.old.counted.failures + failed result }
        ensures end { self.new.counted.ended ≡ told_end self.old.counted.ended result piece.new }
        ensures cause { IfErr result (λ error. self.new.cause ≡ Some (error_kind error)) }
        ensures kept { OnOk result (self.new.cause ≡ self.old.cause) }
    {
        let answer = self.counted.pull(piece);
        keep(&mut self.cause, &answer);
        answer
    }

    fn calls(&self) -> u128 {
        self.counted.calls()
    }

    fn failures(&self) -> u128 {
        self.counted.failures()
    }

    fn ended(&self) -> bool {
        self.counted.ended()
    }
}
