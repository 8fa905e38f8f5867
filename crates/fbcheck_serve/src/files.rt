//! Where the bytes of a schema file come from, and those of files that are inputs.

ghost use Rattle.std.specs.Prelude.{◌≡◌, IfOk, IfErr, IfSome, Ok, Err, ℕ, List, Option, Result, false, option_map, string_bytes, vec_items};
ghost use Rattle.fbcheck_texts.specs.{Faults.HasFileFault, Faults.IsFile, declared.fault.FileFault.FileFault};
ghost use Rattle.fbcheck_serve.specs.{Lists.HasListFault, Lists.IsList, Lists.list_file};

use crate::names::STANDARD;
use fb_bytes::Sink;
use fb_run::Input;
use fbcheck_texts::causes::Explains;
use fbcheck_texts::fault::FileFault;
use std::io::ErrorKind;

/// Files that are read by their names, beside a writer and notes of these types.
pub trait Files<K: Sink, N: Sink> {
    /// A file that is open.
    type Opened: Input<K, N> + Explains + Drop;

    /// What a read of the file of this name may answer: its bytes, or a fault.
    ghost gives: { Self → List ℕ → Result (List ℕ) FileFault → Type 0 };

    /// What may be opened by this name.
    ghost opens: { Self → List ℕ → Self.Opened → Type 0 };

    /// The bytes of the file of this name, at most 2^31 of them: one that has as many is too long for a buffer.
    fn read(&self, name: &str) -> Result<Vec<u8>, FileFault>
        ensures bytes { IfOk result (λ bytes. gives self.now name.now (Ok bytes.items)) }
        ensures fault { IfErr result (λ fault. gives self.now name.now (Err fault)) };

    /// The file of this name, to be read from its start.
    fn open(&self, name: &str) -> Result<Self::Opened, FileFault>
        ensures opened { IfOk result (λ file. opens self.now name.now file) }
        ensures fresh { IfOk result (λ file. Self.Opened.calls file ≡ 0) }
        ensures unended { IfOk result (λ file. Self.Opened.ended file ≡ false) }
        ensures bytes { IfOk result (λ file. IfSome (Self.Opened.remaining file) (λ bytes. gives self.now name.now (Ok bytes))) }
        ensures fault { IfErr result (λ fault. gives self.now name.now (Err fault)) };
}

/// Files that are made by their names.
pub trait Makes {
    /// A file that is made.
    type Made: Sink + Explains + Drop;

    /// What may be made by this name.
    ghost makes: { Self → List ℕ → Self.Made → Type 0 };

    /// The file of this name, made or emptied, to be written from its start; or why it can't be.
    fn make(&self, name: &str) -> Result<Self::Made, ErrorKind>
        ensures made { IfOk result (λ file. makes self.now name.now file) }
        ensures fresh { IfOk result (λ file. Self.Made.failures file ≡ 0) };
}

/// The bytes of the schema file, where one is named.
pub fn read_schema<F: Files<K, N>, K: Sink, N: Sink>(
    files: &F,
    name: &Option<String>,
) -> Result<Option<Vec<u8>>, FileFault>
    ensures bytes { IfOk result (λ file. IsFile (F.gives files.now) (option_map string_bytes name.now) (option_map vec_items file)) }
    ensures fault { IfErr result (HasFileFault (F.gives files.now) (option_map string_bytes name.now)) }
{
    match name {
        Some(name) => Ok(Some(files.read(name.as_str())?)),
        None => Ok(None),
    }
}

/// How many bytes of a list of names are too many.
const TOO_LONG: usize = 0x8000_0000;

/// The file that is standard input.
const STANDARD_INPUT: &str = "/dev/stdin";

/// The bytes of a list of names, of which `-` is standard input; one of 2^31 bytes is too long.
pub fn read_list<F: Files<K, N>, K: Sink, N: Sink>(
    files: &F,
    name: &str,
) -> Result<Vec<u8>, FileFault>
    ensures list { IfOk result (λ list. IsList (F.gives files.now) name.now list.items) }
    ensures fault { IfErr result (HasListFault (F.gives files.now) name.now) }
{
    let list = files.read(list_file(name))?;
    if list.len() >= TOO_LONG {
        return Err(FileFault::Unreadable(ErrorKind::FileTooLarge));
    }
    Ok(list)
}

/// The file that a list of this name is read from.
fn list_file(name: &str) -> &str
    ensures { result.now ≡ list_file name.now }
{
    if name == STANDARD {
        STANDARD_INPUT
    } else {
        name
    }
}
