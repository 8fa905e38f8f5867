//! What is told behind a fault, to the end of its line. No function here fails but where memory was refused.

ghost use Rattle.std.specs.Prelude.{IsTrue, ◌≡◌};
ghost use Rattle.fb_schema.specs.Rows.{is_table};
ghost use Rattle.fbcheck_texts.specs.Hints.{IsHint, fault_with};

use crate::causes::reason;
use crate::choices::Settings;
use crate::fault::{AskFault, FileFault, WordsFault};
use crate::unsupported::refused_field;
use fb_access::{path_hint as pieces_of_path, root_hint as pieces_of_root};
use fb_bfbs::LoadFault;
use fb_run::put_bytes;
use fb_schema::{Code, Schema, SchemaFault};
use std::alloc::{AllocError, Global};
use std::marker::Model;
use thiserror::Error;

/// By how many of its first bytes a file is taken for a text.
const FRONT: usize = 16;

/// With how many bytes a hint is full. A word of a command line, of at most 131,071 bytes on Linux, takes at most four
/// times as many of them.
const FULL: usize = 1_048_570;

/// Why there is nothing to check buffers by, and what is told behind that.
#[derive(Debug, Drop, Error)]
#[error("{fault}")]
pub struct Unasked {
    /// The cause.
    pub fault: AskFault,
    /// What is told behind it.
    pub hint: Option<Hint>,
}

impl Unasked {
    /// This fault with its hint, or want of memory where there was none for that.
    pub fn new(fault: AskFault, hint: Result<Hint, AllocError>) -> Unasked
        ensures { result.fault ≡ fault_with fault hint }
    {
        match hint {
            Ok(hint) => Unasked {
                fault,
                hint: Some(hint),
            },
            Err(_) => Unasked::plain(AskFault::OutOfMemory),
        }
    }

    /// This fault alone.
    pub fn plain(fault: AskFault) -> Unasked
        ensures { result ≡ record { fault = fault; hint = None } }
    {
        Unasked { fault, hint: None }
    }

    /// What stands behind the fault's text, to the end of the line.
    pub fn hint(&self) -> &[u8]
        ensures { IsHint result.now }
    {
        match &self.hint {
            Some(hint) => hint.bytes(),
            None => b"\n",
        }
    }
}

/// What is told behind a fault: one line, of at most 1,048,576 bytes.
#[derive(Debug, Drop)]
pub struct Hint {
    text: Vec<u8>,
}

impl Model for Hint {
    ghost use Rattle.std.specs.Prelude.{ℕ, List};
    ghost use Rattle.fbcheck_texts.specs.Hints.{IsHint};

    ghost Value = { List ℕ };

    ghost view = { λ h. h.text.items };

    ghost invariant = { λ h. IsHint h.text.items };
}

impl Hint {
    /// Its bytes, to the end of the line.
    pub fn bytes(&self) -> &[u8]
        ensures { IsHint result.now }
    {
        self.text.as_slice()
    }
}

/// A hint that is being written.
#[derive(Drop)]
struct Draft {
    text: Vec<u8>,
}

impl Model for Draft {
    ghost use Rattle.std.specs.Prelude.{ℕ, List};
    ghost use Rattle.fbcheck_texts.specs.Hints.{IsUnended};

    ghost Value = { List ℕ };

    ghost view = { λ d. d.text.items };

    ghost invariant = { λ d. IsUnended d.text.items };
}

impl Draft {
    /// Nothing yet.
    fn new(alloc: Global) -> Draft {
        Draft {
            text: Vec::new(alloc),
        }
    }

    /// With a text behind it, where what isn't printable stands as in values. A full one gets no more.
    fn with(self, more: &[u8]) -> Result<Draft, AllocError> {
        let mut text = self.text;
        for byte in more {
            if text.len() < FULL {
                put_bytes(&mut text, &[*byte])?;
            }
        }
        Ok(Draft { text })
    }

    /// With a name behind a space.
    fn with_name(self, name: &[u8]) -> Result<Draft, AllocError> {
        self.with(b" ")?.with(name)
    }

    /// The hint: `..` stands at the end of a full one.
    fn ended(self) -> Result<Hint, AllocError> {
        let mut text = self.text;
        let end: &[u8] = if text.len() < FULL { b"\n" } else { b"..\n" };
        text.extend_from_slice(end)?;
        Ok(Hint { text })
    }

    /// With the pieces of a text behind it, if there are any.
    fn with_all(self, pieces: &[&[u8]]) -> Result<Draft, AllocError> {
        if pieces.is_empty() {
            return Ok(self);
        }
        let mut text = self.with(b"; ")?;
        for piece in pieces {
            text = text.with(piece)?;
        }
        Ok(text)
    }

    /// With which path or file it is, where that is told.
    fn with_which(self, name: Option<&[u8]>) -> Result<Draft, AllocError> {
        match name {
            Some(name) => self.with(b" in")?.with_name(name),
            None => Ok(self),
        }
    }

    /// With what a file looks like that begins so.
    fn with_front(self, front: &[u8]) -> Result<Draft, AllocError> {
        if front.is_empty() {
            self.with(b"; this is empty")
        } else if are_plain(front) {
            self.with(text_hint(past_blanks(front)))
        } else {
            self.with_ident(front)
        }
    }

    /// With the field for which a schema file is refused as unsupported, and why, where it is refused for that.
    fn with_unsupported(
        self,
        alloc: Global,
        file: &[u8],
        fault: LoadFault,
    ) -> Result<Draft, AllocError> {
        let LoadFault::BadSchema(
            SchemaFault {
                code: Code::Unsupported,
                owner,
                part: Some(part),
            },
        ) = fault
        else {
            return Ok(self);
        };
        match refused_field(alloc, file, owner, part) {
            Some(found) => self
                .with(b";")?
                .with_name(found.table)?
                .with(b".")?
                .with(found.name)?
                .with(b" ")?
                .with(found.why),
            None => Ok(self),
        }
    }

    /// With the identifier of a file that is no text and begins so, where that isn't the one of schema files.
    fn with_ident(self, front: &[u8]) -> Result<Draft, AllocError> {
        let ident = ident_in(front);
        if ident == b"BFBS".as_slice() {
            Ok(self)
        } else if has_ident(front) {
            self.with(b"; its file identifier is")?
                .with_name(ident)?
                .with(b", where a .bfbs has BFBS")
        } else {
            self.with(b"; this is no binary schema, which flatc --binary --schema makes")
        }
    }
}

/// What is told behind the fault of words that can't be read: the word that isn't a text, and that names are.
pub fn words_hint(alloc: Global, fault: &WordsFault) -> Result<Hint, AllocError> {
    let text = Draft::new(alloc);
    match fault {
        WordsFault::NotText(word) => text
            .with(b",")?
            .with_name(word.bytes.as_slice())?
            .with(
                b"; nothing was checked: words must be UTF-8, and a file of any name can be standard input",
            )?
            .ended(),
        WordsFault::OutOfMemory => text.ended(),
    }
}

/// What is told behind the fault of a schema file, or of a list of names, that can't be read: its name, and why.
pub fn file_hint(
    alloc: Global,
    fault: FileFault,
    name: &Option<String>,
) -> Result<Hint, AllocError> {
    let text = Draft::new(alloc);
    match (fault, name) {
        (FileFault::Unreadable(cause), Some(name)) => text
            .with_name(name.as_bytes())?
            .with(b": ")?
            .with(reason(cause).as_bytes())?
            .ended(),
        _ => text.ended(),
    }
}

/// Whose tables these are where no schema file is named, and where one comes from.
fn schemaless(schema: &Option<String>) -> &'static [u8] {
    match schema {
        Some(_) => b"",
        None =>
            b"; these are of schema files, which input is taken for without --schema: flatc --binary --schema makes the .bfbs",
    }
}

/// What is told where there is no root table: the name that was asked for, and the tables that there are.
pub fn root_hint(
    alloc: Global,
    schema: &Schema<'_>,
    settings: &Settings,
) -> Result<Hint, AllocError> {
    let mut text = Draft::new(alloc);
    if let Some(name) = &settings.root {
        text = text.with_name(name.as_bytes())?;
    }
    text.with_all(pieces_of_root(schema).as_slice())?
        .with(schemaless(&settings.schema))?
        .ended()
}

/// What is told behind the fault of a path of this text from the table `root`: which it is, where that is to be told,
/// and what there is where its step doesn't fit.
pub fn path_hint(
    alloc: Global,
    schema: &Schema<'_>,
    root: u32,
    told: Option<&[u8]>,
    path: &[u8],
    fault: AskFault,
) -> Result<Hint, AllocError>
    requires { IsTrue (is_table schema.now root) }
{
    let text = Draft::new(alloc);
    match fault {
        AskFault::Path(_) => text
            .with_which(told)?
            .with_all(pieces_of_path(schema, root, path).as_slice())?
            .ended(),
        _ => text.ended(),
    }
}

/// What can be done where strict checks can't be made of a field of bytes.
fn remedy(fault: AskFault) -> &'static [u8] {
    match fault {
        AskFault::UnmarkedBytes =>
            b"; flatc --bfbs-builtins writes it to the .bfbs, --plain-bytes takes such fields as bytes",
        AskFault::NoSuchTable => b"; --plain-bytes takes such fields as bytes",
        _ => b"",
    }
}

/// What is told behind the fault of a field of bytes of which strict checks can't be made: its table, its name, and
/// what can be done.
pub fn bytes_hint(
    alloc: Global,
    fault: AskFault,
    table: &[u8],
    field: &[u8],
) -> Result<Hint, AllocError> {
    Draft::new(alloc)
        .with(b":")?
        .with_name(table)?
        .with(b".")?
        .with(field)?
        .with(remedy(fault))?
        .ended()
}

/// What is told of a file that gives no schema for this fault: its name, where it has one, what it is by its first
/// bytes, and the field for which it is refused as unsupported.
pub fn schema_hint(
    alloc: Global,
    name: &Option<String>,
    file: Option<&[u8]>,
    fault: LoadFault,
) -> Result<Hint, AllocError> {
    let text = Draft::new(alloc);
    let Some(bytes) = file else {
        return text.ended();
    };
    let front = &bytes[..bytes.len().min(FRONT)];
    let named = match name {
        Some(name) => text.with_which(Some(name.as_bytes()))?,
        None => text,
    };
    named
        .with_front(front)?
        .with_unsupported(alloc, bytes, fault)?
        .ended()
}

/// Whether a byte is a blank of a text.
fn is_blank(byte: u8) -> bool {
    byte == b'\t' || byte == b'\n' || byte == b'\r' || byte == b' '
}

/// Whether a byte may stand in a text.
fn is_plain(byte: u8) -> bool {
    is_blank(byte) || (33 <= byte && byte <= 126)
}

/// Whether each of these bytes may stand in a text.
pub fn are_plain(bytes: &[u8]) -> bool {
    bytes.iter().all(|byte| is_plain(*byte))
}

/// A text from its first byte on that is no blank.
pub fn past_blanks(bytes: &[u8]) -> &[u8] {
    for place in 0..bytes.len() {
        if !is_blank(bytes[place]) {
            return &bytes[place..];
        }
    }
    b""
}

/// Whether a text opens an object or a list of JSON.
pub fn opens(text: &[u8]) -> bool {
    match text.first() {
        Some(byte) => *byte == b'{' || *byte == b'[',
        None => false,
    }
}

/// What a schema's text begins with: a comment, or a word of its language.
static STARTS: [&str; 12] = [
    "//",
    "/*",
    "namespace ",
    "table ",
    "struct ",
    "enum ",
    "union ",
    "include ",
    "root_type ",
    "attribute ",
    "file_",
    "native_include ",
];

/// Whether a text begins as a schema's does.
fn begins_schema(text: &[u8]) -> bool {
    for start in &STARTS {
        if text.starts_with(start.as_bytes()) {
            return true;
        }
    }
    false
}

/// What a text looks like that begins so.
fn text_hint(text: &[u8]) -> &'static [u8] {
    if opens(text) {
        b"; this looks like JSON, and no binary schema, which flatc --binary --schema makes"
    } else if begins_schema(text) {
        b"; this looks like a schema's text (.fbs): flatc --binary --schema makes the .bfbs"
    } else {
        b"; this is text, and no binary schema, which flatc --binary --schema makes"
    }
}

/// The bytes of a file's identifier, as many as there are.
fn ident_in(front: &[u8]) -> &[u8] {
    &front[front.len().min(4)..front.len().min(8)]
}

/// Whether a file that begins so has an identifier, behind an offset below 2^24.
fn has_ident(front: &[u8]) -> bool {
    front.len() >= 8 && front[3] == 0 && are_plain(ident_in(front))
}
