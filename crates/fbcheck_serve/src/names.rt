//! The names of the files that are inputs, as words of a call or in a list.

ghost use Rattle.std.specs.Prelude.{IfErr, IfOk, None, Some, true, false, ◌≡◌, map, string_bytes};
ghost use Rattle.fbcheck_serve.specs.Names.{is_standard, listed_names, misnomer_text, word_names, wrong_name, wrong_text};
ghost use Rattle.fbcheck_serve.specs.declared.names.Misnomer.TheVariants.{Empty};

use std::alloc::{AllocError, Global};
use std::marker::Model;
use std::str::from_utf8;

/// The name of standard input.
pub const STANDARD: &str = "-";

/// Where the name of a file stands.
#[derive(Clone, Copy)]
pub enum Origin {
    /// Among the words of a call.
    Word,
    /// In a list of names.
    List,
}

/// Why a name is that of no file.
#[derive(Clone, Copy)]
pub enum Misnomer {
    /// It has no bytes, and stands in a list.
    Empty,
    /// It isn't UTF-8.
    NotText,
}

/// The name of a file that is to be read. A clause sees its bytes, and where it stands.
#[derive(Drop)]
pub struct Name {
    bytes: Vec<u8>,
    origin: Origin,
}

impl Model for Name {
    ghost use Rattle.fbcheck_serve.specs.Names.{Named};

    ghost Value = { Named };

    ghost view = { λ n. record { bytes = n.bytes.items; origin = n.origin } };
}

impl Name {
    /// Its bytes.
    pub fn bytes(&self) -> &[u8]
        ensures { result.now ≡ self.now.bytes }
    {
        self.bytes.as_slice()
    }

    /// Whether it is that of standard input.
    pub fn is_standard(&self) -> bool
        ensures { result ≡ is_standard self.now }
    {
        self.bytes() == STANDARD.as_bytes()
    }

    /// Whether it has no bytes, and stands in a list.
    fn is_missing(&self) -> bool
        ensures missing { result ≡ true → wrong_name self.now ≡ Some Empty }
        ensures others { result ≡ false → wrong_name self.now ≡ wrong_text self.now.bytes }
    {
        match self.origin {
            Origin::Word => false,
            Origin::List => self.bytes.is_empty(),
        }
    }

    /// Its text, by which a file can be opened.
    pub fn text(&self) -> Result<&str, Misnomer>
        ensures text { IfOk result (λ text. (text.now ≡ self.now.bytes) × (wrong_name self.now ≡ None)) }
        ensures wrong { IfErr result (λ why. wrong_name self.now ≡ Some why) }
    {
        if self.is_missing() {
            return Err(Misnomer::Empty);
        }
        match from_utf8(self.bytes()) {
            Ok(text) => Ok(text),
            Err(_) => Err(Misnomer::NotText),
        }
    }
}

impl Misnomer {
    /// What is told of it.
    pub fn why(self) -> &'static str
        ensures { result.now ≡ misnomer_text self }
    {
        match self {
            Misnomer::Empty => "invalid zero-length file name",
            Misnomer::NotText => "file name isn't UTF-8",
        }
    }
}

/// The names that are words of a call.
pub fn word_names(alloc: Global, words: &[String]) -> Result<Vec<Name>, AllocError>
    ensures { IfOk result (λ names. names.items ≡ word_names (map string_bytes words.now)) }
{
    let mut names = Vec::new(alloc);
    for word in words {
        let bytes = word.as_bytes().to_vec(alloc)?;
        names.push(Name {
            bytes,
            origin: Origin::Word,
        })?;
    }
    Ok(names)
}

/// The names in a list: each ends with a zero byte, which the last may lack.
pub fn listed_names(alloc: Global, list: &[u8]) -> Result<Vec<Name>, AllocError>
    ensures { IfOk result (λ names. names.items ≡ listed_names list.now) }
{
    let mut names = Vec::new(alloc);
    let mut bytes = Vec::new(alloc);
    for byte in list {
        if *byte != 0 {
            bytes.push(*byte)?;
            continue;
        }
        names.push(Name {
            bytes,
            origin: Origin::List,
        })?;
        bytes = Vec::new(alloc);
    }
    if !bytes.is_empty() {
        names.push(Name {
            bytes,
            origin: Origin::List,
        })?;
    }
    Ok(names)
}
