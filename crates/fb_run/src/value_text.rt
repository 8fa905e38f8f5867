//! How bytes and numbers are spelled in lines, and the name of an input.

ghost use Rattle.std.specs.Prelude.{OnOk, true, codes, ℕ, List, ◌≡◌, ◌<◌, ◌≤◌, ◌++◌, ◌∷◌, [], length, option_map, take};
ghost use Rattle.std.specs.{Borrow.Bor, Char.digit_char, List.flat_map};
ghost use Rattle.hex.specs.Hex.{encode_lower};
ghost use Rattle.json.specs.Print.{escape_byte, escape_letter};
ghost use Rattle.fb_run.specs.{AnswerText.byte_text, AnswerText.doubled, AnswerText.label_text, AnswerText.spelled, Line.words_text};

use itoa::{Buffer, Integer};
use std::alloc::{AllocError, Allocator};

/// Adds a place in words behind a space, where there is one, and the end of a line.
pub fn put_words<A: Allocator>(
    text: &mut Vec<u8, A>,
    place: Option<&[u8]>,
) -> Result<(), AllocError>
    ensures { OnOk result (text.new.items ≡ text.old.items ++ (words_text (option_map (λ (words : Bor (List ℕ)). words.now) place.entry) ++ codes "\n")) }
{
    if let Some(words) = place {
        text.extend_from_slice(b" ")?;
        text.extend_from_slice(words)?;
    }
    text.extend_from_slice(b"\n")
}

/// Adds a label and a number.
pub fn put_number<A: Allocator, I: Integer>(
    text: &mut Vec<u8, A>,
    label: &[u8],
    number: I,
) -> Result<(), AllocError>
    ensures { OnOk result (text.new.items ≡ text.old.items ++ (label.now ++ I.text number)) }
{
    let mut buffer = Buffer::new();
    text.extend_from_slice(label)?;
    text.extend_from_slice(buffer.format(number).as_bytes())
}

/// Adds a label and bytes as hexadecimal digits.
pub fn put_hex<A: Allocator>(
    text: &mut Vec<u8, A>,
    label: &[u8],
    bytes: &[u8],
) -> Result<(), AllocError>
    ensures { OnOk result (text.new.items ≡ text.old.items ++ (label.now ++ encode_lower bytes.now)) }
{
    text.extend_from_slice(label)?;
    let start = text.len();
    let Some(room) = bytes.len().checked_mul(2) else {
        return Err(AllocError);
    };
    let Some(end) = start.checked_add(room) else {
        return Err(AllocError);
    };
    text.resize(end, 0)?;
    let Ok(()) = hex::encode_to_slice(bytes, &mut text.as_mut_slice()[start..]) else {
        unreachable!()
    };
    Ok(())
}

/// Adds what each line begins with, where the input has a name.
pub fn put_label<A: Allocator>(
    text: &mut Vec<u8, A>,
    label: &Option<Vec<u8>>,
) -> Result<(), AllocError>
    ensures { OnOk result (text.new.items ≡ text.old.items ++ label_text (option_map (λ name. name.items) label.now)) }
{
    let Some(name) = label else {
        return Ok(());
    };
    put_bytes(text, name)?;
    text.extend_from_slice(b": ")
}

/// Adds the bytes of a text, escaped where they aren't printable.
pub fn put_bytes<A: Allocator>(text: &mut Vec<u8, A>, bytes: &[u8]) -> Result<(), AllocError>
    ensures { OnOk result (text.new.items ≡ text.old.items ++ flat_map byte_text bytes.now) }
{
    put_spelled(text, bytes, Spelling::Quoted)
}

/// Adds bytes, each as it is written.
pub fn put_spelled<A: Allocator>(
    text: &mut Vec<u8, A>,
    bytes: &[u8],
    spelling: Spelling,
) -> Result<(), AllocError>
    ensures { OnOk result (text.new.items ≡ text.old.items ++ flat_map (spelled spelling) bytes.now) }
{
    let mut rest = bytes;
    while !rest.is_empty() {
        let plain = plain_front(spelling, rest);
        if plain > 0 {
            text.extend_from_slice(&rest[..plain])?;
            rest = &rest[plain..];
        } else {
            let (spelled, length) = spell(spelling, rest[0]);
            text.extend_from_slice(&spelled[..length])?;
            rest = &rest[1..];
        }
    }
    Ok(())
}

/// How each byte of a value is written.
#[derive(Clone, Copy)]
pub enum Spelling {
    /// As in a text between quotes of a plain line.
    Quoted,
    /// As in a string of JSON.
    Json,
    /// As two hexadecimal digits.
    Digits,
    /// As in a string of CSV between quotes.
    Doubled,
}

/// How many bytes at the front are written as they are.
pub fn plain_front(spelling: Spelling, bytes: &[u8]) -> usize
    ensures within { result ≤ length bytes.now }
    ensures plain { flat_map (spelled spelling) (take result bytes.now) ≡ take result bytes.now }
{
    let mut count = 0;
    while count < bytes.len() && is_plain(spelling, bytes[count]) {
        count += 1;
    }
    count
}

/// Whether a byte is known to be written as it is.
#[tactic(auto, unfolding(json::specs::Print::escape_byte))]
fn is_plain(spelling: Spelling, byte: u8) -> bool
    ensures { result ≡ true → spelled spelling byte ≡ byte ∷ [] }
{
    match spelling {
        Spelling::Quoted => (b' '..=b'~').contains(&byte) && byte != b'"' && byte != b'\\',
        Spelling::Json => byte >= b' ' && letter(byte) == 0,
        Spelling::Digits => false,
        Spelling::Doubled => byte != b'"',
    }
}

/// One byte as it is written: the first of six bytes, and how many of them those are.
pub fn spell(spelling: Spelling, byte: u8) -> ([u8; 6], usize)
    ensures text { take result.1 result.0 ≡ spelled spelling byte }
    ensures fits { result.1 ≤ 6 }
{
    match spelling {
        Spelling::Quoted => quote(byte),
        Spelling::Json => escape(byte),
        Spelling::Digits => {
            let mut spelled = [0u8; 6];
            put_digits(&mut spelled[..2], byte);
            (spelled, 2)
        }
        Spelling::Doubled => double(byte),
    }
}

/// One byte of a string of CSV: a quote stands twice.
fn double(byte: u8) -> ([u8; 6], usize)
    ensures text { take result.1 result.0 ≡ doubled byte }
    ensures fits { result.1 ≤ 6 }
{
    if byte == b'"' {
        ([byte, byte, 0, 0, 0, 0], 2)
    } else {
        ([byte, 0, 0, 0, 0, 0], 1)
    }
}

/// One byte of a text between quotes: a quote and a backslash stand behind a backslash, and what isn't printable ASCII
/// as two hexadecimal digits.
fn quote(byte: u8) -> ([u8; 6], usize)
    ensures text { take result.1 result.0 ≡ byte_text byte }
    ensures fits { result.1 ≤ 6 }
{
    if byte == b'"' || byte == b'\\' {
        ([b'\\', byte, 0, 0, 0, 0], 2)
    } else if byte < b' ' || b'~' < byte {
        let mut spelled = [b'\\', b'x', 0, 0, 0, 0];
        put_digits(&mut spelled[2..4], byte);
        (spelled, 4)
    } else {
        ([byte, 0, 0, 0, 0, 0], 1)
    }
}

/// Puts the two hexadecimal digits of a byte into this place.
fn put_digits(place: &mut [u8], byte: u8)
    requires { length place.old ≡ 2 }
    ensures { place.new ≡ encode_lower (byte ∷ []) }
{
    let Ok(()) = hex::encode_to_slice([byte].as_slice(), place) else {
        unreachable!()
    };
}

/// One byte of a string of JSON.
#[tactic(auto, unfolding(json::specs::Print::escape_byte))]
fn escape(byte: u8) -> ([u8; 6], usize)
    ensures text { take result.1 result.0 ≡ escape_byte byte }
    ensures fits { result.1 ≤ 6 }
{
    let letter = letter(byte);
    if letter > 0 {
        return ([b'\\', letter, 0, 0, 0, 0], 2);
    }
    if byte < b' ' {
        return (
            [b'\\', b'u', b'0', b'0', digit(byte / 16), digit(byte % 16)],
            6,
        );
    }
    ([byte, 0, 0, 0, 0, 0], 1)
}

/// The letter that stands behind a backslash for a byte, or 0 where there is none.
fn letter(byte: u8) -> u8
    ensures { result ≡ escape_letter byte }
{
    match byte {
        b'"' | b'\\' => byte,
        8 => b'b',
        12 => b'f',
        b'\n' => b'n',
        b'\r' => b'r',
        b'\t' => b't',
        _ => 0,
    }
}

/// A hexadecimal digit.
fn digit(value: u8) -> u8
    requires { value < 16 }
    ensures { result ≡ digit_char value }
{
    if value < 10 {
        b'0' + value
    } else {
        b'a' - 10 + value
    }
}
