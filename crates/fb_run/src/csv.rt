//! Rows of CSV, and the head above them.

ghost use Rattle.std.specs.Prelude.{OnOk, ◌≡◌, ◌++◌, [], codes, if◌then◌else◌, map, option_map, vec_items};
ghost use Rattle.std.specs.List.{list_any};
ghost use Rattle.fb_access.specs.Denotes.{shown};
ghost use Rattle.fb_run.specs.{Csv.AreJoined, Csv.IsRow, Csv.head_field, Csv.head_in, Csv.is_special, Csv.joined, Csv.name_field, Csv.notation_of, Puts.Puts, Puts.PutsSome, Puts.queue_of};

use crate::options::{AskedPath, Mode, Options};
use crate::value_text::{Spelling, put_spelled};
use crate::values::{Notation, put_between, put_value};
use crate::writing::Pending;
use fb_access::Answer;
use fb_bytes::Sink;
use std::alloc::{AllocError, Allocator};

/// Puts the row of a good buffer: the name of its input as a string, where it has one, and the values at the ends of
/// the paths.
pub fn put_row<A: Allocator, K: Sink>(
    out: &mut Pending<A>,
    sink: &mut K,
    label: &Option<Vec<u8>>,
    answers: &[Answer<'_>],
)
    ensures { PutsSome (IsRow (option_map vec_items label.now) (map shown answers.now)) (queue_of K.Sink out.old sink.old) (queue_of K.Sink out.new sink.new) }
{
    put_name(out, sink, label);
    put_fields(out, sink, notation(label, answers), answers);
    out.put(sink, b"\r\n");
}

/// Puts the name of an input and a comma, where it has one.
#[tactic(auto, using(crate::proofs::CsvLemmas::name_put))]
fn put_name<A: Allocator, K: Sink>(out: &mut Pending<A>, sink: &mut K, label: &Option<Vec<u8>>)
    ensures { Puts (name_field (option_map vec_items label.now)) (queue_of K.Sink out.old sink.old) (queue_of K.Sink out.new sink.new) }
{
    if let Some(name) = label {
        put_between(out, sink, b"\"", name.as_slice(), Spelling::Doubled, b"\",");
    }
}

/// How the fields of a row are written: by whether it has only one.
fn notation(label: &Option<Vec<u8>>, answers: &[Answer<'_>]) -> Notation
    ensures { result ≡ notation_of (option_map vec_items label.now) (map shown answers.now) }
{
    if label.is_none() && answers.len() == 1 {
        Notation::OnlyField
    } else {
        Notation::Field
    }
}

/// Puts fields with a comma between.
fn put_fields<A: Allocator, K: Sink>(
    out: &mut Pending<A>,
    sink: &mut K,
    notation: Notation,
    answers: &[Answer<'_>],
)
    ensures { PutsSome (AreJoined notation (map shown answers.now)) (queue_of K.Sink out.old sink.old) (queue_of K.Sink out.new sink.new) }
{
    for index in 0..answers.len() {
        put_comma(out, sink, index > 0);
        put_value(out, sink, notation, &answers[index]);
    }
}

/// Puts a comma, behind another field.
fn put_comma<A: Allocator, K: Sink>(out: &mut Pending<A>, sink: &mut K, behind: bool)
    ensures { Puts (if behind then codes "," else []) (queue_of K.Sink out.old sink.old) (queue_of K.Sink out.new sink.new) }
{
    if behind {
        out.put(sink, b",");
    }
}

/// Adds what is written before any message: the head of a table, where rows are asked for, with the texts of the paths,
/// behind `file` where rows tell the name of their input.
pub fn put_head<A: Allocator>(
    text: &mut Vec<u8, A>,
    options: &Options,
    named: bool,
) -> Result<(), AllocError>
    ensures { OnOk result (text.new.items ≡ text.old.items ++ head_in options.now.terms.mode named options.now.paths.items) }
{
    let Mode::Csv = options.terms.mode else {
        return Ok(());
    };
    add_if(text, named, b"file,")?;
    put_texts(text, options.paths.as_slice())?;
    text.extend_from_slice(b"\r\n")?;
    Ok(())
}

/// Adds the texts of paths as fields, with a comma between.
fn put_texts<A: Allocator>(text: &mut Vec<u8, A>, paths: &[AskedPath]) -> Result<(), AllocError>
    ensures { OnOk result (text.new.items ≡ text.old.items ++ joined (map head_field (map (λ p. p.text) paths.now))) }
{
    for index in 0..paths.len() {
        add_if(text, index > 0, b",")?;
        put_text(text, paths[index].text())?;
    }
    Ok(())
}

/// Adds these bytes, where that is asked.
fn add_if<A: Allocator>(text: &mut Vec<u8, A>, asked: bool, bytes: &[u8]) -> Result<(), AllocError>
    ensures { OnOk result (text.new.items ≡ text.old.items ++ (if asked then bytes.now else [])) }
{
    if asked {
        return text.extend_from_slice(bytes);
    }
    Ok(())
}

/// Adds a text as a field of a head: between quotes where it needs them.
fn put_text<A: Allocator>(text: &mut Vec<u8, A>, path: &[u8]) -> Result<(), AllocError>
    ensures { OnOk result (text.new.items ≡ text.old.items ++ head_field path.now) }
{
    if !has_special(path) {
        return text.extend_from_slice(path);
    }
    text.extend_from_slice(b"\"")?;
    put_spelled(text, path, Spelling::Doubled)?;
    text.extend_from_slice(b"\"")
}

/// Whether a text has a byte that stands in a field only between quotes.
fn has_special(text: &[u8]) -> bool
    ensures { result ≡ list_any is_special text.now }
{
    text.iter().any(|byte| is_special(*byte))
}

/// Whether it is one.
fn is_special(byte: u8) -> bool
    ensures { result ≡ is_special byte }
{
    byte == b',' || byte == b'"' || byte == b'\r' || byte == b'\n'
}
