//! The values at the ends of paths, written while they are made: a long one takes no memory.

ghost use Rattle.std.specs.Prelude.{◌≡◌, ◌++◌, List, [], ℕ, codes, if◌then◌else◌, false, map};
ghost use Rattle.std.specs.List.{flat_map};
ghost use Rattle.hex.specs.Hex.{encode_lower};
ghost use Rattle.json.specs.{Json.Json, Json.Members, Json.string, Print.escape};
ghost use Rattle.fb_access.specs.Denotes.{shown};
ghost use Rattle.fb_run.specs.{AnswerText.spaced_answer, AnswerText.spelled, Csv.IsWritten, Csv.edge, Csv.field_of, Csv.real_text, Csv.written, Line.IsRest, Puts.Puts, Puts.PutsSome, Puts.queue_of};
ghost use Rattle.fb_run.specs.Json.{AreValues, IsFloat, IsReal, IsValue, IsValuesMember, following, json_text, members_text, most_digits, most_zeros, text_json, value_json};

use crate::options::{AskedPath, LineForm};
use crate::value_text::{Spelling, plain_front, spell};
use crate::writing::Pending;
use byteorder::{ByteOrder, LittleEndian};
use fb_access::Answer;
use fb_bytes::Sink;
use itoa::{Buffer, Integer};
use ryu::Float;
use std::alloc::Allocator;
use std::num::{f32_from_bits_with_nan, f64_from_bits_with_nan};

/// Puts what the line of a yes has behind its counts: the values at the ends of some paths, and its end.
pub fn put_values<A: Allocator, K: Sink>(
    out: &mut Pending<A>,
    sink: &mut K,
    form: LineForm,
    paths: &[AskedPath],
    answers: &[Answer<'_>],
)
    ensures { PutsSome (IsRest form (map (λ p. p.text) paths.now) (map shown answers.now)) (queue_of K.Sink out.old sink.old) (queue_of K.Sink out.new sink.new) }
{
    match form {
        LineForm::Plain => put_plain(out, sink, answers),
        LineForm::Json => put_json(out, sink, paths, answers),
    }
}

/// Puts values, each behind a space, and a newline.
fn put_plain<A: Allocator, K: Sink>(out: &mut Pending<A>, sink: &mut K, answers: &[Answer<'_>])
    ensures { Puts (flat_map spaced_answer answers.now ++ codes "\n") (queue_of K.Sink out.old sink.old) (queue_of K.Sink out.new sink.new) }
{
    for answer in answers {
        put_spaced(out, sink, answer);
    }
    out.put(sink, b"\n");
}

/// Puts a value behind a space.
#[tactic(auto, using(crate::proofs::AnswerLemmas::digits_each))]
fn put_spaced<A: Allocator, K: Sink>(out: &mut Pending<A>, sink: &mut K, answer: &Answer<'_>)
    ensures { Puts (spaced_answer answer.now) (queue_of K.Sink out.old sink.old) (queue_of K.Sink out.new sink.new) }
{
    match answer {
        Answer::Absent | Answer::DefaultFloat(_) | Answer::DefaultDouble(_) => {
            out.put(sink, b" absent")
        }
        Answer::NoElement => out.put(sink, b" no-element"),
        Answer::OtherMember => out.put(sink, b" other-member"),
        Answer::Bool(true) => out.put(sink, b" true"),
        Answer::Bool(false) => out.put(sink, b" false"),
        Answer::Int(number) => put_number(out, sink, b" ", *number),
        Answer::UInt(number) => put_number(out, sink, b" ", *number),
        Answer::Float(bytes) => put_bytes(out, sink, b" float:", bytes, Spelling::Digits),
        Answer::Text(bytes) => put_between(out, sink, b" \"", bytes, Spelling::Quoted, b"\""),
        Answer::Struct(bytes) => put_bytes(out, sink, b" struct:", bytes, Spelling::Digits),
        Answer::Vector(count) => put_number(out, sink, b" vector:", *count),
        Answer::Table => out.put(sink, b" table"),
        Answer::Union(number) => put_number(out, sink, b" union:", *number),
    }
}

/// Puts a member with the values of some paths by the texts of these, where there are any, and the end of a line's
/// object.
fn put_json<A: Allocator, K: Sink>(
    out: &mut Pending<A>,
    sink: &mut K,
    paths: &[AskedPath],
    answers: &[Answer<'_>],
)
    ensures { PutsSome (λ text. (values : Members) × IsValuesMember (map (λ p. p.text) paths.now) (map shown answers.now) values × (text ≡ following values ++ codes "\n"))
        (queue_of K.Sink out.old sink.old) (queue_of K.Sink out.new sink.new) }
{
    if paths.is_empty() {
        out.put(sink, b"}\n");
        return;
    }
    out.put(sink, b",\"values\":{");
    put_members(out, sink, paths, answers);
    out.put(sink, b"}\n");
}

/// Puts the values of some paths up to the brace that closes their object.
fn put_members<A: Allocator, K: Sink>(
    out: &mut Pending<A>,
    sink: &mut K,
    paths: &[AskedPath],
    answers: &[Answer<'_>],
)
    ensures { PutsSome (λ text. (values : Members) × AreValues (map (λ p. p.text) paths.now) (map shown answers.now) values × (text ≡ members_text false values))
        (queue_of K.Sink out.old sink.old) (queue_of K.Sink out.new sink.new) }
{
    for index in 0..paths.len().min(answers.len()) {
        put_key(out, sink, index > 0, paths[index].text());
        put_value(out, sink, Notation::AsJson, &answers[index]);
    }
    out.put(sink, b"}");
}

/// Puts the text of a path as a member's name, behind another one or as the first.
#[tactic(auto, using(crate::proofs::JsonLemmas::key_spelled))]
fn put_key<A: Allocator, K: Sink>(out: &mut Pending<A>, sink: &mut K, behind: bool, path: &[u8])
    ensures { Puts ((if behind then codes "," else []) ++ (json_text (string path.now) ++ codes ":")) (queue_of K.Sink out.old sink.old) (queue_of K.Sink out.new sink.new) }
{
    if behind {
        put_between(out, sink, b",\"", path, Spelling::Json, b"\":");
    } else {
        put_between(out, sink, b"\"", path, Spelling::Json, b"\":");
    }
}

/// How a value is written where not in a plain line.
#[derive(Clone, Copy)]
pub enum Notation {
    /// As JSON.
    AsJson,
    /// As a field of CSV, beside others.
    Field,
    /// The same as the only field of a row.
    OnlyField,
}

/// Puts a value in a notation.
#[inline(always)]
pub fn put_value<A: Allocator, K: Sink>(
    out: &mut Pending<A>,
    sink: &mut K,
    notation: Notation,
    answer: &Answer<'_>,
)
    ensures { PutsSome (IsWritten notation (shown answer.now)) (queue_of K.Sink out.old sink.old) (queue_of K.Sink out.new sink.new) }
{
    match answer {
        Answer::Float(bytes) => match bytes.len() {
            4 => put_real(out, sink, notation, LittleEndian::read_f32(bytes)),
            8 => put_real(out, sink, notation, LittleEndian::read_f64(bytes)),
            _ => put_exactly(out, sink, notation, answer),
        },
        Answer::DefaultFloat(bits) => put_real(out, sink, notation, f32_from_bits_with_nan(*bits)),
        Answer::DefaultDouble(bits) => put_real(out, sink, notation, f64_from_bits_with_nan(*bits)),
        _ => put_exactly(out, sink, notation, answer),
    }
}

/// Puts a float: a number that reads as it, and a word where it is no number.
fn put_real<A: Allocator, K: Sink, F: Float>(
    out: &mut Pending<A>,
    sink: &mut K,
    notation: Notation,
    real: F,
)
    requires digits { F.WHOLE_DIGITS ≡ most_digits F.format }
    requires zeros { F.LEADING_ZEROS ≡ most_zeros F.format }
    ensures { PutsSome (λ text. (value : Json) × IsReal F.format (F.value real) value × (text ≡ real_text notation value)) (queue_of K.Sink out.old sink.old) (queue_of K.Sink out.new sink.new) }
{
    let mut buffer = ryu::Buffer::new();
    let numeral = buffer.format(real);
    if numeral == "NaN" {
        put_word(out, sink, notation, b"NaN");
    } else if numeral == "inf" {
        put_word(out, sink, notation, b"Infinity");
    } else if numeral == "-inf" {
        put_word(out, sink, notation, b"-Infinity");
    } else {
        out.put(sink, numeral.as_bytes());
    }
}

/// Puts a word that stands for a float: between quotes as JSON.
#[cold]
#[inline(never)]
#[tactic(auto, using(crate::proofs::PutsLemmas::three_puts))]
fn put_word<A: Allocator, K: Sink>(
    out: &mut Pending<A>,
    sink: &mut K,
    notation: Notation,
    word: &[u8],
)
    ensures { Puts (edge notation ++ (word.now ++ edge notation)) (queue_of K.Sink out.old sink.old) (queue_of K.Sink out.new sink.new) }
{
    out.put(sink, edge(notation));
    out.put(sink, word);
    out.put(sink, edge(notation));
}

/// What stands before and behind it.
fn edge(notation: Notation) -> &'static [u8]
    ensures { result.now ≡ edge notation }
{
    match notation {
        Notation::AsJson => b"\"",
        Notation::Field | Notation::OnlyField => b"",
    }
}

/// Puts a value that has one text in a notation.
#[inline(always)]
fn put_exactly<A: Allocator, K: Sink>(
    out: &mut Pending<A>,
    sink: &mut K,
    notation: Notation,
    answer: &Answer<'_>,
)
    ensures { Puts (written notation (shown answer.now) (value_json (shown answer.now))) (queue_of K.Sink out.old sink.old) (queue_of K.Sink out.new sink.new) }
{
    match notation {
        Notation::AsJson => put_as_is(out, sink, answer),
        Notation::Field => put_field(out, sink, answer, b""),
        Notation::OnlyField => put_field(out, sink, answer, b"\"\""),
    }
}

/// Puts such a value as a field of CSV, where this is the field of what is absent.
#[tactic(auto, using(crate::proofs::AnswerLemmas::digits_each))]
fn put_field<A: Allocator, K: Sink>(
    out: &mut Pending<A>,
    sink: &mut K,
    answer: &Answer<'_>,
    absent: &[u8],
)
    ensures { Puts (field_of absent.now (shown answer.now) (value_json (shown answer.now))) (queue_of K.Sink out.old sink.old) (queue_of K.Sink out.new sink.new) }
{
    match answer {
        Answer::Absent | Answer::DefaultFloat(_) | Answer::DefaultDouble(_) => {
            out.put(sink, absent)
        }
        Answer::NoElement => out.put(sink, b"no-element"),
        Answer::OtherMember => out.put(sink, b"other-member"),
        Answer::Bool(true) => out.put(sink, b"true"),
        Answer::Bool(false) => out.put(sink, b"false"),
        Answer::Int(number) => put_number(out, sink, b"", *number),
        Answer::UInt(number) => put_number(out, sink, b"", *number),
        Answer::Float(bytes) => put_bytes(out, sink, b"float:", bytes, Spelling::Digits),
        Answer::Text(bytes) => put_between(out, sink, b"\"", bytes, Spelling::Doubled, b"\""),
        Answer::Struct(bytes) => put_bytes(out, sink, b"struct:", bytes, Spelling::Digits),
        Answer::Vector(count) => put_number(out, sink, b"vector:", *count),
        Answer::Table => out.put(sink, b"table"),
        Answer::Union(number) => put_number(out, sink, b"union:", *number),
    }
}

/// Puts a value that has one text as JSON.
#[tactic(auto, using(crate::proofs::JsonLemmas::fixed_texts, crate::proofs::JsonLemmas::number_text, crate::proofs::JsonLemmas::float_put, crate::proofs::JsonLemmas::struct_put, crate::proofs::JsonLemmas::vector_put, crate::proofs::JsonLemmas::union_put))]
fn put_as_is<A: Allocator, K: Sink>(out: &mut Pending<A>, sink: &mut K, answer: &Answer<'_>)
    ensures { Puts (json_text (value_json (shown answer.now))) (queue_of K.Sink out.old sink.old) (queue_of K.Sink out.new sink.new) }
{
    match answer {
        Answer::Absent | Answer::DefaultFloat(_) | Answer::DefaultDouble(_) => {
            out.put(sink, b"null")
        }
        Answer::NoElement => out.put(sink, b"{\"absent\":\"no-element\"}"),
        Answer::OtherMember => out.put(sink, b"{\"absent\":\"other-member\"}"),
        Answer::Bool(true) => out.put(sink, b"true"),
        Answer::Bool(false) => out.put(sink, b"false"),
        Answer::Int(number) => put_number(out, sink, b"", *number),
        Answer::UInt(number) => put_number(out, sink, b"", *number),
        Answer::Float(bytes) => put_digits(out, sink, b"{\"float\":\"", bytes),
        Answer::Text(bytes) => put_text(out, sink, bytes),
        Answer::Struct(bytes) => put_digits(out, sink, b"{\"struct\":\"", bytes),
        Answer::Vector(count) => put_labelled(out, sink, b"{\"vector\":", *count),
        Answer::Table => out.put(sink, b"{\"table\":true}"),
        Answer::Union(number) => put_labelled(out, sink, b"{\"union\":", *number),
    }
}

/// Puts a text as JSON: a string where it is UTF-8, and its bytes where it isn't.
#[tactic(auto, using(crate::proofs::JsonLemmas::text_is_string, crate::proofs::JsonLemmas::text_is_bytes, crate::proofs::JsonLemmas::bytes_put, crate::proofs::JsonLemmas::string_put))]
fn put_text<A: Allocator, K: Sink>(out: &mut Pending<A>, sink: &mut K, bytes: &[u8])
    ensures { Puts (json_text (text_json bytes.now)) (queue_of K.Sink out.old sink.old) (queue_of K.Sink out.new sink.new) }
{
    match std::str::from_utf8(bytes) {
        Ok(_) => put_between(out, sink, b"\"", bytes, Spelling::Json, b"\""),
        Err(_) => put_digits(out, sink, b"{\"bytes\":\"", bytes),
    }
}

/// Puts bytes as hexadecimal digits behind what opens an object and a string, and the ends of both.
#[tactic(auto, using(crate::proofs::JsonLemmas::digits_put))]
fn put_digits<A: Allocator, K: Sink>(out: &mut Pending<A>, sink: &mut K, head: &[u8], bytes: &[u8])
    ensures { Puts (head.now ++ (escape (encode_lower bytes.now) ++ codes "\"}")) (queue_of K.Sink out.old sink.old) (queue_of K.Sink out.new sink.new) }
{
    put_between(out, sink, head, bytes, Spelling::Digits, b"\"}");
}

/// Puts a number behind what opens an object, and its end.
#[tactic(auto, using(crate::proofs::PutsLemmas::two_then))]
fn put_labelled<A: Allocator, K: Sink, I: Integer>(
    out: &mut Pending<A>,
    sink: &mut K,
    head: &[u8],
    number: I,
)
    ensures { Puts (head.now ++ (I.text number ++ codes "}")) (queue_of K.Sink out.old sink.old) (queue_of K.Sink out.new sink.new) }
{
    put_number(out, sink, head, number);
    out.put(sink, b"}");
}

/// Puts a number behind a text.
#[tactic(auto, using(crate::proofs::PutsLemmas::puts_then))]
fn put_number<A: Allocator, K: Sink, I: Integer>(
    out: &mut Pending<A>,
    sink: &mut K,
    head: &[u8],
    number: I,
)
    ensures { Puts (head.now ++ I.text number) (queue_of K.Sink out.old sink.old) (queue_of K.Sink out.new sink.new) }
{
    let mut digits = Buffer::new();
    out.put(sink, head);
    out.put(sink, digits.format(number).as_bytes());
}

/// Puts the bytes of a value between two texts.
#[tactic(auto, using(crate::proofs::PutsLemmas::two_then))]
pub fn put_between<A: Allocator, K: Sink>(
    out: &mut Pending<A>,
    sink: &mut K,
    head: &[u8],
    bytes: &[u8],
    spelling: Spelling,
    tail: &[u8],
)
    ensures { Puts (head.now ++ (flat_map (spelled spelling) bytes.now ++ tail.now)) (queue_of K.Sink out.old sink.old) (queue_of K.Sink out.new sink.new) }
{
    put_bytes(out, sink, head, bytes, spelling);
    out.put(sink, tail);
}

/// Puts the bytes of a value behind a text.
fn put_bytes<A: Allocator, K: Sink>(
    out: &mut Pending<A>,
    sink: &mut K,
    head: &[u8],
    bytes: &[u8],
    spelling: Spelling,
)
    ensures { Puts (head.now ++ flat_map (spelled spelling) bytes.now) (queue_of K.Sink out.old sink.old) (queue_of K.Sink out.new sink.new) }
{
    out.put(sink, head);
    let mut rest = bytes;
    while !rest.is_empty() {
        let plain = plain_front(spelling, rest);
        if plain > 0 {
            out.put(sink, &rest[..plain]);
            rest = &rest[plain..];
        } else {
            let (spelled, length) = spell(spelling, rest[0]);
            out.put(sink, &spelled[..length]);
            rest = &rest[1..];
        }
    }
}
