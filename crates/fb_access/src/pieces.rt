// The parts of a path's text, one after another.

ghost use Rattle.std.specs.Prelude.{◌≡◌, ◌∷◌, IfOk, IfErr, IfSome, IfNone};
ghost use Rattle.fb_access.specs.Grammar.{is_digit, begins_name, goes_on};
ghost use Rattle.fb_access.specs.Cutting.{next_digit, IsWord, IsNamed, HasNoName, IsNumbered, IsStuck, IsNext, IsRead};

/// A part of a path's text.
#[derive(Clone, Copy)]
pub enum Piece<'t> {
    /// The name of a field: `.name`, or the first name, which has no dot.
    Field(&'t [u8]),
    /// The number of an element: `[number]`.
    Element(u32),
    /// The name of a member: `@name`.
    Member(&'t [u8]),
}

/// What a text begins with.
#[derive(Clone, Copy)]
pub enum Next<'t> {
    /// A part, and the text after it.
    Part(Piece<'t>, &'t [u8]),
    /// Nothing: no text is left.
    End,
    /// No part. A path can go on up to here, and with no byte of this.
    Wrong(&'t [u8]),
}

fn begins_name(byte: u8) -> bool
    ensures { result ≡ begins_name byte }
{
    byte.is_ascii_alphabetic() || byte == b'_'
}

fn goes_on(byte: u8) -> bool
    ensures { result ≡ goes_on byte }
{
    begins_name(byte) || byte.is_ascii_digit()
}

/// The letters, digits and `_` that a text begins with, and what is after them.
#[tactic(auto, using(crate::proofs::Words::word_ends))]
fn split_word<'t>(text: &'t [u8]) -> (&'t [u8], &'t [u8])
    ensures { IsWord text.now result.0.now result.1.now }
{
    for (at, byte) in text.iter().enumerate() {
        if !goes_on(*byte) {
            return text.split_at(at);
        }
    }
    text.split_at(text.len())
}

/// The name that a text begins with, and what is after it.
fn cut_name<'t>(text: &'t [u8]) -> Option<(&'t [u8], &'t [u8])>
    ensures some { IfSome result (λ cut. IsNamed text.now cut.0.now cut.1.now) }
    ensures none { IfNone result (HasNoName text.now) }
{
    match text.first() {
        Some(byte) if begins_name(*byte) => Some(split_word(text)),
        _ => None,
    }
}

/// The number so far and one more digit; none where no number goes on so.
#[tactic(auto, unfolding(crate::specs::Cutting::next_digit))]
fn next_digit(number: Option<u32>, byte: u8) -> Option<u32>
    ensures { result ≡ next_digit number byte }
{
    if !byte.is_ascii_digit() {
        return None;
    }
    let digit = byte - 48;
    match number {
        None => Some(u32::from(digit)),
        Some(0) => None,
        Some(value) => {
            let next = 10 * u64::from(value) + u64::from(digit);
            if next <= 4294967295 {
                Some(next as u32)
            } else {
                None
            }
        }
    }
}

/// The number that a text begins with, and what is after the bracket that closes it.
///
/// # Errors
///
/// From the byte on with which no number goes on.
fn cut_number<'t>(text: &'t [u8]) -> Result<(u32, &'t [u8]), &'t [u8]>
    ensures number { IfOk result (λ cut. IsNumbered text.now cut.0 cut.1.now) }
    ensures stuck { IfErr result (λ bad. IsStuck (91 ∷ text.now) bad.now) }
{
    let mut number = None;
    let mut left = text;
    while let Some((byte, rest)) = left.split_first() {
        if *byte == b']' {
            return match number {
                Some(value) => Ok((value, rest)),
                None => Err(left),
            };
        }
        let Some(next) = next_digit(number, *byte) else {
            return Err(left);
        };
        number = Some(next);
        left = rest;
    }
    Err(left)
}

/// The first part of a path's text: a field's name, without a dot.
#[tactic(auto, using(crate::proofs::Stuck::no_field, crate::proofs::Stuck::field_cut))]
pub fn first_part<'t>(text: &'t [u8]) -> Next<'t>
    ensures { IsNext (46 ∷ text.now) result }
{
    match cut_name(text) {
        Some((name, rest)) => Next::Part(Piece::Field(name), rest),
        None => Next::Wrong(text),
    }
}

/// The next part, of what is left of a path's text behind a part.
#[tactic(auto, using(crate::proofs::Stuck::no_mark, crate::proofs::Stuck::no_member, crate::proofs::Stuck::member_cut, crate::proofs::Stuck::element_cut))]
pub fn next_part<'t>(text: &'t [u8]) -> Next<'t>
    ensures { IsNext text.now result }
{
    let Some((mark, after)) = text.split_first() else {
        return Next::End;
    };
    match *mark {
        b'.' => first_part(after),
        b'@' => match cut_name(after) {
            Some((name, rest)) => Next::Part(Piece::Member(name), rest),
            None => Next::Wrong(after),
        },
        b'[' => match cut_number(after) {
            Ok((number, rest)) => Next::Part(Piece::Element(number), rest),
            Err(bad) => Next::Wrong(bad),
        },
        _ => Next::Wrong(text),
    }
}

/// From which byte on a text is no row of parts; none where parts follow one another to its end.
pub fn wrong_from<'t>(text: &'t [u8]) -> Option<&'t [u8]>
    ensures { IsRead text.now result }
{
    let mut next = next_part(text);
    while let Next::Part(_, rest) = next {
        next = next_part(rest);
    }
    match next {
        Next::Wrong(bad) => Some(bad),
        _ => None,
    }
}
