// The values in fields of a table that are always there, each as its row holds it.

ghost use Rattle.std.specs.Prelude.{◌≡◌, ◌*◌, ◌≤◌, [], ◌∷◌, length, IfSome, IfNone};
ghost use Rattle.fb_schema.specs.declared.kinds.Scalar.TheVariants as scalar;
ghost use Rattle.fb_access.specs.{declared.step.Step.TheVariants.Field as ToField, Denotes.nothing, Denotes.text, Denotes.truth, Denotes.signed, Denotes.unsigned, Denotes.vector};
ghost use Rattle.fb_access.specs.{Denotes.value, Denotes.Leads, Here.HereGoesOn};
ghost use Rattle.fb_bfbs.specs.{Says.after, Says.text_or_nothing, Says.HasDouble, Seen.seen, Seen.HasField, Seen.HasInt, Seen.IsKnown, Seen.IsVector, Seen.MayHaveField};
ghost use Rattle.fb_bfbs.specs.Seen.{IsOneOn};

use byteorder::{ByteOrder, LittleEndian};
use fb_access::{Answer, KnownField, Place};
use fb_schema::{Kind, Scalar};

/// To a field of the fixed table whose kind and default are known, which has the slot of its number and isn't optional.
/// So nothing is looked up.
#[inline(always)]
pub fn go_to<'v, 'b, 's, 'n>(
    place: &Place<'v, 'b, 's, 'n>,
    number: u16,
    kind: Kind,
    default: i64,
) -> Place<'v, 'b, 's, 'n>
    requires { IsKnown place.now number kind default }
    ensures same { result.sealed ≡ (place.now).sealed }
    ensures leads { Leads ((place.now).sealed).bytes ((place.now).sealed).schema (place.now).spot (ToField number) result.spot }
    ensures here { HereGoesOn ((place.now).sealed).schema (place.now).spot (ToField number) result.spot }
{
    place.go_to(KnownField {
        number,
        slot: 4 + 2 * number,
        kind,
        default,
        optional: false,
    })
}

/// A Bool.
#[inline(always)]
#[tactic(auto, using(crate::proofs::Composed::seen_in))]
pub fn bool_in(place: &Place, number: u16) -> bool
    requires { HasField place.now number (Kind.Scalar scalar.Bool) }
    ensures { seen place.now (ToField number ∷ []) (truth result) }
{
    let field = go_to(place, number, Kind::Scalar(Scalar::Bool), 0);
    match field.answer() {
        Answer::Bool(value) => value,
        _ => unreachable!(),
    }
}

/// A UShort.
#[inline(always)]
#[tactic(auto, using(crate::proofs::Composed::seen_in))]
pub fn ushort_in(place: &Place, number: u16) -> u16
    requires { HasField place.now number (Kind.Scalar scalar.UShort) }
    ensures { seen place.now (ToField number ∷ []) (unsigned result) }
{
    let field = go_to(place, number, Kind::Scalar(Scalar::UShort), 0);
    match field.answer() {
        Answer::UInt(value) => value as u16,
        _ => unreachable!(),
    }
}

/// A Byte.
#[inline(always)]
pub fn byte_in(place: &Place, number: u16) -> i8
    requires { HasField place.now number (Kind.Scalar scalar.Byte) }
    ensures { seen place.now (ToField number ∷ []) (signed result) }
{
    let field = go_to(place, number, Kind::Scalar(Scalar::Byte), 0);
    match field.answer() {
        Answer::Int(value) => value as i8,
        _ => unreachable!(),
    }
}

/// An Int, which has this default.
#[inline(always)]
pub fn int_in(place: &Place, number: u16, default: i64) -> i32
    requires { HasInt place.now number default }
    ensures { seen place.now (ToField number ∷ []) (signed result) }
{
    let field = go_to(place, number, Kind::Scalar(Scalar::Int), default);
    match field.answer() {
        Answer::Int(value) => value as i32,
        _ => unreachable!(),
    }
}

/// A Long.
#[inline(always)]
pub fn long_in(place: &Place, number: u16) -> i64
    requires { HasField place.now number (Kind.Scalar scalar.Long) }
    ensures { seen place.now (ToField number ∷ []) (signed result) }
{
    let field = go_to(place, number, Kind::Scalar(Scalar::Long), 0);
    match field.answer() {
        Answer::Int(value) => value,
        _ => unreachable!(),
    }
}

/// The bits of a Double, which stands in the file or has its default.
#[inline(always)]
pub fn double_in(place: &Place, number: u16) -> u64
    requires { HasField place.now number (Kind.Scalar scalar.Double) }
    ensures { HasDouble (after (seen place.now) (ToField number)) result }
{
    let field = go_to(place, number, Kind::Scalar(Scalar::Double), 0);
    match field.answer() {
        Answer::Float(bytes) => LittleEndian::read_u64(bytes),
        Answer::DefaultDouble(bits) => bits,
        _ => unreachable!(),
    }
}

/// A text, which is lent by the bytes.
#[inline(always)]
#[tactic(auto, using(crate::proofs::Composed::seen_in))]
pub fn text_in<'b>(place: &Place<'_, 'b, '_, '_>, number: u16) -> &'b [u8]
    requires { HasField place.now number Kind.Text }
    ensures { seen place.now (ToField number ∷ []) (text result.now) }
{
    let field = go_to(place, number, Kind::Text, 0);
    match field.answer() {
        Answer::Text(text) => text,
        _ => unreachable!(),
    }
}

/// How many tables are in the vector that is here.
pub fn count_at(place: &Place) -> u32
    requires { IsVector place.now }
    ensures count { value ((place.now).sealed).bytes ((place.now).sealed).schema (place.now).spot ≡ vector result }
    ensures few { 4 * result ≤ length ((place.now).sealed).bytes }
{
    match place.answer() {
        Answer::Vector(count) => count,
        _ => unreachable!(),
    }
}

/// A text that may be absent.
#[inline(always)]
#[tactic(auto, using(crate::proofs::Sure::maybe_allowed, crate::proofs::Composed::seen_in))]
pub fn text_or_none<'b>(place: &Place<'_, 'b, '_, '_>, number: u16) -> Option<&'b [u8]>
    requires { MayHaveField place.now number Kind.Text }
    ensures { seen place.now (ToField number ∷ []) (text_or_nothing result) }
{
    let field = go_to(place, number, Kind::Text, 0);
    match field.answer() {
        Answer::Text(text) => Some(text),
        _ => None,
    }
}

/// A table of this object that may be absent.
#[inline(always)]
pub fn table_or_none<'v, 'b, 's, 'n>(
    place: &Place<'v, 'b, 's, 'n>,
    number: u16,
    object: u32,
) -> Option<Place<'v, 'b, 's, 'n>>
    requires { MayHaveField place.now number (Kind.Table object) }
    ensures there { IfSome result (λ p. IsOneOn place.now (ToField number) p (Kind.Table object)) }
    ensures absent { IfNone result (seen place.now (ToField number ∷ []) nothing) }
{
    let field = go_to(place, number, Kind::Table(object), 0);
    match field.answer() {
        Answer::Table => Some(field),
        _ => None,
    }
}

/// A vector of tables of this object that may be absent.
#[inline(always)]
pub fn tables_or_none<'v, 'b, 's, 'n>(
    place: &Place<'v, 'b, 's, 'n>,
    number: u16,
    object: u32,
) -> Option<Place<'v, 'b, 's, 'n>>
    requires { MayHaveField place.now number (Kind.Tables object) }
    ensures there { IfSome result (λ p. IsOneOn place.now (ToField number) p (Kind.Tables object)) }
    ensures absent { IfNone result (seen place.now (ToField number ∷ []) nothing) }
{
    let field = go_to(place, number, Kind::Tables(object), 0);
    match field.answer() {
        Answer::Vector(_) => Some(field),
        _ => None,
    }
}
