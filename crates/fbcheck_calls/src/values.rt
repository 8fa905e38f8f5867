//! The value at the end of a path, for C.

ghost use Rattle.std.specs.Prelude.{◌≡◌};
ghost use Rattle.fb_access.specs.Denotes.{shown};
ghost use Rattle.fbcheck_calls.specs.Values.{numbered, placed, plain, value_told, widened};

use core::num::{f32_from_bits_with_nan, f32_to_f64_with_nan, f64_to_bits_with_nan};
use fb_access::{Answer as Found, Extent};

/// What is told of a value (`fbcheck_value`). What isn't told is 0.
#[repr(C)]
#[derive(Clone, Copy, Default)]
pub struct Value {
    /// What it is, by its number: 0 absent, 1 no such element, 2 another member, 3 a Bool, 4 a Byte, Short, Int or
    /// Long, 5 one of these without a sign, 6 a Float or Double, 7 a string, 8 a struct, 9 a vector, 10 a table, 11 a
    /// union, 12 an absent Float or Double with its default.
    pub kind: u32,
    /// 0.
    pub reserved: u32,
    /// Of a Bool 0 or 1, of a number without a sign that number, of a vector its count, of a union its type, of a
    /// default the bits of a double.
    pub number: u64,
    /// Of a Byte, Short, Int or Long, the number.
    pub integer: i64,
    /// Of a float, a string, a struct and a vector of scalars or structs, the place of its first byte in the buffer.
    pub at: u64,
    /// Of these, how many bytes it has.
    pub size: u64,
}

/// A value of this kind, of which no more is told.
fn plain(kind: u32) -> Value
    ensures { result ≡ plain kind }
{
    Value {
        kind,
        ..Value::default()
    }
}

/// A value of this kind with a number.
fn numbered(kind: u32, number: u64) -> Value
    ensures { result ≡ numbered kind number }
{
    Value {
        number,
        ..plain(kind)
    }
}

/// The bits of the double that is the single of these bits.
fn widened(bits: u32) -> u64
    ensures { result ≡ widened bits }
{
    f64_to_bits_with_nan(f32_to_f64_with_nan(f32_from_bits_with_nan(bits)))
}

/// What is told of a value without where it stands.
pub fn told_value(found: Found<'_>) -> Value
    ensures { result ≡ value_told (shown found.entry) }
{
    match found {
        Found::Absent => plain(0),
        Found::NoElement => plain(1),
        Found::OtherMember => plain(2),
        Found::Bool(value) => numbered(3, u64::from(value)),
        Found::Int(integer) => Value {
            integer,
            ..plain(4)
        },
        Found::UInt(number) => numbered(5, number),
        Found::Float(_) => plain(6),
        Found::DefaultFloat(bits) => numbered(12, widened(bits)),
        Found::DefaultDouble(bits) => numbered(12, bits),
        Found::Text(_) => plain(7),
        Found::Struct(_) => plain(8),
        Found::Vector(count) => numbered(9, u64::from(count)),
        Found::Table => plain(10),
        Found::Union(value) => numbered(11, u64::from(value)),
    }
}

/// A value with where its bytes stand, where it has any.
pub fn placed(value: Value, extent: Option<Extent>) -> Value
    ensures { result ≡ placed value extent }
{
    match extent {
        Some(Extent { at, size }) => Value { at, size, ..value },
        None => value,
    }
}
