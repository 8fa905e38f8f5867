// The value of a scalar.

ghost use Rattle.std.specs.Prelude.{◌≡◌, ◌+◌, ◌*◌, ◌^◌, ◌%◌, ◌<◌, ◌≤◌, length};
ghost use Rattle.fb_bytes.specs.Word.{word};
ghost use Rattle.fb_schema.specs.Kinds.{scalar_size};
ghost use Rattle.fb_access.specs.{Denotes.number, Denotes.nearest_single, Denotes.inline_value, Denotes.default_value, Denotes.shown, Here.FitsScalar};

use crate::answer::Answer;
use fb_bytes::Window;
use fb_schema::Scalar;
use std::num::{f32_to_bits_with_nan, f64_from_bits_with_nan, nearest_f64_to_f32_with_nan};

/// The answer whose bytes are this number, the lowest first. A float has none.
#[inline(always)]
#[tactic(auto, unfolding(crate::specs::Denotes::number))]
fn number_of<'b>(scalar: Scalar, bytes: u64) -> Answer<'b>
    requires { bytes < 256 ^ scalar_size scalar }
    ensures { shown result ≡ number scalar bytes }
{
    match scalar {
        Scalar::Bool => Answer::Bool(bytes != 0),
        Scalar::Byte => Answer::Int(i64::from((bytes as u8).cast_signed())),
        Scalar::Short => Answer::Int(i64::from((bytes as u16).cast_signed())),
        Scalar::Int => Answer::Int(i64::from((bytes as u32).cast_signed())),
        Scalar::Long => Answer::Int(bytes.cast_signed()),
        Scalar::UType | Scalar::UByte | Scalar::UShort | Scalar::UInt | Scalar::ULong => {
            Answer::UInt(bytes)
        }
        Scalar::Float | Scalar::Double => Answer::Absent,
    }
}

/// The number in the bytes of a scalar at a position.
#[inline(always)]
fn word_of(window: &Window<'_>, at: u64, scalar: Scalar) -> u64
    requires { at + scalar_size scalar ≤ length window.now }
    ensures value { result ≡ word window.now at (scalar_size scalar) }
    ensures fits { result < 256 ^ scalar_size scalar }
{
    match scalar.size() {
        1 => u64::from(window.u8_at(at)),
        2 => u64::from(window.u16_at(at)),
        4 => u64::from(window.u32_at(at)),
        _ => window.u64_at(at),
    }
}

/// A scalar at a position.
#[inline(always)]
#[tactic(auto, using(crate::proofs::Counted::number_fits), unfolding(crate::specs::Denotes::inline_value))]
pub fn inline_at<'b>(window: &Window<'b>, at: u64, scalar: Scalar) -> Answer<'b>
    requires { at + scalar_size scalar ≤ length window.now }
    ensures shown { shown result ≡ inline_value window.now at scalar }
    ensures fits { FitsScalar scalar result }
{
    match scalar {
        Scalar::Float => Answer::Float(window.bytes(at, 4)),
        Scalar::Double => Answer::Float(window.bytes(at, 8)),
        _ => number_of(scalar, word_of(window, at, scalar)),
    }
}

/// The bits of the single that is nearest to the double of these bits.
fn nearest_single(bits: u64) -> u32
    ensures { result ≡ nearest_single bits }
{
    f32_to_bits_with_nan(nearest_f64_to_f32_with_nan(f64_from_bits_with_nan(bits)))
}

/// The lowest bytes of a number, as many as the scalar has.
#[inline(always)]
fn low_bytes(number: u64, scalar: Scalar) -> u64
    ensures { result ≡ number % 256 ^ scalar_size scalar }
{
    match scalar.size() {
        1 => number % 0x100,
        2 => number % 0x1_0000,
        4 => number % 0x1_0000_0000,
        _ => number,
    }
}

/// An absent scalar with this default.
#[inline(always)]
#[tactic(auto, unfolding(crate::specs::Denotes::default_value))]
pub fn default_at<'b>(default: i64, scalar: Scalar) -> Answer<'b>
    ensures shown { shown result ≡ default_value scalar default }
    ensures fits { FitsScalar scalar result }
{
    let bits = default.cast_unsigned();
    match scalar {
        Scalar::Float => Answer::DefaultFloat(nearest_single(bits)),
        Scalar::Double => Answer::DefaultDouble(bits),
        _ => number_of(scalar, low_bytes(bits, scalar)),
    }
}
