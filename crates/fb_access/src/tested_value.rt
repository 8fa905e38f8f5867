// The value at a spot of bytes of which nobody knows that they are a good buffer's, and where its bytes stand.

ghost use Rattle.std.specs.Prelude.{◌≡◌, ◌+◌, ◌*◌, ◌<◌, ◌≤◌, ◌^◌, length, MatchResult, None, Some};
ghost use Rattle.fb_bytes.specs.Word.{word};
ghost use Rattle.fb_access.specs.Denotes.{bytes_at, shown, structure, text, vector};
ghost use Rattle.fb_access.specs.{Extents.bytes_from, Extents.elements_at, Held.IsCounted, Held.IsSpot, Tested.IsSeen, Tested.IsTested};

use crate::answer::Answer;
use crate::extent::{Extent, scalar_extent};
use crate::spot::Spot;
use crate::tested_field::Changed;
use crate::tested_next::size_of_struct;
use crate::value::{default_at, inline_at};
use fb_bytes::Window;
use fb_schema::Schema;

/// What is at a spot, and where its bytes stand.
#[derive(Clone, Copy, Debug, PartialEq, Eq, Drop)]
pub struct Seen<'b> {
    /// What is there.
    pub answer: Answer<'b>,
    /// Where its bytes stand, none where it has no bytes of its own.
    pub extent: Option<Extent>,
}

/// How many elements the vector at a position has, all of which lie in the bytes, so many of these each.
#[inline(always)]
fn count_of(window: &Window<'_>, at: u64, size: u32) -> Result<u32, Changed>
    requires short { length window.now < 2 ^ 31 }
    requires within { at + 4 ≤ length window.now }
    ensures { MatchResult result (λ n. (n ≡ word window.now at 4) × (at + 4 + n * size ≤ length window.now)) (λ _. IsCounted window.now at size → ⊥) }
{
    let count = window.u32_at(at);
    if !window.fits(at + 4, u64::from(count) * u64::from(size)) {
        return Err(Changed);
    }
    Ok(count)
}

/// What has no bytes of its own.
#[inline(always)]
fn bare<'b>(answer: Answer<'b>) -> Seen<'b>
    ensures shows { shown result.answer ≡ shown answer.entry }
    ensures stands { result.extent ≡ None }
{
    Seen {
        answer,
        extent: None,
    }
}

/// The struct of so many bytes at a position.
#[inline(always)]
fn struct_at<'b>(window: &Window<'b>, at: u64, size: u32) -> Seen<'b>
    requires { at + size ≤ length window.now }
    ensures shows { shown result.answer ≡ structure (bytes_at window.now at size) }
    ensures stands { result.extent ≡ Some (bytes_from at size) }
{
    let size = u64::from(size);
    Seen {
        answer: Answer::Struct(window.bytes(at, size)),
        extent: Some(Extent { at, size }),
    }
}

/// The array of so many elements at a position, of so many bytes each.
#[inline(always)]
fn array_at<'b>(at: u64, n: u16, size: u32) -> Seen<'b>
    ensures shows { shown result.answer ≡ vector n }
    ensures stands { result.extent ≡ Some (bytes_from at (n * size)) }
{
    Seen {
        answer: Answer::Vector(u32::from(n)),
        extent: Some(Extent {
            at,
            size: u64::from(n) * u64::from(size),
        }),
    }
}

/// The string at a position.
#[inline(always)]
fn text_at<'b>(window: &Window<'b>, at: u64) -> Result<Seen<'b>, Changed>
    requires short { length window.now < 2 ^ 31 }
    requires within { at + 4 ≤ length window.now }
    ensures { MatchResult result (λ s. (shown s.answer ≡ text (bytes_at window.now (at + 4) (word window.now at 4))) × (s.extent ≡ Some (elements_at window.now at 1))
        × (at + 4 + word window.now at 4 * 1 ≤ length window.now)) (λ _. IsCounted window.now at 1 → ⊥) }
{
    let size = u64::from(count_of(window, at, 1)?);
    let at = at + 4;
    Ok(Seen {
        answer: Answer::Text(window.bytes(at, size)),
        extent: Some(Extent { at, size }),
    })
}

/// The vector at a position, whose elements stand in place, with so many bytes each.
#[inline(always)]
fn vector_at<'b>(window: &Window<'b>, at: u64, size: u32) -> Result<Seen<'b>, Changed>
    requires short { length window.now < 2 ^ 31 }
    requires within { at + 4 ≤ length window.now }
    ensures { MatchResult result (λ s. (shown s.answer ≡ vector (word window.now at 4)) × (s.extent ≡ Some (elements_at window.now at size))
        × (at + 4 + word window.now at 4 * size ≤ length window.now)) (λ _. IsCounted window.now at size → ⊥) }
{
    let count = count_of(window, at, size)?;
    Ok(Seen {
        answer: Answer::Vector(count),
        extent: Some(Extent {
            at: at + 4,
            size: u64::from(count) * u64::from(size),
        }),
    })
}

/// The value at a spot that was tested, with where its bytes stand.
///
/// # Errors
///
/// `Changed` where this is no spot of a good buffer.
#[inline(always)]
#[tactic(auto, unfolding(crate::specs::Denotes::value, crate::specs::Extents::extent, crate::specs::Tested::IsTested, crate::specs::Held::IsSpot))]
pub fn see<'b>(window: &Window<'b>, schema: &Schema<'_>, spot: Spot) -> Result<Seen<'b>, Changed>
    requires short { length window.now < 2 ^ 31 }
    requires tested { IsTested window.now schema.now spot }
    ensures { MatchResult result (IsSeen window.now schema.now spot) (λ _. IsSpot window.now schema.now spot → ⊥) }
{
    match spot {
        Spot::AtTable(_, _) => Ok(bare(Answer::Table)),
        Spot::AtInline(scalar, at) => Ok(Seen {
            answer: inline_at(window, at, scalar),
            extent: scalar_extent(scalar, at),
        }),
        Spot::AtStruct(object, at) => Ok(struct_at(window, at, size_of_struct(schema, object))),
        Spot::AtText(at) => text_at(window, at),
        Spot::AtScalars(scalar, at) => vector_at(window, at, scalar.size()),
        Spot::AtStructs(object, at) => vector_at(window, at, size_of_struct(schema, object)),
        Spot::AtScalarArray(scalar, n, at) => Ok(array_at(at, n, scalar.size())),
        Spot::AtStructArray(object, n, at) => {
            Ok(array_at(at, n, size_of_struct(schema, object)))
        }
        Spot::AtTexts(at) | Spot::AtTables(_, at) | Spot::AtUnions(_, _, at) => {
            Ok(bare(Answer::Vector(count_of(window, at, 4)?)))
        }
        Spot::AtUnion(_, value, _) => Ok(bare(Answer::Union(value))),
        Spot::AtDefault(scalar, default) => Ok(bare(default_at(default, scalar))),
        Spot::AtAbsent => Ok(bare(Answer::Absent)),
        Spot::AtNoElement => Ok(bare(Answer::NoElement)),
        Spot::AtOtherMember => Ok(bare(Answer::OtherMember)),
    }
}
