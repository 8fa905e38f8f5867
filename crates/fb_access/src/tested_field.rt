// Where a field of a table leads in bytes of which nobody knows that they are a good buffer's. Each word is read once,
// and what it leads to is tested before something is read there.

ghost use Rattle.std.specs.Prelude.{◌≡◌, ◌+◌, ◌<◌, ◌≤◌, ◌^◌, length, IfSome, MatchResult};
ghost use Rattle.fb_schema.specs.Live.{live_of_view};
ghost use Rattle.fb_rules.specs.{Places.target, Places.vtable, Places.field_place, Fields.type_place, Fields.union_type, Fields.types_begin, OffsetRows.TypeFits};
ghost use Rattle.fb_rules.specs.OffsetRows.{TypesFit};
ghost use Rattle.fb_access.specs.{Held.HasVtable, Held.IsReadable, Spots.present_spot, Spots.field_spot};

use crate::field::absent;
use crate::spot::Spot;
use fb_bytes::Window;
use fb_schema::{FieldView, Kind};

/// The bytes aren't those of a good buffer, or not any more.
#[derive(Clone, Copy, Debug, PartialEq, Eq)]
pub struct Changed;

/// Where the vtable of the table at a position stands.
#[inline(always)]
#[tactic(auto, unfolding(fb_rules::specs::Places::has_vtable, fb_rules::specs::Places::vtable))]
fn vtable_of(window: &Window<'_>, at: u64) -> Result<u64, Changed>
    requires short { length window.now < 2 ^ 31 }
    requires within { at + 4 ≤ length window.now }
    ensures { MatchResult result (λ v. (v ≡ vtable window.now at) × (v + 2 ≤ length window.now)) (λ _. HasVtable window.now at → ⊥) }
{
    let place = at as i64 - i64::from(window.i32_at(at));
    if place < 0 {
        return Err(Changed);
    }
    if !window.fits(place as u64, 2) {
        return Err(Changed);
    }
    Ok(place as u64)
}

/// Where the field with this slot stands in the table at a position, none where it is absent.
#[inline(always)]
#[tactic(auto, unfolding(fb_rules::specs::Places::field_place))]
fn place_of(window: &Window<'_>, at: u64, slot: u16) -> Result<Option<u64>, Changed>
    requires short { length window.now < 2 ^ 31 }
    requires within { at + 4 ≤ length window.now }
    ensures { MatchResult result (λ p. p ≡ field_place window.now at slot) (λ _. HasVtable window.now at → ⊥) }
{
    let vtable = vtable_of(window, at)?;
    if u32::from(window.u16_at(vtable)) < u32::from(slot) + 2 {
        return Ok(None);
    }
    let place = vtable + u64::from(slot);
    if !window.fits(place, 2) {
        return Err(Changed);
    }
    let offset = window.u16_at(place);
    if offset == 0 {
        return Ok(None);
    }
    Ok(Some(at + u64::from(offset)))
}

/// Where the offset word at a position leads.
#[inline(always)]
pub fn target_of(window: &Window<'_>, at: u64) -> Result<u64, Changed>
    ensures { MatchResult result (λ q. q ≡ target window.now at) (λ _. at + 4 ≤ length window.now → ⊥) }
{
    if !window.fits(at, 4) {
        return Err(Changed);
    }
    Ok(at + u64::from(window.u32_at(at)))
}

/// Where the type field stands of the union, or the vector of unions, with this slot. It has the slot before.
fn type_place(window: &Window<'_>, at: u64, slot: u16) -> Result<Option<u64>, Changed>
    requires short { length window.now < 2 ^ 31 }
    requires within { at + 4 ≤ length window.now }
    ensures { MatchResult result (λ p. p ≡ type_place window.now at slot) (λ _. HasVtable window.now at → 2 ≤ slot → ⊥) }
{
    if slot < 2 {
        return Err(Changed);
    }
    place_of(window, at, slot - 2)
}

/// The type of the union with this slot, 0 where its type field is absent.
fn type_of(window: &Window<'_>, at: u64, slot: u16) -> Result<u8, Changed>
    requires short { length window.now < 2 ^ 31 }
    requires within { at + 4 ≤ length window.now }
    ensures { MatchResult result (λ y. y ≡ union_type window.now (type_place window.now at slot)) (λ _. HasVtable window.now at → TypeFits window.now at slot → ⊥) }
{
    let Some(place) = type_place(window, at, slot)? else {
        return Ok(0);
    };
    if !window.fits(place, 1) {
        return Err(Changed);
    }
    Ok(window.u8_at(place))
}

/// Where the types of the vector of unions with this slot begin, 0 where their field is absent.
fn types_of(window: &Window<'_>, at: u64, slot: u16) -> Result<u64, Changed>
    requires short { length window.now < 2 ^ 31 }
    requires within { at + 4 ≤ length window.now }
    ensures { MatchResult result (λ q. q ≡ types_begin window.now (type_place window.now at slot)) (λ _. HasVtable window.now at → TypesFit window.now at slot → ⊥) }
{
    let Some(place) = type_place(window, at, slot)? else {
        return Ok(0);
    };
    if !window.fits(place, 4) {
        return Err(Changed);
    }
    Ok(place + u64::from(window.u32_at(place)) + 4)
}

/// Where a field of the table at a position leads that is present at `place`.
#[inline(always)]
#[tactic(auto, unfolding(crate::specs::Spots::present_spot))]
fn present(window: &Window<'_>, at: u64, slot: u16, place: u64, kind: Kind) -> Result<Spot, Changed>
    requires short { length window.now < 2 ^ 31 }
    requires within { at + 4 ≤ length window.now }
    ensures { MatchResult result (λ q. q ≡ present_spot window.now at slot place kind) (λ _. HasVtable window.now at → IsReadable window.now at slot place kind → ⊥) }
{
    Ok(match kind {
        Kind::Scalar(scalar) => Spot::AtInline(scalar, place),
        Kind::Struct(object) => Spot::AtStruct(object, place),
        Kind::Union(union) => Spot::AtUnion(union, type_of(window, at, slot)?, place),
        Kind::Text => Spot::AtText(target_of(window, place)?),
        Kind::Table(object) => Spot::AtTable(object, target_of(window, place)?),
        Kind::Scalars(scalar) => Spot::AtScalars(scalar, target_of(window, place)?),
        Kind::Structs(object) => Spot::AtStructs(object, target_of(window, place)?),
        Kind::Texts => Spot::AtTexts(target_of(window, place)?),
        Kind::Tables(object) => Spot::AtTables(object, target_of(window, place)?),
        Kind::Unions(union) => {
            let types = types_of(window, at, slot)?;
            Spot::AtUnions(union, types, target_of(window, place)?)
        }
    })
}

/// Where a field of the table at a position leads.
pub fn spot_of(window: &Window<'_>, at: u64, field: &FieldView<'_>) -> Result<Spot, Changed>
    requires short { length window.now < 2 ^ 31 }
    requires within { at + 4 ≤ length window.now }
    ensures { MatchResult result (λ q. q ≡ field_spot window.now at (live_of_view field.now))
        (λ _. HasVtable window.now at → IfSome (field_place window.now at (field.now).slot) (λ p. IsReadable window.now at (field.now).slot p (field.now).kind) → ⊥) }
{
    match place_of(window, at, field.slot)? {
        None => Ok(absent(field.optional, field.default, field.kind)),
        Some(place) => present(window, at, field.slot, place, field.kind),
    }
}
