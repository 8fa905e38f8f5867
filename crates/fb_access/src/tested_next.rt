// One step from a spot to the next, in bytes of which nobody knows that they are a good buffer's.

ghost use Rattle.std.specs.Prelude.{◌≡◌, ◌↔◌, ◌+◌, ◌*◌, ◌<◌, ◌≤◌, ◌^◌, length, IsTrue, MatchOption, MatchResult, Some};
ghost use Rattle.fb_bytes.specs.Word.{word};
ghost use Rattle.fb_schema.specs.{Kinds.struct_size, Served.MemberHolds};
ghost use Rattle.fb_rules.specs.{Fields.lead_of, Places.target};
ghost use Rattle.fb_access.specs.{Spots.if_element, Spots.spot_of_field, Spots.spot_of_part, Spots.spot_of_element, Spots.spot_of_member, Spots.member_spot, Denotes.next_spot};
ghost use Rattle.fb_access.specs.{Denotes.root_spot, Held.AreStructsFrom, Held.IsCounted, Held.IsSpot, Held.IsLed, declared.spot.Spot.TheVariants.AtUnion, Tested.IsLedTo};
ghost use Rattle.fb_access.specs.Tested.{IsOther, IsTested};

use crate::field::field_numbered;
use crate::place::base_of;
use crate::spot::Spot;
use crate::step::Step;
use crate::tested_field::{Changed, spot_of, target_of};
use fb_bytes::Window;
use fb_schema::{Kind, Schema};
use fb_verify::Start;

/// How many bytes a struct has.
pub fn size_of_struct(schema: &Schema<'_>, object: u32) -> u32
    requires { object < length schema.now.objects }
    ensures { result ≡ struct_size schema.now object }
{
    schema.object(object).bytesize.unsigned_abs()
}

/// Whether so many structs stand one behind another from a position on.
fn are_structs(window: &Window<'_>, schema: &Schema<'_>, object: u32, n: u16, at: u64) -> bool
    ensures { IsTrue result ↔ AreStructsFrom window.now schema.now object n at }
{
    object < schema.object_count()
        && window.fits(at, u64::from(n) * u64::from(size_of_struct(schema, object)))
}

/// Whether what is read first at a spot lies in the bytes.
#[inline(always)]
#[tactic(auto, unfolding(crate::specs::Tested::IsTested))]
fn is_tested(window: &Window<'_>, schema: &Schema<'_>, spot: Spot) -> bool
    ensures { IsTrue result ↔ IsTested window.now schema.now spot }
{
    match spot {
        Spot::AtTable(object, at) => schema.is_table(object) && window.fits(at, 4),
        Spot::AtInline(scalar, at) => window.fits(at, u64::from(scalar.size())),
        Spot::AtStruct(object, at) => are_structs(window, schema, object, 1, at),
        Spot::AtText(at) | Spot::AtScalars(_, at) | Spot::AtTexts(at) | Spot::AtTables(_, at) => {
            window.fits(at, 4)
        }
        Spot::AtStructs(object, at) => object < schema.object_count() && window.fits(at, 4),
        Spot::AtScalarArray(scalar, n, at) => {
            window.fits(at, u64::from(n) * u64::from(scalar.size()))
        }
        Spot::AtStructArray(object, n, at) => are_structs(window, schema, object, n, at),
        Spot::AtUnions(_, types, at) => window.fits(at, 4) && types <= window.len(),
        Spot::AtUnion(union, _, _) => schema.is_union(union),
        Spot::AtDefault(_, _) | Spot::AtAbsent | Spot::AtNoElement | Spot::AtOtherMember => true,
    }
}

/// From a table to its live field with this number, or from a struct to its field at this place.
#[inline(always)]
#[tactic(auto, unfolding(crate::specs::Tested::IsTested))]
fn spot_of_field(
    window: &Window<'_>,
    schema: &Schema<'_>,
    spot: Spot,
    number: u16,
) -> Result<Option<Spot>, Changed>
    requires short { length window.now < 2 ^ 31 }
    requires tested { IsTested window.now schema.now spot }
    ensures { MatchResult result (λ o. o ≡ spot_of_field window.now schema.now spot number) (λ _. IsSpot window.now schema.now spot → ⊥) }
{
    schema.lawful();
    match spot {
        Spot::AtTable(object, at) => match field_numbered(schema, object, number) {
            None => Ok(None),
            Some(field) => Ok(Some(spot_of(window, at, field)?)),
        },
        Spot::AtStruct(object, at) => match schema.part_at(object, u32::from(number)) {
            None => Ok(None),
            Some(part) => {
                let place = at + u64::from(part.place);
                Ok(Some(spot_of_part(place, part.count, part.kind)))
            }
        },
        _ => Ok(None),
    }
}

/// The field of a struct that stands at a position, of `n` values if it is an array.
#[tactic(auto, unfolding(crate::specs::Spots::spot_of_part))]
fn spot_of_part(at: u64, n: u16, kind: Kind) -> Spot
    ensures { result ≡ spot_of_part at n kind }
{
    match kind {
        Kind::Scalar(scalar) => Spot::AtInline(scalar, at),
        Kind::Struct(object) => Spot::AtStruct(object, at),
        Kind::Scalars(scalar) => Spot::AtScalarArray(scalar, n, at),
        Kind::Structs(object) => Spot::AtStructArray(object, n, at),
        _ => Spot::AtAbsent,
    }
}

/// Where element `j` stands of the vector at a position, whose elements have this many bytes; none where there are no
/// more than `j`.
#[inline(always)]
fn place_of_element(window: &Window<'_>, at: u64, size: u32, j: u32) -> Option<u64>
    requires short { length window.now < 2 ^ 31 }
    requires within { at + 4 ≤ length window.now }
    ensures { MatchOption result (word window.now at 4 ≤ j) (λ p. (j < word window.now at 4) × (p ≡ at + 4 + size * j)) }
{
    if j < window.u32_at(at) {
        Some(at + 4 + u64::from(size) * u64::from(j))
    } else {
        None
    }
}

/// Where the offset word leads that is element `j` of the vector at a position; none where there are no more than `j`.
#[inline(always)]
fn target_of_element(window: &Window<'_>, at: u64, j: u32) -> Result<Option<u64>, Changed>
    requires short { length window.now < 2 ^ 31 }
    requires within { at + 4 ≤ length window.now }
    ensures { MatchResult result (λ o. MatchOption o (word window.now at 4 ≤ j) (λ q. (j < word window.now at 4) × (q ≡ target window.now (at + 4 + 4 * j)))) (λ _. IsCounted window.now at 4 → ⊥) }
{
    match place_of_element(window, at, 4, j) {
        None => Ok(None),
        Some(place) => Ok(Some(target_of(window, place)?)),
    }
}

/// Element `j` of the vector of unions at a position, whose types begin at `types`.
fn union_of_element(
    window: &Window<'_>,
    union: u32,
    types: u64,
    at: u64,
    j: u32,
) -> Result<Spot, Changed>
    requires short { length window.now < 2 ^ 31 }
    requires count { at + 4 ≤ length window.now }
    requires types { types ≤ length window.now }
    ensures { MatchResult result (λ q. q ≡ if_element (word window.now at 4) j (AtUnion union (word window.now (types + j) 1) (at + 4 + 4 * j)))
        (λ _. types + word window.now at 4 ≤ length window.now → ⊥) }
{
    let Some(place) = place_of_element(window, at, 4, j) else {
        return Ok(Spot::AtNoElement);
    };
    let type_place = types + u64::from(j);
    if !window.fits(type_place, 1) {
        return Err(Changed);
    }
    Ok(Spot::AtUnion(union, window.u8_at(type_place), place))
}

/// From a vector or an array to its element `j`.
#[inline(always)]
#[tactic(auto, unfolding(crate::specs::Spots::spot_of_element, crate::specs::Tested::IsTested, crate::specs::Held::IsSpot))]
fn spot_of_element(
    window: &Window<'_>,
    schema: &Schema<'_>,
    spot: Spot,
    j: u32,
) -> Result<Option<Spot>, Changed>
    requires short { length window.now < 2 ^ 31 }
    requires tested { IsTested window.now schema.now spot }
    ensures { MatchResult result (λ o. o ≡ spot_of_element window.now schema.now spot j) (λ _. IsSpot window.now schema.now spot → ⊥) }
{
    match spot {
        Spot::AtScalars(scalar, at) => match place_of_element(window, at, scalar.size(), j) {
            None => Ok(Some(Spot::AtNoElement)),
            Some(place) => Ok(Some(Spot::AtInline(scalar, place))),
        },
        Spot::AtStructs(object, at) => {
            match place_of_element(window, at, size_of_struct(schema, object), j) {
                None => Ok(Some(Spot::AtNoElement)),
                Some(place) => Ok(Some(Spot::AtStruct(object, place))),
            }
        }
        Spot::AtScalarArray(scalar, n, at) => {
            if j >= u32::from(n) {
                return Ok(Some(Spot::AtNoElement));
            }
            let place = at + u64::from(scalar.size()) * u64::from(j);
            Ok(Some(Spot::AtInline(scalar, place)))
        }
        Spot::AtStructArray(object, n, at) => {
            if j >= u32::from(n) {
                return Ok(Some(Spot::AtNoElement));
            }
            let place = at + u64::from(size_of_struct(schema, object)) * u64::from(j);
            Ok(Some(Spot::AtStruct(object, place)))
        }
        Spot::AtTexts(at) => match target_of_element(window, at, j)? {
            None => Ok(Some(Spot::AtNoElement)),
            Some(to) => Ok(Some(Spot::AtText(to))),
        },
        Spot::AtTables(object, at) => match target_of_element(window, at, j)? {
            None => Ok(Some(Spot::AtNoElement)),
            Some(to) => Ok(Some(Spot::AtTable(object, to))),
        },
        Spot::AtUnions(union, types, at) => {
            Ok(Some(union_of_element(window, union, types, at, j)?))
        }
        _ => Ok(None),
    }
}

/// Where the offset word at a position of a union leads, whose type has this member.
#[tactic(auto, unfolding(crate::specs::Spots::member_spot))]
fn spot_at_member(
    window: &Window<'_>,
    schema: &Schema<'_>,
    place: u64,
    member: Kind,
) -> Result<Spot, Changed>
    requires { MemberHolds schema.now (Some member) }
    ensures { MatchResult result (λ q. q ≡ member_spot window.now place member) (λ _. IsLed window.now schema.now place (lead_of schema.now (Some member)) → ⊥) }
{
    match member {
        Kind::Table(object) => Ok(Spot::AtTable(object, target_of(window, place)?)),
        Kind::Struct(object) => Ok(Spot::AtStruct(object, target_of(window, place)?)),
        Kind::Text => Ok(Spot::AtText(target_of(window, place)?)),
        _ => Ok(Spot::AtOtherMember),
    }
}

/// From a union to its member with this value.
#[tactic(auto, unfolding(crate::specs::Tested::IsTested))]
fn spot_of_member(
    window: &Window<'_>,
    schema: &Schema<'_>,
    spot: Spot,
    value: u8,
) -> Result<Option<Spot>, Changed>
    requires short { length window.now < 2 ^ 31 }
    requires tested { IsTested window.now schema.now spot }
    ensures { MatchResult result (λ o. o ≡ spot_of_member window.now schema.now spot value) (λ _. IsSpot window.now schema.now spot → ⊥) }
{
    let Spot::AtUnion(union, type_byte, place) = spot else {
        return Ok(None);
    };
    schema.lawful();
    match schema.member_of(union, value) {
        None => Ok(None),
        Some(member) => {
            if type_byte == value {
                Ok(Some(spot_at_member(window, schema, place, member)?))
            } else {
                Ok(Some(Spot::AtOtherMember))
            }
        }
    }
}

/// The spot to which a step leads from one that was tested, none where it has no such step.
///
/// # Errors
///
/// `Changed` where this is no spot of a good buffer.
#[tactic(auto, unfolding(crate::specs::Denotes::next_spot))]
#[inline(always)]
pub fn next_spot(
    window: &Window<'_>,
    schema: &Schema<'_>,
    spot: Spot,
    step: Step,
) -> Result<Option<Spot>, Changed>
    requires short { length window.now < 2 ^ 31 }
    requires tested { IsTested window.now schema.now spot }
    ensures { MatchResult result (λ o. o ≡ next_spot window.now schema.now spot step) (λ _. IsSpot window.now schema.now spot → ⊥) }
{
    match spot {
        Spot::AtAbsent | Spot::AtNoElement | Spot::AtOtherMember => Ok(Some(spot)),
        _ => match step {
            Step::Field(number) => spot_of_field(window, schema, spot, number),
            Step::Element(j) => spot_of_element(window, schema, spot, j),
            Step::Member(value) => spot_of_member(window, schema, spot, value),
        },
    }
}

/// The spot to which a step leads from one that was tested, tested too; none where it has no such step.
///
/// # Errors
///
/// `Changed` where this is no spot of a good buffer.
#[inline(always)]
pub fn step_from(
    window: &Window<'_>,
    schema: &Schema<'_>,
    spot: Spot,
    step: Step,
) -> Result<Option<Spot>, Changed>
    requires short { length window.now < 2 ^ 31 }
    requires tested { IsTested window.now schema.now spot }
    ensures { MatchResult result (IsLedTo window.now schema.now (next_spot window.now schema.now spot step)) (λ _. IsSpot window.now schema.now spot → ⊥) }
{
    let Some(to) = next_spot(window, schema, spot, step)? else {
        return Ok(None);
    };
    schema.lawful();
    if is_tested(window, schema, to) {
        Ok(Some(to))
    } else {
        Err(Changed)
    }
}

/// The spot of the root table, tested.
///
/// # Errors
///
/// `Changed` where these aren't the bytes of a good buffer.
pub fn first_spot(
    window: &Window<'_>,
    schema: &Schema<'_>,
    start: Start,
    root: u32,
) -> Result<Spot, Changed>
    ensures { MatchResult result (λ q. (q ≡ root_spot window.now start root) × IsTested window.now schema.now q) (λ _. IsOther window.now schema.now start root) }
{
    let spot = Spot::AtTable(root, target_of(window, base_of(start))?);
    schema.lawful();
    if is_tested(window, schema, spot) {
        Ok(spot)
    } else {
        Err(Changed)
    }
}
