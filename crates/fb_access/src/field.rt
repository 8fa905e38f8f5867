// A field of a table by its number, and where a known one leads in a verified buffer.

ghost use Rattle.std.specs.Prelude.{◌≡◌, ◌+◌, ◌-◌, ◌*◌, ◌^◌, ◌<◌, ◌≤◌, ◌==◌, length, find, map, IfSome, IsTrue, Some, None, ℕ, option_map};
ghost use Rattle.fb_bytes.specs.Word.{word};
ghost use Rattle.fb_schema.specs.{Rows.is_table, Live.live_of_view};
ghost use Rattle.fb_rules.specs.{Places.target, Places.vtable, Places.field_place, Fields.type_place, Fields.union_type, Fields.types_begin};
ghost use Rattle.fb_access.specs.{Fitting.numbered, Held.HasVtable, Held.IsReadable, Known.known_spot, Spots.present_spot, Spots.absent_spot, Spots.field_spot};

use crate::known::KnownField;
use crate::spot::Spot;
use fb_bytes::Window;
use fb_schema::{FieldView, Kind, Schema};

/// The first of these fields with this number.
fn first_numbered<'s, 'n>(fields: &'s [FieldView<'n>], number: u16) -> Option<&'s FieldView<'n>>
    ensures { option_map (λ f. live_of_view f.now) result ≡ find (λ f. f.number == number) (map live_of_view fields.now) }
{
    for field in fields {
        if field.number == number {
            return Some(field);
        }
    }
    None
}

/// The live field of a table with this number. Mostly no field before it is missing, so that it stands at its number.
pub fn field_numbered<'s, 'n>(
    schema: &'s Schema<'n>,
    object: u32,
    number: u16,
) -> Option<&'s FieldView<'n>>
    requires { IsTrue (is_table schema.now object) }
    ensures { option_map (λ f. live_of_view f.now) result ≡ numbered schema.now object number }
{
    schema.lawful();
    let fields = schema.fields_of(object);
    match fields.get(number as usize) {
        Some(field) if field.number == number => Some(field),
        _ => first_numbered(fields, number),
    }
}

/// Where the vtable of the table at a position stands.
#[inline(always)]
#[tactic(auto, unfolding(fb_rules::specs::Places::has_vtable, fb_rules::specs::Places::vtable))]
fn vtable_of(window: &Window<'_>, at: u64) -> u64
    requires short { length window.now < 2 ^ 31 }
    requires table { HasVtable window.now at }
    ensures { result ≡ vtable window.now at }
{
    (at as i64 - i64::from(window.i32_at(at))) as u64
}

/// Where the field with this slot stands in the table at a position, none where it is absent.
#[inline(always)]
#[tactic(auto, unfolding(fb_rules::specs::Places::field_place))]
fn place_of(window: &Window<'_>, at: u64, slot: u16) -> Option<u64>
    requires short { length window.now < 2 ^ 31 }
    requires table { HasVtable window.now at }
    ensures { result ≡ field_place window.now at slot }
{
    let vtable = vtable_of(window, at);
    if u32::from(window.u16_at(vtable)) < u32::from(slot) + 2 {
        return None;
    }
    let offset = window.u16_at(vtable + u64::from(slot));
    if offset == 0 {
        return None;
    }
    Some(at + u64::from(offset))
}

/// Where the `uoffset` at a position leads.
pub fn target_of(window: &Window<'_>, at: u64) -> u64
    requires short { length window.now < 2 ^ 31 }
    requires fits { at + 4 ≤ length window.now }
    ensures { result ≡ target window.now at }
{
    at + u64::from(window.u32_at(at))
}

/// Where the type field stands of the union, or the vector of unions, with this slot. It has the slot before.
fn type_place(window: &Window<'_>, at: u64, slot: u16) -> Option<u64>
    requires short { length window.now < 2 ^ 31 }
    requires table { HasVtable window.now at }
    requires slot { 2 ≤ slot }
    ensures { result ≡ type_place window.now at slot }
{
    place_of(window, at, slot - 2)
}

/// The type of a union whose type field stands at this place, 0 where that is absent.
fn type_at(window: &Window<'_>, place: Option<u64>) -> u8
    requires within { IfSome place (λ q. q + 1 ≤ length window.now) }
    ensures { result ≡ union_type window.now place }
{
    match place {
        None => 0,
        Some(place) => window.u8_at(place),
    }
}

/// Where the types begin to which the type field at this place leads, 0 where that is absent.
fn types_at(window: &Window<'_>, place: Option<u64>) -> u64
    requires short { length window.now < 2 ^ 31 }
    requires offset { IfSome place (λ q. q + 4 ≤ length window.now) }
    requires count { IfSome place (λ q. target window.now q + 4 ≤ length window.now) }
    ensures { result ≡ types_begin window.now place }
{
    match place {
        None => 0,
        Some(place) => target_of(window, place) + 4,
    }
}

/// What an absent field is: a scalar that isn't optional has its default.
#[inline(always)]
#[tactic(auto, unfolding(crate::specs::Spots::absent_spot))]
pub fn absent(optional: bool, default: i64, kind: Kind) -> Spot
    ensures { result ≡ absent_spot optional default kind }
{
    match kind {
        Kind::Scalar(scalar) if !optional => Spot::AtDefault(scalar, default),
        _ => Spot::AtAbsent,
    }
}

/// Where a field of the table at a position leads that is present at `place`.
#[inline(always)]
#[tactic(auto, unfolding(crate::specs::Spots::present_spot))]
fn present(window: &Window<'_>, at: u64, slot: u16, place: u64, kind: Kind) -> Spot
    requires short { length window.now < 2 ^ 31 }
    requires table { HasVtable window.now at }
    requires readable { IsReadable window.now at slot place kind }
    ensures { result ≡ present_spot window.now at slot place kind }
{
    match kind {
        Kind::Scalar(scalar) => Spot::AtInline(scalar, place),
        Kind::Struct(object) => Spot::AtStruct(object, place),
        Kind::Union(union) => {
            let type_byte = type_at(window, type_place(window, at, slot));
            Spot::AtUnion(union, type_byte, place)
        }
        Kind::Text => Spot::AtText(target_of(window, place)),
        Kind::Table(object) => Spot::AtTable(object, target_of(window, place)),
        Kind::Scalars(scalar) => Spot::AtScalars(scalar, target_of(window, place)),
        Kind::Structs(object) => Spot::AtStructs(object, target_of(window, place)),
        Kind::Texts => Spot::AtTexts(target_of(window, place)),
        Kind::Tables(object) => Spot::AtTables(object, target_of(window, place)),
        Kind::Unions(union) => {
            let types = types_at(window, type_place(window, at, slot));
            Spot::AtUnions(union, types, target_of(window, place))
        }
    }
}

/// Where a field of the table at a position leads of which this is known.
#[inline(always)]
pub fn known_spot(window: &Window<'_>, at: u64, field: KnownField) -> Spot
    requires short { length window.now < 2 ^ 31 }
    requires table { HasVtable window.now at }
    requires readable { IfSome (field_place window.now at field.slot) (λ p. IsReadable window.now at field.slot p field.kind) }
    ensures { result ≡ known_spot window.now at field }
{
    match place_of(window, at, field.slot) {
        None => absent(field.optional, field.default, field.kind),
        Some(place) => present(window, at, field.slot, place, field.kind),
    }
}
