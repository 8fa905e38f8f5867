//! The way to a fault, link by link.

ghost use Rattle.std.specs.Prelude.{◌≡◌, ◌+◌, ◌-◌, ◌^◌, ◌<◌, ◌≤◌, ◌++◌, length, map, take, IfSome};
ghost use Rattle.std.specs.List.{All};
ghost use Rattle.fb_schema.specs.Live.{live_of_view};
ghost use Rattle.fb_rules.specs.{Links.element_of, Links.type_of, Places.field_place, Told.IsVtable};
ghost use Rattle.fb_verify.specs.Stack.{frame_link, word_count, CountStands, TypeStands, IsLinked, last_link, links_left};

use crate::scratch::Frame;
use fb_bytes::Window;
use fb_rules::checks::Checks;
use fb_rules::fault::Fault;
use fb_rules::link::Link;
use fb_rules::site::LastLink;
use fb_rules::table::Table;
use fb_schema::{FieldView, Kind, Schema};

/// A fault, and how many links lead to it.
#[derive(Clone, Copy, Debug, PartialEq, Eq)]
pub struct Located {
    pub fault: Fault,
    pub links: u32,
}

/// Where the field with this slot stands in a table, none where it is absent.
#[tactic(auto, unfolding(fb_rules::specs::Places::field_place))]
fn place_of(window: &Window<'_>, table: Table, slot: u16) -> Option<u64>
    requires near { table.at < 2 ^ 33 }
    requires head { IsVtable window.now table.at table.head }
    ensures value { result ≡ field_place window.now table.at slot }
    ensures near { IfSome result (λ p. p < 2 ^ 34) }
{
    if table.head.ends_before(slot) {
        return None;
    }
    match window.u16_at(table.head.vtable + u64::from(slot)) {
        0 => None,
        place => Some(table.at + u64::from(place)),
    }
}

/// How many `uoffset`s of a field that stands at this place are before the one behind which so many are left.
fn words_before(window: &Window<'_>, place: u64, kind: Kind, left: u32) -> u32
    requires near { place < 2 ^ 34 }
    requires stands { CountStands window.now place kind }
    requires more { left < word_count window.now place kind }
    ensures { result ≡ word_count window.now place kind - left - 1 }
{
    match kind {
        Kind::Texts | Kind::Tables(_) | Kind::Unions(_) => {
            let at = place + u64::from(window.u32_at(place));
            window.u32_at(at) - left - 1
        }
        _ => 0,
    }
}

/// The number of the element with so many before it, where the field is a vector of what may lead on.
fn element_at(kind: Kind, before: u32) -> Option<u32>
    ensures { result ≡ element_of before kind }
{
    match kind {
        Kind::Texts | Kind::Tables(_) | Kind::Unions(_) => Some(before),
        _ => None,
    }
}

/// The type of the union with so many before it, where the field is a union or a vector of these.
fn type_at(window: &Window<'_>, table: Table, field: &FieldView<'_>, before: u32) -> Option<u8>
    requires near { table.at < 2 ^ 33 }
    requires head { IsVtable window.now table.at table.head }
    requires stands { TypeStands window.now table.at (field.now).slot before (field.now).kind }
    ensures { result ≡ type_of window.now table.at (live_of_view field.now) before (field.now).kind }
{
    match field.kind {
        Kind::Union(_) => match place_of(window, table, field.slot - 2) {
            Some(place) => Some(window.u8_at(place)),
            None => Some(0),
        },
        Kind::Unions(_) => match place_of(window, table, field.slot - 2) {
            Some(place) => {
                let types = place + u64::from(window.u32_at(place)) + 4;
                Some(window.u8_at(types + u64::from(before)))
            }
            None => unreachable!(),
        },
        _ => None,
    }
}

/// The link through the `uoffset` behind which a frame's row was left. What the walk read of its field is read again,
/// uncounted: at most six numbers, of a vector of unions. Only the contract speaks of the walk's checks.
fn link_of(window: &Window<'_>, schema: &Schema<'_>, checks: Checks, frame: &Frame) -> Link
    requires linked { IsLinked checks window.now schema.now frame.now }
    ensures { result ≡ frame_link window.now schema.now frame.now }
{
    let _checks = checks;
    let table = frame.table;
    let field = schema.field_at(table.object, frame.next - 1);
    let Some(place) = place_of(window, table, field.slot) else {
        unreachable!()
    };
    let before = words_before(window, place, field.kind, frame.row.left);
    Link {
        object: table.object,
        field: field.number,
        element: element_at(field.kind, before),
        member: type_at(window, table, &field, before),
    }
}

/// Puts the links of these frames, and what they leave of the way to a fault, at the front of a row of links, and
/// answers how many they are.
pub(crate) fn put_links(
    window: &Window<'_>,
    schema: &Schema<'_>,
    checks: Checks,
    frames: &[Frame],
    last: LastLink,
    fault: &Fault,
    links: &mut [Link],
) -> u32
    requires linked { All (IsLinked checks window.now schema.now) frames.now }
    requires room { length frames.now + links_left last ≤ length links.old }
    requires few { length frames.now < 2 ^ 31 }
    ensures within { result ≤ length links.new }
    ensures links { take result links.new ≡ map (frame_link window.now schema.now) frames.now ++ last_link last fault.now }
{
    let mut count = 0;
    while count < frames.len() {
        links[count] = link_of(window, schema, checks, &frames[count]);
        count += 1;
    }
    if last == LastLink::InField {
        if let Some(field) = fault.field {
            links[count] = Link {
                object: fault.object,
                field,
                element: None,
                member: None,
            };
            count += 1;
        }
    }
    count as u32
}
