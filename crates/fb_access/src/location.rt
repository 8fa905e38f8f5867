// Where a fault is, in words.

ghost use Rattle.std.specs.Prelude.{◌≡◌, ◌+◌, ◌≤◌, ◌++◌, ℕ, List, [], length, take, slice_get, codes, option_map, option_and_then, OnOk};
ghost use Rattle.std.specs.List.{flat_map};
ghost use Rattle.fb_schema.specs.Live.{live_of_view};
ghost use Rattle.fb_access.specs.{Fitting.numbered, Location.name_byte, Location.name_text, Location.named, Location.field_name, Location.link_member, Location.element_text};
ghost use Rattle.fb_access.specs.Location.{link_text, mark_behind, path_text, place_text, whole_text, location_text, cut_to, filled};

use crate::field::field_numbered;
use arrayvec::ArrayVec;
use fb_schema::{FieldView, Kind, Scalar, Schema};
use fb_verify::{Fault, Link};
use itoa::Buffer;
use std::alloc::{AllocError, Allocator};

/// The most bytes of a place that are told.
const MOST: usize = 4_096;

/// As many, and one by which a longer place is known.
const FRONT: usize = 4_097;

/// The place of a fault in words: as many bytes as are told, and `..`.
pub type LocationText = ArrayVec<u8, 4_098>;

/// Writes where a fault is over a text, by the names of the schema: `in `, the path of what is under check, to which
/// these links lead, and in brackets its table's full name with the field's. Where the way goes on inside a vector of
/// ubyte, `>` stands for the dot. A byte of a name that no identifier has stands as `?`. Of more than 4,096 bytes the
/// first 4,096 and `..` are told, and no more is copied than one byte beyond. It takes no memory.
#[tactic(auto, unfolding(crate::specs::Location::location_text))]
pub fn write_location(text: &mut LocationText, schema: &Schema<'_>, fault: &Fault, links: &[Link])
    ensures { text.new.items ≡ location_text schema.now fault.now links.now }
{
    text.clear();
    put_front(text, schema, fault, links);
    cut(text);
}

/// Where a fault is, as [`write_location`] has it.
pub fn location_of(schema: &Schema<'_>, fault: &Fault, links: &[Link]) -> LocationText
    ensures { result.items ≡ location_text schema.now fault.now links.now }
{
    let mut text = ArrayVec::new();
    write_location(&mut text, schema, fault, links);
    text
}

/// That path alone, without its table's and field's names.
#[tactic(auto, unfolding(crate::specs::Location::place_text))]
pub fn place_of(schema: &Schema<'_>, links: &[Link]) -> LocationText
    ensures { result.items ≡ place_text schema.now links.now }
{
    let mut text = ArrayVec::new();
    put_path(&mut text, schema, links);
    cut(&mut text);
    text
}

/// Leaves of a text with a byte more than is told what is told.
#[tactic(auto, using(crate::proofs::Filling::told_whole, crate::proofs::Filling::told_cut))]
fn cut(text: &mut LocationText)
    ensures { (whole : List ℕ) → text.old.items ≡ filled [] whole → text.new.items ≡ cut_to 4096 whole }
{
    if text.len() > MOST {
        text.truncate(MOST);
        put_all(text, b"..");
    }
}

/// Adds where a fault is to a text, as [`location_of`] has it.
///
/// # Errors
///
/// `AllocError` where memory was refused.
pub fn put_location<A: Allocator>(
    text: &mut Vec<u8, A>,
    schema: &Schema<'_>,
    fault: &Fault,
    links: &[Link],
) -> Result<(), AllocError>
    ensures ok { OnOk result (text.new.items ≡ text.old.items ++ location_text schema.now fault.now links.now) }
{
    text.extend_from_slice(location_of(schema, fault, links).as_slice())
}

/// Adds where a fault is, up to where a place is cut.
#[tactic(auto, using(crate::proofs::Filling::filled_twice), unfolding(crate::specs::Location::whole_text))]
fn put_front(text: &mut LocationText, schema: &Schema<'_>, fault: &Fault, links: &[Link])
    ensures { text.new.items ≡ filled text.old.items (whole_text schema.now fault.now links.now) }
{
    put_text(text, b"in ");
    put_path(text, schema, links);
    put_text(text, b" [");
    put_named(text, b"", object_name(schema, fault.object));
    put_named(text, b".", field_of(schema, fault));
    put_text(text, b"]");
}

/// Adds the path to which links lead, up to where a place is cut.
#[tactic(auto, using(crate::proofs::Filling::filled_twice))]
fn put_path(text: &mut LocationText, schema: &Schema<'_>, links: &[Link])
    ensures { text.new.items ≡ filled text.old.items (path_text schema.now links.now) }
{
    match links.split_last() {
        None => put_text(text, b"."),
        Some((last, before)) => {
            put_links(text, schema, before);
            put_link(text, schema, last);
        }
    }
}

/// Adds links, each with the mark behind it, up to where a place is cut.
#[tactic(auto, using(crate::proofs::Filling::filled_twice, crate::proofs::Filling::filled_nothing, std::proofs::lemmas::Grind::common_steps))]
fn put_links(text: &mut LocationText, schema: &Schema<'_>, links: &[Link])
    ensures { text.new.items ≡ filled text.old.items (flat_map (λ l. link_text schema.now l ++ mark_behind schema.now l) links.now) }
{
    for link in links {
        put_link(text, schema, link);
        put_text(text, mark_behind(schema, link));
    }
}

/// What stands between a link and the next: `>` behind a whole vector of ubyte, inside which the way goes on, and else
/// a dot.
fn mark_behind(schema: &Schema<'_>, link: &Link) -> &'static [u8]
    ensures { result.now ≡ mark_behind schema.now link.now }
{
    let Some(field) = live_field(schema, link.object, link.field) else {
        return b".";
    };
    match (link.element, field.kind) {
        (None, Kind::Scalars(Scalar::UByte)) => b">",
        _ => b".",
    }
}

/// Adds one link, a field with the element and the member that it has of it, up to where a place is cut.
#[tactic(auto, using(crate::proofs::Filling::filled_twice))]
fn put_link(text: &mut LocationText, schema: &Schema<'_>, link: &Link)
    ensures { text.new.items ≡ filled text.old.items (link_text schema.now link.now) }
{
    put_named(text, b"", name_of(schema, link.object, link.field));
    put_element(text, link.element);
    put_named(text, b"@", member_of(schema, link));
}

/// Adds an element's number between brackets, up to where a place is cut.
#[tactic(auto, using(crate::proofs::Filling::filled_twice, crate::proofs::Filling::filled_nothing))]
fn put_element(text: &mut LocationText, element: Option<u32>)
    ensures { text.new.items ≡ filled text.old.items (element_text element) }
{
    let Some(number) = element else {
        return;
    };
    let mut buffer = Buffer::new();
    put_text(text, b"[");
    put_text(text, buffer.format(number).as_bytes());
    put_text(text, b"]");
}

/// Adds a name behind a mark, where there is one, up to where a place is cut.
#[tactic(auto, using(crate::proofs::Filling::filled_name, crate::proofs::Filling::filled_nothing))]
fn put_named(text: &mut LocationText, mark: &[u8], name: Option<&[u8]>)
    ensures { text.new.items ≡ filled text.old.items (named mark.now (option_map (λ n. n.now) name.entry)) }
{
    let Some(name) = name else {
        return;
    };
    put_text(text, mark);
    let name = front(name, FRONT.saturating_sub(text.len()));
    put_name(text, name);
}

/// Adds a text, up to where a place is cut.
#[tactic(auto, unfolding(crate::specs::Location::filled))]
fn put_text(text: &mut LocationText, more: &[u8])
    ensures { text.new.items ≡ filled text.old.items more.now }
{
    let more = front(more, FRONT.saturating_sub(text.len()));
    put_all(text, more);
}

/// The first bytes of a text, so many where it has them.
fn front(text: &[u8], most: usize) -> &[u8]
    ensures { result.now ≡ take most text.now }
{
    &text[..text.len().min(most)]
}

/// Adds a text for which there is room.
fn put_all(text: &mut LocationText, more: &[u8])
    requires { length text.old.items + length more.now ≤ 4098 }
    ensures { text.new.items ≡ text.old.items ++ more.now }
{
    let Ok(()) = text.try_extend_from_slice(more) else {
        unreachable!()
    };
}

/// Adds a name for which there is room.
fn put_name(text: &mut LocationText, name: &[u8])
    requires { length text.old.items + length name.now ≤ 4098 }
    ensures { text.new.items ≡ text.old.items ++ name_text name.now }
{
    for byte in name {
        text.push(name_byte(*byte));
    }
}

/// A byte of a name as it is written.
fn name_byte(byte: u8) -> u8
    ensures { result ≡ name_byte byte }
{
    match byte {
        b'0'..=b'9' | b'A'..=b'Z' | b'a'..=b'z' | b'_' | b'.' => byte,
        _ => b'?',
    }
}

/// The full name of the object with this number.
pub fn object_name<'n>(schema: &Schema<'n>, object: u32) -> Option<&'n [u8]>
    ensures { option_map (λ n. n.now) result ≡ option_map (λ o. o.name) (slice_get schema.now.objects object) }
{
    if object < schema.object_count() {
        Some(schema.object(object).name)
    } else {
        None
    }
}

/// The live field with this number of the object with this number, none where that is no table.
#[tactic(auto, using(crate::proofs::LiveFields::none_numbered))]
fn live_field<'s, 'n>(schema: &'s Schema<'n>, object: u32, number: u16) -> Option<&'s FieldView<'n>>
    ensures { option_map (λ f. live_of_view f.now) result ≡ numbered schema.now object number }
{
    if schema.is_table(object) {
        field_numbered(schema, object, number)
    } else {
        None
    }
}

/// The name of the live field with this number of the object with this number.
fn name_of<'n>(schema: &Schema<'n>, object: u32, number: u16) -> Option<&'n [u8]>
    ensures { option_map (λ n. n.now) result ≡ field_name schema.now object number }
{
    match live_field(schema, object, number) {
        Some(field) => Some(field.name),
        None => None,
    }
}

/// The name of the field of a fault, where it has one.
pub fn field_of<'n>(schema: &Schema<'n>, fault: &Fault) -> Option<&'n [u8]>
    ensures { option_map (λ n. n.now) result ≡ option_and_then (field_name schema.now fault.now.object) fault.now.field }
{
    name_of(schema, fault.object, fault.field?)
}

/// The name of the member that a link has of its field.
fn member_of<'n>(schema: &Schema<'n>, link: &Link) -> Option<&'n [u8]>
    ensures { option_map (λ n. n.now) result ≡ link_member schema.now link.now }
{
    let field = live_field(schema, link.object, link.field)?;
    let value = link.member?;
    match field.kind {
        Kind::Union(union) | Kind::Unions(union) => schema.member_name(union, value),
        _ => None,
    }
}
