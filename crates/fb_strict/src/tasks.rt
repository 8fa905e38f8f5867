// What is asked of the fields of a table.

ghost use Rattle.std.specs.Prelude.{◌≡◌, ◌||◌, IfOk, IsTrue};
ghost use Rattle.fb_schema.specs.{Live.live_fields, Rows.is_table, Rows.is_union, Live.live_of_view};
ghost use Rattle.fb_strict.specs.{Leading.KindIsThere, Planned.marked, Planned.all_wants, Planned.ask_by, Planned.ask_of, Planned.asked_of, Planned.tasks_in, Demanded.demanded};
ghost use Rattle.fb_strict.specs.Skipped.{is_member_asked, some_member, is_kind_asked, has_asked};
ghost use Rattle.std.specs.List.{list_any};

use crate::demands::Demands;
use crate::holding::{Holdings, has_held, held_of};
use fb_schema::{FieldView, Kind, Schema};
use std::alloc::{AllocError, Allocator};

/// What the bytes of a field hold.
#[derive(Clone, Copy)]
pub enum Held {
    /// A bare buffer, whose root table has this object.
    Buffer(u32),
    /// A flexbuffer.
    Flex,
}

/// What is asked of a field, or of what it leads to.
#[derive(Clone, Copy)]
pub enum Ask {
    /// A text is asked.
    Text,
    /// Each text of a vector is.
    Texts,
    /// A union of this number is asked.
    Union(u32),
    /// A vector of unions of this number is, with each of its `uoffset`s.
    Unions(u32),
    /// Nothing but of the table that it leads to, of this object.
    Table(u32),
    /// Nothing but of each table of a vector, of this object.
    Tables(u32),
    /// What its bytes hold is.
    Bytes(Held),
}

/// A live field of which something is asked: its number, its slot in bytes, and what is.
#[derive(Clone, Copy)]
pub struct Task {
    pub number: u16,
    pub slot: u16,
    pub ask: Ask,
}

/// Whether these marks say an object.
pub fn is_marked(marks: &[bool], object: u32) -> bool
    ensures { result ≡ marked marks.now object }
{
    match marks.get(object as usize) {
        Some(mark) => *mark,
        None => false,
    }
}

/// Whether an object is asked, where these are marked: all are whose slots are.
fn is_asked_object(demands: Demands, marks: &[bool], object: u32) -> bool
    ensures { result ≡ demands.known_fields || marked marks.now object }
{
    demands.known_fields || is_marked(marks, object)
}

/// Whether what a member of this kind is, is asked, where these objects are.
fn is_member_asked(
    demands: Demands,
    holdings: &Holdings<'_>,
    marks: &[bool],
    member: Option<Kind>,
) -> bool
    ensures { result ≡ is_member_asked (all_wants (demanded demands holdings.now) marks.now) member }
{
    let _holdings = holdings;
    match member {
        Some(Kind::Text) => demands.utf8,
        Some(Kind::Table(object)) => is_asked_object(demands, marks, object),
        _ => false,
    }
}

/// Whether one of the members of a union is.
fn has_asked_member(
    demands: Demands,
    holdings: &Holdings<'_>,
    marks: &[bool],
    schema: &Schema<'_>,
    union: u32,
) -> bool
    requires { IsTrue (is_union schema.now union) }
    ensures { result ≡ some_member (all_wants (demanded demands holdings.now) marks.now) schema.now union 256 }
{
    for value in 0..256u32 {
        if is_member_asked(
            demands,
            holdings,
            marks,
            schema.member_of(union, value as u8),
        ) {
            return true;
        }
    }
    false
}

/// Whether a field of this kind is asked, or leads to what is.
fn is_asked(
    demands: Demands,
    holdings: &Holdings<'_>,
    marks: &[bool],
    schema: &Schema<'_>,
    kind: Kind,
) -> bool
    requires { KindIsThere schema.now kind }
    ensures { result ≡ is_kind_asked (all_wants (demanded demands holdings.now) marks.now) schema.now kind }
{
    match kind {
        Kind::Text | Kind::Texts => demands.utf8,
        Kind::Table(object) | Kind::Tables(object) => is_asked_object(demands, marks, object),
        Kind::Union(union) | Kind::Unions(union) => {
            demands.unions || has_asked_member(demands, holdings, marks, schema, union)
        }
        _ => false,
    }
}

/// What is asked of a field of this kind, if anything is.
fn ask_by(kind: Kind) -> Option<Ask>
    ensures { result ≡ ask_by kind }
{
    match kind {
        Kind::Text => Some(Ask::Text),
        Kind::Texts => Some(Ask::Texts),
        Kind::Union(union) => Some(Ask::Union(union)),
        Kind::Unions(union) => Some(Ask::Unions(union)),
        Kind::Table(object) => Some(Ask::Table(object)),
        Kind::Tables(object) => Some(Ask::Tables(object)),
        _ => None,
    }
}

/// What is asked of a field of this kind, where these objects are.
fn ask_of(
    demands: Demands,
    holdings: &Holdings<'_>,
    marks: &[bool],
    schema: &Schema<'_>,
    kind: Kind,
) -> Option<Ask>
    requires { KindIsThere schema.now kind }
    ensures { result ≡ ask_of (all_wants (demanded demands holdings.now) marks.now) schema.now kind }
{
    if is_asked(demands, holdings, marks, schema, kind) {
        return ask_by(kind);
    }
    None
}

/// What is asked of a field of an object: what its bytes hold, or else by its kind.
fn asked_of(
    demands: Demands,
    holdings: &Holdings<'_>,
    marks: &[bool],
    schema: &Schema<'_>,
    object: u32,
    field: &FieldView<'_>,
) -> Option<Ask>
    requires { KindIsThere schema.now field.now.kind }
    ensures { result ≡ asked_of (all_wants (demanded demands holdings.now) marks.now) schema.now object (live_of_view field.now) }
{
    if let Some(held) = held_of(holdings, object, field) {
        return Some(Ask::Bytes(held));
    }
    ask_of(demands, holdings, marks, schema, field.kind)
}

/// Whether a field of this table is asked by its kind, where these objects are asked.
fn has_asked_kind(
    demands: Demands,
    holdings: &Holdings<'_>,
    marks: &[bool],
    schema: &Schema<'_>,
    object: u32,
) -> bool
    requires { IsTrue (is_table schema.now object) }
    ensures { result ≡ list_any (λ f. is_kind_asked (all_wants (demanded demands holdings.now) marks.now) schema.now f.kind) (live_fields schema.now object) }
{
    schema.lawful();
    let fields = schema.fields_of(object);
    for field in fields {
        if is_asked(demands, holdings, marks, schema, field.kind) {
            return true;
        }
    }
    false
}

/// Whether anything is asked of a field of this table, where these objects are asked.
pub fn has_asked(
    demands: Demands,
    holdings: &Holdings<'_>,
    marks: &[bool],
    schema: &Schema<'_>,
    object: u32,
) -> bool
    requires { IsTrue (is_table schema.now object) }
    ensures { result ≡ has_asked (all_wants (demanded demands holdings.now) marks.now) schema.now object }
{
    has_asked_kind(demands, holdings, marks, schema, object) || has_held(holdings, schema, object)
}

/// The tasks of a table's fields, in their order.
pub fn tasks_in<A: Allocator>(
    alloc: A,
    demands: Demands,
    holdings: &Holdings<'_>,
    marks: &[bool],
    schema: &Schema<'_>,
    object: u32,
) -> Result<Vec<Task, A>, AllocError>
    requires { IsTrue (is_table schema.now object) }
    ensures { IfOk result (λ tasks. tasks.items ≡ tasks_in (all_wants (demanded demands holdings.now) marks.now) schema.now object (live_fields schema.now object)) }
{
    schema.lawful();
    let mut tasks = Vec::new(alloc);
    let fields = schema.fields_of(object);
    for field in fields {
        if let Some(ask) = asked_of(demands, holdings, marks, schema, object, field) {
            tasks.push(Task {
                number: field.number,
                slot: field.slot,
                ask,
            })?;
        }
    }
    Ok(tasks)
}
