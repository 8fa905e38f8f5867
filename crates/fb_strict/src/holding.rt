//! What the bytes of fields hold, by the marks of a schema file.

ghost use Rattle.std.specs.Prelude.{◌≡◌, ◌⊎◌, ◌<◌, ◌++◌, ◌∷◌, [], ℕ, length, map, Some, IfOk, IfErr, OnOk, true, false, is_some, IsTrue};
ghost use Rattle.std.specs.Prelude.{List};
ghost use Rattle.std.specs.List.{list_any};
ghost use Rattle.fb_schema.specs.{Rows.table_named, Rows.is_table, Live.live_fields, Sorting.IsOrderOf};
ghost use Rattle.fb_strict.specs.{Demanded.held_by, Holding.held_in, Holding.found_from, Holding.has_bytes, Holding.name_of, Holding.meant, Holding.holding_of};
ghost use Rattle.fb_strict.specs.Holding.{holdings_in, holdings_if, is_lost, IsPlanFault, AreInOrder, IsFirstPlace, field_cmp, field_of, is_before, is_of};
ghost use Rattle.fb_strict.specs.declared.holding.PlanFault.TheVariants.{OutOfMemory, NoSuchTable};
ghost use Rattle.fb_bfbs.specs.{ByteFields.is_bytes, Marks.marked, Marks.held_of};

use crate::demands::Demands;
use crate::tasks::Held;
use fb_bfbs::{Content, Mark};
use fb_schema::{FieldView, Kind, Scalar, Schema};
use std::alloc::{AllocError, Allocator};
use std::marker::Model;

/// A field whose bytes hold something: its object's number, its slot, and what they hold.
#[derive(Clone, Copy)]
pub struct Holding {
    pub object: u32,
    pub slot: u16,
    pub held: Held,
}

/// Why no plan was made.
#[derive(Clone, Copy, Debug, PartialEq, Eq)]
pub enum PlanFault {
    /// There was no memory.
    OutOfMemory,
    /// A mark says that the field of this object with this slot holds a buffer, and names no table for its root.
    NoSuchTable(u32, u16),
}

impl From<AllocError> for PlanFault {
    ghost from_gives = { λ _ fault. fault ≡ OutOfMemory };

    fn from(_: AllocError) -> Self {
        Self::OutOfMemory
    }
}

/// The table whose name is this one behind a namespace.
fn table_behind<A: Allocator>(
    alloc: A,
    schema: &Schema<'_>,
    namespace: &[u8],
    name: &[u8],
) -> Result<Option<u32>, AllocError>
    ensures { IfOk result (λ o. o ≡ table_named schema.now (namespace.now ++ name.now)) }
{
    let mut whole = Vec::new(alloc);
    whole.extend_from_slice(namespace)?;
    whole.extend_from_slice(name)?;
    Ok(schema.table_named(&whole))
}

/// The table that a name means in an object of this name: behind the innermost namespace around that where one is.
fn found_from<A: Allocator + Copy>(
    alloc: A,
    schema: &Schema<'_>,
    owner: &[u8],
    name: &[u8],
) -> Result<Option<u32>, AllocError>
    ensures { IfOk result (λ o. o ≡ found_from schema.now owner.now name.now) }
{
    let mut around = owner.len();
    while around > 0 {
        if owner[around - 1] == b'.' {
            let found = table_behind(alloc, schema, &owner[..around], name)?;
            if found.is_some() {
                return Ok(found);
            }
        }
        around -= 1;
    }
    Ok(schema.table_named(name))
}

/// Whether a field of this kind is a vector of bytes.
pub fn is_bytes(kind: Kind) -> bool
    ensures { result ≡ is_bytes kind }
{
    matches!(kind, Kind::Scalars(Scalar::UByte))
}

/// The slot of a field.
fn slot_of(field: &FieldView<'_>) -> u16
    ensures { result ≡ field.now.slot }
{
    field.slot
}

/// Whether the live field of a table in this slot is.
#[tactic(auto, using(crate::proofs::Holds::no_bytes))]
fn has_bytes(schema: &Schema<'_>, object: u32, slot: u16) -> bool
    ensures { result ≡ has_bytes schema.now object slot }
{
    schema.lawful();
    if !schema.is_table(object) {
        return false;
    }
    let fields = schema.fields_of(object);
    match fields.binary_search_by_key(&slot, slot_of) {
        Ok(place) => {
            let field = &fields[place];
            is_bytes(field.kind)
        }
        Err(_) => false,
    }
}

/// What a mark in an object says that bytes hold, none where it names no table.
fn meant<A: Allocator + Copy>(
    alloc: A,
    schema: &Schema<'_>,
    object: u32,
    content: Content<'_>,
) -> Result<Option<Held>, AllocError>
    requires { object < length schema.now.objects }
    ensures { IfOk result (λ o. o ≡ meant schema.now object (held_of content.entry)) }
{
    let Content::Buffer(name) = content else {
        return Ok(Some(Held::Flex));
    };
    match found_from(alloc, schema, schema.object(object).name, name)? {
        Some(table) => Ok(Some(Held::Buffer(table))),
        None => Ok(None),
    }
}

/// What a mark says, none where it doesn't count: only vectors of bytes have marks that do.
fn holding_of<A: Allocator + Copy>(
    alloc: A,
    schema: &Schema<'_>,
    mark: &Mark<'_>,
) -> Result<Option<Holding>, PlanFault>
    ensures holding { IfOk result (λ h. h ≡ holding_of schema.now (marked mark.now)) }
    ensures found { OnOk result (is_lost schema.now (marked mark.now) ≡ false) }
    ensures lost { IfErr result (λ f. IsPlanFault schema.now (marked mark.now ∷ []) f) }
{
    if !has_bytes(schema, mark.object, mark.slot) {
        return Ok(None);
    }
    match meant(alloc, schema, mark.object, mark.content)? {
        Some(held) => Ok(Some(Holding {
            object: mark.object,
            slot: mark.slot,
            held,
        })),
        None => Err(PlanFault::NoSuchTable(mark.object, mark.slot)),
    }
}

/// Adds one.
fn put<A: Allocator>(holdings: &mut Vec<Holding, A>, holding: Holding) -> Result<(), AllocError>
    ensures { OnOk result (holdings.new.items ≡ holdings.old.items ++ holding ∷ []) }
{
    holdings.push(holding)?;
    Ok(())
}

/// What marks say of the fields that are vectors of bytes.
///
/// # Errors
///
/// `NoSuchTable` where one of these names no table, and `OutOfMemory` where memory was refused.
pub fn holdings_in<A: Allocator + Copy>(
    alloc: A,
    schema: &Schema<'_>,
    marks: &[Mark<'_>],
) -> Result<Vec<Holding, A>, PlanFault>
    ensures holdings { IfOk result (λ v. v.items ≡ holdings_in schema.now (map marked marks.now)) }
    ensures found { OnOk result (list_any (is_lost schema.now) (map marked marks.now) ≡ false) }
    ensures lost { IfErr result (λ f. IsPlanFault schema.now (map marked marks.now) f) }
{
    let mut holdings = Vec::new(alloc);
    for mark in marks {
        if let Some(holding) = holding_of(alloc, schema, mark)? {
            put(&mut holdings, holding)?;
        }
    }
    Ok(holdings)
}

/// What they say where nested buffers are asked, and else nothing.
pub fn holdings_if<A: Allocator + Copy>(
    alloc: A,
    schema: &Schema<'_>,
    marks: &[Mark<'_>],
    demands: Demands,
) -> Result<Vec<Holding, A>, PlanFault>
    ensures holdings { IfOk result (λ v. v.items ≡ holdings_if demands schema.now (map marked marks.now)) }
    ensures found { OnOk result (demands.nested ≡ true → list_any (is_lost schema.now) (map marked marks.now) ≡ false) }
    ensures lost { IfErr result (λ f. IsPlanFault schema.now (map marked marks.now) f) }
    ensures asked { IfErr result (λ f. (f ≡ OutOfMemory) ⊎ (demands.nested ≡ true)) }
{
    if !demands.nested {
        return Ok(Vec::new(alloc));
    }
    holdings_in(alloc, schema, marks)
}

/// A field by its object's number and its slot, and a place in holdings of which one is of it.
pub type Entry = ((u32, u16), usize);

/// Holdings, and the order of their fields by which they are looked up. Contracts see the holdings.
#[derive(Drop)]
pub struct Holdings<'h> {
    items: &'h [Holding],
    order: &'h [Entry],
}

impl<'h> Model for Holdings<'h> {
    ghost use Rattle.std.specs.Prelude.{List};
    ghost use Rattle.fb_strict.specs.declared.holding.Holding.{Holding};
    ghost use Rattle.fb_strict.specs.Holding.{AreInOrder};

    ghost Value = { List Holding };

    ghost view = { λ h. h.items.now };

    ghost invariant = { λ h. AreInOrder h.items.now h.order.now };
}

/// The field of a holding, with its place.
fn entry_of(holding: &Holding, place: usize) -> Entry
    ensures { result ≡ (field_of holding.now, place) }
{
    ((holding.object, holding.slot), place)
}

/// The fields of holdings in order: by object, then by slot, and of one field by place.
pub fn order_of<A: Allocator>(alloc: A, holdings: &[Holding]) -> Result<Vec<Entry, A>, AllocError>
    ensures { IfOk result (λ order. AreInOrder holdings.now order.items) }
{
    let mut order = Vec::new(alloc);
    for (place, holding) in holdings.iter().enumerate() {
        order.push(entry_of(holding, place))?;
    }
    order.sort_unstable();
    Ok(order)
}

/// Whether an entry is of a field before this one.
fn is_before(entry: &Entry, object: u32, slot: u16) -> bool
    ensures { result ≡ is_before object slot entry.now }
{
    let (at, _) = *entry;
    at.0 < object || (at.0 == object && at.1 < slot)
}

/// Whether it is of this one.
fn is_of(entry: &Entry, object: u32, slot: u16) -> bool
    ensures { result ≡ is_of object slot entry.now }
{
    let (at, _) = *entry;
    at.0 == object && at.1 == slot
}

/// The place of the first holding of a field.
fn first_place(order: &[Entry], object: u32, slot: u16) -> Option<usize>
    ensures { (fields : List (ℕ × ℕ)) → IsOrderOf field_cmp fields order.now → IsFirstPlace fields object slot result }
{
    let first = order.partition_point(
        |entry: &Entry| -> bool
            ensures { result ≡ is_before object slot entry.now }
        { is_before(entry, object, slot) },
    );
    let Some(entry) = order.get(first) else {
        return None;
    };
    if is_of(entry, object, slot) {
        return Some(entry.1);
    }
    None
}

impl<'h> Holdings<'h> {
    /// Holdings with the order of their fields.
    pub fn new(items: &'h [Holding], order: &'h [Entry]) -> Holdings<'h>
        requires { AreInOrder items.now order.now }
        ensures { result ≡ items.now }
    {
        Holdings { items, order }
    }

    /// What is held by these in the field of an object with this slot: by the first where there are more.
    fn held_at(&self, object: u32, slot: u16) -> Option<Held>
        ensures { result ≡ held_in self.now object slot }
    {
        match first_place(self.order, object, slot) {
            Some(place) => Some(self.items[place].held),
            None => None,
        }
    }
}

/// What the bytes of a field hold by these.
#[tactic(auto, using(crate::proofs::Holds::of_bytes, crate::proofs::Holds::of_others))]
pub fn held_of(holdings: &Holdings<'_>, object: u32, field: &FieldView<'_>) -> Option<Held>
    ensures { result ≡ held_by (held_in holdings.now object field.now.slot) field.now.kind }
{
    if is_bytes(field.kind) {
        return holdings.held_at(object, field.slot);
    }
    None
}

/// Whether a field of this table holds something by these.
pub fn has_held(holdings: &Holdings<'_>, schema: &Schema<'_>, object: u32) -> bool
    requires { IsTrue (is_table schema.now object) }
    ensures { result ≡ list_any (λ f. is_some (held_by (held_in holdings.now object f.slot) f.kind)) (live_fields schema.now object) }
{
    let fields = schema.fields_of(object);
    for field in fields {
        if held_of(holdings, object, field).is_some() {
            return true;
        }
    }
    false
}
