//! A schema made by hand, of a table, a struct and a union.

ghost use Rattle.std.specs.Prelude.{◌≡◌, ◌<◌, ◌^◌, length, vec_len, All, IfOk};
ghost use Rattle.fb_schema.specs.Rows.{AreFew};

use fb_schema::base_type::{NONE, OBJ, SHORT, STRING, UNION, UTYPE};
use fb_schema::builders::{field, member, one, structure, table, union, vector};
use fb_schema::{EnumRow, ObjectRow};
use std::alloc::{AllocError, Global};

/// The object of the root table.
pub const NODE: u32 = 0;

/// The object of the struct.
const PLACE: i32 = 1;

/// Rows from which a schema is built.
#[derive(Drop)]
pub struct HandRows {
    pub objects: Vec<ObjectRow<'static>>,
    pub enums: Vec<EnumRow<'static>>,
}

/// `struct Place { x: short; y: short; }`.
fn place(alloc: Global) -> Result<ObjectRow<'static>, AllocError>
    ensures { IfOk result (λ s. vec_len s.fields ≡ 2) }
{
    let fields = [field(b"x", 0, one(SHORT)), field(b"y", 2, one(SHORT))];
    structure(alloc, b"Place", 4, 2, &fields)
}

/// `table Node { at: Place; next: Node; any: Any; many: [Any]; name: string; size: short; }`.
fn node(alloc: Global) -> Result<ObjectRow<'static>, AllocError>
    ensures { IfOk result (λ t. vec_len t.fields ≡ 8) }
{
    let fields = [
        field(b"at", 4, one(OBJ).naming(PLACE)),
        field(b"next", 6, one(OBJ).naming(NODE as i32)),
        field(b"any_type", 8, one(UTYPE)),
        field(b"any", 10, one(UNION).naming(0)),
        field(b"many_type", 12, vector(UTYPE)),
        field(b"many", 14, vector(UNION).naming(0)),
        field(b"name", 16, one(STRING)),
        field(b"size", 18, one(SHORT)),
    ];
    table(alloc, b"Node", &fields)
}

/// `union Any { Node, Place, Text: string }`.
fn any(alloc: Global) -> Result<EnumRow<'static>, AllocError>
    ensures { IfOk result (λ e. vec_len e.members ≡ 4) }
{
    let members = [
        member(b"NONE", 0, one(NONE)),
        member(b"Node", 1, one(OBJ).naming(NODE as i32)),
        member(b"Place", 2, one(OBJ).naming(PLACE)),
        member(b"Text", 3, one(STRING)),
    ];
    union(alloc, b"Any", &members)
}

fn objects(alloc: Global) -> Result<Vec<ObjectRow<'static>>, AllocError>
    ensures few { IfOk result (λ v. length v.items < 2 ^ 31) }
    ensures fields { IfOk result (λ v. All (λ o. vec_len o.fields < 2 ^ 31) v.items) }
{
    Ok(vec![in alloc; node(alloc)?, place(alloc)?]?)
}

fn enums(alloc: Global) -> Result<Vec<EnumRow<'static>>, AllocError>
    ensures few { IfOk result (λ v. length v.items < 2 ^ 31) }
    ensures members { IfOk result (λ v. All (λ e. vec_len e.members < 2 ^ 31) v.items) }
{
    Ok(vec![in alloc; any(alloc)?]?)
}

/// The rows of the schema.
pub fn hand_rows(alloc: Global) -> Result<HandRows, AllocError>
    ensures { IfOk result (λ rows. AreFew rows.objects.items rows.enums.items) }
{
    Ok(HandRows {
        objects: objects(alloc)?,
        enums: enums(alloc)?,
    })
}
