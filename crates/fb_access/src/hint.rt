// What helps whoever named what a schema doesn't have: the names that there are, and the one that may have been meant.

ghost use Rattle.std.specs.Prelude.{◌≡◌, IsTrue, List, []};
ghost use Rattle.fb_schema.specs.Rows.{is_table};
ghost use Rattle.fb_access.specs.{Kept.IsThere, Resolving.Resolves, declared.step.Step.Step};

use crate::alike::is_alike;
use crate::misfit::Misfit;
use crate::path::{Missed, misfit_at};
use crate::pieces::Piece;
use arrayvec::ArrayVec;
use fb_schema::{Kind, Scalar, Schema};

/// How many names are told.
const MOST: usize = 10;

/// How many values a union's type has.
const VALUES: u16 = 256;

/// The pieces of a hint's text, one behind another: names of the schema as they stand there, and texts between them. No
/// piece where there is no hint.
pub type Hint<'s> = ArrayVec<&'s [u8], 32>;

/// What is told where a path's text doesn't fit the table `root`: the field that may have been meant, and the names of
/// fields or members that there are, or what is there in place of these. Nothing where the text is no path, or
/// resolves. It takes no memory.
pub fn path_hint<'s>(schema: &'s Schema<'_>, root: u32, text: &[u8]) -> Hint<'s>
    requires { IsTrue (is_table schema.now root) }
    ensures { (steps : List Step) → Resolves schema.now root text.now steps → result.items ≡ [] }
{
    let mut hint = Hint::new();
    if let Some(missed) = misfit_at(schema, root, text) {
        put_missed(&mut hint, schema, missed);
    }
    hint
}

/// What is told where a root table isn't there: the names of the tables that are. It takes no memory.
pub fn root_hint<'s>(schema: &'s Schema<'_>) -> Hint<'s> {
    let mut hint = Hint::new();
    put(&mut hint, b"tables:");
    put_tables(&mut hint, schema);
    hint
}

/// Adds a piece. There is room for all of a hint.
fn put<'s>(hint: &mut Hint<'s>, piece: &'s [u8]) {
    let _ = hint.try_push(piece);
}

/// Adds a name behind a space.
fn put_name<'s>(hint: &mut Hint<'s>, name: &'s [u8]) {
    put(hint, b" ");
    put(hint, name);
}

/// Adds what there is where a step of a path doesn't fit.
fn put_missed<'s>(hint: &mut Hint<'s>, schema: &'s Schema<'_>, missed: Missed<'_>)
    requires { IsThere schema.now missed.kind }
{
    match (missed.misfit, missed.piece) {
        (Misfit::NoSuchField, Piece::Field(name)) => {
            put_meant(hint, schema, missed.kind, name);
            put(hint, b"fields:");
            put_fields(hint, schema, missed.kind);
        }
        _ => put_what(hint, schema, missed.kind),
    }
}

/// Adds the name of a field that may have been meant, where there is one.
fn put_meant<'s>(hint: &mut Hint<'s>, schema: &'s Schema<'_>, kind: Kind, asked: &[u8])
    requires { IsThere schema.now kind }
{
    if let Some(name) = alike_field(schema, kind, asked) {
        put(hint, b"did you mean");
        put_name(hint, name);
        put(hint, b"?; ");
    }
}

/// Adds the names of the fields of a table or a struct, of which there may be more than are told.
fn put_fields<'s>(hint: &mut Hint<'s>, schema: &'s Schema<'_>, kind: Kind)
    requires { IsThere schema.now kind }
{
    for place in 0..MOST {
        let Some(name) = field_name(schema, kind, place) else {
            return;
        };
        put_name(hint, name);
    }
    if field_name(schema, kind, MOST).is_some() {
        put(hint, b" ..");
    }
}

/// Adds the members of a union, or what else this is.
fn put_what<'s>(hint: &mut Hint<'s>, schema: &'s Schema<'_>, kind: Kind) {
    match kind {
        Kind::Union(union) => {
            put(hint, b"this union's members:");
            put_members(hint, schema, union);
        }
        _ => {
            put(hint, b"this is ");
            put(hint, kind_text(kind));
        }
    }
}

/// Adds the names of the members of a union, of which there may be more than are told.
fn put_members<'s>(hint: &mut Hint<'s>, schema: &'s Schema<'_>, union: u32) {
    let mut left = MOST;
    for value in 0..VALUES {
        let Some(name) = schema.member_name(union, value as u8) else {
            continue;
        };
        if left == 0 {
            put(hint, b" ..");
            return;
        }
        put_name(hint, name);
        left -= 1;
    }
}

/// Adds the names of the tables of a schema, of which there may be more than are told.
fn put_tables<'s>(hint: &mut Hint<'s>, schema: &'s Schema<'_>) {
    let mut left = MOST;
    for number in 0..schema.object_count() {
        let object = schema.object(number);
        if object.is_struct {
            continue;
        }
        if left == 0 {
            put(hint, b" ..");
            return;
        }
        put_name(hint, object.name);
        left -= 1;
    }
}

/// The name of the field at this place among those of a table or a struct.
fn field_name<'s>(schema: &'s Schema<'_>, kind: Kind, place: usize) -> Option<&'s [u8]>
    requires { IsThere schema.now kind }
{
    match kind {
        Kind::Table(table) => Some(schema.fields_of(table).get(place)?.name),
        Kind::Struct(object) => Some(schema.parts_of(object).get(place)?.name),
        _ => None,
    }
}

/// How many fields a table or a struct has that can be named.
fn field_count(schema: &Schema<'_>, kind: Kind) -> usize
    requires { IsThere schema.now kind }
{
    match kind {
        Kind::Table(table) => schema.fields_of(table).len(),
        Kind::Struct(object) => schema.parts_of(object).len(),
        _ => 0,
    }
}

/// The first name of a field of a table or a struct that is nearly this one.
fn alike_field<'s>(schema: &'s Schema<'_>, kind: Kind, asked: &[u8]) -> Option<&'s [u8]>
    requires { IsThere schema.now kind }
{
    for place in 0..field_count(schema, kind) {
        let name = field_name(schema, kind, place)?;
        if is_alike(asked, name) {
            return Some(name);
        }
    }
    None
}

/// What a value of this kind is.
fn kind_text(kind: Kind) -> &'static [u8] {
    match kind {
        Kind::Scalar(scalar) => scalar_text(scalar),
        Kind::Text => b"a string",
        Kind::Struct(_) => b"a struct",
        Kind::Table(_) => b"a table",
        Kind::Union(_) => b"a union",
        _ => b"a vector or an array",
    }
}

/// A scalar by its name in a schema's text.
fn scalar_text(scalar: Scalar) -> &'static [u8] {
    match scalar {
        Scalar::UType => b"a union's type",
        Scalar::Bool => b"a bool",
        Scalar::Byte => b"a byte",
        Scalar::UByte => b"a ubyte",
        Scalar::Short => b"a short",
        Scalar::UShort => b"a ushort",
        Scalar::Int => b"an int",
        Scalar::UInt => b"a uint",
        Scalar::Long => b"a long",
        Scalar::ULong => b"a ulong",
        Scalar::Float => b"a float",
        Scalar::Double => b"a double",
    }
}
