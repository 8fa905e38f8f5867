// The steps that the parts of a path are at a kind.

ghost use Rattle.std.specs.Prelude.{◌≡◌, IsTrue};
ghost use Rattle.fb_schema.specs.Rows.{is_table, is_union};
ghost use Rattle.fb_access.specs.{Grammar.Part, Cutting.IsPieceOf, Fitting.element_kind, Kept.IsThere, Resolving.fitting, Resolving.field_step, Resolving.member_step};

use crate::pieces::Piece;
use crate::step::Step;
use fb_schema::{Kind, Schema};

/// Why a part of a path is no step.
#[derive(Clone, Copy)]
pub enum Misfit {
    /// The table has no live field of this name, or the struct no field.
    NoSuchField,
    /// An element of what is no vector and no array.
    NotIndexable,
    /// A member of what is no union.
    NotAUnion,
    /// The union has no member of this name.
    NoSuchMember,
    /// A field of what is no table and no struct.
    NotATable,
}

/// A step, and the kind to which it leads.
#[derive(Clone, Copy)]
pub struct Fitted {
    pub step: Step,
    pub kind: Kind,
}

#[tactic(auto, using(crate::proofs::Fits::no_field, crate::proofs::Fits::a_field))]
fn field_step(schema: &Schema<'_>, table: u32, name: &[u8]) -> Result<Fitted, Misfit>
    requires { IsTrue (is_table schema.now table) }
    ensures { result ≡ field_step schema.now (Kind.Table table) name.now }
{
    let Some(place) = schema.field_named(table, name) else {
        return Err(Misfit::NoSuchField);
    };
    let field = schema.field_at(table, place);
    Ok(Fitted {
        step: Step::Field(field.number),
        kind: field.kind,
    })
}

fn part_step(schema: &Schema<'_>, object: u32, name: &[u8]) -> Result<Fitted, Misfit>
    ensures { result ≡ field_step schema.now (Kind.Struct object) name.now }
{
    let Some(place) = schema.part_named(object, name) else {
        return Err(Misfit::NoSuchField);
    };
    let Some(part) = schema.part_at(object, place) else {
        return Err(Misfit::NoSuchField);
    };
    match u16::try_from(place) {
        Ok(number) => Ok(Fitted {
            step: Step::Field(number),
            kind: part.kind,
        }),
        Err(_) => Err(Misfit::NoSuchField),
    }
}

/// The kind of the elements of a vector or array, none of what is neither.
pub fn element_kind(kind: Kind) -> Option<Kind>
    ensures { result ≡ element_kind kind }
{
    match kind {
        Kind::Scalars(scalar) => Some(Kind::Scalar(scalar)),
        Kind::Texts => Some(Kind::Text),
        Kind::Structs(object) => Some(Kind::Struct(object)),
        Kind::Tables(table) => Some(Kind::Table(table)),
        Kind::Unions(union) => Some(Kind::Union(union)),
        Kind::Scalar(_) | Kind::Text | Kind::Struct(_) | Kind::Table(_) | Kind::Union(_) => None,
    }
}

#[tactic(auto, using(crate::proofs::Fits::has_kind))]
fn member_step(schema: &Schema<'_>, union: u32, name: &[u8]) -> Result<Fitted, Misfit>
    requires { IsTrue (is_union schema.now union) }
    ensures { result ≡ member_step schema.now (Kind.Union union) name.now }
{
    let Some(value) = schema.member_named(union, name) else {
        return Err(Misfit::NoSuchMember);
    };
    schema.lawful();
    Ok(Fitted {
        step: Step::Member(value),
        kind: schema.member_of(union, value).unwrap(),
    })
}

/// The step that a part of a path is at a kind, with the kind to which it leads.
///
/// # Errors
///
/// Why it is none.
pub fn fit(schema: &Schema<'_>, kind: Kind, piece: Piece<'_>) -> Result<Fitted, Misfit>
    requires { IsThere schema.now kind }
    ensures { (part : Part) → IsPieceOf part piece.entry → result ≡ fitting schema.now kind part }
{
    match piece {
        Piece::Field(name) => match kind {
            Kind::Table(table) => field_step(schema, table, name),
            Kind::Struct(object) => part_step(schema, object, name),
            _ => Err(Misfit::NotATable),
        },
        Piece::Element(number) => match element_kind(kind) {
            Some(kind) => Ok(Fitted {
                step: Step::Element(number),
                kind,
            }),
            None => Err(Misfit::NotIndexable),
        },
        Piece::Member(name) => match kind {
            Kind::Union(union) => member_step(schema, union, name),
            _ => Err(Misfit::NotAUnion),
        },
    }
}
