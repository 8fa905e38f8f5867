// What types are and what they name, read off the rows.

ghost use Rattle.std.specs.Prelude.{◌≡◌, Some, option_map, pos, ◌*ℤ◌};
ghost use Rattle.fb_schema.specs.{Rows.entry_at, Rows.field_of, Parts.part_of, FlatRows.borrowed_rows, FlatRows.found_object, FlatRows.found_enum, Vectors.vector_of};
ghost use Rattle.fb_schema.specs.Kinds.{element_of, shape_of, scalar_size, kind_of, shape_kind, struct_size, struct_align, kind_size, kind_align};
ghost use Rattle.fb_schema.specs.Demands.{is_inline, is_supported, is_for_member, is_object, is_type_field, names_no_object, names_table, names_no_union, inline_bytes};
ghost use Rattle.fb_schema.specs.{Demands.element_bytes, declared.kinds.Kind.Kind, declared.kinds.Shape.Shape};

use crate::base_type;
use crate::flat::{EnumPart, ObjectPart, RowLists};
use crate::kinds::{Element, Kind, Scalar, Shape, TypeField};
use crate::rows::{FieldRow, TypeRow};
use crate::views::PartView;

/// The size and alignment of a value, in bytes.
#[derive(Clone, Copy)]
pub struct Layout {
    pub size: u32,
    pub align: u32,
}

impl Scalar {
    /// The bytes of a scalar of this type, which are its alignment too (FlatBuffers Internals).
    pub fn size(self) -> u32
        ensures { result ≡ scalar_size self }
    {
        match self {
            Scalar::UType | Scalar::Bool | Scalar::Byte | Scalar::UByte => 1,
            Scalar::Short | Scalar::UShort => 2,
            Scalar::Int | Scalar::UInt | Scalar::Float => 4,
            Scalar::Long | Scalar::ULong | Scalar::Double => 8,
        }
    }
}

/// What a base type holds one of, by its number in `BaseType` of reflection.fbs.
#[tactic(auto, unfolding(crate::specs::Kinds::base_types))]
fn element_of(base: i8) -> Option<Element>
    ensures { result ≡ element_of base }
{
    match base {
        base_type::UTYPE => Some(Element::Scalar(Scalar::UType)),
        base_type::BOOL => Some(Element::Scalar(Scalar::Bool)),
        base_type::BYTE => Some(Element::Scalar(Scalar::Byte)),
        base_type::UBYTE => Some(Element::Scalar(Scalar::UByte)),
        base_type::SHORT => Some(Element::Scalar(Scalar::Short)),
        base_type::USHORT => Some(Element::Scalar(Scalar::UShort)),
        base_type::INT => Some(Element::Scalar(Scalar::Int)),
        base_type::UINT => Some(Element::Scalar(Scalar::UInt)),
        base_type::LONG => Some(Element::Scalar(Scalar::Long)),
        base_type::ULONG => Some(Element::Scalar(Scalar::ULong)),
        base_type::FLOAT => Some(Element::Scalar(Scalar::Float)),
        base_type::DOUBLE => Some(Element::Scalar(Scalar::Double)),
        base_type::STRING => Some(Element::Text),
        base_type::OBJ => Some(Element::Object),
        base_type::UNION => Some(Element::Union),
        _ => None,
    }
}

/// What a type holds. Its element counts in a vector and an array alone.
#[tactic(auto, unfolding(crate::specs::Kinds::shape_of))]
pub fn shape_of(ty: TypeRow) -> Option<Shape>
    ensures { result ≡ shape_of ty }
{
    match ty.base {
        base_type::VECTOR => Some(Shape::Vector(element_of(ty.element)?)),
        base_type::ARRAY => Some(Shape::Array(element_of(ty.element)?)),
        _ => Some(Shape::One(element_of(ty.base)?)),
    }
}

/// Whether a struct may hold it.
pub fn is_inline(shape: Option<Shape>) -> bool
    ensures { result ≡ is_inline shape }
{
    match shape {
        Some(Shape::One(Element::Scalar(_) | Element::Object)) => true,
        Some(Shape::Array(Element::Scalar(_) | Element::Object)) => true,
        _ => false,
    }
}

/// Whether a table may hold it.
pub fn is_supported(shape: Option<Shape>) -> bool
    ensures { result ≡ is_supported shape }
{
    match shape {
        Some(Shape::One(_) | Shape::Vector(_)) => true,
        _ => false,
    }
}

/// Whether a union may hold it.
pub fn is_for_member(shape: Option<Shape>) -> bool
    ensures { result ≡ is_for_member shape }
{
    match shape {
        Some(Shape::One(Element::Object | Element::Text)) => true,
        _ => false,
    }
}

fn is_object(shape: Option<Shape>) -> bool
    ensures { result ≡ is_object shape }
{
    match shape {
        Some(
            Shape::One(Element::Object)
            | Shape::Vector(Element::Object)
            | Shape::Array(Element::Object),
        ) => true,
        _ => false,
    }
}

/// Whether it holds the types of a union's value, or of a vector of these.
pub fn is_type_field(wanted: TypeField, shape: Option<Shape>) -> bool
    ensures { result ≡ is_type_field wanted shape }
{
    match (wanted, shape) {
        (TypeField::ForUnion, Some(Shape::One(Element::Scalar(Scalar::UType)))) => true,
        (TypeField::ForUnions, Some(Shape::Vector(Element::Scalar(Scalar::UType)))) => true,
        _ => false,
    }
}

/// The kind of a vector of values of this kind, which isn't itself a vector.
fn vector_of(kind: Kind) -> Kind
    ensures { result ≡ vector_of kind }
{
    match kind {
        Kind::Scalar(scalar) => Kind::Scalars(scalar),
        Kind::Text => Kind::Texts,
        Kind::Struct(number) => Kind::Structs(number),
        Kind::Table(number) => Kind::Tables(number),
        Kind::Union(number) => Kind::Unions(number),
        _ => kind,
    }
}

/// The bytes of an array of values of so many bytes each.
fn array_bytes(length: u16, each: i32) -> i64
    ensures { result ≡ pos length *ℤ each }
{
    i64::from(length) * i64::from(each)
}

/// The entry of a list that an index names.
fn entry_at<T>(entries: &[T], index: i32) -> Option<&T>
    ensures { option_map (λ x. x.now) result ≡ entry_at entries.now index }
{
    if index < 0 {
        None
    } else {
        entries.get(index as usize)
    }
}

impl<'r, 'n> RowLists<'r, 'n> {
    /// The object that an index names.
    pub fn object_at(&self, index: i32) -> Option<&'r ObjectPart<'n>>
        ensures { found_object self.now.fields.now result ≡ entry_at (borrowed_rows self.now).objects index }
    {
        entry_at(self.objects, index)
    }

    /// The enum that an index names.
    pub fn enum_at(&self, index: i32) -> Option<&'r EnumPart<'n>>
        ensures { found_enum self.now.members.now result ≡ entry_at (borrowed_rows self.now).enums index }
    {
        entry_at(self.enums, index)
    }

    /// Whether a type, or its element, is an object that isn't there.
    #[tactic(auto, unfolding(crate::specs::Demands::names_no_object))]
    pub fn names_no_object(&self, ty: TypeRow) -> bool
        ensures { result ≡ names_no_object (borrowed_rows self.now) ty }
    {
        is_object(shape_of(ty)) && self.object_at(ty.index).is_none()
    }

    /// Whether a type, or its element, is an object that is a table.
    #[tactic(auto, unfolding(crate::specs::Demands::names_table))]
    pub fn names_table(&self, ty: TypeRow) -> bool
        ensures { result ≡ names_table (borrowed_rows self.now) ty }
    {
        is_object(shape_of(ty))
            && match self.object_at(ty.index) {
                Some(object) => !object.is_struct,
                None => false,
            }
    }

    /// Whether a type, or its element, is a union that isn't there or is no union.
    #[tactic(auto, unfolding(crate::specs::Demands::names_no_union))]
    pub fn names_no_union(&self, ty: TypeRow) -> bool
        ensures { result ≡ names_no_union (borrowed_rows self.now) ty }
    {
        match shape_of(ty) {
            Some(Shape::One(Element::Union) | Shape::Vector(Element::Union)) => {
                match self.enum_at(ty.index) {
                    Some(row) => !row.is_union,
                    None => true,
                }
            }
            _ => false,
        }
    }

    fn element_bytes(&self, element: Element, index: i32) -> i32
        ensures { result ≡ element_bytes (entry_at (borrowed_rows self.now).objects index) element }
    {
        match element {
            Element::Scalar(scalar) => scalar.size() as i32,
            Element::Object => match self.object_at(index) {
                Some(object) => object.bytesize,
                None => 0,
            },
            Element::Text | Element::Union => 0,
        }
    }

    /// The bytes that a struct's field of this type takes. They can be negative, where the struct that it names has
    /// such a size.
    #[tactic(auto, unfolding(crate::specs::Demands::inline_bytes))]
    pub fn inline_bytes(&self, ty: TypeRow) -> i64
        ensures { result ≡ inline_bytes (borrowed_rows self.now) ty }
    {
        match shape_of(ty) {
            Some(Shape::One(element)) => i64::from(self.element_bytes(element, ty.index)),
            Some(Shape::Array(element)) => {
                array_bytes(ty.fixed_length, self.element_bytes(element, ty.index))
            }
            _ => 0,
        }
    }

    /// The kind of a type, none where tables can't have it or its object or enum isn't there.
    #[tactic(auto, unfolding(crate::specs::Kinds::kind_of))]
    pub fn kind_of(&self, ty: TypeRow) -> Option<Kind>
        ensures { result ≡ kind_of (borrowed_rows self.now) ty }
    {
        match shape_of(ty)? {
            Shape::One(element) => self.element_kind(element, ty.index),
            Shape::Vector(element) => self.vector_kind(element, ty.index),
            Shape::Array(_) => None,
        }
    }

    /// A field of a struct, none where no value of its type could stand there. An array has the kind of a vector of its
    /// elements.
    pub fn part_of(&self, field: &FieldRow<'n>) -> Option<PartView>
        ensures { result ≡ part_of (borrowed_rows self.now) (field_of field.now) }
    {
        let ty = field.ty;
        let shape = shape_of(ty);
        let kind = match shape {
            Some(Shape::One(element)) => self.element_kind(element, ty.index),
            Some(Shape::Array(element)) => self.vector_kind(element, ty.index),
            _ => None,
        }?;
        Some(PartView {
            place: field.slot,
            kind,
            count: match shape {
                Some(Shape::Array(_)) => ty.fixed_length,
                _ => 1,
            },
        })
    }

    /// The kind of one value of an element whose type has this index, none where its object or enum isn't there.
    fn element_kind(&self, element: Element, index: i32) -> Option<Kind>
        ensures { result ≡ shape_kind (borrowed_rows self.now) index (Some (Shape.One element)) }
    {
        match element {
            Element::Scalar(scalar) => Some(Kind::Scalar(scalar)),
            Element::Text => Some(Kind::Text),
            Element::Object => {
                let object = self.object_at(index)?;
                let number = index.unsigned_abs();
                Some(if object.is_struct {
                    Kind::Struct(number)
                } else {
                    Kind::Table(number)
                })
            }
            Element::Union => {
                self.enum_at(index)?;
                Some(Kind::Union(index.unsigned_abs()))
            }
        }
    }

    /// The kind of a vector of such values, likewise.
    #[tactic(auto, using(crate::proofs::KindLemmas::vector_kind))]
    fn vector_kind(&self, element: Element, index: i32) -> Option<Kind>
        ensures { result ≡ shape_kind (borrowed_rows self.now) index (Some (Shape.Vector element)) }
    {
        let kind = self.element_kind(element, index)?;
        Some(vector_of(kind))
    }

    fn struct_layout(&self, number: u32) -> Layout
        ensures size { result.size ≡ struct_size (borrowed_rows self.now) number }
        ensures align { result.align ≡ struct_align (borrowed_rows self.now) number }
    {
        match self.objects.get(number as usize) {
            Some(object) => Layout {
                size: object.bytesize.unsigned_abs(),
                align: object.minalign.unsigned_abs(),
            },
            None => Layout { size: 0, align: 0 },
        }
    }

    /// The size and alignment of a scalar or struct, or of one element of a vector of these; of any other kind those
    /// of an offset.
    pub fn layout_of(&self, kind: Kind) -> Layout
        ensures size { result.size ≡ kind_size (borrowed_rows self.now) kind }
        ensures align { result.align ≡ kind_align (borrowed_rows self.now) kind }
    {
        match kind {
            Kind::Scalar(scalar) | Kind::Scalars(scalar) => Layout {
                size: scalar.size(),
                align: scalar.size(),
            },
            Kind::Struct(number) | Kind::Structs(number) => self.struct_layout(number),
            _ => Layout { size: 4, align: 4 },
        }
    }
}
