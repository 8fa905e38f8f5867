// What look-ups answer.

use crate::kinds::Kind;

/// An object without its fields.
#[derive(Clone, Copy)]
pub struct ObjectView<'n> {
    pub name: &'n [u8],
    pub is_struct: bool,
    pub minalign: i32,
    pub bytesize: i32,
}

/// A live field of a table, with what a reader of buffers needs.
///
/// `number` is the field number and `slot` the place of its word in a vtable, in bytes. `size` and `align` are, in
/// bytes, those of a scalar or struct, of one element of a vector of these, and 4 for every other kind. `companion` is,
/// for a union and a vector of unions, the place of its type field among the live fields of the table.
#[derive(Clone, Copy)]
pub struct FieldView<'n> {
    pub number: u16,
    pub slot: u16,
    pub name: &'n [u8],
    pub kind: Kind,
    pub default: i64,
    pub required: bool,
    pub optional: bool,
    pub size: u32,
    pub align: u32,
    pub companion: Option<u32>,
}

/// A field of a struct, with what a reader of the struct's bytes needs.
///
/// `place` is its place in the struct, in bytes. `kind` is that of a scalar or struct, or of an array of these, for
/// which it is the kind of a vector of its elements. `count` is how many an array has, and 1 of all else.
#[derive(Clone, Copy)]
pub struct PartView {
    pub place: u16,
    pub kind: Kind,
    pub count: u16,
}

/// What a reader of buffers does at a field that is there.
///
/// A scalar or struct of one, two, four or eight bytes that is aligned to as many and may be absent has an act of its
/// own, so that whoever goes by it has both as constants, and needn't ask whether it's required.
#[derive(Clone, Copy)]
pub enum Act {
    One,
    Two,
    Four,
    Eight,
    /// Any other scalar or struct.
    Inline,
    /// A `uoffset` to a string.
    Text,
    /// A `uoffset` to a vector of scalars or structs.
    Vector,
    /// A field that leads to tables, or to more than one string.
    Other,
}

/// What a `uoffset` of a union leads to.
#[derive(Clone, Copy)]
pub enum Goal {
    /// Its type has no member.
    Nothing,
    Text,
    Table,
    Struct,
}

/// What a `uoffset` of a union leads to, by the member that its type has.
///
/// `object` is the number of a table or struct; `size` and `align` are those of a struct, in bytes. What says nothing
/// is 0.
#[derive(Clone, Copy)]
pub struct Target {
    pub goal: Goal,
    pub object: u32,
    pub size: u32,
    pub align: u32,
}

/// A live field of a table in a few bytes: what a reader passes it by. `slot`, `size`, `align` and `required` are those
/// of its [`FieldView`], but for the `size` of a field that leads to one table, which is the number of its object.
/// `bit` is a bit of its act, so that several acts are asked at once; of [`Act::One`] to [`Act::Eight`] it is their
/// number of bytes, and what leads to one table has the bit [`Step::TO_TABLE`] beside.
#[derive(Clone, Copy)]
pub struct Step {
    pub slot: u16,
    pub required: bool,
    pub act: Act,
    pub bit: u32,
    pub size: u32,
    pub align: u32,
}

impl Step {
    /// The bits of a scalar or struct of 1, 2, 4 or 8 bytes, aligned to as many, that may be absent.
    pub const SMALL: u32 = 15;
    /// The bit of a string.
    pub const TEXT: u32 = 16;
    /// Of a vector of scalars or structs.
    pub const VECTOR: u32 = 32;
    /// Of any other scalar or struct.
    pub const INLINE: u32 = 64;
    /// Of what leads to tables, or to more than one string.
    pub const LEADS_ON: u32 = 128;
    /// Beside [`Step::LEADS_ON`], of what leads to one table.
    pub const TO_TABLE: u32 = 256;

    /// The step behind the last one of a table: no vtable is so long that its slot lies in it.
    pub const END: Step = Step {
        slot: 65534,
        required: false,
        act: Act::One,
        bit: 1,
        size: 1,
        align: 1,
    };
}
