// Why rows are refused.

ghost use Rattle.fb_schema.specs.Demands.{IsOutOfMemory};

use std::alloc::AllocError;

/// What is wrong with rows.
#[derive(Clone, Copy, Debug, PartialEq, Eq)]
pub enum Code {
    /// C1: a type names an object that isn't there.
    NoSuchObject,
    /// C2: a type names an enum that isn't there or is no union.
    NoSuchEnum,
    /// C3: a live field of a table has a type that tables can't have here, or a 64-bit offset.
    Unsupported,
    /// C4: a slot of a table is odd, below 4, or there twice.
    BadSlot,
    /// C5: a union field, or a vector of unions, has no live field with its types in the slot below.
    NoTypeField,
    /// C6: a struct's size or alignment can't be, or one of its fields is no inline value or passes its end.
    BadStruct,
    /// C7: a union's member has a value outside 0 to 255 or one that is there twice, or is neither an object nor a
    /// string.
    BadMember,
    /// C8: two objects, two fields of an object or two members of a union have one name.
    NameTwice,
    /// C9: a growth was refused. The owner is 0, and there is no part.
    OutOfMemory,
}

/// The first demand that rows don't meet.
///
/// `owner` is the number of the object, or of the enum where a member is at fault; `part` is the place of the field or
/// member in its list, none where the object itself is at fault.
#[derive(Clone, Copy, Debug, PartialEq, Eq)]
pub struct SchemaFault {
    pub code: Code,
    pub owner: u32,
    pub part: Option<u32>,
}

/// A growth was refused.
impl From<AllocError> for SchemaFault {
    ghost from_gives = { λ _ fault. IsOutOfMemory fault };

    fn from(_: AllocError) -> Self {
        SchemaFault {
            code: Code::OutOfMemory,
            owner: 0,
            part: None,
        }
    }
}
