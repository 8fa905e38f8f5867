// Why no schema is loaded.

ghost use Rattle.std.specs.Prelude.{◌≡◌};
ghost use Rattle.fb_bfbs.specs.declared.load_fault.LoadFault.TheVariants.{NotWellFormed, OutOfMemory, TooLong as TooManyBytes};
ghost use Rattle.fb_bfbs.specs.{Codes.code_text, Loads.build_fault};

use fb_bytes::TooLong;
use fb_schema::{Code, SchemaFault};
use fb_verify::Fault;
use std::alloc::AllocError;
use std::error::Error;
use std::fmt;

/// Why a schema file gives no schema. They are asked in the order L5, L1, L6, L2, L3; L4 may come in place of any but
/// L5.
#[derive(Clone, Copy, Debug, PartialEq, Eq)]
pub enum LoadFault {
    /// L1: the bytes aren't a bare buffer with the identifier `BFBS` that is well formed by the fixed table, within the
    /// limits.
    NotWellFormed(Fault),
    /// L2: the rows that the file describes are no schema. The code is never C9.
    BadSchema(SchemaFault),
    /// L3: the file has a root table, and no listed table has its name.
    RootNotListed,
    /// L4: a growth was refused.
    OutOfMemory,
    /// L5: there are 2^31 bytes or more.
    TooLong,
    /// L6: the limits have a budget of reads, and the file has more rows, or these have longer names, than its length
    /// pays for, counted in every place where they stand: more rows than 16,384 and one for each 20 bytes, or more
    /// bytes of names than 1,048,576 and 16 for each byte.
    TooMuchShared,
}

impl From<TooLong> for LoadFault {
    ghost from_gives = { λ _ fault. fault ≡ TooManyBytes };

    fn from(_: TooLong) -> Self {
        Self::TooLong
    }
}

impl From<AllocError> for LoadFault {
    ghost from_gives = { λ _ fault. fault ≡ OutOfMemory };

    fn from(_: AllocError) -> Self {
        Self::OutOfMemory
    }
}

impl From<Fault> for LoadFault {
    ghost from_gives = { λ first fault. fault ≡ NotWellFormed first };

    fn from(first: Fault) -> Self {
        Self::NotWellFormed(first)
    }
}

/// Memory was refused, or the rows are no schema.
impl From<SchemaFault> for LoadFault {
    ghost from_gives = { λ first fault. fault ≡ build_fault first.code first };

    fn from(first: SchemaFault) -> Self {
        match first.code {
            Code::OutOfMemory => Self::OutOfMemory,
            _ => Self::BadSchema(first),
        }
    }
}

/// The code and name of what is wrong with rows.
pub fn code_text(code: Code) -> &'static str
    ensures { result.now ≡ code_text code }
{
    match code {
        Code::NoSuchObject => "C1 NoSuchObject",
        Code::NoSuchEnum => "C2 NoSuchEnum",
        Code::Unsupported => "C3 Unsupported",
        Code::BadSlot => "C4 BadSlot",
        Code::NoTypeField => "C5 NoTypeField",
        Code::BadStruct => "C6 BadStruct",
        Code::BadMember => "C7 BadMember",
        Code::NameTwice => "C8 NameTwice",
        Code::OutOfMemory => "C9 OutOfMemory",
    }
}

/// A number, or `-` where there is none.
#[derive(Clone, Copy)]
struct Number(Option<u32>);

impl fmt::Display for Number {
    fn fmt<W: fmt::Write>(&self, f: &mut fmt::Formatter<W>) -> fmt::Result {
        match self.0 {
            Some(number) => write!(f, "{number}"),
            None => f.write_str("-"),
        }
    }
}

impl fmt::Display for LoadFault {
    fn fmt<W: fmt::Write>(&self, f: &mut fmt::Formatter<W>) -> fmt::Result {
        match self {
            LoadFault::NotWellFormed(fault) => write!(
                f,
                "L1 {} at={} object={} field={} reads={}",
                fault.reason.text(),
                fault.at,
                fault.object,
                Number(fault.field.map(u32::from)),
                fault.reads
            ),
            LoadFault::BadSchema(fault) => write!(
                f,
                "L2 {} owner={} part={}",
                code_text(fault.code),
                fault.owner,
                Number(fault.part)
            ),
            LoadFault::RootNotListed => f.write_str("L3 RootNotListed"),
            LoadFault::OutOfMemory => f.write_str("L4 OutOfMemory"),
            LoadFault::TooLong => f.write_str("L5 TooLong"),
            LoadFault::TooMuchShared => f.write_str("L6 TooMuchShared"),
        }
    }
}

impl Error for LoadFault {}
