// Why a text is no path of a schema.

ghost use Rattle.std.specs.Prelude.{◌≡◌};
ghost use Rattle.fb_access.specs.PathCodes.{path_code};

use std::error::Error;
use std::fmt;

/// Why a text doesn't resolve.
///
/// P1 comes first, for the whole text. Of P2 to P6 that comes which the first step has that doesn't fit; `step` is its
/// number, that of the first name being 0.
#[derive(Clone, Copy, Debug, PartialEq, Eq)]
pub enum PathFault {
    /// P1: the text is no path. No path begins with more than its first `at` bytes.
    BadText { at: u64 },
    /// P2: the table or struct has no live field of this name.
    NoSuchField { step: u64 },
    /// P3: `[n]` of what is no vector or array.
    NotIndexable { step: u64 },
    /// P4: `@name` of what is no union.
    NotAUnion { step: u64 },
    /// P5: the union has no member of this name.
    NoSuchMember { step: u64 },
    /// P6: `.name` of what is no table or struct.
    NotATable { step: u64 },
    /// P7: memory was refused.
    OutOfMemory,
}

impl PathFault {
    /// Its code and its name: `P2 NoSuchField`.
    pub fn text(self) -> &'static str
        ensures { result.now ≡ (path_code self).1 }
    {
        match self {
            PathFault::BadText { .. } => "P1 BadText",
            PathFault::NoSuchField { .. } => "P2 NoSuchField",
            PathFault::NotIndexable { .. } => "P3 NotIndexable",
            PathFault::NotAUnion { .. } => "P4 NotAUnion",
            PathFault::NoSuchMember { .. } => "P5 NoSuchMember",
            PathFault::NotATable { .. } => "P6 NotATable",
            PathFault::OutOfMemory => "P7 OutOfMemory",
        }
    }
}

impl fmt::Display for PathFault {
    fn fmt<W: fmt::Write>(&self, f: &mut fmt::Formatter<W>) -> fmt::Result {
        let name = self.text();
        let (mark, number) = match *self {
            PathFault::BadText { at } => ("at", at),
            PathFault::NoSuchField { step }
            | PathFault::NotIndexable { step }
            | PathFault::NotAUnion { step }
            | PathFault::NoSuchMember { step }
            | PathFault::NotATable { step } => ("step", step),
            PathFault::OutOfMemory => return f.write_str(name),
        };
        write!(f, "{name} {mark}={number}")
    }
}

impl Error for PathFault {}
