// Where the bytes of a value stand.

ghost use Rattle.std.specs.Prelude.{◌≡◌};
ghost use Rattle.fb_access.specs.Extents.{scalar_extent};

use fb_schema::Scalar;

/// Where bytes stand in a buffer.
#[derive(Clone, Copy, Debug, PartialEq, Eq)]
pub struct Extent {
    /// The place of the first, counted in bytes from the buffer's first.
    pub at: u64,
    /// How many bytes there are.
    pub size: u64,
}

/// The bytes of a scalar at a position that is shown by its bytes: a float.
pub fn scalar_extent(scalar: Scalar, at: u64) -> Option<Extent>
    ensures { result ≡ scalar_extent scalar at }
{
    match scalar {
        Scalar::Float => Some(Extent { at, size: 4 }),
        Scalar::Double => Some(Extent { at, size: 8 }),
        _ => None,
    }
}
