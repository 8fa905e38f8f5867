// Which tests are made.

ghost use Rattle.std.specs.Prelude.{◌≡◌, true, false};

/// Which of the tests are made that a caller may choose. Every value is allowed.
#[derive(Clone, Copy, Debug, PartialEq, Eq)]
pub struct Checks {
    /// Whether every position must be a multiple of its alignment: a scalar's size, a struct's `minalign`, 4 for
    /// tables, counts and `uoffset`s, 2 for vtables (FlatBuffers Internals). Without it no V3 is answered.
    pub alignment: bool,
    /// Whether a field must end within the inline size that its table's vtable tells in its second word (FlatBuffers
    /// Internals, "Tables"). This costs one read more for each table. Without it no V12 is answered.
    pub inline_size: bool,
}

/// The checks of FlatBuffers' own verifier for C++, as constants.
pub const PUBLISHED: Checks = Checks {
    alignment: true,
    inline_size: false,
};

impl Checks {
    /// The checks of FlatBuffers' own verifier for C++: alignment, and not the inline size.
    pub fn published() -> Self
        ensures { result ≡ record { alignment = true; inline_size = false } }
    {
        PUBLISHED
    }
}

/// Whether these are the published ones.
#[inline(always)]
pub fn are_published(checks: Checks) -> bool
    ensures { result ≡ true → checks ≡ record { alignment = true; inline_size = false } }
{
    checks.alignment && !checks.inline_size
}
