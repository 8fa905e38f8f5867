// Tables of a row that share a vtable: what tells of one that another holds as it does.

ghost use Rattle.std.specs.Prelude.{◌≡◌, true};
ghost use Rattle.fb_rules.specs.{Alike.IsLike, declared.passed.Sizes.TheVariants.Small};

/// The sizes of the fields of a row's tables.
#[derive(Clone, Copy)]
pub enum Sizes {
    /// All are scalars and structs of 1, 2, 4 or 8 bytes, aligned to as many.
    Small,
    /// Some may be others.
    Any,
}

/// A table of a row that was passed whole: where it stands, and its vtable, and how many reads it took behind that of
/// its first word. At 0 stands none.
#[derive(Clone, Copy)]
pub struct Passed {
    /// The sizes of the fields of all tables of the row.
    pub sizes: Sizes,
    /// Where the table stands.
    pub at: u64,
    /// Where its vtable stands.
    pub vtable: u64,
    /// How many reads it took behind that of its first word.
    pub reads: u64,
}

impl Passed {
    /// None yet, in a row of tables with fields of these sizes.
    #[inline(always)]
    pub fn none(sizes: Sizes) -> Self
        ensures { result ≡ record { sizes = sizes; at = 0; vtable = 0; reads = 0 } }
    {
        Passed {
            sizes,
            at: 0,
            vtable: 0,
            reads: 0,
        }
    }

    /// Whether the table at this position, whose vtable stands there, holds as this one does: where fields are small,
    /// it shares the vtable, stands below, and is aligned alike.
    #[inline(always)]
    pub fn tells_of(self, at: u64, vtable: u64) -> bool
        ensures small { result ≡ true → self.sizes ≡ Small }
        ensures like { result ≡ true → IsLike self at vtable }
    {
        match self.sizes {
            Sizes::Small => { vtable == self.vtable && at < self.at && at % 8 == self.at % 8 }
            Sizes::Any => false,
        }
    }
}
