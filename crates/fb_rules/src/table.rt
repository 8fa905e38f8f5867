// Tables: their heads, and what is known of them before they are opened and while they are open.

ghost use Rattle.std.specs.Prelude.{◌≡◌, ◌+◌, nat_lt};

/// Where a table's vtable stands, its size in bytes, and the size of what stands inline in the table.
///
/// `inline` is 0 where the inline size isn't checked.
#[derive(Clone, Copy)]
pub struct Head {
    pub vtable: u64,
    pub size: u16,
    pub inline: u16,
}

/// What no table has.
pub const NO_HEAD: Head = Head {
    vtable: 0,
    size: 0,
    inline: 0,
};

impl Head {
    /// Whether the vtable ends before this slot does, whose field is absent then.
    #[inline(always)]
    pub fn ends_before(self, slot: u16) -> bool
        ensures { result ≡ nat_lt self.size (slot + 2) }
    {
        u32::from(self.size) < u32::from(slot) + 2
    }
}

/// An open table: its head, its object's number and its position, in the order that [`Stop`] asks for.
#[derive(Clone, Copy)]
pub struct Table {
    pub head: Head,
    pub object: u32,
    pub at: u64,
}

/// A table that is to be opened: its object's number and its position.
#[derive(Clone, Copy)]
pub struct Child {
    pub object: u32,
    pub at: u64,
}

/// No table.
pub const NO_CHILD: Child = Child { object: 0, at: 0 };
