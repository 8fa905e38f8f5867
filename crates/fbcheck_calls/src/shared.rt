//! What a caller in C lends to a call: a schema that any number of calls may read.

ghost use Rattle.std.specs.Prelude.{◌≡◌};
ghost use Rattle.fbcheck_calls.specs.declared.held.Held.{Held};

use crate::handle::Opaque;
use crate::held::Held;
use std::marker::Model;

/// A pointer to what a handle holds, by which it can only be read. The handle must hold it as long as this is used, and
/// no call may write it; then any number of calls may have such a pointer, on any threads.
#[repr(C)]
pub struct Shared {
    at: *const Opaque,
    pub ghost held: { Held },
}

impl Model for Shared {
    ghost use denote.Struct.Lending.{lent_at};
    ghost use Rattle.std.specs.Prelude.{[]};
    ghost use Rattle.fbcheck_calls.specs.contracts.held.Held.{the_row};

    ghost also_owns = { λ s. lent_at the_row s.at s.held [] };
}

impl Shared {
    /// What it leads to.
    pub fn held(self) -> &'static Held
        ensures { result.now ≡ self.held }
    {
        let Shared { at } = self;
        unsafe { &*(at as *const Held) }
    }
}
