//! A box that was taken apart.

ghost use Rattle.std.specs.Prelude.{◌≡◌};
ghost use Rattle.std.specs.Box.Ownership.{box_owns};

use std::alloc::Allocator;
use std::marker::Model;

/// The pointer and the allocator of a box. It owns what the box owned.
pub struct Detached<T, A: Allocator> {
    pub at: *mut T,
    pub alloc: A,
    pub ghost value: { T },
}

impl<T, A: Allocator> Model for Detached<T, A> {
    ghost also_owns = { λ d. box_owns (A.dealloc_token d.alloc) T.row d.at d.value };
}

impl<T: Drop, A: Allocator> Detached<T, A> {
    /// Takes a box apart.
    pub fn of(boxed: Box<T, A>) -> Detached<T, A>
        ensures { result.value ≡ boxed.value }
    {
        let (at, alloc) = Box::into_raw_with_allocator(boxed);
        Detached { at, alloc }
    }

    /// Makes the box again.
    pub fn into_box(self) -> Box<T, A>
        ensures { result.value ≡ self.value }
    {
        let Detached { at, alloc } = self;
        unsafe { Box::from_raw(alloc, at) }
    }
}
