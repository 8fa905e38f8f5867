//! The handle by which a caller in C owns a schema or room for a check.

ghost use Rattle.std.specs.Prelude.{◌≡◌, MatchResult, None, Option, Some, option_map};
ghost use Rattle.std.specs.Ptr.{null_ptr};
ghost use Rattle.fbcheck_calls.specs.{Answered.IsRoomMade, Answered.IsTaken, declared.held.Held.Held};

use crate::basis::open;
use crate::detached::Detached;
use crate::held::{Held, Room};
use crate::options::Options;
use crate::outcome::Outcome;
use fb_bfbs::LoadFault;
use fb_verify::ScratchFault;
use std::alloc::{AllocError, Global};
use std::marker::Model;
use std::ptr::null_mut;

/// What C sees where a schema or a room lies.
#[repr(C)]
pub struct Opaque {
    pub unused: u8,
}

/// A schema or a room that was put on the heap, or nothing. C sees one pointer, which is null where nothing is held;
/// the allocator takes no bytes.
#[repr(C)]
#[derive(Drop)]
pub struct Handle {
    at: *mut Opaque,
    alloc: Global,
    ghost inside: { Option Held },
}

impl Model for Handle {
    ghost use Rattle.fbcheck_calls.specs.Owns.{held};
    ghost use Rattle.fbcheck_calls.specs.contracts.held.Held.{the_row};
    ghost use Rattle.std.specs.contracts.impls.GlobalAllocator.TheImpl.{ghosts};

    ghost also_owns = { λ h. held (ghosts.dealloc_token h.alloc) the_row h.at h.inside };
}

/// A pointer that leads nowhere.
fn nowhere() -> *mut Opaque
    ensures { result ≡ null_ptr }
{
    null_mut()
}

impl Handle {
    /// A handle whose pointer leads nowhere.
    fn blank(at: *mut Opaque, alloc: Global) -> Handle
        requires { at ≡ null_ptr }
        ensures { result.inside ≡ None }
    {
        Handle { at, alloc }
    }

    /// A handle that holds nothing.
    fn none(alloc: Global) -> Handle
        ensures { result.inside ≡ None }
    {
        Handle::blank(nowhere(), alloc)
    }

    /// A handle that holds what a box owned.
    fn holding(held: Detached<Held, Global>) -> Handle
        ensures { result.inside ≡ Some held.value }
    {
        let Detached { at, alloc } = held;
        Handle {
            at: at as *mut Opaque,
            alloc,
        }
    }

    /// What the handle held.
    fn held(self) -> Option<Detached<Held, Global>>
        ensures { option_map (λ d. d.value) result ≡ self.inside }
    {
        let Handle { at, alloc } = self;
        if at.is_null() {
            None
        } else {
            Some(Detached {
                at: at as *mut Held,
                alloc,
            })
        }
    }

    /// Takes out what is held, and leaves nothing.
    pub fn take(&mut self, alloc: Global) -> Option<Box<Held>>
        ensures taken { option_map (λ b. b.value) result ≡ self.old.inside }
        ensures left { self.new.inside ≡ None }
    {
        match std::mem::replace(self, Handle::none(alloc)).held() {
            Some(held) => Some(held.into_box()),
            None => None,
        }
    }

    /// Has the handle, which holds nothing, hold this.
    pub fn put(&mut self, held: Box<Held>)
        requires { self.old.inside ≡ None }
        ensures { self.new.inside ≡ Some held.value }
    {
        *self = Handle::holding(Detached::of(held));
    }

    /// Has the handle hold this, and frees what it held; where there is no memory for it, it holds what it held.
    fn hold(&mut self, alloc: Global, held: Held) -> Result<(), AllocError>
        ensures { MatchResult result (λ _. self.new.inside ≡ Some held) (λ _. self.new.inside ≡ self.old.inside) }
    {
        let held = Box::new(alloc, held)?;
        self.free(alloc);
        self.put(held);
        Ok(())
    }

    /// Loads a schema file, as [`open`] does. Where that was done the handle holds it, and what it held is freed; else
    /// the handle holds what it held.
    pub fn load(&mut self, alloc: Global, file: &'static [u8], options: &Options) -> Outcome
        ensures { IsTaken file.now options.now self.old.inside self.new.inside result }
    {
        let basis = match open(alloc, file, options) {
            Ok(basis) => basis,
            Err(answer) => return answer,
        };
        match self.hold(alloc, Held::Schema(basis)) {
            Ok(()) => Outcome::Done,
            Err(_) => Outcome::NoSchema(LoadFault::OutOfMemory),
        }
    }

    /// Makes room for so many open tables. Where that was done the handle holds it, and what it held is freed; else the
    /// handle holds what it held.
    pub fn make_room(&mut self, alloc: Global, depth: u32) -> Outcome
        ensures { IsRoomMade depth self.old.inside self.new.inside result }
    {
        let room = match Room::new(alloc, depth) {
            Ok(room) => room,
            Err(ScratchFault::LimitOutOfRange) => return Outcome::OutOfRange,
            Err(ScratchFault::OutOfMemory) => return Outcome::NoSchema(LoadFault::OutOfMemory),
        };
        match self.hold(alloc, Held::Room(room)) {
            Ok(()) => Outcome::Done,
            Err(_) => Outcome::NoSchema(LoadFault::OutOfMemory),
        }
    }

    /// Frees what is held, and leaves nothing.
    pub fn free(&mut self, alloc: Global)
        ensures { self.new.inside ≡ None }
    {
        drop(self.take(alloc));
    }
}
