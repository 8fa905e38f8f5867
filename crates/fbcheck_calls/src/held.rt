//! What a pointer of a caller in C leads to.

ghost use Rattle.std.specs.Prelude.{◌≡◌, ◌<◌, ◌≤◌, length, IfErr, IfOk};
ghost use Rattle.fb_verify.specs.declared.scratch.ScratchFault.TheVariants.{LimitOutOfRange, OutOfMemory};

use crate::basis::Basis;
use fb_strict::Room as PassRoom;
use fb_verify::{Link, Scratch, ScratchFault};
use std::alloc::{AllocError, Global};
use std::marker::Model;

/// What stands in a row of links where none was put.
pub const NO_LINK: Link = Link {
    object: 0,
    field: 0,
    element: None,
    member: None,
};

/// Room for the open tables of a check, for as many of a pass, and for as many links of the way to a fault. A contract
/// sees it as the number of its levels.
#[derive(Drop)]
pub struct Room {
    pub scratch: Scratch,
    pub pass: PassRoom,
    pub links: Vec<Link>,
}

impl Model for Room {
    ghost use Rattle.std.specs.Prelude.{◌≡◌, ℕ, length};

    ghost Value = { ℕ };

    ghost view = { λ r. r.scratch };

    ghost invariant = { λ r. (r.pass ≡ r.scratch) × (length r.links.items ≡ r.scratch) };
}

/// What a pointer of a caller in C leads to: a schema with its plan, or room for a check.
#[derive(Drop)]
pub enum Held {
    Schema(Basis),
    Room(Room),
}

/// Room for so many links.
fn links_of(alloc: Global, depth: u32) -> Result<Vec<Link>, AllocError>
    ensures { IfOk result (λ v. length v.items ≡ depth) }
{
    let mut links = Vec::with_capacity(alloc, depth as usize)?;
    links.resize(depth as usize, NO_LINK)?;
    Ok(links)
}

impl Room {
    /// Room for so many tables open at once, at most 4,096.
    ///
    /// # Errors
    ///
    /// As [`Scratch::new`] has it.
    pub fn new(alloc: Global, depth: u32) -> Result<Room, ScratchFault>
        ensures depth { IfOk result (λ r. (r ≡ depth) × (depth ≤ 4096)) }
        ensures range { IfErr result (λ f. f ≡ LimitOutOfRange → 4096 < depth) }
        ensures memory { IfErr result (λ f. f ≡ OutOfMemory → depth ≤ 4096) }
    {
        let scratch = Scratch::new(alloc, depth)?;
        let Ok(pass) = PassRoom::new(alloc, depth) else {
            return Err(ScratchFault::OutOfMemory);
        };
        match links_of(alloc, depth) {
            Ok(links) => Ok(Room {
                scratch,
                pass,
                links,
            }),
            Err(_) => Err(ScratchFault::OutOfMemory),
        }
    }

    /// The number of its levels.
    pub fn levels(&self) -> u32
        ensures { result ≡ self.now }
    {
        self.scratch.depth()
    }
}
