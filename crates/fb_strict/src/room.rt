// The room of a pass.

ghost use Rattle.std.specs.Prelude.{◌≡◌, ◌<◌, ◌≤◌, IfOk, IfErr, Some};
ghost use Rattle.fb_strict.specs.{Passing.opened, declared.room.RoomFault.TheVariants.LimitOutOfRange, declared.room.RoomFault.TheVariants.OutOfMemory};

use crate::levels::{Level, NO_LEVEL};
use fb_rules::offset_row::{NO_ROW, Row};
use fb_rules::site::Site;
use fb_rules::table::{NO_HEAD, Table};
use std::alloc::{Allocator, Global};
use std::marker::Model;

/// The greatest depth, in tables.
const DEEPEST: u32 = 4096;

/// An open table: its next task, the number of the field of the task before that, and what is left of that field's
/// `uoffset`s.
#[derive(Clone, Copy)]
pub struct Frame {
    pub table: Table,
    pub next: u32,
    pub number: u16,
    pub row: Row,
}

/// What no pass has written.
pub const BLANK: Frame = Frame {
    table: Table {
        object: 0,
        at: 0,
        head: NO_HEAD,
    },
    next: 0,
    number: 0,
    row: NO_ROW,
};

impl Frame {
    /// The table's object, and the field of the task before its next one.
    #[inline(always)]
    pub fn site(&self) -> Site
        ensures { result ≡ record { object = (self.now.table).object; field = Some self.now.number } }
    {
        Site {
            object: self.table.object,
            field: Some(self.number),
        }
    }

    /// The frame of a table that was opened.
    #[inline(always)]
    pub fn opened(table: Table) -> Self
        ensures { result ≡ opened table }
    {
        Frame {
            table,
            next: 0,
            number: 0,
            row: NO_ROW,
        }
    }
}

/// Room for the open tables of a pass, and for the buffers in which they lie, made once and used again and again: one
/// frame a level, and one place for a buffer.
///
/// A contract sees it as the number of its levels. After every answer of a pass it serves again, for every schema.
#[derive(Drop)]
pub struct Room<A: Allocator = Global> {
    pub(crate) frames: Vec<Frame, A>,
    pub(crate) levels: Vec<Level, A>,
}

impl<A: Allocator> Model for Room<A> {
    ghost use Rattle.std.specs.Prelude.{◌≡◌, ℕ, ◌≤◌, length};

    ghost Value = { ℕ };

    ghost view = { λ r. length r.frames.items };

    ghost invariant = { λ r. (length r.frames.items ≤ 4096) × (length r.levels.items ≡ length r.frames.items) };
}

/// Why no room was made.
#[derive(Clone, Copy, Debug, PartialEq, Eq)]
pub enum RoomFault {
    /// The depth is above 4,096.
    LimitOutOfRange,
    /// There was no memory for the frames, or for the buffers.
    OutOfMemory,
}

impl<A: Allocator + Copy> Room<A> {
    /// Room for so many tables open at once, at most 4,096.
    ///
    /// # Errors
    ///
    /// `LimitOutOfRange` where `depth` is above 4,096, and only then: this is tested before memory is asked for.
    /// `OutOfMemory` where memory was refused.
    pub fn new(alloc: A, depth: u32) -> Result<Room<A>, RoomFault>
        ensures depth { IfOk result (λ r. (r ≡ depth) × (depth ≤ 4096)) }
        ensures range { IfErr result (λ f. f ≡ LimitOutOfRange → 4096 < depth) }
        ensures memory { IfErr result (λ f. f ≡ OutOfMemory → depth ≤ 4096) }
    {
        if depth > DEEPEST {
            return Err(RoomFault::LimitOutOfRange);
        }
        let Ok(mut frames) = Vec::with_capacity(alloc, depth as usize) else {
            return Err(RoomFault::OutOfMemory);
        };
        let Ok(()) = frames.resize(depth as usize, BLANK) else {
            return Err(RoomFault::OutOfMemory);
        };
        let Ok(mut levels) = Vec::with_capacity(alloc, depth as usize) else {
            return Err(RoomFault::OutOfMemory);
        };
        let Ok(()) = levels.resize(depth as usize, NO_LEVEL) else {
            return Err(RoomFault::OutOfMemory);
        };
        Ok(Room { frames, levels })
    }
}

impl<A: Allocator> Room<A> {
    /// The number of its levels.
    pub fn depth(&self) -> u32
        ensures { result ≡ self.now }
    {
        self.frames.len() as u32
    }
}
