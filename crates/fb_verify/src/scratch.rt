// The room of a walk.

ghost use Rattle.std.specs.{Borrow.sem, Prelude.{◌≡◌, ◌<◌, ◌≤◌, length, IfOk, IfErr, Some}};
ghost use Rattle.fb_verify.specs.{Lending.LendsFrames, Stack.blank, declared.scratch.ScratchFault.TheVariants.LimitOutOfRange, declared.scratch.ScratchFault.TheVariants.OutOfMemory};

use fb_rules::offset_row::{NO_ROW, Row};
use fb_rules::site::Site;
use fb_rules::table::{Head, Table};
use std::alloc::{Allocator, Global};
use std::marker::Model;

/// The greatest depth, in tables.
const DEEPEST: u32 = 4096;

/// An open table: its next live field, the number of the field before that, and what is left of that field's offset
/// words.
#[derive(Clone, Copy)]
pub struct Frame {
    pub table: Table,
    pub next: u32,
    pub number: u16,
    pub row: Row,
}

/// What no walk has written.
pub const BLANK: Frame = Frame {
    table: Table {
        object: 0,
        at: 0,
        head: Head {
            vtable: 0,
            size: 0,
            inline: 0,
        },
    },
    next: 0,
    number: 0,
    row: NO_ROW,
};

impl Frame {
    /// The table's object, and the field before its next one.
    pub fn site(&self) -> Site
        ensures { result ≡ record { object = (self.now.table).object; field = Some self.now.number } }
    {
        Site {
            object: self.table.object,
            field: Some(self.number),
        }
    }

    /// The frame of a table that was opened.
    pub fn opened(table: Table) -> Self
        ensures { result ≡ record blank { table = table } }
    {
        Frame {
            table,
            next: 0,
            number: 0,
            row: NO_ROW,
        }
    }
}

/// Room for the open tables of a walk, made once and used again and again: one frame a level.
///
/// A contract sees it as the number of its levels. After every answer of a walk it serves again, for every schema.
#[derive(Drop)]
pub struct Scratch<A: Allocator = Global> {
    pub(crate) frames: Vec<Frame, A>,
}

impl<A: Allocator> Model for Scratch<A> {
    ghost use Rattle.std.specs.Prelude.{ℕ, ◌≤◌, length};

    ghost Value = { ℕ };

    ghost view = { λ s. length s.frames.items };

    ghost invariant = { λ s. length s.frames.items ≤ 4096 };
}

/// Why no scratch was made.
#[derive(Clone, Copy, Debug, PartialEq, Eq)]
pub enum ScratchFault {
    /// The depth is above 4,096.
    LimitOutOfRange,
    /// There was no memory for the frames.
    OutOfMemory,
}

impl<A: Allocator> Scratch<A> {
    /// Room for so many tables open at once, at most 4,096.
    ///
    /// # Errors
    ///
    /// `LimitOutOfRange` where `depth` is above 4,096, and only then: this is tested before memory is asked for.
    /// `OutOfMemory` where memory was refused.
    pub fn new(alloc: A, depth: u32) -> Result<Scratch<A>, ScratchFault>
        ensures depth { IfOk result (λ s. (s ≡ depth) × (depth ≤ 4096)) }
        ensures range { IfErr result (λ f. f ≡ LimitOutOfRange → 4096 < depth) }
        ensures memory { IfErr result (λ f. f ≡ OutOfMemory → depth ≤ 4096) }
    {
        if depth > DEEPEST {
            return Err(ScratchFault::LimitOutOfRange);
        }
        let Ok(mut frames) = Vec::with_capacity(alloc, depth as usize) else {
            return Err(ScratchFault::OutOfMemory);
        };
        let Ok(()) = frames.resize(depth as usize, BLANK) else {
            return Err(ScratchFault::OutOfMemory);
        };
        Ok(Scratch { frames })
    }

    /// The number of its levels.
    pub fn depth(&self) -> u32
        ensures { result ≡ self.now }
    {
        self.frames.len() as u32
    }
    /// Its frames, for one walk. It has as many levels afterwards.
    #[inline(always)]
    pub fn lend(&mut self) -> &mut [Frame]
        ensures* back { sem 𝓛 (LendsFrames A.row A.Allocator self.entry result) }
        ensures room { length result.now ≡ self.old }
    {
        &mut self.frames
    }
}
