// The index of a schema: live fields, the kinds of members, and orders by which names and values are found.

use crate::lists::Lists;
use crate::views::{FieldView, Step, Target};
use std::alloc::Allocator;

/// What holds of all live fields of an object.
#[derive(Clone, Copy)]
pub struct Sorts {
    /// None leads to a table.
    pub plain: bool,
    /// All are scalars and structs of 1, 2, 4 or 8 bytes, aligned to as many, that may be absent.
    pub small: bool,
}

/// What is kept beside the rows: the order of the objects' names, the live fields and the members.
#[derive(Drop)]
pub struct Index<'n, A: Allocator> {
    pub order: Vec<(&'n [u8], u32), A>,
    pub live: LiveIndex<'n, A>,
    pub members: MemberIndex<'n, A>,
}

/// The live fields of each object in rising slot, the order of their names, their steps, what holds of all of them, at
/// each the place of the next required one, and the length of the longest list.
#[derive(Drop)]
pub struct LiveIndex<'n, A: Allocator> {
    pub fields: Lists<FieldView<'n>, A>,
    pub names: Lists<(&'n [u8], u32), A>,
    pub steps: Lists<Step, A>,
    pub sorts: Vec<Sorts, A>,
    pub next_required: Lists<u32, A>,
    pub widest: u32,
}

/// What the types of each union lead to: at each value the place of its target, and the targets; and the order of its
/// members' names. Of an enum that is no union nothing is kept.
#[derive(Drop)]
pub struct MemberIndex<'n, A: Allocator> {
    pub places: Lists<u8, A>,
    pub targets: Lists<Target, A>,
    pub names: Lists<((bool, &'n [u8]), u32), A>,
}
