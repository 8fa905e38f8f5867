//! What a checker needs beside a buffer.

ghost use Rattle.std.specs.Prelude.{IfOk, IfSome, ◌≡◌, ◌≤◌, option_map};
ghost use Rattle.fb_run.specs.{AnswerText.label_text, declared.options.Places.TheVariants.Words};

use crate::options::{Options, Places};
use crate::value_text::put_label;
use fb_strict::{Room as PassRoom, RoomFault};
use fb_verify::{Link, Scratch, ScratchFault};
use std::alloc::{AllocError, Allocator};
use std::marker::Model;

/// What no fault has left.
const BLANK: Link = Link {
    object: 0,
    field: 0,
    element: None,
    member: None,
};

/// Room for the open tables of a buffer, and for those of a pass over it, for the links that lead to its fault, and for
/// the place of that in words, beside what each line begins with. It is made once and used again and again. Where words
/// are not asked for, neither links nor words take memory, and where there is no plan, no pass does.
#[derive(Drop)]
pub struct Workspace<A: Allocator> {
    pub scratch: Scratch<A>,
    pub pass: PassRoom<A>,
    pub links: Vec<Link, A>,
    pub text: Vec<u8, A>,
    pub label: Vec<u8, A>,
}

impl<A: Allocator> Model for Workspace<A> {
    ghost use Rattle.std.specs.Prelude.{length};
    ghost use Rattle.fb_run.specs.Job.{Beside};

    ghost Value = { Beside };

    ghost view = { λ r. record { levels = r.scratch; pass = r.pass; links = length r.links.items; text = r.text.items; label = r.label.items } };
}

impl<'a, A: Allocator> Workspace<&'a A> {
    /// Room for as many open tables as the limits of these options allow, for as many of a pass where there is a plan,
    /// and for as many links where words are asked for, beside the name of the input.
    pub fn new(alloc: &'a A, options: &Options) -> Result<Self, AllocError>
        ensures levels { IfOk result (λ room. room.levels ≡ options.now.terms.limits.depth) }
        ensures pass { IfOk result (λ room. IfSome options.now.plan (λ _. room.pass ≡ options.now.terms.limits.depth)) }
        ensures links { IfOk result (λ room. options.now.terms.names ≡ Words → room.links ≡ options.now.terms.limits.depth) }
        ensures label { IfOk result (λ room. room.label ≡ label_text (option_map (λ name. name.items) options.now.label)) }
    {
        let depth = options.terms.limits.depth();
        let scratch = scratch(alloc, depth)?;
        let pass = match &options.plan {
            Some(_) => pass_room(alloc, depth)?,
            None => pass_room(alloc, 0)?,
        };
        let mut links = Vec::new(alloc);
        if let Places::Words = options.terms.names {
            links.resize(depth as usize, BLANK)?;
        }
        let mut begin = Vec::new(alloc);
        put_label(&mut begin, &options.label)?;
        Ok(Workspace {
            scratch,
            pass,
            links,
            text: Vec::new(alloc),
            label: begin,
        })
    }
}

/// Room for so many tables open at once in a walk.
fn scratch<A: Allocator>(alloc: &A, depth: u32) -> Result<Scratch<&A>, AllocError>
    requires { depth ≤ 4096 }
    ensures { IfOk result (λ scratch. scratch ≡ depth) }
{
    match Scratch::new(alloc, depth) {
        Ok(scratch) => Ok(scratch),
        Err(ScratchFault::OutOfMemory) => Err(AllocError),
        Err(ScratchFault::LimitOutOfRange) => unreachable!(),
    }
}

/// The same in a pass: no memory where there are none.
fn pass_room<A: Allocator>(alloc: &A, depth: u32) -> Result<PassRoom<&A>, AllocError>
    requires { depth ≤ 4096 }
    ensures { IfOk result (λ room. room ≡ depth) }
{
    match PassRoom::new(alloc, depth) {
        Ok(room) => Ok(room),
        Err(RoomFault::OutOfMemory) => Err(AllocError),
        Err(RoomFault::LimitOutOfRange) => unreachable!(),
    }
}
