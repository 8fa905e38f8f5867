//! The links of open tables.

ghost use Rattle.std.specs.Prelude.{◌≡◌, ◌+◌, ◌^◌, ◌<◌, ◌≤◌, length, IfSome, Some};
ghost use Rattle.fb_rules.specs.{Places.field_place, Fields.type_place, Told.IsVtable};
ghost use Rattle.fb_strict.specs.{Planned.IsPlan, Reread.WordsStand, Reread.MemberStands};
ghost use Rattle.fb_strict.specs.Passing.{wants_of, ask_words, ask_element, ask_member, IsLinked, AreLinked, frame_link, frame_links};

use crate::pass::Pass;
use crate::room::Frame;
use crate::tasks::{Ask, Task};
use fb_bytes::Window;
use fb_rules::link::Link;
use fb_rules::table::Table;
use std::alloc::Allocator;

/// Where the field with this slot stands in a table, none where it is absent.
#[tactic(auto, unfolding(fb_rules::specs::Places::field_place))]
fn place_of(window: &Window<'_>, table: Table, slot: u16) -> Option<u64>
    requires near { table.at < 2 ^ 33 }
    requires head { IsVtable window.now table.at table.head }
    ensures value { result ≡ field_place window.now table.at slot }
    ensures near { IfSome result (λ p. p < 2 ^ 34) }
{
    if table.head.ends_before(slot) {
        return None;
    }
    match window.u16_at(table.head.vtable + u64::from(slot)) {
        0 => None,
        place => Some(table.at + u64::from(place)),
    }
}

/// How many `uoffset`s the field of a task has, which stands at this place.
fn words_at(window: &Window<'_>, place: u64, ask: Ask) -> u32
    requires near { place < 2 ^ 34 }
    requires stands { WordsStand window.now place ask }
    ensures { result ≡ ask_words window.now (Some place) ask }
{
    match ask {
        Ask::Texts | Ask::Tables(_) | Ask::Unions(_) => {
            let at = place + u64::from(window.u32_at(place));
            window.u32_at(at)
        }
        _ => 1,
    }
}

/// The number of the element with so many before it, where the field of a task is a vector.
fn element_at(ask: Ask, before: u32) -> Option<u32>
    ensures { result ≡ ask_element before ask }
{
    match ask {
        Ask::Texts | Ask::Tables(_) | Ask::Unions(_) => Some(before),
        _ => None,
    }
}

/// The type of the union with so many before it, where the field of a task is a union or a vector of these.
fn member_at(window: &Window<'_>, table: Table, task: Task, before: u32) -> Option<u8>
    requires near { table.at < 2 ^ 33 }
    requires head { IsVtable window.now table.at table.head }
    requires stands { MemberStands window.now table.at task.slot before task.ask }
    ensures { result ≡ ask_member window.now (type_place window.now table.at task.slot) before task.ask }
{
    match task.ask {
        Ask::Union(_) => match place_of(window, table, task.slot - 2) {
            Some(place) => Some(window.u8_at(place)),
            None => Some(0),
        },
        Ask::Unions(_) => match place_of(window, table, task.slot - 2) {
            Some(place) => {
                let types = place + u64::from(window.u32_at(place)) + 4;
                Some(window.u8_at(types + u64::from(before)))
            }
            None => unreachable!(),
        },
        _ => None,
    }
}

impl<'p, 's, 'n, A: Allocator> Pass<'p, 's, 'n, A> {
    /// The link through the `uoffset` behind which a frame's row was left. What the pass read of its field is read
    /// again, uncounted: at most six numbers, of a vector of unions.
    fn link_of(&self, window: &Window<'_>, frame: &Frame) -> Link
        requires plan { IsPlan self.now.rows (self.now.plan).demands self.now.plan }
        requires linked { IsLinked (wants_of self.now) self.now.checks window.now self.now.rows frame.now }
        ensures { result ≡ frame_link (wants_of self.now) window.now self.now.rows frame.now }
    {
        let table = frame.table;
        let tasks = self.plan.tasks_of(table.object);
        let task = tasks[frame.next as usize - 1];
        let Some(place) = place_of(window, table, task.slot) else {
            unreachable!()
        };
        let before = words_at(window, place, task.ask) - frame.row.left - 1;
        Link {
            object: table.object,
            field: task.number,
            element: element_at(task.ask, before),
            member: member_at(window, table, task, before),
        }
    }

    /// Puts the links of as many frames as the row is long.
    pub(crate) fn put_links(&self, window: &Window<'_>, frames: &[Frame], links: &mut [Link])
        requires plan { IsPlan self.now.rows (self.now.plan).demands self.now.plan }
        requires linked { AreLinked (wants_of self.now) self.now.checks window.now self.now.rows frames.now (length links.old) }
        requires within { length links.old ≤ length frames.now }
        ensures { links.new ≡ frame_links (wants_of self.now) window.now self.now.rows frames.now (length links.old) }
    {
        let mut count = 0;
        while count < links.len() {
            links[count] = self.link_of(window, &frames[count]);
            count += 1;
        }
    }
}
