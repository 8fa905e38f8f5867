//! The plan of a pass over buffers of a schema.

ghost use Rattle.std.specs.Prelude.{◌≡◌, ◌⊎◌, ◌<◌, length, map, slice_get, Some, IfOk, IfErr, OnOk, true, false};
ghost use Rattle.std.specs.List.{list_any};
ghost use Rattle.fb_schema.specs.{Rows.Rows, Live.live_fields};
ghost use Rattle.fb_bfbs.specs.Marks.{marked as mark_of};
ghost use Rattle.fb_strict.specs.{Holding.holdings_if, Holding.is_lost, Holding.IsPlanFault, Demanded.demanded, Demanded.flags, declared.holding.PlanFault.TheVariants.OutOfMemory};
ghost use Rattle.fb_strict.specs.Planned.{all_wants, wants_in, tasks_in, IsPlan, AreTasks};

use crate::demands::Demands;
use crate::holding::{Holding, Holdings, PlanFault, holdings_if, order_of};
use crate::marking::marks_of;
use crate::tasks::{Task, is_marked, tasks_in};
use fb_bfbs::Mark;
use fb_schema::Schema;
use std::alloc::{AllocError, Allocator, Global};
use std::marker::Model;

/// What a pass asks of the tables of a schema: for each object its tasks, none where nothing that is demanded is
/// reached from a table of it. It takes 25 bytes an object, 12 a task, and 16 a mark that counts. While it is made, it
/// takes 12 bytes an object, at most 32 a live field and a union's member, and 16 such a mark beside them.
///
/// Its time grows as the objects, their live fields and the marks do, but for a logarithm, since fields and marks are
/// looked up in order; where unions aren't asked themselves, each of these fields counts as often as its union has
/// members. The name in a mark of a nested buffer is looked up in each namespace around its object, so such a mark
/// takes time as the lengths of both names do, times one more than the dots in the object's.
#[derive(Drop)]
pub struct Plan<A: Allocator = Global> {
    demands: Demands,
    holdings: Vec<Holding, A>,
    marks: Vec<bool, A>,
    tasks: Vec<Vec<Task, A>, A>,
}

impl<A: Allocator> Model for Plan<A> {
    ghost use Rattle.std.specs.Prelude.{map};
    ghost use Rattle.fb_strict.specs.{Demanded.demanded, Planned.Planned};

    ghost Value = { Planned };

    ghost view = { λ p. record { demands = demanded p.demands p.holdings.items; marks = p.marks.items; tasks = map (λ v. v.items) p.tasks.items } };
}

/// The tasks of an object, none where it is a struct.
fn tasks_of<A: Allocator>(
    alloc: A,
    schema: &Schema<'_>,
    demands: Demands,
    holdings: &Holdings<'_>,
    marks: &[bool],
    object: u32,
) -> Result<Vec<Task, A>, AllocError>
    ensures { IfOk result (λ tasks. tasks.items ≡ tasks_in (all_wants (demanded demands holdings.now) marks.now) schema.now object (live_fields schema.now object)) }
{
    if schema.is_table(object) {
        return tasks_in(alloc, demands, holdings, marks, schema, object);
    }
    Ok(Vec::new(alloc))
}

/// The tasks of each object.
fn tasks_of_all<A: Allocator + Copy>(
    alloc: A,
    schema: &Schema<'_>,
    demands: Demands,
    holdings: &Holdings<'_>,
    marks: &[bool],
) -> Result<Vec<Vec<Task, A>, A>, AllocError>
    ensures { IfOk result (λ tasks. AreTasks (all_wants (demanded demands holdings.now) marks.now) schema.now (length schema.now.objects) (map (λ v. v.items) tasks.items)) }
{
    let mut tasks = Vec::new(alloc);
    for object in 0..schema.object_count() {
        tasks.push(tasks_of(alloc, schema, demands, holdings, marks, object)?)?;
    }
    Ok(tasks)
}

impl<A: Allocator + Copy> Plan<A> {
    /// The plan of a schema for what is demanded, where the marks of its file say what its fields hold: they count
    /// where nested buffers are asked, on fields that are vectors of bytes.
    ///
    /// # Errors
    ///
    /// `NoSuchTable` where such a mark names no table, and `OutOfMemory` where memory was refused.
    pub fn new(
        alloc: A,
        schema: &Schema<'_>,
        marks: &[Mark<'_>],
        demands: Demands,
    ) -> Result<Plan<A>, PlanFault>
        ensures plan { IfOk result (λ p. IsPlan schema.now (demanded demands (holdings_if demands schema.now (map mark_of marks.now))) p) }
        ensures found { OnOk result (demands.nested ≡ true → list_any (is_lost schema.now) (map mark_of marks.now) ≡ false) }
        ensures lost { IfErr result (λ f. IsPlanFault schema.now (map mark_of marks.now) f) }
        ensures asked { IfErr result (λ f. (f ≡ OutOfMemory) ⊎ (demands.nested ≡ true)) }
    {
        let holdings = holdings_if(alloc, schema, marks, demands)?;
        let order = order_of(alloc, &holdings)?;
        let held = Holdings::new(&holdings, &order);
        let marks = marks_of(alloc, schema, demands, &held)?;
        let tasks = tasks_of_all(alloc, schema, demands, &held, &marks)?;
        Ok(Plan {
            demands,
            holdings,
            marks,
            tasks,
        })
    }
}

impl<A: Allocator> Plan<A> {
    /// What is demanded.
    #[inline(always)]
    pub fn demands(&self) -> Demands
        ensures { result ≡ flags self.now.demands }
    {
        self.demands
    }

    /// Whether anything is asked of a table of this object, or of one that is reached from it.
    #[inline(always)]
    pub fn asks(&self, object: u32) -> bool
        ensures { result ≡ (wants_in self.now).asks object }
    {
        self.demands.known_fields || is_marked(&self.marks, object)
    }

    /// The tasks of an object, in rising slot.
    #[inline(always)]
    pub fn tasks_of(&self, object: u32) -> &[Task]
        requires { object < length self.now.tasks }
        ensures { slice_get self.now.tasks object ≡ Some result.now }
    {
        &self.tasks[object as usize]
    }
}
