// The marks of the objects of which something is asked.

ghost use Rattle.std.specs.Prelude.{◌≡◌, ◌↔◌, ◌<◌, ℕ, [], length, true, false, map, OnOk, IfOk};
ghost use Rattle.fb_schema.specs.Rows.{Rows};
ghost use Rattle.fb_strict.specs.{Skipped.has_asked, Planned.marked, Planned.marked_wants, Planned.AreFounded, Planned.AreMarks, Demanded.demanded, Leading.IsChained};
ghost use Rattle.fb_strict.specs.{Leading.IsFrom, Leading.Leads as LeadsOf, Leading.AreLeads, Marking.IsQueue, Marking.NoneMarked, Marking.Spread, Marking.AreClosed};
ghost use Rattle.fb_strict.specs.Marking.{OwnMarked};

use crate::demands::Demands;
use crate::holding::Holdings;
use crate::leads::{Chains, Leads};
use crate::tasks::has_asked;
use fb_schema::Schema;
use std::alloc::{AllocError, Allocator};

/// Marks while they are made, and the objects that are marked in the order in which they were: each once. It takes 5
/// bytes an object.
#[derive(Drop)]
pub struct Marking<A: Allocator> {
    pub marks: Vec<bool, A>,
    pub queue: Vec<u32, A>,
}

/// Whether anything is demanded of a table of this object by itself.
#[tactic(auto, using(crate::proofs::Queues::none_own))]
fn has_own(schema: &Schema<'_>, demands: Demands, holdings: &Holdings<'_>, object: u32) -> bool
    ensures { result ≡ has_asked (marked_wants (demanded demands holdings.now) []) schema.now object }
{
    if !schema.is_table(object) {
        return false;
    }
    let fields = Demands {
        known_fields: false,
        ..demands
    };
    has_asked(fields, holdings, &[], schema, object)
}

impl<A: Allocator + Copy> Marking<A> {
    /// So many objects, none of which is marked.
    fn new(alloc: A, objects: usize) -> Result<Marking<A>, AllocError>
        ensures { IfOk result (λ m. NoneMarked objects m.marks.items m.queue.items) }
    {
        Ok(Marking {
            marks: vec![in alloc; false; objects]?,
            queue: Vec::with_capacity(alloc, objects)?,
        })
    }

    /// Marks an object, unless it is marked.
    fn mark(&mut self, object: u32) -> Result<(), AllocError>
        requires within { object < length self.old.marks.items }
        requires queue { IsQueue self.old.marks.items self.old.queue.items }
        ensures { OnOk result (Spread (λ k. k ≡ object) self.old.marks.items self.old.queue.items self.new.marks.items self.new.queue.items) }
    {
        if !self.marks[object as usize] {
            self.queue.push(object)?;
            self.marks[object as usize] = true;
        }
        Ok(())
    }

    /// Marks the objects of which something is demanded by itself, where none is marked yet.
    fn mark_own(
        &mut self,
        schema: &Schema<'_>,
        demands: Demands,
        holdings: &Holdings<'_>,
    ) -> Result<(), AllocError>
        requires { NoneMarked (length schema.now.objects) self.old.marks.items self.old.queue.items }
        ensures { OnOk result (OwnMarked (demanded demands holdings.now) schema.now (length schema.now.objects) self.new.marks.items self.new.queue.items) }
    {
        for object in 0..schema.object_count() {
            if has_own(schema, demands, holdings, object) {
                self.mark(object)?;
            }
        }
        Ok(())
    }

    /// Marks the objects from which edges lead to this end.
    fn follow(&mut self, chains: &Chains<A>, to: u32) -> Result<(), AllocError>
        requires chained { IsChained chains.now.lasts.items chains.now.edges.items }
        requires within { (k : ℕ) → IsFrom chains.now.lasts.items chains.now.edges.items k to → k < length self.old.marks.items }
        requires queue { IsQueue self.old.marks.items self.old.queue.items }
        ensures { OnOk result (Spread (λ k. IsFrom chains.now.lasts.items chains.now.edges.items k to) self.old.marks.items self.old.queue.items self.new.marks.items self.new.queue.items) }
    {
        let mut place = chains.last(to);
        while place > 0 {
            let edge = chains.edges[place - 1];
            self.mark(edge.from)?;
            place = edge.before;
        }
        Ok(())
    }

    /// Marks the objects with fields of the unions of which tables of this object are members.
    fn follow_members(&mut self, leads: &Leads<A>, to: u32) -> Result<(), AllocError>
        requires unions { IsChained leads.now.unions.lasts.items leads.now.unions.edges.items }
        requires members { IsChained leads.now.members.lasts.items leads.now.members.edges.items }
        requires within { (k e : ℕ) → IsFrom leads.now.unions.lasts.items leads.now.unions.edges.items k e
            → IsFrom leads.now.members.lasts.items leads.now.members.edges.items e to → k < length self.old.marks.items }
        requires queue { IsQueue self.old.marks.items self.old.queue.items }
        ensures { OnOk result (Spread (λ k. (e : ℕ) × IsFrom leads.now.unions.lasts.items leads.now.unions.edges.items k e
            × IsFrom leads.now.members.lasts.items leads.now.members.edges.items e to) self.old.marks.items self.old.queue.items self.new.marks.items self.new.queue.items) }
    {
        let mut place = leads.members.last(to);
        while place > 0 {
            let edge = leads.members.edges[place - 1];
            self.follow(&leads.unions, edge.from)?;
            place = edge.before;
        }
        Ok(())
    }

    /// Marks the objects that lead to this one.
    fn follow_back(&mut self, leads: &Leads<A>, to: u32) -> Result<(), AllocError>
        requires tables { IsChained leads.now.tables.lasts.items leads.now.tables.edges.items }
        requires unions { IsChained leads.now.unions.lasts.items leads.now.unions.edges.items }
        requires members { IsChained leads.now.members.lasts.items leads.now.members.edges.items }
        requires within { (k : ℕ) → LeadsOf leads.now.tables.lasts.items leads.now.tables.edges.items leads.now.unions.lasts.items leads.now.unions.edges.items
            leads.now.members.lasts.items leads.now.members.edges.items k to → k < length self.old.marks.items }
        requires queue { IsQueue self.old.marks.items self.old.queue.items }
        ensures { OnOk result (Spread (λ k. LeadsOf leads.now.tables.lasts.items leads.now.tables.edges.items leads.now.unions.lasts.items leads.now.unions.edges.items
            leads.now.members.lasts.items leads.now.members.edges.items k to) self.old.marks.items self.old.queue.items self.new.marks.items self.new.queue.items) }
    {
        self.follow(&leads.tables, to)?;
        self.follow_members(leads, to)?;
        Ok(())
    }

    /// Marks the objects that lead to one that is marked, until none is left.
    fn follow_all(
        &mut self,
        schema: &Schema<'_>,
        demands: Demands,
        holdings: &Holdings<'_>,
        leads: &Leads<A>,
    ) -> Result<(), AllocError>
        requires leads { AreLeads demands schema.now leads.now.tables.lasts.items leads.now.tables.edges.items leads.now.unions.lasts.items
            leads.now.unions.edges.items leads.now.members.lasts.items leads.now.members.edges.items }
        requires own { OwnMarked (demanded demands holdings.now) schema.now (length schema.now.objects) self.old.marks.items self.old.queue.items }
        ensures founded { OnOk result (AreFounded (demanded demands holdings.now) schema.now self.new.marks.items) }
        ensures closed { OnOk result (AreClosed (demanded demands holdings.now) schema.now self.new.marks.items) }
        ensures long { OnOk result (length self.new.marks.items ≡ length schema.now.objects) }
    {
        let (_schema, _demands, _holdings) = (schema, demands, holdings);
        let mut passed = 0;
        while passed < self.queue.len() {
            let object = self.queue[passed];
            self.follow_back(leads, object)?;
            passed += 1;
        }
        Ok(())
    }
}

/// Marks the objects of a schema from whose tables something is reached that is demanded.
pub fn marks_of<A: Allocator + Copy>(
    alloc: A,
    schema: &Schema<'_>,
    demands: Demands,
    holdings: &Holdings<'_>,
) -> Result<Vec<bool, A>, AllocError>
    ensures { IfOk result (λ marks. AreMarks (demanded demands holdings.now) schema.now marks.items) }
{
    let leads = Leads::of(alloc, schema, demands)?;
    let mut marking = Marking::new(alloc, schema.object_count() as usize)?;
    marking.mark_own(schema, demands, holdings)?;
    marking.follow_all(schema, demands, holdings, &leads)?;
    Ok(marking.marks)
}
