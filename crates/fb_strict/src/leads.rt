// Which tables lead to an object, found backwards from it.

ghost use Rattle.std.specs.Prelude.{◌≡◌, ◌+◌, ◌*◌, ◌^◌, ◌<◌, ◌≤◌, OnOk, IfOk, IsTrue};
ghost use Rattle.fb_schema.specs.Rows.{is_table, is_union};
ghost use Rattle.fb_strict.specs.Leading.{MemberLeads, KindNames, Names, last_to, IsChained, HasNone, Grown, Added, HaveBelow, Have, AreLeads};

use crate::demands::Demands;
use fb_schema::{Kind, Schema};
use std::alloc::{AllocError, Allocator};

/// An edge: where it comes from, and one more than the place of the edge to the same end that was added before it, 0
/// where none was.
#[derive(Clone, Copy)]
pub struct Edge {
    pub from: u32,
    pub before: usize,
}

/// Where edges from objects lead: to the objects that fields of tables name, or to the enums that fields of unions do.
#[derive(Clone, Copy)]
pub enum Ends {
    Objects,
    Enums,
}

/// Edges by where they lead. For each end there is one more than the place of the last edge to it, 0 where there is
/// none, and each edge names the one before it.
#[derive(Drop)]
pub struct Chains<A: Allocator> {
    pub lasts: Vec<usize, A>,
    pub edges: Vec<Edge, A>,
}

/// The fields that lead to each object: those of tables, by the object; and where unions aren't asked themselves, those
/// of unions, by the union, and the unions, by the objects of which they have tables as members. It takes 8 bytes for
/// each object and for each union, and 16 for each of these fields and members: twice that at most.
#[derive(Drop)]
pub struct Leads<A: Allocator> {
    pub tables: Chains<A>,
    pub unions: Chains<A>,
    pub members: Chains<A>,
}

/// Gives an end a chain, where it has none yet.
fn grow<A: Allocator>(lasts: &mut Vec<usize, A>, to: u32) -> Result<(), AllocError>
    ensures { OnOk result (Grown to lasts.old.items lasts.new.items) }
{
    let place = to as usize;
    if lasts.len() <= place {
        lasts.resize(place + 1, 0)?;
    }
    Ok(())
}

impl<A: Allocator + Copy> Chains<A> {
    /// No edges.
    fn new(alloc: A) -> Chains<A>
        ensures { HasNone result.lasts.items result.edges.items }
    {
        Chains {
            lasts: Vec::new(alloc),
            edges: Vec::new(alloc),
        }
    }

    /// Adds an edge between these.
    fn add(&mut self, from: u32, to: u32) -> Result<(), AllocError>
        requires { IsChained self.old.lasts.items self.old.edges.items }
        ensures { OnOk result (Added from (λ t. t ≡ to) self.old.lasts.items self.old.edges.items self.new.lasts.items self.new.edges.items) }
    {
        grow(&mut self.lasts, to)?;
        let before = self.lasts[to as usize];
        self.edges.push(Edge { from, before })?;
        self.lasts[to as usize] = self.edges.len();
        Ok(())
    }

    /// Adds an edge from an object to what a field of this kind names, if it names such an end.
    fn add_kind(&mut self, ends: Ends, from: u32, kind: Kind) -> Result<(), AllocError>
        requires { IsChained self.old.lasts.items self.old.edges.items }
        ensures { OnOk result (Added from (KindNames ends kind) self.old.lasts.items self.old.edges.items self.new.lasts.items self.new.edges.items) }
    {
        match ends {
            Ends::Objects => match kind {
                Kind::Table(object) | Kind::Tables(object) => self.add(from, object),
                _ => Ok(()),
            },
            Ends::Enums => match kind {
                Kind::Union(union) | Kind::Unions(union) => self.add(from, union),
                _ => Ok(()),
            },
        }
    }

    /// Adds edges from a table's object to what its fields name.
    fn add_fields(&mut self, schema: &Schema<'_>, ends: Ends, object: u32) -> Result<(), AllocError>
        requires table { IsTrue (is_table schema.now object) }
        requires chained { IsChained self.old.lasts.items self.old.edges.items }
        ensures { OnOk result (Added object (Names ends schema.now object) self.old.lasts.items self.old.edges.items self.new.lasts.items self.new.edges.items) }
    {
        let fields = schema.fields_of(object);
        for field in fields {
            self.add_kind(ends, object, field.kind)?;
        }
        Ok(())
    }

    /// Edges from all tables' objects.
    fn of_fields(alloc: A, schema: &Schema<'_>, ends: Ends) -> Result<Chains<A>, AllocError>
        ensures { IfOk result (λ c. Have (Names ends schema.now) c.lasts.items c.edges.items) }
    {
        let mut chains = Chains::new(alloc);
        for object in 0..schema.object_count() {
            if schema.is_table(object) {
                chains.add_fields(schema, ends, object)?;
            }
        }
        Ok(chains)
    }

    /// Adds edges from a union to the objects of those of its members that are tables.
    fn add_members(&mut self, schema: &Schema<'_>, union: u32) -> Result<(), AllocError>
        requires union { IsTrue (is_union schema.now union) }
        requires chained { IsChained self.old.lasts.items self.old.edges.items }
        ensures { OnOk result (Added union (MemberLeads schema.now union 256) self.old.lasts.items self.old.edges.items self.new.lasts.items self.new.edges.items) }
    {
        for value in 0..256u32 {
            if let Some(Kind::Table(to)) = schema.member_of(union, value as u8) {
                self.add(union, to)?;
            }
        }
        Ok(())
    }

    /// Edges from so many enums, of which some are unions.
    fn of_members(alloc: A, schema: &Schema<'_>, enums: usize) -> Result<Chains<A>, AllocError>
        requires { enums ≤ 2 ^ 32 }
        ensures { IfOk result (λ c. HaveBelow (λ e t. MemberLeads schema.now e 256 t) enums c.lasts.items c.edges.items) }
    {
        let mut chains = Chains::new(alloc);
        for union in 0..enums {
            if schema.is_union(union as u32) {
                chains.add_members(schema, union as u32)?;
            }
        }
        Ok(chains)
    }
}

impl<A: Allocator> Chains<A> {
    /// One more than the place of the last edge to this end, 0 where there is none.
    pub fn last(&self, to: u32) -> usize
        ensures { result ≡ last_to self.now.lasts.items to }
    {
        match self.lasts.get(to as usize) {
            Some(last) => *last,
            None => 0,
        }
    }
}

impl<A: Allocator + Copy> Leads<A> {
    /// The fields that lead to each object of a schema, where this is demanded.
    pub fn of(alloc: A, schema: &Schema<'_>, demands: Demands) -> Result<Leads<A>, AllocError>
        ensures { IfOk result (λ l. AreLeads demands schema.now l.tables.lasts.items l.tables.edges.items l.unions.lasts.items l.unions.edges.items l.members.lasts.items l.members.edges.items) }
    {
        let tables = Chains::of_fields(alloc, schema, Ends::Objects)?;
        if demands.unions {
            let unions = Chains::new(alloc);
            let members = Chains::new(alloc);
            return Ok(Leads {
                tables,
                unions,
                members,
            });
        }
        let unions = Chains::of_fields(alloc, schema, Ends::Enums)?;
        let members = Chains::of_members(alloc, schema, unions.lasts.len())?;
        Ok(Leads {
            tables,
            unions,
            members,
        })
    }
}
