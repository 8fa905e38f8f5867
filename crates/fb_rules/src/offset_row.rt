// The `uoffset`s by which a field leads on.

ghost use Rattle.std.specs.Prelude.{◌≡◌, ◌+◌, ◌-◌, ◌<◌, ◌^◌, IsTrue};
ghost use Rattle.fb_schema.specs.{Rows.is_union, Members.member_of, Served.IsServed};
ghost use Rattle.fb_rules.specs.{Fields.lead_of, OffsetRows.past_first, OffsetRows.lead_to, OffsetRows.referent_of, OffsetRows.AreAll, OffsetRows.AreTypesNear};
ghost use Rattle.fb_rules.specs.{OffsetRows.AreUnionTargets, OffsetRows.IsReferent, declared.offset_row.Leads.TheVariants.All};

use fb_schema::{Goal, Schema, Target, Targets};

/// What a `uoffset` refers to, past its own test.
#[derive(Clone, Copy)]
pub enum Referent {
    /// Nothing: the type of the union is 0 or unknown.
    Nothing,
    /// A string.
    Text,
    /// A table of the object with this number.
    Table(u32),
    /// A struct of this size and alignment.
    Struct(u32, u32),
}

/// What the `uoffset`s of a row refer to: all to the same, or each to the member of the union with the type at a
/// position.
#[derive(Clone, Copy)]
pub enum Leads {
    All(Referent),
    ByType(u32, u64),
}

/// Offset words one after another.
///
/// `place` is the position of the first, and `left` their number.
#[derive(Clone, Copy)]
pub struct Row {
    pub leads: Leads,
    pub place: u64,
    pub left: u32,
}

/// The row of a field that leads nowhere.
pub const NO_ROW: Row = Row {
    leads: Leads::All(Referent::Nothing),
    place: 0,
    left: 0,
};

impl Row {
    /// One `uoffset`.
    pub fn one(referent: Referent, place: u64) -> Self
        ensures { result ≡ record { leads = All referent; place = place; left = 1 } }
    {
        Row {
            leads: Leads::All(referent),
            place,
            left: 1,
        }
    }

    /// Goes past the first `uoffset`, which is left out from then on.
    pub fn advance(&mut self)
        requires more { 0 < self.old.left }
        requires near { self.old.place < 2 ^ 36 }
        requires types { AreTypesNear self.old.leads }
        ensures { self.new ≡ past_first self.old }
    {
        if let Leads::ByType(union, types) = self.leads {
            self.leads = Leads::ByType(union, types + 1);
        }
        self.place += 4;
        self.left -= 1;
    }

    /// The same of words that all refer to the same, so that nothing is asked of them.
    #[inline(always)]
    pub fn advance_all(&mut self)
        requires more { 0 < self.old.left }
        requires near { self.old.place < 2 ^ 36 }
        requires all { AreAll self.old.leads }
        ensures { self.new ≡ past_first self.old }
    {
        self.place += 4;
        self.left -= 1;
    }
}

/// What a `uoffset` of a union refers to whose type has this target.
#[inline(always)]
fn referent_to(target: Target) -> Referent
    ensures { result ≡ referent_of target.goal target }
{
    match target.goal {
        Goal::Nothing => Referent::Nothing,
        Goal::Text => Referent::Text,
        Goal::Table => Referent::Table(target.object),
        Goal::Struct => Referent::Struct(target.size, target.align),
    }
}

/// What a `uoffset` of a union refers to whose type has this value, and whose targets are these. Only the contract
/// speaks of the schema and of the union.
#[inline(always)]
#[tactic(auto, using(crate::proofs::Members::goal_leads, crate::proofs::Members::goal_holds))]
pub fn referent_among(targets: Targets<'_>, schema: &Schema<'_>, union: u32, value: u8) -> Referent
    requires served { IsServed schema.now }
    requires union { IsTrue (is_union schema.now union) }
    requires targets { AreUnionTargets schema.now targets union }
    ensures lead { lead_to result ≡ lead_of schema.now (member_of schema.now union value) }
    ensures referent { IsReferent schema.now result }
{
    let _schema = schema;
    let _union = union;
    referent_to(targets.get(value))
}
