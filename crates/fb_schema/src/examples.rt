//! Examples of the definitions: each is a clause of a function that does nothing.

ghost use Rattle.fb_schema.specs.{Examples.Demanded, Examples.Firsts, LookUps.KindFields, LookUps.UnionMembers};

/// Rows that break one demand, and rows that are legal.
#[tactic(auto, using(crate::proofs::Shown::demands_shown))]
pub fn demands()
    ensures { Demanded }
{}

/// Rows that break two demands, in two places: the first of both.
#[tactic(auto, using(crate::proofs::Shown::firsts_shown))]
pub fn order()
    ensures { Firsts }
{}

/// What is looked up in rows: live fields, and members.
#[tactic(auto, using(crate::proofs::Shown::look_ups_shown))]
pub fn look_ups()
    ensures kinds { KindFields }
    ensures members { UnionMembers }
{}
