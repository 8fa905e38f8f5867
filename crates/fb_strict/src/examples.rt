//! Examples of what is demanded, each a clause of a function that does nothing.

ghost use Rattle.fb_strict.specs.Examples.{FaultRows, HeldRows, LengthRows, LinkRows, PlanRows, SlotRows, TextRows, UnionRows, UnionsRows, WordRows};

/// Lengths, words that lead to what nobody knows, slots, unions, and vectors of them.
#[tactic(auto, unfolding(fb_rules::proofs::Shown::computing, crate::specs::InOrder::inside_failure, crate::specs::InOrder::element_failure))]
pub fn rows()
    ensures lengths { LengthRows }
    ensures words { WordRows }
    ensures slots { SlotRows }
    ensures single { UnionRows }
    ensures in_vectors { UnionsRows }
{}

/// Texts that are UTF-8, and texts that aren't.
#[tactic(auto, unfolding(fb_rules::proofs::Shown::computing))]
pub fn texts()
    ensures { TextRows }
{}

/// The tasks of tables with unions, of one that leads to such a table, and of those from which none is reached.
#[tactic(auto, unfolding(fb_rules::proofs::Shown::computing, crate::specs::Skipped::reaches_demand, crate::specs::Skipped::some_member))]
pub fn plans()
    ensures { PlanRows }
{}

/// First faults of a buffer with a union whose type is unknown.
#[tactic(auto, unfolding(fb_rules::proofs::Shown::computing, crate::specs::Skipped::reaches_demand, crate::specs::Asked::demands_in, crate::specs::Asked::first_fault, crate::specs::InOrder::inside_failure))]
pub fn first_faults()
    ensures { FaultRows }
{}

/// The links that lead to first faults.
#[tactic(auto, unfolding(fb_rules::proofs::Shown::computing, crate::specs::Skipped::reaches_demand, crate::specs::Asked::demands_in, crate::specs::Asked::first_links, crate::specs::InOrder::inside_failure, crate::specs::InOrder::element_failure, crate::specs::InOrder::element_reads))]
pub fn links()
    ensures { LinkRows }
{}

/// A buffer in the bytes of a field that holds one, and none where the field is absent.
#[tactic(auto, unfolding(fb_rules::proofs::Shown::computing, crate::specs::Skipped::reaches_demand, crate::specs::Asked::demands_in))]
pub fn buffers_inside()
    ensures { HeldRows }
{}
