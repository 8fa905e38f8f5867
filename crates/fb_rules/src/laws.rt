//! Laws of the definitions: each is the contract of a function that does nothing.

ghost use Rattle.fb_rules.specs.Laws.{StartLaw, HeadLaw, OffsetLaw, StringLaw, VectorLaw, InlineLaw, FieldLaw, ElementLaw, IdentifierLaw, HasOneTree};
ghost use Rattle.fb_rules.specs.Laws.{StopsOnlyAtLimits, StopsOnce, LeadsOneWay, StopsNowhereWithin, CostIsBounded, ReadsAreBounded, HasOneVerdict, LengthAllows};
ghost use Rattle.fb_rules.specs.TrueReasons.{StopsTruly, TablesRunOut};

/// The chain of a `uoffset`'s tests finds nothing exactly where the facts of one hold.
#[tactic(auto, using(crate::proofs::Chains::offset_none))]
pub fn offset_is_told()
    ensures { OffsetLaw }
{}

/// The same of a buffer's start.
#[tactic(auto, using(crate::proofs::Chains::start_none))]
pub fn start_is_told()
    ensures { StartLaw }
{}

/// The same of a table's head.
#[tactic(auto, using(crate::proofs::Chains::head_none))]
pub fn head_is_told()
    ensures { HeadLaw }
{}

/// The same of a string.
#[tactic(auto, using(crate::proofs::Chains::string_none))]
pub fn string_is_told()
    ensures { StringLaw }
{}

/// The same of a vector.
#[tactic(auto, using(crate::proofs::Chains::vector_none))]
pub fn vector_is_told()
    ensures { VectorLaw }
{}

/// The same of a scalar or struct.
#[tactic(auto, using(crate::proofs::Chains::inline_none))]
pub fn inline_is_told()
    ensures { InlineLaw }
{}

/// The same of a field by itself, of any kind, present or absent.
#[tactic(auto, using(crate::proofs::Chains::own_none))]
pub fn field_is_told()
    ensures { FieldLaw }
{}

/// The same of an element of a field, but for the table that it may lead to.
#[tactic(auto, using(crate::proofs::Chains::element_none))]
pub fn element_is_told()
    ensures { ElementLaw }
{}

/// An identifier is compared as one number, which says of bytes that all four are the same.
#[tactic(auto, unfolding(fb_bytes::specs::Word::word))]
pub fn identifier_is_four_bytes()
    ensures { IdentifierLaw }
{}

/// A buffer has at most one tree for an object and a position.
#[tactic(auto, using(crate::proofs::Overruns::one_tree))]
pub fn one_tree()
    ensures { HasOneTree }
{}

/// Where a table has a tree, a trail from it stops only at a limit, and the tree is past that limit.
#[tactic(auto, using(crate::proofs::Overruns::overruns))]
pub fn stops_only_at_limits()
    ensures { StopsOnlyAtLimits }
{}

/// At most one fault is the first.
pub fn stops_once()
    ensures { StopsOnce }
{}

/// At most one row of links leads to it.
pub fn leads_one_way()
    ensures { LeadsOneWay }
{}

/// None is, where a tree is well formed and within the limits.
pub fn stops_nowhere_within()
    ensures { StopsNowhereWithin }
{}

/// A tree that is well formed and within the limits costs at most `most_reads`.
#[tactic(auto, using(crate::proofs::Price::cost_is_bounded))]
pub fn cost_is_bounded()
    ensures { CostIsBounded }
{}

/// The first fault comes after at most `most_reads` reads.
pub fn reads_are_bounded()
    ensures { ReadsAreBounded }
{}

/// At most one answer applies to a question: one report, or one fault, and never one of each. So `walk`, whose
/// answers apply, gives what `verify` gives.
#[tactic(auto, using(crate::proofs::OneFault::one_verdict))]
pub fn one_answer_applies()
    ensures { HasOneVerdict }
{}

/// Where a buffer stops, the reason is true: what it says is false is false at the position that the fault names, and
/// that is where something is asked at the start, or at a table that is reached from the root.
#[tactic(auto, using(crate::proofs::TrueFaults::stops_truly))]
pub fn stops_truly()
    ensures { StopsTruly }
{}

/// Where it stops since too many tables were opened, as many as are allowed were opened before.
#[tactic(auto, using(crate::proofs::TrueFaults::tables_run_out))]
pub fn tables_run_out()
    ensures { TablesRunOut }
{}

/// The limits of a length allow what both allow, the limits and the length.
pub fn length_allows()
    ensures { LengthAllows }
{}
