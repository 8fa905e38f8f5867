//! Laws of the definitions: each is the contract of a function that does nothing.

ghost use Rattle.fb_strict.specs.{Asked.DemandsLaw, Asked.FirstLaw, Asked.TasksLaw, Laws.AllTextsAreUtf8, Laws.HasOneStrictVerdict, Laws.HeldBuffersAreGood, Laws.NoFieldIsUnknown};
ghost use Rattle.fb_strict.specs.{Laws.StrictCostIsBounded, Laws.StrictIsOk, Laws.StrictReadsAreBounded, Laws.UnionsLeadInside, InOrder.ElementLaw, InOrder.InsideLaw};
ghost use Rattle.fb_strict.specs.{InOrder.LengthLaw, InOrder.SlotLaw, InOrder.TextLaw, InOrder.UnionLaw, InOrder.UnionsLaw, Nested.ComeToOneEnd, Nested.PlainLaw};
ghost use Rattle.fb_strict.specs.{Nested.GoodInside, Nested.GoodIsStrict, Readers.ElementsLaw, Readers.TablesLaw, Readers.ValuesLaw, Skipped.SkipLaw, Planned.OnePlanLaw};

/// A chain of tests finds nothing exactly where what is demanded holds.
#[tactic(auto, using(crate::proofs::Chains::inside_none, crate::proofs::Chains::union_none, crate::proofs::Chains::element_none, crate::proofs::Chains::text_none, crate::proofs::Chains::slot_none))]
pub fn chains_tell()
    ensures of_lengths { LengthLaw }
    ensures of_words { InsideLaw }
    ensures of_unions { UnionLaw }
    ensures of_elements { ElementLaw }
    ensures of_texts { TextLaw }
    ensures of_slots { SlotLaw }
{}

/// A vector of unions meets what is demanded exactly where the chains of it and of its `uoffset`s find nothing.
pub fn unions_are_told()
    ensures { UnionsLaw }
{}

/// A tree of an object of which nothing is asked is strict.
pub fn what_is_not_asked_is_strict()
    ensures { SkipLaw }
{}

/// A tree is strict exactly where each table in it is.
#[tactic(auto, using(crate::proofs::Reading::tables_met))]
pub fn tables_are_strict()
    ensures { TablesLaw }
{}

/// Two plans of a schema for the same demands are the same.
#[tactic(auto, using(crate::proofs::Marks::one_plan))]
pub fn one_plan()
    ensures { OnePlanLaw }
{}

/// Where unions are asked, in a strict buffer the value of a union whose type is 0 or unknown leads inside, wherever
/// its table stands, and so does a `uoffset` in a vector of unions whose type is unknown.
pub fn unknown_values_lead_inside()
    ensures values { ValuesLaw }
    ensures elements { ElementsLaw }
{}

/// All that is asked of a tree, one thing after another, finds nothing exactly where the tree is strict; and nothing is
/// the first fault exactly where all of it finds nothing, within the budget of reads.
pub fn demands_tell()
    ensures strict { DemandsLaw }
    ensures first { FirstLaw }
{}

/// A field without a task is asked nothing, nor is what it leads to.
pub fn tasks_are_all()
    ensures { TasksLaw }
{}

/// A strict ok is an ok: the walk alone reports no more tables, depth and reads.
pub fn strict_is_ok()
    ensures { StrictIsOk }
{}

/// In a buffer that is reported strictly where unions are asked, such values and `uoffset`s lead inside, wherever a
/// table of its tree stands.
pub fn unions_lead_inside()
    ensures { UnionsLeadInside }
{}

/// In a buffer that is reported strictly where texts are asked, each text of its tree is UTF-8.
pub fn texts_are_utf8()
    ensures { AllTextsAreUtf8 }
{}

/// In a buffer that is reported strictly where slots are asked, no table of its tree has a slot of no live field.
pub fn no_field_is_unknown()
    ensures { NoFieldIsUnknown }
{}

/// In a buffer that is reported strictly, wherever a table of its tree stands, the bytes of a field that holds a buffer
/// are a good buffer by themselves, with a root table of the object that the field's mark names; and a field that holds
/// a flexbuffer is absent. What a field holds is told by the plan.
pub fn held_buffers_are_good()
    ensures { HeldBuffersAreGood }
{}

/// At most one answer of `verify_strictly` applies to a question: one report, or one fault, and never one of each.
#[tactic(auto, using(crate::proofs::OneVerdict::one_verdict))]
pub fn one_strict_answer_applies()
    ensures { HasOneStrictVerdict }
{}

/// What is reported strictly costs at most `most_reads_strictly`, and a fault comes after at most so many reads.
pub fn strict_reads_are_bounded()
    ensures of_yes { StrictCostIsBounded }
    ensures of_no { StrictReadsAreBounded }
{}

/// What is asked of a buffer with those inside it comes to one end: so much is spent, or a fault is the first, to which
/// one way leads.
#[tactic(auto, using(crate::proofs::Nesting::come_to_one_end))]
pub fn demands_come_to_one_end()
    ensures { ComeToOneEnd }
{}

/// Where no buffer is inside, what is asked comes to what a pass over one buffer tells.
pub fn plain_demands_come_to_the_first()
    ensures { PlainLaw }
{}

/// Each buffer inside a good one is good by itself, and so on inwards; and its tree is strict.
pub fn buffers_inside_are_good()
    ensures inside { GoodInside }
    ensures strict { GoodIsStrict }
{}
