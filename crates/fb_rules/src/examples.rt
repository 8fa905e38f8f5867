//! Examples of the definitions: each is a clause of a function that does nothing.

ghost use Rattle.fb_rules.specs.Examples.{MonsterUnfolds, OneMemberUnfolds, TwoMembersUnfold, EveryKindUnfolds, OpenNameStops, NoNameStops, ThreeValuesStop, CrookedStructStops};
ghost use Rattle.fb_rules.specs.Examples.{SeventhTableStops, ThirdLevelStops, OddVtableStops, ShortTableStops, FirstReadStops, LastTextStops, SeventhHeadStops, LastFieldStops, BudgetsByLength};

/// Buffers with their trees, and the tables, depth and reads of these.
#[tactic(auto, using(crate::proofs::Shown::shown), unfolding(crate::proofs::Shown::computing))]
pub fn trees()
    ensures a_number_and_a_text { MonsterUnfolds }
    ensures a_union_of_a_table { OneMemberUnfolds }
    ensures unions_of_a_text_and_of_nothing { TwoMembersUnfold }
    ensures a_field_of_every_kind { EveryKindUnfolds }
{}

/// Buffers with their faults, and the trails that lead to these.
pub fn faults()
    ensures no_terminator { OpenNameStops }
    ensures a_zero_offset { NoNameStops }
    ensures lengths_differ { ThreeValuesStop }
    ensures a_struct_out_of_alignment { CrookedStructStops }
    ensures one_table_too_many { SeventhTableStops }
    ensures one_level_too_deep_before_one_table_too_many { ThirdLevelStops }
    ensures an_odd_vtable_size { OddVtableStops }
    ensures a_field_past_its_table { ShortTableStops }
    ensures too_many_reads_in_the_start { FirstReadStops }
    ensures too_many_reads_in_a_text { LastTextStops }
    ensures too_many_reads_in_a_head { SeventhHeadStops }
    ensures too_many_reads_in_a_field { LastFieldStops }
{}

/// How many reads buffers of some lengths may take.
pub fn budgets()
    ensures { BudgetsByLength }
{}
