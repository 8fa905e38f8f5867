//! What follows from the definitions of answers alone. These functions have no body: their contracts are the theorems.

ghost use Rattle.fbcheck_calls.specs.{Again.GoodStaysRead, Again.ValuesAreOne, Each.GoodStaysReadOfEach, Each.MarkedPathsServe};
ghost use Rattle.fbcheck_calls.specs.AnswerLaws.{BadGetsNo, DemandsArePlanned, GoodGetsYes, LongGetsItsNumber, PlainIsPlain, ValuesStand};
ghost use Rattle.fbcheck_calls.specs.Names.{FaultsHaveTheirNames, StatusesHaveWords};

/// Where the schema, the room and the options can serve a buffer of less than 2^31 bytes, and it is as they ask, the
/// answer is 0.
#[tactic(auto, using(crate::proofs::AnswerLemmas::good_gets_yes))]
pub fn a_good_buffer_gets_a_yes()
    ensures { GoodGetsYes }
{}

/// Where they can, and it isn't as they ask, the answer is 1.
#[tactic(auto, using(crate::proofs::AnswerLemmas::bad_gets_no))]
pub fn a_bad_buffer_gets_a_no()
    ensures { BadGetsNo }
{}

/// Where they can, and it has more bytes, the answer is 7.
#[tactic(auto, using(crate::proofs::AnswerLemmas::long_gets_its_number))]
pub fn a_long_buffer_gets_its_number()
    ensures { LongGetsItsNumber }
{}

/// Without demands a check is by no plan, whatever the schema was made with; with demands it is by a plan, which the
/// schema has for the same ones.
#[tactic(auto, using(crate::proofs::AnswerLemmas::plain_is_plain, crate::proofs::AnswerLemmas::demands_are_planned))]
pub fn a_plan_is_asked_for()
    ensures plain { PlainIsPlain }
    ensures planned { DemandsArePlanned }
{}

/// The bytes that are told of a float, a string and a struct are its value, those of a vector or array of scalars or
/// structs its elements, one after another; what has no bytes of its own is told none.
#[tactic(auto, using(crate::proofs::StandLemmas::stands))]
pub fn a_value_stands_where_told()
    ensures { ValuesStand }
{}

/// Of bytes that a check said are good, no read without a check says that they aren't.
#[tactic(auto, using(crate::proofs::AgainLemmas::good_stays_read))]
pub fn good_bytes_stay_readable()
    ensures { GoodStaysRead }
{}

/// Nor does a read of each element.
pub fn good_bytes_stay_readable_by_elements()
    ensures { GoodStaysReadOfEach }
{}

/// The path of a text that has `[*]` serves to read each element.
pub fn a_marked_path_serves()
    ensures { MarkedPathsServe }
{}

/// All who tell the value at the end of a path tell the same.
#[tactic(auto, using(crate::proofs::AgainLemmas::values_are_one))]
pub fn a_path_has_one_value()
    ensures { ValuesAreOne }
{}

/// The status and the number that are told of an answer have the code and name of its own fault, and of no other.
#[tactic(auto, using(crate::proofs::FaultNames::its_name))]
pub fn a_fault_has_its_name()
    ensures { FaultsHaveTheirNames }
{}

/// Each answer is told by a status that says something in words.
#[tactic(auto, using(crate::proofs::StatusWords::has_words))]
pub fn a_status_has_words()
    ensures { StatusesHaveWords }
{}
