//! The laws that tie steps to what the verifier checks. These functions have no body: their contracts are the
//! theorems.

ghost use Rattle.fb_access.specs.Inside.{ValuesLieInside};
ghost use Rattle.fb_access.specs.StepLaws.{ElementsFillExtents, FieldsStandInPlace, StepsFollowEntries, NoOtherElements, MembersFollowLeads, ElementsStandInRow};

/// A field step leads to where the verifier's `field_place` says that the field stands, to a value of its kind; and
/// to no place in the buffer where it says that the field is absent.
#[tactic(auto, using(crate::proofs::StepLaws::fields_stand_in_place))]
pub fn fields_stand_in_place()
    ensures { FieldsStandInPlace }
{}

/// Of the `uoffset`s by which a field leads on, as the verifier follows them (`entries`), each is where the steps
/// to it lead.
#[tactic(auto, using(crate::proofs::StepLaws::steps_follow_entries))]
pub fn steps_follow_entries()
    ensures { StepsFollowEntries }
{}

/// An element step from a vector of strings, tables or unions leads to nothing where the verifier follows no offset
/// word.
#[tactic(auto, using(crate::proofs::StepLaws::no_other_elements))]
pub fn no_other_elements()
    ensures { NoOtherElements }
{}

/// A member step leads to what the verifier finds behind the union's `uoffset`, and from a union of another type to
/// nothing.
#[tactic(auto, using(crate::proofs::StepLaws::members_follow_leads))]
pub fn members_follow_leads()
    ensures { MembersFollowLeads }
{}

/// Elements of a vector of scalars or structs stand one after another behind the count, each of the size by which the
/// verifier found that the vector lies in the buffer.
#[tactic(auto, using(crate::proofs::StepLaws::elements_stand_in_row))]
pub fn elements_stand_in_row()
    ensures { ElementsStandInRow }
{}

/// The extent of a vector or array of scalars or structs is that of its elements, one after another; a vector of
/// strings, tables or unions, whose elements stand behind `uoffset`s, has none.
#[tactic(auto, using(crate::proofs::ExtentLaws::elements_fill_extents))]
pub fn elements_fill_extents()
    ensures { ElementsFillExtents }
{}

/// The root offset of a buffer that was verified lies in it, and so does whatever steps lead to: a table with its
/// vtable and the words by which its fields lead on, anything else with its count and all its elements. So a reader
/// who goes by the schema from the root offset, and reads what is there, reads nothing outside. The rows are to be such
/// as serve, and each schema's are, by the clause `served` of `Schema::lawful`.
#[tactic(auto, using(crate::proofs::Staying::values_lie_inside))]
pub fn values_lie_inside()
    ensures { ValuesLieInside }
{}
