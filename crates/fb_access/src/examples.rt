//! Examples of the definitions: each is a clause of a function that does nothing.

ghost use Rattle.fb_access.specs.{PathTests.Words, PathTests.Spellings, PathTests.Resolved, PathTests.Unfit, LocationTests.Told, LocationTests.Nameless, LocationTests.Enclosed};
ghost use Rattle.fb_access.specs.{LocationTests.Masked, LocationTests.Ways, LocationTests.Long, Examples.SampleUnfolds, Examples.FieldValues, Examples.ElementValues};
ghost use Rattle.fb_access.specs.Examples.{PartValues, MemberValues, ScalarValues, DefaultValues, NearestSingles, StayingValues, LackingFields, PrefixedValues, InsideValues};

/// A buffer with a field of each kind is good, and what paths denote in it.
#[tactic(auto, using(crate::proofs::Shown::field_values, crate::proofs::Shown::element_values, crate::proofs::Shown::part_values, crate::proofs::Shown::member_values, crate::proofs::Shown::scalar_values, crate::proofs::Shown::default_values, crate::proofs::Shown::nearest_singles, crate::proofs::Shown::staying_values, crate::proofs::Shown::lacking_fields, crate::proofs::ShownTree::sample_unfolds))]
pub fn values()
    ensures good { SampleUnfolds }
    ensures fields { FieldValues }
    ensures elements { ElementValues }
    ensures parts { PartValues }
    ensures members { MemberValues }
    ensures scalars { ScalarValues }
    ensures defaults { DefaultValues }
    ensures singles { NearestSingles }
    ensures nothing_stays { StayingValues }
    ensures no_such_fields { LackingFields }
{}

/// What paths denote behind a prefix.
#[tactic(auto, using(crate::proofs::Shown::prefixed_values))]
pub fn values_behind_a_prefix()
    ensures { PrefixedValues }
{}

/// What lies in a buffer, and what doesn't: a text with the byte behind it, and the `uoffset` of a union.
#[tactic(auto, using(crate::proofs::Shown::inside_values))]
pub fn inside()
    ensures { InsideValues }
{}

/// Texts of paths: names and numbers at their bounds, how parts are written, and what a text resolves to, or why not.
#[tactic(auto, using(crate::proofs::ShownPaths::words_shown, crate::proofs::ShownPaths::spellings_shown, crate::proofs::ShownPaths::resolved_shown, crate::proofs::ShownPaths::unfit_shown))]
pub fn paths()
    ensures words { Words }
    ensures spellings { Spellings }
    ensures resolved { Resolved }
    ensures unfit { Unfit }
{}

/// Where faults are, in words: at the root, in a field, an element and a member, in what has no name, inside a field of
/// bytes, and in what has a name that would forge a line; where those are of which `fb_rules::link_laws::links_found`
/// tells the links; and of a place that is too long its front.
#[tactic(auto, using(crate::proofs::ShownLocations::told_shown, crate::proofs::ShownLocations::nameless_shown, crate::proofs::ShownLocations::enclosed_shown, crate::proofs::ShownLocations::masked_shown, crate::proofs::ShownLocations::ways_shown, crate::proofs::ShownLocations::long_shown))]
pub fn locations()
    ensures told { Told }
    ensures nameless { Nameless }
    ensures enclosed { Enclosed }
    ensures masked { Masked }
    ensures ways { Ways }
    ensures long { Long }
{}
