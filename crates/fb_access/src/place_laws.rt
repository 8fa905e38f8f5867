// What follows from the definitions of paths and values alone. These functions have no body: their contracts are the
// theorems.

ghost use Rattle.fb_access.specs.PlaceLaws.{LeadsWhereAllowed, HasOneValue};

/// A step leads on from a spot exactly where it is allowed there, whatever the bytes are.
#[tactic(auto, using(crate::proofs::StepKinds::leads_where_allowed))]
pub fn leads_where_allowed()
    ensures { LeadsWhereAllowed }
{}

/// Steps from the root table of a buffer denote at most one value.
pub fn a_path_has_one_value()
    ensures { HasOneValue }
{}
