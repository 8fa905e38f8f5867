//! The law of the links that lead to a fault, and examples of them. These functions have no body: their contracts are
//! the theorems.

ghost use Rattle.fb_rules.specs.{Laws.LinksEndInField, LinkExamples.LinksFound};

/// Where a fault names a field, the last of the links that lead to it is to this field of a table of the fault's
/// object: they don't end before it, nor is there none.
pub fn links_end_in_field()
    ensures { LinksEndInField }
{}

/// Faults with the links that lead to them: none at the start and at the root; one to a union's type and one to a
/// vector; and through a union to the third table of a vector: to its head, to a field of it, and where it is one too
/// many.
#[tactic(auto, using(crate::proofs::Shown::links_found))]
pub fn links_found()
    ensures { LinksFound }
{}
