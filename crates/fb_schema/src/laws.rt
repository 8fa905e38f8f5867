// What follows from the definitions alone. These functions have no body: their contracts are the theorems.

ghost use Rattle.std.specs.Prelude.{◌≡◌, ◌↔◌};
ghost use Rattle.fb_schema.specs.{Rows.Rows, Demands.IsLegal, Demands.IsFirstIllegal, declared.fault.SchemaFault.SchemaFault};

/// At most one fault is the first.
pub fn one_fault_is_first()
    ensures { (rows : Rows) (f g : SchemaFault) → IsFirstIllegal rows f → IsFirstIllegal rows g → f ≡ g }
{}

/// Rows are legal exactly where no fault is the first.
#[tactic(auto, using(crate::proofs::DemandLaws::no_first_if_legal, crate::proofs::Judged::legal_without_first))]
pub fn legal_where_none_is_first()
    ensures { (rows : Rows) → IsLegal rows ↔ ((f : SchemaFault) → IsFirstIllegal rows f → ⊥) }
{}
