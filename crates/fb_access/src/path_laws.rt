//! What follows from the definitions of paths alone. These functions have no body: their contracts are the theorems.

ghost use Rattle.std.specs.Prelude.{◌≡◌, ℕ, List, Result};
ghost use Rattle.fb_schema.specs.Rows.{Rows};
ghost use Rattle.fb_access.specs.{declared.path_fault.PathFault.PathFault, declared.step.Step.Step, Grammar.Part, Grammar.IsReading, Resolving.IsAnswer, Resolving.PartsAreNamed};

/// A text is a name and parts in one way at most.
pub fn text_has_one_reading()
    ensures { (text : List ℕ) (name other : List ℕ) (parts others : List Part) → IsReading text name parts → IsReading text other others → (name ≡ other) × (parts ≡ others) }
{}

/// At most one answer applies to a text: one list of steps, or one fault of P1 to P6.
#[tactic(auto, using(crate::proofs::OneAnswer::one_answer))]
pub fn one_answer_applies()
    ensures { (rows : Rows) (root : ℕ) (text : List ℕ) (a b : Result (List Step) PathFault) → IsAnswer rows root text a → IsAnswer rows root text b → a ≡ b }
{}

/// And one applies.
#[tactic(auto, using(crate::proofs::SomeAnswer::some_answer))]
pub fn some_answer_applies()
    ensures { (rows : Rows) (root : ℕ) (text : List ℕ) → (answer : Result (List Step) PathFault) × IsAnswer rows root text answer }
{}

/// Each field of a struct that has a name is a step by that name, but for those from the 65,537th on.
#[tactic(auto, using(std::proofs::lemmas::Bool::Decides::nat_tests))]
pub fn parts_are_named()
    ensures { PartsAreNamed }
{}
