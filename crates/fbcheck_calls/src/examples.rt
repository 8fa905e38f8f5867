//! Examples of the definitions: each is a clause of a function that does nothing.

ghost use Rattle.fbcheck_calls.specs.Examples.{Paths, Pieces, Questions, Values, Verdicts};

/// What is told of an answer, and what options ask.
#[tactic(auto, using(crate::proofs::Shown::verdicts_shown))]
pub fn answers()
    ensures verdicts { Verdicts }
    ensures questions { Questions }
{}

/// The steps of a path, what is told of a value, and what is cut of a block, of a place and of a name.
#[tactic(auto, using(crate::proofs::Shown::values_shown))]
pub fn parts()
    ensures paths { Paths }
    ensures values { Values }
    ensures pieces { Pieces }
{}
