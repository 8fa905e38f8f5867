//! What follows from the definitions of what is asked, of files one behind another and of texts alone. These functions
//! have no body: their contracts are the theorems.

ghost use Rattle.fbcheck_texts.specs.TextTests.{AskTexts, LoadTexts, RunTexts};
ghost use Rattle.fbcheck_serve.specs.{CheckLaws.AreStepsAsWritten, CheckLaws.AreNamesAsWritten, CheckLaws.AsksOnce, InputTests.Courses, InputTests.Finals, InputTests.Labels};
ghost use Rattle.fbcheck_serve.specs.{InputTests.Listed, StopTests.StopTexts};

/// A schema file, or none, and the settings ask at most one thing: that the buffers are checked by one job, or that
/// nothing is checked, for one cause: the file gives no schema, there is no root table, the
/// path isn't one from there, the schema's own identifier is asked for and has neither no bytes nor four, or strict
/// checks are asked for and the file doesn't show that it would mark a field of bytes, or marks one as a nested buffer
/// of no table. So [`check`](crate::check::check) tells each of these exactly where it is so, or want of memory in its
/// place.
#[tactic(auto, using(crate::proofs::OneAsk::asks_once))]
pub fn settings_ask_once()
    ensures { AsksOnce }
{}

/// A text that names a path has as many steps as the command line counts in it. So all paths that are asked for have at
/// most 1,024.
pub fn steps_are_as_written()
    ensures { AreStepsAsWritten }
{}

/// Names without a zero byte are read from a list as they stand there, each ended by one, which the last may lack.
#[tactic(auto, using(crate::proofs::NamesLemmas::names_as_written))]
pub fn names_are_as_written()
    ensures { AreNamesAsWritten }
{}

/// What two files come to, by example, which name stands in a line, which faults end it all, and which names a list has.
#[tactic(auto, using(crate::proofs::ShownInputs::courses_shown, crate::proofs::ShownInputs::finals_shown, crate::proofs::ShownInputs::labels_shown, crate::proofs::ShownInputs::listed_shown))]
pub fn files()
    ensures courses { Courses }
    ensures labels { Labels }
    ensures finals { Finals }
    ensures listed { Listed }
{}

/// The texts of faults, by example.
#[tactic(auto, using(fbcheck_texts::proofs::ShownTexts::run_texts_shown, fbcheck_texts::proofs::ShownTexts::load_texts_shown, fbcheck_texts::proofs::ShownTexts::ask_texts_shown, crate::proofs::ShownStops::stop_texts_shown))]
pub fn fault_texts()
    ensures run { RunTexts }
    ensures load { LoadTexts }
    ensures ask { AskTexts }
    ensures stop { StopTexts }
{}
