//! What follows from the definitions of what is told alone. These functions have no body: their contracts are the
//! theorems.

ghost use Rattle.fb_schema.specs.Rows.{Rows};
ghost use Rattle.fb_run.specs.{FilterLaws.PassesAgain, JobTests.Buffers, JsonLaws.DefaultsReadBack, JsonLaws.FloatsReadBack, JsonLaws.NoReadsBack, JsonLaws.YesReadsBack};
ghost use Rattle.fb_run.specs.{JsonSums.Summaries, JsonTests.JsonLines, JsonTests.JsonTexts, JsonTests.JsonValues, LineTests.Lines, LineTests.Names, LineTests.Texts};
ghost use Rattle.fb_run.specs.{LineTests.Values, RejectLaws.RejectsPart, StrictLaws.StrictIsOk, declared.options.Options.Options};

/// The lines of some verdicts, how values of each kind and names are written, and texts at the bounds of what is
/// escaped.
#[tactic(auto, using(crate::proofs::Shown::lines_shown, crate::proofs::Shown::values_shown, crate::proofs::Shown::names_shown, crate::proofs::Shown::texts_shown))]
pub fn lines_by_example()
    ensures lines { Lines }
    ensures values { Values }
    ensures names { Names }
    ensures texts { Texts }
{}

/// Lines of JSON, how values of each kind stand in them, and texts: what is escaped, and what is no UTF-8. Lines of
/// sums.
#[tactic(auto, using(crate::proofs::ShownJson::lines_shown, crate::proofs::ShownJson::values_shown, crate::proofs::ShownJson::texts_shown, crate::proofs::ShownJson::summaries_shown))]
pub fn json_by_example()
    ensures lines { JsonLines }
    ensures values { JsonValues }
    ensures texts { JsonTexts }
    ensures sums { Summaries }
{}

/// Whoever reads a line of JSON by the grammar gets the object that it is, and of a float's number its very bits, also
/// where it is a default.
#[tactic(auto, using(crate::proofs::JsonReads::yes_reads, crate::proofs::JsonReads::no_reads, crate::proofs::RealLemmas::floats_read, crate::proofs::RealLemmas::defaults_read))]
pub fn json_reads_back()
    ensures yes { YesReadsBack }
    ensures no { NoReadsBack }
    ensures floats { FloatsReadBack }
    ensures defaults { DefaultsReadBack }
{}

/// The buffer in a message, and how it starts, by what its prefix is.
#[tactic(auto, using(crate::proofs::Shown::buffers_shown))]
pub fn buffers()
    ensures { (rows : Rows) (options : Options) → Buffers rows options }
{}

/// What a filter passes on of a stream is itself a stream of whole messages: it ends with one. A filter that checks it
/// the same way passes all of it on and notes nothing. So what reads behind a filter reads a stream of which each
/// message has a yes.
pub fn passed_on_passes_again()
    ensures { PassesAgain }
{}

/// Where bad messages are kept, each message that a filter tells of stands in one of both outputs, as it came and in the
/// order of the input: the good ones are passed on, and the bad ones are the rejects. Whatever else is told, the rejects
/// are the bad messages.
#[tactic(auto, using(crate::proofs::RejectLemmas::rejects_part))]
pub fn rejects_part_messages()
    ensures { RejectsPart }
{}

/// A buffer that is ok by a plan is ok without it, with the same values, tables and depth, in no more reads: to ask
/// more makes no bad buffer ok.
#[tactic(auto, using(crate::proofs::StrictLemmas::strict_is_ok))]
pub fn strict_is_ok()
    ensures { StrictIsOk }
{}
