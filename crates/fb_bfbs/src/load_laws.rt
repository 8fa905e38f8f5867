// What follows from the definitions of schema files alone. These functions have no body: their contracts are the
// theorems.

ghost use Rattle.fb_bfbs.specs.{LoadLaws.DescribesOnce, LoadLaws.HasOneAnswer, Marks.MarksOnce};

/// A schema file describes at most one list of rows.
pub fn a_file_describes_once()
    ensures { DescribesOnce }
{}

/// At most one answer applies to bytes: what is loaded of them, or one fault of L1, L2, L3, L5 and
/// L6. So `load`, whose
/// answers apply wherever they aren't L4, gives each exactly where it applies.
#[tactic(auto, using(crate::proofs::OneLoad::one_answer))]
pub fn one_answer_applies()
    ensures { HasOneAnswer }
{}

/// A schema file says at most one list of marks, and tells one thing of built-in attributes.
pub fn a_file_marks_once()
    ensures { MarksOnce }
{}
