//! What the probe is asked for.

ghost use Rattle.std.specs.Prelude.{◌≡◌, ◌↔◌, Some, codes};
ghost use Rattle.test_probe.specs.declared.mode.Mode.TheVariants.{List as AList, BuiltIn as TheBuiltIn, Marks as ItsMarks, Calls as SomeCalls};

/// What the probe is asked for.
#[derive(Clone, Copy)]
pub enum Mode {
    /// A listing of what a schema file describes.
    List,
    /// A listing of the table of schema files that is built in.
    BuiltIn,
    /// The marks of a schema file.
    Marks,
    /// The answer of each call that takes memory.
    Calls,
}

/// The mode that a word names.
pub fn mode_of(word: &str) -> Option<Mode>
    ensures list { (result ≡ Some AList) ↔ (word.now ≡ codes "list") }
    ensures built_in { (result ≡ Some TheBuiltIn) ↔ (word.now ≡ codes "built-in") }
    ensures marks { (result ≡ Some ItsMarks) ↔ (word.now ≡ codes "marks") }
    ensures calls { (result ≡ Some SomeCalls) ↔ (word.now ≡ codes "calls") }
{
    match word {
        "list" => Some(Mode::List),
        "built-in" => Some(Mode::BuiltIn),
        "marks" => Some(Mode::Marks),
        "calls" => Some(Mode::Calls),
        _ => None,
    }
}
