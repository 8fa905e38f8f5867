//! Laws of the cut of a stream into messages, which stand on its definition alone.

ghost use Rattle.fb_bytes.specs.Messages.{OneReading, SomeReading};

/// Two readings of one stream are one: the same messages, and the same rest.
pub fn one_reading()
    ensures { OneReading }
{}

/// Each stream has a reading: some messages, and a rest in which none is whole.
#[tactic(auto, using(crate::proofs::MessageLemmas::readings_some))]
pub fn some_reading()
    ensures { SomeReading }
{}
