//! Examples of the tests, each of which is asked of bytes that pass it, or fail it, beside the tests around it: each
//! is a clause of a function that does nothing.

ghost use Rattle.fb_rules.specs.Tests.{PrefixTests, IdentifierTests, OffsetTests, StartTests, HeadTests, StringTests, VectorTests};
ghost use Rattle.fb_rules.specs.Tests.{InlineTests, FieldTests, UnionTests, VectorFieldTests, UnionsFieldTests, ElementTests, LimitTests};

/// The start of a buffer: prefix, identifier, root offset, and their order.
#[tactic(auto, unfolding(crate::proofs::Shown::computing))]
pub fn starts()
    ensures prefixes { PrefixTests }
    ensures identifiers { IdentifierTests }
    ensures in_order { StartTests }
{}

/// The parts of a buffer.
#[tactic(auto, unfolding(crate::proofs::Shown::computing))]
pub fn parts()
    ensures offset_words { OffsetTests }
    ensures heads_of_tables { HeadTests }
    ensures strings { StringTests }
    ensures vectors { VectorTests }
    ensures scalars_and_structs { InlineTests }
{}

/// Fields by themselves, of every kind, and elements.
#[tactic(auto, unfolding(crate::proofs::Shown::computing))]
pub fn fields()
    ensures single_values { FieldTests }
    ensures unions { UnionTests }
    ensures vectors { VectorFieldTests }
    ensures vectors_of_unions { UnionsFieldTests }
    ensures elements { ElementTests }
{}

/// Limits of depth, tables and reads, beside what is asked before them and after them.
#[tactic(auto, unfolding(crate::proofs::Shown::computing))]
pub fn limits()
    ensures { LimitTests }
{}
