//! The laws that tie what is told of a fault to the paths of the grammar, and to where they lead. These functions have
//! no body: their contracts are the theorems.

ghost use Rattle.fb_access.specs.LocationLaws.{WaysResolve, LinksArrive};

/// Where the names of links are of the grammar, dots stand between them, and their parts (each link's field, element
/// and member by the names that are told) follow one another from the root table, the text of their way is a path: it
/// resolves to the same steps.
#[tactic(auto, using(crate::proofs::Ways::ways_resolve))]
pub fn ways_resolve()
    ensures { WaysResolve }
{}

/// The parts of the links that lead to a fault follow one another from the root table by the names of the schema, with
/// dots between the links, so that the path that is told is one that leads somewhere; and in the buffer its steps lead
/// to what is under check there: to the table in whose head the fault is, to the field, or to what the field's offset
/// word leads to. A fault at the start is at that of the question, before the root table. The rows are to be legal and
/// such as serve, and each schema's are, by the clauses `legal` and `served` of `Schema::lawful`.
#[tactic(auto, using(crate::proofs::Arriving::links_arrive))]
pub fn links_arrive()
    ensures { LinksArrive }
{}
