// A place in a verified buffer.

ghost use Rattle.std.specs.Prelude.{◌≡◌, ℕ, ◌+◌, ◌*◌, ◌≤◌, length, IfSome, IsTrue};
ghost use Rattle.fb_schema.specs.declared.kinds.Kind.TheVariants.{Table as TableKind, Tables};
ghost use Rattle.fb_rules.specs.WellFormed.{base};
ghost use Rattle.fb_access.specs.{Fitting.StepsFit, Extents.extent, Denotes.Leads, Denotes.allows, Denotes.next_spot, Denotes.root_spot, Denotes.Denotes, Denotes.value};
ghost use Rattle.fb_access.specs.{Denotes.shown, Denotes.vector, Here.KindsGoOn, Here.HereGoesOn, Here.IsNarrow, Here.IsHere, Known.HasKnown, Held.IsPlaced, Tested.IsSeen};
ghost use Rattle.fb_access.specs.declared.step.Step.TheVariants.{Field};

use crate::answer::Answer;
use crate::extent::Extent;
use crate::field::{known_spot, target_of};
use crate::known::KnownField;
use crate::path::Path;
use crate::spot::Spot;
use crate::step::Step;
use crate::tested_next::next_spot;
use crate::tested_value::{Seen, see};
use fb_verify::{Start, Verified};
use std::alloc::Allocator;
use std::marker::Model;

/// A place in a verified buffer: what is there, and where it stands.
///
/// A contract sees it as what was verified and a spot. It lends the verified buffer; its answers lend the bytes alone.
#[derive(Drop)]
pub struct Place<'v, 'b, 's, 'n> {
    verified: &'v Verified<'b, 's, 'n>,
    spot: Spot,
}

impl<'v, 'b, 's, 'n> Model for Place<'v, 'b, 's, 'n> {
    ghost use Rattle.fb_access.specs.Held.{Placed, IsPlaced};

    ghost Value = { Placed };

    ghost view = { λ p. record { sealed = p.verified.now; spot = p.spot } };

    ghost invariant = { λ p. IsPlaced (record { sealed = p.verified.now; spot = p.spot }) };
}

/// Where the root offset stands in a buffer that begins so.
pub fn base_of(start: Start) -> u64
    ensures { result ≡ base start }
{
    match start {
        Start::Bare => 0,
        Start::Prefixed => 4,
    }
}

/// The root table of a verified buffer.
#[tactic(auto, using(crate::proofs::Walks::root_placed))]
pub fn at_root<'v, 'b, 's, 'n>(verified: &'v Verified<'b, 's, 'n>) -> Place<'v, 'b, 's, 'n>
    ensures { result ≡ record { sealed = verified.now; spot = root_spot (verified.now).bytes (verified.now).start (verified.now).root } }
{
    let at = target_of(verified.window(), base_of(verified.start()));
    Place {
        verified,
        spot: Spot::AtTable(verified.root(), at),
    }
}

impl<'v, 'b, 's, 'n> Place<'v, 'b, 's, 'n> {
    /// The spot to which a step leads from here, none where what is here has no such step.
    #[inline(always)]
    fn next(&self, step: Step) -> Option<Spot>
        ensures { result ≡ next_spot ((self.now).sealed).bytes ((self.now).sealed).schema (self.now).spot step }
    {
        match next_spot(
            self.verified.window(),
            self.verified.schema(),
            self.spot,
            step,
        ) {
            Ok(led) => led,
            Err(_) => unreachable!(),
        }
    }

    /// What is here, and where its bytes stand.
    #[inline(always)]
    fn see(&self) -> Seen<'b>
        ensures seen { IsSeen ((self.now).sealed).bytes ((self.now).sealed).schema (self.now).spot result }
        ensures placed { IsPlaced self.now }
    {
        match see(self.verified.window(), self.verified.schema(), self.spot) {
            Ok(seen) => seen,
            Err(_) => unreachable!(),
        }
    }

    /// Whether what is here has this step: a table its live fields, a vector every element's number, a union the
    /// members of its enum. Where nothing is, every step is allowed.
    pub fn allows(&self, step: Step) -> bool
        ensures { result ≡ allows ((self.now).sealed).schema (self.now).spot step }
    {
        self.next(step).is_some()
    }

    /// One step on. An absent field without a default, an element past the count and a member of another type lead to
    /// where nothing is; from there every step leads to the same.
    #[inline(always)]
    pub fn go(&self, step: Step) -> Self
        requires { IsTrue (allows ((self.now).sealed).schema (self.now).spot step) }
        ensures same { result.sealed ≡ (self.now).sealed }
        ensures leads { Leads ((self.now).sealed).bytes ((self.now).sealed).schema (self.now).spot step result.spot }
        // For who knows the schema: from a spot of a kind it leads to one of the next kind, and to a field that is
        // required or has a default it leads for certain.
        ensures kinds { KindsGoOn ((self.now).sealed).schema (self.now).spot step result.spot }
        ensures here { HereGoesOn ((self.now).sealed).schema (self.now).spot step result.spot }
    {
        let verified = self.verified;
        verified.schema().lawful();
        match self.next(step) {
            Some(spot) => Place { verified, spot },
            None => unreachable!(),
        }
    }

    /// To a field of a table of which this is known: where [`Place::go`] leads, without a look-up.
    #[inline(always)]
    pub fn go_to(&self, field: KnownField) -> Self
        requires { HasKnown ((self.now).sealed).schema (self.now).spot field }
        ensures same { result.sealed ≡ (self.now).sealed }
        ensures leads { Leads ((self.now).sealed).bytes ((self.now).sealed).schema (self.now).spot (Field field.number) result.spot }
        ensures kinds { KindsGoOn ((self.now).sealed).schema (self.now).spot (Field field.number) result.spot }
        ensures here { HereGoesOn ((self.now).sealed).schema (self.now).spot (Field field.number) result.spot }
    {
        let verified = self.verified;
        verified.schema().lawful();
        match self.spot {
            Spot::AtTable(_, at) => Place {
                verified,
                spot: known_spot(verified.window(), at, field),
            },
            _ => unreachable!(),
        }
    }

    /// What is here.
    #[inline(always)]
    pub fn answer(&self) -> Answer<'b>
        ensures shown { shown result ≡ value ((self.now).sealed).bytes ((self.now).sealed).schema (self.now).spot }
        // A number fits its scalar, and a float has as many bytes.
        ensures narrow { IsNarrow (self.now).spot result }
        // There are no more tables in a vector than their `uoffset`s have room.
        ensures tables { (k n : ℕ) → IsHere (self.now).spot (Tables k) → shown result ≡ vector n → 4 * n ≤ length ((self.now).sealed).bytes }
    {
        self.see().answer
    }

    /// Where the bytes of what is here stand in the buffer: of a float, a string, a struct, and of the elements of a
    /// vector of scalars or structs. Nothing else has bytes of its own.
    pub fn extent(&self) -> Option<Extent>
        ensures value { result ≡ extent ((self.now).sealed).bytes ((self.now).sealed).schema (self.now).spot }
        ensures within { IfSome result (λ e. e.at + e.size ≤ length ((self.now).sealed).bytes) }
    {
        self.see().extent
    }
}

/// What a path leads to in a verified buffer.
///
/// The path must fit the schema and the root of the verification, as [`Path::resolve`] gives it for both.
pub fn get<'b, A: Allocator>(verified: &Verified<'b, '_, '_>, path: &Path<A>) -> Answer<'b>
    requires { StepsFit (verified.now).schema (TableKind (verified.now).root) path.now }
    ensures { Denotes (verified.now).bytes (verified.now).schema (verified.now).start (verified.now).root path.now (shown result) }
{
    let mut place = at_root(verified);
    for step in path.steps() {
        place = place.go(*step);
    }
    place.answer()
}
