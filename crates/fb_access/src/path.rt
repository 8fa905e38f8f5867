// Paths: steps from a root table, written by names.

ghost use Rattle.std.specs.Prelude.{◌≡◌, ◌∷◌, ℕ, IfOk, IfErr, IfSome, IsTrue};
ghost use Rattle.fb_schema.specs.{declared.kinds.Kind.Kind, Rows.Rows, Rows.is_table};
ghost use Rattle.fb_access.specs.{Cutting.IsStuck, Fitting.StepsFit, Kept.IsThere, Resolving.IsFault, Resolving.Resolves, Resolving.Refuses, Resolving.fault_of};

use crate::misfit::{Misfit, fit};
use crate::path_fault::PathFault;
use crate::pieces::{Next, Piece, first_part, next_part, wrong_from};
use crate::step::Step;
use fb_schema::{Kind, Schema};
use std::alloc::{Allocator, Global};
use std::marker::Model;

/// The steps that a text names from a root table. Contracts see them as a list.
#[derive(Drop)]
pub struct Path<A: Allocator = Global> {
    steps: Vec<Step, A>,
}

impl<A: Allocator> Model for Path<A> {
    ghost use Rattle.std.specs.Prelude.{List};
    ghost use Rattle.fb_access.specs.declared.step.Step.{Step};

    ghost Value = { List Step };

    ghost view = { λ p. p.steps.items };
}

impl<A: Allocator> Path<A> {
    /// The path that a text names from the table `root`.
    ///
    /// The text is the name of a field, and then any number of `.name` (a field of a table or struct), `[n]` (an
    /// element of a vector or array) and `@Name` (the member of a union). A name is a letter or `_` and then letters,
    /// digits and `_`, all ASCII. n is `0`, or digits of which the first isn't `0`, and at most 4294967295. Only live
    /// fields can be named, and only members with values from 1 to 255.
    ///
    /// # Errors
    ///
    /// P1 where the text isn't of this grammar. Where it is, P2 to P6 for the first step that doesn't fit. P7 where
    /// memory was refused, in place of any.
    pub fn resolve(
        alloc: A,
        schema: &Schema<'_>,
        root: u32,
        text: &[u8],
    ) -> Result<Path<A>, PathFault>
        requires { IsTrue (is_table schema.now root) }
        ensures steps { IfOk result (λ p. Resolves schema.now root text.now p) }
        ensures fit { IfOk result (λ p. StepsFit schema.now (Kind.Table root) p) }
        ensures refused { IfErr result (λ f. Refuses schema.now root text.now f) }
    {
        let steps = follow(alloc, schema, root, text)?;
        Ok(Path { steps })
    }

    /// The steps, from the root on.
    pub fn steps(&self) -> &[Step]
        ensures { result.now ≡ self.now }
    {
        &self.steps
    }
}

/// The fault of the step of this number.
fn fault_at(misfit: Misfit, step: u64) -> PathFault
    ensures { result ≡ fault_of misfit step }
{
    match misfit {
        Misfit::NoSuchField => PathFault::NoSuchField { step },
        Misfit::NotIndexable => PathFault::NotIndexable { step },
        Misfit::NotAUnion => PathFault::NotAUnion { step },
        Misfit::NoSuchMember => PathFault::NoSuchMember { step },
        Misfit::NotATable => PathFault::NotATable { step },
    }
}

/// The fault of a text that is no path from these last bytes of it on.
#[tactic(auto, using(crate::proofs::Stuck::stuck_wrong, crate::proofs::Stuck::no_longer))]
fn bad_text(text: &[u8], bad: &[u8]) -> PathFault
    requires { IsStuck (46 ∷ text.now) bad.now }
    ensures { (rows : Rows) (root : ℕ) → IsFault rows root text.now result }
{
    PathFault::BadText {
        at: (text.len() - bad.len()) as u64,
    }
}

/// The steps that the parts of a path's text are from the root.
fn follow<A: Allocator>(
    alloc: A,
    schema: &Schema<'_>,
    root: u32,
    text: &[u8],
) -> Result<Vec<Step, A>, PathFault>
    requires { IsTrue (is_table schema.now root) }
    ensures steps { IfOk result (λ p. Resolves schema.now root text.now p.items) }
    ensures fit { IfOk result (λ p. StepsFit schema.now (Kind.Table root) p.items) }
    ensures refused { IfErr result (λ f. Refuses schema.now root text.now f) }
{
    schema.lawful();
    let mut steps = Vec::new(alloc);
    let mut kind = Kind::Table(root);
    let mut next = first_part(text);
    while let Next::Part(piece, rest) = next {
        match fit(schema, kind, piece) {
            Ok(fitted) => {
                let Ok(()) = steps.push(fitted.step) else {
                    return Err(PathFault::OutOfMemory);
                };
                kind = fitted.kind;
            }
            Err(misfit) => {
                return Err(match wrong_from(rest) {
                    Some(bad) => bad_text(text, bad),
                    None => fault_at(misfit, steps.len() as u64),
                });
            }
        }
        next = next_part(rest);
    }
    match next {
        Next::Wrong(bad) => Err(bad_text(text, bad)),
        _ => Ok(steps),
    }
}

/// Where a path's step doesn't fit.
#[derive(Clone, Copy)]
pub struct Missed<'t> {
    /// What is there.
    pub kind: Kind,
    /// The step in the path's text.
    pub piece: Piece<'t>,
    /// Why it is no step of this kind.
    pub misfit: Misfit,
}

/// Where the first step of a path's text doesn't fit, from the table `root` on; none where the text is no path, or each
/// step fits. So whoever tells of the fault can tell what there is. It takes no memory.
pub fn misfit_at<'t>(schema: &Schema<'_>, root: u32, text: &'t [u8]) -> Option<Missed<'t>>
    requires { IsTrue (is_table schema.now root) }
    ensures there { IfSome result (λ m. IsThere schema.now m.kind) }
    ensures fault { IfSome result (λ m. (step : ℕ) × IsFault schema.now root text.now (fault_of m.misfit step)) }
{
    schema.lawful();
    let mut kind = Kind::Table(root);
    let mut next = first_part(text);
    while let Next::Part(piece, rest) = next {
        let fitted = match fit(schema, kind, piece) {
            Ok(fitted) => fitted,
            Err(misfit) => {
                return match wrong_from(rest) {
                    Some(_) => None,
                    None => Some(Missed {
                        kind,
                        piece,
                        misfit,
                    }),
                };
            }
        };
        kind = fitted.kind;
        next = next_part(rest);
    }
    None
}
