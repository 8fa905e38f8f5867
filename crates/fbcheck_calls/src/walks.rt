//! Steps from a spot on, in bytes that aren't checked: those of a buffer that was good before. Each position is tested
//! before it is read, so what became of the bytes doesn't matter.

ghost use Rattle.std.specs.Prelude.{◌<◌, ◌^◌, MatchOption, MatchResult, length};
ghost use Rattle.fb_access.specs.{Held.IsSpot, Tested.IsTested};
ghost use Rattle.fbcheck_calls.specs.Walks.{GoTo, IsToldAt, IsToldFrom, NoneFit};

use crate::steps::PlainStep;
use crate::values::{Value, placed, told_value};
use fb_access::{Changed, Spot, see, step_from};
use fb_bytes::Window;
use fb_schema::Schema;

/// Where these steps lead from a spot that was tested, which is tested too; none where they don't fit there.
///
/// # Errors
///
/// `Changed` where this is no spot of a good buffer.
#[inline(always)]
pub fn walk(
    window: &Window<'_>,
    schema: &Schema<'_>,
    from: Spot,
    steps: &[PlainStep],
) -> Result<Option<Spot>, Changed>
    requires short { length window.now < 2 ^ 31 }
    requires tested { IsTested window.now schema.now from }
    ensures { MatchResult result (λ o. MatchOption o (NoneFit schema.now from steps.now) (GoTo window.now schema.now from steps.now)) (λ _. IsSpot window.now schema.now from → ⊥) }
{
    schema.lawful();
    let mut spot = from;
    for given in steps {
        let Some(step) = given.step() else {
            return Ok(None);
        };
        match step_from(window, schema, spot, step)? {
            Some(to) => spot = to,
            None => return Ok(None),
        }
    }
    Ok(Some(spot))
}

/// What is told of the value at a spot that was tested.
///
/// # Errors
///
/// `Changed` where this is no spot of a good buffer.
#[inline(always)]
pub fn tell(window: &Window<'_>, schema: &Schema<'_>, spot: Spot) -> Result<Value, Changed>
    requires short { length window.now < 2 ^ 31 }
    requires tested { IsTested window.now schema.now spot }
    ensures { MatchResult result (IsToldAt window.now schema.now spot) (λ _. IsSpot window.now schema.now spot → ⊥) }
{
    let seen = see(window, schema, spot)?;
    Ok(placed(told_value(seen.answer), seen.extent))
}

/// What is told of the value at the end of these steps from a spot that was tested; none where they don't fit there.
///
/// # Errors
///
/// `Changed` where this is no spot of a good buffer.
#[inline(always)]
pub fn tell_from(
    window: &Window<'_>,
    schema: &Schema<'_>,
    from: Spot,
    steps: &[PlainStep],
) -> Result<Option<Value>, Changed>
    requires short { length window.now < 2 ^ 31 }
    requires tested { IsTested window.now schema.now from }
    ensures { MatchResult result (λ o. MatchOption o (NoneFit schema.now from steps.now) (IsToldFrom window.now schema.now from steps.now)) (λ _. IsSpot window.now schema.now from → ⊥) }
{
    match walk(window, schema, from, steps)? {
        Some(end) => Ok(Some(tell(window, schema, end)?)),
        None => Ok(None),
    }
}
