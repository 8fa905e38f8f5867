//! The values of the elements of a vector in bytes that aren't checked: those of a buffer that was good before. The way
//! to the vector is gone once, and from there that to each element.

ghost use Rattle.std.specs.Prelude.{◌≡◌, ◌+◌, ◌-◌, ◌<◌, ◌≤◌, ◌∷◌, ◌^◌, ℕ, MatchOption, MatchResult, length};
ghost use Rattle.fb_access.specs.{Denotes.shown, Held.IsSpot, Tested.IsOther, Tested.IsTested};
ghost use Rattle.fbcheck_calls.specs.{Again.AreFilled, Each.AreElementsTold, Each.FitsEach, Each.IsCountTold, Each.IsReadOfEachBy, Each.elements_of, Each.to_element};
ghost use Rattle.fbcheck_calls.specs.{Steps.FitHere, Values.value_told, Walks.DontBegin, Walks.IsElementTold, Walks.IsVector};

use crate::checking::metered;
use crate::fits::fits_each;
use crate::held::Held;
use crate::options::{LONGEST, Options};
use crate::outcome::Outcome;
use crate::steps::{PlainPath, PlainStep};
use crate::values::Value;
use crate::walks::{tell_from, walk};
use fb_access::{Answer, Changed, Spot, Step, first_spot, see, step_from};
use fb_bytes::Window;
use fb_schema::Schema;
use fb_verify::Start;

/// A vector or array that was found, or nothing in its place.
#[derive(Clone, Copy)]
pub struct Found {
    /// Where it is; this was tested.
    pub spot: Spot,
    /// How many elements it has.
    pub elements: u32,
}

/// How many elements a value has, none where it is no vector and no array.
fn elements_of(found: Answer<'_>) -> u32
    ensures { result ≡ elements_of (value_told (shown found.entry)) }
{
    match found {
        Answer::Vector(count) => count,
        _ => 0,
    }
}

/// What stands at the end of these steps from the root table, with its elements; none where they don't fit.
///
/// # Errors
///
/// `Changed` where these aren't the bytes of a good buffer.
fn find(
    window: &Window<'_>,
    schema: &Schema<'_>,
    start: Start,
    root: u32,
    before: &[PlainStep],
) -> Result<Option<Found>, Changed>
    requires { length window.now < 2 ^ 31 }
    ensures { MatchResult result (λ o. MatchOption o (DontBegin schema.now root before.now) (λ f. IsVector window.now schema.now start root before.now f.spot f.elements))
        (λ _. IsOther window.now schema.now start root) }
{
    let first = first_spot(window, schema, start, root)?;
    let Some(spot) = walk(window, schema, first, before)? else {
        return Ok(None);
    };
    let seen = see(window, schema, spot)?;
    let elements = elements_of(seen.answer);
    Ok(Some(Found { spot, elements }))
}

/// What is told of an element of what is at a spot that was tested, at the end of these steps from the element on; none
/// where they don't fit.
///
/// # Errors
///
/// `Changed` where this is no spot of a good buffer.
fn element_told(
    window: &Window<'_>,
    schema: &Schema<'_>,
    spot: Spot,
    number: u32,
    after: &[PlainStep],
) -> Result<Option<Value>, Changed>
    requires short { length window.now < 2 ^ 31 }
    requires tested { IsTested window.now schema.now spot }
    ensures { MatchResult result (λ o. MatchOption o (FitHere schema.now spot (to_element number ∷ after.now) → ⊥) (IsElementTold window.now schema.now spot after.now number))
        (λ _. IsSpot window.now schema.now spot → ⊥) }
{
    schema.lawful();
    let Some(element) = step_from(window, schema, spot, Step::Element(number))? else {
        return Ok(None);
    };
    tell_from(window, schema, element, after)
}

/// Tells the elements of what is at a spot that was tested, from this one on, each at its place, as far as there is room.
///
/// # Errors
///
/// The place of the first element on the way from which it shows that this is no spot of a good buffer. The values from
/// there on are left alone.
fn tell_elements(
    window: &Window<'_>,
    schema: &Schema<'_>,
    found: Found,
    first: usize,
    after: &[PlainStep],
    values: &mut [Value],
) -> Result<(), u64>
    requires short { length window.now < 2 ^ 31 }
    requires tested { IsTested window.now schema.now found.spot }
    requires fit { (j : ℕ) → FitHere schema.now found.spot (to_element j ∷ after.now) }
    ensures { MatchResult result (λ _. AreFilled (λ k v. IsElementTold window.now schema.now found.spot after.now (first + k) v) (found.elements - first) values.old values.new)
        (λ place. AreFilled (λ k v. IsElementTold window.now schema.now found.spot after.now (first + k) v) place values.old values.new × (place < length values.old)
        × (IsSpot window.now schema.now found.spot → ⊥)) }
{
    let elements = found.elements as usize;
    let count = elements.saturating_sub(first).min(values.len());
    for place in 0..count {
        let number = (first + place) as u32;
        match element_told(window, schema, found.spot, number, after) {
            Ok(Some(value)) => values[place] = value,
            Ok(None) => unreachable!(),
            Err(Changed) => return Err(place as u64),
        }
    }
    Ok(())
}

/// Tells the elements to which a path leads that fits, from this one on, as far as there is room. How many there are.
///
/// # Errors
///
/// How many are told, where it shows on the way to the next one, or to the vector, that these aren't the bytes of a good
/// buffer. The values from there on are left alone.
fn tell_each(
    window: &Window<'_>,
    schema: &Schema<'_>,
    start: Start,
    root: u32,
    path: &PlainPath,
    first: usize,
    values: &mut [Value],
) -> Result<usize, u64>
    requires short { length window.now < 2 ^ 31 }
    requires fits { FitsEach schema.now root path.now }
    ensures { MatchResult result (λ n. IsCountTold window.now schema.now start root path.now n × AreElementsTold window.now schema.now start root path.now first (n - first) values.old values.new)
        (λ place. AreElementsTold window.now schema.now start root path.now first place values.old values.new × (place ≤ length values.old) × IsOther window.now schema.now start root) }
{
    let Some(around) = path.around() else {
        unreachable!()
    };
    match find(window, schema, start, root, around.before) {
        Ok(Some(found)) => {
            tell_elements(window, schema, found, first, around.after, values)?;
            Ok(found.elements as usize)
        }
        Ok(None) => unreachable!(),
        Err(Changed) => Err(0),
    }
}

/// Tells the values of the elements to which a path leads, from this one on, and how many there are, in bytes that
/// aren't checked, if they are those of a good buffer as far as it shows on the way.
pub fn read_each(
    held: &Held,
    options: &Options,
    buffer: &[u8],
    path: &PlainPath,
    first: usize,
    values: &mut [Value],
    elements: &mut usize,
) -> Outcome
    ensures { IsReadOfEachBy held.now options.now buffer.now path.now first values.old values.new elements.old elements.new result }
{
    let Held::Schema(basis) = held else {
        return Outcome::NoRoot;
    };
    let loaded = basis.loaded();
    if !options.are_known() {
        return Outcome::UnknownOptions;
    }
    let Some(root) = basis.root(options) else {
        return Outcome::NoRoot;
    };
    if !fits_each(&loaded.schema, root, path) {
        return Outcome::Misfit(0);
    }
    if buffer.len() as u64 > LONGEST {
        return Outcome::TooLong;
    }
    let window = metered(buffer).seal();
    match tell_each(
        &window,
        &loaded.schema,
        options.start(),
        root,
        path,
        first,
        values,
    ) {
        Ok(count) => {
            *elements = count;
            Outcome::Done
        }
        Err(place) => Outcome::Changed(place),
    }
}
