//! The values in bytes that aren't checked: those of a buffer that was good before. Each position is tested before it is
//! read, so what became of the bytes doesn't matter.

ghost use Rattle.std.specs.Prelude.{◌<◌, ◌^◌, MatchResult, length};
ghost use Rattle.fb_access.specs.Tested.{IsOther};
ghost use Rattle.fbcheck_calls.specs.{Again.AreToldBelow, Again.IsReadAgainBy, Steps.AllFit, Values.AreValues};

use crate::checking::metered;
use crate::fits::first_misfit;
use crate::held::Held;
use crate::options::{LONGEST, Options};
use crate::outcome::Outcome;
use crate::steps::PlainPath;
use crate::values::Value;
use crate::walks::tell_from;
use fb_access::{Changed, first_spot};
use fb_bytes::Window;
use fb_schema::Schema;
use fb_verify::{Start, Verified};

/// Tells the values at the ends of paths that fit, each at the place of its path. Where there are more of paths or of
/// values than of the others, these are left alone.
///
/// # Errors
///
/// The place of the first path on which it shows that these aren't the bytes of a good buffer. The values from there on
/// are left alone.
#[inline(never)]
fn tell_again(
    window: &Window<'_>,
    schema: &Schema<'_>,
    start: Start,
    root: u32,
    paths: &[PlainPath],
    values: &mut [Value],
) -> Result<(), u64>
    requires short { length window.now < 2 ^ 31 }
    requires fit { AllFit schema.now root paths.now }
    ensures { MatchResult result (λ _. AreToldBelow window.now schema.now start root paths.now (length paths.now) values.old values.new)
        (λ place. (place < length paths.now) × AreToldBelow window.now schema.now start root paths.now place values.old values.new × IsOther window.now schema.now start root) }
{
    let count = paths.len().min(values.len());
    if count == 0 {
        return Ok(());
    }
    let Ok(first) = first_spot(window, schema, start, root) else {
        return Err(0);
    };
    for place in 0..count {
        let Some(steps) = paths[place].steps() else {
            unreachable!()
        };
        match tell_from(window, schema, first, steps) {
            Ok(Some(value)) => values[place] = value,
            Ok(None) => unreachable!(),
            Err(Changed) => return Err(place as u64),
        }
    }
    Ok(())
}

/// Tells the values at the ends of paths that fit in a buffer that is good, each at the place of its path. Where there
/// are more of paths or of values than of the others, these are left alone. It reads by tests that a good buffer passes:
/// they take fewer instructions than to look up what the check knows.
#[inline(always)]
pub fn tell_values(verified: &Verified<'_, '_, '_>, paths: &[PlainPath], values: &mut [Value])
    requires { AllFit (verified.now).schema (verified.now).root paths.now }
    ensures { AreValues (verified.now).bytes (verified.now).schema (verified.now).start (verified.now).root paths.now values.new }
{
    match tell_again(
        verified.window(),
        verified.schema(),
        verified.start(),
        verified.root(),
        paths,
        values,
    ) {
        Ok(()) => {}
        Err(_) => unreachable!(),
    }
}

/// Tells the values at the ends of paths in bytes that aren't checked, if they are those of a good buffer as far as it
/// shows on the way.
pub fn read_again(
    held: &Held,
    options: &Options,
    buffer: &[u8],
    paths: &[PlainPath],
    values: &mut [Value],
) -> Outcome
    ensures { IsReadAgainBy held.now options.now buffer.now paths.now values.old values.new result }
{
    let Held::Schema(basis) = held else {
        return Outcome::NoRoot;
    };
    let loaded = basis.loaded();
    if !options.are_known() {
        return Outcome::UnknownOptions;
    }
    let Some(root) = basis.root(options) else {
        return Outcome::NoRoot;
    };
    if let Some(place) = first_misfit(&loaded.schema, root, paths) {
        return Outcome::Misfit(place);
    }
    if buffer.len() as u64 > LONGEST {
        return Outcome::TooLong;
    }
    let window = metered(buffer).seal();
    match tell_again(
        &window,
        &loaded.schema,
        options.start(),
        root,
        paths,
        values,
    ) {
        Ok(()) => Outcome::Done,
        Err(place) => Outcome::Changed(place),
    }
}
