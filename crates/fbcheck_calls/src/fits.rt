//! Whether paths fit a schema, which no buffer has a part in.

ghost use Rattle.std.specs.Prelude.{◌≡◌, ◌↔◌, IsTrue, MatchOption, option_map};
ghost use Rattle.fb_access.specs.Fitting.{next_kind, numbered};
ghost use Rattle.fb_schema.specs.{Live.live_of_view, Members.member_of, declared.kinds.Kind.TheVariants.Table};
ghost use Rattle.fbcheck_calls.specs.{Each.FitsEach, Steps.AllFit, Steps.FitFrom, Steps.FitsFrom, Steps.IsFirstMisfit};

use crate::steps::{PlainPath, PlainStep};
use fb_access::{Step, element_kind};
use fb_schema::{FieldView, Kind, Schema};

/// The live field of a table with this number, none where it is no table.
pub fn live_field<'s, 'n>(
    schema: &'s Schema<'n>,
    table: u32,
    number: u32,
) -> Option<&'s FieldView<'n>>
    ensures { option_map (λ f. live_of_view f.now) result ≡ numbered schema.now table number }
{
    if !schema.is_table(table) {
        return None;
    }
    for field in schema.fields_of(table) {
        if u32::from(field.number) == number {
            return Some(field);
        }
    }
    None
}

/// The kind of a union's member with this value.
fn member_kind(schema: &Schema<'_>, union: u32, value: u8) -> Option<Kind>
    ensures { result ≡ member_of schema.now union value }
{
    if schema.is_union(union) {
        schema.member_of(union, value)
    } else {
        None
    }
}

/// The kind to which a step leads from a kind, if it has this step.
#[tactic(auto, unfolding(fb_access::specs::Fitting::next_kind))]
fn next_kind(schema: &Schema<'_>, kind: Kind, step: Step) -> Option<Kind>
    ensures { result ≡ next_kind schema.now kind step }
{
    match step {
        Step::Field(number) => match kind {
            Kind::Table(table) => Some(live_field(schema, table, u32::from(number))?.kind),
            Kind::Struct(object) => Some(schema.part_at(object, u32::from(number))?.kind),
            _ => None,
        },
        Step::Element(_) => element_kind(kind),
        Step::Member(value) => match kind {
            Kind::Union(union) => member_kind(schema, union, value),
            _ => None,
        },
    }
}

/// Whether these are steps that fit from the root table.
fn steps_fit(schema: &Schema<'_>, root: u32, steps: &[PlainStep]) -> bool
    ensures { IsTrue result ↔ FitFrom schema.now (Table root) steps.now }
{
    let mut kind = Kind::Table(root);
    for given in steps {
        let Some(step) = given.step() else {
            return false;
        };
        match next_kind(schema, kind, step) {
            Some(next) => kind = next,
            None => return false,
        }
    }
    true
}

/// Whether a path fits from the root table.
fn path_fits(schema: &Schema<'_>, root: u32, path: &PlainPath) -> bool
    ensures { IsTrue result ↔ FitsFrom schema.now root path.now }
{
    match path.steps() {
        Some(steps) => steps_fit(schema, root, steps),
        None => false,
    }
}

/// The place of the first of these paths that doesn't, none where all do.
pub fn first_misfit(schema: &Schema<'_>, root: u32, paths: &[PlainPath]) -> Option<u64>
    ensures { MatchOption result (AllFit schema.now root paths.now) (IsFirstMisfit schema.now root paths.now) }
{
    for place in 0..paths.len() {
        if !path_fits(schema, root, &paths[place]) {
            return Some(place as u64);
        }
    }
    None
}

/// Whether a path leads to each element of a vector or array, and fits from the root table.
pub fn fits_each(schema: &Schema<'_>, root: u32, path: &PlainPath) -> bool
    ensures { IsTrue result ↔ FitsEach schema.now root path.now }
{
    let Some(_) = path.around() else {
        return false;
    };
    let Some(steps) = path.said() else {
        return false;
    };
    steps_fit(schema, root, steps)
}
