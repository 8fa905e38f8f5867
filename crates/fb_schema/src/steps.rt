// The live fields of a table in one flat row, for a reader that passes many of them.

ghost use Rattle.std.specs.Prelude.{◌≡◌, map, IfOk};
ghost use Rattle.fb_schema.specs.{Live.live_of_view, Steps.act_of, Steps.bit_of, Steps.is_plain_act, Steps.is_small_act, Steps.sorts_of, Steps.step_of, Steps.chain_of};

use crate::index::Sorts;
use crate::kinds::Kind;
use crate::views::{Act, FieldView, Step};
use std::alloc::{AllocError, Allocator};

/// What to do at a field.
fn act_of(field: &FieldView<'_>) -> Act
    ensures { result ≡ act_of (live_of_view field.now) (field.now).kind }
{
    match field.kind {
        Kind::Scalar(_) | Kind::Struct(_) => {
            if field.required {
                Act::Inline
            } else if field.size == 1 && field.align == 1 {
                Act::One
            } else if field.size == 2 && field.align == 2 {
                Act::Two
            } else if field.size == 4 && field.align == 4 {
                Act::Four
            } else if field.size == 8 && field.align == 8 {
                Act::Eight
            } else {
                Act::Inline
            }
        }
        Kind::Text => Act::Text,
        Kind::Scalars(_) | Kind::Structs(_) => Act::Vector,
        _ => Act::Other,
    }
}

/// Whether what is done at a field leads to no table.
fn is_plain_act(act: Act) -> bool
    ensures { result ≡ is_plain_act act }
{
    !matches!(act, Act::Other)
}

/// Whether what is done at a field is done at a scalar or struct of one, two, four or eight bytes, aligned to as many,
/// that may be absent.
fn is_small_act(act: Act) -> bool
    ensures { result ≡ is_small_act act }
{
    matches!(act, Act::One | Act::Two | Act::Four | Act::Eight)
}

/// What holds of all of these fields.
pub fn sorts_of(fields: &[FieldView<'_>]) -> Sorts
    ensures { result ≡ sorts_of (map live_of_view fields.now) }
{
    let mut plain = true;
    let mut small = true;
    for field in fields {
        let act = act_of(field);
        if !is_plain_act(act) {
            plain = false;
        }
        if !is_small_act(act) {
            small = false;
        }
    }
    Sorts { plain, small }
}

/// The bit of an act.
fn bit_of(act: Act) -> u32
    ensures { result ≡ bit_of act }
{
    match act {
        Act::One => 1,
        Act::Two => 2,
        Act::Four => 4,
        Act::Eight => 8,
        Act::Text => Step::TEXT,
        Act::Vector => Step::VECTOR,
        Act::Inline => Step::INLINE,
        Act::Other => Step::LEADS_ON,
    }
}

/// The step of a field.
fn step_of(field: &FieldView<'_>) -> Step
    ensures { result ≡ step_of (live_of_view field.now) }
{
    let act = act_of(field);
    let (bit, size) = match field.kind {
        Kind::Table(object) => (Step::TO_TABLE | bit_of(act), object),
        _ => (bit_of(act), field.size),
    };
    Step {
        act,
        bit,
        required: field.required,
        slot: field.slot,
        size,
        align: field.align,
    }
}

/// The steps of these fields, with [`Step::END`] behind them.
pub fn field_steps<A: Allocator>(
    alloc: A,
    fields: &[FieldView<'_>],
) -> Result<Vec<Step, A>, AllocError>
    ensures { IfOk result (λ steps. steps.items ≡ chain_of (map live_of_view fields.now)) }
{
    let mut steps = Vec::new(alloc);
    for field in fields {
        steps.push(step_of(field))?;
    }
    steps.push(Step::END)?;
    Ok(steps)
}
