//! Buffers that lie in one block of bytes.

ghost use Rattle.std.specs.Prelude.{◌≡◌, ◌==◌, option_map, take};
ghost use Rattle.std.specs.List.{list_all};
ghost use Rattle.fbcheck_calls.specs.{Answered.IfSchema, Answered.levels, Spans.AreTold, Spans.IsSpanTold, Spans.IsTried, Spans.all_good, Spans.cut, Told.told};
ghost use Rattle.fbcheck_calls.specs.declared.outcome.Outcome.TheVariants.{Done};

use crate::checking::check;
use crate::handle::Handle;
use crate::held::Held;
use crate::options::Options;
use crate::outcome::{Outcome, Verdict};
use crate::status::Status;
use std::alloc::Global;

/// Where a buffer lies in a block of bytes (`fbcheck_span`).
#[repr(C)]
#[derive(Clone, Copy)]
pub struct Span {
    /// The place of its first byte, counted in bytes from the block's first.
    pub at: usize,
    /// How many bytes it has.
    pub size: usize,
}

impl Span {
    /// The bytes of a block that the span names, none where it doesn't lie in the block.
    pub fn cut<'b>(&self, block: &'b [u8]) -> Option<&'b [u8]>
        ensures { option_map (λ s. s.now) result ≡ cut block.now self.now }
    {
        let Span { at, size } = *self;
        if at > block.len() || size > block.len() - at {
            return None;
        }
        Some(&block[at..at + size])
    }
}

/// Writes this answer where a check can begin by these options, or else why none can, and answers its status.
fn tell_tried(
    alloc: Global,
    held: &Held,
    handle: &mut Handle,
    options: &Options,
    served: Outcome,
    verdict: &mut Verdict,
) -> u32
    ensures told { (a : Outcome) × (verdict.new ≡ told a) × IfSchema held.now a (λ s. IsTried served s (levels handle.old.inside) options.now a) }
    ensures status { result ≡ verdict.new.status }
    ensures kept { handle.new.inside ≡ handle.old.inside }
{
    // A check of no bytes that begins finds them good or bad.
    let status = check(alloc, held, handle, options, &[], verdict);
    if status > Status::Bad.number() {
        return status;
    }
    served.tell(verdict)
}

/// 0 where a check can begin by these options, else the status of why none can.
pub fn try_options(alloc: Global, held: &Held, handle: &mut Handle, options: &Options) -> u32
    ensures tried { (a : Outcome) × (result ≡ (told a).status) × IfSchema held.now a (λ s. IsTried Done s (levels handle.old.inside) options.now a) }
    ensures kept { handle.new.inside ≡ handle.old.inside }
{
    let mut verdict = Verdict::default();
    tell_tried(alloc, held, handle, options, Outcome::Done, &mut verdict)
}

/// Checks the buffer that a span names in a block of bytes, as [`check`] does, and writes the verdict. Of one that
/// doesn't lie in the block it tells so, unless the options can't be served.
fn check_span(
    alloc: Global,
    held: &Held,
    handle: &mut Handle,
    options: &Options,
    block: &[u8],
    span: &Span,
    verdict: &mut Verdict,
)
    ensures told { IsSpanTold held.now (levels handle.old.inside) options.now block.now span.now verdict.new }
    ensures kept { handle.new.inside ≡ handle.old.inside }
{
    let _status = match span.cut(block) {
        Some(buffer) => check(alloc, held, handle, options, buffer, verdict),
        None => tell_tried(alloc, held, handle, options, Outcome::NoSpan, verdict),
    };
}

/// Checks the buffers that spans name in a block of bytes, each as [`check`] does, and tells each verdict at the place
/// of its span. Where there are more of spans or of verdicts than of the others, these are left alone.
pub fn check_each(
    alloc: Global,
    held: &Held,
    handle: &mut Handle,
    options: &Options,
    block: &[u8],
    spans: &[Span],
    verdicts: &mut [Verdict],
)
    ensures told { AreTold held.now (levels handle.old.inside) options.now block.now spans.now verdicts.new }
    ensures kept { handle.new.inside ≡ handle.old.inside }
{
    let count = spans.len().min(verdicts.len());
    for place in 0..count {
        let verdict = &mut verdicts[place];
        check_span(alloc, held, handle, options, block, &spans[place], verdict);
    }
}

/// Whether each of these verdicts is that of a good buffer.
fn are_good(verdicts: &[Verdict]) -> bool
    ensures { result ≡ list_all (λ v. v.status == 0) verdicts.now }
{
    for verdict in verdicts {
        if verdict.status != Status::Done.number() {
            return false;
        }
    }
    true
}

/// 0 where each of the first verdicts, so many, is that of a good buffer, else 1.
pub fn all_good(verdicts: &[Verdict], count: usize) -> u32
    ensures { result ≡ all_good (take count verdicts.now) }
{
    if are_good(&verdicts[..count.min(verdicts.len())]) {
        Status::Done.number()
    } else {
        Status::Bad.number()
    }
}
