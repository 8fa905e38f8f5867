//! How messages stand in an input, and what is told where that seems to be otherwise than was asked.

ghost use Rattle.std.specs.Prelude.{IfSome};
ghost use Rattle.fbcheck_texts.specs.Hints.{IsHint, IsRunHint};

use crate::hint::{are_plain, opens, past_blanks};
use fb_bytes::{Endian, StreamFault};
use fb_run::{Prefix, RunFault, Tally};

/// At which place among the counts of reasons misaligned ones are counted.
const MISALIGNED: usize = 2;

/// The most that `--max-bytes` allows, a prefix included.
const MOST_BYTES: u32 = 2_147_483_647;

/// The longest message without `--max-bytes`, its prefix not included.
const USUAL_BYTES: u32 = 67_108_860;

/// How messages stand in an input.
#[derive(Clone, Copy)]
pub enum Framing {
    /// It is one bare buffer.
    Bare,
    /// A stream of bare buffers, each behind its length, of which the bytes stand in this order.
    Delimited(Endian),
    /// A stream of size-prefixed buffers.
    Prefixed,
}

/// By what buffers are checked.
#[derive(Clone, Copy)]
pub enum By {
    /// The schema file that is named.
    Named,
    /// The fixed table of schema files, since none is.
    Fixed,
}

/// How messages stand in an input, by what they are checked, and how many may be bad.
#[derive(Clone, Copy)]
pub struct Manner {
    /// How they stand.
    pub framing: Framing,
    /// By what they are checked.
    pub by: By,
    /// The number of bad messages behind the last of which the input ends.
    pub most_bad: u64,
}

impl Framing {
    /// That of a bare input, or of a stream with such prefixes.
    pub fn of(bare: bool, prefix: Prefix) -> Framing {
        match prefix {
            _ if bare => Framing::Bare,
            Prefix::Apart(order) => Framing::Delimited(order),
            Prefix::Part => Framing::Prefixed,
        }
    }

    /// Which options other input needs, to the end of a fault's line.
    fn stray(self) -> &'static [u8]
        ensures { IsHint result.now }
    {
        match self {
            Framing::Bare => b"\n",
            Framing::Delimited(Endian::Little) =>
                b"; no good message came before: --bare is for a buffer without a prefix, --delimited-be for big-endian lengths, --skip for a header\n",
            Framing::Delimited(Endian::Big) =>
                b"; no good message came before: --bare is for a buffer without a prefix, --delimited for little-endian lengths, --skip for a header\n",
            Framing::Prefixed =>
                b"; no good message came before: --bare is for a buffer without a prefix, --delimited for prefixes outside the buffers, --delimited-be for big-endian ones, --skip for a header\n",
        }
    }

    /// The same where a message was too long that some limit allows.
    fn long_stray(self) -> &'static [u8]
        ensures { IsHint result.now }
    {
        match self {
            Framing::Bare => b"\n",
            Framing::Delimited(_) =>
                b"; no good message came before: --bare is for a buffer without a prefix, --max-bytes for longer messages\n",
            Framing::Prefixed =>
                b"; no good message came before: --bare is for a buffer without a prefix, --delimited for prefixes outside the buffers, --max-bytes for longer messages\n",
        }
    }

    /// The same where it may be too long by the order of its length's bytes.
    fn turned_stray(self) -> &'static [u8]
        ensures { IsHint result.now }
    {
        match self {
            Framing::Bare => b"\n",
            Framing::Delimited(Endian::Little) =>
                b"; the length may be big-endian, which --delimited-be reads; no good message came before: --bare is for a buffer without a prefix\n",
            Framing::Delimited(Endian::Big) =>
                b"; the length may be little-endian, which --delimited reads; no good message came before: --bare is for a buffer without a prefix\n",
            Framing::Prefixed =>
                b"; the length may be big-endian, which --delimited-be reads; no good message came before: --bare is for a buffer without a prefix, --delimited for prefixes outside the buffers\n",
        }
    }

    /// That of the two which fits this length.
    fn over_stray(self, declared: u32) -> &'static [u8]
        ensures { IsHint result.now }
    {
        if is_length(declared) {
            self.long_stray()
        } else {
            self.stray()
        }
    }

    /// The four bytes that tell this length.
    fn front(self, declared: u32) -> [u8; 4] {
        match self {
            Framing::Delimited(Endian::Big) => declared.to_be_bytes(),
            Framing::Bare | Framing::Delimited(Endian::Little) | Framing::Prefixed =>
                declared.to_le_bytes(),
        }
    }

    /// What an input is by its first four bytes, where they are no length.
    fn misread(self, declared: u32) -> Option<&'static [u8]>
        ensures { IfSome result (λ t. IsHint t.now) }
    {
        let front = self.front(declared);
        if are_plain(&front) {
            Some(text_look(past_blanks(&front)))
        } else if front[0] == 31 && front[1] == 139 {
            Some(b"; the input looks like gzip\n")
        } else if is_turned(declared) {
            Some(self.turned_stray())
        } else {
            None
        }
    }

    /// What may be wrong with prefixes where each message is misaligned, or else with the schema.
    fn shifted(self, by: By) -> Option<&'static [u8]>
        ensures { IfSome result (λ t. IsHint t.now) }
    {
        match (self, by) {
            (Framing::Bare | Framing::Delimited(Endian::Big), _) => None,
            (Framing::Delimited(Endian::Little), By::Named) => Some(
                b"each message is misaligned: without --delimited prefixes are part of the buffers\n",
            ),
            (Framing::Prefixed, By::Named) => Some(
                b"each message is misaligned: --delimited is for prefixes outside the buffers\n",
            ),
            (Framing::Delimited(Endian::Little), By::Fixed) => Some(
                b"each message is misaligned: without --delimited prefixes are part of the buffers; without --schema the tables are those of schema files\n",
            ),
            (Framing::Prefixed, By::Fixed) => Some(
                b"each message is misaligned: --delimited is for prefixes outside the buffers; without --schema the tables are those of schema files\n",
            ),
        }
    }
}

/// What text is, of which no message was read.
fn text_look(text: &[u8]) -> &'static [u8]
    ensures { IsHint result.now }
{
    if opens(text) {
        b"; the input looks like JSON, of which flatc --binary makes buffers (--size-prefixed: messages)\n"
    } else {
        b"; the input looks like text\n"
    }
}

/// Whether some limit allows messages of this length, and it isn't four characters.
fn is_length(declared: u32) -> bool {
    declared <= MOST_BYTES - 4 && !are_plain(&declared.to_le_bytes())
}

/// Whether a length that is too great is one that is allowed where its bytes are read the other way round.
fn is_turned(declared: u32) -> bool {
    let turned = declared.swap_bytes();
    turned < declared && turned <= USUAL_BYTES
}

/// What is told behind a length that is too great, in a run that came to this.
fn over_hint(framing: Framing, declared: u32, tally: &Tally) -> &'static [u8]
    ensures { IsHint result.now }
{
    if tally.yes > 0 {
        return if is_length(declared) {
            b"; --max-bytes allows longer messages\n"
        } else {
            b"\n"
        };
    }
    if tally.no > 0 {
        return framing.over_stray(declared);
    }
    match framing.misread(declared) {
        Some(text) => text,
        None => framing.over_stray(declared),
    }
}

/// What is told behind the fault of a run that came to this: of too long a message what allows longer ones, and of a
/// stream of which no message was good which options other input needs, or what it is.
pub fn run_hint(framing: Framing, fault: &RunFault, tally: &Tally) -> &'static [u8]
    ensures { IsRunHint fault.now result.now }
{
    match fault {
        RunFault::Stream(StreamFault::Oversize { declared }) => over_hint(
            framing, *declared, tally,
        ),
        RunFault::Stream(_) if tally.yes == 0 => framing.stray(),
        RunFault::BareTooLong { limit } if *limit != MOST_BYTES =>
            b"; --max-bytes allows longer ones\n",
        RunFault::Stream(_) | RunFault::BareTooLong { .. } => b"\n",
        RunFault::ReadFault | RunFault::WriteFault { .. } => b"\n",
        RunFault::NoteFault { .. } | RunFault::RejectFault { .. } => b"\n",
        RunFault::TooManyTurns | RunFault::OutOfMemory | RunFault::SkipPastEnd { .. } => b"\n",
    }
}

/// Whether there are messages, and each is misaligned.
fn all_misaligned(tally: &Tally) -> bool {
    match tally.reasons.get(MISALIGNED) {
        Some(count) => tally.yes == 0 && tally.no > 0 && *count == tally.no,
        None => false,
    }
}

/// What is told of messages of which none is good, where no schema file was named.
pub fn by_hint(by: By, tally: &Tally) -> Option<&'static [u8]>
    ensures { IfSome result (λ t. IsHint t.now) }
{
    match by {
        By::Fixed if tally.yes == 0 && tally.no > 0 => Some(
            b"no message was good: without --schema the tables are those of schema files\n",
        ),
        _ => None,
    }
}

/// What is told of a run that came to its end and to this: where it has messages and each is misaligned, what may be
/// wrong with prefixes; where none is good, what may be wrong with the schema.
pub fn end_hint(by: By, framing: Framing, tally: &Tally) -> Option<&'static [u8]>
    ensures { IfSome result (λ t. IsHint t.now) }
{
    if !all_misaligned(tally) {
        return by_hint(by, tally);
    }
    match framing.shifted(by) {
        Some(text) => Some(text),
        None => by_hint(by, tally),
    }
}
