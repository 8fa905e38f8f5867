// Why a test refuses a buffer, and where a walk stops.

ghost use Rattle.std.specs.Prelude.{◌≡◌, ◌<◌};
ghost use Rattle.fb_rules.specs.{Places.is_aligned, Told.stopped};
ghost use Rattle.fb_schema.specs.Served.{IsAlignment};

use crate::checks::Checks;
use crate::fault::{Fault, Reason};
use fb_bytes::Meter;

/// The object of the innermost opened table, and its field under check.
#[derive(Clone, Copy)]
pub struct Site {
    pub object: u32,
    pub field: Option<u16>,
}

/// Why a test failed, and at which position.
#[derive(Clone, Copy)]
pub struct Refusal {
    pub at: u64,
    pub reason: Reason,
}

/// Where a walk stops, and why. The refusal stands first, so that in an answer that is this or an open table, numbers
/// of eight bytes share a place with numbers of eight bytes, and none is written in pieces.
#[derive(Clone, Copy)]
pub struct Stop {
    pub refusal: Refusal,
    pub site: Site,
}

/// What the links of the frames leave to be told of the way to a stop.
#[derive(Clone, Copy)]
pub enum LastLink {
    /// Nothing: the last of the frames was left past the `uoffset` under check. There may be none of them.
    Behind,
    /// The field that the stop names, which is under check itself.
    InField,
}

/// A stop, the number of the frames whose links lead to it, and what these leave.
#[derive(Clone, Copy)]
pub struct Halt {
    pub stop: Stop,
    pub links: u32,
    pub last: LastLink,
}

/// The halt of a walk that doesn't stop.
pub const NO_HALT: Halt = Halt {
    stop: Stop {
        refusal: Refusal {
            at: 0,
            reason: Reason::WrongPrefix,
        },
        site: Site {
            object: 0,
            field: None,
        },
    },
    links: 0,
    last: LastLink::Behind,
};

impl Stop {
    /// A halt where the words of so many frames lead, and what they leave to be told.
    pub fn halt(self, links: u32, last: LastLink) -> Halt
        ensures { result ≡ record { stop = self; links = links; last = last } }
    {
        Halt {
            stop: self,
            links,
            last,
        }
    }

    /// The fault that this is, after the reads that were counted.
    pub fn fault(self, meter: &Meter<'_>) -> Fault
        ensures { result ≡ stopped self meter.now.count }
    {
        Fault {
            at: self.refusal.at,
            object: self.site.object,
            field: self.site.field,
            reason: self.refusal.reason,
            reads: meter.reads(),
        }
    }
}

/// Whether a position is a multiple of its alignment, where that is checked. That is a power of two, so that no division
/// is needed, and no jump depends on which it is.
#[inline(always)]
#[tactic(auto, using(crate::proofs::Alignments::low_bits), unfolding(crate::specs::Places::is_aligned))]
pub fn is_aligned(checks: Checks, at: u64, align: u32) -> bool
    requires { IsAlignment align }
    ensures { result ≡ is_aligned checks at align }
{
    !checks.alignment || at & u64::from(align - 1) == 0
}
