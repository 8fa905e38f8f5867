// The start of a buffer: its prefix, its identifier and its root offset.

ghost use Rattle.std.specs.Prelude.{◌≡◌, ◌+◌, ◌^◌, ◌<◌, ◌≤◌, None};
ghost use Rattle.fb_bytes.specs.Word.{word};
ghost use Rattle.fb_rules.specs.{Places.target, Order.prefix_failure, Order.ident_failure, Order.start_failure, Plain.IsTested};
ghost use Rattle.fb_rules.specs.WellFormed.{base, prefix_reads, ident_reads, start_reads};

use crate::checks::Checks;
use crate::fault::Reason;
use crate::plain::{fails, test_offset};
use crate::start::{Ident, Start};
use fb_bytes::Reads;

/// Where the root offset stands.
pub fn base_of(start: Start) -> u64
    ensures value { result ≡ base start }
    ensures near { result ≤ 4 }
{
    match start {
        Start::Bare => 0,
        Start::Prefixed => 4,
    }
}

/// Tests the prefix, if there should be one.
#[inline(always)]
#[tactic(auto, unfolding(crate::specs::Order::prefix_failure))]
fn test_prefix(reads: &mut Reads<'_>, start: Start) -> Option<Reason>
    requires few { reads.old.count < reads.old.base + 2 ^ 60 }
    ensures { IsTested reads.old reads.new 0 (prefix_failure reads.old.bytes start) (prefix_reads start) result }
{
    match start {
        Start::Bare => None,
        Start::Prefixed => {
            if !reads.fits(0, 4) {
                return fails(Reason::OutOfBuffer);
            }
            if u64::from(reads.u32_at(0)) + 4 != reads.len() {
                return fails(Reason::WrongPrefix);
            }
            None
        }
    }
}

/// The number that four bytes are, the lowest first.
#[tactic(auto, using(fb_bytes::proofs::MessageLemmas::declared_le_bytes))]
fn number_of(name: [u8; 4]) -> u32
    ensures { result ≡ word name 0 4 }
{
    u32::from_le_bytes(name)
}

/// Tests the identifier at a position, if one is wanted.
#[inline(always)]
#[tactic(auto, unfolding(crate::specs::Order::ident_failure))]
fn test_ident(reads: &mut Reads<'_>, at: u64, ident: Ident) -> Option<Reason>
    requires few { reads.old.count < reads.old.base + 2 ^ 60 }
    requires near { at < 2 ^ 35 }
    ensures { IsTested reads.old reads.new at (ident_failure reads.old.bytes at ident) (ident_reads ident) result }
{
    match ident {
        Ident::Any => None,
        Ident::Want(name) => {
            if !reads.fits(at, 4) {
                return fails(Reason::OutOfBuffer);
            }
            if reads.u32_at(at) != number_of(name) {
                return fails(Reason::WrongIdentifier);
            }
            None
        }
    }
}

/// Tests all that stands before the root table, and moves the position to where that stands, or to where a test fails.
#[inline(always)]
#[tactic(auto, unfolding(crate::specs::Order::start_failure))]
pub fn test_start(
    reads: &mut Reads<'_>,
    checks: Checks,
    start: Start,
    ident: Ident,
    at: &mut u64,
) -> Option<Reason>
    requires few { reads.old.count < reads.old.base + 2 ^ 58 }
    ensures { IsTested reads.old reads.new at.new (start_failure checks reads.old.bytes start ident) (start_reads start ident) result
        × (result ≡ None → (at.new ≡ target reads.old.bytes (base start)) × (at.new < 2 ^ 33)) }
{
    let base = base_of(start);
    *at = 0;
    if let Some(reason) = test_prefix(reads, start) {
        return Some(reason);
    }
    *at = base + 4;
    if let Some(reason) = test_ident(reads, *at, ident) {
        return Some(reason);
    }
    *at = base;
    test_offset(reads, checks, at)
}
