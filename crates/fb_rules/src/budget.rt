// The budget of reads.

ghost use Rattle.std.specs.Prelude.{◌≡◌, ℕ, ◌<◌, List, Option, Some, None, IfOk, IfErr, false};
ghost use Rattle.fb_rules.specs.{Bounds.AreAllowed, Bounds.allowed, Order.Failure, Plain.IsTested, Told.IsAskedAt, declared.fault.Reason.TheVariants.TooManyReads};

use crate::fault::Reason;
use crate::limits::{Limits, allows};
use crate::site::{Refusal, Site, Stop};
use fb_bytes::{Loan, Reads};

/// Asks whether the limits allow the reads counted so far. Where they don't, the walk stops at this site and position.
#[inline(always)]
pub fn ask_reads(loan: &Loan<'_>, limits: Limits, site: Site, at: u64) -> Result<(), Stop>
    ensures ok { IfOk result (λ _. AreAllowed limits.reads loan.now.count) }
    ensures spent { IfErr result (λ _. allowed limits.reads loan.now.count ≡ false) }
    ensures err { IfErr result (λ s. s ≡ record { refusal = record { at = at; reason = TooManyReads }; site = site }) }
{
    if allows(limits, loan.reads()) {
        return Ok(());
    }
    let reason = Reason::TooManyReads;
    let refusal = Refusal { at, reason };
    Err(Stop { site, refusal })
}

/// Stops at this site and position, if a test of it failed.
#[inline(always)]
pub fn tell(site: Site, failed: Option<Reason>, at: u64) -> Result<(), Stop>
    ensures ok { IfOk result (λ _. failed ≡ None) }
    ensures err { IfErr result (λ s. (failed ≡ Some (s.refusal).reason) × (s ≡ record { refusal = record { at = at; reason = (s.refusal).reason }; site = site })) }
{
    match failed {
        None => Ok(()),
        Some(reason) => {
            let refusal = Refusal { at, reason };
            Err(Stop { site, refusal })
        }
    }
}

/// Takes back the bytes that were lent to a unit, and asks the budget, where no test of it failed.
/// One that failed is told where it did, and too many reads at the position of the unit.
#[inline(always)]
pub fn answer<'a>(
    loan: &mut Loan<'a>,
    reads: Reads<'a>,
    limits: Limits,
    site: Site,
    failed: Option<Reason>,
    tested: u64,
    at: u64,
) -> Result<(), Stop>
    ensures { (b : List ℕ) (base : ℕ) (chain : Option Failure) (n : ℕ) → IsTested (record { bytes = b; count = loan.old.count; base = base }) reads.entry tested chain n failed
        → IsAskedAt site limits (record loan.old { bytes = b }) loan.new chain n at result }
{
    loan.settle(reads);
    tell(site, failed, tested)?;
    ask_reads(loan, limits, site, at)
}
