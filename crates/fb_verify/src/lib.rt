//! Checks a buffer against a schema: the walk by the rules of `fb_rules`, and what it answers.
#![tactic(auto)]

mod deeper;
mod far;
mod flat;
mod leaves;
mod links;
mod scratch;
mod stack;
mod units;
mod verdict;
mod verified;

pub use fb_rules::checks::Checks;
pub use fb_rules::fault::{Fault, REASONS, Reason, Report};
pub use fb_rules::limits::{LimitOutOfRange, Limits};
pub use fb_rules::link::Link;
pub use fb_rules::most::most_reads;
pub use fb_rules::question::Question;
pub use fb_rules::start::{Ident, Start};
pub use fb_rules::{examples, laws, link_laws, tested};
pub use links::Located;
pub use scratch::{BLANK, Frame, Scratch, ScratchFault};
pub use verdict::walk;
pub use verified::{Verified, verify, verify_and_locate};
