//! The calls of the library for C: what each does with a schema, options and a buffer, and what it tells in numbers.
//! `fbcheck_c` exports them.
#![tactic(auto)]

mod again;
mod basis;
mod checking;
mod detached;
mod each;
pub mod examples;
mod fits;
mod framer;
mod handle;
mod held;
mod hints;
pub mod laws;
mod names;
mod options;
mod outcome;
mod place;
mod resolving;
mod shared;
mod spans;
mod status;
mod steps;
mod strict;
mod values;
mod walks;

pub use again::read_again;
pub use basis::Basis;
pub use checking::{check, check_alone, price, read};
pub use each::read_each;
pub use framer::Framer;
pub use handle::Handle;
pub use held::{Held, Room};
pub use hints::{path_hint, root_hint};
pub use names::{fault_told, field_told, object_told, reason_told, status_told, table_of};
pub use options::Options;
pub use outcome::{FieldAt, Outcome, Verdict};
pub use place::locate;
pub use resolving::resolve;
pub use shared::Shared;
pub use spans::{Span, all_good, check_each, try_options};
pub use status::Status;
pub use steps::{PlainPath, PlainStep};
pub use values::Value;
