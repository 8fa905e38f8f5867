//! What is demanded beside the rules of the format, as of unions by code that `flatc` generates, of texts and of slots:
//! what it means, a test for each part, and the plan of which tables are asked.
#![tactic(auto)]

mod demands;
pub mod examples;
mod holding;
mod inner;
pub mod laws;
mod leads;
mod levels;
mod links;
mod marking;
mod most;
mod pass;
mod plan;
mod room;
mod slots;
mod strictly;
mod tasks;
mod texts;
pub mod unions;
mod uoffsets;
mod way;
mod whole;

pub use demands::Demands;
pub use holding::PlanFault;
pub use inner::Inner;
pub use most::most_reads_strictly;
pub use plan::Plan;
pub use room::{Room, RoomFault};
pub use strictly::{VerifiedStrictly, verify_strictly, verify_strictly_and_locate};
pub use tasks::{Ask, Task};
pub use whole::{OnStack, Space};
