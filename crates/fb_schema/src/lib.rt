// Schema rows, checked once, and look-ups in them.
#![tactic(auto)]

pub mod base_type;
pub mod builders;
mod demands;
pub mod examples;
mod fault;
mod few;
mod first_fault;
mod flat;
mod index;
mod indexing;
mod keys;
mod kinds;
pub mod laws;
mod legal;
mod lists;
mod live;
mod rows;
mod schema;
mod sorting;
mod steps;
mod targets;
mod type_fields;
mod types;
mod views;

pub use fault::{Code, SchemaFault};
pub use few::are_few;
pub use kinds::{Kind, Scalar};
pub use rows::{EnumRow, FieldRow, MemberRow, ObjectRow, TypeRow};
pub use schema::Schema;
pub use targets::Targets;
pub use views::{Act, FieldView, Goal, ObjectView, PartView, Step, Target};
