//! Schema files: the fixed table by which they are verified, and the rows that they describe.
#![tactic(auto)]

mod attributes;
mod byte_fields;
mod copied;
mod counted;
pub mod examples;
mod file;
mod fixed;
mod lists;
mod load_fault;
pub mod load_laws;
mod loading;
mod marks;
mod tables;
mod tags;
mod taking;
mod values;

pub use byte_fields::{ByteField, bytes_at, find_unmarked};
pub use fixed::reflection;
pub use load_fault::{LoadFault, code_text};
pub use loading::{Loaded, load, own_ident};
pub use marks::{Builtins, Content, Mark, Marks, load_marks};
