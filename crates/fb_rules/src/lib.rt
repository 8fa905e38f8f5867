//! What a verdict means, with its laws and examples, and the rules of the format: a test for each, over counted reads.
#![tactic(auto)]

pub mod begin;
pub mod budget;
pub mod checks;
pub mod examples;
pub mod fault;
pub mod laws;
pub mod leads;
pub mod limits;
pub mod link;
pub mod link_laws;
pub mod most;
pub mod offset_row;
pub mod passed;
pub mod plain;
pub mod question;
pub mod site;
pub mod start;
pub mod table;
pub mod tested;
