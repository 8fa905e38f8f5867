//! The words of the command line, the texts of errors and the hints after them, as lines and as JSON. `fbcheck_serve`
//! says when each is read or written.
#![tactic(auto)]

pub mod causes;
pub mod choices;
mod command;
pub mod fault;
pub mod fault_json;
pub mod framing;
pub mod hint;
pub mod texts;
mod unsupported;
pub mod words;
