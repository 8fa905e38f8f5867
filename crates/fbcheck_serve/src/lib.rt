//! What `fbcheck` does, from its words to its exit status, over any files, reader and writers: [`serve::serve`].
//!
//! The words of the command line are read first, then the schema file, then the input; help goes to the writer. Faults
//! go to the notes, and the first ends the program, but for one of a file among files.
#![tactic(auto)]

mod asked;
mod byte_fields;
pub mod check;
pub mod check_laws;
mod files;
mod head;
mod inputs;
mod limits;
mod names;
pub mod serve;
mod stop;
mod strict;

pub use fbcheck_texts::causes::{Explained, Explains};
pub use fbcheck_texts::choices::{Settings, SettingsFault};
pub use fbcheck_texts::fault::{AskFault, CheckFault, FileFault, WordsFault, WrongWord};
pub use fbcheck_texts::hint::Unasked;
pub use fbcheck_texts::words::settings;
pub use files::{Files, Makes};
pub use inputs::{Course, Passed, Standard};
