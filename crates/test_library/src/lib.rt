//! Tests of the libraries from bytes to schema files, of what only a caller in Rattle can ask, and of the README's
//! example. Each is proved, which takes seconds: what can be asked from outside stands in `tests/`. They stand in a
//! crate of their own, since a check of tests proves all of the crate that they stand in once more; and all in one,
//! since each crate that is checked loads what it stands on anew.
#![tactic(auto)]

#[cfg(test)]
mod tests;
