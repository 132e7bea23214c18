//! Tests of `sign_core`, `key_audit` and `state_file`'s disk in memory, by their public interfaces, and a list of
//! public calls (`tests::surface`).
//!
//! A crate with a test of its own is proved twice, without its tests and with them. So these three have none, and this
//! one has no code. The built program has tests of its own (`tests/run`).
#![tactic(auto)]

#[cfg(test)]
mod tests;
