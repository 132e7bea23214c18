//! Tests of `hss`, `xmss` and all crates below them, by their public interfaces: a module for each crate.
//!
//! A crate with a test of its own is proved twice, without its tests and with them. So these crates have none, and this
//! one has no code.
#![tactic(auto)]

#[cfg(test)]
mod tests;
