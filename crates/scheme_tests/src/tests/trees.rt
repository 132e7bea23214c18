//! Tests of merkle.

mod caches;
mod memory;
mod plain;
mod sums;
mod told;
