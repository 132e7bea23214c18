//! Tests of winternitz.

mod climbs;
mod digits;
mod hashers;
mod lanes;
mod laws;
mod shares;
