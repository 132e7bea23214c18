//! Refused memory.

use std::alloc::AllocError;
use std::error::Error;
use std::fmt;

/// Memory was refused.
#[derive(Clone, Copy, Debug, PartialEq, Eq)]
pub struct OutOfMemory;

impl fmt::Display for OutOfMemory {
    ghost use Rattle.std.specs.Prelude.{Some, codes};

    ghost output = { λ _. Some (codes "out of memory") };

    fn fmt<W: fmt::Write>(&self, f: &mut fmt::Formatter<W>) -> fmt::Result {
        write!(f, "out of memory")
    }
}

impl Error for OutOfMemory {}

impl From<AllocError> for OutOfMemory {
    fn from(_error: AllocError) -> OutOfMemory {
        OutOfMemory
    }
}

/// Memory was refused for a cache, and this progress heard of no leaf.
#[derive(Drop)]
pub struct Untold<P> {
    /// Given back as it was.
    pub progress: P,
}

impl<P: Drop> From<Untold<P>> for OutOfMemory {
    fn from(_refused: Untold<P>) -> OutOfMemory {
        OutOfMemory
    }
}
