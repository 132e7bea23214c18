//! Why bytes spell no value.

ghost use Rattle.std.specs.Prelude.{◌≡◌};
ghost use Rattle.typecodes.specs.Fault.{cause_name, cause_number};

use std::fmt;
use thiserror::Error;

/// What is wrong with a field. Refusals print these texts.
#[derive(Clone, Copy, Debug, PartialEq, Eq, Error)]
pub enum Cause {
    /// 1: the field doesn't fit into the bytes that are left.
    #[error("a field is cut")]
    Truncated,
    /// 2: a type code that names no type of the profile.
    #[error("a code names no type")]
    UnknownType,
    /// 3: a number of levels that is out of range.
    #[error("a number of levels is out of range")]
    LevelCount,
    /// 4: a leaf's index at or above the number of leaves.
    #[error("an index is past the last leaf")]
    LeafOutOfRange,
    /// 5: bytes follow the value.
    #[error("bytes follow the value")]
    Trailing,
}

impl Cause {
    /// The number that reports the fault, 1 to 5.
    pub fn number(self) -> u8
        ensures { result ≡ cause_number self }
    {
        match self {
            Cause::Truncated => 1,
            Cause::UnknownType => 2,
            Cause::LevelCount => 3,
            Cause::LeafOutOfRange => 4,
            Cause::Trailing => 5,
        }
    }

    /// The name that is printed beside the number.
    pub fn name(self) -> &'static str
        ensures { result.now ≡ cause_name self }
    {
        match self {
            Cause::Truncated => "Truncated",
            Cause::UnknownType => "UnknownType",
            Cause::LevelCount => "LevelCount",
            Cause::LeafOutOfRange => "LeafOutOfRange",
            Cause::Trailing => "Trailing",
        }
    }
}

/// The first fault in a list of bytes.
#[derive(Clone, Copy, Debug, PartialEq, Eq, Error)]
#[error("{cause} at {place}")]
pub struct ReadFault {
    /// The offset of the faulty field, or of the first byte past the value.
    pub place: u32,
    /// What is wrong.
    pub cause: Cause,
}
