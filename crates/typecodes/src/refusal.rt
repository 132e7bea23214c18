//! Why a signature is refused.

ghost use Rattle.std.specs.Prelude.{◌≡◌};
ghost use Rattle.typecodes.specs.Refusal.{refusal_name, refusal_number};

use crate::fault::ReadFault;
use std::fmt;
use thiserror::Error;

/// The first reason why a signature is refused. Levels count from 0, the top tree; a scheme of one tree has level 0
/// alone.
#[derive(Clone, Copy, Debug, PartialEq, Eq, Error)]
pub enum Refusal {
    /// 1 to 5: the bytes spell no signature.
    #[error("the signature can't be read: {0}")]
    Unreadable(ReadFault),
    /// 10: the signature's tree type or one-time type isn't the key's.
    #[error("level {0}: the signature's types aren't the key's")]
    TypeMismatch(u8),
    /// 11: the signature's number of levels isn't the key's.
    #[error("the signature's levels aren't the key's")]
    LevelMismatch,
    /// 12: the root to which the signature leads isn't the key's.
    #[error("level {0}: the signature doesn't lead to the key's root")]
    RootMismatch(u8),
    /// 14: a read of the message failed, even if only interrupted, or it gave 2^60 bytes.
    #[error("the message can't be read")]
    MessageRead,
}

impl Refusal {
    /// The number that reports the refusal: 1 to 5, 10 to 12 or 14.
    pub fn number(&self) -> u8
        ensures { result ≡ refusal_number self.now }
    {
        match self {
            Refusal::Unreadable(fault) => fault.cause.number(),
            Refusal::TypeMismatch(_) => 10,
            Refusal::LevelMismatch => 11,
            Refusal::RootMismatch(_) => 12,
            Refusal::MessageRead => 14,
        }
    }

    /// The name that is printed beside the number.
    pub fn name(&self) -> &'static str
        ensures { result.now ≡ refusal_name self.now }
    {
        match self {
            Refusal::Unreadable(fault) => fault.cause.name(),
            Refusal::TypeMismatch(_) => "TypeMismatch",
            Refusal::LevelMismatch => "LevelMismatch",
            Refusal::RootMismatch(_) => "RootMismatch",
            Refusal::MessageRead => "MessageRead",
        }
    }
}
