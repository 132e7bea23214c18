//! Why a signer refuses, and why the serving of requests ends.

ghost use Rattle.std.specs.Prelude.{◌≡◌};

use thiserror::Error;

/// Why a call of a signer is refused.
#[derive(Clone, Copy, Debug, PartialEq, Eq, Error)]
pub enum SignFault {
    /// 21: the name is bound to another digest; nothing changed.
    #[error("the name is bound to another digest")]
    Changed,
    /// 22: no leaf is free; nothing changed.
    #[error("no leaf is free")]
    Exhausted,
    /// 23: the random source failed; no name was bound.
    #[error("the random source failed")]
    RandomFailed,
    /// 24: the drawn I stands in the records; nothing of that draw was recorded.
    #[error("the drawn I stands in the records")]
    RandomRepeated,
    /// 25: the store's device failed; the signer is closed from then on.
    #[error("the store's device failed")]
    StoreFailed,
    /// 26: the signer or its store is closed; nothing changed.
    #[error("the signer or its store is closed")]
    Stopped,
    /// 27: the message can't be read; no name was bound.
    #[error("the message can't be read")]
    MessageRead,
    /// 28: record k isn't sound; nothing changed.
    #[error("record {0} isn't sound")]
    Damaged(u32),
    /// 29: memory was refused; no name was bound.
    #[error("memory was refused")]
    OutOfMemory,
    /// 30: the store has no room for the records; nothing changed.
    #[error("the store has no room for the records")]
    LedgerFull,
    /// 31: the records go on in another file; nothing changed.
    #[error("the records go on in another file")]
    Moved,
    /// 32: the tree has no such leaves to retire; nothing changed.
    #[error("the tree has no such leaves to retire")]
    RetireRange,
    /// 33: the name is longer than a file of the key's version can hold; nothing changed.
    #[error("the name is longer than the key's file can hold")]
    LongName,
    /// 40: the store has no key.
    #[error("the store has no key")]
    NoKey,
    /// 43: slot k of the store holds no readable record.
    #[error("slot {0} spells no record")]
    Unreadable(u32),
    /// 44: record k isn't legal where it stands; the records before it are.
    #[error("record {0} isn't legal where it stands")]
    Illegal(u32),
    /// 45: the store's device failed while its records were read.
    #[error("the store's device failed while its records were read")]
    DeviceFailed,
    /// 46: memory was refused while the records were read.
    #[error("memory was refused while the records were read")]
    NoMemoryToOpen,
    /// 50: the store has a key; nothing changed.
    #[error("the store has a key")]
    KeyThere,
}

/// Why `serve` ends before its input does, or in the middle of a frame.
#[derive(Clone, Copy, Debug, PartialEq, Eq, Error)]
pub enum ServeFault {
    /// 27: the input can't be read, or ends inside a message.
    #[error("a message or the input can't be read")]
    MessageRead,
    /// 35: the input ends inside a frame, before its message.
    #[error("the input ends inside a frame")]
    FrameCut,
    /// 36: a reply can't be written; what was bound stays bound.
    #[error("a reply can't be written")]
    WriteFailed,
}

impl ServeFault {
    ghost use Rattle.sign_core.specs.Fault.{serve_fault_name, serve_fault_number};

    /// The number that reports the fault: 27, 35 or 36.
    pub fn number(self) -> u8
        ensures { result ≡ serve_fault_number self }
    {
        match self {
            ServeFault::MessageRead => 27,
            ServeFault::FrameCut => 35,
            ServeFault::WriteFailed => 36,
        }
    }

    /// The name that is printed beside the number.
    pub fn name(self) -> &'static str
        ensures { result.now ≡ serve_fault_name self }
    {
        match self {
            ServeFault::MessageRead => "MessageRead",
            ServeFault::FrameCut => "FrameCut",
            ServeFault::WriteFailed => "WriteFailed",
        }
    }
}

impl SignFault {
    ghost use Rattle.sign_core.specs.Fault.{sign_fault_name, sign_fault_number};

    // Its number and its name.
    fn report(self) -> (u8, &'static str)
        ensures number { result.0 ≡ sign_fault_number self }
        ensures name { result.1.now ≡ sign_fault_name self }
    {
        match self {
            SignFault::Changed => (21, "Changed"),
            SignFault::Exhausted => (22, "Exhausted"),
            SignFault::RandomFailed => (23, "RandomFailed"),
            SignFault::RandomRepeated => (24, "RandomRepeated"),
            SignFault::StoreFailed => (25, "StoreFailed"),
            SignFault::Stopped => (26, "Stopped"),
            SignFault::MessageRead => (27, "MessageRead"),
            SignFault::Damaged(_) => (28, "Damaged"),
            SignFault::OutOfMemory => (29, "OutOfMemory"),
            SignFault::LedgerFull => (30, "LedgerFull"),
            SignFault::Moved => (31, "Moved"),
            SignFault::RetireRange => (32, "RetireRange"),
            SignFault::LongName => (33, "LongName"),
            SignFault::NoKey => (40, "NoKey"),
            SignFault::Unreadable(_) => (43, "Damaged"),
            SignFault::Illegal(_) => (44, "Illegal"),
            SignFault::DeviceFailed => (45, "DeviceFailed"),
            SignFault::NoMemoryToOpen => (46, "OutOfMemory"),
            SignFault::KeyThere => (50, "KeyThere"),
        }
    }

    /// The number that reports the fault.
    pub fn number(self) -> u8
        ensures { result ≡ sign_fault_number self }
    {
        self.report().0
    }

    /// The name that is printed beside the number.
    pub fn name(self) -> &'static str
        ensures { result.now ≡ sign_fault_name self }
    {
        self.report().1
    }
}
