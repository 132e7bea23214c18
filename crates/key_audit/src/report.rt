//! What an audit of a state file is given, and what it answers.

use arrayvec::ArrayVec;
use sign_core::AnyPublic;
use thiserror::Error;

/// A state file as it once was.
#[derive(Clone, Copy, Debug, PartialEq, Eq)]
pub struct Anchor {
    /// How many records it had.
    pub count: u32,
    /// The last one's tag.
    pub tag: [u8; 32],
}

/// What a state file's records say of its key.
#[derive(Debug, PartialEq, Eq, Drop)]
pub struct Report {
    /// The public key.
    pub public: AnyPublic,
    /// How many records there are.
    pub records: u32,
    /// The last one's tag. With `records` it is an anchor.
    pub tag: [u8; 32],
    /// Free leaves of each level, in its current tree; 0 where it has none.
    pub left: ArrayVec<u32, 8>,
    /// The version of the file that carries the records on, if one does.
    pub moved: Option<u16>,
}

/// Why a state file isn't accepted.
#[derive(Clone, Copy, Debug, PartialEq, Eq, Error)]
pub enum AuditFault {
    /// 26: a call failed, and the place wasn't opened again since.
    #[error("a call failed, and the place was not opened again since")]
    Stopped,
    /// 40: there is no record.
    #[error("there is no record")]
    NoKey,
    /// 43: slot k spells no record, or its tag is wrong.
    #[error("slot {0} spells no record")]
    Damaged(u32),
    /// 44: record k may not follow those before it, which are legal.
    #[error("record {0} isn't legal where it stands")]
    Illegal(u32),
    /// 45: the device failed.
    #[error("the device failed")]
    DeviceFailed,
    /// 46: memory was refused.
    #[error("memory was refused")]
    OutOfMemory,
    /// 47: there are fewer records than the anchor counts, or it counts none.
    #[error("there are fewer records than the anchor counts, or it counts none")]
    AnchorCount,
    /// 48: the last record that the anchor counts has another tag.
    #[error("the last record that the anchor counts has another tag")]
    AnchorTag,
}

impl AuditFault {
    ghost use Rattle.std.specs.Prelude.{◌≡◌};
    ghost use Rattle.key_audit.specs.Audit.{audit_fault_name, audit_fault_number};

    /// The number that reports the fault: 26, 40 or 43 to 48.
    pub fn number(self) -> u8
        ensures { result ≡ audit_fault_number self }
    {
        match self {
            AuditFault::Stopped => 26,
            AuditFault::NoKey => 40,
            AuditFault::Damaged(_) => 43,
            AuditFault::Illegal(_) => 44,
            AuditFault::DeviceFailed => 45,
            AuditFault::OutOfMemory => 46,
            AuditFault::AnchorCount => 47,
            AuditFault::AnchorTag => 48,
        }
    }

    /// The name that is printed beside the number.
    pub fn name(self) -> &'static str
        ensures { result.now ≡ audit_fault_name self }
    {
        match self {
            AuditFault::Stopped => "Stopped",
            AuditFault::NoKey => "NoKey",
            AuditFault::Damaged(_) => "Damaged",
            AuditFault::Illegal(_) => "Illegal",
            AuditFault::DeviceFailed => "DeviceFailed",
            AuditFault::OutOfMemory => "OutOfMemory",
            AuditFault::AnchorCount => "AnchorCount",
            AuditFault::AnchorTag => "AnchorTag",
        }
    }
}
