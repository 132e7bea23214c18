//! Migration of a key's records from a file of version 1 to one of version 2. The new place is looked at, the old file
//! is sealed, and the place is filled. No crash leaves both files able to sign.

ghost use Rattle.std.specs.Prelude.{◌≡◌};

mod filling;
mod place;
mod sealed;
mod sealing;

use crate::disk::DiskFault;
pub use filling::fill;
pub use place::Place;
pub use sealed::Sealed;
pub use sealing::seal;
use thiserror::Error;

/// Why records aren't migrated.
#[derive(Clone, Copy, Debug, PartialEq, Eq, Error)]
pub enum MigrateFault {
    /// 26: a call of the old store failed, and its place wasn't opened again since.
    #[error("a call failed, and the place was not opened again since")]
    Stopped,
    /// 40: the old place has no key.
    #[error("there is no key")]
    NoKey,
    /// 41: the old file's first slot holds no Key.
    #[error("the file is no key file")]
    NotKeyFile,
    /// 42: the old file isn't of version 1.
    #[error("the key file is not of version 1")]
    Version,
    /// 43: this slot of the old file is the first damaged one.
    #[error("slot {0} is damaged")]
    Damaged(u32),
    /// 44: this one of the old records is the first that may not follow those before it.
    #[error("record {0} is not legal")]
    Illegal(u32),
    /// 45: a device failed.
    #[error("the device failed")]
    DeviceFailed,
    /// 46: memory was refused.
    #[error("out of memory")]
    OutOfMemory,
    /// 50: there is a key at the new place.
    #[error("there is a key")]
    KeyThere,
    /// 52: the old store is full, and its last record is no Moved.
    #[error("the store is full")]
    Full,
}

impl MigrateFault {
    ghost use Rattle.state_file.specs.MigrateFault.{migrate_fault_name, migrate_fault_number};

    /// The number that reports the fault: 26, 40 to 46, 50 or 52.
    pub fn number(self) -> u8
        ensures { result ≡ migrate_fault_number self }
    {
        match self {
            MigrateFault::Stopped => 26,
            MigrateFault::NoKey => 40,
            MigrateFault::NotKeyFile => 41,
            MigrateFault::Version => 42,
            MigrateFault::Damaged(_) => 43,
            MigrateFault::Illegal(_) => 44,
            MigrateFault::DeviceFailed => 45,
            MigrateFault::OutOfMemory => 46,
            MigrateFault::KeyThere => 50,
            MigrateFault::Full => 52,
        }
    }

    /// The name that is printed beside the number.
    pub fn name(self) -> &'static str
        ensures { result.now ≡ migrate_fault_name self }
    {
        match self {
            MigrateFault::Stopped => "Stopped",
            MigrateFault::NoKey => "NoKey",
            MigrateFault::NotKeyFile => "NotKeyFile",
            MigrateFault::Version => "Version",
            MigrateFault::Damaged(_) => "Damaged",
            MigrateFault::Illegal(_) => "Illegal",
            MigrateFault::DeviceFailed => "DeviceFailed",
            MigrateFault::OutOfMemory => "OutOfMemory",
            MigrateFault::KeyThere => "KeyThere",
            MigrateFault::Full => "Full",
        }
    }
}

impl From<DiskFault> for MigrateFault {
    ghost use Rattle.state_file.specs.declared.migration.MigrateFault.TheVariants.{DeviceFailed};

    ghost from_gives = { λ _ e. e ≡ DeviceFailed };

    fn from(_: DiskFault) -> Self {
        MigrateFault::DeviceFailed
    }
}
