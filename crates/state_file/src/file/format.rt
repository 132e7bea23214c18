//! Preparing a place for the records of a key.

ghost use Rattle.std.specs.Prelude.{◌≡◌, IsTrue};
ghost use Rattle.state_file.specs.Disk.{LeavesOnly};
ghost use Rattle.state_file.specs.DiskCalls.{CountsFailures};
ghost use Rattle.state_file.specs.Format.{Formats, LeftByFormat, is_failed_format};

use crate::disk::{Disk, DiskFault};
use crate::file::gates::{SLOT, read_within, sync_and_len, write_synced};
use crate::slot::is_open;
use thiserror::Error;

/// Why a place isn't prepared.
#[derive(Clone, Copy, Debug, PartialEq, Eq, Error)]
pub enum FormatFault {
    /// 41: there are more than 257 bytes, and no key among them.
    #[error("the file is no key file")]
    NotKeyFile,
    /// 45: the device failed.
    #[error("the device failed")]
    DeviceFailed,
    /// 50: there is a key.
    #[error("there is a key")]
    KeyThere,
}

impl FormatFault {
    ghost use Rattle.state_file.specs.Format.{format_fault_name, format_fault_number};

    /// The number that reports the fault: 41, 45 or 50.
    pub fn number(self) -> u8
        ensures { result ≡ format_fault_number self }
    {
        match self {
            FormatFault::NotKeyFile => 41,
            FormatFault::DeviceFailed => 45,
            FormatFault::KeyThere => 50,
        }
    }

    /// The name that is printed beside the number.
    pub fn name(self) -> &'static str
        ensures { result.now ≡ format_fault_name self }
    {
        match self {
            FormatFault::NotKeyFile => "NotKeyFile",
            FormatFault::DeviceFailed => "DeviceFailed",
            FormatFault::KeyThere => "KeyThere",
        }
    }
}

impl From<DiskFault> for FormatFault {
    ghost use Rattle.state_file.specs.declared.file.format.FormatFault.TheVariants.{DeviceFailed};

    ghost from_gives = { λ _ e. e ≡ DeviceFailed };

    fn from(_: DiskFault) -> Self {
        FormatFault::DeviceFailed
    }
}

/// Prepares a place without a key: it then has no slot, and a closed gate. Of fewer than 257 bytes only the first
/// changes, of 257 none.
pub(crate) fn format<D: Disk>(disk: &mut D) -> Result<(), FormatFault>
    ensures answer { IsTrue (D.honest disk.old) → Formats (D.state disk.old).content (D.state disk.new) result }
    ensures any_moment { IsTrue (D.honest disk.old) →
        LeavesOnly D.moment D.left_since disk.old disk.new (LeftByFormat (D.state disk.old)) }
    ensures counts { CountsFailures D.Disk is_failed_format disk.old disk.new result }
{
    let len = sync_and_len(disk)?;
    if len < SLOT + 1 {
        write_synced(disk, 0, &[0])?;
        return Ok(());
    }
    let mut gate = [0];
    read_within(disk, 0, &mut gate)?;
    if is_open(gate[0]) {
        Err(FormatFault::KeyThere)
    } else if len > SLOT + 1 {
        Err(FormatFault::NotKeyFile)
    } else {
        Ok(())
    }
}
