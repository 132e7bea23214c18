//! An open file of the machine, by the calls of the system.

use crate::file_calls::FileCalls;
use std::fs::File;
use std::io;
use std::io::ErrorKind;
use std::os::unix::fs::FileExt;

/// What a state file is opened for.
#[derive(Clone, Copy, Debug, PartialEq, Eq)]
pub enum Access {
    /// Reading alone.
    Read,
    /// Reading and writing.
    ReadAndWrite,
}

/// An open file of the machine. Each call is one of the system.
///
/// It claims nothing, since no contract of the standard library says what a file holds. That these four calls do what
/// an honest file promises is trusted.
#[derive(Drop)]
pub struct SystemFile {
    pub file: File,
    access: Access,
}

impl SystemFile {
    /// The calls on this file, which was opened for this access.
    pub fn new(file: File, access: Access) -> Self {
        SystemFile { file, access }
    }
}

impl FileCalls for SystemFile {
    ghost use Rattle.state_file.specs.Disk.{settled};
    ghost use Rattle.command.specs.inner.SystemFile.{never};
    ghost use Rattle.std.specs.Prelude.{[], false, ⊤};

    ghost state = { λ _. settled [] };

    ghost moment = { λ _. 0 };

    ghost left_since = { λ _ _ _. ⊤ };

    ghost honest = { λ _. false };

    ghost gives_bytes = { λ _ is_honest. never is_honest };

    ghost shows = { λ _ is_honest. never is_honest };

    ghost counts_now = { λ _ _ _ is_honest _ _. never is_honest };

    ghost only_now = { λ _ _ is_honest _. never is_honest };

    fn len(&mut self) -> io::Result<u64> {
        match self.file.metadata() {
            Ok(metadata) => Ok(metadata.len()),
            Err(error) => Err(error),
        }
    }

    fn read_at(&mut self, at: u64, into: &mut [u8]) -> io::Result<usize> {
        self.file.read_at(into, at)
    }

    fn write_at(&mut self, at: u64, bytes: &[u8]) -> io::Result<usize> {
        self.file.write_at(bytes, at)
    }

    /// A file opened for reading alone counts as synced where its file system knows no sync.
    fn sync(&mut self) -> io::Result<()> {
        match self.file.sync_data() {
            Err(error) if self.access == Access::Read && error.kind() == ErrorKind::InvalidInput =>
                { Ok(()) }
            answer => answer,
        }
    }
}
