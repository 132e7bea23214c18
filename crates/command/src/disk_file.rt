//! A file over a disk: over an honest one, such as a `MemoryDisk`, the file is honest.

ghost use Rattle.std.specs.Prelude.{◌≡◌, IfOk, IsTrue, true};
ghost use Rattle.state_file.specs.Disk.{settled};
ghost use Rattle.state_file.specs.declared.disk.memory_disk.MemoryDisk.{MemoryDisk};
ghost use Rattle.command.specs.declared.disk_file.DiskFile.{DiskFile};
ghost use Rattle.command.specs.declared.file_disk.FileDisk.{FileDisk};
ghost use Rattle.command.specs.declared.state.StateFile.{StateFile};

use crate::file_calls::FileCalls;
use crate::file_disk::FileDisk;
use crate::state::StateFile;
use state_file::{Disk, MemoryDisk};
use std::alloc::{AllocError, Global};
use std::io;
use std::io::ErrorKind;

/// A file over a disk. A read past the end fails. The program has none: this shows that a file can be honest.
#[derive(Drop)]
pub struct DiskFile<D> {
    pub disk: D,
}

impl<D: Disk> FileCalls for DiskFile<D> {
    ghost state = { λ file. D.state file.disk };

    ghost moment = { λ file. D.moment file.disk };

    ghost left_since = { λ file. D.left_since file.disk };

    ghost honest = { λ file. D.honest file.disk };

    ghost gives_bytes = { λ file is_honest. D.gives_bytes file.disk is_honest };

    ghost shows = { λ file is_honest. D.shows file.disk is_honest };

    ghost counts_now = { λ file t c is_honest early left. D.counts_now file.disk t c is_honest early left };

    ghost only_now = { λ file c is_honest since. D.only_now file.disk c is_honest since };

    fn len(&mut self) -> io::Result<u64> {
        match self.disk.len() {
            Ok(length) => Ok(length),
            Err(_) => Err(failed()),
        }
    }

    fn read_at(&mut self, at: u64, into: &mut [u8]) -> io::Result<usize> {
        if into.is_empty() {
            return Ok(0);
        }
        match self.disk.read_at(at, into) {
            Ok(()) => Ok(into.len()),
            Err(_) => Err(failed()),
        }
    }

    fn write_at(&mut self, at: u64, bytes: &[u8]) -> io::Result<usize> {
        if bytes.is_empty() {
            return Ok(0);
        }
        match self.disk.write_at(at, bytes) {
            Ok(()) => Ok(bytes.len()),
            Err(_) => Err(failed()),
        }
    }

    fn sync(&mut self) -> io::Result<()> {
        match self.disk.sync() {
            Ok(()) => Ok(()),
            Err(_) => Err(failed()),
        }
    }
}

/// A file in memory with these bytes, all synced. It is honest.
pub fn memory_file(alloc: Global, bytes: &[u8]) -> Result<DiskFile<MemoryDisk>, AllocError>
    ensures honest { IfOk result (λ file. IsTrue (⟦<DiskFile<MemoryDisk> as FileCalls>⟧.honest file)) }
    ensures state { IfOk result (λ file. ⟦<DiskFile<MemoryDisk> as FileCalls>⟧.state file ≡ settled bytes.now) }
{
    Ok(DiskFile {
        disk: MemoryDisk::of(alloc, bytes)?,
    })
}

/// The program's own types are an honest disk over a file in memory, while the state file is locked.
pub fn honest_disk_law()
    ensures { (disk : FileDisk (StateFile (DiskFile MemoryDisk))) → disk.file.is_locked ≡ true →
        IsTrue (⟦<FileDisk<StateFile<'static, DiskFile<MemoryDisk>>> as Disk>⟧.honest disk) }
{}

fn failed() -> io::Error {
    io::Error::from(ErrorKind::Other)
}
