//! A disk in a buffer of fixed size, whose calls allocate nothing.

ghost use Rattle.std.specs.Prelude.{[], false, ⊤};
ghost use Rattle.state_file.specs.Disk.{settled};

use super::*;
use state_file::DiskFault;
use typecodes::Count;

// It isn't honest: no law says what a crash leaves.
#[derive(Drop)]
pub(super) struct Room {
    bytes: Vec<u8>,
    // how many of them the file has
    size: usize,
    failures: Count,
    past_ends: Count,
}

impl Room {
    // An empty file, with room for 2000 bytes.
    pub(super) fn of(alloc: Global) -> Option<Self> {
        let mut bytes = Vec::new(alloc);
        bytes.resize(2000, 0).ok()?;
        Some(Room {
            bytes,
            size: 0,
            failures: Count::new(),
            past_ends: Count::new(),
        })
    }
}

// None where `bytes` end before `into` is full.
fn copy_from(bytes: &[u8], at: u64, into: &mut [u8]) -> Option<()> {
    let start = usize::try_from(at).ok()?;
    let part = bytes.get(start..start.checked_add(into.len())?)?;
    if part.len() != into.len() {
        return None;
    }
    into.copy_from_slice(part);
    Some(())
}

// The end of the copied bytes; None where there is no room for them.
fn copy_into(room: &mut [u8], at: u64, bytes: &[u8]) -> Option<usize> {
    let start = usize::try_from(at).ok()?;
    let end = start.checked_add(bytes.len())?;
    let part = room.get_mut(start..end)?;
    if part.len() != bytes.len() {
        return None;
    }
    part.copy_from_slice(bytes);
    Some(end)
}

impl Disk for Room {
    ghost use Rattle.std.proofs.Common.{sym, true≢false};

    ghost state = { λ _. settled [] };

    ghost moment = { λ _. 0 };

    ghost left_since = { λ _ _ _. ⊤ };

    ghost failures = { λ room. room.failures };

    ghost past_ends = { λ room. room.past_ends };

    ghost honest = { λ _. false };

    ghost gives_bytes = { λ _ never. absurd (true≢false (sym never)) };

    ghost shows = { λ _ never. absurd (true≢false (sym never)) };

    ghost counts_now = { λ _ _ _ never. absurd (true≢false (sym never)) };

    ghost only_now = { λ _ _ never. absurd (true≢false (sym never)) };

    fn len(&mut self) -> Result<u64, DiskFault> {
        Ok(self.size as u64)
    }

    fn read_at(&mut self, at: u64, into: &mut [u8]) -> Result<(), DiskFault> {
        let there = self.size.min(self.bytes.len());
        if copy_from(&self.bytes[..there], at, into).is_none() {
            self.failures.add_one();
            self.past_ends.add_one();
            return Err(DiskFault::PastEnd);
        }
        Ok(())
    }

    fn write_at(&mut self, at: u64, bytes: &[u8]) -> Result<(), DiskFault> {
        match copy_into(&mut self.bytes, at, bytes) {
            Some(end) => {
                self.size = self.size.max(end);
                Ok(())
            }
            None => {
                self.failures.add_one();
                Err(DiskFault::Failed)
            }
        }
    }

    fn sync(&mut self) -> Result<(), DiskFault> {
        Ok(())
    }
}
