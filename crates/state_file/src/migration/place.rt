//! Looking at the place that records are to move to.

ghost use Rattle.std.specs.Prelude.{◌≡◌, IsTrue, IfErr, IfOk};
ghost use Rattle.state_file.specs.Disk.{LeavesOnly, MayLeave};
ghost use Rattle.state_file.specs.DiskCalls.{CountsFailures};
ghost use Rattle.state_file.specs.MigrateFault.{is_failed_migration};
ghost use Rattle.state_file.specs.Place.{FindsPlace, IsFreePlace, RefusesPlace};
ghost use Rattle.state_file.specs.inner.Place.{IsFreePlace-prop};

use crate::disk::Disk;
use crate::file::{SLOT, read_within, sync_and_len};
use crate::migration::MigrateFault;
use crate::refused::Refused;
use crate::slot::is_open;

/// A disk without a key, all synced. So a crash leaves nothing there that can sign.
#[derive(Drop)]
pub struct Place<E: Disk> {
    pub(super) disk: E,
    // whether it has under 257 bytes
    pub(super) short: bool,
    ghost free: { IsTrue (E.honest disk) → IsFreePlace short (E.state disk) } by { Prim.hlevel IsFreePlace-prop },
}

impl<E: Disk + Drop> Place<E> {
    ghost use Rattle.state_file.specs.Migration.{ChecksPlace, place_disk};

    /// Syncs a disk, and accepts it if it has no key: under 257 bytes, or a closed first gate. Else it is refused (50),
    /// as is one that fails (45); nothing else is refused. A refusal hands the disk back. Nothing is written: a crash
    /// leaves only what it could leave before. It takes no memory.
    pub fn check(new: E) -> Result<Self, Refused<E, MigrateFault>>
        ensures { ChecksPlace E.Disk new result }
    {
        let mut disk = new;
        match check_free(&mut disk) {
            Ok(short) => Ok(Place { disk, short }),
            Err(fault) => Err(Refused { fault, given: disk }),
        }
    }

    /// Gives the disk back.
    pub fn into_disk(self) -> E
        ensures { result ≡ place_disk self }
    {
        self.disk
    }
}

// Syncs, and looks for a key. Without one, answers whether there are under 257 bytes.
fn check_free<E: Disk>(disk: &mut E) -> Result<bool, MigrateFault>
    ensures free { IsTrue (E.honest disk.old) → IfOk result (λ short. IsFreePlace short (E.state disk.new)) }
    ensures answer { IsTrue (E.honest disk.old) → FindsPlace (E.state disk.old).content (E.state disk.new) result }
    ensures refuses { IfErr result RefusesPlace }
    ensures any_moment { IsTrue (E.honest disk.old) →
        LeavesOnly E.moment E.left_since disk.old disk.new (MayLeave (E.state disk.old)) }
    ensures counts { CountsFailures E.Disk is_failed_migration disk.old disk.new result }
{
    let len = sync_and_len(disk)?;
    if len < SLOT + 1 {
        return Ok(true);
    }
    let mut gate = [0];
    read_within(disk, 0, &mut gate)?;
    if is_open(gate[0]) {
        Err(MigrateFault::KeyThere)
    } else {
        Ok(false)
    }
}
