//! Sealing the file that records are to move from.

ghost use Rattle.std.specs.Prelude.{◌≡◌, ◌≢◌, ◌⊎◌, ◌∷◌, [], true, false, length, IsTrue, IfErr, OnOk};
ghost use Rattle.state_file.specs.Carried.{with_moved};
ghost use Rattle.state_file.specs.Disk.{ChangesOnly, LeavesOnly};
ghost use Rattle.state_file.specs.DiskCalls.{CountsFailures};
ghost use Rattle.state_file.specs.File.{StandsFor};
ghost use Rattle.state_file.specs.FileStore.{WhileStoreRuns, disk_of, has_stopped, records_of};
ghost use Rattle.state_file.specs.Gates.{AddsSlot, slot_and_gate};
ghost use Rattle.state_file.specs.Laws.{IsLegal, has_moved};
ghost use Rattle.state_file.specs.MigrateFault.{is_failed_migration};
ghost use Rattle.state_file.specs.Migration.{SealsStore};
ghost use Rattle.state_file.specs.Sealing.{Seals};
ghost use Rattle.state_file.specs.Slot.{file_version};
ghost use Rattle.state_file.specs.declared.record.Version.TheVariants.{One};

use crate::disk::Disk;
use crate::migration::{MigrateFault, Sealed};
use crate::record::Record;
use crate::refused::Refused;
use crate::store::{FileStore, Store, StoreFault};

/// Appends a Moved, unless the records end with one. The caller gives legal records of version 1. The only refusals:
///
/// - 26: the store had stopped. It is handed back as it was.
/// - 52: it is full, and doesn't end with a Moved. It is handed back as it was.
/// - 45: the device failed. The old records stand, or these with the Moved.
///
/// A crash at any moment leaves the old records, or these with the Moved. Only the new slot and the gate after it may
/// differ from the old content. It takes no memory.
pub fn seal<D: Disk + Drop>(
    old: FileStore<D>,
) -> Result<Sealed<D>, Refused<FileStore<D>, MigrateFault>>
    requires legal { IsTrue (D.honest (disk_of old)) → IsLegal (records_of old) }
    requires version { IsTrue (D.honest (disk_of old)) → file_version (records_of old) ≡ One }
    ensures { SealsStore D.Disk old result }
{
    let mut store = old;
    match append_moved(&mut store) {
        Ok(()) => Ok(Sealed { store }),
        Err(fault) => Err(Refused {
            fault,
            given: store,
        }),
    }
}

fn append_moved<D: Disk + Drop>(store: &mut FileStore<D>) -> Result<(), MigrateFault>
    requires { IsTrue (D.honest (disk_of store.old)) → IsLegal (records_of store.old) }
    ensures answer { Seals (records_of store.old) (has_stopped store.old) (records_of store.new) (has_stopped store.new)
        (D.failures (disk_of store.old)) (D.failures (disk_of store.new)) result }
    ensures refusal_keeps_store { IfErr result (λ fault. fault ≢ MigrateFault.DeviceFailed → store.new ≡ store.old) }
    ensures stays_sealed { has_moved (records_of store.old) ≡ true → store.new ≡ store.old }
    ensures any_moment { WhileStoreRuns D.Disk store.old
        (LeavesOnly D.moment D.left_since (disk_of store.old) (disk_of store.new)
        (λ c. StandsFor (records_of store.old) c ⊎ StandsFor (with_moved (records_of store.old)) c)) }
    ensures bytes { WhileStoreRuns D.Disk store.old
        (LeavesOnly D.moment D.left_since (disk_of store.old) (disk_of store.new)
        (ChangesOnly (slot_and_gate (length (records_of store.old)) ∷ []) (D.state (disk_of store.old)).content)) }
    ensures adds { IsTrue (D.honest (disk_of store.old)) → has_moved (records_of store.old) ≡ false →
        OnOk result
        (AddsSlot (length (records_of store.old)) (D.state (disk_of store.old)).content
        (D.state (disk_of store.new))) }
    ensures counts { CountsFailures D.Disk is_failed_migration (disk_of store.old) (disk_of store.new) result }
{
    if store.has_stopped() {
        return Err(MigrateFault::Stopped);
    }
    if store.has_moved() {
        return Ok(());
    }
    match store.append(&Record::Moved) {
        Ok(()) => Ok(()),
        Err(StoreFault::Full) => Err(MigrateFault::Full),
        Err(_) => Err(MigrateFault::DeviceFailed),
    }
}
