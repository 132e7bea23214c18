//! Filling the place that records move to.

ghost use Rattle.std.specs.Prelude.{◌≡◌, ◌+◌, ◌*◌, ◌-◌, ◌<◌, ◌≤◌, ◌∷◌, [], ℕ, List, true, false, length, IsTrue};
ghost use Rattle.std.specs.Prelude.{IfOk, OnOk};
ghost use Rattle.state_file.specs.Carried.{carried};
ghost use Rattle.state_file.specs.Disk.{ChangesOnly, IsSynced, LeavesOnly};
ghost use Rattle.state_file.specs.File.{IsClosed, IsFileOf, SpellsRecords};
ghost use Rattle.state_file.specs.FileStore.{disk_of, has_stopped, records_of};
ghost use Rattle.state_file.specs.Filling.{CountsEither, LeftByFill};
ghost use Rattle.state_file.specs.inner.Filling.{IsCopied, IsUnfinished, LoadsCarried};
ghost use Rattle.state_file.specs.inner.Filling.{after_first_gate, gate_opened};
ghost use Rattle.state_file.specs.Laws.{has_moved};
ghost use Rattle.state_file.specs.Migration.{FillsPlace};
ghost use Rattle.state_file.specs.Place.{IsFreePlace};
ghost use Rattle.state_file.specs.Slot.{FitsVersion};
ghost use Rattle.state_file.specs.inner.StoreReads.{ReadsStore};

use crate::disk::{Disk, DiskFault};
use crate::file::{finish, prepare, write_slot};
use crate::migration::{MigrateFault, Place, Sealed};
use crate::record::{Record, Version};
use crate::slot::{FIRST_TAG, record_bytes, tag};
use crate::store::{FileStore, Store, StoreFault};

// How many slots of the place are written, and the last one's tag.
#[derive(Drop)]
struct Copied {
    count: u32,
    tag: [u8; 32],
}

/// Writes a sealed file's records, without the Moved, to a place, as a file of version 2, and gives both disks back.
/// Its first gate is opened once all else is synced. So a crash leaves the old file as it is, and the place without a
/// key or with all of these records.
///
/// Answers the number of records, which are then synced. Else 45, exactly where a call of either disk was refused; or
/// 43 for a damaged slot, over an old disk that isn't honest.
///
/// The old disk is only read. Of the new one no byte changes from offset 256·N + 1 on, for N records. It takes no
/// memory.
pub fn fill<D: Disk + Drop, E: Disk + Drop>(
    sealed: Sealed<D>,
    place: Place<E>,
) -> (D, E, Result<u32, MigrateFault>)
    ensures { FillsPlace D.Disk E.Disk sealed place result.0 result.1 result.2 }
{
    let mut store = sealed.store;
    let mut disk = place.disk;
    let answer = fill_place(&mut store, &mut disk, place.short);
    (store.into_disk(), disk, answer)
}

// Record k, which isn't the final Moved, as a file of version 2 has it.
fn load_carried<D: Disk + Drop>(store: &mut FileStore<D>, k: u32) -> Result<Record, MigrateFault>
    requires within { k + 1 < length (records_of store.old) }
    requires moved { has_moved (records_of store.old) ≡ true }
    requires running { has_stopped store.old ≡ false }
    ensures answer { LoadsCarried (D.honest (disk_of store.old)) (records_of store.old) k (has_stopped store.new)
        (D.failures (disk_of store.old)) (D.failures (disk_of store.new)) result }
    ensures fits { IfOk result (λ entry. FitsVersion Version.Two entry) }
    ensures reads { ReadsStore D.Disk store.old store.new }
{
    match store.load(k) {
        Ok(Some(entry)) => Ok(entry.carried()),
        Err(StoreFault::Damaged(slot)) => Err(MigrateFault::Damaged(slot)),
        Ok(None) | Err(_) => Err(MigrateFault::DeviceFailed),
    }
}

// Writes the next slot.
fn copy_slot<D: Disk + Drop, E: Disk + Drop>(
    store: &mut FileStore<D>,
    disk: &mut E,
    copied: &mut Copied,
) -> Result<(), MigrateFault>
    requires within { copied.old.count + 1 < length (records_of store.old) }
    requires moved { has_moved (records_of store.old) ≡ true }
    requires running { has_stopped store.old ≡ false }
    ensures count { OnOk result (copied.new.count ≡ copied.old.count + 1) }
    ensures running { OnOk result (has_stopped store.new ≡ false) }
    ensures reads { ReadsStore D.Disk store.old store.new }
    ensures copied { IsTrue (D.honest (disk_of store.old)) → IsTrue (E.honest disk.old) →
        IsCopied (carried (records_of store.old)) copied.old.count copied.old.tag (E.state disk.old).content →
        OnOk result
        (IsCopied (carried (records_of store.old)) copied.new.count copied.new.tag (E.state disk.new).content) }
    ensures keeps { (end : ℕ) (base : List ℕ) → IsTrue (E.honest disk.old) → 256 * copied.old.count + 257 ≤ end →
        IsUnfinished end base (E.state disk.old) → IsUnfinished end base (E.state disk.new) }
    ensures any_moment { (end : ℕ) (base : List ℕ) → IsTrue (E.honest disk.old) →
        256 * copied.old.count + 257 ≤ end → IsUnfinished end base (E.state disk.old) →
        LeavesOnly E.moment E.left_since disk.old disk.new (ChangesOnly (after_first_gate end ∷ []) base) }
    ensures failures { CountsEither (D.honest (disk_of store.old)) (D.failures (disk_of store.old))
        (D.failures (disk_of store.new)) (E.failures disk.old) (E.failures disk.new) result }
    ensures past_ends { E.past_ends disk.new ≡ E.past_ends disk.old }
    ensures honest { E.honest disk.new ≡ E.honest disk.old }
{
    let entry = load_carried(store, copied.count)?;
    let fields = record_bytes(Version::Two, &entry);
    let next_tag = tag(&copied.tag, &fields);
    write_slot(disk, copied.count, &fields, &next_tag)?;
    copied.count += 1;
    copied.tag = next_tag;
    Ok(())
}

// Writes all slots.
fn copy_slots<D: Disk + Drop, E: Disk + Drop>(
    store: &mut FileStore<D>,
    disk: &mut E,
) -> Result<(), MigrateFault>
    requires moved { has_moved (records_of store.old) ≡ true }
    requires running { has_stopped store.old ≡ false }
    ensures reads { ReadsStore D.Disk store.old store.new }
    ensures copied { IsTrue (D.honest (disk_of store.old)) → IsTrue (E.honest disk.old) →
        IsClosed (E.state disk.old).content 0 →
        OnOk result (IsFileOf (carried (records_of store.old)) (gate_opened (E.state disk.new).content)) }
    ensures keeps { IsTrue (E.honest disk.old) → IsSynced (E.state disk.old) →
        IsUnfinished (256 * (length (records_of store.old) - 1) + 1) (E.state disk.old).content (E.state disk.new) }
    ensures any_moment { IsTrue (E.honest disk.old) → IsSynced (E.state disk.old) →
        LeavesOnly E.moment E.left_since disk.old disk.new
        (ChangesOnly (after_first_gate (256 * (length (records_of store.old) - 1) + 1) ∷ [])
        (E.state disk.old).content) }
    ensures failures { CountsEither (D.honest (disk_of store.old)) (D.failures (disk_of store.old))
        (D.failures (disk_of store.new)) (E.failures disk.old) (E.failures disk.new) result }
    ensures past_ends { E.past_ends disk.new ≡ E.past_ends disk.old }
    ensures honest { E.honest disk.new ≡ E.honest disk.old }
{
    let count = store.count() - 1;
    let mut copied = Copied {
        count: 0,
        tag: FIRST_TAG,
    };
    while copied.count < count {
        copy_slot(store, disk, &mut copied)?;
    }
    Ok(())
}

// Prepares the place, writes all slots, and opens the first gate.
fn fill_place<D: Disk + Drop, E: Disk + Drop>(
    store: &mut FileStore<D>,
    disk: &mut E,
    short: bool,
) -> Result<u32, MigrateFault>
    requires moved { has_moved (records_of store.old) ≡ true }
    requires running { has_stopped store.old ≡ false }
    requires free { IsTrue (E.honest disk.old) → IsFreePlace short (E.state disk.old) }
    ensures number { IfOk result (λ n. n + 1 ≡ length (records_of store.old)) }
    ensures reads { ReadsStore D.Disk store.old store.new }
    ensures done { IsTrue (D.honest (disk_of store.old)) → IsTrue (E.honest disk.old) →
        OnOk result
        (IsSynced (E.state disk.new) ×
        SpellsRecords (E.state disk.new).content (carried (records_of store.old))) }
    ensures any_moment { IsTrue (E.honest disk.old) →
        LeavesOnly E.moment E.left_since disk.old disk.new
        (LeftByFill (D.honest (disk_of store.old)) (records_of store.old)
        (256 * (length (records_of store.old) - 1) + 1) (E.state disk.old).content) }
    ensures failures { CountsEither (D.honest (disk_of store.old)) (D.failures (disk_of store.old))
        (D.failures (disk_of store.new)) (E.failures disk.old) (E.failures disk.new) result }
    ensures past_ends { E.past_ends disk.new ≡ E.past_ends disk.old }
    ensures honest { E.honest disk.new ≡ E.honest disk.old }
{
    prepare(disk, short)?;
    copy_slots(store, disk)?;
    finish(disk)?;
    Ok(store.count() - 1)
}
