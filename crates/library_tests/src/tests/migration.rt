//! Migrations that fail or crash at each call of either disk. All others are tested by `tests/conformance`.

use crate::tests::expecting::{expect, open};
use crate::tests::signer::{Entry, with_records};
use sign_core::{Source, TapeSource, migrate_key};
use state_file::{Disk, FileStore, MemoryDisk, MigrateFault, Pick, Store, Version};
use std::alloc::Global;

// The file of `entries` and, after them, `more`.
fn file_of(alloc: Global, entries: &[Entry], more: &[Entry]) -> Option<Vec<u8>> {
    let store = FileStore::format(MemoryDisk::of(alloc, &[]).ok()?).ok()?;
    let store = with_records(with_records(store, entries)?, more)?;
    store.into_disk().stop(Pick::New).ok()
}

// Both files after a migration, and its answer.
#[derive(Drop)]
struct Migration {
    old: Vec<u8>,
    new: Vec<u8>,
    answer: Result<u32, MigrateFault>,
}

fn disk_of(alloc: Global, file: &[u8]) -> Option<MemoryDisk> {
    MemoryDisk::of(alloc, file).ok()
}

fn left_of(disk: &MemoryDisk) -> Option<Vec<u8>> {
    disk.stop(Pick::New).ok()
}

fn migrated(alloc: Global, old: &[u8], new: &[u8]) -> Option<Migration> {
    let old = disk_of(alloc, old)?;
    let new = disk_of(alloc, new)?;
    let (old, new, answer) = migrate_key(alloc, old, new);
    let old = left_of(&old)?;
    let new = left_of(&new)?;
    Some(Migration { old, new, answer })
}

// Records of version 1, and the same in version 2.
const CARRIED: (&[Entry], &[Entry]) = (
    &[Entry::Key(Version::One), Entry::Bound(3, 0)],
    &[Entry::Key(Version::Two), Entry::Bound(3, 0)],
);

const PICKS: &[Pick] = &[
    Pick::Old,
    Pick::New,
    Pick::Fill(0xA5),
    Pick::Fill(0x00),
    Pick::Fill(0xFF),
];

// Whether a disk has a key that can sign.
fn can_sign<D: Disk + Drop, R: Source + Drop>(alloc: Global, disk: D, random: R) -> bool {
    match FileStore::open(disk) {
        Ok(store) => can_sign_in(alloc, store, random),
        Err(_) => false,
    }
}

// `retire(0)` asks that without retiring a leaf.
fn can_sign_in<S: Store + Drop, R: Source + Drop>(alloc: Global, store: S, random: R) -> bool {
    match open(alloc, store, random) {
        Ok(signer) => {
            let mut signer = signer;
            signer.retire(0).is_ok()
        }
        Err(_) => false,
    }
}

// Whether a mishap left at most one file that can sign, and another migration leaves the files `wanted`. It succeeds,
// or finds the key at the new place.
fn ends_well(alloc: Global, old: &[u8], new: &[u8], wanted: (&[u8], &[u8])) -> Option<bool> {
    let old_signs = can_sign(
        alloc,
        MemoryDisk::of(alloc, old).ok()?,
        TapeSource::new(&[]),
    );
    let new_signs = can_sign(
        alloc,
        MemoryDisk::of(alloc, new).ok()?,
        TapeSource::new(&[]),
    );
    if old_signs && new_signs {
        return Some(false);
    }
    let done = migrated(alloc, old, new)?;
    let is_done = match done.answer {
        Ok(count) => count == 2,
        Err(fault) => fault == MigrateFault::KeyThere && new_signs,
    };
    Some(is_done && done.old.as_slice() == wanted.0 && done.new.starts_with(wanted.1))
}

// Whether what a crash leaves by these picks ends well.
fn ends_well_by(
    alloc: Global,
    (old, old_pick): (&MemoryDisk, Pick),
    (new, new_pick): (&MemoryDisk, Pick),
    wanted: (&[u8], &[u8]),
) -> bool {
    match (old.stop(old_pick), new.stop(new_pick)) {
        (Ok(old), Ok(new)) => ends_well(alloc, &old, &new, wanted) == Some(true),
        _ => false,
    }
}

// The same by every pick of the new disk.
fn end_well_by(
    alloc: Global,
    old: (&MemoryDisk, Pick),
    new: &MemoryDisk,
    wanted: (&[u8], &[u8]),
) -> bool {
    for pick in PICKS {
        if !ends_well_by(alloc, old, (new, *pick), wanted) {
            return false;
        }
    }
    true
}

// By every pick of both disks.
fn end_well(alloc: Global, old: &MemoryDisk, new: &MemoryDisk, wanted: (&[u8], &[u8])) -> bool {
    for pick in PICKS {
        if !end_well_by(alloc, (old, *pick), new, wanted) {
            return false;
        }
    }
    true
}

// A disk of a file with a mishap at this call: it fails, or the power goes before it. Call 0 has none.
fn disk_with_mishap(alloc: Global, file: &[u8], call: u32, stops: bool) -> Option<MemoryDisk> {
    let mut disk = MemoryDisk::of(alloc, file).ok()?;
    if stops {
        disk.stop_at(call);
    } else {
        disk.fail_at(call);
    }
    Some(disk)
}

// Whether all that a migration with a mishap at these calls may leave ends well. `Some(None)` where the migration
// makes fewer calls, and succeeds.
fn survives(
    alloc: Global,
    place: &[u8],
    (old_call, new_call): (u32, u32),
    stops: bool,
) -> Option<Option<bool>> {
    let file = file_of(alloc, CARRIED.0, &[])?;
    let sealed = file_of(alloc, CARRIED.0, &[Entry::Moved])?;
    let wanted = file_of(alloc, CARRIED.1, &[])?;
    let old = disk_with_mishap(alloc, &file, old_call, stops)?;
    let new = disk_with_mishap(alloc, place, new_call, stops)?;
    let (old, new, answer) = migrate_key(alloc, old, new);
    match answer {
        Ok(_) => Some(None),
        Err(MigrateFault::DeviceFailed) => Some(Some(end_well(
            alloc,
            &old,
            &new,
            (&sealed, &wanted),
        ))),
        Err(_) => Some(Some(false)),
    }
}

// How many calls of a disk a migration makes. None where a mishap at one doesn't end well. Each call has two mishaps.
fn count_survived(alloc: Global, place: &[u8], of_old: bool) -> Option<u32> {
    for number in 0..200u32 {
        let call = number / 2 + 1;
        let calls = if of_old { (call, 0) } else { (0, call) };
        match survives(alloc, place, calls, number % 2 == 1)? {
            Some(true) => {}
            Some(false) => return None,
            None => return Some(number / 2),
        }
    }
    None
}

// The calls of the new disk: sync, length; of a short file the zero gate and a sync, else a read of the gate; two
// slots, sync; gate, sync.
fn are_survived(alloc: Global) -> bool {
    count_survived(alloc, &[], false) == Some(9)
        && count_survived(alloc, &[7; 1500], false) == Some(8)
        && count_survived(alloc, &[], true).is_some()
}

#[test]
fn mishaps_never_leave_two_files_that_sign(rt: HostRuntime) {
    expect(&rt, are_survived(rt.alloc()));
}
