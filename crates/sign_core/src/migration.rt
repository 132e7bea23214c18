//! The migration of a key from a file of version 1 to one of version 2.

ghost use Rattle.sign_core.specs.Alarm.{TellsBehind};
ghost use Rattle.sign_core.specs.Migration.{Migrates};
ghost use Rattle.sign_core.specs.OldFile.{opening_fault};

mod old_file;

use crate::alarm::Alarm;
use crate::migration::old_file::open_old;
use state_file::{Disk, MigrateFault, Place, Refused, SlotList, fill, seal};
use std::alloc::Global;

/// Moves the records of a key from a file of version 1 to a new one of version 2, where they go on. The old file gets a
/// Moved at its end, and signs no more. Gives both disks back, and the new file's number of records.
///
/// A crash at any moment leaves the old records, with a Moved or without; and a new place as it was, without a key, or
/// with all of the records. If no crash before it leaves two files that can sign, none afterwards does. A migration
/// that was cut or has failed is run again from the beginning, to the same new place.
///
/// The refusals, in this order; only 45 may change a file's records:
///
/// - 40 `NoKey`, 41 `NotKeyFile`, 42 `Version`, 43 `Damaged(k)`: as `FileStore::open` answers for the old place; 45
///   `DeviceFailed`: a disk failed, here or later.
/// - 44 `Illegal(k)`: record k is the first at which the old records stop being legal; 46 `OutOfMemory`: memory was
///   refused for one of them.
/// - 42 `Version`: they are legal, and of version 2.
/// - 50 `KeyThere`: the new place may have a key.
/// - 52 `Full`: the old file has no room for a Moved.
///
/// Every refusal but 45 leaves the old place as it was, synced; before 50 the new one is untouched. 45 comes exactly
/// where one call of one of the two disks was refused; over honest disks it is no read past the end. That memory was
/// refused for 46 is tested.
///
/// A crash inside the call is the end of one whose disks refuse every call from there on, and the clauses hold of that
/// one, too. A contract can't pair moments of two disks.
pub fn migrate_key<D: Disk + Drop, E: Disk + Drop>(
    alloc: Global,
    old: D,
    new: E,
) -> (D, E, Result<u32, MigrateFault>)
    ensures { Migrates D.Disk E.Disk old new result.0 result.1 result.2 }
{
    migrate_key_telling(alloc, old, new, &mut SlotList::new())
}

/// As `migrate_key`. If the old file has bytes behind its last record, `alarm` hears so before anything is written.
pub fn migrate_key_telling<D: Disk + Drop, E: Disk + Drop, A: Alarm>(
    alloc: Global,
    old: D,
    new: E,
    alarm: &mut A,
) -> (D, E, Result<u32, MigrateFault>)
    ensures migrates { Migrates D.Disk E.Disk old new result.0 result.1 result.2 }
    ensures tells { TellsBehind D.Disk old opening_fault result.2 (A.slots alarm.old) (A.slots alarm.new) }
{
    let store = match open_old(alloc, old, alarm) {
        Ok(store) => store,
        Err(Refused { fault, given }) => return (given, new, Err(fault)),
    };
    let place = match Place::check(new) {
        Ok(place) => place,
        Err(Refused { fault, given }) => return (store.into_disk(), given, Err(fault)),
    };
    match seal(store) {
        Ok(sealed) => fill(sealed, place),
        Err(Refused { fault, given }) => (given.into_disk(), place.into_disk(), Err(fault)),
    }
}
