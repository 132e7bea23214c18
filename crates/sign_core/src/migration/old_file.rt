//! The file that a migration finds at the old place.

ghost use Rattle.std.specs.Prelude.{◌≡◌};
ghost use Rattle.state_file.specs.FileStore.{outcome_of};
ghost use Rattle.sign_core.specs.inner.OldFile.{JudgesRecords, OpensOld};
ghost use Rattle.sign_core.specs.Alarm.{TellsBehind};
ghost use Rattle.sign_core.specs.OldFile.{opening_fault};

use crate::alarm::{Alarm, warn_behind};
use crate::ledger::{Ledger, LedgerFault};
use crate::replay::Replay;
use state_file::{Disk, FileStore, MigrateFault, OpenFault, Refused, Version};
use std::alloc::Global;

// Whether legal records are of version 1, the only one that can move.
fn check_version(ledger: &Ledger) -> Result<(), MigrateFault>
    ensures { JudgesRecords ledger.now.records result }
{
    match ledger.key().version {
        Version::One => Ok(()),
        Version::Two => Err(MigrateFault::Version),
    }
}

// Whether the records that a replay took are legal, and then whether they are of version 1.
fn judge(replay: Replay) -> Result<(), MigrateFault>
    ensures { JudgesRecords replay result }
{
    let ledger = replay.finish().map_err(|fault| match fault {
        LedgerFault::Empty => MigrateFault::NoKey,
        LedgerFault::Illegal(place) => MigrateFault::Illegal(place),
        LedgerFault::OutOfMemory => MigrateFault::OutOfMemory,
    })?;
    check_version(&ledger)
}

// What a migration answers where its old place isn't opened.
fn fault_of(fault: OpenFault) -> MigrateFault
    ensures { result ≡ opening_fault fault }
{
    match fault {
        OpenFault::NoKey => MigrateFault::NoKey,
        OpenFault::NotKeyFile => MigrateFault::NotKeyFile,
        OpenFault::Version => MigrateFault::Version,
        OpenFault::Damaged(slot) => MigrateFault::Damaged(slot),
        OpenFault::DeviceFailed => MigrateFault::DeviceFailed,
    }
}

/// Opens the old place, if it has legal records of version 1. Whether they are legal (44) and memory (46) come before
/// their version (42). Each record is read once. `alarm` hears where it has bytes behind its last record.
pub(crate) fn open_old<D: Disk + Drop, A: Alarm>(
    alloc: Global,
    old: D,
    alarm: &mut A,
) -> Result<FileStore<D>, Refused<D, MigrateFault>>
    ensures opens { OpensOld D.Disk old result }
    ensures tells { TellsBehind D.Disk old opening_fault (outcome_of result) (A.slots alarm.old) (A.slots alarm.new) }
{
    let mut replay = Replay::new(alloc);
    let store = match FileStore::open_into(old, &mut replay) {
        Ok(store) => store,
        Err(Refused { fault, given }) => {
            return Err(Refused {
                fault: fault_of(fault),
                given,
            });
        }
    };
    warn_behind(&store, alarm);
    match judge(replay) {
        Ok(()) => Ok(store),
        Err(fault) => Err(Refused {
            fault,
            given: store.into_disk(),
        }),
    }
}
