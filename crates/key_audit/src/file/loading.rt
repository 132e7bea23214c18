//! What an audit or a listing loads from a store: its records, and tags of them.

ghost use Rattle.std.specs.Prelude.{◌≡◌, ◌<◌, [], length, IfErr, IfOk, OnOk};
ghost use Rattle.state_file.specs.Laws.{IsLegal};
ghost use Rattle.state_file.specs.FileStore.{disk_of, records_of};
ghost use Rattle.key_audit.specs.Audit.{ReadsStore};
ghost use Rattle.key_audit.specs.inner.Loading.{AreLoaded, IsRefusedLedger};
ghost use Rattle.key_audit.specs.inner.Loading.{LoadsSlot, ReadsSlotTag, StopsLoading};

use crate::report::AuditFault;
use sign_core::{Ledger, LedgerFault, Replay};
use state_file::{Disk, FileStore, Record, Store, StoreFault, Taker};

// Loads record `slot`; None after the last.
fn load_at<D: Disk + Drop>(
    store: &mut FileStore<D>,
    slot: u32,
) -> Result<Option<Record>, AuditFault>
    ensures { LoadsSlot D.Disk store.old store.new slot result }
{
    match store.load(slot) {
        Ok(found) => Ok(found),
        Err(StoreFault::Stopped) => Err(AuditFault::Stopped),
        Err(StoreFault::Damaged(slot)) => Err(AuditFault::Damaged(slot)),
        Err(StoreFault::DeviceFailed) => Err(AuditFault::DeviceFailed),
        Err(StoreFault::OutOfMemory | StoreFault::Full) => unreachable!(),
    }
}

/// Hands all records to a taker that has none, in their order.
pub(crate) fn load_into<D: Disk + Drop, T: Taker>(
    store: &mut FileStore<D>,
    taker: &mut T,
) -> Result<(), AuditFault>
    requires { T.taken taker.old ≡ [] }
    ensures reads { ReadsStore D.Disk store.old store.new result }
    ensures records { OnOk result
        (AreLoaded (D.honest (disk_of store.old)) (records_of store.old) (T.taken taker.new)) }
    ensures refused { IfErr result (StopsLoading (D.honest (disk_of store.old)) (records_of store.old)) }
{
    for slot in 0..store.limit() {
        match load_at(store, slot)? {
            Some(record) => taker.take(&record),
            None => return Ok(()),
        }
    }
    Ok(())
}

/// The ledger of the records that a replay took.
pub(crate) fn finish(replay: Replay) -> Result<Ledger, AuditFault>
    ensures records { IfOk result (λ ledger. ledger.records ≡ replay) }
    ensures legal { OnOk result (IsLegal replay) }
    ensures refused { IfErr result (IsRefusedLedger replay) }
{
    replay.finish().map_err(|fault| match fault {
        LedgerFault::Empty => AuditFault::NoKey,
        LedgerFault::Illegal(place) => AuditFault::Illegal(place),
        LedgerFault::OutOfMemory => AuditFault::OutOfMemory,
    })
}

pub(crate) fn read_tag<D: Disk + Drop>(
    store: &mut FileStore<D>,
    slot: u32,
) -> Result<[u8; 32], AuditFault>
    requires { slot < length (records_of store.old) }
    ensures { ReadsSlotTag D.Disk store.old store.new slot result }
{
    match store.tag_at(slot) {
        Ok(tag) => Ok(tag),
        Err(StoreFault::Stopped) => Err(AuditFault::Stopped),
        Err(StoreFault::DeviceFailed) => Err(AuditFault::DeviceFailed),
        Err(StoreFault::Damaged(_) | StoreFault::OutOfMemory | StoreFault::Full) => unreachable!(),
    }
}
