//! The listing of a state file: its types, and what its key has signed.

ghost use Rattle.std.specs.Prelude.{◌≡◌, ◌∷◌, [], ◌++◌, false, IfOk, List, OnOk};
ghost use Rattle.state_file.specs.FileStore.{has_stopped, records_of};
ghost use Rattle.state_file.specs.declared.record.Record.{Record as R};
ghost use Rattle.key_audit.specs.Listing.{Lists, ListsReplayed, entry_of};
ghost use Rattle.key_audit.specs.inner.Listing.{IsListed, ListsRecords};

use crate::file::loading::{finish, load_into};
use crate::listing::{Entry, Listing};
use crate::report::AuditFault;
use sign_core::{Replay, slot_behind, types_of};
use state_file::{Disk, FileStore, Record, Taker};
use std::alloc::{AllocError, Global};
use std::marker::Model;

/// Makes a listing of records, one after the other: `FileStore::open_into` hands it each record as it reads the file.
/// Contracts see the list of records that it took.
#[derive(Drop)]
pub struct ListReplay {
    alloc: Global,
    replay: Replay,
    entries: Vec<Entry>,
    // whether memory was refused for an entry
    lacking: bool,
}

impl Model for ListReplay {
    ghost Value = { List R };

    ghost view = { λ s. s.replay };

    ghost invariant = { λ s. IsListed s.replay s.entries.items s.lacking };
}

impl ListReplay {
    /// A listing of no record.
    pub fn new(alloc: Global) -> Self
        ensures { result ≡ [] }
    {
        ListReplay {
            alloc,
            replay: Replay::new(alloc),
            entries: Vec::new(alloc),
            lacking: false,
        }
    }

    // The listing of the records that were taken.
    fn finish(self, behind: Option<u32>) -> Result<Listing, AuditFault>
        ensures lists { ListsRecords self result }
        ensures behind { IfOk result (λ listing. listing.behind ≡ behind) }
    {
        let ledger = finish(self.replay)?;
        if self.lacking {
            return Err(AuditFault::OutOfMemory);
        }
        let key = ledger.key();
        Ok(Listing {
            spec: types_of(&key.secret),
            version: key.version,
            left: ledger.left(),
            entries: self.entries,
            behind,
        })
    }
}

impl Taker for ListReplay {
    ghost taken = { λ records. records };

    fn take(&mut self, entry: &Record) {
        self.replay.take(entry);
        if !self.lacking {
            self.lacking = push_entry(self.alloc, &mut self.entries, entry).is_err();
        }
    }
}

fn push_entry(alloc: Global, entries: &mut Vec<Entry>, source: &Record) -> Result<(), AllocError>
    ensures { OnOk result (entries.new.items ≡ entries.old.items ++ entry_of source.now ∷ []) }
{
    let entry = Entry::of(alloc, source)?;
    entries.push(entry)?;
    Ok(())
}

/// Lists a state file without changing it: types, version, free leaves of each level, an entry for each record, and
/// whether bytes stand behind the last one. No secret has a part in it (`listing_law`). The faults are those of an
/// audit without an anchor:
///
/// - 26 `Stopped`: a call on the store failed before.
/// - 43 `Damaged(k)`, 45 `DeviceFailed`, 46 `OutOfMemory`: record k couldn't be loaded; the disk failed; memory was
///   refused.
/// - 40 `NoKey`: there is no record.
/// - 44 `Illegal(k)`: record k is the first that may not follow those before it.
pub fn list<D: Disk + Drop>(alloc: Global, store: &mut FileStore<D>) -> Result<Listing, AuditFault>
    ensures { Lists D.Disk store.old store.new result }
{
    let behind = slot_behind(store);
    let mut loaded = ListReplay::new(alloc);
    load_into(store, &mut loaded)?;
    loaded.finish(behind)
}

/// Lists a store, as `list` does, by the records that a replay took when it was opened (`FileStore::open_into`). It
/// reads nothing. Of the faults of `list` 40, 44 and 46 can come.
///
/// The store must run, and the replay must have taken its records.
pub fn list_replayed<D: Disk + Drop>(
    store: &FileStore<D>,
    replay: ListReplay,
) -> Result<Listing, AuditFault>
    requires running { has_stopped store.now ≡ false }
    requires taken { replay ≡ records_of store.now }
    ensures { ListsReplayed D.Disk store.now result }
{
    replay.finish(slot_behind(store))
}
