//! The audit of a state file: what its records say, and whether an older copy replaced it since an anchor was taken.

ghost use Rattle.std.specs.Prelude.{◌≡◌, false};
ghost use Rattle.state_file.specs.FileStore.{disk_of, has_stopped, records_of};
ghost use Rattle.key_audit.specs.Audit.{Audits, AuditsReplayed, Reports};
ghost use Rattle.key_audit.specs.inner.Audit.{ChecksAnchor, JudgesReplay};
ghost use Rattle.key_audit.specs.inner.Loading.{AreLoaded};

use crate::file::loading::{finish, load_into, read_tag};
use crate::report::{Anchor, AuditFault, Report};
use sign_core::{Ledger, Replay};
use state_file::{Disk, FileStore};
use std::alloc::Global;

// Compares a running store with an anchor, if one is given.
fn check_anchor<D: Disk + Drop>(
    store: &mut FileStore<D>,
    anchor: Option<Anchor>,
) -> Result<(), AuditFault>
    requires { has_stopped store.old ≡ false }
    ensures { ChecksAnchor D.Disk store.old store.new anchor result }
{
    let Some(anchor) = anchor else {
        return Ok(());
    };
    if anchor.count == 0 || store.count() < anchor.count {
        return Err(AuditFault::AnchorCount);
    }
    if read_tag(store, anchor.count - 1)? != anchor.tag {
        return Err(AuditFault::AnchorTag);
    }
    Ok(())
}

// What a ledger's records say. `tag` is the last one's.
fn report_of(ledger: &Ledger, tag: [u8; 32]) -> Report
    ensures reports { Reports ledger.now.records result }
    ensures tag { result.tag ≡ tag }
{
    Report {
        public: ledger.public_key(),
        records: ledger.len(),
        tag,
        left: ledger.left(),
        moved: if ledger.has_moved() { Some(2) } else { None },
    }
}

// Judges a running store by the records that a replay took from it.
fn judge<D: Disk + Drop>(
    store: &mut FileStore<D>,
    replay: Replay,
    anchor: Option<Anchor>,
) -> Result<Report, AuditFault>
    requires running { has_stopped store.old ≡ false }
    requires taken { AreLoaded (D.honest (disk_of store.old)) (records_of store.old) replay }
    ensures { JudgesReplay D.Disk store.old store.new replay anchor result }
{
    let ledger = finish(replay)?;
    check_anchor(store, anchor)?;
    let last = store.count() - 1;
    let tag = read_tag(store, last)?;
    Ok(report_of(&ledger, tag))
}

/// Audits a state file without changing it: what its records say of the key, and whether they fit an anchor that was
/// kept elsewhere. Records fit an anchor if there are at least as many, and the last that it counts has its tag. The
/// faults:
///
/// - 26 `Stopped`: a call on the store failed before.
/// - 43 `Damaged(k)`: slot k doesn't decode, or its tag is wrong. This never comes over an honest disk.
/// - 45 `DeviceFailed`: the disk failed, at a record or a tag. The store has stopped then.
/// - 46 `OutOfMemory`: memory was refused. A clause says that there is a record; that memory was refused is tested.
/// - 40 `NoKey`: there is no record.
/// - 44 `Illegal(k)`: record k is the first that may not follow those before it.
/// - 47 `AnchorCount`: the records are legal, and fewer than the anchor counts, or it counts none.
/// - 48 `AnchorTag`: the records are legal and enough, and the last that the anchor counts has another tag.
///
/// It doesn't test whether secrets make the recorded roots and digests: a signer does as it signs.
///
/// Over any disk the store's records stay. Over an honest one every byte stays at every moment, and a crash leaves what
/// it could leave before. Records whose tags collide as hashes aren't told apart.
pub fn audit<D: Disk + Drop>(
    alloc: Global,
    store: &mut FileStore<D>,
    anchor: Option<Anchor>,
) -> Result<Report, AuditFault>
    ensures { Audits D.Disk store.old store.new anchor result }
{
    let mut loaded = Replay::new(alloc);
    load_into(store, &mut loaded)?;
    judge(store, loaded, anchor)
}

/// Audits a store, as `audit` does, by the records that a replay took when it was opened (`FileStore::open_into`). It
/// loads no record, and reads the tags alone: the anchor's, and the last one. Of the faults of `audit` 26 and 43 don't
/// come.
///
/// The store must run, and the replay must have taken its records.
pub fn audit_replayed<D: Disk + Drop>(
    store: &mut FileStore<D>,
    replay: Replay,
    anchor: Option<Anchor>,
) -> Result<Report, AuditFault>
    requires running { has_stopped store.old ≡ false }
    requires taken { replay ≡ records_of store.old }
    ensures { AuditsReplayed D.Disk store.old store.new anchor result }
{
    judge(store, replay, anchor)
}
