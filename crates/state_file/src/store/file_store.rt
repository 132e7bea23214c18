//! A store over a disk.

ghost use Rattle.std.specs.Prelude.{◌≡◌, ◌≢◌, ◌⊎◌, ◌≤◌, ◌<◌, ◌+◌, ◌∷◌, [], ◌++◌, true, false, IsTrue};
ghost use Rattle.std.specs.Prelude.{IfOk, IfErr, OnOk, length};
ghost use Rattle.state_file.specs.Disk.{ChangesOnly, Counts, LeavesOnly};
ghost use Rattle.state_file.specs.DiskCalls.{CountsFailures, OnlyReads};
ghost use Rattle.state_file.specs.File.{IsSyncedFile, LeftLists, StandsFor, most_records, tag_at};
ghost use Rattle.state_file.specs.inner.File.{IsSyncedFile-prop};
ghost use Rattle.state_file.specs.Gates.{AddsSlot, slot_and_gate};
ghost use Rattle.std.proofs.Common.{inl};
ghost use Rattle.state_file.specs.Store.{AddsGiven, AddsLoad, Appends, CanFollow, Collects, Loads, ReadsTag};
ghost use Rattle.state_file.specs.Store.{WhileRunning};
ghost use Rattle.state_file.specs.Laws.{has_moved};
ghost use Rattle.state_file.specs.Slot.{version_code, file_version};
ghost use Rattle.state_file.specs.Store.{is_device_failed, is_out_of_memory, is_stopped, unreadable_slot};

use crate::disk::Disk;
use crate::file::{
    FormatFault, KeepNone, MOST, OpenFault, Taker, add_slot, find_records, format, read_entry,
    read_tag,
};
use crate::record::{Record, RecordList, Version};
use crate::refused::Refused;
use crate::slot::{FIRST_TAG, record_bytes, tag};
use crate::store::{SlotList, Store, StoreFault};

/// Records on a disk, each in a slot of 256 bytes, at most 2^31 of them. No call takes memory, or answers 46.
///
/// 45 comes exactly where the disk refused a call; afterwards 26 comes. Over an honest disk 45 means that the device
/// failed. For no call is one that every disk refuses: each reads or writes at least one byte, and no read lies past
/// the end. Nothing changes at any moment but what `append` or `format` writes. (A disk in memory has failed, too,
/// where memory is refused to it.) No clause says how many calls of the disk there are, or which bytes are read.
#[derive(Drop)]
pub struct FileStore<D: Disk> {
    disk: D,
    version: Version,
    count: u32,
    // the last slot's tag
    tag: [u8; 32],
    stopped: bool,
    // whether the last record is a Moved
    moved: bool,
    // whether the file was opened with bytes behind its last record
    behind: bool,
    records: RecordList,
    // slots that load reported as unreadable
    unreadable: SlotList,
    // slots that load was asked for, and records that it gave
    loads: SlotList,
    given: RecordList,
    ghost counted: { count ≡ length records },
    ghost within_limit: { length records ≤ most_records },
    ghost moved_is: { moved ≡ has_moved records },
    ghost of_version: { WhileRunning (D.honest disk) stopped
        (version_code version ≡ version_code (file_version records)) },
    ghost kept: { WhileRunning (D.honest disk) stopped
        (IsSyncedFile records tag (D.state disk)) } by { Prim.hlevel IsSyncedFile-prop },
}

impl<D: Disk + Drop> FileStore<D> {
    ghost use Rattle.state_file.specs.FileStore.{FindsRecords, PreparesDisk, disk_of, has_bytes_behind, has_stopped};
    ghost use Rattle.state_file.specs.FileStore.{records_of};

    /// The number of records.
    pub fn count(&self) -> u32
        ensures { result ≡ length (records_of self.now) }
    {
        self.count
    }

    /// Whether the file, when it was opened, had bytes behind what an append can leave: with N records, more than
    /// 256·(N + 1) + 1 bytes. An append leaves no more than that, even one that a crash cut. So something else changed
    /// the file: it closed a gate, and the records from there on are lost, or it added bytes. A migration to a longer
    /// place leaves such bytes, too.
    ///
    /// Appends keep the answer: they write over these bytes slot by slot, and a lost record stays lost.
    pub fn has_bytes_behind(&self) -> bool
        ensures { result ≡ has_bytes_behind self.now }
    {
        self.behind
    }

    pub(crate) fn has_moved(&self) -> bool
        ensures { result ≡ has_moved (records_of self.now) }
    {
        self.moved
    }

    // Whether a call has failed, so that no other is answered.
    pub(crate) fn has_stopped(&self) -> bool
        ensures { result ≡ has_stopped self.now }
    {
        self.stopped
    }

    /// Gives the disk back.
    pub fn into_disk(self) -> D
        ensures { result ≡ disk_of self }
    {
        self.disk
    }

    /// Prepares a place without a key: it then has no slot, and a closed gate. Of fewer than 257 bytes only the first
    /// changes, to zero, and an empty place gets this byte. From 257 bytes up nothing is written, whatever the answer.
    /// A refusal hands the disk back:
    ///
    /// - 41: more than 257 bytes, and the first gate is closed.
    /// - 50: 257 bytes or more, and the first gate is open.
    /// - 45: the disk failed.
    ///
    /// Meanwhile a crash leaves what it could leave before. Or of fewer than 257 bytes it leaves these with another
    /// first byte, which have no key.
    pub fn format(disk: D) -> Result<Self, Refused<D, FormatFault>>
        ensures { PreparesDisk D.Disk disk result }
    {
        let mut disk = disk;
        match format(&mut disk) {
            Ok(()) => Ok(FileStore {
                disk,
                version: Version::One,
                count: 0,
                tag: FIRST_TAG,
                stopped: false,
                moved: false,
                behind: false,
                records: RecordList::new(),
                unreadable: SlotList::new(),
                loads: SlotList::new(),
                given: RecordList::new(),
            }),
            Err(fault) => Err(Refused { fault, given: disk }),
        }
    }

    /// Opens the records of a key. It syncs before it reads: meanwhile a crash leaves only what it could leave before,
    /// and afterwards what the store shows. No byte changes. The faults come in the order of their numbers. Each hands
    /// the disk back, with the old content unless the disk failed.
    ///
    /// It reads 256 slots by one call. So it also reads bytes behind the last record. They don't count, but where they
    /// can't be read the opening is refused (45).
    pub fn open(disk: D) -> Result<Self, Refused<D, OpenFault>>
        ensures { FindsRecords D.Disk disk result }
    {
        Self::open_into(disk, &mut KeepNone::new())
    }

    /// Opens the records of a key, as `open` does, and hands each of them to the taker, the first one first. A refused
    /// opening may have handed over records, too.
    pub fn open_into<T: Taker>(disk: D, taker: &mut T) -> Result<Self, Refused<D, OpenFault>>
        ensures finds { FindsRecords D.Disk disk result }
        ensures taken { IfOk result (λ store. T.taken taker.new ≡ T.taken taker.old ++ records_of store) }
    {
        let mut disk = disk;
        match find_records(&mut disk, taker) {
            Ok(found) => {
                let behind = found.has_bytes_behind();
                let tag = found.tag;
                Ok(FileStore {
                    disk,
                    version: found.version,
                    count: found.count,
                    tag,
                    stopped: false,
                    moved: found.moved,
                    behind,
                    records: found.records,
                    unreadable: SlotList::new(),
                    loads: SlotList::new(),
                    given: RecordList::new(),
                })
            }
            Err(fault) => Err(Refused { fault, given: disk }),
        }
    }
}

impl<D: Disk + Drop> FileStore<D> {
    ghost use Rattle.state_file.specs.FileStore.{WhileStoreRuns, disk_of, has_bytes_behind, has_stopped, records_of};
    ghost use Rattle.state_file.specs.FileStore.{given_of, loads_of, unreadable_of};

    /// Slot k's tag, 32 bytes. Nothing is written.
    pub fn tag_at(&mut self, k: u32) -> Result<[u8; 32], StoreFault>
        requires { k < length (records_of self.old) }
        ensures answer { ReadsTag (has_stopped self.old) (has_stopped self.new) (D.failures (disk_of self.old))
            (D.failures (disk_of self.new)) result }
        ensures tag { IsTrue (D.honest (disk_of self.old)) →
            IfOk result (λ tag. tag ≡ tag_at (D.state (disk_of self.old)).content k) }
        ensures keeps_records { records_of self.new ≡ records_of self.old }
        ensures behind { has_bytes_behind self.new ≡ has_bytes_behind self.old }
        ensures unreadable { unreadable_of self.new ≡ unreadable_of self.old }
        ensures loads { loads_of self.new ≡ loads_of self.old }
        ensures given { given_of self.new ≡ given_of self.old }
        ensures reads { WhileStoreRuns D.Disk self.old
            (OnlyReads D.state D.moment D.left_since (disk_of self.old) (disk_of self.new)) }
        ensures any_moment { WhileStoreRuns D.Disk self.old
            (LeavesOnly D.moment D.left_since (disk_of self.old) (disk_of self.new) (StandsFor (records_of self.old))) }
        ensures counts { CountsFailures D.Disk is_device_failed (disk_of self.old) (disk_of self.new) result }
        ensures stopped_unchanged { has_stopped self.old ≡ true → self.new ≡ self.old }
    {
        if self.stopped {
            return Err(StoreFault::Stopped);
        }
        match read_tag(&mut self.disk, k) {
            Ok(tag) => Ok(tag),
            Err(_) => {
                self.stopped = true;
                Err(StoreFault::DeviceFailed)
            }
        }
    }
}

impl<D: Disk + Drop> Store for FileStore<D> {
    ghost use Rattle.state_file.specs.FileStore.{LeavesLists, WhileStoreRuns, disk_of, has_bytes_behind, has_stopped};
    ghost use Rattle.state_file.specs.inner.FileStore.{kept_list};
    ghost use Rattle.state_file.specs.inner.FileStore.{kept_stands};
    ghost use Rattle.state_file.specs.FileStore.{given_of, loads_of, records_of, unreadable_of};

    ghost list = { λ store. records_of store };

    ghost stopped = { λ store. has_stopped store };

    ghost failures = { λ store. D.failures (disk_of store) };

    // It takes no memory.
    ghost refusals = { λ _. 0 };

    ghost unreadable = { unreadable_of };

    ghost loads = { loads_of };

    ghost given = { given_of };

    ghost honest = { λ store. D.honest (disk_of store) };

    ghost most = { λ _. most_records };

    ghost moment = { λ store. D.moment (disk_of store) };

    ghost left_since = { λ store. LeftLists (D.left_since (disk_of store)) };

    ghost within_limit = { λ store. store.within_limit };

    ghost leaves_list = { λ store t honest running early.
        let state = D.state store.disk in (
          state.content,
          D.counts_now store.disk t state.content honest early (D.shows store.disk honest),
          inl (kept_stands store.records store.tag state (store.kept honest running)),
        ) };

    ghost leaves_nothing_else = { λ store list honest running since.
        kept_list store.records list store.tag (D.state store.disk) since.0 (store.kept honest running)
        (D.only_now store.disk since.0 honest since.1) since.2 };

    /// Record k; None after the last. It takes no memory and writes nothing. Over an honest disk it never answers 43.
    /// Over another disk the contract doesn't say which record it gives: that it compares tags is tested.
    fn load(&mut self, k: u32) -> Result<Option<Record>, StoreFault>
        ensures answer { Loads (D.honest (disk_of self.old)) (records_of self.old) (has_stopped self.old) k
            (has_stopped self.new)
            (D.failures (disk_of self.old)) (D.failures (disk_of self.new)) result }
        ensures refusals { Counts is_out_of_memory 0 0 result }
        ensures memory { result ≢ Err StoreFault.OutOfMemory }
        ensures unreadable { Collects unreadable_slot (unreadable_of self.old) (unreadable_of self.new) result }
        ensures loads { AddsLoad is_stopped k (loads_of self.old) (loads_of self.new) result }
        ensures given { AddsGiven (given_of self.old) (given_of self.new) result }
        ensures keeps_records { records_of self.new ≡ records_of self.old }
        ensures behind { has_bytes_behind self.new ≡ has_bytes_behind self.old }
        ensures reads { WhileStoreRuns D.Disk self.old
            (OnlyReads D.state D.moment D.left_since (disk_of self.old) (disk_of self.new)) }
        ensures any_moment { WhileStoreRuns D.Disk self.old
            (LeavesLists D.Disk self.old self.new (λ left. left ≡ records_of self.old)) }
        ensures stopped_unchanged { has_stopped self.old ≡ true → self.new ≡ self.old }
        ensures counts { CountsFailures D.Disk is_device_failed (disk_of self.old) (disk_of self.new) result }
    {
        if self.stopped {
            return Err(StoreFault::Stopped);
        }
        self.loads.push(k);
        if k >= self.count {
            return Ok(None);
        }
        match read_entry(&mut self.disk, self.version, k) {
            Ok(found) => match found {
                Some(record) => {
                    self.given.push(&record);
                    Ok(Some(record))
                }
                None => {
                    self.unreadable.push(k);
                    Err(StoreFault::Damaged(k))
                }
            },
            Err(_) => {
                self.stopped = true;
                Err(StoreFault::DeviceFailed)
            }
        }
    }

    /// Adds a record at the end. It takes no memory. A full store isn't changed.
    ///
    /// Whatever it answers, a crash at any moment leaves the old records, or these and the new one (`contents`). Where
    /// there are no old records, it leaves no key, or the new record. Only the new slot and the gate after it may
    /// differ from the old content (`bytes`). None of this rests on checksums.
    ///
    /// After an Ok the gate after the new slot is closed. After N old records the length is then 256·(N + 1) + 1,
    /// unless the file was longer (`adds`). So a file that began empty, and whose appends were all Ok, has 256·N + 1
    /// bytes for its N records.
    fn append(&mut self, new: &Record) -> Result<(), StoreFault>
        requires { IsTrue (D.honest (disk_of self.old)) → CanFollow (records_of self.old) new.now }
        ensures any_moment { WhileStoreRuns D.Disk self.old
            (LeavesLists D.Disk self.old self.new
            (λ left. (left ≡ records_of self.old) ⊎ (left ≡ records_of self.old ++ new.now ∷ []))) }
        ensures refused { WhileStoreRuns D.Disk self.old
            (IfErr result (λ fault. fault ≢ StoreFault.DeviceFailed →
            LeavesLists D.Disk self.old self.new (λ left. left ≡ records_of self.old))) }
        ensures stopped_unchanged { has_stopped self.old ≡ true → self.new ≡ self.old }
        ensures contents { WhileStoreRuns D.Disk self.old
            (LeavesOnly D.moment D.left_since (disk_of self.old) (disk_of self.new)
            (λ c. StandsFor (records_of self.old) c ⊎ StandsFor (records_of self.old ++ new.now ∷ []) c)) }
        ensures bytes { WhileStoreRuns D.Disk self.old
            (LeavesOnly D.moment D.left_since (disk_of self.old) (disk_of self.new)
            (ChangesOnly (slot_and_gate (length (records_of self.old)) ∷ []) (D.state (disk_of self.old)).content)) }
        ensures answer { Appends most_records (records_of self.old) (has_stopped self.old) new.now (records_of self.new)
            (has_stopped self.new) (D.failures (disk_of self.old)) (D.failures (disk_of self.new)) result }
        ensures refusals { Counts is_out_of_memory 0 0 result }
        ensures memory { result ≢ Err StoreFault.OutOfMemory }
        ensures unreadable { unreadable_of self.new ≡ unreadable_of self.old }
        ensures loads { loads_of self.new ≡ loads_of self.old }
        ensures given { given_of self.new ≡ given_of self.old }
        ensures behind { has_bytes_behind self.new ≡ has_bytes_behind self.old }
        ensures full { result ≡ Err StoreFault.Full → self.new ≡ self.old }
        ensures adds { IsTrue (D.honest (disk_of self.old)) →
            OnOk result
            (AddsSlot (length (records_of self.old)) (D.state (disk_of self.old)).content
            (D.state (disk_of self.new))) }
        ensures counts { CountsFailures D.Disk is_device_failed (disk_of self.old) (disk_of self.new) result }
    {
        if self.stopped {
            return Err(StoreFault::Stopped);
        }
        if self.count >= MOST {
            return Err(StoreFault::Full);
        }
        let version = new.version_after(self.version);
        let fields = record_bytes(version, new);
        let next_tag = tag(&self.tag, &fields);
        match add_slot(&mut self.disk, self.count, &fields, &next_tag) {
            Ok(()) => {
                self.count += 1;
                self.version = version;
                self.tag = next_tag;
                self.moved = new.is_moved();
                self.records.push(new);
                Ok(())
            }
            Err(_) => {
                self.stopped = true;
                Err(StoreFault::DeviceFailed)
            }
        }
    }

    fn limit(&self) -> u32 {
        MOST
    }
}
