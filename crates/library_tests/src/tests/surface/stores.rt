//! The calls of `state_file`: disks, records, stores and a migration's steps.

ghost use Rattle.std.specs.Prelude.{◌≡◌, IsTrue};
ghost use Rattle.state_file.specs.FileStore.{disk_of, records_of};
ghost use Rattle.state_file.specs.Laws.{IsLegal};
ghost use Rattle.state_file.specs.Slot.{file_version};
ghost use Rattle.state_file.specs.Store.{CanFollow};
ghost use Rattle.state_file.specs.declared.record.Version.TheVariants.{One};

use state_file::{
    Cut, Disk, DiskFault, FileStore, FormatFault, MemoryDisk, MemoryStore, MigrateFault, OpenFault,
    Pick, Place, Record, Refused, Sealed, Store, StoreFault, fill, seal,
};
use std::alloc::{AllocError, Global};

fn of_disk<D: Disk>(disk: &mut D) {
    // len(&mut self) -> Result<u64, DiskFault>
    let _: Result<u64, DiskFault> = disk.len();
    // read_at(&mut self, at: u64, into: &mut [u8]) -> Result<(), DiskFault>
    let _: Result<(), DiskFault> = disk.read_at(257, &mut [0; 256]);
    // write_at(&mut self, at: u64, bytes: &[u8]) -> Result<(), DiskFault>
    let _: Result<(), DiskFault> = disk.write_at(257, &[0; 256]);
    // sync(&mut self) -> Result<(), DiskFault>
    let _: Result<(), DiskFault> = disk.sync();
}

fn of_memory_disk(alloc: Global, bytes: &[u8]) -> Result<Vec<u8>, AllocError> {
    // MemoryDisk::of(bytes)
    let mut disk: MemoryDisk = MemoryDisk::of(alloc, bytes)?;
    // fail_at(n), stop_at(n)
    disk.fail_at(1);
    disk.stop_at(2);
    // stop(pick), with Pick::Old, Pick::New and Pick::Fill(b)
    let _: [Pick; 2] = [Pick::Old, Pick::New];
    let left: Vec<u8> = disk.stop(Pick::Fill(0xff))?;
    Ok(left)
}

fn of_memory_store(alloc: Global) -> MemoryStore {
    // MemoryStore::with_limit(u32)
    let mut store: MemoryStore = MemoryStore::with_limit(alloc, 2);
    // cut_at(n, Cut::Old | Cut::New); reopen()
    store.cut_at(1, Cut::Old);
    store.cut_at(2, Cut::New);
    store.reopen();
    store
}

fn of_store<S: Store>(store: &mut S, new: &Record) -> u32
    requires { IsTrue (S.honest store.old) → CanFollow (S.list store.old) new.now }
{
    // append(&mut self, new: &Record) -> Result<(), StoreFault>
    let _: Result<(), StoreFault> = store.append(new);
    // load(&mut self, k: u32) -> Result<Option<Record>, StoreFault>
    let _: Result<Option<Record>, StoreFault> = store.load(0);
    // limit(&self) -> u32
    store.limit()
}

// enum Record { Key, Extend, Bound, Retire, Moved }
fn of_record(record: &Record) -> u8 {
    match record {
        Record::Key(_) => 1,
        Record::Extend(_) => 2,
        Record::Bound(_) => 3,
        Record::Retire { .. } => 4,
        Record::Moved => 5,
    }
}

fn of_file_store<D: Disk + Drop>(disk: D) -> Result<D, Refused<D, OpenFault>> {
    // FileStore::open(disk), whose refusal gives the disk back: Refused<T, F> { fault: F, given: T }
    let mut store: FileStore<D> = FileStore::open(disk)?;
    // count()
    let count: u32 = store.count();
    // tag_at(&mut self, k) -> Result<[u8; 32], StoreFault>
    if 0 < count {
        let _: Result<[u8; 32], StoreFault> = store.tag_at(0);
    }
    // into_disk(self)
    Ok(store.into_disk())
}

// FileStore::format(disk)
fn of_format<D: Disk + Drop>(disk: D) -> D {
    match FileStore::format(disk) {
        Ok(store) => store.into_disk(),
        Err(refused) => {
            let _: FormatFault = refused.fault;
            refused.given
        }
    }
}

fn of_place<E: Disk + Drop>(new: E) -> E {
    // Place::check(new: E) -> Result<Place<E>, Refused<E, MigrateFault>>
    let checked: Result<Place<E>, Refused<E, MigrateFault>> = Place::check(new);
    match checked {
        // into_disk of a Place
        Ok(place) => place.into_disk(),
        Err(refused) => refused.given,
    }
}

fn of_sealing<D: Disk + Drop>(old: FileStore<D>) -> Option<D>
    requires legal { IsTrue (D.honest (disk_of old)) → IsLegal (records_of old) }
    requires version { IsTrue (D.honest (disk_of old)) → file_version (records_of old) ≡ One }
{
    // seal(old: FileStore<D>) -> Result<Sealed<D>, Refused<FileStore<D>, MigrateFault>>
    let sealed: Result<Sealed<D>, Refused<FileStore<D>, MigrateFault>> = seal(old);
    // into_disk of a Sealed
    Some(sealed.ok()?.into_disk())
}

fn of_filling<D: Disk + Drop, E: Disk + Drop>(sealed: Sealed<D>, place: Place<E>) -> (D, E) {
    // fill(sealed: Sealed<D>, place: Place<E>) -> (D, E, Result<u32, MigrateFault>)
    let (old, new, filled): (D, E, Result<u32, MigrateFault>) = fill(sealed, place);
    (old, new)
}
