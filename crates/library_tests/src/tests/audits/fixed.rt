//! Calls that allocate nothing. Of each pair of tests the first only prepares, and the second also makes the calls.
//! `tests/run` counts the allocations of both, which must be equal.

use super::room::Room;
use super::*;
use crate::tests::expecting::is_read_again;
use sign_core::{ServeFault, SignFault, serve};
use state_file::{FormatFault, OpenFault, Record, StoreFault};

// The offset of a changed byte in a file of two records, and the faults of `open` and `format`. The bytes are the Key's
// gate and kind, the first ones of its version and tag, and the next record's kind and first byte of the tag.
const CHANGED: [(u64, OpenFault, FormatFault); 6] = [
    (0, OpenFault::NoKey, FormatFault::NotKeyFile),
    (1, OpenFault::NotKeyFile, FormatFault::KeyThere),
    (10, OpenFault::Version, FormatFault::KeyThere),
    (224, OpenFault::Damaged(0), FormatFault::KeyThere),
    (257, OpenFault::Damaged(1), FormatFault::KeyThere),
    (480, OpenFault::Damaged(1), FormatFault::KeyThere),
];

// The disk with a byte turned.
fn turned<D: Disk + Drop>(disk: D, at: u64) -> Option<D> {
    let mut disk = disk;
    let mut byte = [0];
    let is_read = disk.read_at(at, &mut byte).is_ok();
    if is_read && disk.write_at(at, &[byte[0] ^ 0xff]).is_ok() {
        Some(disk)
    } else {
        None
    }
}

// The disk, if `open` refuses it so.
fn unopened<D: Disk + Drop>(disk: D, fault: OpenFault) -> Option<D> {
    match FileStore::open(disk) {
        Ok(_store) => None,
        Err(refused) => {
            if refused.fault == fault {
                Some(refused.given)
            } else {
                None
            }
        }
    }
}

// The disk, if `format` refuses it so.
fn unmade<D: Disk + Drop>(disk: D, fault: FormatFault) -> Option<D> {
    match FileStore::format(disk) {
        Ok(_store) => None,
        Err(refused) => {
            if refused.fault == fault {
                Some(refused.given)
            } else {
                None
            }
        }
    }
}

// Changes a byte, checks both faults, and changes it back.
fn changed_back<D: Disk + Drop>(
    disk: D,
    (at, opening, making): (u64, OpenFault, FormatFault),
) -> Option<D> {
    let disk = unopened(turned(disk, at)?, opening)?;
    turned(unmade(disk, making)?, at)
}

fn changed_in_turn<D: Disk + Drop>(disk: D) -> Option<D> {
    let mut disk = disk;
    for change in &CHANGED {
        disk = changed_back(disk, *change)?;
    }
    Some(disk)
}

// Appends a Retire of all 32 leaves. None where the store has no key.
fn added<D: Disk + Drop>(store: &mut FileStore<D>) -> Option<Result<(), StoreFault>> {
    if store.count() == 0 {
        return None;
    }
    Some(store.append(&Record::Retire { upto: 32 }))
}

fn has_stopped<D: Disk + Drop>(store: &mut FileStore<D>) -> bool {
    let is_tagged = store.count() == 0 || store.tag_at(0) != Err(StoreFault::Stopped);
    let is_read = store.load(0) != Err(StoreFault::Stopped);
    !is_tagged && !is_read && added(store) == Some(Err(StoreFault::Stopped))
}

// Fills the store up to seven records, for which its disk has room.
fn fills<D: Disk + Drop>(store: &mut FileStore<D>) -> bool {
    for _ in store.count()..7 {
        if added(store) != Some(Ok(())) {
            return false;
        }
    }
    true
}

// The append of an eighth record stops the store, also for audits.
fn stops_when_full<D: Disk + Drop>(alloc: Global, disk: D) -> bool {
    match FileStore::open(disk) {
        Ok(store) => {
            let mut store = store;
            fills(&mut store)
                && added(&mut store) == Some(Err(StoreFault::DeviceFailed))
                && has_stopped(&mut store)
                && matches!(audit(alloc, &mut store, None), Err(AuditFault::Stopped))
        }
        Err(_) => false,
    }
}

// Whether a store has a Key and a Retire, and no more.
fn has_both<D: Disk + Drop>(store: &mut FileStore<D>) -> bool {
    if store.count() != 2 {
        return false;
    }
    let is_there = match store.load(1) {
        Ok(Some(Record::Retire { upto })) => upto == 32,
        _ => false,
    };
    is_there && store.tag_at(1).is_ok() && store.load(2) == Ok(None) && store.limit() == 1 << 31
}

// Reads a Key and a Retire again, tries all of CHANGED, and is refused a second key: the disk.
fn opened_again<D: Disk + Drop>(disk: D) -> Option<D> {
    match FileStore::open(disk) {
        Ok(store) => {
            let mut store = store;
            let is_right = has_both(&mut store);
            let disk = unmade(changed_in_turn(store.into_disk())?, FormatFault::KeyThere)?;
            if is_right { Some(disk) } else { None }
        }
        Err(_) => None,
    }
}

// `left` has the free leaves of each level, `caches` says which of levels 0 to 2 have a cache.
fn has<S: Store, R: Source>(signer: &Signer<S, R>, left: &[u32], caches: [bool; 3]) -> bool {
    let is_cached = [
        signer.cache_leaves(0).is_some(),
        signer.cache_leaves(1).is_some(),
        signer.cache_leaves(2).is_some(),
    ];
    let is_read = is_read_again(&signer.public_key());
    is_read && is_cached == caches && signer.left().as_slice() == left
}

// Whether all leaves of a new key of one tree can be retired, and it then signs nothing.
fn can_retire<S: Store, R: Source>(signer: &mut Signer<S, R>, out: &mut Vec<u8>) -> bool {
    has(signer, &[32], [false; 3])
        && signer.retire(33) == Err(SignFault::RetireRange)
        && signer.retire(32) == Ok(())
        && signer.retire(5) == Ok(())
        && fault_of(signer, 1, out) == Some(Some(SignFault::Exhausted))
}

// The fault of a request for fw-1 with this byte.
fn fault_of<S: Store, R: Source>(
    signer: &mut Signer<S, R>,
    byte: u8,
    out: &mut Vec<u8>,
) -> Option<Option<SignFault>> {
    match Name::new(b"fw-1") {
        Ok(name) => Some(sign(signer, &name, &[byte], out)),
        Err(_) => None,
    }
}

// The store of such a key.
fn retired<S: Store + Drop>(alloc: Global, store: S) -> Option<S> {
    let mut signer = created(alloc, ONE_TREE, store, Numbers { next: 0 })?;
    let is_right = can_retire(&mut signer, &mut Vec::new(alloc));
    let store = signer.into_store();
    if is_right { Some(store) } else { None }
}

// Its disk, after it is made on a new one.
fn retired_on<D: Disk + Drop>(alloc: Global, disk: D) -> Option<D> {
    match FileStore::format(disk) {
        Ok(store) => Some(retired(alloc, store)?.into_disk()),
        Err(_) => None,
    }
}

// Makes a key on a disk, reads it again, and fills the disk.
fn is_kept_on<D: Disk + Drop>(alloc: Global, disk: Option<D>) -> Option<bool> {
    let mut disk = retired_on(alloc, disk?)?;
    if disk.len() != Ok(513) {
        return Some(false);
    }
    Some(stops_when_full(alloc, opened_again(disk)?))
}

#[test]
fn a_room_is_made(rt: HostRuntime) {
    expect(&rt, Room::of(rt.alloc()).is_some());
}

#[test]
fn a_key_is_made_in_a_room(rt: HostRuntime) {
    expect(
        &rt,
        is_kept_on(rt.alloc(), Room::of(rt.alloc())) == Some(true),
    );
}

fn new_store(alloc: Global) -> Option<FileStore<MemoryDisk>> {
    match MemoryDisk::of(alloc, &[]) {
        Ok(disk) => FileStore::format(disk).ok(),
        Err(_) => None,
    }
}

// Signs byte 1 as fw-1. If `replaces`, retires the lowest tree's leaves, so that a new tree signs byte 2 as fw-2.
fn signs_names<S: Store, R: Source>(
    signer: &mut Signer<S, R>,
    replaces: bool,
    first: &mut Vec<u8>,
    second: &mut Vec<u8>,
) -> bool {
    sign_byte(signer, b"fw-1", 1, first).is_some()
        && (!replaces
            || signer.retire(32).is_ok() && sign_byte(signer, b"fw-2", 2, second).is_some())
}

// The replies 21, 34 and 27.
const REFUSED: &[u8] = b"\x15\0\0\0\0\x22\0\0\0\0\x1b\0\0\0\0";

// Whether these requests in frames are refused: another message under fw-1, an empty name, and a message that is cut
// after one byte of two.
fn is_served<S: Store, R: Source>(alloc: Global, signer: &mut Signer<S, R>) -> bool {
    let mut room = [0; 64];
    let mut output = room.as_mut_slice();
    let mut input = b"\x04fw-1\0\0\0\x01\x02\0\0\0\0\0\x04fw-1\0\0\0\x02\x01".as_slice();
    let end = serve(alloc, signer, &mut input, &mut output);
    let left = output.len();
    end == Err(ServeFault::MessageRead) && left == 64 - REFUSED.len() && room.starts_with(REFUSED)
}

// Whether a signer of fw-1 refuses another message under this name, and a retire beyond the tree; and the frames.
fn is_refused<S: Store, R: Source>(
    alloc: Global,
    signer: &mut Signer<S, R>,
    out: &mut Vec<u8>,
) -> bool {
    fault_of(signer, 2, out) == Some(Some(SignFault::Changed))
        && signer.retire(1) == Ok(())
        && signer.retire(33) == Err(SignFault::RetireRange)
        && has(signer, &[31, 31], [true, true, false])
        && is_served(alloc, signer)
}

fn made_by<S: Store, R: Source>(signer: &Signer<S, R>) -> [Option<u64>; 2] {
    [signer.cache_leaves(0), signer.cache_leaves(1)]
}

// Whether a byte gets this signature again under a name.
fn is_repeated<S: Store, R: Source>(
    signer: &mut Signer<S, R>,
    (name, byte): (&[u8], u8),
    signature: &[u8],
    output: &mut Vec<u8>,
) -> bool {
    sign_byte(signer, name, byte, output).is_some() && output.as_slice() == signature
}

// Whether both names get their signatures again, and no cache makes a leaf. The first name's tree has no cache any
// more; the second name's leaf is in the block that its tree's cache keeps.
fn are_repeated<S: Store, R: Source>(
    signer: &mut Signer<S, R>,
    (first, second): (&[u8], &[u8]),
    output: &mut Vec<u8>,
) -> bool {
    let made = made_by(signer);
    has(signer, &[30, 31], [true, true, false])
        && is_repeated(signer, (b"fw-1", 1), first, output)
        && is_repeated(signer, (b"fw-2", 2), second, output)
        && made_by(signer) == made
}

// Makes the requests that allocate nothing.
fn tries<S: Store, R: Source>(
    alloc: Global,
    signer: &mut Signer<S, R>,
    replaces: bool,
    given: (&[u8], &[u8]),
    output: &mut Vec<u8>,
) -> bool {
    if replaces {
        are_repeated(signer, given, output)
    } else {
        is_refused(alloc, signer, output)
    }
}

// Signs, and if `is_tried` also makes these requests.
fn signs<S: Store, R: Source>(
    alloc: Global,
    signer: &mut Signer<S, R>,
    replaces: bool,
    is_tried: bool,
) -> bool {
    let mut first = Vec::new(alloc);
    let mut second = Vec::new(alloc);
    let is_signed = signs_names(signer, replaces, &mut first, &mut second);
    let room = if replaces { 2644 } else { 0 };
    match Vec::with_capacity(alloc, room) {
        Ok(output) => {
            let mut output = output;
            is_signed
                && (!is_tried || tries(alloc, signer, replaces, (&first, &second), &mut output))
        }
        Err(_) => false,
    }
}

// As `signs`, by a new key.
fn signs_in<S: Store + Drop>(
    alloc: Global,
    store: Option<S>,
    replaces: bool,
    is_tried: bool,
) -> bool {
    let Some(store) = store else {
        return false;
    };
    match created(alloc, TWO_LEVELS, store, Numbers { next: 0 }) {
        Some(signer) => {
            let mut signer = signer;
            signs(alloc, &mut signer, replaces, is_tried)
        }
        None => false,
    }
}

#[test]
fn a_name_is_signed(rt: HostRuntime) {
    expect(
        &rt,
        signs_in(rt.alloc(), new_store(rt.alloc()), false, false),
    );
}

#[test]
fn other_requests_are_refused(rt: HostRuntime) {
    expect(
        &rt,
        signs_in(rt.alloc(), new_store(rt.alloc()), false, true),
    );
}

#[test]
fn a_tree_is_replaced(rt: HostRuntime) {
    expect(
        &rt,
        signs_in(rt.alloc(), new_store(rt.alloc()), true, false),
    );
}

#[test]
fn a_name_of_an_old_tree_is_repeated(rt: HostRuntime) {
    expect(&rt, signs_in(rt.alloc(), new_store(rt.alloc()), true, true));
}
