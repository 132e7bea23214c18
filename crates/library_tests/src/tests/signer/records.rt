//! Legal and illegal lists of records, in memory. Files of such lists are tested by `tests/conformance` and
//! `tests/suites/system_errors`.

ghost use Rattle.std.specs.Prelude.{◌≡◌, ◌≤◌, true};
ghost use Rattle.state_file.specs.Slot.{FitsVersion, version_begun};

use super::steps::Numbers;
use super::*;
use lmots::LmOts;
use typecodes::{LmsSecret, LmsType, OtsType};

// A record of a list.
// - `Key`: of H5/W1, with a root that isn't its tree's.
// - `Extend`: a level, the leaf above, and each byte of I.
// - `Bound`: a leaf and a name, by its number. `BoundLong` has the name's length, `BoundByte` the digest of byte 1
//   under the key.
// - `Retire`: the end of the retired leaves.
#[derive(Clone, Copy)]
pub(crate) enum Entry {
    Key(Version),
    Extend(u8, u32, u8),
    Bound(u32, u8),
    BoundLong(u32, usize),
    BoundByte(u32, u8),
    Retire(u32),
    Moved,
}

fn bound_of(name: Option<Name>, leaf: u32, digest: [u8; 32]) -> Option<Record> {
    Some(Record::Bound(Bound {
        name: name?,
        leaf,
        randomizer: [4; 32],
        digest,
    }))
}

pub(super) fn record_of(entry: Entry) -> Option<Record> {
    match entry {
        Entry::Key(version) => Some(Record::Key(Key {
            version,
            secret: Secret::Lms(LmsSecret {
                pair: LmsPair {
                    tree: LmsType::H5,
                    ots: OtsType::W1,
                },
                identifier: [1; 16],
                seed: [2; 32],
            }),
            root: [3; 32],
        })),
        Entry::Extend(level, parent_leaf, number) => Some(Record::Extend(Extend {
            level,
            parent_leaf,
            identifier: [number; 16],
            seed: [7; 32],
            randomizer: [8; 32],
            digest: [9; 32],
            root: [10; 32],
        })),
        Entry::Bound(leaf, number) => bound_of(name_of(number), leaf, [5; 32]),
        Entry::BoundLong(leaf, len) => {
            bound_of(Name::new([b'n'; 128].get(..len)?).ok(), leaf, [5; 32])
        }
        Entry::BoundByte(leaf, number) => {
            let one_time = LmOts {
                identifier: [1; 16],
                leaf,
            };
            bound_of(
                name_of(number),
                leaf,
                one_time.message_digest(&[4; 32], &[1]),
            )
        }
        Entry::Retire(upto) => Some(Record::Retire { upto }),
        Entry::Moved => Some(Record::Moved),
    }
}

// Whether a file that begins with `first` can hold `entry`.
fn can_hold(first: &Record, entry: &Record) -> bool
    ensures { result ≡ true → FitsVersion (version_begun first.now) entry.now }
{
    let version = match first {
        Record::Key(key) => key.version,
        Record::Extend(_) | Record::Bound(_) | Record::Retire { .. } | Record::Moved =>
            Version::One,
    };
    entry.fits(version)
}

// None where an empty store gets another record than a Key, or the store's version can't hold the record.
pub(super) fn add<S: Store>(store: &mut S, entry: &Record) -> Option<()> {
    let can_follow = match store.load(0).ok()? {
        None => matches!(entry, Record::Key(_)),
        Some(first) => can_hold(&first, entry),
    };
    if !can_follow {
        return None;
    }
    store.append(entry).ok()
}

pub(crate) fn with_records<S: Store + Drop>(store: S, entries: &[Entry]) -> Option<S> {
    let mut store = store;
    for entry in entries {
        add(&mut store, &record_of(*entry)?)?;
    }
    Some(store)
}

const KEY: Entry = Entry::Key(Version::One);

const KEY_TWO: Entry = Entry::Key(Version::Two);

// Lists, and their faults as a ledger, and as a store in memory if that takes them. A name's length has no part in it.
const LISTS: &[(&[Entry], Option<LedgerFault>)] = &[
    (&[KEY_TWO], None),
    (&[KEY_TWO, Entry::Moved], Some(LedgerFault::Illegal(1))),
    (&[KEY_TWO, KEY], Some(LedgerFault::Illegal(1))),
    (&[KEY_TWO, Entry::BoundLong(3, 128)], None),
    (
        &[KEY_TWO, Entry::BoundLong(3, 128), Entry::BoundLong(7, 128)],
        Some(LedgerFault::Illegal(2)),
    ),
    (&[KEY, Entry::BoundLong(3, 65)], None),
    (&[], Some(LedgerFault::Empty)),
    (&[Entry::Bound(0, 0)], Some(LedgerFault::Illegal(0))),
    (&[Entry::Bound(0, 0), KEY], Some(LedgerFault::Illegal(0))),
    (&[Entry::Retire(0)], Some(LedgerFault::Illegal(0))),
    (&[Entry::Extend(1, 0, 6)], Some(LedgerFault::Illegal(0))),
    (&[Entry::Moved], Some(LedgerFault::Illegal(0))),
    (&[KEY, KEY], Some(LedgerFault::Illegal(1))),
    (
        &[KEY, Entry::Bound(3, 0), Entry::Bound(3, 1), KEY],
        Some(LedgerFault::Illegal(2)),
    ),
    (
        &[KEY, Entry::Bound(3, 0), Entry::Bound(7, 0)],
        Some(LedgerFault::Illegal(2)),
    ),
    (
        &[KEY, Entry::Retire(5), Entry::Bound(4, 0)],
        Some(LedgerFault::Illegal(2)),
    ),
    (
        &[KEY, Entry::Extend(1, 0, 6)],
        Some(LedgerFault::Illegal(1)),
    ),
    (&[KEY, Entry::Bound(32, 0)], Some(LedgerFault::Illegal(1))),
    (&[KEY, Entry::Retire(33)], Some(LedgerFault::Illegal(1))),
    (&[KEY], None),
    (
        &[
            KEY,
            Entry::Bound(3, 0),
            Entry::Retire(5),
            Entry::Bound(31, 1),
        ],
        None,
    ),
    (&[KEY, Entry::Retire(32), Entry::Retire(0)], None),
    (&[KEY, Entry::Moved], None),
    (
        &[KEY, Entry::Moved, Entry::Retire(5)],
        Some(LedgerFault::Illegal(2)),
    ),
];

pub(super) fn records_of(alloc: Global, entries: &[Entry]) -> Option<Vec<Record>> {
    let mut records = Vec::new(alloc);
    for entry in entries {
        records.push(record_of(*entry)?).ok()?;
    }
    Some(records)
}

// The number of an opening's fault; 0 where the store opens.
fn number_in<S: Store + Drop>(alloc: Global, store: S) -> u8 {
    number_by(alloc, store, &seen_from(0))
}

fn number_by<S: Store + Drop>(alloc: Global, store: S, seen: &Seen) -> u8 {
    match open(alloc, store, Numbers { next: &seen.next }) {
        Ok(_signer) => 0,
        Err(refused) => refused.fault.number(),
    }
}

// Whether a list has this fault as a ledger; None where memory is refused.
fn is_ledger(alloc: Global, entries: &[Entry], fault: Option<LedgerFault>) -> Option<bool> {
    let records = records_of(alloc, entries)?;
    Some(Ledger::replay(alloc, &records).err() == fault)
}

// Whether it has that as a store, if a store takes it.
fn is_store(alloc: Global, entries: &[Entry], fault: Option<LedgerFault>) -> bool {
    let number = match fault {
        Some(fault) => fault.number(),
        None => 0,
    };
    match with_records(MemoryStore::with_limit(alloc, 100), entries) {
        Some(store) => number_in(alloc, store) == number,
        None => true,
    }
}

fn is_list(alloc: Global, entries: &[Entry], fault: Option<LedgerFault>) -> bool {
    is_ledger(alloc, entries, fault) == Some(true) && is_store(alloc, entries, fault)
}

fn are_lists(alloc: Global) -> bool {
    for (entries, fault) in LISTS {
        if !is_list(alloc, entries, *fault) {
            return false;
        }
    }
    true
}

fn have_numbers() -> bool {
    LedgerFault::Empty.number() == 40 && LedgerFault::OutOfMemory.number() == 46
}

#[test]
fn ledgers_are_legal_lists(rt: HostRuntime) {
    expect(&rt, are_lists(rt.alloc()) && have_numbers());
}

// The number of a create's fault, 0 where a key is made; and the store.
fn made_in<S: Store + Drop>(alloc: Global, store: S) -> Option<(u8, S)> {
    if store.limit() == 0 {
        return None;
    }
    match Spec::parse(LMS) {
        Ok(spec) => made_of(alloc, spec, store, &seen_from(7)),
        Err(_) => None,
    }
}

fn made_of<S: Store + Drop>(alloc: Global, spec: Spec, store: S, seen: &Seen) -> Option<(u8, S)>
    requires { 1 ≤ S.most store }
{
    match create(alloc, spec, store, Numbers { next: &seen.next }) {
        Ok(signer) => Some((0, signer.into_store())),
        Err(refused) => {
            let number = refused.fault.number();
            let (store, _random) = refused.given;
            Some((number, store))
        }
    }
}

// The fault numbers of two creates in one store, and of an opening.
fn made_twice(alloc: Global, is_cut: bool) -> Option<(u8, u8, u8)> {
    let mut store = MemoryStore::with_limit(alloc, 2);
    if is_cut {
        store.cut_at(1, Cut::Old);
    }
    let (first, store) = made_in(alloc, store)?;
    let (second, store) = made_in(alloc, store)?;
    Some((first, second, number_in(alloc, store)))
}

// A store with a key gets no other (50). After a cut append of a key (25) the store has stopped (26).
#[test]
fn a_store_has_one_key(rt: HostRuntime) {
    expect(&rt, made_twice(rt.alloc(), false) == Some((0, 50, 0)));
    expect(&rt, made_twice(rt.alloc(), true) == Some((25, 26, 26)));
}
