//! Keys in memory whose calls are answered at the second try where memory is refused at the first. `tests/run` runs
//! these with each allocation refused in turn. `tests/suites/refused_memory` tests keys in files, by the built program.

use super::records::records_of;
use super::*;

// Ten names and eight Retires.
const TEN: [Step; 19] = [
    Step::Sign(0, 1, None),
    Step::Sign(1, 1, None),
    Step::Retire(6, None),
    Step::Sign(2, 1, None),
    Step::Retire(9, None),
    Step::Sign(3, 1, None),
    Step::Retire(12, None),
    Step::Sign(4, 1, None),
    Step::Retire(15, None),
    Step::Sign(5, 1, None),
    Step::Sign(6, 1, None),
    Step::Retire(21, None),
    Step::Sign(7, 1, None),
    Step::Retire(24, None),
    Step::Sign(8, 1, None),
    Step::Retire(27, None),
    Step::Sign(9, 1, None),
    Step::Retire(30, None),
    Step::Left(&[2]),
];

// The store of a new key.
fn made(alloc: Global, text: &str, limit: u32) -> Option<MemoryStore> {
    let key = (text, MemoryStore::with_limit(alloc, limit));
    begins(alloc, key, &seen_from(7), &[], &mut Vec::new(alloc))
}

// Whether a key, once it is opened, takes all of these steps and then has this many records.
fn ends_with<S: Store + Drop>(
    alloc: Global,
    store: Option<S>,
    seen: &Seen,
    steps: &[Step<'_>],
    records: u32,
) -> Option<bool> {
    let mut store = goes_on(alloc, store?, seen, steps, &mut Vec::new(alloc))?;
    Some(has_records(&mut store, records))
}

// How often memory is refused to a name after its draw, and to a Retire. None where not all is recorded at last, or
// another refusal draws anything.
fn refused_for(alloc: Global) -> Option<(u32, u32)> {
    let seen = seen_from(50);
    let is_right = ends_with(alloc, made(alloc, LMS, 200), &seen, &TEN, 19)?;
    let names = seen.names.get();
    if !is_right || u32::from(seen.next.get()) != names.checked_add(60)? {
        return None;
    }
    Some((names, seen.retires.get()))
}

#[test]
fn records_are_made_at_last(rt: HostRuntime) {
    expect(&rt, refused_for(rt.alloc()).is_some());
}

// How often memory is refused to a key's opening and its first name.
fn refused_at_first(alloc: Global) -> Option<u32> {
    let seen = seen_from(50);
    let steps = [Step::Sign(0, 1, None), Step::Left(&[31])];
    if !ends_with(alloc, made(alloc, LMS, 200), &seen, &steps, 2)? {
        return None;
    }
    seen.steps.get().checked_add(seen.openings.get())
}

// With ample memory no refusal is reported.
#[test]
fn a_first_name_is_signed_at_first(rt: HostRuntime) {
    expect(&rt, refused_at_first(rt.alloc()) == Some(0));
}

// This passes only where no name is refused memory after its draw, and the next one only where no Retire is refused
// any.
#[test]
fn names_are_bound_at_first(rt: HostRuntime) {
    let refused = refused_for(rt.alloc());
    expect(&rt, refused == Some((0, 0)) || refused == Some((0, 1)));
}

#[test]
fn leaves_are_retired_at_first(rt: HostRuntime) {
    let refused = refused_for(rt.alloc());
    expect(&rt, refused == Some((0, 0)) || refused == Some((1, 0)));
}

// A spec, the steps of a new key and those once it is opened again, and how many records there are then. The rows have
// first names, which make the trees of their levels; a replaced lower tree; retired leaves; a repeated request and a
// changed one.
const NEW: [(&str, &[Step<'_>], &[Step<'_>], u32); 5] = [
    (XMSS, &[Step::Sign(1, 1, None)], &[Step::Left(&[1023])], 2),
    (
        THREE,
        &[Step::Sign(1, 1, None)],
        &[Step::Left(&[31, 31, 31])],
        4,
    ),
    (
        TWO,
        &[
            Step::Left(&[32, 0]),
            Step::Sign(1, 1, None),
            Step::Retire(32, None),
        ],
        &[Step::Sign(2, 2, None), Step::Left(&[30, 31])],
        6,
    ),
    (
        LMS,
        &[
            Step::Retire(33, Some(SignFault::RetireRange)),
            Step::Retire(32, None),
            Step::Sign(1, 1, Some(SignFault::Exhausted)),
        ],
        &[Step::Retire(5, None), Step::Left(&[0])],
        2,
    ),
    (
        LMS,
        &[
            Step::Sign(1, 1, None),
            Step::Sign(1, 1, None),
            Step::Sign(1, 2, Some(SignFault::Changed)),
        ],
        &[Step::Sign(1, 1, None), Step::Left(&[31])],
        2,
    ),
];

fn is_right(
    alloc: Global,
    (text, first, second, records): &(&str, &[Step<'_>], &[Step<'_>], u32),
) -> bool {
    let key = (*text, MemoryStore::with_limit(alloc, 200));
    lived(alloc, key, &seen_from(7), (first, second), *records) == Some(true)
}

#[test]
fn new_keys_sign_at_last(rt: HostRuntime) {
    for row in &NEW {
        expect(&rt, is_right(rt.alloc(), row));
    }
}

// After each of 32 names the lowest of three trees is used up. Before the next name neither lower tree has a leaf left,
// and it begins both anew.
fn using_up() -> [Step<'static>; 67] {
    let mut steps = [Step::Left(&[30, 31, 31]); 67];
    for number in 0..32u8 {
        steps[2 * number as usize] = Step::Sign(number, 1, None);
        steps[2 * number as usize + 1] = Step::Retire(32, None);
    }
    steps[64] = Step::Left(&[31, 0, 0]);
    steps[65] = Step::Sign(32, 1, None);
    steps
}

// Whether a new key with this limit of records takes these steps once it is opened, by draws from `next` on, and then
// has this many records.
fn takes(
    alloc: Global,
    (text, limit): (&str, u32),
    next: u8,
    steps: &[Step<'_>],
    records: u32,
) -> bool {
    ends_with(
        alloc,
        made(alloc, text, limit),
        &seen_from(next),
        steps,
        records,
    ) == Some(true)
}

#[test]
fn lower_trees_are_used_up_at_last(rt: HostRuntime) {
    expect(&rt, takes(rt.alloc(), (THREE, 200), 50, &using_up(), 101));
}

// A first name of two levels needs two records, a tree and a binding, where the store has room for one. It changes
// nothing. Nor does a Retire without room, or a source that draws the key's I again.
const WANTS_TWO: [Step; 2] = [
    Step::Sign(1, 1, Some(SignFault::LedgerFull)),
    Step::Left(&[32, 0]),
];

const WANTS_MORE: [Step; 3] = [
    Step::Retire(5, None),
    Step::Retire(6, Some(SignFault::LedgerFull)),
    Step::Left(&[27]),
];

const AGAIN: [Step; 2] = [
    Step::Sign(1, 1, Some(SignFault::RandomRepeated)),
    Step::Left(&[32, 0]),
];

#[test]
fn a_full_store_is_found_at_last(rt: HostRuntime) {
    expect(&rt, takes(rt.alloc(), (TWO, 2), 50, &WANTS_TWO, 1));
    expect(&rt, takes(rt.alloc(), (LMS, 2), 50, &WANTS_MORE, 2));
    expect(&rt, takes(rt.alloc(), (TWO, 100), 7, &AGAIN, 1));
}

// What a key answers from a cut append of a name on: it has stopped.
const CUT: [Step; 5] = [
    Step::Sign(1, 1, Some(SignFault::StoreFailed)),
    Step::Sign(1, 1, Some(SignFault::Stopped)),
    Step::Sign(2, 2, Some(SignFault::Stopped)),
    Step::Retire(0, Some(SignFault::Stopped)),
    Step::Retire(33, Some(SignFault::Stopped)),
];

// After it is opened again. If the record was left, the name gets its signature without a draw, and another message is
// refused. If not, the name is free, and another one gets its leaf.
const BOUND: [Step; 3] = [
    Step::Sign(1, 1, None),
    Step::Sign(1, 2, Some(SignFault::Changed)),
    Step::Left(&[31]),
];

const FREE: [Step; 3] = [Step::Left(&[32]), Step::Sign(2, 1, None), Step::Left(&[31])];

// Whether these steps draw nothing after such a cut, and whether `out` ends as a signature of leaf 0.
fn after_a_cut(alloc: Global, cut: Cut, steps: &[Step<'_>]) -> Option<(bool, bool)> {
    let mut out = Vec::new(alloc);
    let seen = seen_from(50);
    let mut store = made(alloc, LMS, 200)?;
    store.cut_at(1, cut);
    let mut store = goes_on(alloc, store, &seen, &CUT, &mut out)?;
    store.reopen();
    let drawn = seen.next.get();
    let _store = goes_on(alloc, store, &seen, steps, &mut out)?;
    let is_first = out.get(..4) == Some([0; 4].as_slice());
    Some((seen.next.get() == drawn, is_first))
}

#[test]
fn a_cut_name_is_answered_at_last(rt: HostRuntime) {
    expect(
        &rt,
        after_a_cut(rt.alloc(), Cut::New, &BOUND) == Some((true, false)),
    );
    expect(
        &rt,
        after_a_cut(rt.alloc(), Cut::Old, &FREE) == Some((false, true)),
    );
}

// Without a name, and with name 1 bound to the digest of byte 1.
const NO_NAME: &[Entry] = &[Entry::Key(Version::One)];

const BOUND_BYTE: &[Entry] = &[Entry::Key(Version::One), Entry::BoundByte(0, 1)];

// How often memory is refused to a request, before it finds that the key's root isn't its tree's.
fn refused_of(alloc: Global, entries: &[Entry], number: u8) -> Option<u32> {
    let store = match with_records(MemoryStore::with_limit(alloc, 100), entries) {
        Some(store) => Some(store),
        None => with_records(MemoryStore::with_limit(alloc, 100), entries),
    };
    let seen = seen_from(50);
    let steps = [Step::Sign(number, 1, Some(SignFault::Damaged(0)))];
    goes_on(alloc, store?, &seen, &steps, &mut Vec::new(alloc))?;
    Some(seen.steps.get())
}

// Refused memory is reported before a wrong root, which the next request then reports.
#[test]
fn a_changed_root_is_found_at_last(rt: HostRuntime) {
    expect(&rt, refused_of(rt.alloc(), NO_NAME, 2).is_some());
}

// This passes only where no allocation of the request is refused.
#[test]
fn a_changed_root_is_found_at_first(rt: HostRuntime) {
    expect(&rt, refused_of(rt.alloc(), NO_NAME, 2) == Some(0));
}

// The same under a bound name.
#[test]
fn a_changed_root_of_a_bound_name_is_found_at_last(rt: HostRuntime) {
    expect(&rt, refused_of(rt.alloc(), BOUND_BYTE, 1).is_some());
}

// This passes only where no allocation of the request is refused.
#[test]
fn a_changed_root_of_a_bound_name_is_found_at_first(rt: HostRuntime) {
    expect(&rt, refused_of(rt.alloc(), BOUND_BYTE, 1) == Some(0));
}

// The fault of a replay of legal records, and of a second one where memory is refused to the first.
fn replayed(alloc: Global) -> Option<(Option<LedgerFault>, Option<LedgerFault>)> {
    let entries = [
        Entry::Key(Version::One),
        Entry::Bound(3, 0),
        Entry::Bound(7, 1),
    ];
    let records = match records_of(alloc, &entries) {
        Some(records) => records,
        None => records_of(alloc, &entries)?,
    };
    let first = Ledger::replay(alloc, &records).err();
    if first.is_none() {
        return Some((None, None));
    }
    Some((first, Ledger::replay(alloc, &records).err()))
}

#[test]
fn records_are_replayed_at_last(rt: HostRuntime) {
    let came = replayed(rt.alloc());
    let refused = Some((Some(LedgerFault::OutOfMemory), None));
    expect(&rt, came == Some((None, None)) || came == refused);
}

// This passes only where no allocation of the first replay is refused.
#[test]
fn records_are_replayed_at_first(rt: HostRuntime) {
    expect(&rt, replayed(rt.alloc()) == Some((None, None)));
}
