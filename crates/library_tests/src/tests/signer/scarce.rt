//! A store that refuses memory (46) to one append or one load. The call that then comes again has its usual answer.

ghost use Rattle.std.specs.Prelude.{false, ◌≤◌, length};

use super::*;
use state_file::{RecordList, SlotList};
use typecodes::Count;

// It isn't honest: contracts promise only the answers of such a store.
#[derive(Drop)]
struct Scarce {
    records: Vec<Record>,
    refusals: Count,
    // how many appends, and how many loads, come before the refused one
    appends: Option<u32>,
    loads: Option<u32>,
    asked: SlotList,
    given: RecordList,
    ghost within_limit: { length records.items ≤ 100 },
}

// Whether this call is the refused one, if `before` others come before that; and the new `before`.
fn refuses(before: Option<u32>) -> (bool, Option<u32>) {
    match before {
        None => (false, None),
        Some(0) => (true, None),
        Some(count) => (false, Some(count - 1)),
    }
}

impl Store for Scarce {
    ghost use Rattle.std.specs.Prelude.{[]};
    ghost use Rattle.std.proofs.Common.{sym, true≢false};

    ghost list = { λ store. store.records.items };

    ghost stopped = { λ _. false };

    ghost failures = { λ _. 0 };

    ghost refusals = { λ store. store.refusals };

    ghost unreadable = { λ _. [] };

    ghost loads = { λ store. store.asked };

    ghost given = { λ store. store.given };

    ghost honest = { λ _. false };

    ghost most = { λ _. 100 };

    ghost moment = { λ _. 0 };

    ghost left_since = { λ _ _ _. Unit {0} };

    ghost within_limit = { λ store. store.within_limit };

    ghost leaves_list = { λ _ _ never. absurd (true≢false (sym never)) };

    ghost leaves_nothing_else = { λ _ _ never. absurd (true≢false (sym never)) };

    fn load(&mut self, k: u32) -> Result<Option<Record>, StoreFault> {
        let (is_refused, before) = refuses(self.loads);
        self.loads = before;
        self.asked.push(k);
        if is_refused {
            self.refusals.add_one();
            return Err(StoreFault::OutOfMemory);
        }
        if (k as usize) < self.records.len() {
            let record = self.records[k as usize].copied();
            self.given.push(&record);
            return Ok(Some(record));
        }
        Ok(None)
    }

    fn append(&mut self, new: &Record) -> Result<(), StoreFault> {
        if self.records.len() >= 100 {
            return Err(StoreFault::Full);
        }
        let (is_refused, before) = refuses(self.appends);
        self.appends = before;
        if is_refused {
            self.refusals.add_one();
            return Err(StoreFault::OutOfMemory);
        }
        match self.records.push(new.copied()) {
            Ok(()) => Ok(()),
            Err(_) => {
                self.refusals.add_one();
                Err(StoreFault::OutOfMemory)
            }
        }
    }

    fn limit(&self) -> u32 {
        100
    }
}

// `appends` and `loads` come before the refused one.
fn empty_store(alloc: Global, appends: Option<u32>, loads: Option<u32>) -> Scarce {
    Scarce {
        records: Vec::new(alloc),
        refusals: Count::new(),
        appends,
        loads,
        asked: SlotList::new(),
        given: RecordList::new(),
    }
}

// A spec; how many appends, and loads, come before the refused one; the steps of a new key and those once it is opened
// again. Then how many records there are, and how often memory was refused: to a create or opening, and to a step.
type Row<'a> = (
    &'a str,
    (Option<u32>, Option<u32>),
    (&'a [Step<'a>], &'a [Step<'a>]),
    u32,
    (u32, u32),
);

const SIGNS: &[Step<'static>] = &[Step::Sign(1, 1, None)];

const TWO_LEFT: &[Step<'static>] = &[Step::Left(&[31, 31])];

const ONE_LEFT: &[Step<'static>] = &[Step::Left(&[31])];

const NONE_USED: &[Step<'static>] = &[Step::Left(&[32])];

// First the append of a name, a tree or a Retire is refused. A name of two levels keeps a tree that was recorded
// before. Then a create's first append or load is refused, and then each load of an opening: two records, and no third.
const ROWS: &[Row<'static>] = &[
    (
        LMS,
        (Some(1), None),
        (
            &[
                Step::Sign(1, 2, None),
                Step::Sign(1, 1, Some(SignFault::Changed)),
            ],
            ONE_LEFT,
        ),
        2,
        (0, 1),
    ),
    (TWO, (Some(1), None), (SIGNS, TWO_LEFT), 3, (0, 1)),
    (TWO, (Some(2), None), (SIGNS, TWO_LEFT), 3, (0, 1)),
    (
        XMSS,
        (Some(1), None),
        (SIGNS, &[Step::Left(&[1023])]),
        2,
        (0, 1),
    ),
    (
        LMS,
        (Some(1), None),
        (&[Step::Retire(3, None)], &[Step::Left(&[29])]),
        2,
        (0, 1),
    ),
    (LMS, (Some(0), None), (&[], NONE_USED), 1, (1, 0)),
    (LMS, (None, Some(0)), (&[], NONE_USED), 1, (1, 0)),
    (LMS, (None, Some(1)), (SIGNS, ONE_LEFT), 2, (1, 0)),
    (LMS, (None, Some(2)), (SIGNS, ONE_LEFT), 2, (1, 0)),
    (LMS, (None, Some(3)), (SIGNS, ONE_LEFT), 2, (1, 0)),
];

fn is_right(alloc: Global, (text, (appends, loads), lives, records, refused): &Row<'_>) -> bool {
    let seen = seen_from(7);
    let key = (*text, empty_store(alloc, *appends, *loads));
    lived(alloc, key, &seen, *lives, *records) == Some(true)
        && (seen.openings.get(), seen.steps.get()) == *refused
}

#[test]
fn what_is_refused_memory_comes_again(rt: HostRuntime) {
    for row in ROWS {
        expect(&rt, is_right(rt.alloc(), row));
    }
}
