//! The caches of current trees: how many leaves they make, over many names.

use super::*;

// A spec, the steps of a new key and those once it is opened again, and how many records there are then. A signed
// request makes the caches of current trees that are older than its name, each leaf once, and no other cache. A refusal
// before that makes none.
type Row<'a> = (&'a str, &'a [Step<'a>], &'a [Step<'a>], u32);

const NONE: Step<'static> = Step::Made([None, None, None]);

const ONE: Step<'static> = Step::Made([Some(32), None, None]);

const BOTH: Step<'static> = Step::Made([Some(32), Some(32), None]);

const SIX: &[Step<'static>] = &[
    Step::Sign(0, 1, None),
    Step::Sign(1, 1, None),
    Step::Sign(2, 1, None),
    Step::Sign(3, 1, None),
    Step::Sign(4, 1, None),
    Step::Sign(5, 1, None),
];

// Six names by one lower tree, and one by the next.
const REPLACED: &[Step<'static>] = &[
    Step::Sign(0, 1, None),
    Step::Sign(1, 1, None),
    Step::Sign(2, 1, None),
    Step::Sign(3, 1, None),
    Step::Sign(4, 1, None),
    Step::Sign(5, 1, None),
    Step::Retire(32, None),
    Step::Sign(6, 1, None),
];

// Four lower trees of one name each. Leaf 3 of the top tree, the end of its first block of four, signs the last ..
const FOUR_TREES: &[Step<'static>] = &[
    Step::Sign(0, 1, None),
    Step::Retire(32, None),
    Step::Sign(1, 1, None),
    Step::Retire(32, None),
    Step::Sign(2, 1, None),
    Step::Retire(32, None),
    Step::Sign(3, 1, None),
];

// .. and six, the last of them signed by leaf 5, which is in the next block.
const SIX_TREES: &[Step<'static>] = &[
    Step::Sign(0, 1, None),
    Step::Retire(32, None),
    Step::Sign(1, 1, None),
    Step::Retire(32, None),
    Step::Sign(2, 1, None),
    Step::Retire(32, None),
    Step::Sign(3, 1, None),
    Step::Retire(32, None),
    Step::Sign(4, 1, None),
    Step::Retire(32, None),
    Step::Sign(5, 1, None),
];

const ROWS: &[Row<'static>] = &[
    // The fifth name's leaf is in the next block, whose four leaves are made. A block stays when leaves of it are
    // retired. A repeat of the first name makes the first block again.
    (
        LMS,
        &[
            NONE,
            Step::Sign(0, 1, None),
            ONE,
            Step::Sign(1, 1, None),
            Step::Sign(2, 1, None),
            Step::Sign(3, 1, None),
            ONE,
            Step::Sign(4, 1, None),
            Step::Made([Some(36), None, None]),
            Step::Retire(6, None),
            Step::Made([Some(36), None, None]),
            Step::Sign(5, 1, None),
            Step::Made([Some(36), None, None]),
            Step::Sign(0, 1, None),
            Step::Made([Some(40), None, None]),
        ],
        &[],
        8,
    ),
    // each block is made once
    (
        LMS,
        &[
            Step::Sign(0, 1, None),
            Step::Retire(4, None),
            Step::Sign(1, 1, None),
            Step::Retire(8, None),
            Step::Sign(2, 1, None),
            Step::Retire(12, None),
            Step::Sign(3, 1, None),
            Step::Retire(16, None),
            Step::Sign(4, 1, None),
            Step::Retire(20, None),
            Step::Sign(5, 1, None),
            Step::Retire(24, None),
            Step::Sign(6, 1, None),
            Step::Retire(28, None),
            Step::Sign(7, 1, None),
            Step::Made([Some(60), None, None]),
        ],
        &[],
        16,
    ),
    // a new lower tree is made once, with its cache; a repeat under the old tree or the current one makes no cache
    (
        TWO,
        &[
            NONE,
            Step::Sign(0, 1, None),
            BOTH,
            Step::Sign(1, 1, None),
            Step::Sign(2, 1, None),
            Step::Sign(3, 1, None),
            Step::Sign(4, 1, None),
            Step::Made([Some(32), Some(36), None]),
            Step::Retire(32, None),
            Step::Sign(5, 1, None),
            BOTH,
            Step::Sign(0, 1, None),
            BOTH,
            Step::Sign(5, 1, None),
            BOTH,
        ],
        &[],
        10,
    ),
    // an XMSS key has one cache; leaf 40 is in its second block of 32
    (
        XMSS,
        &[
            Step::Sign(0, 1, None),
            Step::Made([Some(1024), None, None]),
            Step::Retire(40, None),
            Step::Sign(1, 1, None),
        ],
        &[Step::Sign(1, 1, None), Step::Made([Some(1024), None, None])],
        4,
    ),
    (
        XMSS,
        &[Step::Retire(40, None)],
        &[Step::Sign(0, 1, None), Step::Made([Some(1024), None, None])],
        3,
    ),
    // an answer that needs no cache makes none
    (
        LMS,
        SIX,
        &[Step::Left(&[26]), Step::Retire(3, None), NONE],
        7,
    ),
    (
        LMS,
        SIX,
        &[Step::Sign(5, 2, Some(SignFault::Changed)), NONE],
        7,
    ),
    (
        LMS,
        &[Step::Retire(32, None)],
        &[Step::Sign(0, 1, Some(SignFault::Exhausted)), NONE],
        2,
    ),
    // bound names, with a leaf in the first block of four or in another, and a new one; the same for two levels
    (LMS, SIX, &[Step::Sign(3, 1, None), ONE], 7),
    (LMS, SIX, &[Step::Sign(5, 1, None), ONE], 7),
    (LMS, SIX, &[Step::Sign(6, 1, None), ONE], 8),
    (TWO, SIX, &[Step::Sign(5, 1, None), BOTH], 8),
    (
        TWO,
        SIX,
        &[Step::Retire(32, None), Step::Sign(6, 1, None), BOTH],
        11,
    ),
    // a name of a tree that isn't current any more, and one of the current tree
    (TWO, REPLACED, &[Step::Sign(5, 1, None), ONE], 11),
    (TWO, REPLACED, &[Step::Sign(6, 1, None), BOTH], 11),
    // the second request makes no cache again
    (
        TWO,
        REPLACED,
        &[Step::Sign(6, 1, None), Step::Sign(5, 1, None), BOTH],
        11,
    ),
    // the last leaf of a block signs the current lower tree
    (TWO, FOUR_TREES, &[Step::Sign(4, 1, None), BOTH], 13),
    // a leaf of the second block signs the current lower tree, and one of the first block the first name's tree
    (TWO, SIX_TREES, &[Step::Sign(5, 1, None), BOTH], 18),
    (TWO, SIX_TREES, &[Step::Sign(0, 1, None), ONE], 18),
    (
        TWO,
        SIX_TREES,
        &[Step::Retire(32, None), Step::Sign(6, 1, None), BOTH],
        21,
    ),
];

fn is_right(alloc: Global, (text, first, second, records): &Row<'_>) -> bool {
    let key = (*text, MemoryStore::with_limit(alloc, 100));
    lived(alloc, key, &seen_from(7), (first, second), *records) == Some(true)
}

#[test]
fn a_key_makes_the_caches_that_it_needs(rt: HostRuntime) {
    for row in ROWS {
        expect(&rt, is_right(rt.alloc(), row));
    }
}
