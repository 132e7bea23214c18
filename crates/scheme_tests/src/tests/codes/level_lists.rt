//! The levels of HSS keys, and their number.

use crate::tests::expecting::{expect, expect_none};
use typecodes::{LevelCount, Levels, LmsPair, LmsType, OtsType};

const TOP: LmsPair = LmsPair {
    tree: LmsType::H10,
    ots: OtsType::W4,
};

const BELOW: LmsPair = LmsPair {
    tree: LmsType::H25,
    ots: OtsType::W1,
};

// The count of this number, 0 where there is none.
fn count_of(number: u8) -> u8 {
    match LevelCount::new(number) {
        Some(count) => count.get(),
        None => 0,
    }
}

fn wrong_count() -> Option<usize> {
    for number in 0..=255u8 {
        let count = if 1 <= number && number <= 8 {
            number
        } else {
            0
        };
        if count_of(number) != count {
            return Some(usize::from(number));
        }
    }
    None
}

// RFC 8554 6.1: L is from 1 to 8.
#[test]
fn counts_are_1_to_8(rt: HostRuntime) {
    expect_none(&rt, wrong_count());
}

// Whether the pairs are levels, and a copy has all of them.
fn are_levels(pairs: &[LmsPair]) -> bool {
    match Levels::new(pairs) {
        Some(levels) => {
            levels.as_slice() == pairs
                && usize::from(levels.count().get()) == pairs.len()
                && levels.copied() == levels
        }
        None => false,
    }
}

fn are_levels_of_each_count() -> bool {
    are_levels(&[TOP])
        && are_levels(&[TOP, BELOW])
        && are_levels(&[TOP, BELOW, BELOW])
        && are_levels(&[TOP, BELOW, BELOW, BELOW])
        && are_levels(&[TOP, BELOW, BELOW, BELOW, BELOW])
        && are_levels(&[TOP, BELOW, BELOW, BELOW, BELOW, BELOW])
        && are_levels(&[TOP, BELOW, BELOW, BELOW, BELOW, BELOW, BELOW])
        && are_levels(&[TOP, BELOW, BELOW, BELOW, BELOW, BELOW, BELOW, BELOW])
}

#[test]
fn levels_of_each_count(rt: HostRuntime) {
    expect(&rt, are_levels_of_each_count());
}

fn are_none(pairs: &[LmsPair]) -> bool {
    Levels::new(pairs).is_none()
}

fn differ(pairs: &[LmsPair], others: &[LmsPair]) -> bool {
    Levels::new(pairs) != Levels::new(others)
}

// None and nine are refused. Count and order distinguish levels.
fn are_others() -> bool {
    are_none(&[])
        && are_none(&[TOP; 9])
        && differ(&[TOP], &[TOP, TOP])
        && differ(&[TOP, BELOW], &[BELOW, TOP])
}

#[test]
fn other_levels(rt: HostRuntime) {
    expect(&rt, are_others());
}
