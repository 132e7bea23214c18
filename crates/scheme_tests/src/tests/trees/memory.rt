//! Where memory is refused to a cache, a second try makes it. `tests/run` runs these with each allocation refused in
//! turn: there are two, both in `new`.

use super::sums::{Sums, Tally};
use crate::tests::expecting::expect;
use merkle::{OutOfMemory, PathCache};
use std::alloc::Global;

// How many leaves a cache of height 5 makes, with the path of its last leaf, which isn't in the first block; and how
// its root begins.
fn made(alloc: Global) -> Result<(u64, [u8; 3]), OutOfMemory> {
    let tally = Tally::new();
    let mut cache = PathCache::new(alloc, Sums::new(&tally), 5)?;
    cache.path_at(31, &mut [[0; 32]; 5]);
    Ok((cache.leaves_made(), beginning(&cache.root())))
}

fn beginning(root: &[u8; 32]) -> [u8; 3] {
    [root[0], root[1], root[2]]
}

// The root's first byte is the sum of 1 to 32, modulo 256. It is the only join of nodes of height 4.
const MADE: Result<(u64, [u8; 3]), OutOfMemory> = Ok((36, [16, 4, 0]));

fn made_at_last(alloc: Global) -> bool {
    let made = match made(alloc) {
        Err(OutOfMemory) => made(alloc),
        made => made,
    };
    made == MADE
}

#[test]
fn a_cache_is_made_at_last(rt: HostRuntime) {
    expect(&rt, made_at_last(rt.alloc()));
}

// This fails where memory is refused in `new`, and only there.
#[test]
fn a_cache_is_made_at_first(rt: HostRuntime) {
    expect(&rt, made(rt.alloc()) == MADE);
}

fn is_printed(alloc: Global) -> bool {
    format!(in alloc; "{OutOfMemory}").as_deref() == Ok("out of memory")
}

#[test]
fn a_refusal_is_printed(rt: HostRuntime) {
    expect(&rt, is_printed(rt.alloc()));
}
