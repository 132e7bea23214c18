//! Caches of a tree whose values can be worked out by hand, and how many leaves their paths make.

ghost use Rattle.std.specs.Prelude.{◌≡◌, ◌≤◌, ◌<◌, ◌^◌, IfOk};

use super::sums::{Sums, Tally, is_path, leads_to, worked_out};
use crate::tests::expecting::expect;
use merkle::{OutOfMemory, PathCache};
use std::alloc::Global;

// A cache of a tree of this height, whose leaves are counted.
#[derive(Drop)]
struct Counted<'a> {
    cache: PathCache<Sums<'a>>,
    tally: &'a Tally,
    height: u8,
    ghost same: { cache.height ≡ height },
}

impl<'a> Counted<'a> {
    // The cache that keeps leaf q's block.
    fn for_leaf(alloc: Global, tally: &'a Tally, height: u8, q: u32) -> Result<Self, OutOfMemory>
        requires at_most_25 { height ≤ 25 }
        requires inside { q < 2 ^ height }
        ensures { IfOk result (λ cache. cache.height ≡ height) }
    {
        let cache = PathCache::for_leaf(alloc, Sums::new(tally), height, q)?;
        Ok(Counted {
            cache,
            tally,
            height,
        })
    }

    // The cache that keeps the first block.
    fn new(alloc: Global, tally: &'a Tally, height: u8) -> Result<Self, OutOfMemory>
        requires { height ≤ 25 }
        ensures { IfOk result (λ cache. cache.height ≡ height) }
    {
        let cache = PathCache::new(alloc, Sums::new(tally), height)?;
        Ok(Counted {
            cache,
            tally,
            height,
        })
    }

    // How many leaves q's path makes, if cache and tree count alike, and the path leads to the root. Up to height 10 it
    // is also the one that was worked out.
    fn growth(&mut self, q: u32) -> Option<u64> {
        let height = self.height;
        if height > 25 || q >= 2u32.pow(u32::from(height)) {
            return None;
        }
        let mut nodes = [[0; 32]; 25];
        let nodes = &mut nodes[..usize::from(height)];
        let (made, counted) = (self.tally.made.get(), self.cache.leaves_made());
        self.cache.path_at(q, nodes);
        let made = self.tally.made.get().wrapping_sub(made);
        let counted = self.cache.leaves_made().wrapping_sub(counted);
        let is_right = counted == u64::from(made) && leads_to(q, nodes, &self.cache.root());
        if is_right && (height > 10 || is_path(nodes, q)) {
            Some(counted)
        } else {
            None
        }
    }

    // How many leaves were made, if cache and tree count alike.
    fn made(&self) -> Option<u64> {
        let made = u64::from(self.tally.made.get());
        if made == self.cache.leaves_made() {
            Some(made)
        } else {
            None
        }
    }

    fn has_root(&self) -> bool {
        self.cache.root() == worked_out(self.height, 0)
    }

    // Whether paths in turn make this number of leaves.
    fn takes(&mut self, steps: &[(u32, u64)]) -> bool {
        for (q, wanted) in steps {
            if self.growth(*q) != Some(*wanted) {
                return false;
            }
        }
        true
    }
}

// Whether each path in order makes its block of four leaves, unless the cache has it.
fn are_in_order(counted: &mut Counted<'_>) -> bool {
    for q in 0..32 {
        let wanted = if q != 0 && q % 4 == 0 { 4 } else { 0 };
        if counted.growth(q) != Some(wanted) {
            return false;
        }
    }
    counted.made() == Some(32 + 28)
}

// Two blocks take turns; then there is one block, of a tree of height 3; and a tree of one leaf has none.
fn give_in_turn(alloc: Global) -> bool {
    gives(
        alloc,
        5,
        &Asked::InTurn(&[(0, 0), (4, 4), (0, 4), (4, 4), (7, 0), (0, 4), (3, 0)]),
    ) && gives(alloc, 3, &Asked::InTurn(&[(5, 2), (4, 0)]))
        && gives(alloc, 0, &Asked::InTurn(&[(0, 0)]))
}

#[test]
fn another_block_is_made_each_time(rt: HostRuntime) {
    expect(&rt, give_in_turn(rt.alloc()));
}

#[test]
fn paths_in_order_make_each_other_block_once(rt: HostRuntime) {
    expect(&rt, gives(rt.alloc(), 5, &Asked::InOrder));
}

// Whether a cache makes each leaf once, and then a block's leaves for a path.
fn has_blocks(counted: &mut Counted<'_>, leaves: u32, block: u32) -> bool {
    let made = u64::from(block);
    let made_last = if leaves / 2 == block { 0 } else { made };
    counted.made() == Some(u64::from(leaves))
        && counted.takes(&[
            (0, 0),
            (block.saturating_sub(1), 0),
            (block, made),
            (leaves.saturating_sub(1), made_last),
            (leaves.saturating_sub(block), 0),
        ])
}

// Whether a cache of a tree of this height has blocks of this size.
fn has_size(alloc: Global, height: u8, block: u32) -> bool {
    gives(alloc, height, &Asked::Blocks(block))
}

fn have_sizes(alloc: Global) -> bool {
    has_size(alloc, 1, 1)
        && has_size(alloc, 2, 2)
        && has_size(alloc, 5, 4)
        && has_size(alloc, 10, 32)
        && has_size(alloc, 15, 128)
        && has_size(alloc, 16, 256)
        && has_size(alloc, 20, 1024)
        && has_size(alloc, 25, 4096)
}

#[test]
fn caches_have_their_sizes(rt: HostRuntime) {
    expect(&rt, have_sizes(rt.alloc()));
}

// Whether it has made each leaf once, and gives the root, q's path without a leaf more, and another leaf's by this
// many.
fn keeps_block(counted: &mut Counted<'_>, leaves: u32, q: u32, other: u32, made: u64) -> bool {
    counted.made() == Some(u64::from(leaves))
        && counted.has_root()
        && counted.takes(&[(q, 0), (other, made)])
}

// Whether a cache for leaf q of a tree of this height begins with q's block. The other leaf is in another block if
// there is one, and its path makes this many leaves.
fn begins_with_block(alloc: Global, height: u8, q: u32, other: u32, made: u64) -> bool {
    if height > 10 || q >= 2u32.pow(u32::from(height)) {
        return false;
    }
    let tally = Tally::new();
    let leaves = 2u32.pow(u32::from(height));
    match Counted::for_leaf(alloc, &tally, height, q) {
        Ok(mut counted) => keeps_block(&mut counted, leaves, q, other, made),
        Err(OutOfMemory) => false,
    }
}

fn begin_with_block(alloc: Global) -> bool {
    begins_with_block(alloc, 0, 0, 0, 0)
        && begins_with_block(alloc, 1, 0, 1, 1)
        && begins_with_block(alloc, 1, 1, 0, 1)
        && begins_with_block(alloc, 5, 0, 4, 4)
        && begins_with_block(alloc, 5, 3, 31, 4)
        && begins_with_block(alloc, 5, 12, 11, 4)
        && begins_with_block(alloc, 5, 15, 16, 4)
        && begins_with_block(alloc, 5, 16, 0, 4)
        && begins_with_block(alloc, 5, 31, 27, 4)
        && begins_with_block(alloc, 10, 0, 32, 32)
        && begins_with_block(alloc, 10, 480, 479, 32)
        && begins_with_block(alloc, 10, 511, 512, 32)
        && begins_with_block(alloc, 10, 512, 1023, 32)
        && begins_with_block(alloc, 10, 1023, 0, 32)
}

#[test]
fn caches_begin_with_the_block_of_a_leaf(rt: HostRuntime) {
    expect(&rt, begin_with_block(rt.alloc()));
}

// Whether a cache gives the paths of all leaves in turn.
fn gives_each(counted: &mut Counted<'_>, count: u32) -> bool {
    for q in 0..count {
        if counted.growth(q).is_none() {
            return false;
        }
    }
    true
}

// Whether it gives the root and the paths of all leaves in turn. From this many leaves, made in lanes this often when
// the cache was new, and by then.
fn gives_all(
    counted: &mut Counted<'_>,
    count: u32,
    (leaves, new, together): (u32, u32, u32),
) -> bool {
    counted.has_root()
        && counted.tally.together.get() == new
        && gives_each(counted, count)
        && counted.tally.get() == (leaves, together)
}

// What a new cache is asked: its paths in order, or of these leaves in turn; the size of its blocks; or all paths.
#[derive(Clone, Copy)]
enum Asked<'a> {
    InOrder,
    InTurn(&'a [(u32, u64)]),
    Blocks(u32),
    All(u32, u32, u32),
}

fn answers(counted: &mut Counted<'_>, leaves: u32, asked: &Asked<'_>) -> bool {
    match asked {
        Asked::InOrder => are_in_order(counted),
        Asked::InTurn(steps) => counted.takes(steps),
        Asked::Blocks(block) => has_blocks(counted, leaves, *block),
        Asked::All(made, new, together) => gives_all(counted, leaves, (*made, *new, *together)),
    }
}

// Whether a new cache of a tree of this height answers so.
fn gives(alloc: Global, height: u8, asked: &Asked<'_>) -> bool {
    if height > 25 {
        return false;
    }
    let tally = Tally::new();
    match Counted::new(alloc, &tally, height) {
        Ok(mut counted) => answers(&mut counted, 2u32.pow(u32::from(height)), asked),
        Err(OutOfMemory) => false,
    }
}

// Blocks have eight leaves at height 6 and 7, and fewer elsewhere.
fn give_all(alloc: Global) -> bool {
    gives(alloc, 0, &Asked::All(1, 0, 0))
        && gives(alloc, 1, &Asked::All(3, 0, 0))
        && gives(alloc, 2, &Asked::All(6, 0, 0))
        && gives(alloc, 3, &Asked::All(14, 0, 0))
        && gives(alloc, 4, &Asked::All(28, 1, 1))
        && gives(alloc, 5, &Asked::All(60, 3, 3))
        && gives(alloc, 6, &Asked::All(120, 8, 15))
        && gives(alloc, 7, &Asked::All(248, 16, 31))
}

#[test]
fn blocks_are_made_in_lanes(rt: HostRuntime) {
    expect(&rt, give_all(rt.alloc()));
}
