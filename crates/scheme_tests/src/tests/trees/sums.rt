//! A tree whose nodes show their place, so that each value can be worked out by hand.

ghost use Rattle.std.specs.Prelude.{◌≡◌, ◌+◌, ◌%◌, replicate, slice_index, slice_set};

use crate::tests::expecting::expect;
use merkle::{NodeHash, TreeHash, root_from_path};
use std::cell::Cell;
use typecodes::Count;
use winternitz::lanes::LANES;

/// How many leaves were made, and how often leaves were asked for in lanes.
#[derive(Drop)]
pub(crate) struct Tally {
    pub(crate) made: Cell<u32>,
    pub(crate) together: Cell<u32>,
}

impl Tally {
    pub(crate) fn new() -> Self {
        Tally {
            made: Cell::new(0),
            together: Cell::new(0),
        }
    }

    pub(crate) fn get(&self) -> (u32, u32) {
        (self.made.get(), self.together.get())
    }
}

/// Leaf i has i + 1 in byte 0. A node has the sum of its children there, their height in byte 1 and its own index in
/// byte 2. The tally counts leaves as it runs, `count` for the contract.
#[derive(Drop)]
pub(crate) struct Sums<'a> {
    tally: &'a Tally,
    count: Count,
}

impl<'a> Sums<'a> {
    pub(crate) fn new(tally: &'a Tally) -> Self
        ensures { result.count ≡ 0 }
    {
        Sums {
            tally,
            count: Count::new(),
        }
    }
}

impl NodeHash for Sums<'_> {
    ghost join_of = { λ _ height index left right.
        slice_set (slice_set (slice_set (replicate 32 0) 0 ((slice_index left 0 + slice_index right 0) % 256)) 1 height)
        2 (index % 256) };

    fn join(&self, height: u8, index: u32, left: &[u8; 32], right: &[u8; 32]) -> [u8; 32] {
        let mut node = [0; 32];
        node[0] = left[0].wrapping_add(right[0]);
        node[1] = height;
        node[2] = (index % 256) as u8;
        node
    }
}

impl TreeHash for Sums<'_> {
    ghost leaf_of = { λ _ i. slice_set (replicate 32 0) 0 ((i % 256 + 1) % 256) };

    ghost made = { λ tree. tree.count };

    fn leaf(&mut self, i: u32) -> [u8; 32] {
        self.count.add_one();
        self.tally.made.set(self.tally.made.get().wrapping_add(1));
        let mut leaf = [0; 32];
        leaf[0] = ((i % 256) as u8).wrapping_add(1);
        leaf
    }

    fn leaves_in_lanes(&mut self, first: u32) -> [[u8; 32]; LANES] {
        let together = &self.tally.together;
        together.set(together.get().wrapping_add(1));
        [
            self.leaf(first),
            self.leaf(first + 1),
            self.leaf(first + 2),
            self.leaf(first + 3),
            self.leaf(first + 4),
            self.leaf(first + 5),
            self.leaf(first + 6),
            self.leaf(first + 7),
        ]
    }
}

/// Three bytes, the rest zero.
pub(crate) fn node(sum: u8, height: u8, index: u8) -> [u8; 32] {
    let mut node = [0; 32];
    node[0] = sum;
    node[1] = height;
    node[2] = index;
    node
}

/// The expected node of a tree of height 10 or less. It has n leaves below it, the first of them n * `index`; so its
/// sum is n times that, and the numbers 1 to n.
pub(crate) fn worked_out(height: u8, index: u32) -> [u8; 32] {
    if height == 0 || height > 10 {
        return node((index.wrapping_add(1) % 256) as u8, 0, 0);
    }
    let leaves = 1u32.wrapping_shl(u32::from(height));
    let to_leaves = leaves.wrapping_mul(leaves.wrapping_add(1)) / 2;
    let sum = leaves
        .wrapping_mul(leaves)
        .wrapping_mul(index)
        .wrapping_add(to_leaves);
    node(
        (sum % 256) as u8,
        height.wrapping_sub(1),
        (index % 256) as u8,
    )
}

/// Whether these are the siblings of leaf q and of the nodes over it, the lowest first.
pub(crate) fn is_path(nodes: &[[u8; 32]], q: u32) -> bool {
    let (mut height, mut over) = (0u8, q);
    for found in nodes {
        if *found != worked_out(height, over ^ 1) {
            return false;
        }
        height = height.saturating_add(1);
        over /= 2;
    }
    true
}

pub(crate) fn leads_to(q: u32, nodes: &[[u8; 32]], root: &[u8; 32]) -> bool {
    if nodes.len() > 25 || q >= 2u32.pow(nodes.len() as u32) {
        return false;
    }
    let tally = Tally::new();
    let mut tree = Sums::new(&tally);
    let leaf = tree.leaf(q);
    root_from_path(&tree, q, &leaf, nodes) == *root
}

fn are_worked_out() -> bool {
    worked_out(3, 0) == node(36, 2, 0)
        && is_path(&[node(5, 0, 0), node(15, 0, 3), node(10, 1, 0)], 5)
        && is_path(&[node(6, 0, 0), node(15, 0, 3), node(10, 1, 0)], 4)
        && worked_out(0, 0) == node(1, 0, 0)
        && worked_out(0, 5) == node(6, 0, 0)
}

// `worked_out` gives what was worked out by hand, for trees of height 3 and 0.
#[test]
fn values_are_worked_out(rt: HostRuntime) {
    expect(&rt, are_worked_out());
}
