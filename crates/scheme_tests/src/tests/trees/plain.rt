//! Roots and paths of a tree whose values can be worked out by hand.

ghost use Rattle.std.specs.Prelude.{◌%◌, replicate, slice_set};

use super::sums::{Sums, Tally, is_path, leads_to, node, worked_out};
use crate::tests::expecting::expect;
use merkle::{NodeHash, TreeHash, path, root};
use typecodes::Count;
use winternitz::lanes::LANES;

// Whether the root is right, from this many leaves, made in lanes this often.
fn is_root(height: u8, leaves: u32, together: u32) -> bool {
    if height > 10 {
        return false;
    }
    let tally = Tally::new();
    let mut tree = Sums::new(&tally);
    let root = root(&mut tree, height);
    root == worked_out(height, 0) && tally.get() == (leaves, together)
}

// Whether a path is right and leads to the root. It takes all leaves but its own, made in lanes this often.
fn is_path_of(height: u8, q: u32, together: u32) -> bool {
    if height > 10 || q >= 2u32.pow(u32::from(height)) {
        return false;
    }
    let tally = Tally::new();
    let mut tree = Sums::new(&tally);
    let mut nodes = [[0; 32]; 10];
    let nodes = &mut nodes[..usize::from(height)];
    path(&mut tree, height, q, nodes);
    let others = 2u32.pow(u32::from(height)) - 1;
    is_path(nodes, q)
        && tally.get() == (others, together)
        && leads_to(q, nodes, &worked_out(height, 0))
}

// Whether a tree of this height has this number of leaves, and its root, and each path of it, make leaves in lanes this
// often.
fn are_made(height: u8, leaves: u32, in_root: u32, in_path: u32) -> bool {
    for q in 0..leaves {
        if !is_path_of(height, q, in_path) {
            return false;
        }
    }
    is_root(height, leaves, in_root)
}

fn are_made_in_lanes() -> bool {
    are_made(0, 1, 0, 0)
        && are_made(1, 2, 0, 0)
        && are_made(2, 4, 0, 0)
        && are_made(3, 8, 1, 0)
        && are_made(4, 16, 2, 1)
        && are_made(5, 32, 4, 3)
        && are_made(6, 64, 8, 7)
        && are_made(7, 128, 16, 15)
        && are_made(10, 1024, 128, 127)
}

#[test]
fn leaves_are_made_in_lanes(rt: HostRuntime) {
    expect(&rt, are_made_in_lanes());
}

// A tree without lanes: byte 0 of leaf i is i, and a node is its left child.
#[derive(Drop)]
struct OneByOne {
    made: Count,
}

impl NodeHash for OneByOne {
    ghost join_of = { λ _ _ _ left _. left };

    fn join(&self, _height: u8, _index: u32, left: &[u8; 32], _right: &[u8; 32]) -> [u8; 32] {
        *left
    }
}

impl TreeHash for OneByOne {
    ghost leaf_of = { λ _ i. slice_set (replicate 32 0) 0 (i % 256) };

    ghost made = { λ tree. tree.made };

    fn leaf(&mut self, i: u32) -> [u8; 32] {
        self.made.add_one();
        let mut leaf = [0; 32];
        leaf[0] = (i % 256) as u8;
        leaf
    }
}

// Leaves 16 to 23.
fn leaves_from_16() -> [[u8; 32]; LANES] {
    let mut leaves = [[0; 32]; LANES];
    for lane in 0..LANES {
        leaves[lane] = node((16 + lane % 8) as u8, 0, 0);
    }
    leaves
}

fn gives_one_by_one(tree: &mut OneByOne) -> bool {
    let mut nodes = [[0; 32]; 4];
    path(tree, 4, 2, &mut nodes);
    nodes == [node(3, 0, 0), node(0, 0, 0), node(4, 0, 0), node(8, 0, 0)]
}

#[test]
fn leaves_of_lanes_one_by_one(rt: HostRuntime) {
    let mut tree = OneByOne { made: Count::new() };
    expect(&rt, tree.leaves_in_lanes(16) == leaves_from_16());
    expect(&rt, gives_one_by_one(&mut tree));
}
