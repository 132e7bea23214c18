//! The nodes of a part of a tree, listed as they are made, and reading a path from such a list.

ghost use Rattle.std.specs.Prelude.{◌≡◌, ◌≤◌, ◌<◌, ◌+◌, ◌-◌, ◌*◌, ◌/◌, ◌^◌, ℕ, List, length};
ghost use Rattle.merkle.specs.Tree.{Leaves, Joins, node};
ghost use Rattle.merkle.specs.Nodes.{part_nodes};
ghost use Rattle.merkle.specs.inner.Nodes.{AreUnder, part_path};

use crate::tree::{LANES, LANES_HEIGHT, NodeHash, TreeHash, node_at, node_over};

/// Writes the nodes from node `index` of height `base + depth` down to height `base`: `2^(depth + 1) - 1` in all.
/// Nothing below height `base` is kept. Leaves are made in lanes if eight or more stand under node `index`.
pub(crate) fn make_nodes<T: TreeHash>(
    tree: &mut T,
    base: u8,
    depth: u8,
    index: u32,
    into: &mut [[u8; 32]],
)
    requires at_most_25 { base + depth ≤ 25 }
    requires node_in_tree { index < 2 ^ (25 - (base + depth)) }
    requires exact_length { length into.old + 1 ≡ 2 ^ (depth + 1) }
    ensures value { into.new ≡ part_nodes (T.leaf_of tree.old) (T.join_of tree.old) base depth index }
    ensures counted { T.made tree.new ≡ T.made tree.old + 2 ^ (base + depth) }
    ensures leaves { T.leaf_of tree.new ≡ T.leaf_of tree.old }
    ensures joins { T.join_of tree.new ≡ T.join_of tree.old }
    ensures most { T.most tree.new ≡ T.most tree.old }
{
    if base + depth == LANES_HEIGHT {
        let leaves = tree.leaves_in_lanes(LANES as u32 * index);
        make_from_leaves(tree, base, depth, index, &leaves, into);
        return;
    }
    if depth == 0 {
        into[0] = node_at(tree, base, index);
        return;
    }
    let below = depth - 1;
    let half = into.len() / 2;
    let (left, rest) = into.split_at_mut(half);
    let (right, top) = rest.split_at_mut(half);
    make_nodes(tree, base, below, 2 * index, left);
    make_nodes(tree, base, below, 2 * index + 1, right);
    top[0] = tree.join(base + below, index, &left[half - 1], &right[half - 1]);
}

/// As `make_nodes`, from leaves that are made already.
fn make_from_leaves<T: NodeHash>(
    tree: &T,
    base: u8,
    depth: u8,
    index: u32,
    leaves: &[[u8; 32]],
    into: &mut [[u8; 32]],
)
    requires at_most_25 { base + depth ≤ 25 }
    requires node_in_tree { index < 2 ^ (25 - (base + depth)) }
    requires count { length leaves.now ≡ 2 ^ (base + depth) }
    requires exact_length { length into.old + 1 ≡ 2 ^ (depth + 1) }
    ensures { (leaf : Leaves) → AreUnder leaf (base + depth) index leaves.now
        → into.new ≡ part_nodes leaf (T.join_of tree.now) base depth index }
{
    if depth == 0 {
        into[0] = node_over(tree, base, index, leaves);
        return;
    }
    let below = depth - 1;
    let first = &leaves[..leaves.len() / 2];
    let second = &leaves[leaves.len() / 2..];
    let half = into.len() / 2;
    let (left, rest) = into.split_at_mut(half);
    let (right, top) = rest.split_at_mut(half);
    make_from_leaves(tree, base, below, 2 * index, first, left);
    make_from_leaves(tree, base, below, 2 * index + 1, second, right);
    top[0] = tree.join(base + below, index, &left[half - 1], &right[half - 1]);
}

/// As `make_nodes`, where one node of height `base` is known, and its leaves aren't made again.
pub(crate) fn make_around<T: TreeHash>(
    tree: &mut T,
    base: u8,
    depth: u8,
    index: u32,
    known_index: u32,
    known: &[u8; 32],
    into: &mut [[u8; 32]],
)
    requires at_most_25 { base + depth ≤ 25 }
    requires node_in_tree { index < 2 ^ (25 - (base + depth)) }
    requires under { known_index / 2 ^ depth ≡ index }
    requires known { known.now ≡ node (T.leaf_of tree.old) (T.join_of tree.old) base known_index }
    requires exact_length { length into.old + 1 ≡ 2 ^ (depth + 1) }
    ensures value { into.new ≡ part_nodes (T.leaf_of tree.old) (T.join_of tree.old) base depth index }
    ensures counted { T.made tree.new + 2 ^ base ≡ T.made tree.old + 2 ^ (base + depth) }
    ensures leaves { T.leaf_of tree.new ≡ T.leaf_of tree.old }
    ensures joins { T.join_of tree.new ≡ T.join_of tree.old }
    ensures most { T.most tree.new ≡ T.most tree.old }
{
    if depth == 0 {
        into[0] = *known;
        return;
    }
    let below = depth - 1;
    let half = into.len() / 2;
    let (left, rest) = into.split_at_mut(half);
    let (right, top) = rest.split_at_mut(half);
    // The index of the child over the known node.
    let over = known_index / 2u32.pow(u32::from(below));
    if over == 2 * index {
        make_around(tree, base, below, 2 * index, known_index, known, left);
        make_nodes(tree, base, below, 2 * index + 1, right);
        top[0] = tree.join(base + below, index, &left[half - 1], &right[half - 1]);
    } else {
        make_nodes(tree, base, below, 2 * index, left);
        make_around(tree, base, below, 2 * index + 1, known_index, known, right);
        top[0] = tree.join(base + below, index, &left[half - 1], &right[half - 1]);
    }
}

/// Reads the siblings of the lowest node `i` and of the nodes over it from a list that `make_nodes` wrote, the lowest
/// first.
pub(crate) fn read_path(nodes: &[[u8; 32]], i: u32, into: &mut [[u8; 32]])
    requires at_most_25 { length into.old ≤ 25 }
    requires whole { length nodes.now + 1 ≡ 2 ^ (length into.old + 1) }
    ensures { (leaf : Leaves) (join : Joins) (base : ℕ) →
        nodes.now ≡ part_nodes leaf join base (length into.old) (i / 2 ^ length into.old) →
        into.new ≡ part_path leaf join base (length into.old) i }
{
    let depth = into.len();
    if depth == 0 {
        return;
    }
    let below = depth - 1;
    let half = nodes.len() / 2;
    let (left, right) = (&nodes[..half], &nodes[half..2 * half]);
    let over = i / 2u32.pow(below as u32);
    if over % 2 == 0 {
        into[below] = right[half - 1];
        read_path(left, i, &mut into[..below]);
    } else {
        into[below] = left[half - 1];
        read_path(right, i, &mut into[..below]);
    }
}
