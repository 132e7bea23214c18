//! Trees by their leaves and their join: roots and authentication paths.

ghost use Rattle.std.specs.Prelude.{◌≡◌, ◌≤◌, ◌<◌, ◌+◌, ◌-◌, ◌^◌, ℕ, List, [], length, slice_index_or};
ghost use Rattle.merkle.specs.Lanes.{lanes};
ghost use Rattle.merkle.specs.inner.Nodes.{AreUnder};
ghost use Rattle.merkle.specs.Tree.{Leaves, node, root_of, path_at, sibling};

/// How many leaves are made together, one in each lane of a hash. docs/CONTRIBUTING.md lists what else another number
/// changes.
pub const LANES: usize = 8;

/// The height of a node over `LANES` leaves.
pub(crate) const LANES_HEIGHT: u8 = 3;

/// How a hash tree's nodes are made from their children.
pub trait NodeHash {
    // the join of two nodes, by their height and the index of the node above them
    ghost join_of: { Self → ℕ → ℕ → List ℕ → List ℕ → List ℕ };

    /// The node above two nodes of this height. `index` counts the nodes of its own height from the left.
    fn join(&self, height: u8, index: u32, left: &[u8; 32], right: &[u8; 32]) -> [u8; 32]
        ensures { result ≡ join_of self.now height index left.now right.now };
}

/// A hash tree whose leaves can be made.
pub trait TreeHash: NodeHash {
    // the value of each leaf
    ghost leaf_of: { Self → ℕ → List ℕ };

    // how many leaves were made so far
    ghost made: { Self → ℕ };

    // the greatest number of leaves that it tells somebody of; 0 for a tree that tells nobody
    ghost most: { Self → ℕ } = { λ _. 0 };

    /// Leaf i. Each call counts as one leaf made.
    fn leaf(&mut self, i: u32) -> [u8; 32]
        ensures value { result ≡ leaf_of self.old i }
        ensures counted { made self.new ≡ made self.old + 1 }
        ensures leaves { leaf_of self.new ≡ leaf_of self.old }
        ensures joins { Self.join_of self.new ≡ Self.join_of self.old }
        ensures most { most self.new ≡ most self.old };

    /// The leaves from `first` on, one for each lane; they count as `LANES` leaves made. By default they are made one
    /// by one.
    fn leaves_in_lanes(&mut self, first: u32) -> [[u8; 32]; LANES]
        requires numbers_fit { first + lanes ≤ 2 ^ 32 }
        ensures values { (j : ℕ) → j < lanes → slice_index_or result j [] ≡ leaf_of self.old (first + j) }
        ensures counted { made self.new ≡ made self.old + lanes }
        ensures leaves { leaf_of self.new ≡ leaf_of self.old }
        ensures joins { Self.join_of self.new ≡ Self.join_of self.old }
        ensures most { most self.new ≡ most self.old }
    {
        let mut leaves = [[0; 32]; LANES];
        for lane in 0..LANES {
            leaves[lane] = self.leaf(first + lane as u32);
        }
        leaves
    }
}

/// Node `index` of a height, from the leaves below it.
pub(crate) fn node_over<T: NodeHash>(
    tree: &T,
    height: u8,
    index: u32,
    leaves: &[[u8; 32]],
) -> [u8; 32]
    requires at_most_25 { height ≤ 25 }
    requires node_in_tree { index < 2 ^ (25 - height) }
    requires count { length leaves.now ≡ 2 ^ height }
    ensures { (leaf : Leaves) → AreUnder leaf height index leaves.now
        → result ≡ node leaf (T.join_of tree.now) height index }
{
    if height == 0 {
        return leaves[0];
    }
    let lower = height - 1;
    let half = leaves.len() / 2;
    let left = node_over(tree, lower, 2 * index, &leaves[..half]);
    let right = node_over(tree, lower, 2 * index + 1, &leaves[half..]);
    tree.join(lower, index, &left, &right)
}

/// Node `index` of a height. Its leaves are made in lanes where eight or more stand below it.
pub(crate) fn node_at<T: TreeHash>(tree: &mut T, height: u8, index: u32) -> [u8; 32]
    requires at_most_25 { height ≤ 25 }
    requires node_in_tree { index < 2 ^ (25 - height) }
    ensures value { result ≡ node (T.leaf_of tree.old) (T.join_of tree.old) height index }
    // Each leaf below it is made once.
    ensures counted { T.made tree.new ≡ T.made tree.old + 2 ^ height }
    ensures leaves { T.leaf_of tree.new ≡ T.leaf_of tree.old }
    ensures joins { T.join_of tree.new ≡ T.join_of tree.old }
    ensures most { T.most tree.new ≡ T.most tree.old }
{
    if height == 0 {
        return tree.leaf(index);
    }
    if height == LANES_HEIGHT {
        let leaves = tree.leaves_in_lanes(LANES as u32 * index);
        return node_over(tree, height, index, &leaves);
    }
    let below = height - 1;
    let left = node_at(tree, below, 2 * index);
    let right = node_at(tree, below, 2 * index + 1);
    tree.join(below, index, &left, &right)
}

/// The index with its last bit flipped.
fn sibling_of(index: u32) -> u32
    requires { index < 2 ^ 25 }
    ensures { result ≡ sibling index }
{
    if index % 2 == 0 { index + 1 } else { index - 1 }
}

/// The root of a tree (RFC 8554 5.3, RFC 8391 4.1.6). The caller keeps its height at most 25.
pub fn root<T: TreeHash>(tree: &mut T, height: u8) -> [u8; 32]
    requires { height ≤ 25 }
    ensures value { result ≡ root_of (T.leaf_of tree.old) (T.join_of tree.old) height }
    // Each leaf of the tree is made once.
    ensures counted { T.made tree.new ≡ T.made tree.old + 2 ^ height }
    ensures leaves { T.leaf_of tree.new ≡ T.leaf_of tree.old }
    ensures joins { T.join_of tree.new ≡ T.join_of tree.old }
    ensures most { T.most tree.new ≡ T.most tree.old }
{
    node_at(tree, height, 0)
}

/// The authentication path of leaf q (RFC 8554 5.4, RFC 8391 4.1.9), the leaf's sibling first. The caller keeps the
/// height at most 25, q below `2^height`, and `into` as long as the tree is high.
pub fn path<T: TreeHash>(tree: &mut T, height: u8, q: u32, into: &mut [[u8; 32]])
    requires at_most_25 { height ≤ 25 }
    requires is_leaf { q < 2 ^ height }
    requires exact_length { length into.old ≡ height }
    ensures value { into.new ≡ path_at (T.leaf_of tree.old) (T.join_of tree.old) height q }
    // Each leaf but q is made once.
    ensures counted { T.made tree.new ≡ T.made tree.old + (2 ^ height - 1) }
    ensures leaves { T.leaf_of tree.new ≡ T.leaf_of tree.old }
    ensures joins { T.join_of tree.new ≡ T.join_of tree.old }
    ensures most { T.most tree.new ≡ T.most tree.old }
{
    let mut over = q;
    for (k, node) in into.iter_mut().enumerate() {
        *node = node_at(tree, k as u8, sibling_of(over));
        over /= 2;
    }
}
