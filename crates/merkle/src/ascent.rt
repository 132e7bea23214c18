//! The nodes through which an authentication path leads.

ghost use Rattle.std.specs.Prelude.{◌≡◌, ◌≤◌, ◌<◌, ◌+◌, ◌^◌, ℕ, List, length};
ghost use Rattle.merkle.specs.Ascent.{PathLeadsTo};
ghost use Rattle.merkle.specs.Tree.{path_at, root_of};

use crate::tree::{NodeHash, TreeHash, path};

/// The node to which an authentication path leads leaf q (RFC 8554 5.4.2, RFC 8391 4.1.10). It is the root if the path
/// is q's. The caller keeps the path at most 25 long and q below `2^(path.len())`.
pub fn root_from_path<T: NodeHash>(tree: &T, q: u32, leaf: &[u8; 32], path: &[[u8; 32]]) -> [u8; 32]
    requires at_most_25 { length path.now ≤ 25 }
    requires is_leaf { q < 2 ^ length path.now }
    // The last of the nodes above the leaf, and no other.
    ensures last { PathLeadsTo (T.join_of tree.now) q leaf.now path.now result }
    ensures only { (other : List ℕ) → PathLeadsTo (T.join_of tree.now) q leaf.now path.now other → other ≡ result }
    // The path of leaf q leads from it to the root.
    ensures leads { (leaves : ℕ → List ℕ) → path.now ≡ path_at leaves (T.join_of tree.now) (length path.now) q →
        leaf.now ≡ leaves q → result ≡ root_of leaves (T.join_of tree.now) (length path.now) }
{
    let mut node = *leaf;
    let mut index = q;
    for (k, sibling) in path.iter().enumerate() {
        let right = index % 2 == 1;
        index /= 2;
        node = if right {
            tree.join(k as u8, index, sibling, &node)
        } else {
            tree.join(k as u8, index, &node, sibling)
        };
    }
    node
}

/// Writes the authentication path of a leaf, its sibling first, and answers the root (RFC 8554 5.3 and 5.4, RFC 8391
/// 4.1.6 and 4.1.9). Each leaf is made once. A node has 32 bytes. The caller keeps the height at most 25, the leaf
/// below `2^height`, and `into` as long as the tree is high.
pub fn root_and_path<T: TreeHash>(
    tree: &mut T,
    height: u8,
    leaf: u32,
    into: &mut [[u8; 32]],
) -> [u8; 32]
    requires at_most_25 { height ≤ 25 }
    requires is_leaf { leaf < 2 ^ height }
    requires exact_length { length into.old ≡ height }
    ensures path { into.new ≡ path_at (T.leaf_of tree.old) (T.join_of tree.old) height leaf }
    ensures length { length into.new ≡ height }
    ensures root { result ≡ root_of (T.leaf_of tree.old) (T.join_of tree.old) height }
    // Each leaf of the tree is made once.
    ensures counted { T.made tree.new ≡ T.made tree.old + 2 ^ height }
    ensures leaves { T.leaf_of tree.new ≡ T.leaf_of tree.old }
    ensures joins { T.join_of tree.new ≡ T.join_of tree.old }
    ensures most { T.most tree.new ≡ T.most tree.old }
{
    path(tree, height, leaf, into);
    let value = tree.leaf(leaf);
    root_from_path(tree, leaf, &value, into)
}
