//! The L-tree of a leaf.

ghost use Rattle.std.specs.Prelude.{◌≡◌, ℕ, ◌<◌, ◌≤◌, ◌+◌, ◌*◌, ◌/◌, ◌^◌, List, [], length, slice_index_or, take};
ghost use Rattle.typecodes.specs.Types.{wots_chains};
ghost use Rattle.winternitz.specs.Lanes.{lanes};
ghost use Rattle.wots_plus.specs.Address.{l_tree};
ghost use Rattle.wots_plus.specs.LTree.{IsLTreeRoot, next_height, l_tree_join, l_tree_root};

use crate::address::Address;
use crate::climbing::Joining;
use crate::hashes::{hash_h_in_lanes, rand_hash, xor_in_lanes};
use crate::key::Wots;
use winternitz::InLanes;
use winternitz::lanes::LANES;

impl Wots<'_> {
    /// The root of the leaf's L-tree over `values` (RFC 8391 4.1.5), which are overwritten. The caller gives 1 to 67
    /// values, 67 being a key's chains.
    pub fn l_tree(&self, values: &mut [[u8; 32]]) -> [u8; 32]
        requires non_empty { 0 < length values.old }
        requires at_most_chains { length values.old ≤ wots_chains }
        ensures value { result ≡ l_tree_root (l_tree_join self.now.seed.now.key self.now.leaf) values.old }
        // At some height of the L-tree the root is alone, and no other value ever is.
        ensures root { IsLTreeRoot (l_tree_join self.now.seed.now.key self.now.leaf) values.old result }
        ensures only { (root : List ℕ) →
            IsLTreeRoot (l_tree_join self.now.seed.now.key self.now.leaf) values.old root → root ≡ result }
    {
        self.l_tree_by(&InLanes, values)
    }

    // `l_tree`, with a way to join pairs.
    pub(crate) fn l_tree_by<J: Joining>(&self, joining: &J, values: &mut [[u8; 32]]) -> [u8; 32]
        requires non_empty { 0 < length values.old }
        requires at_most_chains { length values.old ≤ wots_chains }
        ensures value { result ≡ l_tree_root (l_tree_join self.now.seed.now.key self.now.leaf) values.old }
        ensures root { IsLTreeRoot (l_tree_join self.now.seed.now.key self.now.leaf) values.old result }
        ensures only { (root : List ℕ) →
            IsLTreeRoot (l_tree_join self.now.seed.now.key self.now.leaf) values.old root → root ≡ result }
    {
        let mut count = values.len();
        let mut height = 0;
        while count > 1 {
            count = self.join_neighbours(joining, height, &mut values[..count]);
            height += 1;
        }
        values[0]
    }

    // Writes the next height's values to the front, and returns their number. `joining` takes the first pairs, and the
    // others are joined one by one. An odd last value moves up unchanged.
    fn join_neighbours<J: Joining>(
        &self,
        joining: &J,
        height: u32,
        values: &mut [[u8; 32]],
    ) -> usize
        requires { length values.old ≤ wots_chains }
        ensures count { result ≡ (length values.old + 1) / 2 }
        ensures values { take result values.new
            ≡ next_height (l_tree_join self.now.seed.now.key self.now.leaf height) 0 values.old }
    {
        let pairs = values.len() / 2;
        let joined = joining.join_front(self, height, values);
        for i in joined..pairs {
            values[i] = self.join(height, i as u32, &values[2 * i], &values[2 * i + 1]);
        }
        if values.len() % 2 == 1 {
            values[pairs] = values[2 * pairs];
        }
        values.len().div_ceil(2)
    }

    // Joins as many pairs as there are lanes, from pair `first` on, and writes each node at its index.
    pub(crate) fn join_pairs(&self, height: u32, first: usize, values: &mut [[u8; 32]])
        requires room { 2 * (first + lanes) ≤ length values.old }
        requires at_most_chains { length values.old ≤ wots_chains }
        ensures below { (k : ℕ) → k < first → slice_index_or values.new k [] ≡ slice_index_or values.old k [] }
        ensures joined { (j : ℕ) → j < lanes → slice_index_or values.new (first + j) []
            ≡ l_tree_join self.now.seed.now.key self.now.leaf height (first + j)
            (slice_index_or values.old (2 * (first + j)) []) (slice_index_or values.old (2 * (first + j) + 1) []) }
        ensures above { (k : ℕ) → first + lanes ≤ k → slice_index_or values.new k [] ≡ slice_index_or values.old k [] }
        ensures keeps_length { length values.new ≡ length values.old }
    {
        let left = every_other(values, 2 * first);
        let right = every_other(values, 2 * first + 1);
        let joined = self.join_in_lanes(height, first as u32, &left, &right);
        for lane in 0..LANES {
            values[first + lane] = joined[lane];
        }
    }

    // As many nodes in a row as there are lanes, from node `first` on. `height` is their children's.
    fn join_in_lanes(
        &self,
        height: u32,
        first: u32,
        left: &[[u8; 32]; LANES],
        right: &[[u8; 32]; LANES],
    ) -> [[u8; 32]; LANES]
        requires { first + lanes ≤ 2 ^ 32 }
        ensures { (j : ℕ) → j < lanes → slice_index_or result j []
            ≡ l_tree_join self.now.seed.now.key self.now.leaf height (first + j)
            (slice_index_or left.now j []) (slice_index_or right.now j []) }
    {
        let seed = self.seed;
        let keys = seed.hash_in_lanes(&self.node_addresses(height, first, 0));
        let left_masks = seed.hash_in_lanes(&self.node_addresses(height, first, 1));
        let right_masks = seed.hash_in_lanes(&self.node_addresses(height, first, 2));
        let left = xor_in_lanes(left, &left_masks);
        let right = xor_in_lanes(right, &right_masks);
        hash_h_in_lanes(&keys, &left, &right)
    }

    // The addresses of such nodes.
    fn node_addresses(&self, height: u32, first: u32, key_and_mask: u32) -> [[u8; 32]; LANES]
        requires { first + lanes ≤ 2 ^ 32 }
        ensures { (j : ℕ) → j < lanes
            → slice_index_or result j [] ≡ l_tree self.now.leaf height (first + j) key_and_mask }
    {
        let mut addresses = [[0; 32]; LANES];
        for lane in 0..LANES {
            addresses[lane] = self.node_address(height, first + lane as u32, key_and_mask);
        }
        addresses
    }

    pub(crate) fn node_address(&self, height: u32, index: u32, key_and_mask: u32) -> [u8; 32]
        ensures { result ≡ l_tree self.now.leaf height index key_and_mask }
    {
        let address = Address::LTree {
            leaf: self.leaf,
            height,
            index,
        };
        address.bytes(key_and_mask)
    }

    // One node of the L-tree. `height` is its children's.
    fn join(&self, height: u32, index: u32, left: &[u8; 32], right: &[u8; 32]) -> [u8; 32]
        ensures { result ≡ l_tree_join self.now.seed.now.key self.now.leaf height index left.now right.now }
    {
        let address = Address::LTree {
            leaf: self.leaf,
            height,
            index,
        };
        rand_hash(self.seed, &address, left, right)
    }
}

// Every other value from `first` on, one for each lane.
fn every_other(values: &[[u8; 32]], first: usize) -> [[u8; 32]; LANES]
    requires { first + 2 * lanes ≤ length values.now + 1 }
    ensures { (j : ℕ) → j < lanes → slice_index_or result j [] ≡ slice_index_or values.now (first + 2 * j) [] }
{
    let mut others = [[0; 32]; LANES];
    for lane in 0..LANES {
        others[lane] = values[first + 2 * lane];
    }
    others
}
