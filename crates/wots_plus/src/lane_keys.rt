//! One-time keys of a tree side by side, one in each lane, with their L-trees.

ghost use Rattle.std.specs.Prelude.{◌≡◌, ◌<◌, ◌≤◌, ℕ, ◌+◌, ◌/◌, ◌^◌, List, [], length};
ghost use Rattle.std.specs.Prelude.{slice_index, slice_index_or, take};
ghost use Rattle.typecodes.specs.Types.{wots_chains};
ghost use Rattle.winternitz.specs.Lanes.{lanes};
ghost use Rattle.wots_plus.specs.Address.{l_tree, one_time};
ghost use Rattle.wots_plus.specs.Key as spec;
ghost use Rattle.wots_plus.specs.Key.{chain_value, ends_of_secret, step_of};
ghost use Rattle.wots_plus.specs.LTree.{l_tree_join, l_tree_root, next_height};
ghost use Rattle.wots_plus.specs.inner.LaneKeys.{BeginsPrivateValues, in_lane};

use crate::hashes::{Prf, first_state, hash_f_in_lanes, hash_h_in_lanes, xor_in_lanes};
use crate::key::{STEPS, Wots};
use typecodes::WOTS_CHAINS;
use winternitz::lanes::{LANES, States, in_each, sha256_of_128};

/// A value in each lane.
type Row = [[u8; 32]; LANES];

/// Keys of one tree, one in each lane.
#[derive(Clone, Copy)]
pub(crate) struct LaneKeys<'seed> {
    /// PRF under the tree's SEED.
    pub(crate) seed: &'seed Prf,
    pub(crate) leaves: [u32; LANES],
}

impl LaneKeys<'_> {
    /// The public hash of each key, derived from one secret (RFC 8391 3.1.4 and 4.1.6).
    pub(crate) fn public_hashes(&self, secret: &[u8; 32]) -> Row
        ensures { (j : ℕ) → j < lanes → let leaf = slice_index self.now.leaves j in slice_index_or result j []
            ≡ spec.public_hash self.now.seed.now.key leaf (ends_of_secret self.now.seed.now.key leaf secret.now) }
    {
        let mut ends = self.ends(secret);
        self.l_trees(&mut ends)
    }

    // The ends of all chains: a row for each chain, a lane for each key.
    fn ends(&self, secret: &[u8; 32]) -> [Row; WOTS_CHAINS]
        ensures { (j : ℕ) → j < lanes → in_lane j result
            ≡ ends_of_secret self.now.seed.now.key (slice_index self.now.leaves j) secret.now }
    {
        let first = in_each(&first_state(4, secret));
        let mut ends = [[[0; 32]; LANES]; WOTS_CHAINS];
        for chain in 0..WOTS_CHAINS {
            ends[chain] = self.ends_of_chain(chain as u16, &first);
        }
        ends
    }

    // The ends of one chain. `first` is the hash value after the private values' common first block.
    fn ends_of_chain(&self, chain: u16, first: &States) -> Row
        ensures { (secret : List ℕ) → BeginsPrivateValues secret first.now → (j : ℕ) → j < lanes
            → slice_index_or result j []
            ≡ chain_value self.now.seed.now.key (slice_index self.now.leaves j) secret chain 15 }
    {
        let mut values = self.private_values(chain, first);
        for at in 0..STEPS {
            values = self.step(chain, at, &values);
        }
        values
    }

    // The private values of one chain, from the same `first`.
    fn private_values(&self, chain: u16, first: &States) -> Row
        ensures { (secret : List ℕ) → BeginsPrivateValues secret first.now → (j : ℕ) → j < lanes
            → slice_index_or result j []
            ≡ spec.private_value self.now.seed.now.key (slice_index self.now.leaves j) secret chain }
    {
        let mut blocks = [[0; 64]; LANES];
        for lane in 0..LANES {
            let key = Wots {
                seed: self.seed,
                leaf: self.leaves[lane],
            };
            blocks[lane] = key.private_block(chain);
        }
        sha256_of_128(first, &blocks)
    }

    // A step of one chain (RFC 8391 3.1.2).
    fn step(&self, chain: u16, at: u8, values: &Row) -> Row
        ensures { (j : ℕ) → j < lanes → slice_index_or result j []
            ≡ step_of self.now.seed.now.key (slice_index self.now.leaves j) chain at (slice_index_or values.now j []) }
    {
        let keys = self.seed.hash_in_lanes(&self.step_addresses(chain, at, 0));
        let masks = self.seed.hash_in_lanes(&self.step_addresses(chain, at, 1));
        hash_f_in_lanes(&keys, &xor_in_lanes(values, &masks))
    }

    fn step_addresses(&self, chain: u16, at: u8, key_and_mask: u32) -> Row
        ensures { (j : ℕ) → j < lanes
            → slice_index_or result j [] ≡ one_time (slice_index self.now.leaves j) chain at key_and_mask }
    {
        let mut addresses = [[0; 32]; LANES];
        for lane in 0..LANES {
            let key = Wots {
                seed: self.seed,
                leaf: self.leaves[lane],
            };
            addresses[lane] = key.step_address(chain, at, key_and_mask);
        }
        addresses
    }

    // The roots of the L-trees over 1 to 67 rows (RFC 8391 4.1.5), which are overwritten.
    fn l_trees(&self, rows: &mut [Row]) -> Row
        requires non_empty { 0 < length rows.old }
        requires at_most_chains { length rows.old ≤ wots_chains }
        ensures { (j : ℕ) → j < lanes → slice_index_or result j []
            ≡ l_tree_root (l_tree_join self.now.seed.now.key (slice_index self.now.leaves j)) (in_lane j rows.old) }
    {
        let mut count = rows.len();
        let mut height = 0;
        while count > 1 {
            count = self.join_neighbours(height, &mut rows[..count]);
            height += 1;
        }
        rows[0]
    }

    // Writes the next height's rows to the front, and returns their number.
    fn join_neighbours(&self, height: u32, rows: &mut [Row]) -> usize
        requires { length rows.old ≤ wots_chains }
        ensures count { result ≡ (length rows.old + 1) / 2 }
        ensures keeps_length { length rows.new ≡ length rows.old }
        ensures values { (j : ℕ) → j < lanes → in_lane j (take result rows.new)
            ≡ next_height (l_tree_join self.now.seed.now.key (slice_index self.now.leaves j) height) 0
            (in_lane j rows.old) }
    {
        let pairs = rows.len() / 2;
        for i in 0..pairs {
            rows[i] = self.join(height, i as u32, &rows[2 * i], &rows[2 * i + 1]);
        }
        if rows.len() % 2 == 1 {
            rows[pairs] = rows[2 * pairs];
        }
        rows.len().div_ceil(2)
    }

    // One node of each L-tree. `height` is its children's.
    fn join(&self, height: u32, index: u32, left: &Row, right: &Row) -> Row
        ensures { (j : ℕ) → j < lanes → slice_index_or result j []
            ≡ l_tree_join self.now.seed.now.key (slice_index self.now.leaves j) height index
            (slice_index_or left.now j []) (slice_index_or right.now j []) }
    {
        let seed = self.seed;
        let keys = seed.hash_in_lanes(&self.node_addresses(height, index, 0));
        let left_masks = seed.hash_in_lanes(&self.node_addresses(height, index, 1));
        let right_masks = seed.hash_in_lanes(&self.node_addresses(height, index, 2));
        let left = xor_in_lanes(left, &left_masks);
        let right = xor_in_lanes(right, &right_masks);
        hash_h_in_lanes(&keys, &left, &right)
    }

    fn node_addresses(&self, height: u32, index: u32, key_and_mask: u32) -> Row
        ensures { (j : ℕ) → j < lanes
            → slice_index_or result j [] ≡ l_tree (slice_index self.now.leaves j) height index key_and_mask }
    {
        let mut addresses = [[0; 32]; LANES];
        for lane in 0..LANES {
            let key = Wots {
                seed: self.seed,
                leaf: self.leaves[lane],
            };
            addresses[lane] = key.node_address(height, index, key_and_mask);
        }
        addresses
    }
}
