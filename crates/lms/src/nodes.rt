//! The nodes of a tree, by the standard's hashes.

ghost use Rattle.std.specs.Prelude.{◌≡◌, ◌<◌, ◌++◌, ℕ, [], slice_index, slice_index_or};
ghost use Rattle.sha2.specs.Hashers.{Holds256};
ghost use Rattle.lms.specs.Nodes.{join_of, leaf_of, node_number};
ghost use Rattle.lmots.specs.Hashes.{u16str, u32str};
ghost use Rattle.typecodes.specs.Types.{height_of};
ghost use Rattle.winternitz.specs.Lanes.{lanes};

use merkle::NodeHash;
use sha2::{Digest, Sha256};
use typecodes::LmsSecret;
use winternitz::lanes::LANES;

// D_LEAF and D_INTR (RFC 8554 5.3).
const LEAF: u16 = 0x8282;

const INNER: u16 = 0x8383;

/// The hashes of a tree's nodes, by I and the tree's height, from which nodes are numbered.
#[derive(Clone, Copy)]
pub struct Nodes {
    pub identifier: [u8; 16],
    pub height: u8,
}

impl Nodes {
    // The node hashes of a secret's tree.
    pub(crate) fn for_secret(secret: &LmsSecret) -> Nodes
        ensures identifier { result.identifier ≡ secret.now.identifier }
        ensures height { result.height ≡ height_of secret.now.pair.tree }
    {
        Nodes {
            identifier: secret.identifier,
            height: secret.pair.tree.height(),
        }
    }

    /// The node of a leaf, from its one-time key's public hash.
    pub fn leaf(&self, leaf: u32, public_hash: &[u8; 32]) -> [u8; 32]
        ensures { result ≡ leaf_of self.now.identifier self.now.height leaf public_hash.now }
    {
        let mut hasher = self.hasher(self.number(0, leaf), LEAF);
        hasher.update(public_hash);
        hasher.finalize()
    }

    // The nodes of a leaf in each lane.
    pub(crate) fn leaves_in_lanes(
        &self,
        leaves: &[u32; LANES],
        public_hashes: &[[u8; 32]; LANES],
    ) -> [[u8; 32]; LANES]
        ensures { (j : ℕ) → j < lanes → slice_index_or result j [] ≡ leaf_of self.now.identifier self.now.height
            (slice_index leaves.now j) (slice_index_or public_hashes.now j []) }
    {
        let mut nodes = [[0; 32]; LANES];
        for lane in 0..LANES {
            nodes[lane] = self.leaf(leaves[lane], &public_hashes[lane]);
        }
        nodes
    }

    // A node's number, from its height and its index at this height. Hashes take only its lowest 4 bytes.
    fn number(&self, height: u32, index: u32) -> u32
        ensures { u32str result ≡ u32str (node_number self.now.height height index) }
    {
        let above = u32::from(self.height).saturating_sub(height);
        let first = 1u32.checked_shl(above).unwrap_or(0);
        first.wrapping_add(index)
    }

    // A hasher that holds I, a node's number and a separator.
    fn hasher(&self, number: u32, separator: u16) -> Sha256
        ensures { Holds256 result (self.now.identifier ++ u32str number ++ u16str separator) }
    {
        let mut hasher = Sha256::new();
        hasher.update(self.identifier);
        hasher.update(number.to_be_bytes());
        hasher.update(separator.to_be_bytes());
        hasher
    }
}

impl NodeHash for Nodes {
    ghost join_of = { λ nodes. join_of nodes.identifier nodes.height };

    fn join(&self, height: u8, index: u32, left: &[u8; 32], right: &[u8; 32]) -> [u8; 32] {
        let mut hasher = self.hasher(self.number(u32::from(height) + 1, index), INNER);
        hasher.update(left);
        hasher.update(right);
        hasher.finalize()
    }
}
