//! The nodes of a tree, by the standard's hash.

ghost use Rattle.std.specs.Prelude.{◌≡◌};
ghost use Rattle.xmss.specs.Nodes.{join_of};

use merkle::NodeHash;
use wots_plus::{Address, Prf, rand_hash};

/// PRF under a tree's SEED, with which its nodes are made.
#[derive(Clone, Copy)]
pub struct Nodes<'seed> {
    pub seed: &'seed Prf,
}

impl NodeHash for Nodes<'_> {
    ghost join_of = { λ nodes. join_of nodes.seed.now.key };

    fn join(&self, height: u8, index: u32, left: &[u8; 32], right: &[u8; 32]) -> [u8; 32] {
        let address = Address::HashTree {
            height: height.into(),
            index,
        };
        rand_hash(self.seed, &address, left, right)
    }
}
