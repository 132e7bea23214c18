//! Secrets, and the trees that they make.

ghost use Rattle.std.specs.Prelude.{◌≡◌, ◌≤◌, ◌<◌, ◌+◌, ◌^◌, ℕ, slice_index};
ghost use Rattle.winternitz.specs.Lanes.{lanes};

use crate::nodes::Nodes;
use merkle::{NodeHash, TreeHash};
use typecodes::{Count, XmssSecret};
use winternitz::lanes::LANES;
use wots_plus::{Prf, Wots};

/// A secret's tree (RFC 8391 4.1.6), whose leaves are public hashes. It has no `Debug`, as it contains the secret.
#[derive(Drop)]
pub struct XmssTree {
    secret: XmssSecret,
    seed: Prf,
    // Leaves made so far, for contracts alone.
    made: Count,
    ghost seeded: { seed.key ≡ secret.public_seed },
}

impl XmssTree {
    ghost use Rattle.xmss.specs.Secret.{leaves_made, secret_of};

    /// A secret's tree, before any leaf is made.
    pub fn new(secret: XmssSecret) -> Self
        ensures secret { secret_of result ≡ secret }
        ensures made { leaves_made result ≡ 0 }
    {
        XmssTree {
            secret,
            seed: Prf::new(secret.public_seed),
            made: Count::new(),
        }
    }
}

impl NodeHash for XmssTree {
    ghost use Rattle.xmss.specs.Secret.{joins_of, secret_of};

    ghost join_of = { λ tree. joins_of (secret_of tree) };

    fn join(&self, height: u8, index: u32, left: &[u8; 32], right: &[u8; 32]) -> [u8; 32] {
        Nodes { seed: &self.seed }.join(height, index, left, right)
    }
}

impl TreeHash for XmssTree {
    ghost use Rattle.xmss.specs.Secret.{leaves_made, leaves_of, secret_of};

    ghost leaf_of = { λ tree. leaves_of (secret_of tree) };

    ghost made = { leaves_made };

    fn leaf(&mut self, i: u32) -> [u8; 32] {
        self.made.add_one();
        let key = Wots {
            seed: &self.seed,
            leaf: i,
        };
        key.public_hash(&self.secret.secret_seed)
    }

    fn leaves_in_lanes(&mut self, first: u32) -> [[u8; 32]; LANES] {
        let leaves = leaves_from(first);
        count_lanes(&mut self.made);
        Wots::public_hashes_in_lanes(&self.seed, leaves, &self.secret.secret_seed)
    }
}

// Counts a leaf for each lane.
fn count_lanes(made: &mut Count)
    ensures { made.new ≡ made.old + lanes }
{
    for _lane in 0..LANES {
        Count::add_one(made);
    }
}

// Leaf numbers from `first` on, one for each lane.
fn leaves_from(first: u32) -> [u32; LANES]
    requires { first + lanes ≤ 2 ^ 32 }
    ensures { (j : ℕ) → j < lanes → slice_index result j ≡ first + j }
{
    let mut leaves = [first; LANES];
    for lane in 0..LANES {
        leaves[lane] = first + lane as u32;
    }
    leaves
}
