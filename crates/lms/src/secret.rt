//! Secrets, and the trees that they make.

ghost use Rattle.std.specs.Prelude.{◌≡◌, ◌≤◌, ◌<◌, ◌+◌, ◌^◌, ℕ, slice_index};
ghost use Rattle.typecodes.specs.Types.{height_of};
ghost use Rattle.winternitz.specs.Lanes.{lanes};

use crate::nodes::Nodes;
use lmots::LmOts;
use merkle::{NodeHash, TreeHash};
use typecodes::{Count, LmsSecret};
use winternitz::lanes::LANES;

/// The tree of a secret (RFC 8554 5.3). Each leaf is made from the ends of its one-time key's chains. No `Debug`, as
/// for the secret.
#[derive(Drop)]
pub struct LmsTree {
    secret: LmsSecret,
    // How many leaves were made; only contracts see it.
    made: Count,
}

impl LmsTree {
    ghost use Rattle.lms.specs.Secret.{leaves_made, secret_of};

    /// The tree of a secret, with no leaf made yet.
    pub fn new(secret: LmsSecret) -> Self
        ensures secret { secret_of result ≡ secret }
        ensures made { leaves_made result ≡ 0 }
    {
        LmsTree {
            secret,
            made: Count::new(),
        }
    }
}

impl LmsTree {
    // Counts one leaf for each lane.
    fn count_lanes(&mut self)
        ensures secret { self.new.secret ≡ self.old.secret }
        ensures made { self.new.made ≡ self.old.made + lanes }
    {
        for _lane in 0..LANES {
            Count::add_one(&mut self.made);
        }
    }
}

impl NodeHash for LmsTree {
    ghost use Rattle.lms.specs.Secret.{joins_of, secret_of};

    ghost join_of = { λ tree. joins_of (secret_of tree) };

    fn join(&self, height: u8, index: u32, left: &[u8; 32], right: &[u8; 32]) -> [u8; 32] {
        Nodes::for_secret(&self.secret).join(height, index, left, right)
    }
}

impl TreeHash for LmsTree {
    ghost use Rattle.lms.specs.Secret.{leaves_made, leaves_of, secret_of};

    ghost leaf_of = { λ tree. leaves_of (secret_of tree) };

    ghost made = { leaves_made };

    fn leaf(&mut self, i: u32) -> [u8; 32] {
        self.made.add_one();
        let secret = &self.secret;
        let key = LmOts {
            identifier: secret.identifier,
            leaf: i,
        };
        let public_hash = key.public_hash(secret.pair.ots, &secret.seed);
        Nodes::for_secret(secret).leaf(i, &public_hash)
    }

    fn leaves_in_lanes(&mut self, first: u32) -> [[u8; 32]; LANES] {
        let leaves = leaves_from(first);
        self.count_lanes();
        let secret = &self.secret;
        let public_hashes = LmOts::public_hashes_in_lanes(
            secret.identifier,
            leaves,
            secret.pair.ots,
            &secret.seed,
        );
        Nodes::for_secret(secret).leaves_in_lanes(&leaves, &public_hashes)
    }
}

// `first` and the numbers after it, one for each lane.
fn leaves_from(first: u32) -> [u32; LANES]
    requires { first + lanes ≤ 2 ^ 32 }
    ensures { (j : ℕ) → j < lanes → slice_index result j ≡ first + j }
{
    let mut leaves = [first; LANES];
    for lane in 0..LANES {
        leaves[lane] = first + lane as u32;
    }
    leaves
}
