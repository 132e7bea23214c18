//! Two ways from a signature's values to a public hash.

ghost use Rattle.std.specs.Prelude.{◌≡◌, ◌<◌, ◌≤◌, ℕ, ◌+◌, ◌*◌, ◌/◌, List, [], length, slice_index_or};
ghost use Rattle.typecodes.specs.Types.{wots_chains};
ghost use Rattle.wots_plus.specs.Key as spec;
ghost use Rattle.wots_plus.specs.Key.{ClimbTo, ends_of_signature};
ghost use Rattle.wots_plus.specs.LTree.{l_tree_join};

use crate::hashes::Prf;
use crate::key::Wots;
use typecodes::WOTS_CHAINS;
use winternitz::lanes::LANES;
use winternitz::{InLanes, OneByOne};

/// How a verifier climbs the chains of a signature and joins its L-tree. Both ways give the same public hash: `InLanes`
/// is fast and takes some 64 KB of stack, `OneByOne` takes less than 4 KB.
///
/// How chains share work is measured and tested, not proved: no value depends on it.
pub trait Climbing {
    /// PRF under a key, prepared for this way.
    fn prf(&self, key: [u8; 32]) -> Prf
        ensures { result.key ≡ key };

    /// As `Wots::public_from_signature`. The caller gives a value for each chain.
    fn public_from_signature(
        &self,
        key: &Wots<'_>,
        digest: &[u8; 32],
        values: &[[u8; 32]],
    ) -> [u8; 32]
        requires { length values.now ≡ wots_chains }
        ensures value { result ≡ spec.public_hash key.now.seed.now.key key.now.leaf
            (ends_of_signature key.now.seed.now.key key.now.leaf digest.now values.now) }
        // Every list of ends that the values climb to has this hash (`only`), and there is one (`ends_exist`).
        ensures only { (ends : List (List ℕ)) →
            ClimbTo key.now.seed.now.key key.now.leaf digest.now values.now ends →
            result ≡ spec.public_hash key.now.seed.now.key key.now.leaf ends }
        ensures ends_exist { (ends : List (List ℕ)) ×
            ClimbTo key.now.seed.now.key key.now.leaf digest.now values.now ends ×
            (result ≡ spec.public_hash key.now.seed.now.key key.now.leaf ends) };
}

/// How many pairs of an L-tree's height are joined at once.
pub trait Joining {
    /// Joins the first pairs, writes their nodes to the front, and returns their number. The pairs that it leaves are
    /// unchanged.
    fn join_front(&self, key: &Wots<'_>, height: u32, values: &mut [[u8; 32]]) -> usize
        requires { length values.old ≤ wots_chains }
        ensures count { result ≤ length values.old / 2 }
        ensures over { (k : ℕ) → k < result → slice_index_or values.new k []
            ≡ l_tree_join key.now.seed.now.key key.now.leaf height k
            (slice_index_or values.old (2 * k) []) (slice_index_or values.old (2 * k + 1) []) }
        ensures rest { (k : ℕ) → 2 * result ≤ k → slice_index_or values.new k [] ≡ slice_index_or values.old k [] }
        ensures keeps_length { length values.new ≡ length values.old };
}

impl Climbing for InLanes {
    fn prf(&self, key: [u8; 32]) -> Prf {
        Prf::new(key)
    }

    fn public_from_signature(
        &self,
        key: &Wots<'_>,
        digest: &[u8; 32],
        values: &[[u8; 32]],
    ) -> [u8; 32] {
        key.public_from_signature(digest, values)
    }
}

impl Joining for InLanes {
    fn join_front(&self, key: &Wots<'_>, height: u32, values: &mut [[u8; 32]]) -> usize {
        let groups = values.len() / 2 / LANES;
        for group in 0..groups {
            key.join_pairs(height, LANES * group, values);
        }
        LANES * groups
    }
}

impl Climbing for OneByOne {
    fn prf(&self, key: [u8; 32]) -> Prf {
        Prf::without_lanes(key)
    }

    fn public_from_signature(
        &self,
        key: &Wots<'_>,
        digest: &[u8; 32],
        values: &[[u8; 32]],
    ) -> [u8; 32] {
        let mut ends = [[0; 32]; WOTS_CHAINS];
        key.ends_one_by_one(digest, values, &mut ends);
        key.l_tree_by(self, &mut ends)
    }
}

impl Joining for OneByOne {
    fn join_front(&self, _key: &Wots<'_>, _height: u32, _values: &mut [[u8; 32]]) -> usize {
        0
    }
}
