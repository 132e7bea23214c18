//! How a verifier gets from a signature's values to a public hash.

ghost use Rattle.std.specs.Prelude.{◌≡◌, ◌<◌, ◌≤◌, ℕ, ◌-◌, ◌^◌, List, length, slice_index};
ghost use Rattle.lmots.specs.Key as spec;
ghost use Rattle.lmots.specs.Key.{ClimbTo, ends_of_signature, step_of};
ghost use Rattle.typecodes.specs.Types.{chains_of, width_of};
ghost use Rattle.winternitz.specs.Chain.{ends_of};

use crate::key::{LmOts, PUBLIC, greatest_digit};
use sha2::Digest;
use typecodes::OtsType;
use winternitz::{InLanes, OneByOne, climb, digits};

/// A way to climb the chains of a signature. Either way gives the same public hash. `InLanes` is fast and takes some 64
/// KB of stack; `OneByOne` takes less than 2 KB.
///
/// That chains climb side by side and share rounds is measured and tested. No clause says it, since no value depends on
/// it.
pub trait Climbing {
    /// The public hash to which a signature's values lead, as `LmOts::hash_from_signature`. The caller gives a value
    /// for each of the type's chains.
    fn hash_from_signature(
        &self,
        key: &LmOts,
        ots: OtsType,
        digest: &[u8; 32],
        values: &[[u8; 32]],
    ) -> [u8; 32]
        requires { length values.now ≡ chains_of ots }
        ensures value { result ≡ spec.public_hash key.now.identifier key.now.leaf
            (ends_of_signature key.now.identifier key.now.leaf ots digest.now values.now) }
        // The hash of every valid list of ends (`only`); a valid list exists (`ends_exist`).
        ensures only { (ends : List (List ℕ)) →
            ClimbTo key.now.identifier key.now.leaf ots digest.now values.now ends →
            result ≡ spec.public_hash key.now.identifier key.now.leaf ends }
        ensures ends_exist { (ends : List (List ℕ)) ×
            ClimbTo key.now.identifier key.now.leaf ots digest.now values.now ends ×
            (result ≡ spec.public_hash key.now.identifier key.now.leaf ends) };
}

impl Climbing for InLanes {
    fn hash_from_signature(
        &self,
        key: &LmOts,
        ots: OtsType,
        digest: &[u8; 32],
        values: &[[u8; 32]],
    ) -> [u8; 32] {
        key.hash_from_signature(ots, digest, values)
    }
}

impl Climbing for OneByOne {
    fn hash_from_signature(
        &self,
        key: &LmOts,
        ots: OtsType,
        digest: &[u8; 32],
        values: &[[u8; 32]],
    ) -> [u8; 32] {
        hash_of_climbed(key, ots, &digits(ots.width(), digest), values)
    }
}

// The public hash of the ends to which values climb from their digits. Each end is hashed as soon as it is reached;
// none is kept.
fn hash_of_climbed(key: &LmOts, ots: OtsType, digits: &[u8], values: &[[u8; 32]]) -> [u8; 32]
    requires at_most_265 { length values.now ≤ 265 }
    requires count { length digits.now ≡ length values.now }
    requires order { (i : ℕ) → i < length values.now → slice_index digits.now i ≤ 2 ^ width_of ots - 1 }
    ensures { result ≡ spec.public_hash key.now.identifier key.now.leaf
        (ends_of (step_of key.now.identifier key.now.leaf) (width_of ots) digits.now values.now) }
{
    let greatest = greatest_digit(ots);
    let mut hasher = key.hasher(PUBLIC);
    for chain in 0..digits.len() {
        let end = climb(key, chain as u16, digits[chain], greatest, &values[chain]);
        hasher.update(end);
    }
    hasher.finalize()
}
