//! The public hash and the signatures of a one-time key.

ghost use Rattle.std.specs.Prelude.{◌≡◌, ◌<◌, ℕ, ◌*◌, List, [], length, slice_index, slice_index_or};
ghost use Rattle.std.specs.List.{concat};
ghost use Rattle.lmots.specs.Key as spec;
ghost use Rattle.lmots.specs.Key.{ClimbTo, ends_of_seed, ends_of_signature, signed_values};
ghost use Rattle.typecodes.specs.Fields.{first_values};
ghost use Rattle.typecodes.specs.Types.{chains_of};
ghost use Rattle.winternitz.specs.Lanes.{lanes};

use crate::chains::Chains;
use crate::key::{LmOts, PUBLIC, greatest_digit};
use crate::lane_keys::LaneKeys;
use sha2::Digest;
use typecodes::OtsType;
use winternitz::lanes::LANES;
use winternitz::{climb_from, climb_to, climb_whole, digits};

impl LmOts {
    /// The public hash of the key whose private values are derived from the seed: each chain is climbed to its end (RFC
    /// 8554 4.3).
    pub fn public_hash(&self, ots: OtsType, seed: &[u8; 32]) -> [u8; 32]
        ensures { result ≡ spec.public_hash self.now.identifier self.now.leaf
            (ends_of_seed self.now.identifier self.now.leaf ots seed.now) }
    {
        let count = usize::from(ots.chains());
        let chains = Chains::of(self);
        let starts = chains.private_values(seed, count);
        let ends = climb_whole(&chains, greatest_digit(ots), &starts[..count]);
        self.hash_of_ends(&ends[..count])
    }

    /// As `public_hash`, for several leaves of a tree with one seed, side by side in lanes.
    pub fn public_hashes_in_lanes(
        identifier: [u8; 16],
        leaves: [u32; LANES],
        ots: OtsType,
        seed: &[u8; 32],
    ) -> [[u8; 32]; LANES]
        ensures { (j : ℕ) → j < lanes → let q = slice_index leaves j in
            slice_index_or result j [] ≡ spec.public_hash identifier q (ends_of_seed identifier q ots seed.now) }
    {
        LaneKeys::of(identifier, leaves).public_hashes(ots, seed)
    }

    fn hash_of_ends(&self, ends: &[[u8; 32]]) -> [u8; 32]
        ensures { result ≡ spec.public_hash self.now.identifier self.now.leaf ends.now }
    {
        let mut hasher = self.hasher(PUBLIC);
        hasher.update(ends.as_flattened());
        hasher.finalize()
    }

    /// Writes the values of a digest's signature, one after the other: each chain climbed from its private value to its
    /// digit (RFC 8554 4.5). The caller gives 32 bytes for each of the type's chains.
    pub fn sign_digest(&self, ots: OtsType, seed: &[u8; 32], digest: &[u8; 32], into: &mut [u8])
        requires { length into.old ≡ 32 * chains_of ots }
        ensures value { into.new ≡ concat (signed_values self.now.identifier self.now.leaf ots seed.now digest.now) }
        // They climb to the ends of the key's chains.
        ensures climbs { ClimbTo self.now.identifier self.now.leaf ots digest.now
            (first_values (chains_of ots) into.new) (ends_of_seed self.now.identifier self.now.leaf ots seed.now) }
    {
        let count = usize::from(ots.chains());
        let chains = Chains::of(self);
        let starts = chains.private_values(seed, count);
        let values = climb_to(&chains, &digits(ots.width(), digest), &starts[..count]);
        into.copy_from_slice(values[..count].as_flattened());
    }

    /// The public hash to which a signature's values lead: each chain climbed from its digit to its end (RFC 8554 4.6,
    /// algorithm 4b, step 3). The caller gives a value for each of the type's chains.
    pub fn hash_from_signature(
        &self,
        ots: OtsType,
        digest: &[u8; 32],
        values: &[[u8; 32]],
    ) -> [u8; 32]
        requires { length values.now ≡ chains_of ots }
        ensures value { result ≡ spec.public_hash self.now.identifier self.now.leaf
            (ends_of_signature self.now.identifier self.now.leaf ots digest.now values.now) }
        // The hash of every valid list of ends (`only`); a valid list exists (`ends_exist`).
        ensures only { (ends : List (List ℕ)) →
            ClimbTo self.now.identifier self.now.leaf ots digest.now values.now ends →
            result ≡ spec.public_hash self.now.identifier self.now.leaf ends }
        ensures ends_exist { (ends : List (List ℕ)) ×
            ClimbTo self.now.identifier self.now.leaf ots digest.now values.now ends ×
            (result ≡ spec.public_hash self.now.identifier self.now.leaf ends) }
    {
        let digits = digits(ots.width(), digest);
        let ends = climb_from(&Chains::of(self), &digits, greatest_digit(ots), values);
        self.hash_of_ends(&ends[..values.len()])
    }
}
