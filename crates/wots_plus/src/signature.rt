//! The public hash and the signatures of a one-time key.

ghost use Rattle.std.specs.Prelude.{◌≡◌, ◌<◌, ◌≤◌, ℕ, ◌+◌, ◌*◌, ◌++◌, List, [], length};
ghost use Rattle.std.specs.Prelude.{slice_index, slice_index_or, take};
ghost use Rattle.std.specs.List.{concat};
ghost use Rattle.sha2.specs.Sha256.{compress, initial_hash_256};
ghost use Rattle.typecodes.specs.Fields.{first_values};
ghost use Rattle.typecodes.specs.Types.{wots_chains};
ghost use Rattle.winternitz.specs.Chain.{end_at};
ghost use Rattle.winternitz.specs.Lanes.{lanes, lane_state};
ghost use Rattle.wots_plus.specs.Hashes.{to_byte};
ghost use Rattle.wots_plus.specs.Key as spec;
ghost use Rattle.wots_plus.specs.Key.{ClimbTo, ends_of_secret, ends_of_signature, signed_values, step_of};

use crate::hashes::{Prf, first_state};
use crate::key::{STEPS, Wots};
use crate::lane_keys::LaneKeys;
use typecodes::WOTS_CHAINS;
use winternitz::lanes::{LANES, States, in_each, sha256_of_128};
use winternitz::{MOST_CHAINS, Values, climb, climb_from, climb_to, climb_whole, digits};

// log2(w), for w = 16.
const WIDTH: u8 = 4;

impl Wots<'_> {
    // The private values of all chains, made in lanes and the last ones one by one.
    fn private_values(&self, secret: &[u8; 32]) -> Values
        ensures { (i : ℕ) → i < wots_chains → slice_index_or result i []
            ≡ spec.private_value self.now.seed.now.key self.now.leaf secret.now i }
    {
        let first = in_each(&first_state(4, secret));
        let mut values = [[0; 32]; MOST_CHAINS];
        for group in 0..WOTS_CHAINS / LANES {
            self.private_values_in_lanes(secret, &first, LANES * group, &mut values);
        }
        for chain in WOTS_CHAINS / LANES * LANES..WOTS_CHAINS {
            values[chain] = self.secret(secret, chain as u16);
        }
        values
    }

    // Writes a private value for each lane, `chain`'s and those after it. `first` is the hash value after their common
    // first block.
    fn private_values_in_lanes(
        &self,
        secret: &[u8; 32],
        first: &States,
        chain: usize,
        values: &mut Values,
    )
        requires room { chain + lanes ≤ 265 }
        requires first { (j : ℕ) → j < lanes
            → lane_state first.now j ≡ compress initial_hash_256 (to_byte 4 32 ++ secret.now) }
        requires is_block { length (to_byte 4 32 ++ secret.now) ≡ 64 }
        ensures before { (i : ℕ) → i < chain → slice_index_or values.new i [] ≡ slice_index_or values.old i [] }
        ensures made { (j : ℕ) → j < lanes → slice_index_or values.new (chain + j) []
            ≡ spec.private_value self.now.seed.now.key self.now.leaf secret.now (chain + j) }
    {
        let mut blocks = [[0; 64]; LANES];
        for lane in 0..LANES {
            blocks[lane] = self.private_block((chain + lane) as u16);
        }
        let made = sha256_of_128(first, &blocks);
        for lane in 0..LANES {
            values[chain + lane] = made[lane];
        }
    }

    /// The public hash of a secret's key: the root of the L-tree over its chains' ends (RFC 8391 3.1.4 and 4.1.6).
    pub fn public_hash(&self, secret: &[u8; 32]) -> [u8; 32]
        ensures { result ≡ spec.public_hash self.now.seed.now.key self.now.leaf
            (ends_of_secret self.now.seed.now.key self.now.leaf secret.now) }
    {
        let mut ends = self.ends_from_secret(secret);
        self.l_tree(&mut ends[..WOTS_CHAINS])
    }

    /// `public_hash` of a leaf in each lane. All leaves are of one tree and made from one secret.
    pub fn public_hashes_in_lanes(
        seed: &Prf,
        leaves: [u32; LANES],
        secret: &[u8; 32],
    ) -> [[u8; 32]; LANES]
        ensures { (j : ℕ) → j < lanes → let leaf = slice_index leaves j in slice_index_or result j []
            ≡ spec.public_hash seed.now.key leaf (ends_of_secret seed.now.key leaf secret.now) }
    {
        LaneKeys { seed, leaves }.public_hashes(secret)
    }

    fn ends_from_secret(&self, secret: &[u8; 32]) -> Values
        ensures { take wots_chains result ≡ ends_of_secret self.now.seed.now.key self.now.leaf secret.now }
    {
        let starts = self.private_values(secret);
        climb_whole(self, STEPS, &starts[..WOTS_CHAINS])
    }

    /// Writes the signature of a digest, 32 bytes for each chain: its value after as many steps as the digest's digit
    /// (RFC 8391 3.1.5). The caller gives just that room.
    pub fn sign_digest(&self, secret: &[u8; 32], digest: &[u8; 32], into: &mut [u8])
        requires { length into.old ≡ 32 * wots_chains }
        ensures value { into.new ≡ concat (signed_values self.now.seed.now.key self.now.leaf secret.now digest.now) }
        ensures climbs { ClimbTo self.now.seed.now.key self.now.leaf digest.now
            (first_values wots_chains into.new) (ends_of_secret self.now.seed.now.key self.now.leaf secret.now) }
    {
        let starts = self.private_values(secret);
        let values = climb_to(self, &digits(WIDTH, digest), &starts[..WOTS_CHAINS]);
        into.copy_from_slice(values[..WOTS_CHAINS].as_flattened());
    }

    /// The public hash that a signature leads to (RFC 8391 3.1.6 and 4.1.10). Each chain climbs from its digit to its
    /// end, and the L-tree joins the ends. The caller gives a value for each chain.
    pub fn public_from_signature(&self, digest: &[u8; 32], values: &[[u8; 32]]) -> [u8; 32]
        requires { length values.now ≡ wots_chains }
        ensures value { result ≡ spec.public_hash self.now.seed.now.key self.now.leaf
            (ends_of_signature self.now.seed.now.key self.now.leaf digest.now values.now) }
        // Every list of ends that the values climb to has this hash (`only`), and there is one (`ends_exist`).
        ensures only { (ends : List (List ℕ)) →
            ClimbTo self.now.seed.now.key self.now.leaf digest.now values.now ends →
            result ≡ spec.public_hash self.now.seed.now.key self.now.leaf ends }
        ensures ends_exist { (ends : List (List ℕ)) ×
            ClimbTo self.now.seed.now.key self.now.leaf digest.now values.now ends ×
            (result ≡ spec.public_hash self.now.seed.now.key self.now.leaf ends) }
    {
        let mut ends = self.ends_from_signature(digest, values);
        self.l_tree(&mut ends[..WOTS_CHAINS])
    }

    fn ends_from_signature(&self, digest: &[u8; 32], values: &[[u8; 32]]) -> Values
        requires { length values.now ≡ wots_chains }
        ensures { take wots_chains result
            ≡ ends_of_signature self.now.seed.now.key self.now.leaf digest.now values.now }
    {
        climb_from(self, &digits(WIDTH, digest), STEPS, values)
    }

    // The same, one chain after the other.
    pub(crate) fn ends_one_by_one(
        &self,
        digest: &[u8; 32],
        values: &[[u8; 32]],
        ends: &mut [[u8; 32]; WOTS_CHAINS],
    )
        requires { length values.now ≡ wots_chains }
        ensures { ends.new ≡ ends_of_signature self.now.seed.now.key self.now.leaf digest.now values.now }
    {
        self.climb_one_by_one(&digits(WIDTH, digest), values, ends);
    }

    // Writes each chain's end, from its value at its digit.
    fn climb_one_by_one(
        &self,
        digits: &[u8],
        values: &[[u8; 32]],
        ends: &mut [[u8; 32]; WOTS_CHAINS],
    )
        requires values { length values.now ≡ wots_chains }
        requires digits { length digits.now ≡ wots_chains }
        requires digits_at_most_15 { (i : ℕ) → i < wots_chains → slice_index digits.now i ≤ 15 }
        ensures keeps_length { length ends.new ≡ wots_chains }
        ensures each { (i : ℕ) → i < wots_chains → slice_index_or ends.new i []
            ≡ end_at (step_of self.now.seed.now.key self.now.leaf) 4 digits.now values.now i }
    {
        for chain in 0..WOTS_CHAINS {
            ends[chain] = climb(self, chain as u16, digits[chain], STEPS, &values[chain]);
        }
    }
}
