//! The one-time key of a leaf.

ghost use Rattle.std.specs.Prelude.{◌≡◌, ◌<◌, ℕ, ◌+◌, ◌++◌, [], length};
ghost use Rattle.std.specs.Prelude.{slice_index, slice_index_or};
ghost use Rattle.winternitz.specs.Lanes.{lanes};
ghost use Rattle.wots_plus.specs.Address.{one_time};
ghost use Rattle.wots_plus.specs.Key as spec;
ghost use Rattle.wots_plus.specs.Key.{step_of};

use crate::address::Address;
use crate::hashes::{Prf, hash_f, hash_f_in_lanes, keyed, xor, xor_in_lanes};
use sha2::Digest;
use typecodes::put;
use winternitz::Step;
use winternitz::lanes::LANES;

// The steps of a chain, and the greatest digit.
pub(crate) const STEPS: u8 = 15;

/// A leaf's one-time key, named by its tree's public SEED and the leaf's number.
#[derive(Clone, Copy)]
pub struct Wots<'seed> {
    /// PRF under SEED.
    pub seed: &'seed Prf,
    /// The leaf's number: "OTS address" and "L-tree address" in RFC 8391 2.5.
    pub leaf: u32,
}

impl Step for Wots<'_> {
    ghost step_of = { λ key. step_of key.seed.now.key key.leaf };

    fn step(&self, chain: u16, at: u8, value: &[u8; 32]) -> [u8; 32] {
        let key = self.seed.hash(&self.step_address(chain, at, 0));
        let mask = self.seed.hash(&self.step_address(chain, at, 1));
        hash_f(&key, &xor(value, &mask))
    }

    fn step_in_lanes(
        &self,
        chains: &[u16; LANES],
        at: &[u8; LANES],
        values: &[[u8; 32]; LANES],
    ) -> [[u8; 32]; LANES] {
        let keys = self.seed.hash_in_lanes(&self.step_addresses(chains, at, 0));
        let masks = self.seed.hash_in_lanes(&self.step_addresses(chains, at, 1));
        hash_f_in_lanes(&keys, &xor_in_lanes(values, &masks))
    }
}

impl Wots<'_> {
    pub(crate) fn step_address(&self, chain: u16, at: u8, key_and_mask: u32) -> [u8; 32]
        ensures { result ≡ one_time self.now.leaf chain at key_and_mask }
    {
        let address = Address::OneTime {
            leaf: self.leaf,
            chain: chain.into(),
            hash: at.into(),
        };
        address.bytes(key_and_mask)
    }

    // The address of a step in each lane.
    fn step_addresses(
        &self,
        chains: &[u16; LANES],
        at: &[u8; LANES],
        key_and_mask: u32,
    ) -> [[u8; 32]; LANES]
        ensures { (j : ℕ) → j < lanes → slice_index_or result j []
            ≡ one_time self.now.leaf (slice_index chains.now j) (slice_index at.now j) key_and_mask }
    {
        let mut addresses = [[0; 32]; LANES];
        for lane in 0..LANES {
            addresses[lane] = self.step_address(chains[lane], at[lane], key_and_mask);
        }
        addresses
    }

    /// The private value of a chain, derived from a secret.
    pub fn secret(&self, secret_seed: &[u8; 32], chain: u16) -> [u8; 32]
        ensures { result ≡ spec.private_value self.now.seed.now.key self.now.leaf secret_seed.now chain }
    {
        let mut hasher = keyed(4, secret_seed);
        hasher.update(self.seed.key);
        hasher.update(self.step_address(chain, 0, 0));
        hasher.finalize()
    }

    // The second block that is hashed into a private value: SEED and the address.
    pub(crate) fn private_block(&self, chain: u16) -> [u8; 64]
        ensures bytes { result ≡ self.now.seed.now.key ++ one_time self.now.leaf chain 0 0 }
        ensures is_block { length result ≡ 64 }
    {
        let mut block = [0; 64];
        let offset = put(&mut block, 0, &self.seed.key);
        put(&mut block, offset, &self.step_address(chain, 0, 0));
        block
    }
}
