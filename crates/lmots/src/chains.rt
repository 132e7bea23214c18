//! The chains of a one-time key.

ghost use Rattle.std.specs.Prelude.{◌≡◌, ◌<◌, ◌≤◌, ℕ, ◌+◌, ◌++◌, [], length, slice_index, slice_index_or};
ghost use Rattle.std.proofs.Props.{props};
ghost use Rattle.lmots.specs.Hashes.{u32str};
ghost use Rattle.lmots.specs.Key as spec;
ghost use Rattle.lmots.specs.Key.{step_of};
ghost use Rattle.winternitz.specs.inner.Beginning.{BeginsWith};
ghost use Rattle.winternitz.specs.Lanes.{lanes};

use crate::key::LmOts;
use typecodes::put;
use winternitz::lanes::{Beginning, LANES, digests, in_words};
use winternitz::{MOST_CHAINS, Step, Values, added};

/// The chains of a key. Steps in lanes begin with I and q, and share the rounds over them.
#[derive(Clone, Copy)]
pub(crate) struct Chains {
    pub(crate) key: LmOts,
    beginning: Beginning,
    ghost begins: { BeginsWith beginning (λ _. key.identifier ++ u32str key.leaf) } by { Prim.hlevel props },
}

impl Step for Chains {
    ghost step_of = { λ chains. step_of chains.key.identifier chains.key.leaf };

    fn step(&self, chain: u16, at: u8, value: &[u8; 32]) -> [u8; 32] {
        self.key.step(chain, at, value)
    }

    fn step_in_lanes(
        &self,
        chains: &[u16; LANES],
        at: &[u8; LANES],
        values: &[[u8; 32]; LANES],
    ) -> [[u8; 32]; LANES] {
        digests(&self.beginning.hash(chains, at, &in_words(values)))
    }

    fn steps_in_lanes(
        &self,
        chains: &[u16; LANES],
        from: &[u8; LANES],
        steps: u8,
        values: &[[u8; 32]; LANES],
    ) -> [[u8; 32]; LANES] {
        let mut words = in_words(values);
        for taken in 0..steps {
            words = self.beginning.hash(chains, &added(from, taken), &words);
        }
        digests(&words)
    }
}

impl Chains {
    pub(crate) fn of(key: &LmOts) -> Chains
        ensures { result.key ≡ key.now }
    {
        Chains {
            key: *key,
            beginning: Beginning::new(&[key_prefix(&key.identifier, key.leaf); LANES]),
        }
    }

    // The private values of the first `count` chains, made in lanes.
    pub(crate) fn private_values(&self, seed: &[u8; 32], count: usize) -> Values
        requires { count ≤ 265 }
        ensures { (i : ℕ) → i < count
            → slice_index_or result i [] ≡ spec.private_value self.now.key.identifier self.now.key.leaf seed.now i }
    {
        let mut values = [[0; 32]; MOST_CHAINS];
        let groups = count / LANES;
        for group in 0..groups {
            self.private_values_in_lanes(seed, LANES * group, &mut values);
        }
        for chain in LANES * groups..count {
            values[chain] = self.key.secret(seed, chain as u16);
        }
        values
    }

    // The private values of `LANES` chains from `chain` on. Each is made as step 0xff of its chain would be.
    fn private_values_in_lanes(&self, seed: &[u8; 32], chain: usize, values: &mut Values)
        requires { chain + lanes ≤ 265 }
        ensures before { (i : ℕ) → i < chain → slice_index_or values.new i [] ≡ slice_index_or values.old i [] }
        ensures made { (j : ℕ) → j < lanes → slice_index_or values.new (chain + j) []
            ≡ spec.private_value self.now.key.identifier self.now.key.leaf seed.now (chain + j) }
    {
        let chains = numbers_from(chain as u16);
        let made = self.step_in_lanes(&chains, &[0xff; LANES], &[*seed; LANES]);
        for lane in 0..LANES {
            values[chain + lane] = made[lane];
        }
    }
}

// What every hash of a key begins with: I and q.
pub(crate) fn key_prefix(identifier: &[u8; 16], leaf: u32) -> [u8; 20]
    ensures { result ≡ identifier.now ++ u32str leaf }
{
    let mut bytes = [0; 20];
    let offset = put(&mut bytes, 0, identifier);
    put(&mut bytes, offset, &leaf.to_be_bytes());
    bytes
}

// `first` and the numbers after it, one for each lane.
fn numbers_from(first: u16) -> [u16; LANES]
    requires { first + lanes < 65536 }
    ensures { (j : ℕ) → j < lanes → slice_index result j ≡ first + j }
{
    let mut numbers = [first; LANES];
    for lane in 0..LANES {
        numbers[lane] = first + lane as u16;
    }
    numbers
}
