//! Chains of any step.

ghost use Rattle.std.specs.Prelude.{◌≡◌, ◌≤◌, ◌<◌, ◌+◌, ℕ, List, [], slice_index, slice_index_or};
ghost use Rattle.winternitz.specs.Chain.{walk};
ghost use Rattle.winternitz.specs.Lanes.{lanes};

use crate::lanes::LANES;

/// One step along a chain: the standard's hash.
pub trait Step {
    // the next value, by the chain's number, the step's number and the value
    ghost step_of: { Self → ℕ → ℕ → List ℕ → List ℕ };

    /// The value after step `at` of a chain, from the value before it (RFC 8554 4.3, RFC 8391 3.1.2).
    fn step(&self, chain: u16, at: u8, value: &[u8; 32]) -> [u8; 32]
        ensures { result ≡ step_of self.now chain at value.now };

    /// One step in each lane, each at its own place. A hash with lanes takes them together.
    fn step_in_lanes(
        &self,
        chains: &[u16; LANES],
        at: &[u8; LANES],
        values: &[[u8; 32]; LANES],
    ) -> [[u8; 32]; LANES]
        ensures { (j : ℕ) → j < lanes → slice_index_or result j []
            ≡ step_of self.now (slice_index chains.now j) (slice_index at.now j) (slice_index_or values.now j []) }
    {
        let mut after = [[0; 32]; LANES];
        for lane in 0..LANES {
            after[lane] = self.step(chains[lane], at[lane], &values[lane]);
        }
        after
    }

    /// `steps` steps in each lane, each from its own place. A hash with lanes can keep the values as words until the
    /// last step. The caller keeps the places after them below 256.
    fn steps_in_lanes(
        &self,
        chains: &[u16; LANES],
        from: &[u8; LANES],
        steps: u8,
        values: &[[u8; 32]; LANES],
    ) -> [[u8; 32]; LANES]
        requires { (j : ℕ) → j < lanes → slice_index from.now j + steps < 256 }
        ensures { (j : ℕ) → j < lanes → slice_index_or result j [] ≡ walk (step_of self.now) (slice_index chains.now j)
            (slice_index from.now j) (slice_index from.now j + steps) (slice_index_or values.now j []) }
    {
        let mut values = *values;
        for taken in 0..steps {
            values = self.step_in_lanes(chains, &added(from, taken), &values);
        }
        values
    }
}

/// The value after the steps from, .., to - 1 of a chain (RFC 8554 4.3, RFC 8391 3.1.2). The caller keeps `from` at
/// most `to`.
pub fn climb<S: Step>(step: &S, chain: u16, from: u8, to: u8, value: &[u8; 32]) -> [u8; 32]
    requires { from ≤ to }
    ensures { result ≡ walk (S.step_of step.now) chain from to value.now }
{
    let mut value = *value;
    for at in from..to {
        value = step.step(chain, at, &value);
    }
    value
}

/// The lanes' places after `taken` more steps. The caller keeps them below 256.
pub fn added(from: &[u8; LANES], taken: u8) -> [u8; LANES]
    requires { (j : ℕ) → j < lanes → slice_index from.now j + taken < 256 }
    ensures { (j : ℕ) → j < lanes → slice_index result j ≡ slice_index from.now j + taken }
{
    let mut places = [0; LANES];
    for lane in 0..LANES {
        places[lane] = from[lane] + taken;
    }
    places
}
