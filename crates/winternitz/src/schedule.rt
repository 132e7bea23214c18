//! How the steps of a key's chains are shared out among the lanes.
//!
//! The steps of all chains are laid in a row, chain after chain, and each lane takes an equal part. So all lanes finish
//! together. A chain that crosses a boundary is split: the later lane takes its first steps right away, the earlier
//! lane takes the rest last.

ghost use Rattle.std.specs.Prelude.{◌≡◌, ◌≤◌, ◌<◌, ◌+◌, ◌*◌, ℕ, true, IfSome, length, slice_index};
ghost use Rattle.winternitz.specs.inner.Groups.{IsWithin};
ghost use Rattle.winternitz.specs.Lanes.{lanes};

use crate::lanes::LANES;

/// The chains that climb together, one per lane, and by how many steps.
#[derive(Clone, Copy)]
pub(crate) struct Batch {
    pub(crate) chains: [u16; LANES],
    pub(crate) steps: u8,
}

/// What each lane still has to do.
#[derive(Drop)]
pub(crate) struct LaneSchedule {
    // each lane's current chain
    chains: [u16; LANES],
    // how many of its steps are this lane's
    own: [u8; LANES],
    // how many steps each lane still has to take
    left: usize,
}

impl LaneSchedule {
    /// Shares out the steps of chains, each from a place to its end. The caller gives at most 265 chains, and a place
    /// for each.
    pub(crate) fn of(to: &[u8], at: &[u8]) -> LaneSchedule
        requires at_most_265 { length to.now ≤ 265 }
        requires covers { length to.now ≤ length at.now }
    {
        let left = all_steps(to, at) / LANES;
        let mut chains = [0; LANES];
        let mut own = [0; LANES];
        for lane in 0..LANES {
            (chains[lane], own[lane]) = step_at(lane * left, 0, to, at);
        }
        LaneSchedule { chains, own, left }
    }

    /// The chains that climb together next, until a lane's chain ends. `None` if every lane has taken its part, or if
    /// two lanes would stand in one chain, as in one longer than a part.
    pub(crate) fn next_batch(&mut self, to: &[u8], at: &[u8]) -> Option<Batch>
        requires at_most_265 { length to.now ≤ 265 }
        requires covers { length to.now ≤ length at.now }
        requires order { (i : ℕ) → i < length to.now → slice_index at.now i ≤ slice_index to.now i }
        ensures { IfSome result (λ batch. IsWithin batch.chains batch.steps at.now to.now) }
    {
        self.pass_ends(to, at);
        if self.left == 0 || !are_apart(&self.chains, to.len()) {
            return None;
        }
        let steps = self.steps_together(to, at);
        self.take(steps);
        Some(Batch {
            chains: self.chains,
            steps,
        })
    }

    // Moves each lane whose chain is at its end to the next chain.
    fn pass_ends(&mut self, to: &[u8], at: &[u8])
        requires at_most_265 { length to.now ≤ 265 }
        requires covers { length to.now ≤ length at.now }
    {
        for lane in 0..LANES {
            if self.own[lane] == 0 {
                let next = usize::from(self.chains[lane]) + 1;
                (self.chains[lane], self.own[lane]) = step_at(0, next, to, at);
            }
        }
    }

    // How many steps the chains take together: until one is at its end, or its lane has taken its part.
    fn steps_together(&self, to: &[u8], at: &[u8]) -> u8
        requires below { (j : ℕ) → j < lanes → slice_index self.now.chains j < length to.now }
        requires covers { length to.now ≤ length at.now }
        requires order { (i : ℕ) → i < length to.now → slice_index at.now i ≤ slice_index to.now i }
        ensures reach { IsWithin self.now.chains result at.now to.now }
        ensures own { (j : ℕ) → j < lanes → result ≤ slice_index self.now.own j }
        ensures left { result ≤ self.now.left }
    {
        let mut steps = self.left.min(255) as u8;
        for lane in 0..LANES {
            let chain = usize::from(self.chains[lane]);
            steps = steps.min(self.own[lane]).min(to[chain] - at[chain]);
        }
        steps
    }

    // Counts steps that every lane has taken.
    fn take(&mut self, steps: u8)
        requires own { (j : ℕ) → j < lanes → steps ≤ slice_index self.old.own j }
        requires left { steps ≤ self.old.left }
        ensures { self.new.chains ≡ self.old.chains }
    {
        self.left -= usize::from(steps);
        for lane in 0..LANES {
            self.own[lane] -= steps;
        }
    }
}

// The steps of all chains.
fn all_steps(to: &[u8], at: &[u8]) -> usize
    requires at_most_265 { length to.now ≤ 265 }
    requires covers { length to.now ≤ length at.now }
    ensures { result ≤ 255 * 265 }
{
    let mut steps = 0;
    for chain in 0..to.len() {
        steps += usize::from(to[chain].saturating_sub(at[chain]));
    }
    steps
}

// The chain where step `nth` of the row lies, counted from chain `first`, and how many of its steps are left from
// there. Past the row: the number of chains, and 0.
fn step_at(nth: usize, first: usize, to: &[u8], at: &[u8]) -> (u16, u8)
    requires at_most_265 { length to.now ≤ 265 }
    requires covers { length to.now ≤ length at.now }
{
    let mut before = nth;
    for chain in first..to.len() {
        let steps = to[chain].saturating_sub(at[chain]);
        if before < usize::from(steps) {
            return (chain as u16, steps - before as u8);
        }
        before -= usize::from(steps);
    }
    (to.len() as u16, 0)
}

// Whether the lanes' chains rise from lane to lane, so that no two are one, and are all below a count.
fn are_apart(chains: &[u16; LANES], count: usize) -> bool
    ensures { result ≡ true → (j : ℕ) → j < lanes → slice_index chains.now j < count }
{
    let mut end = count;
    for lane in 0..LANES {
        let chain = usize::from(chains[LANES - 1 - lane]);
        if chain >= end {
            return false;
        }
        end = chain;
    }
    true
}
