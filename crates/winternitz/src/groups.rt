//! All chains of a key, climbed side by side.

ghost use Rattle.std.specs.Prelude.{◌≡◌, ◌≤◌, ◌<◌, ◌+◌, ℕ, List, [], length, slice_index, slice_index_or};
ghost use Rattle.winternitz.specs.Chain.{walk};
ghost use Rattle.winternitz.specs.inner.Chain.{walk_at};
ghost use Rattle.winternitz.specs.inner.Groups.{IsOnItsWay, IsWithin};
ghost use Rattle.winternitz.specs.Lanes.{lanes};

use crate::chain::{Step, added, climb};
use crate::lanes::LANES;
use crate::schedule::{Batch, LaneSchedule};

/// The most chains of a key: p for width 1.
pub const MOST_CHAINS: usize = 265;

/// A value for each chain of a key.
pub type Values = [[u8; 32]; MOST_CHAINS];

/// Each value after the steps 0, .., last - 1 of its chain. The caller gives at most 265 values.
pub fn climb_whole<S: Step>(step: &S, last: u8, values: &[[u8; 32]]) -> Values
    requires { length values.now ≤ 265 }
    ensures { (i : ℕ) → i < length values.now
        → slice_index_or result i [] ≡ walk (S.step_of step.now) i 0 last (slice_index_or values.now i []) }
{
    climb_each(step, &same_for_all(0), &same_for_all(last), values)
}

/// Each value after the steps 0, .., digit - 1 of its chain. The caller gives at most 265 values, and a digit for each.
pub fn climb_to<S: Step>(step: &S, digits: &[u8], values: &[[u8; 32]]) -> Values
    requires within_limit { length values.now ≤ 265 }
    requires digits { length values.now ≤ length digits.now }
    ensures { (i : ℕ) → i < length values.now → slice_index_or result i []
        ≡ walk (S.step_of step.now) i 0 (slice_index digits.now i) (slice_index_or values.now i []) }
{
    climb_each(step, &same_for_all(0), digits, values)
}

/// Each value after the steps digit, .., last - 1 of its chain. The caller gives at most 265 values, and for each a
/// digit of at most `last`.
pub fn climb_from<S: Step>(step: &S, digits: &[u8], last: u8, values: &[[u8; 32]]) -> Values
    requires at_most_265 { length values.now ≤ 265 }
    requires digits { length values.now ≤ length digits.now }
    requires order { (i : ℕ) → i < length values.now → slice_index digits.now i ≤ last }
    ensures { (i : ℕ) → i < length values.now → slice_index_or result i []
        ≡ walk (S.step_of step.now) i (slice_index digits.now i) last (slice_index_or values.now i []) }
{
    climb_each(step, digits, &same_for_all(last), values)
}

// For the prover: a function of its own, so that the long list stays out of its callers' goals.
fn same_for_all(place: u8) -> [u8; MOST_CHAINS]
    ensures exact_length { length result ≡ 265 }
    ensures each { (i : ℕ) → i < 265 → slice_index result i ≡ place }
{
    [place; MOST_CHAINS]
}

// Climbs each chain by its steps from, .., to - 1: side by side while the lanes share them, then the rest chain by
// chain.
pub(crate) fn climb_each<S: Step>(step: &S, from: &[u8], to: &[u8], values: &[[u8; 32]]) -> Values
    requires at_most_265 { length values.now ≤ 265 }
    requires from { length values.now ≤ length from.now }
    requires to { length values.now ≤ length to.now }
    requires order { (i : ℕ) → i < length values.now → slice_index from.now i ≤ slice_index to.now i }
    ensures { (i : ℕ) → i < length values.now
        → slice_index_or result i [] ≡ walk_at (S.step_of step.now) from.now to.now values.now i }
{
    let count = values.len();
    let mut at = padded_places(&from[..count]);
    let mut ends = padded_values(values);
    climb_together(step, &to[..count], &mut at, &mut ends);
    finish_each(step, &to[..count], &at, &mut ends);
    ends
}

// The places of the given chains, padded with 0.
fn padded_places(from: &[u8]) -> [u8; MOST_CHAINS]
    requires { length from.now ≤ 265 }
    ensures exact_length { length result ≡ 265 }
    ensures each { (i : ℕ) → i < length from.now → slice_index result i ≡ slice_index from.now i }
{
    let mut at = same_for_all(0);
    for i in 0..from.len() {
        at[i] = from[i];
    }
    at
}

// The values of the given chains, padded with zeros.
fn padded_values(values: &[[u8; 32]]) -> Values
    requires { length values.now ≤ 265 }
    ensures { (i : ℕ) → i < length values.now → slice_index_or result i [] ≡ slice_index_or values.now i [] }
{
    let mut padded = [[0; 32]; MOST_CHAINS];
    for i in 0..values.len() {
        padded[i] = values[i];
    }
    padded
}

// Climbs chains side by side, batch by batch, until every lane has taken its share. Which chains climb together decides
// only the time: each chain stays on its way, whatever is chosen.
fn climb_together<S: Step>(step: &S, to: &[u8], at: &mut [u8; MOST_CHAINS], ends: &mut Values)
    requires at_most_265 { length to.now ≤ 265 }
    requires order { (i : ℕ) → i < length to.now → slice_index at.old i ≤ slice_index to.now i }
    ensures { (from : List ℕ) (values : List (List ℕ)) (i : ℕ) → i < length to.now
        → IsOnItsWay (S.step_of step.now) from at.old to.now values ends.old i
        → IsOnItsWay (S.step_of step.now) from at.new to.now values ends.new i }
{
    let mut schedule = LaneSchedule::of(to, at);
    for _batch in 0..to.len() + LANES {
        let Some(batch) = schedule.next_batch(to, at) else {
            return;
        };
        climb_batch(step, &batch, to, at, ends);
    }
}

// Climbs a batch's chains by its steps, side by side.
fn climb_batch<S: Step>(
    step: &S,
    batch: &Batch,
    to: &[u8],
    at: &mut [u8; MOST_CHAINS],
    ends: &mut Values,
)
    requires at_most_265 { length to.now ≤ 265 }
    requires reach { IsWithin batch.now.chains batch.now.steps at.old to.now }
    ensures { (from : List ℕ) (values : List (List ℕ)) (i : ℕ)
        → IsOnItsWay (S.step_of step.now) from at.old to.now values ends.old i
        → IsOnItsWay (S.step_of step.now) from at.new to.now values ends.new i }
{
    let begin = gather_places(at, &batch.chains);
    let values = gather_values(ends, &batch.chains);
    let climbed = step.steps_in_lanes(&batch.chains, &begin, batch.steps, &values);
    let end = added(&begin, batch.steps);
    for lane in 0..LANES {
        let chain = usize::from(batch.chains[lane]);
        at[chain] = end[lane];
        ends[chain] = climbed[lane];
    }
}

// Climbs the rest of each chain, one chain after the other.
fn finish_each<S: Step>(step: &S, to: &[u8], at: &[u8; MOST_CHAINS], ends: &mut Values)
    requires at_most_265 { length to.now ≤ 265 }
    requires order { (i : ℕ) → i < length to.now → slice_index at.now i ≤ slice_index to.now i }
    ensures { (i : ℕ) → i < length to.now
        → slice_index_or ends.new i [] ≡ walk_at (S.step_of step.now) at.now to.now ends.old i }
{
    for i in 0..to.len() {
        ends[i] = climb(step, i as u16, at[i], to[i], &ends[i]);
    }
}

// The places of the lanes' chains.
fn gather_places(places: &[u8], chains: &[u16; LANES]) -> [u8; LANES]
    requires { (j : ℕ) → j < lanes → slice_index chains.now j < length places.now }
    ensures { (j : ℕ) → j < lanes → slice_index result j ≡ slice_index places.now (slice_index chains.now j) }
{
    let mut picked = [0; LANES];
    for lane in 0..LANES {
        picked[lane] = places[usize::from(chains[lane])];
    }
    picked
}

// The values of the lanes' chains.
fn gather_values(values: &[[u8; 32]], chains: &[u16; LANES]) -> [[u8; 32]; LANES]
    requires { (j : ℕ) → j < lanes → slice_index chains.now j < length values.now }
    ensures { (j : ℕ) → j < lanes
        → slice_index_or result j [] ≡ slice_index_or values.now (slice_index chains.now j) [] }
{
    let mut picked = [[0; 32]; LANES];
    for lane in 0..LANES {
        picked[lane] = values[usize::from(chains[lane])];
    }
    picked
}
