//! The blocks of one message (FIPS 180-4 6.2.2): what their rounds add is made side by side, and the rounds follow.

ghost use Rattle.std.specs.Prelude.{◌≡◌, ℕ, ◌+◌, ◌<◌, ◌≤◌, List, length, slice_index};
ghost use Rattle.sha2.specs.Sha256 as spec;
ghost use Rattle.sha2.specs.Sha256.{add32, hash_after, rounds, schedule};
ghost use Rattle.winternitz.specs.Lanes.{lane_at, lanes};
ghost use Rattle.winternitz.specs.inner.Sums.{HasSums};

use crate::lanes::{Sums, fill_sums};

/// Eight blocks.
pub(crate) const GROUP: usize = 512;

/// The hash value after the first `count` of eight blocks. What was in `sums` doesn't matter.
pub(crate) fn compress_blocks(state: &mut [u32; 8], sums: &mut Sums, bytes: &[u8], count: usize)
    requires blocks { length bytes.now ≡ 512 }
    requires count { count ≤ lanes }
    ensures { state.new ≡ hash_after state.old bytes.now count }
{
    fill_sums(sums, bytes);
    for lane in 0..count {
        compress_lane(state, sums, lane);
    }
}

// The hash value after the block of a lane. It isn't inlined, so that registers are left for the working variables.
#[inline(never)]
fn compress_lane(state: &mut [u32; 8], sums: &Sums, lane: usize)
    requires { lane < lanes }
    ensures { (b : List ℕ) → HasSums b lane sums.now 64 → state.new ≡ spec.compress state.old b }
{
    let mut working = *state;
    for turn in 0..8 {
        working = eight_rounds(sums, lane, working, 8 * turn);
    }
    *state = [
        state[0].wrapping_add(working[0]),
        state[1].wrapping_add(working[1]),
        state[2].wrapping_add(working[2]),
        state[3].wrapping_add(working[3]),
        state[4].wrapping_add(working[4]),
        state[5].wrapping_add(working[5]),
        state[6].wrapping_add(working[6]),
        state[7].wrapping_add(working[7]),
    ];
}

// Eight rounds, after which each working variable is in its register again.
#[inline(always)]
fn eight_rounds(sums: &Sums, lane: usize, working: [u32; 8], t: usize) -> [u32; 8]
    requires lane { lane < lanes }
    requires rounds { t + 8 ≤ 64 }
    ensures { (b h : List ℕ) → HasSums b lane sums.now 64 → working ≡ rounds h (schedule b 48) t
        → result ≡ rounds h (schedule b 48) (t + 8) }
{
    let next = eight_sums(sums, lane, t);
    let working = round(working, next[0]);
    let working = round(working, next[1]);
    let working = round(working, next[2]);
    let working = round(working, next[3]);
    let working = round(working, next[4]);
    let working = round(working, next[5]);
    let working = round(working, next[6]);
    round(working, next[7])
}

// The sums of eight rounds, read before these. LLVM then adds each one early, where no round waits for it.
#[inline(always)]
fn eight_sums(sums: &Sums, lane: usize, t: usize) -> [u32; 8]
    requires lane { lane < lanes }
    requires rounds { t + 8 ≤ 64 }
    ensures { (k : ℕ) → k < 8 → slice_index result k ≡ lane_at sums.now (t + k) lane }
{
    [
        sums[t][lane],
        sums[t + 1][lane],
        sums[t + 2][lane],
        sums[t + 3][lane],
        sums[t + 4][lane],
        sums[t + 5][lane],
        sums[t + 6][lane],
        sums[t + 7][lane],
    ]
}

// One round on the working variables a to h, with the sum of its word and its constant. Each round waits for the
// `big_sigma1(e)` of the one before it, so this term is begun first, and added to the others last.
#[inline(always)]
fn round(working: [u32; 8], sum: u32) -> [u32; 8]
    ensures { (k word : ℕ) → sum ≡ add32 word k → result ≡ spec.round working k word }
{
    let [a, b, c, d, e, f, g, h] = working;
    let sigma1 = big_sigma1(e);
    let early = h.wrapping_add(sum).wrapping_add(choice(e, f, g));
    let temp1 = early.wrapping_add(sigma1);
    let fifth = d.wrapping_add(temp1);
    let first = temp1
        .wrapping_add(majority(a, b, c))
        .wrapping_add(big_sigma0(a));
    [first, a, b, c, fifth, e, f, g]
}

#[inline(always)]
fn choice(x: u32, y: u32, z: u32) -> u32
    ensures { result ≡ spec.ch x y z }
{
    (x & y) ^ (!x & z)
}

#[inline(always)]
fn majority(x: u32, y: u32, z: u32) -> u32
    ensures { result ≡ spec.maj x y z }
{
    y ^ ((x ^ y) & (y ^ z))
}

#[inline(always)]
fn big_sigma0(x: u32) -> u32
    ensures { result ≡ spec.big_sigma0 x }
{
    x.rotate_right(2) ^ x.rotate_right(13) ^ x.rotate_right(22)
}

#[inline(always)]
fn big_sigma1(x: u32) -> u32
    ensures { result ≡ spec.big_sigma1 x }
{
    x.rotate_right(6) ^ x.rotate_right(11) ^ x.rotate_right(25)
}
