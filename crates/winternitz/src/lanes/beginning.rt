//! SHA-256 of messages of 55 bytes that share their beginning, as the steps of a chain do (RFC 8554 4.3).

ghost use Rattle.std.specs.Prelude.{◌≡◌, ℕ, ◌+◌, ◌-◌, ◌*◌, ◌<◌, ◌≤◌, ◌^◌, ◌∷◌, ◌++◌, [], length};
ghost use Rattle.std.specs.Prelude.{slice_index, slice_index_or};
ghost use Rattle.std.specs.Int.{w64, to_be_bytes};
ghost use Rattle.std.proofs.Props.{props};
ghost use Rattle.sha2.specs.Sha256.{digest_bytes, initial_hash_256, rounds, sha256, word_at};
ghost use Rattle.winternitz.specs.Lanes.{lane, lanes, lane_state, step_bytes, value_at};
ghost use Rattle.winternitz.specs.inner.Lanes.{joined_word};

use crate::lanes::rounds::{add, compress_from_five, constant, five_rounds, shifted, shifted_left};
use crate::lanes::{LANES, States, Words, initial, side_by_side, words_of};

/// What the messages begin with in each lane, 20 bytes. The rounds over these five words are made only once (FIPS 180-4
/// 6.2.2).
#[derive(Clone, Copy)]
pub struct Beginning {
    // The 20 bytes of each lane, as words.
    word0: Words,
    word1: Words,
    word2: Words,
    word3: Words,
    word4: Words,
    // The working variables after five rounds.
    a: Words,
    b: Words,
    c: Words,
    d: Words,
    e: Words,
    f: Words,
    g: Words,
    h: Words,
    ghost fit: { (j : ℕ) → j < lanes → (k : ℕ) → k < 5
        → slice_index (lane j (word0 ∷ word1 ∷ word2 ∷ word3 ∷ word4 ∷ [])) k < 2 ^ 32 } by { Prim.hlevel props },
    ghost begun: { (j : ℕ) → j < lanes → lane_state (a ∷ b ∷ c ∷ d ∷ e ∷ f ∷ g ∷ h ∷ []) j
        ≡ rounds initial_hash_256 (lane j (word0 ∷ word1 ∷ word2 ∷ word3 ∷ word4 ∷ [])) 5 } by { Prim.hlevel props },
}

impl Beginning {
    ghost use Rattle.winternitz.specs.Beginning.{first_bytes_at};

    /// The messages' beginning in each lane.
    pub fn new(first: &[[u8; 20]; LANES]) -> Beginning
        ensures { (j : ℕ) → j < lanes → first_bytes_at result j ≡ slice_index_or first.now j [] }
    {
        let words = first_words(first);
        let [a, b, c, d, e, f, g, h] = five_rounds(&words, initial());
        let [word0, word1, word2, word3, word4] = words;
        Beginning {
            word0,
            word1,
            word2,
            word3,
            word4,
            a,
            b,
            c,
            d,
            e,
            f,
            g,
            h,
        }
    }

    /// SHA-256 of a message in each lane: the beginning, the chain's number in two bytes, the step's number in one, and
    /// a value. Values are given and returned as words.
    pub fn hash(&self, chains: &[u16; LANES], at: &[u8; LANES], values: &States) -> States
        ensures { (j : ℕ) → j < lanes → value_at result j ≡ sha256 (first_bytes_at self.now j
            ++ step_bytes (slice_index chains.now j) (slice_index at.now j) (value_at values.now j)) }
    {
        let first = [self.word0, self.word1, self.word2, self.word3, self.word4];
        let working = [
            self.a, self.b, self.c, self.d, self.e, self.f, self.g, self.h,
        ];
        let words = block_words(&first, numbers(chains, at), values);
        compress_from_five(&initial(), &words, working)
    }
}

// The words of the first 20 bytes.
fn first_words(first: &[[u8; 20]; LANES]) -> [Words; 5]
    ensures bytes { (j : ℕ) → j < lanes → digest_bytes (lane j result) 5 ≡ slice_index_or first.now j [] }
    ensures fit { (j : ℕ) → j < lanes → (k : ℕ) → k < 5 → slice_index (lane j result) k < 2 ^ 32 }
    ensures exact_length { length result ≡ 5 }
{
    let mut words = [[0; 5]; LANES];
    for lane in 0..LANES {
        words[lane] = words_of(&first[lane]);
    }
    [
        side_by_side(&words, 0),
        side_by_side(&words, 1),
        side_by_side(&words, 2),
        side_by_side(&words, 3),
        side_by_side(&words, 4),
    ]
}

// A chain's number and a step's in one word, three bytes together.
fn numbers(chains: &[u16; LANES], at: &[u8; LANES]) -> Words
    ensures { (j : ℕ) → j < lanes → slice_index result j ≡ slice_index chains.now j * 2 ^ 8 + slice_index at.now j }
{
    let mut numbers = [0; LANES];
    for lane in 0..LANES {
        numbers[lane] = u32::from(chains[lane]) * 256 + u32::from(at[lane]);
    }
    Words::from_array(numbers)
}

// The words of blocks: the first five, then the numbers in three bytes, the value, and the padding of 55 bytes (FIPS
// 180-4 5.1.1). The value begins at byte 23, so its words cross the block's.
fn block_words(first: &[Words; 5], numbers: Words, values: &States) -> [Words; 16]
    ensures first { (j : ℕ) → j < lanes → (k : ℕ) → k < 5
        → slice_index (lane j result) k ≡ slice_index (lane j first.now) k }
    ensures rest { (j : ℕ) → j < lanes → (chain at k : ℕ) → chain < 2 ^ 16 → at < 2 ^ 8
        → slice_index numbers j ≡ chain * 2 ^ 8 + at → 5 ≤ k → k < 16 → slice_index (lane j result) k
        ≡ word_at (step_bytes chain at (value_at values.now j) ++ 0x80 ∷ to_be_bytes w64 440) (4 * (k - 5)) }
{
    [
        first[0],
        first[1],
        first[2],
        first[3],
        first[4],
        shifted_pair(numbers, values[0]),
        shifted_pair(values[0], values[1]),
        shifted_pair(values[1], values[2]),
        shifted_pair(values[2], values[3]),
        shifted_pair(values[3], values[4]),
        shifted_pair(values[4], values[5]),
        shifted_pair(values[5], values[6]),
        shifted_pair(values[6], values[7]),
        shifted_pair(values[7], constant(0x8000_0000)),
        constant(0),
        constant(440),
    ]
}

// The last three bytes of a word and the first byte of another.
#[inline(always)]
fn shifted_pair(x: Words, y: Words) -> Words
    ensures { (j : ℕ) → j < lanes → slice_index result j ≡ joined_word (slice_index x j) (slice_index y j) }
{
    add(shifted_left(x, 8), shifted(y, 24))
}
