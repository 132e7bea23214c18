//! SHA-256 of blocks side by side, one per lane of a vector: in each lane, the SHA-256 of the library `sha2`.

ghost use Rattle.std.specs.Prelude.{◌≡◌, ℕ, ◌+◌, ◌*◌, ◌<◌, ◌≤◌, ◌^◌, List, [], ◌∷◌, ◌++◌, length};
ghost use Rattle.std.specs.Prelude.{slice_index, slice_index_or};
ghost use Rattle.std.specs.Int.{w32, to_be_bytes};
ghost use Rattle.sha2.specs.Sha256 as spec;
ghost use Rattle.sha2.specs.Sha256.{digest_bytes, initial_hash_256, padding, sha256, word_at};
ghost use Rattle.winternitz.specs.Lanes.{lanes, lane_at, lane_state, value_at};
ghost use Rattle.winternitz.specs.inner.Lanes.{four_bytes};

use crate::lanes::rounds::compress_words;
use std::simd::u32x8;

mod beginning;
mod constants;
mod long;
mod rounds;
mod sums;

pub use crate::lanes::beginning::Beginning;
pub(crate) use crate::lanes::constants::INITIAL;
pub use crate::lanes::long::sha256_in_lanes;
pub(crate) use crate::lanes::sums::{Sums, fill_sums};

/// The number of lanes. docs/CONTRIBUTING.md lists what else another number changes.
pub const LANES: usize = 8;

/// One word of each block.
pub type Words = u32x8;

/// A hash value in each lane.
pub type States = [Words; 8];

/// The same hash value in each lane.
pub fn in_each(state: &[u32; 8]) -> States
    ensures { (j : ℕ) → j < lanes → lane_state result j ≡ state.now }
{
    [
        Words::splat(state[0]),
        Words::splat(state[1]),
        Words::splat(state[2]),
        Words::splat(state[3]),
        Words::splat(state[4]),
        Words::splat(state[5]),
        Words::splat(state[6]),
        Words::splat(state[7]),
    ]
}

/// The hash value of a lane.
pub fn in_lane(states: &States, lane: usize) -> [u32; 8]
    requires { lane < lanes }
    ensures { result ≡ lane_state states.now lane }
{
    let mut state = [0; 8];
    for i in 0..8 {
        state[i] = states[i].to_array()[lane];
    }
    state
}

/// The initial hash value, in each lane (FIPS 180-4 5.3.3).
pub fn initial() -> States
    ensures { (j : ℕ) → j < lanes → lane_state result j ≡ initial_hash_256 }
{
    in_each(&INITIAL)
}

/// The hash values after one more block in each lane (FIPS 180-4 6.2.2).
pub fn compress(states: &States, blocks: &[[u8; 64]; LANES]) -> States
    ensures { (j : ℕ) → j < lanes
        → lane_state result j ≡ spec.compress (lane_state states.now j) (slice_index_or blocks.now j []) }
{
    compress_words(states, &block_words(blocks))
}

// The words of the block in each lane (FIPS 180-4 5.2.1).
pub(crate) fn block_words(blocks: &[[u8; 64]; LANES]) -> [Words; 16]
    ensures words { (j k : ℕ) → k < 16 → j < lanes
        → lane_at result k j ≡ word_at (slice_index_or blocks.now j []) (4 * k) }
    ensures exact_length { length result ≡ 16 }
{
    let mut words = [Words::splat(0); 16];
    for k in 0..16 {
        words[k] = load(blocks, 4 * k);
    }
    words
}

// The words at byte i of each lane's bytes.
pub(crate) fn load<const N: usize>(bytes: &[[u8; N]; LANES], i: usize) -> Words
    requires { i + 4 ≤ N }
    ensures { (j : ℕ) → j < lanes → slice_index result j ≡ word_at (slice_index_or bytes.now j []) i }
{
    let mut words = [0; LANES];
    for lane in 0..LANES {
        words[lane] = word(&bytes[lane], i);
    }
    Words::from_array(words)
}

// The big-endian word at byte i (FIPS 180-4 5.2.1).
pub(crate) fn word(bytes: &[u8], i: usize) -> u32
    requires { i + 4 ≤ length bytes.now }
    ensures word { result ≡ word_at bytes.now i }
    ensures bytes { to_be_bytes w32 result ≡ four_bytes bytes.now i }
{
    u32::from_be_bytes([bytes[i], bytes[i + 1], bytes[i + 2], bytes[i + 3]])
}

/// The bytes of the hash values.
pub fn digests(states: &States) -> [[u8; 32]; LANES]
    ensures { (j : ℕ) → j < lanes → slice_index_or result j [] ≡ value_at states.now j }
{
    let mut digests = [[0; 32]; LANES];
    for lane in 0..LANES {
        digests[lane] = digest(&in_lane(states, lane));
    }
    digests
}

pub(crate) fn digest(state: &[u32; 8]) -> [u8; 32]
    ensures { result ≡ digest_bytes state.now 8 }
{
    let mut bytes = [0; 32];
    for i in 0..8 {
        bytes[4 * i..4 * i + 4].copy_from_slice(&state[i].to_be_bytes());
    }
    bytes
}

/// The words of each lane's value of 32 bytes.
pub fn in_words(values: &[[u8; 32]; LANES]) -> States
    ensures { (j : ℕ) → j < lanes → value_at result j ≡ slice_index_or values.now j [] }
{
    let mut words = [[0; 8]; LANES];
    for lane in 0..LANES {
        words[lane] = words_of(&values[lane]);
    }
    [
        side_by_side(&words, 0),
        side_by_side(&words, 1),
        side_by_side(&words, 2),
        side_by_side(&words, 3),
        side_by_side(&words, 4),
        side_by_side(&words, 5),
        side_by_side(&words, 6),
        side_by_side(&words, 7),
    ]
}

// The big-endian words of the bytes.
pub(crate) fn words_of<const B: usize, const N: usize>(bytes: &[u8; B]) -> [u32; N]
    requires { B ≡ 4 * N }
    ensures bytes { digest_bytes result N ≡ bytes.now }
    ensures fit { (k : ℕ) → k < N → slice_index result k < 2 ^ 32 }
{
    let mut words = [0; N];
    for k in 0..N {
        words[k] = word(bytes, 4 * k);
    }
    words
}

// Word k of each lane.
pub(crate) fn side_by_side<const N: usize>(words: &[[u32; N]; LANES], k: usize) -> Words
    requires { k < N }
    ensures { (j : ℕ) → j < lanes → slice_index result j ≡ slice_index (slice_index_or words.now j []) k }
{
    let mut side_by_side = [0; LANES];
    for lane in 0..LANES {
        side_by_side[lane] = words[lane][k];
    }
    Words::from_array(side_by_side)
}

/// SHA-256 of messages of 96 bytes, from the hash values after their first blocks, and their last 32 bytes.
pub fn sha256_of_96(first: &States, last: &[[u8; 32]; LANES]) -> [[u8; 32]; LANES]
    ensures { (j : ℕ) → j < lanes → (block : List ℕ) → length block ≡ 64
        → lane_state first.now j ≡ spec.compress initial_hash_256 block
        → slice_index_or result j [] ≡ sha256 (block ++ slice_index_or last.now j []) }
{
    let mut blocks = [[0; 64]; LANES];
    for lane in 0..LANES {
        blocks[lane] = last_of_96(&last[lane]);
    }
    digests(&compress(first, &blocks))
}

// The second block of a message of 96 bytes. Compressed after the first, it gives the message's SHA-256.
//
// For the prover: apart from `padded_96`, so that the block's long list of bytes stays out of goals about SHA-256.
fn last_of_96(last: &[u8; 32]) -> [u8; 64]
    ensures { (block : List ℕ) → length block ≡ 64
        → digest_bytes (spec.compress (spec.compress initial_hash_256 block) result) 8 ≡ sha256 (block ++ last.now) }
{
    padded_96(last)
}

// The last 32 bytes of a message of 96, and its padding (FIPS 180-4 5.1.1).
fn padded_96(last: &[u8; 32]) -> [u8; 64]
    ensures { result ≡ last.now ++ padding 96 }
{
    let mut block = [0; 64];
    block[..32].copy_from_slice(last);
    block[32] = 0x80;
    block[62] = 3;
    block
}

/// SHA-256 of messages of 128 bytes, from the hash values after their first blocks, and their second blocks.
pub fn sha256_of_128(first: &States, second: &[[u8; 64]; LANES]) -> [[u8; 32]; LANES]
    ensures { (j : ℕ) → j < lanes → (block : List ℕ) → length block ≡ 64 → length (slice_index_or second.now j []) ≡ 64
        → lane_state first.now j ≡ spec.compress initial_hash_256 block
        → slice_index_or result j [] ≡ sha256 (block ++ slice_index_or second.now j []) }
{
    digests(&compress(&compress(first, second), &[padding_of_128(); LANES]))
}

// The padding of a message of 128 bytes, a whole block (FIPS 180-4 5.1.1).
fn padding_of_128() -> [u8; 64]
    ensures { result ≡ padding 128 }
{
    let mut block = [0; 64];
    block[0] = 0x80;
    block[62] = 4;
    block
}
