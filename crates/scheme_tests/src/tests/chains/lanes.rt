//! Each lane beside `sha2`, on bytes that differ from lane to lane.

ghost use Rattle.std.specs.Prelude.{◌≤◌};

use crate::tests::expecting::{expect, expect_none};
use sha2::{Digest, Sha256};
use winternitz::lanes::{
    Beginning, LANES, compress, digests, in_each, in_lane, in_words, initial, sha256_in_lanes,
    sha256_of_96, sha256_of_128,
};

// Pseudorandom bytes: the high ones of a linear congruential generator.
fn scrambled<const N: usize>(lane: usize, round: u32) -> [u8; N] {
    let mut bytes = [0; N];
    let mut state = round.wrapping_mul(69069).wrapping_add((lane % 256) as u32);
    for i in 0..N {
        state = state.wrapping_mul(1664525).wrapping_add(1013904223);
        bytes[i] = (state >> 24) as u8;
    }
    bytes
}

// For each lane a chain's and a step's number, the least and the greatest among them.
const CHAINS: [u16; LANES] = [0, 3, 0x0102, 0xffff, 1, 0xff00, 0x8000, 0x00ff];

const STEPS: [u8; LANES] = [0xff, 0, 7, 254, 0x80, 1, 0xff, 0];

// SHA-256 of three parts and a byte before the last.
fn digest_of_parts(first: &[u8], chain: u16, step: u8, value: &[u8]) -> [u8; 32] {
    let mut hasher = Sha256::new();
    hasher.update(first);
    hasher.update(&chain.to_be_bytes());
    hasher.update(&[step]);
    hasher.update(value);
    hasher.finalize()
}

// Other bytes for each lane, by a number.
fn in_lanes<const N: usize>(round: u32) -> [[u8; N]; LANES] {
    let mut all = [[0; N]; LANES];
    for lane in 0..LANES {
        all[lane] = scrambled(lane, round);
    }
    all
}

// Digests of 20 bytes, a chain's number, a step's, and a value.
fn digests_of_parts(first: &[[u8; 20]; LANES], values: &[[u8; 32]; LANES]) -> [[u8; 32]; LANES] {
    let mut digests = [[0; 32]; LANES];
    for lane in 0..LANES {
        digests[lane] = digest_of_parts(&first[lane], CHAINS[lane], STEPS[lane], &values[lane]);
    }
    digests
}

fn are_begun(first: &[[u8; 20]; LANES], values: &[[u8; 32]; LANES]) -> bool {
    let hashed = Beginning::new(first).hash(&CHAINS, &STEPS, &in_words(values));
    digests(&hashed) == digests_of_parts(first, values)
}

fn have_digests(round: u32) -> bool {
    are_begun(&in_lanes(round.wrapping_add(200)), &in_lanes(round))
}

#[test]
fn messages_that_begin_alike_have_their_digests(rt: HostRuntime) {
    for round in 0..8 {
        expect(&rt, have_digests(round));
    }
}

fn are_read(values: &[[u8; 32]; LANES]) -> bool {
    digests(&in_words(values)) == *values
}

#[test]
fn words_have_the_bytes_that_they_were_read_from(rt: HostRuntime) {
    for round in 0..8 {
        expect(&rt, are_read(&in_lanes(round)));
    }
}

fn digest_of_two(first: &[u8], last: &[u8]) -> [u8; 32] {
    let mut hasher = Sha256::new();
    hasher.update(first);
    hasher.update(last);
    hasher.finalize()
}

// Digests of two parts.
fn digests_of_two<const N: usize>(
    first: &[[u8; 64]; LANES],
    last: &[[u8; N]; LANES],
) -> [[u8; 32]; LANES] {
    let mut digests = [[0; 32]; LANES];
    for lane in 0..LANES {
        digests[lane] = digest_of_two(&first[lane], &last[lane]);
    }
    digests
}

fn are_after_a_block(blocks: &[[u8; 64]; LANES], last: &[[u8; 32]; LANES]) -> bool {
    let first = compress(&initial(), blocks);
    sha256_of_96(&first, last) == digests_of_two(blocks, last)
        && sha256_of_128(&first, blocks) == digests_of_two(blocks, blocks)
}

fn have_digests_after_a_block(round: u32) -> bool {
    are_after_a_block(&in_lanes(round), &in_lanes(round.wrapping_add(100)))
}

#[test]
fn messages_after_a_block_have_their_digests(rt: HostRuntime) {
    for round in 0..8 {
        expect(&rt, have_digests_after_a_block(round));
    }
}

// The first lane with another digest of messages of this length.
fn wrong_at(length: usize) -> Option<usize>
    requires { length ≤ 8504 }
{
    let mut messages = in_lanes(length as u32);
    let begun = messages;
    let digests = sha256_in_lanes(&mut messages, length);
    for lane in 0..LANES {
        if digests[lane] != digest_of(&begun[lane], length) {
            return Some(lane);
        }
    }
    None
}

// 22 bytes and then 0 to 265 values of 32; a message whose padding fills the room; lengths around those where padding
// takes one more block (FIPS 180-4 5.1.1).
#[test]
fn messages_of_any_length_have_their_digests(rt: HostRuntime) {
    for length in [
        22, 54, 1110, 2166, 4278, 8502, 8504, 0, 55, 56, 63, 64, 119, 120,
    ] {
        expect_none(&rt, wrong_at(length));
    }
}

// SHA-256 of the first `length` bytes.
fn digest_of(bytes: &[u8; 8576], length: usize) -> [u8; 32]
    requires { length ≤ 8576 }
{
    let mut hasher = Sha256::new();
    hasher.update(&bytes[..length]);
    hasher.finalize()
}

// The first lane in which a kept state is another.
fn wrong_state(state: &[u32; 8]) -> Option<usize> {
    for lane in 0..LANES {
        if in_lane(&in_each(state), lane) != *state {
            return Some(lane);
        }
    }
    None
}

// FIPS 180-4 5.3.3 gives the initial hash value.
#[test]
fn a_kept_state_is_the_same_in_each_lane(rt: HostRuntime) {
    let state = in_lane(&initial(), 2);
    expect(&rt, state[0] == 0x6a09e667 && state[7] == 0x5be0cd19);
    expect_none(&rt, wrong_state(&state));
}
