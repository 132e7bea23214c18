//! SHA-256 side by side of messages of one length, of any number of blocks.

ghost use Rattle.std.specs.Prelude.{◌≡◌, ℕ, ◌+◌, ◌*◌, ◌<◌, ◌≤◌, ◌^◌, [], drop, length, slice_index_or, take};
ghost use Rattle.sha2.specs.Sha256.{hash_after, initial_hash_256, padded_message, padding, sha256};
ghost use Rattle.winternitz.specs.Lanes.{lane_state, lanes};

use crate::lanes::{LANES, States, compress, digests, initial};
use typecodes::put;

/// SHA-256 side by side of messages of one length. Each stands at the start of its bytes, and its padding is written
/// behind it (FIPS 180-4 5.1.1); what the bytes hold afterwards isn't promised. The caller keeps 72 bytes of room
/// behind the messages. Messages and room have less than 2^32 bytes.
pub fn sha256_in_lanes<const N: usize>(
    messages: &mut [[u8; N]; LANES],
    length: usize,
) -> [[u8; 32]; LANES]
    requires room { length + 72 ≤ N }
    requires short { N < 2 ^ 32 }
    ensures { (j : ℕ) → j < lanes
        → slice_index_or result j [] ≡ sha256 (take length (slice_index_or messages.old j [])) }
{
    let end = pad(messages, length);
    digests(&hash_blocks(messages, end / 64))
}

// Pads each message, which ends at `end`, and returns the end of the padding.
fn pad<const N: usize>(messages: &mut [[u8; N]; LANES], end: usize) -> usize
    requires room { end + 72 ≤ N }
    requires short { N < 2 ^ 32 }
    ensures bytes { (j : ℕ) → j < lanes
        → take result (slice_index_or messages.new j [])
        ≡ padded_message (take end (slice_index_or messages.old j [])) }
    ensures exact_length { (j : ℕ) → j < lanes → length (slice_index_or messages.new j []) ≡ N }
    ensures within { result ≤ N }
{
    let (padding, count) = padding_of(end);
    for lane in 0..LANES {
        put_padding(&mut messages[lane], end, &padding[..count]);
    }
    end + count
}

// The padding of a message that ends at `end`, and its length (FIPS 180-4 5.1.1).
fn padding_of(end: usize) -> ([u8; 72], usize)
    requires { end < 2 ^ 32 }
    ensures bytes { take result.1 result.0 ≡ padding end }
    ensures count { result.1 ≤ 72 }
{
    let zeros = (119 - end % 64) % 64;
    let mut bytes = [0; 72];
    bytes[0] = 0x80;
    let count = put(&mut bytes, zeros + 1, &(8 * end as u64).to_be_bytes());
    (bytes, count)
}

// Writes the padding behind a message that ends at `end`.
fn put_padding<const N: usize>(message: &mut [u8; N], end: usize, bytes: &[u8])
    requires room { end + length bytes.now ≤ N }
    requires bytes { bytes.now ≡ padding end }
    ensures bytes { take (end + length bytes.now) message.new ≡ padded_message (take end message.old) }
    ensures exact_length { length message.new ≡ N }
{
    put(message, end, bytes);
}

// The hash values after the first `count` blocks of each message (FIPS 180-4 6.2.2).
fn hash_blocks<const N: usize>(messages: &[[u8; N]; LANES], count: usize) -> States
    requires { count * 64 ≤ N }
    ensures { (j : ℕ) → j < lanes
        → lane_state result j ≡ hash_after initial_hash_256 (slice_index_or messages.now j []) count }
{
    let mut states = initial();
    for k in 0..count {
        states = compress(&states, &blocks_at(messages, k));
    }
    states
}

fn blocks_at<const N: usize>(messages: &[[u8; N]; LANES], k: usize) -> [[u8; 64]; LANES]
    requires { (k + 1) * 64 ≤ N }
    ensures { (j : ℕ) → j < lanes
        → slice_index_or result j [] ≡ take 64 (drop (k * 64) (slice_index_or messages.now j [])) }
{
    let mut blocks = [[0; 64]; LANES];
    for lane in 0..LANES {
        blocks[lane] = block_at(&messages[lane], k);
    }
    blocks
}

fn block_at(message: &[u8], k: usize) -> [u8; 64]
    requires { (k + 1) * 64 ≤ length message.now }
    ensures { result ≡ take 64 (drop (k * 64) message.now) }
{
    let mut block = [0; 64];
    block.copy_from_slice(&message[k * 64..(k + 1) * 64]);
    block
}
