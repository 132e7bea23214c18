//! The keyed hashes (RFC 8391 5.1) and the join of two nodes (4.1.4).

ghost use Rattle.std.specs.Prelude.{◌≡◌, ◌≤◌, ◌<◌, ◌++◌, ℕ, [], length, slice_index_or, true};
ghost use Rattle.std.proofs.Props.{props};
ghost use Rattle.sha2.specs.Hashers.{Holds256};
ghost use Rattle.wots_plus.specs.Address.{address_of};
ghost use Rattle.wots_plus.specs.Hashes.{prf, to_byte};
ghost use Rattle.wots_plus.specs.inner.Hashes.{Holds256-prop};
ghost use Rattle.wots_plus.specs.Hashes as spec;
ghost use Rattle.sha2.specs.Sha256.{compress, initial_hash_256};
ghost use Rattle.typecodes.specs.Message.{Digests};
ghost use Rattle.winternitz.specs.Lanes.{lanes};

use crate::address::Address;
use sha2::{Digest, Sha256};
use typecodes::{Message, MessageFailed, put};
use winternitz::lanes::{LANES, compress, in_each, in_lane, initial, sha256_of_96, sha256_of_128};
use winternitz::{Hasher, feed};

/// F(KEY, M), the hash of a chain's step.
pub fn hash_f(key: &[u8; 32], message: &[u8; 32]) -> [u8; 32]
    ensures { result ≡ spec.hash_f key.now message.now }
{
    let mut hasher = keyed(0, key);
    hasher.update(message);
    hasher.finalize()
}

pub(crate) fn hash_f_in_lanes(
    keys: &[[u8; 32]; LANES],
    messages: &[[u8; 32]; LANES],
) -> [[u8; 32]; LANES]
    ensures { (j : ℕ) → j < lanes → slice_index_or result j []
        ≡ spec.hash_f (slice_index_or keys.now j []) (slice_index_or messages.now j []) }
{
    let mut blocks = [[0; 64]; LANES];
    for lane in 0..LANES {
        blocks[lane] = first_block(0, &keys[lane]);
    }
    sha256_of_96(&compress(&initial(), &blocks), messages)
}

// The first block of a keyed hash: its number in 32 bytes, then the key.
fn first_block(number: u8, key: &[u8; 32]) -> [u8; 64]
    requires { number ≤ 4 }
    ensures bytes { result ≡ to_byte number 32 ++ key.now }
    ensures is_block { length (to_byte number 32 ++ key.now) ≡ 64 }
{
    let mut block = [0; 64];
    block[31] = number;
    block[32..].copy_from_slice(key);
    block
}

// The hash value after `first_block`.
pub(crate) fn first_state(number: u8, key: &[u8; 32]) -> [u32; 8]
    requires { number ≤ 4 }
    ensures state { result ≡ compress initial_hash_256 (to_byte number 32 ++ key.now) }
    ensures is_block { length (to_byte number 32 ++ key.now) ≡ 64 }
{
    in_lane(&compress(&initial(), &[first_block(number, key); LANES]), 0)
}

/// H(KEY, left || right), the hash of two nodes.
pub fn hash_h(key: &[u8; 32], left: &[u8; 32], right: &[u8; 32]) -> [u8; 32]
    ensures { result ≡ spec.hash_h key.now (left.now ++ right.now) }
{
    let mut hasher = keyed(1, key);
    hasher.update(left);
    hasher.update(right);
    hasher.finalize()
}

pub(crate) fn hash_h_in_lanes(
    keys: &[[u8; 32]; LANES],
    left: &[[u8; 32]; LANES],
    right: &[[u8; 32]; LANES],
) -> [[u8; 32]; LANES]
    ensures { (j : ℕ) → j < lanes → slice_index_or result j []
        ≡ spec.hash_h (slice_index_or keys.now j []) (slice_index_or left.now j [] ++ slice_index_or right.now j []) }
{
    let mut first = [[0; 64]; LANES];
    let mut second = [[0; 64]; LANES];
    for lane in 0..LANES {
        first[lane] = first_block(1, &keys[lane]);
        second[lane] = block_of(&left[lane], &right[lane]);
    }
    sha256_of_128(&compress(&initial(), &first), &second)
}

fn block_of(left: &[u8; 32], right: &[u8; 32]) -> [u8; 64]
    ensures bytes { result ≡ left.now ++ right.now }
    ensures is_block { length result ≡ 64 }
{
    let mut block = [0; 64];
    let offset = put(&mut block, 0, left);
    put(&mut block, offset, right);
    block
}

/// H_msg(KEY, M), the digest of a message. The key is r || root || toByte(idx, 32).
pub fn hash_message(key: &[u8; 96], message: &[u8]) -> [u8; 32]
    ensures { result ≡ spec.hash_message key.now message.now }
{
    let mut hasher = message_hasher(key);
    hasher.update(message);
    hasher.finalize()
}

/// H_msg(KEY, M) of a reader's message, read to its end in pieces that aren't kept. Refused where it can't be read: see
/// `typecodes::MessageFailed`.
pub fn hash_message_from<M: Message>(
    key: &[u8; 96],
    message: &mut M,
) -> Result<[u8; 32], MessageFailed>
    ensures { Digests M.transition M.remaining (spec.hash_message key.now) result message.old message.new }
{
    let mut hasher = Hasher::new();
    hasher.update(&number_in_32(2));
    hasher.update(key);
    feed(&mut hasher, message)?;
    Ok(hasher.finalize())
}

// H_msg's hasher before the message.
fn message_hasher(key: &[u8; 96]) -> Sha256
    ensures { Holds256 result (to_byte 2 32 ++ key.now) }
{
    keyed(2, key)
}

// A hasher that holds a hash's number in 32 bytes and the key.
pub(crate) fn keyed(number: u8, key: &[u8]) -> Sha256
    requires { number ≤ 4 }
    ensures { Holds256 result (to_byte number 32 ++ key.now) }
{
    let mut hasher = Sha256::new();
    hasher.update(number_in_32(number));
    hasher.update(key);
    hasher
}

// A hash's number in 32 bytes.
fn number_in_32(number: u8) -> [u8; 32]
    requires { number ≤ 4 }
    ensures { result ≡ to_byte number 32 }
{
    let mut bytes = [0; 32];
    bytes[31] = number;
    bytes
}

/// PRF under one key. The first block of all its messages is the same. That it is hashed only once is measured, not
/// proved.
#[derive(Drop)]
pub struct Prf {
    /// KEY
    pub key: [u8; 32],
    begun: Sha256,
    // whether `state` is the hash value after the first block, with which hashes in lanes begin
    is_kept: bool,
    state: [u32; 8],
    ghost holds: { Holds256 begun (to_byte 3 32 ++ key) } by { Holds256-prop begun (to_byte 3 32 ++ key) },
    ghost kept: { is_kept ≡ true → state ≡ compress initial_hash_256 (to_byte 3 32 ++ key) } by { Prim.hlevel props },
}

impl Prf {
    /// PRF for hashes in lanes, too.
    pub fn new(key: [u8; 32]) -> Prf
        ensures { result.key ≡ key }
    {
        let begun = keyed(3, &key);
        let state = first_state(3, &key);
        Prf {
            key,
            begun,
            is_kept: true,
            state,
        }
    }

    /// PRF for hashes one by one. It keeps no state for lanes: each hash in lanes would make it anew.
    pub fn without_lanes(key: [u8; 32]) -> Prf
        ensures { result.key ≡ key }
    {
        let begun = keyed(3, &key);
        Prf {
            key,
            begun,
            is_kept: false,
            state: [0; 8],
        }
    }

    /// PRF(KEY, M)
    pub fn hash(&self, message: &[u8; 32]) -> [u8; 32]
        ensures { result ≡ prf self.now.key message.now }
    {
        let mut hasher = self.begun();
        hasher.update(message);
        hasher.finalize()
    }

    pub(crate) fn hash_in_lanes(&self, messages: &[[u8; 32]; LANES]) -> [[u8; 32]; LANES]
        ensures { (j : ℕ) → j < lanes
            → slice_index_or result j [] ≡ prf self.now.key (slice_index_or messages.now j []) }
    {
        sha256_of_96(&in_each(&self.first_state()), messages)
    }

    // The hash value after the first block.
    fn first_state(&self) -> [u32; 8]
        ensures state { result ≡ compress initial_hash_256 (to_byte 3 32 ++ self.now.key) }
        ensures is_block { length (to_byte 3 32 ++ self.now.key) ≡ 64 }
    {
        if self.is_kept {
            self.state
        } else {
            first_state(3, &self.key)
        }
    }

    // A hasher that holds the first block.
    fn begun(&self) -> Sha256
        ensures { Holds256 result (to_byte 3 32 ++ self.now.key) }
    {
        match self.begun.clone() {
            Ok(hasher) => hasher,
            Err(_) => unreachable!(),
        }
    }
}

/// RAND_HASH(LEFT, RIGHT, SEED, ADRS), the node of an L-tree or a hash tree above two nodes.
pub fn rand_hash(seed: &Prf, address: &Address, left: &[u8; 32], right: &[u8; 32]) -> [u8; 32]
    ensures { result ≡ spec.rand_hash seed.now.key (address_of address.now) left.now right.now }
{
    let key = seed.hash(&address.bytes(0));
    let left = xor(left, &seed.hash(&address.bytes(1)));
    let right = xor(right, &seed.hash(&address.bytes(2)));
    hash_h(&key, &left, &right)
}

pub(crate) fn xor(bytes: &[u8; 32], mask: &[u8; 32]) -> [u8; 32]
    ensures { result ≡ spec.xor bytes.now mask.now }
{
    let mut out = [0; 32];
    for i in 0..32 {
        out[i] = bytes[i] ^ mask[i];
    }
    out
}

pub(crate) fn xor_in_lanes(
    bytes: &[[u8; 32]; LANES],
    masks: &[[u8; 32]; LANES],
) -> [[u8; 32]; LANES]
    ensures { (j : ℕ) → j < lanes → slice_index_or result j []
        ≡ spec.xor (slice_index_or bytes.now j []) (slice_index_or masks.now j []) }
{
    let mut out = [[0; 32]; LANES];
    for lane in 0..LANES {
        out[lane] = xor(&bytes[lane], &masks[lane]);
    }
    out
}
