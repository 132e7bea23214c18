//! One-time keys of a tree side by side, one in each lane.

ghost use Rattle.std.specs.Prelude.{◌≡◌, ◌<◌, ◌≤◌, ℕ, ◌+◌, ◌-◌, ◌*◌, ◌^◌, ◌++◌, List, [], length, slice_index};
ghost use Rattle.std.specs.Prelude.{slice_index_or, take};
ghost use Rattle.std.proofs.Props.{props};
ghost use Rattle.lmots.specs.Hashes.{public_separator, u16str, u32str};
ghost use Rattle.lmots.specs.Key as spec;
ghost use Rattle.lmots.specs.Key.{chain_value, ends_of_seed};
ghost use Rattle.typecodes.specs.Types.{chains_of};
ghost use Rattle.winternitz.specs.inner.Beginning.{BeginsWith};
ghost use Rattle.winternitz.specs.Lanes.{lanes, value_at};

use crate::chains::key_prefix;
use crate::key::{PUBLIC, greatest_digit};
use typecodes::{OtsType, put};
use winternitz::lanes::{Beginning, LANES, States, digests, in_words, sha256_in_lanes};

/// Where the chains' ends begin in the message of a public hash: after I, q and D_PBLC.
const ENDS: usize = 22;

/// Such a message of 265 chains, the most of any type, and 72 bytes of room for its padding.
const ROOM: usize = 8574;

type Messages = [[u8; ROOM]; LANES];

/// Keys of one tree, one in each lane.
#[derive(Clone, Copy)]
pub(crate) struct LaneKeys {
    identifier: [u8; 16],
    leaves: [u32; LANES],
    beginning: Beginning,
    ghost begins: { BeginsWith beginning (λ j. identifier ++ u32str (slice_index leaves j)) } by { Prim.hlevel props },
}

impl LaneKeys {
    /// The keys of these leaves of the tree with this identifier.
    pub(crate) fn of(identifier: [u8; 16], leaves: [u32; LANES]) -> LaneKeys
        ensures identifier { result.identifier ≡ identifier }
        ensures leaves { result.leaves ≡ leaves }
    {
        let mut first = [[0; 20]; LANES];
        for lane in 0..LANES {
            first[lane] = key_prefix(&identifier, leaves[lane]);
        }
        LaneKeys {
            identifier,
            leaves,
            beginning: Beginning::new(&first),
        }
    }

    /// The public hashes of the keys whose private values are derived from the seed (RFC 8554 4.3).
    pub(crate) fn public_hashes(&self, ots: OtsType, seed: &[u8; 32]) -> [[u8; 32]; LANES]
        ensures { (j : ℕ) → j < lanes → let q = slice_index self.now.leaves j in slice_index_or result j []
            ≡ spec.public_hash self.now.identifier q (ends_of_seed self.now.identifier q ots seed.now) }
    {
        let count = usize::from(ots.chains());
        let seeds = in_words(&[*seed; LANES]);
        let mut messages = self.messages();
        for chain in 0..count {
            let ends = self.ends(chain as u16, greatest_digit(ots), &seeds);
            append(&mut messages, ENDS + 32 * chain, &ends);
        }
        sha256_in_lanes(&mut messages, ENDS + 32 * count)
    }

    // The end of one chain of each key. `seeds` has the seed's words in each lane.
    fn ends(&self, chain: u16, last: u8, seeds: &States) -> [[u8; 32]; LANES]
        ensures { (j : ℕ) → j < lanes → (seed : List ℕ) → value_at seeds.now j ≡ seed → slice_index_or result j []
            ≡ chain_value self.now.identifier (slice_index self.now.leaves j) seed chain last }
    {
        let chains = [chain; LANES];
        let mut values = self.beginning.hash(&chains, &[0xff; LANES], seeds);
        for at in 0..last {
            values = self.beginning.hash(&chains, &[at; LANES], &values);
        }
        digests(&values)
    }

    // The messages of the public hashes, before the chains' ends are written.
    fn messages(&self) -> Messages
        ensures { (j : ℕ) → j < lanes → take 22 (slice_index_or result j [])
            ≡ self.now.identifier ++ u32str (slice_index self.now.leaves j) ++ u16str public_separator }
    {
        let mut messages = [[0; ROOM]; LANES];
        for lane in 0..LANES {
            messages[lane] = public_message_start(&self.identifier, self.leaves[lane]);
        }
        messages
    }
}

// One such message.
fn public_message_start(identifier: &[u8; 16], leaf: u32) -> [u8; ROOM]
    ensures { take 22 result ≡ identifier.now ++ u32str leaf ++ u16str public_separator }
{
    let mut message = [0; ROOM];
    let offset = put(&mut message, 0, &key_prefix(identifier, leaf));
    put(&mut message, offset, &PUBLIC.to_be_bytes());
    message
}

// Writes a value into each message at an offset.
fn append(messages: &mut Messages, offset: usize, values: &[[u8; 32]; LANES])
    requires { offset + 32 ≤ 8574 }
    ensures { (j : ℕ) → j < lanes → take (offset + 32) (slice_index_or messages.new j [])
        ≡ take offset (slice_index_or messages.old j []) ++ slice_index_or values.now j [] }
{
    for lane in 0..LANES {
        put_value(&mut messages[lane], offset, &values[lane]);
    }
}

fn put_value(message: &mut [u8; ROOM], offset: usize, value: &[u8; 32])
    requires { offset + 32 ≤ 8574 }
    ensures { take (offset + 32) message.new ≡ take offset message.old ++ value.now }
{
    put(message, offset, value);
}
