//! The one-time key of a leaf, and what it hashes.

ghost use Rattle.std.specs.Prelude.{◌≡◌, ◌<◌, ◌+◌, ◌-◌, ◌^◌, ◌++◌};
ghost use Rattle.sha2.specs.Hashers.{Holds256};
ghost use Rattle.lmots.specs.Hashes.{message_separator, u16str, u32str};
ghost use Rattle.lmots.specs.Key as spec;
ghost use Rattle.lmots.specs.Key.{message_digest_of, message_prefix_of};
ghost use Rattle.lmots.specs.Key.{step_of};
ghost use Rattle.typecodes.specs.Message.{Digests};
ghost use Rattle.typecodes.specs.Types.{width_of};
ghost use Rattle.winternitz.specs.Lanes.{lanes};

use sha2::{Digest, Sha256};
use typecodes::{Message, MessageFailed, OtsType, put};
use winternitz::{Hasher, Step, feed};

// D_PBLC (RFC 8554 4.3) and D_MESG (4.5).
pub(crate) const PUBLIC: u16 = 0x8080;

pub(crate) const MESSAGE: u16 = 0x8181;

/// A leaf's one-time key: its tree's identifier I and its number q, with which each hash of the key begins (RFC 8554
/// 4.2). As a `Step` it takes steps one by one; its own calls climb chains in lanes.
#[derive(Clone, Copy, Debug, PartialEq, Eq)]
pub struct LmOts {
    /// I, 16 bytes.
    pub identifier: [u8; 16],
    /// q, the leaf's number.
    pub leaf: u32,
}

impl Step for LmOts {
    ghost step_of = { λ key. step_of key.identifier key.leaf };

    fn step(&self, chain: u16, at: u8, value: &[u8; 32]) -> [u8; 32] {
        let mut hasher = self.hasher(chain);
        hasher.update([at]);
        hasher.update(value);
        hasher.finalize()
    }
}

impl LmOts {
    // A hasher that holds I, q, and a chain's number or a separator.
    pub(crate) fn hasher(&self, separator: u16) -> Sha256
        ensures { Holds256 result (self.now.identifier ++ u32str self.now.leaf ++ u16str separator) }
    {
        let mut hasher = Sha256::new();
        hasher.update(self.identifier);
        hasher.update(self.leaf.to_be_bytes());
        hasher.update(separator.to_be_bytes());
        hasher
    }

    /// Q, the digest that a signature with the randomizer C signs (RFC 8554 4.5).
    pub fn message_digest(&self, randomizer: &[u8; 32], message: &[u8]) -> [u8; 32]
        ensures { result ≡ message_digest_of self.now.identifier self.now.leaf randomizer.now message.now }
    {
        let mut hasher = self.message_hasher(randomizer);
        hasher.update(message);
        hasher.finalize()
    }

    /// The 54 bytes that are hashed before a message: I, q, D_MESG and C (RFC 8554 4.5).
    pub fn message_prefix(&self, randomizer: &[u8; 32]) -> [u8; 54]
        ensures { result ≡ message_prefix_of self.now.identifier self.now.leaf randomizer.now }
    {
        let mut bytes = [0; 54];
        let offset = put(&mut bytes, 0, &self.identifier);
        let offset = put(&mut bytes, offset, &self.leaf.to_be_bytes());
        let offset = put(&mut bytes, offset, &MESSAGE.to_be_bytes());
        put(&mut bytes, offset, randomizer);
        bytes
    }

    // A hasher that holds `message_prefix`.
    fn message_hasher(&self, randomizer: &[u8; 32]) -> Sha256
        ensures { Holds256 result (self.now.identifier ++ u32str self.now.leaf ++ u16str message_separator
            ++ randomizer.now) }
    {
        let mut hasher = self.hasher(MESSAGE);
        hasher.update(randomizer);
        hasher
    }

    /// Q of a message from a reader, however its bytes are split among reads. It is read to its end, in pieces that
    /// aren't kept. `Err` if it can't be read: see `typecodes::MessageFailed`.
    pub fn message_digest_from<M: Message>(
        &self,
        randomizer: &[u8; 32],
        message: &mut M,
    ) -> Result<[u8; 32], MessageFailed>
        ensures { Digests M.transition M.remaining
            (message_digest_of self.now.identifier self.now.leaf randomizer.now) result message.old message.new }
    {
        let mut hasher = Hasher::new();
        hasher.update(&self.message_prefix(randomizer));
        feed(&mut hasher, message)?;
        Ok(hasher.finalize())
    }

    /// The private value of a chain, derived from the key's seed (RFC 8554, Appendix A).
    pub fn secret(&self, seed: &[u8; 32], chain: u16) -> [u8; 32]
        ensures { result ≡ spec.private_value self.now.identifier self.now.leaf seed.now chain }
    {
        let mut hasher = self.hasher(chain);
        hasher.update([0xff]);
        hasher.update(seed);
        hasher.finalize()
    }
}

// The greatest digit of a type, which is the number of steps of each chain.
pub(crate) fn greatest_digit(ots: OtsType) -> u8
    ensures { result ≡ 2 ^ width_of ots - 1 }
{
    ((1u16 << ots.width()) - 1) as u8
}
