//! The digests of messages.

ghost use Rattle.std.specs.Prelude.{◌≡◌, ◌++◌};
ghost use Rattle.typecodes.specs.Message.{Digests};
ghost use Rattle.xmss.specs.Digest as spec;
ghost use Rattle.xmss.specs.Digest.{message_digest_of, message_prefix_of};
ghost use Rattle.xmss.specs.Secret.{digest_at, randomizer_at};

use typecodes::{Message, MessageFailed, XmssSecret, put};
use wots_plus::{Prf, hash_message, hash_message_from};

// H_msg's number among the keyed hashes (RFC 8391 5.1).
const MESSAGE: u32 = 2;

/// M', the digest of a message (RFC 8391 4.1.9), by r, the root and the leaf that signs.
pub fn message_digest(randomizer: &[u8; 32], root: &[u8; 32], leaf: u32, message: &[u8]) -> [u8; 32]
    ensures { result ≡ message_digest_of randomizer.now root.now leaf message.now }
{
    hash_message(&digest_key(randomizer, root, leaf), message)
}

/// M' of a reader's message, read to its end in pieces that aren't kept. Refused where it can't be read: see
/// `typecodes::MessageFailed`.
pub fn message_digest_from<M: Message>(
    randomizer: &[u8; 32],
    root: &[u8; 32],
    leaf: u32,
    message: &mut M,
) -> Result<[u8; 32], MessageFailed>
    ensures { Digests M.transition M.remaining (message_digest_of randomizer.now root.now leaf) result
        message.old message.new }
{
    hash_message_from(&digest_key(randomizer, root, leaf), message)
}

/// r, the randomizer of a leaf's signature, 32 bytes (RFC 8391 4.1.9).
pub fn randomizer(secret: &XmssSecret, leaf: u32) -> [u8; 32]
    ensures { result ≡ randomizer_at secret.now.prf_key leaf }
{
    Prf::new(secret.prf_key).hash(&index_bytes(leaf))
}

/// M' of a message that this secret signs (RFC 8391 4.1.9): `message_digest` with the leaf's own randomizer.
pub fn digest_to_sign(secret: &XmssSecret, root: &[u8; 32], leaf: u32, message: &[u8]) -> [u8; 32]
    ensures { result ≡ digest_at secret.now root.now leaf message.now }
{
    message_digest(&randomizer(secret, leaf), root, leaf, message)
}

// The 128 bytes that are hashed before a message: toByte(2, 32), r, the root and toByte(idx, 32).
pub(crate) fn before_message(randomizer: &[u8; 32], root: &[u8; 32], leaf: u32) -> [u8; 128]
    ensures { result ≡ message_prefix_of randomizer.now root.now leaf }
{
    let mut bytes = [0; 128];
    let offset = put(&mut bytes, 0, &index_bytes(MESSAGE));
    put(&mut bytes, offset, &digest_key(randomizer, root, leaf));
    bytes
}

// H_msg's key: r || root || toByte(idx, 32).
fn digest_key(randomizer: &[u8; 32], root: &[u8; 32], leaf: u32) -> [u8; 96]
    ensures { result ≡ randomizer.now ++ root.now ++ spec.index_bytes leaf }
{
    let mut key = [0; 96];
    let offset = put(&mut key, 0, randomizer);
    let offset = put(&mut key, offset, root);
    put(&mut key, offset, &index_bytes(leaf));
    key
}

// toByte(idx, 32)
#[tactic(auto, unfolding(crate::specs::Digest::index_bytes))]
pub(crate) fn index_bytes(index: u32) -> [u8; 32]
    ensures { result ≡ spec.index_bytes index }
{
    let mut bytes = [0; 32];
    bytes[28..].copy_from_slice(&index.to_be_bytes());
    bytes
}
