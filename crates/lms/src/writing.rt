//! The bytes of keys and signatures.

ghost use Rattle.std.specs.Prelude.{◌≡◌, ◌<◌, ◌^◌, ℕ, List, length};
ghost use Rattle.typecodes.specs.Layout.{Spells};
ghost use Rattle.typecodes.specs.Types.{height_of, lms_signature_len_of};
ghost use Rattle.lms.specs.Key.{public_key};
ghost use Rattle.lms.specs.Signature.{signature};
ghost use Rattle.lms.specs.Secret.{digest_at, leaf_path, public_of};
ghost use Rattle.lms.specs.Writing.{public_bytes, signature_bytes, made_signature, textbook};
ghost use Rattle.lms.specs.Verification.{IsValid};

use crate::key::LmsPublic;
use lmots::LmOts;
use typecodes::{LmsSecret, put};

/// Writes a public key, 56 bytes (RFC 8554 5.3).
pub fn write_public(public: &LmsPublic, into: &mut [u8])
    requires { length into.old ≡ 56 }
    ensures bytes { into.new ≡ public_bytes public.now }
    ensures spells { Spells public_key public.now into.new }
{
    let offset = put(into, 0, &public.pair.tree.code().to_be_bytes());
    let offset = put(into, offset, &public.pair.ots.code().to_be_bytes());
    let offset = put(into, offset, &public.identifier);
    put(into, offset, &public.root);
}

impl LmsPublic {
    /// The key's 56 bytes (RFC 8554 5.3).
    pub fn to_bytes(&self) -> [u8; 56]
        ensures bytes { result ≡ public_bytes self.now }
        ensures spells { Spells public_key self.now result }
    {
        let mut bytes = [0; 56];
        write_public(self, &mut bytes);
        bytes
    }
}

/// Writes a leaf's signature of the digest Q, with the randomizer C and an authentication path (RFC 8554 4.5 and
/// 5.4.1). The caller keeps the leaf below `2^h`, and gives h nodes and as many bytes as the signature has.
pub fn write_signature(
    secret: &LmsSecret,
    leaf: u32,
    randomizer: &[u8; 32],
    digest: &[u8; 32],
    path: &[[u8; 32]],
    into: &mut [u8],
)
    requires is_leaf { leaf < 2 ^ height_of secret.now.pair.tree }
    requires path { length path.now ≡ height_of secret.now.pair.tree }
    requires exact_length { length into.old ≡ lms_signature_len_of secret.now.pair }
    ensures bytes { into.new ≡ signature_bytes (made_signature secret.now leaf randomizer.now digest.now path.now) }
    ensures spells { Spells signature (made_signature secret.now leaf randomizer.now digest.now path.now) into.new }
    // If the path is the leaf's, it is the textbook signature.
    ensures textbook { path.now ≡ leaf_path secret.now leaf →
        into.new ≡ signature_bytes (textbook secret.now leaf randomizer.now digest.now) }
    // If also the digest is a message's, the signature is valid.
    ensures valid { (message : List ℕ) →
        digest.now ≡ digest_at secret.now leaf randomizer.now message →
        path.now ≡ leaf_path secret.now leaf →
        IsValid (public_of secret.now) message (made_signature secret.now leaf randomizer.now digest.now path.now) }
{
    let key = LmOts {
        identifier: secret.identifier,
        leaf,
    };
    let ots = secret.pair.ots;
    let offset = put(into, 0, &leaf.to_be_bytes());
    let offset = put(into, offset, &ots.code().to_be_bytes());
    let offset = put(into, offset, randomizer);
    let end = offset + 32 * usize::from(ots.chains());
    key.sign_digest(ots, &secret.seed, digest, &mut into[offset..end]);
    let offset = put(into, end, &secret.pair.tree.code().to_be_bytes());
    put(into, offset, path.as_flattened());
}
