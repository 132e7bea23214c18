//! The bytes of keys and signatures.

ghost use Rattle.std.specs.Prelude.{◌≡◌, ◌<◌, ◌^◌, ℕ, List, length};
ghost use Rattle.typecodes.specs.Layout.{Spells};
ghost use Rattle.typecodes.specs.Types.{xmss_height_of, xmss_signature_len_of};
ghost use Rattle.xmss.specs.Key.{public_key};
ghost use Rattle.xmss.specs.Signature.{signature};
ghost use Rattle.xmss.specs.Secret.{digest_at, leaf_path, public_of, randomizer_at, root_of_secret};
ghost use Rattle.xmss.specs.Writing.{public_bytes, signature_bytes, made_signature, textbook};
ghost use Rattle.xmss.specs.Verification.{IsValid};

use crate::key::XmssPublic;
use typecodes::{WOTS_CHAINS, XmssSecret, put};
use wots_plus::{Prf, Wots};

/// Writes a public key, 68 bytes (RFC 8391 4.1.7).
pub fn write_public(public: &XmssPublic, into: &mut [u8])
    requires { length into.old ≡ 68 }
    ensures bytes { into.new ≡ public_bytes public.now }
    ensures spells { Spells public_key public.now into.new }
{
    let offset = put(into, 0, &public.tree.code().to_be_bytes());
    let offset = put(into, offset, &public.root);
    put(into, offset, &public.seed);
}

impl XmssPublic {
    /// The key's 68 bytes (RFC 8391 4.1.7).
    pub fn to_bytes(&self) -> [u8; 68]
        ensures bytes { result ≡ public_bytes self.now }
        ensures spells { Spells public_key self.now result }
    {
        let mut bytes = [0; 68];
        write_public(self, &mut bytes);
        bytes
    }
}

/// Writes a leaf's signature of the digest M' (RFC 8391 4.1.9): 2500, 2692 or 2820 bytes by the type. The caller keeps
/// the leaf below `2^h`, and gives the leaf's randomizer, its path of h nodes, and just that room.
pub fn write_signature(
    secret: &XmssSecret,
    leaf: u32,
    randomizer: &[u8; 32],
    digest: &[u8; 32],
    path: &[[u8; 32]],
    into: &mut [u8],
)
    requires inside { leaf < 2 ^ xmss_height_of secret.now.tree }
    requires randomizer { randomizer.now ≡ randomizer_at secret.now.prf_key leaf }
    requires path { length path.now ≡ xmss_height_of secret.now.tree }
    requires room { length into.old ≡ xmss_signature_len_of secret.now.tree }
    ensures bytes { into.new ≡ signature_bytes (made_signature secret.now leaf digest.now path.now) }
    ensures spells { Spells (signature secret.now.tree) (made_signature secret.now leaf digest.now path.now) into.new }
    // With the leaf's own path it is the textbook signature.
    ensures textbook { path.now ≡ leaf_path secret.now leaf →
        into.new ≡ signature_bytes (textbook secret.now leaf digest.now) }
    // With the leaf's own path and the digest of a message, it is valid for the message.
    ensures valid { (message : List ℕ) →
        digest.now ≡ digest_at secret.now (root_of_secret secret.now) leaf message →
        path.now ≡ leaf_path secret.now leaf →
        IsValid (public_of secret.now) message (made_signature secret.now leaf digest.now path.now) }
{
    let offset = put(into, 0, &leaf.to_be_bytes());
    let offset = put(into, offset, randomizer);
    let end = offset + 32 * WOTS_CHAINS;
    let seed = Prf::new(secret.public_seed);
    let key = Wots { seed: &seed, leaf };
    key.sign_digest(&secret.secret_seed, digest, &mut into[offset..end]);
    put(into, end, path.as_flattened());
}
