//! Public keys.

ghost use Rattle.std.specs.Prelude.{◌≡◌};
ghost use Rattle.typecodes.specs.Cursor.{Reads};

use typecodes::{Cursor, ReadFault, XmssSecret, XmssType};

/// The public key of a tree (RFC 8391 4.1.7).
#[derive(Clone, Copy, Debug, PartialEq, Eq)]
pub struct XmssPublic {
    /// The tree's type.
    pub tree: XmssType,
    /// The tree's root, 32 bytes.
    pub root: [u8; 32],
    /// SEED, 32 bytes.
    pub seed: [u8; 32],
}

impl XmssPublic {
    ghost use Rattle.xmss.specs.Key.{public_key};
    ghost use Rattle.xmss.specs.Secret.{rooted_public};

    /// The public key of a secret's tree. The root, 32 bytes, is taken as it is given.
    pub fn of(secret: &XmssSecret, root: [u8; 32]) -> Self
        ensures { result ≡ rooted_public secret.now root }
    {
        XmssPublic {
            tree: secret.tree,
            root,
            seed: secret.public_seed,
        }
    }

    /// Decodes a key, of exactly 68 bytes: type, root, SEED. Else the first fault (1, 2 or 5).
    #[tactic(auto, using(crate::proofs::Fields::fields), unfolding(crate::specs::Key::public_key))]
    pub fn read(bytes: &[u8]) -> Result<Self, ReadFault>
        ensures reads { Reads public_key (λ key. key) bytes.now result }
    {
        let mut cursor = Cursor::new(bytes);
        let tree = cursor.xmss_type()?;
        let root = *cursor.array()?;
        let seed = *cursor.array()?;
        cursor.end()?;
        Ok(XmssPublic { tree, root, seed })
    }
}
