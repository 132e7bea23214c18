//! A tree that is ready to sign by one of its leaves.

ghost use Rattle.std.specs.Prelude.{◌≡◌, ◌<◌, ◌^◌, length};
ghost use Rattle.typecodes.specs.Layout.{Spells};
ghost use Rattle.typecodes.specs.Types.{height_of, lms_signature_len_of};
ghost use Rattle.lms.specs.Secret.{leaf_path};
ghost use Rattle.lms.specs.Signature.{signature};
ghost use Rattle.lms.specs.Writing.{signature_bytes, made_signature, textbook};

use crate::key::LmsPublic;
use crate::writing::write_signature;
use typecodes::{LmsPair, LmsSecret, LmsType, OtsType};

/// A tree with its root, a leaf that is to sign, and the leaf's authentication path (RFC 8554 5.3 and 5.4). No `Debug`,
/// as for the secret.
#[derive(Clone, Copy)]
pub struct SigningTree {
    /// The secret of the tree.
    pub secret: LmsSecret,
    /// T[1], the tree's root, 32 bytes.
    pub root: [u8; 32],
    /// The leaf that is to sign, below the tree's number of leaves.
    pub leaf: u32,
    /// The leaf's authentication path: as many nodes of 32 bytes as the tree is high, the leaf's sibling first. The
    /// nodes after them have no meaning.
    pub path: [[u8; 32]; 25],
    pub ghost is_leaf: { leaf < 2 ^ height_of secret.pair.tree },
}

impl SigningTree {
    ghost use Rattle.lms.specs.SigningTree.{key_of, path_of_tree};

    /// The tree's public key, which is spelled by 56 bytes (RFC 8554 5.3).
    pub fn public(&self) -> LmsPublic
        ensures { result ≡ key_of self.now }
    {
        LmsPublic::of(&self.secret, self.root)
    }

    /// Writes the leaf's signature of the digest Q, 32 bytes, with the randomizer C, 32 bytes (RFC 8554 4.5 and 5.4.1).
    /// The caller gives as many bytes as the signature has, 1292 for H5/W8.
    pub fn write(&self, randomizer: &[u8; 32], digest: &[u8; 32], into: &mut [u8])
        requires { length into.old ≡ lms_signature_len_of self.now.secret.pair }
        ensures bytes { into.new ≡ signature_bytes
            (made_signature self.now.secret self.now.leaf randomizer.now digest.now (path_of_tree self.now)) }
        ensures spells { Spells signature
            (made_signature self.now.secret self.now.leaf randomizer.now digest.now (path_of_tree self.now)) into.new }
        // If the path is the leaf's, it is the textbook signature.
        ensures textbook { path_of_tree self.now ≡ leaf_path self.now.secret self.now.leaf →
            into.new ≡ signature_bytes (textbook self.now.secret self.now.leaf randomizer.now digest.now) }
    {
        let height = usize::from(self.secret.pair.tree.height());
        let path = &self.path[..height];
        write_signature(&self.secret, self.leaf, randomizer, digest, path, into);
    }
}

/// A blank, for the places of an array that aren't in use: leaf 0 of a tree of H5/W8, all zeros.
impl Default for SigningTree {
    fn default() -> Self {
        let pair = LmsPair {
            tree: LmsType::H5,
            ots: OtsType::W8,
        };
        let secret = LmsSecret {
            pair,
            identifier: [0; 16],
            seed: [0; 32],
        };
        SigningTree {
            secret,
            root: [0; 32],
            leaf: 0,
            path: [[0; 32]; 25],
        }
    }
}
