//! What signatures are made with.

ghost use Rattle.std.specs.Prelude.{◌≡◌, length};
ghost use Rattle.typecodes.specs.Layout.{Spells};
ghost use Rattle.typecodes.specs.Types.{lms_signature_len_of};
ghost use Rattle.lms.specs.Secret.{leaf_path};
ghost use Rattle.lms.specs.Signature.{signature as lms_signature};
ghost use Rattle.lms.specs.SigningTree.{path_of_tree};
ghost use Rattle.lms.specs.Writing.{signature_bytes as lms_signature_bytes, textbook as lms_textbook};

use lms::{LmsPublic, SigningTree};

/// What one level of a signature is made with (RFC 8554 6.2). No `Debug`, as for the secret.
#[derive(Clone, Copy, Default)]
pub struct Level {
    /// The level's tree, with the leaf that signs and its authentication path.
    pub tree: SigningTree,
    /// C, the randomizer, 32 bytes.
    pub randomizer: [u8; 32],
    /// Q, the digest of what the level signs, 32 bytes.
    pub digest: [u8; 32],
}

impl Level {
    ghost use Rattle.hss.specs.Secret.{key_of, signature_of_level};

    /// A level's tree with C and Q, 32 bytes each.
    pub fn new(tree: SigningTree, randomizer: [u8; 32], digest: [u8; 32]) -> Self
        ensures { result ≡ record { tree = tree; randomizer = randomizer; digest = digest } }
    {
        Level {
            tree,
            randomizer,
            digest,
        }
    }

    /// The public key of the level's tree, which is spelled by 56 bytes (RFC 8554 5.3).
    pub fn public(&self) -> LmsPublic
        ensures { result ≡ key_of self.now }
    {
        self.tree.public()
    }

    /// Writes the LMS signature of this level alone (RFC 8554 4.5 and 5.4.1). The caller gives as many bytes as it has,
    /// 1292 for H5/W8.
    pub fn write(&self, into: &mut [u8])
        requires { length into.old ≡ lms_signature_len_of self.now.tree.secret.pair }
        ensures bytes { into.new ≡ lms_signature_bytes (signature_of_level self.now) }
        ensures spells { Spells lms_signature (signature_of_level self.now) into.new }
        // If the path is the leaf's, it is the textbook signature.
        ensures textbook { path_of_tree self.now.tree ≡ leaf_path self.now.tree.secret self.now.tree.leaf →
            into.new ≡ lms_signature_bytes
            (lms_textbook self.now.tree.secret self.now.tree.leaf self.now.randomizer self.now.digest) }
    {
        self.tree.write(&self.randomizer, &self.digest, into);
    }
}
