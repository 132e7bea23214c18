//! The addresses of the hashes.

ghost use Rattle.std.specs.Prelude.{◌≡◌, List, [], ◌∷◌};

/// The address of a hash (RFC 8391 2.5) without its last word, keyAndMask. Layer and tree are 0.
#[derive(Clone, Copy, Debug, PartialEq, Eq)]
pub enum Address {
    /// A step of a one-time key's chain.
    OneTime { leaf: u32, chain: u32, hash: u32 },
    /// A node of a leaf's L-tree. `height` is its children's.
    LTree { leaf: u32, height: u32, index: u32 },
    /// A node of the tree over the leaves. `height` is its children's.
    HashTree { height: u32, index: u32 },
}

impl Address {
    ghost use Rattle.wots_plus.specs.Address.{address_of};
    ghost use Rattle.wots_plus.specs.inner.Address.{words_of};

    /// The address's 32 bytes, with this keyAndMask.
    pub fn bytes(&self, key_and_mask: u32) -> [u8; 32]
        ensures { result ≡ address_of self.now key_and_mask }
    {
        let mut bytes = [0; 32];
        for (i, word) in self.words(key_and_mask).iter().enumerate() {
            bytes[4 * i..4 * i + 4].copy_from_slice(&word.to_be_bytes());
        }
        bytes
    }

    // The address's eight words, of 4 bytes each.
    fn words(&self, key_and_mask: u32) -> [u32; 8]
        ensures { result ≡ words_of self.now key_and_mask }
    {
        let [kind, first, second, third] = match *self {
            Address::OneTime { leaf, chain, hash } => [0, leaf, chain, hash],
            Address::LTree {
                leaf,
                height,
                index,
            } => [1, leaf, height, index],
            Address::HashTree { height, index } => [2, 0, height, index],
        };
        [0, 0, 0, kind, first, second, third, key_and_mask]
    }
}
