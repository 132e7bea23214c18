//! Leaves of trees, as keys of a map.

ghost use Rattle.std.specs.Prelude.{◌≡◌, ◌≤◌, ◌++◌, List, ℕ, length};
ghost use Rattle.lmots.specs.Hashes.{u32str};

use arrayvec::ArrayVec;
use std::hash::{Hash, Hasher};
use std::marker::Model;

/// The bytes that name a leaf: its number in 4 bytes, then its tree's identifier. That is an I of 16 bytes, or in XMSS
/// the public key, of 68.
#[derive(Default, Drop)]
pub(crate) struct Leaf {
    bytes: ArrayVec<u8, 72>,
}

impl Model for Leaf {
    ghost Value = { List ℕ };

    ghost view = { λ leaf. leaf.bytes.items };
}

impl Leaf {
    /// Leaf `number` of the tree with this identifier.
    pub(crate) fn new(identifier: &[u8], number: u32) -> Self
        requires { length identifier.now ≤ 68 }
        ensures { result ≡ u32str number ++ identifier.now }
    {
        let mut bytes = ArrayVec::new();
        let _ = bytes.try_extend_from_slice(&number.to_be_bytes());
        let _ = bytes.try_extend_from_slice(identifier);
        Leaf { bytes }
    }

    /// A clone, which can't fail.
    pub(crate) fn copied(&self) -> Self
        ensures { result ≡ self.now }
    {
        match ArrayVec::try_from(self.bytes.as_slice()) {
            Ok(bytes) => Leaf { bytes },
            Err(_) => unreachable!(),
        }
    }
}

impl PartialEq for Leaf {
    ghost use Rattle.std.specs.Cmp.Lexicographic.{pointwise, nat_list_eq_equiv};
    ghost use Rattle.std.specs.Cmp.{partial_equiv_from_equiv};
    ghost use Rattle.std.specs.Prelude.{nat_eq};

    ghost eq = { pointwise nat_eq };

    ghost laws = { partial_equiv_from_equiv nat_list_eq_equiv };

    fn eq(&self, other: &Self) -> bool {
        self.bytes.as_slice() == other.bytes.as_slice()
    }
}

impl Eq for Leaf {
    ghost use Rattle.std.specs.Cmp.Lexicographic.{nat_list_eq_equiv};

    ghost laws = { nat_list_eq_equiv };
}

impl Hash for Leaf {
    ghost use Rattle.std.proofs.Common.{rules};
    ghost use Rattle.std.specs.Cmp.Rules.{hashing};
    ghost use Rattle.std.specs.Hash as fed;

    ghost hash_input = { λ leaf. fed.slice fed.u8 leaf };

    ghost respects_eq = { Prim.search (hashing, rules) };

    fn hash<H: Hasher>(&self, state: &mut H) {
        self.bytes.as_slice().hash(state);
    }
}
