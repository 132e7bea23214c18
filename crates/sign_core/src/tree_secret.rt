//! Secrets, each of which makes a tree.

ghost use Rattle.std.specs.Prelude.{◌≡◌, ◌≤◌, ◌↔◌, ℕ, true};
ghost use Rattle.merkle.specs.Tree.{Joins, Leaves};

use lms::LmsTree;
use merkle::TreeHash;
use typecodes::{LmsSecret, XmssSecret};
use xmss::XmssTree;

/// A secret that makes a tree.
pub(crate) trait TreeSecret: Copy {
    /// The tree of a secret.
    type Tree: TreeHash + Drop;

    // the tree's height, leaves and joins
    ghost tree_height: { Self → ℕ };

    ghost tree_leaves: { Self → Leaves };

    ghost tree_joins: { Self → Joins };

    /// How high the tree is.
    fn height(&self) -> u8
        ensures value { result ≡ tree_height self.now }
        ensures at_most_25 { result ≤ 25 };

    /// The tree, with no leaf made yet.
    fn tree(self) -> Self::Tree
        ensures leaves { Self.Tree.leaf_of result ≡ tree_leaves self }
        ensures joins { Self.Tree.join_of result ≡ tree_joins self }
        ensures fresh { Self.Tree.made result ≡ 0 };

    /// Whether another secret is the same.
    fn is_same(&self, other: &Self) -> bool
        ensures { (result ≡ true) ↔ (self.now ≡ other.now) };
}

impl TreeSecret for LmsSecret {
    ghost use Rattle.typecodes.specs.Types.{height_of};
    ghost use Rattle.lms.specs.Secret.{joins_of, leaves_of};

    type Tree = LmsTree;

    ghost tree_height = { λ secret. height_of secret.pair.tree };

    ghost tree_leaves = { leaves_of };

    ghost tree_joins = { joins_of };

    fn height(&self) -> u8 {
        self.pair.tree.height()
    }

    fn tree(self) -> LmsTree {
        LmsTree::new(self)
    }

    fn is_same(&self, other: &Self) -> bool {
        *self == *other
    }
}

impl TreeSecret for XmssSecret {
    ghost use Rattle.typecodes.specs.Types.{xmss_height_of};
    ghost use Rattle.xmss.specs.Secret.{joins_of, leaves_of};

    type Tree = XmssTree;

    ghost tree_height = { λ secret. xmss_height_of secret.tree };

    ghost tree_leaves = { leaves_of };

    ghost tree_joins = { joins_of };

    fn height(&self) -> u8 {
        self.tree.height()
    }

    fn tree(self) -> XmssTree {
        XmssTree::new(self)
    }

    fn is_same(&self, other: &Self) -> bool {
        *self == *other
    }
}
