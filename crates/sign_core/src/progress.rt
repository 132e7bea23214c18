//! Telling how far the trees are that a call makes.

ghost use Rattle.std.specs.Prelude.{◌≡◌, ◌<◌, ◌≤◌, ◌^◌, IfOk, Some, ℕ, length};
ghost use Rattle.merkle.specs.Tree.{path_at, root_of};
ghost use Rattle.sign_core.specs.inner.Caches.{IsTreeCache};
ghost use Rattle.sign_core.specs.inner.Progress.{height_at};

use crate::tree_secret::TreeSecret;
use merkle::{OutOfMemory, PathCache, Progress, Silent, Told, root, root_and_path};
use std::alloc::Global;
use typecodes::Spec;

/// Hears of the trees that a call makes. It can't change them.
pub trait TreeProgress {
    ghost use Rattle.sign_core.specs.Progress.{IsLeafCount};

    /// Hears of one tree: how many of its leaves are made by now.
    type Tree: Progress + Drop;

    // the level of a tree that was begun
    ghost level_of: { Self.Tree → ℕ };

    /// A tree of a level is begun, with this number of leaves: the number that the key's trees of this level have. The
    /// answer hears rising numbers of leaves made, up to this one.
    fn begin(&self, level: u8, leaves: u64) -> Self::Tree
        requires level { level < 8 }
        requires leaves { IsLeafCount leaves }
        ensures level { level_of result ≡ level }
        ensures told { Self.Tree.told result ≡ 0 }
        ensures most { Self.Tree.most result ≡ leaves };
}

/// Keeps what it was told of a tree, and does nothing else.
#[derive(Debug, Drop)]
pub struct SilentLeaves {
    level: u8,
    told: u64,
    leaves: u64,
}

impl TreeProgress for Silent {
    type Tree = SilentLeaves;

    ghost level_of = { λ tree. tree.level };

    fn begin(&self, level: u8, leaves: u64) -> SilentLeaves {
        SilentLeaves {
            level,
            told: 0,
            leaves,
        }
    }
}

impl Progress for SilentLeaves {
    ghost told = { λ tree. tree.told };

    ghost most = { λ tree. tree.leaves };

    fn tell(&mut self, made: u64) {
        self.told = made;
    }
}

/// A call that holds a secret takes this in the place of a `TreeProgress`. It makes trees of a key of this spec. Of
/// each it tells the level, how many leaves a tree of this level has, and rising numbers of leaves made, up to all. It
/// can tell no other number. Which of the key's levels it is asked for, and how often, no contract says.
#[derive(Drop)]
pub struct KeyProgress<'a, P> {
    progress: &'a P,
    spec: Spec,
}

impl<'a, P: TreeProgress> KeyProgress<'a, P> {
    /// For the trees of a key of this spec.
    pub fn of(spec: &Spec, progress: &'a P) -> Self
        ensures { result.spec ≡ spec.now }
    {
        let spec = match spec {
            Spec::Lms(pair) => Spec::Lms(*pair),
            Spec::Hss(levels) => Spec::Hss(levels.copied()),
            Spec::Xmss(tree) => Spec::Xmss(*tree),
        };
        KeyProgress { progress, spec }
    }

    /// Makes a tree of a level that the key has, of this level's height.
    pub(crate) fn maker_at(&self, level: u8, height: u8) -> TreeMaker<'a, P>
        requires within_limit { level < 8 }
        requires at_most_25 { height ≤ 25 }
        requires of_key { height_at self.now.spec level ≡ Some height }
        ensures level { result.level ≡ level }
        ensures height { result.height ≡ height }
    {
        TreeMaker {
            progress: self.progress,
            level,
            height,
        }
    }

    /// Makes the top tree, and no other.
    pub(crate) fn top_maker(self) -> TreeMaker<'a, P>
        ensures level { result.level ≡ 0 }
        ensures height { height_at self.entry.spec 0 ≡ Some result.height }
    {
        let height = match &self.spec {
            Spec::Lms(pair) => pair.tree.height(),
            Spec::Hss(levels) => levels.as_slice()[0].tree.height(),
            Spec::Xmss(tree) => tree.height(),
        };
        self.maker_at(0, height)
    }
}

/// Makes one tree, and tells of it. With what it makes it gives who heard of the leaves, each of which is made once.
#[derive(Drop)]
pub(crate) struct TreeMaker<'a, P> {
    progress: &'a P,
    level: u8,
    height: u8,
    ghost within_limit: { level < 8 },
    ghost at_most_25: { height ≤ 25 },
}

impl<'a, P: TreeProgress> TreeMaker<'a, P> {
    // Tells that the tree is begun.
    fn begin(self) -> P::Tree
        ensures level { P.level_of result ≡ self.entry.level }
        ensures told { P.Tree.told result ≡ 0 }
        ensures most { P.Tree.most result ≡ 2 ^ self.entry.height }
    {
        let leaves = 2u64.pow(u32::from(self.height));
        self.progress.begin(self.level, leaves)
    }

    /// The root of a secret's tree.
    pub(crate) fn root<X: TreeSecret>(self, secret: X) -> ([u8; 32], P::Tree)
        requires { X.tree_height secret ≡ self.height }
        ensures root { result.0 ≡ root_of (X.tree_leaves secret) (X.tree_joins secret) (X.tree_height secret) }
        ensures told { P.Tree.told result.1 ≡ 2 ^ X.tree_height secret }
    {
        let height = secret.height();
        let leaves = 2u64.pow(u32::from(height));
        let mut tree = Told::new(secret.tree(), self.begin(), leaves);
        let made = root(&mut tree, height);
        let (_, heard) = tree.into_parts();
        (made, heard)
    }

    /// Writes the authentication path of a leaf of a secret's tree, and answers the root.
    pub(crate) fn root_and_path<X: TreeSecret>(
        self,
        secret: X,
        leaf: u32,
        into: &mut [[u8; 32]],
    ) -> ([u8; 32], P::Tree)
        requires fits { X.tree_height secret ≡ self.height }
        requires inside { leaf < 2 ^ X.tree_height secret }
        requires room { length into.old ≡ X.tree_height secret }
        ensures path { into.new ≡ path_at (X.tree_leaves secret) (X.tree_joins secret) (X.tree_height secret) leaf }
        ensures length { length into.new ≡ X.tree_height secret }
        ensures root { result.0 ≡ root_of (X.tree_leaves secret) (X.tree_joins secret) (X.tree_height secret) }
        ensures told { P.Tree.told result.1 ≡ 2 ^ X.tree_height secret }
    {
        let height = secret.height();
        let leaves = 2u64.pow(u32::from(height));
        let mut tree = Told::new(secret.tree(), self.begin(), leaves);
        let made = root_and_path(&mut tree, height, leaf, into);
        let (_, heard) = tree.into_parts();
        (made, heard)
    }

    /// The cache of a secret's tree, which keeps the block of this leaf.
    pub(crate) fn cache<X: TreeSecret>(
        self,
        alloc: Global,
        secret: X,
        leaf: u32,
    ) -> Result<(PathCache<X::Tree>, P::Tree), OutOfMemory>
        requires fits { X.tree_height secret ≡ self.height }
        requires inside { leaf < 2 ^ X.tree_height secret }
        ensures cache { IfOk result (λ made. IsTreeCache (X.tree_height secret) (X.tree_leaves secret)
            (X.tree_joins secret) made.0.height (X.Tree.leaf_of made.0.tree) (X.Tree.join_of made.0.tree)) }
        ensures told { IfOk result (λ made. P.Tree.told made.1 ≡ 2 ^ X.tree_height secret) }
    {
        let (tree, height) = (secret.tree(), secret.height());
        let made = PathCache::for_leaf_telling(alloc, tree, height, leaf, self.begin())?;
        Ok(made)
    }
}
