//! The caches of current trees. Each tree is made once, and then its root and a path cost few leaves or none.

ghost use Rattle.std.specs.Prelude.{◌≡◌, ◌≢◌, ◌↔◌, ◌<◌, ◌^◌, ◌∷◌, List, Some, None, length, ℕ, IfErr, IfOk};
ghost use Rattle.std.specs.Prelude.{IsSome, OnErr, OnOk, replicate};
ghost use Rattle.merkle.specs.Tree.{path_at, root_of};
ghost use Rattle.typecodes.specs.Types.{height_of, xmss_height_of};
ghost use Rattle.state_file.specs.declared.record.Record.{Record as R};
ghost use Rattle.state_file.specs.declared.record.Key.{Key as K};
ghost use Rattle.state_file.specs.declared.record.Record.TheVariants.{Key as KeyRecord};
ghost use Rattle.sign_core.specs.Signing.{IsXmssKey};
ghost use Rattle.sign_core.specs.Textbook.{damaged_at};
ghost use Rattle.sign_core.specs.inner.Progress.{height_at};

use crate::fault::SignFault;
use crate::progress::{KeyProgress, TreeMaker, TreeProgress};
use crate::tree_secret::TreeSecret;
use lms::SigningTree;
use merkle::PathCache;
use std::alloc::Global;
use std::marker::Model;
use typecodes::{LmsSecret, XmssSecret};

/// A request for a tree: of this secret, at this level, about to sign by `leaf`. `maker` makes it, if need be.
#[derive(Drop)]
pub(crate) struct TreeRequest<'a, X: TreeSecret, P> {
    level: u8,
    secret: X,
    leaf: u32,
    maker: TreeMaker<'a, P>,
    ghost fits: { X.tree_height secret ≡ maker.height },
}

impl<'a, X: TreeSecret, P: TreeProgress> TreeRequest<'a, X, P> {
    pub(crate) fn new(level: u8, secret: X, leaf: u32, progress: &KeyProgress<'a, P>) -> Self
        requires within_limit { level < 8 }
        requires of_key { height_at progress.now.spec level ≡ Some (X.tree_height secret) }
        ensures level { result.level ≡ level }
        ensures secret { result.secret ≡ secret }
        ensures leaf { result.leaf ≡ leaf }
    {
        let maker = progress.maker_at(level, secret.height());
        TreeRequest {
            level,
            secret,
            leaf,
            maker,
        }
    }
}

#[derive(Drop)]
pub(crate) struct TreeCache<X: TreeSecret> {
    secret: X,
    cache: PathCache<X::Tree>,
}

impl<X: TreeSecret> Model for TreeCache<X> {
    ghost use Rattle.sign_core.specs.inner.Caches.{IsTreeCache};

    ghost Value = { X };

    ghost view = { λ s. s.secret };

    ghost invariant = { λ s. IsTreeCache (X.tree_height s.secret) (X.tree_leaves s.secret) (X.tree_joins s.secret)
        s.cache.height (X.Tree.leaf_of s.cache.tree) (X.Tree.join_of s.cache.tree) };
}

impl<X: TreeSecret> TreeCache<X> {
    // Makes each leaf of the tree, once. Keeps the block of `leaf`, or the last one if the tree has no such leaf.
    fn new<P: TreeProgress>(alloc: Global, asked: TreeRequest<'_, X, P>) -> Result<Self, SignFault>
        ensures secret { IfOk result (λ cache. cache ≡ asked.entry.secret) }
        ensures fault { IfErr result (λ fault. fault ≡ SignFault.OutOfMemory) }
    {
        let secret = asked.secret;
        // a tree whose leaves are used up has no leaf of this number
        let leaf = asked.leaf.min(2u32.pow(u32::from(secret.height())) - 1);
        let made = asked.maker.cache(alloc, secret, leaf);
        let (cache, _) = made.map_err(|_| SignFault::OutOfMemory)?;
        Ok(TreeCache { secret, cache })
    }
}

// How many leaves the cache has made, if it is the secret's.
fn leaves_made<X: TreeSecret>(kept: &Option<TreeCache<X>>, secret: &X) -> Option<u64>
    ensures { IsSome result ↔ (kept.now ≡ Some secret.now) }
{
    match kept {
        Some(cache) if cache.secret.is_same(secret) => Some(cache.cache.leaves_made()),
        _ => None,
    }
}

impl<X: TreeSecret, P: TreeProgress> TreeRequest<'_, X, P> {
    // Makes the cache of the tree, unless it is there.
    fn keep(self, kept: &mut Option<TreeCache<X>>, alloc: Global) -> Result<(), SignFault>
        ensures there { OnOk result (kept.new ≡ Some self.entry.secret) }
        ensures fault { IfErr result (λ fault. fault ≡ SignFault.OutOfMemory) }
        ensures lacking { OnErr result (kept.old ≢ Some self.entry.secret) }
        ensures none { OnErr result (kept.new ≡ None) }
    {
        if leaves_made(kept, &self.secret).is_some() {
            return Ok(());
        }
        *kept = None;
        *kept = Some(TreeCache::new(alloc, self)?);
        Ok(())
    }

    // Writes the authentication path of the leaf, and answers the root: from the cache, if that is the secret's. Else
    // each leaf is made once.
    fn root_and_path(self, kept: &mut Option<TreeCache<X>>, into: &mut [[u8; 32]]) -> [u8; 32]
        requires inside { self.leaf < 2 ^ X.tree_height self.secret }
        requires room { length into.old ≡ X.tree_height self.secret }
        ensures path { let secret = self.entry.secret in
            into.new ≡ path_at (X.tree_leaves secret) (X.tree_joins secret) (X.tree_height secret) self.entry.leaf }
        ensures length { length into.new ≡ X.tree_height self.entry.secret }
        ensures root { let secret = self.entry.secret in
            result ≡ root_of (X.tree_leaves secret) (X.tree_joins secret) (X.tree_height secret) }
        ensures same { kept.new ≡ kept.old }
    {
        if let Some(cache) = kept {
            if cache.secret.is_same(&self.secret) {
                cache.cache.path_at(self.leaf, into);
                return cache.cache.root();
            }
        }
        self.maker.root_and_path(self.secret, self.leaf, into).0
    }
}

/// A signer's caches: one for each level's current LMS tree, or for an XMSS key's tree, once a request has needed it.
#[derive(Drop)]
pub(crate) struct Caches {
    alloc: Global,
    levels: [Option<TreeCache<LmsSecret>>; 8],
    xmss: Option<TreeCache<XmssSecret>>,
}

impl Model for Caches {
    ghost use Rattle.std.specs.Prelude.{◌≡◌, length};
    ghost use Rattle.sign_core.specs.Caches.{Cached};

    ghost Value = { Cached };

    ghost view = { λ s. record { levels = s.levels; xmss = s.xmss } };

    ghost invariant = { λ s. length s.levels ≡ 8 };
}

impl Caches {
    ghost use Rattle.sign_core.specs.Caches.{HasLevel, cache_at};
    ghost use Rattle.sign_core.specs.inner.KeyTrees.{IsMade};
    ghost use Rattle.lms.specs.Secret.{root_of_secret as lms_root_of};
    ghost use Rattle.xmss.specs.Secret.{leaf_path as xmss_leaf_path};

    /// No cache for any level.
    pub(crate) fn new(alloc: Global) -> Self
        ensures levels { result.levels ≡ replicate 8 None }
        ensures xmss { result.xmss ≡ None }
    {
        Caches {
            alloc,
            levels: [None, None, None, None, None, None, None, None],
            xmss: None,
        }
    }

    // Makes a level's cache of an LMS tree, unless it is there.
    pub(crate) fn keep<P: TreeProgress>(
        &mut self,
        asked: TreeRequest<'_, LmsSecret, P>,
    ) -> Result<(), SignFault>
        requires { asked.level < 8 }
        ensures there { OnOk result (HasLevel self.new asked.entry.level asked.entry.secret) }
        ensures fault { IfErr result (λ fault. fault ≡ SignFault.OutOfMemory) }
        ensures lacking { OnErr result (HasLevel self.old asked.entry.level asked.entry.secret → ⊥) }
        ensures none { OnErr result (cache_at self.new.levels asked.entry.level ≡ None) }
        ensures others { (k : ℕ) → k ≢ asked.entry.level → cache_at self.new.levels k ≡ cache_at self.old.levels k }
        ensures xmss { self.new.xmss ≡ self.old.xmss }
    {
        let kept = &mut self.levels[usize::from(asked.level)];
        asked.keep(kept, self.alloc)
    }

    /// Makes a new tree, and answers its root and its cache, which no level has yet.
    pub(crate) fn make_tree<P: TreeProgress>(
        &self,
        asked: TreeRequest<'_, LmsSecret, P>,
    ) -> Result<([u8; 32], TreeCache<LmsSecret>), SignFault>
        ensures fault { IfErr result (λ fault. fault ≡ SignFault.OutOfMemory) }
        ensures root { IfOk result (λ made. made.0 ≡ lms_root_of asked.entry.secret) }
        ensures cache { IfOk result (λ made. made.1 ≡ asked.entry.secret) }
    {
        let cache = TreeCache::new(self.alloc, asked)?;
        let root = cache.cache.root();
        Ok((root, cache))
    }

    /// Gives a level the cache of a new tree, in the place of its own.
    pub(crate) fn renew(&mut self, level: u8, cache: TreeCache<LmsSecret>)
        requires { level < 8 }
        ensures there { HasLevel self.new level cache }
        ensures others { (k : ℕ) → k ≢ level → cache_at self.new.levels k ≡ cache_at self.old.levels k }
        ensures xmss { self.new.xmss ≡ self.old.xmss }
    {
        self.levels[usize::from(level)] = Some(cache);
    }

    /// An LMS tree, ready to sign by the leaf: from the level's cache, if that is the secret's, else made anew.
    pub(crate) fn signing_tree<P: TreeProgress>(
        &mut self,
        asked: TreeRequest<'_, LmsSecret, P>,
    ) -> SigningTree
        requires within_limit { asked.level < 8 }
        requires inside { asked.leaf < 2 ^ height_of asked.secret.pair.tree }
        ensures secret { result.secret ≡ asked.entry.secret }
        ensures leaf { result.leaf ≡ asked.entry.leaf }
        ensures made { IsMade result }
        ensures same { self.new ≡ self.old }
    {
        let (secret, leaf) = (asked.secret, asked.leaf);
        let mut path = [[0; 32]; 25];
        let nodes = &mut path[..usize::from(secret.height())];
        let kept = &mut self.levels[usize::from(asked.level)];
        let root = asked.root_and_path(kept, nodes);
        SigningTree {
            secret,
            root,
            leaf,
            path,
        }
    }

    /// How many leaves a level's cache has made, if it is the secret's.
    pub(crate) fn leaves(&self, level: u8, secret: &LmsSecret) -> Option<u64>
        requires { level < 8 }
        ensures { IsSome result ↔ HasLevel self.now level secret.now }
    {
        leaves_made(&self.levels[usize::from(level)], secret)
    }

    /// How many leaves the XMSS cache has made, if it is the secret's.
    pub(crate) fn xmss_leaves(&self, secret: &XmssSecret) -> Option<u64>
        ensures { IsSome result ↔ (self.now.xmss ≡ Some secret.now) }
    {
        leaves_made(&self.xmss, secret)
    }

    /// Makes the cache of an XMSS tree, unless it is there.
    pub(crate) fn keep_xmss<P: TreeProgress>(
        &mut self,
        asked: TreeRequest<'_, XmssSecret, P>,
    ) -> Result<(), SignFault>
        ensures there { OnOk result (self.new.xmss ≡ Some asked.entry.secret) }
        ensures fault { IfErr result (λ fault. fault ≡ SignFault.OutOfMemory) }
        ensures lacking { OnErr result (self.old.xmss ≢ Some asked.entry.secret) }
        ensures none { OnErr result (self.new.xmss ≡ None) }
        ensures levels { self.new.levels ≡ self.old.levels }
    {
        asked.keep(&mut self.xmss, self.alloc)
    }

    /// Writes the authentication path of an XMSS tree's leaf. Err(0), record 0 is damaged, where the recorded root
    /// isn't the tree's.
    pub(crate) fn xmss_path<P: TreeProgress>(
        &mut self,
        asked: TreeRequest<'_, XmssSecret, P>,
        root: &[u8; 32],
        into: &mut [[u8; 32]],
    ) -> Result<(), u32>
        requires inside { asked.leaf < 2 ^ xmss_height_of asked.secret.tree }
        requires room { length into.old ≡ xmss_height_of asked.secret.tree }
        ensures path { into.new ≡ xmss_leaf_path asked.entry.secret asked.entry.leaf }
        ensures length { length into.new ≡ xmss_height_of asked.entry.secret.tree }
        ensures sound { (key : K) (rest : List R) → IsXmssKey asked.entry.secret key → key.root ≡ root.now
            → OnOk result (damaged_at key 0 (KeyRecord key ∷ rest) 0 ≡ None) }
        ensures damaged { (key : K) (rest : List R) → IsXmssKey asked.entry.secret key → key.root ≡ root.now
            → IfErr result (λ place. damaged_at key 0 (KeyRecord key ∷ rest) 0 ≡ Some place) }
        ensures same { self.new ≡ self.old }
    {
        let made = asked.root_and_path(&mut self.xmss, into);
        if *root == made { Ok(()) } else { Err(0) }
    }
}
