//! The LMS trees of a key: a chain from the top down to the tree that signs. And the caches of the current ones.

ghost use Rattle.std.specs.Prelude.{◌≡◌, ◌<◌, ◌+◌, ◌^◌, ◌++◌, Some, None, slice_index_or};
ghost use Rattle.std.specs.Prelude.{IfErr, OnOk, IfOk, OnErr};
ghost use Rattle.arrayvec.specs.ArrayVec.{array_vec_len};
ghost use Rattle.typecodes.specs.Types.{height_of};
ghost use Rattle.sign_core.specs.Records.{types_of};
ghost use Rattle.sign_core.specs.Textbook.{damaged_at};

use crate::caches::{Caches, TreeRequest};
use crate::fault::SignFault;
use crate::ledger::{Ledger, RecordedTree};
use crate::progress::{KeyProgress, TreeProgress};
use crate::secret_trees::SecretTrees;
use arrayvec::ArrayVec;
use hss::Level;
use lmots::LmOts;
use lms::SigningTree;
use state_file::Extend;
use typecodes::{Levels, LmsPair, LmsSecret};

/// The LMS trees of a key: the top tree's secret, and the types of each level's trees.
#[derive(Drop)]
pub(crate) struct KeyTrees {
    pub(crate) top: LmsSecret,
    pub(crate) levels: Levels,
}

impl KeyTrees {
    ghost use Rattle.state_file.specs.Laws.{IsLegal};
    ghost use Rattle.sign_core.specs.Records.{the_key};
    ghost use Rattle.sign_core.specs.inner.KeyTrees.{AreMade, AreTreesOf, IsMade, IsTreeAt, IsTreeBy, signings_of};
    ghost use Rattle.sign_core.specs.inner.KeyTrees.{chain_trees};
    ghost use Rattle.sign_core.specs.Textbook.{damaged_at, is_sound_at, secret_at, chain_signings};

    /// The types of a level's trees; the top tree's, where there is no such level.
    pub(crate) fn pair(&self, level: u8) -> LmsPair
        ensures { result ≡ slice_index_or (chain_trees self.now).pairs level (chain_trees self.now).top.pair }
    {
        let pairs = self.levels.as_slice();
        *pairs.get(usize::from(level)).unwrap_or(&self.top.pair)
    }

    /// The secret of the tree at a place; the top tree's, where no Extend stands.
    pub(crate) fn secret_at(&self, ledger: &Ledger, place: u32) -> LmsSecret
        ensures { result ≡ secret_at (chain_trees self.now) ledger.now.records place }
    {
        let Some(RecordedTree { extend, .. }) = ledger.recorded_tree(place) else {
            return self.top;
        };
        LmsSecret::new(self.pair(extend.level), extend.identifier, extend.seed)
    }

    // Whether a tree's recorded root is the one that was made, and for an Extend the recorded digest, too.
    fn is_sound(&self, ledger: &Ledger, level: u8, place: u32, tree: &SigningTree) -> bool
        requires trees { AreTreesOf self.now ledger.now.key }
        requires stands { IsTreeAt ledger.now.records level place }
        requires secret { tree.now.secret ≡ secret_at (chain_trees self.now) ledger.now.records place }
        requires made { IsMade tree.now }
        ensures { result ≡ is_sound_at ledger.now.key ledger.now.records place }
    {
        let Some(RecordedTree { extend, parent }) = ledger.recorded_tree(place) else {
            return ledger.key().root == tree.root;
        };
        let signer = self.secret_at(ledger, parent);
        let (identifier, leaf) = (signer.identifier, extend.parent_leaf);
        let public = tree.public().to_bytes();
        let digest = LmOts { identifier, leaf }.message_digest(&extend.randomizer, &public);
        extend.root == tree.root && extend.digest == digest
    }

    /// Adds the trees above the tree at a place, from the Key's down, and answers this tree, ready to sign by a leaf.
    /// Or answers the place of the chain's first record that isn't sound.
    pub(crate) fn chain_to<P: TreeProgress>(
        &self,
        ledger: &Ledger,
        caches: &mut Caches,
        level: u8,
        place: u32,
        leaf: u32,
        above: &mut ArrayVec<Level, 8>,
        progress: &KeyProgress<'_, P>,
    ) -> Result<SigningTree, u32>
        requires legal { IsLegal ledger.now.records }
        requires keyed { the_key ledger.now.records ≡ Some ledger.now.key }
        requires trees { AreTreesOf self.now ledger.now.key }
        requires stands { IsTreeAt ledger.now.records level place }
        requires inside { let secret = secret_at (chain_trees self.now) ledger.now.records place in
            leaf < 2 ^ height_of secret.pair.tree }
        requires room { array_vec_len above.old + level < 8 }
        requires types { progress.now.spec ≡ types_of ledger.now.key.secret }
        ensures sound { OnOk result (damaged_at ledger.now.key level ledger.now.records place ≡ None) }
        ensures damaged { IfErr result (λ k. damaged_at ledger.now.key level ledger.now.records place ≡ Some k) }
        ensures signings { OnOk result (signings_of above.new.items ≡ signings_of above.old.items
            ++ chain_signings (chain_trees self.now) level ledger.now.records place) }
        ensures len { OnOk result (array_vec_len above.new ≡ array_vec_len above.old + level) }
        ensures made { AreMade above.old.items → OnOk result (AreMade above.new.items) }
        ensures tree { IfOk result (IsTreeBy (secret_at (chain_trees self.now) ledger.now.records place) leaf) }
        ensures caches { caches.new ≡ caches.old }
    {
        if let Some(made) = ledger.recorded_tree(place) {
            let (randomizer, digest) = (made.extend.randomizer, made.extend.digest);
            let (parent, signer) = (made.parent, made.extend.parent_leaf);
            let tree = self.chain_to(ledger, caches, level - 1, parent, signer, above, progress)?;
            above.push(Level::new(tree, randomizer, digest));
        }
        let secret = self.secret_at(ledger, place);
        let tree = caches.signing_tree(TreeRequest::new(level, secret, leaf, progress));
        if !self.is_sound(ledger, level, place, &tree) {
            return Err(place);
        }
        Ok(tree)
    }
}

impl Caches {
    ghost use Rattle.sign_core.specs.Caches.{HasCaches, HasCurrent, LacksCache, LacksOwn, LosesCache, cache_at};
    ghost use Rattle.std.specs.Prelude.{ℕ, ◌≢◌, ◌⊎◌};
    ghost use Rattle.state_file.specs.Laws.{IsLegal};
    ghost use Rattle.sign_core.specs.Records.{the_key};
    ghost use Rattle.sign_core.specs.inner.Caches.{HasOwn, RenewsDownTo};
    ghost use Rattle.sign_core.specs.inner.KeyTrees.{AreTreesOf, IsTreeAt, MakesTrees, chain_trees};

    // Makes the cache of a level's current tree, where it is missing and the tree's record stands before a place.
    fn keep_current<P: TreeProgress>(
        &mut self,
        trees: &KeyTrees,
        ledger: &Ledger,
        level: u8,
        leaf: u32,
        before: u32,
        progress: &KeyProgress<'_, P>,
    ) -> Result<(), SignFault>
        requires legal { IsLegal ledger.now.records }
        requires keyed { the_key ledger.now.records ≡ Some ledger.now.key }
        requires trees { AreTreesOf trees.now ledger.now.key }
        requires within_limit { level < 8 }
        requires types { progress.now.spec ≡ types_of ledger.now.key.secret }
        ensures there { OnOk result (HasOwn (chain_trees trees.now) ledger.now.records level before self.new) }
        ensures made { OnOk result ((cache_at self.new.levels level ≡ cache_at self.old.levels level)
            ⊎ HasCurrent (chain_trees trees.now) ledger.now.records level self.new) }
        ensures fault { IfErr result (λ fault. fault ≡ SignFault.OutOfMemory) }
        ensures lacking { OnErr result (LacksOwn (chain_trees trees.now) ledger.now.records level before self.old) }
        ensures none { OnErr result (cache_at self.new.levels level ≡ None) }
        ensures others { (k : ℕ) → k ≢ level → cache_at self.new.levels k ≡ cache_at self.old.levels k }
        ensures xmss { self.new.xmss ≡ self.old.xmss }
    {
        let Some(tree) = ledger.current(level) else {
            return Ok(());
        };
        if tree.place >= before {
            return Ok(());
        }
        let secret = trees.secret_at(ledger, tree.place);
        self.keep(TreeRequest::new(level, secret, leaf, progress))
    }

    /// Makes the missing caches of the current trees, from the top down to a level, where their records stand before a
    /// place. The tree at `place` is to sign by this leaf. A new cache keeps the block of the leaf by which its tree is
    /// to sign, or has signed the tree below.
    pub(crate) fn keep_trees<P: TreeProgress>(
        &mut self,
        keys: &SecretTrees,
        ledger: &Ledger,
        level: u8,
        place: u32,
        leaf: u32,
        before: u32,
        progress: &KeyProgress<'_, P>,
    ) -> Result<(), SignFault>
        requires legal { IsLegal ledger.now.records }
        requires keyed { the_key ledger.now.records ≡ Some ledger.now.key }
        requires trees { MakesTrees ledger.now.key.secret keys.now }
        requires within_limit { level < 8 }
        requires stands { IsTreeAt ledger.now.records level place }
        requires types { progress.now.spec ≡ types_of ledger.now.key.secret }
        ensures kept { OnOk result (HasCaches ledger.now.key ledger.now.records (Some level) before self.new) }
        ensures renews { OnOk result (RenewsDownTo ledger.now.key ledger.now.records level self.old self.new) }
        ensures fault { IfErr result (λ fault. fault ≡ SignFault.OutOfMemory) }
        ensures lacking { OnErr result
            (LacksCache ledger.now.key ledger.now.records (Some level) before self.old) }
        ensures loses { OnErr result (LosesCache ledger.now.key ledger.now.records level before self.old self.new) }
        ensures others { (k : ℕ) → level < k → cache_at self.new.levels k ≡ cache_at self.old.levels k }
    {
        let trees = match keys {
            SecretTrees::Chain(trees) => trees,
            SecretTrees::Xmss(secret) => {
                return self.keep_xmss(TreeRequest::new(0, *secret, leaf, progress));
            }
        };
        if let Some(made) = ledger.recorded_tree(place) {
            let leaf = made.extend.parent_leaf;
            self.keep_trees(keys, ledger, level - 1, made.parent, leaf, before, progress)?;
        }
        self.keep_current(trees, ledger, level, leaf, before, progress)
    }
}
