//! A new name: room for its records and signature, its new trees, its binding, and its signature.

ghost use Rattle.std.specs.Prelude.{◌≡◌, ◌<◌, ◌-◌, [], None, Some, true, false, length, vec_capacity};
ghost use Rattle.std.specs.Prelude.{◌+◌, ◌≢◌, ◌^◌, ◌⊎◌, ℕ, IfErr, OnErr, OnOk};
ghost use Rattle.state_file.specs.Laws.{levels_of, bottom_of};
ghost use Rattle.sign_core.specs.Records.{binding_at, can_follow, free_at, has_moved, is_long, the_key};
ghost use Rattle.sign_core.specs.Progress.{types_of_key};
ghost use Rattle.sign_core.specs.inner.Bind.{Prepares};
ghost use Rattle.sign_core.specs.inner.Signing.{BindsBelow, BindsNext, CanBind, DrawsTree, Extends};
ghost use Rattle.sign_core.specs.inner.Signing.{IsReady, Stands};
ghost use Rattle.state_file.specs.declared.record.Record.TheVariants.{Extend as ExtendRecord};
ghost use Rattle.state_file.specs.Slot.{FitsVersion, file_version};
ghost use Rattle.sign_core.specs.Caches.{Cached, HasAll, HasBegun, HasLevel, KeepsOrRenews, LosesCache, cache_at};
ghost use Rattle.sign_core.specs.Ledger.{TakesMemory};
ghost use Rattle.sign_core.specs.Textbook.{HasSizes};
ghost use Rattle.sign_core.specs.inner.Caches.{HasBegunTo, KeepsDownTo, RenewsDownTo};
ghost use Rattle.sign_core.specs.inner.Signer.{Adds};
ghost use Rattle.sign_core.specs.Signer.{is_before_caches};
ghost use Rattle.sign_core.specs.Signing.{IsPrepared, KeepsCaches, KeepsCapacity, UnderKey, answered_value};
ghost use Rattle.sign_core.specs.Signing.{is_unprepared};

use super::Signer;
use crate::caches::{TreeCache, TreeRequest};
use crate::fault::SignFault;
use crate::ledger::{Binding, Ledger};
use crate::progress::{KeyProgress, TreeProgress};
use crate::secret_trees::SecretTrees;
use crate::source::{Source, draw};
use crate::trees::Tree;
use crate::writing::make_room;
use lmots::LmOts;
use lms::LmsPublic;
use state_file::{Bound, Extend, Record, Store};
use typecodes::{LmsPair, LmsSecret, Message, Name};

// Draws for a new tree of these types: I, which the records must not have yet (24), and SEED; and C for the leaf that
// signs it.
fn draw_tree<R: Source>(
    pair: LmsPair,
    random: &mut R,
    ledger: &Ledger,
) -> Result<(LmsSecret, [u8; 32]), SignFault>
    ensures { DrawsTree pair ledger.now.records (R.failures random.old) (R.failures random.new)
        (R.upcoming random.old) (R.upcoming random.new) result }
{
    let identifier = draw::<R, 16>(random)?;
    if ledger.has_identifier(&identifier) {
        return Err(SignFault::RandomRepeated);
    }
    let seed = draw::<R, 32>(random)?;
    let randomizer = draw::<R, 32>(random)?;
    Ok((LmsSecret::new(pair, identifier, seed), randomizer))
}

impl<S: Store, R: Source> Signer<S, R> {
    // Makes room for a new name's records and signature, and the missing caches; `level` is the deepest with a free
    // leaf. A signer makes each cache once, as long as its tree is current.
    #[inline(never)]
    pub(super) fn prepare<P: TreeProgress>(
        &mut self,
        level: u8,
        out: &mut Vec<u8>,
        progress: &KeyProgress<'_, P>,
    ) -> Result<(), SignFault>
        requires open { self.old.is_open ≡ true }
        requires goes_on { has_moved self.old.records ≡ false }
        requires level { UnderKey self.old.records (λ key. level < levels_of key.secret) }
        requires free { UnderKey self.old.records (λ key. 0 < free_at key.secret self.old.records level) }
        requires types { types_of_key (the_key self.old.records) ≡ Some progress.now.spec }
        ensures room { UnderKey self.old.records (Prepares (S.most self.old.store) level self.old self.new
            (vec_capacity out.old) (length out.new.items) result) }
        ensures capacity { KeepsCapacity self.old.records (vec_capacity out.old) (vec_capacity out.new) }
        ensures refused { IfErr result (λ fault. is_unprepared is_before_caches fault ≡ true) }
        ensures loses { OnErr result (UnderKey self.old.records (λ key. (self.new.cached ≡ self.old.cached)
            ⊎ LosesCache key self.old.records level (length self.old.records) self.old.cached self.new.cached)) }
        ensures prepared { OnOk result (UnderKey self.old.records (λ key. IsPrepared key self.old.records (Some level)
            (length self.old.records) self.new.cached (vec_capacity out.new))) }
        ensures renews { OnOk result (UnderKey self.old.records (λ key.
            RenewsDownTo key self.old.records level self.old.cached self.new.cached)) }
        ensures kept { OnErr result (UnderKey self.old.records (λ key.
            KeepsCaches key self.old.records self.old.cached self.new.cached result)) }
    {
        let wanted = self.ledger.key().secret.levels() - level;
        if u64::from(self.ledger.len()) + u64::from(wanted) > u64::from(self.store.limit()) {
            return Err(SignFault::LedgerFull);
        }
        make_room(&self.ledger.key().secret, out)?;
        self.ledger
            .reserve(usize::from(wanted))
            .map_err(|_| SignFault::OutOfMemory)?;
        let count = self.ledger.len();
        let trees = SecretTrees::of(&self.ledger.key().secret);
        let Some(Tree { place, next: leaf }) = self.ledger.current(level) else {
            unreachable!()
        };
        self.caches
            .keep_trees(&trees, &self.ledger, level, place, leaf, count, progress)
    }

    // Begins and records a tree below the current tree of a level, whose next leaf signs it.
    #[inline(never)]
    fn extend<P: TreeProgress>(
        &mut self,
        level: u8,
        progress: &KeyProgress<'_, P>,
    ) -> Result<(), SignFault>
        requires ready { IsReady (S.most self.old.store) 1 self.old }
        requires below { UnderKey self.old.records (λ key. level + 1 < levels_of key.secret) }
        requires stands { UnderKey self.old.records (Stands self.old.records level) }
        requires types { types_of_key (the_key self.old.records) ≡ Some progress.now.spec }
        ensures step { UnderKey self.old.records
            (Extends S.Store R.Source (level + 1) self.old self.new (answered_value result [])) }
        ensures stands { OnOk result (UnderKey self.new.records (Stands self.new.records (level + 1))) }
        ensures keeps { KeepsDownTo level self.old.cached self.new.cached }
        ensures caches { OnOk result (UnderKey self.old.records (λ key.
            HasAll key self.old.records level self.old.cached
            → HasAll key self.new.records (level + 1) self.new.cached)) }
        ensures stays { OnErr result (self.new.records ≡ self.old.records) }
        ensures stays_cached { OnErr result (self.new.cached ≡ self.old.cached) }
        ensures begun { OnOk result (UnderKey self.old.records (λ key. (start : ℕ)
            → HasBegunTo key self.old.records level start self.old.cached
            → HasBegunTo key self.new.records (level + 1) start self.new.cached)) }
        ensures renews { OnOk result (UnderKey self.old.records (λ key. (first : Cached)
            → RenewsDownTo key self.old.records level first self.old.cached
            → RenewsDownTo key self.new.records (level + 1) first self.new.cached)) }
    {
        let Some(parent) = self.ledger.current(level) else {
            unreachable!()
        };
        let SecretTrees::Chain(chain) = SecretTrees::of(&self.ledger.key().secret) else {
            unreachable!()
        };
        let below = level + 1;
        let (secret, randomizer) = draw_tree(chain.pair(below), &mut self.random, &self.ledger)?;
        let asked = TreeRequest::new(below, secret, 0, progress);
        let (root, cache) = self.caches.make_tree(asked)?;
        let public = LmsPublic::of(&secret, root).to_bytes();
        let signer = chain.secret_at(&self.ledger, parent.place);
        let (identifier, leaf) = (signer.identifier, parent.next);
        let digest = LmOts { identifier, leaf }.message_digest(&randomizer, &public);
        let extend = Extend {
            level: below,
            parent_leaf: leaf,
            identifier: secret.identifier,
            seed: secret.seed,
            randomizer,
            digest,
            root,
        };
        self.add_tree(extend, cache)
    }

    // Appends a new tree's record. Its level has the tree's cache from then on, and else the cache that it had.
    fn add_tree(&mut self, extend: Extend, cache: TreeCache<LmsSecret>) -> Result<(), SignFault>
        requires within { extend.level < 8 }
        requires open { self.old.is_open ≡ true }
        requires follows { can_follow (the_key self.old.records) self.old.records (ExtendRecord extend) ≡ true }
        requires fits { FitsVersion (file_version self.old.records) (ExtendRecord extend) }
        requires sizes { HasSizes (ExtendRecord extend) }
        requires within_limit { length self.old.records < S.most self.old.store }
        requires counted { length self.old.records < 2 ^ 32 - 1 }
        requires room { TakesMemory (ExtendRecord extend) → 0 < self.old.spare }
        ensures adds { Adds S.Store self.old self.new (ExtendRecord extend) result }
        ensures there { OnOk result (HasLevel self.new.cached extend.level cache) }
        ensures stays { OnErr result (self.new.cached ≡ self.old.cached) }
        ensures others { (k : ℕ) → k ≢ extend.level
            → cache_at self.new.cached.levels k ≡ cache_at self.old.cached.levels k }
        ensures xmss { self.new.cached.xmss ≡ self.old.cached.xmss }
    {
        let level = extend.level;
        self.add(Record::Extend(extend))?;
        self.caches.renew(level, cache);
        Ok(())
    }

    // Binds a name to the next leaf of the bottom tree: draws C, reads the message, and appends the record. Answers
    // what is kept of the binding.
    #[inline(never)]
    fn bind<M: Message>(&mut self, name: &Name, message: &mut M) -> Result<Binding, SignFault>
        requires ready { IsReady (S.most self.old.store) 1 self.old }
        requires unbound { binding_at self.old.records name.now ≡ None }
        requires fits { UnderKey self.old.records (λ key. is_long key name.now ≡ false) }
        requires free { UnderKey self.old.records (λ key.
            0 < free_at key.secret self.old.records (bottom_of key.secret)) }
        ensures step { UnderKey self.old.records (BindsNext S.Store R.Source M.Message name.now self.old self.new
            message.old message.new result) }
        ensures cached { self.new.cached ≡ self.old.cached }
        ensures stays { OnErr result (self.new.records ≡ self.old.records) }
    {
        let secret = &self.ledger.key().secret;
        let trees = SecretTrees::of(secret);
        let bottom = secret.levels() - 1;
        let Some(tree) = self.ledger.current(bottom) else {
            unreachable!()
        };
        let (place, leaf) = (self.ledger.len(), tree.next);
        // 23, 27
        let randomizer = trees.draw_randomizer(&mut self.random)?;
        let digest = trees.digest(&self.ledger, tree.place, leaf, &randomizer, message)?;
        // 29, 25
        let bound = Bound {
            name: *name,
            leaf,
            randomizer,
            digest,
        };
        self.add(Record::Bound(bound))?;
        Ok(Binding::of(&bound, place, tree.place))
    }

    // Makes a new name's records, one after the other: an Extend for each level below one with a free leaf, and the
    // Bound. Then it writes the signature.
    #[inline(never)]
    pub(super) fn bind_below<M: Message, P: TreeProgress>(
        &mut self,
        level: u8,
        name: &Name,
        message: &mut M,
        out: &mut [u8],
        progress: &KeyProgress<'_, P>,
    ) -> Result<(), SignFault>
        requires can { UnderKey self.old.records (λ key. CanBind (S.most self.old.store) (levels_of key.secret - level)
            name.now (length out.old) self.old) }
        requires stands { UnderKey self.old.records (Stands self.old.records level) }
        requires types { types_of_key (the_key self.old.records) ≡ Some progress.now.spec }
        ensures step { UnderKey self.old.records (λ key. BindsBelow S.Store R.Source M.Message name.now
            (bottom_of key.secret - level) self.old self.new message.old message.new
            (answered_value result out.new) key) }
        ensures keeps { KeepsDownTo level self.old.cached self.new.cached }
        ensures caches { OnOk result (UnderKey self.old.records (λ key.
            HasAll key self.old.records level self.old.cached
            → HasAll key self.new.records (bottom_of key.secret) self.new.cached)) }
        ensures begun { UnderKey self.old.records (λ key. (start : ℕ)
            → HasBegunTo key self.old.records level start self.old.cached
            → HasBegun key self.new.records start self.new.cached) }
        ensures renews { UnderKey self.old.records (λ key. (first : Cached)
            → RenewsDownTo key self.old.records level first self.old.cached
            → KeepsOrRenews key self.new.records first self.new.cached) }
    {
        let levels = self.ledger.key().secret.levels();
        if level + 1 < levels {
            self.extend(level, progress)?;
            // For the prover: a signer that recorded an Extend is open, and so its store runs.
            prove!(self.is_open);
            return self.bind_below(level + 1, name, message, out, progress);
        }
        let binding = self.bind(name, message)?;
        // Never refuses: the records of all trees down to the bottom are sound.
        SecretTrees::of(&self.ledger.key().secret)
            .write_bound(&self.ledger, &mut self.caches, &binding, out, progress)
            .map_err(SignFault::Damaged)
    }
}
