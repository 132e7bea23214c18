//! `sign`: the steps of a request, and what refuses it at each.

ghost use Rattle.std.specs.Prelude.{◌≡◌, ◌<◌, [], None, Some, length, vec_capacity, IsSome, OnErr, OnOk};
ghost use Rattle.std.specs.Prelude.{◌≤◌, ◌↔◌};
ghost use Rattle.typecodes.specs.declared.secret.XmssSecret.{XmssSecret as X};
ghost use Rattle.sign_core.specs.Caches.{HasAll, HasBegun, HasCurrent};
ghost use Rattle.sign_core.specs.Textbook.{Trees, trees_of};
ghost use Rattle.state_file.specs.Laws.{bottom_of, levels_of};
ghost use Rattle.sign_core.specs.Records.{binding_at, the_key};
ghost use Rattle.sign_core.specs.Progress.{types_of_key};
ghost use Rattle.sign_core.specs.Signer.{KeepsForRepeat, Signs, is_before_repeat, is_fault};
ghost use Rattle.sign_core.specs.Signing.{IsXmssKey, KeepsCaches, KeepsCapacity, LeavesCaches};
ghost use Rattle.sign_core.specs.Signing.{MakesCaches, UnderKey, answered_value};

use super::Signer;
use crate::fault::SignFault;
use crate::ledger::Ledger;
use crate::progress::{KeyProgress, TreeProgress};
use crate::secret_trees::SecretTrees;
use crate::source::Source;
use lmots::LmOts;
use merkle::Silent;
use state_file::Store;
use typecodes::{Message, Name};
use xmss::message_digest_from;

impl<S: Store, R: Source> Signer<S, R> {
    /// How many leaves the cache of a level's current tree has made, at most `u64::MAX`; None where the level has no
    /// cache of its current tree.
    ///
    /// The contract says where there is a cache. No signature depends on caches, so the rest is tested: the number is
    /// the cache's count of leaves, a signer uses its caches, and one just made or opened has none.
    pub fn cache_leaves(&self, level: u8) -> Option<u64>
        ensures no_level { UnderKey self.now.records (λ key. levels_of key.secret ≤ level → result ≡ None) }
        ensures chain { UnderKey self.now.records (λ key. (trees : Trees) → trees_of key.secret ≡ Some trees →
            level < levels_of key.secret → IsSome result ↔ HasCurrent trees self.now.records level self.now.cached) }
        ensures xmss { UnderKey self.now.records (λ key. (secret : X) → IsXmssKey secret key → level ≡ 0 →
            IsSome result ↔ (self.now.cached.xmss ≡ Some secret)) }
    {
        let secret = &self.ledger.key().secret;
        if level >= secret.levels() {
            return None;
        }
        match SecretTrees::of(secret) {
            SecretTrees::Chain(trees) => {
                let tree = self.ledger.current(level)?;
                let secret = trees.secret_at(&self.ledger, tree.place);
                self.caches.leaves(level, &secret)
            }
            SecretTrees::Xmss(secret) => self.caches.xmss_leaves(&secret),
        }
    }

    /// Signs a message under a name: writes the signature's bytes over `out`. A bound name has one digest and one
    /// signature (21 for another message). A new name takes the next leaf, and is bound in the store before it signs.
    ///
    /// Refusals in their order: 26, 31. Under a bound name then 27, 21, 29, 28. Under a new one then 33, 22, 30, 29,
    /// 28; for each new tree 23 for I, 24, 23 for SEED and C, 29 for its cache, 25; and 23 for C, 27, 25. 29 also comes
    /// where the store answers 46 to an append. After a refusal `out` is empty.
    ///
    /// Once the binding's append has answered Ok, `sign` answers Ok. It draws I, SEED and C for each new tree and C for
    /// the binding; for XMSS it draws nothing. The message is read to its end, or can't be read (27), or is as it was.
    /// A message takes no memory, however long it is (`tests/run` counts the growths). After 28, Ok and later failures
    /// but 29, `out` has room for a signature, and the caches are there that the request needed. 29 leaves the caches
    /// as they were; or a level has none, those above it have theirs, and those below are as they were; or a new name
    /// has all that it needs, and a later step was refused. After the Ok of a new name each current tree has its cache.
    /// A new tree whose record is acknowledged has its cache, whatever is answered. Each other level has the cache that
    /// it had or its current tree's, but for the 29 that left it none.
    pub fn sign<M: Message>(
        &mut self,
        name: &Name,
        message: &mut M,
        out: &mut Vec<u8>,
    ) -> Result<(), SignFault>
        ensures step { Signs S.Store R.Source M.Message self.old self.new name.now message.old message.new
            (vec_capacity out.old) (answered_value result out.new.items) }
        ensures empty { OnErr result (out.new.items ≡ []) }
        ensures capacity { KeepsCapacity self.old.records (vec_capacity out.old) (vec_capacity out.new) }
        // A request for a bound name changes only caches, and with 21 and 27 not even these.
        ensures repeat { IsSome (binding_at self.old.records name.now) →
            KeepsForRepeat self.old self.new (is_fault is_before_repeat result) }
        ensures caches { UnderKey self.old.records (λ key. MakesCaches key self.old.records
            (binding_at self.old.records name.now) self.new.cached (vec_capacity out.new) result) }
        ensures refused { UnderKey self.old.records (λ key. LeavesCaches key self.old.records self.new.records
            (binding_at self.old.records name.now) self.old.cached self.new.cached result) }
        ensures signed { OnOk result (UnderKey self.old.records (λ key. binding_at self.old.records name.now ≡ None
            → HasAll key self.new.records (bottom_of key.secret) self.new.cached)) }
        ensures begun { UnderKey self.old.records (λ key.
            HasBegun key self.new.records (length self.old.records) self.new.cached) }
        ensures kept { UnderKey self.old.records (λ key.
            KeepsCaches key self.new.records self.old.cached self.new.cached result) }
    {
        let silent = Silent::new();
        let progress = KeyProgress::of(&self.spec(), &silent);
        self.sign_telling(name, message, out, &progress)
    }

    /// As `sign`, telling the progress of each tree that is made: a current or new one, or for a bound name an earlier
    /// one. It isn't told of a further block of a cache.
    pub fn sign_telling<M: Message, P: TreeProgress>(
        &mut self,
        name: &Name,
        message: &mut M,
        out: &mut Vec<u8>,
        progress: &KeyProgress<'_, P>,
    ) -> Result<(), SignFault>
        requires types { types_of_key (the_key self.old.records) ≡ Some progress.now.spec }
        ensures step { Signs S.Store R.Source M.Message self.old self.new name.now message.old message.new
            (vec_capacity out.old) (answered_value result out.new.items) }
        ensures empty { OnErr result (out.new.items ≡ []) }
        ensures capacity { KeepsCapacity self.old.records (vec_capacity out.old) (vec_capacity out.new) }
        ensures repeat { IsSome (binding_at self.old.records name.now) →
            KeepsForRepeat self.old self.new (is_fault is_before_repeat result) }
        ensures caches { UnderKey self.old.records (λ key. MakesCaches key self.old.records
            (binding_at self.old.records name.now) self.new.cached (vec_capacity out.new) result) }
        ensures refused { UnderKey self.old.records (λ key. LeavesCaches key self.old.records self.new.records
            (binding_at self.old.records name.now) self.old.cached self.new.cached result) }
        ensures signed { OnOk result (UnderKey self.old.records (λ key. binding_at self.old.records name.now ≡ None
            → HasAll key self.new.records (bottom_of key.secret) self.new.cached)) }
        ensures begun { UnderKey self.old.records (λ key.
            HasBegun key self.new.records (length self.old.records) self.new.cached) }
        ensures kept { UnderKey self.old.records (λ key.
            KeepsCaches key self.new.records self.old.cached self.new.cached result) }
    {
        let signed = self.sign_into(name, message, out, progress);
        cleared_at_fault(signed, out)
    }

    // As `sign_telling`, without clearing `out` on error.
    //
    // Not inlined. Nor are the steps that make trees or hold a chain: these run one after the other, and in one
    // function their frames would add up. Nor `bind` and `extend`, since `bind_below` calls itself.
    #[inline(never)]
    fn sign_into<M: Message, P: TreeProgress>(
        &mut self,
        name: &Name,
        message: &mut M,
        out: &mut Vec<u8>,
        progress: &KeyProgress<'_, P>,
    ) -> Result<(), SignFault>
        requires types { types_of_key (the_key self.old.records) ≡ Some progress.now.spec }
        ensures step { Signs S.Store R.Source M.Message self.old self.new name.now message.old message.new
            (vec_capacity out.old) (answered_value result out.new.items) }
        ensures capacity { KeepsCapacity self.old.records (vec_capacity out.old) (vec_capacity out.new) }
        ensures repeat { IsSome (binding_at self.old.records name.now) →
            KeepsForRepeat self.old self.new (is_fault is_before_repeat result) }
        ensures caches { UnderKey self.old.records (λ key. MakesCaches key self.old.records
            (binding_at self.old.records name.now) self.new.cached (vec_capacity out.new) result) }
        ensures refused { UnderKey self.old.records (λ key. LeavesCaches key self.old.records self.new.records
            (binding_at self.old.records name.now) self.old.cached self.new.cached result) }
        ensures signed { OnOk result (UnderKey self.old.records (λ key. binding_at self.old.records name.now ≡ None
            → HasAll key self.new.records (bottom_of key.secret) self.new.cached)) }
        ensures begun { UnderKey self.old.records (λ key.
            HasBegun key self.new.records (length self.old.records) self.new.cached) }
        ensures kept { UnderKey self.old.records (λ key.
            KeepsCaches key self.new.records self.old.cached self.new.cached result) }
    {
        // 26, 31
        self.check_open()?;
        if let Some(binding) = self.ledger.find(name) {
            // 27, 21, 29, 28
            return self.repeat(&binding, message, out, progress);
        }
        // 33, 22
        if name.as_bytes().len() > usize::from(self.ledger.key().version.name_most()) {
            return Err(SignFault::LongName);
        }
        let level = self.ledger.deepest().ok_or(SignFault::Exhausted)?;
        // 30, 29
        self.prepare(level, out, progress)?;
        // 28
        let trees = SecretTrees::of(&self.ledger.key().secret);
        trees
            .check_current(&self.ledger, &mut self.caches, level, progress)
            .map_err(SignFault::Damaged)?;
        // 23, 24, 23, 29 and 25 for each tree; 23, 27, 25
        self.bind_below(level, name, message, out, progress)
    }
}

// The answer. Where it is a fault, the output is emptied.
fn cleared_at_fault(signed: Result<(), SignFault>, out: &mut Vec<u8>) -> Result<(), SignFault>
    ensures answer { result ≡ signed }
    ensures capacity { vec_capacity out.new ≡ vec_capacity out.old }
    ensures empty { OnErr result (out.new.items ≡ []) }
    ensures stays { OnOk result (out.new.items ≡ out.old.items) }
{
    if signed.is_err() {
        out.clear();
    }
    signed
}
