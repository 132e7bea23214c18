//! The trees of a key of any scheme: what a message's digest, a binding's C and its signature are by them.

ghost use Rattle.std.specs.Prelude.{◌≡◌, ◌<◌, ℕ, None, Some, length, IfErr, OnOk};
ghost use Rattle.typecodes.specs.Message.{Digests};
ghost use Rattle.state_file.specs.Laws.{bottom_of, levels_of};
ghost use Rattle.state_file.specs.declared.record.Bound.{Bound};
ghost use Rattle.state_file.specs.declared.record.Secret.{Secret};
ghost use Rattle.sign_core.specs.Ledger.{kept_of};
ghost use Rattle.sign_core.specs.Records.{free_at, types_of};
ghost use Rattle.sign_core.specs.Signer.{signature_size};
ghost use Rattle.sign_core.specs.Textbook.{damaged_at, digest_at, current_at, textbook_signature};
ghost use Rattle.sign_core.specs.inner.KeyTrees.{MakesTrees};
ghost use Rattle.sign_core.specs.inner.Signing.{DrawsRandomizer, IsSomeBinding};

use crate::caches::{Caches, TreeRequest};
use crate::fault::SignFault;
use crate::key_trees::KeyTrees;
use crate::ledger::{Binding, Ledger};
use crate::progress::{KeyProgress, TreeProgress};
use crate::source::{Source, draw};
use crate::writing::write_chain;
use arrayvec::ArrayVec;
use hss::Level;
use lmots::LmOts;
use state_file::Secret;
use typecodes::{Levels, LmsSecret, Message, XmssSecret};
use xmss::message_digest_from;

/// The trees of a key of any scheme: those of LMS or HSS, or the one tree of XMSS.
#[derive(Drop)]
pub(crate) enum SecretTrees {
    Chain(KeyTrees),
    Xmss(XmssSecret),
}

impl SecretTrees {
    /// The trees of a key. An LMS key has one level.
    pub(crate) fn of(secret: &Secret) -> Self
        ensures { MakesTrees secret.now result }
    {
        match secret {
            Secret::Lms(top) => SecretTrees::Chain(KeyTrees {
                top: *top,
                levels: Levels::one(top.pair),
            }),
            Secret::Hss {
                levels,
                identifier,
                seed,
            } => SecretTrees::Chain(KeyTrees {
                top: LmsSecret::new(levels.as_slice()[0], *identifier, *seed),
                levels: levels.copied(),
            }),
            Secret::Xmss(secret) => SecretTrees::Xmss(*secret),
        }
    }

    /// Checks that the records of the current trees are sound, down to a level with a free leaf. Or answers the place
    /// of the first one that isn't.
    #[inline(never)]
    pub(crate) fn check_current<P: TreeProgress>(
        &self,
        ledger: &Ledger,
        caches: &mut Caches,
        level: u8,
        progress: &KeyProgress<'_, P>,
    ) -> Result<(), u32>
        requires trees { MakesTrees ledger.now.key.secret self.now }
        requires level { level < levels_of ledger.now.key.secret }
        requires within_limit { level < 8 }
        requires free { 0 < free_at ledger.now.key.secret ledger.now.records level }
        requires types { progress.now.spec ≡ types_of ledger.now.key.secret }
        ensures sound { OnOk result (damaged_at ledger.now.key level ledger.now.records
            (current_at level ledger.now.records (length ledger.now.records)) ≡ None) }
        ensures damaged { IfErr result (λ k. damaged_at ledger.now.key level ledger.now.records
            (current_at level ledger.now.records (length ledger.now.records)) ≡ Some k) }
        ensures caches { caches.new ≡ caches.old }
    {
        let key = ledger.key();
        let Some(tree) = ledger.current(level) else {
            unreachable!()
        };
        match self {
            SecretTrees::Chain(trees) => {
                let (place, leaf) = (tree.place, tree.next);
                let mut above = ArrayVec::new();
                trees.chain_to(ledger, caches, level, place, leaf, &mut above, progress)?;
                Ok(())
            }
            SecretTrees::Xmss(secret) => {
                let mut nodes = [[0; 32]; 20];
                let path = &mut nodes[..usize::from(secret.tree.height())];
                let asked = TreeRequest::new(0, *secret, tree.next, progress);
                caches.xmss_path(asked, &key.root, path)
            }
        }
    }

    /// The digest of a message by a leaf of the tree at a place: Q with this C, or M' with the leaf's own randomizer.
    pub(crate) fn digest<M: Message>(
        &self,
        ledger: &Ledger,
        place: u32,
        leaf: u32,
        randomizer: &[u8; 32],
        message: &mut M,
    ) -> Result<[u8; 32], SignFault>
        requires { MakesTrees ledger.now.key.secret self.now }
        ensures digest { (k : ℕ) → current_at (bottom_of ledger.now.key.secret) ledger.now.records k ≡ place →
            Digests M.transition M.remaining (digest_at ledger.now.key ledger.now.records k leaf randomizer.now) result
            message.old message.new }
        ensures fault { IfErr result (λ fault. fault ≡ SignFault.MessageRead) }
    {
        let key = ledger.key();
        let digest = match self {
            SecretTrees::Chain(trees) => {
                let identifier = trees.secret_at(ledger, place).identifier;
                LmOts { identifier, leaf }.message_digest_from(randomizer, message)
            }
            SecretTrees::Xmss(secret) => {
                let randomizer = xmss::randomizer(secret, leaf);
                message_digest_from(&randomizer, &key.root, leaf, message)
            }
        };
        digest.map_err(|_| SignFault::MessageRead)
    }

    /// C for a binding. Under XMSS nothing is drawn, and zeros are recorded.
    pub(crate) fn draw_randomizer<R: Source>(&self, random: &mut R) -> Result<[u8; 32], SignFault>
        ensures { (secret : Secret) → MakesTrees secret self.now → DrawsRandomizer secret (R.failures random.old)
            (R.failures random.new) (R.upcoming random.old) (R.upcoming random.new) result }
    {
        match self {
            SecretTrees::Chain(_) => draw(random),
            SecretTrees::Xmss(_) => Ok([0; 32]),
        }
    }

    /// Writes the signature of a binding over the whole of `out`. Or answers the place of the first record of its trees
    /// that isn't sound.
    #[inline(never)]
    pub(crate) fn write_bound<P: TreeProgress>(
        &self,
        ledger: &Ledger,
        caches: &mut Caches,
        binding: &Binding,
        out: &mut [u8],
        progress: &KeyProgress<'_, P>,
    ) -> Result<(), u32>
        requires trees { MakesTrees ledger.now.key.secret self.now }
        requires kept { IsSomeBinding ledger.now.records binding.now }
        requires room { length out.old ≡ signature_size ledger.now.key.secret }
        requires types { progress.now.spec ≡ types_of ledger.now.key.secret }
        ensures sound { OnOk result (damaged_at ledger.now.key (bottom_of ledger.now.key.secret) ledger.now.records
            binding.now.tree ≡ None) }
        ensures damaged { IfErr result (λ k. damaged_at ledger.now.key (bottom_of ledger.now.key.secret)
            ledger.now.records binding.now.tree ≡ Some k) }
        ensures signature { OnOk result ((k : ℕ) (bound : Bound)
            → kept_of ledger.now.key.secret ledger.now.records (k, bound) ≡ binding.now
            → out.new ≡ textbook_signature ledger.now.key ledger.now.records k bound) }
        ensures caches { caches.new ≡ caches.old }
    {
        let key = ledger.key();
        let (tree, leaf, digest) = (binding.tree, binding.leaf, binding.digest);
        match self {
            SecretTrees::Chain(trees) => {
                let level = key.secret.levels() - 1;
                let mut above = ArrayVec::new();
                let tree = trees.chain_to(ledger, caches, level, tree, leaf, &mut above, progress)?;
                let last = Level::new(tree, binding.randomizer, digest);
                write_chain(&key.secret, &above, &last, out);
                Ok(())
            }
            SecretTrees::Xmss(secret) => {
                let mut nodes = [[0; 32]; 20];
                let path = &mut nodes[..usize::from(secret.tree.height())];
                let request = TreeRequest::new(0, *secret, leaf, progress);
                caches.xmss_path(request, &key.root, path)?;
                let randomizer = xmss::randomizer(secret, leaf);
                xmss::write_signature(secret, leaf, &randomizer, &digest, path, out);
                Ok(())
            }
        }
    }
}
