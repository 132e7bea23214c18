//! The signature of a bound name, again.

ghost use Rattle.std.specs.Prelude.{◌≡◌, List, ℕ, Some, vec_capacity};
ghost use Rattle.sign_core.specs.Signer.{KeepsForRepeat, is_before_repeat, is_fault, state_of};
ghost use Rattle.sign_core.specs.inner.Signing.{IsBindingOf, IsSomeBinding, RepeatsBinding};
ghost use Rattle.sign_core.specs.Records.{binding_at, the_key};
ghost use Rattle.sign_core.specs.Progress.{types_of_key};
ghost use Rattle.sign_core.specs.Signing.{KeepsCaches, KeepsCapacity, LeavesCaches, MakesCaches, UnderKey};
ghost use Rattle.sign_core.specs.Signing.{answered_value};

use super::Signer;
use crate::caches::TreeRequest;
use crate::fault::SignFault;
use crate::ledger::Binding;
use crate::progress::{KeyProgress, TreeProgress};
use crate::secret_trees::SecretTrees;
use crate::source::Source;
use crate::writing::make_room;
use arrayvec::ArrayVec;
use hss::Level;
use state_file::Store;
use typecodes::Message;

impl<S: Store, R: Source> Signer<S, R> {
    // The signature of a bound name, if the message has the recorded digest. Only caches change.
    #[inline(never)]
    pub(super) fn repeat<M: Message, P: TreeProgress>(
        &mut self,
        binding: &Binding,
        message: &mut M,
        out: &mut Vec<u8>,
        progress: &KeyProgress<'_, P>,
    ) -> Result<(), SignFault>
        requires kept { IsSomeBinding self.old.records binding.now }
        requires types { types_of_key (the_key self.old.records) ≡ Some progress.now.spec }
        ensures step { RepeatsBinding M.Message (state_of self.old) self.old.cached binding.now message.old message.new
            (vec_capacity out.old) (answered_value result out.new.items) }
        ensures capacity { KeepsCapacity self.old.records (vec_capacity out.old) (vec_capacity out.new) }
        ensures keeps { KeepsForRepeat self.old self.new (is_fault is_before_repeat result) }
        ensures caches { UnderKey self.old.records (λ key. (name : List ℕ)
            → IsBindingOf self.old.records binding.now key name → MakesCaches key self.old.records
            (binding_at self.old.records name) self.new.cached (vec_capacity out.new) result) }
        ensures refused { UnderKey self.old.records (λ key. (name : List ℕ)
            → IsBindingOf self.old.records binding.now key name → LeavesCaches key self.old.records self.new.records
            (binding_at self.old.records name) self.old.cached self.new.cached result) }
        ensures kept { UnderKey self.old.records (λ key.
            KeepsCaches key self.old.records self.old.cached self.new.cached result) }
    {
        let secret = &self.ledger.key().secret;
        let trees = SecretTrees::of(secret);
        let (tree, leaf, place) = (binding.tree, binding.leaf, binding.place);
        let bottom = secret.levels() - 1;
        // 27, 21
        let digest = trees.digest(&self.ledger, tree, leaf, &binding.randomizer, message)?;
        if digest != binding.digest {
            return Err(SignFault::Changed);
        }
        // 29
        make_room(secret, out)?;
        self.caches
            .keep_trees(&trees, &self.ledger, bottom, tree, leaf, place, progress)?;
        // 28
        trees
            .write_bound(&self.ledger, &mut self.caches, binding, out, progress)
            .map_err(SignFault::Damaged)?;
        Ok(())
    }
}
