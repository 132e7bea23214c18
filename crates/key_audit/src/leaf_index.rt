//! The leaves that earlier signatures used, with their digests.

ghost use Rattle.std.specs.Prelude.{◌≡◌, [], Contains, OnOk};
ghost use Rattle.key_audit.specs.inner.LeafIndex.{AddsUse, AddsUses, AreKept, IsFirstConflict};
ghost use Rattle.key_audit.specs.inner.LeafIndex.{conflict_at, min_some};

use crate::leaf::Leaf;
use crate::uses::LeafUse;
use std::alloc::{AllocError, Global};
use std::collections::HashMap;

/// What is kept of a leaf: the first signature that uses it, its digest, and whether no use has another digest.
#[derive(Clone, Copy)]
pub(crate) struct FirstUse {
    pub(crate) place: usize,
    pub(crate) digest: [u8; 32],
    pub(crate) one_digest: bool,
}

/// An index of used leaves.
#[derive(Drop)]
pub(crate) struct LeafIndex {
    entries: HashMap<Leaf, FirstUse>,
}

impl LeafIndex {
    /// An empty index.
    pub(crate) fn new(alloc: Global) -> Self
        ensures { AreKept (Contains []) result.entries }
    {
        LeafIndex {
            entries: HashMap::new(alloc),
        }
    }

    // The first signature that used the leaf, if any use had another digest.
    fn conflict_of_use(&self, used: &LeafUse) -> Option<usize>
        ensures { result ≡ conflict_at self.now.entries used.now }
    {
        let first = self.entries.get(&used.leaf)?;
        if first.one_digest && first.digest == used.digest {
            None
        } else {
            Some(first.place)
        }
    }

    /// The least `conflict_of_use` of these leaves.
    pub(crate) fn first_conflict(&self, uses: &[LeafUse]) -> Option<usize>
        ensures { IsFirstConflict self.now.entries uses.now result }
    {
        let mut least = None;
        for used in uses {
            least = min_some(least, self.conflict_of_use(used));
        }
        least
    }

    // Adds one use. Without memory for it, nothing changes.
    fn add_use(&mut self, used: &LeafUse, place: usize) -> Result<(), AllocError>
        ensures { OnOk result (AddsUse place used.now self.old.entries self.new.entries) }
    {
        let first = match self.entries.get(&used.leaf) {
            Some(first) => FirstUse {
                one_digest: first.one_digest && first.digest == used.digest,
                ..*first
            },
            None => FirstUse {
                place,
                digest: used.digest,
                one_digest: true,
            },
        };
        match self.entries.insert(used.leaf.copied(), first) {
            Ok(_) => Ok(()),
            Err(_) => Err(AllocError),
        }
    }

    /// Adds the uses of a signature, whose place is after all earlier ones. Refused where memory is.
    pub(crate) fn add(&mut self, uses: &[LeafUse], place: usize) -> Result<(), AllocError>
        ensures { OnOk result (AddsUses place uses.now self.old.entries self.new.entries) }
    {
        for used in uses {
            self.add_use(used, place)?;
        }
        Ok(())
    }
}

// The lesser of two places.
fn min_some(a: Option<usize>, b: Option<usize>) -> Option<usize>
    ensures { result ≡ min_some a b }
{
    match (a, b) {
        (Some(a), Some(b)) => Some(a.min(b)),
        (Some(a), None) => Some(a),
        (None, b) => b,
    }
}
