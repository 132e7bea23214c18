//! Telling how many leaves of a tree were made.

ghost use Rattle.std.specs.Prelude.{◌≡◌, ◌≤◌, ◌<◌, ◌-◌, ◌^◌, ℕ, min};

use crate::tree::{LANES, NodeHash, TreeHash};

/// Hears how many leaves were made, in rising numbers. It can't change the tree.
pub trait Progress {
    // the last number told, 0 before the first
    ghost told: { Self → ℕ };

    // the greatest number that it may be told
    ghost most: { Self → ℕ };

    /// `made` leaves of the tree were made until now.
    fn tell(&mut self, made: u64)
        requires rising { told self.old < made }
        requires at_most { made ≤ most self.old }
        ensures told { told self.new ≡ made }
        ensures most { most self.new ≡ most self.old };
}

/// Keeps the last number that it was told, and does nothing else.
#[derive(Clone, Copy, Debug, Drop)]
pub struct Silent {
    told: u64,
}

impl Silent {
    /// Was told of no leaf.
    pub const fn new() -> Self
        ensures { result.told ≡ 0 }
    {
        Silent { told: 0 }
    }
}

impl Progress for Silent {
    ghost told = { λ silent. silent.told };

    ghost most = { λ _. 2 ^ 64 - 1 };

    fn tell(&mut self, made: u64) {
        self.told = made;
    }
}

/// A tree that tells how many leaves were made: after each leaf, and after each eight that are made together. It tells
/// of no more leaves than the tree has.
#[derive(Drop)]
pub struct Told<T: TreeHash, P: Progress> {
    tree: T,
    progress: P,
    // How many leaves the tree has made, or the greatest u64.
    made: u64,
    // How many leaves the tree has.
    most: u64,
    ghost counted: { made ≡ min (T.made tree) (2 ^ 64 - 1) },
    ghost told: { P.told progress ≡ min made most },
    ghost within: { most ≤ P.most progress },
}

impl<T: TreeHash, P: Progress> Told<T, P> {
    /// Wraps a tree of this many leaves that has made none, and a progress that has heard of none.
    pub fn new(tree: T, progress: P, leaves: u64) -> Self
        requires fresh { T.made tree ≡ 0 }
        requires untold { P.told progress ≡ 0 }
        requires within { leaves ≤ P.most progress }
        ensures tree { result.tree ≡ tree }
        ensures most { result.most ≡ leaves }
    {
        Told {
            tree,
            progress,
            made: 0,
            most: leaves,
        }
    }

    /// The tree, and the progress that was told of each leaf made.
    pub fn into_parts(self) -> (T, P)
        ensures tree { result.0 ≡ self.tree }
        ensures told { P.told result.1 ≡ min (T.made self.tree) self.most }
    {
        let Told { tree, progress, .. } = self;
        (tree, progress)
    }
}

// Tells of `made` leaves, unless `told`, the last number told, is as great.
fn tell_more<P: Progress>(progress: &mut P, told: u64, made: u64)
    requires last { P.told progress.old ≡ told }
    requires rising { told ≤ made }
    requires at_most { made ≤ P.most progress.old }
    ensures told { P.told progress.new ≡ made }
    ensures most { P.most progress.new ≡ P.most progress.old }
{
    if told < made {
        progress.tell(made);
    }
}

impl<T: TreeHash, P: Progress> NodeHash for Told<T, P> {
    ghost join_of = { λ told. T.join_of told.tree };

    fn join(&self, height: u8, index: u32, left: &[u8; 32], right: &[u8; 32]) -> [u8; 32] {
        self.tree.join(height, index, left, right)
    }
}

impl<T: TreeHash, P: Progress> TreeHash for Told<T, P> {
    ghost leaf_of = { λ told. T.leaf_of told.tree };

    ghost made = { λ told. T.made told.tree };

    ghost most = { λ told. told.most };

    fn leaf(&mut self, i: u32) -> [u8; 32] {
        let leaf = self.tree.leaf(i);
        let made = self.made.saturating_add(1);
        let (told, now) = (self.made.min(self.most), made.min(self.most));
        self.made = made;
        tell_more(&mut self.progress, told, now);
        leaf
    }

    fn leaves_in_lanes(&mut self, first: u32) -> [[u8; 32]; LANES] {
        let leaves = self.tree.leaves_in_lanes(first);
        let made = self.made.saturating_add(LANES as u64);
        let (told, now) = (self.made.min(self.most), made.min(self.most));
        self.made = made;
        tell_more(&mut self.progress, told, now);
        leaves
    }
}
