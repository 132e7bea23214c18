//! The current trees of a key's levels, in memory.

ghost use Rattle.std.specs.Prelude.{◌≡◌, ◌<◌, ◌+◌, ◌^◌, [], ◌∷◌};
ghost use Rattle.state_file.specs.declared.record.Key.{Key};
ghost use Rattle.state_file.specs.declared.record.Record.TheVariants.{Key as KeyRecord};
ghost use Rattle.state_file.specs.declared.record.Secret.{Secret};

/// A current tree: the place of the record that makes it, and its next leaf.
#[derive(Clone, Copy)]
pub(crate) struct Tree {
    pub(crate) place: u32,
    pub(crate) next: u32,
}

/// The current trees of the levels, from the top down.
#[derive(Clone, Copy)]
pub(crate) struct CurrentTrees {
    levels: [Option<Tree>; 8],
}

impl CurrentTrees {
    ghost use Rattle.sign_core.specs.inner.Trees.{IsBegun, IsRaised, place_of};
    ghost use Rattle.sign_core.specs.Trees.{kept_at};
    ghost use Rattle.sign_core.specs.inner.Trees.{FollowsExtend};
    ghost use Rattle.sign_core.specs.Trees.{HasTrees};

    /// The trees of a Key alone: its own tree, with no leaf used.
    pub(crate) fn of_key() -> Self
        ensures { (secret : Secret) (key : Key) → HasTrees secret (KeyRecord key ∷ []) result.levels }
    {
        let mut levels = [None; 8];
        levels[0] = Some(Tree { place: 0, next: 0 });
        CurrentTrees { levels }
    }

    pub(crate) fn get(&self, level: usize) -> Option<Tree>
        requires { level < 8 }
        ensures { result ≡ kept_at self.now.levels level }
    {
        self.levels[level]
    }

    /// The place of a level's tree; 0 where it has none.
    pub(crate) fn place(&self, level: usize) -> u32
        requires { level < 8 }
        ensures { result ≡ place_of (kept_at self.now.levels level) }
    {
        self.get(level).map_or(0, |tree| tree.place)
    }

    // Begins a level's tree. The trees below it are no longer current.
    fn make(&mut self, level: usize, place: u32)
        requires { level < 8 }
        ensures { IsBegun self.old.levels level place self.new.levels }
    {
        let mut levels = [None; 8];
        for higher in 0..level {
            levels[higher] = self.levels[higher];
        }
        levels[level] = Some(Tree { place, next: 0 });
        self.levels = levels;
    }

    /// Raises the next leaf of a level's tree to at least this number.
    pub(crate) fn raise(&mut self, level: usize, next: u32)
        requires { level < 8 }
        ensures { IsRaised self.old.levels level next self.new.levels }
    {
        if let Some(Tree { place, next: last }) = self.levels[level] {
            let next = last.max(next);
            self.levels[level] = Some(Tree { place, next });
        }
    }

    /// Takes up an Extend, which names a leaf of the level above and makes a tree of its own.
    pub(crate) fn extend(&mut self, level: usize, parent_leaf: u32, place: u32)
        requires below { 0 < level }
        requires within_limit { level < 8 }
        requires leaf { parent_leaf + 1 < 2 ^ 32 }
        ensures { FollowsExtend self.old.levels level parent_leaf place self.new.levels }
    {
        self.raise(level - 1, parent_leaf + 1);
        self.make(level, place);
    }
}
