//! A tree that is made once, with enough nodes kept that a path costs few leaves.

ghost use Rattle.std.specs.Prelude.{◌≡◌, ◌==◌, ◌≤◌, ◌<◌, ◌+◌, ◌-◌, ◌/◌, ◌^◌, IfErr, IfOk, length, min, vec_len};
ghost use Rattle.std.specs.Prelude.{if◌then◌else◌};
ghost use Rattle.merkle.specs.Cache.{KeepsNodes, block_height};
ghost use Rattle.merkle.specs.Tree.{path_at, root_of};

use crate::nodes::{make_around, make_nodes, read_path};
use crate::out_of_memory::{OutOfMemory, Untold};
use crate::progress::{Progress, Silent, Told};
use crate::tree::TreeHash;
use std::alloc::Global;
use std::marker::Model;

/// A tree with its root and some of its nodes, so that paths cost few leaves.
///
/// Let b be half of the tree's height, rounded down. A block is a node of height b with all nodes and the `2^b` leaves
/// under it. Kept are the nodes from height b upwards, and one block: `2^(height - b + 1) + 2^(b + 1) - 2` nodes of 32
/// bytes. Memory is taken when the cache is made, and by no other call.
// Requirement: RFC 8391 4.1.9, cached path
#[derive(Drop)]
pub struct PathCache<T: TreeHash> {
    tree: T,
    height: u8,
    upper: Vec<[u8; 32]>,
    block: Vec<[u8; 32]>,
    // The index of the kept block, from the left.
    kept_index: u32,
    // How many leaves the tree has made, or the greatest u64.
    leaves: u64,
}

impl<T: TreeHash> Model for PathCache<T> {
    ghost use Rattle.merkle.specs.Cache.{IsCache, View, view_of};

    ghost Value = { View T };

    ghost view = { λ s. view_of s.tree s.height s.upper.items s.block.items s.kept_index };

    ghost invariant = { λ s. IsCache {T = T} (T.leaf_of s.tree) (T.join_of s.tree) (T.made s.tree) s.leaves
        (view_of s.tree s.height s.upper.items s.block.items s.kept_index) };
}

impl<T: TreeHash> PathCache<T> {
    /// The cache of a tree that has made no leaf. Each leaf is made once, and the first block is kept. The caller keeps
    /// the height at most 25. `Err` if memory is refused; the tree is dropped then. That nothing else is refused is
    /// tested (`tests::trees::memory` of `crates/scheme_tests`), and no clause says it.
    pub fn new(alloc: Global, tree: T, height: u8) -> Result<PathCache<T>, OutOfMemory>
    where
        T: Drop,
        requires at_most_25 { height ≤ 25 }
        requires fresh { T.made tree ≡ 0 }
        ensures counted { IfOk result (λ cache. T.made cache.tree ≡ 2 ^ height) }
        ensures leaves { IfOk result (λ cache. T.leaf_of cache.tree ≡ T.leaf_of tree) }
        ensures joins { IfOk result (λ cache. T.join_of cache.tree ≡ T.join_of tree) }
        ensures nodes { IfOk result (KeepsNodes (T.leaf_of tree) (T.join_of tree) height 0) }
    {
        Self::for_leaf(alloc, tree, height, 0)
    }

    /// As `new`, but keeps the block of leaf `q`: a path of a leaf in it then makes no leaf. The caller keeps q below
    /// `2^height`.
    pub fn for_leaf(alloc: Global, tree: T, height: u8, q: u32) -> Result<PathCache<T>, OutOfMemory>
    where
        T: Drop,
        requires at_most_25 { height ≤ 25 }
        requires fresh { T.made tree ≡ 0 }
        requires is_leaf { q < 2 ^ height }
        ensures counted { IfOk result (λ cache. T.made cache.tree ≡ 2 ^ height) }
        ensures leaves { IfOk result (λ cache. T.leaf_of cache.tree ≡ T.leaf_of tree) }
        ensures joins { IfOk result (λ cache. T.join_of cache.tree ≡ T.join_of tree) }
        ensures nodes { IfOk result
            (KeepsNodes (T.leaf_of tree) (T.join_of tree) height (q / 2 ^ block_height height)) }
    {
        let (cache, _) = Self::for_leaf_telling(alloc, tree, height, q, Silent::new())?;
        Ok(cache)
    }

    /// As `for_leaf`, and tells a `Progress` of the leaves while they are made. If memory is refused, it hears of none,
    /// and is given back.
    pub fn for_leaf_telling<P: Progress + Drop>(
        alloc: Global,
        tree: T,
        height: u8,
        q: u32,
        progress: P,
    ) -> Result<(PathCache<T>, P), Untold<P>>
    where
        T: Drop,
        requires at_most_25 { height ≤ 25 }
        requires fresh { T.made tree ≡ 0 }
        requires is_leaf { q < 2 ^ height }
        requires untold { P.told progress ≡ 0 }
        requires within { 2 ^ height ≤ P.most progress }
        ensures counted { IfOk result (λ made. T.made made.0.tree ≡ 2 ^ height) }
        ensures leaves { IfOk result (λ made. T.leaf_of made.0.tree ≡ T.leaf_of tree) }
        ensures joins { IfOk result (λ made. T.join_of made.0.tree ≡ T.join_of tree) }
        ensures nodes { IfOk result
            (λ made. KeepsNodes (T.leaf_of tree) (T.join_of tree) height (q / 2 ^ block_height height) made.0) }
        // Of each leaf one was told.
        ensures told { IfOk result (λ made. P.told made.1 ≡ 2 ^ height) }
        ensures untold { IfErr result (λ refused. P.told refused.progress ≡ 0) }
    {
        let block_height = height / 2;
        let Ok(mut upper) = zeroed_nodes(alloc, height - block_height) else {
            return Err(Untold { progress });
        };
        let Ok(mut block) = zeroed_nodes(alloc, block_height) else {
            return Err(Untold { progress });
        };
        let kept_index = block_of(height, q);
        let leaves = 2u64.pow(u32::from(height));
        let mut told = Told::new(tree, progress, leaves);
        make_nodes(&mut told, 0, block_height, kept_index, &mut block);
        let block_root = block[block.len() - 1];
        make_around(
            &mut told,
            block_height,
            height - block_height,
            0,
            kept_index,
            &block_root,
            &mut upper,
        );
        let (tree, progress) = told.into_parts();
        let cache = PathCache {
            tree,
            height,
            upper,
            block,
            kept_index,
            leaves,
        };
        Ok((cache, progress))
    }

    /// The authentication path of leaf q (RFC 8554 5.4, RFC 8391 4.1.9), the leaf's sibling first. If q's block isn't
    /// kept, its leaves are made, and it is kept from then on. The caller keeps q below `2^height`, and `into` as long
    /// as the tree is high.
    pub fn path_at(&mut self, q: u32, into: &mut [[u8; 32]])
        requires is_leaf { q < 2 ^ self.old.height }
        requires exact_length { length into.old ≡ self.old.height }
        ensures value { into.new ≡ path_at (T.leaf_of self.old.tree) (T.join_of self.old.tree) self.old.height q }
        // The leaves of a block are made if it isn't kept, and no others.
        ensures counted { let index = q / 2 ^ block_height self.old.height in
            T.made self.new.tree
            ≡ T.made self.old.tree + (if index == self.old.kept_index then 0 else 2 ^ block_height self.old.height) }
        ensures leaves { T.leaf_of self.new.tree ≡ T.leaf_of self.old.tree }
        ensures joins { T.join_of self.new.tree ≡ T.join_of self.old.tree }
        ensures nodes { KeepsNodes (T.leaf_of self.old.tree) (T.join_of self.old.tree) self.old.height
            (q / 2 ^ block_height self.old.height) self.new }
    {
        let block_height = self.height / 2;
        let index = block_of(self.height, q);
        self.make_block(index);
        let (lower, upper) = into.split_at_mut(usize::from(block_height));
        read_path(&self.block, q, lower);
        read_path(&self.upper, index, upper);
    }

    // Makes and keeps a block, unless it is the kept one.
    fn make_block(&mut self, index: u32)
        requires { index < 2 ^ (self.old.height - block_height self.old.height) }
        ensures counted { T.made self.new.tree
            ≡ T.made self.old.tree + (if index == self.old.kept_index then 0 else 2 ^ block_height self.old.height) }
        ensures leaves { T.leaf_of self.new.tree ≡ T.leaf_of self.old.tree }
        ensures joins { T.join_of self.new.tree ≡ T.join_of self.old.tree }
        ensures nodes { KeepsNodes (T.leaf_of self.old.tree) (T.join_of self.old.tree) self.old.height index self.new }
    {
        if index == self.kept_index {
            return;
        }
        let block_height = self.height / 2;
        let made = 2u64.pow(u32::from(block_height));
        let leaves = self.leaves.saturating_add(made);
        make_nodes(&mut self.tree, 0, block_height, index, &mut self.block);
        (self.kept_index, self.leaves) = (index, leaves);
    }

    /// The root of the tree (RFC 8554 5.3, RFC 8391 4.1.6). It makes no leaf.
    pub fn root(&self) -> [u8; 32]
        ensures { result ≡ root_of (T.leaf_of self.now.tree) (T.join_of self.now.tree) self.now.height }
    {
        self.upper[self.upper.len() - 1]
    }

    /// How many leaves the tree has made since it was new, or the greatest u64.
    pub fn leaves_made(&self) -> u64
        ensures { result ≡ min (T.made self.now.tree) (2 ^ 64 - 1) }
    {
        self.leaves
    }
}

// The block of leaf q, from the left.
fn block_of(height: u8, q: u32) -> u32
    requires at_most_25 { height ≤ 25 }
    requires is_leaf { q < 2 ^ height }
    ensures index { result ≡ q / 2 ^ block_height height }
    ensures is_block { result < 2 ^ (height - block_height height) }
{
    q / 2u32.pow(u32::from(height / 2))
}

// Room for the nodes of a tree of this height: `2^(height + 1) - 1`.
fn zeroed_nodes(alloc: Global, height: u8) -> Result<Vec<[u8; 32]>, OutOfMemory>
    requires { height ≤ 25 }
    ensures { IfOk result (λ nodes. vec_len nodes + 1 ≡ 2 ^ (height + 1)) }
{
    let count = 2usize.pow(u32::from(height) + 1) - 1;
    Ok(vec![in alloc; [0; 32]; count]?)
}
