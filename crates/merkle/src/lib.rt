//! Binary hash trees, over any leaves and any join (RFC 8554 5.3 and 5.4; RFC 8391 4.1.6 and 4.1.9).
//!
//! The model: `specs/Tree.antt` has nodes, roots and authentication paths, by recursion over whole trees.
//! `specs/Ascent.antt` has the nodes through which a path leads, `specs/Nodes.antt` and `specs/Cache.antt` the nodes
//! that a cache keeps.
//!
//! What the crates above rely on: `root` and `path` are the model's, and make as many leaves as they need.
//! `root_and_path` gives both, and makes each leaf once. A `PathCache` gives the same. It makes each leaf once, and
//! then for a path the leaves of at most one block. `root_from_path` gives the last node of the ascent, and the path of
//! leaf q leads from it to the root.
//!
//! Where eight leaves stand under one node of height 3, `TreeHash::leaves_in_lanes` makes them. A tree may make these
//! together; by default it makes them one by one. Fewer leaves are made one by one: in a tree or block of height less
//! than 3, and under the three lowest nodes of a path that is made without a cache.
//!
//! `Told` is a tree that tells a `Progress` how many leaves were made; `PathCache::for_leaf_telling` tells one while a
//! cache is made. What is made is the same.
//!
//! ```rust
//! use merkle::{PathCache, path, root, root_from_path};
//!
//! // a tree of height 2, whose leaves and joins are those of a `TreeHash`
//! let top = root(&mut tree, 2);
//! let mut nodes = [[0; 32]; 2];
//! path(&mut tree, 2, 3, &mut nodes);
//! let leaf = tree.leaf(3);
//! assert_eq!(rt; root_from_path(&tree, 3, &leaf, &nodes), top);
//!
//! // the same of a tree that is kept, in blocks of two leaves
//! let mut cache = PathCache::new(rt.alloc(), other, 2)?;
//! assert_eq!(rt; cache.root(), top);
//! cache.path_at(3, &mut nodes);
//! assert_eq!(rt; cache.leaves_made(), 4 + 2);
//!
//! // and of one whose first path is that of leaf 3
//! let mut cache = PathCache::for_leaf(rt.alloc(), another, 2, 3)?;
//! cache.path_at(3, &mut nodes);
//! assert_eq!(rt; cache.leaves_made(), 4);
//! ```
#![tactic(auto)]

mod ascent;
mod cache;
mod nodes;
mod out_of_memory;
mod progress;
mod tree;

pub use crate::ascent::{root_and_path, root_from_path};
pub use crate::cache::PathCache;
pub use crate::out_of_memory::{OutOfMemory, Untold};
pub use crate::progress::{Progress, Silent, Told};
pub use crate::tree::{NodeHash, TreeHash, path, root};
