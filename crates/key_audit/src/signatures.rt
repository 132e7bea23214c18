//! How many new names a key can still sign.

ghost use Rattle.std.specs.Prelude.{◌≡◌, ◌+◌, ◌*◌, ◌^◌, ◌<◌, ◌≤◌, SomeIff};
ghost use Rattle.key_audit.specs.Listing.{shown_of_listing};
ghost use Rattle.key_audit.specs.Signatures.{below_2_64, ends_moved, names_left, signatures_of, tree_leaves_at};

use crate::listing::{Entry, Listing};
use typecodes::Spec;

/// For how many new names the listed key's free leaves are enough; None for 2^64 or more. A file also takes 2^31
/// records at most. Each free leaf above the bottom signs a new tree below it. A file whose records go on in another
/// one signs none.
pub fn count_signatures(listing: &Listing) -> Option<u64>
    ensures { result ≡ below_2_64 (signatures_of (shown_of_listing listing.now)) }
{
    if has_moved(listing.entries.as_slice()) {
        return Some(0);
    }
    names_left(&listing.spec, listing.left.as_slice())
}

fn has_moved(entries: &[Entry]) -> bool
    ensures { result ≡ ends_moved entries.now }
{
    match entries.last() {
        Some(Entry::Moved) => true,
        _ => false,
    }
}

// From the top level down.
fn names_left(spec: &Spec, left: &[u32]) -> Option<u64>
    ensures { result ≡ below_2_64 (names_left spec.now 0 0 left.now) }
{
    let mut names = 0;
    for level in 0..left.len() {
        names = names_below(names, tree_leaves_at(spec, level), left[level])?;
    }
    Some(names)
}

// The leaves of this number of new trees, and the free leaves of the current one.
fn names_below(trees: u64, leaves: u64, free: u32) -> Option<u64>
    ensures { SomeIff result (trees * leaves + free < 2 ^ 64) (trees * leaves + free) }
{
    trees.checked_mul(leaves)?.checked_add(u64::from(free))
}

fn tree_leaves_at(spec: &Spec, level: usize) -> u64
    ensures { result ≡ tree_leaves_at spec.now level }
{
    match spec {
        Spec::Lms(pair) => leaves(pair.tree.height()),
        Spec::Hss(levels) => match levels.as_slice().get(level) {
            Some(pair) => leaves(pair.tree.height()),
            None => 1,
        },
        Spec::Xmss(tree) => leaves(tree.height()),
    }
}

// The leaves of a tree of this height.
fn leaves(height: u8) -> u64
    requires { height ≤ 25 }
    ensures { result ≡ 2 ^ height }
{
    2u64.pow(u32::from(height))
}
